// Which event differs, what was recorded and what came, for a person.
ghost use Rattle.std.specs.Prelude.{◌<◌, IfSome};
ghost use Rattle.rules.specs.Invariant.{Invariant};

use crate::items::{Item, Items};
use rules::{LEAST_OUTPUT, Station};
use script::{Happened, REPLY_OCTETS};
use session_log::Head;
use std::io::{self, Write};

// Carries an event of a log out, as `replaying` does, whose own function holds the reply too and gives no octets.
fn one_event(station: Station, event: Item, out: &mut [u8]) -> Option<Happened<Station>>
    requires { Invariant station }
    ensures { IfSome result (λ h. Invariant h.left) }
{
    script::carry_out(
        station,
        u64::from(event.head[0]),
        event.head[1],
        LEAST_OUTPUT,
        event.octets,
        out,
    )
}

// Carries events of a log out, and gives how many octets the last reply takes.
fn run(station: Station, log: &[u8], from: usize, count: usize, out: &mut [u8]) -> usize
    requires { Invariant station }
{
    let mut s = station;
    let mut octets = 0;
    for event in Items::new(log, from).take(count) {
        octets = 0;
        if let Some(happened) = one_event(s, event, out) {
            s = happened.left;
            octets = happened.octets;
        }
    }
    octets
}

// The kind of an event: by its number, as a log has it, where any number may stand.
fn kind_of(number: u32) -> &'static str {
    match number {
        0 => "a frame",
        1 => "a tick",
        2 => "a pilot change",
        3 => "terminate",
        _ => "link up",
    }
}

// Says refusal, indication and length of a reply.
fn say_head<W: Write>(to: &mut W, name: &str, head: Head) -> io::Result<()> {
    let [refusal, indication, length] = head;
    writeln!(
        to,
        "{name}: refusal {refusal}, indication {indication}, octets of frames {length}"
    )
}

// Says frames, each octet in two hexadecimal digits.
fn say_frames<W: Write>(to: &mut W, name: &str, frames: &[u8]) -> io::Result<()> {
    write!(to, "{name}: ")?;
    for octet in frames {
        write!(to, "{octet:02x}")?;
    }
    writeln!(to)
}

// Says the reply that was recorded and the one that came, and their frames where they differ.
fn say_replies<W: Write>(to: &mut W, recorded: Item, came: &[u8]) -> io::Result<()> {
    say_head(to, "recorded", recorded.head)?;
    say_head(to, "came", session_log::head_at(came, 0))?;
    if let Some(frames) = came.get(REPLY_OCTETS..) {
        if recorded.octets != frames {
            say_frames(to, "recorded frames", recorded.octets)?;
            say_frames(to, "frames that came", frames)?;
        }
    }
    Ok(())
}

// Says how the event with a number, from 1, differs.
pub(crate) fn tell<W: Write>(
    to: &mut W,
    log: &[u8],
    number: usize,
    out: &mut [u8],
) -> io::Result<()>
    requires { 0 < number }
{
    let Ok(places) = session_log::read(log) else {
        return Ok(());
    };
    let events = Items::new(log, places.events);
    let replies = Items::new(log, places.replies);
    let Some((event, recorded)) = events.zip(replies).nth(number - 1) else {
        return Ok(());
    };
    let station = replaying::station_of(session_log::configuration_in(log));
    let octets = run(station, log, places.events, number, out);
    let [kind, reading, _] = event.head;
    writeln!(to, "event {number}, {}, reading {reading}:", kind_of(kind))?;
    say_replies(to, recorded, out.get(..octets).unwrap_or(&[]))
}
