// The replay of a logged session: the station carries the log's events out, and each reply is held to the recorded one.
#![tactic(auto)]

ghost use Rattle.std.specs.Prelude.{◌≡◌, ◌<◌, ◌^◌};
ghost use Rattle.messages.specs.Reading.{yes};
ghost use Rattle.rules.specs.Invariant.{Invariant};
ghost use Rattle.session_log.specs.Layout;
ghost use Rattle.session_log.specs.Layout.{item_at, items_at};
ghost use Rattle.session_log.specs.Reading.{read_rules};
ghost use Rattle.session_log.specs.Answers.{places_of, answer_of};
ghost use Rattle.replaying.specs.Replaying.{station_of, first_difference, replay_rules};
ghost use Rattle.replaying.specs.Private.{Ready, Stand, Listed, Turned};

use rules::{LEAST_OUTPUT, Station};
use script::LONGEST_REPLY;
use session_log::{Cause, Configuration, ITEM_OCTETS, Places};

// The station that a log's configuration gives; that of a bad one answers 16 to each event.
pub fn station_of(configuration: Configuration) -> Station
    ensures { (result ≡ station_of configuration) × Invariant result }
{
    rules::configure(
        configuration.address,
        configuration.modem,
        configuration.nid,
        configuration.nmk,
        configuration.exemption == 1,
        rules::edition_of(u64::from(configuration.edition)),
        configuration.carriers,
    )
    .station
}

// Where the event or the reply at a place of a log ends. `session_log` has it for itself: it asks for a bound, which no public function may.
fn behind(log: &[u8], at: usize) -> usize
    requires { at < 2 ^ 32 }
    ensures { result ≡ Layout.behind log.now at }
{
    let head = session_log::head_at(log, at);
    at + ITEM_OCTETS + head[2] as usize
}

// Carries the event at a place of a log out, and gives the station after it if its reply is the one recorded at another place.
fn one_event(
    station: Station,
    log: &[u8],
    event: usize,
    reply: usize,
    out: &mut [u8],
) -> Option<Station>
    requires { Ready station out.old × Stand log.now event reply }
    ensures { Turned station (item_at log.now event) (item_at log.now reply) result }
{
    let head = session_log::head_at(log, event);
    let start = event + ITEM_OCTETS;
    let end = behind(log, event);
    let happened = script::carry_out(
        station,
        u64::from(head[0]),
        head[1],
        LEAST_OUTPUT,
        &log[start..end],
        out,
    )?;
    let reply_end = behind(log, reply);
    (out[..happened.octets] == log[reply..reply_end]).then_some(happened.left)
}

// The number of the first event whose recorded reply differs, or 0.
// A number and no `Option`: it is the one that `replay_rules` gives and the program prints.
fn first_difference(
    station: Station,
    log: &[u8],
    count: usize,
    events: usize,
    replies: usize,
    out: &mut [u8],
) -> usize
    requires { Ready station out.old × Listed log.now count events replies }
    ensures { result ≡ first_difference station (items_at log.now count events) (items_at log.now count replies) }
{
    let mut s = station;
    let mut event = events;
    let mut reply = replies;
    for i in 0..count {
        let Some(next) = one_event(s, log, event, reply, out) else {
            return i + 1;
        };
        s = next;
        event = behind(log, event);
        reply = behind(log, reply);
    }
    0
}

// The same of a log that was read.
fn difference_in(log: &[u8], places: Places) -> usize
    requires { yes places ≡ places_of log.now (read_rules log.now) }
    ensures { yes result ≡ replay_rules log.now }
{
    let mut out = [0; LONGEST_REPLY];
    let station = station_of(session_log::configuration_in(log));
    first_difference(
        station,
        log,
        places.count,
        places.events,
        places.replies,
        &mut out,
    )
}

// Replays a log, any octets of any length: the cause by which it is refused, or the number of the first event whose recorded reply
// differs, from 1, and 0 if none does.
pub fn replay(log: &[u8]) -> Result<usize, Cause>
    ensures { answer_of result ≡ replay_rules log.now }
{
    let places = session_log::read(log)?;
    Ok(difference_in(log, places))
}
