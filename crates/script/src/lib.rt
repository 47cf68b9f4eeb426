// The bench script: its head, its events and their replies, in octets. The car's is in a module of its own.
#![tactic(auto)]

mod car_doing;
mod doing;
mod events;
pub mod of_car;
mod reductions;
mod replies;
pub mod scripted;
mod told;

ghost use Rattle.std.specs.Prelude.{◌≡◌, length};
ghost use Rattle.rules.specs.Invariant.{Invariant};
ghost use Rattle.script.specs.Ends.{carried_out_as, carried_out};
ghost use Rattle.script.specs.Events.{length_in};
ghost use Rattle.script.specs.Layout.{is_head, count_in, kinds};
ghost use Rattle.script.specs.Promises.{Starts, Happens};

use events::number_at;
use messages::{ModemAddress, Nid, Nmk, StationAddress};
use rules::Station;

// How many octets the head takes: two addresses, NID, NMK, the exemption, the edition, our carriers and the number of events.
pub const HEAD_OCTETS: usize = 51;

// How many octets stand in front of an event's own: kind, reading, room and length.
pub const EVENT_OCTETS: usize = 16;

// How many octets stand in front of a reply's own: refusal, indication and length.
pub const REPLY_OCTETS: usize = 12;

// The most octets of an event, and of the output that it is lent.
pub const MOST_OCTETS: usize = 4096;

// How many octets the longest reply takes.
pub const LONGEST_REPLY: usize = REPLY_OCTETS + MOST_OCTETS;

// A number's four octets.
pub type NumberOctets = [u8; 4];

// The station or the car that a script starts with, and the octets of configuring's answer.
#[derive(Clone, Copy)]
pub struct Started<S> {
    pub first: S,
    pub answer: NumberOctets,
}

// What an event that is carried out leaves of a station or a car, and how many octets the reply takes.
#[derive(Clone, Copy)]
pub struct Happened<S> {
    pub left: S,
    pub octets: usize,
}

// Whether a head keeps to the layout: one that breaks it has no answer.
pub fn is_head(head: &[u8]) -> bool
    ensures { result ≡ is_head head.now }
{
    number_at(head, 35) < 2 && number_at(head, 39) < 2
}

// Configures a station as the head says.
pub fn start(head: &[u8]) -> Started<Station>
    ensures { Starts head.now result }
{
    let configured = rules::configure(
        StationAddress(octets::number_at(head, 0, 6)),
        ModemAddress(octets::number_at(head, 6, 6)),
        Nid(octets::low_number_at(head, 12, 7)),
        Nmk(
            octets::number_at(head, 19, 8),
            octets::number_at(head, 27, 8),
        ),
        number_at(head, 35) == 1,
        rules::edition_of(u64::from(number_at(head, 39))),
        number_at(head, 43),
    );
    Started {
        first: configured.station,
        answer: replies::answer_octets(configured.answer),
    }
}

// The number of events that the head tells.
pub fn event_count(head: &[u8]) -> u64
    ensures { result ≡ count_in head.now }
{
    u64::from(number_at(head, 47))
}

// How many octets follow an event's first ones.
pub fn event_length(event: &[u8]) -> u64
    ensures { result ≡ length_in event.now }
{
    u64::from(number_at(event, 12))
}

// Carries out the event of a kind with a reading, a room and octets: its reply stands from the output's first octet. An event that
// is of no kind does nothing, and so does a room over 4,096 or an output that is shorter than the longest reply.
pub fn carry_out(
    station: Station,
    kind: u64,
    reading: u32,
    room: usize,
    octets: &[u8],
    out: &mut [u8],
) -> Option<Happened<Station>>
    requires { Invariant station }
    ensures { Happens station (carried_out_as kinds kind reading room octets.now (length out.old)) out.old out.new result }
{
    if !(LONGEST_REPLY <= out.len() && room <= MOST_OCTETS) {
        return None;
    }
    let event = doing::event_of(kind, octets)?;
    Some(doing::carry_out(station, event, reading, room, octets, out))
}

// Carries an event out: its reply stands from the output's first octet. Octets that break the layout do nothing, and so does
// an output that is shorter than the longest reply.
#[tactic(auto, using(crate::proofs::EventLaws::not_sized, crate::proofs::EventLaws::sized_as))]
pub fn event(station: Station, event: &[u8], out: &mut [u8]) -> Option<Happened<Station>>
    requires { Invariant station }
    ensures { Happens station (carried_out kinds event.now (length out.old)) out.old out.new result }
{
    let head = events::head_of(event)?;
    let octets = &event[EVENT_OCTETS..];
    carry_out(station, head.kind, head.reading, head.room, octets, out)
}
