// The car's script: its head, its events and their replies, in octets.
ghost use Rattle.std.specs.Prelude.{◌≡◌, length};
ghost use Rattle.car_rules.specs.Invariant.{Invariant};
ghost use Rattle.script.specs.CarLayout.{count_in, kinds};
ghost use Rattle.script.specs.CarPromises.{Starts, Happens};
ghost use Rattle.script.specs.Ends.{carried_out};

use crate::events::number_at;
use crate::{EVENT_OCTETS, Happened, LONGEST_REPLY, Started, car_doing, events, replies};
use car_rules::Car;
use messages::CarAddress;

// How many octets the head takes: our address, the reference and the number of events.
pub const HEAD_OCTETS: usize = 14;

// Configures a car as the head says.
pub fn start(head: &[u8]) -> Started<Car>
    ensures { Starts head.now result }
{
    let configured = car_rules::configure(
        CarAddress(octets::number_at(head, 0, 6)),
        number_at(head, 6),
    );
    Started {
        first: configured.car,
        answer: replies::answer_octets(configured.answer),
    }
}

// The number of events that the head tells.
pub fn event_count(head: &[u8]) -> u64
    ensures { result ≡ count_in head.now }
{
    u64::from(number_at(head, 10))
}

// Carries an event out: its reply stands from the output's first octet. Octets that break the layout do nothing, and so does
// an output that is shorter than the longest reply.
#[tactic(auto, using(crate::proofs::EventLaws::not_sized, crate::proofs::EventLaws::sized_event))]
pub fn event(car: Car, event: &[u8], out: &mut [u8]) -> Option<Happened<Car>>
    requires { Invariant car }
    ensures { Happens car (carried_out kinds event.now (length out.old)) out.old out.new result }
{
    if out.len() < LONGEST_REPLY {
        return None;
    }
    let head = events::head_of(event)?;
    let octets = &event[EVENT_OCTETS..];
    let x = car_doing::event_of(head.kind, octets)?;
    Some(car_doing::carry_out(car, x, head.reading, head.room, octets, out))
}
