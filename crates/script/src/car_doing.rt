// What a car's events are, and carrying one out in an output that the longest reply fits.
// Twice, here and in `doing`: a trait would have a member for each call, most of which only forward, and each event is said by its own rules
// (`Layout.kinds`, `CarLayout.kinds`), which is no plainer.
ghost use Rattle.std.specs.Prelude.{◌≡◌, ℕ, get_or, length};
ghost use Rattle.std.proofs.Math.Option.{none};
ghost use Rattle.car_rules.specs.Answers.{Answers};
ghost use Rattle.car_rules.specs.Invariant.{Invariant};
ghost use Rattle.script.specs.CarLayout.{kinds, start_in};
ghost use Rattle.script.specs.CarMeaning.{call_as, event_as, event_in};
ghost use Rattle.script.specs.CarPromises.{CarriesOut};
ghost use Rattle.script.specs.Private.{RoomReady};

use crate::{Happened, REPLY_OCTETS, replies};
use car_rules::{Car, Stepped};
use messages::{Random, RunId};

// A call of the car.
#[derive(Clone, Copy)]
pub(crate) enum Call {
    Frame,
    Tick,
    Start(RunId, Random),
    Terminate,
    LinkUp,
}

// An event: a call, or the key query.
#[derive(Clone, Copy)]
pub(crate) enum Event {
    Call(Call),
    Query,
}

// A start's octets: 24, the run and the random value.
fn start_in(octets: &[u8]) -> Option<Event>
    ensures { (t room : ℕ) → event_in t room octets.now result ≡ start_in t room octets.now }
{
    let run = RunId(octets::number_at(octets, 0, 8));
    let random = Random(
        octets::number_at(octets, 8, 8),
        octets::number_at(octets, 16, 8),
    );
    (octets.len() == 24).then_some(Event::Call(Call::Start(run, random)))
}

// The event of a kind, where its octets are as the kind asks; by its number, as a script has it: `CarLayout.kinds` has the kinds in this order.
#[tactic(auto, using(crate::proofs::MeaningLaws::car_given), unfolding(crate::specs::CarLayout::kinds))]
pub(crate) fn event_of(kind: u64, octets: &[u8]) -> Option<Event>
    ensures { (t room : ℕ) → event_in t room octets.now result ≡ get_or (kinds t room octets.now) kind none }
{
    let empty = octets.is_empty();
    match kind {
        0 => Some(Event::Call(Call::Frame)),
        1 => empty.then_some(Event::Call(Call::Tick)),
        2 => start_in(octets),
        3 => empty.then_some(Event::Call(Call::Terminate)),
        4 => empty.then_some(Event::Call(Call::LinkUp)),
        5 => empty.then_some(Event::Query),
        _ => None,
    }
}

// A call that is lent an output.
#[tactic(auto, using(crate::proofs::CallLaws::car_alone))]
fn step(car: Car, call: Call, reading: u32, octets: &[u8], lent: &mut [u8]) -> Stepped
    requires { Invariant car }
    ensures { Answers car (call_as reading (length lent.old) octets.now call) lent.old lent.new result }
{
    match call {
        Call::Frame => car::frame(car, octets, lent),
        Call::Tick => car::tick(car, reading, lent),
        Call::Start(run, random) => car::start(car, run, random, reading, lent),
        Call::Terminate => car::terminate(car),
        Call::LinkUp => car::link_up(car),
    }
}

// Carries an event out: a call is lent the part of the output behind the reply's first octets.
pub(crate) fn carry_out(
    car: Car,
    event: Event,
    reading: u32,
    room: usize,
    octets: &[u8],
    out: &mut [u8],
) -> Happened<Car>
    requires { RoomReady (Invariant car) room out.old }
    ensures { CarriesOut car (event_as reading room octets.now event) out.old out.new result }
{
    let end = REPLY_OCTETS + room;
    match event {
        Event::Call(call) => {
            let stepped = step(car, call, reading, octets, &mut out[REPLY_OCTETS..end]);
            Happened {
                left: stepped.car,
                octets: replies::put_answer(out, stepped.answer),
            }
        }
        Event::Query => Happened {
            left: car,
            octets: replies::put_told(out, car_rules::key_query(car)),
        },
    }
}
