// What a station's events are, and carrying one out in an output that the longest reply fits.
// Reading, room and octets go one by one: `call_as` and `event_as` name each.
ghost use Rattle.std.specs.Prelude.{◌≡◌, ℕ, get_or, length, IfSome};
ghost use Rattle.std.proofs.Math.Option.{none};
ghost use Rattle.rules.specs.Answers.{Answers};
ghost use Rattle.rules.specs.Invariant.{Invariant};
ghost use Rattle.script.specs.Layout.{kinds, pilot_in, query_in};
ghost use Rattle.script.specs.Meaning.{call_as, event_as, event_in, Fitting};
ghost use Rattle.script.specs.Promises.{CarriesOut};
ghost use Rattle.script.specs.Private.{RoomReady};

use crate::{Happened, REPLY_OCTETS, reductions, replies};
use messages::CarAddress;
use rules::{Pilot, Station, Stepped};

// A call of the station.
#[derive(Clone, Copy)]
pub(crate) enum Call {
    Frame,
    Tick,
    Pilot(Pilot),
    Terminate,
    LinkUp,
}

// An event: a call, or what changes no station.
#[derive(Clone, Copy)]
pub(crate) enum Event {
    Call(Call),
    Query(CarAddress),
    Reduction,
    Inspection,
}

// A pilot event's octets: one, the number of the pilot state.
fn pilot_in(octets: &[u8]) -> Option<Event>
    ensures event { (t room : ℕ) → event_in t room octets.now result ≡ pilot_in t octets.now }
    ensures fitting { IfSome result (Fitting octets.now) }
{
    let n = octets::number_at(octets, 0, 1);
    (octets.len() == 1 && n < 6).then_some(Event::Call(Call::Pilot(Pilot::from(n))))
}

// A service query's octets: six, the car's address.
fn query_in(octets: &[u8]) -> Option<Event>
    ensures event { (t room : ℕ) → event_in t room octets.now result ≡ query_in octets.now }
    ensures fitting { IfSome result (Fitting octets.now) }
{
    let car = CarAddress(octets::number_at(octets, 0, 6));
    (octets.len() == 6).then_some(Event::Query(car))
}

// The event of a kind, where its octets are as the kind asks; by its number, as a script has it: `Layout.kinds` has the kinds in this order.
#[tactic(auto, using(crate::proofs::MeaningLaws::station_given), unfolding(crate::specs::Layout::kinds))]
pub(crate) fn event_of(kind: u64, octets: &[u8]) -> Option<Event>
    ensures event { (t room : ℕ) → event_in t room octets.now result ≡ get_or (kinds t room octets.now) kind none }
    ensures fitting { IfSome result (Fitting octets.now) }
{
    let empty = octets.is_empty();
    match kind {
        0 => Some(Event::Call(Call::Frame)),
        1 => empty.then_some(Event::Call(Call::Tick)),
        2 => pilot_in(octets),
        3 => empty.then_some(Event::Call(Call::Terminate)),
        4 => empty.then_some(Event::Call(Call::LinkUp)),
        5 => query_in(octets),
        6 => reductions::is_reduction(octets).then_some(Event::Reduction),
        7 => empty.then_some(Event::Inspection),
        _ => None,
    }
}

// A call that is lent an output.
#[tactic(auto, using(crate::proofs::CallLaws::station_alone))]
fn step(station: Station, call: Call, reading: u32, octets: &[u8], lent: &mut [u8]) -> Stepped
    requires { Invariant station }
    ensures { Answers station (call_as reading (length lent.old) octets.now call) lent.old lent.new result }
{
    match call {
        Call::Frame => station::frame(station, octets, lent),
        Call::Tick => station::tick(station, reading, lent),
        Call::Pilot(pilot) => station::pilot(station, pilot, reading),
        Call::Terminate => station::terminate(station),
        Call::LinkUp => station::link_up(station),
    }
}

// Carries an event out: a call and a reduction are lent the part of the output behind the reply's first octets.
pub(crate) fn carry_out(
    station: Station,
    event: Event,
    reading: u32,
    room: usize,
    octets: &[u8],
    out: &mut [u8],
) -> Happened<Station>
    requires ready { RoomReady (Invariant station) room out.old }
    requires fitting { Fitting octets.now event }
    ensures { CarriesOut station (event_as reading room octets.now event) out.old out.new result }
{
    let end = REPLY_OCTETS + room;
    match event {
        Event::Call(call) => {
            let stepped = step(station, call, reading, octets, &mut out[REPLY_OCTETS..end]);
            Happened {
                left: stepped.station,
                octets: replies::put_answer(out, stepped.answer),
            }
        }
        Event::Reduction => {
            let answer = reductions::reduce(octets, &mut out[REPLY_OCTETS..end]);
            Happened {
                left: station,
                octets: replies::put_answer(out, answer),
            }
        }
        Event::Query(car) => Happened {
            left: station,
            octets: replies::put_told(out, rules::query(station, car)),
        },
        Event::Inspection => Happened {
            left: station,
            octets: replies::put_told(out, rules::inspect(station.config, station.state)),
        },
    }
}
