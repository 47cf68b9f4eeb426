// What a station's message does: 8, 11, 20, 18, or a change of the car and its reply.
#![tactic(auto, unfolding(car_rules::specs::Frames::effect_rule, octets::specs::Octets::splice, ends::specs::Lists::joins))]

ghost use Rattle.std.specs.Prelude.{ℕ, ◌≡◌, true, List};
ghost use Rattle.messages.specs.Table.{is_unicast};
ghost use Rattle.car_rules.specs.Frames as rule;
ghost use Rattle.car_rules.specs.Frames.{gathers, repeats, effect_in, effect_rule, state_rule};
ghost use Rattle.car.specs.Judge.{groups_in, received_of, message_of};
ghost use Rattle.car.specs.Frames.{effect_of, effect_answer_of};
ghost use Rattle.car.specs.Steps.{Comes, Ready};
ghost use Rattle.car.specs.Reports.{ReportsGood};

use crate::judge::{Received, StationMessage};
use crate::{cars, reports, sending};
use car_rules::{CONFIRMED_TIME, Car, Key, Report, STATIONS, State, Stepped};
use ends::{Indication, JOINING_TIME};
use messages::{Edition, Nid, Nmk, Refusal, StationAddress};

// What a message does in a state that takes it; a report's group values stand in the frame.
#[derive(Clone, Copy)]
pub(crate) enum Effect {
    Confirms,
    Stays,
    Gathers(u8),
    Repeats(u8),
    Joins { nid: Nid, nmk: Nmk },
}

// What a message does in a state; 8 where the state does not take it.
#[tactic(auto, unfolding(car_rules::specs::Frames::effect_in))]
fn effect_in(state: State, message: StationMessage) -> Result<Effect, Refusal>
    ensures { (g : List ℕ) → effect_answer_of result g ≡ effect_in state (message_of message g) }
{
    match (state, message) {
        (State::Asking { .. }, StationMessage::ParmCnf) => Ok(Effect::Confirms),
        (State::Confirmed(_) | State::Sounding { .. }, StationMessage::ParmCnf) => {
            Ok(Effect::Stays)
        }
        (State::Sounding { .. }, StationMessage::Report(sounds)) => Ok(Effect::Gathers(sounds)),
        (State::Requesting { .. }, StationMessage::Report(sounds)) => Ok(Effect::Repeats(sounds)),
        (State::Requesting { .. }, StationMessage::MatchCnf { nid, nmk }) => {
            Ok(Effect::Joins { nid, nmk })
        }
        _ => Err(Refusal::WrongState),
    }
}

// Whether a station is the chosen one, in Requesting.
#[tactic(auto, unfolding(car_rules::specs::Frames::from_chosen, car_rules::specs::Frames::same_station))]
fn from_chosen(state: State, station: StationAddress) -> bool
    ensures { result ≡ rule.from_chosen state station }
{
    match state {
        State::Requesting {
            station: chosen,
            ..
        } => station == chosen,
        _ => true,
    }
}

// A report in Sounding; `ReportsGood` is the part of `Invariant` that reports need, and stands in no type for the same reason: 20 where it tells of no sounds; else it is answered, and a station's first one is kept: 18 where there is no place for it.
fn gather(car: Car, station: StationAddress, sounds: u8, octets: &[u8], out: &mut [u8]) -> Stepped
    requires { Ready car out.old × ReportsGood car × (is_unicast station.0 ≡ true) }
    ensures { Comes car (effect_rule car station (gathers sounds (groups_in octets.now))) out.old out.new result }
{
    if sounds == 0 {
        return cars::refused(car, Refusal::NoSounds);
    }
    if reports::has_reported(&car.reports[..car.count], station) {
        return sending::response(car, station, out);
    }
    if car.count >= STATIONS {
        return cars::refused(car, Refusal::ReportsFull);
    }
    let total = reports::total(messages::groups(Edition::Iso, octets));
    sending::response(reports::keep(car, Report { station, total }), station, out)
}

// A report in Requesting: 20 where it tells of no sounds; else it is answered.
fn answer_again(car: Car, station: StationAddress, sounds: u8, out: &mut [u8]) -> Stepped
    requires { Ready car out.old × (is_unicast station.0 ≡ true) }
    ensures { Comes car (effect_rule car station (repeats sounds)) out.old out.new result }
{
    if sounds == 0 {
        return cars::refused(car, Refusal::NoSounds);
    }
    sending::response(car, station, out)
}

// What is taken.
fn apply(
    car: Car,
    station: StationAddress,
    effect: Effect,
    octets: &[u8],
    out: &mut [u8],
) -> Stepped
    requires { Ready car out.old × ReportsGood car × (is_unicast station.0 ≡ true) }
    ensures { Comes car (effect_rule car station (effect_of effect (groups_in octets.now))) out.old out.new result }
{
    match effect {
        Effect::Confirms => {
            let state = State::Confirmed(CONFIRMED_TIME);
            cars::silent(Car { state, ..car }, Indication::Nothing)
        }
        Effect::Stays => cars::silent(car, Indication::Nothing),
        Effect::Gathers(sounds) => gather(car, station, sounds, octets, out),
        Effect::Repeats(sounds) => answer_again(car, station, sounds, out),
        Effect::Joins { nid, nmk } => {
            let state = State::Joining {
                left: JOINING_TIME,
                key: Key { station, nid, nmk },
            };
            cars::silent(Car { state, ..car }, Indication::KeyGiven)
        }
    }
}

// A station's message to us: 8, 11, then what it does.
#[tactic(auto, unfolding(car_rules::specs::Frames::state_rule, octets::specs::Octets::splice, ends::specs::Lists::joins))]
pub(crate) fn take(car: Car, received: Received, octets: &[u8], out: &mut [u8]) -> Stepped
    requires { Ready car out.old × ReportsGood car × (is_unicast received.station.0 ≡ true) }
    ensures { (d : ℕ) → Comes car (state_rule car (received_of d received (groups_in octets.now))) out.old out.new result }
{
    let Received {
        station,
        run,
        message,
    } = received;
    match effect_in(car.state, message) {
        Ok(effect) if run == car.run && from_chosen(car.state, station) => {
            apply(car, station, effect, octets, out)
        }
        Ok(_) => cars::refused(car, Refusal::NoRecord),
        Err(refusal) => cars::refused(car, refusal),
    }
}
