// Pilot, terminate and link up, in a station that is well configured.
ghost use Rattle.std.specs.Prelude.{◌≡◌, []};
ghost use Rattle.rules.specs.Events as rule;
ghost use Rattle.rules.specs.Events.{ended, pilot_done};
ghost use Rattle.rules.specs.Stations.{shared, inner, done};
ghost use Rattle.rules.specs.Rules.{takes_pilot};
ghost use Rattle.rules.specs.Validation.{turn};
ghost use Rattle.station.specs.Steps.{Gives, shared_as};

use crate::{answers, freeing, validating};
use ends::Indication;
use messages::CarAddress;
use records::validation;
use rules::{ADMISSION_TIME, Pilot, State, Station, Stepped};

// Whether the pilot is at B, C or D.
#[tactic(auto, unfolding(rules::specs::Events::plugged))]
pub fn plugged(pilot: Pilot) -> bool
    ensures { result ≡ rule.plugged pilot }
{
    matches!(pilot, Pilot::B | Pilot::C | Pilot::D)
}

// Whether the pilot is at B.
#[tactic(auto, unfolding(rules::specs::Events::is_b))]
pub(crate) fn is_b(pilot: Pilot) -> bool
    ensures { result ≡ rule.is_b pilot }
{
    pilot == Pilot::B
}

// What the end of a state indicates.
#[tactic(auto, unfolding(rules::specs::Events::lost))]
pub fn lost(state: State) -> Indication
    ensures { result ≡ rule.lost state }
{
    match state {
        State::Matching(_) | State::Joining { .. } => Indication::NoLink,
        State::Unmatched | State::Matched(_) => Indication::Nothing,
    }
}

// The station Unmatched, with its records free.
pub(crate) fn end(station: Station, pilot: Pilot, clock: u32) -> Stepped
    ensures { Gives (shared_as station pilot clock) (ended (inner station)) [] [] result }
{
    let indication = lost(station.state);
    let free = freeing::free_all(station.records);
    let next = answers::anew(station, pilot, clock, State::Unmatched, free);
    answers::without_frames(next, indication)
}

// A pilot change: a plug-in, one among B, C and D, which may begin or end a toggle, or a loss.
pub(crate) fn change(station: Station, pilot: Pilot, reading: u32) -> Stepped
    ensures { Gives (takes_pilot pilot reading (shared station)) (pilot_done (rule.plugged station.pilot) (rule.plugged pilot) (turn station.pilot pilot) (inner station)) [] [] result }
{
    if !plugged(pilot) {
        return end(station, pilot, reading);
    }
    if plugged(station.pilot) {
        let turn = validation::turn_of(station.pilot, pilot);
        let toggled = validating::toggle_all(station.records, turn);
        let next = answers::anew(station, pilot, station.clock, station.state, toggled);
        answers::without_frames(next, Indication::Nothing)
    } else {
        let free = freeing::free_all(station.records);
        let next = answers::anew(
            station,
            pilot,
            reading,
            State::Matching(ADMISSION_TIME),
            free,
        );
        answers::without_frames(next, Indication::Nothing)
    }
}

// The station Matched with the car that joined, and the link established.
pub(crate) fn linked(station: Station, car: CarAddress) -> Stepped
    ensures { Gives (shared station) (done (State.Matched car) station.records [] Indication.LinkEstablished) [] [] result }
{
    let pilot = station.pilot;
    let records = station.records;
    let next = answers::anew(station, pilot, station.clock, State::Matched(car), records);
    answers::without_frames(next, Indication::LinkEstablished)
}
