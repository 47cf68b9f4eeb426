// A tick in each state of a station that is well configured.
ghost use Rattle.std.specs.Prelude.{◌≡◌};
ghost use Rattle.rules.specs.Events.{is_b};
ghost use Rattle.rules.specs.Ticks.{tick_done};
ghost use Rattle.station.specs.Steps.{done_as, shared_as, anew, Gives};
ghost use Rattle.station.specs.Reports.{Ready};
ghost use Rattle.station.specs.Passing.{passing};

use crate::{all_records, answers, confirming, events};
use ends::Indication;
use rules::{CONFIRMATION_OCTETS, State, Station, Stepped};

// A state after so many milliseconds, and what is indicated.
#[derive(Clone, Copy)]
pub struct Passed {
    pub state: State,
    pub indication: Indication,
}

// What so many milliseconds make of a state by itself: Joining's time runs; Matching's goes with its records, and the others have none.
pub fn state_after(state: State, elapsed: u32) -> Passed
    ensures { result ≡ passing elapsed state }
{
    let State::Joining {
        left: time,
        car,
        run,
    } = state
    else {
        return Passed {
            state,
            indication: Indication::Nothing,
        };
    };
    let left = ends::left_after(time, elapsed);
    if left == 0 {
        return Passed {
            state: State::Unmatched,
            indication: Indication::NoLink,
        };
    }
    Passed {
        state: State::Joining { left, car, run },
        indication: Indication::Nothing,
    }
}

// What so many milliseconds come to in the station's state.
pub(crate) fn run(station: Station, reading: u32, elapsed: u32, out: &mut [u8]) -> Stepped
    requires { Ready station.config station.records out.old }
    ensures { Gives (shared_as station station.pilot reading) (tick_done station.config (is_b station.pilot) elapsed station.state station.records) out.old out.new result }
{
    if let State::Matching(time) = station.state {
        return matching(station, reading, elapsed, time, out);
    }
    let after = state_after(station.state, elapsed);
    let next = answers::anew(
        station,
        station.pilot,
        reading,
        after.state,
        station.records,
    );
    answers::without_frames(next, after.indication)
}

// Matching: each record's time, then admission's; closed with no record held, the station is Unmatched.
fn matching(station: Station, reading: u32, elapsed: u32, time: u32, out: &mut [u8]) -> Stepped
    requires { Ready station.config station.records out.old }
    ensures { Gives (shared_as station station.pilot reading) (tick_done station.config (is_b station.pilot) elapsed (State.Matching time) station.records) out.old out.new result }
{
    let config = station.config;
    let pilot = station.pilot;
    let records = station.records;
    let back = events::is_b(pilot);
    let ticked = all_records::tick_all(records, elapsed, back, config, out);
    let after = ticked.records;
    let from = ticked.octets;
    let confirmed = confirming::confirm_all(records, elapsed, back, config, &mut out[from..]);
    let octets = from + CONFIRMATION_OCTETS * confirmed;
    let frames = (ticked.reports + confirmed) as u8;
    let left = ends::left_after(time, elapsed);
    if (left == 0) & !all_records::any_held(after) {
        let next = answers::anew(station, pilot, reading, State::Unmatched, after);
        answers::done(next, frames, octets, Indication::NoLink)
    } else {
        let next = answers::anew(station, pilot, reading, State::Matching(left), after);
        answers::done(next, frames, octets, Indication::Nothing)
    }
}
