// The car and the answer that a call comes to.
ghost use Rattle.std.specs.Prelude.{◌≡◌};
ghost use Rattle.ends.specs.Constants.{response_time, retry_count};
ghost use Rattle.car_rules.specs.Cars as rule;
ghost use Rattle.car_rules.specs.Cars.{in_state};
ghost use Rattle.car_rules.specs.Rules as rules;
ghost use Rattle.car.specs.Steps.{refused_as, silent_as};

use car_rules::{Car, State, Stepped};
use ends::{Indication, RESPONSE_TIME, RETRIES};
use messages::{Random, Refusal, RunId};

// A refusal: the car stays as it is.
pub(crate) fn refused(car: Car, refusal: Refusal) -> Stepped
    ensures { result ≡ refused_as car refusal }
{
    let answer = Err(refusal);
    Stepped { car, answer }
}

// An accepted call with no frame.
pub(crate) fn silent(car: Car, indication: Indication) -> Stepped
    ensures { result ≡ silent_as car indication }
{
    let answer = ends::silent(indication);
    Stepped { car, answer }
}

// The car that asks, with a run and a random value, and no reports.
pub(crate) fn begun(car: Car, run: RunId, random: Random, reading: u32) -> Car
    ensures { result ≡ in_state (State.Asking response_time retry_count) (rule.begun run random reading car) }
{
    let state = State::Asking {
        left: RESPONSE_TIME,
        retries: RETRIES,
    };
    Car {
        state,
        clock: reading,
        run,
        random,
        reports: car_rules::no_reports(),
        count: 0,
        ..car
    }
}

// What the end of a state indicates.
#[tactic(auto, unfolding(car_rules::specs::Rules::lost))]
pub(crate) fn lost(state: State) -> Indication
    ensures { result ≡ rules.lost state }
{
    match state {
        State::Idle | State::Matched(_) => Indication::Nothing,
        _ => Indication::NoLink,
    }
}
