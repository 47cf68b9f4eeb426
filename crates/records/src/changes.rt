// A record written anew: a fresh one, one with another owner, and one that is kept with its report or without.
ghost use Rattle.std.specs.Prelude.{◌≡◌};
ghost use Rattle.rules.specs.Records as defined;

use messages::{CarAddress, RunId};
use rules::{ASKED_TIME, Phase, Record};

// A record as it is left, and whether it is reported.
// A flag and no `Option`: the record is kept either way.
#[derive(Clone, Copy)]
pub struct Kept {
    pub kept: Record,
    pub reports: bool,
}

// PARM.REQ's record: a new run of the car, in a first or a later try, with nothing heard and nothing counted.
#[tactic(auto, unfolding(rules::specs::Records::fresh))]
pub fn fresh(later: bool, car: CarAddress, run: RunId) -> Record
    ensures { result ≡ defined.fresh later car run }
{
    Record {
        car,
        run,
        held: true,
        phase: Phase::Asked(ASKED_TIME),
        heard: 0,
        profiles: 0,
        sums: rules::no_sums(),
        spread: rules::no_spread(),
        later,
        groups: 0,
    }
}

// The record as the car's own, and held.
#[tactic(auto, unfolding(rules::specs::Records::owned))]
pub fn owned(car: CarAddress, r: Record) -> Record
    ensures { result ≡ defined.owned car r }
{
    Record {
        car,
        held: true,
        ..r
    }
}
