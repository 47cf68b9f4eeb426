// Where a PARM.REQ's record goes.
ghost use Rattle.std.specs.Prelude.{◌≡◌, ltb};
ghost use Rattle.messages.specs.Answers.{checked_of};
ghost use Rattle.receiving.specs.AtRecord.{later_at, place_rule, admission_rule};

use messages::{Edition, Refusal, RunId};
use records::find::Found;

// The car's own place, even after admission closed; else 9, 10, or the first free place.
fn place(found: Found, left: u32) -> Result<usize, Refusal>
    ensures { checked_of result ≡ place_rule found (ltb 0 left) }
{
    match found {
        Found::Own(i) => Ok(i),
        _ if left == 0 => Err(Refusal::AdmissionClosed),
        Found::Free(i) => Ok(i),
        Found::Nothing => Err(Refusal::RecordsFull),
    }
}

// 21 where the request's run is empty; else the place of its record.
#[tactic(auto, unfolding(rules::specs::Records::is_empty))]
pub fn place_for(run: RunId, found: Found, left: u32) -> Result<usize, Refusal>
    ensures { checked_of result ≡ admission_rule run found (ltb 0 left) }
{
    if run == RunId(0) {
        return Err(Refusal::EmptyRun);
    }
    place(found, left)
}

// Whether a PARM.REQ makes a later try: where it restarts the car's own record, in the SAE edition.
pub fn is_later(edition: Edition, found: Found) -> bool
    ensures { result ≡ later_at edition found }
{
    matches!((edition, found), (Edition::Sae, Found::Own(_)))
}
