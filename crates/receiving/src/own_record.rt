// START, SOUND, RSP, PROFILE and the second VALIDATE.REQ at the car's own record.
// `GoodRecord` is asked for and stands in no type: it goes by the station's edition, which no record holds.
ghost use Rattle.std.specs.Prelude.{◌≡◌};
ghost use Rattle.messages.specs.Reading.{beside_of, read_rules};
ghost use Rattle.rules.specs.Invariant.{GoodRecord};
ghost use Rattle.records.specs.Requests.{kept_of};
ghost use Rattle.receiving.specs.AtRecord.{own_rule};

use crate::judge::OwnMessage;
use messages::{Edition, Refusal};
use records::changes::Kept;
use records::requests;
use rules::{Phase, Record};

// PROFILE at the car's record: its group values are read from the frame only where it is accepted.
#[tactic(auto, unfolding(rules::specs::Frames::profile_rule))]
fn profile(edition: Edition, r: Record, count: usize, octets: &[u8]) -> Result<Kept, Refusal>
    requires { GoodRecord edition r }
    ensures { kept_of result ≡ own_rule edition (OwnMessage.Profile count) (beside_of (read_rules edition octets.now)) r }
{
    let Phase::Sounding(_) = r.phase else {
        return Err(Refusal::WrongPhase);
    };
    requests::profile(edition, r, count, messages::groups(edition, octets))
}

// START, SOUND, RSP, PROFILE or the second VALIDATE.REQ at the car's record.
pub fn at_record(
    edition: Edition,
    r: Record,
    message: OwnMessage,
    octets: &[u8],
) -> Result<Kept, Refusal>
    requires { GoodRecord edition r }
    ensures { kept_of result ≡ own_rule edition message (beside_of (read_rules edition octets.now)) r }
{
    match message {
        OwnMessage::Run { run, message } => requests::at_run(edition, r, run, message),
        OwnMessage::Profile(count) => profile(edition, r, count, octets),
        OwnMessage::ValidateSecond(timer) => requests::validate_second(r, timer),
    }
}
