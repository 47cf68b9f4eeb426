// A frame that is none of the eleven messages: refused, or AMP_MAP.REQ.
ghost use Rattle.std.specs.Prelude.{◌≡◌, length};
ghost use Rattle.messages.specs.Answers.{number_of};
ghost use Rattle.messages.specs.Reading.{no};
ghost use Rattle.rules.specs.Calls as calls;
ghost use Rattle.rules.specs.Frames.{state_rule};
ghost use Rattle.rules.specs.Invariant.{Invariant};
ghost use Rattle.rules.specs.Received.{map_req};
ghost use Rattle.rules.specs.Rules.{rule};
ghost use Rattle.rules.specs.Stations.{shared, inner};
ghost use Rattle.receiving.specs.Judge.{judge_rule};
ghost use Rattle.station.specs.Frames.{Ready, Comes};

use crate::answers;
use messages::{CarAddress, Refusal};
use receiving::{judge, maps};
use rules::{State, Station, Stepped};

// AMP_MAP.REQ in Matched: the matched car's with our number of carriers is confirmed, and nothing changes.
fn map_req(station: Station, car: CarAddress, carriers: usize, out: &mut [u8]) -> Stepped
    requires { Ready station car out.old }
    ensures { Comes station (state_rule station.config station.state station.records car (map_req carriers)) out.old out.new result }
{
    let State::Matched(owner) = station.state else {
        return answers::refused(station, Refusal::WrongState);
    };
    let answer = maps::answer(station.config, owner, car, carriers, out);
    Stepped { station, answer }
}

// A frame that was refused as one of the eleven messages: where its type is none of theirs, it may be one of amplitude maps.
pub(crate) fn unread(station: Station, refusal: Refusal, octets: &[u8], out: &mut [u8]) -> Stepped
    requires { Invariant station × (judge_rule station.config (length out.old) octets.now ≡ no (number_of refusal)) }
    ensures { Comes station (rule (shared station) (inner station) (calls.frame octets.now (length out.old))) out.old out.new result }
{
    if !judge::is_unknown(refusal) {
        return answers::refused(station, refusal);
    }
    match judge::judge_map(station.config, octets) {
        Err(untaken) => answers::refused(station, untaken),
        Ok(asking) => map_req(station, asking.car, asking.carriers, out),
    }
}
