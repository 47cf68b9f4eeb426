// A frame that is none of the eleven messages, in place: refused, or AMP_MAP.REQ; no word is stored.
ghost use Rattle.std.specs.Prelude.{List, ◌≡◌, ℕ, length};
ghost use Rattle.messages.specs.Answers.{number_of};
ghost use Rattle.messages.specs.Reading.{no};
ghost use Rattle.rules.specs.Calls as calls;
ghost use Rattle.rules.specs.Received.{map_req};
ghost use Rattle.receiving.specs.Judge.{judge_rule};
ghost use Rattle.station.specs.Frames.{Ready};
ghost use Rattle.words.specs.Words.{config_of, station_of};
ghost use Rattle.lahzavar.specs.Frames.{Takes};
ghost use Rattle.lahzavar.specs.Lent.{Lent};

use crate::{Answered, answers};
use messages::{CarAddress, Refusal};
use receiving::{judge, maps};
use rules::State;
use words::StationWords;

// AMP_MAP.REQ: in Matched the matched car's with our number of carriers is confirmed; else 8.
fn map_req(words: &StationWords, car: CarAddress, carriers: usize, out: &mut [u8]) -> Answered
    ensures { (s z : List ℕ) → Ready (station_of words.now s z) car out.old → Takes car (map_req carriers) words.now s z out.old out.new words.now s z result }
{
    let State::Matched(owner) = words::state_of(words) else {
        return answers::refused(Refusal::WrongState);
    };
    let config = words::config_of(words);
    answers::answered(maps::answer(config, owner, car, carriers, out))
}

// A frame that was refused as one of the eleven messages: where its type is none of theirs, it may be one of amplitude maps.
pub(crate) fn unread(
    words: &StationWords,
    refusal: Refusal,
    octets: &[u8],
    out: &mut [u8],
) -> Answered
    requires { judge_rule (config_of words.now) (length out.old) octets.now ≡ no (number_of refusal) }
    ensures { (s z : List ℕ) → Lent (calls.frame octets.now (length out.old)) words.now s z out.old out.new words.now s z result }
{
    if !judge::is_unknown(refusal) {
        return answers::refused(refusal);
    }
    match judge::judge_map(words::identity_of(words), octets) {
        Err(untaken) => answers::refused(untaken),
        Ok(asking) => map_req(words, asking.car, asking.carriers, out),
    }
}
