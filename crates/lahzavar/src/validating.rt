// The first VALIDATE.REQ, in place: of other cars' records the phase is read.
ghost use Rattle.std.specs.Prelude.{◌<◌, ◌≡◌, [], ◌∷◌};
ghost use Rattle.messages.specs.Table.{result_limit};
ghost use Rattle.rules.specs.Frames.{keeps};
ghost use Rattle.rules.specs.Invariant.{GoodRecord};
ghost use Rattle.rules.specs.Received.{for_record, validate_first};
ghost use Rattle.rules.specs.Records.{owned};
ghost use Rattle.rules.specs.Replies.{confirmation};
ghost use Rattle.records.specs.Requests.{validated_of};
ghost use Rattle.station.specs.Frames.{Ready};
ghost use Rattle.words.specs.Words.{edition_in, station_of};
ghost use Rattle.lahzavar.specs.Frames.{Takes, Puts};

use crate::{Answered, answers, frames};
use messages::{CarAddress, Refusal};
use receiving::reply;
use records::{changes, requests, validation};
use rules::{Record, State};
use words::{StationSpread, StationSums, StationWords};

// The car's record put back at place i, and VALIDATE.CNF with a result and no toggles.
fn confirm(
    words: &mut StationWords,
    sums: &mut StationSums,
    spread: &mut StationSpread,
    i: usize,
    car: CarAddress,
    left: Record,
    res: u8,
    out: &mut [u8],
) -> Answered
    requires { Ready (station_of words.old sums.old spread.old) car out.old × (GoodRecord (edition_in words.old) (owned car left) × (res < result_limit)) }
    ensures { Puts i car (keeps left (confirmation 0 res ∷ [])) words.old sums.old spread.old out.old out.new words.new sums.new spread.new result }
{
    let config = words::config_of(words);
    let edition = config.edition;
    let r = changes::owned(car, left);
    let message = reply::validate_cnf(config, car, 0, res);
    let groups = messages::no_groups();
    let ids = messages::no_ids();
    frames::sent(
        words, sums, spread, i, r, edition, message, groups, ids, out,
    )
}

// What the request at the record at place i comes to: a refusal, or its confirmation.
fn settle(
    words: &mut StationWords,
    sums: &mut StationSums,
    spread: &mut StationSpread,
    i: usize,
    car: CarAddress,
    validated: Result<Record, Refusal>,
    res: u8,
    out: &mut [u8],
) -> Answered
    requires { Ready (station_of words.old sums.old spread.old) car out.old × (((left : Record) → validated ≡ Ok left → GoodRecord (edition_in words.old) (owned car left)) × (res < result_limit)) }
    ensures { Puts i car (validated_of res validated) words.old sums.old spread.old out.old out.new words.new sums.new spread.new result }
{
    match validated {
        Err(refusal) => answers::refused(refusal),
        Ok(left) => confirm(words, sums, spread, i, car, left, res, out),
    }
}

// The first VALIDATE.REQ: answered at the car's own record, 11 where it has none.
pub(crate) fn validate_first(
    words: &mut StationWords,
    sums: &mut StationSums,
    spread: &mut StationSpread,
    car: CarAddress,
    out: &mut [u8],
) -> Answered
    requires { Ready (station_of words.old sums.old spread.old) car out.old }
    ensures { Takes car (for_record validate_first) words.old sums.old spread.old out.old out.new words.new sums.new spread.new result }
{
    let State::Matching(_) = words::state_of(words) else {
        return answers::refused(Refusal::WrongState);
    };
    let Some(i) = words::own_place(words, car) else {
        return answers::refused(Refusal::NoRecord);
    };
    let any = words::any_validates(words);
    let result = validation::first_result(words::config_of(words).exempt, any);
    let r = words::record_at(words, sums, spread, i);
    let validated = requests::validate_first(r, result);
    settle(words, sums, spread, i, car, validated, result, out)
}
