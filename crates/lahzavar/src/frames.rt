// A frame, at one record in place.
// Words, sums and spread are three parameters: C lends them so, and a struct of three borrows would be made in each exported function, taken
// apart in each call of `words`, and named through in each contract, which is no plainer. `Ready` stands in each contract: it is a fact of
// a station, a car and an output together. A message goes with its edition, values and identifiers, as `messages::write` takes them.
ghost use Rattle.std.specs.Prelude.{◌<◌, [], ◌∷◌, length};
ghost use Rattle.messages.specs.Answers.{message_of, besides};
ghost use Rattle.messages.specs.Reading.{beside_of, read_rules};
ghost use Rattle.messages.specs.Writing as writing;
ghost use Rattle.rules.specs.Calls as calls;
ghost use Rattle.rules.specs.Frames.{keeps};
ghost use Rattle.rules.specs.FromOctets.{OctetRequest};
ghost use Rattle.rules.specs.Invariant.{TryFits, GoodRecord};
ghost use Rattle.rules.specs.Received.{for_record, parm_req};
ghost use Rattle.rules.specs.Records.{owned, fresh};
ghost use Rattle.rules.specs.Replies.{parm_cnf, report_of};
ghost use Rattle.records.specs.Requests.{kept_of};
ghost use Rattle.ends.specs.Sending.{Writable};
ghost use Rattle.station.specs.Frames.{Ready, KeepsGood};
ghost use Rattle.receiving.specs.Judge.{own_message_of};
ghost use Rattle.words.specs.Words.{edition_in, station_of};
ghost use Rattle.lahzavar.specs.Frames.{Takes, Puts, Stores};
ghost use Rattle.lahzavar.specs.Lent.{Lent};

use crate::{Answered, answers, maps, matching, validating};
use ends::Indication;
use messages::{CarAddress, Edition, GroupValues, Ids, Message, Refusal, RunId};
use receiving::judge::{OwnMessage, Request};
use receiving::{admission, judge, own_record, reply};
use records::changes::Kept;
use records::{changes, report};
use rules::{Record, State};
use words::{StationSpread, StationSums, StationWords};

// A record stored at place i, and one frame sent.
pub(crate) fn sent(
    words: &mut StationWords,
    sums: &mut StationSums,
    spread: &mut StationSpread,
    i: usize,
    r: Record,
    edition: Edition,
    message: Message,
    values: GroupValues,
    ids: Ids,
    out: &mut [u8],
) -> Answered
    requires { GoodRecord (edition_in words.old) r × Writable (message_of edition message (besides values ids)) (length out.old) }
    ensures { Stores i r (writing.frame (message_of edition message (besides values ids)) ∷ []) words.old sums.old spread.old out.old out.new words.new sums.new spread.new result }
{
    words::put_record(words, sums, spread, i, r);
    let answer = ends::send(edition, message, values, ids, Indication::Nothing, out);
    answers::answered(answer)
}

// PARM.REQ at place i: the record anew, in a first or a later try, and PARM.CNF.
fn admit(
    words: &mut StationWords,
    sums: &mut StationSums,
    spread: &mut StationSpread,
    i: usize,
    car: CarAddress,
    later: bool,
    run: RunId,
    out: &mut [u8],
) -> Answered
    requires { Ready (station_of words.old sums.old spread.old) car out.old × TryFits (edition_in words.old) later }
    ensures { Puts i car (keeps (fresh later car run) (parm_cnf later run ∷ [])) words.old sums.old spread.old out.old out.new words.new sums.new spread.new result }
{
    let config = words::config_of(words);
    let edition = config.edition;
    let r = changes::owned(car, changes::fresh(later, car, run));
    let message = reply::parm_cnf(config, car, later, run);
    let groups = messages::no_groups();
    let ids = messages::no_ids();
    sent(
        words, sums, spread, i, r, edition, message, groups, ids, out,
    )
}

// PARM.REQ: 21, or the car's own record restarts; else 9, 10, or the first free record.
fn parm_req(
    words: &mut StationWords,
    sums: &mut StationSums,
    spread: &mut StationSpread,
    car: CarAddress,
    run: RunId,
    out: &mut [u8],
) -> Answered
    requires { Ready (station_of words.old sums.old spread.old) car out.old }
    ensures { Takes car (for_record (parm_req run)) words.old sums.old spread.old out.old out.new words.new sums.new spread.new result }
{
    let State::Matching(left) = words::state_of(words) else {
        return answers::refused(Refusal::WrongState);
    };
    let found = words::find(words, car);
    let later = admission::is_later(words::edition_of(words), found);
    match admission::place_for(run, found, left) {
        Ok(i) => admit(words, sums, spread, i, car, later, run, out),
        Err(refusal) => answers::refused(refusal),
    }
}

// The car's record put back at place i, and its report.
fn report(
    words: &mut StationWords,
    sums: &mut StationSums,
    spread: &mut StationSpread,
    i: usize,
    car: CarAddress,
    left: Record,
    out: &mut [u8],
) -> Answered
    requires { Ready (station_of words.old sums.old spread.old) car out.old × (GoodRecord (edition_in words.old) (owned car left) × (0 < left.profiles)) }
    ensures { Puts i car (keeps left (report_of left ∷ [])) words.old sums.old spread.old out.old out.new words.new sums.new spread.new result }
{
    let config = words::config_of(words);
    let edition = config.edition;
    let r = changes::owned(car, left);
    let message = reply::report(config, car, r);
    let values = report::values(r);
    let ids = messages::no_ids();
    sent(
        words, sums, spread, i, r, edition, message, values, ids, out,
    )
}

// What a message at the record at place i comes to: a refusal, the record put back, or its report too.
fn settle(
    words: &mut StationWords,
    sums: &mut StationSums,
    spread: &mut StationSpread,
    i: usize,
    car: CarAddress,
    kept: Result<Kept, Refusal>,
    out: &mut [u8],
) -> Answered
    requires { Ready (station_of words.old sums.old spread.old) car out.old × KeepsGood (edition_in words.old) car (kept_of kept) }
    ensures { Puts i car (kept_of kept) words.old sums.old spread.old out.old out.new words.new sums.new spread.new result }
{
    match kept {
        Err(refusal) => answers::refused(refusal),
        Ok(left) => {
            if left.reports {
                report(words, sums, spread, i, car, left.kept, out)
            } else {
                words::put_record(words, sums, spread, i, changes::owned(car, left.kept));
                answers::silent(Indication::Nothing)
            }
        }
    }
}

// A message at the car's own record: 11 where it has none.
fn at_own(
    words: &mut StationWords,
    sums: &mut StationSums,
    spread: &mut StationSpread,
    car: CarAddress,
    message: OwnMessage,
    octets: &[u8],
    out: &mut [u8],
) -> Answered
    requires { Ready (station_of words.old sums.old spread.old) car out.old × OctetRequest (edition_in words.old) (for_record (own_message_of message (beside_of (read_rules (edition_in words.old) octets.now)))) }
    ensures { Takes car (for_record (own_message_of message (beside_of (read_rules (edition_in words.old) octets.now)))) words.old sums.old spread.old out.old out.new words.new sums.new spread.new result }
{
    let State::Matching(_) = words::state_of(words) else {
        return answers::refused(Refusal::WrongState);
    };
    let Some(i) = words::own_place(words, car) else {
        return answers::refused(Refusal::NoRecord);
    };
    let edition = words::edition_of(words);
    let r = words::record_at(words, sums, spread, i);
    let kept = own_record::at_record(edition, r, message, octets);
    settle(words, sums, spread, i, car, kept, out)
}

// A frame was received: each request touches its car's own record alone; the first VALIDATE.REQ looks at the phase of the others, MATCH.REQ frees them, and AMP_MAP.REQ touches none.
pub(crate) fn receive(
    words: &mut StationWords,
    sums: &mut StationSums,
    spread: &mut StationSpread,
    octets: &[u8],
    out: &mut [u8],
) -> Answered
    ensures { Lent (calls.frame octets.now (length out.old)) words.old sums.old spread.old out.old out.new words.new sums.new spread.new result }
{
    let us = words::identity_of(words);
    let asking = match judge::judge(us, octets, out.len()) {
        Err(refusal) => return maps::unread(words, refusal, octets, out),
        Ok(asking) => asking,
    };
    let car = asking.car;
    match asking.request {
        Request::Parm(run) => parm_req(words, sums, spread, car, run, out),
        Request::Own(message) => at_own(words, sums, spread, car, message, octets, out),
        Request::Match(run) => matching::match_req(words, sums, spread, car, run, octets, out),
        Request::ValidateFirst => validating::validate_first(words, sums, spread, car, out),
    }
}
