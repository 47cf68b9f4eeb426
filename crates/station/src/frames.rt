// What a frame that the state takes does: by the request, at the car's record.
// Station, car and run go one by one here and in `sending`: the rules name each, and a struct would be taken apart in every function.
// `Ready` stands in each contract: it is a fact of a station, a car and an output together, and a type of them would be made and taken apart in each function.
ghost use Rattle.std.specs.Prelude.{◌<◌, ◌≡◌, [], ◌∷◌, length, set};
ghost use Rattle.messages.specs.Reading.{yes, beside_of, read_rules};
ghost use Rattle.rules.specs.Records.{owned, fresh};
ghost use Rattle.rules.specs.Received.{for_record, parm_req, validate_first, match_req};
ghost use Rattle.rules.specs.FromOctets.{IsId, OctetRequest};
ghost use Rattle.rules.specs.Frames.{state_rule};
ghost use Rattle.rules.specs.Replies.{parm_cnf, confirmation, frames_to};
ghost use Rattle.rules.specs.Stations.{done};
ghost use Rattle.messages.specs.Table.{result_limit};
ghost use Rattle.records.specs.Places.{place_of};
ghost use Rattle.records.specs.Requests.{kept_of, validated_of};
ghost use Rattle.messages.specs.Answers.{checked_of};
ghost use Rattle.receiving.specs.Judge.{request_of, own_message_of};
ghost use Rattle.station.specs.Frames.{Ready, Comes, KeepsGood, settled, own_place, join_rule};

use crate::{answers, freeing, sending, validating};
use ends::{Indication, JOINING_TIME};
use messages::{CarAddress, Ids, Refusal, RunId};
use receiving::judge::{OwnMessage, Request};
use receiving::{admission, own_record};
use records::changes::Kept;
use records::find::Found;
use records::{changes, requests};
use rules::{Record, RecordArray, State, Station, Stepped};

// The records with another one at place i.
fn with_record(records: RecordArray, i: usize, r: Record) -> RecordArray
    requires { i < length records }
    ensures { result ≡ set records i r }
{
    let mut rs = records;
    rs[i] = r;
    rs
}

// PARM.REQ at place i: the record anew, in a first or a later try, and PARM.CNF.
fn admit(
    station: Station,
    i: usize,
    car: CarAddress,
    later: bool,
    run: RunId,
    out: &mut [u8],
) -> Stepped
    requires { (i < length station.records) × Ready station car out.old }
    ensures { Comes station (yes (done station.state (set station.records i (owned car (fresh later car run))) (frames_to station.config car (parm_cnf later run ∷ [])) Indication.Nothing)) out.old out.new result }
{
    let r = changes::owned(car, changes::fresh(later, car, run));
    let next = with_record(station.records, i, r);
    sending::parm_cnf(station, next, car, later, run, out)
}

// PARM.REQ: 21, or the car's own record restarts; else 9, 10, or the first free record.
fn parm_req(station: Station, car: CarAddress, run: RunId, out: &mut [u8]) -> Stepped
    requires { Ready station car out.old }
    ensures { Comes station (state_rule station.config station.state station.records car (for_record (parm_req run))) out.old out.new result }
{
    let State::Matching(left) = station.state else {
        return answers::refused(station, Refusal::WrongState);
    };
    let found = records::find::find(station.records, car);
    let later = admission::is_later(station.config.edition, found);
    match admission::place_for(run, found, left) {
        Ok(i) => admit(station, i, car, later, run, out),
        Err(refusal) => answers::refused(station, refusal),
    }
}

// What a message at the record at place i comes to: a refusal, the record put back, or its report too.
fn settle(
    station: Station,
    i: usize,
    car: CarAddress,
    kept: Result<Kept, Refusal>,
    out: &mut [u8],
) -> Stepped
    requires { (i < length station.records) × Ready station car out.old × KeepsGood station.config.edition car (kept_of kept) }
    ensures { Comes station (settled station i car (kept_of kept)) out.old out.new result }
{
    match kept {
        Err(refusal) => answers::refused(station, refusal),
        Ok(left) => {
            let r = changes::owned(car, left.kept);
            let next = with_record(station.records, i, r);
            if left.reports {
                sending::report(station, next, car, r, out)
            } else {
                let after = Station {
                    records: next,
                    ..station
                };
                answers::without_frames(after, Indication::Nothing)
            }
        }
    }
}

// Where the car's own record stands: 8 where the state takes no message at a record, 11 where the car has none.
fn own_place(state: State, records: RecordArray, car: CarAddress) -> Result<usize, Refusal>
    ensures { checked_of result ≡ own_place state (place_of car records) }
{
    let State::Matching(_) = state else {
        return Err(Refusal::WrongState);
    };
    match records::find::find(records, car) {
        Found::Own(i) => Ok(i),
        _ => Err(Refusal::NoRecord),
    }
}

// A message at the car's own record.
fn at_own(
    station: Station,
    car: CarAddress,
    message: OwnMessage,
    octets: &[u8],
    out: &mut [u8],
) -> Stepped
    requires { Ready station car out.old × OctetRequest station.config.edition (for_record (own_message_of message (beside_of (read_rules station.config.edition octets.now)))) }
    ensures { Comes station (state_rule station.config station.state station.records car (for_record (own_message_of message (beside_of (read_rules station.config.edition octets.now))))) out.old out.new result }
{
    match own_place(station.state, station.records, car) {
        Ok(i) => {
            let r = station.records[i];
            let kept = own_record::at_record(station.config.edition, r, message, octets);
            settle(station, i, car, kept, out)
        }
        Err(refusal) => answers::refused(station, refusal),
    }
}

// What the first VALIDATE.REQ at the record at place i comes to: a refusal, or the record put back and VALIDATE.CNF.
fn confirm(
    station: Station,
    i: usize,
    car: CarAddress,
    validated: Result<Record, Refusal>,
    res: u8,
    out: &mut [u8],
) -> Stepped
    requires { (i < length station.records) × (Ready station car out.old × (res < result_limit)) }
    ensures { Comes station (settled station i car (validated_of res validated)) out.old out.new result }
{
    match validated {
        Err(refusal) => answers::refused(station, refusal),
        Ok(left) => {
            let next = with_record(station.records, i, changes::owned(car, left));
            sending::validate_cnf(station, next, car, res, out)
        }
    }
}

// The first VALIDATE.REQ at the car's own record: answered by whether any record is ready or counting.
fn validate_first(station: Station, car: CarAddress, out: &mut [u8]) -> Stepped
    requires { Ready station car out.old }
    ensures { Comes station (state_rule station.config station.state station.records car (for_record validate_first)) out.old out.new result }
{
    match own_place(station.state, station.records, car) {
        Ok(i) => {
            let r = station.records[i];
            let result = validating::first_result(station.config.exempt, station.records);
            let validated = requests::validate_first(r, result);
            confirm(station, i, car, validated, result, out)
        }
        Err(refusal) => answers::refused(station, refusal),
    }
}

// MATCH.REQ in Matching: the car joins, and all records are freed.
fn join(station: Station, car: CarAddress, run: RunId, ids: Ids, out: &mut [u8]) -> Stepped
    requires { Ready station car out.old × (IsId station.config.edition ids.first × IsId station.config.edition ids.second) }
    ensures { Comes station (join_rule station car run ids.first ids.second) out.old out.new result }
{
    let Found::Own(i) = records::find::find(station.records, car) else {
        return answers::refused(station, Refusal::NoRecord);
    };
    match requests::match_req(station.records[i], run) {
        Err(refusal) => answers::refused(station, refusal),
        Ok(()) => {
            let joining = State::Joining {
                left: JOINING_TIME,
                car,
                run,
            };
            let free = freeing::free_all(station.records);
            sending::match_cnf(station, joining, free, car, run, ids, out)
        }
    }
}

// MATCH.REQ: the car that waits for it joins; in Joining the same car and run are confirmed again.
fn match_req(station: Station, car: CarAddress, run: RunId, ids: Ids, out: &mut [u8]) -> Stepped
    requires { Ready station car out.old × (IsId station.config.edition ids.first × IsId station.config.edition ids.second) }
    ensures { Comes station (state_rule station.config station.state station.records car (match_req run ids.first ids.second)) out.old out.new result }
{
    match station.state {
        State::Matching(_) => join(station, car, run, ids, out),
        State::Joining {
            car: owner,
            run: own,
            ..
        } => {
            if (car == owner) & (run == own) {
                let records = station.records;
                sending::match_cnf(station, station.state, records, car, run, ids, out)
            } else {
                answers::refused(station, Refusal::NoRecord)
            }
        }
        _ => answers::refused(station, Refusal::WrongState),
    }
}

// A car's request, in the state that takes it.
pub(crate) fn accept(
    station: Station,
    car: CarAddress,
    request: Request,
    octets: &[u8],
    out: &mut [u8],
) -> Stepped
    requires { Ready station car out.old × OctetRequest station.config.edition (request_of request (beside_of (read_rules station.config.edition octets.now))) }
    ensures { Comes station (state_rule station.config station.state station.records car (request_of request (beside_of (read_rules station.config.edition octets.now)))) out.old out.new result }
{
    match request {
        Request::Parm(run) => parm_req(station, car, run, out),
        Request::Own(message) => at_own(station, car, message, octets, out),
        Request::ValidateFirst => validate_first(station, car, out),
        Request::Match(run) => {
            let ids = messages::identifiers(station.config.edition, octets);
            match_req(station, car, run, ids, out)
        }
    }
}
