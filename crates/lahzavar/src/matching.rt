// MATCH.REQ, in place: of each record one word is stored.
// Car, run and octets go one by one: the rules name each (`join_rule`, `asking`), and a struct would be made and taken apart in every function.
ghost use Rattle.std.specs.Prelude.{List, [], ◌∷◌, ℕ};
ghost use Rattle.rules.specs.FromOctets.{OctetRequest};
ghost use Rattle.rules.specs.Replies.{frames_to};
ghost use Rattle.station.specs.Frames.{Ready, join_rule};
ghost use Rattle.words.specs.Words.{config_of, edition_in, station_of};
ghost use Rattle.lahzavar.specs.Frames.{Comes, Takes, Replies};
ghost use Rattle.lahzavar.specs.Matching.{first_id, second_id, asking, confirming};

use crate::{Answered, answers};
use ends::{Indication, JOINING_TIME};
use messages::{CarAddress, Refusal, RunId};
use receiving::reply;
use records::requests;
use rules::State;
use words::{StationSpread, StationSums, StationWords};

// MATCH.CNF of a run, with the identifiers of its request.
fn confirm(
    words: &StationWords,
    car: CarAddress,
    run: RunId,
    octets: &[u8],
    out: &mut [u8],
) -> Answered
    requires { ((s z : List ℕ) → Ready (station_of words.now s z) car out.old) × OctetRequest (edition_in words.now) (asking (edition_in words.now) run octets.now) }
    ensures { Replies (frames_to (config_of words.now) car (confirming (edition_in words.now) run octets.now ∷ [])) out.old out.new result }
{
    let config = words::config_of(words);
    let edition = config.edition;
    let message = reply::match_cnf(config, car, run);
    let groups = messages::no_groups();
    let ids = messages::identifiers(edition, octets);
    let answer = ends::send(edition, message, groups, ids, Indication::Nothing, out);
    answers::answered(answer)
}

// MATCH.REQ in Matching: 11, 12, or the car joins and every record is freed.
fn join(
    words: &mut StationWords,
    sums: &mut StationSums,
    spread: &mut StationSpread,
    car: CarAddress,
    run: RunId,
    octets: &[u8],
    out: &mut [u8],
) -> Answered
    requires { Ready (station_of words.old sums.old spread.old) car out.old × OctetRequest (edition_in words.old) (asking (edition_in words.old) run octets.now) }
    ensures { Comes (join_rule (station_of words.old sums.old spread.old) car run (first_id (edition_in words.old) octets.now) (second_id (edition_in words.old) octets.now)) words.old sums.old spread.old out.old out.new words.new sums.new spread.new result }
{
    let Some(i) = words::own_place(words, car) else {
        return answers::refused(Refusal::NoRecord);
    };
    let r = words::record_at(words, sums, spread, i);
    match requests::match_req(r, run) {
        Err(refusal) => answers::refused(refusal),
        Ok(()) => {
            let pilot = words::pilot_of(words);
            let clock = words::clock_of(words);
            let joining = State::Joining {
                left: JOINING_TIME,
                car,
                run,
            };
            words::free_all(words);
            words::put_state(words, joining, pilot, clock);
            confirm(words, car, run, octets, out)
        }
    }
}

// MATCH.REQ: in Matching the car joins; in Joining its own is confirmed again, another car's is 11; else 8.
pub(crate) fn match_req(
    words: &mut StationWords,
    sums: &mut StationSums,
    spread: &mut StationSpread,
    car: CarAddress,
    run: RunId,
    octets: &[u8],
    out: &mut [u8],
) -> Answered
    requires { Ready (station_of words.old sums.old spread.old) car out.old × OctetRequest (edition_in words.old) (asking (edition_in words.old) run octets.now) }
    ensures { Takes car (asking (edition_in words.old) run octets.now) words.old sums.old spread.old out.old out.new words.new sums.new spread.new result }
{
    match words::state_of(words) {
        State::Matching(_) => join(words, sums, spread, car, run, octets, out),
        State::Joining {
            car: owner,
            run: own,
            ..
        } => {
            if (car == owner) & (run == own) {
                confirm(words, car, run, octets, out)
            } else {
                answers::refused(Refusal::NoRecord)
            }
        }
        _ => answers::refused(Refusal::WrongState),
    }
}
