// The replies to a car, sent.
ghost use Rattle.std.specs.Prelude.{[], ◌∷◌, ◌<◌, length};
ghost use Rattle.messages.specs.Answers.{message_of, besides};
ghost use Rattle.messages.specs.Reading.{yes};
ghost use Rattle.messages.specs.Table.{result_limit};
ghost use Rattle.messages.specs.Writing as writing;
ghost use Rattle.rules.specs.FromOctets.{IsId};
ghost use Rattle.rules.specs.Invariant.{GoodRecord};
ghost use Rattle.rules.specs.Replies.{parm_cnf, match_cnf, confirmation, report_of, frames_to};
ghost use Rattle.rules.specs.Stations.{done};
ghost use Rattle.ends.specs.Sending.{Writable};
ghost use Rattle.station.specs.Frames.{Ready, Comes};

use ends::Indication;
use messages::{CarAddress, GroupValues, Ids, Message, RunId};
use receiving::reply;
use records::report;
use rules::{Record, RecordArray, State, Station, Stepped};

// The station in a state and with records, and one frame sent.
fn sent(
    station: Station,
    state: State,
    records: RecordArray,
    message: Message,
    values: GroupValues,
    ids: Ids,
    out: &mut [u8],
) -> Stepped
    requires { Writable (message_of station.config.edition message (besides values ids)) (length out.old) }
    ensures { Comes station (yes (done state records (writing.frame (message_of station.config.edition message (besides values ids)) ∷ []) Indication.Nothing)) out.old out.new result }
{
    let edition = station.config.edition;
    Stepped {
        station: Station {
            state,
            records,
            ..station
        },
        answer: ends::send(edition, message, values, ids, Indication::Nothing, out),
    }
}

// PARM.CNF to a car in a first or a later try, with the records after it.
pub(crate) fn parm_cnf(
    station: Station,
    records: RecordArray,
    car: CarAddress,
    later: bool,
    run: RunId,
    out: &mut [u8],
) -> Stepped
    requires { Ready station car out.old }
    ensures { Comes station (yes (done station.state records (frames_to station.config car (parm_cnf later run ∷ [])) Indication.Nothing)) out.old out.new result }
{
    let message = reply::parm_cnf(station.config, car, later, run);
    let groups = messages::no_groups();
    let ids = messages::no_ids();
    sent(station, station.state, records, message, groups, ids, out)
}

// The report of a record to a car, with the records after it.
pub(crate) fn report(
    station: Station,
    records: RecordArray,
    car: CarAddress,
    r: Record,
    out: &mut [u8],
) -> Stepped
    requires { Ready station car out.old × (GoodRecord station.config.edition r × (0 < r.profiles)) }
    ensures { Comes station (yes (done station.state records (frames_to station.config car (report_of r ∷ [])) Indication.Nothing)) out.old out.new result }
{
    let message = reply::report(station.config, car, r);
    let values = report::values(r);
    let ids = messages::no_ids();
    sent(station, station.state, records, message, values, ids, out)
}

// VALIDATE.CNF with a result and no toggles to a car, with the records after it.
pub(crate) fn validate_cnf(
    station: Station,
    records: RecordArray,
    car: CarAddress,
    res: u8,
    out: &mut [u8],
) -> Stepped
    requires { Ready station car out.old × (res < result_limit) }
    ensures { Comes station (yes (done station.state records (frames_to station.config car (confirmation 0 res ∷ [])) Indication.Nothing)) out.old out.new result }
{
    let message = reply::validate_cnf(station.config, car, 0, res);
    let groups = messages::no_groups();
    let ids = messages::no_ids();
    sent(station, station.state, records, message, groups, ids, out)
}

// MATCH.CNF to a car with the identifiers of its request, with the state and the records after it.
pub(crate) fn match_cnf(
    station: Station,
    state: State,
    records: RecordArray,
    car: CarAddress,
    run: RunId,
    ids: Ids,
    out: &mut [u8],
) -> Stepped
    requires { Ready station car out.old × (IsId station.config.edition ids.first × IsId station.config.edition ids.second) }
    ensures { Comes station (yes (done state records (frames_to station.config car (match_cnf run ids.first ids.second ∷ [])) Indication.Nothing)) out.old out.new result }
{
    let message = reply::match_cnf(station.config, car, run);
    let groups = messages::no_groups();
    sent(station, state, records, message, groups, ids, out)
}
