// What a tick confirms: VALIDATE.CNF to each car whose window ends.
ghost use Rattle.std.specs.Prelude.{◌<◌, ◌≤◌, length};
ghost use Rattle.messages.specs.Table.{result_limit};
ghost use Rattle.rules.specs.Replies.{confirmation, frame_to};
ghost use Rattle.station.specs.Reports.{confirmation_size, Sendable, Writes, Confirmable, Confirms};

use receiving::reply;
use records::validation;
use rules::{CONFIRMATION_OCTETS, Configuration, RECORDS, Record, RecordArray};

// A confirmation to a record's car, from the first octet of the output.
fn confirm(config: Configuration, r: Record, toggles: u8, res: u8, out: &mut [u8])
    requires { Sendable config r × ((res < result_limit) × (confirmation_size ≤ length out.old)) }
    ensures { Writes confirmation_size (frame_to config r.car (confirmation toggles res)) out.old out.new }
{
    let message = reply::validate_cnf(config, r.car, toggles, res);
    let groups = messages::no_groups();
    let ids = messages::no_ids();
    let _written = messages::write(config.edition, message, groups, ids, out);
}

// How many confirmations so many milliseconds send; they stand back to back in record order.
pub(crate) fn confirm_all(
    records: RecordArray,
    elapsed: u32,
    back: bool,
    config: Configuration,
    out: &mut [u8],
) -> usize
    requires { Confirmable config back elapsed records out.old }
    ensures { Confirms config back elapsed records out.old out.new result }
{
    let mut sent: usize = 0;
    for i in 0..RECORDS {
        let r = records[i];
        if let Some(cnf) = validation::confirmation_of(r, elapsed, back) {
            let at = CONFIRMATION_OCTETS * sent;
            confirm(config, r, cnf.toggles, cnf.result, &mut out[at..]);
            sent += 1;
        }
    }
    sent
}
