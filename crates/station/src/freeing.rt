// All records freed.
ghost use Rattle.std.specs.Prelude.{◌≡◌, map};
ghost use Rattle.rules.specs.Records.{freed};

use records::timers;
use rules::{RECORDS, RecordArray};

// Every record with no holder. Not by `map`, by which a change of every record took 59,458 instructions for 25,518 (`validating`).
pub(crate) fn free_all(records: RecordArray) -> RecordArray
    ensures { result ≡ map freed records }
{
    let mut rs = records;
    for i in 0..RECORDS {
        rs[i] = timers::freed(records[i]);
    }
    rs
}
