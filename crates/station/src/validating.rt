// Validation over all records: toggles, and what a first VALIDATE.REQ is answered.
ghost use Rattle.std.specs.Prelude.{◌≡◌, map};
ghost use Rattle.std.specs.List.{list_any};
ghost use Rattle.rules.specs.Validation.{is_validating, first_result, toggled_record};

use records::validation;
use rules::{RECORDS, RecordArray, Turn};

// Every record after a pilot change among B, C and D. Not by `map`, by which the change took 59,458 instructions for 25,518.
pub(crate) fn toggle_all(records: RecordArray, turn: Turn) -> RecordArray
    ensures { result ≡ map (toggled_record turn) records }
{
    let mut rs = records;
    for i in 0..RECORDS {
        rs[i] = validation::toggled(records[i], turn);
    }
    rs
}

// Whether any record is ready or counting.
fn any_validates(records: RecordArray) -> bool
    ensures { result ≡ list_any is_validating records }
{
    records.iter().any(|r| validation::is_validating(*r))
}

// What a first VALIDATE.REQ is answered, by whether validation is not required.
pub(crate) fn first_result(exempt: bool, records: RecordArray) -> u8
    ensures { result ≡ first_result exempt records }
{
    validation::first_result(exempt, any_validates(records))
}
