// All records: after a tick, and whether any is held.
ghost use Rattle.std.specs.Prelude.{◌≡◌};
ghost use Rattle.std.specs.List.{list_any};
ghost use Rattle.rules.specs.Records.{is_held};
ghost use Rattle.station.specs.Reports.{Ready, Ticks};

use crate::reports;
use records::timers;
use rules::{Configuration, RECORDS, RecordArray};

// The records after a tick, how many reports they sent, and of how many octets in all.
#[derive(Clone, Copy)]
pub(crate) struct TickedRecords {
    pub records: RecordArray,
    pub reports: usize,
    pub octets: usize,
}

// Every record after so many milliseconds, by whether the pilot is back at B; the reports stand back to back in record order, each as long
// as it is.
pub(crate) fn tick_all(
    records: RecordArray,
    elapsed: u32,
    back: bool,
    config: Configuration,
    out: &mut [u8],
) -> TickedRecords
    requires { Ready config records out.old }
    ensures { Ticks config back elapsed records out.old out.new result }
{
    let mut after = records;
    let mut sent: usize = 0;
    let mut octets: usize = 0;
    for i in 0..RECORDS {
        let r = records[i];
        let t = timers::tick_record(r, elapsed, back);
        after[i] = t.kept;
        if t.reports {
            let report = reports::write_report(config, r, &mut out[octets..]);
            octets += report;
            sent += 1;
        }
    }
    TickedRecords {
        records: after,
        reports: sent,
        octets,
    }
}

// Whether any record is held.
#[tactic(auto, unfolding(rules::specs::Records::is_held))]
pub(crate) fn any_held(records: RecordArray) -> bool
    ensures { result ≡ list_any is_held records }
{
    records.iter().any(|r| r.held)
}
