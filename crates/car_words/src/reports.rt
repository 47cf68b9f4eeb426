// The reports: read out of their words, and stored in them.
ghost use Rattle.std.specs.Prelude.{◌+◌, ◌*◌, ◌<◌, ◌^◌, ◌≡◌};
ghost use Rattle.octets.specs.Octets.{part};
ghost use Rattle.car_rules.specs.Constants.{station_count};
ghost use Rattle.car_words.specs.Words.{head_count, width, report_of, reports_in, count_in};
ghost use Rattle.car_words.specs.Written.{words_of, ReportsStored};

use crate::{CarWords, HEAD, WIDTH};
use car_rules::{Report, ReportArray, STATIONS};
use messages::StationAddress;

// The report at a place.
fn report_at(words: &CarWords, i: usize) -> Report
    requires { i < station_count }
    ensures { result ≡ report_of (part words.now (head_count + width * i) width) }
{
    let at = HEAD + WIDTH * i;
    Report {
        station: StationAddress(words[at]),
        total: (words[at + 1] % 65536) as u16,
    }
}

// All reports.
pub(crate) fn read(words: &CarWords) -> ReportArray
    ensures { result ≡ reports_in words.now }
{
    let mut rs = car_rules::no_reports();
    for i in 0..STATIONS {
        rs[i] = report_at(words, i);
    }
    rs
}

// How many of the first reports are kept: at most so many, and up to the first whose station is not unicast.
pub(crate) fn count(reports: ReportArray, most: u64) -> usize
    ensures { result ≡ count_in most reports }
{
    for i in 0..STATIONS {
        if most <= i as u64 || !messages::is_unicast(reports[i].station.0) {
            return i;
        }
    }
    STATIONS
}

// The words of a report.
fn report_words(r: Report) -> [u64; WIDTH]
    ensures { (result ≡ words_of r) × (r.total < 2 ^ 16) }
{
    [r.station.0, u64::from(r.total)]
}

// Stores all reports.
pub(crate) fn store(reports: ReportArray, words: &mut CarWords)
    ensures { ReportsStored reports words.old words.new }
{
    for i in 0..STATIONS {
        ends::runs::put_words(&report_words(reports[i]), words, HEAD + WIDTH * i);
    }
}
