// A record's report, written.
ghost use Rattle.std.specs.Prelude.{◌<◌, ◌≤◌, length};
ghost use Rattle.rules.specs.Replies.{report_of, frame_to};
ghost use Rattle.station.specs.Reports.{report_size, Sendable, Writes};

use receiving::reply;
use records::report;
use rules::{Configuration, Record};

// A record's report, from the first octet of the output: how many octets it takes.
pub(crate) fn write_report(config: Configuration, r: Record, out: &mut [u8]) -> usize
    requires { Sendable config r × ((0 < r.profiles) × (report_size ≤ length out.old)) }
    ensures { Writes result (frame_to config r.car (report_of r)) out.old out.new × (result ≤ report_size) }
{
    let message = reply::report(config, r.car, r);
    let values = report::values(r);
    let ids = messages::no_ids();
    let written = messages::write(config.edition, message, values, ids, out);
    written.unwrap_or(0)
}
