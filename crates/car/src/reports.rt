// The reports that a car keeps.
ghost use Rattle.std.specs.Prelude.{◌<◌, ◌≡◌, eqb};
ghost use Rattle.std.specs.List.{fold, sum, list_any};
ghost use Rattle.car_rules.specs.Cars as cars;
ghost use Rattle.car_rules.specs.Constants.{station_count};
ghost use Rattle.car.specs.Reports.{lower, least_in};

use car_rules::{Car, Report};
use messages::{GroupValues, StationAddress};

// The sum of the group values.
pub(crate) fn total(values: GroupValues) -> u16
    ensures { result ≡ sum values }
{
    values.iter().map(|v| u16::from(*v)).sum()
}

// Whether a station has reported.
pub(crate) fn has_reported(reports: &[Report], station: StationAddress) -> bool
    ensures { result ≡ list_any (λ r. eqb station.0 r.station.0) reports.now }
{
    reports.iter().any(|r| station == r.station)
}

// The car with one more report.
// Its count stands beside its array: a car is Copy and in fixed memory, and its rules name both (`Cars.reports_of`, `Cars.kept`).
pub(crate) fn keep(car: Car, report: Report) -> Car
    requires { car.count < station_count }
    ensures { result ≡ cars.kept report car }
{
    let mut reports = car.reports;
    reports[car.count] = report;
    let count = car.count + 1;
    Car {
        reports,
        count,
        ..car
    }
}

// The one of two reports with the lower total, on equal totals the first.
#[tactic(auto, unfolding(crate::specs::Reports::lower))]
fn lower(first: Report, second: Report) -> Report
    ensures { result ≡ lower first second }
{
    if second.total < first.total {
        second
    } else {
        first
    }
}

// The lowest of a report and those behind it.
fn lowest(first: Report, rest: &[Report]) -> Report
    ensures { result ≡ fold lower first rest.now }
{
    rest.iter().fold(first, |best, r| lower(best, *r))
}

// The report with the least total, on equal totals the first.
#[tactic(auto, using(crate::proofs::ReportLaws::lowest_least))]
pub(crate) fn least(reports: &[Report]) -> Option<Report>
    ensures { result ≡ least_in reports.now }
{
    let (first, rest) = reports.split_first()?;
    Some(lowest(*first, rest))
}
