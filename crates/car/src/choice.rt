// The choice of a station.
ghost use Rattle.std.specs.Prelude.{◌≤◌, ◌≡◌, true, ltb};
ghost use Rattle.messages.specs.Table.{is_unicast};
ghost use Rattle.car_rules.specs.Choice as rule;
ghost use Rattle.car_rules.specs.Choice.{limit, requests, decided};
ghost use Rattle.car_rules.specs.Cars.{in_state};
ghost use Rattle.car.specs.Steps.{silent_as, Gives, Ready};
ghost use Rattle.car.specs.Reports.{ReportsGood};

use crate::{cars, reports, sending};
use car_rules::{Car, DIRECT_LIMIT, INDIRECT_LIMIT, Report, State, Stepped};
use ends::{Indication, RESPONSE_TIME, RETRIES};
use messages::{GROUPS, StationAddress};

// Whether a total is below a mean over the reference, compared without dividing.
fn is_below(total: u16, mean: u64, reference: u32) -> bool
    requires { mean ≤ 255 }
    ensures { result ≡ ltb total (limit mean reference) }
{
    u64::from(total) < GROUPS as u64 * (mean + u64::from(reference))
}

// The car Idle, with an indication.
pub(crate) fn fall(car: Car, indication: Indication) -> Stepped
    ensures { result ≡ silent_as (in_state State.Idle car) indication }
{
    let state = State::Idle;
    cars::silent(Car { state, ..car }, indication)
}

// MATCH.REQ to the chosen station.
fn request(car: Car, station: StationAddress, indication: Indication, out: &mut [u8]) -> Stepped
    requires { Ready car out.old × (is_unicast station.0 ≡ true) }
    ensures { Gives (requests car station indication) out.old out.new result }
{
    let state = State::Requesting {
        left: RESPONSE_TIME,
        retries: RETRIES,
        station,
    };
    sending::match_req(Car { state, ..car }, station, indication, out)
}

// Found, potentially found or not, by the least total.
fn decide(car: Car, report: Report, out: &mut [u8]) -> Stepped
    requires { Ready car out.old × (is_unicast report.station.0 ≡ true) }
    ensures { Gives (decided car report) out.old out.new result }
{
    let Report { station, total } = report;
    if is_below(total, DIRECT_LIMIT, car.config.reference) {
        return request(car, station, Indication::Found, out);
    }
    if is_below(total, INDIRECT_LIMIT, car.config.reference) {
        return request(car, station, Indication::PotentiallyFound, out);
    }
    fall(car, Indication::NotFound)
}

// The choice: no report, or the station of the least total.
#[tactic(auto, using(crate::proofs::ChoiceLaws::choice_least, crate::proofs::ChoiceLaws::choice_none), unfolding(octets::specs::Octets::splice, ends::specs::Lists::joins))]
pub(crate) fn choose(car: Car, out: &mut [u8]) -> Stepped
    requires { Ready car out.old × ReportsGood car }
    ensures { Gives (rule.choice car) out.old out.new result }
{
    match reports::least(&car.reports[..car.count]) {
        Some(report) => decide(car, report, out),
        None => fall(car, Indication::NoLink),
    }
}
