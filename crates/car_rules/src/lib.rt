// The car's types, configuring it, and the key query. What its calls do stands in specs/.
#![tactic(auto)]

ghost use Rattle.std.specs.Prelude.{◌≡◌};
ghost use Rattle.messages.specs.Answers.{checked_of};
ghost use Rattle.car_rules.specs.Answers.{Configures};
ghost use Rattle.car_rules.specs.Cars.{no_reports};
ghost use Rattle.car_rules.specs.Rules.{is_good, key_query};

use ends::{Answer, Indication};
use messages::{CarAddress, Nid, Nmk, Random, Refusal, RunId, StationAddress};

// From the first PARM.CNF to the first START, in milliseconds as the others: TP_match_sequence.
pub const CONFIRMED_TIME: u32 = 100;

// From one START or M-SOUND to the next: TP_EV_batch_msg_interval.
pub const SPACING: u32 = 40;

// How long reports are gathered from the first START on: TT_EV_atten_results.
pub const GATHER_TIME: u32 = 1200;

// How many STARTs are sent: C_EV_start_atten_char_inds.
pub const STARTS: u8 = 3;

// How many frames Sounding sends: the STARTs and then the M-SOUNDs.
pub const SOUNDING_FRAMES: u8 = STARTS + ends::SOUNDS;

// How many stations' reports are kept.
pub const STATIONS: usize = 10;

// The mean attenuation over the reference from which a station is no longer found: C_EV_match_signalattn_direct.
pub const DIRECT_LIMIT: u64 = 10;

// The one from which it is no longer potentially found: C_EV_match_signalattn_indirect.
pub const INDIRECT_LIMIT: u64 = 20;

// The greatest reference.
pub const MOST_REFERENCE: u32 = 255;

// The least output that a start, a frame or a tick asks for: a MATCH.REQ.
pub const LEAST_OUTPUT: usize = 85;

// What a car is configured with; good is false where it was refused.
// A flag and no `Option`: `configure` promises the numbers of a refused configuration too (`Rules.configured`).
#[derive(Clone, Copy)]
pub struct Configuration {
    pub good: bool,
    pub address: CarAddress,
    pub reference: u32,
}

// What a MATCH.CNF gives: the station, its NID and its NMK.
#[derive(Clone, Copy)]
pub struct Key {
    pub station: StationAddress,
    pub nid: Nid,
    pub nmk: Nmk,
}

// The car's state, with what it carries: times left, retries left, and in Sounding the frames sent and the time to the next.
#[derive(Clone, Copy)]
pub enum State {
    Idle,
    Asking {
        left: u32,
        retries: u8,
    },
    Confirmed(u32),
    Sounding {
        sent: u8,
        next: u32,
        left: u32,
    },
    Requesting {
        left: u32,
        retries: u8,
        station: StationAddress,
    },
    Joining {
        left: u32,
        key: Key,
    },
    Matched(Key),
}

// A station's first report: the sum of its group values.
#[derive(Clone, Copy)]
pub struct Report {
    pub station: StationAddress,
    pub total: u16,
}

// The reports of a car; the first `count` are kept.
pub type ReportArray = [Report; STATIONS];

// A car's side of SLAC matching; the clock is the last reading taken, run and random value those of the last start.
// Its reports' count stands beside their array, and in no `Vec`: no heap. The rules name both (`Cars.reports_of`).
#[derive(Clone, Copy)]
pub struct Car {
    pub config: Configuration,
    pub state: State,
    pub clock: u32,
    pub run: RunId,
    pub random: Random,
    pub reports: ReportArray,
    pub count: usize,
}

// The car after a call, and what the call gives.
// A type of its own beside a station's: each promise of a call (`Answers`, `Configures`, `Settles`) names its `car`, which is no plainer by another word.
#[derive(Clone, Copy)]
pub struct Stepped {
    pub car: Car,
    pub answer: Answer,
}

// No reports.
pub fn no_reports() -> ReportArray
    ensures { result ≡ no_reports }
{
    [Report {
        station: StationAddress(0),
        total: 0,
    }; STATIONS]
}

// Whether a configuration is good: the address unicast, the reference at most 255.
pub fn is_good(address: CarAddress, reference: u32) -> bool
    ensures { result ≡ is_good address reference }
{
    messages::is_unicast(address.0) & (reference <= MOST_REFERENCE)
}

// A car, Idle; a bad configuration is refused, and its car answers 16 to everything.
pub fn configure(address: CarAddress, reference: u32) -> Stepped
    ensures { Configures address reference result }
{
    let good = is_good(address, reference);
    let car = Car {
        config: Configuration {
            good,
            address,
            reference,
        },
        state: State::Idle,
        clock: 0,
        run: RunId(0),
        random: Random(0, 0),
        reports: no_reports(),
        count: 0,
    };
    let answer = if good {
        ends::silent(Indication::Nothing)
    } else {
        Err(Refusal::BadConfiguration)
    };
    Stepped { car, answer }
}

// The key query: the station that the car joins or has joined, with its NID and NMK.
#[tactic(auto, unfolding(crate::specs::Rules::key_query))]
pub fn key_query(car: Car) -> Result<Key, Refusal>
    ensures { checked_of result ≡ key_query car }
{
    if !car.config.good {
        return Err(Refusal::BadConfiguration);
    }
    match car.state {
        State::Joining { key, .. } | State::Matched(key) => Ok(key),
        _ => Err(Refusal::WrongState),
    }
}
