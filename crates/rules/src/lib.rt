// The station's types, configuring it, and the service query. What its calls do stands in specs/.

#![tactic(auto)]

pub mod tries;

ghost use Rattle.std.specs.Prelude.{◌≡◌, replicate};
ghost use Rattle.rules.specs.Constants.{record_count};
ghost use Rattle.rules.specs.Records as records;
ghost use Rattle.rules.specs.Records.{no_sums, no_spread};
ghost use Rattle.rules.specs.Rules as rules;
ghost use Rattle.rules.specs.Rules.{may_reply, is_good, free_record, told_of, told_in};
ghost use Rattle.rules.specs.Answers.{heard_of, Configures, inspected_of};
ghost use Rattle.rules.specs.Numbers.{pilot_of, edition_of, state_number};

use ends::{Answer, Indication, RESPONSE_TIME};
use messages::{
    CarAddress, Edition, GROUPS, GroupValues, ModemAddress, Nid, Nmk, Refusal, RunId,
    StationAddress,
};

// Admission's time, in milliseconds as the others: the greatest TT_EVSE_SLAC_init.
pub const ADMISSION_TIME: u32 = 50000;

// Asked's time: TT_match_sequence.
pub const ASKED_TIME: u32 = 400;

// Sounding's time: TT_EVSE_match_MNBC.
pub const SOUNDING_TIME: u32 = 600;

// The same in a first try of the SAE edition.
pub const FIRST_SOUNDING_TIME: u32 = 200;

// And in a later one.
pub const LATER_SOUNDING_TIME: u32 = 1000;

// How many sounds a first try of the SAE edition has.
pub const FIRST_SOUNDS: u8 = 8;

// And a later one.
pub const LATER_SOUNDS: u8 = 16;

// Reported's time: TT_match_response.
pub const REPORTED_TIME: u32 = RESPONSE_TIME;

// Awaiting's time: TT_EVSE_match_session.
pub const AWAITING_TIME: u32 = 10000;

// Ready's time: TT_match_sequence.
pub const READY_TIME: u32 = ASKED_TIME;

// A step of the window in which toggles count.
pub const WINDOW_STEP: u32 = 100;

// The longest window: the timer is an octet.
pub const LONGEST_WINDOW: u32 = WINDOW_STEP * 256;

// Success's time: TT_EVSE_match_session.
pub const SUCCESS_TIME: u32 = AWAITING_TIME;

// The most toggles that VALIDATE.CNF can tell.
pub const MOST_TOGGLES: u8 = 255;

// The results that the station sends: ready to count. Numbers and no enum: `messages::write` takes any, and refuses one that is none with 6.
pub const READY_RESULT: u8 = 1;

// The window ended with the pilot at B.
pub const SUCCESS_RESULT: u8 = 2;

// The window ended elsewhere, or another car is validated.
pub const FAILURE_RESULT: u8 = 3;

// Validation is not required.
pub const NOT_REQUIRED_RESULT: u8 = 4;

// How many runs are matched side by side: at least C_EVSE_match_parallel.
pub const RECORDS: usize = 16;

// How many octets a report takes at most.
pub const REPORT_OCTETS: usize = 129;

// How many octets a confirmation takes.
pub const CONFIRMATION_OCTETS: usize = 60;

// The least output that a frame or a tick asks for: a report of every record.
pub const LEAST_OUTPUT: usize = REPORT_OCTETS * RECORDS;

// What a station is configured with; good is false where it was refused, exempt is true where validation is not required, and carriers is how many carriers our modem has.
// A flag and no `Option`: `configure` promises the numbers of a refused configuration too (`Rules.configured`).
#[derive(Clone, Copy)]
pub struct Configuration {
    pub good: bool,
    pub address: StationAddress,
    pub modem: ModemAddress,
    pub nid: Nid,
    pub nmk: Nmk,
    pub exempt: bool,
    pub edition: Edition,
    pub carriers: u32,
}

// Where a car's run stands, with the time left; the last three are the steps of Validating.
#[derive(Clone, Copy)]
pub enum Phase {
    Asked(u32),
    Sounding(u32),
    Reported { left: u32, retries: u8 },
    Awaiting(u32),
    Ready(u32),
    Counting { left: u32, toggles: u8, begun: bool },
    Success(u32),
}

// The sums of a record's groups.
pub type GroupSums = [u16; GROUPS];

// The least and the greatest value of each group.
#[derive(Clone, Copy)]
pub struct Spread {
    pub least: GroupValues,
    pub greatest: GroupValues,
}

// One car's run: the sound counts heard are the ones of a set, the sums and the spread those of the profiles counted; in the SAE edition
// whether it is a later try, and the group count, 0 before a profile is counted.
// A flag and no `Option`: a freed record keeps its numbers (`Records.freed`), and the words that C lends hold them.
#[derive(Clone, Copy)]
pub struct Record {
    pub car: CarAddress,
    pub run: RunId,
    pub held: bool,
    pub phase: Phase,
    pub heard: u16,
    pub profiles: u8,
    pub sums: GroupSums,
    pub spread: Spread,
    pub later: bool,
    pub groups: usize,
}

// The records of a station, side by side.
pub type RecordArray = [Record; RECORDS];

// The station's state; Matching carries admission's time left, Joining its own; Joining and Matched have the car.
#[derive(Clone, Copy)]
pub enum State {
    Unmatched,
    Matching(u32),
    Joining {
        left: u32,
        car: CarAddress,
        run: RunId,
    },
    Matched(CarAddress),
}

// The state of the control pilot.
#[derive(Clone, Copy, PartialEq, Eq)]
pub enum Pilot {
    A,
    B,
    C,
    D,
    E,
    F,
}

// What a pilot change means for a toggle: it begins one, ends one, changes nothing, or leaves none begun.
#[derive(Clone, Copy, PartialEq, Eq)]
pub enum Turn {
    Begins,
    Ends,
    Stays,
    Breaks,
}

// A charging station's side of SLAC matching; the clock is the last reading taken.
#[derive(Clone, Copy)]
pub struct Station {
    pub config: Configuration,
    pub state: State,
    pub pilot: Pilot,
    pub clock: u32,
    pub records: RecordArray,
}

// The station after a call, and what the call gives.
// A type of its own beside a car's: each promise of a call (`Answers`, `Configures`, `Settles`) names its `station`, which is no plainer by another word.
#[derive(Clone, Copy)]
pub struct Stepped {
    pub station: Station,
    pub answer: Answer,
}

// What the service query tells: the sounds heard, and the spread.
#[derive(Clone, Copy)]
pub struct Heard {
    pub sounds: u32,
    pub spread: Spread,
}

// What the inspection tells: the state's number and the car.
// A number and no enum: C and the scripts are told it, and in the states without a car the car is 0 (`Rules.inspection`).
#[derive(Clone, Copy)]
pub struct Inspected {
    pub state: u32,
    pub car: CarAddress,
}

// A pilot state by its number: 0 to 4 for A to E, any other for F.
impl From<u64> for Pilot {
    ghost from_gives = { λ number pilot. pilot ≡ pilot_of number };

    fn from(number: u64) -> Pilot {
        match number {
            0 => Pilot::A,
            1 => Pilot::B,
            2 => Pilot::C,
            3 => Pilot::D,
            4 => Pilot::E,
            _ => Pilot::F,
        }
    }
}

// An edition by its number: 1 for SAE, any other for ISO. No `From`: it would have to stand in `messages`, and the numbers are a station's (`Numbers.edition_of`).
pub fn edition_of(number: u64) -> Edition
    ensures { result ≡ edition_of number }
{
    if number == 1 {
        Edition::Sae
    } else {
        Edition::Iso
    }
}

// Sums of no profile.
pub fn no_sums() -> GroupSums
    ensures { result ≡ no_sums }
{
    [0; GROUPS]
}

// The spread of no profile: 255 as the least and 0 as the greatest value of every group.
pub fn no_spread() -> Spread
    ensures { result ≡ no_spread }
{
    Spread {
        least: [255; GROUPS],
        greatest: [0; GROUPS],
    }
}

// A record that no car has held.
fn free_record() -> Record
    ensures { result ≡ free_record }
{
    Record {
        car: CarAddress(0),
        run: RunId(0),
        held: false,
        phase: Phase::Asked(ASKED_TIME),
        heard: 0,
        profiles: 0,
        sums: no_sums(),
        spread: no_spread(),
        later: false,
        groups: 0,
    }
}

// The records of a station that no car has asked.
fn free_records() -> RecordArray
    ensures { result ≡ replicate record_count free_record }
{
    [free_record(); RECORDS]
}

// Whether replies can be sent: both addresses are unicast and different, and the NID is below 2^54.
// Address by address and no `Configuration`, whose `good` this decides; the two addresses are of two types: their numbers are compared.
pub fn may_reply(address: StationAddress, modem: ModemAddress, nid: Nid) -> bool
    ensures { result ≡ may_reply address modem nid }
{
    messages::is_unicast(address.0)
        & messages::is_unicast(modem.0)
        & (address.0 != modem.0)
        & (nid.0 < messages::NID_LIMIT)
}

// Whether a configuration is good: so, and with as many carriers as there can be.
fn is_good(address: StationAddress, modem: ModemAddress, nid: Nid, carriers: u32) -> bool
    ensures { result ≡ is_good address modem nid carriers }
{
    may_reply(address, modem, nid) & amplitude::is_carriers(carriers as usize)
}

// A station, unmatched; a bad configuration is refused, and its station answers 16 to everything. Seven values and no struct: this is what makes
// a `Configuration` of them.
pub fn configure(
    address: StationAddress,
    modem: ModemAddress,
    nid: Nid,
    nmk: Nmk,
    exempt: bool,
    edition: Edition,
    carriers: u32,
) -> Stepped
    ensures { Configures address modem nid nmk exempt edition carriers result }
{
    let good = is_good(address, modem, nid, carriers);
    let station = Station {
        config: Configuration {
            good,
            address,
            modem,
            nid,
            nmk,
            exempt,
            edition,
            carriers,
        },
        state: State::Unmatched,
        pilot: Pilot::A,
        clock: 0,
        records: free_records(),
    };
    let answer = if good {
        ends::silent(Indication::Nothing)
    } else {
        Err(Refusal::BadConfiguration)
    };
    Stepped { station, answer }
}

// Whether a record is one that the car holds.
pub fn holds(car: CarAddress, r: Record) -> bool
    ensures { result ≡ records.holds car r }
{
    r.held & (car == r.car)
}

// What a record tells: 11 where it counts no profile.
fn told_of(r: Record) -> Result<Heard, Refusal>
    ensures { heard_of result ≡ told_of r }
{
    if r.profiles == 0 {
        return Err(Refusal::NoRecord);
    }
    Ok(Heard {
        sounds: r.heard.count_ones(),
        spread: r.spread,
    })
}

// What the car's record tells.
fn told_in(records: RecordArray, car: CarAddress) -> Result<Heard, Refusal>
    ensures { heard_of result ≡ told_in car records }
{
    for r in records {
        if holds(car, r) {
            return told_of(r);
        }
    }
    Err(Refusal::NoRecord)
}

// The service query: how many sounds a car's run has heard, and the least and greatest value of each group.
pub fn query(station: Station, car: CarAddress) -> Result<Heard, Refusal>
    ensures { heard_of result ≡ rules.query station car }
{
    if station.config.good {
        told_in(station.records, car)
    } else {
        Err(Refusal::BadConfiguration)
    }
}

// The number of a state: 0 Unmatched, 1 Matching, 2 Joining, 3 Matched. No `From`: the number is a part of the state, not the state.
pub fn state_number(state: State) -> u32
    ensures { result ≡ state_number state }
{
    match state {
        State::Unmatched => 0,
        State::Matching(_) => 1,
        State::Joining { .. } => 2,
        State::Matched(_) => 3,
    }
}

// The car that joins or is matched; 0 where there is none, as `Rules.car_in` has it and C is told.
pub fn car_in(state: State) -> CarAddress
    ensures { result ≡ rules.car_in state }
{
    match state {
        State::Joining { car, .. } | State::Matched(car) => car,
        State::Unmatched | State::Matching(_) => CarAddress(0),
    }
}

// The inspection: the state's number, and the car in Joining and Matched.
pub fn inspect(config: Configuration, state: State) -> Result<Inspected, Refusal>
    ensures { inspected_of result ≡ rules.inspection config state }
{
    if config.good {
        Ok(Inspected {
            state: state_number(state),
            car: car_in(state),
        })
    } else {
        Err(Refusal::BadConfiguration)
    }
}
