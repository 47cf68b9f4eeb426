// Single fields: the numbers that a word may mean, and the numbers that are written.
ghost use Rattle.std.specs.Prelude.{◌≡◌, ◌*◌, ◌^◌, ◌%◌, ◌<◌};
ghost use Rattle.rules.specs.Constants.{sounds_per_try};
ghost use Rattle.words.specs.Words.{some_of, later_of, counting_of, phase_of, profiles_of, groups_of, most_sum, state_by};
ghost use Rattle.words.specs.Written.{phase_number, phase_count, state_time, state_run};

use ends::RETRIES;
use messages::{CarAddress, Edition, GROUPS, RunId};
use rules::{
    ASKED_TIME, AWAITING_TIME, LONGEST_WINDOW, MOST_TOGGLES, Phase, READY_TIME, REPORTED_TIME,
    SUCCESS_TIME, State, tries,
};

// How many sets of sound counts there are: two to the number of sounds.
const HEARD_SETS: u64 = 1024;

// The same in a first try of the SAE edition.
const FIRST_SETS: u64 = 256;

// And in a later one.
const LATER_SETS: u64 = 65536;

// A count of one at least, and of so many at most.
fn some(most: u8, word: u64) -> u8
    ensures { result ≡ some_of most word }
{
    ends::fields::at_most_count(most, word.max(1))
}

// Whether the try is a later one: with ISO never.
pub(crate) fn later(edition: Edition, word: u64) -> bool
    ensures { result ≡ later_of edition word }
{
    edition == Edition::Sae && word == 1
}

// A set of sound counts.
pub(crate) fn heard(edition: Edition, later: bool, x: u64) -> u16
    ensures { result ≡ x % 2 ^ sounds_per_try edition later }
{
    match edition {
        Edition::Iso => (x % HEARD_SETS) as u16,
        Edition::Sae if later => (x % LATER_SETS) as u16,
        Edition::Sae => (x % FIRST_SETS) as u16,
    }
}

// The greatest sum of so many profiles.
pub(crate) fn most_sum(profiles: u8) -> u16
    ensures { result ≡ most_sum profiles }
{
    255 * u16::from(profiles)
}

// Counting, by whether a toggle has begun.
fn counting(left: u64, toggles: u64, begun: bool) -> Phase
    ensures { result ≡ counting_of left toggles begun }
{
    Phase::Counting {
        left: ends::fields::time(LONGEST_WINDOW, left),
        toggles: ends::fields::at_most_count(MOST_TOGGLES, toggles),
        begun,
    }
}

// A phase by its number, which any word of the C interface may be; a number that is no other phase's is Asked.
pub(crate) fn phase(edition: Edition, later: bool, number: u64, left: u64, count: u64) -> Phase
    ensures { result ≡ phase_of edition later number left count }
{
    match number {
        1 => Phase::Sounding(ends::fields::time(tries::sounding_time(edition, later), left)),
        2 => Phase::Reported {
            left: ends::fields::time(REPORTED_TIME, left),
            retries: ends::fields::at_most_count(RETRIES, count),
        },
        3 => Phase::Awaiting(ends::fields::time(AWAITING_TIME, left)),
        4 => Phase::Ready(ends::fields::time(READY_TIME, left)),
        5 => counting(left, count, false),
        6 => counting(left, count, true),
        7 => Phase::Success(ends::fields::time(SUCCESS_TIME, left)),
        _ => Phase::Asked(ends::fields::time(ASKED_TIME, left)),
    }
}

// The profiles counted.
pub(crate) fn profiles(edition: Edition, later: bool, phase: Phase, word: u64) -> u8
    ensures { result ≡ profiles_of edition later phase word }
{
    let most = tries::sounds(edition, later);
    match phase {
        Phase::Asked(_) => 0,
        Phase::Sounding(_) => ends::fields::at_most_count(most - 1, word),
        _ => some(most, word),
    }
}

// The group count: none before a profile is counted, and with ISO always.
pub(crate) fn groups(edition: Edition, profiles: u8, word: u64) -> usize
    ensures { result ≡ groups_of edition profiles word }
{
    match edition {
        Edition::Sae if profiles != 0 => usize::from(some(GROUPS as u8, word)),
        _ => 0,
    }
}

// A state by its number, as any word may be one; a number that is no other state's is Unmatched.
pub(crate) fn state(number: u64, left: u64, car: u64, run: u64) -> State
    ensures { result ≡ state_by number left car run }
{
    match number {
        1 => State::Matching(ends::fields::low(left)),
        2 => State::Joining {
            left: ends::fields::low(left),
            car: CarAddress(car),
            run: RunId(run),
        },
        3 => State::Matched(CarAddress(car)),
        _ => State::Unmatched,
    }
}

// The number of a phase, for the words of the C interface.
pub(crate) fn phase_number(phase: Phase) -> u64
    ensures { result ≡ phase_number phase }
{
    match phase {
        Phase::Asked(_) => 0,
        Phase::Sounding(_) => 1,
        Phase::Reported { .. } => 2,
        Phase::Awaiting(_) => 3,
        Phase::Ready(_) => 4,
        Phase::Counting { begun: false, .. } => 5,
        Phase::Counting { begun: true, .. } => 6,
        Phase::Success(_) => 7,
    }
}

// A phase's retries left, or its toggles.
pub(crate) fn phase_count(phase: Phase) -> u8
    ensures { result ≡ phase_count phase }
{
    match phase {
        Phase::Reported { retries, .. } => retries,
        Phase::Counting { toggles, .. } => toggles,
        _ => 0,
    }
}

// A state's time left.
pub(crate) fn state_time(state: State) -> u32
    ensures { result ≡ state_time state }
{
    match state {
        State::Matching(left) | State::Joining { left, .. } => left,
        State::Unmatched | State::Matched(_) => 0,
    }
}

// The run of the car that joins.
pub(crate) fn state_run(state: State) -> u64
    ensures { result ≡ state_run state }
{
    if let State::Joining { run, .. } = state {
        run.0
    } else {
        0
    }
}
