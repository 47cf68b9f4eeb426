// A car lent as plain words, a field to a word, of any content.
#![tactic(auto)]

mod fields;
mod head;
mod reports;

ghost use Rattle.std.specs.Prelude.{◌≡◌};
ghost use Rattle.car_rules.specs.Invariant.{Invariant};
ghost use Rattle.car_words.specs.Wiped.{Wiped};
ghost use Rattle.car_words.specs.Words.{car_of};
ghost use Rattle.car_words.specs.Written.{state_number};

use car_rules::{Car, STATIONS, State};
use ends::fields::low;
pub use head::state_of;
use messages::{Random, RunId};

// How many words the head has.
pub const HEAD: usize = 16;

// How many words a report has.
pub const WIDTH: usize = 2;

// How many words a car has.
pub const WORDS: usize = HEAD + WIDTH * STATIONS;

// The words of a car: the head, then the reports.
pub type CarWords = [u64; WORDS];

// The number of a state: 0 Idle, 1 Asking, 2 Confirmed, 3 Sounding, 4 Requesting, 5 Joining, 6 Matched; the C interface gives it.
pub fn state_number(state: State) -> u32
    ensures { result ≡ state_number state }
{
    match state {
        State::Idle => 0,
        State::Asking { .. } => 1,
        State::Confirmed(_) => 2,
        State::Sounding { .. } => 3,
        State::Requesting { .. } => 4,
        State::Joining { .. } => 5,
        State::Matched(_) => 6,
    }
}

// The car that the words mean: any do.
pub fn unpack(words: &CarWords) -> Car
    ensures { (result ≡ car_of words.now) × Invariant result }
{
    let reports = reports::read(words);
    Car {
        config: head::config(words),
        state: state_of(words),
        clock: low(words[11]),
        run: RunId(words[12]),
        random: Random(words[13], words[14]),
        reports,
        count: reports::count(reports, words[15]),
    }
}

// Stores a car.
pub fn pack(car: Car, words: &mut CarWords)
    requires { Invariant car }
    ensures { car_of words.new ≡ car }
{
    head::put(words, car);
    reports::store(car.reports, words);
}

// Wipes a car, its key too: it answers 16 to everything.
pub fn wipe(words: &mut CarWords)
    ensures { Wiped words.new }
{
    words.fill(0);
}
