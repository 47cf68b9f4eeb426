// A station lent as plain words, sums and spread: a field to a word, and the sums and the spread of all records side by side.
// Three arrays of numbers and no struct: the C interface lends them so (`lahzavar::frames` says more).
#![tactic(auto)]

mod copies;
mod fields;
mod head;
mod one_record;
mod search;
mod whole;

ghost use Rattle.std.specs.Prelude.{◌≡◌, min, get_or};
ghost use Rattle.rules.specs.Invariant.{GoodRecord};
ghost use Rattle.rules.specs.Rules.{free_record};
ghost use Rattle.words.specs.Words.{last_place, edition_in, records_of};

pub use head::{clock_of, config_of, edition_of, identity_of, pilot_of, state_of};
use messages::GROUPS;
pub use one_record::put_record;
use rules::{RECORDS, Record};
pub use search::{any_validates, find, held_count, own_place};
pub use whole::{free_all, pack, put_state, unpack, wipe};

// How many words the head has.
pub const HEAD: usize = 15;

// How many words a record has.
pub const WIDTH: usize = 10;

// How many words a station has.
pub const WORDS: usize = HEAD + WIDTH * RECORDS;

// How many sums a station has.
pub const SUMS: usize = GROUPS * RECORDS;

// How many octets of the spread a record has.
pub const SPREAD_WIDTH: usize = 2 * GROUPS;

// How many octets the spread of a station has.
pub const SPREAD: usize = SPREAD_WIDTH * RECORDS;

// The words of a station: the head, then the records. Words, sums and spread are three arrays in the C interface.
pub type StationWords = [u64; WORDS];

// The sums of a station: a record's groups behind the other's.
pub type StationSums = [u16; SUMS];

// The spread of a station: a record's least values, then its greatest, behind the other's.
pub type StationSpread = [u8; SPREAD];

// The record at a place; past the last, the last one.
pub fn record_at(
    words: &StationWords,
    sums: &StationSums,
    spread: &StationSpread,
    i: usize,
) -> Record
    ensures { (result ≡ get_or (records_of words.now sums.now spread.now) (min i last_place) free_record) × GoodRecord (edition_in words.now) result }
{
    one_record::read(words, sums, spread, i.min(RECORDS - 1))
}
