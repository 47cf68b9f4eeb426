// The held records: a search reads at most two words of each, or those of its phase.
ghost use Rattle.std.specs.Prelude.{◌≡◌, List, ℕ, ◌<◌, get_or};
ghost use Rattle.rules.specs.Constants.{record_count};
ghost use Rattle.rules.specs.Records.{holds};
ghost use Rattle.rules.specs.Rules.{free_record};
ghost use Rattle.rules.specs.Validation.{any_validates};
ghost use Rattle.records.specs.Places.{own_place, free_place, place_of};
ghost use Rattle.words.specs.Words.{records_of, held_count};

use crate::{StationWords, one_record};
use messages::CarAddress;
use records::find::Found;
use rules::RECORDS;

// Whether the car holds the record at a place: one comparison where its last car was another.
fn is_own(words: &StationWords, i: usize, car: CarAddress) -> bool
    requires { i < record_count }
    ensures { (sums spread : List ℕ) → result ≡ holds car (get_or (records_of words.now sums spread) i free_record) }
{
    car == one_record::car_at(words, i) && one_record::is_held(words, i)
}

// The place of the car's own record: of other cars' records one word is read.
pub fn own_place(words: &StationWords, car: CarAddress) -> Option<usize>
    ensures { (sums spread : List ℕ) → result ≡ own_place car (records_of words.now sums spread) }
{
    (0..RECORDS).find(|&i| is_own(words, i, car))
}

// The first free place.
fn free_place(words: &StationWords) -> Option<usize>
    ensures { (sums spread : List ℕ) → result ≡ free_place (records_of words.now sums spread) }
{
    (0..RECORDS).find(|&i| !one_record::is_held(words, i))
}

// The place of the car's own record, or else the first free place, which is sought only where there is no own one.
pub fn find(words: &StationWords, car: CarAddress) -> Found
    ensures { (sums spread : List ℕ) → result ≡ place_of car (records_of words.now sums spread) }
{
    if let Some(i) = own_place(words, car) {
        return Found::Own(i);
    }
    match free_place(words) {
        Some(i) => Found::Free(i),
        None => Found::Nothing,
    }
}

// Whether any record is ready or counting.
pub fn any_validates(words: &StationWords) -> bool
    ensures { (sums spread : List ℕ) → result ≡ any_validates (records_of words.now sums spread) }
{
    (0..RECORDS).any(|i| one_record::is_validating(words, i))
}

// How many records are held. Not by `filter` and `count`, by which sixteen that are took 319 instructions for 190.
pub fn held_count(words: &StationWords) -> u32
    ensures { (sums spread : List ℕ) → result ≡ held_count (records_of words.now sums spread) }
{
    let mut n = 0;
    for i in 0..RECORDS {
        if one_record::is_held(words, i) {
            n += 1;
        }
    }
    n
}
