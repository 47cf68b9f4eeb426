// One record: read out of its words, sums and spread, and stored in them.
// A place is a plain index: a type for it would be made of the index in every loop, which is no plainer.
ghost use Rattle.std.specs.Prelude.{◌≡◌, List, ℕ, ◌<◌, get_or, set};
ghost use Rattle.rules.specs.Constants.{record_count};
ghost use Rattle.rules.specs.Records.{is_held};
ghost use Rattle.rules.specs.Invariant.{GoodRecord};
ghost use Rattle.rules.specs.Rules.{free_record};
ghost use Rattle.rules.specs.Validation.{is_validating};
ghost use Rattle.words.specs.Words.{edition_in, records_of, station_of, with_records};
ghost use Rattle.words.specs.Written.{words_of};

use crate::{
    HEAD, SPREAD_WIDTH, StationSpread, StationSums, StationWords, WIDTH, copies, fields, head,
};
use messages::{CarAddress, GROUPS, RunId};
use records::{timers, validation};
use rules::{RECORDS, Record, tries};

// Whether the record at a place is held.
pub(crate) fn is_held(words: &StationWords, i: usize) -> bool
    requires { i < record_count }
    ensures { (sums spread : List ℕ) → result ≡ is_held (get_or (records_of words.now sums spread) i free_record) }
{
    let at = HEAD + WIDTH * i;
    words[at] == 1 && messages::is_unicast(words[at + 1])
}

// The car of the record at a place.
pub(crate) fn car_at(words: &StationWords, i: usize) -> CarAddress
    requires { i < record_count }
    ensures { (sums spread : List ℕ) → result ≡ (get_or (records_of words.now sums spread) i free_record).car }
{
    CarAddress(words[HEAD + WIDTH * i + 1])
}

// Whether the record at a place is held, and ready or counting.
pub(crate) fn is_validating(words: &StationWords, i: usize) -> bool
    requires { i < record_count }
    ensures { (sums spread : List ℕ) → result ≡ is_validating (get_or (records_of words.now sums spread) i free_record) }
{
    let edition = head::edition_of(words);
    let at = HEAD + WIDTH * i;
    let later = fields::later(edition, words[at + 8]);
    let phase = fields::phase(edition, later, words[at + 3], words[at + 4], words[at + 5]);
    is_held(words, i) && validation::validates(phase)
}

// The record at a place.
pub(crate) fn read(
    words: &StationWords,
    sums: &StationSums,
    spread: &StationSpread,
    i: usize,
) -> Record
    requires { i < record_count }
    ensures { result ≡ get_or (records_of words.now sums.now spread.now) i free_record }
{
    let edition = head::edition_of(words);
    let at = HEAD + WIDTH * i;
    let later = fields::later(edition, words[at + 8]);
    let phase = fields::phase(edition, later, words[at + 3], words[at + 4], words[at + 5]);
    let profiles = fields::profiles(edition, later, phase, words[at + 7]);
    let groups = fields::groups(edition, profiles, words[at + 9]);
    Record {
        car: car_at(words, i),
        run: RunId(words[at + 2]),
        held: is_held(words, i),
        phase,
        heard: fields::heard(edition, later, words[at + 6]),
        profiles,
        sums: copies::sums_at(
            sums,
            GROUPS * i,
            profiles,
            tries::groups_in(edition, groups),
        ),
        spread: copies::spread_at(spread, SPREAD_WIDTH * i),
        later,
        groups,
    }
}

// The words of a record.
fn record_words(r: Record) -> [u64; WIDTH]
    ensures { result ≡ words_of r }
{
    [
        u64::from(r.held),
        r.car.0,
        r.run.0,
        fields::phase_number(r.phase),
        u64::from(timers::time_of(r.phase)),
        u64::from(fields::phase_count(r.phase)),
        u64::from(r.heard),
        u64::from(r.profiles),
        u64::from(r.later),
        r.groups as u64,
    ]
}

// Stores a record at its place; past the last, nothing.
pub fn put_record(
    words: &mut StationWords,
    sums: &mut StationSums,
    spread: &mut StationSpread,
    i: usize,
    r: Record,
)
    requires { GoodRecord (edition_in words.old) r }
    ensures { station_of words.new sums.new spread.new ≡ with_records (station_of words.old sums.old spread.old) (set (records_of words.old sums.old spread.old) i r) }
{
    if i < RECORDS {
        ends::runs::put_words(&record_words(r), words, HEAD + WIDTH * i);
        // Copied alone: a reference into `r` makes a copy of all of it.
        let own = r.sums;
        copies::put_sums(&own, sums, GROUPS * i);
        copies::put_spread(r.spread, spread, SPREAD_WIDTH * i);
    }
}
