// The whole station: out of its words, sums and spread, and into them.
ghost use Rattle.std.specs.Prelude.{◌≡◌, List, map, ℕ};
ghost use Rattle.rules.specs.Invariant.{GoodRecord, Invariant};
ghost use Rattle.rules.specs.Records.{freed};
ghost use Rattle.ends.specs.Lists.{All};
ghost use Rattle.words.specs.Words.{edition_in, records_of, station_of, with_records, in_state};
ghost use Rattle.words.specs.Wiped.{Wiped};

use crate::{HEAD, StationSpread, StationSums, StationWords, WIDTH, head, one_record};
use rules::{Pilot, RECORDS, RecordArray, State, Station};

// All records.
fn read_all(words: &StationWords, sums: &StationSums, spread: &StationSpread) -> RecordArray
    ensures { result ≡ records_of words.now sums.now spread.now }
{
    let first = one_record::read(words, sums, spread, 0);
    let mut rs = [first; RECORDS];
    for i in 0..RECORDS {
        rs[i] = one_record::read(words, sums, spread, i);
    }
    rs
}

// The station that the words, sums and spread mean: any do.
pub fn unpack(words: &StationWords, sums: &StationSums, spread: &StationSpread) -> Station
    ensures { (result ≡ station_of words.now sums.now spread.now) × Invariant result }
{
    let records = read_all(words, sums, spread);
    Station {
        config: head::config_of(words),
        state: head::state_of(words),
        pilot: head::pilot_of(words),
        clock: head::clock_of(words),
        records,
    }
}

// Stores all records.
fn store_all(
    records: RecordArray,
    words: &mut StationWords,
    sums: &mut StationSums,
    spread: &mut StationSpread,
)
    requires { All (GoodRecord (edition_in words.old)) records }
    ensures { station_of words.new sums.new spread.new ≡ with_records (station_of words.old sums.old spread.old) records }
{
    for i in 0..RECORDS {
        one_record::put_record(words, sums, spread, i, records[i]);
    }
}

// Stores a station.
pub fn pack(
    station: Station,
    words: &mut StationWords,
    sums: &mut StationSums,
    spread: &mut StationSpread,
)
    requires { Invariant station }
    ensures { station_of words.new sums.new spread.new ≡ station }
{
    head::put(
        words,
        station.config,
        station.state,
        station.pilot,
        station.clock,
    );
    store_all(station.records, words, sums, spread);
}

// Frees every record: of each one word is stored.
pub fn free_all(words: &mut StationWords)
    ensures { (sums spread : List ℕ) → station_of words.new sums spread ≡ with_records (station_of words.old sums spread) (map freed (records_of words.old sums spread)) }
{
    for i in 0..RECORDS {
        words[HEAD + WIDTH * i] = 0;
    }
}

// Stores another state, pilot state and clock.
pub fn put_state(words: &mut StationWords, state: State, pilot: Pilot, clock: u32)
    ensures { (sums spread : List ℕ) → station_of words.new sums spread ≡ in_state state pilot clock (station_of words.old sums spread) }
{
    head::put_state(words, state, pilot, clock);
}

// Wipes a station, its key too: it answers 16 to everything.
pub fn wipe(words: &mut StationWords, sums: &mut StationSums, spread: &mut StationSpread)
    ensures { Wiped words.new sums.new spread.new }
{
    words.fill(0);
    sums.fill(0);
    spread.fill(0);
}
