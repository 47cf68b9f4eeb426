// A tick: in place, but in Matching, where the times of records run.
ghost use Rattle.std.specs.Prelude.{◌≡◌, length};
ghost use Rattle.messages.specs.Reading.{yes};
ghost use Rattle.rules.specs.Calls as calls;
ghost use Rattle.rules.specs.Stations.{shared};
ghost use Rattle.rules.specs.Ticks.{tick_elapsed};
ghost use Rattle.station.specs.Passing.{passing};
ghost use Rattle.words.specs.Words.{station_of};
ghost use Rattle.lahzavar.specs.Events.{Passes};
ghost use Rattle.lahzavar.specs.Lent.{Lent};

use crate::{Answered, answers, storing};
use rules::{LEAST_OUTPUT, State};
use station::ticks;
use words::{StationSpread, StationSums, StationWords};

// A tick of the whole station, by value.
fn by_value(
    words: &mut StationWords,
    sums: &mut StationSums,
    spread: &mut StationSpread,
    reading: u32,
    out: &mut [u8],
) -> Answered
    ensures { Lent (calls.tick reading (length out.old)) words.old sums.old spread.old out.old out.new words.new sums.new spread.new result }
{
    let station = words::unpack(words, sums, spread);
    let stepped = station::tick(station, reading, out);
    storing::settle(words, sums, spread, stepped)
}

// The reading is taken, and so many milliseconds pass in a state.
fn pass(words: &mut StationWords, state: State, reading: u32, elapsed: u32) -> Answered
    ensures { Passes (passing elapsed state) reading words.old words.new result }
{
    let after = ticks::state_after(state, elapsed);
    let next = after.state;
    let pilot = words::pilot_of(words);
    words::put_state(words, next, pilot, reading);
    answers::silent(after.indication)
}

// What so many milliseconds come to: in Matching the times of records run too.
fn run(
    words: &mut StationWords,
    sums: &mut StationSums,
    spread: &mut StationSpread,
    reading: u32,
    elapsed: u32,
    out: &mut [u8],
) -> Answered
    requires { yes elapsed ≡ tick_elapsed (shared (station_of words.old sums.old spread.old)) reading (length out.old) }
    ensures { Lent (calls.tick reading (length out.old)) words.old sums.old spread.old out.old out.new words.new sums.new spread.new result }
{
    let state = words::state_of(words);
    match state {
        State::Matching(_) => by_value(words, sums, spread, reading, out),
        _ => pass(words, state, reading, elapsed),
    }
}

// The clock reads so much: 16, 15, 14, or the time since the last reading passes.
pub(crate) fn tick(
    words: &mut StationWords,
    sums: &mut StationSums,
    spread: &mut StationSpread,
    reading: u32,
    out: &mut [u8],
) -> Answered
    ensures { Lent (calls.tick reading (length out.old)) words.old sums.old spread.old out.old out.new words.new sums.new spread.new result }
{
    let us = words::identity_of(words);
    let last = words::clock_of(words);
    match ends::tick_time(us.good, LEAST_OUTPUT, out.len(), reading, last) {
        Err(refusal) => answers::refused(refusal),
        Ok(elapsed) => run(words, sums, spread, reading, elapsed, out),
    }
}
