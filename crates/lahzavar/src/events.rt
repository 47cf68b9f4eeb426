// Pilot, terminate and link up, in place: no record is moved.
ghost use Rattle.std.specs.Prelude.{[]};
ghost use Rattle.rules.specs.Calls as calls;
ghost use Rattle.rules.specs.Events.{lost};
ghost use Rattle.words.specs.Words.{state_of};
ghost use Rattle.lahzavar.specs.Events.{InWords, Frees};
ghost use Rattle.lahzavar.specs.Lent.{Lent};

use crate::{Answered, answers, storing};
use ends::Indication;
use messages::Refusal;
use rules::{ADMISSION_TIME, Pilot, State};
use station::events;
use words::{StationSpread, StationSums, StationWords};

// Every record is freed, and the state, the pilot state and the clock are stored.
fn free(
    words: &mut StationWords,
    state: State,
    pilot: Pilot,
    clock: u32,
    indication: Indication,
) -> Answered
    ensures { Frees state pilot clock indication words.old words.new result }
{
    words::free_all(words);
    words::put_state(words, state, pilot, clock);
    answers::silent(indication)
}

// Unmatched, with the records free.
fn end(words: &mut StationWords, pilot: Pilot, clock: u32) -> Answered
    ensures { Frees State.Unmatched pilot clock (lost (state_of words.old)) words.old words.new result }
{
    let indication = events::lost(words::state_of(words));
    free(words, State::Unmatched, pilot, clock, indication)
}

// Matching is terminated.
pub(crate) fn terminate(words: &mut StationWords) -> Answered
    ensures { InWords calls.terminate words.old words.new result }
{
    if !words::config_of(words).good {
        return answers::refused(Refusal::BadConfiguration);
    }
    let pilot = words::pilot_of(words);
    let clock = words::clock_of(words);
    end(words, pilot, clock)
}

// The link to the car that joins is up.
pub(crate) fn link_up(words: &mut StationWords) -> Answered
    ensures { InWords calls.link_up words.old words.new result }
{
    if !words::config_of(words).good {
        return answers::refused(Refusal::BadConfiguration);
    }
    let State::Joining { car, .. } = words::state_of(words) else {
        return answers::refused(Refusal::WrongState);
    };
    let pilot = words::pilot_of(words);
    let clock = words::clock_of(words);
    words::put_state(words, State::Matched(car), pilot, clock);
    answers::silent(Indication::LinkEstablished)
}

// A pilot change on the whole station, by value.
fn by_value(
    words: &mut StationWords,
    sums: &mut StationSums,
    spread: &mut StationSpread,
    pilot: Pilot,
    reading: u32,
) -> Answered
    ensures { Lent (calls.pilot pilot reading) words.old sums.old spread.old [] [] words.new sums.new spread.new result }
{
    let station = words::unpack(words, sums, spread);
    let stepped = station::pilot(station, pilot, reading);
    storing::settle(words, sums, spread, stepped)
}

// The control pilot is at a state: a plug-in and a loss free every record; a change among B, C and D, which may begin or end a toggle, goes through the whole station.
pub(crate) fn pilot(
    words: &mut StationWords,
    sums: &mut StationSums,
    spread: &mut StationSpread,
    pilot: Pilot,
    reading: u32,
) -> Answered
    ensures { Lent (calls.pilot pilot reading) words.old sums.old spread.old [] [] words.new sums.new spread.new result }
{
    if !words::config_of(words).good {
        return answers::refused(Refusal::BadConfiguration);
    }
    if !events::plugged(pilot) {
        return end(words, pilot, reading);
    }
    if events::plugged(words::pilot_of(words)) {
        return by_value(words, sums, spread, pilot, reading);
    }
    free(
        words,
        State::Matching(ADMISSION_TIME),
        pilot,
        reading,
        Indication::Nothing,
    )
}
