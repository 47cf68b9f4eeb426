// The head: the configuration, the state, the pilot state and the clock; whether validation is not required, the edition and the carriers stand last.
ghost use Rattle.std.specs.Prelude.{◌≡◌};
ghost use Rattle.std.proofs.lemmas.List.Edits.{sets};
ghost use Rattle.words.specs.Words.{config_of, identity, edition_in, state_of, pilot_in, clock_in};
ghost use Rattle.words.specs.Written.{state_place, state_words, head_of, TimesFit, Fits};

use crate::{HEAD, StationWords, fields};
use messages::{Edition, ModemAddress, Nid, Nmk, StationAddress};
use rules::{Configuration, Pilot, State};

// Where the words of the state begin; the pilot state and the clock stand with it.
const STATE_PLACE: usize = 6;

// How many words these have.
const STATE_WIDTH: usize = 6;

// The identity of the configuration, by five words: what a frame is judged by.
pub fn identity_of(words: &StationWords) -> Configuration
    ensures { result ≡ identity (config_of words.now) }
{
    let address = StationAddress(words[1]);
    let modem = ModemAddress(words[2]);
    Configuration {
        good: words[0] == 1 && rules::may_reply(address, modem, Nid(words[3])),
        address,
        modem,
        nid: Nid(0),
        nmk: Nmk(0, 0),
        exempt: false,
        edition: edition_of(words),
        carriers: 0,
    }
}

// The configuration.
pub fn config_of(words: &StationWords) -> Configuration
    ensures { result ≡ config_of words.now }
{
    Configuration {
        nid: Nid(words[3]),
        nmk: Nmk(words[4], words[5]),
        exempt: words[12] == 1,
        carriers: ends::fields::low(words[14]),
        ..identity_of(words)
    }
}

// The edition, by one word.
pub fn edition_of(words: &StationWords) -> Edition
    ensures { result ≡ edition_in words.now }
{
    rules::edition_of(words[13])
}

// The state.
pub fn state_of(words: &StationWords) -> State
    ensures { result ≡ state_of words.now }
{
    fields::state(words[6], words[7], words[8], words[9])
}

// The pilot state.
pub fn pilot_of(words: &StationWords) -> Pilot
    ensures { result ≡ pilot_in words.now }
{
    Pilot::from(words[10])
}

// The clock.
pub fn clock_of(words: &StationWords) -> u32
    ensures { result ≡ clock_in words.now }
{
    ends::fields::low(words[11])
}

// The words of the state, the pilot state and the clock.
// Three values and no struct: one would be made of a station's fields to be taken apart here at once.
fn state_words(state: State, pilot: Pilot, clock: u32) -> [u64; STATE_WIDTH]
    ensures { (result ≡ state_words state pilot clock) × TimesFit state clock }
{
    [
        u64::from(rules::state_number(state)),
        u64::from(fields::state_time(state)),
        rules::car_in(state).0,
        fields::state_run(state),
        pilot as u64,
        u64::from(clock),
    ]
}

// The words of the head.
fn head_words(config: Configuration, state: State, pilot: Pilot, clock: u32) -> [u64; HEAD]
    ensures { (result ≡ head_of config state pilot clock) × Fits config state clock }
{
    let [number, left, car, run, at, reading] = state_words(state, pilot, clock);
    [
        u64::from(config.good),
        config.address.0,
        config.modem.0,
        config.nid.0,
        config.nmk.0,
        config.nmk.1,
        number,
        left,
        car,
        run,
        at,
        reading,
        u64::from(config.exempt),
        config.edition as u64,
        u64::from(config.carriers),
    ]
}

// Stores the state, the pilot state and the clock.
pub(crate) fn put_state(words: &mut StationWords, state: State, pilot: Pilot, clock: u32)
    ensures { (words.new ≡ sets words.old state_place (state_words state pilot clock)) × TimesFit state clock }
{
    ends::runs::put_words(&state_words(state, pilot, clock), words, STATE_PLACE);
}

// Stores the head.
pub(crate) fn put(
    words: &mut StationWords,
    config: Configuration,
    state: State,
    pilot: Pilot,
    clock: u32,
)
    ensures { (words.new ≡ sets words.old 0 (head_of config state pilot clock)) × Fits config state clock }
{
    ends::runs::put_words(&head_words(config, state, pilot, clock), words, 0);
}
