// The state: what its words mean, and the words that are written for it.
ghost use Rattle.std.specs.Prelude.{◌≡◌};
ghost use Rattle.car_words.specs.Words.{requesting_of, state_by};
ghost use Rattle.car_words.specs.Written.{state_time, state_count, state_next, no_key, state_key};

use car_rules::{CONFIRMED_TIME, GATHER_TIME, Key, SOUNDING_FRAMES, SPACING, State};
use ends::{JOINING_TIME, RESPONSE_TIME, RETRIES, fields};
use messages::{Nid, Nmk, StationAddress};

// Requesting a station, where that is a unicast address; else Idle.
fn requesting(left: u64, retries: u64, station: StationAddress) -> State
    ensures { result ≡ requesting_of left retries station }
{
    if messages::is_unicast(station.0) {
        State::Requesting {
            left: fields::time(RESPONSE_TIME, left),
            retries: fields::at_most_count(RETRIES, retries),
            station,
        }
    } else {
        State::Idle
    }
}

// A state by its number, which any word of the C interface may be; a number that is no other state's is Idle.
pub(crate) fn state(number: u64, left: u64, count: u64, next: u64, key: Key) -> State
    ensures { result ≡ state_by number left count next key }
{
    match number {
        1 => State::Asking {
            left: fields::time(RESPONSE_TIME, left),
            retries: fields::at_most_count(RETRIES, count),
        },
        2 => State::Confirmed(fields::time(CONFIRMED_TIME, left)),
        3 => State::Sounding {
            sent: fields::at_most_count(SOUNDING_FRAMES, count),
            next: fields::time(SPACING, next),
            left: fields::time(GATHER_TIME, left),
        },
        4 => requesting(left, count, key.station),
        5 => State::Joining {
            left: fields::time(JOINING_TIME, left),
            key,
        },
        6 => State::Matched(key),
        _ => State::Idle,
    }
}

// A state's time left.
pub(crate) fn state_time(state: State) -> u32
    ensures { result ≡ state_time state }
{
    match state {
        State::Idle | State::Matched(_) => 0,
        State::Asking { left, .. }
        | State::Confirmed(left)
        | State::Sounding { left, .. }
        | State::Requesting { left, .. }
        | State::Joining { left, .. } => left,
    }
}

// Its retries left, or the frames sent.
pub(crate) fn state_count(state: State) -> u8
    ensures { result ≡ state_count state }
{
    match state {
        State::Asking { retries, .. } | State::Requesting { retries, .. } => retries,
        State::Sounding { sent, .. } => sent,
        _ => 0,
    }
}

// The time to the next frame.
pub(crate) fn state_next(state: State) -> u32
    ensures { result ≡ state_next state }
{
    if let State::Sounding { next, .. } = state {
        next
    } else {
        0
    }
}

// A key with a station alone.
fn key_of(station: StationAddress) -> Key
    ensures { result ≡ no_key station }
{
    Key {
        station,
        nid: Nid(0),
        nmk: Nmk(0, 0),
    }
}

// Its key, or its station.
pub(crate) fn state_key(state: State) -> Key
    ensures { result ≡ state_key state }
{
    match state {
        State::Requesting { station, .. } => key_of(station),
        State::Joining { key, .. } | State::Matched(key) => key,
        _ => key_of(StationAddress(0)),
    }
}
