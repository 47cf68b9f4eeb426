// The station and the answer that a call comes to.
ghost use Rattle.std.specs.Prelude.{◌≡◌};
ghost use Rattle.station.specs.Steps as steps;
ghost use Rattle.station.specs.Steps.{refused_as, done_as};

use ends::{Done, Indication};
use messages::Refusal;
use rules::{Pilot, RecordArray, State, Station, Stepped};

// A refusal: the station stays as it is.
pub(crate) fn refused(station: Station, refusal: Refusal) -> Stepped
    ensures { result ≡ refused_as station refusal }
{
    Stepped {
        station,
        answer: Err(refusal),
    }
}

// An accepted call with no frame.
pub(crate) fn without_frames(station: Station, indication: Indication) -> Stepped
    ensures { result ≡ done_as station 0 0 indication }
{
    Stepped {
        station,
        answer: ends::silent(indication),
    }
}

// An accepted call: the station after it, so many frames of so many octets in all, and the indication.
pub(crate) fn done(station: Station, frames: u8, octets: usize, indication: Indication) -> Stepped
    ensures { result ≡ done_as station frames octets indication }
{
    Stepped {
        station,
        answer: Ok(Done {
            frames,
            octets,
            indication,
        }),
    }
}

// The station in another state, with other records, pilot state and reading.
pub(crate) fn anew(
    station: Station,
    pilot: Pilot,
    clock: u32,
    state: State,
    records: RecordArray,
) -> Station
    ensures { result ≡ steps.anew station pilot clock state records }
{
    Station {
        state,
        pilot,
        clock,
        records,
        ..station
    }
}
