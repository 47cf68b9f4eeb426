// A charging station's calls, by value: each gives the station afterwards and an answer.
// `Invariant` is asked for and stands in no type: a type with it would ask it of each caller who writes a `Station`, which none had to prove.
#![tactic(auto)]

mod all_records;
mod answers;
mod confirming;
pub mod events;
mod frames;
mod freeing;
mod maps;
mod reports;
mod sending;
pub mod ticks;
mod validating;

ghost use Rattle.std.specs.Prelude.{[], length};
ghost use Rattle.rules.specs.Calls as calls;
ghost use Rattle.rules.specs.Invariant.{Invariant};
ghost use Rattle.rules.specs.Answers.{Answers};

use messages::Refusal;
use receiving::judge;
use rules::{LEAST_OUTPUT, State, Station, Stepped};

// A frame was received: its reply stands from the output's first octet.
pub fn frame(station: Station, octets: &[u8], out: &mut [u8]) -> Stepped
    requires { Invariant station }
    ensures { Answers station (calls.frame octets.now (length out.old)) out.old out.new result }
{
    match judge::judge(station.config, octets, out.len()) {
        Err(refusal) => maps::unread(station, refusal, octets, out),
        Ok(asking) => frames::accept(station, asking.car, asking.request, octets, out),
    }
}

// A tick: the clock reads so much. The reports stand back to back from the first octet of the output, the confirmations behind them.
pub fn tick(station: Station, reading: u32, out: &mut [u8]) -> Stepped
    requires { Invariant station }
    ensures { Answers station (calls.tick reading (length out.old)) out.old out.new result }
{
    let good = station.config.good;
    match ends::tick_time(good, LEAST_OUTPUT, out.len(), reading, station.clock) {
        Err(refusal) => answers::refused(station, refusal),
        Ok(elapsed) => ticks::run(station, reading, elapsed, out),
    }
}

// The control pilot is at a state, at a clock reading.
pub fn pilot(station: Station, pilot: rules::Pilot, reading: u32) -> Stepped
    requires { Invariant station }
    ensures { Answers station (calls.pilot pilot reading) [] [] result }
{
    if !station.config.good {
        return answers::refused(station, Refusal::BadConfiguration);
    }
    events::change(station, pilot, reading)
}

// Matching is terminated.
pub fn terminate(station: Station) -> Stepped
    requires { Invariant station }
    ensures { Answers station calls.terminate [] [] result }
{
    if !station.config.good {
        return answers::refused(station, Refusal::BadConfiguration);
    }
    events::end(station, station.pilot, station.clock)
}

// The link to the car that joins is up.
pub fn link_up(station: Station) -> Stepped
    requires { Invariant station }
    ensures { Answers station calls.link_up [] [] result }
{
    if !station.config.good {
        return answers::refused(station, Refusal::BadConfiguration);
    }
    let State::Joining { car, .. } = station.state else {
        return answers::refused(station, Refusal::WrongState);
    };
    events::linked(station, car)
}
