// A car's calls, by value: each gives the car afterwards and an answer.
// `Invariant` is asked for and stands in no type: a type with it would ask it of each caller who writes a `Car`, which none had to prove.
#![tactic(auto, using(crate::proofs::StepLaws::kept_after), unfolding(car_rules::specs::Rules::rule, car_rules::specs::Rules::step, car_rules::specs::Rules::outcome, car_rules::specs::Rules::is_idle, car_rules::specs::Rules::link_rule, ends::specs::Clock::tick_time, octets::specs::Octets::splice, ends::specs::Lists::joins))]

mod cars;
mod choice;
mod frames;
mod judge;
mod reports;
mod sending;
mod ticks;

ghost use Rattle.std.specs.Prelude.{[], length};
ghost use Rattle.car_rules.specs.Answers.{Answers};
ghost use Rattle.car_rules.specs.Calls as calls;
ghost use Rattle.car_rules.specs.Invariant.{Invariant};

use car_rules::{Car, LEAST_OUTPUT, State, Stepped};
use ends::Indication;
use messages::{Random, Refusal, RunId};

// A matching starts, with a run and a random value, at a clock reading: PARM.REQ stands from the output's first octet.
pub fn start(car: Car, run: RunId, random: Random, reading: u32, out: &mut [u8]) -> Stepped
    requires { Invariant car }
    ensures { Answers car (calls.start run random reading (length out.old)) out.old out.new result }
{
    if !car.config.good {
        return cars::refused(car, Refusal::BadConfiguration);
    }
    if out.len() < LEAST_OUTPUT {
        return cars::refused(car, Refusal::OutputTooShort);
    }
    let State::Idle = car.state else {
        return cars::refused(car, Refusal::WrongState);
    };
    sending::parm_req(cars::begun(car, run, random, reading), out)
}

// A frame was received: its reply stands from the output's first octet.
pub fn frame(car: Car, octets: &[u8], out: &mut [u8]) -> Stepped
    requires { Invariant car }
    ensures { Answers car (calls.frame octets.now (length out.old)) out.old out.new result }
{
    match judge::judge(car.config, octets, out.len()) {
        Ok(received) => frames::take(car, received, octets, out),
        Err(refusal) => cars::refused(car, refusal),
    }
}

// A tick: the clock reads so much. What is sent stands from the output's first octet.
pub fn tick(car: Car, reading: u32, out: &mut [u8]) -> Stepped
    requires { Invariant car }
    ensures { Answers car (calls.tick reading (length out.old)) out.old out.new result }
{
    match ends::tick_time(car.config.good, LEAST_OUTPUT, out.len(), reading, car.clock) {
        Ok(elapsed) => {
            let clock = reading;
            ticks::run(Car { clock, ..car }, elapsed, out)
        }
        Err(refusal) => cars::refused(car, refusal),
    }
}

// The link to the station that the car joins is up.
pub fn link_up(car: Car) -> Stepped
    requires { Invariant car }
    ensures { Answers car calls.link_up [] [] result }
{
    if !car.config.good {
        return cars::refused(car, Refusal::BadConfiguration);
    }
    let State::Joining { key, .. } = car.state else {
        return cars::refused(car, Refusal::WrongState);
    };
    let state = State::Matched(key);
    cars::silent(Car { state, ..car }, Indication::LinkEstablished)
}

// The matching is terminated.
pub fn terminate(car: Car) -> Stepped
    requires { Invariant car }
    ensures { Answers car calls.terminate [] [] result }
{
    if !car.config.good {
        return cars::refused(car, Refusal::BadConfiguration);
    }
    choice::fall(car, cars::lost(car.state))
}
