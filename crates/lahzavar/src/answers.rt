// Answers as plain numbers.
ghost use Rattle.std.specs.Prelude.{◌≡◌, ◌^◌, ◌%◌};
ghost use Rattle.messages.specs.Answers.{number_of};
ghost use Rattle.messages.specs.Reading.{no, check};
ghost use Rattle.ends.specs.Answers.{answer_of, silently};
ghost use Rattle.rules.specs.Answers.{heard_of, inspected_of};
ghost use Rattle.lahzavar.specs.Answers as answers;
ghost use Rattle.lahzavar.specs.Answers.{said_of};

use crate::{Answered, Heard, Inspected};
use ends::{Answer, Indication};
use messages::{GroupValues, Refusal};
use rules::Configuration;

// The low 32 binary digits, of a `usize`, which has no `From` into the `u64` of `ends::fields::low`.
pub(crate) fn low(x: usize) -> u32
    ensures { result ≡ x % 2 ^ 32 }
{
    (x % 4294967296) as u32
}

// A refusal.
pub(crate) fn refused(refusal: Refusal) -> Answered
    ensures { result ≡ said_of (no (number_of refusal)) }
{
    Answered {
        refusal: u32::from(refusal),
        indication: 0,
        frames: 0,
        octets: 0,
    }
}

// What a call by value answered.
pub(crate) fn answered(answer: Answer) -> Answered
    ensures { result ≡ said_of (answer_of answer) }
{
    match answer {
        Err(refusal) => refused(refusal),
        Ok(done) => Answered {
            refusal: 0,
            indication: u32::from(done.indication),
            frames: u32::from(done.frames),
            octets: low(done.octets),
        },
    }
}

// The answer of an accepted call with no frame.
pub(crate) fn silent(indication: Indication) -> Answered
    ensures { result ≡ said_of (answer_of (silently indication)) }
{
    answered(ends::silent(indication))
}

// The refusal of a number that names no pilot state: 16, then 8.
pub(crate) fn no_pilot(config: Configuration) -> Answered
    ensures { result ≡ said_of (check config.good 16 (no 8)) }
{
    if config.good {
        refused(Refusal::WrongState)
    } else {
        refused(Refusal::BadConfiguration)
    }
}

// What the inspection answered.
pub(crate) fn inspected(inspection: Result<rules::Inspected, Refusal>) -> Inspected
    ensures { result ≡ answers.inspected_as (inspected_of inspection) }
{
    match inspection {
        Err(refusal) => Inspected {
            refusal: u32::from(refusal),
            state: 0,
            car: 0,
        },
        Ok(at) => Inspected {
            refusal: 0,
            state: at.state,
            car: at.car.0,
        },
    }
}

// The service query's answer, with the spread in two lent arrays; a refusal leaves them.
pub(crate) fn told(
    queried: Result<rules::Heard, Refusal>,
    least: &mut GroupValues,
    greatest: &mut GroupValues,
) -> Heard
    ensures { answers.Tells (heard_of queried) least.old greatest.old least.new greatest.new result }
{
    match queried {
        Err(refusal) => Heard {
            refusal: u32::from(refusal),
            sounds: 0,
        },
        Ok(heard) => {
            least.copy_from_slice(&heard.spread.least);
            greatest.copy_from_slice(&heard.spread.greatest);
            Heard {
                refusal: 0,
                sounds: heard.sounds,
            }
        }
    }
}
