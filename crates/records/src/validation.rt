// Validation of one record: whether it is ready or counting, what a first VALIDATE.REQ is answered, its toggles, and what a tick confirms.
#![tactic(auto, unfolding(rules::specs::Validation::validates, rules::specs::Validation::is_validating, rules::specs::Validation::turn, rules::specs::Validation::from_b, rules::specs::Validation::from_c, rules::specs::Validation::from_d, rules::specs::Validation::one_more, rules::specs::Validation::counts, rules::specs::Validation::toggled_phase, rules::specs::Validation::toggled_record, rules::specs::Ticks::tick_phase, rules::specs::Ticks::window_ends, rules::specs::Ticks::replies_of, crate::specs::Timers::tick_replies, rules::specs::Records::is_held, rules::specs::Records::in_phase, rules::specs::Replies::report_of, rules::specs::Replies::is_confirmation, ends::specs::Lists::only))]

ghost use Rattle.std.specs.Prelude.{◌≡◌, Some};
ghost use Rattle.ends.specs.Lists.{only};
ghost use Rattle.rules.specs.Replies.{is_confirmation};
ghost use Rattle.rules.specs.Ticks.{window_ends, replies_of};
ghost use Rattle.rules.specs.Validation as rule;
ghost use Rattle.rules.specs.Validation.{is_validating, toggled_record, toggled_phase, one_more, counts};
ghost use Rattle.records.specs.Timers.{tick_replies};
ghost use Rattle.records.specs.Validation.{result_by, confirmation_of};

use rules::{
    FAILURE_RESULT, MOST_TOGGLES, NOT_REQUIRED_RESULT, Phase, Pilot, READY_RESULT, Record,
    SUCCESS_RESULT, Turn,
};

// What a tick confirms to a record's car: the toggles and the result.
#[derive(Clone, Copy)]
pub struct Confirmation {
    pub toggles: u8,
    pub result: u8,
}

// Whether a phase is ready or counting.
pub fn validates(phase: Phase) -> bool
    ensures { result ≡ rule.validates phase }
{
    matches!(phase, Phase::Ready(_) | Phase::Counting { .. })
}

// Whether a record is held, and ready or counting.
pub fn is_validating(r: Record) -> bool
    ensures { result ≡ is_validating r }
{
    r.held && validates(r.phase)
}

// What a first VALIDATE.REQ is answered, by whether validation is not required, and whether any record is ready or counting.
pub fn first_result(exempt: bool, any: bool) -> u8
    ensures { result ≡ result_by exempt any }
{
    if exempt {
        NOT_REQUIRED_RESULT
    } else if any {
        FAILURE_RESULT
    } else {
        READY_RESULT
    }
}

// What a pilot change means for a toggle.
pub fn turn_of(from: Pilot, to: Pilot) -> Turn
    ensures { result ≡ rule.turn from to }
{
    match (from, to) {
        (Pilot::B, Pilot::B) | (Pilot::C, Pilot::C) | (Pilot::D, Pilot::D) => Turn::Stays,
        (Pilot::B, Pilot::C) => Turn::Begins,
        (Pilot::C, Pilot::B) => Turn::Ends,
        _ => Turn::Breaks,
    }
}

// The toggles after one has ended, if one was begun: one more, up to the most.
fn one_more(begun: bool, toggles: u8) -> u8
    ensures { result ≡ one_more begun toggles }
{
    if begun && toggles < MOST_TOGGLES {
        toggles + 1
    } else {
        toggles
    }
}

// A counting phase after a pilot change.
fn counting(turn: Turn, left: u32, toggles: u8, begun: bool) -> Phase
    ensures { result ≡ counts turn left toggles begun }
{
    let (toggles, begun) = match turn {
        Turn::Begins => (toggles, true),
        Turn::Ends => (one_more(begun, toggles), false),
        Turn::Stays => (toggles, begun),
        Turn::Breaks => (toggles, false),
    };
    Phase::Counting {
        left,
        toggles,
        begun,
    }
}

// A phase after a pilot change: only a counting one changes.
fn toggled_phase(phase: Phase, turn: Turn) -> Phase
    ensures { result ≡ toggled_phase turn phase }
{
    match phase {
        Phase::Counting {
            left,
            toggles,
            begun,
        } => counting(turn, left, toggles, begun),
        _ => phase,
    }
}

// A record after a pilot change among B, C and D.
pub fn toggled(r: Record, turn: Turn) -> Record
    ensures { result ≡ toggled_record turn r }
{
    if !r.held {
        return r;
    }
    Record {
        phase: toggled_phase(r.phase, turn),
        ..r
    }
}

// What the end of a window confirms, by whether the pilot is back at B.
fn window_end(toggles: u8, back: bool) -> Confirmation
    ensures { (r : Record) → confirmation_of (Some result) ≡ only is_confirmation (replies_of (window_ends back toggles r)) }
{
    if back {
        Confirmation {
            toggles,
            result: SUCCESS_RESULT,
        }
    } else {
        Confirmation {
            toggles: 0,
            result: FAILURE_RESULT,
        }
    }
}

// What so many milliseconds confirm to a record's car.
pub fn confirmation_of(r: Record, elapsed: u32, back: bool) -> Option<Confirmation>
    ensures { confirmation_of result ≡ only is_confirmation (tick_replies back elapsed r) }
{
    match r.phase {
        Phase::Counting { left, toggles, .. } if r.held && left <= elapsed => {
            Some(window_end(toggles, back))
        }
        _ => None,
    }
}
