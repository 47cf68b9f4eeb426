// What a tick does to one record.
// Record, time and pilot go one by one: `Ticks.tick_record` names each, and a struct would be made for each record of a tick.
#![tactic(auto, unfolding(crate::specs::Timers::after_tick, crate::specs::Timers::after_held, crate::specs::Timers::tick_replies, rules::specs::Ticks::tick_record, rules::specs::Ticks::tick_phase, rules::specs::Ticks::record_of, rules::specs::Ticks::replies_of, rules::specs::Ticks::window_ends, rules::specs::Records::is_held, rules::specs::Records::owned, rules::specs::Records::in_phase, rules::specs::Records::freed, rules::specs::Replies::report_of, rules::specs::Replies::is_report, ends::specs::Lists::only))]

ghost use Rattle.std.specs.Prelude.{◌≡◌, cond, ◌-◌, eqb};
ghost use Rattle.ends.specs.Constants.{retry_count};
ghost use Rattle.rules.specs.Records as records;
ghost use Rattle.rules.specs.Records.{in_phase, owned};
ghost use Rattle.rules.specs.Ticks as ticks;
ghost use Rattle.rules.specs.Ticks.{runs_out, window_ends, tick_phase};
ghost use Rattle.records.specs.Timers.{after_tick, after_held, time_of, with_left, fired_of};

use crate::changes::Kept;
use ends::RETRIES;
use rules::{Phase, REPORTED_TIME, Record, SUCCESS_TIME};

// A record after so many milliseconds, by whether the pilot is back at B: a free one stays as it is.
pub fn tick_record(r: Record, elapsed: u32, back: bool) -> Kept
    ensures { result ≡ after_tick back elapsed r }
{
    if r.held {
        tick_held(r, elapsed, back)
    } else {
        Kept {
            kept: r,
            reports: false,
        }
    }
}

// A held record: its phase's time fires where nothing of it is left, and runs down else.
fn tick_held(r: Record, elapsed: u32, back: bool) -> Kept
    ensures { result ≡ after_held r (tick_phase back elapsed r r.phase) }
{
    let left = ends::left_after(time_of(r.phase), elapsed);
    if left == 0 {
        fired(r, back)
    } else {
        wait(r, with_left(r.phase, left))
    }
}

// The time left in a phase.
pub fn time_of(phase: Phase) -> u32
    ensures { result ≡ time_of phase }
{
    match phase {
        Phase::Asked(left)
        | Phase::Sounding(left)
        | Phase::Reported { left, .. }
        | Phase::Awaiting(left)
        | Phase::Ready(left)
        | Phase::Counting { left, .. }
        | Phase::Success(left) => left,
    }
}

// The phase with so much left.
fn with_left(phase: Phase, left: u32) -> Phase
    ensures { result ≡ with_left left phase }
{
    match phase {
        Phase::Asked(_) => Phase::Asked(left),
        Phase::Sounding(_) => Phase::Sounding(left),
        Phase::Reported { retries, .. } => Phase::Reported { left, retries },
        Phase::Awaiting(_) => Phase::Awaiting(left),
        Phase::Ready(_) => Phase::Ready(left),
        Phase::Counting { toggles, begun, .. } => Phase::Counting {
            left,
            toggles,
            begun,
        },
        Phase::Success(_) => Phase::Success(left),
    }
}

// A held record whose phase's time has fired.
fn fired(r: Record, back: bool) -> Kept
    ensures { result ≡ after_held r (fired_of back r r.phase) }
{
    match r.phase {
        Phase::Sounding(_) => first_report(r),
        Phase::Reported { retries, .. } => next_report(r, retries),
        Phase::Counting { toggles, .. } => window_over(r, toggles, back),
        Phase::Asked(_) | Phase::Awaiting(_) | Phase::Ready(_) | Phase::Success(_) => free(r),
    }
}

// Sounding's time has fired: freed if no profile is counted, else the report.
fn first_report(r: Record) -> Kept
    ensures { result ≡ after_held r (cond (eqb r.profiles 0) runs_out (ticks.reports retry_count r)) }
{
    if r.profiles == 0 {
        free(r)
    } else {
        report(r, RETRIES)
    }
}

// Reported's time has fired: freed if no retry is left, else the report again.
fn next_report(r: Record, retries: u8) -> Kept
    ensures { result ≡ after_held r (cond (eqb retries 0) runs_out (ticks.reports (retries - 1) r)) }
{
    if retries == 0 {
        free(r)
    } else {
        report(r, retries - 1)
    }
}

// The window has ended: success where the pilot is back at B, else freed.
fn window_over(r: Record, toggles: u8, back: bool) -> Kept
    ensures { result ≡ after_held r (window_ends back toggles r) }
{
    if back {
        wait(r, Phase::Success(SUCCESS_TIME))
    } else {
        free(r)
    }
}

// The record freed, with no report.
fn free(r: Record) -> Kept
    ensures { result ≡ after_held r runs_out }
{
    Kept {
        kept: freed(r),
        reports: false,
    }
}

// The record in a phase, with no report.
fn wait(r: Record, phase: Phase) -> Kept
    ensures { result ≡ after_held r (ticks.waits phase r) }
{
    Kept {
        kept: held_in(r, phase),
        reports: false,
    }
}

// The record reported, with so many retries left.
fn report(r: Record, retries: u8) -> Kept
    ensures { result ≡ after_held r (ticks.reports retries r) }
{
    let phase = Phase::Reported {
        left: REPORTED_TIME,
        retries,
    };
    Kept {
        kept: held_in(r, phase),
        reports: true,
    }
}

// The record with no holder.
pub fn freed(r: Record) -> Record
    ensures { result ≡ records.freed r }
{
    Record { held: false, ..r }
}

// The record held by its car, in a phase.
fn held_in(r: Record, phase: Phase) -> Record
    ensures { result ≡ owned r.car (in_phase phase r) }
{
    Record {
        held: true,
        phase,
        ..r
    }
}
