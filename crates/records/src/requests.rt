// What each message does at its car's record.
#![tactic(auto, using(crate::proofs::ProfileLaws::good_summed, crate::proofs::HeardLaws::new_marking), unfolding(rules::specs::Frames::start_rule, rules::specs::Frames::sound_rule, rules::specs::Frames::profile_rule, rules::specs::Frames::rsp_rule, rules::specs::Frames::first_rule, rules::specs::Frames::answered, rules::specs::Frames::second_rule, rules::specs::Frames::may_match, rules::specs::Frames::match_rule, rules::specs::Records::in_phase, rules::specs::Records::with_heard, rules::specs::Records::fits_groups, rules::specs::Records::reported, rules::specs::Records::counted, rules::specs::Records::same_run, rules::specs::Replies::report_of))]

ghost use Rattle.std.specs.Prelude.{◌≡◌, [], ◌∷◌};
ghost use Rattle.rules.specs.Records.{fits_groups};
ghost use Rattle.rules.specs.Frames.{start_rule, sound_rule, profile_rule, rsp_rule, first_rule, second_rule, may_match, match_rule, at_run};
ghost use Rattle.rules.specs.Invariant.{GoodRecord};
ghost use Rattle.records.specs.Requests.{kept_of, validated_of, verdict_of, run_rule};

use crate::changes::Kept;
use crate::{heard, profiles};
use ends::RETRIES;
use messages::{Attempt, Edition, GroupValues, Refusal, RunId};
use rules::{
    AWAITING_TIME, Phase, READY_RESULT, READY_TIME, REPORTED_TIME, Record, WINDOW_STEP, tries,
};

// The messages that name the run of a record: START with its try's pair, SOUND with its count, RSP.
#[derive(Clone, Copy)]
pub enum RunMessage {
    Start(Attempt),
    Sound(u8),
    Rsp,
}

// START: Asked becomes Sounding; in Sounding nothing changes.
pub fn start(edition: Edition, r: Record, attempt: Attempt) -> Result<Kept, Refusal>
    ensures { kept_of result ≡ start_rule edition attempt.0 r r.phase }
{
    let phase = match r.phase {
        Phase::Asked(_) => Phase::Sounding(tries::sounding_time(edition, r.later)),
        Phase::Sounding(_) => r.phase,
        _ => return Err(Refusal::WrongPhase),
    };
    if attempt.0 != tries::pair(edition, r.later) {
        return Err(Refusal::OtherTry);
    }
    Ok(Kept {
        kept: Record { phase, ..r },
        reports: false,
    })
}

// SOUND in Sounding: its count is marked heard.
pub fn sound(edition: Edition, r: Record, count: u8) -> Result<Kept, Refusal>
    ensures { kept_of result ≡ sound_rule edition count r r.phase }
{
    let Phase::Sounding(_) = r.phase else {
        return Err(Refusal::WrongPhase);
    };
    if count >= tries::sounds(edition, r.later) || heard::is_heard(r.heard, count) {
        return Err(Refusal::BadSoundCount);
    }
    let heard = heard::mark(r.heard, count);
    Ok(Kept {
        kept: Record { heard, ..r },
        reports: false,
    })
}

// Whether a profile has the group count of the record, or is its first.
fn fits_groups(count: usize, groups: usize) -> bool
    ensures { result ≡ fits_groups count groups }
{
    groups == 0 || count == groups
}

// PROFILE in Sounding: its values are added; the last one closes Sounding with a report.
pub fn profile(
    edition: Edition,
    r: Record,
    count: usize,
    values: GroupValues,
) -> Result<Kept, Refusal>
    requires { GoodRecord edition r }
    ensures { kept_of result ≡ profile_rule edition count values r r.phase }
{
    let Phase::Sounding(_) = r.phase else {
        return Err(Refusal::WrongPhase);
    };
    if !fits_groups(count, r.groups) {
        return Err(Refusal::OtherGroupCount);
    }
    let more = profiles::counted(edition, r, count, values);
    if more.profiles != tries::sounds(edition, r.later) {
        return Ok(Kept {
            kept: more,
            reports: false,
        });
    }
    let phase = Phase::Reported {
        left: REPORTED_TIME,
        retries: RETRIES,
    };
    Ok(Kept {
        kept: Record { phase, ..more },
        reports: true,
    })
}

// RSP: Reported becomes Awaiting.
pub fn rsp(r: Record) -> Result<Kept, Refusal>
    ensures { kept_of result ≡ rsp_rule r r.phase }
{
    let Phase::Reported { .. } = r.phase else {
        return Err(Refusal::WrongPhase);
    };
    let phase = Phase::Awaiting(AWAITING_TIME);
    Ok(Kept {
        kept: Record { phase, ..r },
        reports: false,
    })
}

// START, SOUND or RSP of a run at the car's record, which may be of another run.
pub fn at_run(edition: Edition, r: Record, run: RunId, message: RunMessage) -> Result<Kept, Refusal>
    ensures { kept_of result ≡ at_run run (r ∷ []) (run_rule edition message) }
{
    if run != r.run {
        return Err(Refusal::NoRecord);
    }
    match message {
        RunMessage::Start(attempt) => start(edition, r, attempt),
        RunMessage::Sound(count) => sound(edition, r, count),
        RunMessage::Rsp => rsp(r),
    }
}

// The first VALIDATE.REQ in Awaiting, with the result that it is answered: ready where that is 01, else the record as it is.
pub fn validate_first(r: Record, res: u8) -> Result<Record, Refusal>
    ensures { validated_of res result ≡ first_rule res r r.phase }
{
    let Phase::Awaiting(_) = r.phase else {
        return Err(Refusal::WrongPhase);
    };
    if res != READY_RESULT {
        return Ok(r);
    }
    let phase = Phase::Ready(READY_TIME);
    Ok(Record { phase, ..r })
}

// The second VALIDATE.REQ in ready: toggles count, in a window that the timer sets.
pub fn validate_second(r: Record, timer: u8) -> Result<Kept, Refusal>
    ensures { kept_of result ≡ second_rule timer r r.phase }
{
    let Phase::Ready(_) = r.phase else {
        return Err(Refusal::WrongPhase);
    };
    let phase = Phase::Counting {
        left: WINDOW_STEP * (u32::from(timer) + 1),
        toggles: 0,
        begun: false,
    };
    Ok(Kept {
        kept: Record { phase, ..r },
        reports: false,
    })
}

// Whether MATCH.REQ is accepted in a phase: in Awaiting and in success.
fn may_match(phase: Phase) -> bool
    ensures { result ≡ may_match phase }
{
    matches!(phase, Phase::Awaiting(_) | Phase::Success(_))
}

// MATCH.REQ of a run at the car's record: accepted in Awaiting and in success.
pub fn match_req(r: Record, run: RunId) -> Result<(), Refusal>
    ensures { verdict_of result ≡ match_rule run (r ∷ []) }
{
    if run != r.run {
        return Err(Refusal::NoRecord);
    }
    if !may_match(r.phase) {
        return Err(Refusal::WrongPhase);
    }
    Ok(())
}
