// Reading a log: first the walk over the lengths, after which every item stands within the log, and then the fields in order.
ghost use Rattle.std.specs.Prelude.{◌≡◌, true, ◌<◌, ◌≤◌, ◌+◌, ◌^◌, length};
ghost use Rattle.octets.specs.Octets.{low_value};
ghost use Rattle.messages.specs.Reading.{yes};
ghost use Rattle.session_log.specs.Layout;
ghost use Rattle.session_log.specs.Layout.{items_at};
ghost use Rattle.session_log.specs.Reading.{ends_at, part_rules, item_rules, field_rules, log_in};
ghost use Rattle.session_log.specs.Answers.{answer_of};
ghost use Rattle.session_log.specs.Private.{told, rules_of, read_item, Listed};

use crate::judging::Which;
use crate::{
    Cause, EVENTS_START, HEAD_OCTETS, ITEM_OCTETS, MOST_OCTETS, configuration_in, head_at, judging,
};

// The number at a place. `script` has the like of its octets: a log and a script are two layouts, and neither crate uses the other.
pub(crate) fn number_in(log: &[u8], at: usize) -> u32
    ensures { result ≡ low_value log.now at 4 }
{
    octets::low_number_at(log, at, 4) as u32
}

// The number at a place, as a length.
pub(crate) fn size_in(log: &[u8], at: usize) -> usize
    ensures { (result ≡ low_value log.now at 4) × (result < 2 ^ 32) }
{
    number_in(log, at) as usize
}

// Where the item at a place ends.
#[tactic(auto, unfolding(crate::specs::Layout::numbers_at))]
fn behind(log: &[u8], at: usize) -> usize
    requires { at < 2 ^ 32 }
    ensures { result ≡ Layout.behind log.now at }
{
    at + ITEM_OCTETS + size_in(log, at + 4 + 4)
}

// Whether the items from a place end at another.
fn ends_at(log: &[u8], count: usize, from: usize, end: usize) -> bool
    requires { (length log.now < 2 ^ 32) × (from < 2 ^ 32) }
    ensures { result ≡ ends_at log.now count from end }
{
    let mut at = from;
    for _i in 0..count {
        at = behind(log, at);
        if at > log.len() {
            return false;
        }
    }
    at == end
}

// The first of causes 1 to 6 that applies.
#[tactic(auto, unfolding(crate::specs::Reading::part_rules))]
pub(crate) fn parts(log: &[u8]) -> Result<(), Cause>
    ensures { answer_of result ≡ part_rules log.now }
{
    if log.len() > MOST_OCTETS {
        return Err(Cause::TooLong);
    }
    if log.len() < HEAD_OCTETS {
        return Err(Cause::TooShort);
    }
    let count = size_in(log, 0);
    if size_in(log, 4) != count {
        return Err(Cause::CountsDiffer);
    }
    if size_in(log, 8) != EVENTS_START {
        return Err(Cause::EventsElsewhere);
    }
    let replies = size_in(log, 12);
    if !ends_at(log, count, EVENTS_START, replies) {
        return Err(Cause::RepliesElsewhere);
    }
    if size_in(log, 16) != log.len() || !ends_at(log, count, replies, log.len()) {
        return Err(Cause::EndElsewhere);
    }
    Ok(())
}

// The first cause that applies to the item at a place.
fn item_at(which: Which, log: &[u8], at: usize) -> Result<(), Cause>
    requires { (length log.now < 2 ^ 32) × (Layout.behind log.now at ≤ length log.now) }
    ensures { answer_of result ≡ read_item which log.now at }
{
    let head = head_at(log, at);
    let octet = judging::first_octet(log, at + ITEM_OCTETS, head[2] as usize);
    judging::item(which, head, true, octet)
}

// The first cause that applies to the items from a place.
fn items(which: Which, log: &[u8], count: usize, from: usize) -> Result<(), Cause>
    requires { Listed log.now count from }
    ensures { answer_of result ≡ item_rules (rules_of which) (items_at log.now count from) }
{
    let mut at = from;
    for _i in 0..count {
        item_at(which, log, at)?;
        at = behind(log, at);
    }
    Ok(())
}

// The first of causes 8 to 14 that applies.
#[tactic(auto, unfolding(crate::specs::Reading::field_rules))]
pub(crate) fn fields(log: &[u8]) -> Result<(), Cause>
    requires { part_rules log.now ≡ yes tt }
    ensures { answer_of result ≡ told (field_rules (log_in log.now)) }
{
    if !judging::is_set(configuration_in(log)) {
        return Err(Cause::BadSetting);
    }
    let count = size_in(log, 0);
    items(Which::Events, log, count, EVENTS_START)?;
    items(Which::Replies, log, count, size_in(log, 12))
}
