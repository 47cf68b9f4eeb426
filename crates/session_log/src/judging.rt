// Judging a configuration by its settings, and an event or a reply by its head, by whether its octets are all there, and by the
// first of them.
ghost use Rattle.std.specs.Prelude.{◌≡◌, get_or};
ghost use Rattle.octets.specs.Octets.{part};
ghost use Rattle.session_log.specs.Reading.{is_set, own_length, event_rules, reply_rules};
ghost use Rattle.session_log.specs.Answers.{answer_of};
ghost use Rattle.session_log.specs.Private.{rules_of};

use crate::{Cause, Configuration, Head};

// Whether each setting of a configuration is 1 or 0.
pub(crate) fn is_set(configuration: Configuration) -> bool
    ensures { result ≡ is_set configuration }
{
    configuration.exemption <= 1 && configuration.edition <= 1
}

// The kinds of events that have any octets, a reading, or both a reading and an octet.
// Numbers and no enum: `event_rules` names numbers and asks `<= 4` once; a `TryFrom` would list five kinds to tell three apart.
const FRAME: u32 = 0;

const TICK: u32 = 1;

const PILOT: u32 = 2;

// How many octets an event has that is no frame: a pilot change 1, and every other none.
fn own_length(kind: u32) -> u32
    ensures { result ≡ own_length kind }
{
    u32::from(kind == PILOT)
}

// The first of causes 9 to 12 that applies to an event.
#[tactic(auto, unfolding(crate::specs::Reading::event_rules))]
fn event(head: Head, whole: bool, octet: u8) -> Result<(), Cause>
    ensures { answer_of result ≡ event_rules head whole octet }
{
    let [kind, reading, length] = head;
    if kind > 4 {
        return Err(Cause::BadKind);
    }
    if !(kind == TICK || kind == PILOT || reading == 0) {
        return Err(Cause::BadReading);
    }
    if !((kind == FRAME || length == own_length(kind)) && whole) {
        return Err(Cause::BadEventLength);
    }
    if kind == PILOT && octet > 5 {
        return Err(Cause::BadPilot);
    }
    Ok(())
}

// The lower of causes 13 and 14 that applies to a reply.
#[tactic(auto, unfolding(crate::specs::Reading::reply_rules))]
fn reply(head: Head, whole: bool) -> Result<(), Cause>
    ensures { answer_of result ≡ reply_rules head whole 0 }
{
    let [refusal, indication, length] = head;
    if !(indication <= 2 && (refusal == 0 || indication == 0)) {
        return Err(Cause::BadIndication);
    }
    if !((refusal == 0 || length == 0) && whole) {
        return Err(Cause::BadReplyLength);
    }
    Ok(())
}

// The list that an item stands in.
// An enum and no closure: the lists differ in their rules and in the cause of octets left over, and a call names its list.
#[derive(Clone, Copy)]
pub(crate) enum Which {
    Events,
    Replies,
}

// The first cause that applies to an event or to a reply.
#[tactic(auto, unfolding(crate::specs::Reading::reply_rules))]
pub(crate) fn item(which: Which, head: Head, whole: bool, octet: u8) -> Result<(), Cause>
    ensures { answer_of result ≡ rules_of which head whole octet }
{
    match which {
        Which::Events => event(head, whole, octet),
        Which::Replies => reply(head, whole),
    }
}

// The first of n octets of s from `at`, or 0 where there is none.
pub(crate) fn first_octet(s: &[u8], at: usize, n: usize) -> u8
    ensures { result ≡ get_or (part s.now at n) 0 0 }
{
    if n == 0 { 0 } else { octets::octet_at(s, at) }
}
