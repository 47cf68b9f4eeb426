// Writing a log: first what is given is judged, and then the parts are written back to back.
ghost use Rattle.std.specs.Prelude.{◌≡◌, cond, [], ◌∷◌, ◌<◌, ◌≤◌, ◌+◌, ◌^◌, min, eqb, leb, length};
ghost use Rattle.std.proofs.lemmas.List.Edits.{sets};
ghost use Rattle.octets.specs.Octets.{low_bytes, part};
ghost use Rattle.messages.specs.Layout.{encode};
ghost use Rattle.messages.specs.Reading.{yes};
ghost use Rattle.session_log.specs.Meaning.{length_in, item_of};
ghost use Rattle.session_log.specs.Layout.{most_octets, head_octets, events_start, fields, values_of, numbers, octets_of, list_octets, log_octets};
ghost use Rattle.session_log.specs.Writing.{given_in, items_of, log_of, size_of, is_narrow, given_rules, meaning_rules};
ghost use Rattle.session_log.specs.Answers.{number_of, answer_of};
ghost use Rattle.session_log.specs.Private.{told, rules_of, head_in, item_in, given_item, cause_of, too_long, Fitting, settings_start, settings_of};

use crate::judging::Which;
use crate::{
    Cause, Configuration, EVENTS_START, HEAD_OCTETS, Head, ITEM_OCTETS, MOST_OCTETS, Session,
    judging,
};

// Where the settings start: behind the NMK.
const SETTINGS: usize = HEAD_OCTETS + 35;

// The first length that no log has.
const TOO_LONG: usize = MOST_OCTETS + 1;

// The first number that is no address: 2^48.
const ADDRESS_LIMIT: u64 = 1 << 48;

// The first number that is wider than a NID: 2^56.
const NID_LIMIT: u64 = 1 << 56;

// Where items end that start at a place, or the first length that no log has.
fn end_of(heads: &[Head], from: usize) -> usize
    requires { from ≤ too_long }
    ensures { result ≡ min (from + size_of heads.now) too_long }
{
    let mut end = from;
    for head in heads {
        end = (end + ITEM_OCTETS + head[2] as usize).min(TOO_LONG);
    }
    end
}

// Whether an item's octets are all there, with so many items behind it and so many octets left: at the last item no more are left.
fn is_whole(more: usize, length: usize, left: usize) -> bool
    ensures { result ≡ cond (eqb more 0) (eqb left length) (leb length left) }
{
    if more == 0 {
        left == length
    } else {
        length <= left
    }
}

// The first cause that applies to the item i, whose octets start at a place.
fn item(which: Which, heads: &[Head], i: usize, octets: &[u8], at: usize) -> Result<(), Cause>
    requires { (i < length heads.now) × (at ≤ length octets.now) }
    ensures { answer_of result ≡ given_item which heads.now i octets.now at }
{
    let length = heads[i][2] as usize;
    let whole = is_whole(heads.len() - (i + 1), length, octets.len() - at);
    let octet = judging::first_octet(octets, at, length);
    judging::item(which, heads[i], whole, octet)
}

// The cause by which octets are refused that no item has.
fn left_over(which: Which) -> Cause
    ensures { number_of result ≡ cause_of which }
{
    match which {
        Which::Events => Cause::BadEventLength,
        Which::Replies => Cause::BadReplyLength,
    }
}

// The first cause that applies to items.
// Not the reader's `items`: heads and octets stand apart here, and octets may be left over.
fn items(which: Which, heads: &[Head], octets: &[u8]) -> Result<(), Cause>
    ensures { answer_of result ≡ given_rules (rules_of which) (cause_of which) heads.now octets.now }
{
    let mut at = 0;
    for (i, head) in heads.iter().enumerate() {
        item(which, heads, i, octets, at)?;
        at += head[2] as usize;
    }
    if at == octets.len() {
        Ok(())
    } else {
        Err(left_over(which))
    }
}

// How many octets a log takes, or the first length that no log has.
pub(crate) fn total_of(events: &[Head], replies: &[Head]) -> usize
    ensures { result ≡ min (events_start + size_of events.now + size_of replies.now) too_long }
{
    let start = end_of(events, EVENTS_START);
    end_of(replies, start)
}

// Whether no value of a configuration is wider than its field.
fn is_narrow(configuration: Configuration) -> bool
    ensures { result ≡ is_narrow configuration }
{
    configuration.address.0 < ADDRESS_LIMIT
        && configuration.modem.0 < ADDRESS_LIMIT
        && configuration.nid.0 < NID_LIMIT
}

// The first of causes 1 to 14 that applies.
#[tactic(auto, unfolding(crate::specs::Writing::meaning_rules))]
pub(crate) fn judge(session: Session) -> Result<(), Cause>
    ensures { answer_of result ≡ told (meaning_rules (given_in session.entry)) }
{
    if total_of(session.events, session.replies) > MOST_OCTETS {
        return Err(Cause::TooLong);
    }
    if session.replies.len() != session.events.len() {
        return Err(Cause::CountsDiffer);
    }
    if !is_narrow(session.configuration) {
        return Err(Cause::TooWide);
    }
    if !judging::is_set(session.configuration) {
        return Err(Cause::BadSetting);
    }
    items(Which::Events, session.events, session.octets)?;
    items(Which::Replies, session.replies, session.frames)
}

// Writes a number at a place.
fn put_number(out: &mut [u8], at: usize, x: usize)
    ensures { out.new ≡ sets out.old at (low_bytes 4 x) }
{
    octets::put_low_number(out, at, 4, x as u64);
}

// Writes the item with a head, whose octets start at a place, to another.
fn put_item(head: Head, octets: &[u8], at: usize, out: &mut [u8], to: usize)
    requires { (at + length_in head ≤ length octets.now) × (to ≤ most_octets) }
    ensures { out.new ≡ sets out.old to (octets_of (item_of head (part octets.now at (length_in head)))) }
{
    let [first, second, length] = head;
    put_number(out, to, first as usize);
    put_number(out, to + 4, second as usize);
    put_number(out, to + 4 + 4, length as usize);
    octets::copy(octets, at, length as usize, out, to + ITEM_OCTETS);
}

// Writes items from a place on.
fn put_items(heads: &[Head], octets: &[u8], out: &mut [u8], from: usize)
    requires { Fitting heads.now octets.now from }
    ensures { out.new ≡ sets out.old from (list_octets (items_of heads.now octets.now)) }
{
    let mut to = from;
    let mut at = 0;
    for head in heads {
        put_item(*head, octets, at, out, to);
        let length = head[2] as usize;
        to += ITEM_OCTETS + length;
        at += length;
    }
}

// Writes the head: how many events and replies, where the replies start, and the total length.
fn put_head(out: &mut [u8], events: usize, replies: usize, start: usize, total: usize)
    ensures { out.new ≡ sets out.old 0 (numbers (events ∷ replies ∷ events_start ∷ start ∷ total ∷ [])) }
{
    put_number(out, 0, events);
    put_number(out, 4, replies);
    put_number(out, 8, EVENTS_START);
    put_number(out, 12, start);
    put_number(out, 16, total);
}

// Writes the settings behind the NMK: the exemption, the edition and our carriers.
fn put_settings(out: &mut [u8], configuration: Configuration)
    ensures { out.new ≡ sets out.old settings_start (numbers (settings_of configuration)) }
{
    put_number(out, SETTINGS, configuration.exemption as usize);
    put_number(out, SETTINGS + 4, configuration.edition as usize);
    put_number(out, SETTINGS + 4 + 4, configuration.carriers as usize);
}

// Writes the configuration behind the head.
fn put_configuration(out: &mut [u8], configuration: Configuration)
    ensures { out.new ≡ sets out.old head_octets (encode fields (values_of configuration)) }
{
    octets::put_number(out, HEAD_OCTETS, 6, configuration.address.0);
    octets::put_number(out, HEAD_OCTETS + 6, 6, configuration.modem.0);
    octets::put_low_number(out, HEAD_OCTETS + 12, 7, configuration.nid.0);
    octets::put_number(out, HEAD_OCTETS + 19, 8, configuration.nmk.0);
    octets::put_number(out, HEAD_OCTETS + 27, 8, configuration.nmk.1);
    put_settings(out, configuration);
}

// Writes the log.
pub(crate) fn put_log(session: Session, out: &mut [u8])
    requires { told (meaning_rules (given_in session)) ≡ yes tt }
    ensures { out.new ≡ sets out.old 0 (log_octets (log_of (given_in session.entry))) }
{
    let start = end_of(session.events, EVENTS_START);
    let total = end_of(session.replies, start);
    put_head(
        out,
        session.events.len(),
        session.replies.len(),
        start,
        total,
    );
    put_configuration(out, session.configuration);
    put_items(session.events, session.octets, out, EVENTS_START);
    put_items(session.replies, session.frames, out, start);
}
