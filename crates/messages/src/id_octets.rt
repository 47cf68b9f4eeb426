// The identifiers of messages, out of a run of octets and into one.
ghost use Rattle.std.specs.Prelude.{◌≡◌, ◌+◌, ◌≤◌, length};
ghost use Rattle.std.proofs.lemmas.List.Edits.{sets};
ghost use Rattle.octets.specs.Octets.{part};
ghost use Rattle.messages.specs.Layout.{zeros};
ghost use Rattle.messages.specs.Table.{id_octets};
ghost use Rattle.messages.specs.Reading.{no_id};

use crate::{ID_OCTETS, IdOctets, Ids, no_id};
use octets::is_zero;

// Whether the identifier from `at` is right: any is where `any` is set, else zeros.
pub(crate) fn is_free(s: &[u8], at: usize, any: bool) -> bool
    ensures { result ≡ zeros any s.now at id_octets }
{
    any || is_zero(s, at, ID_OCTETS)
}

// The identifier from `at`.
#[tactic(auto, using(crate::proofs::FrameLaws::id_copied))]
pub(crate) fn id_at(s: &[u8], at: usize) -> IdOctets
    requires { at + id_octets ≤ length s.now }
    ensures { result ≡ part s.now at id_octets }
{
    let mut id = no_id();
    octets::copy(s, at, ID_OCTETS, &mut id, 0);
    id
}

// The identifiers from two places.
pub(crate) fn ids_at(s: &[u8], a: usize, b: usize) -> Ids
    requires { (a + id_octets ≤ length s.now) × (b + id_octets ≤ length s.now) }
    ensures { (result.first ≡ part s.now a id_octets) × (result.second ≡ part s.now b id_octets) }
{
    Ids {
        first: id_at(s, a),
        second: id_at(s, b),
    }
}

// One identifier, and zeros in the place of the second.
pub(crate) fn one_id_at(s: &[u8], a: usize) -> Ids
    requires { a + id_octets ≤ length s.now }
    ensures { (result.first ≡ part s.now a id_octets) × (result.second ≡ no_id) }
{
    Ids {
        first: id_at(s, a),
        second: no_id(),
    }
}

// Writes an identifier from `at`.
pub(crate) fn put_id(out: &mut [u8], at: usize, id: IdOctets)
    ensures { out.new ≡ sets out.old at id }
{
    octets::copy(&id, 0, ID_OCTETS, out, at);
}
