// Values in half-octets: "two carriers an octet, the earlier one in the low half".
ghost use Rattle.std.specs.Prelude.{◌≡◌, true, ◌+◌, ◌*◌, ◌<◌, ◌≤◌, length, get_or, take};
ghost use Rattle.std.proofs.lemmas.List.Edits.{sets};
ghost use Rattle.amplitude.specs.Halves.{halves, packed, octets_for, are_halves};
ghost use Rattle.amplitude.specs.Maps.{is_map};

use crate::is_carriers;
use octets::octet_at;

// The first number that is no value.
const VALUE_LIMIT: u8 = 16;

// How many octets n values take.
pub(crate) fn octets_for(n: usize) -> usize
    ensures { result ≡ octets_for n }
{
    n.div_ceil(2)
}

// Whether each value fits a half-octet.
fn are_halves(values: &[u8]) -> bool
    ensures { result ≡ are_halves values.now }
{
    let mut right = true;
    for &value in values {
        right &= value < VALUE_LIMIT;
    }
    right
}

// Whether these are the values of a map.
pub(crate) fn is_map(values: &[u8]) -> bool
    ensures { result ≡ is_map values.now }
{
    is_carriers(values.len()) & are_halves(values)
}

// The half-octet k of some octets; 0 past their end.
pub(crate) fn half_at(s: &[u8], k: usize) -> u8
    ensures { result ≡ get_or (halves s.now) k 0 }
{
    let octet = octet_at(s, k / 2);
    if k % 2 == 0 { octet % 16 } else { octet / 16 }
}

// Puts the first n half-octets of s into out from its first place.
pub(crate) fn unpack(s: &[u8], n: usize, out: &mut [u8])
    requires { (n ≤ 2 * length s.now) × (n ≤ length out.old) }
    ensures { out.new ≡ sets out.old 0 (take n (halves s.now)) }
{
    for i in 0..n {
        out[i] = half_at(s, i);
    }
}

// The octet k of the values of a map. `are_halves` is asked for here and where maps are written: a slice is lent, and a type would be made of it in each call.
fn pair_at(values: &[u8], k: usize) -> u8
    requires { (are_halves values.now ≡ true) × (k < octets_for (length values.now)) }
    ensures { result ≡ get_or (packed values.now) k 0 }
{
    octet_at(values, 2 * k) + 16 * octet_at(values, 2 * k + 1)
}

// Puts the octets of the values of a map into out from `at`.
pub(crate) fn pack(values: &[u8], out: &mut [u8], at: usize)
    requires { (are_halves values.now ≡ true) × (at + octets_for (length values.now) ≤ length out.old) }
    ensures { out.new ≡ sets out.old at (packed values.now) }
{
    for i in 0..octets_for(values.len()) {
        out[at + i] = pair_at(values, i);
    }
}
