// Runs of octets, each function once over place and length. An octet past the end reads as 0, and a store past the end changes
// nothing, so that no caller has to check first.
// Place and length stand apart: every rule of a layout names both, and they may point past the end, where a slice may not.
#![tactic(auto)]

ghost use Rattle.std.specs.List.{fold};
ghost use Rattle.std.specs.Prelude.{◌≡◌, ◌==◌, ◌&&◌, true, ℕ, ◌+◌, ◌-◌, ◌<◌, ◌≤◌, min, eqb, length, get_or, set};
ghost use Rattle.std.proofs.lemmas.List.Edits.{sets};
ghost use Rattle.octets.specs.Octets.{value, bytes, low_value, low_bytes, part};

// How many octets a number has at most.
const MOST: usize = 8;

// The octet at a place.
pub fn octet_at(s: &[u8], at: usize) -> u8
    ensures { result ≡ get_or s.now at 0 }
{
    s.get(at).copied().unwrap_or(0)
}

// The octet i behind `at`: no place past the greatest number has one.
fn octet_behind(s: &[u8], at: usize, i: usize) -> u8
    ensures { result ≡ get_or s.now (at + i) 0 }
{
    octet_at(s, at.saturating_add(i))
}

// How many of the n octets from `at` a run of so many has.
fn run_length(size: usize, at: usize, n: usize) -> usize
    ensures { result ≡ min n (size - at) }
{
    n.min(size.saturating_sub(at))
}

// The octets of s from `at` on, n at most.
fn part_of(s: &[u8], at: usize, n: usize) -> &[u8]
    ensures { result.now ≡ part s.now at n }
{
    let rest = &s[at.min(s.len())..];
    &rest[..n.min(rest.len())]
}

// The N octets of s from `at`.
fn octets_at<const N: usize>(s: &[u8], at: usize) -> [u8; N]
    ensures { (i : ℕ) → i < N → get_or result i 0 ≡ get_or s.now (at + i) 0 }
{
    let mut octets = [0; N];
    copy(s, at, N, &mut octets, 0);
    octets
}

// The number in the n octets of s from `at`, octet by octet.
fn number_by_octets(s: &[u8], at: usize, n: usize) -> u64
    requires { n ≤ 8 }
    ensures { result ≡ value s.now at n }
{
    let mut v = 0;
    for i in 0..n {
        v = v * 256 + u64::from(octet_behind(s, at, i));
    }
    v
}

// The number in the six octets of s from `at`, in two loads.
fn number_of_six(s: &[u8], at: usize) -> u64
    ensures { result ≡ value s.now at 6 }
{
    let [a, b, c, d, e, f] = octets_at::<6>(s, at);
    u64::from(u32::from_be_bytes([a, b, c, d])) * 65536 + u64::from(u16::from_be_bytes([e, f]))
}

// The number in the n octets of s from `at`, at most eight, first octet most significant: where the length of s is known, the
// compiler turns two, four, six and eight octets into loads.
pub fn number_at(s: &[u8], at: usize, n: usize) -> u64
    ensures { result ≡ value s.now at (min n 8) }
{
    match n.min(MOST) {
        2 => u64::from(u16::from_be_bytes(octets_at(s, at))),
        4 => u64::from(u32::from_be_bytes(octets_at(s, at))),
        6 => number_of_six(s, at),
        8 => u64::from_be_bytes(octets_at(s, at)),
        most => number_by_octets(s, at, most),
    }
}

// The same, low octet first.
pub fn low_number_at(s: &[u8], at: usize, n: usize) -> u64
    ensures { result ≡ low_value s.now at (min n 8) }
{
    let mut v = 0;
    for i in (0..n.min(MOST)).rev() {
        v = v * 256 + u64::from(octet_behind(s, at, i));
    }
    v
}

// Whether octets are zero: without an early exit, so that the compiler can vectorise it.
fn are_zero(s: &[u8]) -> bool
    ensures { result ≡ fold (λ zero x. zero && (x == 0)) true s.now }
{
    s.iter().fold(true, |zero, &x| zero & (x == 0))
}

// Whether the n octets of s from `at` are zero.
pub fn is_zero(s: &[u8], at: usize, n: usize) -> bool
    ensures { result ≡ eqb (value s.now at n) 0 }
{
    are_zero(part_of(s, at, n))
}

// Stores an octet i behind `at`.
fn put_behind(out: &mut [u8], at: usize, i: usize, x: u8)
    ensures { out.new ≡ set out.old (at + i) x }
{
    let place = at.saturating_add(i);
    if place < out.len() {
        out[place] = x;
    }
}

// Writes the n octets of v from `at`, first octet most significant.
pub fn put_number(out: &mut [u8], at: usize, n: usize, v: u64)
    ensures { out.new ≡ sets out.old at (bytes n v) }
{
    let mut w = v;
    for i in (0..n).rev() {
        put_behind(out, at, i, (w % 256) as u8);
        w /= 256;
    }
}

// The same, low octet first.
pub fn put_low_number(out: &mut [u8], at: usize, n: usize, v: u64)
    ensures { out.new ≡ sets out.old at (low_bytes n v) }
{
    let mut w = v;
    for i in 0..n {
        put_behind(out, at, i, (w % 256) as u8);
        w /= 256;
    }
}

// Copies the n octets of src from `from`, as many as there are, into out from `at`.
pub fn copy(src: &[u8], from: usize, n: usize, out: &mut [u8], at: usize)
    ensures { out.new ≡ sets out.old at (part src.now from n) }
{
    let octets = part_of(src, from, n);
    let count = run_length(out.len(), at, octets.len());
    if count > 0 {
        out[at..at + count].copy_from_slice(&octets[..count]);
    }
}
