// The reduction call in a script: its values, our levels, and what is told of its reductions.
ghost use Rattle.std.specs.Prelude.{◌≡◌, true, ◌+◌, ◌*◌, ◌^◌, ◌<◌, ◌≤◌, length, take};
ghost use Rattle.amplitude.specs.Reductions.{reduce_rules};
ghost use Rattle.ends.specs.Sending.{sent_of, Says};
ghost use Rattle.ends.specs.declared.Indication.TheVariants.{Nothing};
ghost use Rattle.script.specs.Layout.{level_of, levels_at, value_count_in, values_in, levels_in, is_reduction};

use crate::MOST_OCTETS;
use crate::events::number_at;
use ends::{Answer, Indication};

// How many octets stand in front of the values: their number.
const VALUES: usize = 4;

// How many levels an event's octets hold at most.
const MOST_LEVELS: usize = MOST_OCTETS / 2;

// The number of values.
fn value_count(octets: &[u8]) -> usize
    ensures { (result ≡ value_count_in octets.now) × (result < 2 ^ 32) }
{
    number_at(octets, 0) as usize
}

// Whether an event's octets are a reduction's.
pub(crate) fn is_reduction(octets: &[u8]) -> bool
    ensures { result ≡ is_reduction octets.now }
{
    let start = VALUES + value_count(octets);
    start <= octets.len() && octets.len() <= MOST_OCTETS && (octets.len() - start) % 2 == 0
}

// A level by its number of two octets.
#[tactic(auto, using(crate::proofs::LevelLaws::signed))]
fn level_of(n: u64) -> i16
    requires { n < 2 ^ 16 }
    ensures { result ≡ level_of n }
{
    (n as u16).cast_signed()
}

// Reads n levels from a place on into the first places of a slice.
#[tactic(auto, using(octets::proofs::OctetLaws::low_lt, crate::proofs::LevelLaws::levels_none))]
fn read_levels(octets: &[u8], from: usize, n: usize, levels: &mut [i16])
    requires { (n ≤ length levels.old) × (from + 2 * n ≤ length octets.now) }
    ensures { take n levels.new ≡ levels_at octets.now from n }
{
    for i in 0..n {
        levels[i] = level_of(octets::low_number_at(octets, from + 2 * i, 2));
    }
}

// Puts the reductions for an event's values and levels into an output from its first octet, and tells of them as of one frame.
// The levels stand in an array with their number beside it, and in no `Vec`: no heap.
pub(crate) fn reduce(octets: &[u8], out: &mut [u8]) -> Answer
    requires { is_reduction octets.now ≡ true }
    ensures { Says (sent_of Nothing (reduce_rules (values_in octets.now) (levels_in octets.now) (length out.old))) out.old out.new result }
{
    let start = VALUES + value_count(octets);
    let n = (octets.len() - start) / 2;
    let mut levels = [0; MOST_LEVELS];
    read_levels(octets, start, n, &mut levels);
    let reduced = amplitude::reduce(&octets[VALUES..start], &levels[..n], out);
    ends::told(reduced, Indication::Nothing)
}
