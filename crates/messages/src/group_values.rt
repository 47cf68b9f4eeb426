// The group values of ATTEN_PROFILE, out of a run of octets and into one.
ghost use Rattle.std.specs.Prelude.{◌≡◌, ◌+◌, ◌-◌, ◌≤◌, length, take};
ghost use Rattle.std.proofs.lemmas.List.Edits.{sets};
ghost use Rattle.octets.specs.Octets.{part, value};
ghost use Rattle.messages.specs.Layout.{filled};
ghost use Rattle.messages.specs.Table.{group_count};

use crate::{GROUPS, GroupValues};
use octets::octet_at;

// The group count in one octet.
#[tactic(auto, using(octets::proofs::LoopLaws::value_one))]
pub(crate) fn count_at(s: &[u8], at: usize) -> usize
    ensures { result ≡ value s.now at 1 }
{
    usize::from(octet_at(s, at))
}

// Copies the values of n groups of src from `from` into out from `at`: those of all groups by a number that the compiler knows, so that no octet is tested.
fn copy_groups(src: &[u8], from: usize, n: usize, out: &mut [u8], at: usize)
    ensures { out.new ≡ sets out.old at (part src.now from n) }
{
    if n == GROUPS {
        octets::copy(src, from, GROUPS, out, at);
    } else {
        octets::copy(src, from, n, out, at);
    }
}

// The n group values from `at`, zeros behind them.
#[tactic(auto, using(crate::proofs::FrameLaws::groups_copied))]
pub(crate) fn groups_at(s: &[u8], at: usize, n: usize) -> GroupValues
    requires { (n ≤ group_count) × (at + n ≤ length s.now) }
    ensures { result ≡ filled s.now at n (group_count - n) }
{
    let mut g = crate::no_groups();
    copy_groups(s, at, n, &mut g, 0);
    g
}

// Writes the first n group values from `at`.
pub(crate) fn put_groups(out: &mut [u8], at: usize, n: usize, groups: GroupValues)
    ensures { out.new ≡ sets out.old at (take n groups) }
{
    copy_groups(&groups, 0, n, out, at);
}
