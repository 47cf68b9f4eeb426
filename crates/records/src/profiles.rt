// The sums and the spread of the profiles counted.
ghost use Rattle.std.specs.Prelude.{ℕ, ◌*◌, ◌≤◌, ◌≡◌, get_or};
ghost use Rattle.rules.specs.Records as defined;
ghost use Rattle.rules.specs.Records.{groups_kept};
ghost use Rattle.records.specs.Means.{most_profiles, Summed};

use messages::{Edition, GROUPS, GroupValues};
use rules::{GroupSums, Record, Spread, tries};

// Each group's value added to its sum.
fn added(mut sums: GroupSums, values: GroupValues) -> GroupSums
    requires { (i : ℕ) → get_or sums i 0 ≤ 255 * most_profiles }
    ensures { result ≡ defined.added sums values }
{
    for i in 0..GROUPS {
        sums[i] += u16::from(values[i]);
    }
    sums
}

// The spread with a profile's values taken into it: each group's least value lowered and its greatest raised.
fn widened(spread: Spread, values: GroupValues) -> Spread
    ensures { result ≡ defined.widened values spread }
{
    let Spread {
        mut least,
        mut greatest,
    } = spread;
    for i in 0..GROUPS {
        least[i] = least[i].min(values[i]);
        greatest[i] = greatest[i].max(values[i]);
    }
    Spread { least, greatest }
}

// The record with a profile's values added, its spread widened, one more counted, and its group count kept.
#[tactic(auto, using(crate::proofs::ProfileLaws::summed_most), unfolding(rules::specs::Records::counted))]
pub fn counted(edition: Edition, r: Record, count: usize, values: GroupValues) -> Record
    requires { Summed r.profiles r.sums }
    ensures { result ≡ defined.counted (groups_kept edition count) values r }
{
    Record {
        profiles: r.profiles + 1,
        sums: added(r.sums, values),
        spread: widened(r.spread, values),
        groups: tries::groups_kept(edition, count),
        ..r
    }
}
