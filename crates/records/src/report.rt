// A report's group values: each sum divided by the profiles counted, without a division.
ghost use Rattle.std.specs.Prelude.{◌≡◌, map, ◌+◌, ◌*◌, ◌^◌, ◌/◌, ◌<◌, ◌≤◌};
ghost use Rattle.rules.specs.Replies.{mean};
ghost use Rattle.records.specs.Means.{most_profiles, Summed, reciprocal};

use messages::{GROUPS, GroupValues};
use rules::Record;

// 65,536 divided by each number of profiles from 0 to 16, rounded up; 0 for 0.
const RECIPROCALS: [u32; 17] = [
    0, 65536, 32768, 21846, 16384, 13108, 10923, 9363, 8192, 7282, 6554, 5958, 5462, 5042, 4682,
    4370, 4096,
];

// 65,536 divided by a number of profiles, rounded up.
fn reciprocal_of(profiles: u8) -> u32
    requires { profiles ≤ most_profiles }
    ensures { result ≡ reciprocal profiles }
{
    RECIPROCALS[usize::from(profiles)]
}

// A sum and an addend, times a factor, divided by 65,536.
fn scaled(sum: u16, addend: u16, factor: u32) -> u8
    requires { (sum + addend) * factor < 2 ^ 24 }
    ensures { result ≡ (sum + addend) * factor / 2 ^ 16 }
{
    (((u32::from(sum) + u32::from(addend)) * factor) >> 16) as u8
}

// Each sum, with half the profiles counted, scaled by their reciprocal: its mean, rounded to the nearest, a half upwards; zeros
// where no profile is counted. Not by `map`, by which a report took 2,888 instructions for 1,661.
pub fn values(r: Record) -> GroupValues
    requires { Summed r.profiles r.sums }
    ensures { result ≡ map (mean r.profiles) r.sums }
{
    let half = u16::from(r.profiles / 2);
    let factor = reciprocal_of(r.profiles);
    let mut values = messages::no_groups();
    for i in 0..GROUPS {
        values[i] = scaled(r.sums[i], half, factor);
    }
    values
}
