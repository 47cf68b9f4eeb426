// The times and counts of a try, and what a record keeps of group counts, in either edition.
// Each is a match of its own: a generic one would be handed a column's three values at each call, and a type of the three tries would be
// made of the two at each call, as a station keeps the edition and a record the try, which is no plainer.
ghost use Rattle.std.specs.Prelude.{◌≡◌};
ghost use Rattle.rules.specs.Constants.{sounding_time, sounds_per_try, pair_of};
ghost use Rattle.rules.specs.Records.{groups_kept, groups_in};

use crate::{FIRST_SOUNDING_TIME, FIRST_SOUNDS, LATER_SOUNDING_TIME, LATER_SOUNDS, SOUNDING_TIME};
use ends::SOUNDS;
use messages::{Edition, FIRST_ATTEMPT, GROUPS, ISO_ATTEMPT, LATER_ATTEMPT};

// Sounding's time.
pub fn sounding_time(edition: Edition, later: bool) -> u32
    ensures { result ≡ sounding_time edition later }
{
    match (edition, later) {
        (Edition::Iso, _) => SOUNDING_TIME,
        (Edition::Sae, false) => FIRST_SOUNDING_TIME,
        (Edition::Sae, true) => LATER_SOUNDING_TIME,
    }
}

// How many sounds there are, and at how many profiles Sounding closes.
pub fn sounds(edition: Edition, later: bool) -> u8
    ensures { result ≡ sounds_per_try edition later }
{
    match (edition, later) {
        (Edition::Iso, _) => SOUNDS,
        (Edition::Sae, false) => FIRST_SOUNDS,
        (Edition::Sae, true) => LATER_SOUNDS,
    }
}

// NUM_SOUNDS and Time_Out, as their two octets stand.
pub fn pair(edition: Edition, later: bool) -> u64
    ensures { result ≡ pair_of edition later }
{
    match (edition, later) {
        (Edition::Iso, _) => ISO_ATTEMPT,
        (Edition::Sae, false) => FIRST_ATTEMPT,
        (Edition::Sae, true) => LATER_ATTEMPT,
    }
}

// The group count of a record that counts a profile: with ISO none.
pub fn groups_kept(edition: Edition, count: usize) -> usize
    ensures { result ≡ groups_kept edition count }
{
    match edition {
        Edition::Iso => 0,
        Edition::Sae => count,
    }
}

// How many groups a record with this group count has values of: with ISO all.
pub fn groups_in(edition: Edition, count: usize) -> usize
    ensures { result ≡ groups_in edition count }
{
    match edition {
        Edition::Iso => GROUPS,
        Edition::Sae => count,
    }
}
