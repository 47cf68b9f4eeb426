// Runs of sums and of a spread's octets, in and out.
// A place is a plain index, as in `one_record`.
ghost use Rattle.std.specs.Prelude.{◌≡◌, map, ◌+◌, ◌≤◌, min};
ghost use Rattle.std.proofs.lemmas.List.Edits.{sets};
ghost use Rattle.octets.specs.Octets.{part};
ghost use Rattle.messages.specs.Table.{group_count};
ghost use Rattle.words.specs.Words.{sum_count, spread_width, spread_count, most_sum, only_first, sums_of, spread_of};
ghost use Rattle.words.specs.Written.{spread_octets};

use crate::{StationSpread, StationSums, fields};
use messages::{GROUPS, GroupValues};
use rules::{GroupSums, Spread};

// Stores a record's sums from `at`: no `copy_from_slice`, by which a SOUND took 918 instructions for 756.
pub(crate) fn put_sums(own: &GroupSums, sums: &mut StationSums, at: usize)
    requires { at + group_count ≤ sum_count }
    ensures { sums.new ≡ sets sums.old at own.now }
{
    for i in 0..GROUPS {
        sums[at + i] = own[i];
    }
}

// The sums of all groups from `at`, each at most 255 for every profile.
fn limited_at(sums: &StationSums, at: usize, profiles: u8) -> GroupSums
    requires { at + group_count ≤ sum_count }
    ensures { result ≡ map (min (most_sum profiles)) (part sums.now at group_count) }
{
    let most = fields::most_sum(profiles);
    let mut r: [u16; GROUPS] = [0; GROUPS];
    for i in 0..GROUPS {
        r[i] = sums[at + i].min(most);
    }
    r
}

// The sums of the first groups, and 0 for each of the others; with no slice from `groups` on, since that may be past the last.
fn only_first(own: GroupSums, groups: usize) -> GroupSums
    ensures { result ≡ only_first groups own }
{
    let mut r = own;
    for i in groups..GROUPS {
        r[i] = 0;
    }
    r
}

// A record's sums: those of the first groups, each at most 255 for every profile.
pub(crate) fn sums_at(sums: &StationSums, at: usize, profiles: u8, groups: usize) -> GroupSums
    requires { at + group_count ≤ sum_count }
    ensures { result ≡ sums_of profiles groups (part sums.now at group_count) }
{
    only_first(limited_at(sums, at, profiles), groups)
}

// The values of all groups from `at`: no `copy_from_slice`, which took a record's read a hundred instructions more for each copy.
fn groups_at(spread: &StationSpread, at: usize) -> GroupValues
    requires { at + group_count ≤ spread_count }
    ensures { result ≡ part spread.now at group_count }
{
    let mut values = messages::no_groups();
    octets::copy(&spread[at..at + GROUPS], 0, GROUPS, &mut values, 0);
    values
}

// A record's spread.
pub(crate) fn spread_at(spread: &StationSpread, at: usize) -> Spread
    requires { at + spread_width ≤ spread_count }
    ensures { result ≡ spread_of (part spread.now at spread_width) }
{
    Spread {
        least: groups_at(spread, at),
        greatest: groups_at(spread, at + GROUPS),
    }
}

// Stores the values of all groups from `at`, copied as they are read.
fn put_groups(own: GroupValues, spread: &mut StationSpread, at: usize)
    requires { at + group_count ≤ spread_count }
    ensures { spread.new ≡ sets spread.old at own }
{
    octets::copy(&own, 0, GROUPS, &mut spread[at..at + GROUPS], 0);
}

// Stores a record's spread from `at`.
pub(crate) fn put_spread(own: Spread, spread: &mut StationSpread, at: usize)
    requires { at + spread_width ≤ spread_count }
    ensures { spread.new ≡ sets spread.old at (spread_octets own) }
{
    put_groups(own.least, spread, at);
    put_groups(own.greatest, spread, at + GROUPS);
}
