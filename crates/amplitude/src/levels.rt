// Our levels in dBm/Hz, and by how much the power of each carrier is to be lowered.
ghost use Rattle.std.specs.Prelude.{◌≡◌, true, ◌<◌, ◌≤◌, length};
ghost use Rattle.std.proofs.lemmas.List.Edits.{sets};
ghost use Rattle.amplitude.specs.Halves.{are_halves};
ghost use Rattle.amplitude.specs.Reductions.{is_level, are_levels, reduction, reductions};

// Whether a level is from -128 to 0.
fn is_level(level: i16) -> bool
    ensures { result ≡ is_level level }
{
    -128 <= level && level <= 0
}

// Whether each level is from -128 to 0.
pub(crate) fn are_levels(levels: &[i16]) -> bool
    ensures { result ≡ are_levels levels.now }
{
    let mut right = true;
    for &level in levels {
        right &= is_level(level);
    }
    right
}

// How far a level lies above the most that a value allows.
fn lowered(value: u8, level: i16) -> u8
    requires { (value < 16) × (is_level level ≡ true) }
    ensures { result ≡ reduction value level }
{
    let limit = 50 + 2 * u16::from(value);
    limit.saturating_sub(level.unsigned_abs()) as u8
}

// Puts the reduction of each carrier into out from its first place.
pub(crate) fn put_reductions(values: &[u8], levels: &[i16], out: &mut [u8])
    requires values_value { (are_halves values.now ≡ true) × (are_levels levels.now ≡ true) }
    requires values_len { (length values.now ≡ length levels.now) × (length values.now ≤ length out.old) }
    ensures { out.new ≡ sets out.old 0 (reductions values.now levels.now) }
{
    for i in 0..values.len() {
        out[i] = lowered(values[i], levels[i]);
    }
}
