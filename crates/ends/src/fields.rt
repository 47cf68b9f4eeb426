// Single fields of words: what a number may mean.
ghost use Rattle.std.specs.Prelude.{◌≡◌, ◌%◌, ◌^◌, min};
ghost use Rattle.ends.specs.Words.{time_within};

// The low 32 binary digits.
pub fn low(x: u64) -> u32
    ensures { result ≡ x % 2 ^ 32 }
{
    (x % 4294967296) as u32
}

// A count, or the most where it is more.
pub fn at_most_count(most: u8, x: u64) -> u8
    ensures { result ≡ min most x }
{
    x.min(u64::from(most)) as u8
}

// A phase's time left.
pub fn time(start: u32, word: u64) -> u32
    ensures { result ≡ time_within start word }
{
    word.max(1).min(u64::from(start)) as u32
}
