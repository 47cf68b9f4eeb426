// The set of sound counts heard: count k is in it where its binary digit k is 1.
ghost use Rattle.std.specs.Prelude.{◌≡◌};
ghost use Rattle.std.specs.Int.Count.{ones};
ghost use Rattle.rules.specs.Sounds.{is_in};
ghost use Rattle.records.specs.Heard.{marking};

// Whether a count is in the set.
#[tactic(auto, using(crate::proofs::HeardLaws::past_set), unfolding(rules::specs::Sounds::is_in))]
pub fn is_heard(heard: u16, count: u8) -> bool
    ensures { result ≡ is_in count heard }
{
    count < 16 && (heard >> count) % 2 == 1
}

// The set with a sound's count marked in it.
#[tactic(auto, using(crate::proofs::HeardLaws::or_marking, crate::proofs::HeardLaws::not_marking))]
pub fn mark(heard: u16, count: u8) -> u16
    ensures { result ≡ marking count heard }
{
    if count < 16 {
        heard | (1 << count)
    } else {
        heard
    }
}

// How many counts are in the set: the number of its ones.
pub fn number(heard: u16) -> u32
    ensures { result ≡ ones heard }
{
    heard.count_ones()
}
