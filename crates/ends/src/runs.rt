// Runs of words.
ghost use Rattle.std.specs.Prelude.{◌≡◌};
ghost use Rattle.std.proofs.lemmas.List.Edits.{sets};

// Copies src into words from `at`; what stands past the end is left out.
pub fn put_words(src: &[u64], words: &mut [u64], at: usize)
    ensures { words.new ≡ sets words.old at src.now }
{
    let count = src.len().min(words.len().saturating_sub(at));
    if count > 0 {
        words[at..at + count].copy_from_slice(&src[..count]);
    }
}
