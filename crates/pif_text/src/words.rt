ghost use Rattle.std.specs.Prelude.{◌≡◌, ℕ, ◌<◌, ◌≤◌, ◌≢◌, ◌∷◌, length, slice_index, option_copied, bytes_eq};
ghost use Rattle.pif_text_model.specs.Words.{words, words_behind};

/// The place of the first space of a line, or the line's length if it has none.
fn first_space(line: &[u8]) -> usize
    ensures within { result ≤ length line.now }
    ensures before { (k : ℕ) → k < result → slice_index line.now k ≢ 32 }
    ensures found { result < length line.now → slice_index line.now result ≡ 32 }
{
    for (place, byte) in line.iter().enumerate() {
        if *byte == b' ' {
            return place;
        }
    }
    line.len()
}

/// The first word of a line, and what stands behind the space after it, or `None` if no space stands there.
#[tactic(auto, using(pif_text_model::proofs::Splits::split_at_space, pif_text_model::proofs::Splits::split_nowhere))]
pub fn split_first(line: &[u8]) -> (&[u8], Option<&[u8]>)
    ensures { words line.now ≡ result.0.now ∷ words_behind (option_copied result.1) }
{
    let end = first_space(line);
    if end < line.len() {
        (&line[..end], Some(&line[end + 1..]))
    } else {
        (line, None)
    }
}

/// Whether a word is this one. It is inlined, so that the test is one of the length and of a few bytes.
#[inline(always)]
pub fn is_word<const N: usize>(word: &[u8], name: &[u8; N]) -> bool
    ensures { result ≡ bytes_eq word.now name.now }
{
    if word.len() != N {
        return false;
    }
    for (place, byte) in name.iter().enumerate() {
        if word[place] != *byte {
            return false;
        }
    }
    true
}
