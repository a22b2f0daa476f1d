//! Where a text is cut.

ghost use Rattle.std.specs.Prelude.{◌≡◌, ◌≢◌, ℕ, ◌<◌, ◌≤◌, length, slice_index, MatchOption, None, Some};
ghost use Rattle.jrn_text.specs.Cuts.{cut_at};
ghost use Rattle.jrn_text.specs.Loose.{after_blank};

/// What stands before the first byte of this value, and what stands after it.
#[tactic(auto, using(crate::proofs::Cut::cut_here, crate::proofs::Cut::cut_not))]
pub fn cut_at(byte: u8, text: &[u8]) -> Option<(&[u8], &[u8])>
    ensures { MatchOption result (cut_at byte text.now ≡ None) (λ cut. cut_at byte text.now ≡ Some (cut.0.now, cut.1.now)) }
{
    let at = place_of(byte, text);
    if at == text.len() {
        return None;
    }
    Some((&text[..at], &text[at + 1..]))
}

/// Where the first byte of this value stands, or the text's length.
fn place_of(byte: u8, text: &[u8]) -> usize
    ensures within { result ≤ length text.now }
    ensures before { (k : ℕ) → k < result → slice_index text.now k ≢ byte }
    ensures found { result < length text.now → slice_index text.now result ≡ byte }
{
    for (i, found) in text.iter().enumerate() {
        if *found == byte {
            return i;
        }
    }
    text.len()
}

/// What follows the first blank.
pub fn after_blank(text: &[u8]) -> Option<&[u8]>
    ensures { MatchOption result (after_blank text.now ≡ None) (λ rest. after_blank text.now ≡ Some rest.now) }
{
    match cut_at(b' ', text) {
        Some((_, rest)) => Some(rest),
        None => None,
    }
}
