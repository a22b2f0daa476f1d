//! Lines and words, cut from a text without a copy.

ghost use Rattle.std.specs.Prelude.{◌≡◌, ℕ, ◌-◌, ◌<◌, ◌≤◌, ◌≢◌, ◌∷◌, [], false, length, take, drop, slice_index, MatchOption, IfSome};
ghost use Rattle.std.specs.Str.Lines.{strip_carriage_return};
ghost use Rattle.mach_base.specs.Lines.{is_blank, is_header_of, lines_of, words_of};

/// The first line of a text, without its end, and what follows it; None exactly where no line is left. A line feed
/// ends each line but the last, which may lack it, and a carriage return directly before it belongs to the end.
pub fn next_line(text: &[u8]) -> Option<(&[u8], &[u8])>
    ensures line { MatchOption result (lines_of text.now ≡ []) (λ found. lines_of text.now ≡ found.0.now ∷ lines_of found.1.now) }
    ensures shorter { IfSome result (λ found. length found.1.now < length text.now) }
{
    if text.is_empty() {
        return None;
    }
    let feed = feed_at(text);
    if feed == text.len() {
        return Some((text, &[]));
    }
    let (line, rest) = text.split_at(feed);
    Some((without_return(line), &rest[1..]))
}

/// Where the first line feed stands, or the text's length.
fn feed_at(text: &[u8]) -> usize
    ensures within { result ≤ length text.now }
    ensures before { (k : ℕ) → k < result → slice_index text.now k ≢ 10 }
    ensures found { result < length text.now → slice_index text.now result ≡ 10 }
{
    for (i, byte) in text.iter().enumerate() {
        if *byte == b'\n' {
            return i;
        }
    }
    text.len()
}

/// The line without one carriage return at its end.
fn without_return(line: &[u8]) -> &[u8]
    ensures { result.now ≡ strip_carriage_return line.now }
{
    if !line.is_empty() && line[line.len() - 1] == b'\r' {
        return &line[..line.len() - 1];
    }
    line
}

/// The first word of a line, and what follows it; None exactly where no word is left. Blanks and tabs part the words.
pub fn next_word(line: &[u8]) -> Option<(&[u8], &[u8])>
    ensures word { MatchOption result (words_of line.now ≡ []) (λ found. words_of line.now ≡ found.0.now ∷ words_of found.1.now) }
    ensures some { IfSome result (λ found. 0 < length found.0.now) }
    ensures shorter { IfSome result (λ found. length found.1.now < length line.now) }
{
    let (_, words) = line.split_at(blanks_before(line));
    if words.is_empty() {
        return None;
    }
    Some(words.split_at(word_end(words)))
}

/// Whether the words of a line are exactly the name of a format and its version, 1.
pub fn is_header_of(line: &[u8], name: &[u8]) -> bool
    ensures { result ≡ is_header_of name.now (words_of line.now) }
{
    let Some((word, rest)) = next_word(line) else {
        return false;
    };
    let Some((version, rest)) = next_word(rest) else {
        return false;
    };
    if next_word(rest).is_some() {
        return false;
    }
    word == name && version == b"1".as_slice()
}

/// Whether the byte is a blank or a tab.
pub fn is_blank(byte: u8) -> bool
    ensures { result ≡ is_blank byte }
{
    byte == b' ' || byte == b'\t'
}

/// How many blanks and tabs stand before the first word.
fn blanks_before(line: &[u8]) -> usize
    ensures within { result ≤ length line.now }
    ensures words { words_of line.now ≡ words_of (drop result line.now) }
    ensures word { result < length line.now → is_blank (slice_index line.now result) ≡ false }
{
    for (i, byte) in line.iter().enumerate() {
        if !is_blank(*byte) {
            return i;
        }
    }
    line.len()
}

/// Where the word ends with which the line begins.
fn word_end(line: &[u8]) -> usize
    requires some { 0 < length line.now }
    requires word { is_blank (slice_index line.now 0) ≡ false }
    ensures some { 0 < result }
    ensures within { result ≤ length line.now }
    ensures word { words_of line.now ≡ take result line.now ∷ words_of (drop result line.now) }
{
    for (i, byte) in line.iter().enumerate() {
        if is_blank(*byte) {
            return i;
        }
    }
    line.len()
}
