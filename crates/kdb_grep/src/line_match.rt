ghost use Rattle.std.specs.Prelude.{◌≡◌};
ghost use Rattle.kdb_grep.specs.Filter.{matches, pattern_of, stands_in};

use crate::pattern::{cut_end, cut_start};
use memchr::memmem;

/// Whether the line, without its LF, matches the pattern.
pub fn keep(line: &[u8], pattern: &[u8]) -> bool
    ensures { result ≡ matches (pattern_of pattern.now) line.now }
{
    let (at_start, rest) = cut_start(pattern);
    let (at_end, text) = cut_end(rest);
    match (at_start, at_end) {
        (true, true) => line == text,
        (true, false) => line.starts_with(text),
        (false, true) => line.ends_with(text),
        (false, false) => contains(line, text),
    }
}

fn contains(line: &[u8], text: &[u8]) -> bool
    ensures { result ≡ stands_in text.now line.now }
{
    memmem::find(line, text).is_some()
}
