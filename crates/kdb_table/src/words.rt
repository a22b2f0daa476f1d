ghost use Rattle.std.specs.Prelude.{◌≡◌, ◌-◌, length};
ghost use Rattle.kdb_table.specs.Words.{word_at};

use mach_base::Text;

/// The word at a place of the line; no bytes after the last one.
pub fn word_at(words: &[Text], place: usize) -> &[u8]
    ensures { result.now ≡ word_at words.now place }
{
    match words.get(place) {
        Some(word) => word.as_bytes(),
        None => b"",
    }
}

/// How many words there are after the first one.
pub fn argument_count(words: &[Text]) -> usize
    ensures { result ≡ length words.now - 1 }
{
    if words.is_empty() { 0 } else { words.len() - 1 }
}
