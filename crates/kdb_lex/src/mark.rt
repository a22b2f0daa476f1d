ghost use Rattle.std.specs.Prelude.{◌≡◌};
ghost use Rattle.kdb_lex.specs.Mark.{mark_of};

use mach_base::is_blank;

/// What a byte of a line is.
#[derive(Clone, Copy, Debug, PartialEq, Eq)]
pub enum Mark {
    /// A blank between words.
    Blank,
    /// A `|` outside quotes.
    Pipe,
    /// A `"`, which begins or ends a quoted part.
    Quote,
    /// A byte of a word.
    Byte(u8),
}

/// What a byte is, inside or outside quotes.
pub fn mark_of(quoted: bool, byte: u8) -> Mark
    ensures { result ≡ mark_of quoted byte }
{
    if byte == b'"' {
        Mark::Quote
    } else if quoted {
        Mark::Byte(byte)
    } else if is_blank(byte) {
        Mark::Blank
    } else if byte == b'|' {
        Mark::Pipe
    } else {
        Mark::Byte(byte)
    }
}
