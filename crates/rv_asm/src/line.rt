// The word that a line spells.

ghost use Rattle.std.specs.Prelude.{◌≡◌, ℕ, ◌^◌, ◌<◌, Some, IfSome};
ghost use Rattle.rv_asm.specs.Spelling.{insn_text};

use crate::compare::is_spelling;
use crate::loose::word_meant;

/// The word whose spelling the line is, without a line feed; `None` exactly where it is the spelling of none. It takes
/// no memory.
pub fn assemble_line(line: &[u8]) -> Option<u32>
    ensures spelling { IfSome result (λ word. line.now ≡ insn_text word) }
    ensures read { (word : ℕ) → word < 2 ^ 32 → line.now ≡ insn_text word → result ≡ Some word }
{
    let word = word_meant(line)?;
    if is_spelling(word, line) {
        Some(word)
    } else {
        None
    }
}

/// Two words have two spellings. The call does nothing; its contract says so to callers.
pub fn spellings_differ()
    ensures { (a b : ℕ) → a < 2 ^ 32 → b < 2 ^ 32 → insn_text a ≡ insn_text b → a ≡ b }
{}
