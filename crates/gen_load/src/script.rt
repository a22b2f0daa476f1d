//! The script of the input.
ghost use Rattle.std.specs.Prelude.{◌≡◌, ◌++◌, IfOk};
ghost use Rattle.gen_load.specs.Input.{goes, script_text};

use crate::GOES;
use mach_base::{OutOfMemory, Text, push_bytes};
use std::alloc::Global;

/// The text of the script.
#[tactic(auto, unfolding(crate::specs::Input::script_text))]
pub fn script_of_load(alloc: Global) -> Result<Text, OutOfMemory>
    ensures { IfOk result (λ text. text ≡ script_text) }
{
    let mut bytes = Vec::from_slice(alloc, b"bp 1018\n")?;
    push_goes(&mut bytes, GOES)?;
    push_bytes(&mut bytes, b"bc 0\ngo\nmd8c1 2008\ngo\n")?;
    Ok(Text::from_vec(bytes))
}

/// Appends so many lines `go`.
fn push_goes(out: &mut Vec<u8>, lines: usize) -> Result<(), OutOfMemory>
    ensures { IfOk result (λ _. out.new.items ≡ out.old.items ++ goes lines) }
{
    for line in 0..lines {
        push_bytes(out, b"go\n")?;
    }
    Ok(())
}
