ghost use Rattle.std.specs.Prelude.{◌≡◌, ◌++◌, OnOk, OnErr};
ghost use Rattle.kdb_bt.specs.Frames.{return_addresses, frames_of};
ghost use Rattle.kdb_bt.specs.Texts.{frame_text, frames_text};

use crate::frame::frame_at;
use hart_ctx::Context;
use mach_base::{OutOfMemory, Peek, push_bytes, push_dec, push_newline};
use sym_map::{Symbols, push_place};

/// The number of the register that holds the frame pointer.
const FRAME_POINTER: u8 = 8;

/// One more than the largest number of a frame.
const FRAME_LIMIT: u64 = 64;

/// Appends a line for each frame of a hart, as `#1 0x0000000000001004 (start+0x4)`: the pc first, then the return
/// addresses, 64 frames at most. A refusal leaves `out` as it was.
pub fn show_frames<P: Peek>(
    mem: &P,
    names: &Symbols,
    ctx: &Context,
    out: &mut Vec<u8>,
) -> Result<(), OutOfMemory>
    ensures ok { OnOk result (out.new.items ≡ out.old.items ++ frames_text names.now 0 (frames_of (P.memory mem.now) ctx.now)) }
    ensures err { OnErr result (out.new.items ≡ out.old.items) }
{
    let mut text = Vec::new(*out.allocator());
    push_frames(mem, names, ctx, &mut text)?;
    push_bytes(out, text.as_slice())?;
    Ok(())
}

#[tactic(auto, unfolding(crate::specs::Texts::frames_text))]
fn push_frames<P: Peek>(
    mem: &P,
    names: &Symbols,
    ctx: &Context,
    out: &mut Vec<u8>,
) -> Result<(), OutOfMemory>
    ensures { OnOk result (out.new.items ≡ out.old.items ++ frames_text names.now 0 (frames_of (P.memory mem.now) ctx.now)) }
{
    push_frame(out, names, 0, ctx.pc)?;
    push_callers(mem, names, ctx.get(FRAME_POINTER), out)?;
    Ok(())
}

/// Appends the line of each return address from a frame pointer on.
fn push_callers<P: Peek>(
    mem: &P,
    names: &Symbols,
    start: u64,
    out: &mut Vec<u8>,
) -> Result<(), OutOfMemory>
    ensures { OnOk result (out.new.items ≡ out.old.items ++ frames_text names.now 1 (return_addresses (P.memory mem.now) 63 start)) }
{
    let mut pointer = start;
    for number in 1..FRAME_LIMIT {
        let Some(frame) = frame_at(mem, pointer) else {
            return Ok(());
        };
        if frame.return_address == 0 {
            return Ok(());
        }
        push_frame(out, names, number, frame.return_address)?;
        if frame.caller <= pointer {
            return Ok(());
        }
        pointer = frame.caller;
    }
    Ok(())
}

#[tactic(auto, unfolding(crate::specs::Texts::frame_text))]
fn push_frame(out: &mut Vec<u8>, names: &Symbols, number: u64, addr: u64) -> Result<(), OutOfMemory>
    ensures { OnOk result (out.new.items ≡ out.old.items ++ frame_text names.now number addr) }
{
    push_bytes(out, b"#")?;
    push_dec(out, number)?;
    push_bytes(out, b" ")?;
    push_place(out, names, addr)?;
    push_newline(out)?;
    Ok(())
}
