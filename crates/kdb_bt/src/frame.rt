//! One frame, as memory has it.

ghost use Rattle.std.specs.Prelude.{◌≡◌, ◌+◌, ◌<◌, ◌≤◌, ◌^◌, IfSome};
ghost use Rattle.kdb_bt.specs.Frames.{number_at, frame_at};

use mach_base::Peek;

/// What is below a frame pointer: the address to which the call returns, and the caller's frame pointer.
#[derive(Clone, Copy, Debug, PartialEq, Eq)]
pub struct Frame {
    pub return_address: u64,
    pub caller: u64,
}

/// The frame below a frame pointer; None where the pointer is no multiple of 8 or below 16, or a byte isn't mapped.
#[tactic(auto, unfolding(crate::specs::Frames::frame_at))]
pub fn frame_at<P: Peek>(mem: &P, pointer: u64) -> Option<Frame>
    ensures { result ≡ frame_at (P.memory mem.now) pointer }
{
    if pointer % 8 != 0 || pointer < 16 {
        return None;
    }
    let return_address = number_at(mem, pointer - 8, 8)?;
    let caller = number_at(mem, pointer - 16, 8)?;
    Some(Frame {
        return_address,
        caller,
    })
}

/// The little-endian number of so many bytes; None where one of them isn't mapped.
#[tactic(auto, using(crate::proofs::Words::numbers))]
fn number_at<P: Peek>(mem: &P, addr: u64, count: u8) -> Option<u64>
    requires few { count ≤ 8 }
    requires within { addr + count < 2 ^ 64 }
    ensures value { result ≡ number_at (P.memory mem.now) addr count }
    ensures fits { IfSome result (λ number. number < 256 ^ count) }
{
    if count == 0 {
        return Some(0);
    }
    let byte = mem.peek(addr)?;
    let rest = number_at(mem, addr + 1, count - 1)?;
    Some(u64::from(byte) + 256 * rest)
}
