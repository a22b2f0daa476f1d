//! The image of the input.
ghost use Rattle.std.specs.Prelude.{◌≡◌, IfOk};
ghost use Rattle.gen_load.specs.Input.{image_text};

use mach_base::{OutOfMemory, Text};
use std::alloc::Global;

/// Text of 22 words and 24 bytes of data: the lock, the counter, and how many harts are done.
const IMAGE: &[u8] = b"kimg 1
text 0x1000 88
w 0x000025b7 0x3e800613 0x00100693 0x08d5b72f 0xfe071ee3 0x0085b783 0x00178793 0x00f5b423
w 0x0005b023 0xfff60613 0xfe0612e3 0x01058813 0x00d8302f 0x00200893 0x00000073 0x00051a63
w 0x0105b783 0xffc78793 0xfe079ce3 0x00100073 0x00000893 0x00000073
data 0x2000 24
";

/// The text of the image.
pub fn image_of_load(alloc: Global) -> Result<Text, OutOfMemory>
    ensures { IfOk result (λ text. text ≡ image_text) }
{
    let bytes = Vec::from_slice(alloc, IMAGE)?;
    Ok(Text::from_vec(bytes))
}
