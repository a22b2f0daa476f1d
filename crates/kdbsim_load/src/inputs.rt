//! The image and the script of the generated texts: both are right.
ghost use Rattle.std.specs.Prelude.{◌≡◌, IfOk, Ok};
ghost use Rattle.img_text.specs.Reading.{image_of};
ghost use Rattle.atom_mach.specs.Script.{checked_script};
ghost use Rattle.gen_load.specs.Input.{image_text, script_text};

use atom_mach::{Script, ScriptFault, check_script};
use img_text::{Image, ImageFault, read_image};
use mach_base::OutOfMemory;
use std::alloc::Global;

/// The image that the generated text means.
pub fn image_of_text(alloc: Global, text: &[u8]) -> Result<Image, OutOfMemory>
    requires { text.now ≡ image_text }
    ensures { IfOk result (λ image. image_of text.now ≡ Ok image) }
{
    match read_image(alloc, text) {
        Ok(image) => Ok(image),
        Err(ImageFault::OutOfMemory) => Err(OutOfMemory),
        Err(ImageFault::Bad { .. }) => unreachable!(),
        Err(ImageFault::TooLarge { .. }) => unreachable!(),
    }
}

/// The script that the generated text is.
pub fn script_of_text(alloc: Global, text: &[u8]) -> Result<Script, OutOfMemory>
    requires { text.now ≡ script_text }
    ensures { IfOk result (λ script. checked_script text.now ≡ Ok script) }
{
    match check_script(alloc, text) {
        Ok(script) => Ok(script),
        Err(ScriptFault::OutOfMemory) => Err(OutOfMemory),
        Err(ScriptFault::Bad { .. }) => unreachable!(),
        Err(ScriptFault::TooLarge { .. }) => unreachable!(),
    }
}
