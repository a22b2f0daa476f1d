//! A law of made files, as the contract of a call that does nothing: whoever needs it calls it.
ghost use Rattle.kdbsim_builds.specs.Laws.{MadeFilesAreTold};

/// Where the shelf tells its files, and `asm` or `elf` is answered Made, the shelf tells under the name of the image a text
/// that reads as the image of the source or of the executable, under the name of the map one that reads as the executable's
/// symbols, and under every other name what it told before.
pub fn made_files_are_told()
    ensures { MadeFilesAreTold }
{}
