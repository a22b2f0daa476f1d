ghost use Rattle.kdbsim_files.specs.Laws.{FilesMeanOneThing, RefusalsAreOne};

use jrn_text::texts_mean_one_thing;

/// A law of files: where the shelf tells its files, the file of a name says one thing at most, and where it says something
/// it isn't refused.
pub fn files_mean_one_thing()
    ensures { FilesMeanOneThing }
{
    texts_mean_one_thing();
}

/// A law of the causes: where the shelf tells its files, the files of a command are refused in one way at most, by the first
/// one that is.
pub fn refusals_are_one()
    ensures { RefusalsAreOne }
{
    texts_mean_one_thing();
}
