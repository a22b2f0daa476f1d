ghost use Rattle.kdbsim_top.specs.Laws.{JournalsEndInOneWay, RefusalsExclude, RightFilesEnd};

use kdbsim_files::{files_mean_one_thing, refusals_are_one};

/// A law of the causes: where the shelf tells its files, an answer that says what is wrong with a file excludes every
/// other answer that the files give, the end of a run among them.
pub fn refusals_exclude_other_answers()
    ensures { RefusalsExclude }
{
    files_mean_one_thing();
    refusals_are_one();
}

/// A law of the causes: where the files are right and no count rises, a command ends its run, finds an entry that isn't
/// legal, or runs out of memory.
pub fn right_files_end_the_run()
    ensures { RightFilesEnd }
{
    files_mean_one_thing();
}

/// A law of the causes: where the shelf tells its files, a legal journal is not answered by a bad step, and a journal has one
/// bad step at most. So where the files are right and no count rises, `replay` of a legal journal ends its run or runs out of
/// memory.
pub fn journals_end_in_one_way()
    ensures { JournalsEndInOneWay }
{
    files_mean_one_thing();
}
