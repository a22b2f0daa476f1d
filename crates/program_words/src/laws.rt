ghost use Rattle.program_words.specs.Laws.{RequestsAreWithin, UniTakesTwoFiles, WrongUses};

/// A law of the words: no words, a first word that is no command's, too few or too many operands, an option that the
/// command lacks or that comes twice, and where a number is taken a value that is none or out of its bounds are each a
/// wrong use.
pub fn wrong_uses()
    ensures { WrongUses }
{}

/// A law of the words: where none of them is a flag, `uni` takes two files, and nothing else.
pub fn uni_takes_two_files()
    ensures { UniTakesTwoFiles }
{}

/// A law of the words: the numbers of each request are within their bounds, the defaults of options that aren't given too.
pub fn requests_are_within_bounds()
    ensures { RequestsAreWithin }
{}
