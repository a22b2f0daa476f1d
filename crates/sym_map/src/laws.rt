//! Laws of map files, each as the contract of a call that does nothing: whoever needs one calls it.
ghost use Rattle.sym_map.specs.Grammar.{GivesItsSymbols, NamesTheFirstBadLine, CountsItsSymbols};

/// A text gives symbols exactly where each of its lines is right, the symbols are those that the lines name, in their
/// order, and they aren't too many.
#[tactic(auto, using(crate::proofs::Grammar::gives_its_symbols))]
pub fn a_map_gives_its_symbols()
    ensures { GivesItsSymbols }
{}

/// A text is bad at a line exactly where that line is the first that isn't right.
pub fn a_map_names_its_first_bad_line()
    ensures { NamesTheFirstBadLine }
{}

/// A text is too large exactly where each of its lines is right, and they name more symbols than a map may have; the size
/// is the number of the symbols.
pub fn a_map_counts_its_symbols()
    ensures { CountsItsSymbols }
{}
