//! Laws of the filter, each as the contract of a call that does nothing: whoever needs one calls it.
ghost use Rattle.std.specs.Prelude.{◌≡◌, ◌↔◌, IsTrue, List, ℕ};
ghost use Rattle.kdb_grep.specs.Filter.{Pattern, matches, filtered};
ghost use Rattle.kdb_grep.specs.Lines.{Matches, Filtered};

/// A line matches exactly where the pattern's text occurs in it, at the ends that are marked.
#[tactic(auto, using(crate::proofs::Stands::matches_is))]
pub fn matches_where_the_text_stands()
    ensures { (pattern : Pattern) (line : List ℕ) → IsTrue (matches pattern line) ↔ Matches pattern line }
{}

/// What is left of a text are its lines that match, in their order and as they are, and nothing else is.
#[tactic(auto, using(crate::proofs::Kept::filtered_is))]
pub fn filtered_are_the_lines_that_match()
    ensures { (pattern : Pattern) (text out : List ℕ) → (out ≡ filtered pattern text) ↔ Filtered pattern text out }
{}
