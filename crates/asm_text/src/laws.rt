//! Laws of sources, each as the contract of a call that does nothing: whoever needs one calls it.
ghost use Rattle.asm_text.specs.Grammar.{CountsItsMemory, IsWhatTheLinesMean, NamesTheFirstBadLine, PlacesAreRunning};

/// A text is bad at a line exactly where it isn't too long, the lines before that line are right, and that line isn't: by
/// itself, or after those before it; line 1 where it isn't that of a source, and one past the last where no segment holds text.
pub fn a_source_names_its_first_bad_line()
    ensures { NamesTheFirstBadLine }
{}

/// Where a text is accepted, each of its lines is right, and its image is the one that the image format gives to what they
/// put: a line of the image format what it puts there, an instruction its word, a label nothing.
pub fn a_source_is_what_its_lines_give()
    ensures { IsWhatTheLinesMean }
{}

/// A text is too large exactly where it has too many bytes, or else where each of its lines is right and it has too many
/// segments, or else too much memory; the size is that number.
pub fn a_source_counts_its_memory()
    ensures { CountsItsMemory }
{}

/// After lines that are right the place is the base of the last segment and as many bytes as were put into it, and there is
/// none before any segment: so a label means the address at which the next byte is put.
pub fn a_place_is_where_the_next_byte_stands()
    ensures { PlacesAreRunning }
{}
