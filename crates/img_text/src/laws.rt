//! Laws of image files, each as the contract of a call that does nothing: whoever needs one calls it.
ghost use Rattle.img_text.specs.Grammar.{NamesTheFirstBadLine, IsWhatTheLinesMean, CountsItsMemory};

/// A text is bad at line n exactly where the lines before it are right and line n is wrong in just that: by itself, or after
/// those before it. It is bad for want of a header, or of text, exactly where there is none.
pub fn an_image_names_its_first_bad_line()
    ensures { NamesTheFirstBadLine }
{}

/// Where a text is accepted, each of its lines is right, the image's segments are those of its segment lines in order, each
/// one's bytes are the values up to the next segment line and then zeros, and each start is that of its one line.
pub fn an_image_is_what_its_lines_give()
    ensures { IsWhatTheLinesMean }
{}

/// A text is too large exactly where each of its lines is right, and it has too many segments, or else too much memory; the
/// size is that number.
pub fn an_image_counts_its_memory()
    ensures { CountsItsMemory }
{}
