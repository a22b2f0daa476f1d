//! Why a text is no image.

ghost use Rattle.std.specs.Prelude.{◌≡◌};
ghost use Rattle.img_text.specs.declared.fault.ImageFault.TheVariants as image_faults;
ghost use Rattle.img_text.specs.declared.fault.LineFault.TheVariants.{Refused, NoMemory};

use mach_base::{OutOfMemory, What};
use thiserror::Error;

/// What is wrong with a line of an image file.
#[derive(Clone, Copy, Debug, PartialEq, Eq)]
pub enum Why {
    /// The first line isn't `kimg 1`.
    Header,
    /// The first word is unknown, or the count of words is wrong.
    Word,
    /// A word is no number, or a value needs more bytes than it has.
    Number,
    /// A segment is empty or not aligned to 8 bytes, or reaches beyond 2^63.
    Bounds,
    /// A segment begins below the end of the one before.
    Order,
    /// Values pass the end of their segment, or no segment has begun.
    Overrun,
    /// A hart number is above all that a machine may have, or its start is given twice.
    Hart,
    /// The file has no text segment; the line is one past the last.
    NoText,
}

/// Why a text is no image: its first faulty line, counted from 1; else the first count that is over its limit, with
/// the count.
#[derive(Clone, Copy, Debug, PartialEq, Eq, Error)]
pub enum ImageFault {
    #[error("line {line}: {why:?}")]
    Bad { line: u64, why: Why },
    #[error("{what:?} {size}: too large")]
    TooLarge { what: What, size: u64 },
    #[error("out of memory")]
    OutOfMemory,
}

impl From<OutOfMemory> for ImageFault {
    ghost from_gives = { λ _ e. e ≡ image_faults.OutOfMemory };

    fn from(_error: OutOfMemory) -> ImageFault {
        ImageFault::OutOfMemory
    }
}

/// Why a line couldn't be read, where its number isn't known.
#[derive(Clone, Copy, Debug, PartialEq, Eq)]
pub enum LineFault {
    Refused(Why),
    NoMemory,
}

impl From<Why> for LineFault {
    ghost from_gives = { λ why e. e ≡ Refused why };

    fn from(why: Why) -> LineFault {
        LineFault::Refused(why)
    }
}

impl From<OutOfMemory> for LineFault {
    ghost from_gives = { λ _ e. e ≡ NoMemory };

    fn from(_error: OutOfMemory) -> LineFault {
        LineFault::NoMemory
    }
}
