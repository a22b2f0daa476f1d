//! The directives of an image file.

ghost use Rattle.std.specs.Prelude.{◌≡◌};
ghost use Rattle.img_text.specs.Directives.{directive_of, size_of, least_of, most_of, largest_value, largest_of};

use mach_base::Kind;

/// How many bytes a value takes.
#[derive(Clone, Copy, Debug, PartialEq, Eq)]
pub enum Width {
    One,
    Four,
    Eight,
}

/// What a line does: a segment of a kind begins, values are put, or a start is given.
#[derive(Clone, Copy, Debug, PartialEq, Eq)]
pub enum Directive {
    Begin(Kind),
    Put(Width),
    Pc,
    Sp,
}

/// The directive of a line's first word, if it is one.
pub fn directive_of(word: &[u8]) -> Option<Directive>
    ensures { result ≡ directive_of word.now }
{
    if word == b"text".as_slice() {
        return Some(Directive::Begin(Kind::Text));
    }
    if word == b"data".as_slice() {
        return Some(Directive::Begin(Kind::Data));
    }
    if word == b"rodata".as_slice() {
        return Some(Directive::Begin(Kind::Rodata));
    }
    if word == b"b".as_slice() {
        return Some(Directive::Put(Width::One));
    }
    if word == b"w".as_slice() {
        return Some(Directive::Put(Width::Four));
    }
    if word == b"d".as_slice() {
        return Some(Directive::Put(Width::Eight));
    }
    if word == b"pc".as_slice() {
        return Some(Directive::Pc);
    }
    if word == b"sp".as_slice() {
        return Some(Directive::Sp);
    }
    None
}

/// How many bytes a value of the width takes.
pub fn size_of(width: Width) -> usize
    ensures { result ≡ size_of width }
{
    match width {
        Width::One => 1,
        Width::Four => 4,
        Width::Eight => 8,
    }
}

/// How many numbers the directive has at least.
pub fn least_of(directive: Directive) -> usize
    ensures { result ≡ least_of directive }
{
    match directive {
        Directive::Put(_) => 1,
        _ => 2,
    }
}

/// How many numbers the directive has at most.
pub fn most_of(directive: Directive) -> usize
    ensures { result ≡ most_of directive }
{
    match directive {
        Directive::Put(_) => 8,
        _ => 2,
    }
}

fn largest_value(width: Width) -> u64
    ensures { result ≡ largest_value width }
{
    match width {
        Width::One => 0xff,
        Width::Four => 0xffff_ffff,
        Width::Eight => 0xffff_ffff_ffff_ffff,
    }
}

/// The largest number that the directive may have.
pub fn largest_of(directive: Directive) -> u64
    ensures { result ≡ largest_of directive }
{
    match directive {
        Directive::Put(width) => largest_value(width),
        _ => 0xffff_ffff_ffff_ffff,
    }
}
