ghost use Rattle.std.specs.Prelude.{◌≡◌, ℕ, ◌+◌, ◌-◌, ◌*◌, ◌/◌, ◌%◌, ◌^◌, ◌<◌, ◌≤◌, ◌⊎◌, List, [], ◌∷◌, ◌++◌, length, not, drop, Result, Some, None, OnOk, OnErr, vec_len, vec_capacity, position, IsTrue, SomeIff};
ghost use Rattle.std.specs.Char.{is_digit, digit_char, digit_value};
ghost use Rattle.std.specs.Str.Parse.{digits_value, AllDigits};
ghost use Rattle.mach_base.specs.Number.{has_prefix, first_bad, number_from, number_of, hex_text, dec_text};

use crate::OutOfMemory;

/// Why a text is no number.
#[derive(Clone, Copy, Debug, PartialEq, Eq)]
pub enum NumFault {
    /// No digit is there.
    Empty,
    /// The byte at this index of the text, from 0, is no digit; it is the first such byte.
    BadDigit { at: usize },
    /// The value is 2^64 or more.
    TooLarge,
}

/// Reads a number whose digits are in the radix 8, 10 or 16, or in 16 after a leading `0x` or `0X`. Letters of
/// either case are hexadecimal digits. docs/formats.md has the rules.
pub fn parse_number(text: &[u8], radix: u8) -> Result<u64, NumFault>
    requires { (radix ≡ 8) ⊎ (radix ≡ 10) ⊎ (radix ≡ 16) }
    ensures { result ≡ number_of radix text.now }
{
    match text {
        [b'0', b'x' | b'X', digits @ ..] => parse_digits(digits, 16, 2),
        digits => parse_digits(digits, radix, 0),
    }
}

fn parse_digits(digits: &[u8], radix: u8, start: usize) -> Result<u64, NumFault>
    requires low { 2 ≤ radix }
    requires high { radix ≤ 16 }
    requires start { start ≤ 2 }
    ensures { result ≡ number_from radix start digits.now }
{
    if digits.is_empty() {
        return Err(NumFault::Empty);
    }
    if let Some(at) = first_bad_digit(digits, radix) {
        return Err(NumFault::BadDigit { at: start + at });
    }
    value_of_digits(digits, radix).ok_or(NumFault::TooLarge)
}

fn is_digit(byte: u8, radix: u8) -> bool
    requires low { 2 ≤ radix }
    requires high { radix ≤ 16 }
    ensures { result ≡ is_digit byte radix }
{
    char::from(byte).is_digit(u32::from(radix))
}

fn first_bad_digit(digits: &[u8], radix: u8) -> Option<usize>
    requires low { 2 ≤ radix }
    requires high { radix ≤ 16 }
    ensures { result ≡ first_bad radix digits.now }
{
    digits.iter().position(|digit| !is_digit(*digit, radix))
}

fn value_of_digits(digits: &[u8], radix: u8) -> Option<u64>
    requires low { 2 ≤ radix }
    requires high { radix ≤ 16 }
    requires digits { AllDigits radix digits.now }
    ensures { SomeIff result (digits_value radix digits.now < 2 ^ 64) (digits_value radix digits.now) }
{
    let mut value: u64 = 0;
    for digit in digits {
        match with_digit(value, *digit, radix) {
            Some(more) => value = more,
            None => return None,
        }
    }
    Some(value)
}

/// The value with one more digit after it, if it fits.
fn with_digit(value: u64, digit: u8, radix: u8) -> Option<u64>
    requires low { 2 ≤ radix }
    requires high { radix ≤ 16 }
    ensures { digit_value digit < radix → SomeIff result (value * radix + digit_value digit < 2 ^ 64) (value * radix + digit_value digit) }
{
    let digit = char::from(digit).to_digit(u32::from(radix))?;
    value
        .checked_mul(u64::from(radix))?
        .checked_add(u64::from(digit))
}

/// Appends the number in `digits` hexadecimal digits, lower case, with leading zeros. A refusal leaves `out` as it was.
pub fn push_hex(out: &mut Vec<u8>, value: u64, digits: u8) -> Result<(), OutOfMemory>
    requires some { 1 ≤ digits }
    requires most { digits ≤ 16 }
    requires fits { value < 16 ^ digits }
    ensures ok { OnOk result (out.new.items ≡ out.old.items ++ hex_text digits value) }
    ensures err { OnErr result (out.new.items ≡ out.old.items) }
{
    out.reserve(usize::from(digits))?;
    put_hex(out, value, digits);
    Ok(())
}

/// Appends the number in `digits` hexadecimal digits, lower case, with leading zeros, into room that is there.
pub fn put_hex(out: &mut Vec<u8>, value: u64, digits: u8)
    requires some { 1 ≤ digits }
    requires most { digits ≤ 16 }
    requires fits { value < 16 ^ digits }
    requires room { vec_len out.old + digits ≤ vec_capacity out.old }
    ensures text { out.new.items ≡ out.old.items ++ hex_text digits value }
    ensures capacity { vec_capacity out.new ≡ vec_capacity out.old }
{
    for place in (0..digits).rev() {
        let digit = (value >> (4 * u32::from(place))) % 16;
        out.push_reserved(hex_digit(digit as u8));
    }
}

fn hex_digit(digit: u8) -> u8
    requires { digit < 16 }
    ensures { result ≡ digit_char digit }
{
    if digit < 10 {
        b'0' + digit
    } else {
        b'a' + (digit - 10)
    }
}

/// Appends the number in decimal, without leading zeros. A refusal leaves `out` as it was.
pub fn push_dec(out: &mut Vec<u8>, value: u64) -> Result<(), OutOfMemory>
    ensures ok { OnOk result (out.new.items ≡ out.old.items ++ dec_text value) }
    ensures err { OnErr result (out.new.items ≡ out.old.items) }
{
    out.reserve(20)?;
    put_dec(out, value);
    Ok(())
}

/// Appends the number in decimal, without leading zeros, into room that is there for the 20 digits of the largest.
pub fn put_dec(out: &mut Vec<u8>, value: u64)
    requires room { vec_len out.old + 20 ≤ vec_capacity out.old }
    ensures text { out.new.items ≡ out.old.items ++ dec_text value }
    ensures capacity { vec_capacity out.new ≡ vec_capacity out.old }
{
    put_digits(out, value, 20);
}

/// The same, where the number has at most so many digits.
fn put_digits(out: &mut Vec<u8>, value: u64, places: u8)
    requires some { 1 ≤ places }
    requires fits { value < 10 ^ places }
    requires room { vec_len out.old + places ≤ vec_capacity out.old }
    ensures text { out.new.items ≡ out.old.items ++ dec_text value }
    ensures capacity { vec_capacity out.new ≡ vec_capacity out.old }
    ensures len { vec_len out.new ≤ vec_len out.old + places }
{
    if value < 10 {
        out.push_reserved(b'0' + value as u8);
        return;
    }
    put_digits(out, value / 10, places - 1);
    out.push_reserved(b'0' + (value % 10) as u8);
}

#[cfg(test)]
mod tests {
    use super::*;
    use std::test::Fail;

    #[test]
    fn reads_numbers(rt: HostRuntime) {
        for (text, radix, want) in [
            (b"10".as_slice(), 8, Ok(8)),
            (b"face".as_slice(), 16, Ok(0xface)),
            (b"0XfF".as_slice(), 10, Ok(255)),
            (b"0x".as_slice(), 10, Err(NumFault::Empty)),
            (b"".as_slice(), 16, Err(NumFault::Empty)),
            (b"zz".as_slice(), 16, Err(NumFault::BadDigit { at: 0 })),
            (b"0x1g".as_slice(), 10, Err(NumFault::BadDigit { at: 3 })),
            (b"18446744073709551615".as_slice(), 10, Ok(u64::MAX)),
            (
                b"18446744073709551616".as_slice(),
                10,
                Err(NumFault::TooLarge),
            ),
        ] {
            assert_eq!(rt; parse_number(text, radix), want);
        }
    }

    #[test]
    fn writes_numbers(rt: HostRuntime) -> Result<(), Fail> {
        let mut out = Vec::new(rt.alloc());
        push_hex(&mut out, 0x1a0f, 6)?;
        push_dec(&mut out, 1_000_000)?;
        push_hex(&mut out, u64::MAX, 16)?;
        push_dec(&mut out, 0)?;
        assert_eq!(rt;
            out.as_slice(),
            b"001a0f1000000ffffffffffffffff0".as_slice()
        );
        Ok(())
    }
}
