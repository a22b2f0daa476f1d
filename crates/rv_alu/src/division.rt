// Products' high halves, quotients and remainders.

ghost use Rattle.std.specs.Prelude.{◌≡◌, ◌*◌, ◌/◌, ◌^◌, pos, ◌*ℤ◌};
ghost use Rattle.std.specs.Int.{w32, w64, cast_signed};
ghost use Rattle.rv_alu.specs.Words.{high_half, quotient, remainder, quotient_unsigned, remainder_unsigned};

// The high half of the product of two signed numbers.
pub(crate) fn high_signed(a: u64, b: u64) -> u64
    ensures { result ≡ high_half (cast_signed w64 a *ℤ cast_signed w64 b) }
{
    let product = a.cast_signed() as i128 * b.cast_signed() as i128;
    ((product >> 64) as i64).cast_unsigned()
}

// The high half of the product of a signed and an unsigned number.
pub(crate) fn high_mixed(a: u64, b: u64) -> u64
    ensures { result ≡ high_half (cast_signed w64 a *ℤ pos b) }
{
    let product = a.cast_signed() as i128 * b as i128;
    ((product >> 64) as i64).cast_unsigned()
}

// The high half of the product of two unsigned numbers.
pub(crate) fn high_unsigned(a: u64, b: u64) -> u64
    ensures { result ≡ a * b / 2 ^ 64 }
{
    ((a as u128 * b as u128) >> 64) as u64
}

pub(crate) fn divide(a: u64, b: u64) -> u64
    ensures { result ≡ quotient w64 a b }
{
    if b == 0 {
        u64::MAX
    } else if a == 1 << 63 && b == u64::MAX {
        a
    } else {
        (a.cast_signed() / b.cast_signed()).cast_unsigned()
    }
}

pub(crate) fn left_over(a: u64, b: u64) -> u64
    ensures { result ≡ remainder w64 a b }
{
    if b == 0 {
        a
    } else {
        a.cast_signed()
            .wrapping_rem(b.cast_signed())
            .cast_unsigned()
    }
}

pub(crate) fn divide_unsigned(a: u64, b: u64) -> u64
    ensures { result ≡ quotient_unsigned w64 a b }
{
    if b == 0 { u64::MAX } else { a / b }
}

pub(crate) fn left_over_unsigned(a: u64, b: u64) -> u64
    ensures { result ≡ remainder_unsigned a b }
{
    if b == 0 { a } else { a % b }
}

pub(crate) fn divide_word(a: u32, b: u32) -> u32
    ensures { result ≡ quotient w32 a b }
{
    if b == 0 {
        u32::MAX
    } else if a == 1 << 31 && b == u32::MAX {
        a
    } else {
        (a.cast_signed() / b.cast_signed()).cast_unsigned()
    }
}

pub(crate) fn left_over_word(a: u32, b: u32) -> u32
    ensures { result ≡ remainder w32 a b }
{
    if b == 0 {
        a
    } else {
        a.cast_signed()
            .wrapping_rem(b.cast_signed())
            .cast_unsigned()
    }
}

pub(crate) fn divide_word_unsigned(a: u32, b: u32) -> u32
    ensures { result ≡ quotient_unsigned w32 a b }
{
    if b == 0 { u32::MAX } else { a / b }
}

pub(crate) fn left_over_word_unsigned(a: u32, b: u32) -> u32
    ensures { result ≡ remainder_unsigned a b }
{
    if b == 0 { a } else { a % b }
}
