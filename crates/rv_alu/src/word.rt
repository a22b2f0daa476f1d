// The low word of a doubleword, and back.

ghost use Rattle.std.specs.Prelude.{◌≡◌};
ghost use Rattle.rv_alu.specs.Words.{low, sign_extended};

// The low 32 bits.
#[inline]
pub(crate) fn low_word(a: u64) -> u32
    ensures { result ≡ low a }
{
    (a % 0x1_0000_0000) as u32
}

// The word with its sign carried on to 64 bits.
#[inline]
pub(crate) fn extended(a: u32) -> u64
    ensures { result ≡ sign_extended a }
{
    (a.cast_signed() as i64).cast_unsigned()
}
