// Runs of bits of a word, and numbers in two's complement.

ghost use Rattle.std.specs.Prelude.{◌≡◌, ◌+◌, ◌-◌, ◌*◌, ◌^◌, ◌<◌, ◌≤◌, nat_lt, if◌then◌else◌, pos, negsuc};
ghost use Rattle.rv_decode.specs.Bits.{bits_at};
ghost use Rattle.rv_decode.specs.Encoding.{moved};

// The `count` bits from bit `low` up.
#[inline]
pub(crate) fn bits(word: u32, low: u32, count: u32) -> u32
    requires low_in_word { low < 32 }
    requires short { count < 32 }
    ensures value { result ≡ bits_at word low count }
    ensures bound { result < 2 ^ count }
{
    (word >> low) % (1 << count)
}

// The same bits, moved to the bits from bit `to` up.
#[inline]
pub(crate) fn moved_bits(word: u32, low: u32, count: u32, to: u32) -> u32
    requires low_in_word { low < 32 }
    requires short { count < 32 }
    requires in_word { count + to ≤ 32 }
    requires to_in_word { to < 32 }
    ensures { result ≡ moved word low count to }
{
    bits(word, low, count) << to
}

// The number that bits stand for in two's complement, where the highest of them is worth `half`.
#[inline]
pub(crate) fn sign_extended(value: u32, half: u32) -> i32
    requires below { value < 2 * half }
    requires half_in_word { half ≤ 2 ^ 31 }
    ensures { result ≡ if nat_lt value half then pos value else negsuc (2 * half - 1 - value) }
{
    if value < half {
        value as i32
    } else {
        -((half - 1 - (value - half)) as i32) - 1
    }
}
