// The atomic memory operations.

ghost use Rattle.std.specs.Prelude.{◌≡◌, ◌<◌, ◌^◌, IsTrue, bit_and, bit_or, bit_xor};
ghost use Rattle.std.specs.Int.{w32, w64};
ghost use Rattle.rv_alu.specs.Words.{low, sum, least, greatest};
ghost use Rattle.rv_alu.specs.Results.{is_amo, amo_result};

use crate::word::low_word;
use rv_table::Op;

/// What the operation stores in place of `old`; `b` is rs2. The forms on a doubleword give all 64 bits. Those on a word
/// read the low 32 bits of both operands, and give a number below 2^32: the 32 bits to be stored.
#[tactic(auto, unfolding(crate::specs::Results::is_amo, crate::specs::Results::amo_result))]
pub fn amo(op: Op, old: u64, b: u64) -> u64
    requires { IsTrue (is_amo op) }
    ensures { result ≡ amo_result op old b }
{
    match op {
        Op::AmoswapD => b,
        Op::AmoaddD => old.wrapping_add(b),
        Op::AmoxorD => old ^ b,
        Op::AmoandD => old & b,
        Op::AmoorD => old | b,
        Op::AmominD => if b.cast_signed() < old.cast_signed() {
            b
        } else {
            old
        },
        Op::AmomaxD => if old.cast_signed() < b.cast_signed() {
            b
        } else {
            old
        },
        Op::AmominuD => if b < old { b } else { old },
        Op::AmomaxuD => if old < b { b } else { old },
        Op::AmoswapW => low_word(b) as u64,
        Op::AmoaddW => low_word(old).wrapping_add(low_word(b)) as u64,
        Op::AmoxorW => (low_word(old) ^ low_word(b)) as u64,
        Op::AmoandW => (low_word(old) & low_word(b)) as u64,
        Op::AmoorW => (low_word(old) | low_word(b)) as u64,
        Op::AmominW => least_word(low_word(old), low_word(b)) as u64,
        Op::AmomaxW => greatest_word(low_word(old), low_word(b)) as u64,
        Op::AmominuW => low_word(old).min(low_word(b)) as u64,
        Op::AmomaxuW => low_word(old).max(low_word(b)) as u64,
        _ => unreachable!(),
    }
}

// The lesser of two words by their signed order.
fn least_word(a: u32, b: u32) -> u32
    ensures { result ≡ least w32 a b }
{
    if b.cast_signed() < a.cast_signed() {
        b
    } else {
        a
    }
}

// The greater of two words by their signed order.
fn greatest_word(a: u32, b: u32) -> u32
    ensures { result ≡ greatest w32 a b }
{
    if a.cast_signed() < b.cast_signed() {
        b
    } else {
        a
    }
}
