ghost use Rattle.std.specs.Prelude.{◌≡◌, ◌≤◌, IfSome};
ghost use Rattle.mach_base.specs.Bytes.{IsWidth};
ghost use Rattle.kdb_table.specs.Table.{width_of, spelled_width, count_within, spelled_count};

use mach_base::parse_number;

/// The bytes of a word of memory, by their digit.
fn width_of(digit: u8) -> u8
    ensures value { result ≡ width_of digit }
    ensures width { IsWidth result }
{
    match digit {
        b'1' => 1,
        b'2' => 2,
        b'4' => 4,
        _ => 8,
    }
}

/// The width that is spelled, after the two letters of the name.
#[tactic(auto, unfolding(crate::specs::Table::spelled_width))]
pub fn spelled_width(word: &[u8]) -> u8
    ensures value { result ≡ spelled_width word.now }
    ensures width { IsWidth result }
{
    match word.get(2) {
        Some(digit) => width_of(*digit),
        None => width_of(0),
    }
}

/// A count, where it is from 1 to the most that there may be.
pub fn count_within(count: u64, most: u32) -> Option<u32>
    ensures value { result ≡ count_within most count }
    ensures few { IfSome result (λ n. n ≤ most) }
{
    if count >= 1 && count <= u64::from(most) {
        Some(count as u32)
    } else {
        None
    }
}

/// The number that is spelled after the width and `c`, where it is from 1 to 256.
#[tactic(auto, unfolding(crate::specs::Table::spelled_count))]
pub fn spelled_count(word: &[u8]) -> Option<u32>
    ensures { result ≡ spelled_count word.now }
{
    match word {
        [_, _, _, _, digits @ ..] => match parse_number(digits, 10) {
            Ok(count) => count_within(count, 256),
            Err(_) => None,
        },
        _ => None,
    }
}
