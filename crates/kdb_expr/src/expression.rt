ghost use Rattle.std.specs.Prelude.{◌≡◌, ◌+◌, ◌⊎◌, ◌<◌, Some, None, take, drop, length, slice_index, MatchOption};
ghost use Rattle.kdb_expr.specs.Expression.{is_sign, sign_place, atom_value, value_of, found_or, register_value, variable_number, symbol_value, number_or, refusal};
ghost use Rattle.mach_base.specs.Number.{number_of};

use crate::EvalFault;
use mach_base::{Names, parse_number};

/// The value of a word, modulo 2^64. A refusal of the left atom comes first.
#[tactic(auto, unfolding(crate::specs::Expression::value_of))]
pub fn eval<N: Names>(names: &N, word: &[u8]) -> Result<u64, EvalFault>
    ensures { result ≡ value_of (record {
      symbols = N.symbols names.now;
      registers = N.registers names.now;
      variables = N.variables names.now;
      radix = N.base names.now;
    }) word.now }
{
    let Some(place) = sign_place(word) else {
        return atom(names, word);
    };
    let left = atom(names, &word[..place + 1])?;
    let right = atom(names, &word[place + 2..])?;
    if word[place + 1] == b'+' {
        Ok(left.wrapping_add(right))
    } else {
        Ok(left.wrapping_sub(right))
    }
}

fn is_sign(byte: u8) -> bool
    ensures { result ≡ is_sign byte }
{
    byte == b'+' || byte == b'-'
}

/// The place of the first `+` or `-` after the first byte, counted from the second byte on.
#[tactic(auto, using(crate::proofs::Places::sign_place_within))]
fn sign_place(word: &[u8]) -> Option<usize>
    ensures value { result ≡ sign_place word.now }
    ensures within { MatchOption result (result ≡ None) (λ place. place + 1 < length word.now) }
{
    let (_, rest) = word.split_first()?;
    rest.iter().position(|byte| is_sign(*byte))
}

#[tactic(auto, unfolding(crate::specs::Expression::atom_value))]
fn atom<N: Names>(names: &N, word: &[u8]) -> Result<u64, EvalFault>
    ensures { result ≡ atom_value (record {
      symbols = N.symbols names.now;
      registers = N.registers names.now;
      variables = N.variables names.now;
      radix = N.base names.now;
    }) word.now }
{
    match word {
        [] => Err(EvalFault::BadNumber),
        [b'%', name @ ..] => register(names, name).ok_or(EvalFault::BadReg),
        [b'$', name @ ..] => variable(names, name),
        [first, ..] => match symbol(names, word) {
            Some(value) => Ok(value),
            None => number(word, names.radix(), refusal(*first)),
        },
    }
}

fn register<N: Names>(names: &N, name: &[u8]) -> Option<u64>
    ensures { result ≡ register_value (N.registers names.now) name.now }
{
    match name {
        [b'%', ..] => None,
        name => names.register(name),
    }
}

fn variable<N: Names>(names: &N, name: &[u8]) -> Result<u64, EvalFault>
    ensures { result ≡ variable_number (N.variables names.now name.now) }
{
    match names.variable(name) {
        Some(text) => number(text, 10, EvalFault::BadNumber),
        None => Err(EvalFault::NotFound),
    }
}

fn symbol<N: Names>(names: &N, name: &[u8]) -> Option<u64>
    ensures { result ≡ symbol_value (N.symbols names.now) name.now }
{
    match sign_place(name) {
        Some(_) => None,
        None => names.symbol(name),
    }
}

fn refusal(first: u8) -> EvalFault
    ensures { result ≡ refusal first }
{
    if first.is_ascii_digit() {
        EvalFault::BadNumber
    } else {
        EvalFault::NotFound
    }
}

fn number(text: &[u8], radix: u8, fault: EvalFault) -> Result<u64, EvalFault>
    requires { (radix ≡ 8) ⊎ (radix ≡ 10) ⊎ (radix ≡ 16) }
    ensures { result ≡ number_or fault (number_of radix text.now) }
{
    match parse_number(text, radix) {
        Ok(value) => Ok(value),
        Err(_) => Err(fault),
    }
}
