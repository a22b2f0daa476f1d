ghost use Rattle.std.specs.Prelude.{◌≡◌, ◌==◌, ◌<◌, ◌++◌, length, position, OnOk, MatchOption, MatchResult, IfOk, Ok, None};
ghost use Rattle.kdb_table.specs.Refused.{Refuses};
ghost use Rattle.kdb_table.specs.Words.{word_at};
ghost use Rattle.kdb_view.specs.Variables.{variable_line, first_lines, variables_text, assignment_of, env_diagnostic, variables_after};

use kdb_env::{Env, EnvFault};
use kdb_table::{Diagnostic, Refusal, word_at};
use mach_base::{OutOfMemory, Text, push_bytes, push_newline};
use std::alloc::Global;
use std::marker::Model;

/// A name, and the value that it is to have.
#[derive(Debug, Drop)]
pub struct Assignment<'a> {
    name: &'a [u8],
    value: &'a [u8],
}

impl<'a> Model for Assignment<'a> {
    ghost use Rattle.std.specs.Prelude.{ℕ, List};

    ghost Value = { List ℕ × List ℕ };

    ghost view = { λ a. (a.name.now, a.value.now) };
}

/// Appends the line of a variable.
#[tactic(auto, unfolding(crate::specs::Variables::variable_line))]
fn push_variable(out: &mut Vec<u8>, name: &[u8], value: &[u8]) -> Result<(), OutOfMemory>
    ensures { OnOk result (out.new.items ≡ out.old.items ++ variable_line (name.now, value.now)) }
{
    push_bytes(out, name)?;
    push_bytes(out, b"=")?;
    push_bytes(out, value)?;
    push_newline(out)?;
    Ok(())
}

/// `env`: a line for each variable, in order.
#[tactic(auto, unfolding(crate::specs::Variables::variables_text))]
pub fn env(alloc: Global, env: &Env) -> Result<Text, OutOfMemory>
    ensures { IfOk result (λ text. text ≡ variables_text env.now) }
{
    let mut out = Vec::new(alloc);
    let mut place = 0;
    while let Some(pair) = env.at(place) {
        push_variable(&mut out, pair.name, pair.value)?;
        place += 1;
    }
    Ok(Text::from_vec(out))
}

/// The place of the first `=`.
#[tactic(auto, using(crate::proofs::Places::position_within))]
fn equals_place(word: &[u8]) -> Option<usize>
    ensures value { result ≡ position (λ b. b == 61) word.now }
    ensures within { MatchOption result (result ≡ None) (λ place. place < length word.now) }
{
    word.iter().position(|byte| *byte == b'=')
}

/// The name before the first `=` of a word, and the value after it.
pub fn assignment_of(word: &[u8]) -> Result<Assignment<'_>, Diagnostic>
    ensures { result ≡ assignment_of word.now }
{
    match equals_place(word) {
        None => Err(Diagnostic::WrongArguments),
        Some(place) => {
            if place == 0 {
                return Err(Diagnostic::WrongArguments);
            }
            Ok(Assignment {
                name: &word[..place],
                value: &word[place + 1..],
            })
        }
    }
}

/// The name and the value in the second and the third word.
pub fn two_words(words: &[Text]) -> Assignment<'_>
    ensures { result ≡ (word_at words.now 1, word_at words.now 2) }
{
    Assignment {
        name: word_at(words, 1),
        value: word_at(words, 2),
    }
}

/// The diagnostic of a variable that isn't set.
fn env_diagnostic(fault: EnvFault) -> Diagnostic
    ensures { result ≡ env_diagnostic fault }
{
    match fault {
        EnvFault::BadName => Diagnostic::BadName(1),
        EnvFault::BadRadix => Diagnostic::BadRadix,
        EnvFault::BadWidth => Diagnostic::BadWidth,
        EnvFault::BadCount => Diagnostic::BadCount,
        EnvFault::Full | EnvFault::OutOfMemory => Diagnostic::TooManyVariables,
    }
}

/// `set NAME VALUE`.
#[tactic(auto, unfolding(crate::specs::Variables::variables_after))]
pub fn set(env: &mut Env, wanted: Assignment<'_>) -> Result<(), Refusal>
    ensures { MatchResult result (λ _. variables_after env.old wanted.entry ≡ Ok env.new) (λ refusal. Refuses refusal (variables_after env.old wanted.entry) × (env.new ≡ env.old)) }
{
    match env.set(wanted.name, wanted.value) {
        Ok(()) => Ok(()),
        Err(EnvFault::OutOfMemory) => Err(Refusal::OutOfMemory),
        Err(fault) => Err(Refusal::Diagnosed(env_diagnostic(fault))),
    }
}
