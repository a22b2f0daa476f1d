ghost use Rattle.std.specs.Prelude.{◌≡◌, ◌<◌, ◌≤◌, ◌^◌, [], IfOk, length, slice_index_or};
ghost use Rattle.std.specs.List.{list_all};
ghost use Rattle.mach_base.specs.Lines.{lines_of};
ghost use Rattle.mach_base.specs.declared.limits.TheConstants.{MOST_LINES};
ghost use Rattle.atom_mach.specs.Script.{is_script_byte, is_script_line, first_bad_line, checked_script, Answers};

use mach_base::{LINE_BYTES, MOST_LINES, OutOfMemory, Text, What, next_line};
use std::alloc::Global;
use std::marker::Model;

/// What is wrong with a script.
#[derive(Clone, Copy, Debug, PartialEq, Eq)]
pub enum ScriptFault {
    /// This line, counted from 1, has more than 200 bytes or a byte that may not be in a script; it is the first such line.
    Bad { line: u64 },
    /// The script has too many lines; `size` is their number.
    TooLarge { what: What, size: u64 },
    OutOfMemory,
}

impl From<OutOfMemory> for ScriptFault {
    ghost use Rattle.std.specs.Prelude.{◌≡◌};
    ghost use Rattle.atom_mach.specs.declared.script.ScriptFault.TheVariants.{OutOfMemory as NoMemory};

    ghost from_gives = { λ _ e. e ≡ NoMemory };

    fn from(_error: OutOfMemory) -> ScriptFault {
        ScriptFault::OutOfMemory
    }
}

/// A script that is right, by its lines without their ends: at most 4,096 of them, each of at most 200 bytes
/// (docs/formats.md, "Scripts"). `check_script` alone makes one.
#[derive(Debug, Drop)]
pub struct Script {
    lines: Vec<Text>,
}

impl Model for Script {
    ghost use Rattle.std.specs.Prelude.{ℕ, List};
    ghost use Rattle.atom_mach.specs.Script.{IsScript};

    ghost Value = { List (List ℕ) };

    ghost view = { λ s. s.lines.items };

    ghost invariant = { λ s. IsScript s.lines.items };
}

impl Script {
    /// The number of lines.
    pub fn len(&self) -> usize
        ensures lines { result ≡ length self.now }
        ensures few { result ≤ MOST_LINES }
    {
        self.lines.len()
    }

    /// The line of this number, from 0, without its end.
    pub fn line(&self, i: usize) -> &[u8]
        requires { i < length self.now }
        ensures { result.now ≡ slice_index_or self.now i [] }
    {
        self.lines[i].as_bytes()
    }
}

/// The lines of a text without their ends (docs/formats.md, "Lines").
fn lines_of(alloc: Global, text: &[u8]) -> Result<Vec<Text>, OutOfMemory>
    ensures { IfOk result (λ lines. lines.items ≡ lines_of text.now) }
{
    let mut lines = Vec::new(alloc);
    let mut left = text;
    while let Some((line, rest)) = next_line(left) {
        lines.push(Text::from_vec(Vec::from_slice(alloc, line)?))?;
        left = rest;
    }
    Ok(lines)
}

fn is_script_byte(byte: u8) -> bool
    ensures { result ≡ is_script_byte byte }
{
    byte == b'\t' || (byte >= b' ' && byte != 0x7f)
}

fn is_script_line(line: &[u8]) -> bool
    ensures { result ≡ is_script_line line.now }
{
    line.len() <= LINE_BYTES && has_script_bytes(line)
}

fn has_script_bytes(line: &[u8]) -> bool
    ensures { result ≡ list_all is_script_byte line.now }
{
    line.iter().all(|byte| is_script_byte(*byte))
}

/// The number of the first line that isn't right, from 1.
fn first_bad_line(lines: &[Text]) -> Option<u64>
    requires { length lines.now < 2 ^ 63 }
    ensures { result ≡ first_bad_line 1 lines.now }
{
    for (i, line) in lines.iter().enumerate() {
        if !is_script_line(line.as_bytes()) {
            return Some(i as u64 + 1);
        }
    }
    None
}

/// Reads a script: each line has at most 200 bytes, each a tab or from 0x20 on but for 0x7f, and there are at most
/// 4,096 lines. The first faulty line comes first (docs/formats.md, "Scripts").
#[tactic(auto, unfolding(crate::specs::Script::checked_script))]
pub fn check_script(alloc: Global, script: &[u8]) -> Result<Script, ScriptFault>
    ensures { Answers result (checked_script script.now) }
{
    let lines = lines_of(alloc, script)?;
    if let Some(line) = first_bad_line(lines.as_slice()) {
        return Err(ScriptFault::Bad { line });
    }
    if lines.len() > MOST_LINES {
        return Err(ScriptFault::TooLarge {
            what: What::Lines,
            size: lines.len() as u64,
        });
    }
    Ok(Script { lines })
}
