ghost use Rattle.std.specs.Prelude.{◌≡◌, IfOk};

use mach_base::{OutOfMemory, Text};
use std::alloc::Global;
use std::marker::Model;

/// A macro: its name, and its lines in order.
#[derive(Debug, Drop)]
pub struct Lines {
    name: Text,
    lines: Vec<Text>,
}

impl Model for Lines {
    ghost use Rattle.mach_base.specs.Machine.{Macro};

    ghost Value = { Macro };

    ghost view = { λ m. record { name = m.name; lines = m.lines.items } };
}

impl Lines {
    ghost use Rattle.std.specs.Prelude.{[], OnOk, OnErr, length, slice_get};
    ghost use Rattle.std.specs.Option.{option_copied};
    ghost use Rattle.kdb_macro.specs.Macros.{longer};

    /// A macro of this name, without lines.
    pub fn new(alloc: Global, name: &[u8]) -> Result<Lines, OutOfMemory>
        ensures { IfOk result (λ m. m ≡ record { name = name.now; lines = [] }) }
    {
        let name = text(alloc, name)?;
        Ok(Lines {
            name,
            lines: Vec::new(alloc),
        })
    }

    /// An equal macro.
    pub fn try_copy(&self, alloc: Global) -> Result<Lines, OutOfMemory>
        ensures { IfOk result (λ copy. copy ≡ self.now) }
    {
        let name = text(alloc, self.name.as_bytes())?;
        let lines = copied(alloc, self.lines.as_slice())?;
        Ok(Lines { name, lines })
    }

    /// Its name.
    pub fn name(&self) -> &[u8]
        ensures { result.now ≡ self.now.name }
    {
        self.name.as_bytes()
    }

    /// The number of its lines.
    pub fn len(&self) -> usize
        ensures { result ≡ length self.now.lines }
    {
        self.lines.len()
    }

    /// A line, from 0.
    pub fn line(&self, i: usize) -> Option<&[u8]>
        ensures { option_copied result ≡ slice_get self.now.lines i }
    {
        match self.lines.get(i) {
            Some(line) => Some(line.as_bytes()),
            None => None,
        }
    }

    /// Appends a line. A refusal changes nothing.
    pub fn push(&mut self, alloc: Global, line: &[u8]) -> Result<(), OutOfMemory>
        ensures ok { OnOk result (self.new ≡ longer self.old line.now) }
        ensures err { OnErr result (self.new ≡ self.old) }
    {
        let line = text(alloc, line)?;
        self.lines.push(line)?;
        Ok(())
    }
}

/// The bytes as a text of their own.
fn text(alloc: Global, bytes: &[u8]) -> Result<Text, OutOfMemory>
    ensures { IfOk result (λ text. text ≡ bytes.now) }
{
    Ok(Text::from_vec(Vec::from_slice(alloc, bytes)?))
}

fn copied(alloc: Global, lines: &[Text]) -> Result<Vec<Text>, OutOfMemory>
    ensures { IfOk result (λ copy. copy.items ≡ lines.now) }
{
    let mut copy = Vec::new(alloc);
    for line in lines {
        copy.push(text(alloc, line.as_bytes())?)?;
    }
    Ok(copy)
}
