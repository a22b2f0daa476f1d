ghost use Rattle.std.specs.Prelude.{◌≡◌, IfOk};

use crate::MacroFault;
use crate::lines::Lines;
use crate::search::{begin_refusal, copied, named, push};
use mach_base::{MACRO_LINES, OutOfMemory};
use std::alloc::Global;
use std::marker::Model;

/// The macros in the order in which they were begun, and whether the last one is being defined.
#[derive(Debug, Drop)]
pub struct Macros {
    alloc: Global,
    macros: Vec<Lines>,
    defining: bool,
}

impl Model for Macros {
    ghost use Rattle.kdb_macro.specs.Macros.{MacroList, AreMacros};

    ghost Value = { MacroList };

    ghost view = { λ m. record { macros = m.macros.items; defining = m.defining } };

    ghost invariant = { λ m. AreMacros (record { macros = m.macros.items; defining = m.defining }) };
}

impl Macros {
    ghost use Rattle.std.specs.Prelude.{[], true, false, Err, OnOk, OnErr, MatchOption, IsOkUnless, slice_get};
    ghost use Rattle.std.specs.Option.{option_copied};
    ghost use Rattle.kdb_macro.specs.Macros.{AreMacros, named, line_in, begin_refusal, begun, add_refusal, with_line};

    /// No macros.
    pub fn new(alloc: Global) -> Result<Macros, OutOfMemory>
        ensures { IfOk result (λ macros. macros ≡ record { macros = []; defining = false }) }
    {
        Ok(Macros {
            alloc,
            macros: Vec::new(alloc),
            defining: false,
        })
    }

    /// An equal value.
    pub fn try_copy(&self, alloc: Global) -> Result<Macros, OutOfMemory>
        ensures { IfOk result (λ copy. copy ≡ self.now) }
    {
        let macros = copied(alloc, self.macros.as_slice())?;
        Ok(Macros {
            alloc,
            macros,
            defining: self.defining,
        })
    }

    /// Whether a macro is being defined.
    pub fn defining(&self) -> bool
        ensures { result ≡ self.now.defining }
    {
        self.defining
    }

    /// The number of the macro of this name, from 0.
    pub fn find(&self, name: &[u8]) -> Option<usize>
        ensures { result ≡ named name.now self.now.macros }
    {
        named(self.macros.as_slice(), name)
    }

    /// A line of a macro, both by their numbers from 0; None exactly where there is no such macro or line.
    pub fn line_at(&self, macro_no: usize, i: usize) -> Option<&[u8]>
        ensures { option_copied result ≡ line_in (slice_get self.now.macros macro_no) i }
    {
        match self.macros.get(macro_no) {
            Some(lines) => lines.line(i),
            None => None,
        }
    }

    /// Begins a macro; `reserved` says that a command has the name. A refusal changes nothing.
    pub fn begin(&mut self, name: &[u8], reserved: bool) -> Result<(), MacroFault>
        requires { self.old.defining ≡ false }
        ensures refused { MatchOption (begin_refusal self.old.macros name.now reserved) (IsOkUnless result MacroFault.OutOfMemory) (λ fault. result ≡ Err fault) }
        ensures ok { OnOk result (self.new ≡ begun self.old name.now) }
        ensures err { OnErr result (self.new ≡ self.old) }
    {
        match begin_refusal(self.macros.as_slice(), name, reserved) {
            Some(fault) => return Err(fault),
            None => (),
        }
        push(self.alloc, &mut self.macros, name)?;
        self.defining = true;
        Ok(())
    }

    /// Appends a line to the macro that is being defined. Full comes exactly where it has `MACRO_LINES` of them. A refusal changes nothing.
    pub fn add(&mut self, line: &[u8]) -> Result<(), MacroFault>
        requires { self.old.defining ≡ true }
        ensures refused { MatchOption (add_refusal self.old.macros) (IsOkUnless result MacroFault.OutOfMemory) (λ fault. result ≡ Err fault) }
        ensures ok { OnOk result (self.new ≡ with_line self.old line.now) }
        ensures err { OnErr result (self.new ≡ self.old) }
    {
        let last = self.macros.len() - 1;
        if self.macros[last].len() >= MACRO_LINES {
            return Err(MacroFault::Full);
        }
        self.macros[last].push(self.alloc, line)?;
        Ok(())
    }

    /// There are never too many macros, and none has too many lines. The call does nothing; its contract says so to
    /// callers.
    pub fn keeps_limits(&self)
        ensures { AreMacros self.now }
    {
        let _macros = &self.macros;
    }

    /// The macro that was being defined is whole.
    pub fn end(&mut self)
        requires { self.old.defining ≡ true }
        ensures { self.new ≡ record self.old { defining = false } }
    {
        self.defining = false;
    }
}
