ghost use Rattle.std.specs.Prelude.{◌≡◌, ◌⊎◌, ◌≤◌, true, Ok, Err, IfOk, OnOk, OnErr, MatchOption, IsOkUnless, slice_get, codes};
ghost use Rattle.std.specs.Option.{option_copied, option_map};
ghost use Rattle.kdb_env.specs.Variables.{value_of, with_value, defaults, refusal_of, number_at, is_radix, is_width, is_count, AreVariables};
ghost use Rattle.mach_base.specs.Number.{number_of};

use crate::EnvFault;
use crate::checks::{is_name, value_fault};
use crate::table::{Table, put, value};
use indexmap::IndexMap;
use mach_base::{MOST_VARIABLES, OutOfMemory, parse_number};
use std::alloc::Global;
use std::marker::Model;

/// The variables, in the order in which they were first set.
#[derive(Debug, Drop)]
pub struct Env {
    alloc: Global,
    table: Table,
}

/// A variable: its name and its value, as bytes.
#[derive(Clone, Copy, Debug)]
pub struct Pair<'a> {
    pub name: &'a [u8],
    pub value: &'a [u8],
}

impl Model for Env {
    ghost use Rattle.std.specs.Prelude.{ℕ, List};
    ghost use Rattle.kdb_env.specs.Variables.{AreVariables};
    ghost use Rattle.kdb_env.specs.Table.{pairs};

    ghost Value = { List (List ℕ × List ℕ) };

    ghost view = { λ e. pairs e.table };

    ghost invariant = { λ e. AreVariables (pairs e.table) };
}

impl Env {
    /// PROMPT, RADIX, MDCOUNT, BYTESPERWORD and LINES, with their values at the start.
    pub fn new(alloc: Global) -> Result<Env, OutOfMemory>
        ensures { IfOk result (λ env. env ≡ defaults) }
    {
        let mut table = IndexMap::new(alloc);
        put(alloc, &mut table, b"PROMPT", b"[%d]kdb> ")?;
        put(alloc, &mut table, b"RADIX", b"16")?;
        put(alloc, &mut table, b"MDCOUNT", b"8")?;
        put(alloc, &mut table, b"BYTESPERWORD", b"8")?;
        put(alloc, &mut table, b"LINES", b"24")?;
        Ok(Env { alloc, table })
    }

    /// An equal value.
    pub fn try_copy(&self, alloc: Global) -> Result<Env, OutOfMemory>
        ensures { IfOk result (λ copy. copy ≡ self.now) }
    {
        let table = self.table.clone()?;
        Ok(Env { alloc, table })
    }

    /// The value of a name; None exactly where it isn't set.
    pub fn get(&self, name: &[u8]) -> Option<&[u8]>
        ensures { option_copied result ≡ value_of self.now name.now }
    {
        value(&self.table, name)
    }

    /// The variable at a place, from 0, in the order in which they were first set; None exactly after the last one.
    pub fn at(&self, i: usize) -> Option<Pair<'_>>
        ensures { option_map (λ pair. (pair.name.now, pair.value.now)) result ≡ slice_get self.now i }
    {
        match self.table.get_index(i) {
            Some((name, value)) => Some(Pair {
                name: name.as_slice(),
                value: value.as_slice(),
            }),
            None => None,
        }
    }

    /// The radix of numbers in expressions: 8, 10 or 16, as RADIX says.
    pub fn radix(&self) -> u8
        ensures value { number_at self.now (codes "RADIX") ≡ Ok result }
        ensures known { (result ≡ 8) ⊎ (result ≡ 10) ⊎ (result ≡ 16) }
    {
        match value(&self.table, b"RADIX") {
            Some(text) => radix_of(text),
            None => unreachable!(),
        }
    }

    /// The bytes of a word that `md` shows: 1, 2, 4 or 8, as BYTESPERWORD says.
    pub fn width(&self) -> u8
        ensures value { number_at self.now (codes "BYTESPERWORD") ≡ Ok result }
        ensures known { (result ≡ 1) ⊎ (result ≡ 2) ⊎ (result ≡ 4) ⊎ (result ≡ 8) }
    {
        match value(&self.table, b"BYTESPERWORD") {
            Some(text) => width_of(text),
            None => unreachable!(),
        }
    }

    /// The lines that `md` shows: 1 to 256, as MDCOUNT says.
    pub fn count(&self) -> u32
        ensures value { number_at self.now (codes "MDCOUNT") ≡ Ok result }
        ensures low { 1 ≤ result }
        ensures high { result ≤ 256 }
    {
        match value(&self.table, b"MDCOUNT") {
            Some(text) => count_of(text),
            None => unreachable!(),
        }
    }

    /// Sets a variable: in its place where the name is set already, else after all others. A refusal changes nothing.
    pub fn set(&mut self, name: &[u8], value: &[u8]) -> Result<(), EnvFault>
        ensures refused { MatchOption (refusal_of self.old name.now value.now) (IsOkUnless result EnvFault.OutOfMemory) (λ fault. result ≡ Err fault) }
        ensures ok { OnOk result (self.new ≡ with_value self.old name.now value.now) }
        ensures err { OnErr result (self.new ≡ self.old) }
    {
        match self.refusal(name, value) {
            Some(fault) => return Err(fault),
            None => (),
        }
        put(self.alloc, &mut self.table, name, value)?;
        Ok(())
    }

    /// There are never too many variables, their names are names and differ, and the checked ones have values that they
    /// take. The call does nothing; its contract says so to callers.
    pub fn keeps_limits(&self)
        ensures { AreVariables self.now }
    {
        let _table = &self.table;
    }

    fn refusal(&self, name: &[u8], new_value: &[u8]) -> Option<EnvFault>
        ensures { result ≡ refusal_of self.now name.now new_value.now }
    {
        if !is_name(name) {
            return Some(EnvFault::BadName);
        }
        let fault = value_fault(name, new_value);
        if fault.is_some() {
            return fault;
        }
        if value(&self.table, name).is_none() && self.table.len() >= MOST_VARIABLES {
            return Some(EnvFault::Full);
        }
        None
    }
}

fn radix_of(text: &[u8]) -> u8
    requires { is_radix text.now ≡ true }
    ensures value { number_of 10 text.now ≡ Ok result }
    ensures known { (result ≡ 8) ⊎ (result ≡ 10) ⊎ (result ≡ 16) }
{
    if text == b"8".as_slice() {
        8
    } else if text == b"10".as_slice() {
        10
    } else {
        16
    }
}

fn width_of(text: &[u8]) -> u8
    requires { is_width text.now ≡ true }
    ensures value { number_of 10 text.now ≡ Ok result }
    ensures known { (result ≡ 1) ⊎ (result ≡ 2) ⊎ (result ≡ 4) ⊎ (result ≡ 8) }
{
    if text == b"1".as_slice() {
        1
    } else if text == b"2".as_slice() {
        2
    } else if text == b"4".as_slice() {
        4
    } else {
        8
    }
}

fn count_of(text: &[u8]) -> u32
    requires { is_count text.now ≡ true }
    ensures value { number_of 10 text.now ≡ Ok result }
    ensures low { 1 ≤ result }
    ensures high { result ≤ 256 }
{
    match parse_number(text, 10) {
        Ok(count) => count as u32,
        Err(_) => unreachable!(),
    }
}
