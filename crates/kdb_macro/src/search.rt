ghost use Rattle.std.specs.Prelude.{◌≡◌, [], ◌∷◌, ◌++◌, IfOk, OnOk, OnErr};
ghost use Rattle.std.specs.List.{list_any};
ghost use Rattle.kdb_macro.specs.Macros.{is_named, named, begin_refusal};

use crate::MacroFault;
use crate::lines::Lines;
use kdb_env::is_name;
use mach_base::{MOST_MACROS, OutOfMemory};
use std::alloc::Global;

/// The number of the macro of this name.
pub fn named(macros: &[Lines], name: &[u8]) -> Option<usize>
    ensures { result ≡ named name.now macros.now }
{
    macros.iter().position(|lines| is_named(lines, name))
}

/// The first refusal of a new macro of this name.
#[tactic(auto, unfolding(crate::specs::Macros::begin_refusal))]
pub fn begin_refusal(macros: &[Lines], name: &[u8], reserved: bool) -> Option<MacroFault>
    ensures { result ≡ begin_refusal macros.now name.now reserved }
{
    if !is_name(name) {
        return Some(MacroFault::BadName);
    }
    if reserved {
        return Some(MacroFault::Reserved);
    }
    if has(macros, name) {
        return Some(MacroFault::Duplicate);
    }
    if macros.len() >= MOST_MACROS {
        return Some(MacroFault::Full);
    }
    None
}

/// Appends a macro of this name, without lines.
pub fn push(alloc: Global, macros: &mut Vec<Lines>, name: &[u8]) -> Result<(), OutOfMemory>
    ensures ok { OnOk result (macros.new.items ≡ macros.old.items ++ record { name = name.now; lines = [] } ∷ []) }
    ensures err { OnErr result (macros.new.items ≡ macros.old.items) }
{
    let lines = Lines::new(alloc, name)?;
    macros.push(lines)?;
    Ok(())
}

/// Equal macros.
pub fn copied(alloc: Global, macros: &[Lines]) -> Result<Vec<Lines>, OutOfMemory>
    ensures { IfOk result (λ copy. copy.items ≡ macros.now) }
{
    let mut copy = Vec::new(alloc);
    for lines in macros {
        copy.push(lines.try_copy(alloc)?)?;
    }
    Ok(copy)
}

fn has(macros: &[Lines], name: &[u8]) -> bool
    ensures { result ≡ list_any (is_named name.now) macros.now }
{
    macros.iter().any(|lines| is_named(lines, name))
}

fn is_named(lines: &Lines, name: &[u8]) -> bool
    ensures { result ≡ is_named name.now lines.now }
{
    lines.name() == name
}
