ghost use Rattle.std.specs.Prelude.{◌≡◌, ◌++◌, OnOk, IfOk};
ghost use Rattle.kdb_table.specs.Help.{usage_line, usages_text, help_text};

use crate::commands::Entry;
use crate::table::{ENTRIES, row_of};
use mach_base::{OutOfMemory, Text, push_bytes, push_newline};
use std::alloc::Global;

/// Appends the usage of an entry, on a line.
#[tactic(auto, unfolding(crate::specs::Help::usage_line))]
fn push_usage(out: &mut Vec<u8>, entry: Entry) -> Result<(), OutOfMemory>
    ensures { OnOk result (out.new.items ≡ out.old.items ++ usage_line entry) }
{
    push_bytes(out, row_of(entry).usage())?;
    push_newline(out)?;
    Ok(())
}

/// The usages of these entries, each on a line.
fn usages(alloc: Global, entries: &[Entry]) -> Result<Text, OutOfMemory>
    ensures { IfOk result (λ text. text ≡ usages_text entries.now) }
{
    let mut out = Vec::new(alloc);
    for entry in entries {
        push_usage(&mut out, *entry)?;
    }
    Ok(Text::from_vec(out))
}

/// `help`.
#[tactic(auto, unfolding(crate::specs::Help::help_text, crate::specs::Table::entries))]
pub fn help_text(alloc: Global) -> Result<Text, OutOfMemory>
    ensures { IfOk result (λ text. text ≡ help_text) }
{
    usages(alloc, &ENTRIES)
}
