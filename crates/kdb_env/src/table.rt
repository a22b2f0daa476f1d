ghost use Rattle.std.specs.Prelude.{◌≡◌, Option, OnOk, OnErr};
ghost use Rattle.std.specs.Option.{option_copied};
ghost use Rattle.kdb_env.specs.Variables.{value_of, with_value};
ghost use Rattle.kdb_env.specs.Table.{pairs};

use indexmap::IndexMap;
use mach_base::OutOfMemory;
use std::alloc::Global;

/// The variables by name, in the order of insertion.
pub type Table = IndexMap<Vec<u8>, Vec<u8>>;

/// Gives a name a value: in its place, or after all others where it is new. A refusal leaves the table.
pub fn put(alloc: Global, table: &mut Table, name: &[u8], value: &[u8]) -> Result<(), OutOfMemory>
    ensures ok { OnOk result (pairs table.new ≡ with_value (pairs table.old) name.now value.now) }
    ensures err { OnErr result (pairs table.new ≡ pairs table.old) }
{
    let name = Vec::from_slice(alloc, name)?;
    let value = Vec::from_slice(alloc, value)?;
    table.insert(name, value)?;
    Ok(())
}

/// The value of a name.
pub fn value<'a>(table: &'a Table, name: &[u8]) -> Option<&'a [u8]>
    ensures { option_copied result ≡ value_of (pairs table.now) name.now }
{
    match table.get(name) {
        Some(value) => Some(value.as_slice()),
        None => None,
    }
}
