ghost use Rattle.std.specs.Prelude.{◌≡◌};
ghost use Rattle.std.specs.Option.{option_copied};
ghost use Rattle.std.specs.Ordering.{nat_cmp};
ghost use Rattle.std.specs.Cmp.Lexicographic.{slice_cmp};
ghost use Rattle.std.specs.FinMap.{find, get};
ghost use Rattle.io_edge.specs.Memory.{file_map, slot_bytes, slot_entries};

use crate::Named;
use crate::slot::Slot;

/// The bytes of the first file of a name.
pub fn bytes_of_name<'a>(files: &'a [Named], name: &[u8]) -> Option<&'a [u8]>
    ensures { option_copied result ≡ get (file_map files.now) name.now }
{
    for file in files {
        if name == file.name.as_bytes() {
            return Some(file.bytes.as_bytes());
        }
    }
    None
}

/// The bytes in the first slot of a name that holds any.
pub fn written_under<'a>(slots: &'a [Slot], name: &[u8]) -> Option<&'a [u8]>
    ensures { option_copied result ≡ find (slice_cmp nat_cmp) name.now (slot_entries slot_bytes slots.now) }
{
    for slot in slots {
        if name == slot.name.as_bytes() {
            if let Some(bytes) = &slot.bytes {
                return Some(bytes.as_bytes());
            }
        }
    }
    None
}
