//! Words of text, and their bytes.
ghost use Rattle.std.specs.Prelude.{◌≡◌, ◌<◌, ◌^◌, Some, None, true};
ghost use Rattle.mach_base.specs.Bytes.{byte_of, is_mapped};
ghost use Rattle.mach_base.specs.Machine.{byte_at, is_text_word};
ghost use Rattle.std.specs.FinMap as finite;
ghost use Rattle.mem_map.specs.Access.{access_fault, after_store};
ghost use Rattle.mem_map.specs.Pages.{KeepsUnmarked};
ghost use Rattle.mem_map.specs.declared.rights.Access.TheVariants.{Fetch};
ghost use Rattle.bus_plant.specs.Saved.{with_byte};

use mem_map::Map;

/// The byte of a word that is `place` bytes above its lowest, 0 to 3.
pub fn byte_of(word: u32, place: u64) -> u8
    requires { place < 4 }
    ensures { result ≡ byte_of word place }
{
    word.to_le_bytes()[place as usize]
}

/// The word with another byte `place` bytes above its lowest, 0 to 3.
pub fn with_byte(word: u32, place: u64, byte: u8) -> u32
    requires { place < 4 }
    ensures { result ≡ with_byte word place byte }
{
    let mut bytes = word.to_le_bytes();
    bytes[place as usize] = byte;
    u32::from_le_bytes(bytes)
}

/// The byte at an address that is mapped.
fn mapped_byte(map: &Map, addr: u64) -> u8
    requires { is_mapped map.now.memory addr ≡ true }
    ensures byte { byte_at map.now.memory addr ≡ Some result }
    ensures low { addr < 2 ^ 63 }
{
    match map.peek(addr) {
        Some(byte) => byte,
        None => unreachable!(),
    }
}

/// Writes a byte at an address that is mapped.
pub fn put_byte(map: &mut Map, addr: u64, byte: u8)
    requires { is_mapped map.old.memory addr ≡ true }
    ensures memory { map.new.memory ≡ record map.old.memory { bytes = finite.insert map.old.memory.bytes addr byte } }
    ensures pages { KeepsUnmarked map.old map.new }
{
    if !map.poke(addr, byte) {
        unreachable!()
    }
}

/// The word of text at the address.
pub fn read_word(map: &Map, addr: u64) -> u32
    requires { access_fault map.now.memory Fetch addr 4 ≡ None }
    ensures { after_store map.now.memory addr 4 result ≡ map.now.memory }
{
    let lowest = mapped_byte(map, addr);
    let second = mapped_byte(map, addr + 1);
    let third = mapped_byte(map, addr + 2);
    let highest = mapped_byte(map, addr + 3);
    u32::from_le_bytes([lowest, second, third, highest])
}

/// Writes the word of text at the address.
pub fn write_word(map: &mut Map, addr: u64, word: u32)
    requires { access_fault map.old.memory Fetch addr 4 ≡ None }
    ensures memory { map.new.memory ≡ after_store map.old.memory addr 4 word }
    ensures pages { KeepsUnmarked map.old map.new }
{
    let _lowest = mapped_byte(map, addr);
    for place in 0..4 {
        put_byte(map, addr + place, byte_of(word, place));
    }
}
