ghost use Rattle.std.specs.Prelude.{◌≡◌};

use mach_base::Peek;
use std::marker::Model;

/// Memory whose bytes are mapped from address 0 on. Contracts see it as their list.
#[derive(Drop)]
pub struct ByteList {
    bytes: Vec<u8>,
}

impl Model for ByteList {
    ghost use Rattle.std.specs.Prelude.{ℕ, List};

    ghost Value = { List ℕ };

    ghost view = { λ b. b.bytes.items };
}

impl ByteList {
    /// The memory of these bytes.
    pub fn new(bytes: Vec<u8>) -> ByteList
        ensures { result ≡ bytes.items }
    {
        ByteList { bytes }
    }
}

impl Peek for ByteList {
    ghost use Rattle.test_memory.specs.ByteList.{memory_of};

    ghost memory = { λ bytes. memory_of bytes };

    ghost Rest = { Unit {0} };

    ghost rest = { λ _. tt };

    fn peek(&self, addr: u64) -> Option<u8> {
        if addr < self.bytes.len() as u64 {
            return Some(self.bytes[addr as usize]);
        }
        None
    }

    fn poke(&mut self, addr: u64, byte: u8) -> bool {
        if addr < self.bytes.len() as u64 {
            self.bytes[addr as usize] = byte;
            return true;
        }
        false
    }

    fn is_text(&self, addr: u64) -> bool {
        addr % 4 == 0 && 0x1000 <= addr && addr < 0x1080
    }
}
