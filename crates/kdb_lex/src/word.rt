ghost use Rattle.std.specs.Prelude.{◌≡◌, ℕ, [], ◌∷◌, ◌++◌, List, Option, Some, None, unwrap_or, OnOk};
ghost use Rattle.std.specs.Option.{option_to_list};

use mach_base::{OutOfMemory, Text};
use std::alloc::Global;
use std::marker::Model;
use std::mem;

/// The word that is being read, if one has begun. Contracts see its bytes so far, or None.
#[derive(Drop)]
pub struct Word {
    bytes: Vec<u8>,
    begun: bool,
}

impl Model for Word {
    ghost use Rattle.std.specs.Prelude.{◌≡◌, ℕ, List, [], Option, Some, None, false, if◌then◌else◌};

    ghost Value = { Option (List ℕ) };

    ghost view = { λ w. if w.begun then Some w.bytes.items else None };

    ghost invariant = { λ w. w.begun ≡ false → w.bytes.items ≡ [] };
}

impl Word {
    pub fn new(alloc: Global) -> Word
        ensures { result ≡ None }
    {
        Word {
            bytes: Vec::new(alloc),
            begun: false,
        }
    }

    /// Here is a quote: a word has begun, if it hadn't.
    pub fn begin(&mut self)
        ensures { self.new ≡ Some (unwrap_or self.old []) }
    {
        self.begun = true;
    }

    pub fn push(&mut self, byte: u8) -> Result<(), OutOfMemory>
        ensures { OnOk result (self.new ≡ Some (unwrap_or self.old [] ++ byte ∷ [])) }
    {
        self.bytes.push(byte)?;
        self.begun = true;
        Ok(())
    }

    /// The word ends here: it goes after the others, if one had begun.
    pub fn end(&mut self, words: &mut Vec<Text>) -> Result<(), OutOfMemory>
        ensures words { OnOk result (words.new.items ≡ words.old.items ++ option_to_list self.old) }
        ensures none { OnOk result (self.new ≡ None) }
    {
        if self.begun {
            let alloc = *self.bytes.allocator();
            let bytes = mem::replace(&mut self.bytes, Vec::new(alloc));
            self.begun = false;
            words.push(Text::from_vec(bytes))?;
        }
        Ok(())
    }
}
