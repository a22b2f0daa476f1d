ghost use Rattle.std.specs.Prelude.{◌≡◌, ℕ, ◌<◌, ◌≤◌, ◌^◌, ◌≢◌, ◌↔◌, ◌⊎◌, List, Option, None, false, IsTrue, IsNone};
ghost use Rattle.std.specs.Bool.{OnTrue, OnFalse};
ghost use Rattle.std.specs.Option.{option_copied};
ghost use Rattle.std.specs.FinMap as map;
ghost use Rattle.mach_base.specs.Machine.{Memory, byte_at, is_text_word};

/// What an expression can name: symbols, registers of the current processor and variables, and the radix in which
/// its numbers are read. Names and values are bytes.
pub trait Names {
    /// The address of the symbol of a name, if there is one.
    ghost symbols: { Self → List ℕ → Option ℕ };

    /// The value of the register of a name, if it is one.
    ghost registers: { Self → List ℕ → Option ℕ };

    /// The value of the variable of a name, if there is one.
    ghost variables: { Self → List ℕ → Option (List ℕ) };

    /// 8, 10 or 16.
    ghost base: { Self → ℕ };

    /// The address of that symbol; None exactly where there is none of that name.
    fn symbol(&self, name: &[u8]) -> Option<u64>
        ensures { result ≡ symbols self.now name.now };

    /// The value of that register, named with or without a leading `%`.
    fn register(&self, name: &[u8]) -> Option<u64>
        ensures { result ≡ registers self.now name.now };

    /// The value of that variable, as it was set.
    fn variable(&self, name: &[u8]) -> Option<&[u8]>
        ensures { option_copied result ≡ variables self.now name.now };

    /// The radix in which numbers are read.
    fn radix(&self) -> u8
        ensures value { result ≡ base self.now }
        ensures known { (result ≡ 8) ⊎ (result ≡ 10) ⊎ (result ≡ 16) };
}

/// Memory as the debugger sees it. No address from 2^63 on is mapped.
pub trait Peek {
    /// The segments, and each mapped address with its byte.
    ghost memory: { Self → Memory };

    /// What else the value holds; no write changes it.
    ghost Rest: { Type 0 };

    ghost rest: { Self → Rest };

    /// The byte at an address; None exactly where it isn't mapped.
    fn peek(&self, addr: u64) -> Option<u8>
        ensures value { result ≡ byte_at (memory self.now) addr }
        ensures mapped { 2 ^ 63 ≤ addr → IsNone result };

    /// Writes one byte. It answers false, and changes nothing, exactly where the address isn't mapped.
    fn poke(&mut self, addr: u64, byte: u8) -> bool
        ensures mapped { IsTrue result ↔ (byte_at (memory self.old) addr ≢ None) }
        ensures written { OnTrue result (memory self.new ≡ record (memory self.old) { bytes = map.insert (memory self.old).bytes addr byte }) }
        ensures unmapped { OnFalse result (memory self.new ≡ memory self.old) }
        ensures high { 2 ^ 63 ≤ addr → result ≡ false }
        ensures rest { rest self.new ≡ rest self.old };

    /// Whether the address is a multiple of 4 in a text segment.
    fn is_text(&self, addr: u64) -> bool
        ensures { result ≡ is_text_word (memory self.now) addr };
}
