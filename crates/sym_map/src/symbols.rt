ghost use Rattle.std.specs.Prelude.{◌≡◌, ◌<◌, [], IfSome, MatchOption};
ghost use Rattle.std.specs.Option.{option_map};
ghost use Rattle.sym_map.specs.Lookups.{addr_of, near_of, AreBelow};
ghost use Rattle.sym_map.specs.Limits.{IsSymbolName, AreSymbols};
ghost use Rattle.sym_map.specs.Reading.{Gives, symbols_of};

use crate::MapFault;
use crate::index::{ByAddr, ByName, floor, index_addrs, index_names};
use crate::reading::read_symbols;
use crate::symbol::Symbol;
use std::alloc::Global;
use std::collections::BTreeMap;
use std::marker::Model;

/// From this offset on an address isn't near a symbol.
const OFFSET_LIMIT: u64 = 0x10_0000;

/// The symbols of a map file. Contracts see them as their list, in the order of the file's lines.
#[derive(Debug, Drop)]
pub struct Symbols {
    symbols: Vec<Symbol>,
    by_name: ByName,
    by_addr: ByAddr,
}

/// A symbol that an address is near.
#[derive(Clone, Copy, Debug)]
pub struct Near<'a> {
    /// The bytes of its name, 1 to 255 of them, none a blank or a tab.
    pub name: &'a [u8],
    /// How far the address is above the symbol's, below 0x100000.
    pub offset: u64,
}

impl Model for Symbols {
    ghost use Rattle.std.specs.Prelude.{List};
    ghost use Rattle.mach_base.specs.Machine.{Symbol as SymbolRecord};
    ghost use Rattle.sym_map.specs.Index.{AreIndexed};
    ghost use Rattle.sym_map.specs.Limits.{AreSymbols};

    ghost Value = { List SymbolRecord };

    ghost view = { λ s. s.symbols.items };

    ghost invariant = { λ s. AreIndexed s.symbols.items s.by_name s.by_addr × AreSymbols s.symbols.items };
}

impl Symbols {
    /// No symbols, as an empty map file has. It takes no memory.
    pub fn empty(alloc: Global) -> Symbols
        ensures { result ≡ [] }
    {
        Symbols {
            symbols: Vec::new(alloc),
            by_name: BTreeMap::new(alloc),
            by_addr: BTreeMap::new(alloc),
        }
    }

    /// Reads a map file. `Bad` names the first faulty line, counted from 1; `TooLarge` comes for a file whose lines are
    /// all right, with its number of symbols, if that is above `MOST_SYMBOLS`. docs/formats.md has the format.
    #[tactic(auto, using(crate::proofs::Words::symbols_keep_limits))]
    pub fn read(alloc: Global, text: &[u8]) -> Result<Symbols, MapFault>
        ensures { Gives result (symbols_of text.now) }
    {
        let symbols = read_symbols(alloc, text)?;
        let by_name = index_names(alloc, symbols.as_slice())?;
        let by_addr = index_addrs(alloc, symbols.as_slice())?;
        Ok(Symbols {
            symbols,
            by_name,
            by_addr,
        })
    }

    /// There are never too many symbols, and each name has 1 to 255 bytes, none a blank or a tab. The call does nothing;
    /// its contract says so to callers.
    pub fn keeps_limits(&self)
        ensures { AreSymbols self.now }
    {
        let _symbols = &self.symbols;
    }

    /// The address of a name, that of its first line; None exactly where no line has it.
    pub fn addr_of(&self, name: &[u8]) -> Option<u64>
        ensures { result ≡ addr_of self.now name.now }
    {
        self.by_name.get(name).copied()
    }

    /// The symbol with the greatest address that isn't above this one, the first line on a tie; None exactly where there
    /// is none less than 0x100000 below.
    #[tactic(auto, unfolding(crate::specs::Lookups::near_of))]
    pub fn near(&self, addr: u64) -> Option<Near<'_>>
        ensures value { option_map (λ near. (near.name.now, near.offset)) result ≡ near_of self.now addr }
        ensures nearest { MatchOption result (AreBelow addr 1048576 self.now) (λ near. AreBelow addr near.offset self.now) }
        ensures offset { IfSome result (λ near. near.offset < 1048576) }
        ensures name { IfSome result (λ near. IsSymbolName near.name.now) }
    {
        let Some((at, number)) = floor(&self.by_addr, addr) else {
            return None;
        };
        let offset = addr - at;
        if offset >= OFFSET_LIMIT {
            return None;
        }
        let symbol = &self.symbols[number];
        Some(Near {
            name: symbol.name.as_slice(),
            offset,
        })
    }
}
