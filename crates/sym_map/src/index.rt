//! The indexes of a list of symbols: by name and by address.

ghost use Rattle.std.specs.Prelude.{◌≡◌, ℕ, ◌≤◌, None, Some, IfOk, MatchOption, IsSome};
ghost use Rattle.std.specs.BTreeMap.{get};
ghost use Rattle.std.specs.Ordering.{nat_cmp};
ghost use Rattle.sym_map.specs.Index.{IndexesNames, IndexesAddrs};

use crate::symbol::Symbol;
use mach_base::OutOfMemory;
use std::alloc::Global;
use std::collections::BTreeMap;

/// Names, each with the address of its first symbol.
pub type ByName = BTreeMap<Vec<u8>, u64>;

/// Addresses, each with the number of its first symbol, from 0.
pub type ByAddr = BTreeMap<u64, usize>;

/// The index by name.
pub fn index_names(alloc: Global, symbols: &[Symbol]) -> Result<ByName, OutOfMemory>
    ensures { IfOk result (λ index. IndexesNames index symbols.now) }
{
    let mut index = BTreeMap::new(alloc);
    let mut left = symbols.len();
    // From the last symbol on, so that the first of a name stays.
    while left > 0 {
        left -= 1;
        let symbol = &symbols[left];
        let name = Vec::from_slice(alloc, symbol.name.as_slice())?;
        index.insert(name, symbol.addr)?;
    }
    Ok(index)
}

/// The index by address.
pub fn index_addrs(alloc: Global, symbols: &[Symbol]) -> Result<ByAddr, OutOfMemory>
    ensures { IfOk result (λ index. IndexesAddrs index 0 symbols.now) }
{
    let mut index = BTreeMap::new(alloc);
    let mut left = symbols.len();
    // From the last symbol on, so that the first at an address stays.
    while left > 0 {
        left -= 1;
        let symbol = &symbols[left];
        index.insert(symbol.addr, left)?;
    }
    Ok(index)
}

/// The greatest address of the index that isn't above this one, with its value.
pub fn floor(index: &ByAddr, addr: u64) -> Option<(u64, usize)>
    ensures found { MatchOption result ((q : ℕ) → q ≤ addr → get nat_cmp index.now q ≡ None) (λ f. get nat_cmp index.now f.0 ≡ Some f.1) }
    ensures below { MatchOption result (result ≡ None) (λ f. f.0 ≤ addr) }
    ensures greatest { MatchOption result (result ≡ None) (λ f. (q : ℕ) → q ≤ addr → IsSome (get nat_cmp index.now q) → q ≤ f.0) }
{
    let (at, number) = index.range(..=addr).next_back()?;
    Some((*at, *number))
}
