//! Laws of stores, as contracts of calls that do nothing: whoever proves something about two accesses cites them.
ghost use Rattle.mem_map.specs.Laws.{StoreChangesItsBytes, WriteKeepsFaults, StoreKeepsFaults, StoreKeepsText, StoredIsLoaded, TextIsApart, StoreKeepsNumbers, StoresCommute, LastStoreRemains, StoreOfSameBytes};

/// A store changes exactly the bytes of its access, and no segment.
pub fn store_changes_its_bytes()
    ensures { StoreChangesItsBytes }
{}

/// After a write to mapped bytes each access faults as before it; so after a store that doesn't fault.
pub fn store_keeps_faults()
    ensures any { WriteKeepsFaults }
    ensures store { StoreKeepsFaults }
{}

/// After a store that doesn't fault, each fetch gives what it gave before it.
pub fn store_keeps_text()
    ensures { StoreKeepsText }
{}

/// After a store that doesn't fault, a load of the same bytes gives the lowest bytes of the stored number.
pub fn stored_is_loaded()
    ensures { StoredIsLoaded }
{}

/// Bytes that are fetched are no bytes that are loaded or stored, and a store leaves the number of other bytes.
pub fn stores_are_seen_there_alone()
    ensures text { TextIsApart }
    ensures numbers { StoreKeepsNumbers }
{}

/// Stores to bytes apart commute; of two stores to the same bytes the last remains; a store of what the bytes are changes
/// nothing.
pub fn stores_commute()
    ensures apart { StoresCommute }
    ensures same { LastStoreRemains }
    ensures again { StoreOfSameBytes }
{}
