//! Laws of raw memory, as contracts of calls that do nothing: whoever needs one calls it.
ghost use Rattle.bus_plant.specs.Laws.{KeepPlanted, RawBytes, RawFetches, RawFaults, RawLoads, RawStores, RawWordFaults, RawExecution};

/// Raw memory is true memory with `ebreak` in exactly the planted words, by its bytes and by what is fetched.
pub fn raw_memory_has_ebreak_where_planted()
    ensures bytes { RawBytes }
    ensures fetches { RawFetches }
{}

/// Faults, loads, stores and the effect of each word are those on true memory.
pub fn raw_memory_is_seen_as_true_memory()
    ensures faults { RawFaults }
    ensures loads { RawLoads }
    ensures stores { RawStores }
    ensures word_faults { RawWordFaults }
    ensures execution { RawExecution }
{}

/// The planted words stay words of text, and no two become the same.
pub fn planted_words_stay_text()
    ensures { KeepPlanted }
{}
