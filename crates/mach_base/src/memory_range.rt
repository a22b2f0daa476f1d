/// What a segment holds, and so what may be done there: text is fetched, data loaded and stored, rodata loaded.
#[derive(Clone, Copy, Debug, PartialEq, Eq)]
pub enum Kind {
    Text,
    Data,
    Rodata,
}

/// A range of memory, from `base` on and `len` bytes long.
#[derive(Clone, Copy, Debug, PartialEq, Eq)]
pub struct Segment {
    pub base: u64,
    pub len: u64,
    pub kind: Kind,
}
