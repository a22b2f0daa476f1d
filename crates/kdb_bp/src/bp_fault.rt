/// Why a breakpoint isn't set or changed.
#[derive(Clone, Copy, Debug, PartialEq, Eq)]
pub enum BpFault {
    /// The address is no multiple of 4.
    BadAddr,
    /// The address isn't in a text segment.
    NotText,
    /// A place has the address.
    Duplicate,
    /// All places are set.
    TooMany,
    /// The place is empty, or there is none of that number.
    NotFound,
}
