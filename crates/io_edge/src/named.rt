use mach_base::Text;

/// A byte string under a name.
#[derive(Debug, Drop)]
pub struct Named {
    /// The name; a text of UTF-8 where a shelf is to find it.
    pub name: Text,
    /// What stands under it.
    pub bytes: Text,
}
