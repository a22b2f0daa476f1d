ghost use Rattle.std.specs.Prelude.{◌≡◌};
ghost use Rattle.mem_map.specs.Access.{allows};

use mach_base::Kind;

/// What is done to memory.
#[derive(Clone, Copy, Debug, PartialEq, Eq)]
pub enum Access {
    Fetch,
    Load,
    Store,
}

/// Whether a segment of this kind allows the access.
pub fn is_allowed(access: Access, kind: Kind) -> bool
    ensures { result ≡ allows access kind }
{
    match access {
        Access::Fetch => kind == Kind::Text,
        Access::Load => kind != Kind::Text,
        Access::Store => kind == Kind::Data,
    }
}
