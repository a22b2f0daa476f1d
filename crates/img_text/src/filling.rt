//! The bytes of a whole segment.

ghost use Rattle.std.specs.Prelude.{◌≡◌, ◌≤◌, ◌-◌, ◌++◌, length, replicate, IfOk};

use std::alloc::{AllocError, Global};

/// These bytes, and zeros up to the length.
pub fn with_zeros(alloc: Global, bytes: &[u8], len: u64) -> Result<Vec<u8>, AllocError>
    requires { length bytes.now ≤ len }
    ensures { IfOk result (λ v. v.items ≡ bytes.now ++ replicate (len - length bytes.now) 0) }
{
    let len = len as usize;
    let mut whole = Vec::with_capacity(alloc, len)?;
    whole.extend_from_slice(bytes)?;
    whole.resize(len, 0)?;
    Ok(whole)
}
