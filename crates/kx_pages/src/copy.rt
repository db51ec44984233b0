//! Copies of bytes.

ghost use Rattle.std.specs.Prelude.{◌≡◌, IfOk};

use std::alloc::{AllocError, Global};

/// A copy of the bytes, its room made at once. This project's own.
pub fn copy_of(alloc: Global, bytes: &[u8]) -> Result<Vec<u8>, AllocError>
    ensures { IfOk result (λ v. v.items ≡ bytes.now) }
{
    let mut copy = Vec::new(alloc);
    copy.reserve_exact(bytes.len())?;
    copy.extend_from_slice(bytes)?;
    Ok(copy)
}
