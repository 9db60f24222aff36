//! That something can't be played.

use iso_desk::push_text;
use std::alloc::{AllocError, Global};

/// The answer that something can't be played, and why.
pub(crate) fn refused(alloc: Global, why: &str) -> Result<Vec<u8>, AllocError> {
    let mut out = Vec::new(alloc);
    out.extend_from_slice(b"{\"refused\":")?;
    push_text(alloc, why.as_bytes(), &mut out)?;
    out.push(b'}')?;
    Ok(out)
}
