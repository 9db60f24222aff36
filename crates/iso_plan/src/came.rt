//! An answer that came.

use iso_order::Told;

/// An answer that came.
#[derive(Clone, Copy, Debug, PartialEq, Eq)]
pub struct Came {
    /// What it tells.
    pub told: Told,
    /// The digest of its bytes: where the digests of two answers differ, their bytes do.
    pub digest: u64,
}
