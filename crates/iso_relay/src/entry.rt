//! A request that waits for answers.

use iso_front::Gathering;
use iso_order::TxKey;

/// A request that went to several shards, and what was heard of them.
#[derive(Clone, Copy, Debug, PartialEq, Eq)]
pub struct Entry {
    /// Its key.
    pub key: TxKey,
    /// What was heard.
    pub gathering: Gathering,
}
