//! Whether an answer is passed on.

/// What becomes of a shard's answer to a request that went to several.
#[derive(Clone, Copy, Debug, PartialEq, Eq)]
pub enum Decision {
    /// All shards that were asked said the same: it is passed on, and no other.
    PassOn,
    /// A shard that was asked is silent: the answer counts, and isn't passed on.
    Hold,
    /// All shards that were asked answered, and didn't say the same: none of their answers is passed on.
    GiveUp,
    /// The shard wasn't asked under the key, or another answer was passed on: it isn't passed on.
    Drop,
}
