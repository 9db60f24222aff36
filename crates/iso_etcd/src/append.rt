//! What an append came to.

/// Why nothing was sent.
#[derive(Clone, Copy, Debug, PartialEq, Eq, Drop)]
pub enum Cause {
    /// No member took a connection in time.
    Away,
    /// No member let the user in: it is unknown, or its password is another one.
    NotLetIn,
    /// The request can't be written.
    Unwritable,
    /// The batch has more bytes than one may have.
    TooLong,
    /// Memory ran out.
    Memory,
}

/// Why it isn't known whether the batch stands.
#[derive(Clone, Copy, Debug, PartialEq, Eq, Drop)]
pub enum Doubt {
    /// The connection was lost, or the answer took too long.
    Lost,
    /// The cluster has no space left. A batch may have been put all the same.
    NoSpace,
    /// The user may not do this, or its token isn't taken.
    Denied,
    /// The answer has this status.
    Status(u16),
    /// The answer can't be understood.
    Unreadable,
    /// Memory ran out after the batch was sent.
    Memory,
}

/// What an append came to.
#[derive(Debug, Drop)]
pub enum Append {
    /// The batch stands at the place, and most members have it on disk.
    Appended,
    /// This other batch stands at the place.
    Taken(Vec<u8>),
    /// The batch may stand there now, or later, or never.
    Unknown(Doubt),
    /// Nothing was sent.
    Unsent(Cause),
}
