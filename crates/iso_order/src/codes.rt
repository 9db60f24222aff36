//! The response codes (element 39) that an issuer gives.

/// Approved.
pub const APPROVED: u8 = 0;

/// Invalid transaction: a message that can't be served, or in another currency than the account's.
pub const INVALID_TRANSACTION: u8 = 12;

/// Invalid amount: zero.
pub const INVALID_AMOUNT: u8 = 13;

/// Invalid card number: there is no such account.
pub const INVALID_CARD_NUMBER: u8 = 14;

/// No action taken: the transaction was wholly reversed before it came.
pub const NO_ACTION_TAKEN: u8 = 21;

/// Format error: an element that is needed is missing, or isn't written as it has to be.
pub const FORMAT_ERROR: u8 = 30;

/// Not sufficient funds: the available amount is less than what is asked.
pub const NOT_SUFFICIENT_FUNDS: u8 = 51;

/// Duplicate transmission: another order had that key.
pub const DUPLICATE_TRANSMISSION: u8 = 94;

/// System malfunction: the journal is full, or an amount can't be shown.
pub const SYSTEM_MALFUNCTION: u8 = 96;
