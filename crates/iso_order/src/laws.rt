//! What holds of every order and every response: functions that do nothing, and whose contracts are laws. A proof of a
//! crate above cites them.

ghost use Rattle.iso_order.specs.Comparisons.{Comparisons};
ghost use Rattle.iso_order.specs.Fitting.{ResponsesAreShort, ResponsesAreWellFormed, ResponsesFit};
ghost use Rattle.iso_order.specs.Requests.{AcquirersInOwnDigits, RequestsAreWellFormed, RequestsAsk, RequestsFit};
ghost use Rattle.iso_order.specs.Told.{ResponsesTell};

use iso_parts::laws::{bitmaps, parts};
use iso_wire::laws::decimals;

/// Keys, account numbers, acts and orders that compare alike are one.
pub fn comparisons()
    // Keys, account numbers, amounts, acts and orders compare alike exactly where they are one.
    ensures { Comparisons }
{}

/// The response to a well-formed request or advice is well formed.
pub fn responses_are_well_formed()
    ensures { ResponsesAreWellFormed }
{}

/// The response to each request or advice that was unpacked with a table that is ready for a host fits that table:
/// `pack` refuses none.
pub fn responses_fit()
    ensures { ResponsesFit }
{
    parts();
    decimals();
}

/// Such a response, as `pack` writes it, has at most 9,999 bytes: each header can tell its length.
pub fn responses_are_short()
    // A response has at most 9,999 bytes where its message was read under a table that is ready for
    // a host, and it is written under that table.
    ensures { ResponsesAreShort }
{
    parts();
    bitmaps();
    decimals();
}

/// The request for an order asks for that very order.
pub fn requests_ask()
    ensures { RequestsAsk }
{
    decimals();
}

/// Both built-in tables can write each request.
pub fn requests_fit()
    ensures { RequestsFit }
{
    parts();
    decimals();
}

/// Each request is well formed.
pub fn requests_are_well_formed()
    ensures { RequestsAreWellFormed }
{
    decimals();
}

/// The response to an order tells the order's key and the code of the answer.
pub fn responses_tell()
    ensures { ResponsesTell }
{
    decimals();
}

/// An acquirer's code is its number in its own digits.
pub fn acquirers_in_own_digits()
    // An acquirer's number in the digits that it needs is its code, and these are at most eleven.
    ensures { AcquirersInOwnDigits }
{
    decimals();
}
