//! What holds of both ends where a driver calls the acquirer: a function that does nothing, and whose contract is the laws.

ghost use Rattle.iso_drive.specs.Laws.{CallsAreEvents, OwnBooksAgree};

use iso_restarts::laws::both_may_crash;

/// A driver's calls are events of its acquirer, so whatever holds of each run of both ends, over crashes of either, holds
/// of those that a driver makes. And once all is closed, its own books are the issuer's.
pub fn a_driver_agrees()
    // Each call of a driver does to its notes, and sends, what events of its acquirer do in a run
    // of both ends: to begin, to time out, to hear an answer, to keep.
    ensures calls { CallsAreEvents }
    // Once its transactions are closed, its own books of each account agree with the issuer's.
    // Where no order of others is entered.
    ensures books { OwnBooksAgree }
{
    both_may_crash();
}
