//! What holds of both ends over each run, whenever either of them crashes in it, and of the acquirer's notes: functions
//! that do nothing, and whose contracts are laws.

ghost use Rattle.iso_restarts.specs.Laws.{CrashesOnlyLose, AgreeOverCrashes, StayClosedOverCrashes};
ghost use Rattle.iso_restarts.specs.Laws.{BalanceOverCrashes, CallsAreEvents, CrashesOfBothOnlyLose, SentAsKept, StartsGoOn};
ghost use Rattle.iso_restarts.specs.NoteLaws.{NotesFollow, StillLeft};

use iso_acquirer::laws::runs_agree;
use iso_outages::laws::crashes_only_lose;

/// Both ends agree over each run that begins unused, with crashes of the acquirer and of the issuer's host at any
/// moments: with what is on the disk of each end, and with what each of them has in memory. What the acquirer holds as
/// approved stands at the issuer. What it holds as declined or reversed never stands. What is closed on its disk stays.
/// And where all is closed and no order of others is entered, both books agree.
pub fn both_may_crash()
    // Each run with crashes of the acquirer is a run without: what a crash took was never sent there, or never heard.
    ensures without { CrashesOnlyLose }
    // After each run with crashes of either end, both disks are as after a run without any, where
    // all that was sent is sent, and all answers but those of 96 are given.
    ensures without_any { CrashesOfBothOnlyLose }
    // After each run, with crashes of either end at any moments, both ends agree on each
    // transaction, by what is on both disks and by what either or both have in memory.
    ensures agree { AgreeOverCrashes }
    // What is closed on the acquirer's disk stays in its state, on the disk and in memory,
    // over any crashes that follow.
    ensures closed { StayClosedOverCrashes }
    // After each run, with crashes of either end, both books agree where all is closed and no order
    // of others is entered, by both disks and by what either or both have in memory.
    ensures books { BalanceOverCrashes }
    // No trace number is used for two orders, over any crashes.
    ensures numbers { SentAsKept }
    // A start goes on with whatever a crash leaves: it calls none of it damaged.
    ensures starts { StartsGoOn }
    // The events of a run do to the acquirer's notes, and send, what `begin`, `timed_out`, `told`,
    // `keep` and `start` of `DurableAcquirer` do.
    ensures calls { CallsAreEvents }
{
    crashes_only_lose();
    runs_agree();
}

/// What holds of the notes of any acquirer.
pub fn notes()
    // Notes behind others go on from what those left, and each one that an acquirer can have
    // written can happen to it once those before it happened.
    ensures follow { NotesFollow }
    // What a crash may leave of the notes, it may still leave once a payment begins, no answer came
    // in time, or an answer came.
    ensures crash { StillLeft }
{}
