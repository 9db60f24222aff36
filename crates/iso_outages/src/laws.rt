//! What holds of both ends over each run, whenever the host crashes in it: a function that does nothing,
//! and whose contract is the laws.

ghost use Rattle.iso_outages.specs.Laws.{CrashesOnlyLose, AgreeOverCrashes, StayClosedOverCrashes};
ghost use Rattle.iso_outages.specs.Laws.{BalanceOverCrashes, CallsAreRuns};

use iso_acquirer::laws::runs_agree;
use iso_durable::laws::starts;
use iso_issuer::laws::{answers_are_kept, entries_are_found, journals_grow, keys_stay_distinct};
use iso_order::laws::comparisons;

/// Both ends agree over each run that begins unused, with crashes of the issuer's host at any moments. What
/// the acquirer holds as approved is on the disk and stands. What it holds as declined or reversed never
/// stands. What is closed stays. And where all is closed and no order of others is entered, both books agree.
pub fn crashes_only_lose()
    // Each run with crashes is a run without: what a crash took was never delivered there, or never heard.
    ensures without { CrashesOnlyLose }
    // After each run, whenever the host crashes in it, both ends agree on each transaction, by the
    // orders on the disk and by those too that wait for a sync.
    ensures agree { AgreeOverCrashes }
    // What is closed stays in its state, over any crashes that follow.
    ensures closed { StayClosedOverCrashes }
    // After each run, whenever the host crashes in it, both books agree where all is closed and no
    // order of others is entered, by the disk and with what waits for a sync too.
    ensures books { BalanceOverCrashes }
    // Sent orders that are delivered one after another, and a sync behind them, leave the host as
    // `answer_all` leaves it, and its answers are given.
    ensures calls { CallsAreRuns }
{
    runs_agree();
    answers_are_kept();
    entries_are_found();
    journals_grow();
    keys_stay_distinct();
    starts();
    comparisons();
}
