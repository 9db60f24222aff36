//! What holds after every run of both ends: a function that does nothing, and whose contract is the laws.

ghost use Rattle.iso_acquirer.specs.Runs.{RunsAgree, RunsStayClosed, RunsBalance, RunsSendAsMade};

use iso_issuer::laws::{
    answers_are_entered, granted_stands, journals_grow, keys_stay_distinct, reversals_stay,
    reversed_never_stands, stands_no_more,
};

/// After each run of both ends that begins unused, whatever is lost, repeated, late or refused in it: both ends
/// agree on each transaction, what is closed stays, and once all is closed the books agree. It says of lists of
/// events what `World` says of itself, so that a law can speak of runs that nothing plays.
pub fn runs_agree()
    // After each run that begins unused, what the acquirer holds as approved stands at the issuer,
    // and what it holds as declined or reversed never stands.
    ensures agree { RunsAgree }
    // After each run that begins unused, what is closed stays in its
    // state, however the run goes on.
    ensures closed { RunsStayClosed }
    // After each run that begins unused, both books agree once all is closed and no
    // order of others is entered.
    ensures books { RunsBalance }
    // No trace number is used for two orders.
    ensures sent { RunsSendAsMade }
{
    journals_grow();
    keys_stay_distinct();
    answers_are_entered();
    granted_stands();
    reversals_stay();
    stands_no_more();
    reversed_never_stands();
}
