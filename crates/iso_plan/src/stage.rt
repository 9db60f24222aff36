//! How far a run got.
ghost use Rattle.std.specs.Prelude.{◌≡◌};
ghost use Rattle.iso_plan.specs.Stage.{after_buying, next_stage};

/// What a run does.
#[derive(Clone, Copy, Debug, PartialEq, Eq)]
pub enum Stage {
    /// It asks for balances, before it buys.
    Opening,
    /// It buys, and sees to it that each transaction is closed.
    Buying,
    /// All is closed, and it asks for balances.
    Asking,
    /// It is done.
    Over,
}

/// What a run's traffic tells of whether it goes on.
#[derive(Clone, Copy, Debug)]
pub struct Standing {
    /// No purchase begins any more.
    pub is_closing: bool,
    /// Each transaction is closed.
    pub is_closed: bool,
    /// The host is asked for balances once all is closed.
    pub checks: bool,
    /// All that was asked for is done with.
    pub are_done: bool,
}

/// What a run does once it buys no more and each transaction is closed.
fn after_buying(stands: &Standing) -> Stage
    // It asks for balances, if it checks.
    ensures { result ≡ after_buying stands.now }
{
    if stands.checks {
        Stage::Asking
    } else {
        Stage::Over
    }
}

/// What a run does next.
pub fn next_stage(stage: Stage, stands: &Standing) -> Stage
    // A run buys until it closes and each transaction is closed. Before, and after if it checks, it
    // asks for balances until all are told or given up.
    ensures { result ≡ next_stage stage stands.now }
{
    match stage {
        Stage::Opening => {
            if stands.are_done {
                Stage::Buying
            } else {
                Stage::Opening
            }
        }
        Stage::Buying => {
            if stands.is_closing && stands.is_closed {
                after_buying(stands)
            } else {
                Stage::Buying
            }
        }
        Stage::Asking => {
            if stands.are_done {
                Stage::Over
            } else {
                Stage::Asking
            }
        }
        Stage::Over => Stage::Over,
    }
}
