//! What holds of every copy: a function that does nothing, and whose contract is a law.
ghost use Rattle.rumpadol_batches.specs.Batches.{BatchesHoldAll};

/// The batches of a copy have the records of the journal, all of them and in their order.
pub fn batches_hold_all()
    ensures { BatchesHoldAll }
{}
