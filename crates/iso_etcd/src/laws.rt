//! What holds of every journal: functions that do nothing, and whose contracts are laws. A proof of a crate above cites
//! them.
ghost use Rattle.iso_etcd.specs.KeyLaws.{KeyLaws};

/// How the keys of a journal stand to one another.
pub fn keys()
    // The batches' keys are in the order of their places, and distinct. A range up to the end key
    // has all of them, and neither the heading nor who is active.
    ensures { KeyLaws }
{}
