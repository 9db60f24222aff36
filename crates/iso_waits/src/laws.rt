//! What holds of all who wait: a function that does nothing, and whose contract is the laws.

ghost use Rattle.iso_waits.specs.WaitLaws.{StayInTime, WhoWaits};

/// Who waits, and in which order, once another one waits, the first is put off, or one is left out.
pub fn who_waits()
    // Another one waits once more, whoever is put off as often as before, and whoever is left out
    // no more; all others wait as often as before.
    ensures who { WhoWaits }
    // They go on to wait in the order in which they become due: no other is due before the one in
    // front, and those that are due by a moment wait in front of the others.
    ensures in_time { StayInTime }
{}
