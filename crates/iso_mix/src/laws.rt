//! What holds of each mix, and of what follows a hold: functions that do nothing, and whose contracts are the laws.

ghost use Rattle.iso_mix.specs.Laws.{SharesAreKept, PartsAreFair};

/// Of a hundred draws as many are of each kind as the mix says, and the others are purchases.
pub fn shares_are_kept()
    // In a mix of at most a hundred, each kind has as many of the hundred numbers that can be drawn
    // as the mix says, and purchases have the rest.
    ensures { SharesAreKept }
{}

/// A completion takes from 1 to the whole that is held, and a partial reversal leaves from 1 to less than that.
pub fn parts_are_fair()
    // A completion takes from 1 to the whole of a hold of at least 1; a partial reversal leaves
    // from 1 to less than a hold of at least 2.
    ensures { PartsAreFair }
{}
