//! How answers to the orders of a driver are counted.
ghost use Rattle.std.specs.Prelude.{◌≡◌};
ghost use Rattle.iso_counting.specs.Counting.{counted};

use iso_drive::Heard;
use iso_tally::{Tally, add_one};

/// Counts an answer by what it came to, and whether it differs from the one that closed a transaction before.
pub fn count_heard(tally: &mut Tally, heard: Heard, differs: bool)
    // It counts as one answer more. One that tells nothing new is late too, and differing where it
    // differs; one to no order of the acquirer's is foreign.
    ensures { tally.new ≡ counted tally.old heard differs }
{
    add_one(&mut tally.answers);
    match heard {
        Heard::Closed { .. } => {}
        Heard::Known => {
            add_one(&mut tally.late);
            if differs {
                add_one(&mut tally.differing);
            }
        }
        Heard::Foreign => add_one(&mut tally.foreign),
    }
}
