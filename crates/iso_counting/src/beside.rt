//! How answers to orders that are no purchases are counted.
ghost use Rattle.std.specs.Prelude.{◌≡◌};
ghost use Rattle.iso_counting.specs.Counting.{counted_beside};

use iso_mix::Hearing;
use iso_tally::{Tally, add_one};

/// Counts an answer to an order that is no purchase, by what it came to. One to another key is counted elsewhere.
pub fn count_beside(tally: &mut Tally, hearing: Hearing)
    // It counts as one answer more, and beside that as late, or as late and differing; one to
    // another key doesn't count.
    ensures { tally.new ≡ counted_beside tally.old hearing }
{
    match hearing {
        Hearing::First => add_one(&mut tally.answers),
        Hearing::Known => {
            add_one(&mut tally.answers);
            add_one(&mut tally.late);
        }
        Hearing::Differs => {
            add_one(&mut tally.answers);
            add_one(&mut tally.late);
            add_one(&mut tally.differing);
        }
        Hearing::Foreign => {}
    }
}
