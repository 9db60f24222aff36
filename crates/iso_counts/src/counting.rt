//! How a count grows.
ghost use Rattle.std.specs.Prelude.{◌≡◌};
ghost use Rattle.iso_counts.specs.Counting.{counted_at};

/// Counts one more at a place, if there is such a place.
pub fn count_at(counts: &mut [u64], place: usize)
    ensures { counts.new ≡ counted_at counts.old place }
{
    if place < counts.len() {
        counts[place] = counts[place].saturating_add(1);
    }
}
