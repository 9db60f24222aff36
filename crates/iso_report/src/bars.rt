//! The bars of a histogram.
ghost use Rattle.std.specs.Prelude.{◌≡◌, ◌≤◌, ◌<◌, ◌*◌, ◌+◌};

use iso_tally::Bucket;

/// How long the bar of a count is, where that of the greatest count is so wide: rounded up, so that none is missing. A count
/// above the greatest has a bar of full width.
pub(crate) fn bar_length(count: usize, most: usize, width: usize) -> usize
    ensures within { result ≤ width }
    ensures enough { count ≤ most → count * width ≤ result * most }
    ensures fewer { count < most → result * most < count * width + most }
{
    if count >= most {
        return width;
    }
    (count as u128 * width as u128).div_ceil(most as u128) as usize
}

/// The greatest count of a bucket.
pub(crate) fn most_of(buckets: &[Bucket]) -> usize {
    let mut most = 0;
    for bucket in buckets {
        most = bucket.count.max(most);
    }
    most
}

/// The buckets up to the last one that has a value.
fn up_to_last(buckets: &[Bucket]) -> &[Bucket] {
    let mut end = 0;
    for (place, bucket) in buckets.iter().enumerate() {
        if bucket.count > 0 {
            end = place + 1;
        }
    }
    buckets.get(..end).unwrap_or(&[])
}

/// The buckets from the first to the last that has a value.
pub(crate) fn filled(buckets: &[Bucket]) -> &[Bucket] {
    let buckets = up_to_last(buckets);
    let first = buckets.iter().position(|bucket| bucket.count > 0);
    buckets.get(first.unwrap_or(0)..).unwrap_or(&[])
}
