//! The transmission date and time of a message (element 7).
ghost use Rattle.std.specs.Prelude.{◌≡◌, ◌≤◌, ◌*◌, IfSome, unsigned_abs, pos};
ghost use Rattle.jiff.specs.Words.{civil_nanos};
ghost use Rattle.iso_plan.specs.Stamp.{stamp_of, left_of_second, IsStampAt};

use jiff::Timestamp;
use jiff::civil::DateTime;
use jiff::tz::Offset;

/// The largest number of ten digits.
const MOST: u64 = 9_999_999_999;

/// How many milliseconds of a second are left, at so many since 1970.
pub fn left_of_second(since: u64) -> u64
    ensures { result ≡ left_of_second since }
{
    1_000 - since % 1_000
}

/// A part of a date or a time, which is never below 0.
fn part(value: i8) -> u64
    ensures value { result ≡ unsigned_abs value }
    ensures small { result ≤ 128 }
{
    u64::from(value.unsigned_abs())
}

/// A date and a time as ten digits: month, day, hour, minute and second.
fn transmission_digits(at: DateTime) -> u64
    ensures { result ≡ stamp_of at }
{
    let date = part(at.month()) * 100 + part(at.day());
    let time = part(at.hour()) * 10_000 + part(at.minute()) * 100 + part(at.second());
    date * 1_000_000 + time
}

/// The date and time in UTC at so many milliseconds since 1970.
fn date_and_time(since_1970: u64) -> Option<DateTime>
    ensures { IfSome result (λ t. civil_nanos t ≡ pos (since_1970 * 1000000)) }
{
    let Ok(millis) = i64::try_from(since_1970) else {
        return None;
    };
    let Ok(time) = Timestamp::from_millisecond(millis) else {
        return None;
    };
    Some(Offset::UTC.to_datetime(time))
}

/// The date and time in UTC at so many milliseconds since 1970, as element 7 has it: MMDDhhmmss, a number of at most ten
/// digits. `None` where the clock is past the year 9999.
pub fn stamp(since_1970: u64) -> Option<u64>
    // It has the month, day, hour, minute and second in UTC of that moment, in two digits each.
    ensures stamp { IfSome result (IsStampAt since_1970) }
    // It has at most ten digits, as element 7 asks.
    ensures fits { IfSome result (λ sent. sent ≤ 9999999999) }
{
    let at = date_and_time(since_1970)?;
    let digits = transmission_digits(at);
    if digits > MOST {
        return None;
    }
    Some(digits)
}
