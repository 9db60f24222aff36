//! Dates and times: elements 7, 12 and 13.

ghost use Rattle.std.specs.Prelude.{◌≡◌, ◌≤◌, length, take, drop, Some, None};
ghost use Rattle.iso_meaning.specs.Codes.{two_digits};
ghost use Rattle.iso_meaning.specs.Moments.{leaps, month_days, date_of, time_of, date_and_time, in_year, moment_of};

use crate::codes::two_digits;

/// A day of a year, which two digits tell, or of any year.
#[derive(Clone, Copy, Debug, PartialEq, Eq)]
pub struct Date {
    /// The year within its century, if the value tells it.
    pub year: Option<u8>,
    /// The month, from 1 to 12.
    pub month: u8,
    /// The day of the month, from 1.
    pub day: u8,
}

/// A time of a day.
#[derive(Clone, Copy, Debug, PartialEq, Eq)]
pub struct Time {
    /// The hour, from 0 to 23.
    pub hour: u8,
    /// The minute, from 0 to 59.
    pub minute: u8,
    /// The second, from 0 to 59.
    pub second: u8,
}

/// What a value tells: a date, a time of day, or both.
#[derive(Clone, Copy, Debug, PartialEq, Eq)]
pub struct Moment {
    /// The date.
    pub date: Option<Date>,
    /// The time.
    pub time: Option<Time>,
}

/// Whether the year may have a 29 February. A year that isn't told may.
fn leaps(year: Option<u8>) -> bool
    ensures { result ≡ leaps year }
{
    match year {
        Some(year) => year % 4 == 0,
        None => true,
    }
}

/// How many days a month has; none where there is no such month.
fn month_days(leaps: bool, month: u8) -> u8
    ensures { result ≡ month_days leaps month }
{
    match month {
        2 if leaps => 29,
        2 => 28,
        4 | 6 | 9 | 11 => 30,
        1 | 3 | 5 | 7 | 8 | 10 | 12 => 31,
        _ => 0,
    }
}

/// The date that four digits tell.
fn date_of(year: Option<u8>, text: &[u8]) -> Option<Date>
    requires { 2 ≤ length text.now }
    ensures { result ≡ date_of year text.now }
{
    let (first, last) = text.split_at(2);
    let month = two_digits(first)?;
    let day = two_digits(last)?;
    if day < 1 || day > month_days(leaps(year), month) {
        return None;
    }
    Some(Date { year, month, day })
}

/// The time that six digits tell.
fn time_of(text: &[u8]) -> Option<Time>
    requires { 4 ≤ length text.now }
    ensures { result ≡ time_of text.now }
{
    let (first, rest) = text.split_at(2);
    let (second, last) = rest.split_at(2);
    let time = Time {
        hour: two_digits(first)?,
        minute: two_digits(second)?,
        second: two_digits(last)?,
    };
    if time.hour > 23 || time.minute > 59 || time.second > 59 {
        return None;
    }
    Some(time)
}

/// The date and the time that ten digits tell.
fn date_and_time(year: Option<u8>, text: &[u8]) -> Option<Moment>
    requires { 10 ≤ length text.now }
    ensures { result ≡ date_and_time year text.now }
{
    let (first, last) = text.split_at(4);
    let date = date_of(year, first)?;
    let time = time_of(last)?;
    Some(Moment {
        date: Some(date),
        time: Some(time),
    })
}

/// The date and the time that twelve digits tell.
fn in_year(text: &[u8]) -> Option<Moment>
    requires { length text.now ≡ 12 }
    ensures { result ≡ in_year (two_digits (take 2 text.now)) (drop 2 text.now) }
{
    let (first, last) = text.split_at(2);
    date_and_time(Some(two_digits(first)?), last)
}

/// The date alone that four digits tell.
fn date_alone(text: &[u8]) -> Option<Moment>
    requires { length text.now ≡ 4 }
    ensures { result ≡ moment_of text.now }
{
    Some(Moment {
        date: Some(date_of(None, text)?),
        time: None,
    })
}

/// The time alone that six digits tell.
fn time_alone(text: &[u8]) -> Option<Moment>
    requires { length text.now ≡ 6 }
    ensures { result ≡ moment_of text.now }
{
    Some(Moment {
        date: None,
        time: Some(time_of(text)?),
    })
}

/// The moment that a value tells, by its length: MMDD (element 13), hhmmss (12), MMDDhhmmss (7) or YYMMDDhhmmss (12
/// since 1993). A value of another length, that isn't digits, or of a day or a time that can't be gives none.
pub fn moment_of(value: &[u8]) -> Option<Moment>
    ensures { result ≡ moment_of value.now }
{
    match value.len() {
        4 => date_alone(value),
        6 => time_alone(value),
        10 => date_and_time(None, value),
        12 => in_year(value),
        _ => None,
    }
}
