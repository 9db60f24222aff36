//! Dates and times as text.

ghost use Rattle.std.specs.Prelude.{◌≡◌, ◌++◌, is_some, IfOk, OnOk, OnErr};
ghost use Rattle.iso_parts.specs.Buffers.{Keeps};
ghost use Rattle.iso_meaning.specs.Moments.{moment_of, padded, month_name, year_text, date_text, time_text, comma, text_if, moment_text};

use crate::moments::{Date, Moment, Time, moment_of};
use std::alloc::AllocError;

/// The name of a month.
#[tactic(auto, unfolding(crate::specs::Moments::month_name))]
fn month_name(month: u8) -> &'static [u8]
    ensures { result.now ≡ month_name month }
{
    match month {
        1 => b"January",
        2 => b"February",
        3 => b"March",
        4 => b"April",
        5 => b"May",
        6 => b"June",
        7 => b"July",
        8 => b"August",
        9 => b"September",
        10 => b"October",
        11 => b"November",
        _ => b"December",
    }
}

/// Two digits.
fn padded(n: u8) -> [u8; 2]
    ensures { result ≡ padded n }
{
    [b'0' + n / 10, b'0' + n % 10]
}

/// Appends the year behind a date, where it is known.
fn push_year(year: Option<u8>, out: &mut Vec<u8>) -> Result<(), AllocError>
    ensures ok { OnOk result (out.new.items ≡ out.old.items ++ year_text year) }
    ensures kept { OnErr result (Keeps out.old.items out.new.items) }
{
    let Some(year) = year else {
        return Ok(());
    };
    out.extend_from_slice(b" of year ")?;
    out.extend_from_slice(&padded(year))
}

/// Appends a date.
fn push_date(date: Date, out: &mut Vec<u8>) -> Result<(), AllocError>
    ensures ok { OnOk result (out.new.items ≡ out.old.items ++ date_text date) }
    ensures kept { OnErr result (Keeps out.old.items out.new.items) }
{
    out.extend_from_slice(&padded(date.day))?;
    out.extend_from_slice(b" ")?;
    out.extend_from_slice(month_name(date.month))?;
    push_year(date.year, out)
}

/// A time as text.
fn time_text(time: Time) -> [u8; 8]
    ensures { result ≡ time_text time }
{
    let [a, b] = padded(time.hour);
    let [c, d] = padded(time.minute);
    let [e, f] = padded(time.second);
    [a, b, b':', c, d, b':', e, f]
}

/// Appends a moment.
fn push_text(moment: Moment, out: &mut Vec<u8>) -> Result<(), AllocError>
    ensures ok { OnOk result (out.new.items ≡ out.old.items ++ moment_text moment) }
    ensures kept { OnErr result (Keeps out.old.items out.new.items) }
{
    match (moment.date, moment.time) {
        (Some(date), Some(time)) => {
            push_date(date, out)?;
            out.extend_from_slice(b", ")?;
            out.extend_from_slice(&time_text(time))
        }
        (Some(date), None) => push_date(date, out),
        (None, Some(time)) => out.extend_from_slice(&time_text(time)),
        (None, None) => Ok(()),
    }
}

/// Appends the moment that a value tells as text, as `02 January, 03:04:05` and `02 January of year 26, 03:04:05`, and
/// says whether it tells one (see [`moment_of`]). Where it tells none, or memory ran out, nothing is appended.
pub fn push_moment(value: &[u8], out: &mut Vec<u8>) -> Result<bool, AllocError>
    // Memory aside, it answers true exactly where the value tells a moment.
    ensures known { IfOk result (λ known. known ≡ is_some (moment_of value.now)) }
    // Memory aside, it appends the text of the value's moment, and nothing where it tells none.
    ensures text { OnOk result
        (out.new.items ≡ out.old.items ++ text_if moment_text (moment_of value.now)) }
    // Where memory runs out, the buffer holds the bytes that it held before.
    ensures unchanged { OnErr result (out.new.items ≡ out.old.items) }
{
    let Some(moment) = moment_of(value) else {
        return Ok(false);
    };
    let start = out.len();
    match push_text(moment, out) {
        Ok(()) => Ok(true),
        Err(refused) => {
            out.truncate(start);
            Err(refused)
        }
    }
}
