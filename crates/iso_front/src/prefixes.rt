//! Prefixes of account numbers.

ghost use Rattle.std.specs.Prelude.{◌≡◌, ◌≤◌, ◌/◌, ◌^◌, ◌-◌, true, false, IfSome};
ghost use Rattle.iso_front.specs.Prefixes.{first_digits, covers, reaches, meets, prefixes_of};
ghost use Rattle.iso_front.specs.Prefixes.{are_prefixes, AreApart, Meeting};

use iso_order::Pan;
use iso_wire::write_decimal;
use std::{fmt, str};

/// Prefixes of one length, from a first one to a last one, both within. An account number that has as many digits begins with
/// one of them, or it doesn't; one of fewer digits begins with none.
#[derive(Clone, Copy, Debug, PartialEq, Eq)]
pub struct Prefixes {
    /// How many digits they have.
    pub digits: u8,
    /// The first one, as a number.
    pub from: u64,
    /// The last one, as a number.
    pub to: u64,
}

/// Prefixes that are given to a shard.
#[derive(Clone, Copy, Debug, PartialEq, Eq)]
pub struct Given {
    /// The prefixes.
    pub prefixes: Prefixes,
    /// The place of the shard.
    pub shard: usize,
}

/// A number without its last digits, so many of them.
fn without_last(number: u64, last: u8) -> u64
    ensures { result ≡ number / 10 ^ last }
{
    match 10u64.checked_pow(u32::from(last)) {
        Some(step) => number / step,
        None => 0,
    }
}

/// The first so many digits of an account number.
fn first_digits(count: u8, pan: &Pan) -> u64
    ensures { result ≡ first_digits count pan.now }
{
    without_last(pan.digits(), pan.len().saturating_sub(count))
}

/// Whether prefixes of so many more digits begin with the shorter ones.
fn reaches(more: u8, short: &Prefixes, long: &Prefixes) -> bool
    ensures { result ≡ reaches more short.now long.now }
{
    without_last(long.from, more) <= short.to && short.from <= without_last(long.to, more)
}

/// Whether an account number can begin with one of each.
fn meets(one: &Prefixes, other: &Prefixes) -> bool
    ensures { result ≡ meets one.now other.now }
{
    if one.digits <= other.digits {
        reaches(other.digits - one.digits, one, other)
    } else {
        reaches(one.digits - other.digits, other, one)
    }
}

/// Writes a prefix of so many digits.
fn write_prefix<W: fmt::Write>(f: &mut fmt::Formatter<W>, digits: u8, prefix: u64) -> fmt::Result {
    let mut text = [0; 20];
    let place = &mut text[..(digits as usize).min(20)];
    write_decimal(place, prefix);
    f.write_str(str::from_utf8(place).map_err(|_| fmt::Error)?)
}

impl Prefixes {
    /// The prefixes from one text of 1 to 19 digits to another of as many, which isn't before it; `None` for other texts.
    pub fn new(from: &[u8], to: &[u8]) -> Option<Prefixes>
        // Prefixes come exactly of two texts of 1 to 19 digits, as many in each and in order, and
        // run from the first to the last.
        ensures value { result ≡ prefixes_of from.now to.now }
        // Prefixes that are made have 1 to 19 digits, and the first one isn't behind the last.
        ensures good { IfSome result (λ p. are_prefixes p ≡ true) }
    {
        let first = Pan::from_digits(from)?;
        let last = Pan::from_digits(to)?;
        if first.len() == last.len() && first.digits() <= last.digits() {
            Some(Prefixes {
                digits: first.len(),
                from: first.digits(),
                to: last.digits(),
            })
        } else {
            None
        }
    }

    /// Whether an account number begins with one of them.
    pub fn covers(&self, pan: &Pan) -> bool
        // An account number begins with one of the prefixes exactly where its first digits, as many
        // as they have, lie from the first to the last; a shorter number begins with none.
        ensures { result ≡ covers self.now pan.now }
    {
        if pan.len() < self.digits {
            return false;
        }
        let first = first_digits(self.digits, pan);
        self.from <= first && first <= self.to
    }

    /// Whether an account number can begin with one of these and with one of those.
    pub fn meets(&self, other: &Prefixes) -> bool
        // Where the answer is true, of prefixes that `new` can make, some account number begins
        // with one of each.
        ensures meeting { result ≡ true
            → are_prefixes self.now ≡ true → are_prefixes other.now ≡ true
            → Meeting self.now other.now }
        // Where the answer is false, no account number begins with one of each.
        ensures apart { result ≡ false → AreApart self.now other.now }
    {
        meets(self, other)
    }
}

/// As two texts of digits: `400000 to 499999`.
impl fmt::Display for Prefixes {
    fn fmt<W: fmt::Write>(&self, f: &mut fmt::Formatter<W>) -> fmt::Result {
        write_prefix(f, self.digits, self.from)?;
        f.write_str(" to ")?;
        write_prefix(f, self.digits, self.to)
    }
}
