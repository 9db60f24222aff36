//! Track 2 data (35).

ghost use Rattle.std.specs.Prelude.{◌≡◌, ◌++◌, ◌<◌, ◌≤◌, length, Some, replicate, is_some, IfSome, OnOk, OnErr};
ghost use Rattle.iso_parts.specs.Buffers.{Keeps};
ghost use Rattle.iso_meaning.specs.Splits.{AreOrdered};
ghost use Rattle.iso_meaning.specs.Tracks.{separates, separator_at, track_parts, masked_account, hidden, masked_track, track_text};

use crate::splits::Part;
use iso_wire::masked;
use std::alloc::AllocError;

/// Whether the byte separates the account number from what is behind it.
fn separates(b: u8) -> bool
    ensures { result ≡ separates b }
{
    matches!(b, b'=' | b'D')
}

/// Where the first separator stands.
fn separator_at(value: &[u8]) -> Option<usize>
    ensures at { result ≡ separator_at value.now }
    ensures within { IfSome result (λ at. at < length value.now) }
{
    for (at, b) in value.iter().enumerate() {
        if separates(*b) {
            return Some(at);
        }
    }
    None
}

/// The parts of track 2 data, from the first byte to the last one. Those behind the separator are shorter or empty
/// where the value ends before.
#[derive(Clone, Copy, Debug, PartialEq, Eq)]
pub struct Track {
    /// The account number.
    pub account: Part,
    /// The separator, `=` or `D`.
    pub separator: Part,
    /// The expiry, four bytes: YYMM.
    pub expiry: Part,
    /// The service code, three bytes.
    pub service: Part,
    /// What the issuer adds.
    pub discretionary: Part,
}

/// The part from a first place to a last one.
fn part(start: usize, end: usize, name: &'static str) -> Part
    ensures start { result.start ≡ start }
    ensures end { result.end ≡ end }
{
    Part { start, end, name }
}

/// The parts of track 2 data. A value without a separator has none.
pub fn track2(value: &[u8]) -> Option<Track>
    // There are parts exactly where the value has a separator, `=` or `D`.
    ensures split { is_some result ≡ is_some (separator_at value.now) }
    // The separator is the first one that the value has.
    ensures separator { IfSome result
        (λ track. Some track.separator.start ≡ separator_at value.now) }
    // The parts lie side by side, from the first byte to the last one; some may be empty.
    ensures parts { IfSome result (λ track. AreOrdered 0 (length value.now) (track_parts track)) }
{
    let at = separator_at(value)?;
    let expiry = at + 1;
    let service = expiry + (value.len() - expiry).min(4);
    let rest = service + (value.len() - service).min(3);
    Some(Track {
        account: part(0, at, "account number"),
        separator: part(at, expiry, "separator"),
        expiry: part(expiry, service, "expiry"),
        service: part(service, rest, "service code"),
        discretionary: part(rest, value.len(), "discretionary data"),
    })
}

/// Appends so many stars.
pub(crate) fn push_stars(count: usize, out: &mut Vec<u8>) -> Result<(), AllocError>
    ensures ok { OnOk result (out.new.items ≡ out.old.items ++ replicate count 42) }
    ensures kept { OnErr result (Keeps out.old.items out.new.items) }
{
    for _i in 0..count {
        out.push(b'*')?;
    }
    Ok(())
}

/// Appends an account number with its middle in stars.
fn push_account(account: &[u8], out: &mut Vec<u8>) -> Result<(), AllocError>
    ensures ok { OnOk result (out.new.items ≡ out.old.items ++ masked_account account.now) }
    ensures kept { OnErr result (Keeps out.old.items out.new.items) }
{
    let shown = masked(2, account);
    out.extend_from_slice(shown.front)?;
    push_stars(shown.hidden, out)?;
    out.extend_from_slice(shown.end)
}

/// Appends the separator, and stars for all behind it.
fn push_hidden(behind: &[u8], out: &mut Vec<u8>) -> Result<(), AllocError>
    requires { 1 ≤ length behind.now }
    ensures ok { OnOk result (out.new.items ≡ out.old.items ++ hidden behind.now) }
    ensures kept { OnErr result (Keeps out.old.items out.new.items) }
{
    out.extend_from_slice(&behind[..1])?;
    push_stars(behind.len() - 1, out)
}

/// Appends track 2 data as a bystander may read them.
fn push_masked(value: &[u8], out: &mut Vec<u8>) -> Result<(), AllocError>
    ensures ok { OnOk result (out.new.items ≡ out.old.items ++ masked_track value.now) }
    ensures kept { OnErr result (Keeps out.old.items out.new.items) }
{
    let Some(at) = separator_at(value) else {
        return push_stars(value.len(), out);
    };
    let (account, behind) = value.split_at(at);
    push_account(account, out)?;
    push_hidden(behind, out)
}

/// Appends track 2 data: in clear, or as a bystander may read them. Those are the first six and the last four digits of
/// an account number of 13 or more, and the separator; all else is stars, as is a value without a separator. Without
/// memory nothing is appended.
pub fn push_track2(value: &[u8], is_clear: bool, out: &mut Vec<u8>) -> Result<(), AllocError>
    // Memory aside, it appends the value in clear; or of the account number what `masked` shows,
    // the separator, and stars; or stars alone, without a separator.
    ensures text { OnOk result (out.new.items ≡ out.old.items ++ track_text is_clear value.now) }
    // Where memory runs out, the buffer holds the bytes that it held before.
    ensures unchanged { OnErr result (out.new.items ≡ out.old.items) }
{
    if is_clear {
        return out.extend_from_slice(value);
    }
    let start = out.len();
    match push_masked(value, out) {
        Ok(()) => Ok(()),
        Err(refused) => {
            out.truncate(start);
            Err(refused)
        }
    }
}
