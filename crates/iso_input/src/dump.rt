//! Dumps, line by line.

ghost use Rattle.std.specs.Prelude.{◌≡◌, ◌≢◌, ◌+◌, ◌<◌, ◌^◌, length, take, Ok, Err, OnOk, OnErr, IfErr};
ghost use Rattle.iso_input.specs.Digits.{after};
ghost use Rattle.iso_input.specs.Dump.{further, offset_of, part_bytes, margin_bytes, offset_bytes, row_bytes, dump_bytes};

use crate::columns::{begins_colon, column_of};
use crate::digits::{append_digits, digit_value};
use crate::fault::HexFault;
use crate::fronts::{blanks, digits, line_len, margin};
use crate::place::Place;

/// The number that hexadecimal digits write, or the greatest there is.
fn offset_of(digits: &[u8]) -> u64
    ensures { result ≡ offset_of digits.now }
{
    let mut offset = 0u64;
    for byte in digits {
        let value = digit_value(*byte).unwrap_or(0);
        offset = offset.saturating_mul(16).saturating_add(u64::from(value));
    }
    offset
}

/// Appends the bytes of a line's part behind the margin.
fn append_part(place: Place, colon: bool, text: &[u8], out: &mut Vec<u8>) -> Result<(), HexFault>
    requires line { place.line + length text.now < 2 ^ 64 }
    requires column { place.column + length text.now < 2 ^ 64 }
    ensures appended { OnOk result
        (after out.old.items (part_bytes place colon text.now) ≡ Ok out.new.items) }
    ensures fault { IfErr result
        (λ e. e ≢ HexFault.Memory → part_bytes place colon text.now ≡ Err e) }
    ensures kept { OnErr result (take (length out.old.items) out.new.items ≡ out.old.items) }
{
    append_digits(place, text.split_at(column_of(colon, text)).0, out)
}

/// Appends the bytes of what stands behind an offset.
fn append_margin(place: Place, text: &[u8], out: &mut Vec<u8>) -> Result<(), HexFault>
    requires line { place.line + length text.now < 2 ^ 64 }
    requires column { place.column + length text.now < 2 ^ 64 }
    ensures appended { OnOk result
        (after out.old.items (margin_bytes place text.now) ≡ Ok out.new.items) }
    ensures fault { IfErr result (λ e. e ≢ HexFault.Memory → margin_bytes place text.now ≡ Err e) }
    ensures kept { OnErr result (take (length out.old.items) out.new.items ≡ out.old.items) }
{
    let size = margin(text);
    let part = text.split_at(size).1;
    append_part(place.further(size), begins_colon(text), part, out)
}

/// Appends the bytes of a line from its offset on.
fn append_offset(place: Place, count: u64, text: &[u8], out: &mut Vec<u8>) -> Result<(), HexFault>
    requires line { place.line + length text.now < 2 ^ 64 }
    requires column { place.column + length text.now < 2 ^ 64 }
    ensures appended { OnOk result
        (after out.old.items (offset_bytes place count text.now) ≡ Ok out.new.items) }
    ensures fault { IfErr result
        (λ e. e ≢ HexFault.Memory → offset_bytes place count text.now ≡ Err e) }
    ensures kept { OnErr result (take (length out.old.items) out.new.items ≡ out.old.items) }
{
    let [first, ..] = text else {
        return Ok(());
    };
    let size = digits(text);
    if size == 0 {
        return Err(HexFault::NotDigit {
            line: place.line,
            column: place.column,
            byte: *first,
        });
    }
    let (offset, behind) = text.split_at(size);
    let found = offset_of(offset);
    if found != count {
        return Err(HexFault::Gap {
            line: place.line,
            wanted: count,
            found,
        });
    }
    append_margin(place.further(size), behind, out)
}

/// Appends the bytes of a line.
fn append_row(line: usize, count: u64, text: &[u8], out: &mut Vec<u8>) -> Result<(), HexFault>
    requires { line + length text.now < 2 ^ 64 }
    ensures appended { OnOk result
        (after out.old.items (row_bytes line count text.now) ≡ Ok out.new.items) }
    ensures fault { IfErr result
        (λ e. e ≢ HexFault.Memory → row_bytes line count text.now ≡ Err e) }
    ensures kept { OnErr result (take (length out.old.items) out.new.items ≡ out.old.items) }
{
    let size = blanks(text);
    let place = Place {
        line,
        column: 1 + size,
    };
    append_offset(place, count, text.split_at(size).1, out)
}

/// Appends the bytes of a dump.
pub(crate) fn append_dump(text: &[u8], out: &mut Vec<u8>) -> Result<(), HexFault>
    ensures appended { OnOk result (after out.old.items (dump_bytes text.now) ≡ Ok out.new.items) }
    ensures fault { IfErr result (λ e. e ≢ HexFault.Memory → dump_bytes text.now ≡ Err e) }
    ensures kept { OnErr result (take (length out.old.items) out.new.items ≡ out.old.items) }
{
    let start = out.len();
    let mut rest = text;
    let mut line = 1usize;
    'lines: loop {
        let (here, behind) = rest.split_at(line_len(rest));
        if let Err(fault) = append_row(line, (out.len() - start) as u64, here, out) {
            return Err(fault);
        }
        let [_, next @ ..] = behind else {
            return Ok(());
        };
        rest = next;
        line += 1;
    }
}
