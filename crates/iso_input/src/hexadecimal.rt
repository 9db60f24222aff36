//! Hexadecimal text: dumps, and digits in any spacing.

ghost use Rattle.std.specs.Prelude.{◌≡◌, ◌≢◌, length, take, Ok, Err, OnOk, OnErr, IfErr};
ghost use Rattle.iso_input.specs.Digits.{after};
ghost use Rattle.iso_input.specs.Dump.{hex_bytes};

use crate::columns::is_dump;
use crate::digits::append_digits;
use crate::dump::append_dump;
use crate::fault::HexFault;
use crate::place::Place;

/// Appends the bytes of a text. On a fault what was there is still in front.
fn append_text(text: &[u8], out: &mut Vec<u8>) -> Result<(), HexFault>
    ensures appended { OnOk result (after out.old.items (hex_bytes text.now) ≡ Ok out.new.items) }
    ensures fault { IfErr result (λ e. e ≢ HexFault.Memory → hex_bytes text.now ≡ Err e) }
    ensures kept { OnErr result (take (length out.old.items) out.new.items ≡ out.old.items) }
{
    if is_dump(text) {
        append_dump(text, out)
    } else {
        append_digits(Place { line: 1, column: 1 }, text, out)
    }
}

/// Appends the bytes that a text of hexadecimal digits, of either case, stands for. On a fault nothing is appended.
///
/// The text is a dump, as `xxd`, `hexdump -C` and Wireshark write it, if its first line that isn't blank begins, perhaps
/// behind blanks, with four or more zeros, then a colon or two blanks, and then a digit. Any other text is digits in any
/// spacing: blanks, tabs, ends of lines, commas and colons are passed over, and each two digits are a byte, also over
/// the end of a line.
///
/// Each line of a dump that isn't blank has its offset, the count of the bytes before it; behind blanks or a colon its
/// bytes, digits in any spacing; and behind two blanks the text column, which isn't read. But where the offset has no
/// colon, two blanks behind the eighth byte part the halves of the line if a byte's two digits follow, and a blank or the
/// line's end behind them.
pub fn append_hex(text: &[u8], out: &mut Vec<u8>) -> Result<(), HexFault>
    // At `Ok` the text stands for bytes, and exactly these are appended.
    ensures appended { OnOk result (after out.old.items (hex_bytes text.now) ≡ Ok out.new.items) }
    // Memory aside, the fault is the first thing wrong: a byte that is no digit, a digit that
    // stands alone, or a dump's line with a wrong offset, each with its place.
    ensures fault { IfErr result (λ e. e ≢ HexFault.Memory → hex_bytes text.now ≡ Err e) }
    // After a fault the buffer holds what it held before.
    ensures unchanged { OnErr result (out.new.items ≡ out.old.items) }
{
    let size = out.len();
    match append_text(text, out) {
        Ok(()) => Ok(()),
        Err(fault) => {
            out.truncate(size);
            Err(fault)
        }
    }
}
