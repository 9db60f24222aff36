//! Building the values of parts that were judged good, without judging them again.

ghost use Rattle.std.specs.Prelude.{◌≡◌, ◌≤◌, length, IfOk};
ghost use Rattle.iso_parts.specs.Building.{IsPart, BuildsValue};
ghost use Rattle.iso_parts.specs.Texts.{IsTold, Builds};
ghost use Rattle.iso_parts.specs.Reading.{text_of, body_of, part_at};

use crate::encoding::Coding;
use crate::field::prefix_of;
use crate::spec::FieldSpec;
use std::alloc::AllocError;

/// Appends the `n` characters that a good body stands for.
fn decode_judged_text(
    coding: Coding,
    n: u16,
    body: &[u8],
    out: &mut Vec<u8>,
) -> Result<(), AllocError>
    requires { IsTold (text_of coding n body.now) }
    ensures { Builds out.old.items out.new.items result (text_of coding n body.now) }
{
    // a good body has no fault: what fails is memory
    match coding.decode(n, body, out) {
        Ok(()) => Ok(()),
        Err(_) => Err(AllocError),
    }
}

/// Appends the value that a good body of `n` characters tells.
fn decode_judged_body(
    spec: &FieldSpec,
    n: u16,
    body: &[u8],
    out: &mut Vec<u8>,
) -> Result<(), AllocError>
    requires { IsTold (body_of spec.now n body.now) }
    ensures { Builds out.old.items out.new.items result (body_of spec.now n body.now) }
{
    match spec.coding {
        Coding::Ascii | Coding::Raw => out.extend_from_slice(spec.pad.without_padding(body)),
        Coding::Bcd | Coding::HexText => {
            let before = out.len();
            decode_judged_text(spec.coding, n, body, out)?;
            spec.pad.strip(before, out);
            Ok(())
        }
    }
}

/// Appends the value of the part that the bytes begin with, and gives how many bytes the part takes, as
/// [`decode_value`](crate::decode_value) does, but judges neither its characters nor its digits: the caller has judged
/// the part good. Only the growth of `out` takes memory, and where there is none `out` stays as it was.
pub fn decode_judged(spec: &FieldSpec, bytes: &[u8], out: &mut Vec<u8>) -> Result<usize, AllocError>
    // The bytes begin with a good part of the row, as `judge_field` tells.
    requires { IsPart (part_at spec.now bytes.now) }
    // Memory aside, the value of that part is appended, and how many bytes the part takes is told;
    // without memory nothing is appended.
    ensures exact { BuildsValue out.old.items out.new.items result (part_at spec.now bytes.now) }
    // Memory aside, the part lies within the bytes.
    ensures room { IfOk result (λ used. used ≤ length bytes.now) }
{
    let front = spec.length.prefix_size();
    let (prefix, rest) = bytes.split_at(front);
    let Ok(n) = prefix_of(spec, prefix) else {
        unreachable!();
    };
    let size = spec.coding.body_size(n);
    let (body, _) = rest.split_at(size);
    let before = out.len();
    match decode_judged_body(spec, n, body, out) {
        Ok(()) => Ok(front + size),
        Err(fault) => {
            out.truncate(before);
            Err(fault)
        }
    }
}
