//! A message that lies in the caller's bytes, and where the bodies of its elements lie.

ghost use Rattle.std.specs.Borrow.{Bor};
ghost use Rattle.std.specs.Prelude.{◌≡◌, ◌≢◌, ℕ, ◌+◌, ◌*◌, ◌^◌, ◌<◌, ◌≤◌, List, drop, length, IfOk, IfErr, IfSome, OnOk, MatchOption, None, Some};
ghost use Rattle.iso_parts.specs.Mti.{mti_number};
ghost use Rattle.iso_parts.specs.Reading.{got, part_at};
ghost use Rattle.iso_parts.specs.Spec.{IsGood};
ghost use Rattle.iso_table.specs.Layout.{row_at, AreGood};
ghost use Rattle.iso_wire.specs.Elements.{value_in};
ghost use Rattle.iso_wire.specs.Reading.{value_at, value_by};
ghost use Rattle.iso_wire.specs.declared.fault.UnpackCause.TheVariants.{Memory};
ghost use Rattle.iso_parts.specs.Numbers.{members};
ghost use Rattle.iso_wire.specs.Bodies.{longest_part, AreWithin, BeginsThere, viewed_of, wires_at, view_at, JudgesWire, FindsBodies, Outlines};
ghost use Rattle.iso_wire.specs.Contents.{Contents};
ghost use Rattle.iso_wire.specs.Faults.{out_of_memory};
ghost use Rattle.iso_wire.specs.Spelling.{BeginsWith};
ghost use Rattle.iso_wire.specs.Viewing.{front_of, LiesAt, IsBodyInPlace, IsViewed};
ghost use Rattle.iso_wire.specs.Debugging.{debug_view};

use crate::debugging::write_type;
use crate::fault::{UnpackCause, UnpackFault};
use crate::front::beginning_of;
use crate::laws::{are_bytes, reads_spellings};
use crate::unpacking::{fault_place, read_value};
use crate::view_iteration::ViewIter;
use iso_parts::raw::PLACES;
use iso_parts::{Bitmap, FieldSpec, Judged, Mti, judge_field};
use iso_table::Table;
use std::alloc::Global;
use std::fmt;
use std::marker::Model;
use std::ops::Range;

/// Where the bodies of elements lie in the bytes, by their numbers: where each begins, and how many bytes it is.
#[derive(Clone, Copy)]
pub(crate) struct Bodies {
    pub(crate) starts: [u32; PLACES],
    pub(crate) sizes: [u16; PLACES],
}

impl Bodies {
    /// No body.
    #[inline(always)]
    pub(crate) fn none() -> Bodies
        ensures starts { length result.starts ≡ 129 }
        ensures sizes { length result.sizes ≡ 129 }
    {
        Bodies {
            starts: [0; PLACES],
            sizes: [0; PLACES],
        }
    }
}

/// A message without its bodies: its type, the set of its elements' numbers, and how many bytes it takes.
#[derive(Clone, Copy)]
pub(crate) struct Outline {
    pub(crate) mti: Mti,
    pub(crate) numbers: Bitmap,
    pub(crate) used: usize,
}

/// Judges the part of element `n` under its row, which begins at `at`, at the front of the rest of the bytes: where its body
/// begins in it, and how many bytes it takes.
#[inline(always)]
pub(crate) fn judge_row(
    row: &FieldSpec,
    n: u8,
    at: usize,
    rest: &[u8],
) -> Result<(usize, usize), UnpackFault>
    requires good { IsGood row.now }
    requires early { at < 2 ^ 63 }
    ensures exact { JudgesWire (Some row.now) result (value_by (Some row.now) n at rest.now) }
    ensures room { IfOk result (λ x. (x.0 ≤ x.1) × (x.1 ≤ length rest.now)) }
    ensures part { IfOk result
        (λ x. (value : List ℕ) × (part_at row.now rest.now ≡ got value x.1)) }
    ensures no_memory { IfErr result (λ e. e.cause ≢ Memory) }
{
    match judge_field(row, rest) {
        Ok(Judged::Got { body, used }) => Ok((body, used)),
        Ok(Judged::More) => {
            let front = row.length.prefix_size();
            let place = if rest.len() < front { at } else { at + front };
            Err(UnpackFault::stop(n, place, UnpackCause::Short))
        }
        Err(fault) => {
            let place = at + fault_place(fault, row.length.prefix_size());
            Err(UnpackFault::stop(n, place, UnpackCause::Field(fault)))
        }
    }
}

/// Judges the part of element `n`, which begins at `at`, at the front of the rest of the bytes: where its body begins in
/// it, and how many bytes it takes.
fn judge_wire(table: &Table, n: u8, at: usize, rest: &[u8]) -> Result<(usize, usize), UnpackFault>
    requires { at ≤ 36 + longest_part * 127 }
    ensures exact { JudgesWire (row_at table.now.rows n) result
        (value_at table.now.rows n at rest.now) }
    ensures room { IfOk result (λ x. (x.0 ≤ x.1) × (x.1 ≤ length rest.now)) }
    ensures few { IfOk result (λ x. x.1 ≤ longest_part) }
{
    iso_parts::laws::parts();
    let Some(row) = table.row(n) else {
        return Err(UnpackFault::stop(n, at, UnpackCause::UnknownElement(n)));
    };
    judge_row(row, n, at, rest)
}

/// Finds the bodies of the elements with these numbers, whose parts begin at `start`, and gives the offset behind them.
fn find_bodies(
    table: &Table,
    numbers: Bitmap,
    start: usize,
    bytes: &[u8],
    bodies: &mut Bodies,
) -> Result<usize, UnpackFault>
    requires early { start ≤ 36 }
    requires within { start ≤ length bytes.now }
    ensures exact { FindsBodies bytes.now bodies.new (members numbers) result
        (wires_at table.now.rows (members numbers) start (drop start bytes.now)) }
    ensures within { IfOk result
        (λ end. (end ≤ length bytes.now) × AreWithin end bodies.new (members numbers)) }
    ensures begin { OnOk result
        (BeginsThere table.now.rows start bytes.now bodies.new (members numbers)) }
{
    let mut rest = numbers;
    let mut at = start;
    let (_, mut left) = bytes.split_at(start);
    while let Some(n) = rest.take_first() {
        let (body, used) = judge_wire(table, n, at, left)?;
        bodies.starts[n as usize] = (at + body) as u32;
        bodies.sizes[n as usize] = (used - body) as u16;
        at += used;
        let (_, behind) = left.split_at(used);
        left = behind;
    }
    Ok(at)
}

/// Judges the message that the bytes begin with, and finds the bodies of its elements. It stands apart from `view`, so
/// that the places of the bodies are written where they lie, and are copied once.
#[inline(never)]
pub(crate) fn outline_of(
    table: &Table,
    bytes: &[u8],
    bodies: &mut Bodies,
) -> Result<Outline, UnpackFault>
    ensures exact { Outlines bytes.entry bodies.new result (view_at table.now bytes.entry) }
    ensures within { IfOk result
        (λ o. (o.used ≤ length bytes.now) × AreWithin o.used bodies.new (members o.numbers)) }
    ensures good { AreGood table.now.rows }
{
    let begun = beginning_of(table, bytes)?;
    let used = find_bodies(table, begun.numbers, begun.end, bytes, bodies)?;
    Ok(Outline {
        mti: begun.mti,
        numbers: begun.numbers,
        used,
    })
}

/// Where the body of an element lies, if its number is there.
fn place_of(outline: &Outline, bodies: &Bodies, n: u8) -> Option<Range<usize>>
    requires within { AreWithin outline.now.used bodies.now (members outline.now.numbers) }
    ensures { MatchOption result
        ((b : Bor (List ℕ)) → value_in (viewed_of outline.now b bodies.now).wires n ≡ None)
        (λ r. (b : Bor (List ℕ)) → LiesAt (viewed_of outline.now b bodies.now) n r.start r.end) }
{
    if outline.numbers.has(n) {
        let start = bodies.starts[n as usize] as usize;
        let size = bodies.sizes[n as usize] as usize;
        Some(start..start + size)
    } else {
        None
    }
}

/// How many bytes of a part of element `n` stand before its body.
fn front_of(table: &Table, n: u8) -> usize
    ensures front { result ≡ front_of (row_at table.now.rows n) }
    ensures good { AreGood table.now.rows }
{
    match table.row(n) {
        Some(row) => row.length.prefix_size(),
        None => 0,
    }
}

/// A message that lies in the caller's bytes. It tells where the body of each element lies, and copies none.
#[derive(Drop)]
pub struct View<'a> {
    pub(crate) outline: Outline,
    pub(crate) bytes: &'a [u8],
    pub(crate) bodies: Bodies,
}

impl<'a> Model for View<'a> {
    ghost use Rattle.std.specs.Prelude.{◌≤◌, length};
    ghost use Rattle.iso_wire.specs.Bodies.{viewed_of, AreWithin};
    ghost use Rattle.iso_wire.specs.Viewing.{ViewContents};
    ghost use Rattle.iso_parts.specs.Numbers.{members};

    ghost Value = { ViewContents };

    ghost view = { λ v. viewed_of v.outline v.bytes v.bodies };

    ghost invariant = { λ v. (v.outline.used ≤ length v.bytes.now)
        × AreWithin v.outline.used v.bodies (members v.outline.numbers) };
}

/// Shows the type and how many bytes the message takes, and none of them.
impl fmt::Debug for View<'_> {
    ghost debug_output = { λ v. Some (debug_view v) };

    fn fmt<W: fmt::Write>(&self, f: &mut fmt::Formatter<W>) -> fmt::Result {
        let used = self.outline.used;
        write!(f, "View {{ mti: ")?;
        write_type(self.outline.mti, f)?;
        write!(f, ", used: {used} }}")
    }
}

impl<'a> View<'a> {
    /// The message's type. Takes no memory.
    pub fn mti(&self) -> Mti
        ensures { mti_number result ≡ self.now.mti }
    {
        self.outline.mti
    }

    /// How many bytes the message takes. Takes no memory.
    pub fn used(&self) -> usize
        ensures { result ≡ self.now.used }
    {
        self.outline.used
    }

    /// Where the body of an element lies in the bytes, behind its length and with its padding, if the message has it.
    /// Takes no memory.
    pub fn place(&self, n: u8) -> Option<Range<usize>>
        // The range lies within the message and is the body's own, though equal bytes may stand
        // elsewhere. `None` comes exactly where the message hasn't the element.
        ensures { MatchOption result (value_in self.now.wires n ≡ None)
            (λ r. LiesAt self.now n r.start r.end) }
    {
        place_of(&self.outline, &self.bodies, n)
    }

    /// The body of an element as it lies there, behind its length and with its padding, if the message has it. Takes
    /// no memory.
    pub fn wire(&self, n: u8) -> Option<&'a [u8]>
        // It is the body of that element, and `None` exactly where the message hasn't the element.
        ensures body { MatchOption result (value_in self.now.wires n ≡ None)
            (λ v. value_in self.now.wires n ≡ Some v.now) }
        // It is no copy, but lies in the caller's bytes, where `place` says.
        ensures in_place { IfSome result (λ v. IsBodyInPlace self.now n v) }
    {
        let place = place_of(&self.outline, &self.bodies, n)?;
        Some(&self.bytes[place])
    }

    /// The elements of the message in ascending order: each by its number and its body as it lies there, behind its
    /// length and with its padding. Takes no memory.
    pub fn iter(&self) -> ViewIter<'_, 'a>
        ensures { result ≡ self.now.wires }
    {
        ViewIter::of(self.outline.numbers, &self.bodies, self.bytes)
    }

    /// The value of an element, if the message has it. The table is the one that the message was viewed under; another
    /// one reads something else there, or gives its fault.
    pub fn value(&self, alloc: Global, table: &Table, n: u8) -> Result<Option<Vec<u8>>, UnpackFault>
        // Under the table of the view, it is the element's value in the message that the bytes
        // begin with, and `None` where that has none.
        ensures value { (m : Contents) (size : ℕ) → IsViewed table.now self.now self.now.bytes
            → BeginsWith table.now m size self.now.bytes
            → IfOk result (λ got. MatchOption got (value_in m.elements n ≡ None)
            (λ v. value_in m.elements n ≡ Some v.items)) }
        // Under the table of the view, want of memory is the only fault.
        ensures memory { IsViewed table.now self.now self.now.bytes
            → IfErr result (λ e. e ≡ out_of_memory) }
    {
        reads_spellings();
        iso_parts::laws::parts();
        are_bytes(self.bytes);
        let front = front_of(table, n);
        let Some(place) = place_of(&self.outline, &self.bodies, n) else {
            return Ok(None);
        };
        let at = place.start.saturating_sub(front);
        let mut value = Vec::new(alloc);
        match read_value(table, n, at, self.bytes, &mut value) {
            Ok(_) => Ok(Some(value)),
            Err(fault) => Err(fault),
        }
    }
}
