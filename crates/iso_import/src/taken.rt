//! What was taken of another program's table.

ghost use Rattle.std.specs.Prelude.{◌≡◌, ◌+◌, ◌&&◌, not, [], length, is_none, IsErr, OnOk};
ghost use Rattle.iso_parts.specs.Numbers.{is_element};
ghost use Rattle.iso_table.specs.Accepted.{contents};
ghost use Rattle.iso_import.specs.Found.{draft_of, found, has_number, nothing_found, TakesFront};
ghost use Rattle.iso_import.specs.Found.{with_row};

use iso_parts::{BitmapCoding, Digits, FieldSpec};
use iso_table::{Draft, Row};
use std::alloc::{AllocError, Global};

/// What was taken of another program's table.
#[derive(Drop)]
pub struct Imported {
    /// The table. Its rows are such as a table can have.
    pub draft: Draft,
    /// A sentence for each field that the table doesn't have, and for each setting of a packager that a table can't have.
    pub left: Vec<String>,
}

/// What was taken so far.
#[derive(Drop)]
pub(crate) struct Taken {
    /// How the type is written, where a field said it.
    pub(crate) mti: Option<Digits>,
    /// How the bitmaps are written, where a field said it.
    pub(crate) bitmap: Option<BitmapCoding>,
    /// The rows.
    pub(crate) rows: Vec<Row>,
    /// The sentences.
    pub(crate) left: Vec<String>,
}

impl Taken {
    /// Nothing yet.
    pub(crate) fn new(alloc: Global) -> Taken
        ensures found { found result ≡ nothing_found }
        ensures left { result.left.items ≡ [] }
    {
        Taken {
            mti: None,
            bitmap: None,
            rows: Vec::new(alloc),
            left: Vec::new(alloc),
        }
    }

    /// The table. Its message types begin with this digit; what no field said is in ASCII.
    pub(crate) fn into_imported(self, version: u8) -> Imported
        ensures draft { contents result.draft ≡ draft_of version (found self) }
        ensures left { result.left.items ≡ self.left.items }
    {
        Imported {
            draft: Draft {
                version,
                mti: self.mti.unwrap_or(Digits::Ascii),
                bitmap: self.bitmap.unwrap_or(BitmapCoding::Hex),
                rows: self.rows,
            },
            left: self.left,
        }
    }

    /// Takes how the type and the bitmaps are written, where no earlier field said it. Tells whether that is new.
    pub(crate) fn take_front(&mut self, mti: Option<Digits>, bitmap: Option<BitmapCoding>) -> bool
        ensures front { TakesFront (found self.old) (found self.new) mti bitmap result }
        ensures left { self.new.left.items ≡ self.old.left.items }
    {
        let is_type = self.mti.is_none() && mti.is_some();
        let is_bitmap = self.bitmap.is_none() && bitmap.is_some();
        if is_type {
            self.mti = mti;
        }
        if is_bitmap {
            self.bitmap = bitmap;
        }
        is_type || is_bitmap
    }

    /// Adds a row.
    pub(crate) fn add(&mut self, number: u16, spec: FieldSpec) -> Result<(), AllocError>
        ensures row { OnOk result (found self.new ≡ record (found self.old) {
          rows = with_row (found self.old).rows number spec;
        }) }
        ensures refused { IsErr result → found self.new ≡ found self.old }
        ensures left { self.new.left.items ≡ self.old.left.items }
    {
        self.rows.push(Row { number, spec })?;
        Ok(())
    }

    /// Says that the table doesn't have a field, by its number and what it is there, and why.
    pub(crate) fn leave(
        &mut self,
        alloc: Global,
        number: &str,
        what: &str,
        why: &str,
    ) -> Result<(), AllocError>
        ensures found { found self.new ≡ found self.old }
        ensures left { OnOk result
            (length self.new.left.items ≡ length self.old.left.items + 1) }
    {
        let sentence = format!(in alloc; "field {number} ({what}): {why}")?;
        self.left.push(sentence)?;
        Ok(())
    }

    /// Whether a row has this number.
    fn has(&self, number: u16) -> bool
        ensures { result ≡ has_number self.now.rows.items number }
    {
        self.rows.iter().any(|row| row.number == number)
    }

    /// Why no row more may have this number, where that is so.
    pub(crate) fn refusal_of(&self, number: u16) -> Option<&'static str>
        ensures { is_none result
            ≡ is_element number && not (has_number self.now.rows.items number) }
    {
        let earlier = Some("an earlier field has this number");
        match number {
            0 if self.mti.is_some() => earlier,
            1 if self.bitmap.is_some() => earlier,
            0 | 1 => Some("the type or the bitmaps aren't written so"),
            65 | 129.. => Some("no table has a row of this number"),
            _ if self.has(number) => earlier,
            _ => None,
        }
    }
}
