//! A table that was accepted.

ghost use Rattle.std.specs.Prelude.{◌≡◌, ◌≢◌, ◌+◌, ◌↔◌};
ghost use Rattle.std.specs.Prelude.{ℕ, length, is_some, count_by, sum_by, IfOk, IfErr, IsErrOf, IsOk, IsTrue, MatchResult, Some};
ghost use Rattle.std.specs.Option.{option_copied};
ghost use Rattle.iso_table.specs.declared.fault.TableFault.TheVariants.{NotJson, Memory};
ghost use Rattle.iso_parts.specs.Bitmap.{contains};
ghost use Rattle.iso_table.specs.Layout.{Layout, IsAccepted, AreGood, Knows, row_at, is_version};
ghost use Rattle.iso_table.specs.Accepted.{IsAcceptable, Holds, IsFirstFault, contents, draft_fault};
ghost use Rattle.iso_table.specs.Document.{IsTableOf, IsDocumentFault, IsNotJson, document};
ghost use Rattle.serde_json.specs.Written.{compact_text};
ghost use Rattle.iso_table.specs.Edition87.{IsEdition87};
ghost use Rattle.iso_table.specs.HostReady.{IsFirstHostFault, IsHostReady, host_fault};
ghost use Rattle.iso_table.specs.Sizes.{max_bytes};
ghost use Rattle.iso_table.specs.Rows.{rows_of, draft_of};
ghost use Rattle.iso_table.specs.Equality.{same_layout, same_layout_equiv};
ghost use Rattle.std.specs.Cmp.{partial_equiv_from_equiv};

use crate::draft::{Draft, copies_of};
use crate::edition87::{bitmap87, places87};
use crate::fault::{HostTableFault, NoMemory, TableFault};
use crate::host_ready::host_rows_fault;
use crate::iteration::Rows;
use crate::placing::{is_version, known_in, places_of, row_at};
use crate::reading::{draft_in, value_of};
use crate::sizes::places_bytes;
use crate::writing::document;
use iso_parts::{Bitmap, BitmapCoding, Digits, FieldSpec};
use std::alloc::{AllocError, Global};
use std::marker::Model;

/// How the messages of a network are written. Its version is 0, 1, 2 or 9, and each row is good and of
/// an element from 2 to 64 or 66 to 128.
#[derive(Debug, Drop)]
pub struct Table {
    version: u8,
    mti: Digits,
    bitmap: BitmapCoding,
    rows: Vec<Option<FieldSpec>>,
    known: Bitmap,
    ghost knows: { Knows (contains known) rows.items },
}

impl Model for Table {
    ghost Value = { Layout };

    ghost view = { λ t.
        record { version = t.version; mti = t.mti; bitmap = t.bitmap; rows = t.rows.items } };

    ghost invariant = { λ t. IsAccepted
        (record { version = t.version; mti = t.mti; bitmap = t.bitmap; rows = t.rows.items }) };
}

/// An equal table, in memory of its own. Where memory ran out, nothing is left behind.
impl Clone for Table {
    ghost is_clone = { λ t copy. copy ≡ t };

    fn clone(&self) -> Result<Table, AllocError> {
        let alloc = *self.rows.allocator();
        Ok(Table {
            version: self.version,
            mti: self.mti,
            bitmap: self.bitmap,
            rows: Vec::from_slice(alloc, &self.rows)?,
            known: self.known,
        })
    }
}

/// The same version, the same codings and the same rows. Takes no memory.
impl PartialEq for Table {
    ghost eq = { same_layout };

    ghost laws = { partial_equiv_from_equiv same_layout_equiv };

    fn eq(&self, other: &Table) -> bool
        // The version, the codings and the rows are compared.
        ensures same { result ≡ same_layout self.now other.now }
        // It is true exactly where the tables are equal.
        ensures equal { IsTrue result ↔ (self.now ≡ other.now) }
    {
        (self.version == other.version && self.mti == other.mti)
            && (self.bitmap == other.bitmap && self.rows.as_slice() == other.rows.as_slice())
    }
}

impl Eq for Table {
    ghost laws = { same_layout_equiv };
}

impl Table {
    /// The table of a draft, or the first fault: the version's, and then row by row that of the
    /// number, of a number that stood earlier, of the maximum, the coding and the padding. A draft
    /// that is refused is dropped.
    pub fn check(alloc: Global, draft: Draft) -> Result<Table, TableFault>
        // At `Ok` the draft is an accepted one, and the table has its version, codings and rows.
        ensures ok { IfOk result (λ t. IsAcceptable (contents draft) × Holds t (contents draft)) }
        // At `Ok` the table is an accepted one: a version that tables may have, and good rows, each
        // at the number of an element.
        ensures accepted { IfOk result IsAccepted }
        // Memory aside, only a draft that isn't an accepted one is refused.
        ensures refused { IfErr result (λ e. e ≢ Memory → ¬ IsAcceptable (contents draft)) }
        // Memory aside, the fault tells the first thing wrong: the version, and then row by row.
        ensures fault { IfErr result (λ e. e ≢ Memory → draft_fault (contents draft) ≡ Some e) }
        // Where the version is one that tables may have, and memory aside, the fault is that of one
        // row, and the rows before it are good and have other numbers each.
        ensures first { IfErr result (λ e. e ≢ Memory → IsTrue (is_version draft.version)
            → IsFirstFault (contents draft).rows e) }
    {
        if !is_version(draft.version) {
            return Err(TableFault::BadVersion);
        }
        let places = places_of(draft.rows.as_slice())?;
        let known = known_in(&places);
        Ok(Table {
            version: draft.version,
            mti: draft.mti,
            bitmap: draft.bitmap,
            rows: Vec::from_array(alloc, places)?,
            known,
        })
    }

    /// What [`Table::from_json`] does.
    fn read(alloc: Global, text: &[u8]) -> Result<Table, TableFault>
        ensures ok { IfOk result (IsTableOf text.now) }
        ensures accepted { IfOk result IsAccepted }
        ensures not_json { IsErrOf result TableFault.NotJson → IsNotJson text.now }
        ensures fault { IfErr result (λ e. e ≢ Memory → e ≢ NotJson → IsDocumentFault text.now e) }
    {
        let value = value_of(alloc, text)?;
        let draft = draft_in(alloc, &value)?;
        Table::check(alloc, draft)
    }

    /// The table of a JSON text, or the first fault: no JSON; no object with a whole number as
    /// `profile`; another profile than 1 and 2; a member that is missing, unknown or of another kind; and
    /// then as [`Table::check`]. A text that stands for a table, as what [`Table::to_json`] wrote,
    /// gives that very table, unless memory ran out. A refusal leaves nothing behind: the text is
    /// only read.
    pub fn from_json(alloc: Global, text: &[u8]) -> Result<Table, TableFault>
        // At `Ok` the table is the one that the text stands for.
        ensures ok { IfOk result (IsTableOf text.now) }
        // A text that stands for an accepted table gives that very table, unless memory runs out.
        ensures only { (t : Layout) → IsAccepted t → IsTableOf text.now t
            → MatchResult result (λ u. u ≡ t) (λ e. e ≡ Memory) }
        // `NotJson` comes only for a text that is no JSON.
        ensures not_json { IsErrOf result TableFault.NotJson → IsNotJson text.now }
        // Any fault but `NotJson` and `Memory` is the first thing that is wrong with a JSON text.
        ensures fault { IfErr result (λ e. e ≢ Memory → e ≢ NotJson → IsDocumentFault text.now e) }
    {
        Table::read(alloc, text)
    }

    /// The JSON text of the table, of profile 2: compact, with members in the order of their names,
    /// rows in the order of their numbers and pads in upper-case digits. The table stays as it is,
    /// also where memory ran out.
    pub fn to_json(&self, alloc: Global) -> Result<Vec<u8>, NoMemory>
        // Memory aside, the text is exactly the document of profile 2: compact, its members by name
        // and its rows by number.
        ensures text { IfOk result (λ text. text.items ≡ compact_text (document self.now)) }
        // Memory aside, the text stands for this very table.
        ensures read_back { IfOk result (λ text. IsTableOf text.items self.now) }
    {
        let value = document(alloc, self.version, self.mti, self.bitmap, &self.rows)?;
        Ok(value.to_vec(alloc)?)
    }

    /// The table of the 1987 edition in ASCII: version 0 and 126 rows, with type, lengths and numbers
    /// in ASCII digits, and bitmaps and the bytes of elements 52, 64, 96 and 128 in hexadecimal
    /// digits. The rows are this project's own reading of the edition. Where memory ran out, nothing
    /// is left behind.
    pub fn ascii87(alloc: Global) -> Result<Table, NoMemory>
        // Memory aside, the version is 0, digits are ASCII, bitmaps are hexadecimal digits, and
        // each element has exactly its row of docs/ELEMENTS.md.
        ensures { IfOk result (IsEdition87 Digits.Ascii) }
    {
        Table::edition87(alloc, Digits::Ascii)
    }

    /// The same table in BCD: type, lengths and numbers in BCD, bitmaps and bytes as they are. Where
    /// memory ran out, nothing is left behind.
    pub fn bcd87(alloc: Global) -> Result<Table, NoMemory>
        // Memory aside, the version is 0, digits are BCD, bitmaps are raw bytes, and each element
        // has exactly its row of docs/ELEMENTS.md.
        ensures { IfOk result (IsEdition87 Digits.Bcd) }
    {
        Table::edition87(alloc, Digits::Bcd)
    }

    /// The table of the 1987 edition whose digits are written so.
    fn edition87(alloc: Global, digits: Digits) -> Result<Table, NoMemory>
        ensures { IfOk result (IsEdition87 digits) }
    {
        let places = places87(digits);
        let known = known_in(&places);
        Ok(Table {
            version: 0,
            mti: digits,
            bitmap: bitmap87(digits),
            rows: Vec::from_array(alloc, places)?,
            known,
        })
    }

    /// The row of an element, if it has one.
    pub fn row(&self, number: u8) -> Option<&FieldSpec>
        // It is the element's row, and `None` exactly where the table has none.
        ensures row { option_copied result ≡ row_at self.now.rows number }
        // Each row of the table is good: its maximum, coding and padding are allowed.
        ensures good { AreGood self.now.rows }
        // The whole table is an accepted one: its version is one that tables may have, and each row
        // is good and at the number of an element.
        ensures accepted { IsAccepted self.now }
    {
        row_at(&self.rows, usize::from(number))
    }

    /// The numbers of the elements that have a row.
    pub fn known(&self) -> Bitmap
        ensures { Knows (contains result) self.now.rows }
    {
        self.known
    }

    /// The first digit of the message types that the table is for.
    pub fn version(&self) -> u8
        // It is the table's version.
        ensures version { result ≡ self.now.version }
        // Each row of the table is good: its maximum, coding and padding are allowed.
        ensures good { AreGood self.now.rows }
    {
        self.version
    }

    /// How the four digits of a message type are written.
    pub fn mti(&self) -> Digits
        ensures { result ≡ self.now.mti }
    {
        self.mti
    }

    /// How both bitmaps are written.
    pub fn bitmap(&self) -> BitmapCoding
        ensures { result ≡ self.now.bitmap }
    {
        self.bitmap
    }

    /// How many rows the table has.
    pub fn rows(&self) -> usize
        ensures { result ≡ count_by is_some self.now.rows }
    {
        self.rows.iter().filter(|place| place.is_some()).count()
    }

    /// The rows, in ascending order. Takes no memory.
    pub fn iter(&self) -> Rows<'_>
        ensures { result ≡ rows_of self.now }
    {
        Rows::of(&self.rows)
    }

    /// A draft that says what the table says, its rows in ascending order: checked again it gives an equal table. The
    /// table stays as it is, also where memory ran out.
    pub fn to_draft(&self, alloc: Global) -> Result<Draft, NoMemory>
        // Memory aside, the draft has the table's version, codings and rows, in ascending order.
        ensures contents { IfOk result (λ draft. contents draft ≡ draft_of self.now) }
        // Memory aside, the draft is an accepted one, and says what the table says.
        ensures accepted { IfOk result
            (λ draft. IsAcceptable (contents draft) × Holds self.now (contents draft)) }
        // Memory aside, each accepted table that says what the draft says is this very table.
        ensures again { IfOk result
            (λ draft. (t : Layout) → IsAccepted t → Holds t (contents draft) → t ≡ self.now) }
    {
        Ok(Draft {
            version: self.version,
            mti: self.mti,
            bitmap: self.bitmap,
            rows: copies_of(alloc, self.rows(), self.iter())?,
        })
    }

    /// How many bytes a message has at most: its type, both bitmaps and the longest field of every
    /// row.
    pub fn max_bytes(&self) -> u64
        ensures { result ≡ max_bytes self.now }
    {
        let head = self.mti.mti_size() + 2 * self.bitmap.size();
        head as u64 + places_bytes(&self.rows)
    }

    /// Whether an issuer host can serve under the table: version 0, and for the elements of requests and responses
    /// rows that every response fits. Else the first thing that is wrong: the version, then by ascending element.
    /// Takes no memory, and a refusal changes nothing: the table can be used as before.
    pub fn host_ready(&self) -> Result<(), HostTableFault>
        // `Ok` comes exactly where the version is 0, no row that a host needs is missing, and each
        // row that it looks at has its shape.
        ensures ready { IsOk result ↔ IsHostReady self.now }
        // A fault tells the first thing that is wrong: the version, then by ascending element a row
        // that is missing or of another shape.
        ensures fault { IfErr result (λ e. host_fault self.now ≡ Some e) }
        // Where the version is 0, the fault is that of one row that a host needs, and those before
        // it, by ascending element, are as they have to be.
        ensures first { IfErr result
            (λ e. self.now.version ≡ 0 → IsFirstHostFault self.now.rows e) }
    {
        if self.version != 0 {
            return Err(HostTableFault::NotVersion0);
        }
        match host_rows_fault(&self.rows) {
            Some(fault) => Err(fault),
            None => Ok(()),
        }
    }
}
