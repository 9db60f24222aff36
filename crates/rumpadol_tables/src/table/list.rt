//! `table list`: the built-in tables.

ghost use Rattle.std.specs.Prelude.{◌≡◌, ◌++◌, IfOk, OnOk, string_bytes};
ghost use Rattle.iso_table.specs.Names.{bitmap_name, digits_name};
ghost use Rattle.rumpadol_tables.specs.Tables.{ListsBuiltIn, list_line};

use crate::stop::{Stop, write_output};
use iso_parts::Digits;
use iso_table::{BitmapCoding, Table};
use std::alloc::{AllocError, Global};
use std::io::Write;

fn digits_name(digits: Digits) -> &'static str
    ensures { result.now ≡ digits_name digits }
{
    match digits {
        Digits::Ascii => "ascii",
        Digits::Bcd => "bcd",
    }
}

fn bitmap_name(bitmap: BitmapCoding) -> &'static str
    ensures { result.now ≡ bitmap_name bitmap }
{
    match bitmap {
        BitmapCoding::Raw => "raw",
        BitmapCoding::Hex => "hex",
    }
}

/// The line of a built-in table.
fn line_of(alloc: Global, name: &str, table: &Table) -> Result<String, AllocError>
    ensures { IfOk result (λ line. string_bytes line ≡ list_line name.now table.now) }
{
    let (version, rows) = (table.version(), table.rows());
    let (mti, bitmap) = (digits_name(table.mti()), bitmap_name(table.bitmap()));
    format!(in alloc;
        "{name}  version {version}, type in {mti}, bitmaps in {bitmap}, {rows} rows\n"
    )
}

/// Lists the built-in tables, a line each.
pub fn list<O: Write>(alloc: Global, output: &mut O) -> Result<(), Stop>
    // At `Ok` the output grew by the lines of `ascii87` and `bcd87`, and by nothing else.
    ensures { OnOk result (ListsBuiltIn
        (record { old = O.contents output.old; new = O.contents output.new })) }
{
    let ascii = Table::ascii87(alloc)?;
    let bcd = Table::bcd87(alloc)?;
    let mut lines = line_of(alloc, "ascii87", &ascii)?;
    let last = line_of(alloc, "bcd87", &bcd)?;
    lines.push_str(&last)?;
    write_output(output, lines.as_bytes())
}
