//! Tables of the 1987 edition and of drafts: what they say, and how they are written and read.

use super::edition87::{ASCII87, BCD87};
use super::*;

const ASCII87_ROWS: &[(u8, FieldSpec)] = &[
    (2, number!(Coding::Ascii, LL, 19)),
    (3, number!(Coding::Ascii, Length::Fixed, 6)),
    (13, number!(Coding::Ascii, Length::Fixed, 4)),
    (18, number!(Coding::Ascii, Length::Fixed, 4)),
    (41, TERMINAL_ROW),
    (52, bytes!(Coding::HexText, Length::Fixed, 8)),
    (54, text!(LLL, 120)),
    (55, bytes!(Coding::Raw, LLL, 999)),
    (96, bytes!(Coding::HexText, Length::Fixed, 8)),
    (104, text!(LLL, 100)),
    (127, text!(LLL, 999)),
    (128, bytes!(Coding::HexText, Length::Fixed, 8)),
];

const BCD87_ROWS: &[(u8, FieldSpec)] = &[
    (2, number!(Coding::Bcd, LL_BCD, 19)),
    (34, text!(LL_BCD, 28)),
    (52, bytes!(Coding::Raw, Length::Fixed, 8)),
    (55, bytes!(Coding::Raw, LLL_BCD, 999)),
    (63, text!(LLL_BCD, 999)),
    (90, number!(Coding::Bcd, Length::Fixed, 42)),
    (100, number!(Coding::Bcd, LL_BCD, 11)),
];

/// A table of one row, of profile 1, with line ends that `to_json` doesn't write.
const TERMINAL_OF_PROFILE_1: &str = r#"{"bitmap":"hex","mti":"ascii","profile":1,"rows":[
{"class":"ANS","coding":"ascii","length":"fixed","max":8,"number":41,"pad":"right:20"}
],"version":0}"#;

/// The same table as `to_json` writes it, but for its line ends.
const TERMINAL: &str = r#"{"bitmap":"hex","mti":"ascii","profile":2,"rows":[
{"class":"ANS","coding":"ascii","length":"fixed","max":8,"number":41,"pad":"right:20"}
],"version":0}"#;

/// A table with four digits of a length, as `to_json` writes it.
const CHIP: &str =
    "{\"bitmap\":\"hex\",\"mti\":\"ascii\",\"profile\":2,\"rows\":[{\"class\":\"B\",\"coding\":\"hex\",\"length\":\"LLLL\",\
\"max\":9999,\"number\":48,\"pad\":\"none\",\"prefix\":\"ascii\"}],\"version\":0}";

const CHIP_ROW: FieldSpec = bytes!(Coding::HexText, LLLL, 9_999);

const TRACK: FieldSpec = row!(CharClass::Z, Coding::Bcd, LLL_BCD, 999, Pad::None);

const TEXT: FieldSpec = text!(Length::Fixed, 999);

/// What a table says whose type is in ASCII digits, and whose bitmaps are in hexadecimal ones.
macro_rules! ascii_table {
    ($version:expr, $count:expr, $rows:expr, $host:expr, $max_bytes:expr) => {
        Says {
            version: $version,
            mti: Digits::Ascii,
            bitmap: BitmapCoding::Hex,
            count: $count,
            rows: $rows,
            host: $host,
            max_bytes: $max_bytes,
        }
    };
}

/// What a table says whose type is in BCD, and whose bitmaps stand as they are.
macro_rules! bcd_table {
    ($version:expr, $count:expr, $rows:expr, $host:expr, $max_bytes:expr) => {
        Says {
            version: $version,
            mti: Digits::Bcd,
            bitmap: BitmapCoding::Raw,
            count: $count,
            rows: $rows,
            host: $host,
            max_bytes: $max_bytes,
        }
    };
}

/// The table with the terminal's row alone.
const TERMINALS: Says<'static> = ascii_table!(
    0,
    1,
    &[(41, TERMINAL_ROW)],
    Err(HostTableFault::NoRow(2)),
    44
);

/// A document of a table.
#[derive(Clone, Copy)]
enum Document {
    Ascii87,
    Bcd87,
    Terminal,
    TerminalOfProfile1,
    Chip,
}

use Document::{Ascii87, Bcd87, Chip, Terminal, TerminalOfProfile1};

/// Its lines.
fn lines_of(document: Document) -> &'static str {
    match document {
        Ascii87 => ASCII87,
        Bcd87 => BCD87,
        Terminal => TERMINAL,
        TerminalOfProfile1 => TERMINAL_OF_PROFILE_1,
        Chip => CHIP,
    }
}

/// Tables, the document that is written of each, and one that is read as it.
const WRITTEN_TABLES: &[(&'static str, Says<'static>, Document, Document)] = &[
    (
        "ascii87",
        ascii_table!(0, 126, ASCII87_ROWS, Ok(()), 36470),
        Ascii87,
        Ascii87,
    ),
    (
        "bcd87",
        bcd_table!(0, 126, BCD87_ROWS, Ok(()), 36141),
        Bcd87,
        Bcd87,
    ),
    (
        "a terminal, of profile 1",
        TERMINALS,
        Terminal,
        TerminalOfProfile1,
    ),
    ("a terminal, of profile 2", TERMINALS, Terminal, Terminal),
    (
        "four digits of a length",
        ascii_table!(
            0,
            1,
            &[(48, CHIP_ROW)],
            Err(HostTableFault::NoRow(2)),
            20_038
        ),
        Chip,
        Chip,
    ),
];

/// Tables of drafts.
const TABLES: &[(&'static str, Says<'static>)] = &[
    (
        "one row",
        ascii_table!(
            0,
            1,
            &[(41, ACCOUNT_ROW)],
            Err(HostTableFault::NoRow(2)),
            57
        ),
    ),
    (
        "no row, private use",
        ascii_table!(9, 0, &[], Err(HostTableFault::NotVersion0), 36),
    ),
    (
        "a terminal of 1993",
        ascii_table!(
            1,
            1,
            &[(41, TERMINAL_ROW)],
            Err(HostTableFault::NotVersion0),
            44
        ),
    ),
    (
        "the least and greatest numbers",
        bcd_table!(
            2,
            4,
            &[(128, TRACK), (66, TEXT), (2, ACCOUNT_ROW), (64, TRACK)],
            Err(HostTableFault::NotVersion0),
            2042
        ),
    ),
];

#[test]
fn tables_are_written_and_read(rt: HostRuntime) -> Result<(), Fail> {
    for (name, says, written, read) in WRITTEN_TABLES {
        let texts = (lines_of(*written), lines_of(*read));
        check(is_table(rt.alloc(), says, Some(texts)), *name)?;
    }
    Ok(())
}

#[test]
fn tables_say_what_their_drafts_do(rt: HostRuntime) -> Result<(), Fail> {
    for (name, says) in TABLES {
        check(is_table(rt.alloc(), says, None), *name)?;
    }
    Ok(())
}
