//! The built-in tables, of the 1987 edition. Their rows are this project's own reading of it, and several classes
//! are wider on purpose.

ghost use Rattle.std.specs.Prelude.{◌≡◌, ◌≤◌, ℕ, length, find, IfOk};
ghost use Rattle.iso_table.specs.Layout.{row_at};
ghost use Rattle.iso_table.specs.Edition87.{has_number, lines, length_of, coding_of, spec_of, row87, bitmap87};

use self::LengthKind::{Fixed, LL, LLL};
use iso_parts::CharClass::{AN, ANS, B, N, XN, ZD};
use iso_parts::Pad::{None as Unpadded, Right};
use iso_parts::raw::PLACES;
use iso_parts::{BitmapCoding, CharClass, Coding, Digits, FieldSpec, Length, Pad};

/// Which length stands before a value, however its digits are written.
#[derive(Clone, Copy)]
pub enum LengthKind {
    /// None.
    Fixed,
    /// Two digits.
    LL,
    /// Three digits.
    LLL,
}

/// A line of the table below: the elements from a first to a last number, and what their rows say.
#[derive(Clone, Copy)]
pub struct EditionLine {
    first: u8,
    last: u8,
    class: CharClass,
    kind: LengthKind,
    max: u16,
    pad: Pad,
}

/// The line of the elements from a first to a last number, with their class, length, maximum and padding.
macro_rules! line {
    ($first:literal, $last:literal, $class:ident, $kind:ident, $max:literal, $pad:ident) => {
        EditionLine {
            first: $first,
            last: $last,
            class: $class,
            kind: $kind,
            max: $max,
            pad: $pad,
        }
    };
}

/// Filled up with blanks at the end.
const BLANKS: Pad = Right(0x20);

/// The elements of the 1987 edition.
const LINES: [EditionLine; 55] = [
    line!(2, 2, N, LL, 19, Unpadded), // primary account number (PAN)
    line!(3, 3, N, Fixed, 6, Unpadded), // processing code
    line!(4, 6, N, Fixed, 12, Unpadded), // amounts: transaction, settlement, cardholder billing
    line!(7, 7, N, Fixed, 10, Unpadded), // transmission date and time
    line!(8, 10, N, Fixed, 8, Unpadded), // cardholder billing fee, conversion rates
    line!(11, 12, N, Fixed, 6, Unpadded), // system trace audit number, local time
    line!(13, 18, N, Fixed, 4, Unpadded), // dates: local, expiration, settlement, conversion, capture; merchant type
    line!(19, 24, N, Fixed, 3, Unpadded), // country codes, entry mode, card sequence number, network
    line!(25, 26, N, Fixed, 2, Unpadded), // point of service: condition code, PIN capture code
    line!(27, 27, N, Fixed, 1, Unpadded), // authorization identification response length
    line!(28, 31, XN, Fixed, 9, Unpadded), // fees
    line!(32, 33, N, LL, 11, Unpadded), // acquiring and forwarding institution
    line!(34, 34, ANS, LL, 28, Unpadded), // PAN, extended
    line!(35, 35, ZD, LL, 37, Unpadded), // track 2
    line!(36, 36, ZD, LLL, 104, Unpadded), // track 3
    line!(37, 37, ANS, Fixed, 12, Unpadded), // retrieval reference number
    line!(38, 38, ANS, Fixed, 6, Unpadded), // authorization identification response
    line!(39, 39, AN, Fixed, 2, Unpadded), // response code
    line!(40, 40, AN, Fixed, 3, Unpadded), // service restriction code
    line!(41, 41, ANS, Fixed, 8, BLANKS), // terminal
    line!(42, 42, ANS, Fixed, 15, BLANKS), // card acceptor
    line!(43, 43, ANS, Fixed, 40, BLANKS), // card acceptor's name and location
    line!(44, 44, ANS, LL, 25, Unpadded), // additional response data
    line!(45, 45, ANS, LL, 76, Unpadded), // track 1
    line!(46, 48, ANS, LLL, 999, Unpadded), // additional data: ISO, national, private
    line!(49, 51, AN, Fixed, 3, Unpadded), // currency codes
    line!(52, 52, B, Fixed, 8, Unpadded), // PIN data
    line!(53, 53, N, Fixed, 16, Unpadded), // security related control information
    line!(54, 54, ANS, LLL, 120, Unpadded), // additional amounts
    line!(55, 55, B, LLL, 999, Unpadded), // reserved, ISO (chip data)
    line!(56, 63, ANS, LLL, 999, Unpadded), // reserved: ISO, national, private
    line!(64, 64, B, Fixed, 8, Unpadded), // message authentication code
    line!(66, 66, N, Fixed, 1, Unpadded), // settlement code
    line!(67, 67, N, Fixed, 2, Unpadded), // extended payment code
    line!(68, 70, N, Fixed, 3, Unpadded), // country codes, network management information code
    line!(71, 72, N, Fixed, 4, Unpadded), // message numbers
    line!(73, 73, N, Fixed, 6, Unpadded), // date, action
    line!(74, 81, N, Fixed, 10, Unpadded), // numbers of credits, debits, transfers, inquiries, authorizations
    line!(82, 85, N, Fixed, 12, Unpadded), // fees of credits and debits
    line!(86, 89, N, Fixed, 16, Unpadded), // amounts of credits and debits
    line!(90, 90, N, Fixed, 42, Unpadded), // original data elements
    line!(91, 91, AN, Fixed, 1, Unpadded), // file update code
    line!(92, 92, AN, Fixed, 2, Unpadded), // file security code
    line!(93, 93, AN, Fixed, 5, Unpadded), // response indicator
    line!(94, 94, AN, Fixed, 7, Unpadded), // service indicator
    line!(95, 95, AN, Fixed, 42, Unpadded), // replacement amounts
    line!(96, 96, B, Fixed, 8, Unpadded), // message security code
    line!(97, 97, XN, Fixed, 17, Unpadded), // amount, net settlement
    line!(98, 98, ANS, Fixed, 25, BLANKS), // payee
    line!(99, 100, N, LL, 11, Unpadded), // settlement and receiving institution
    line!(101, 101, ANS, LL, 17, Unpadded), // file name
    line!(102, 103, ANS, LL, 28, Unpadded), // account identifications
    line!(104, 104, ANS, LLL, 100, Unpadded), // transaction description
    line!(105, 127, ANS, LLL, 999, Unpadded), // reserved: ISO, national, private
    line!(128, 128, B, Fixed, 8, Unpadded), // message authentication code
];

impl LengthKind {
    /// The length, written in these digits.
    fn length(self, digits: Digits) -> Length
        ensures { result ≡ length_of self digits }
    {
        match self {
            Fixed => Length::Fixed,
            LL => Length::LL(digits),
            LLL => Length::LLL(digits),
        }
    }
}

/// How an element is written in the table of these digits.
fn coding_of(digits: Digits, number: usize, class: CharClass) -> Coding
    ensures { result ≡ coding_of digits number class }
{
    match (class, digits) {
        (N, Digits::Bcd) => Coding::Bcd,
        (B, Digits::Ascii) if number != 55 => Coding::HexText,
        (B, _) => Coding::Raw,
        _ => Coding::Ascii,
    }
}

impl EditionLine {
    /// Whether the line is of this element.
    fn has_number(self, number: usize) -> bool
        ensures { result ≡ has_number number self }
    {
        usize::from(self.first) <= number && number <= usize::from(self.last)
    }

    /// The row of one of its elements in the table of these digits.
    fn spec(self, digits: Digits, number: usize) -> FieldSpec
        ensures { result ≡ spec_of digits number self }
    {
        FieldSpec {
            class: self.class,
            coding: coding_of(digits, number, self.class),
            length: self.kind.length(digits),
            max: self.max,
            pad: self.pad,
        }
    }
}

/// The first line of an element.
fn line_in(lines: &[EditionLine], number: usize) -> Option<EditionLine>
    ensures { result ≡ find (has_number number) lines.now }
{
    lines.iter().copied().find(|line| line.has_number(number))
}

/// The line of an element.
fn line_of(number: usize) -> Option<EditionLine>
    ensures { result ≡ find (has_number number) lines }
{
    line_in(&LINES, number)
}

/// The row of an element in the table of these digits.
fn row87(digits: Digits, number: usize) -> Option<FieldSpec>
    ensures { result ≡ row87 digits number }
{
    match line_of(number) {
        Some(line) => Some(line.spec(digits, number)),
        None => None,
    }
}

/// The rows at their numbers in the table of these digits.
pub fn places87(digits: Digits) -> [Option<FieldSpec>; PLACES]
    // There is a place for each number from 0 to 128.
    ensures size { length result ≡ 129 }
    // Each element has exactly its row of the built-in list of the 1987 edition, in these digits.
    ensures rows { (n : ℕ) → row_at result n ≡ row87 digits n }
{
    let mut places = [None; PLACES];
    for number in 0..PLACES {
        places[number] = row87(digits, number);
    }
    places
}

/// How the bitmaps are written in the table of these digits.
pub fn bitmap87(digits: Digits) -> BitmapCoding
    // With ASCII digits bitmaps are written in hexadecimal digits, with BCD as raw bytes.
    ensures { result ≡ bitmap87 digits }
{
    match digits {
        Digits::Ascii => BitmapCoding::Hex,
        Digits::Bcd => BitmapCoding::Raw,
    }
}
