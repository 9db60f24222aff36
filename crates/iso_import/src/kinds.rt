//! What a class of jPOS is in a row.

ghost use Rattle.std.specs.Prelude.{◌≡◌, Some};
ghost use Rattle.iso_import.specs.Kinds.{named_in, ascii_classes, bcd_classes, bytes_kind, kind_of, on_track, plain, row_with};

use iso_parts::{CharClass, Coding, Digits, FieldSpec, Length, Pad};

/// How the bytes of `IFA_LLBINARY` and `IFA_LLLBINARY` stand in a packager.
#[derive(Clone, Copy, Debug, PartialEq, Eq)]
pub enum Bytes {
    /// That isn't known.
    Unknown,
    /// As hexadecimal digits.
    Hex,
    /// As they are.
    Raw,
}

/// A row without the most characters of its values.
#[derive(Clone, Copy)]
pub(crate) struct Kind {
    pub(crate) class: CharClass,
    pub(crate) coding: Coding,
    pub(crate) length: Length,
    pub(crate) pad: Pad,
}

impl Kind {
    /// The row, with the most characters of its values.
    pub(crate) fn with(self, max: u16) -> FieldSpec
        ensures { result ≡ row_with self max }
    {
        FieldSpec {
            class: self.class,
            coding: self.coding,
            length: self.length,
            max,
            pad: self.pad,
        }
    }
}

/// Values without padding.
fn plain(class: CharClass, coding: Coding, length: Length) -> Option<Kind>
    ensures { result ≡ Some (plain class coding length) }
{
    Some(Kind {
        class,
        coding,
        length,
        pad: Pad::None,
    })
}

/// Values in ASCII.
fn ascii_kind(class: &str) -> Option<Kind>
    ensures { result ≡ named_in ascii_classes class.now }
{
    let (number, text) = (CharClass::N, CharClass::ANS);
    match class {
        "IF_CHAR" => Some(Kind {
            class: text,
            coding: Coding::Ascii,
            length: Length::Fixed,
            pad: Pad::Right(b' '),
        }),
        "IFA_NUMERIC" => plain(number, Coding::Ascii, Length::Fixed),
        "IFA_LLNUM" => plain(number, Coding::Ascii, Length::LL(Digits::Ascii)),
        "IFA_LLLNUM" => plain(number, Coding::Ascii, Length::LLL(Digits::Ascii)),
        "IFA_LLCHAR" => plain(text, Coding::Ascii, Length::LL(Digits::Ascii)),
        "IFA_LLLCHAR" => plain(text, Coding::Ascii, Length::LLL(Digits::Ascii)),
        "IFA_LLLLCHAR" => plain(text, Coding::Ascii, Length::LLLL(Digits::Ascii)),
        "IFA_AMOUNT" => plain(CharClass::XN, Coding::Ascii, Length::Fixed),
        "IFA_BINARY" => plain(CharClass::B, Coding::HexText, Length::Fixed),
        _ => None,
    }
}

/// Values in BCD, or behind lengths in BCD.
fn bcd_kind(class: &str) -> Option<Kind>
    ensures { result ≡ named_in bcd_classes class.now }
{
    let (number, text, bytes) = (CharClass::N, CharClass::ANS, CharClass::B);
    match class {
        "IFB_NUMERIC" => plain(number, Coding::Bcd, Length::Fixed),
        "IFB_LLNUM" => plain(number, Coding::Bcd, Length::LL(Digits::Bcd)),
        "IFB_LLLNUM" => plain(number, Coding::Bcd, Length::LLL(Digits::Bcd)),
        "IFB_LLCHAR" => plain(text, Coding::Ascii, Length::LL(Digits::Bcd)),
        "IFB_LLLCHAR" => plain(text, Coding::Ascii, Length::LLL(Digits::Bcd)),
        "IFB_BINARY" => plain(bytes, Coding::Raw, Length::Fixed),
        "IFB_LLBINARY" => plain(bytes, Coding::Raw, Length::LL(Digits::Bcd)),
        "IFB_LLLBINARY" => plain(bytes, Coding::Raw, Length::LLL(Digits::Bcd)),
        _ => None,
    }
}

/// Bytes behind lengths in ASCII, of which a packager doesn't say how they stand.
fn bytes_kind(class: &str, bytes: Bytes) -> Option<Kind>
    ensures { result ≡ bytes_kind bytes class.now }
{
    let length = match class {
        "IFA_LLBINARY" => Length::LL(Digits::Ascii),
        "IFA_LLLBINARY" => Length::LLL(Digits::Ascii),
        _ => return None,
    };
    match bytes {
        Bytes::Unknown => None,
        Bytes::Hex => plain(CharClass::B, Coding::HexText, length),
        Bytes::Raw => plain(CharClass::B, Coding::Raw, length),
    }
}

/// What a class is in a row, where its bytes are those of one.
pub(crate) fn kind_of(class: &str, bytes: Bytes) -> Option<Kind>
    ensures { result ≡ kind_of bytes class.now }
{
    if let Some(kind) = ascii_kind(class) {
        return Some(kind);
    }
    match bcd_kind(class) {
        Some(kind) => Some(kind),
        None => bytes_kind(class, bytes),
    }
}

/// A row of digits as a track has them, with the separator.
pub(crate) fn on_track(spec: FieldSpec) -> FieldSpec
    ensures { result ≡ on_track spec }
{
    let class = match (spec.class, spec.coding) {
        (CharClass::N, Coding::Bcd) => CharClass::Z,
        (CharClass::N, _) => CharClass::ZD,
        (class, _) => class,
    };
    FieldSpec { class, ..spec }
}

/// Why no row has the bytes of a class.
pub(crate) fn no_row(class: &str) -> &'static str {
    if class == "IFA_LLBINARY" || class == "IFA_LLLBINARY" {
        return "say by --bytes whether its bytes stand as hexadecimal digits (hex) or raw";
    }
    if class.starts_with("IFE_") || class.starts_with("IF_ECHAR") {
        return "it is written in EBCDIC, and no row is";
    }
    if class.starts_with("IFB_LLH") || class.starts_with("IFB_LLLH") {
        return "its length is a binary number, and a row's is digits";
    }
    if class.starts_with("IFB_AMOUNT") {
        return "its C or D is a character before digits in BCD, and a row has one coding";
    }
    if class.starts_with("IFB_F") || class.starts_with("IFA_F") {
        return "its length is told, and its bytes are as many as the longest value has all the same";
    }
    if class.starts_with("IF_NOP") {
        return "it has no bytes, and each row has some";
    }
    if class.starts_with("IFA_BITMAP") || class.starts_with("IFB_BITMAP") {
        return "it is a bitmap within the message, and rows have values";
    }
    "the class isn't known here"
}
