//! How characters are written.

ghost use Rattle.std.specs.Prelude.{◌≡◌, ◌++◌, ◌∷◌, [], ◌≤◌, ◌<◌, ◌+◌, ◌*◌, ◌/◌, ◌%◌, length, slice_index, IfOk, OnOk, OnErr};
ghost use Rattle.std.specs.List.{list_all};
ghost use Rattle.hex.specs.Hex.{is_hex_digit, upper_digits};
ghost use Rattle.iso_parts.specs.Spec.{is_coded, is_pad_byte};
ghost use Rattle.iso_parts.specs.Buffers.{Keeps};
ghost use Rattle.iso_parts.specs.Part.{characters, pairs, plain, with_filler};
ghost use Rattle.iso_parts.specs.Reading.{body_size, text_of};
ghost use Rattle.iso_parts.specs.Texts.{Decodes, is_plain};

use crate::class::CharClass;
use crate::fault::FieldFault;
use std::alloc::AllocError;

/// How characters are written.
#[derive(Clone, Copy, Debug, PartialEq, Eq)]
pub enum Coding {
    /// The bytes themselves.
    Ascii,
    /// Two characters a byte, high nibble first, a character being 0x30 plus its nibble. An odd count has a
    /// filler nibble in front: written 0, read 0 or F.
    Bcd,
    /// The bytes themselves, of class `B`.
    Raw,
    /// Two hexadecimal digits a byte: written in upper case, read in both.
    HexText,
}

/// The byte of two characters, the high nibble first.
#[inline(always)]
fn pair(high: u8, low: u8) -> u8
    ensures { result ≡ 16 * (high % 16) + low % 16 }
{
    high % 16 * 16 + low % 16
}

/// Appends a byte for two characters, four bytes at a time, and gives the characters that are left: fewer than eight.
#[inline(always)]
fn encode_eights<'a>(text: &'a [u8], out: &mut Vec<u8>) -> Result<&'a [u8], AllocError>
    ensures ok { IfOk result
        (λ rest. out.new.items ++ pairs rest.now ≡ out.old.items ++ pairs text.now) }
    ensures kept { Keeps out.old.items out.new.items }
{
    let mut rest = text;
    while let [a, b, c, d, e, f, g, h, after @ ..] = rest {
        out.extend_from_slice(&[pair(*a, *b), pair(*c, *d), pair(*e, *f), pair(*g, *h)])?;
        rest = after;
    }
    Ok(rest)
}

/// Appends a byte for two characters, one byte at a time.
#[inline(always)]
fn encode_twos(text: &[u8], out: &mut Vec<u8>) -> Result<(), AllocError>
    ensures ok { OnOk result (out.new.items ≡ out.old.items ++ pairs text.now) }
    ensures err { OnErr result (Keeps out.old.items out.new.items) }
{
    let mut rest = text;
    while let [high, low, after @ ..] = rest {
        out.push(pair(*high, *low))?;
        rest = after;
    }
    Ok(())
}

/// Appends a byte for two characters, the high nibble first.
fn encode_pairs(text: &[u8], out: &mut Vec<u8>) -> Result<(), AllocError>
    ensures ok { OnOk result (out.new.items ≡ out.old.items ++ pairs text.now) }
    ensures err { OnErr result (Keeps out.old.items out.new.items) }
{
    let rest = encode_eights(text, out)?;
    encode_twos(rest, out)
}

/// Appends packed characters, where the count is odd with the filler 0 in front.
fn encode_bcd(text: &[u8], out: &mut Vec<u8>) -> Result<(), AllocError>
    ensures ok { OnOk result (out.new.items ≡ out.old.items ++ pairs (with_filler 48 text.now)) }
    ensures err { OnErr result (Keeps out.old.items out.new.items) }
{
    match text {
        [first, rest @ ..] if text.len() % 2 == 1 => {
            out.push(*first % 16)?;
            encode_pairs(rest, out)
        }
        _ => encode_pairs(text, out),
    }
}

/// Whether each byte is a hexadecimal digit, of either case. The loop has no early end, and no range is skipped, so that
/// many bytes are judged at a time.
pub(crate) fn are_hex_digits(bytes: &[u8]) -> bool
    ensures { result ≡ list_all is_hex_digit bytes.now }
{
    let mut all = true;
    for b in bytes {
        all &= matches!(*b, b'0'..=b'9') | matches!(*b, b'A'..=b'F') | matches!(*b, b'a'..=b'f');
    }
    all
}

/// A hexadecimal digit, in upper case.
#[inline(always)]
pub fn hex_digit(d: u8) -> u8
    // The number is below 16.
    requires { d < 16 }
    ensures { result ≡ slice_index upper_digits d }
{
    b"0123456789ABCDEF"[d as usize]
}

/// The two digits of each byte, in upper case, one byte after the other.
static HEX_PAIRS: [u8; 512] =
    *b"000102030405060708090A0B0C0D0E0F101112131415161718191A1B1C1D1E1F202122232425262728292A2B2C2D2E2F303132333435363738393A3B3C3D3E3F404142434445464748494A4B4C4D4E4F505152535455565758595A5B5C5D5E5F606162636465666768696A6B6C6D6E6F707172737475767778797A7B7C7D7E7F808182838485868788898A8B8C8D8E8F909192939495969798999A9B9C9D9E9FA0A1A2A3A4A5A6A7A8A9AAABACADAEAFB0B1B2B3B4B5B6B7B8B9BABBBCBDBEBFC0C1C2C3C4C5C6C7C8C9CACBCCCDCECFD0D1D2D3D4D5D6D7D8D9DADBDCDDDEDFE0E1E2E3E4E5E6E7E8E9EAEBECEDEEEFF0F1F2F3F4F5F6F7F8F9FAFBFCFDFEFF";

/// Writes two digits for each byte, in upper case.
#[inline(always)]
fn write_hex(bytes: &[u8], room: &mut [u8])
    requires { length room.old ≡ 2 * length bytes.now }
    ensures { room.new ≡ plain Coding.HexText bytes.now }
{
    for (i, byte) in bytes.iter().enumerate() {
        let place = *byte as usize * 2;
        room[2 * i] = HEX_PAIRS[place];
        room[2 * i + 1] = HEX_PAIRS[place + 1];
    }
}

/// Appends two digits for each byte, in upper case.
pub(crate) fn encode_hex(bytes: &[u8], out: &mut Vec<u8>) -> Result<(), AllocError>
    requires { length bytes.now ≤ 65535 }
    ensures ok { OnOk result (out.new.items ≡ out.old.items ++ plain Coding.HexText bytes.now) }
    ensures err { OnErr result (out.new.items ≡ out.old.items) }
{
    let before = out.len();
    out.resize(before + 2 * bytes.len(), 0)?;
    let (_, room) = out.as_mut_slice().split_at_mut(before);
    write_hex(bytes, room);
    Ok(())
}

/// Appends two digits for each byte of one bitmap or two, in upper case. The size of one stands in the code, so that its
/// room is cleared, and its digits are written, without a loop.
#[inline(always)]
pub(crate) fn encode_map_digits(bytes: &[u8], out: &mut Vec<u8>) -> Result<(), AllocError>
    requires { length bytes.now ≤ 65535 }
    ensures ok { OnOk result (out.new.items ≡ out.old.items ++ plain Coding.HexText bytes.now) }
    ensures err { OnErr result (out.new.items ≡ out.old.items) }
{
    match bytes.len() {
        8 => {
            let before = out.len();
            out.extend_from_slice(&[0; 16])?;
            let (_, room) = out.as_mut_slice().split_at_mut(before);
            write_hex(bytes, room);
            Ok(())
        }
        _ => encode_hex(bytes, out),
    }
}

/// The high one of the two characters of a byte.
#[inline(always)]
fn high_character(b: u8) -> u8
    ensures { result ≡ 48 + b / 16 }
{
    b'0' + b / 16
}

/// The low one of the two characters of a byte.
#[inline(always)]
fn low_character(b: u8) -> u8
    ensures { result ≡ 48 + b % 16 }
{
    b'0' + b % 16
}

/// The eight characters of four bytes.
#[inline(always)]
fn four_pairs(a: u8, b: u8, c: u8, d: u8) -> [u8; 8]
    ensures { result ≡ characters (a ∷ b ∷ c ∷ d ∷ []) }
{
    [
        high_character(a),
        low_character(a),
        high_character(b),
        low_character(b),
        high_character(c),
        low_character(c),
        high_character(d),
        low_character(d),
    ]
}

/// Appends the two characters of each byte, four bytes at a time, and gives the bytes that are left: fewer than four.
#[inline(always)]
fn decode_fours<'a>(bytes: &'a [u8], out: &mut Vec<u8>) -> Result<&'a [u8], AllocError>
    ensures ok { IfOk result (λ rest.
        out.new.items ++ characters rest.now ≡ out.old.items ++ characters bytes.now) }
    ensures few { IfOk result (λ rest. length rest.now ≤ 3) }
    ensures kept { Keeps out.old.items out.new.items }
{
    let mut rest = bytes;
    while let [a, b, c, d, after @ ..] = rest {
        out.extend_from_slice(&four_pairs(*a, *b, *c, *d))?;
        rest = after;
    }
    Ok(rest)
}

/// Appends the two characters of each of a few bytes.
#[inline(always)]
fn decode_few(bytes: &[u8], out: &mut Vec<u8>) -> Result<(), AllocError>
    requires { length bytes.now ≤ 3 }
    ensures ok { OnOk result (out.new.items ≡ out.old.items ++ characters bytes.now) }
    ensures err { OnErr result (Keeps out.old.items out.new.items) }
{
    match bytes {
        [] => Ok(()),
        [a] => out.extend_from_slice(&[high_character(*a), low_character(*a)]),
        [a, b] => out.extend_from_slice(&[
            high_character(*a),
            low_character(*a),
            high_character(*b),
            low_character(*b),
        ]),
        [a, b, c] => out.extend_from_slice(&[
            high_character(*a),
            low_character(*a),
            high_character(*b),
            low_character(*b),
            high_character(*c),
            low_character(*c),
        ]),
        _ => unreachable!(),
    }
}

/// Appends the two characters of each byte.
#[inline(always)]
fn decode_characters(bytes: &[u8], out: &mut Vec<u8>) -> Result<(), AllocError>
    ensures ok { OnOk result (out.new.items ≡ out.old.items ++ characters bytes.now) }
    ensures err { OnErr result (Keeps out.old.items out.new.items) }
{
    let rest = decode_fours(bytes, out)?;
    decode_few(rest, out)
}

/// Appends the `n` characters of a packed body, behind its filler where the count is odd.
fn decode_bcd(n: u16, body: &[u8], out: &mut Vec<u8>) -> Result<(), FieldFault>
    ensures { Decodes out.old.items out.new.items result (text_of Coding.Bcd n body.now) }
{
    if n % 2 == 0 {
        decode_characters(body, out)?;
        return Ok(());
    }
    match body {
        [] => Err(FieldFault::BadFiller),
        [first, rest @ ..] => {
            if *first / 16 != 0 && *first / 16 != 15 {
                return Err(FieldFault::BadFiller);
            }
            out.push(b'0' + *first % 16)?;
            decode_characters(rest, out)?;
            Ok(())
        }
    }
}

/// Appends a byte for two hexadecimal digits, of either case.
fn decode_hex(n: u16, body: &[u8], out: &mut Vec<u8>) -> Result<(), FieldFault>
    ensures { Decodes out.old.items out.new.items result (text_of Coding.HexText n body.now) }
{
    let before = out.len();
    out.resize(before + body.len() / 2, 0)?;
    let (_, room) = out.as_mut_slice().split_at_mut(before);
    match hex::decode_to_slice(body, room) {
        Ok(()) => Ok(()),
        Err(_) => Err(FieldFault::BadHex),
    }
}

impl Coding {
    /// Whether values of the class can be written so.
    pub(crate) fn takes(self, class: CharClass) -> bool
        ensures { result ≡ is_coded self class }
    {
        match self {
            Coding::Ascii => class != CharClass::B,
            Coding::Bcd => matches!(class, CharClass::N | CharClass::Z),
            Coding::Raw | Coding::HexText => class == CharClass::B,
        }
    }

    /// Whether the byte may fill up values that are written so.
    pub(crate) fn takes_pad(self, pad: u8) -> bool
        ensures { result ≡ is_pad_byte self pad }
    {
        match self {
            Coding::Ascii => matches!(pad, 0x20..=0x7E),
            Coding::Bcd => matches!(pad, 0x30..=0x3F),
            Coding::Raw | Coding::HexText => false,
        }
    }

    /// Whether a character is a byte.
    pub(crate) fn is_plain(self) -> bool
        ensures { result ≡ is_plain self }
    {
        self == Coding::Ascii || self == Coding::Raw
    }

    /// How many bytes so many characters take.
    pub fn body_size(self, n: u16) -> usize
        // A character takes a byte in ASCII and raw and two bytes as hexadecimal digits; packed,
        // two characters take a byte, and an odd count is rounded up.
        ensures size { result ≡ body_size self n }
        // A character never takes more than two bytes.
        ensures few { result ≤ 2 * n }
    {
        if self.is_plain() {
            n as usize
        } else if self == Coding::Bcd {
            (n as usize + 1) / 2
        } else {
            2 * n as usize
        }
    }

    /// Appends what stands for the characters, in code of its own: they are packed or hexadecimal digits.
    #[inline(never)]
    fn encode_apart(self, text: &[u8], out: &mut Vec<u8>) -> Result<(), AllocError>
        requires { length text.now ≤ 65535 }
        ensures ok { OnOk result (out.new.items ≡ out.old.items ++ plain self text.now) }
        ensures err { OnErr result (Keeps out.old.items out.new.items) }
    {
        match self {
            Coding::Ascii | Coding::Raw => out.extend_from_slice(text),
            Coding::Bcd => encode_bcd(text, out),
            Coding::HexText => encode_hex(text, out),
        }
    }

    /// Appends what stands for the characters.
    #[inline(always)]
    pub(crate) fn encode(self, text: &[u8], out: &mut Vec<u8>) -> Result<(), AllocError>
        requires { length text.now ≤ 65535 }
        ensures ok { OnOk result (out.new.items ≡ out.old.items ++ plain self text.now) }
        ensures err { OnErr result (Keeps out.old.items out.new.items) }
    {
        if self.is_plain() {
            out.extend_from_slice(text)
        } else {
            self.encode_apart(text, out)
        }
    }

    /// Appends the `n` characters that a whole body stands for. On a fault more than was there may stand behind it.
    pub(crate) fn decode(self, n: u16, body: &[u8], out: &mut Vec<u8>) -> Result<(), FieldFault>
        ensures { Decodes out.old.items out.new.items result (text_of self n body.now) }
    {
        match self {
            Coding::Ascii | Coding::Raw => Ok(out.extend_from_slice(body)?),
            Coding::Bcd => decode_bcd(n, body, out),
            Coding::HexText => decode_hex(n, body, out),
        }
    }
}
