//! How much of a line's front is of one kind.

ghost use Rattle.std.specs.Prelude.{◌≡◌, ◌≤◌, length};
ghost use Rattle.std.specs.List.{prefix_len, position_or_len};
ghost use Rattle.hex.specs.Hex.{is_hex_digit};
ghost use Rattle.iso_input.specs.Dump.{is_newline, is_blank, is_white, is_zero, is_margin};

/// Whether the byte is a blank within a line.
pub(crate) fn is_blank(byte: u8) -> bool
    ensures { result ≡ is_blank byte }
{
    matches!(byte, b' ' | b'\t' | b'\r')
}

/// Whether the byte is a hexadecimal digit.
pub(crate) fn is_hex_digit(byte: u8) -> bool
    ensures { result ≡ is_hex_digit byte }
{
    matches!(byte, b'0'..=b'9' | b'a'..=b'f' | b'A'..=b'F')
}

/// How many blanks stand in front.
pub(crate) fn blanks(text: &[u8]) -> usize
    ensures size { result ≡ prefix_len is_blank text.now }
    ensures within { result ≤ length text.now }
{
    text.iter().take_while(|b| is_blank(**b)).count()
}

/// How many blanks and ends of lines stand in front.
pub(crate) fn whites(text: &[u8]) -> usize
    ensures size { result ≡ prefix_len is_white text.now }
    ensures within { result ≤ length text.now }
{
    text.iter()
        .take_while(|b| is_blank(**b) || **b == b'\n')
        .count()
}

/// How many zeros stand in front.
pub(crate) fn zeros(text: &[u8]) -> usize
    ensures size { result ≡ prefix_len is_zero text.now }
    ensures within { result ≤ length text.now }
{
    text.iter().take_while(|b| **b == b'0').count()
}

/// How many blanks and colons stand in front.
pub(crate) fn margin(text: &[u8]) -> usize
    ensures size { result ≡ prefix_len is_margin text.now }
    ensures within { result ≤ length text.now }
{
    text.iter()
        .take_while(|b| is_blank(**b) || **b == b':')
        .count()
}

/// How many hexadecimal digits stand in front.
pub(crate) fn digits(text: &[u8]) -> usize
    ensures size { result ≡ prefix_len is_hex_digit text.now }
    ensures within { result ≤ length text.now }
{
    text.iter().take_while(|b| is_hex_digit(**b)).count()
}

/// How many bytes the first line has, without its end.
pub(crate) fn line_len(text: &[u8]) -> usize
    ensures size { result ≡ position_or_len is_newline text.now }
    ensures within { result ≤ length text.now }
{
    text.iter().take_while(|b| **b != b'\n').count()
}
