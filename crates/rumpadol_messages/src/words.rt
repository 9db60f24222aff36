//! The words about messages.

use iso_wire::Header;

/// The words about messages that are read or written under one table.
#[derive(Clone, Copy, Debug)]
pub struct MessageWords<'a> {
    /// The table's name or path.
    pub table: &'a str,
    /// The path of what is read; `-` is standard input.
    pub input: &'a str,
    /// Whether bytes are in hexadecimal digits.
    pub is_hex: bool,
    /// The header of frames, where messages stand in frames.
    pub header: Option<Header>,
    /// How many bytes stand before the type of each message.
    pub skip: u16,
    /// Whether all values are shown in full.
    pub is_clear: bool,
    /// Whether JSON is written.
    pub is_json: bool,
    /// The path of a network's own names.
    pub names: Option<&'a str>,
}

/// The words about messages that are written under another table.
#[derive(Clone, Copy, Debug)]
pub struct ConvertWords<'a> {
    /// The name or path of the table that they are read by.
    pub from: &'a str,
    /// The name or path of the table that they are written by.
    pub to: &'a str,
    /// The path of what is read; `-` is standard input.
    pub input: &'a str,
    /// Whether bytes are in hexadecimal digits.
    pub is_hex: bool,
    /// The header of frames, where messages stand in frames.
    pub header: Option<Header>,
    /// How many bytes stand before the type of each message.
    pub skip: u16,
}

/// What is asked about messages.
#[derive(Clone, Copy, Debug)]
pub enum MessageJob<'a> {
    /// `explain TABLE [INPUT]`
    Explain(MessageWords<'a>),
    /// `decode TABLE [INPUT]`
    Decode(MessageWords<'a>),
    /// `encode TABLE [INPUT]`
    Encode(MessageWords<'a>),
    /// `convert FROM TO [INPUT]`
    Convert(ConvertWords<'a>),
}

impl<'a> MessageJob<'a> {
    /// The path of what is read; `-` is standard input.
    pub fn input(&self) -> &'a str {
        match self {
            MessageJob::Explain(words) | MessageJob::Decode(words) | MessageJob::Encode(words) =>
                words.input,
            MessageJob::Convert(words) => words.input,
        }
    }
}
