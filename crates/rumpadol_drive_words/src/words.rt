//! The words about a run.

use iso_wire::Header;

/// The largest acquirer's number: eleven nines (element 32).
pub const MOST_ACQUIRER: u64 = 99_999_999_999;

/// The most connections of a run.
pub const MOST_CONNECTIONS: u64 = 1_000;

/// The most purchases of a run: no trace number is above it.
pub const MOST_COUNT: u32 = 999_999;

/// The most transactions that may be open: as many notes as they have at once are kept together.
pub const MOST_OPEN: u64 = 20_000;

/// The longest that an answer is waited for, in milliseconds: ten minutes.
pub const MOST_PATIENCE: u64 = 600_000;

/// The most purchases that begin in a second.
pub const MOST_RATE: u32 = 1_000_000;

/// The longest run, in seconds: a week.
pub const MOST_TIME: u64 = 604_800;

/// The words about a run.
#[derive(Clone, Copy, Debug)]
pub struct DriveWords<'a> {
    /// Where the host listens.
    pub address: &'a str,
    /// The table's name or path.
    pub table: &'a str,
    /// The header of frames.
    pub header: Header,
    /// The acquirer's number (element 32).
    pub acquirer: u64,
    /// The path of the host's document of accounts.
    pub accounts: &'a str,
    /// How many connections there are.
    pub peers: usize,
    /// How many transactions may be open at once; without it, 16 a connection.
    pub most_open: Option<usize>,
    /// How many purchases begin in a second, if that is asked.
    pub rate: Option<u32>,
    /// How many purchases begin at most.
    pub count: u32,
    /// How long the run takes at most, in seconds.
    pub seconds: u64,
    /// The range of amounts, as `LEAST..MOST`.
    pub amount: &'a str,
    /// How many of a hundred transactions are of which kind, as `hold=20,complete=10`, if not all are purchases.
    pub mix: Option<&'a str>,
    /// How long an answer is waited for, in milliseconds.
    pub patience: u64,
    /// How likely a frame is lost, as a decimal fraction.
    pub lose: &'a str,
    /// How likely a frame comes twice.
    pub repeat: &'a str,
    /// How likely a connection is cut behind a frame.
    pub cut: &'a str,
    /// The range of milliseconds that a frame is held back, as `A..B`.
    pub delay: &'a str,
    /// From it all is drawn.
    pub seed: u64,
    /// Whether both books are compared at the end.
    pub checks: bool,
    /// Whether JSON is written.
    pub is_json: bool,
    /// The path of the picture, if one is asked.
    pub picture: Option<&'a str>,
    /// The path of the acquirer's diary, if it keeps one.
    pub journal: Option<&'a str>,
    /// Whether the diary is made.
    pub is_new: bool,
}

/// The words about a day whose frames are sent again.
#[derive(Clone, Copy, Debug)]
pub struct DayWords<'a> {
    /// Where the host listens.
    pub address: &'a str,
    /// The table's name or path.
    pub table: &'a str,
    /// The header of frames.
    pub header: Header,
    /// The path of the frames that are sent.
    pub frames: &'a str,
    /// The path of the frames that are expected.
    pub expected: &'a str,
    /// For how many milliseconds the host may take nothing and answer nothing.
    pub patience: u64,
    /// Whether JSON is written.
    pub is_json: bool,
    /// Whether card data are shown in full.
    pub is_clear: bool,
}

/// What is asked of an acquirer.
#[derive(Clone, Copy, Debug)]
pub enum DriveJob<'a> {
    /// `drive ADDRESS --acquirer NUMBER --accounts FILE`
    Buy(DriveWords<'a>),
    /// `drive ADDRESS --frames FILE --expect FILE`
    Again(DayWords<'a>),
}

impl<'a> DriveJob<'a> {
    /// The table's name or path.
    pub fn table(&self) -> &'a str {
        match self {
            DriveJob::Buy(words) => words.table,
            DriveJob::Again(words) => words.table,
        }
    }
}

/// The word of a header.
pub fn header_word(header: Header) -> &'static str {
    match header {
        Header::Binary2 => "binary2",
        Header::Ascii4 => "ascii4",
        Header::Bcd2 => "bcd2",
    }
}
