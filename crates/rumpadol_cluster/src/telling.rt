//! What a standby is told.
ghost use Rattle.std.specs.Prelude.{◌≡◌};
ghost use Rattle.rumpadol_cluster.specs.Telling.{is_told, has_end, is_whole, heard};

/// The most bytes of a line.
pub const MOST_LINE: usize = 64;

/// What the bytes say that came so far.
#[derive(Clone, Copy, Debug, PartialEq, Eq)]
pub enum Told {
    /// The line isn't whole.
    More,
    /// It is to take over.
    TakeOver,
    /// It is something else.
    Other,
}

/// Whether the first line says that the standby is to take over.
fn is_told(bytes: &[u8]) -> bool
    ensures { result ≡ is_told bytes.now }
{
    bytes.starts_with(b"take over\n") || bytes.starts_with(b"take over\r\n")
}

/// Whether a line ends.
fn has_end(bytes: &[u8]) -> bool
    ensures { result ≡ has_end bytes.now }
{
    bytes.iter().any(|byte| *byte == b'\n')
}

/// Whether the first line is whole, or longer than one may be.
fn is_whole(bytes: &[u8]) -> bool
    ensures { result ≡ is_whole bytes.now }
{
    has_end(bytes) || bytes.len() >= MOST_LINE
}

/// What the bytes say that came so far.
pub fn heard(bytes: &[u8]) -> Told
    // `TakeOver` is told exactly by the first line `take over`. Another whole line, or 64 bytes
    // without an end, are `Other`; anything less needs more.
    ensures { result ≡ heard bytes.now }
{
    if is_told(bytes) {
        Told::TakeOver
    } else if is_whole(bytes) {
        Told::Other
    } else {
        Told::More
    }
}
