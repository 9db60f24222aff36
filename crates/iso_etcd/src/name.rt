//! The names of journals.
ghost use Rattle.std.specs.Prelude.{◌≡◌, IsTrue, string_bytes};
ghost use Rattle.std.specs.List.{list_all};
ghost use Rattle.iso_etcd.specs.Name.{is_name, is_name_byte, is_from_to};

use std::alloc::{AllocError, Global};

/// The most bytes of a name.
pub const MOST_NAME: usize = 64;

/// The name of a journal: 1 to 64 letters and digits of ASCII, `-`, `_` and `.`.
#[derive(Debug, Drop)]
pub struct Name {
    text: String,
    ghost sound: { IsTrue (is_name (string_bytes text)) },
}

/// Whether a byte is one of those from one to another.
pub(crate) fn is_from_to(least: u8, most: u8, byte: u8) -> bool
    ensures { result ≡ is_from_to least most byte }
{
    least <= byte && byte <= most
}

/// Whether a byte may be in a name.
fn is_name_byte(byte: u8) -> bool
    ensures { result ≡ is_name_byte byte }
{
    is_from_to(b'0', b'9', byte)
        || is_from_to(b'A', b'Z', byte)
        || is_from_to(b'a', b'z', byte)
        || byte == b'-'
        || byte == b'_'
        || byte == b'.'
}

/// Whether all bytes may be in a name.
fn are_name_bytes(text: &[u8]) -> bool
    ensures { result ≡ list_all is_name_byte text.now }
{
    text.iter().all(|byte| is_name_byte(*byte))
}

/// Whether a text is a name.
fn is_name(text: &[u8]) -> bool
    ensures { result ≡ is_name text.now }
{
    1 <= text.len() && text.len() <= MOST_NAME && are_name_bytes(text)
}

impl Name {
    ghost use Rattle.std.specs.Prelude.{IfOk, IfSome, IsNone, false};
    ghost use Rattle.iso_etcd.specs.Keys.{name_text};

    /// The name that a text is.
    pub fn from_text(alloc: Global, text: &str) -> Result<Option<Name>, AllocError>
        // A name that is found has this text.
        ensures found { IfOk result (λ o. IfSome o (λ n. name_text n ≡ text.now)) }
        // `None` comes only for a text that isn't 1 to 64 letters, digits, `-`, `_` and `.`.
        ensures none { IfOk result (λ o. IsNone o → is_name text.now ≡ false) }
    {
        if !is_name(text.as_bytes()) {
            return Ok(None);
        }
        let text = String::from_str(alloc, text)?;
        Ok(Some(Name { text }))
    }

    /// Its text.
    pub fn as_str(&self) -> &str
        // The text is the one that the name has.
        ensures text { result.now ≡ name_text self.now }
        // The text is 1 to 64 letters, digits, `-`, `_` and `.`.
        ensures sound { IsTrue (is_name result.now) }
    {
        self.text.as_str()
    }
}
