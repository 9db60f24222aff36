//! The calls that the page makes.
ghost use Rattle.std.specs.Prelude.{◌≡◌, None, IfSome};
ghost use Rattle.iso_site.specs.Asked.{IsCallPath, path_of};

/// The calls that the page makes.
#[derive(Clone, Copy, Debug, PartialEq, Eq)]
pub enum Call {
    /// What a table's rows and names are, or what is wrong with its document.
    Table,
    /// Messages, piece by piece.
    Look,
    /// The bytes of a message.
    Build,
    /// The bytes of messages under another table.
    Convert,
    /// What an issuer answers, and what its books hold then.
    Play,
    /// What an acquirer and an issuer hold after a list of events.
    Ends,
}

impl Call {
    /// The call that is made at a path.
    pub fn at(path: &[u8]) -> Option<Call>
        // A call that is found is the one that is made at this path.
        ensures found { IfSome result (λ call. path.now ≡ path_of call) }
        // `None` comes only where no call is made at the path.
        ensures none { result ≡ None → ¬ (IsCallPath path.now) }
    {
        if path == b"/api/table".as_slice() {
            return Some(Call::Table);
        }
        if path == b"/api/look".as_slice() {
            return Some(Call::Look);
        }
        if path == b"/api/build".as_slice() {
            return Some(Call::Build);
        }
        if path == b"/api/convert".as_slice() {
            return Some(Call::Convert);
        }
        if path == b"/api/play".as_slice() {
            return Some(Call::Play);
        }
        if path == b"/api/ends".as_slice() {
            return Some(Call::Ends);
        }
        None
    }
}
