//! Why a request is refused.
ghost use Rattle.std.specs.Prelude.{◌≡◌};
ghost use Rattle.iso_site.specs.Refused.{status_of};

/// Why a request is refused.
#[derive(Clone, Copy, Debug, PartialEq, Eq)]
pub enum Refusal {
    /// It names another host than this address.
    ForeignHost,
    /// Another page makes it.
    ForeignOrigin,
    /// There is nothing at its path.
    NotFound,
    /// What is at its path isn't asked for by this method.
    NotAllowed,
    /// What it brings isn't said to be JSON.
    NotJson,
}

impl Refusal {
    /// The status of its answer.
    pub fn status(self) -> u16
        // It is 421 for a foreign host, 403 for a foreign page, 404 for an unknown path, 405 for
        // another method, and 415 for what isn't said to be JSON.
        ensures { result ≡ status_of self }
    {
        match self {
            Refusal::ForeignHost => 421,
            Refusal::ForeignOrigin => 403,
            Refusal::NotFound => 404,
            Refusal::NotAllowed => 405,
            Refusal::NotJson => 415,
        }
    }

    /// What is wrong, and what would mend it.
    pub fn sentence(self) -> &'static str {
        match self {
            Refusal::ForeignHost =>
                "the request names another host: open the page at the address that the program told",
            Refusal::ForeignOrigin => "another page made the request: only this one may",
            Refusal::NotFound => "there is nothing here: the page is at /",
            Refusal::NotAllowed =>
                "this is not done by that method: the page is read by GET, and its calls are made by POST",
            Refusal::NotJson =>
                "a call brings JSON, and says so: set content-type to application/json",
        }
    }
}
