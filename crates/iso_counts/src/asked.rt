//! What a request asks for.
ghost use Rattle.std.specs.Prelude.{◌≡◌, ◌≢◌, ◌↔◌, ◌⊎◌, ◌==◌, IsTrue, codes, position};
ghost use Rattle.iso_counts.specs.Asked.{path_of, IsRead, IsPage, status_of};

/// What a request asks for.
#[derive(Clone, Copy, Debug, PartialEq, Eq)]
pub enum Asked {
    /// The metrics.
    Metrics,
    /// Whether the host is well.
    Health,
    /// A page that isn't there.
    NotFound,
    /// Something that isn't done here with a page.
    NotAllowed,
    /// It is no request, or one that isn't taken, and is answered with this status.
    Refused(u16),
}

/// Where the query of a target begins, if it has one.
fn query_at(target: &[u8]) -> Option<usize>
    ensures { result ≡ position (λ byte. byte == 63) target.now }
{
    target.iter().position(|byte| *byte == b'?')
}

/// A target up to its query.
fn path_of(target: &[u8]) -> &[u8]
    ensures { result.now ≡ path_of target.now }
{
    match query_at(target) {
        Some(at) => target.get(..at).unwrap_or(target),
        None => target,
    }
}

/// Whether a method only reads.
fn is_read(method: &[u8]) -> bool
    ensures { IsTrue result ↔ IsRead method.now }
{
    method == b"GET".as_slice() || method == b"HEAD".as_slice()
}

impl Asked {
    /// What a request asks for at a path.
    fn of_path(path: &[u8]) -> Asked
        ensures metrics { (result ≡ Asked.Metrics) ↔ (path.now ≡ codes "/metrics") }
        ensures health { (result ≡ Asked.Health) ↔ (path.now ≡ codes "/health") }
        ensures others { ¬ (IsPage path.now) → result ≡ Asked.NotFound }
    {
        match path {
            b"/metrics" => Asked::Metrics,
            b"/health" => Asked::Health,
            _ => Asked::NotFound,
        }
    }

    /// What a request asks for by its method and its target.
    pub fn of_line(method: &[u8], target: &[u8]) -> Asked
        // A GET or HEAD of the path `/metrics`, up to a question mark, asks for the metrics.
        ensures metrics { IsRead method.now → path_of target.now ≡ codes "/metrics"
            → result ≡ Asked.Metrics }
        // A GET or HEAD of the path `/health`, up to a question mark, asks for the host's health.
        ensures health { IsRead method.now → path_of target.now ≡ codes "/health"
            → result ≡ Asked.Health }
        // Any method but GET and HEAD isn't allowed on the paths `/metrics` and `/health`.
        ensures not_allowed { ¬ (IsRead method.now) → IsPage (path_of target.now)
            → result ≡ Asked.NotAllowed }
        // Any path but `/metrics` and `/health` isn't found, whatever the method.
        ensures not_found { ¬ (IsPage (path_of target.now)) → result ≡ Asked.NotFound }
    {
        match Asked::of_path(path_of(target)) {
            Asked::Metrics | Asked::Health if !is_read(method) => Asked::NotAllowed,
            asked => asked,
        }
    }

    /// The status of its answer, where the journal can be written or can't.
    pub fn status(&self, can_write: bool) -> u16
        // 200 for the metrics; 200 for the health, or 503 where the journal can't be written; 404,
        // 405, or the status of a refused request.
        ensures { result ≡ status_of self.now can_write }
    {
        match self {
            Asked::Metrics => 200,
            Asked::Health if can_write => 200,
            Asked::Health => 503,
            Asked::NotFound => 404,
            Asked::NotAllowed => 405,
            Asked::Refused(status) => *status,
        }
    }
}
