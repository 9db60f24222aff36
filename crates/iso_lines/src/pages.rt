//! What answers requests that come beside the peers, as those for metrics.

/// What answers requests that come beside the peers, as those for metrics over HTTP.
pub trait Pages {
    /// Answers a request as far as it came, and tells whether it is whole: then all that is to be written stands in `out`, and
    /// nothing where it isn't answered.
    fn answer(&mut self, request: &[u8], out: &mut Vec<u8>) -> bool;
}

/// Answers nothing.
#[derive(Clone, Copy, Debug)]
pub struct NoPages;

impl Pages for NoPages {
    fn answer(&mut self, _request: &[u8], _out: &mut Vec<u8>) -> bool {
        true
    }
}
