//! Who watches a long start.

/// Is told how far a start is.
pub trait Watch {
    /// So many orders of so many were decided again. It is told now and then, the last time with all of them.
    fn replayed(&mut self, orders: usize, of: usize);
}

/// Nobody watches.
#[derive(Clone, Copy, Debug)]
pub struct Unwatched;

impl Watch for Unwatched {
    fn replayed(&mut self, _orders: usize, _of: usize) {}
}
