//! How long one goes on asking.

/// Says whether one goes on asking, and may wait before it says so.
pub trait Patience {
    /// A new wait begins.
    fn begin(&mut self);

    /// Whether to ask once more.
    fn may_go_on(&mut self) -> bool;
}

/// So many times more in each wait, at once.
#[derive(Debug, Drop)]
pub struct Tries {
    /// How many there are in each wait.
    pub most: u32,
    /// How many are left in this one.
    pub left: u32,
}

impl Tries {
    /// So many times more.
    pub fn new(most: u32) -> Tries {
        Tries { most, left: most }
    }
}

impl Patience for Tries {
    fn begin(&mut self) {
        self.left = self.most;
    }

    fn may_go_on(&mut self) -> bool {
        if self.left == 0 {
            return false;
        }
        self.left -= 1;
        true
    }
}
