//! Records that are held, looked into as those of a file are.

use rumpadol_journals::Keeper;
use rumpadol_tables::Stop;
use std::alloc::Global;

/// The records of a journal: its heading, and one for each order. Nothing stands behind them.
#[derive(Clone, Copy)]
pub struct Held<'a> {
    /// Their bytes.
    pub bytes: &'a [u8],
}

impl<'a> Keeper for Held<'a> {
    type Records = &'a [u8];

    fn records(&self, _alloc: Global, _word: &str) -> Result<&'a [u8], Stop> {
        Ok(self.bytes)
    }

    fn is_cut(&self, _word: &str, _orders: usize) -> bool {
        false
    }

    fn cure(&self) -> &'static str {
        "take a copy of the journal that is whole"
    }
}
