//! A run whose words were read.

use crate::asked::Asked;
use iso_plan::Plan;
use iso_table::Table;
use rumpadol_buying::Buyers;
use rumpadol_drive_words::{DriveWords, MOST_OPEN};

/// How many transactions may be open a connection, where that isn't said.
const OPEN_A_PEER: usize = 16;

/// All that a run is done with.
#[derive(Drop)]
pub(crate) struct Ready<'a> {
    pub words: DriveWords<'a>,
    pub asked: Asked,
    pub table: Table,
    pub buyers: Buyers,
}

impl Ready<'_> {
    /// How many transactions may be open at once: no more than have their notes kept together.
    pub fn most_open(&self) -> usize {
        let asked = match self.words.most_open {
            Some(most) => most,
            None => self.words.peers.saturating_mul(OPEN_A_PEER),
        };
        asked.min(MOST_OPEN as usize)
    }

    /// What the run is to do.
    pub fn plan(&self) -> Plan<'_> {
        let Ready {
            words,
            asked,
            table,
            buyers,
        } = self;
        Plan {
            table,
            header: words.header,
            address: asked.address,
            acquirer: words.acquirer,
            peers: words.peers,
            most_open: self.most_open(),
            rate: words.rate,
            count: words.count,
            seconds: words.seconds,
            least: asked.least,
            most: asked.most,
            mix: asked.mix,
            patience: words.patience,
            faults: asked.faults,
            seed: words.seed,
            buyers: &buyers.buyers,
            checks: words.checks,
        }
    }
}
