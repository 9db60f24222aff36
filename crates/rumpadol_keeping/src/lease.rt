//! The lease of a host that is the active one of its journal.
use iso_replicas::{Stand, Standing};
use rumpadol_cluster::has_passed;
use rumpadol_members::{OneCluster, now};
use std::net::Net;
use std::time::Clock;

/// How long is waited after a call about the lease that failed or was refused, in milliseconds.
const AGAIN: u64 = 500;

/// A lease that is kept as long as it is asked for often.
#[derive(Drop)]
pub struct Lease<'n, N: Net + Clock> {
    net: &'n N,
    stand: Stand<OneCluster<'n, N>>,
    /// When it wasn't had last.
    failed: Option<u64>,
}

impl<'n, N: Net + Clock> Lease<'n, N> {
    /// The lease of a host.
    pub fn new(net: &'n N, stand: Stand<OneCluster<'n, N>>) -> Lease<'n, N> {
        Lease {
            net,
            stand,
            failed: None,
        }
    }

    /// Whether it is too early to ask again.
    fn waits(&self, moment: u64) -> bool {
        match self.failed {
            Some(failed) => !has_passed(failed, moment, AGAIN),
            None => false,
        }
    }

    /// Keeps the lease where that is due, or asks for one: whether it is had.
    fn is_had(&mut self, moment: u64) -> bool {
        match self.stand.standing() {
            Standing::Active { .. } => self.stand.keep(moment).is_ok(),
            Standing::Waiting => matches!(self.stand.begin(moment), Ok(true)),
        }
    }

    /// Keeps the lease where that is due. One that can't be kept is asked for again later: no answer depends on it.
    pub fn keep(&mut self) {
        let moment = now(self.net);
        if self.waits(moment) {
            return;
        }
        self.failed = if self.is_had(moment) {
            None
        } else {
            Some(moment)
        };
    }

    /// Ends the lease, so that the next host needn't wait for its end.
    pub fn give_up(&mut self) {
        let _ = self.stand.give_up();
    }
}
