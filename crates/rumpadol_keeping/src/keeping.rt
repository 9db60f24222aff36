//! Keeping the lease while a host on ports serves.
use crate::lease::Lease;
use iso_lines::Control;
use iso_replicas::Stand;
use rumpadol_members::OneCluster;
use std::net::Net;
use std::time::Clock;

/// What stops a host on ports that keeps a lease meanwhile.
#[derive(Drop)]
pub struct Keeping<'n, C, N: Net + Clock> {
    control: C,
    lease: Lease<'n, N>,
}

impl<'n, C: Control + Drop, N: Net + Clock> Keeping<'n, C, N> {
    /// What stops the host, and how the host stands.
    pub fn new(control: C, net: &'n N, stand: Stand<OneCluster<'n, N>>) -> Keeping<'n, C, N> {
        Keeping {
            control,
            lease: Lease::new(net, stand),
        }
    }

    /// Ends the lease.
    pub fn give_up(&mut self) {
        self.lease.give_up();
    }
}

impl<'n, C: Control, N: Net + Clock> Control for Keeping<'n, C, N> {
    fn is_called_off(&mut self) -> bool {
        self.lease.keep();
        self.control.is_called_off()
    }

    fn is_at_end(&mut self) -> bool {
        self.control.is_at_end()
    }
}
