//! Keeping the lease while a host serves the frames of its input.
ghost use Rattle.std.specs.Prelude.{◌≡◌};

use crate::lease::Lease;
use iso_replicas::Stand;
use rumpadol_members::OneCluster;
use std::io;
use std::io::Read;
use std::net::Net;
use std::time::Clock;

/// An input before each read of which the lease is kept.
#[derive(Drop)]
pub struct Beating<'a, 'n, I, N: Net + Clock> {
    input: &'a mut I,
    lease: Lease<'n, N>,
}

impl<'a, 'n, I: Read, N: Net + Clock> Beating<'a, 'n, I, N> {
    /// An input, and how the host stands.
    pub fn new(
        input: &'a mut I,
        net: &'n N,
        stand: Stand<OneCluster<'n, N>>,
    ) -> Beating<'a, 'n, I, N> {
        Beating {
            input,
            lease: Lease::new(net, stand),
        }
    }

    /// Ends the lease.
    pub fn give_up(&mut self) {
        self.lease.give_up();
    }
}

impl<'a, 'n, I: Read, N: Net + Clock> Read for Beating<'a, 'n, I, N> {
    ghost remaining = { λ b. I.remaining b.input.now };

    fn read(&mut self, buffer: &mut [u8]) -> io::Result<usize> {
        self.lease.keep();
        self.input.read(buffer)
    }
}
