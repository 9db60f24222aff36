//! What a host on ports has of the system beside its files.

use rumpadol_journals::Disk;
use std::net::Net;
use std::random::RandomSource;
use std::rt::Files;
use std::time::Clock;

/// What a host on ports has of the system beside its files.
pub trait System {
    /// What ports, clocks and files are opened with, and numbers are drawn with.
    type Runtime: Net + Clock + Files + RandomSource;

    /// What ports, clocks and files are opened with, and numbers are drawn with.
    fn runtime(&self) -> &Self::Runtime;
}

impl<'a, R: Net + Clock + Files + RandomSource> System for Disk<'a, R> {
    type Runtime = R;

    fn runtime(&self) -> &R {
        self.rt
    }
}
