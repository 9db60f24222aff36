//! Amounts and accounts by a seed.
ghost use Rattle.std.specs.Prelude.{◌≡◌, ◌≤◌, ◌<◌};

use rand::RngExt;
use rand_core::SeedableRng;
use rand_pcg::Pcg32;

/// Draws amounts and accounts. The same seed draws the same.
#[derive(Drop)]
pub struct Draw {
    generator: Pcg32,
}

impl Draw {
    /// The draws of a seed.
    pub fn new(seed: u64) -> Draw {
        Draw {
            generator: Pcg32::seed_from_u64(seed),
        }
    }

    /// An amount from `least` to `most`, both among them.
    pub fn amount(&mut self, least: u64, most: u64) -> u64
        // The least amount isn't above the greatest one.
        requires { least ≤ most }
        // The amount that it draws isn't below the least one.
        ensures least { least ≤ result }
        // The amount that it draws isn't above the greatest one.
        ensures most { result ≤ most }
    {
        self.generator.random_range(least..=most)
    }

    /// One of so many places, from 0 on.
    pub fn place(&mut self, count: usize) -> usize
        // There is at least one place.
        requires { 0 < count }
        ensures { result < count }
    {
        self.generator.random_range(0..count as u64) as usize
    }
}
