//! What networks do to a frame, by a seed.
ghost use Rattle.std.specs.Prelude.{◌≡◌, ◌≤◌, ◌<◌};
ghost use Rattle.iso_plan.specs.Fate.{share, happens, delay_by, word_of, next_of, after_words, comes_at, fate_at};
ghost use Rattle.iso_plan.specs.Fate.{is_none, drawing_from, drawing_after};
ghost use Rattle.iso_plan.specs.Fate.{is_lost, AreDelays, IsDelayOf, IsByChance, IsTwiceByChance, IsFateUnder};

use crate::plan::{CERTAIN, Faults};
use rand_core::utils::NextWord;
use rand_pcg::Pcg32;
use std::marker::Model;

/// How many words there are.
const SPAN: u64 = 1 << 32;

/// How often a frame comes, and how long each time it is held back, in milliseconds.
#[derive(Clone, Copy, Debug, PartialEq, Eq)]
pub enum Comes {
    /// It is lost.
    Never,
    /// It comes once, so much later.
    Once(u64),
    /// It comes twice, each time so much later.
    Twice(u64, u64),
}

/// What becomes of a frame.
#[derive(Clone, Copy, Debug, PartialEq, Eq)]
pub struct Fate {
    /// How often it comes, and when.
    pub comes: Comes,
    /// Whether its connection is cut behind it.
    pub cuts: bool,
}

impl Fate {
    /// It comes once, at once, and nothing is cut.
    pub const GOOD: Fate = Fate {
        comes: Comes::Once(0),
        cuts: false,
    };
}

/// Draws what becomes of each frame of one direction. The same seed, direction and faults draw the same, one after the
/// other. A contract sees the generator and the faults.
#[derive(Drop)]
pub struct Fates {
    generator: Pcg32,
    faults: Faults,
}

impl Model for Fates {
    ghost use Rattle.iso_plan.specs.Fate.{Drawing};

    ghost Value = { Drawing };

    ghost view = { λ f. record { generator = f.generator; faults = f.faults } };
}

/// Whether nothing is done to any frame.
fn is_none(faults: &Faults) -> bool
    ensures { result ≡ is_none faults.now }
{
    faults.lose == 0 && faults.repeat == 0 && faults.cut == 0 && faults.delay.1 == 0
}

/// A number below a range, by the next word.
fn share(generator: &mut Pcg32, range: u32) -> u32
    requires { 0 < range }
    ensures drawn { result ≡ share range (word_of generator.old) }
    ensures below { result < range }
    ensures next { generator.new ≡ next_of generator.old }
{
    let word = u64::from(generator.next_word());
    (word * u64::from(range) / SPAN) as u32
}

/// Whether what has that chance, in millionths, happens.
fn happens(generator: &mut Pcg32, chance: u32) -> bool
    ensures drawn { result ≡ happens chance (word_of generator.old) }
    ensures sure { IsByChance chance result }
    ensures next { generator.new ≡ next_of generator.old }
{
    share(generator, CERTAIN) < chance
}

/// How long a frame is held back, in milliseconds: from the least to the most.
fn hold(generator: &mut Pcg32, delay: (u32, u32)) -> u64
    ensures drawn { result ≡ delay_by delay (word_of generator.old) }
    ensures within { delay.0 ≤ delay.1 → IsDelayOf delay.0 delay.1 result }
    ensures next { generator.new ≡ next_of generator.old }
{
    let word = u64::from(generator.next_word());
    let range = u64::from(delay.1.saturating_sub(delay.0)) + 1;
    u64::from(delay.0) + word * range / SPAN
}

/// How often a frame comes, and when, under these faults.
fn coming(generator: &mut Pcg32, faults: &Faults) -> Comes
    ensures drawn { result ≡ comes_at faults.now generator.old }
    ensures next { generator.new ≡ after_words 4 generator.old }
    ensures lost { IsByChance faults.now.lose (is_lost result) }
    ensures twice { IsTwiceByChance faults.now result }
    ensures delays { let d = faults.now.delay in d.0 ≤ d.1 → AreDelays d.0 d.1 result }
{
    let is_lost = happens(generator, faults.lose);
    let is_twice = happens(generator, faults.repeat);
    let first = hold(generator, faults.delay);
    let second = hold(generator, faults.delay);
    if is_lost {
        return Comes::Never;
    }
    if is_twice {
        return Comes::Twice(first, second);
    }
    Comes::Once(first)
}

impl Fates {
    /// The draws of a seed, in one of many directions.
    pub fn new(seed: u64, direction: u64, faults: Faults) -> Fates
        // It draws from PCG's generator of the seed, in the stream of that
        // direction, under these faults.
        ensures { result ≡ drawing_from seed direction faults }
    {
        Fates {
            generator: Pcg32::new(seed, direction),
            faults,
        }
    }

    /// What becomes of the next frame. Where no fault is asked for nothing is drawn.
    pub fn next(&mut self) -> Fate
        // It is a function of what is drawn from, and of nothing else: so the same seed draws the same.
        ensures drawn { result ≡ fate_at self.old }
        // The generator goes on by five words, or by none where no fault is asked for.
        ensures next { self.new ≡ drawing_after self.old }
        // What has no chance doesn't happen, what is certain does, and each delay is within its bounds.
        ensures fate { IsFateUnder self.old.faults result }
    {
        if is_none(&self.faults) {
            return Fate::GOOD;
        }
        let cuts = happens(&mut self.generator, self.faults.cut);
        let comes = coming(&mut self.generator, &self.faults);
        Fate { comes, cuts }
    }
}
