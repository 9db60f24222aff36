//! How many answers are as expected.

ghost use Rattle.std.specs.Prelude.{◌≡◌, ◌↔◌, ◌-◌, true, map, count_by, zip};
ghost use Rattle.iso_compare.specs.Tallying.{Counts, are_same, is_all_same};

use crate::difference::same_bytes;

/// How a list of frames agrees with the one that was expected, each compared with the one at its place.
#[derive(Clone, Copy, Debug, PartialEq, Eq)]
pub struct Tally {
    /// How many were compared: those at whose places frames were expected.
    pub compared: usize,
    /// How many of them have the bytes that were expected.
    pub same: usize,
    /// How many were expected behind the last that came.
    pub missing: usize,
    /// How many came behind the last that was expected.
    pub beyond: usize,
}

/// How many of the bodies that came are as expected, each at its place.
#[tactic(auto, using(crate::proofs::Pairs::none_beside))]
fn count_same(expected: &[&[u8]], came: &[&[u8]]) -> usize
    ensures { result
        ≡ count_by are_same (zip (map (λ b. b.now) expected.now) (map (λ b. b.now) came.now)) }
{
    let mut same = 0;
    let (mut wanted, mut given) = (expected, came);
    while let ([body, later @ ..], [other, others @ ..]) = (wanted, given) {
        if same_bytes(body, other) {
            same += 1;
        }
        wanted = later;
        given = others;
    }
    same
}

impl Tally {
    /// Counts how the bodies of frames that came agree with those that were expected. Takes no memory.
    pub fn of(expected: &[&[u8]], came: &[&[u8]]) -> Tally
        // It counts the places that both lists have, those of them with the same bytes, what is
        // expected behind the last that came, and what came behind the last that is expected.
        ensures counts { Counts (map (λ b. b.now) expected.now) (map (λ b. b.now) came.now) result }
        // All is the same exactly where the same bodies came, in the same order.
        ensures all_same { (is_all_same result ≡ true)
            ↔ (map (λ b. b.now) expected.now ≡ map (λ b. b.now) came.now) }
    {
        let compared = expected.len().min(came.len());
        Tally {
            compared,
            same: count_same(expected, came),
            missing: expected.len() - compared,
            beyond: came.len() - compared,
        }
    }

    /// How many were compared and have other bytes.
    pub fn differ(&self) -> usize
        ensures { result ≡ self.now.compared - self.now.same }
    {
        self.compared.saturating_sub(self.same)
    }

    /// Whether all that was expected came, and nothing else.
    pub fn is_all_same(&self) -> bool
        ensures { result ≡ is_all_same self.now }
    {
        self.same == self.compared && self.missing == 0 && self.beyond == 0
    }
}
