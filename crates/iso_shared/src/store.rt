//! A store of numbered batches, which others write to as well.
ghost use Rattle.std.specs.Prelude.{◌≡◌, ℕ, List};
ghost use Rattle.iso_shared.specs.Store.{Grows, IsAsked, IsLooked, IsSent};

/// What came of asking once that a batch stand at a place.
#[derive(Debug, Drop)]
pub enum Asked {
    /// The place has this batch.
    Stands,
    /// The place has another one: these bytes.
    Other(Vec<u8>),
    /// No answer came. The place may have this batch now, or later, or never.
    Unknown,
    /// Nothing was sent.
    Unsent,
}

/// What a look at a place gave.
#[derive(Debug, Drop)]
pub enum Looked {
    /// The place has these bytes.
    Found(Vec<u8>),
    /// The place had nothing. That settles nothing: a batch that was sent may still come to stand there.
    Nothing,
    /// No answer came.
    Away,
}

/// A store of batches at places, the first of which is 1: a batch is put at a place if there is none, and stays there. Others
/// put batches too, at any moment, so what is kept may have grown by any number of them before and after each call.
pub trait Store {
    /// The batches that are kept, as bytes, from the first place on.
    ghost kept: { Self → List (List ℕ) };

    /// The batches that were sent through it, as often as they were sent.
    ghost sent: { Self → List (List ℕ) };

    /// Asks once that these bytes stand at a place, if it has none.
    fn ask(&mut self, place: u64, bytes: &[u8]) -> Asked
        // What was kept stays at its place; others may have put more behind it.
        ensures grows { Grows (kept self.old) (kept self.new) }
        // The bytes were sent once, and not at all where the answer is `Unsent`.
        ensures sent { IsSent (sent self.old) (sent self.new) bytes.now result }
        // `Stands` says that these bytes stand at the place, and `Other` that others do.
        ensures asked { IsAsked (kept self.new) place bytes.now result };

    /// Looks once what stands at a place.
    fn look(&mut self, place: u64) -> Looked
        // What was kept stays at its place; others may have put more behind it.
        ensures grows { Grows (kept self.old) (kept self.new) }
        // Nothing was sent.
        ensures sent { sent self.new ≡ sent self.old }
        // Bytes that are found stand at the place; that nothing was found settles nothing.
        ensures looked { IsLooked (kept self.new) place result };
}
