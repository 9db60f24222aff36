//! What happened to the traffic of a run.
ghost use Rattle.std.specs.Prelude.{◌≡◌};
ghost use Rattle.iso_tally.specs.Tally.{one_more};

/// What happened to the traffic of a run, in counts. None of them goes past the greatest `u64`: there it stays.
#[derive(Clone, Copy, Debug, PartialEq, Eq)]
pub struct Tally {
    /// Transactions that this run began.
    pub begun: u64,
    /// Transactions that the notes of an earlier run left open.
    pub resumed: u64,
    /// Frames that were written, each repeat among them.
    pub sent: u64,
    /// Orders that were sent again, since no answer came in time.
    pub again: u64,
    /// Reversals of purchases that were sent, each counted once.
    pub reversals: u64,
    /// Frames that came and were read as answers.
    pub answers: u64,
    /// Answers that told nothing new: they came late or again.
    pub late: u64,
    /// Answers to orders that this acquirer never made.
    pub foreign: u64,
    /// Answers to one order that came again with other bytes; to what isn't a purchase, with another code.
    pub differing: u64,
    /// Frames that are no message of the table, or tell no answer.
    pub unreadable: u64,
    /// Headers of frames that can't be read. Each of them closes its connection.
    pub bad_frames: u64,
    /// Frames that the run itself lost, of both directions.
    pub lost: u64,
    /// Frames that the run itself repeated.
    pub repeated: u64,
    /// Frames that the run itself held back.
    pub delayed: u64,
    /// Connections that the run itself cut.
    pub cut: u64,
    /// Connections that were made.
    pub connected: u64,
    /// Connections that were asked for and not made.
    pub refused: u64,
    /// Connections that the host or the system closed.
    pub closed: u64,
}

impl Tally {
    /// The tally of a run in which nothing happened yet.
    pub const NONE: Tally = Tally {
        begun: 0,
        resumed: 0,
        sent: 0,
        again: 0,
        reversals: 0,
        answers: 0,
        late: 0,
        foreign: 0,
        differing: 0,
        unreadable: 0,
        bad_frames: 0,
        lost: 0,
        repeated: 0,
        delayed: 0,
        cut: 0,
        connected: 0,
        refused: 0,
        closed: 0,
    };
}

/// Counts one more, up to the greatest `u64`.
pub fn add_one(count: &mut u64)
    ensures { count.new ≡ one_more count.old }
{
    *count = count.saturating_add(1);
}
