//! How a call ended.

/// How a call ended.
#[derive(Clone, Copy, Debug, PartialEq, Eq)]
pub enum Ended {
    /// It gave the answer that it is known to give.
    Answered,
    /// It wanted memory, left all as it was, and gave its answer when it was made again.
    Refused,
    /// What it is to be lent wasn't made.
    Unready,
    /// Something else.
    Wrong,
}

impl Ended {
    /// How a call ended whose last answer was right or not, after it was refused a growth or not.
    pub fn of(was_refused: bool, is_right: bool) -> Ended {
        match (was_refused, is_right) {
            (_, false) => Ended::Wrong,
            (true, true) => Ended::Refused,
            (false, true) => Ended::Answered,
        }
    }
}
