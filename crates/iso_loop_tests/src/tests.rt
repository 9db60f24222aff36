//! Turns of a host, as rows tell them.

/// A peer that sends all at once and takes all.
macro_rules! part {
    ($link:expr, $sends:expr, $gets:expr) => {
        Part {
            link: $link,
            sends: $sends,
            gives: ALL,
            takes: ALL,
            gets: $gets,
        }
    };
}

mod frames;
mod guarded;
mod limits;
mod running;
mod turns;
