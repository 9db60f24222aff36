//! The words about a run of `drive`, and about a day that it sends again.
//!
//! - `DriveJob`: what is asked, with `DriveWords` or `DayWords`.
//! - `MOST_ACQUIRER`, `MOST_CONNECTIONS`, `MOST_COUNT`, `MOST_OPEN`, `MOST_PATIENCE`, `MOST_RATE` and `MOST_TIME`: the largest numbers.
//! - `header_word`: how a header is written.
#![tactic(auto)]

mod words;

pub use words::{
    DayWords, DriveJob, DriveWords, MOST_ACQUIRER, MOST_CONNECTIONS, MOST_COUNT, MOST_OPEN,
    MOST_PATIENCE, MOST_RATE, MOST_TIME, header_word,
};
