//! A proved acquirer as a command line asks for it: it drives a host, and tells what came of it.
//!
//! - `perform_drive`: what a `DriveJob` asks: purchases, or a day whose frames are sent again.
//! - `Diaries`: the files of an acquirer's diary. `Unkept`: a log that keeps nothing.
//!
//! What the words say of numbers, of the mix and of accounts, and why there is no diary to go on with, is `rumpadol_buying`'s.
#![tactic(auto)]

mod asked;
mod day;
mod diary;
mod in_question;
mod performing;
mod picture;
mod progress;
mod ready;
mod told;
mod unkept;

pub use diary::Diaries;
pub use performing::perform_drive;
pub use unkept::Unkept;
