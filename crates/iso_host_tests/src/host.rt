//! What a host reads, writes and enters, and the streams that it does so by.

mod day;
mod ends;
mod example;
mod faults;
mod frames;
mod long;
mod peers;
mod serving;
mod sessions;
mod sharing;
mod streams;
