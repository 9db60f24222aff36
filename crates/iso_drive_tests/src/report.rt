//! What no clause says: the worked percentiles of books, and what is written.

mod numbers;
mod values;
mod writing;
