//! Which streams are terminals, and whether colours are wanted.

use std::alloc::Global;
use std::env;
use std::env::{Env, VarError};

/// Which streams are terminals, and whether colours are wanted.
#[derive(Clone, Copy, Debug, PartialEq, Eq)]
pub struct Terminals {
    /// Whether standard input is one.
    pub input: bool,
    /// Whether the output is one.
    pub output: bool,
    /// Whether the error stream is one.
    pub faults: bool,
    /// Whether the environment asks for no colours: NO_COLOR is there, and isn't empty.
    pub is_plain: bool,
}

impl Terminals {
    /// Whether the output is coloured.
    pub fn is_coloured(self) -> bool {
        self.output && !self.is_plain
    }
}

/// Whether the environment asks for no colours.
pub fn asks_for_no_colours<R: Env>(alloc: Global, given: &R) -> bool {
    match env::var(&(given, alloc), "NO_COLOR") {
        Ok(text) => !text.is_empty(),
        Err(VarError::NotPresent) => false,
        Err(_) => true,
    }
}
