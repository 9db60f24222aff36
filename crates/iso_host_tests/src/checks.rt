//! The checks that end a test, by its report.

use iso_fakes::{check, check_of};
use std::alloc::Global;
use std::cell::Cell;
use std::fmt::Display;
use std::io;
use std::io::Eprint;
use std::process::{ExitCode, Termination};
use std::test::Fail;

/// The line that a report is to tell, and whether it told that or another.
#[derive(Drop)]
struct Line {
    alloc: Global,
    wanted: &'static str,
    told: Cell<Option<bool>>,
}

impl Eprint for Line {
    fn eprint<D: Display + Drop>(&self, value: D) -> io::Result<()> {
        let is_wanted = match format!(in self.alloc; "{value}") {
            Ok(line) => line.as_str() == self.wanted,
            Err(_) => false,
        };
        self.told.set(Some(is_wanted));
        Ok(())
    }

    fn eprintln<D: Display + Drop>(&self, value: D) -> io::Result<()> {
        self.eprint(value)
    }
}

/// A check of a read: what is compared beside its name, whether it is so, and the line that the test then fails with, where
/// it does.
const CHECKS: &[(&str, Option<&str>, bool, Option<&str>)] = &[
    ("a check that isn't so", None, false, Some("a read")),
    (
        "a check of the bytes that isn't so",
        Some("the bytes"),
        false,
        Some("a read: the bytes"),
    ),
    ("a check that is so", None, true, None),
    (
        "a check of the bytes that is so",
        Some("the bytes"),
        true,
        None,
    ),
];

/// Checks a read.
fn check_read(what: Option<&str>, is_so: bool) -> Result<(), Fail> {
    match what {
        Some(what) => check_of(is_so, "a read", what),
        None => check(is_so, "a read"),
    }
}

/// Whether the test fails, and is told by this line, or goes on, and nothing is told.
fn is_reported(alloc: Global, ended: Result<(), Fail>, wanted: Option<&'static str>) -> bool {
    let line = Line {
        alloc,
        wanted: wanted.unwrap_or(""),
        told: Cell::new(None),
    };
    let reported = (ended.report(&line), line.told.get());
    if wanted.is_some() {
        reported == (ExitCode::FAILURE, Some(true))
    } else {
        reported == (ExitCode::SUCCESS, None)
    }
}

#[test]
fn a_test_ends_with_what_is_not_so(rt: HostRuntime) -> Result<(), Fail> {
    for (name, what, is_so, wanted) in CHECKS {
        if !is_reported(rt.alloc(), check_read(*what, *is_so), *wanted) {
            return Err(Fail::new(*name));
        }
    }
    Ok(())
}
