//! Visitors who ask piece by piece, and when they go.

use super::metrics_of;
use iso_fakes::check;
use iso_lines::Pages;
use iso_loop::Visitors;
use std::alloc::Global;
use std::io;
use std::io::{ErrorKind, Read, Write};
use std::test::Fail;

/// A stream that gives a request piece by piece, one in each turn.
#[derive(Drop)]
struct Caller {
    pieces: &'static [&'static [u8]],
    /// Whether a piece may come now.
    may_come: bool,
}

impl Read for Caller {
    fn read(&mut self, room: &mut [u8]) -> io::Result<usize> {
        let (Some(piece), true) = (self.pieces.first(), self.may_come) else {
            return Err(io::Error::from(ErrorKind::WouldBlock));
        };
        let count = piece.len().min(room.len());
        room[..count].copy_from_slice(&piece[..count]);
        self.pieces = self.pieces.get(1..).unwrap_or(&[]);
        self.may_come = false;
        Ok(count)
    }
}

impl Write for Caller {
    fn write(&mut self, bytes: &[u8]) -> io::Result<usize> {
        Ok(bytes.len().min(50))
    }

    fn flush(&mut self) -> io::Result<()> {
        Ok(())
    }
}

/// A request in two pieces.
const PIECES: &[&[u8]] = &[b"HEAD /health HT", b"TP/1.1\r\nHost: host\r\n\r\n"];

impl Caller {
    /// A caller who has sent nothing yet.
    fn new() -> Caller {
        Caller {
            pieces: PIECES,
            may_come: false,
        }
    }
}

/// Another piece of a visitor's request comes, and all visitors have their turn, at so many milliseconds.
fn comes<P: Pages>(visitors: &mut Visitors<Caller>, key: usize, pages: &mut P, now: u64) {
    if let Some(caller) = visitors.stream_mut(key) {
        caller.may_come = true;
    }
    visitors.notice(key);
    let _ = visitors.visit_all(pages, now);
}

/// Whether a visitor is still there.
fn is_there(visitors: &mut Visitors<Caller>, key: usize) -> bool {
    visitors.stream_mut(key).is_some()
}

/// What comes of a visitor who sends two pieces, and of one who sends nothing: whether each is there at four moments.
fn visits<P: Pages>(alloc: Global, pages: &mut P) -> [bool; 4] {
    let mut visitors = Visitors::new(alloc);
    let first = visitors.let_in(Caller::new(), 0).unwrap_or(99);
    let second = visitors.let_in(Caller::new(), 4_000).unwrap_or(99);
    comes(&mut visitors, first, pages, 5_000);
    let half = is_there(&mut visitors, first);
    comes(&mut visitors, first, pages, 6_000);
    let answered = is_there(&mut visitors, first);
    let _ = visitors.visit_all(pages, 13_999);
    let in_time = is_there(&mut visitors, second);
    let _ = visitors.visit_all(pages, 14_000);
    [half, answered, in_time, is_there(&mut visitors, second)]
}

#[test]
fn visitors_go_once_they_are_answered_or_late(rt: HostRuntime) -> Result<(), Fail> {
    let mut pages = metrics_of(rt.alloc(), &[])?;
    let seen = visits(rt.alloc(), &mut pages);
    check(seen == [true, false, true, false], "who is there")
}

/// How many of twenty visitors are let in.
fn let_in(alloc: Global) -> usize {
    let mut visitors = Visitors::new(alloc);
    let mut count = 0usize;
    for _ in 0..20 {
        if visitors.let_in(Caller::new(), 0).is_some() {
            count = count.saturating_add(1);
        }
    }
    count
}

#[test]
fn sixteen_visitors_are_let_in(rt: HostRuntime) -> Result<(), Fail> {
    check(let_in(rt.alloc()) == 16, "sixteen")
}
