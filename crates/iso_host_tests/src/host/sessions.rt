//! Sessions of a host: what it is sent, how its streams behave, and what comes of it.

use super::frames::{end_of, has_entered, issuer};
use super::serving::SESSIONS;
use iso_fakes::{FewBytes, FewTaken, Interrupted, check};
use iso_host::{Report, ServeFault, Std};
use iso_issuer::Issuer;
use iso_table::Table;
use std::alloc::Global;
use std::test::Fail;

/// What is served, and how, and what comes of it: a row of the test.
#[derive(Clone, Copy)]
pub struct Session {
    pub name: &'static str,
    /// The bytes that are sent.
    pub sent: &'static [u8],
    /// The session is held once for each of these.
    pub moves: &'static [Moves],
    /// How often the reader is interrupted before its first read, and the writer before its first write.
    pub interruptions: u32,
    /// How many reads and writes there are before one fails.
    pub reads: u32,
    pub writes: u32,
    pub fails_to_flush: bool,
    pub turns: u64,
    /// Whether the journal takes two orders in place of five.
    pub is_small: bool,
    /// How serving ends.
    pub ended: Result<Report, ServeFault>,
    /// The bytes that are written.
    pub written: &'static [u8],
    /// How many writes are left, where that is compared.
    pub left: Option<u32>,
    pub flushes: u32,
    /// The account's ledger then, and how many orders were entered.
    pub ledger: i64,
    pub entries: u32,
    /// What the same issuer is served then, at once.
    pub then: Option<&'static Session>,
}

/// How a session is held: how many bytes a read gives, and how many a write takes.
type Moves = (usize, usize);

/// In one read, and one write for each answer.
const AT_ONCE: Moves = (5000, 5000);

/// The report where nothing is served.
pub const NO_FRAMES: Report = Report {
    frames: 0,
    answered: 0,
    silent: 0,
    unreadable: 0,
};

/// The report of one frame that is answered.
pub const ONE_ANSWERED: Report = Report {
    frames: 1,
    answered: 1,
    ..NO_FRAMES
};

/// The report of two frames that are answered.
pub const TWO_ANSWERED: Report = Report {
    frames: 2,
    answered: 2,
    ..NO_FRAMES
};

/// Nothing behind four digits, at once, with reads, writes and turns enough.
pub const NOTHING: Session = Session {
    name: "nothing",
    sent: b"",
    moves: &[AT_ONCE],
    interruptions: 0,
    reads: 1000,
    writes: 1000,
    fails_to_flush: false,
    turns: 1000,
    is_small: false,
    ended: Ok(NO_FRAMES),
    written: b"",
    left: None,
    flushes: 0,
    ledger: 5000,
    entries: 0,
    then: None,
};

/// The writer of a session.
type Written = Interrupted<FewTaken>;

/// How serving a session ends.
fn end_of_session(
    alloc: Global,
    table: &Table,
    session: &Session,
    piece: usize,
    issuer: &mut Issuer,
    writer: &mut Written,
) -> Option<Result<Report, ServeFault>> {
    let few = FewBytes {
        bytes: session.sent,
        piece,
        calls: session.reads,
    };
    let mut reader = Std::new(Interrupted {
        stream: few,
        times: session.interruptions,
    });
    let mut writer = Std::new(writer);
    end_of(
        alloc,
        table,
        issuer,
        &mut reader,
        &mut writer,
        session.turns,
    )
}

/// What of a session isn't as its row says, where it ended so.
fn wrong_of(
    session: &Session,
    ended: Option<Result<Report, ServeFault>>,
    issuer: &Issuer,
    writer: &FewTaken,
) -> Option<&'static str> {
    if ended != Some(session.ended) || writer.taken.as_slice() != session.written {
        return Some("the end and what is written");
    }
    let is_left = session.left.is_none() || session.left == Some(writer.calls);
    if !is_left || writer.flushes != session.flushes {
        return Some("the writes and the flushes");
    }
    if has_entered(issuer, session.ledger, session.entries) {
        None
    } else {
        Some("the ledger and the entries")
    }
}

/// Holds a session once, by that issuer, and gives what isn't as its row says.
fn serve_once(
    alloc: Global,
    table: &Table,
    session: &Session,
    moves: Moves,
    issuer: &mut Issuer,
) -> Option<&'static str> {
    let (piece, taken) = moves;
    let mut writer = Interrupted {
        stream: FewTaken::new(alloc, taken, session.writes, session.fails_to_flush),
        times: session.interruptions,
    };
    let ended = end_of_session(alloc, table, session, piece, issuer, &mut writer);
    wrong_of(session, ended, issuer, &writer.stream)
}

/// Holds a session once, and then the one that the same issuer is to serve.
fn serve_in_turn(
    alloc: Global,
    table: &Table,
    session: &Session,
    moves: Moves,
    issuer: &mut Issuer,
) -> Option<&'static str> {
    match (
        serve_once(alloc, table, session, moves, issuer),
        session.then,
    ) {
        (None, Some(next)) => serve_once(alloc, table, next, AT_ONCE, issuer),
        (wrong, _) => wrong,
    }
}

/// Holds a session so by an issuer of its own.
fn serve_anew(
    alloc: Global,
    table: &Table,
    session: &Session,
    moves: Moves,
) -> Option<&'static str> {
    match issuer(alloc, session.is_small) {
        Some(mut issuer) => serve_in_turn(alloc, table, session, moves, &mut issuer),
        None => Some("the issuer"),
    }
}

/// Holds a session once for each of its counts of bytes.
fn check_session(alloc: Global, table: &Table, session: &Session) -> Result<(), Fail> {
    for moves in session.moves {
        if let Some(what) = serve_anew(alloc, table, session, *moves) {
            let (read, taken) = *moves;
            return Err(Fail::new(format_args!(
                "{}, {read} bytes a read and {taken} a write: {what}",
                session.name
            )));
        }
    }
    Ok(())
}

/// Holds all sessions.
fn check_sessions(alloc: Global, table: &Table) -> Result<(), Fail> {
    for session in SESSIONS {
        check_session(alloc, table, session)?;
    }
    Ok(())
}

#[test]
fn each_session_ends_as_its_row_says(rt: HostRuntime) -> Result<(), Fail> {
    match Table::ascii87(rt.alloc()) {
        Ok(table) => check_sessions(rt.alloc(), &table),
        Err(_) => check(false, "the table"),
    }
}
