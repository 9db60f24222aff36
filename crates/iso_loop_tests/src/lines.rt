//! The lines of a log.

use crate::stream::Script;
use iso_fakes::{check, check_of};
use iso_host::{BodyFault, HostTable, Link};
use iso_lines::{Closing, Counts, Event, Filling, Line, Lines, Refusal, Stop};
use iso_links::{Limits, Terms};
use iso_loop::LogLines;
use iso_order::TxKey;
use iso_table::Table;
use iso_wire::{Header, UnpackCause, UnpackFault};
use std::alloc::Global;
use std::net::{IpAddr, Ipv4Addr, SocketAddr};
use std::test::Fail;

/// An event, and its line behind the time.
struct Row {
    event: Event,
    line: &'static str,
}

/// The key of a purchase.
const KEY: TxKey = TxKey {
    base: 200,
    stan: 7,
    sent: 102_030_405,
    acquirer: 12_345,
};

const ROWS: &[Row] = &[
    Row {
        event: Event::Answered {
            link: 0,
            peer: 3,
            kind: Some(201),
            key: KEY,
            code: 0,
            entry: 1,
            micros: 250,
        },
        line: "\"event\":\"answered\",\"link\":\"pos\",\"connection\":3,\"type\":\"0201\",\"trace\":\"000007\",\"sent\":\"0102030405\",\"acquirer\":\"12345\",\"code\":\"00\",\"entry\":1,\"micros\":250}\n",
    },
    Row {
        event: Event::Foreign {
            link: 0,
            peer: 3,
            kind: Some(200),
            key: KEY,
            micros: 9,
        },
        line: "\"event\":\"foreign\",\"link\":\"pos\",\"connection\":3,\"type\":\"0200\",\"trace\":\"000007\",\"sent\":\"0102030405\",\"acquirer\":\"12345\",\"code\":\"12\",\"micros\":9}\n",
    },
    Row {
        event: Event::Replied {
            link: 0,
            peer: 3,
            kind: None,
            code: 30,
            micros: 9,
        },
        line: "\"event\":\"replied\",\"link\":\"pos\",\"connection\":3,\"code\":\"30\",\"micros\":9}\n",
    },
    Row {
        event: Event::Unreadable {
            link: 0,
            peer: 3,
            kind: None,
            fault: BodyFault::Stops(UnpackFault {
                at: 4,
                element: 1,
                cause: UnpackCause::BadHex,
            }),
        },
        line: "\"event\":\"unreadable\",\"link\":\"pos\",\"connection\":3,\"fault\":\"BadHex\",\"element\":1,\"offset\":4}\n",
    },
    Row {
        event: Event::Closed {
            link: 0,
            peer: 3,
            why: Closing::UnfinishedFrame,
            counts: Counts::NONE,
        },
        line: "\"event\":\"closed\",\"link\":\"pos\",\"connection\":3,\"why\":\"unfinished-frame\",\"came\":0,\"went\":0,\"frames\":0,\"answered\":0,\"unreadable\":0}\n",
    },
    Row {
        event: Event::Journal {
            entries: 90,
            limit: 100,
            hundredths: 90,
        },
        line: "\"event\":\"journal\",\"entries\":90,\"limit\":100,\"hundredths\":90}\n",
    },
    Row {
        event: Event::Stopping { why: Stop::File },
        line: "\"event\":\"stopping\",\"why\":\"stop-file\"}\n",
    },
];

/// A link of ASCII digits.
fn link(alloc: Global) -> Option<Link> {
    match HostTable::new(Table::ascii87(alloc).ok()?) {
        Ok(table) => Some(Link::new(table, Header::Ascii4)),
        Err(_) => None,
    }
}

/// Where a peer comes from.
fn address() -> SocketAddr {
    SocketAddr::new(IpAddr::V4(Ipv4Addr::new(192, 0, 2, 7)), 8583)
}

/// Terms of that name.
fn terms(alloc: Global, name: &str) -> Option<Terms> {
    Some(Terms {
        name: String::from_str(alloc, name).ok()?,
        address: address(),
        table: String::new(alloc),
        header: Header::Ascii4,
        skip: 0,
        networks: Vec::new(alloc),
        acquirers: Vec::new(alloc),
        limits: Limits::DEFAULT,
    })
}

/// How many turns a writer has that takes few bytes in each.
const TURNS: usize = 32;

/// Tells two events to a writer that takes so many bytes a turn, and gives how many lines were dropped.
fn write_slowly(alloc: Global, lines: &[Line<'_>], takes: usize, out: &mut Vec<u8>) -> u64 {
    let mut log = LogLines::new(alloc, lines, Script::new(&[], 0, takes, out));
    log.tell(1, &Event::Stopping { why: Stop::File });
    log.tell(1, &Event::Stopping { why: Stop::Input });
    for _ in 0..TURNS {
        log.flush();
    }
    log.dropped()
}

/// Writes what a log of these lines tells of an event, a millisecond after the year 1970 began.
fn write_event(alloc: Global, lines: &[Line<'_>], event: &Event, out: &mut Vec<u8>) {
    let mut log = LogLines::new(alloc, lines, out);
    log.tell(1, event);
    log.flush();
}

/// What a log writes of an event.
fn told(alloc: Global, event: &Event) -> Option<Vec<u8>> {
    let (link, terms) = (link(alloc)?, terms(alloc, "pos")?);
    let lines = [Line {
        link: &link,
        terms: &terms,
    }];
    let mut out = Vec::new(alloc);
    write_event(alloc, &lines, event, &mut out);
    Some(out)
}

/// Whether a log writes this line of an event.
fn tells(alloc: Global, event: &Event, line: &str) -> bool {
    match told(alloc, event) {
        Some(out) => match out.strip_prefix(b"{\"at\":\"1970-01-01T00:00:00.001Z\",") {
            Some(rest) => rest == line.as_bytes(),
            None => false,
        },
        None => false,
    }
}

#[test]
fn events_have_lines(rt: HostRuntime) -> Result<(), Fail> {
    for row in ROWS {
        check_of(tells(rt.alloc(), &row.event, row.line), "a line", row.line)?;
    }
    Ok(())
}

#[test]
fn a_writer_that_takes_nothing_now_gets_the_lines_later(rt: HostRuntime) -> Result<(), Fail> {
    let wanted = "{\"at\":\"1970-01-01T00:00:00.001Z\",\"event\":\"stopping\",\"why\":\"stop-file\"}
{\"at\":\"1970-01-01T00:00:00.001Z\",\"event\":\"stopping\",\"why\":\"end-of-input\"}
";
    for takes in [7, 70, 7000] {
        let mut out = Vec::new(rt.alloc());
        let dropped = write_slowly(rt.alloc(), &[], takes, &mut out);
        check(dropped == 0, "no line is dropped")?;
        check(out.as_slice() == wanted.as_bytes(), "two whole lines")?;
    }
    Ok(())
}

#[test]
fn a_refused_peer_has_a_line(rt: HostRuntime) -> Result<(), Fail> {
    let event = Event::Refused {
        link: 0,
        address: address(),
        why: Refusal::Network,
    };
    let line =
        "\"event\":\"refused\",\"link\":\"pos\",\"address\":\"192.0.2.7:8583\",\"why\":\"network\"}\n";
    check(tells(rt.alloc(), &event, line), "a refused peer")
}

#[test]
fn how_full_the_journal_is_is_told_twice(_rt: HostRuntime) -> Result<(), Fail> {
    let mut filling = Filling::NONE;
    check(filling.rises(89, 100).is_none(), "89 of 100")?;
    check(filling.rises(90, 100) == Some(90), "90 of 100")?;
    check(filling.rises(91, 100).is_none(), "91 of 100")?;
    check(filling.rises(99, 100) == Some(99), "99 of 100")?;
    check(filling.rises(100, 100).is_none(), "100 of 100")
}
