//! An event as a line of JSON.

use iso_host::BodyFault;
use iso_lines::{Closing, Counts, Event, Line, Refusal, Stop, closing_word, refusal_word};
use iso_links::Limits;
use iso_order::TxKey;
use jiff::Timestamp;
use std::alloc::AllocError;

/// Adds the time: in UTC, to a millisecond.
fn add_time(line: &mut String, at: u64) -> Result<(), AllocError> {
    match i64::try_from(at) {
        Ok(at) => match Timestamp::from_millisecond(at) {
            Ok(time) => write!(line, "{{\"at\":\"{time}\","),
            Err(_) => write!(line, "{{\"at\":\"\","),
        },
        Err(_) => write!(line, "{{\"at\":\"\","),
    }
}

/// The word for why a host stops.
fn stop_word(why: Stop) -> &'static str {
    match why {
        Stop::File => "stop-file",
        Stop::Input => "end-of-input",
    }
}

/// Adds the name of a line. Characters that a text of JSON writes otherwise are left out.
fn add_link(line: &mut String, lines: &[Line<'_>], link: usize) -> Result<(), AllocError> {
    line.push_str("\"link\":\"")?;
    if let Some(served) = lines.get(link) {
        for letter in served.terms.name.chars() {
            if letter != '"' && letter != '\\' && letter >= ' ' {
                line.push(letter)?;
            }
        }
    }
    line.push_str("\",")
}

/// Adds which event it is, of which line.
fn add_of_line(
    line: &mut String,
    lines: &[Line<'_>],
    event: &str,
    link: usize,
) -> Result<(), AllocError> {
    write!(line, "\"event\":\"{event}\",")?;
    add_link(line, lines, link)
}

/// Adds which event it is, of which connection.
fn add_of_peer(
    line: &mut String,
    lines: &[Line<'_>],
    event: &str,
    link: usize,
    peer: u64,
) -> Result<(), AllocError> {
    add_of_line(line, lines, event, link)?;
    write!(line, "\"connection\":{peer},")
}

/// Adds a message type, where it is known.
fn add_kind(line: &mut String, kind: Option<u16>) -> Result<(), AllocError> {
    match kind {
        Some(kind) => write!(line, "\"type\":\"{kind:04}\","),
        None => Ok(()),
    }
}

/// Adds which event it is, of which connection, and the message type of its frame, where it is known.
fn add_of_frame(
    line: &mut String,
    lines: &[Line<'_>],
    event: &str,
    (link, peer): (usize, u64),
    kind: Option<u16>,
) -> Result<(), AllocError> {
    add_of_peer(line, lines, event, link, peer)?;
    add_kind(line, kind)
}

/// Adds a key, but for its message type.
fn add_key(line: &mut String, key: &TxKey) -> Result<(), AllocError> {
    let (stan, sent, acquirer) = (key.stan, key.sent, key.acquirer);
    write!(
        line,
        "\"trace\":\"{stan:06}\",\"sent\":\"{sent:010}\",\"acquirer\":\"{acquirer}\","
    )
}

/// Adds why a frame isn't one whole message.
fn add_fault(line: &mut String, fault: &BodyFault) -> Result<(), AllocError> {
    match fault {
        BodyFault::Behind(at) => write!(line, "\"fault\":\"BytesBehind\",\"offset\":{at}}}\n"),
        BodyFault::Stops(stop) => {
            let (name, element, at) = (stop.cause.name(), stop.element, stop.at);
            write!(
                line,
                "\"fault\":\"{name}\",\"element\":{element},\"offset\":{at}}}\n"
            )
        }
    }
}

/// Adds how a peer was closed.
fn add_closing(line: &mut String, why: Closing, counts: &Counts) -> Result<(), AllocError> {
    let word = closing_word(why);
    let Counts {
        came,
        went,
        frames,
        answered,
        unreadable,
    } = *counts;
    write!(line, "\"why\":\"{word}\",\"came\":{came},\"went\":{went},")?;
    write!(
        line,
        "\"frames\":{frames},\"answered\":{answered},\"unreadable\":{unreadable}}}\n"
    )
}

/// Adds the answer that an entry gave to a frame.
fn add_answered(line: &mut String, lines: &[Line<'_>], event: &Event) -> Result<(), AllocError> {
    match *event {
        Event::Answered {
            link,
            peer,
            kind,
            key,
            code,
            entry,
            micros,
        } => {
            add_of_frame(line, lines, "answered", (link, peer), kind)?;
            add_key(line, &key)?;
            write!(
                line,
                "\"code\":\"{code:02}\",\"entry\":{entry},\"micros\":{micros}}}\n"
            )
        }
        _ => Ok(()),
    }
}

/// Adds what came of a frame that is answered without an entry.
fn add_reply(line: &mut String, lines: &[Line<'_>], event: &Event) -> Result<(), AllocError> {
    match *event {
        Event::Replied {
            link,
            peer,
            kind,
            code,
            micros,
        } => {
            add_of_frame(line, lines, "replied", (link, peer), kind)?;
            write!(line, "\"code\":\"{code:02}\",\"micros\":{micros}}}\n")
        }
        Event::Foreign {
            link,
            peer,
            kind,
            key,
            micros,
        } => {
            add_of_frame(line, lines, "foreign", (link, peer), kind)?;
            add_key(line, &key)?;
            write!(line, "\"code\":\"12\",\"micros\":{micros}}}\n")
        }
        _ => Ok(()),
    }
}

/// Adds what isn't answered, or can't be read.
fn add_unanswered(line: &mut String, lines: &[Line<'_>], event: &Event) -> Result<(), AllocError> {
    match *event {
        Event::Silent { link, peer, kind } => {
            add_of_frame(line, lines, "silent", (link, peer), kind)?;
            line.push_str("\"answered\":false}\n")
        }
        Event::Unreadable {
            link,
            peer,
            kind,
            fault,
        } => {
            add_of_frame(line, lines, "unreadable", (link, peer), kind)?;
            add_fault(line, &fault)
        }
        _ => Ok(()),
    }
}

/// Adds what is allowed to the peers of a line, and ends the line.
fn add_limits(line: &mut String, lines: &[Line<'_>], link: usize) -> Result<(), AllocError> {
    if let Some(of) = lines.get(link) {
        let Limits {
            peers,
            idle,
            frame,
            unread,
            waiting,
            ..
        } = of.terms.limits;
        write!(
            line,
            ",\"peers\":{peers},\"idle\":{idle},\"frame\":{frame},\"unread\":{unread},\"waiting\":{waiting}"
        )?;
    }
    line.push_str("}\n")
}

/// Adds what happened at a port of the host.
fn add_of_port(line: &mut String, lines: &[Line<'_>], event: &Event) -> Result<(), AllocError> {
    match *event {
        Event::Listening { link, address } => {
            add_of_line(line, lines, "listening", link)?;
            write!(line, "\"address\":\"{address}\"")?;
            add_limits(line, lines, link)
        }
        Event::Refused { link, address, why } => {
            add_of_line(line, lines, "refused", link)?;
            let word = refusal_word(why);
            write!(line, "\"address\":\"{address}\",\"why\":\"{word}\"}}\n")
        }
        Event::NotAccepted { link } => {
            add_of_line(line, lines, "not-accepted", link)?;
            line.push_str("\"tried\":\"again\"}\n")
        }
        _ => Ok(()),
    }
}

/// Adds who came and went.
fn add_coming(line: &mut String, lines: &[Line<'_>], event: &Event) -> Result<(), AllocError> {
    match *event {
        Event::Connected {
            link,
            peer,
            address,
        } => {
            add_of_peer(line, lines, "connected", link, peer)?;
            write!(line, "\"address\":\"{address}\"}}\n")
        }
        Event::Closed {
            link,
            peer,
            why,
            counts,
        } => {
            add_of_peer(line, lines, "closed", link, peer)?;
            add_closing(line, why, &counts)
        }
        _ => Ok(()),
    }
}

/// Adds what happened to the host itself.
fn add_own(line: &mut String, event: &Event) -> Result<(), AllocError> {
    match *event {
        Event::Kept { orders, micros } => write!(
            line,
            "\"event\":\"kept\",\"orders\":{orders},\"micros\":{micros}}}\n"
        ),
        Event::Journal {
            entries,
            limit,
            hundredths,
        } => write!(
            line,
            "\"event\":\"journal\",\"entries\":{entries},\"limit\":{limit},\"hundredths\":{hundredths}}}\n"
        ),
        Event::LogFailed => line.push_str("\"event\":\"log-failed\"}\n"),
        Event::Stopping { why } => {
            let word = stop_word(why);
            write!(line, "\"event\":\"stopping\",\"why\":\"{word}\"}}\n")
        }
        _ => Ok(()),
    }
}

/// Whether an event has a line: what moved in each turn and the syncs are for counts alone.
pub fn has_line(event: &Event) -> bool {
    !matches!(event, Event::Moved { .. } | Event::Kept { .. })
}

/// Adds the line of an event, at so many milliseconds since 1970.
pub fn add_line(
    line: &mut String,
    lines: &[Line<'_>],
    at: u64,
    event: &Event,
) -> Result<(), AllocError> {
    add_time(line, at)?;
    match event {
        Event::Answered { .. } => add_answered(line, lines, event),
        Event::Replied { .. } | Event::Foreign { .. } => add_reply(line, lines, event),
        Event::Silent { .. } | Event::Unreadable { .. } => add_unanswered(line, lines, event),
        Event::Kept { .. }
        | Event::Journal { .. }
        | Event::LogFailed
        | Event::Stopping { .. }
        | Event::Moved { .. } => add_own(line, event),
        Event::Listening { .. } | Event::Refused { .. } | Event::NotAccepted { .. } => add_of_port(
            line, lines, event,
        ),
        _ => add_coming(line, lines, event),
    }
}
