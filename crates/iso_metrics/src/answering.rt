//! Requests over HTTP and their answers.

use crate::metrics::Metrics;
use http::StatusCode;
use http1::{BodySize, Event, Header, Limits, Server, WriteError};
use httparse::spans::EMPTY_HEADER_SPAN;
use iso_counts::Asked;
use iso_lines::{MOST_REQUEST, Pages};
use std::alloc::AllocError;

/// How many fields it has at most.
const FIELDS: usize = 64;

/// What a request may have. Nothing but its head is read.
const LIMITS: Limits = Limits {
    max_head_len: MOST_REQUEST,
    max_extensions_len: 2,
    max_trailers_len: 2,
};

/// A request.
#[derive(Clone, Copy, PartialEq, Eq)]
struct Request {
    asked: Asked,
    /// Whether only the head of the answer is wanted.
    wants_head: bool,
}

impl Request {
    /// One that isn't taken.
    fn refused(status: u16) -> Request {
        Request {
            asked: Asked::Refused(status),
            wants_head: false,
        }
    }
}

/// Reads a request, as far as its head came. `None` while it isn't whole.
fn read_request(server: &mut Server, head: &[u8]) -> Option<Request> {
    let mut fields = [EMPTY_HEADER_SPAN; FIELDS];
    let event = match server.read(head, &mut fields) {
        Ok(read) => read.event,
        Err(fault) => return Some(Request::refused(fault.status())),
    };
    match event {
        Event::NeedMore => None,
        Event::Head(request) => {
            let method = request.method.of(head);
            Some(Request {
                asked: Asked::of_line(method, request.path.of(head)),
                wants_head: method == b"HEAD".as_slice(),
            })
        }
        _ => Some(Request::refused(400)),
    }
}

/// The type of what is answered.
fn content_type(asked: &Asked) -> &'static [u8] {
    match asked {
        Asked::Metrics => b"text/plain; version=0.0.4; charset=utf-8",
        Asked::Health => b"application/json",
        _ => b"text/plain; charset=utf-8",
    }
}

/// The words for a status.
fn reason(status: u16) -> &'static str {
    match StatusCode::from_u16(status) {
        Ok(status) => status.canonical_reason().unwrap_or(""),
        Err(_) => "",
    }
}

/// One field of a head.
fn field<'a>(name: &'a [u8], value: &'a [u8]) -> Header<'a> {
    Header { name, value }
}

/// Adds the head of an answer that tells so many bytes.
fn write_head(
    server: &mut Server,
    asked: &Asked,
    status: u16,
    size: u64,
    out: &mut Vec<u8>,
) -> Result<(), WriteError> {
    let fields = [
        field(b"content-type", content_type(asked)),
        field(b"cache-control", b"no-store"),
        field(b"connection", b"close"),
        field(b"allow", b"GET, HEAD"),
    ];
    // only who asks for something that isn't done is told what is
    let count = match asked {
        Asked::NotAllowed => 4,
        _ => 3,
    };
    server.write_response(
        out,
        status,
        reason(status).as_bytes(),
        fields.get(..count).unwrap_or(&[]),
        BodySize::Known(size),
    )
}

/// Adds an answer: its head, and what it tells unless only the head is wanted.
fn write_answer(
    server: &mut Server,
    request: &Request,
    status: u16,
    body: &[u8],
    out: &mut Vec<u8>,
) -> Result<(), WriteError> {
    write_head(server, &request.asked, status, body.len() as u64, out)?;
    if !request.wants_head {
        server.write_data(out, body)?;
    }
    server.write_end(out, &[])
}

impl Metrics {
    /// Adds what a request is told.
    fn add_body(&self, asked: &Asked, status: u16, text: &mut String) -> Result<(), AllocError> {
        match asked {
            Asked::Metrics => self.write_metrics(text),
            Asked::Health => self.write_health(text),
            _ => {
                let words = reason(status);
                write!(text, "{status} {words}\n")
            }
        }
    }

    /// Adds the answer to a request.
    fn answer(
        &self,
        server: &mut Server,
        request: &Request,
        out: &mut Vec<u8>,
    ) -> Result<(), WriteError> {
        let status = request.asked.status(self.can_write());
        let mut text = String::new(self.alloc);
        self.add_body(&request.asked, status, &mut text)?;
        write_answer(server, request, status, text.as_bytes(), out)
    }

    /// Answers a request as far as its head came, and tells whether the head is whole: then all that is to be written stands
    /// in `out`, and nothing where there is no memory for it.
    pub fn answer_request(&self, head: &[u8], out: &mut Vec<u8>) -> bool {
        let mut server = Server::new(LIMITS);
        let Some(request) = read_request(&mut server, head) else {
            return false;
        };
        if self.answer(&mut server, &request, out).is_err() {
            out.clear();
        }
        true
    }
}

impl Pages for Metrics {
    fn answer(&mut self, head: &[u8], out: &mut Vec<u8>) -> bool {
        self.answer_request(head, out)
    }
}
