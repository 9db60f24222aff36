//! A connection: a request goes out whole, and its response comes back whole.
ghost use Rattle.std.specs.Prelude.{◌≡◌, IfErr};
ghost use Rattle.iso_etcd.specs.Links.{link_stream, IsUnsent};

use crate::dial::{Timed, Watch, time_left};
use crate::request::{Request, request_text};
use crate::response::{Loss, Response};
use bytes::BytesMut;
use http1::{Client, Event, Limits, ReadError};
use httparse::spans::{EMPTY_HEADER_SPAN, HeaderSpan};
use std::alloc::{AllocError, Global};
use std::io::ErrorKind;

/// The most bytes of a response's body.
pub const MOST_BODY: usize = 8_388_608;

/// The most reads, writes and pieces of one request and its response.
const MOST_STEPS: u32 = 10_000_000;

/// The room that a read is given.
const READ_SIZE: usize = 65_536;

/// The most fields of a response's head.
const MOST_FIELDS: usize = 64;

/// Why a response didn't come. The request may have arrived.
#[derive(Drop)]
enum Broken {
    /// The connection was lost, it took too long, or what came is no response.
    Lost,
    /// Memory ran out.
    Memory,
}

impl From<AllocError> for Broken {
    fn from(_: AllocError) -> Broken {
        Broken::Memory
    }
}

impl From<ReadError> for Broken {
    fn from(_: ReadError) -> Broken {
        Broken::Lost
    }
}

/// When a request ends, and how long each read and each write of it may take, in milliseconds.
#[derive(Clone, Copy, Debug, PartialEq, Eq)]
pub struct Term {
    /// When it ends, by the clock.
    pub end: u64,
    /// How long each read and each write may take.
    pub each: u64,
}

/// A connection to a member.
#[derive(Drop)]
pub struct Link<S: Timed> {
    stream: S,
    client: Client,
    input: BytesMut,
}

/// A response as far as it came.
#[derive(Drop)]
struct Arriving {
    status: u16,
    body: Vec<u8>,
}

impl Arriving {
    /// Adds a piece of the body.
    fn add(&mut self, piece: &[u8]) -> Result<(), Broken> {
        if piece.len() > MOST_BODY.saturating_sub(self.body.len()) {
            return Err(Broken::Lost);
        }
        self.body.extend_from_slice(piece)?;
        Ok(())
    }
}

impl<S: Timed> Link<S> {
    /// A connection that nothing was read from or written to.
    pub fn new(alloc: Global, stream: S) -> Link<S> {
        Link {
            stream,
            client: Client::new(Limits::default()),
            input: BytesMut::new(alloc),
        }
    }

    /// Whether another request can be sent: the last response came whole, and nothing came behind it.
    pub fn is_idle(&self) -> bool {
        self.client.is_idle() && self.input.is_empty()
    }

    /// Whether there is time for one more read or write, which then ends in time.
    fn is_in_time<W: Watch>(&mut self, watch: &W, term: Term) -> bool
        ensures { S.contents (link_stream self.new) ≡ S.contents (link_stream self.old) }
    {
        match watch.now() {
            Some(now) => match time_left(now, term.end, term.each) {
                Some(wait) => self.stream.set_wait(wait),
                None => false,
            },
            None => false,
        }
    }

    /// Writes some bytes, and gives how many.
    fn write_some<W: Watch>(
        &mut self,
        watch: &W,
        term: Term,
        bytes: &[u8],
    ) -> Result<usize, Broken> {
        if !self.is_in_time(watch, term) {
            return Err(Broken::Lost);
        }
        match self.stream.write(bytes) {
            Ok(0) => Err(Broken::Lost),
            Ok(count) => Ok(count),
            Err(error) if error.kind() == ErrorKind::Interrupted => Ok(0),
            Err(_) => Err(Broken::Lost),
        }
    }

    /// Writes all bytes.
    fn send<W: Watch>(&mut self, watch: &W, term: Term, bytes: &[u8]) -> Result<(), Broken> {
        let mut rest = bytes;
        for _ in 0..MOST_STEPS {
            if rest.is_empty() {
                return Ok(());
            }
            let count = self.write_some(watch, term, rest)?;
            rest = rest.get(count..).unwrap_or(&[]);
        }
        Err(Broken::Lost)
    }

    /// Reads some bytes.
    fn fill<W: Watch>(&mut self, watch: &W, term: Term) -> Result<(), Broken> {
        if !self.is_in_time(watch, term) {
            return Err(Broken::Lost);
        }
        self.input.reserve(READ_SIZE)?;
        match self.input.read_from(&mut self.stream) {
            Ok(0) => Err(Broken::Lost),
            Ok(_) => Ok(()),
            Err(error) if error.kind() == ErrorKind::Interrupted => Ok(()),
            Err(_) => Err(Broken::Lost),
        }
    }

    /// Takes one event, and tells whether it ends the response.
    fn step<W: Watch>(
        &mut self,
        watch: &W,
        term: Term,
        spans: &mut [HeaderSpan],
        arriving: &mut Arriving,
    ) -> Result<bool, Broken> {
        let read = self.client.read(self.input.as_slice(), spans)?;
        match read.event {
            Event::Head(head) => arriving.status = head.code,
            Event::Data(span) => arriving.add(span.of(self.input.as_slice()))?,
            Event::Informational(_) | Event::NeedMore | Event::End(_) => {}
            Event::Paused | Event::Upgraded | Event::Closed => return Err(Broken::Lost),
        }
        // where more is needed, some bytes may be done with all the same
        self.input.advance(read.consumed);
        if matches!(read.event, Event::NeedMore) {
            self.fill(watch, term)?;
        }
        Ok(matches!(read.event, Event::End(_)))
    }

    /// Reads a response.
    fn receive<W: Watch>(
        &mut self,
        alloc: Global,
        watch: &W,
        term: Term,
    ) -> Result<Response, Broken> {
        let mut spans = [EMPTY_HEADER_SPAN; MOST_FIELDS];
        let mut arriving = Arriving {
            status: 0,
            body: Vec::new(alloc),
        };
        for _ in 0..MOST_STEPS {
            if self.step(watch, term, &mut spans, &mut arriving)? {
                let Arriving { status, body } = arriving;
                return Ok(Response { status, body });
            }
        }
        Err(Broken::Lost)
    }

    /// Sends a request and reads its response.
    fn exchange<W: Watch>(
        &mut self,
        alloc: Global,
        watch: &W,
        term: Term,
        text: &[u8],
    ) -> Result<Response, Broken> {
        self.send(watch, term, text)?;
        self.receive(alloc, watch, term)
    }

    /// Asks: sends a request and reads its response, before the term ends.
    pub fn ask<W: Watch>(
        &mut self,
        alloc: Global,
        watch: &W,
        term: Term,
        request: &Request<'_>,
    ) -> Result<Response, Loss>
        // Where the fault says that nothing was sent, the stream is untouched.
        ensures unsent { IfErr result
            (λ loss. IsUnsent loss → link_stream self.new ≡ link_stream self.old) }
    {
        let text = match request_text(alloc, &mut self.client, request) {
            Ok(text) => text,
            Err(cause) => return Err(Loss::Unsent(cause)),
        };
        match self.exchange(alloc, watch, term, text.as_slice()) {
            Ok(response) => Ok(response),
            Err(Broken::Lost) => Err(Loss::Lost),
            Err(Broken::Memory) => Err(Loss::Memory),
        }
    }
}
