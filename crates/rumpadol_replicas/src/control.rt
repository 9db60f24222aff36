//! Telling a standby that it is to take over.
use rumpadol_cluster::{MOST_LINE, Told, heard};
use rumpadol_tables::{Stop, failed, misused};
use std::alloc::Global;
use std::io::{ErrorKind, Read, Write};
use std::net::{Net, OpenListener, OpenStream, SocketAddr, TcpListener};

/// How often a visitor is looked at that says nothing.
const MOST_LOOKS: u32 = 200;

/// One who came.
#[derive(Drop)]
struct Visitor<S: Drop> {
    stream: S,
    bytes: Vec<u8>,
    looks: u32,
}

/// The address at which a standby is told to take over.
#[derive(Drop)]
pub struct Door<N: Net> {
    alloc: Global,
    listener: N::Listener,
    visitor: Option<Visitor<N::Stream>>,
}

/// What came of looking at a visitor.
#[derive(Clone, Copy, PartialEq, Eq)]
enum Looked {
    /// It may say more.
    Waits,
    /// It says that the standby is to take over.
    TakesOver,
    /// It is gone, or said something else.
    Done,
}

impl<S: Read + Write + Drop> Visitor<S> {
    /// Reads what came.
    fn look(&mut self) -> Looked {
        let mut block = [0u8; MOST_LINE];
        self.looks = self.looks.saturating_add(1);
        match self.stream.read(&mut block) {
            Ok(0) => Looked::Done,
            Ok(count) => self.take(block.get(..count).unwrap_or(&[])),
            Err(error) if error.kind() == ErrorKind::WouldBlock && self.looks < MOST_LOOKS =>
                Looked::Waits,
            Err(_) => Looked::Done,
        }
    }

    /// Takes what was read.
    fn take(&mut self, bytes: &[u8]) -> Looked {
        if self.bytes.extend_from_slice(bytes).is_err() {
            return Looked::Done;
        }
        match heard(&self.bytes) {
            Told::More => Looked::Waits,
            Told::TakeOver => {
                let _ = self.stream.write_all(b"ok\n");
                Looked::TakesOver
            }
            Told::Other => {
                let _ = self.stream.write_all(b"say: take over\n");
                Looked::Done
            }
        }
    }
}

/// The address that a word writes.
fn address_in(alloc: Global, text: &str) -> Result<SocketAddr, Stop> {
    match text.parse::<SocketAddr>() {
        Ok(address) => Ok(address),
        Err(_) => Err(misused(format!(in alloc;
            "rumpadol: --control {text}: write an address and a port, as 127.0.0.1:8600 or [::1]:8600\n"
        ))),
    }
}

impl<N: Net> Door<N> {
    /// Listens on the address that a word writes.
    pub fn open(alloc: Global, net: &N, text: &str) -> Result<Door<N>, Stop> {
        let address = address_in(alloc, text)?;
        match TcpListener::bind(net, address) {
            Ok(listener) if listener.set_nonblocking(true).is_ok() => Ok(Door {
                alloc,
                listener,
                visitor: None,
            }),
            _ => Err(failed(format!(in alloc;
                "rumpadol: --control {text}: it can't listen there; name an address of this machine and a port that is free\n"
            ))),
        }
    }

    /// Lets one in, where nobody is.
    fn let_in(&mut self) {
        if self.visitor.is_some() {
            return;
        }
        if let Ok((stream, _)) = self.listener.accept()
            && stream.set_nonblocking(true).is_ok()
        {
            self.visitor = Some(Visitor {
                stream,
                bytes: Vec::new(self.alloc),
                looks: 0,
            });
        }
    }

    /// Whether one has said that the standby is to take over.
    pub fn is_told(&mut self) -> bool {
        self.let_in();
        let looked = match &mut self.visitor {
            Some(visitor) => visitor.look(),
            None => return false,
        };
        if looked != Looked::Waits {
            self.visitor = None;
        }
        looked == Looked::TakesOver
    }
}
