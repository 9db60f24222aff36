//! What a host tells of its peers. No account number, track, PIN or chip data can stand in it: no type here has a place for
//! one.

use crate::notes::Told;
use crate::standing::Closing;
use iso_guard::Came;
use iso_host::{BodyFault, Handled};
use iso_order::TxKey;
use std::net::SocketAddr;

/// How much came of a peer and went to it. The counts stop at the greatest number.
#[derive(Clone, Copy, Debug, PartialEq, Eq)]
pub struct Counts {
    /// Bytes that came.
    pub came: u64,
    /// Bytes that were written.
    pub went: u64,
    /// Frames that came.
    pub frames: u64,
    /// Those that were answered.
    pub answered: u64,
    /// Those that were not one whole message.
    pub unreadable: u64,
}

/// Why a peer isn't let in.
#[derive(Clone, Copy, Debug, PartialEq, Eq)]
pub enum Refusal {
    /// Its line has as many peers as it may have.
    Peers,
    /// Its address is in no network of its line.
    Network,
    /// There is no memory for it.
    Memory,
}

/// Why a host stops.
#[derive(Clone, Copy, Debug, PartialEq, Eq)]
pub enum Stop {
    /// The stop file is there.
    File,
    /// Standard input has ended.
    Input,
}

/// What happened. `link` is the place of a line in the list of all lines, and `peer` the number of a connection. `kind` is
/// the number of a message type, as 200, where it is known.
#[derive(Clone, Copy, Debug)]
pub enum Event {
    /// The host listens on this address.
    Listening {
        link: usize,
        address: SocketAddr,
    },
    /// A peer was let in, under this number.
    Connected {
        link: usize,
        peer: u64,
        address: SocketAddr,
    },
    /// A peer was not let in.
    Refused {
        link: usize,
        address: SocketAddr,
        why: Refusal,
    },
    /// The system hands out no connection of a line now. It is asked again in each turn.
    NotAccepted {
        link: usize,
    },
    /// A frame asked an order, and its answer was made: its code and its place in the journal, and how many microseconds
    /// passed from its turn's reading to the end of its writing.
    Answered {
        link: usize,
        peer: u64,
        kind: Option<u16>,
        key: TxKey,
        code: u8,
        entry: u32,
        micros: u64,
    },
    /// A frame that asks no order was answered.
    Replied {
        link: usize,
        peer: u64,
        kind: Option<u16>,
        code: u8,
        micros: u64,
    },
    /// A frame asked an order of an acquirer that its line may not speak for. It was answered 12, and entered nowhere.
    Foreign {
        link: usize,
        peer: u64,
        kind: Option<u16>,
        key: TxKey,
        micros: u64,
    },
    /// A frame isn't answered.
    Silent {
        link: usize,
        peer: u64,
        kind: Option<u16>,
    },
    /// A frame isn't one whole message.
    Unreadable {
        link: usize,
        peer: u64,
        kind: Option<u16>,
        fault: BodyFault,
    },
    /// A peer's connection was closed.
    Closed {
        link: usize,
        peer: u64,
        why: Closing,
        counts: Counts,
    },
    /// So many bytes came of the peers of a line in this turn, and so many were written to them.
    Moved {
        link: usize,
        came: u64,
        went: u64,
    },
    /// The orders of a turn were kept with one sync, which took so many microseconds.
    Kept {
        orders: usize,
        micros: u64,
    },
    /// The journal has so many entries, and this many hundredths of its limit are reached: 90 or 99.
    Journal {
        entries: u32,
        limit: u32,
        hundredths: u8,
    },
    /// The log of the orders failed. Nothing that waited is answered, and the host ends.
    LogFailed,
    /// The host stops after this turn.
    Stopping {
        why: Stop,
    },
}

/// Where a host tells what happens. What can't be told is dropped: a log never stops a payment.
pub trait Lines {
    /// Tells an event, at so many milliseconds since 1970.
    fn tell(&mut self, at: u64, event: &Event);

    /// A turn ends: what was told so far is to be seen.
    fn flush(&mut self);

    /// How many events could not be told so far.
    fn dropped(&self) -> u64 {
        0
    }
}

impl Counts {
    /// Before the first byte.
    pub const NONE: Counts = Counts {
        came: 0,
        went: 0,
        frames: 0,
        answered: 0,
        unreadable: 0,
    };

    /// Counts a frame by what came of it.
    pub(crate) fn count(&mut self, came: &Came) {
        self.frames = self.frames.saturating_add(1);
        match came {
            Came::Foreign(_) => self.answered = self.answered.saturating_add(1),
            Came::Handled(handled) => self.count_handled(handled),
        }
    }

    /// Counts a frame by what the host did with its body.
    fn count_handled(&mut self, handled: &Handled) {
        match handled {
            Handled::Unreadable(_) => self.unreadable = self.unreadable.saturating_add(1),
            Handled::Silent => {}
            Handled::Replied { .. } | Handled::Ordered { .. } => {
                self.answered = self.answered.saturating_add(1);
            }
        }
    }
}

impl Event {
    /// What is told of a peer that came to a line: it was let in under a number, or wasn't let in.
    pub(crate) fn of_peer(link: usize, address: SocketAddr, came: Result<u64, Refusal>) -> Event {
        match came {
            Ok(peer) => Event::Connected {
                link,
                peer,
                address,
            },
            Err(why) => Event::Refused { link, address, why },
        }
    }

    /// What is told of a frame.
    pub(crate) fn of_frame(told: &Told, micros: u64) -> Event {
        let (link, peer, kind) = (told.link, told.peer, told.kind);
        match told.came {
            Came::Foreign(key) => Event::Foreign {
                link,
                peer,
                kind,
                key,
                micros,
            },
            Came::Handled(handled) => Event::of_handled(told, handled, micros),
        }
    }

    /// What is told of a frame that asked an order, and of its answer.
    fn of_order(told: &Told, key: TxKey, code: u8, entry: u32, micros: u64) -> Event {
        Event::Answered {
            link: told.link,
            peer: told.peer,
            kind: told.kind,
            key,
            code,
            entry,
            micros,
        }
    }

    /// What is told of a frame whose body the host was given.
    fn of_handled(told: &Told, handled: Handled, micros: u64) -> Event {
        let (link, peer, kind) = (told.link, told.peer, told.kind);
        match handled {
            Handled::Unreadable(fault) => Event::Unreadable {
                link,
                peer,
                kind,
                fault,
            },
            Handled::Silent => Event::Silent { link, peer, kind },
            Handled::Replied { code } => Event::Replied {
                link,
                peer,
                kind,
                code,
                micros,
            },
            Handled::Ordered { key, code, seq } => Event::of_order(told, key, code, seq, micros),
        }
    }
}
