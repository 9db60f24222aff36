//! What is noted of the frames of a peer.

use crate::event::Counts;
use crate::kind::{Front, kind_of};
use iso_guard::{Came, Noting};
use iso_host::{Link, Taken};

/// What came of a frame of a peer.
#[derive(Clone, Copy)]
pub(crate) struct Told {
    /// The place of its line.
    pub link: usize,
    /// The peer's number.
    pub peer: u64,
    /// The frame's message type, where it is known.
    pub kind: Option<u16>,
    /// What came of it.
    pub came: Came,
}

/// What is noted of the frames of a peer.
#[derive(Clone, Copy)]
pub(crate) struct Notes {
    /// The place of its line.
    pub link: usize,
    /// Its number, by which it is told of.
    pub peer: u64,
    /// How much came and went.
    pub counts: Counts,
    /// The first bytes of the unfinished frame.
    pub front: Front,
}

impl Notes {
    /// Before the first byte.
    pub fn new(link: usize, peer: u64) -> Notes {
        Notes {
            link,
            peer,
            counts: Counts::NONE,
            front: Front::NONE,
        }
    }

    /// Notes what came of a frame. A note for which there is no memory is left out.
    pub fn note(&mut self, kind: Option<u16>, came: Came, told: &mut Vec<Told>) {
        self.counts.count(&came);
        let _ = told.push(Told {
            link: self.link,
            peer: self.peer,
            kind,
            came,
        });
    }

    /// Notes the frame that the first of these bytes end, if they end one.
    pub fn note_taken(&mut self, agreed: &Link, bytes: &[u8], taken: &Taken, told: &mut Vec<Told>) {
        if let Some(piece) = bytes.get(..taken.used) {
            self.front.see(piece);
        }
        if let Some(handled) = taken.handled {
            let kind = self.front.kind(agreed);
            self.front = Front::NONE;
            self.note(kind, Came::Handled(handled), told);
        }
    }
}

/// Where the frames of a guarded peer are noted, while its bytes are taken.
#[derive(Drop)]
pub(crate) struct Noted {
    pub notes: Notes,
    pub told: Vec<Told>,
}

impl Noting for Noted {
    fn note(&mut self, link: &Link, message: Option<&[u8]>, came: Came) {
        let kind = match message {
            Some(message) => kind_of(link, message),
            None => None,
        };
        self.notes.note(kind, came, &mut self.told);
    }
}
