//! What is read of a peer.
ghost use Rattle.std.specs.Prelude.{◌≡◌, ℕ, true, false, None, IsSome};
ghost use Rattle.iso_peers.specs.Host.{IsInStep};
ghost use Rattle.iso_lines.specs.Guarded.{is_guarded};
ghost use Rattle.iso_lines.specs.Hearing.{ReadsPiece, dealing_of, KeepsBytes, HearsBytes, HearsAlone, growth, ended_after};
ghost use Rattle.iso_lines.specs.Turn.{EntersHeard};

use crate::notes::{Noted, Told};
use crate::peer::Peer;
use crate::standing::Closing;
use crate::taking::take_noted;
use iso_durable::{Log, LogFailed};
use iso_guard::Rooms;
use iso_host::PeerFault;
use iso_host::laws::one_journal;
use iso_peers::{DurableHost, Turned};
use iso_wire::laws::frames;
use std::io::{ErrorKind, Read, Write};

/// How reading a piece went on.
#[derive(Clone, Copy, PartialEq, Eq)]
enum Piece {
    /// So many bytes came.
    Came(usize),
    /// Nothing has come now.
    None,
    /// It was cut short, and is tried again.
    Again,
    /// Nothing more comes.
    Over,
    /// The connection failed.
    Failed,
}

/// Reads a piece.
#[tactic(auto, using(crate::proofs::Turns::keeps_gives))]
fn read_piece<S: Read>(stream: &mut S, block: &mut [u8]) -> Piece
    ensures { ReadsPiece (S.remaining stream.old) (S.remaining stream.new) block.new result }
{
    match stream.read(block) {
        Ok(0) => Piece::Over,
        Ok(count) => Piece::Came(count),
        Err(error) => match error.kind() {
            ErrorKind::WouldBlock => Piece::None,
            ErrorKind::Interrupted => Piece::Again,
            _ => Piece::Failed,
        },
    }
}

impl<S: Read + Write + Drop> Peer<'_, S> {
    /// Takes bytes of a line without a guard.
    #[tactic(auto, using(crate::proofs::PlainLines::direct_heard))]
    fn hear_direct<L: Log>(&mut self, host: &mut DurableHost<L>, bytes: &[u8], told: &mut Vec<Told>)
        ensures stream { self.new.stream ≡ self.old.stream }
        // Its frames are those at the front of the bytes, and their answers wait.
        ensures came { host.old.has_failed ≡ false → is_guarded self.old.line.terms.now ≡ false
            → self.old.standing.ended ≡ None
            → (key : ℕ) → HearsBytes key
            (dealing_of self.old) (dealing_of self.new)
            (growth host.old.host host.new.host) bytes.now }
        ensures heard { EntersHeard host.old.host host.new.host }
        ensures log { host.new.log ≡ host.old.log }
        ensures step { IsInStep L.is_ready L.synced L.pending host.old
            → IsInStep L.is_ready L.synced L.pending host.new }
    {
        // the laws of what enters, and of frames behind others, for the prover
        one_journal(host.issuer());
        frames();
        let taken = take_noted(
            host,
            &mut self.connection,
            bytes,
            self.line.link,
            &mut self.notes,
            told,
        );
        self.end_after(taken);
    }

    /// Takes bytes of a guarded line.
    #[tactic(auto, using(crate::proofs::GuardedLines::guarded_heard))]
    fn hear_guarded<L: Log>(
        &mut self,
        host: &mut DurableHost<L>,
        bytes: &[u8],
        rooms: &mut Rooms,
        told: &mut Vec<Told>,
    )
        ensures stream { self.new.stream ≡ self.old.stream }
        // Its frames are those at the front of the bytes, and their answers wait.
        ensures came { host.old.has_failed ≡ false → is_guarded self.old.line.terms.now ≡ true
            → self.old.standing.ended ≡ None
            → (key : ℕ) → HearsBytes key
            (dealing_of self.old) (dealing_of self.new)
            (growth host.old.host host.new.host) bytes.now }
        ensures heard { EntersHeard host.old.host host.new.host }
        ensures log { host.new.log ≡ host.old.log }
        ensures step { IsInStep L.is_ready L.synced L.pending host.old
            → IsInStep L.is_ready L.synced L.pending host.new }
    {
        // the laws of what enters, and of frames behind others, for the prover
        one_journal(host.issuer());
        frames();
        let mut noted = Noted {
            notes: self.notes,
            told: std::mem::replace(told, Vec::new(self.alloc)),
        };
        let taken = self.guarded.take_all(host, bytes, rooms, &mut noted);
        let Noted { notes, told: list } = noted;
        self.notes = notes;
        *told = list;
        self.end_after(taken);
    }

    /// Ends it, where bytes weren't taken to their end.
    fn end_after(&mut self, taken: Result<Turned, LogFailed>)
        ensures bytes { KeepsBytes self.old self.new }
        ensures ended { self.new.standing.ended ≡ ended_after self.old.standing.ended taken }
    {
        match taken {
            Err(_) => self.end(Closing::Stopped),
            Ok(turned) => match turned.stopped {
                None => {}
                Some(PeerFault::BadHeader) => self.end(Closing::BadHeader),
                Some(PeerFault::Memory) => self.end(Closing::Memory),
            },
        }
    }

    /// Takes bytes as its line says. Where the log had failed, nothing is taken.
    #[tactic(auto, using(crate::proofs::Heard::none_heard, crate::proofs::Reading::ended_heard))]
    fn take<L: Log>(
        &mut self,
        host: &mut DurableHost<L>,
        bytes: &[u8],
        rooms: &mut Rooms,
        told: &mut Vec<Told>,
    )
        ensures stream { self.new.stream ≡ self.old.stream }
        // Its frames are those at the front of the bytes, and their answers wait.
        ensures came { self.old.standing.ended ≡ None
            → (key : ℕ) → HearsBytes key
            (dealing_of self.old) (dealing_of self.new)
            (growth host.old.host host.new.host) bytes.now }
        ensures heard { EntersHeard host.old.host host.new.host }
        ensures log { host.new.log ≡ host.old.log }
        ensures step { IsInStep L.is_ready L.synced L.pending host.old
            → IsInStep L.is_ready L.synced L.pending host.new }
    {
        if host.has_failed {
            self.end(Closing::Stopped);
            return;
        }
        if self.line.is_guarded() {
            self.hear_guarded(host, bytes, rooms, told);
            return;
        }
        self.hear_direct(host, bytes, told);
    }

    /// Decides bytes that came.
    #[tactic(auto, using(crate::proofs::Reading::heard_then))]
    fn hear<L: Log>(
        &mut self,
        host: &mut DurableHost<L>,
        bytes: &[u8],
        now: u64,
        rooms: &mut Rooms,
        told: &mut Vec<Told>,
    )
        ensures stream { self.new.stream ≡ self.old.stream }
        // Its frames are those at the front of the bytes, and their answers wait.
        ensures came { self.old.standing.ended ≡ None
            → (key : ℕ) → HearsBytes key
            (dealing_of self.old) (dealing_of self.new)
            (growth host.old.host host.new.host) bytes.now }
        ensures heard { EntersHeard host.old.host host.new.host }
        ensures log { host.new.log ≡ host.old.log }
        ensures step { IsInStep L.is_ready L.synced L.pending host.old
            → IsInStep L.is_ready L.synced L.pending host.new }
    {
        let frames = self.notes.counts.frames;
        self.take(host, bytes, rooms, told);
        self.hears(bytes.len(), now, self.notes.counts.frames != frames);
    }

    /// So many bytes came: whether they end a frame.
    fn hears(&mut self, count: usize, now: u64, ends: bool)
        ensures bytes { KeepsBytes self.old self.new }
        ensures ended { self.new.standing.ended ≡ self.old.standing.ended }
    {
        let (is_whole, waiting) = (self.is_whole(), self.waiting());
        self.standing.hears(now, is_whole, ends);
        self.standing.waiting = waiting;
        self.notes.counts.came = self.notes.counts.came.saturating_add(count as u64);
        self.used = self.used.saturating_add(count).saturating_add(waiting);
    }

    /// Its side was ended.
    fn hear_end(&mut self)
        ensures bytes { KeepsBytes self.old self.new }
        ensures ended { IsSome self.new.standing.ended }
    {
        if self.is_whole() {
            self.end(Closing::Ended);
        } else {
            self.end(Closing::CutFrame);
        }
    }

    /// Bytes were read, as many as there was room for or fewer. A short read empties the stream, and what comes later gives an
    /// event. An end behind the bytes gives none of its own, so a peer whose end came is read until it is seen.
    fn was_read(&mut self, is_short: bool)
        ensures bytes { KeepsBytes self.old self.new }
        ensures ended { self.new.standing.ended ≡ self.old.standing.ended }
    {
        if is_short && !self.is_ending {
            self.may_have_come = false;
        }
    }

    /// Reads and decides one piece of so many bytes at most, and tells how many it had.
    #[tactic(auto, using(crate::proofs::Heard::none_heard, crate::proofs::Reading::read_heard, crate::proofs::Reading::read_none, crate::proofs::Reading::read_over))]
    pub fn read<L: Log>(
        &mut self,
        host: &mut DurableHost<L>,
        most: usize,
        now: u64,
        block: &mut [u8],
        rooms: &mut Rooms,
        told: &mut Vec<Told>,
    ) -> usize
        // Its frames are those at the front of the bytes that its stream gave, and their answers wait.
        ensures came { self.old.standing.ended ≡ None
            → (key : ℕ)
            → HearsAlone S.remaining key self.old self.new (growth host.old.host host.new.host) }
        // The books grow by bodies, one after the other, and by nothing else.
        ensures heard { EntersHeard host.old.host host.new.host }
        // The log isn't called: what a crash leaves stays the same.
        ensures log { host.new.log ≡ host.old.log }
        // A log in step with the journal stays in step.
        ensures step { IsInStep L.is_ready L.synced L.pending host.old
            → IsInStep L.is_ready L.synced L.pending host.new }
    {
        let most = most.min(block.len());
        let room = &mut block[..most];
        match read_piece(&mut self.stream, room) {
            Piece::Came(count) => {
                self.was_read(count < most);
                if let Some(bytes) = room.get(..count) {
                    self.hear(host, bytes, now, rooms, told);
                }
                return count;
            }
            Piece::None => self.may_have_come = false,
            Piece::Again => {}
            Piece::Over => self.hear_end(),
            Piece::Failed => self.fail(),
        }
        0
    }
}
