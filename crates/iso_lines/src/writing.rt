//! What is written to a peer.
ghost use Rattle.std.specs.Prelude.{◌≡◌, drop};
ghost use Rattle.iso_peers.specs.Host.{IsKept};
ghost use Rattle.iso_lines.specs.Writing.{WritesFront, IfTook, taken_by};

use crate::peer::Peer;
use crate::standing::Closing;
use iso_durable::Log;
use iso_guard::GuardedPeer;
use iso_peers::{Connection, DurableHost};
use std::io::{ErrorKind, Read, Write};

/// How many writes a peer has in one turn.
const WRITES: usize = 64;

/// How a write went.
#[derive(Clone, Copy, PartialEq, Eq)]
pub(crate) enum Went {
    /// So many bytes were taken, from the front on.
    Took(usize),
    /// None is taken now.
    Later,
    /// It was cut short, and is tried again.
    Again,
    /// The connection failed.
    Failed,
}

/// Writes a front of some bytes.
fn write_front<S: Write>(stream: &mut S, bytes: &[u8]) -> Went
    ensures { WritesFront (S.contents stream.old) (S.contents stream.new) bytes.now result }
{
    match stream.write(bytes) {
        Ok(0) => Went::Failed,
        Ok(count) => Went::Took(count),
        Err(error) => match error.kind() {
            ErrorKind::WouldBlock => Went::Later,
            ErrorKind::Interrupted => Went::Again,
            _ => Went::Failed,
        },
    }
}

/// Writes a front of the answers that wait on a connection, where they may be handed out.
fn write_waiting<L: Log, S: Write>(
    host: &DurableHost<L>,
    connection: &mut Connection<'_>,
    stream: &mut S,
) -> Went
    // Only a front of what waits is written, and what is written waits no more.
    ensures front { WritesFront
        (S.contents stream.old) (S.contents stream.new) connection.old.waiting result }
    ensures waits { connection.new.waiting ≡ drop (taken_by result) connection.old.waiting }
    ensures peer { connection.new.peer ≡ connection.old.peer }
    // Nothing is written unless every order is kept.
    ensures kept { IfTook result (IsKept host.now) }
{
    let Some(bytes) = host.hand_out(connection) else {
        return Went::Later;
    };
    if bytes.is_empty() {
        return Went::Later;
    }
    let went = write_front(stream, bytes);
    if let Went::Took(count) = went {
        connection.written(count);
    }
    went
}

/// Writes a front of the answers that wait for a peer of a guarded line, where they may be handed out.
fn write_guarded<L: Log, S: Write>(
    host: &DurableHost<L>,
    peer: &mut GuardedPeer<'_>,
    stream: &mut S,
) -> Went
    // Only a front of what waits is written, and what is written waits no more.
    ensures front { WritesFront
        (S.contents stream.old) (S.contents stream.new) peer.old.waiting result }
    ensures waits { peer.new.waiting ≡ drop (taken_by result) peer.old.waiting }
    ensures held { peer.new.held ≡ peer.old.held }
    ensures guard { peer.new.guard ≡ peer.old.guard }
    // Nothing is written unless every order is kept.
    ensures kept { IfTook result (IsKept host.now) }
{
    let Some(bytes) = peer.hand_out(host) else {
        return Went::Later;
    };
    if bytes.is_empty() {
        return Went::Later;
    }
    let went = write_front(stream, bytes);
    if let Went::Took(count) = went {
        peer.written(count);
    }
    went
}

impl<S: Read + Write + Drop> Peer<'_, S> {
    /// Writes a piece of what waits and may be handed out, and tells how many bytes were taken.
    fn write_piece<L: Log>(&mut self, host: &DurableHost<L>) -> usize {
        let went = if self.line.is_guarded() {
            write_guarded(host, &mut self.guarded, &mut self.stream)
        } else {
            write_waiting(host, &mut self.connection, &mut self.stream)
        };
        match went {
            Went::Took(count) => return count,
            Went::Again => {}
            Went::Later => self.may_take = false,
            Went::Failed => self.fail(),
        }
        0
    }

    /// Writes what waits, as far as the stream takes it.
    pub fn write<L: Log>(&mut self, host: &DurableHost<L>, now: u64) {
        let mut went = 0u64;
        for _ in 0..WRITES {
            if !self.may_take || self.waiting() == 0 {
                break;
            }
            went = went.saturating_add(self.write_piece(host) as u64);
        }
        self.notes.counts.went = self.notes.counts.went.saturating_add(went);
        if self.standing.ended != Some(Closing::Failed) {
            let waiting = self.waiting();
            self.standing
                .sends(&self.line.terms.limits, now, waiting, went > 0);
        }
    }
}
