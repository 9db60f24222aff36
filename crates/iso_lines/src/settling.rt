//! The end of a turn: who is closed, and who is looked at in the next.
ghost use Rattle.std.specs.Prelude.{◌≡◌, ℕ, None};
ghost use Rattle.iso_lines.specs.Keys.{peer_at, OthersStay, SameAt, StaysOrGoes, EachStaysOrGoes};
ghost use Rattle.iso_lines.specs.Moment.{millis_of};

use crate::event::{Event, Lines};
use crate::moment::Moment;
use crate::peers::{PAUSE, Peers};
use crate::standing::Closing;
use std::io::{Read, Write};

impl<S: Read + Write + Drop> Peers<'_, S> {
    /// Closes a peer, and tells why.
    pub fn close<N: Lines>(&mut self, key: usize, why: Closing, now: Moment, log: &mut N)
        // No peer is under the key any more.
        ensures gone { peer_at self.new key ≡ None }
        // Every other peer is as it was.
        ensures others { OthersStay key self.old self.new }
    {
        if let Some(peer) = self.all.try_remove(key) {
            if let Some(tally) = self.tallies.get_mut(peer.notes.link) {
                tally.peers = tally.peers.saturating_sub(1);
            }
            log.tell(
                now.since_1970,
                &Event::Closed {
                    link: peer.notes.link,
                    peer: peer.notes.peer,
                    why,
                    counts: peer.notes.counts,
                },
            );
        }
    }

    /// Closes a peer, if it is to be closed.
    #[tactic(auto, using(crate::proofs::Keys::stays))]
    fn close_one<N: Lines>(&mut self, key: usize, now: Moment, log: &mut N)
        ensures settled { StaysOrGoes (millis_of now)
            (peer_at self.old key) (peer_at self.new key) }
        // Every other peer is as it was.
        ensures others { OthersStay key self.old self.new }
    {
        let closing = match self.all.get(key) {
            Some(peer) => peer.closing(now.millis()),
            None => None,
        };
        if let Some(why) = closing {
            self.close(key, why, now, log);
        }
    }

    /// Lists a peer for the next turn, where that turn reads it or writes to it without a further event.
    fn list_again(&mut self, key: usize, now: u64, is_left_out: bool)
        ensures same { SameAt (peer_at self.old key) (peer_at self.new key) }
        // Every other peer is as it was.
        ensures others { OthersStay key self.old self.new }
    {
        if let Some(peer) = self.all.get_mut(key) {
            peer.is_listed = is_left_out || peer.goes_on(now);
            if peer.is_listed {
                let _ = self.next.push(key);
            } else {
                peer.rest();
            }
        }
    }

    /// Looks at one of the list: it is closed, listed again, or left until something comes.
    #[tactic(auto, using(crate::proofs::Keys::same_stays, crate::proofs::Keys::stays_twice, crate::proofs::Keys::each_stays, crate::proofs::Keys::one_of_all))]
    fn settle_one<N: Lines>(&mut self, place: usize, now: Moment, log: &mut N)
        ensures settled { EachStaysOrGoes (millis_of now) self.old self.new }
    {
        if let Some(key) = self.listed.get(place).copied() {
            self.close_one(key, now, log);
            self.list_again(key, now.millis(), place >= self.left_out);
        }
    }

    /// Looks at those of the list from a first place to before an end.
    #[tactic(auto, using(crate::proofs::Keys::each_twice))]
    fn settle_from<N: Lines>(&mut self, first: usize, end: usize, now: Moment, log: &mut N)
        ensures settled { EachStaysOrGoes (millis_of now) self.old self.new }
    {
        for place in first..end {
            self.settle_one(place, now, log);
        }
    }

    /// Ends a turn: closes the peers that are to be closed, and lists those that the next turn looks at, first of all those
    /// that were left out. Tells whether there are any.
    #[tactic(auto, using(crate::proofs::Keys::each_twice))]
    pub fn settle<N: Lines>(&mut self, now: Moment, log: &mut N) -> bool
        // Each peer stays as it is, but for when it is looked at, or it was to be closed at this moment, and is gone.
        ensures settled { EachStaysOrGoes (millis_of now) self.old self.new }
    {
        self.close_late(now, log);
        let count = self.listed.len();
        self.settle_from(self.left_out, count, now, log);
        self.settle_from(0, self.left_out.min(count), now, log);
        self.listed.clear();
        std::mem::swap(&mut self.listed, &mut self.next);
        !self.listed.is_empty()
    }

    /// Closes all peers that are late, a few times a second.
    #[tactic(auto, using(crate::proofs::Keys::each_stays, crate::proofs::Keys::each_twice, crate::proofs::Keys::one_of_all))]
    fn close_late<N: Lines>(&mut self, now: Moment, log: &mut N)
        ensures settled { EachStaysOrGoes (millis_of now) self.old self.new }
    {
        if now.millis().saturating_sub(self.looked) < PAUSE {
            return;
        }
        self.looked = now.millis();
        for key in 0..self.all.capacity() {
            self.close_one(key, now, log);
        }
    }

    /// Closes all peers: the host stops.
    pub fn close_all<N: Lines>(&mut self, now: Moment, log: &mut N)
        ensures gone { (k : ℕ) → peer_at self.new k ≡ None }
    {
        for key in 0..self.all.capacity() {
            self.close(key, Closing::Stopped, now, log);
        }
    }
}
