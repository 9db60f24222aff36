//! All peers of a host, and what a turn does with them.
ghost use Rattle.std.specs.Prelude.{◌≡◌, ℕ, None, IfSome, IfNone};
ghost use Rattle.iso_peers.specs.Host.{IsInStep};
ghost use Rattle.iso_lines.specs.Hearing.{ReadsAt, HearsTurn, growth};
ghost use Rattle.iso_lines.specs.Turn.{EntersHeard};
ghost use Rattle.iso_lines.specs.Keys.{peer_at, looked_at, OthersStay, AllOthersStay, AllStay};
ghost use Rattle.iso_lines.specs.Keys.{IsLetIn, SameAt};

use crate::event::{Event, Lines, Refusal};
use crate::letting::refusal_of;
use crate::line::Line;
use crate::moment::Moment;
use crate::notes::Told;
use crate::peer::Peer;
use crate::share::{BLOCK, is_full, read_share};
use crate::tally::{NO_PEERS, Tally};
use iso_durable::Log;
use iso_guard::Rooms;
use iso_peers::DurableHost;
use iso_wire::laws::frames;
use slab::Slab;
use std::alloc::{AllocError, Global};
use std::io::{Read, Write};
use std::net::SocketAddr;

/// So often, in milliseconds, all peers are looked at for those that are late.
pub const PAUSE: u64 = 200;

/// The peers of all lines, by their keys.
#[derive(Drop)]
pub struct Peers<'l, S> {
    alloc: Global,
    lines: &'l [Line<'l>],
    pub(crate) all: Slab<Peer<'l, S>>,
    /// Of each line.
    pub(crate) tallies: Vec<Tally>,
    /// The keys of those that this turn looks at.
    pub(crate) listed: Vec<usize>,
    /// The keys of those that the next turn looks at.
    pub(crate) next: Vec<usize>,
    /// The place in the list of the first that wasn't read in this turn.
    pub(crate) left_out: usize,
    block: Vec<u8>,
    rooms: Rooms,
    told: Vec<Told>,
    /// How many peers were let in.
    count: u64,
    /// When all peers were looked at, in milliseconds.
    pub(crate) looked: u64,
}

impl<'l, S: Read + Write + Drop> Peers<'l, S> {
    /// None yet, of these lines.
    pub fn new(alloc: Global, lines: &'l [Line<'l>]) -> Result<Peers<'l, S>, AllocError> {
        let mut block = Vec::new(alloc);
        block.resize(BLOCK, 0)?;
        let mut tallies = Vec::new(alloc);
        tallies.resize(lines.len(), NO_PEERS)?;
        Ok(Peers {
            alloc,
            lines,
            all: Slab::new(alloc),
            tallies,
            listed: Vec::new(alloc),
            next: Vec::new(alloc),
            left_out: 0,
            block,
            rooms: Rooms::new(alloc),
            told: Vec::new(alloc),
            count: 0,
            looked: 0,
        })
    }

    /// How many peers are connected.
    pub fn len(&self) -> usize {
        self.all.len()
    }

    /// Whether none is.
    pub fn is_empty(&self) -> bool {
        self.all.is_empty()
    }

    /// How many peers of a line are connected.
    fn peers_of(&self, link: usize) -> usize {
        match self.tallies.get(link) {
            Some(tally) => tally.peers,
            None => 0,
        }
    }

    /// Adds a peer, where there is memory for it and for its place in the lists.
    fn add(&mut self, stream: S, line: Line<'l>, link: usize, now: u64) -> Option<usize>
        ensures others { IfSome result (λ key. OthersStay key self.old self.new) }
        ensures vacant { IfSome result (λ key. peer_at self.old key ≡ None) }
        ensures let_in { IfSome result (λ key. IsLetIn stream (peer_at self.new key)) }
        ensures refused { IfNone result (AllStay self.old self.new) }
    {
        let room = self.all.len().saturating_add(1);
        if self
            .listed
            .reserve(room.saturating_sub(self.listed.len()))
            .is_err()
            || self
                .next
                .reserve(room.saturating_sub(self.next.len()))
                .is_err()
        {
            return None;
        }
        let number = self.count.saturating_add(1);
        let peer = Peer::new(self.alloc, stream, line, link, number, now);
        match self.all.insert(peer) {
            Ok(key) => {
                self.count = number;
                if let Some(tally) = self.tallies.get_mut(link) {
                    tally.peers = tally.peers.saturating_add(1);
                }
                Some(key)
            }
            Err(_) => None,
        }
    }

    /// Lets a peer of a line in, and gives its key, or refuses it.
    #[tactic(auto, using(crate::proofs::Keys::let_in_same))]
    pub fn let_in<N: Lines>(
        &mut self,
        link: usize,
        stream: S,
        address: SocketAddr,
        now: Moment,
        log: &mut N,
    ) -> Option<usize>
        // Under the key that it gives no peer was before.
        ensures vacant { IfSome result (λ key. peer_at self.old key ≡ None) }
        // Under the key that it gives is now a peer on that stream, of which nothing came
        // and for which nothing waits.
        ensures let_in { IfSome result (λ key. IsLetIn stream (peer_at self.new key)) }
        // Where one is let in, every peer under another key is as it was.
        ensures others { IfSome result (λ key. OthersStay key self.old self.new) }
        // Where it is refused, every peer is as it was.
        ensures refused { IfNone result (AllStay self.old self.new) }
    {
        let line = *self.lines.get(link)?;
        if let Some(why) = refusal_of(line.terms, self.peers_of(link), address.ip()) {
            log.tell(now.since_1970, &Event::Refused { link, address, why });
            return None;
        }
        let added = self.add(stream, line, link, now.millis());
        let came = match added {
            Some(_) => Ok(self.count),
            None => Err(Refusal::Memory),
        };
        log.tell(now.since_1970, &Event::of_peer(link, address, came));
        if let Some(key) = added {
            self.notice(key, false);
        }
        added
    }

    /// The stream of a peer.
    pub fn stream_mut(&mut self, key: usize) -> Option<&mut S> {
        match self.all.get_mut(key) {
            Some(peer) => Some(&mut peer.stream),
            None => None,
        }
    }

    /// Something may have come of a peer, or it may take bytes again: whether its end came too. One that is gone is passed
    /// over.
    pub fn notice(&mut self, key: usize, ends: bool)
        // The peer under the key is the same but for when it is looked at.
        ensures same { SameAt (peer_at self.old key) (peer_at self.new key) }
        // Every other peer is as it was.
        ensures others { OthersStay key self.old self.new }
    {
        if let Some(peer) = self.all.get_mut(key) {
            peer.may_have_come = true;
            peer.is_ending = peer.is_ending || ends;
            peer.may_take = true;
            if !peer.is_listed {
                peer.is_listed = self.listed.push(key).is_ok();
            }
        }
    }

    /// Reads and decides what came of one peer, up to its share.
    #[tactic(auto, using(crate::proofs::Heard::none_heard))]
    fn read_one<L: Log>(&mut self, host: &mut DurableHost<L>, key: usize, now: u64)
        ensures came { ReadsAt S.remaining key
            (peer_at self.old key) (peer_at self.new key) (growth host.old.host host.new.host) }
        // The books grow by bodies, one after the other, and by nothing else.
        ensures heard { EntersHeard host.old.host host.new.host }
        // The log isn't called, and stays in step with the journal.
        ensures log { host.new.log ≡ host.old.log }
        ensures step { IsInStep L.is_ready L.synced L.pending host.old
            → IsInStep L.is_ready L.synced L.pending host.new }
        // Every other peer is as it was.
        ensures others { OthersStay key self.old self.new }
        ensures listed { self.new.listed ≡ self.old.listed }
    {
        if let Some(peer) = self.all.get_mut(key) {
            let before = peer.notes.counts.came;
            read_share(
                peer,
                host,
                now,
                &mut self.block,
                &mut self.rooms,
                &mut self.told,
            );
            let came = peer.notes.counts.came.saturating_sub(before);
            if let Some(tally) = self.tallies.get_mut(peer.notes.link) {
                tally.came = tally.came.saturating_add(came);
            }
        }
    }

    /// Reads and decides what came, of each peer up to its share. Where more orders wait than are kept with one sync, the
    /// next turn begins with the peers that were left out.
    #[tactic(auto, using(crate::proofs::Heard::none_heard, crate::proofs::Heard::more_heard, crate::proofs::Turns::turn_none, crate::proofs::Turns::turn_more))]
    pub fn read_all<L: Log>(&mut self, host: &mut DurableHost<L>, now: Moment)
        // Peer after peer, in the order of the list, the frames at the front of what each gave enter, and their answers wait.
        ensures turn { HearsTurn S.remaining self.old self.new host.old.host host.new.host }
        // The books grow by bodies, one after the other, and by nothing else.
        ensures heard { EntersHeard host.old.host host.new.host }
        // The log isn't called: what a crash leaves stays the same.
        ensures log { host.new.log ≡ host.old.log }
        // A log in step with the journal stays in step.
        ensures step { IsInStep L.is_ready L.synced L.pending host.old
            → IsInStep L.is_ready L.synced L.pending host.new }
        // Every peer that isn't listed is as it was.
        ensures others { AllOthersStay (looked_at self.old) self.old self.new }
    {
        // the laws of frames behind others, for the prover
        frames();
        let count = self.listed.len();
        self.left_out = count;
        for place in 0..count {
            if is_full(host) {
                self.left_out = place;
                return;
            }
            if let Some(key) = self.listed.get(place).copied() {
                self.read_one(host, key, now.millis());
            }
        }
    }

    /// Writes to a peer what waits for it and may be handed out.
    fn write_one<L: Log>(&mut self, host: &DurableHost<L>, key: usize, now: u64)
        // Every other peer is as it was.
        ensures others { OthersStay key self.old self.new }
        ensures listed { self.new.listed ≡ self.old.listed }
    {
        if let Some(peer) = self.all.get_mut(key)
            && peer.waiting() > 0
        {
            let before = peer.notes.counts.went;
            peer.write(host, now);
            let went = peer.notes.counts.went.saturating_sub(before);
            if let Some(tally) = self.tallies.get_mut(peer.notes.link) {
                tally.went = tally.went.saturating_add(went);
            }
        }
    }

    /// Writes to each peer what waits for it and may be handed out.
    pub fn write_all<L: Log>(&mut self, host: &DurableHost<L>, now: Moment)
        // Every peer that isn't listed is as it was.
        ensures others { AllOthersStay (looked_at self.old) self.old self.new }
    {
        for place in 0..self.listed.len() {
            if let Some(key) = self.listed.get(place).copied() {
                self.write_one(host, key, now.millis());
            }
        }
    }

    /// Tells what came of the frames of this turn, which began at a moment.
    pub fn tell_frames<N: Lines>(&mut self, began: Moment, ended: Moment, log: &mut N) {
        let micros = ended.micros.saturating_sub(began.micros);
        for told in &self.told {
            log.tell(ended.since_1970, &Event::of_frame(told, micros));
        }
        self.told.clear();
        self.tell_moved(ended, log);
    }

    /// Tells how many bytes came and went, of each line.
    fn tell_moved<N: Lines>(&mut self, ended: Moment, log: &mut N) {
        for (link, tally) in self.tallies.iter_mut().enumerate() {
            let (came, went) = (tally.came, tally.went);
            if came > 0 || went > 0 {
                log.tell(ended.since_1970, &Event::Moved { link, came, went });
                tally.came = 0;
                tally.went = 0;
            }
        }
    }
}
