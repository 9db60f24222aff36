//! One peer's bytes, as they come: frames cut into pieces of any size.
ghost use Rattle.std.specs.Prelude.{◌≡◌, ◌↔◌, [], true, IfOk, IfErr, OnErr};
ghost use Rattle.iso_host.specs.Links.{agreed};
ghost use Rattle.iso_host.specs.Peers.{Takes, Refuses, one_peer};
ghost use Rattle.iso_host.specs.Stepping.{taken_as};

use crate::gathering::Gathering;
use crate::handled::Handled;
use crate::host::Host;
use crate::link::Link;
use crate::taking::{Begun, NOT_BEGUN, Step, head_len, take_bytes};
use iso_table::Table;
use iso_wire::Header;
use iso_wire::laws::frames;
use std::alloc::Global;
use std::marker::Model;
use thiserror::Error;

/// Why a peer takes nothing.
#[derive(Clone, Copy, Debug, PartialEq, Eq, Drop, Error)]
pub enum PeerFault {
    /// A frame's header is of digits, and what stands there is not.
    #[error("the header of a frame isn't of digits")]
    BadHeader,
    /// Memory ran out.
    #[error("memory ran out")]
    Memory,
}

/// What a peer took.
#[derive(Clone, Copy, Debug, PartialEq, Eq)]
pub struct Taken {
    /// How many bytes, from the front on.
    pub used: usize,
    /// What came of the body whose frame they end, if they end one.
    pub handled: Option<Handled>,
}

/// What a step took, with what came of the body.
fn taken_by(step: &Step, told: &Handled) -> Taken
    ensures { result ≡ taken_as step.now told.now }
{
    let handled = if step.ended { Some(*told) } else { None };
    Taken {
        used: step.used,
        handled,
    }
}

/// One peer of a host: the frame that it has begun. It holds at most the longest message of its table, and of a body that
/// can't be a message only why. A contract sees its link and the bytes of the unfinished frame.
#[derive(Drop)]
pub struct Peer<'l> {
    table: &'l Table,
    header: Header,
    begun: Begun,
    gathering: Gathering<'l>,
}

impl<'l> Model for Peer<'l> {
    ghost use Rattle.std.specs.Prelude.{◌≡◌};
    ghost use Rattle.iso_table.specs.HostReady.{IsHostReady};
    ghost use Rattle.iso_host.specs.Beginning.{held_of, IsBegun};
    ghost use Rattle.iso_host.specs.Peers.{Unfinished};

    ghost Value = { Unfinished };

    ghost view = { λ p. record {
      table = p.table.now;
      header = p.header;
      held = held_of p.begun p.gathering.part;
    } };

    ghost invariant = { λ p. IsHostReady p.table.now × (p.gathering.table ≡ p.table.now)
        × IsBegun p.header p.begun p.gathering.part };
}

impl<'l> Peer<'l> {
    /// A peer on that link, before its first byte. Takes no memory.
    pub fn new(alloc: Global, link: &'l Link) -> Peer<'l>
        ensures { result ≡ record { table = link.now.table; header = link.now.header; held = [] } }
    {
        let table = link.table().table();
        Peer {
            table,
            header: link.header(),
            begun: NOT_BEGUN,
            gathering: Gathering::new(alloc, table),
        }
    }

    /// Whether the input may end here: no frame is unfinished.
    pub fn may_end(&self) -> bool
        ensures { (result ≡ true) ↔ (self.now.held ≡ []) }
    {
        // for the prover: a header takes the same number of bytes, whatever it counts
        frames();
        head_len(&self.begun) == 0
    }

    /// Takes bytes of the peer, from the front on, up to the end of a frame: one at least, where there is one, though maybe
    /// not all of them. The body of that frame is answered: its order is entered, and the frame of its response is
    /// appended to `out`. Bytes behind those that it took are for the next call.
    ///
    /// After an `Err` the peer and `out` are as before. A header that isn't of digits can't be mended. Where memory ran
    /// out, the same bytes can come again: if their order was entered, they get its answer.
    pub fn take(
        &mut self,
        host: &mut Host,
        bytes: &[u8],
        out: &mut Vec<u8>,
    ) -> Result<Taken, PeerFault>
        // The bytes stay behind those that were held, or they end a frame, whose body is entered and answered.
        ensures took { IfOk result (Takes (agreed self.old.table self.old.header)
            (one_peer self.old.held host.old out.old.items)
            (one_peer self.new.held host.new out.new.items) bytes.now) }
        // Only a header that isn't of digits and want of memory are refused.
        ensures refused { IfErr result (Refuses self.old host.old host.new bytes.now) }
        // The peer stays on its link.
        ensures table { self.new.table ≡ self.old.table }
        // The header of the peer's frames stays the same.
        ensures header { self.new.header ≡ self.old.header }
        // A refusal leaves the bytes of a frame that the peer holds.
        ensures held { OnErr result (self.new.held ≡ self.old.held) }
        // A refusal leaves `out` as it was.
        ensures unchanged { OnErr result (out.new.items ≡ out.old.items) }
    {
        let mut told = Handled::Silent;
        let took = take_bytes(
            self.table,
            self.header,
            &mut self.begun,
            &mut self.gathering,
            &mut host.issuer,
            &mut host.rooms,
            bytes,
            out,
            &mut told,
        );
        match took {
            Err(fault) => Err(fault),
            Ok(step) => Ok(taken_by(&step, &told)),
        }
    }
}
