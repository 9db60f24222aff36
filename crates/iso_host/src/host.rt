//! A host without streams: it is handed bodies, and hands out the frames of their answers.
ghost use Rattle.std.specs.Prelude.{◌≡◌, IfOk, OnOk, OnErr};
ghost use Rattle.iso_host.specs.Asking.{message_in};
ghost use Rattle.iso_host.specs.Handling.{EntersOrKeeps};
ghost use Rattle.iso_host.specs.Hosting.{Answers, IsHandled, replying};

use crate::answering::{Rooms, answer_body, no_rooms};
use crate::handled::Handled;
use crate::link::Link;
use iso_issuer::Issuer;
use iso_order::NoMemory;
use std::alloc::Global;
use std::marker::Model;

/// An issuer, and the memory in which messages are read and answered. Any number of peers can share it, of any links. A
/// contract sees the issuer.
#[derive(Drop)]
pub struct Host {
    pub(crate) rooms: Rooms,
    pub(crate) issuer: Issuer,
}

impl Model for Host {
    ghost use Rattle.iso_issuer.specs.Books.{Books};

    ghost Value = { Books };

    ghost view = { λ h. h.issuer };
}

impl Host {
    /// A host of the issuer, with its journal as it is. Takes no memory.
    pub fn new(alloc: Global, issuer: Issuer) -> Host
        ensures { result ≡ issuer }
    {
        Host {
            rooms: no_rooms(alloc),
            issuer,
        }
    }

    /// The issuer.
    pub fn issuer(&self) -> &Issuer
        ensures { result.now ≡ self.now }
    {
        &self.issuer
    }

    /// The issuer, with its journal as it is now.
    pub fn into_issuer(self) -> Issuer
        ensures { result ≡ self }
    {
        self.issuer
    }

    /// Answers a whole body: the order that it asks is entered, up to the journal's limit, and the frame of the response
    /// is appended to `out`; nothing, where it is not answered or not one whole message.
    ///
    /// After an `Err` nothing is appended. The order may be entered: the same body, sent again, gets its answer.
    pub fn answer(
        &mut self,
        link: &Link,
        body: &[u8],
        out: &mut Vec<u8>,
    ) -> Result<Handled, NoMemory>
        // Memory aside, the order that the body asks enters the journal, up to its limit, and `out`
        // grows by the frame of the response, or by nothing where none is due.
        ensures answered { OnOk result (Answers link.now
            (replying self.old out.old.items) (replying self.new out.new.items) body.now) }
        // What a log may tell is what came of the body.
        ensures handled { IfOk result (IsHandled link.now.table self.old body.now) }
        // Without memory the issuer is as it was, or the order is entered, and has an answer.
        ensures memory { OnErr result
            (EntersOrKeeps link.now.table link.now.header self.old self.new
            (message_in link.now.table body.now)) }
        // Without memory `out` is as it was.
        ensures unchanged { OnErr result (out.new.items ≡ out.old.items) }
    {
        let table = link.table().table();
        let header = link.header();
        let mut told = Handled::Silent;
        let answered = answer_body(
            table,
            header,
            &mut self.issuer,
            &mut self.rooms,
            body,
            out,
            &mut told,
        );
        match answered {
            Ok(()) => Ok(told),
            Err(fault) => Err(fault),
        }
    }
}
