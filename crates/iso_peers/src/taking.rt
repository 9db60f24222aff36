//! Taking what a peer sends: its answers wait.
ghost use Rattle.std.specs.Prelude.{◌≡◌, List, IfOk, IfErr, OnErr};
ghost use Rattle.iso_order.specs.Order.{Instruction};
ghost use Rattle.iso_issuer.specs.Laws.{books_after};
ghost use Rattle.iso_host.specs.Peers.{Refuses};
ghost use Rattle.iso_peers.specs.Turn.{TakesOf, TakesAll, at_books};

use crate::connection::Connection;
use crate::laws::piece_by_piece;
use crate::turn::Turned;
use iso_host::{Host, PeerFault, Taken};
use iso_issuer::laws::{firsts_go_on, firsts_stay};

/// Takes bytes of a peer, up to the end of a frame; the answer waits.
pub(crate) fn take_piece(
    host: &mut Host,
    connection: &mut Connection<'_>,
    bytes: &[u8],
) -> Result<Taken, PeerFault>
    ensures took { IfOk result (TakesOf (at_books connection.old host.old)
        (at_books connection.new host.new) bytes.now) }
    ensures refused { IfErr result (Refuses connection.old.peer host.old host.new bytes.now) }
    ensures unchanged { OnErr result (connection.new ≡ connection.old) }
    ensures table { connection.new.peer.table ≡ connection.old.peer.table }
    ensures header { connection.new.peer.header ≡ connection.old.peer.header }
    // the books change by orders alone
    ensures enters { (orders : List Instruction) × (host.new ≡ books_after host.old orders) }
{
    // the law that no orders leave the books as they are, for the prover
    firsts_stay();
    let _entered = host.issuer().len();
    connection.peer.take(host, bytes, &mut connection.waiting)
}

/// Takes all bytes of a peer, frame after frame; the answers wait.
pub(crate) fn take_pieces(host: &mut Host, connection: &mut Connection<'_>, bytes: &[u8]) -> Turned
    ensures took { TakesAll (at_books connection.old host.old)
        (at_books connection.new host.new) bytes.now result }
    ensures table { connection.new.peer.table ≡ connection.old.peer.table }
    ensures header { connection.new.peer.header ≡ connection.old.peer.header }
    ensures enters { (orders : List Instruction) × (host.new ≡ books_after host.old orders) }
{
    // the laws that orders have one journal, and of pieces that follow others, for the prover
    firsts_go_on();
    piece_by_piece(host);
    let mut used = 0;
    'pieces: loop {
        match take_piece(host, connection, &bytes[used..]) {
            Err(fault) => {
                return Turned {
                    used,
                    stopped: Some(fault),
                };
            }
            Ok(taken) => {
                used += taken.used;
                if used == bytes.len() {
                    return Turned {
                        used,
                        stopped: None,
                    };
                }
            }
        }
    }
}
