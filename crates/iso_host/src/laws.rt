//! What holds of every stream: functions that do nothing, and whose contracts are laws.

ghost use Rattle.iso_host.specs.Asking.{BodiesAreSpellings};
ghost use Rattle.iso_host.specs.Entering.{BodiesGoOn, StaysWithout};
ghost use Rattle.iso_host.specs.Handling.{BodyAlone};
ghost use Rattle.iso_host.specs.Output.{NoOutput, OutputGoesOn, OutputOnce};
ghost use Rattle.iso_host.specs.Sharing.{PeerAlone, PeersShare};

use crate::answering::enters_nothing;
use iso_issuer::Issuer;
use iso_issuer::laws::firsts_go_on;
use iso_wire::laws::{frames, reads_spellings, spelled_once};

/// A body is read as a message exactly where the whole body is a spelling of that message. So what a body asks is what
/// it spells.
pub fn bodies_are_spellings()
    ensures { BodiesAreSpellings }
{
    reads_spellings();
}

/// Bodies have one output at most: which bytes are to be written for them is no matter of choice.
pub fn one_output()
    ensures { OutputOnce }
{
    spelled_once();
}

/// What is written for bodies goes on, one body after the other.
pub fn output_goes_on()
    // For no bodies nothing is written.
    ensures none { NoOutput }
    // Behind what is written for some bodies comes the answer to the next one, at the books after them.
    ensures more { OutputGoesOn }
{}

/// One journal goes on over several streams: bodies that follow others are handled as if all had come on one stream, and
/// no bodies leave it as it is.
pub fn one_journal(issuer: &Issuer)
    // No bodies leave the books as they are, whatever the table.
    ensures none { StaysWithout issuer.now }
    // A body alone leaves the same books as a stream of this one body.
    ensures alone { BodyAlone }
    // Bodies that follow others leave the same books as all of them on one stream.
    ensures more { BodiesGoOn }
{
    firsts_go_on();
    enters_nothing(issuer);
}

/// Peers share a host: however the bytes of each are cut into pieces, whichever comes when, whatever the table and the
/// header of each, and wherever memory runs out, the journal is that of the bodies in the order in which they were
/// entered, and out of each peer come the answers to its own bodies, each at the books after all bodies that were entered
/// before it. Out of a peer alone comes the output of its stream.
///
/// The calls are those of `Peer::take` that took something or wanted memory, of any number of peers, each before its first
/// byte when the first of the calls is made. A peer that is dropped in the middle of a frame has no further call.
pub fn peers_share(issuer: &Issuer)
    // However the bytes of many peers are cut and interleaved: the journal is that of the bodies in
    // the order in which their frames ended, and each peer gets the answers to its own.
    ensures share { PeersShare issuer.now }
    // Out of a peer alone comes, where memory suffices, the output of its stream, however its bytes
    // are cut, and the journal is that of its bodies.
    ensures alone { PeerAlone issuer.now }
{
    frames();
    firsts_go_on();
    enters_nothing(issuer);
}
