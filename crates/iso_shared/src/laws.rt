//! What holds of batches, and of a log's calls among what other hosts do: functions that do nothing, and whose contracts are
//! laws.
ghost use Rattle.iso_shared.specs.Heading.{HeadingsAreWhole, HeadingsComeBack, NoOtherHeading};
ghost use Rattle.iso_shared.specs.Batch.{BatchesComeBack, NothingElse, BatchesDiffer};
ghost use Rattle.iso_shared.specs.Hosts.{AppendsAreEvents, SyncsAreEvents, SyncsTellTheLog, SendsItsBatch, OthersLeaveLogs};
ghost use Rattle.iso_shared.specs.Hosts.{StartsAreRestarts, ReadingIsAnEvent, ReadersBecomeHosts};
ghost use Rattle.iso_shared.specs.declared.log.SharedLog.{SharedLog};
ghost use Rattle.iso_shared.specs.declared.standby.Standby.{Standby};

use crate::patience::Patience;
use crate::store::Store;
use iso_hosts::laws::no_host_is_wrong;
use iso_record::laws::{nothing_else, rows_are_whole, rows_come_back};
use iso_wire::laws::decimals;

/// Each heading is a record.
pub fn headings_are_whole()
    // Whatever the place and the writer, a heading is written as 128 bytes, none of which is zero.
    ensures { HeadingsAreWhole }
{
    decimals();
}

/// Each heading comes back.
pub fn headings_come_back()
    // A heading that can be written is read again from its record.
    ensures { HeadingsComeBack }
{
    decimals();
}

/// Nothing else is a heading.
pub fn no_other_heading()
    // Bytes that are read as a heading are those that are written for it.
    ensures { NoOtherHeading }
{}

/// Each batch comes back, nothing else is read as one, and two batches have two texts.
pub fn batches_come_back()
    // A batch that can be written is read again from its bytes.
    ensures back { BatchesComeBack }
    // Bytes that are read as a batch are those that are written for it.
    ensures only { NothingElse }
    // Two batches that can be written have the same bytes only where they are one batch.
    ensures differ { BatchesDiffer }
{
    rows_come_back();
    rows_are_whole();
    nothing_else();
    headings_come_back();
    headings_are_whole();
    no_other_heading();
}

/// In each interleaving with what other hosts do, an append and a sync are events of the log's host in the world of hosts
/// over one log: it receives an order; it sends its batch, which arrives whenever it does among what others do, and reads
/// it, and then the answers that waited are told. So what `no_host_is_wrong` says of that world it says of these calls.
pub fn calls_are_events<S: Store + Drop, P: Patience + Drop>()
    // An append is, among what others do, an order that its host receives. A full batch is sent and
    // read before, and its answers, and no others, are told.
    ensures appends { (old new : SharedLog S P) → AppendsAreEvents S.kept S.sent old new }
    // A sync is, among what others do, the batch that its host sends and reads, if it has an order.
    // Then the answers that waited are told, and no others.
    ensures syncs { (old new : SharedLog S P) → SyncsAreEvents S.kept S.sent old new }
    // Each answer that a sync hands out is the one that the log gives to its order, whatever others
    // did.
    ensures tells { (old new : SharedLog S P) → SyncsTellTheLog S.kept S.sent old new }
    // Whatever a call sends, also one that fails, is the batch that its host sends.
    ensures sends { (log : SharedLog S P) → SendsItsBatch S.kept log }
    // What others do between the calls of a log leaves it the log of its host.
    ensures others { (log : SharedLog S P) → OthersLeaveLogs S.kept log }
    // A start on what a standby has read is the event that its host restarts on so many batches.
    ensures starts { (standby : Standby S) → StartsAreRestarts S.kept standby }
    // Reading on is the event that a host reads the next batch, and no answer is told by it.
    ensures reads { (old new : Standby S) → ReadingIsAnEvent S.kept old new }
    // The log of a host that starts on what a standby has read is that of its host in that world.
    ensures becomes { (standby : Standby S) (log : SharedLog S P)
        → ReadersBecomeHosts S.kept standby log }
{
    no_host_is_wrong();
    batches_come_back();
}
