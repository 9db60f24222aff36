//! What is said of a journal on etcd where the program stops.
use iso_etcd::{Cause, Doubt, Fault};
use iso_replicas::{JournalFault, Trouble};
use iso_shared::{OpenError, Why};
use rumpadol_tables::{Stop, failed, refused};
use std::alloc::Global;

/// What is to be done where the cluster has no space left.
const NO_SPACE: &str =
    "the cluster has no space left (NOSPACE): compact and defragment it or raise its quota, and disarm its alarm";

/// What is to be done where no member answers.
const AWAY: &str =
    "no member answered in time: see that most members run and are reached from this machine";

/// What is to be done where the user isn't known.
const NOT_LET_IN: &str =
    "the cluster doesn't let the user in: see that --etcd-user and the file of --etcd-password are right";

/// What is to be done where the user may not do it.
const DENIED: &str =
    "the user may not do this: give it the right to read and write the keys under the journal's name";

/// What is to be done where an answer isn't understood.
const UNREADABLE: &str =
    "an answer can't be understood: see that the members are etcd 3.4 or later";

/// What is wrong where something can't be sent.
const UNWRITABLE: &str = "the request can't be written";

/// What is wrong where memory ran out.
const MEMORY: &str = "memory ran out";

/// What is wrong where an answer has a status.
fn by_status(status: u16) -> &'static str {
    match status {
        401 | 403 => DENIED,
        429 => NO_SPACE,
        503 | 504 => AWAY,
        _ => "the cluster refuses it: look at the log of its members",
    }
}

/// What is wrong where something wasn't read.
pub fn of_fault(fault: Fault) -> &'static str {
    match fault {
        Fault::Away => AWAY,
        Fault::NotLetIn => NOT_LET_IN,
        Fault::Unwritable => UNWRITABLE,
        Fault::Status(status) => by_status(status),
        Fault::Unreadable => UNREADABLE,
        Fault::Memory => MEMORY,
    }
}

/// What is wrong where nothing was sent.
pub fn of_cause(cause: Cause) -> &'static str {
    match cause {
        Cause::Away => AWAY,
        Cause::NotLetIn => NOT_LET_IN,
        Cause::Unwritable | Cause::TooLong => UNWRITABLE,
        Cause::Memory => MEMORY,
    }
}

/// What is wrong where it isn't known what came of a batch.
pub fn of_doubt(doubt: Doubt) -> &'static str {
    match doubt {
        Doubt::Lost => AWAY,
        Doubt::NoSpace => NO_SPACE,
        Doubt::Denied => DENIED,
        Doubt::Status(status) => by_status(status),
        Doubt::Unreadable => UNREADABLE,
        Doubt::Memory => MEMORY,
    }
}

/// What is wrong where a store gave no answer last.
pub fn of_trouble(trouble: Option<Trouble>) -> &'static str {
    match trouble {
        Some(Trouble::Unsent(cause)) => of_cause(cause),
        Some(Trouble::Doubt(doubt)) => of_doubt(doubt),
        Some(Trouble::Unread(fault)) => of_fault(fault),
        None => AWAY,
    }
}

/// How the program stops where something wasn't read of a journal.
pub fn unread(alloc: Global, word: &str, fault: Fault) -> Stop {
    if let Fault::Memory = fault {
        return Stop::Memory;
    }
    let what = of_fault(fault);
    failed(format!(in alloc; "rumpadol: {word}: {what}\n"))
}

/// How the program stops where a journal isn't there, or isn't the one that is asked for.
pub fn not_begun(alloc: Global, word: &str, fault: JournalFault) -> Stop {
    let what = match fault {
        JournalFault::Exists
        | JournalFault::Left
        | JournalFault::Missing
        | JournalFault::Other(_) => return refused(format!(in alloc;
            "rumpadol: {word}: {fault}\n"
        )),
        JournalFault::Unread(fault) => return unread(alloc, word, fault),
        JournalFault::Unsent(Cause::Memory) | JournalFault::InDoubt(Doubt::Memory) =>
            return Stop::Memory,
        JournalFault::Unsent(cause) => of_cause(cause),
        JournalFault::InDoubt(doubt) => of_doubt(doubt),
    };
    failed(format!(in alloc;
        "rumpadol: {word}: it is not known whether the journal was made; {what}; then start the host without --new, and where there is no journal with --new\n"
    ))
}

/// How the program stops where a journal can't be read on.
pub fn not_opened(alloc: Global, word: &str, error: OpenError, trouble: Option<Trouble>) -> Stop {
    match error {
        OpenError::Memory => Stop::Memory,
        OpenError::Away | OpenError::Failed => {
            let what = of_trouble(trouble);
            failed(format!(in alloc; "rumpadol: {word}: {what}\n"))
        }
        OpenError::Damaged(place) => refused(format!(in alloc;
            "rumpadol: {word}: the journal is damaged: what stands at place {place} is no batch that a host with these accounts can have written there; nothing is changed; bring back a copy\n"
        )),
    }
}

/// How the program stops where a host over a journal on etcd can't go on.
pub fn not_kept(alloc: Global, word: &str, why: Option<Why>, trouble: Option<Trouble>) -> Stop {
    let what = of_trouble(trouble);
    match why {
        Some(Why::Memory) => Stop::Memory,
        Some(Why::Fenced) => failed(format!(in alloc;
            "rumpadol: {word}: another host wrote to the journal, so this one is not its host any more; no order that waited was answered; start it again with --standby, and it reads on beside the other one\n"
        )),
        Some(Why::InDoubt) => failed(format!(in alloc;
            "rumpadol: {word}: it is not known whether the last orders were kept, and none that waited was answered; {what}; then start the host again: each order that comes again gets its first answer\n"
        )),
        Some(Why::TooLarge) => failed(format!(in alloc;
            "rumpadol: {word}: the journal has no place for more, and no order that waited was answered; begin another journal\n"
        )),
        Some(Why::Away) | None => failed(format!(in alloc;
            "rumpadol: {word}: the last orders were not kept, and none that waited was answered; {what}; then start the host again: each order that comes again gets its first answer\n"
        )),
    }
}
