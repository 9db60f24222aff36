//! What is said of journals on etcd and of copies.

use crate::fetching::FetchFault;
use crate::sending::SendFault;
use iso_etcd::{Cause, Doubt, Fault};
use iso_replicas::JournalFault;
use iso_service::{FileFault, StartFault};
use rumpadol_tables::{Stop, failed, refused};
use std::alloc::{AllocError, Global};

/// What is said where no member answers.
const AWAY: &str =
    "no member answered in time; see that the members run and can be reached, or give them longer with --etcd-timeout";

/// What is said where the user isn't let in.
const NOT_LET_IN: &str =
    "no member lets the user in: the name or the password is another one; look at --etcd-user and at the file of --etcd-password";

/// What is said where the user may not do this.
const DENIED: &str =
    "the user may not do this; grant it the keys that begin with the journal's name, or name another one with --etcd-user";

/// What is said where there is no space.
const NO_SPACE: &str =
    "etcd has no space left (NOSPACE); have it compact and defragment its keys, or give it a larger quota";

/// What is said of an answer that can't be understood.
const UNREADABLE: &str =
    "what a member answered can't be understood; see that it is etcd, 3.4 or later, and no other service";

/// What is said of a name, and of what stands behind it, that can't be written.
const UNWRITABLE: &str = "the request can't be written; look at the word that names the journal";

/// What takes away what stands of a copy.
const TAKE_AWAY: &str = "take it away with: etcdctl del --prefix";

/// So many orders.
pub fn orders_text(alloc: Global, count: usize) -> Result<String, AllocError> {
    match count {
        1 => String::from_str(alloc, "1 order"),
        count => format!(in alloc; "{count} orders"),
    }
}

/// What a member's answer of this status says.
fn status_text(alloc: Global, status: u16) -> Result<String, AllocError> {
    match status {
        401 | 403 => String::from_str(alloc, DENIED),
        400 => String::from_str(
            alloc,
            "a member takes no such request (status 400); where the cluster has users, give --etcd-user NAME --etcd-password FILE",
        ),
        status => format!(in alloc;
            "a member answered with the status {status}; see what its log says"
        ),
    }
}

/// What is said where nothing was read.
fn fault_text(alloc: Global, fault: Fault) -> Result<String, AllocError> {
    match fault {
        Fault::Away => String::from_str(alloc, AWAY),
        Fault::NotLetIn => String::from_str(alloc, NOT_LET_IN),
        Fault::Unwritable => String::from_str(alloc, UNWRITABLE),
        Fault::Status(status) => status_text(alloc, status),
        Fault::Unreadable => String::from_str(alloc, UNREADABLE),
        Fault::Memory => Err(AllocError),
    }
}

/// A line about what a word names.
fn line_about(
    alloc: Global,
    word: &str,
    text: Result<String, AllocError>,
) -> Result<String, AllocError> {
    let text = text?;
    format!(in alloc; "rumpadol: {word}: {text}\n")
}

/// The name at the end of a word that names a journal on etcd.
fn name_in(word: &str) -> &str {
    match word.rsplit_once('/') {
        Some((_, name)) => name,
        None => word,
    }
}

/// How the program stops where batches have no heading.
fn left(alloc: Global, word: &str) -> Stop {
    let name = name_in(word);
    refused(format!(in alloc;
        "rumpadol: {word}: batches stand there without a heading, as a copy leaves them that was cut off; {TAKE_AWAY} {name}/\n"
    ))
}

/// How the program stops where a journal on etcd isn't read.
pub fn not_fetched(alloc: Global, word: &str, fault: FetchFault) -> Stop {
    match fault {
        FetchFault::Memory => Stop::Memory,
        FetchFault::Missing => failed(format!(in alloc;
            "rumpadol: {word}: no such journal; look at its name and at the members that are named\n"
        )),
        FetchFault::Left => left(alloc, word),
        FetchFault::Foreign => refused(format!(in alloc;
            "rumpadol: {word}: this is no journal, since its first key isn't the heading of one; name a journal\n"
        )),
        FetchFault::Damaged(place) => refused(format!(in alloc;
            "rumpadol: {word}: damaged at batch {place}: no host can have written what stands there; take a copy of the journal that is whole\n"
        )),
        FetchFault::Unread(fault) => failed(line_about(alloc, word, fault_text(alloc, fault))),
    }
}

/// How the program stops where a copy's name isn't free, or can't be asked for.
pub fn not_free(alloc: Global, word: &str, fault: JournalFault) -> Stop {
    match fault {
        JournalFault::Left => left(alloc, word),
        JournalFault::Unread(Fault::Memory) => Stop::Memory,
        JournalFault::Unread(fault) => failed(line_about(alloc, word, fault_text(alloc, fault))),
        JournalFault::Exists
        | JournalFault::Missing
        | JournalFault::Other(_)
        | JournalFault::Unsent(_)
        | JournalFault::InDoubt(_) => exists(alloc, word),
    }
}

/// How the program stops where something has the copy's name already.
pub fn exists(alloc: Global, word: &str) -> Stop {
    refused(format!(in alloc;
        "rumpadol: {word}: it is there already, and a copy is made only where nothing is; give the copy another name\n"
    ))
}

/// Why nothing was sent.
fn cause_text(cause: Cause) -> &'static str {
    match cause {
        Cause::Away | Cause::Memory => AWAY,
        Cause::NotLetIn => NOT_LET_IN,
        Cause::Unwritable | Cause::TooLong => UNWRITABLE,
    }
}

/// Why it isn't known what stands.
fn doubt_text(alloc: Global, doubt: Doubt) -> Result<String, AllocError> {
    match doubt {
        Doubt::Lost => String::from_str(alloc, AWAY),
        Doubt::NoSpace => String::from_str(alloc, NO_SPACE),
        Doubt::Denied => String::from_str(alloc, DENIED),
        Doubt::Status(status) => status_text(alloc, status),
        Doubt::Unreadable => String::from_str(alloc, UNREADABLE),
        Doubt::Memory => Err(AllocError),
    }
}

/// How the program stops where a part of a copy doesn't stand, with what its batches are then.
fn in_part(alloc: Global, word: &str, text: Result<String, AllocError>) -> Stop {
    let Ok(text) = text else {
        return Stop::Memory;
    };
    let name = name_in(word);
    failed(format!(in alloc;
        "rumpadol: {word}: {text}; what stands of the copy is no journal: {TAKE_AWAY} {name}/\n"
    ))
}

/// How the program stops where a copy on etcd isn't whole.
pub fn not_sent(alloc: Global, word: &str, fault: SendFault) -> Stop {
    match fault {
        SendFault::Memory => Stop::Memory,
        SendFault::Taken => in_part(
            alloc,
            word,
            String::from_str(alloc, "something else was written there at the same time"),
        ),
        SendFault::TooLong => in_part(
            alloc,
            word,
            String::from_str(alloc, "the journal has more orders than places"),
        ),
        SendFault::Unsent(cause) => in_part(
            alloc,
            word,
            String::from_str(alloc, cause_text(cause)),
        ),
        SendFault::Doubt(doubt) => in_part(alloc, word, doubt_text(alloc, doubt)),
        SendFault::HeadingDoubt(doubt) => match doubt_text(alloc, doubt) {
            Ok(text) => failed(format!(in alloc;
                "rumpadol: {word}: {text}; all orders are copied, and it isn't known whether the heading is: rumpadol journal check {word} tells\n"
            )),
            Err(AllocError) => Stop::Memory,
        },
    }
}

/// What is said where the file of a copy isn't made.
fn file_text(fault: FileFault) -> &'static str {
    match fault {
        FileFault::Missing | FileFault::NoFolder =>
            "there is no such folder; make it first, or look at the path",
        FileFault::Exists =>
            "it is there already, and a copy is made only where nothing is; name another file",
        FileFault::Folder => "it is a folder; name a file in it",
        FileFault::Special => "it is no file but a device, a pipe or a socket; name a file",
        FileFault::Busy => "another process is making it; wait for its end, or name another file",
        FileFault::Shared =>
            "a file stands in its way, with its name and '.new' or '-journal' behind it; take that away",
        FileFault::Denied =>
            "this user may not make files there; give it the right to, or name another folder",
        FileFault::ReadOnly => "its file system can only be read; name a file on another one",
        FileFault::Full => "its device has no room; make some, or name a file on another one",
        FileFault::Device | FileFault::Memory =>
            "its device failed; see what the system tells of it, or name a file on another one",
    }
}

/// How the program stops where the file of a copy isn't made. Nothing is left of it.
pub fn not_filed(alloc: Global, path: &str, fault: StartFault) -> Stop {
    match fault {
        StartFault::File(FileFault::Memory) => Stop::Memory,
        StartFault::File(FileFault::Exists) => {
            let text = file_text(FileFault::Exists);
            refused(format!(in alloc; "rumpadol: {path}: {text}\n"))
        }
        StartFault::File(fault) => {
            let text = file_text(fault);
            failed(format!(in alloc; "rumpadol: {path}: {text}\n"))
        }
        StartFault::NotMade => failed(format!(in alloc;
            "rumpadol: {path}: a write or a sync failed while the copy was made; see that its device is well and has room\n"
        )),
        fault => failed(format!(in alloc; "rumpadol: {path}: {fault}\n")),
    }
}
