//! What the words about a host ask.

use crate::values::{header_named, limit_of, text_of};
use clap::ArgMatches;
use iso_links::Limits;
use rumpadol_cluster::ReplicaWords;
use rumpadol_journals::KeptWords;
use rumpadol_ports::{HostWords, ListenWords, Place, StreamWords};

fn stream_words<'a>(matches: &ArgMatches<'a>) -> StreamWords<'a> {
    StreamWords {
        table: text_of(matches, "table"),
        header: header_named(text_of(matches, "header")),
    }
}

/// What is allowed to the peers of a link by words.
fn limits_of(matches: &ArgMatches<'_>) -> Limits {
    Limits {
        peers: limit_of(matches, "peers") as usize,
        idle: limit_of(matches, "idle"),
        frame: limit_of(matches, "frame"),
        unread: limit_of(matches, "unread"),
        waiting: limit_of(matches, "waiting") as usize,
        share: Limits::DEFAULT.share,
    }
}

/// Where the peers of a host are.
fn place_of<'a>(matches: &ArgMatches<'a>) -> Place<'a> {
    if let Some(path) = matches.get_str("links") {
        return Place::Links(path);
    }
    let stream = stream_words(matches);
    match matches.get_str("listen") {
        Some(address) => Place::Listen(ListenWords {
            address,
            stream,
            limits: limits_of(matches),
        }),
        None => Place::Streams(stream),
    }
}

fn kept_words<'a>(matches: &ArgMatches<'a>) -> KeptWords<'a> {
    KeptWords {
        accounts: text_of(matches, "accounts"),
        journal: text_of(matches, "journal"),
        is_new: matches.get_flag("new"),
    }
}

/// What is told about a journal on etcd.
fn replica_words<'a>(matches: &ArgMatches<'a>) -> ReplicaWords<'a> {
    ReplicaWords {
        is_standby: matches.get_flag("standby"),
        control: matches.get_str("control"),
        lease: matches.get_one::<u32>("lease"),
        timeout: matches.get_one::<u32>("etcd-timeout"),
        give_up: matches.get_one::<u32>("give-up"),
        user: matches.get_str("etcd-user"),
        password: matches.get_str("etcd-password"),
    }
}

/// What the words about a host tell.
pub fn host_words<'a>(matches: &ArgMatches<'a>) -> HostWords<'a> {
    HostWords {
        place: place_of(matches),
        kept: kept_words(matches),
        script: matches.get_str("script"),
        log: matches.get_str("log"),
        metrics: matches.get_str("metrics"),
        stop_file: matches.get_str("stop-file"),
        replica: replica_words(matches),
    }
}
