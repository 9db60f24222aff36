//! What is written of metrics.

use super::metrics_of;
use iso_fakes::check;
use iso_host::BodyFault;
use iso_lines::{Closing, Counts, Event, Lines, Refusal};
use iso_metrics::Metrics;
use iso_order::TxKey;
use std::alloc::{AllocError, Global};
use std::net::{IpAddr, Ipv4Addr, SocketAddr};
use std::test::Fail;

/// A purchase.
const KEY: TxKey = TxKey {
    base: 200,
    stan: 1,
    sent: 1_126_120_000,
    acquirer: 7,
};

/// What happens to a host on two links, but for the peers that come to the first.
const EVENTS: &[Event] = &[
    Event::Answered {
        link: 0,
        peer: 1,
        kind: Some(200),
        key: KEY,
        code: 0,
        entry: 8,
        micros: 250,
    },
    Event::Answered {
        link: 0,
        peer: 1,
        kind: Some(421),
        key: KEY,
        code: 51,
        entry: 9,
        micros: 251,
    },
    Event::Replied {
        link: 0,
        peer: 1,
        kind: Some(800),
        code: 0,
        micros: 99,
    },
    Event::Foreign {
        link: 0,
        peer: 2,
        kind: Some(220),
        key: KEY,
        micros: 2_000_000,
    },
    Event::Silent {
        link: 0,
        peer: 2,
        kind: Some(210),
    },
    Event::Unreadable {
        link: 0,
        peer: 2,
        kind: None,
        fault: BodyFault::Behind(3),
    },
    Event::Closed {
        link: 0,
        peer: 2,
        why: Closing::Idle,
        counts: Counts {
            came: 0,
            went: 0,
            frames: 0,
            answered: 0,
            unreadable: 0,
        },
    },
    Event::NotAccepted { link: 0 },
    Event::Moved {
        link: 0,
        came: 500,
        went: 300,
    },
    Event::Kept {
        orders: 2,
        micros: 1_000_001,
    },
];

/// The metrics after these events, without those of the second link.
const TEXT: &str = "# HELP rumpadol_frames_total Frames that came, by the kind of their message.
# TYPE rumpadol_frames_total counter
rumpadol_frames_total{link=\"pos\",kind=\"request\"} 1
rumpadol_frames_total{link=\"pos\",kind=\"advice\"} 1
rumpadol_frames_total{link=\"pos\",kind=\"reversal\"} 1
rumpadol_frames_total{link=\"pos\",kind=\"network\"} 1
rumpadol_frames_total{link=\"pos\",kind=\"other\"} 1
rumpadol_frames_total{link=\"pos\",kind=\"unreadable\"} 1
# HELP rumpadol_answers_total Answers that were made, by their response code.
# TYPE rumpadol_answers_total counter
rumpadol_answers_total{link=\"pos\",code=\"00\"} 2
rumpadol_answers_total{link=\"pos\",code=\"12\"} 1
rumpadol_answers_total{link=\"pos\",code=\"51\"} 1
# HELP rumpadol_connections_closed_total Connections that were closed, by the reason.
# TYPE rumpadol_connections_closed_total counter
rumpadol_connections_closed_total{link=\"pos\",why=\"ended\"} 0
rumpadol_connections_closed_total{link=\"pos\",why=\"cut-frame\"} 0
rumpadol_connections_closed_total{link=\"pos\",why=\"failed\"} 0
rumpadol_connections_closed_total{link=\"pos\",why=\"bad-header\"} 0
rumpadol_connections_closed_total{link=\"pos\",why=\"memory\"} 0
rumpadol_connections_closed_total{link=\"pos\",why=\"idle\"} 1
rumpadol_connections_closed_total{link=\"pos\",why=\"unfinished-frame\"} 0
rumpadol_connections_closed_total{link=\"pos\",why=\"does-not-read\"} 0
rumpadol_connections_closed_total{link=\"pos\",why=\"stopped\"} 0
# HELP rumpadol_connections_refused_total Connections that were not let in, by the reason.
# TYPE rumpadol_connections_refused_total counter
rumpadol_connections_refused_total{link=\"pos\",why=\"peers\"} 0
rumpadol_connections_refused_total{link=\"pos\",why=\"network\"} 1
rumpadol_connections_refused_total{link=\"pos\",why=\"memory\"} 0
# HELP rumpadol_frames_silent_total Frames that are not answered.
# TYPE rumpadol_frames_silent_total counter
rumpadol_frames_silent_total{link=\"pos\"} 1
# HELP rumpadol_orders_foreign_total Orders of an acquirer that the link may not speak for, answered 12.
# TYPE rumpadol_orders_foreign_total counter
rumpadol_orders_foreign_total{link=\"pos\"} 1
# HELP rumpadol_connections_opened_total Connections that were let in.
# TYPE rumpadol_connections_opened_total counter
rumpadol_connections_opened_total{link=\"pos\"} 2
# HELP rumpadol_connections Connections that are open now.
# TYPE rumpadol_connections gauge
rumpadol_connections{link=\"pos\"} 1
# HELP rumpadol_accepts_failed_total How often the system handed out no connection.
# TYPE rumpadol_accepts_failed_total counter
rumpadol_accepts_failed_total{link=\"pos\"} 1
# HELP rumpadol_received_bytes_total Bytes that came of peers.
# TYPE rumpadol_received_bytes_total counter
rumpadol_received_bytes_total{link=\"pos\"} 500
# HELP rumpadol_sent_bytes_total Bytes that were written to peers.
# TYPE rumpadol_sent_bytes_total counter
rumpadol_sent_bytes_total{link=\"pos\"} 300
# HELP rumpadol_answer_seconds From the reading of a frame to the writing of its answer.
# TYPE rumpadol_answer_seconds histogram
rumpadol_answer_seconds_bucket{link=\"pos\",le=\"0.0001\"} 1
rumpadol_answer_seconds_bucket{link=\"pos\",le=\"0.00025\"} 2
rumpadol_answer_seconds_bucket{link=\"pos\",le=\"0.0005\"} 3
rumpadol_answer_seconds_bucket{link=\"pos\",le=\"0.001\"} 3
rumpadol_answer_seconds_bucket{link=\"pos\",le=\"0.0025\"} 3
rumpadol_answer_seconds_bucket{link=\"pos\",le=\"0.005\"} 3
rumpadol_answer_seconds_bucket{link=\"pos\",le=\"0.01\"} 3
rumpadol_answer_seconds_bucket{link=\"pos\",le=\"0.025\"} 3
rumpadol_answer_seconds_bucket{link=\"pos\",le=\"0.05\"} 3
rumpadol_answer_seconds_bucket{link=\"pos\",le=\"0.1\"} 3
rumpadol_answer_seconds_bucket{link=\"pos\",le=\"0.25\"} 3
rumpadol_answer_seconds_bucket{link=\"pos\",le=\"1\"} 3
rumpadol_answer_seconds_bucket{link=\"pos\",le=\"+Inf\"} 4
rumpadol_answer_seconds_sum{link=\"pos\"} 2.000600
rumpadol_answer_seconds_count{link=\"pos\"} 4
# HELP rumpadol_sync_seconds How long it took to sync the journal.
# TYPE rumpadol_sync_seconds histogram
rumpadol_sync_seconds_bucket{le=\"0.0001\"} 0
rumpadol_sync_seconds_bucket{le=\"0.00025\"} 0
rumpadol_sync_seconds_bucket{le=\"0.0005\"} 0
rumpadol_sync_seconds_bucket{le=\"0.001\"} 0
rumpadol_sync_seconds_bucket{le=\"0.0025\"} 0
rumpadol_sync_seconds_bucket{le=\"0.005\"} 0
rumpadol_sync_seconds_bucket{le=\"0.01\"} 0
rumpadol_sync_seconds_bucket{le=\"0.025\"} 0
rumpadol_sync_seconds_bucket{le=\"0.05\"} 0
rumpadol_sync_seconds_bucket{le=\"0.1\"} 0
rumpadol_sync_seconds_bucket{le=\"0.25\"} 0
rumpadol_sync_seconds_bucket{le=\"1\"} 0
rumpadol_sync_seconds_bucket{le=\"+Inf\"} 1
rumpadol_sync_seconds_sum 1.000001
rumpadol_sync_seconds_count 1
# HELP rumpadol_orders_kept_total Orders that were kept by these syncs.
# TYPE rumpadol_orders_kept_total counter
rumpadol_orders_kept_total 2
# HELP rumpadol_journal_entries Entries of the journal.
# TYPE rumpadol_journal_entries gauge
rumpadol_journal_entries 9
# HELP rumpadol_journal_limit How many entries the journal may have.
# TYPE rumpadol_journal_limit gauge
rumpadol_journal_limit 1000
# HELP rumpadol_journal_writable 1 while the journal can be written, 0 once it failed.
# TYPE rumpadol_journal_writable gauge
rumpadol_journal_writable 1
# HELP rumpadol_log_lines_dropped_total Lines of the log that could not be written.
# TYPE rumpadol_log_lines_dropped_total counter
rumpadol_log_lines_dropped_total 3
# HELP rumpadol_start_time_seconds When the host started, in seconds since 1970.
# TYPE rumpadol_start_time_seconds gauge
rumpadol_start_time_seconds 1795000000
";

/// Tells of the peers that came.
fn tell_peers<N: Lines>(log: &mut N) {
    let address = SocketAddr::new(IpAddr::V4(Ipv4Addr::LOCALHOST), 5_000);
    for peer in [1, 2] {
        log.tell(
            0,
            &Event::Connected {
                link: 0,
                peer,
                address,
            },
        );
    }
    log.tell(
        0,
        &Event::Refused {
            link: 0,
            address,
            why: Refusal::Network,
        },
    );
}

/// The text of metrics.
fn text_of(alloc: Global, metrics: &Metrics) -> Result<String, AllocError> {
    let mut text = String::new(alloc);
    metrics.write_metrics(&mut text)?;
    Ok(text)
}

#[test]
fn the_metrics_of_a_link(rt: HostRuntime) -> Result<(), Fail> {
    let mut metrics = metrics_of(rt.alloc(), &["pos"])?;
    metrics.dropped = 3;
    tell_peers(&mut metrics);
    for event in EVENTS {
        metrics.tell(0, event);
    }
    let text = text_of(rt.alloc(), &metrics)?;
    check(text.as_str() == TEXT, "the text")
}

/// Whether a text has each of these lines.
fn has_lines(text: &str, lines: &[&str]) -> bool {
    lines
        .iter()
        .all(|line| text.lines().any(|have| have == *line))
}

#[test]
fn names_are_escaped_and_links_are_apart(rt: HostRuntime) -> Result<(), Fail> {
    let mut metrics = metrics_of(rt.alloc(), &["pos", "a\"b\\c\nd"])?;
    metrics.tell(0, &Event::NotAccepted { link: 1 });
    metrics.tell(0, &Event::NotAccepted { link: 2 });
    let text = text_of(rt.alloc(), &metrics)?;
    let lines = [
        "rumpadol_accepts_failed_total{link=\"pos\"} 0",
        "rumpadol_accepts_failed_total{link=\"a\\\"b\\\\c\\nd\"} 1",
    ];
    check(has_lines(text.as_str(), &lines), "escaped")
}
