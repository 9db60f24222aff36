//! The metrics in the text form of Prometheus, version 0.0.4.

use crate::labels::{add_front, add_histogram, add_of_both, add_of_link, add_single};
use crate::metrics::Metrics;
use iso_counts::{CLOSINGS, KIND_WORDS, LinkCounts, REFUSALS};
use iso_lines::closing_word;
use std::alloc::AllocError;

/// A metric that has one number a link.
#[derive(Clone, Copy)]
enum OfLink {
    Silent,
    Foreign,
    Opened,
    Connected,
    NotAccepted,
    Came,
    Went,
}

/// How such a metric is written.
struct Family {
    of: OfLink,
    name: &'static str,
    of_type: &'static str,
    help: &'static str,
}

/// The metrics that have one number a link.
const FAMILIES: &[Family] = &[
    Family {
        of: OfLink::Silent,
        name: "frames_silent_total",
        of_type: "counter",
        help: "Frames that are not answered.",
    },
    Family {
        of: OfLink::Foreign,
        name: "orders_foreign_total",
        of_type: "counter",
        help: "Orders of an acquirer that the link may not speak for, answered 12.",
    },
    Family {
        of: OfLink::Opened,
        name: "connections_opened_total",
        of_type: "counter",
        help: "Connections that were let in.",
    },
    Family {
        of: OfLink::Connected,
        name: "connections",
        of_type: "gauge",
        help: "Connections that are open now.",
    },
    Family {
        of: OfLink::NotAccepted,
        name: "accepts_failed_total",
        of_type: "counter",
        help: "How often the system handed out no connection.",
    },
    Family {
        of: OfLink::Came,
        name: "received_bytes_total",
        of_type: "counter",
        help: "Bytes that came of peers.",
    },
    Family {
        of: OfLink::Went,
        name: "sent_bytes_total",
        of_type: "counter",
        help: "Bytes that were written to peers.",
    },
];

impl OfLink {
    /// The number of a link.
    fn value(&self, counts: &LinkCounts) -> u64 {
        match self {
            OfLink::Silent => counts.silent,
            OfLink::Foreign => counts.foreign,
            OfLink::Opened => counts.opened,
            OfLink::Connected => counts.connected,
            OfLink::NotAccepted => counts.not_accepted,
            OfLink::Came => counts.came,
            OfLink::Went => counts.went,
        }
    }
}

/// Adds the frames of a link, by their kinds.
fn add_frames(text: &mut String, link: &str, counts: &LinkCounts) -> Result<(), AllocError> {
    for (word, count) in KIND_WORDS.iter().zip(counts.frames.iter()) {
        add_of_both(text, "frames_total", link, "kind", word, *count)?;
    }
    Ok(())
}

/// Adds the answers of a link, by their codes: 00, and each that was given.
fn add_answers(text: &mut String, link: &str, counts: &LinkCounts) -> Result<(), AllocError> {
    for (code, count) in counts.answers.iter().enumerate() {
        if code == 0 || *count > 0 {
            write!(
                text,
                "rumpadol_answers_total{{link=\"{link}\",code=\"{code:02}\"}} {count}\n"
            )?;
        }
    }
    Ok(())
}

/// Adds the connections of a link that were closed, by the reasons.
fn add_closings(text: &mut String, link: &str, counts: &LinkCounts) -> Result<(), AllocError> {
    for (why, count) in CLOSINGS.iter().zip(counts.closed.iter()) {
        add_of_both(
            text,
            "connections_closed_total",
            link,
            "why",
            closing_word(*why),
            *count,
        )?;
    }
    Ok(())
}

/// Adds the peers of a link that were not let in, by the reasons.
fn add_refusals(text: &mut String, link: &str, counts: &LinkCounts) -> Result<(), AllocError> {
    for (word, count) in REFUSALS.iter().zip(counts.refused.iter()) {
        add_of_both(text, "connections_refused_total", link, "why", word, *count)?;
    }
    Ok(())
}

/// Adds the times of a link.
fn add_times(
    text: &mut String,
    link: &str,
    counts: &LinkCounts,
    labels: &mut String,
) -> Result<(), AllocError> {
    labels.clear();
    write!(labels, "link=\"{link}\",")?;
    add_histogram(text, "answer_seconds", labels.as_str(), &counts.times)
}

/// The metrics that have several numbers a link.
#[derive(Clone, Copy)]
enum Group {
    Frames,
    Answers,
    Closings,
    Refusals,
}

impl Group {
    /// Adds what stands in front of its lines.
    fn add_front(&self, text: &mut String) -> Result<(), AllocError> {
        let (name, help) = match self {
            Group::Frames => (
                "frames_total",
                "Frames that came, by the kind of their message.",
            ),
            Group::Answers => (
                "answers_total",
                "Answers that were made, by their response code.",
            ),
            Group::Closings => (
                "connections_closed_total",
                "Connections that were closed, by the reason.",
            ),
            Group::Refusals => (
                "connections_refused_total",
                "Connections that were not let in, by the reason.",
            ),
        };
        add_front(text, name, "counter", help)
    }

    /// Adds its lines of a link.
    fn add_link(
        &self,
        text: &mut String,
        link: &str,
        counts: &LinkCounts,
    ) -> Result<(), AllocError> {
        match self {
            Group::Frames => add_frames(text, link, counts),
            Group::Answers => add_answers(text, link, counts),
            Group::Closings => add_closings(text, link, counts),
            Group::Refusals => add_refusals(text, link, counts),
        }
    }
}

impl Metrics {
    /// Adds a metric that has one number a link.
    fn add_family(&self, text: &mut String, family: &Family) -> Result<(), AllocError> {
        add_front(text, family.name, family.of_type, family.help)?;
        for (link, counts) in self.names.iter().zip(self.links.iter()) {
            add_of_link(text, family.name, link.as_str(), family.of.value(counts))?;
        }
        Ok(())
    }

    /// Adds a metric that has several numbers a link.
    fn add_group(&self, text: &mut String, group: Group) -> Result<(), AllocError> {
        group.add_front(text)?;
        for (link, counts) in self.names.iter().zip(self.links.iter()) {
            group.add_link(text, link.as_str(), counts)?;
        }
        Ok(())
    }

    /// Adds how long answers took, for each link.
    fn add_answer_times(&self, text: &mut String) -> Result<(), AllocError> {
        let help = "From the reading of a frame to the writing of its answer.";
        add_front(text, "answer_seconds", "histogram", help)?;
        let mut labels = String::new(self.alloc);
        for (link, counts) in self.names.iter().zip(self.links.iter()) {
            add_times(text, link.as_str(), counts, &mut labels)?;
        }
        Ok(())
    }

    /// Adds the metrics that have several numbers a link.
    fn add_groups(&self, text: &mut String) -> Result<(), AllocError> {
        for group in [
            Group::Frames,
            Group::Answers,
            Group::Closings,
            Group::Refusals,
        ] {
            self.add_group(text, group)?;
        }
        Ok(())
    }

    /// Adds the metrics that have one number a link.
    fn add_families(&self, text: &mut String) -> Result<(), AllocError> {
        for family in FAMILIES {
            self.add_family(text, family)?;
        }
        Ok(())
    }

    /// Adds what is told of the links.
    fn add_links(&self, text: &mut String) -> Result<(), AllocError> {
        self.add_groups(text)?;
        self.add_families(text)?;
        self.add_answer_times(text)
    }

    /// Adds what is told of the journal.
    fn add_journal(&self, text: &mut String) -> Result<(), AllocError> {
        let host = &self.host;
        add_front(
            text,
            "sync_seconds",
            "histogram",
            "How long it took to sync the journal.",
        )?;
        add_histogram(text, "sync_seconds", "", &host.syncs)?;
        let help = "Orders that were kept by these syncs.";
        add_single(text, "orders_kept_total", "counter", help, host.kept)?;
        let help = "Entries of the journal.";
        add_single(text, "journal_entries", "gauge", help, host.entries as u64)?;
        let help = "How many entries the journal may have.";
        add_single(text, "journal_limit", "gauge", help, host.limit as u64)?;
        let help = "1 while the journal can be written, 0 once it failed.";
        add_single(
            text,
            "journal_writable",
            "gauge",
            help,
            u64::from(host.can_write),
        )
    }

    /// Adds all metrics in the text form of Prometheus, version 0.0.4.
    pub fn write_metrics(&self, text: &mut String) -> Result<(), AllocError> {
        self.add_links(text)?;
        self.add_journal(text)?;
        let help = "Lines of the log that could not be written.";
        add_single(
            text,
            "log_lines_dropped_total",
            "counter",
            help,
            self.dropped,
        )?;
        let help = "When the host started, in seconds since 1970.";
        add_single(
            text,
            "start_time_seconds",
            "gauge",
            help,
            self.started / 1_000,
        )
    }

    /// Adds how the host is, as JSON: whether the journal can be written, and how far it is filled.
    pub fn write_health(&self, text: &mut String) -> Result<(), AllocError> {
        let host = &self.host;
        let word = if host.can_write {
            "ok"
        } else {
            "journal failed"
        };
        let (entries, limit) = (host.entries, host.limit);
        write!(
            text,
            "{{\"status\":\"{word}\",\"entries\":{entries},\"limit\":{limit}}}\n"
        )
    }
}
