//! What a run tells, for programs.

use crate::agreement::verdicts_of;
use crate::mixed::mixed_value;
use crate::objects::{add_text, add_value, object_of};
use crate::report::Report;
use crate::settings::Settings;
use iso_tally::{AccountBooks, Bucket, Declined, Doubt, Ended, Summary, Tally};
use serde_json::{Map, Value};
use std::alloc::{AllocError, Global};

/// The two numbers of a range.
fn range_value(alloc: Global, range: (u32, u32)) -> Result<Value, AllocError> {
    let mut values = Vec::with_capacity(alloc, 2)?;
    values.push(Value::from(range.0))?;
    values.push(Value::from(range.1))?;
    Ok(Value::Array(values))
}

/// A number, or null where there is none.
fn number_value(number: Option<u64>) -> Value {
    match number {
        Some(number) => Value::from(number),
        None => Value::Null,
    }
}

/// The numbers of what the run was to do.
fn settings_numbers(of: &Settings<'_>) -> [(&'static str, u64); 8] {
    [
        ("acquirer", of.acquirer),
        ("connections", of.peers as u64),
        ("cut_millionths", u64::from(of.cut)),
        ("lose_millionths", u64::from(of.lose)),
        ("most_open", of.most_open as u64),
        ("patience_ms", of.patience),
        ("repeat_millionths", u64::from(of.repeat)),
        ("seed", of.seed),
    ]
}

/// The object of what the run was to do.
fn settings_value(alloc: Global, of: &Settings<'_>) -> Result<Value, AllocError> {
    let mut members = object_of(alloc, &settings_numbers(of))?;
    for (name, text) in [
        ("address", of.address),
        ("header", of.header),
        ("table", of.table),
    ] {
        add_text(&mut members, alloc, name, text)?;
    }
    let rate = number_value(of.rate.map(u64::from));
    add_value(&mut members, alloc, "rate", rate)?;
    let delay = range_value(alloc, of.delay)?;
    add_value(&mut members, alloc, "delay_ms", delay)?;
    Ok(Value::Object(members))
}

/// The counts of the traffic, by their names.
fn tally_numbers(of: &Tally) -> [(&'static str, u64); 18] {
    [
        ("again", of.again),
        ("answers", of.answers),
        ("bad_frames", of.bad_frames),
        ("begun", of.begun),
        ("closed", of.closed),
        ("connected", of.connected),
        ("cut", of.cut),
        ("delayed", of.delayed),
        ("differing", of.differing),
        ("foreign", of.foreign),
        ("late", of.late),
        ("lost", of.lost),
        ("refused", of.refused),
        ("repeated", of.repeated),
        ("resumed", of.resumed),
        ("reversals", of.reversals),
        ("sent", of.sent),
        ("unreadable", of.unreadable),
    ]
}

/// The object of the counts of the traffic.
fn tally_value(alloc: Global, of: &Tally) -> Result<Value, AllocError> {
    Ok(Value::Object(object_of(alloc, &tally_numbers(of))?))
}

/// The purchases that were declined with one code.
fn declined_one(alloc: Global, of: &Declined) -> Result<Value, AllocError> {
    let mut members = object_of(alloc, &[("count", of.count as u64)])?;
    let code = format!(in alloc; "{:02}", of.code)?;
    add_value(&mut members, alloc, "code", Value::String(code))?;
    Ok(Value::Object(members))
}

/// The list of the purchases that were declined, by their codes.
fn declined_value(alloc: Global, declined: &[Declined]) -> Result<Value, AllocError> {
    let mut values = Vec::new(alloc);
    for of in declined {
        values.push(declined_one(alloc, of)?)?;
    }
    Ok(Value::Array(values))
}

/// The object of how far the transactions got.
fn ended_value(alloc: Global, of: &Ended) -> Result<Value, AllocError> {
    let numbers = [
        ("approved", of.approved as u64),
        ("declined", of.all_declined() as u64),
        ("open", of.open as u64),
        ("reversed", of.reversed as u64),
    ];
    let mut members = object_of(alloc, &numbers)?;
    let by_code = declined_value(alloc, &of.declined)?;
    add_value(&mut members, alloc, "declined_by_code", by_code)?;
    Ok(Value::Object(members))
}

/// The object of the percentiles, or null where nothing was timed.
fn latency_value(
    alloc: Global,
    timed: usize,
    summary: &Option<Summary>,
) -> Result<Value, AllocError> {
    let Some(of) = summary else {
        return Ok(Value::Null);
    };
    let numbers = [
        ("answers", timed as u64),
        ("least", of.least),
        ("most", of.most),
        ("p50", of.p50),
        ("p90", of.p90),
        ("p99", of.p99),
        ("p999", of.p999),
    ];
    Ok(Value::Object(object_of(alloc, &numbers)?))
}

/// A bucket. The last one has no end.
fn bucket_value(alloc: Global, of: &Bucket) -> Result<Value, AllocError> {
    let mut members = object_of(alloc, &[("count", of.count as u64), ("from", of.from)])?;
    add_value(&mut members, alloc, "below", number_value(of.below))?;
    Ok(Value::Object(members))
}

/// The list of the buckets.
fn buckets_value(alloc: Global, buckets: &[Bucket]) -> Result<Value, AllocError> {
    let mut values = Vec::new(alloc);
    for of in buckets {
        values.push(bucket_value(alloc, of)?)?;
    }
    Ok(Value::Array(values))
}

/// The list of trace numbers.
fn traces_value(alloc: Global, traces: &[u32]) -> Result<Value, AllocError> {
    let mut values = Vec::new(alloc);
    for trace in traces {
        values.push(Value::from(*trace))?;
    }
    Ok(Value::Array(values))
}

/// The list of messages, each as the object that its line is.
fn messages_value(alloc: Global, messages: &[String]) -> Result<Value, AllocError> {
    let mut values = Vec::new(alloc);
    for message in messages {
        match serde_json::from_str(alloc, message.as_str()) {
            Ok(value) => values.push(value)?,
            Err(_) => values.push(Value::Null)?,
        }
    }
    Ok(Value::Array(values))
}

/// An account on which the ends differ, by its place in the document, from 1 on.
fn difference_value(alloc: Global, of: &AccountBooks, doubt: &Doubt) -> Result<Value, AllocError> {
    let spent = u64::try_from(of.spent).unwrap_or(u64::MAX);
    let numbers = [
        ("account", doubt.place.saturating_add(1) as u64),
        ("spent", spent),
    ];
    let mut members = object_of(alloc, &numbers)?;
    add_value(&mut members, alloc, "opening", Value::from(of.opening))?;
    let told = match of.told {
        Some(told) => Value::from(told),
        None => Value::Null,
    };
    add_value(&mut members, alloc, "told", told)?;
    let messages = messages_value(alloc, &doubt.messages)?;
    add_value(&mut members, alloc, "messages", messages)?;
    let traces = traces_value(alloc, &doubt.traces)?;
    add_value(&mut members, alloc, "traces", traces)?;
    Ok(Value::Object(members))
}

/// The list of the first accounts on which the ends differ.
fn differing_value(
    alloc: Global,
    books: &[AccountBooks],
    doubts: &[Doubt],
) -> Result<Value, AllocError> {
    let mut values = Vec::new(alloc);
    for doubt in doubts {
        if let Some(of) = books.get(doubt.place) {
            values.push(difference_value(alloc, of, doubt)?)?;
        }
    }
    Ok(Value::Array(values))
}

/// The object of what both ends say of the accounts, or null where that wasn't asked.
fn books_value(alloc: Global, report: &Report<'_>) -> Result<Value, AllocError> {
    let Some(books) = &report.books else {
        return Ok(Value::Null);
    };
    let verdicts = verdicts_of(books);
    let numbers = [
        ("agree", verdicts.agree as u64),
        ("differ", verdicts.differ as u64),
        ("untold", verdicts.untold as u64),
    ];
    let mut members = object_of(alloc, &numbers)?;
    let differing = differing_value(alloc, books, &report.doubts)?;
    add_value(&mut members, alloc, "differing", differing)?;
    Ok(Value::Object(members))
}

/// Whether something is so, or null where that isn't known.
fn truth_value(is_so: Option<bool>) -> Value {
    match is_so {
        Some(is_so) => Value::Bool(is_so),
        None => Value::Null,
    }
}

impl Report<'_> {
    /// Adds what the run counted and timed.
    fn add_counts(
        &self,
        members: &mut Map<String, Value>,
        alloc: Global,
    ) -> Result<(), AllocError> {
        let histogram = buckets_value(alloc, &self.buckets)?;
        add_value(members, alloc, "histogram_micros", histogram)?;
        let latency = latency_value(alloc, self.timed, &self.summary)?;
        add_value(members, alloc, "latency_micros", latency)?;
        let traffic = tally_value(alloc, &self.tally)?;
        add_value(members, alloc, "traffic", traffic)?;
        let transactions = ended_value(alloc, &self.ended)?;
        add_value(members, alloc, "transactions", transactions)
    }

    /// Adds what both ends say of the accounts, and whether all is closed.
    fn add_verdicts(
        &self,
        members: &mut Map<String, Value>,
        alloc: Global,
    ) -> Result<(), AllocError> {
        let all_closed = Value::Bool(self.all_closed());
        add_value(members, alloc, "all_closed", all_closed)?;
        let books_agree = truth_value(self.books_agree());
        add_value(members, alloc, "books_agree", books_agree)?;
        let books = books_value(alloc, self)?;
        add_value(members, alloc, "books", books)
    }

    /// What the run tells as an object of JSON, on one line with no line feed. Times are in microseconds where their names
    /// don't say milliseconds, and amounts in minor units.
    pub fn to_json(&self, alloc: Global) -> Result<String, AllocError> {
        let mut members = object_of(alloc, &[("elapsed_micros", self.micros)])?;
        let mix = mixed_value(alloc, &self.mixed)?;
        add_value(&mut members, alloc, "mix", mix)?;
        let settings = settings_value(alloc, &self.settings)?;
        add_value(&mut members, alloc, "settings", settings)?;
        self.add_counts(&mut members, alloc)?;
        self.add_verdicts(&mut members, alloc)?;
        Value::Object(members).to_string(alloc)
    }
}
