//! The histogram as a picture.

use crate::bars::{bar_length, filled, most_of};
use crate::drawing::end_of;
use crate::numbers::{bound, millis};
use crate::report::Report;
use iso_tally::{Bucket, Summary};
use std::alloc::{AllocError, Global};

/// What stands in front of all: the size, and colours that are read on light and on dark.
const FRONT: &str =
    "<svg xmlns=\"http://www.w3.org/2000/svg\" viewBox=\"0 0 720 HEIGHT\" role=\"img\" font-family=\"sans-serif\" font-size=\"14\">
<style>
  .ground { fill: #ffffff } .words { fill: #1b1f24 } .faint { fill: #57606a } .bar { fill: #0969da }
  @media (prefers-color-scheme: dark) {
    .ground { fill: #0d1117 } .words { fill: #e6edf3 } .faint { fill: #9198a1 } .bar { fill: #58a6ff }
  }
</style>
";

/// How high a row of the histogram is.
const ROW: usize = 24;

/// Where the first row begins: under the two lines of the heading.
const TOP: usize = 88;

/// How wide the longest bar is.
const WIDTH: usize = 400;

/// Where the bars begin: behind the words of the buckets.
const LEFT: usize = 190;

/// Adds the size and the colours, for so many rows.
fn add_front(text: &mut String, rows: usize) -> Result<(), AllocError> {
    let height = rows.saturating_mul(ROW).saturating_add(TOP + 12);
    if let Some((before, behind)) = FRONT.split_once("HEIGHT") {
        write!(text, "{before}{height}{behind}")?;
    }
    write!(
        text,
        "<rect class=\"ground\" width=\"720\" height=\"{height}\"/>\n"
    )
}

/// Adds the title, and the percentiles under it.
fn add_heading(
    text: &mut String,
    alloc: Global,
    timed: usize,
    summary: &Option<Summary>,
) -> Result<(), AllocError> {
    write!(text, "<title>Latency of {timed} answers</title>\n")?;
    write!(
        text,
        "<text class=\"words\" x=\"20\" y=\"32\" font-size=\"18\">Latency of {timed} answers</text>\n"
    )?;
    let Some(of) = summary else {
        return Ok(());
    };
    text.push_str("<text class=\"faint\" x=\"20\" y=\"58\">")?;
    for (label, micros) in [
        ("p50", of.p50),
        ("p90", of.p90),
        ("p99", of.p99),
        ("p99.9", of.p999),
        ("most", of.most),
    ] {
        let shown = millis(alloc, micros)?;
        write!(text, "{label} {} ms   ", shown.as_str())?;
    }
    text.push_str("</text>\n")
}

/// Adds the row of a bucket: its bounds, its bar and its count.
fn add_row(
    text: &mut String,
    alloc: Global,
    bucket: &Bucket,
    most: usize,
    top: usize,
) -> Result<(), AllocError> {
    let from = bound(alloc, bucket.from)?;
    let end = end_of(alloc, bucket)?;
    let (from, end, count) = (from.as_str(), end.as_str(), bucket.count);
    let words = top.saturating_add(16);
    let length = bar_length(count, most, WIDTH);
    let behind = LEFT + 8 + length;
    write!(
        text,
        "<text class=\"words\" x=\"180\" y=\"{words}\" text-anchor=\"end\">{from} to {end}</text>"
    )?;
    write!(
        text,
        "<rect class=\"bar\" x=\"{LEFT}\" y=\"{}\" width=\"{length}\" height=\"18\" rx=\"2\"/>",
        top.saturating_add(2)
    )?;
    write!(
        text,
        "<text class=\"faint\" x=\"{behind}\" y=\"{words}\">{count}</text>\n"
    )
}

/// Adds a row for each of these buckets.
fn add_rows(text: &mut String, alloc: Global, buckets: &[Bucket]) -> Result<(), AllocError> {
    let most = most_of(buckets);
    let mut top = TOP;
    for bucket in buckets {
        add_row(text, alloc, bucket, most, top)?;
        top = top.saturating_add(ROW);
    }
    Ok(())
}

impl Report<'_> {
    /// The histogram as a picture in SVG, which stands alone.
    pub fn to_svg(&self, alloc: Global) -> Result<String, AllocError> {
        let buckets = filled(&self.buckets);
        let mut text = String::new(alloc);
        add_front(&mut text, buckets.len())?;
        add_heading(&mut text, alloc, self.timed, &self.summary)?;
        add_rows(&mut text, alloc, buckets)?;
        text.push_str("</svg>\n")?;
        Ok(text)
    }
}
