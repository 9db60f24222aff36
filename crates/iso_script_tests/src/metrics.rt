//! What is written of metrics, and which request gets which answer.

mod requests;
mod text;
mod visitors;

use iso_metrics::Metrics;
use std::alloc::{AllocError, Global};

/// Metrics of a host over a journal of 7 entries.
pub(super) fn metrics_of(alloc: Global, names: &[&str]) -> Result<Metrics, AllocError> {
    let mut metrics = Metrics::new(alloc, 7, 1_000, 1_795_000_000_123);
    for name in names {
        metrics.add_link(name)?;
    }
    Ok(metrics)
}
