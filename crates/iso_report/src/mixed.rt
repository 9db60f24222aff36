//! How far the transactions got that aren't purchases, for people and for programs.

use crate::objects::{add_value, object_of};
use iso_mix::{Counts, Mix};
use iso_tally::Mixed;
use serde_json::{Map, Value};
use std::alloc::{AllocError, Global};

/// How many orders began.
fn begun(of: &Counts) -> usize {
    let answered = of.granted.saturating_add(of.refused);
    answered.saturating_add(of.waiting)
}

/// Adds how many of a hundred transactions were to be of each kind.
pub(crate) fn add_mix(text: &mut String, of: &Mix) -> Result<(), AllocError> {
    let Mix {
        hold,
        complete,
        inquiry,
        undo,
    } = *of;
    write!(
        text,
        "of 100 transactions: holds {hold}, completions {complete}, inquiries {inquiry}, "
    )?;
    write!(text, "partial reversals {undo}\n")
}

/// Adds how far those of each kind got.
pub(crate) fn add_mixed(text: &mut String, of: &Mixed) -> Result<(), AllocError> {
    text.push_str(
        "\nOther kinds                      begun     granted     refused  unanswered\n",
    )?;
    for (label, counts) in [
        ("holds", of.holds),
        ("completions", of.completions),
        ("inquiries", of.inquiries),
        ("partial reversals", of.undone),
    ] {
        let Counts {
            waiting,
            granted,
            refused,
        } = counts;
        let begun = begun(&counts);
        write!(
            text,
            "  {label:<24}{begun:>12}{granted:>12}{refused:>12}{waiting:>12}\n"
        )?;
    }
    Ok(())
}

/// The object of one kind.
fn counts_value(alloc: Global, of_100: u8, of: &Counts) -> Result<Value, AllocError> {
    let members = object_of(
        alloc,
        &[
            ("begun", begun(of) as u64),
            ("granted", of.granted as u64),
            ("of_100", u64::from(of_100)),
            ("open", of.waiting as u64),
            ("refused", of.refused as u64),
        ],
    )?;
    Ok(Value::Object(members))
}

/// The object of all kinds but purchases, or null where all are purchases.
pub(crate) fn mixed_value(alloc: Global, mixed: &Option<Mixed>) -> Result<Value, AllocError> {
    let Some(of) = mixed else {
        return Ok(Value::Null);
    };
    let mut members = Map::new(alloc);
    for (name, of_100, counts) in [
        ("complete", of.mix.complete, of.completions),
        ("hold", of.mix.hold, of.holds),
        ("inquiry", of.mix.inquiry, of.inquiries),
        ("undo", of.mix.undo, of.undone),
    ] {
        let value = counts_value(alloc, of_100, &counts)?;
        add_value(&mut members, alloc, name, value)?;
    }
    Ok(Value::Object(members))
}
