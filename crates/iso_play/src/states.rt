//! What both ends hold, as JSON.

use iso_acquirer::{State, World};
use iso_order::{Act, MOST_STAN, Order, Pan, TxKey};
use std::alloc::{AllocError, Global};

/// The words for how the acquirer holds a purchase.
fn state_text(alloc: Global, state: State) -> Result<String, AllocError> {
    match state {
        State::Waiting(1) => String::from_str(alloc, "waiting"),
        State::Waiting(_) => String::from_str(alloc, "waiting again"),
        State::Reversing => String::from_str(alloc, "reversing"),
        State::Approved => String::from_str(alloc, "approved"),
        State::Declined(code) => format!(in alloc; "declined {code:02}"),
        State::Reversed => String::from_str(alloc, "reversed"),
    }
}

/// Appends how the acquirer holds each purchase, as a list.
pub(crate) fn push_states(
    alloc: Global,
    world: &World,
    out: &mut Vec<u8>,
) -> Result<(), AllocError> {
    out.push(b'[')?;
    let last = world.sent().len().min(MOST_STAN as usize) as u32;
    for trace in 1..last + 1 {
        if let Some(state) = world.acquirer().state(trace) {
            let words = state_text(alloc, state)?;
            let comma = if trace > 1 { "," } else { "" };
            let item = format!(in alloc; "{comma}{{\"trace\":{trace},\"state\":\"{words}\"}}")?;
            out.extend_from_slice(item.as_bytes())?;
        }
    }
    out.extend_from_slice(b"]")
}

/// Appends what is on the account, behind a comma, as a member.
pub(crate) fn push_ledger(
    alloc: Global,
    world: &World,
    pan: Pan,
    out: &mut Vec<u8>,
) -> Result<(), AllocError> {
    let ledger = world.issuer().ledger(pan).unwrap_or(0);
    let member = format!(in alloc; ",\"ledger\":{ledger}")?;
    out.extend_from_slice(member.as_bytes())
}

/// What a sent order is, and its amount: of a reversal what is taken back.
fn order_words(order: &Order) -> (&'static str, &'static str, u64) {
    match order.act() {
        Act::Undo { .. } => ("reversal", "0400", 0),
        act => {
            let amount = match act.money() {
                Some(money) => money.amount,
                None => 0,
            };
            ("purchase", "0200", amount)
        }
    }
}

/// Appends all that was sent, as a list.
pub(crate) fn push_sent(alloc: Global, world: &World, out: &mut Vec<u8>) -> Result<(), AllocError> {
    out.push(b'[')?;
    for (place, order) in world.sent().iter().enumerate() {
        let (what, code, amount) = order_words(order);
        let (trace, comma) = (order.key().stan, if place > 0 { "," } else { "" });
        let item = format!(in alloc;
            "{comma}{{\"place\":{place},\"what\":\"{what}\",\"type\":\"{code}\",\"trace\":{trace},\"amount\":{amount}}}"
        )?;
        out.extend_from_slice(item.as_bytes())?;
    }
    out.extend_from_slice(b"]")
}

/// The place of the first order of a key among those that were sent.
fn place_of(world: &World, key: &TxKey) -> usize {
    let found = world.sent().iter().position(|order| order.key() == *key);
    found.unwrap_or(0)
}

/// Appends all that was given, as a list.
pub(crate) fn push_given(
    alloc: Global,
    world: &World,
    out: &mut Vec<u8>,
) -> Result<(), AllocError> {
    out.push(b'[')?;
    for (place, given) in world.given().iter().enumerate() {
        let (to, code) = (place_of(world, &given.key), given.answer.code);
        let comma = if place > 0 { "," } else { "" };
        let item = format!(in alloc;
            "{comma}{{\"place\":{place},\"to\":{to},\"code\":\"{code:02}\"}}"
        )?;
        out.extend_from_slice(item.as_bytes())?;
    }
    out.extend_from_slice(b"]")
}
