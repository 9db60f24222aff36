//! What an entry adds to what a journal keeps.

ghost use Rattle.std.specs.Prelude.{◌≡◌, ◌≤◌, ◌<◌, ◌+◌, ◌-◌, ◌==◌, ◌++◌, ◌∷◌, [], if◌then◌else◌};
ghost use Rattle.std.specs.Prelude.{ℕ, Some, None, IfSome, OnOk, OnErr, length};
ghost use Rattle.std.specs.BTreeMap as tree;
ghost use Rattle.std.specs.Option.{option_or};
ghost use Rattle.std.specs.Ordering.{nat_cmp};
ghost use Rattle.iso_order.specs.Pan.{AccountNumber};
ghost use Rattle.iso_issuer.specs.Effect.{is_key};
ghost use Rattle.iso_issuer.specs.Index.{key_cmp, hold_count, mark_at};
ghost use Rattle.iso_issuer.specs.Journal.{undone_key, left_by};

use crate::effect::Hold;
use crate::index::Index;
use crate::journal::Entry;
use iso_order::{Order, TxKey};
use std::alloc::AllocError;
use std::collections::BTreeMap;

/// Keeps the balance that the answer at a place shows, where it shows one.
fn show(shown: &mut BTreeMap<u32, i64>, place: u32, balance: Option<i64>) -> Result<(), AllocError>
    requires { tree.get nat_cmp shown.old place ≡ None }
    ensures ok { OnOk result ((at : ℕ) → tree.get nat_cmp shown.new at
        ≡ (if at == place then balance else tree.get nat_cmp shown.old at)) }
    ensures unchanged { OnErr result
        ((at : ℕ) → tree.get nat_cmp shown.new at ≡ tree.get nat_cmp shown.old at) }
{
    if let Some(balance) = balance {
        shown.insert(place, balance)?;
    }
    Ok(())
}

/// Stores an order and its answer behind the others, and what the order leaves and completes. Where there is
/// no memory for it, nothing changes.
pub fn store(
    orders: &mut Vec<Order>,
    codes: &mut Vec<u8>,
    shown: &mut BTreeMap<u32, i64>,
    index: &mut Index,
    entry: Entry,
    added: Option<Hold>,
    dropped: Option<Hold>,
) -> Result<(), AllocError>
    // No balance is kept yet for the place of the new order.
    requires free { tree.get nat_cmp shown.old (length orders.old.items) ≡ None }
    // Fewer than 999,999 orders are stored.
    requires room { length orders.old.items < 999999 }
    // An order that completes a hold is no reversal, and takes no other completion back.
    requires apart { IfSome added (λ h. (undone_key entry.order.act ≡ None) × (dropped ≡ None)) }
    // Fewer than a million entries complete the hold so far.
    requires few { IfSome added (λ h. hold_count index.old.counts h.key h.pan < 1000000) }
    // A completion that is taken back was counted.
    requires counted { IfSome dropped (λ h. 1 ≤ hold_count index.old.counts h.key h.pan) }
    // A response code has two digits.
    ensures code { entry.answer.code ≤ 99 }
    // Memory aside, the order comes behind all others.
    ensures orders { OnOk result (orders.new.items ≡ orders.old.items ++ entry.order ∷ []) }
    // Memory aside, the response code of its answer comes behind all others.
    ensures codes { OnOk result (codes.new.items ≡ codes.old.items ++ entry.answer.code ∷ []) }
    // Memory aside, the balance that its answer shows is kept for its place, if it shows one; those
    // of all other places stay.
    ensures shown { OnOk result ((at : ℕ) → tree.get nat_cmp shown.new at
        ≡ (if at == length orders.old.items then entry.answer.shown
        else tree.get nat_cmp shown.old at)) }
    // Memory aside, the key that a reversal names has what its first reversal leaves; all
    // other keys stay as they were.
    ensures lefts { OnOk result ((key : TxKey) → tree.get key_cmp index.new.lefts key
        ≡ option_or (tree.get key_cmp index.old.lefts key)
        (if is_key (undone_key entry.order.act) key then Some (left_by entry.order.act)
        else None)) }
    // Memory aside, a hold that is completed has one completion more, one whose completion is taken
    // back one fewer, and each other as many as before.
    ensures counts { OnOk result
        ((key : TxKey) → (pan : AccountNumber) → hold_count index.new.counts key pan
        ≡ hold_count index.old.counts key pan - mark_at dropped key pan + mark_at added key pan) }
    // Without memory the stored orders stay as they were.
    ensures orders_kept { OnErr result (orders.new.items ≡ orders.old.items) }
    // Without memory the stored response codes stay as they were.
    ensures codes_kept { OnErr result (codes.new.items ≡ codes.old.items) }
    // Without memory the balances that answers show stay as they were.
    ensures shown_kept { OnErr result
        ((at : ℕ) → tree.get nat_cmp shown.new at ≡ tree.get nat_cmp shown.old at) }
    // Without memory, what the first reversal of each key leaves stays as it was.
    ensures lefts_kept { OnErr result ((key : TxKey)
        → tree.get key_cmp index.new.lefts key ≡ tree.get key_cmp index.old.lefts key) }
    // Without memory each hold has as many completions as before.
    ensures counts_kept { OnErr result ((key : TxKey) → (pan : AccountNumber)
        → hold_count index.new.counts key pan ≡ hold_count index.old.counts key pan) }
{
    orders.reserve(1)?;
    codes.reserve(1)?;
    let place = orders.len() as u32;
    show(shown, place, entry.answer.shown)?;
    match index.keep(&entry.order, added, dropped) {
        Ok(()) => {
            let _ = orders.push(entry.order);
            let _ = codes.push(entry.answer.code);
            Ok(())
        }
        Err(fault) => {
            shown.remove(&place);
            Err(fault)
        }
    }
}
