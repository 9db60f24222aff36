//! The index of the journal: what reversals leave of a key, and how often a hold is completed, without looking through the entries.

ghost use Rattle.iso_order.specs.Pan.{AccountNumber};
ghost use Rattle.iso_issuer.specs.Effect.{is_key};
ghost use Rattle.std.specs.Prelude.{◌≡◌, ◌≤◌, ◌<◌, ◌+◌, ◌-◌, IfSome, Some, None, [], if◌then◌else◌, OnOk, OnErr};
ghost use Rattle.std.specs.BTreeMap as tree;
ghost use Rattle.std.specs.Option.{option_or};
ghost use Rattle.iso_issuer.specs.Index.{key_cmp, hold_count, mark_at, IsIndexOf};
ghost use Rattle.iso_issuer.specs.Journal.{undone_key, left_by};

use crate::effect::Hold;
use iso_order::{Act, Order, TxKey};
use std::alloc::{AllocError, Global};
use std::collections::BTreeMap;

/// What the first reversal of each key leaves, and how many entries that count complete each hold.
#[derive(Drop)]
pub struct Index {
    lefts: BTreeMap<TxKey, u64>,
    counts: BTreeMap<Hold, u64>,
}

/// How many entries complete a hold.
fn hold_count(counts: &BTreeMap<Hold, u64>, hold: &Hold) -> u64
    ensures { result ≡ hold_count counts.now hold.now.key hold.now.pan }
{
    match counts.get(hold) {
        Some(count) => *count,
        None => 0,
    }
}

/// One entry more completes the hold.
fn complete(counts: &mut BTreeMap<Hold, u64>, hold: Hold) -> Result<(), AllocError>
    requires { hold_count counts.old hold.key hold.pan < 1000000 }
    ensures ok { OnOk result ((key : TxKey) → (pan : AccountNumber) →
        hold_count counts.new key pan
        ≡ hold_count counts.old key pan + mark_at (Some hold) key pan) }
    ensures unchanged { OnErr result ((key : TxKey) → (pan : AccountNumber)
        → hold_count counts.new key pan ≡ hold_count counts.old key pan) }
{
    let count = hold_count(counts, &hold);
    counts.insert(hold, count + 1)?;
    Ok(())
}

/// One entry fewer completes the hold.
fn release(counts: &mut BTreeMap<Hold, u64>, hold: Hold)
    requires { 1 ≤ hold_count counts.old hold.key hold.pan }
    ensures { (key : TxKey) → (pan : AccountNumber) → hold_count counts.new key pan
        ≡ hold_count counts.old key pan - mark_at (Some hold) key pan }
{
    if let Some(count) = counts.get_mut(&hold) {
        *count -= 1;
    }
}

/// Keeps what a reversal leaves of the key that it names, where it is the first to name it.
fn keep_left(lefts: &mut BTreeMap<TxKey, u64>, order: &Order) -> Result<(), AllocError>
    ensures ok { OnOk result ((key : TxKey) → tree.get key_cmp lefts.new key
        ≡ option_or (tree.get key_cmp lefts.old key)
        (if is_key (undone_key order.now.act) key then Some (left_by order.now.act) else None)) }
    ensures unchanged { OnErr result
        ((key : TxKey) → tree.get key_cmp lefts.new key ≡ tree.get key_cmp lefts.old key) }
{
    match order.act() {
        Act::Undo { original, left } => {
            if lefts.get(&original).is_none() {
                lefts.insert(original, left)?;
            }
        }
        Act::Debit(_) | Act::Credit(_) | Act::Inquiry(_) | Act::Complete { .. } => {}
    }
    Ok(())
}

/// Keeps what a reversal leaves, and the hold that one more or one fewer entry completes. Where there
/// is no memory for it, nothing changes.
fn keep(
    lefts: &mut BTreeMap<TxKey, u64>,
    counts: &mut BTreeMap<Hold, u64>,
    order: &Order,
    added: Option<Hold>,
    dropped: Option<Hold>,
) -> Result<(), AllocError>
    requires apart { IfSome added (λ h. (undone_key order.now.act ≡ None) × (dropped ≡ None)) }
    requires few { IfSome added (λ h. hold_count counts.old h.key h.pan < 1000000) }
    requires counted { IfSome dropped (λ h. 1 ≤ hold_count counts.old h.key h.pan) }
    ensures lefts { OnOk result ((key : TxKey) → tree.get key_cmp lefts.new key
        ≡ option_or (tree.get key_cmp lefts.old key)
        (if is_key (undone_key order.now.act) key then Some (left_by order.now.act) else None)) }
    ensures counts { OnOk result
        ((key : TxKey) → (pan : AccountNumber) → hold_count counts.new key pan
        ≡ hold_count counts.old key pan - mark_at dropped key pan + mark_at added key pan) }
    ensures lefts_kept { OnErr result
        ((key : TxKey) → tree.get key_cmp lefts.new key ≡ tree.get key_cmp lefts.old key) }
    ensures counts_kept { OnErr result ((key : TxKey) → (pan : AccountNumber)
        → hold_count counts.new key pan ≡ hold_count counts.old key pan) }
{
    if let Some(hold) = added {
        return complete(counts, hold);
    }
    keep_left(lefts, order)?;
    if let Some(hold) = dropped {
        release(counts, hold);
    }
    Ok(())
}

impl Index {
    /// The index of no entry. Takes no memory.
    pub fn new(alloc: Global) -> Index
        ensures { IsIndexOf result [] }
    {
        Index {
            lefts: BTreeMap::new(alloc),
            counts: BTreeMap::new(alloc),
        }
    }

    /// What the first reversal of a key leaves.
    pub fn left(&self, key: TxKey) -> Option<u64>
        ensures { result ≡ tree.get key_cmp self.now.lefts key }
    {
        Some(*self.lefts.get(&key)?)
    }

    /// How many entries complete a hold.
    pub fn count(&self, hold: &Hold) -> u64
        ensures { result ≡ hold_count self.now.counts hold.now.key hold.now.pan }
    {
        hold_count(&self.counts, hold)
    }

    /// Keeps what an order leaves of the key that it names, and the hold that one more or one fewer entry
    /// completes. All of it, or nothing where there is no memory for it.
    pub fn keep(
        &mut self,
        order: &Order,
        added: Option<Hold>,
        dropped: Option<Hold>,
    ) -> Result<(), AllocError>
        // An order that completes a hold is no reversal, and takes no other completion back.
        requires apart { IfSome added (λ h. (undone_key order.now.act ≡ None) × (dropped ≡ None)) }
        // Fewer than a million entries complete the hold so far.
        requires few { IfSome added (λ h. hold_count self.old.counts h.key h.pan < 1000000) }
        // A completion that is taken back was counted.
        requires counted { IfSome dropped (λ h. 1 ≤ hold_count self.old.counts h.key h.pan) }
        // Memory aside, the key that a reversal names has what its first reversal leaves; all
        // other keys stay as they were.
        ensures lefts { OnOk result ((key : TxKey) → tree.get key_cmp self.new.lefts key
            ≡ option_or (tree.get key_cmp self.old.lefts key)
            (if is_key (undone_key order.now.act) key then Some (left_by order.now.act)
            else None)) }
        // Memory aside, a hold that is completed has one completion more, one whose completion is
        // taken back one fewer, and each other as many as before.
        ensures counts { OnOk result
            ((key : TxKey) → (pan : AccountNumber) → hold_count self.new.counts key pan
            ≡ hold_count self.old.counts key pan - mark_at dropped key pan
            + mark_at added key pan) }
        // Without memory, what the first reversal of each key leaves stays as it was.
        ensures lefts_kept { OnErr result ((key : TxKey)
            → tree.get key_cmp self.new.lefts key ≡ tree.get key_cmp self.old.lefts key) }
        // Without memory each hold has as many completions as before.
        ensures counts_kept { OnErr result ((key : TxKey) → (pan : AccountNumber)
            → hold_count self.new.counts key pan ≡ hold_count self.old.counts key pan) }
    {
        keep(&mut self.lefts, &mut self.counts, order, added, dropped)
    }
}
