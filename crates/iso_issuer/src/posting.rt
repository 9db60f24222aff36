//! What an entry changes on the accounts: for each entry that it touches, the weight after it less the weight before.

ghost use Rattle.std.specs.Prelude.{◌≡◌, ◌≤◌, ◌+◌, ℕ, ◌-ℤ◌, All, map, Some, option_map};
ghost use Rattle.std.specs.Option.{option_or};
ghost use Rattle.iso_order.specs.Order.{most_amount};
ghost use Rattle.iso_order.specs.Pan.{AccountNumber};
ghost use Rattle.iso_issuer.specs.Effect.{effect_of, effect_amount};
ghost use Rattle.iso_issuer.specs.declared.found.Touched.{Touched};
ghost use Rattle.iso_issuer.specs.Journal.{left_at, weight};
ghost use Rattle.iso_issuer.specs.Found.{effect_at, weight_at};
ghost use Rattle.iso_issuer.specs.Found.{entry_in, weight_in, amount_left, WasFoundFor};
ghost use Rattle.iso_issuer.specs.Change.{IsAmount};
ghost use Rattle.iso_issuer.specs.Posting.{ledger_share, available_share};
ghost use Rattle.iso_issuer.specs.declared.effect.Effect.{Effect};
ghost use Rattle.iso_issuer.specs.Index.{account_place};
ghost use Rattle.iso_issuer.specs.Balances.{accounts_of, IsNear};
ghost use Rattle.iso_issuer.specs.Posting.{ledger_grown, available_grown, balance_by_weights, on_ledger, on_available};

use crate::balances::Balances;
use crate::change::Change;
use crate::effect::{Effect, Side, effect_of};
use crate::found::{Found, Touched};
use crate::journal::{Entry, Journal};
use iso_order::{Act, Order};

/// What an effect does to its account when its weight grows by an amount, or shrinks by one.
fn change_by(effect: &Effect, grown: i64) -> Change
    requires { IsAmount grown }
    ensures pan { result.pan ≡ effect.now.pan }
    ensures ledger { result.ledger ≡ ledger_grown effect.now.side grown }
    ensures available { result.available ≡ available_grown effect.now.side grown }
{
    match effect.side {
        Side::Credited => Change {
            pan: effect.pan,
            ledger: grown,
            available: grown,
        },
        Side::Debited => Change {
            pan: effect.pan,
            ledger: -grown,
            available: -grown,
        },
        Side::Held => Change {
            pan: effect.pan,
            ledger: 0,
            available: -grown,
        },
    }
}

/// What it does to the account of an effect that the weight goes from one amount to another.
fn change_of(effect: &Option<Effect>, before: u64, after: u64) -> Option<Change>
    requires before { before ≤ most_amount }
    requires after { after ≤ most_amount }
    ensures pan { option_map (λ c. c.pan) result ≡ option_map (λ f. f.pan) effect.now }
    ensures ledger { (pan : AccountNumber) → on_ledger result pan
        ≡ ledger_share pan effect.now after -ℤ ledger_share pan effect.now before }
    ensures available { (pan : AccountNumber) → on_available result pan
        ≡ available_share pan effect.now after -ℤ available_share pan effect.now before }
{
    match effect {
        Some(effect) => Some(change_by(effect, after as i64 - before as i64)),
        None => None,
    }
}

/// Posts what the weight of an effect changed, where the place of its account is known.
fn post_at(
    balances: &mut Balances,
    effect: &Option<Effect>,
    before: u64,
    after: u64,
    place: Option<usize>,
)
    requires near { All (IsNear 2999999) balances.old }
    requires before { before ≤ most_amount }
    requires after { after ≤ most_amount }
    requires place { (f : Effect) → effect.now ≡ Some f
        → place ≡ account_place (accounts_of balances.old) f.pan }
    ensures moved { balances.new ≡ map (balance_by_weights effect.now before after) balances.old }
    ensures near { (n : ℕ) → All (IsNear n) balances.old → All (IsNear (n + 1)) balances.new }
{
    if let Some(change) = change_of(effect, before, after) {
        balances.post(change, place);
    }
}

/// The place of the account of an effect, where there is one.
fn place_for(balances: &Balances, effect: &Option<Effect>) -> Option<usize>
    ensures { (f : Effect) → effect.now ≡ Some f
        → result ≡ account_place (accounts_of balances.now) f.pan }
{
    match effect {
        Some(effect) => balances.place(effect.pan),
        None => None,
    }
}

/// Posts what the weight of an entry changed that was touched, where there is one, and of which so
/// much is left from now on, unless an earlier reversal left something of it.
fn post_touched(
    journal: &Journal,
    balances: &mut Balances,
    touched: &Option<Touched>,
    left_now: Option<u64>,
)
    requires near { All (IsNear 2999999) balances.old }
    requires before { weight_in touched.now ≤ most_amount }
    requires left { (t : Touched) → touched.now ≡ Some t
        → option_or t.left left_now ≡ left_at journal.now t.entry.order.key }
    ensures moved { balances.new
        ≡ map (balance_by_weights (effect_at (entry_in touched.now)) (weight_in touched.now)
        (weight_at journal.now (entry_in touched.now))) balances.old }
    ensures near { (n : ℕ) → All (IsNear n) balances.old → All (IsNear (n + 1)) balances.new }
{
    if let Some(touched) = touched {
        let effect = effect_of(&touched.entry.order);
        let after = journal.weight(&touched.entry, &effect, touched.left.or(left_now));
        let place = place_for(balances, &effect);
        post_at(balances, &effect, touched.weight, after, place);
    }
}

/// What an order leaves of the entry that it reverses.
fn amount_left(order: &Order) -> Option<u64>
    ensures { result ≡ amount_left order.now.act }
{
    match order.act() {
        Act::Undo { left, .. } => Some(left),
        Act::Debit(_) | Act::Credit(_) | Act::Inquiry(_) | Act::Complete { .. } => None,
    }
}

/// Brings the balances up to date with an entry that was added, whose order has this effect and whose
/// account this place, with the entry that it reverses, and with the hold that it ends or gives back,
/// as both were found before.
pub fn post_all(
    journal: &Journal,
    balances: &mut Balances,
    entry: &Entry,
    effect: &Option<Effect>,
    place: Option<usize>,
    found: &Found,
)
    // The effect is what the entry's order does to its account.
    requires effect { effect.now ≡ effect_of entry.now.order }
    // The amount of the effect has at most twelve digits.
    requires amount { effect_amount effect.now ≤ most_amount }
    // Where there is an effect, the place is that of its account; none where
    // there is no such account.
    requires place { (f : Effect) → effect.now ≡ Some f
        → place ≡ account_place (accounts_of balances.old) f.pan }
    // Each balance is within 9,000,000,000,000,000 minor units and 10^12 for each of
    // 2,999,997 changes, either way.
    requires near { All (IsNear 2999997) balances.old }
    // What was found before, and what the order itself leaves of the entry that it reverses, tell
    // what is left of each now.
    requires found { WasFoundFor journal.now entry.now.order found.now }
    // What the entry counted for that is reversed has at most twelve digits.
    requires reversed { weight_in found.now.reversed ≤ most_amount }
    // What the hold counted for that is ended or given back has at most twelve digits.
    requires released { weight_in found.now.released ≤ most_amount }
    // Each balance moves by how much more or less now counts on it of the entry, of the one that it
    // reverses, and of the hold that it ends or gives back.
    ensures moved { balances.new
        ≡ map
        (balance_by_weights (effect_at (entry_in found.now.released)) (weight_in found.now.released)
        (weight_at journal.now (entry_in found.now.released)))
        (map
        (balance_by_weights (effect_at (entry_in found.now.reversed)) (weight_in found.now.reversed)
        (weight_at journal.now (entry_in found.now.reversed)))
        (map (balance_by_weights (effect_of entry.now.order) 0 (weight journal.now entry.now))
        balances.old)) }
    // Balances within 9,000,000,000,000,000 minor units and 10^12 for each of n changes come to
    // be within that for n + 3.
    ensures near { (n : ℕ) → All (IsNear n) balances.old → All (IsNear (n + 3)) balances.new }
{
    let own = journal.weight(entry, effect, found.left);
    post_at(balances, effect, 0, own, place);
    post_touched(
        journal,
        balances,
        &found.reversed,
        amount_left(&entry.order),
    );
    post_touched(journal, balances, &found.released, None);
}
