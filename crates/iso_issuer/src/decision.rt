//! How an order is answered, on the entries before it.

ghost use Rattle.std.specs.Prelude.{◌≡◌, ◌<◌, ◌≤◌, List, Option, None, length, option_map};
ghost use Rattle.iso_issuer.specs.declared.account.Account.{Account};
ghost use Rattle.iso_issuer.specs.declared.balances.Balance.{Balance};
ghost use Rattle.iso_issuer.specs.declared.journal.Entry.{Entry};
ghost use Rattle.iso_issuer.specs.Found.{IsBalanceFor};
ghost use Rattle.iso_issuer.specs.Balances.{accounts_of};
ghost use Rattle.iso_issuer.specs.Effect.{effect_of, effect_amount};
ghost use Rattle.iso_issuer.specs.Journal.{left_at, undone_key};
ghost use Rattle.iso_issuer.specs.Balance.{balance_on};
ghost use Rattle.iso_issuer.specs.Index.{AreSums};
ghost use Rattle.iso_issuer.specs.Decision.{is_wide, amount_code, account_code, code_of, shown_by, new_answer, repeat_answer};
ghost use Rattle.iso_order.specs.Order.{money_of, most_amount};

use crate::balances::{Balance, Balances, PlacedBalance};
use crate::effect::Effect;
use crate::journal::{Entry, Journal, is_nothing, smaller_of};
use iso_order::codes::{
    APPROVED, DUPLICATE_TRANSMISSION, INVALID_CARD_NUMBER, INVALID_TRANSACTION, NO_ACTION_TAKEN,
    NOT_SUFFICIENT_FUNDS, SYSTEM_MALFUNCTION,
};
use iso_order::{Act, Answer, MOST_AMOUNT, Money, Order, TxKey};

/// Whether an amount has more than twelve digits.
fn is_wide(amount: i64) -> bool
    ensures { result ≡ is_wide amount }
{
    amount.unsigned_abs() > MOST_AMOUNT
}

/// The code on an account that is there and has the currency.
fn amount_code(key: &TxKey, effect: &Option<Effect>, balance: &Balance, left: Option<u64>) -> u8
    requires { effect_amount effect.now ≤ most_amount }
    ensures value { (entries : List Entry) → (a : Account) → balance.now ≡ balance_on entries a
        → left ≡ left_at entries key.now → result ≡ amount_code entries key.now effect.now a }
    ensures small { result ≤ 99 }
{
    match effect {
        None => {
            if is_wide(balance.available) {
                SYSTEM_MALFUNCTION
            } else {
                APPROVED
            }
        }
        Some(effect) => {
            if effect.side.is_drawn()
                && key.function() == 0
                && balance.available < smaller_of(effect.amount, left) as i64
            {
                NOT_SUFFICIENT_FUNDS
            } else {
                APPROVED
            }
        }
    }
}

/// The code on the account that was looked up.
fn account_code(
    order: &Order,
    effect: &Option<Effect>,
    money: &Money,
    placed: &Option<PlacedBalance>,
    left: Option<u64>,
) -> u8
    requires effect { effect.now ≡ effect_of order.now }
    requires amount { effect_amount effect.now ≤ most_amount }
    ensures value { (entries : List Entry) → (account : Option Account)
        → option_map (λ p. p.balance) placed.now ≡ option_map (balance_on entries) account
        → left ≡ left_at entries order.now.key
        → result ≡ account_code entries order.now money.now account }
    ensures small { result ≤ 99 }
{
    match placed {
        None => INVALID_CARD_NUMBER,
        Some(placed) => {
            if placed.balance.account.currency == money.currency {
                amount_code(&order.key(), effect, &placed.balance, left)
            } else {
                INVALID_TRANSACTION
            }
        }
    }
}

/// What is on the account that an order is about, and the place of that account.
pub fn balance_for(balances: &Balances, order: &Order) -> Option<PlacedBalance>
    ensures { IsBalanceFor balances.now order.now result }
{
    match order.act().money() {
        Some(money) => balances.find(money.pan),
        None => None,
    }
}

/// The place alone.
pub fn place_in(placed: &Option<PlacedBalance>) -> Option<usize>
    // It is the place of the account that was looked up, where there is one.
    ensures { result ≡ option_map (λ p. p.place) placed.now }
{
    match placed {
        Some(placed) => Some(placed.place),
        None => None,
    }
}

/// The code of a new order, of whose key the first reversal leaves so much.
fn code_of(
    placed: &Option<PlacedBalance>,
    order: &Order,
    effect: &Option<Effect>,
    left: Option<u64>,
) -> u8
    requires effect { effect.now ≡ effect_of order.now }
    requires amount { effect_amount effect.now ≤ most_amount }
    ensures value { (entries : List Entry) → (balances : List Balance) → AreSums entries balances
        → IsBalanceFor balances order.now placed.now
        → (undone_key order.now.act ≡ None → left ≡ left_at entries order.now.key)
        → result ≡ code_of (accounts_of balances) entries order.now }
    ensures small { result ≤ 99 }
{
    match order.act().money() {
        None => APPROVED,
        Some(money) => {
            if is_nothing(left) {
                NO_ACTION_TAKEN
            } else {
                account_code(order, effect, &money, placed, left)
            }
        }
    }
}

/// What is available on the account that was looked up.
fn available_in(placed: &Option<PlacedBalance>) -> Option<i64>
    ensures { result ≡ option_map (λ p. p.balance.available) placed.now }
{
    match placed {
        Some(placed) => Some(placed.balance.available),
        None => None,
    }
}

/// What an order of code 0 shows.
fn shown_by(placed: &Option<PlacedBalance>, order: &Order) -> Option<i64>
    ensures { (entries : List Entry) → (balances : List Balance) → AreSums entries balances
        → IsBalanceFor balances order.now placed.now
        → result ≡ shown_by (accounts_of balances) entries order.now.act }
{
    match order.act() {
        Act::Inquiry(_) => available_in(placed),
        Act::Debit(_) | Act::Credit(_) | Act::Undo { .. } | Act::Complete { .. } => None,
    }
}

/// The answer to a new order, of whose key the first reversal leaves so much.
pub fn new_answer(
    journal: &Journal,
    placed: &Option<PlacedBalance>,
    order: &Order,
    effect: &Option<Effect>,
    left: Option<u64>,
) -> Answer
    // The journal has fewer than 999,999 entries, so the new one's place has six digits at most.
    requires few { length journal.now < 999999 }
    // The effect is what this order does to its account.
    requires effect { effect.now ≡ effect_of order.now }
    // The amount of the effect has at most twelve digits.
    requires amount { effect_amount effect.now ≤ most_amount }
    // Unless the order is a reversal, `left` is what the first entered reversal of its key leaves.
    requires left { undone_key order.now.act ≡ None → left ≡ left_at journal.now order.now.key }
    // Where its account was looked up in balances that are sums over the journal, the order gets
    // the answer that the rules give on the entries before it.
    ensures { (balances : List Balance) → AreSums journal.now balances
        → IsBalanceFor balances order.now placed.now
        → result ≡ new_answer (accounts_of balances) journal.now order.now }
{
    let code = code_of(placed, order, effect, left);
    Answer {
        code,
        seq: journal.len() as u32 + 1,
        shown: if code == APPROVED {
            shown_by(placed, order)
        } else {
            None
        },
    }
}

/// The answer to an order whose key has an entry: the first answer again, or that of a duplicate to another order.
pub fn repeat_answer(entry: Entry, order: Order) -> Answer
    ensures { result ≡ repeat_answer entry order }
{
    if entry.order.is_same(&order) {
        entry.answer
    } else {
        Answer::only(DUPLICATE_TRANSMISSION)
    }
}
