//! The message that asks for an order.

ghost use Rattle.std.specs.Prelude.{◌≡◌, ℕ, ◌≤◌, ◌++◌, ◌∷◌, [], true, OnOk, IfOk, option_map};
ghost use Rattle.iso_parts.specs.Numbers.{is_element};
ghost use Rattle.iso_wire.specs.Decimal.{decimal};
ghost use Rattle.iso_wire.specs.Elements.{value_in, IsBelow};
ghost use Rattle.iso_order.specs.Listing.{element_where};
ghost use Rattle.iso_order.specs.Adding.{elements_with_value, are_ascending};
ghost use Rattle.iso_order.specs.Requests.{processing_code, moved_amount, named_by, partial_left, acquirer_code, account_number};
ghost use Rattle.iso_order.specs.Order.{money_of};
ghost use Rattle.iso_order.specs.Requests.{original_data, replacement_amounts, request_value, request, AsksFor, FitsEdition87};

use crate::act::Act;
use crate::fields::mti_of;
use crate::key::TxKey;
use crate::laws::{acquirers_in_own_digits, requests_ask, requests_fit};
use crate::order::Order;
use iso_table::NoMemory;
use iso_wire::{Message, digits_of, write_decimal};
use std::alloc::{AllocError, Global};

/// The elements that a request can have.
const ASKED: [u8; 9] = [2, 3, 4, 7, 11, 32, 49, 90, 95];

/// The most elements of one request: those of a completion.
const MOST_ELEMENTS: usize = 8;

/// The most bytes of its values: those of a reversal that leaves a part.
const LONGEST_VALUES: usize = 111;

/// The processing code: goods and services, a return, or a balance inquiry.
fn processing_code(act: &Act) -> Option<u64>
    ensures { result ≡ processing_code act.now }
{
    match act {
        Act::Debit(_) | Act::Complete { .. } => Some(0),
        Act::Credit(_) => Some(200_000),
        Act::Inquiry(_) => Some(310_000),
        Act::Undo { .. } => None,
    }
}

/// The amount that is moved.
fn moved_amount(act: &Act) -> Option<u64>
    ensures { result ≡ moved_amount act.now }
{
    match act {
        Act::Debit(money) | Act::Credit(money) => Some(money.amount),
        Act::Complete { money, .. } => Some(money.amount),
        Act::Inquiry(_) | Act::Undo { .. } => None,
    }
}

/// The transaction that is reversed, or the hold that is completed.
fn named_by(act: &Act) -> Option<TxKey>
    ensures { result ≡ named_by act.now }
{
    match act {
        Act::Undo { original, .. } => Some(*original),
        Act::Complete { hold, .. } => Some(*hold),
        Act::Debit(_) | Act::Credit(_) | Act::Inquiry(_) => None,
    }
}

/// What a reversal leaves, where it leaves a part.
fn partial_left(act: &Act) -> Option<u64>
    ensures { result ≡ partial_left act.now }
{
    match act {
        Act::Undo { left, .. } if *left > 0 => Some(*left),
        _ => None,
    }
}

/// Adds a number in so many digits.
fn add_number(n: u8, v: u64, digits: usize, request: &mut Message) -> Result<(), AllocError>
    requires number { is_element n ≡ true }
    requires behind { IsBelow n request.old.elements }
    requires few { digits ≤ 19 }
    ensures { OnOk result (request.new ≡ record request.old {
      elements = request.old.elements ++ (n, decimal digits v) ∷ [];
    }) }
{
    let mut room = [0; 19];
    let text = &mut room[..digits];
    write_decimal(text, v);
    request.append(n, text)
}

/// Adds a number in so many digits, where there is one.
fn add_some(n: u8, v: Option<u64>, digits: usize, request: &mut Message) -> Result<(), AllocError>
    requires number { is_element n ≡ true }
    requires behind { IsBelow n request.old.elements }
    requires few { digits ≤ 19 }
    ensures { OnOk result (request.new ≡ record request.old {
      elements = request.old.elements ++ element_where n (option_map (decimal digits) v);
    }) }
{
    match v {
        Some(v) => add_number(n, v, digits, request),
        None => Ok(()),
    }
}

/// Adds the account number, with the zeros before it that it has.
fn add_account(act: &Act, request: &mut Message) -> Result<(), AllocError>
    requires { IsBelow 2 request.old.elements }
    ensures { OnOk result (request.new ≡ record request.old {
      elements = request.old.elements
          ++ element_where 2 (option_map account_number (money_of act.now));
    }) }
{
    match act.money() {
        Some(money) => add_number(2, money.pan.digits(), money.pan.len() as usize, request),
        None => Ok(()),
    }
}

/// Adds the acquirer, without zeros before it.
fn add_acquirer(key: &TxKey, request: &mut Message) -> Result<(), AllocError>
    requires behind { IsBelow 32 request.old.elements }
    requires few { key.now.acquirer ≤ 99999999999 }
    ensures { OnOk result (request.new ≡ record request.old {
      elements = request.old.elements ++ (32, acquirer_code key.now.acquirer) ∷ [];
    }) }
{
    // the law that its own digits are its code, for the prover
    acquirers_in_own_digits();
    let digits = digits_of(key.acquirer);
    add_number(32, key.acquirer, digits as usize, request)
}

/// Adds the currency, where the act has one.
fn add_currency(act: &Act, request: &mut Message) -> Result<(), AllocError>
    requires { IsBelow 49 request.old.elements }
    ensures { OnOk result (request.new ≡ record request.old {
      elements = request.old.elements
          ++ element_where 49 (option_map (λ m. m.currency) (money_of act.now));
    }) }
{
    match act.money() {
        Some(money) => request.append(49, &money.currency),
        None => Ok(()),
    }
}

/// The original data elements that name a transaction.
fn original_data(key: &TxKey) -> [u8; 42]
    ensures { result ≡ original_data key.now }
{
    let mut data = [b'0'; 42];
    write_decimal(&mut data[..4], key.base as u64);
    write_decimal(&mut data[4..10], key.stan as u64);
    write_decimal(&mut data[10..20], key.sent);
    write_decimal(&mut data[20..31], key.acquirer);
    data
}

/// Adds the transaction that the act names, where it names one.
fn add_original(act: &Act, request: &mut Message) -> Result<(), AllocError>
    requires { IsBelow 90 request.old.elements }
    ensures { OnOk result (request.new ≡ record request.old {
      elements = request.old.elements
          ++ element_where 90 (option_map original_data (named_by act.now));
    }) }
{
    match named_by(act) {
        Some(key) => request.append(90, &original_data(&key)),
        None => Ok(()),
    }
}

/// The replacement amounts: what is left, no settlement amount and no fees.
fn replacement_amounts(left: u64) -> [u8; 42]
    ensures { result ≡ replacement_amounts left }
{
    let mut amounts = *b"000000000000000000000000D00000000D00000000";
    write_decimal(&mut amounts[..12], left);
    amounts
}

/// Adds what a reversal leaves, where it leaves a part.
fn add_replacement(act: &Act, request: &mut Message) -> Result<(), AllocError>
    requires { IsBelow 95 request.old.elements }
    ensures { OnOk result (request.new ≡ record request.old {
      elements = request.old.elements
          ++ element_where 95 (option_map replacement_amounts (partial_left act.now));
    }) }
{
    match partial_left(act) {
        Some(left) => request.append(95, &replacement_amounts(left)),
        None => Ok(()),
    }
}

/// Adds an element of the request, where it has a value.
fn add(key: &TxKey, act: &Act, n: u8, request: &mut Message) -> Result<(), AllocError>
    requires behind { IsBelow n request.old.elements }
    requires acquirer { key.now.acquirer ≤ 99999999999 }
    ensures { OnOk result (request.new ≡ record request.old {
      elements = request.old.elements ++ element_where n (request_value key.now act.now n);
    }) }
{
    match n {
        2 => add_account(act, request),
        3 => add_some(3, processing_code(act), 6, request),
        4 => add_some(4, moved_amount(act), 12, request),
        7 => add_number(7, key.sent, 10, request),
        11 => add_number(11, key.stan as u64, 6, request),
        32 => add_acquirer(key, request),
        49 => add_currency(act, request),
        90 => add_original(act, request),
        95 => add_replacement(act, request),
        _ => Ok(()),
    }
}

/// Adds the elements of those numbers.
fn add_all(key: &TxKey, act: &Act, numbers: &[u8], request: &mut Message) -> Result<(), AllocError>
    requires numbers { are_ascending is_element 2 numbers.now ≡ true }
    requires empty { request.old.elements ≡ [] }
    requires acquirer { key.now.acquirer ≤ 99999999999 }
    ensures { OnOk result (request.new ≡ record request.old {
      elements = elements_with_value (request_value key.now act.now) numbers.now;
    }) }
{
    for n in numbers {
        add(key, act, *n, request)?;
    }
    Ok(())
}

/// The message that asks for an order: its type is that of the key, 7, 11 and 32 tell the key, and 2, 3, 4 and 49 the money.
/// A reversal names its original, a completion its hold, in 90; what a reversal leaves of the amount stands in 95. Refuses
/// only for want of memory.
pub fn request(alloc: Global, order: &Order) -> Result<Message, NoMemory>
    // Memory aside, the message is the request for this order: the message type of its key, the
    // elements that tell it, and no other.
    ensures whole { IfOk result (λ made. made ≡ request order.now) }
    // Memory aside, each element from 2 to 128 has the value that the order's key and act give it,
    // and is missing where they give none.
    ensures each { IfOk result (λ made. (n : ℕ) → 2 ≤ n → n ≤ 128
        → value_in made.elements n ≡ request_value order.now.key order.now.act n) }
    // Memory aside, what the message asks is that very order.
    ensures order { IfOk result (λ made. AsksFor made order.now) }
    // Memory aside, neither built-in table refuses the message.
    ensures fits { IfOk result FitsEdition87 }
{
    // the laws that a request asks for its order, and that both built-in tables can write it, for the prover
    requests_ask();
    requests_fit();
    let key = order.key();
    let act = order.act();
    let mti = mti_of(key.base);
    let mut request = Message::with_room(alloc, mti, MOST_ELEMENTS, LONGEST_VALUES)?;
    add_all(&key, &act, &ASKED, &mut request)?;
    Ok(request)
}
