//! The response to a message.

ghost use Rattle.std.specs.Prelude.{◌≡◌, ℕ, ◌≤◌, ◌++◌, ◌∷◌, codes, length, take, true, false, [], OnOk, OnErr, IfOk};
ghost use Rattle.iso_parts.specs.Numbers.{is_element};
ghost use Rattle.iso_parts.specs.Mti.{mti_number};
ghost use Rattle.iso_wire.specs.Decimal.{decimal};
ghost use Rattle.iso_wire.specs.Elements.{value_in, IsBelow};
ghost use Rattle.iso_order.specs.Fields.{class, function, text};
ghost use Rattle.iso_parts.specs.Mti.{is_answered};
ghost use Rattle.iso_order.specs.Listing.{element_where};
ghost use Rattle.iso_order.specs.Adding.{elements_with_value, are_ascending, answered, is_rare_payment, is_rare_network};
ghost use Rattle.iso_order.specs.Response.{response, response_mti, is_approved, sign, approval, additional, balance, element, is_showable};
ghost use Rattle.iso_order.specs.Response.{IsBegun};
ghost use Rattle.iso_order.specs.Adding.{is_responded};

use crate::answer::Answer;
use crate::fields::{text, type_of};
use iso_parts::Mti;
use iso_table::NoMemory;
use iso_wire::{Message, write_decimal};
use std::alloc::{AllocError, Global};

/// Room for the values of a usual response.
const USUAL_BYTES: usize = 256;

/// The elements that a response can have.
const ANSWERED: [u8; 18] = [
    2, 3, 4, 7, 11, 12, 13, 32, 33, 37, 38, 39, 41, 42, 49, 54, 70, 90,
];

/// Those of them that most payments suffice with.
const PAID: [u8; 10] = [2, 3, 4, 7, 11, 32, 38, 39, 49, 54];

/// Those of them that most network messages suffice with.
const SIGNED: [u8; 6] = [7, 11, 38, 39, 54, 70];

/// The type of the response: the next function, and no repeat.
fn response_type(message: &Message) -> Mti
    requires { is_answered (function message.now) ≡ true }
    ensures { mti_number result ≡ response_mti message.now.mti }
{
    message.mti().response().unwrap()
}

/// Whether a payment is granted, and has a place in the journal.
fn is_approved(message: &Message, answer: &Answer) -> bool
    ensures { result ≡ is_approved message.now answer.now }
{
    let class = type_of(message).class;
    answer.code == 0 && answer.seq > 0 && (class == 1 || class == 2)
}

/// `C`, or `D` below zero.
fn sign(shown: i64) -> u8
    ensures { result ≡ sign shown }
{
    if shown < 0 { b'D' } else { b'C' }
}

/// An additional amount: account type 00, amount type 02, currency, sign and twelve digits.
fn block(currency: &[u8], sign: u8, amount: u64) -> [u8; 20]
    requires { length currency.now ≡ 3 }
    ensures { result ≡ codes "0002" ++ (currency.now ++ sign ∷ decimal 12 amount) }
{
    match currency {
        [a, b, c] => {
            let mut block = [
                b'0', b'0', b'0', b'2', *a, *b, *c, sign, 0, 0, 0, 0, 0, 0, 0, 0, 0, 0, 0, 0,
            ];
            write_decimal(&mut block[8..], amount);
            block
        }
        _ => unreachable!(),
    }
}

/// What is available, as an additional amount.
fn additional(currency: &[u8], shown: i64) -> [u8; 20]
    requires { length currency.now ≡ 3 }
    ensures { result ≡ additional currency.now shown }
{
    block(currency, sign(shown), shown.unsigned_abs())
}

/// Adds the approval number, where there is one.
fn add_approval(
    message: &Message,
    answer: &Answer,
    response: &mut Message,
) -> Result<(), AllocError>
    requires { IsBelow 38 response.old.elements }
    ensures ok { OnOk result (response.new ≡ record response.old {
      elements = response.old.elements ++ element_where 38 (approval message.now answer.now);
    }) }
    ensures unchanged { OnErr result (response.new ≡ response.old) }
{
    if !is_approved(message, answer) {
        return Ok(());
    }
    let mut digits = [0; 6];
    write_decimal(&mut digits, answer.seq as u64);
    response.append(38, &digits)
}

/// Adds the response code.
fn add_code(answer: &Answer, response: &mut Message) -> Result<(), AllocError>
    requires { IsBelow 39 response.old.elements }
    ensures ok { OnOk result (response.new ≡ record response.old {
      elements = response.old.elements ++ (39, decimal 2 answer.now.code) ∷ [];
    }) }
    ensures unchanged { OnErr result (response.new ≡ response.old) }
{
    let mut digits = [0; 2];
    write_decimal(&mut digits, answer.code as u64);
    response.append(39, &digits)
}

/// Adds the balance, where one is shown.
fn add_balance(message: &Message, answer: &Answer, response: &mut Message) -> Result<(), AllocError>
    requires behind { IsBelow 54 response.old.elements }
    requires shown { is_showable message.now answer.now.shown ≡ true }
    ensures ok { OnOk result (response.new ≡ record response.old {
      elements = response.old.elements ++ element_where 54 (balance message.now answer.now);
    }) }
    ensures unchanged { OnErr result (response.new ≡ response.old) }
{
    match answer.shown {
        Some(shown) => response.append(54, &additional(text(message, 49), shown)),
        None => Ok(()),
    }
}

/// Gives an element of the message back.
fn echo(message: &Message, n: u8, response: &mut Message) -> Result<(), AllocError>
    requires number { is_element n ≡ true }
    requires behind { IsBelow n response.old.elements }
    ensures ok { OnOk result (response.new ≡ record response.old {
      elements = response.old.elements ++ element_where n (value_in message.now.elements n);
    }) }
    ensures unchanged { OnErr result (response.new ≡ response.old) }
{
    match message.get(n) {
        Some(value) => response.append(n, value),
        None => Ok(()),
    }
}

/// Adds an element of the response, where it has a value.
fn add(message: &Message, answer: &Answer, n: u8, response: &mut Message) -> Result<(), AllocError>
    requires number { is_responded n ≡ true }
    requires behind { IsBelow n response.old.elements }
    requires shown { is_showable message.now answer.now.shown ≡ true }
    ensures ok { OnOk result (response.new ≡ record response.old {
      elements = response.old.elements ++ element_where n (element message.now answer.now n);
    }) }
    ensures unchanged { OnErr result (response.new ≡ response.old) }
{
    match n {
        38 => add_approval(message, answer, response),
        39 => add_code(answer, response),
        54 => add_balance(message, answer, response),
        _ => echo(message, n, response),
    }
}

/// Adds the elements of those numbers.
fn add_all(
    message: &Message,
    answer: &Answer,
    numbers: &[u8],
    response: &mut Message,
) -> Result<(), AllocError>
    requires numbers { are_ascending is_responded 2 numbers.now ≡ true }
    requires empty { response.old.elements ≡ [] }
    requires shown { is_showable message.now answer.now.shown ≡ true }
    ensures whole { OnOk result (response.new ≡ record response.old {
      elements = elements_with_value (element message.now answer.now) numbers.now;
    }) }
    // Where memory runs out, the first of them are there.
    ensures begun { OnErr result ((count : ℕ) × (response.new ≡ record response.old {
      elements = take count (elements_with_value (element message.now answer.now) numbers.now);
    })) }
{
    for n in numbers {
        add(message, answer, *n, response)?;
    }
    Ok(())
}

/// Whether the message has an element that is given back, but isn't one of most payments.
#[inline(always)]
fn is_rare_payment(message: &Message) -> bool
    ensures { result ≡ is_rare_payment message.now }
{
    let numbers = message.elements();
    numbers.has(12)
        | numbers.has(13)
        | numbers.has(33)
        | numbers.has(37)
        | numbers.has(41)
        | numbers.has(42)
        | numbers.has(70)
        | numbers.has(90)
}

/// Whether the message has an element that is given back, but isn't one of most network messages.
#[inline(always)]
fn is_rare_network(message: &Message) -> bool
    ensures { result ≡ is_rare_network message.now }
{
    let numbers = message.elements();
    numbers.has(2)
        | numbers.has(3)
        | numbers.has(4)
        | numbers.has(12)
        | numbers.has(13)
        | numbers.has(32)
        | numbers.has(33)
        | numbers.has(37)
        | numbers.has(41)
        | numbers.has(42)
        | numbers.has(49)
        | numbers.has(90)
}

/// Adds the elements of the response. Numbers that the message has no element of are left out, as far as most messages lack
/// them.
fn add_answered(
    message: &Message,
    answer: &Answer,
    response: &mut Message,
) -> Result<(), AllocError>
    requires empty { response.old.elements ≡ [] }
    requires shown { is_showable message.now answer.now.shown ≡ true }
    ensures whole { OnOk result (response.new ≡ record response.old {
      elements = elements_with_value (element message.now answer.now) answered;
    }) }
    ensures begun { OnErr result ((count : ℕ) × (response.new ≡ record response.old {
      elements = take count (elements_with_value (element message.now answer.now) answered);
    })) }
{
    if !is_rare_payment(message) {
        return add_all(message, answer, &PAID, response);
    }
    if !is_rare_network(message) {
        return add_all(message, answer, &SIGNED, response);
    }
    add_all(message, answer, &ANSWERED, response)
}

/// Makes a message the response to another, as [`respond`] does, in place of what it was. Its memory is kept, and is
/// enough where it has the room. Where memory runs out, it has the response's type and the first of its elements. The
/// other message and the answer are lent to be read, and stay.
pub fn respond_into(message: &Message, answer: &Answer, into: &mut Message) -> Result<(), NoMemory>
    // The message is a request or an advice.
    requires asks { is_answered (function message.now) ≡ true }
    // A balance that is to be shown has at most twelve digits, and the message is an inquiry.
    requires shown { is_showable message.now answer.now.shown ≡ true }
    // Memory aside, the message becomes the whole response: what is given back, 38, 39
    // and 54, and nothing else.
    ensures whole { OnOk result (into.new ≡ response message.now answer.now) }
    // Memory aside, each element from 2 to 128 has the value that the message and the answer give
    // it, and is missing where they give none.
    ensures each { OnOk result ((n : ℕ) → 2 ≤ n → n ≤ 128
        → value_in into.new.elements n ≡ element message.now answer.now n) }
    // Without memory the message has the response's type and, from the front
    // on, some of its elements.
    ensures begun { OnErr result (IsBegun into.new (response message.now answer.now)) }
{
    let mti = response_type(message);
    into.start_over(mti, ANSWERED.len(), USUAL_BYTES)?;
    add_answered(message, answer, into)?;
    Ok(())
}

/// The response to a message, which asks for one: what the message has of the elements that are given back, the
/// response code (element 39), where a payment is granted its approval number (38), and the balance that is
/// shown (54). Refuses only for want of memory: the message and the answer are lent to be read, and stay.
pub fn respond(alloc: Global, message: &Message, answer: &Answer) -> Result<Message, NoMemory>
    // The message is a request or an advice.
    requires asks { is_answered (function message.now) ≡ true }
    // A balance that is to be shown has at most twelve digits, and the message is an inquiry.
    requires shown { is_showable message.now answer.now.shown ≡ true }
    // Memory aside, the message is the whole response: what is given back, 38, 39
    // and 54, and nothing else.
    ensures whole { IfOk result (λ made. made ≡ response message.now answer.now) }
    // Memory aside, each element from 2 to 128 has the value that the message and the answer give
    // it, and is missing where they give none.
    ensures each { IfOk result (λ made. (n : ℕ) → 2 ≤ n → n ≤ 128
        → value_in made.elements n ≡ element message.now answer.now n) }
{
    let mut response = Message::new(alloc, response_type(message));
    respond_into(message, answer, &mut response)?;
    Ok(response)
}
