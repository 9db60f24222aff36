//! The balance that a response tells.
ghost use Rattle.std.specs.Prelude.{◌≡◌, ◌<◌, ◌^◌, take, drop};
ghost use Rattle.iso_frames.specs.Balance.{signed, available_in, balance_from, balance_in, balance_told, tells_balance};

use iso_order::Told;
use iso_wire::{Message, number_in};

/// The class of authorizations: inquiries are of it.
const AUTHORIZATION: u16 = 1;

/// How many bytes an additional amount takes: account type, amount type, currency, sign and amount.
const BLOCK: usize = 20;

/// How many additional amounts a message has at most.
const MOST_AMOUNTS: usize = 6;

/// An amount with its sign: `C` for credit, `D` for debit.
fn signed(sign: u8, amount: u64) -> Option<i64>
    requires { amount < 10 ^ 12 }
    ensures { result ≡ signed sign amount }
{
    match sign {
        b'C' => Some(amount as i64),
        b'D' => Some(-(amount as i64)),
        _ => None,
    }
}

/// What an additional amount tells, where it is what is available in a currency.
fn available_in(block: &[u8], currency: &[u8]) -> Option<i64>
    ensures { result ≡ available_in currency.now block.now }
{
    match block {
        [_, _, b'0', b'2', a, b, c, sign, amount @ ..] if [*a, *b, *c].as_slice() == currency => {
            signed(*sign, number_in(amount, 12, 12)?)
        }
        _ => None,
    }
}

/// The first additional amount of a text, and the others.
fn first_amount(amounts: &[u8]) -> (&[u8], &[u8])
    ensures first { result.0.now ≡ take 20 amounts.now }
    ensures others { result.1.now ≡ drop 20 amounts.now }
{
    if amounts.len() <= BLOCK {
        (amounts, &[])
    } else {
        amounts.split_at(BLOCK)
    }
}

/// What the first of the additional amounts tells that is what is available in a currency.
fn balance_in(amounts: &[u8], currency: &[u8]) -> Option<i64>
    ensures { result ≡ balance_from 6 currency.now amounts.now }
{
    let mut rest = amounts;
    for _ in 0..MOST_AMOUNTS {
        let (first, others) = first_amount(rest);
        let told = available_in(first, currency);
        if told.is_some() {
            return told;
        }
        rest = others;
    }
    None
}

/// What is available by the additional amounts of a response (element 54), in its own currency (element 49), in minor units.
/// `None` where it doesn't tell.
fn balance_of(message: &Message) -> Option<i64>
    ensures { result ≡ balance_in message.now }
{
    let amounts = message.get(54)?;
    let currency = message.get(49)?;
    balance_in(amounts, currency)
}

/// Whether an answer may tell the balance that an inquiry asks for.
pub fn tells_balance(told: &Told) -> bool
    // It is true exactly of an answer to a message of class 1, an authorization.
    ensures { result ≡ tells_balance told.now }
{
    told.key.base / 100 == AUTHORIZATION
}

/// The balance that an answer tells to an inquiry.
pub fn balance_told(message: &Message, told: &Told) -> Option<i64>
    // In an answer to class 1 it is the first of six additional amounts (element 54) that tells
    // what is available in its currency (element 49), with its sign; else none.
    ensures { result ≡ balance_told message.now told.now }
{
    if tells_balance(told) {
        balance_of(message)
    } else {
        None
    }
}
