//! The response to a payment, made and made again in place of another one. What else a response has, rows of the command say.

use super::{PAYMENT, set_all};
use iso_fakes::check;
use iso_order::{Answer, Verdict, order_of, respond, respond_into};
use iso_parts::Mti;
use iso_wire::Message;
use std::alloc::Global;
use std::test::Fail;

/// What the issuer answers to the payment.
const GRANTED: Answer = Answer {
    code: 0,
    seq: 1,
    shown: None,
};

/// What the response has beside what it gives back.
const ADDED: &[(u8, &'static [u8])] = &[(38, b"000001"), (39, b"00")];

/// The elements of the response to a declined inquiry.
const EARLIER: &[(u8, &'static [u8])] = &[(39, b"51"), (54, b"0002840C000000004000")];

/// Whether the payment gets the response that is wanted, and another message becomes it.
fn is_answered(alloc: Global, payment: &Message, other: &mut Message, wanted: &Message) -> bool {
    if order_of(payment) == Verdict::Silent {
        return false;
    }
    let is_made = respond_into(payment, &GRANTED, other).is_ok() && other.equals(wanted);
    match respond(alloc, payment, &GRANTED) {
        Ok(response) => is_made && response.equals(wanted),
        Err(_) => false,
    }
}

/// Whether the repeat of the payment gets its response, and so does a message that was the response to a declined inquiry.
fn is_granted(alloc: Global, repeat: Mti, response: Mti) -> bool {
    let mut payment = Message::new(alloc, repeat);
    let mut wanted = Message::new(alloc, response);
    let mut other = Message::new(alloc, response);
    set_all(&mut payment, PAYMENT)
        && set_all(&mut wanted, PAYMENT)
        && set_all(&mut wanted, ADDED)
        && set_all(&mut other, EARLIER)
        && is_answered(alloc, &payment, &mut other, &wanted)
}

#[test]
fn a_payment_is_answered(rt: HostRuntime) -> Result<(), Fail> {
    let is_so = match (Mti::from_digits(201), Mti::from_digits(210)) {
        (Some(repeat), Some(response)) => is_granted(rt.alloc(), repeat, response),
        _ => false,
    };
    check(is_so, "the response")
}
