//! Packed characters, two a byte, looked at where they lie.

ghost use Rattle.std.specs.Prelude.{◌≡◌, ◌≤◌, ◌<◌, ◌-◌, ◌*◌, length, reverse, take, drop, slice_index};
ghost use Rattle.std.specs.List.{list_all};
ghost use Rattle.iso_parts.specs.Class.{is_digit};
ghost use Rattle.iso_parts.specs.Part.{characters};
ghost use Rattle.iso_parts.specs.Reading.{without_front, without_padding};

use crate::padding::Pad;

/// Whether the two characters of each byte are digits. The loop has no early end, so that many bytes are judged at
/// a time.
fn are_digits(bytes: &[u8]) -> bool
    ensures { result ≡ list_all is_digit (characters bytes.now) }
{
    let mut all = true;
    for b in bytes {
        all &= *b / 16 < 10 && *b % 16 < 10;
    }
    all
}

/// Whether the characters of the body are digits, behind the first one where that is a filler.
fn are_digits_behind(skip: usize, body: &[u8]) -> bool
    requires { skip ≤ 1 }
    ensures { result ≡ list_all is_digit (drop skip (characters body.now)) }
{
    match body {
        [first, rest @ ..] if skip == 1 => *first % 16 < 10 && are_digits(rest),
        _ => are_digits(body),
    }
}

/// The character at a place.
#[tactic(auto, using(crate::proofs::Nibbles::high_nibble, crate::proofs::Nibbles::low_nibble))]
fn character_at(body: &[u8], at: usize) -> u8
    requires { at < 2 * length body.now }
    ensures { result ≡ slice_index (characters body.now) at }
{
    let b = body[at / 2];
    if at % 2 == 0 {
        b'0' + b / 16
    } else {
        b'0' + b % 16
    }
}

/// Where the value starts behind its pads.
fn value_start(pad: u8, from: usize, body: &[u8]) -> usize
    requires { from ≤ 2 * length body.now }
    ensures rest { drop result (characters body.now)
        ≡ without_front pad (drop from (characters body.now)) }
    ensures within { result ≤ 2 * length body.now }
{
    let mut at = from;
    while at < 2 * body.len() {
        if character_at(body, at) != pad {
            break;
        }
        at += 1;
    }
    at
}

/// Where the value ends before its pads.
fn value_end(pad: u8, from: usize, body: &[u8]) -> usize
    requires { from ≤ 2 * length body.now }
    ensures front { take (result - from) (drop from (characters body.now))
        ≡ reverse (without_front pad (reverse (drop from (characters body.now)))) }
    ensures behind { from ≤ result }
    ensures within { result ≤ 2 * length body.now }
{
    let mut to = 2 * body.len();
    while from < to {
        if character_at(body, to - 1) != pad {
            break;
        }
        to -= 1;
    }
    to
}

/// Whether the characters from one place to another are digits.
#[tactic(auto, using(crate::proofs::Nibbles::digits_step, crate::proofs::Nibbles::digits_none, crate::proofs::Texts::length_characters))]
fn are_digits_between(from: usize, to: usize, body: &[u8]) -> bool
    requires order { from ≤ to }
    requires within { to ≤ 2 * length body.now }
    ensures { result ≡ list_all is_digit (take (to - from) (drop from (characters body.now))) }
{
    let mut at = from;
    while at < to {
        if !matches!(character_at(body, at), b'0'..=b'9') {
            return false;
        }
        at += 1;
    }
    true
}

/// Whether the characters of the body without their padding are digits, behind the first one where that is a filler.
#[tactic(auto, using(crate::proofs::Nibbles::whole_rest, crate::proofs::Texts::length_characters))]
pub(crate) fn are_unpadded_digits(pad: Pad, skip: usize, body: &[u8]) -> bool
    requires few { skip ≤ 1 }
    requires within { skip ≤ 2 * length body.now }
    ensures { result ≡ list_all is_digit (without_padding pad (drop skip (characters body.now))) }
{
    let end = 2 * body.len();
    match pad {
        Pad::None => are_digits_behind(skip, body),
        Pad::Left(pad) => are_digits_between(value_start(pad, skip, body), end, body),
        Pad::Right(pad) => are_digits_between(skip, value_end(pad, skip, body), body),
    }
}
