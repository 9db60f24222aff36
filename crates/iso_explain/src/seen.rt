//! What may be shown of an element: the only way by which its bytes come into an explanation.

ghost use Rattle.std.specs.Prelude.{◌≡◌, length};
ghost use Rattle.iso_explain.specs.Seen.{is_card, Sees};

use iso_wire::{Shown, masked};

/// What may be shown of an element.
#[derive(Clone, Copy)]
pub(crate) struct Seen<'a> {
    /// The bytes of its body, unless they are hidden.
    pub(crate) body: Option<&'a [u8]>,
    /// How many bytes its body has.
    pub(crate) size: usize,
    /// Its value.
    pub(crate) value: Shown<'a>,
}

/// Whether the element holds card data: an account number, a track, PIN data or chip data.
pub(crate) fn is_card(n: u8) -> bool
    ensures { result ≡ is_card n }
{
    matches!(n, 2 | 34 | 35 | 36 | 45 | 52 | 55)
}

/// The whole value.
pub(crate) fn whole<'a>(value: &'a [u8]) -> Shown<'a>
    ensures front { result.front.now ≡ value.now }
    ensures hidden { result.hidden ≡ 0 }
    ensures end { length result.end.now ≡ 0 }
{
    Shown {
        front: value,
        hidden: 0,
        end: &[],
    }
}

/// What may be shown of an element with this body and this value.
pub(crate) fn seen_of<'a>(is_clear: bool, n: u8, body: &'a [u8], value: &'a [u8]) -> Seen<'a>
    ensures { Sees is_clear n body.now value.now result }
{
    let size = body.len();
    if is_clear {
        return Seen {
            body: Some(body),
            size,
            value: whole(value),
        };
    }
    Seen {
        body: if is_card(n) { None } else { Some(body) },
        size,
        value: masked(n, value),
    }
}
