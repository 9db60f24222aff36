//! Padding.

ghost use Rattle.std.specs.Prelude.{◌≡◌, ◌≤◌, ◌<◌, ◌-◌, ◌++◌, length, reverse, take, drop, vec_len, slice_index};
ghost use Rattle.iso_parts.specs.Spec.{has_pad_end};
ghost use Rattle.iso_parts.specs.Part.{with_pads};
ghost use Rattle.iso_parts.specs.Reading.{without_front, without_padding};

/// What fills a value up on the wire, to the row's maximum. The value is kept without it.
#[derive(Clone, Copy, Debug, PartialEq, Eq)]
pub enum Pad {
    None,
    /// This byte stands before the value.
    Left(u8),
    /// This byte stands behind the value.
    Right(u8),
}

fn without_front(pad: u8, text: &[u8]) -> &[u8]
    ensures rest { result.now ≡ without_front pad text.now }
    ensures shorter { length result.now ≤ length text.now }
{
    let mut rest = text;
    while let [first, after @ ..] = rest {
        if *first != pad {
            break;
        }
        rest = after;
    }
    rest
}

fn without_end(pad: u8, text: &[u8]) -> &[u8]
    ensures rest { result.now ≡ reverse (without_front pad (reverse text.now)) }
    ensures shorter { length result.now ≤ length text.now }
{
    let mut rest = text;
    while let [before @ .., last] = rest {
        if *last != pad {
            break;
        }
        rest = before;
    }
    rest
}

fn strip_front(pad: u8, before: usize, out: &mut Vec<u8>)
    requires { before ≤ vec_len out.old }
    ensures { out.new.items
        ≡ take before out.old.items ++ without_front pad (drop before out.old.items) }
{
    let (_, text) = out.as_slice().split_at(before);
    let kept = without_front(pad, text).len();
    let pads = text.len() - kept;
    let (_, text) = out.as_mut_slice().split_at_mut(before);
    text.rotate_left(pads);
    out.truncate(before + kept);
}

impl Pad {
    /// Whether the pad byte stands at the value's padded end.
    pub(crate) fn stands_at_end(self, value: &[u8]) -> bool
        ensures { result ≡ has_pad_end self value.now }
    {
        match self {
            Pad::None => false,
            Pad::Left(pad) => matches!(value, [first, ..] if *first == pad),
            Pad::Right(pad) => matches!(value, [.., last] if *last == pad),
        }
    }

    /// The characters without their padding.
    pub(crate) fn without_padding(self, text: &[u8]) -> &[u8]
        ensures { result.now ≡ without_padding self text.now }
    {
        match self {
            Pad::None => text,
            Pad::Left(pad) => without_front(pad, text),
            Pad::Right(pad) => without_end(pad, text),
        }
    }

    /// The character at a place of the value that is padded to so many characters.
    pub(crate) fn character_at(self, count: usize, value: &[u8], at: usize) -> u8
        requires room { length value.now ≤ count }
        requires exact { self ≡ Pad.None → length value.now ≡ count }
        requires within { at < count }
        ensures { result ≡ slice_index (with_pads self (count - length value.now) value.now) at }
    {
        match self {
            Pad::None => value[at],
            Pad::Left(pad) => {
                let pads = count - value.len();
                if at < pads { pad } else { value[at - pads] }
            }
            Pad::Right(pad) => { if at < value.len() { value[at] } else { pad } }
        }
    }

    /// Takes the padding off the characters that stand behind the first `before` bytes.
    pub(crate) fn strip(self, before: usize, out: &mut Vec<u8>)
        requires { before ≤ vec_len out.old }
        ensures { out.new.items
            ≡ take before out.old.items ++ without_padding self (drop before out.old.items) }
    {
        match self {
            Pad::None => {}
            Pad::Left(pad) => strip_front(pad, before, out),
            Pad::Right(pad) => {
                let (_, text) = out.as_slice().split_at(before);
                let kept = without_end(pad, text).len();
                out.truncate(before + kept);
            }
        }
    }
}
