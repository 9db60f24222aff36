//! A mix, as a word writes it.
ghost use Rattle.std.specs.Prelude.{◌≡◌, ◌==◌, IfSome, position, true};
ghost use Rattle.iso_mix.specs.Mix.{is_fair};

use iso_mix::{Kind, Mix};
use iso_wire::number_in;

/// The kind of a word. A purchase has none: what is left of a hundred are purchases.
fn kind_named(word: &[u8]) -> Option<Kind> {
    match word {
        b"hold" => Some(Kind::Hold),
        b"complete" => Some(Kind::Complete),
        b"inquiry" => Some(Kind::Inquiry),
        b"undo" => Some(Kind::Undo),
        _ => None,
    }
}

/// Where the first equals sign is.
fn equals_in(text: &[u8]) -> Option<usize>
    ensures { result ≡ position (λ b. b == 61) text.now }
{
    text.iter().position(|byte| *byte == b'=')
}

/// The kind and the share that a text writes, as `hold=20`: a hundred at most.
fn share_of(text: &[u8]) -> Option<(Kind, u8)> {
    let at = equals_in(text)?;
    let kind = kind_named(&text[..at])?;
    let share = number_in(&text[at + 1..], 1, 3)?;
    if share <= 100 {
        Some((kind, share as u8))
    } else {
        None
    }
}

/// The mix with the share of one more kind. `None` where the kind has one.
fn with_share(mix: &Mix, kind: Kind, share: u8) -> Option<Mix> {
    let mut next = *mix;
    match kind {
        Kind::Hold if mix.hold == 0 => next.hold = share,
        Kind::Complete if mix.complete == 0 => next.complete = share,
        Kind::Inquiry if mix.inquiry == 0 => next.inquiry = share,
        Kind::Undo if mix.undo == 0 => next.undo = share,
        Kind::Purchase | Kind::Hold | Kind::Complete | Kind::Inquiry | Kind::Undo => return None,
    }
    Some(next)
}

/// The mix that a text writes: shares with commas between them, as `hold=20,complete=10,inquiry=5,undo=5`, in any order, and
/// a hundred together at most. A kind that isn't named has none.
pub fn mix_of(text: &str) -> Option<Mix>
    // No mix of more than a hundred is read.
    ensures { IfSome result (λ mix. is_fair mix ≡ true) }
{
    let mut mix = Mix::NONE;
    for part in text.split(',') {
        let (kind, share) = share_of(part.as_bytes())?;
        mix = with_share(&mix, kind, share)?;
    }
    if mix.is_fair() { Some(mix) } else { None }
}
