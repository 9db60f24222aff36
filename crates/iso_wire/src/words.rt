//! The words for the digits of a message type.

ghost use Rattle.std.specs.Prelude.{◌≡◌, ◌<◌, ◌≤◌, ◌++◌, ◌∷◌, OnOk, codes};
ghost use Rattle.iso_parts.specs.Digits.{four_digits_of};
ghost use Rattle.iso_parts.specs.Mti.{mti_number};
ghost use Rattle.iso_parts.specs.declared.digits.Digits.TheVariants.{Ascii};
ghost use Rattle.iso_wire.specs.Describing.{version_word, class_word, function_word, origin_word, type_line};
ghost use Rattle.iso_wire.specs.DigitWords.{word_or};

use iso_parts::Mti;
use iso_parts::raw::four_ascii_digits;
use std::alloc::AllocError;

/// The word for the version.
#[tactic(auto, unfolding(crate::specs::Describing::version_word))]
fn version_word(digit: u8) -> &'static [u8]
    ensures { word_or digit result.now ≡ version_word digit }
{
    match digit {
        0 => b"1987",
        1 => b"1993",
        2 => b"2003",
        9 => b"Private",
        _ => b"",
    }
}

/// The word for the class.
#[tactic(auto, unfolding(crate::specs::Describing::class_word))]
fn class_word(digit: u8) -> &'static [u8]
    ensures { word_or digit result.now ≡ class_word digit }
{
    match digit {
        1 => b"Authorization",
        2 => b"Financial",
        3 => b"FileAction",
        4 => b"Reversal",
        5 => b"Reconciliation",
        6 => b"Administrative",
        7 => b"FeeCollection",
        8 => b"NetworkManagement",
        _ => b"",
    }
}

/// The word for the function.
#[tactic(auto, unfolding(crate::specs::Describing::function_word))]
fn function_word(digit: u8) -> &'static [u8]
    ensures { word_or digit result.now ≡ function_word digit }
{
    match digit {
        0 => b"Request",
        1 => b"Response",
        2 => b"Advice",
        3 => b"AdviceResponse",
        _ => b"",
    }
}

/// The word for the origin.
#[tactic(auto, unfolding(crate::specs::Describing::origin_word))]
fn origin_word(digit: u8) -> &'static [u8]
    ensures { word_or digit result.now ≡ origin_word digit }
{
    match digit {
        0 => b"Acquirer",
        1 => b"AcquirerRepeat",
        2 => b"Issuer",
        3 => b"IssuerRepeat",
        4 => b"Other",
        5 => b"OtherRepeat",
        _ => b"",
    }
}

/// Appends a space and a word, or that the digit is reserved where it has none.
fn push_word(digit: u8, word: &[u8], out: &mut Vec<u8>) -> Result<(), AllocError>
    requires { digit ≤ 9 }
    ensures { OnOk result (out.new.items ≡ out.old.items ++ 32 ∷ word_or digit word.now) }
{
    out.push(b' ')?;
    if word.is_empty() {
        out.extend_from_slice(b"Reserved(")?;
        return out.extend_from_slice(&[b'0' + digit, b')']);
    }
    out.extend_from_slice(word)
}

/// Appends the digits of a message type.
fn push_digits(mti: Mti, out: &mut Vec<u8>) -> Result<(), AllocError>
    ensures { OnOk result
        (out.new.items ≡ out.old.items ++ (codes "MTI=" ++ four_digits_of Ascii (mti_number mti))) }
{
    out.extend_from_slice(b"MTI=")?;
    out.extend_from_slice(&four_ascii_digits(usize::from(mti.number())))
}

/// Appends the line of a message type.
pub(crate) fn push_type(mti: Mti, out: &mut Vec<u8>) -> Result<(), AllocError>
    ensures { OnOk result (out.new.items ≡ out.old.items ++ type_line (mti_number mti)) }
{
    push_digits(mti, out)?;
    push_word(mti.version, version_word(mti.version), out)?;
    push_word(mti.class, class_word(mti.class), out)?;
    push_word(mti.function, function_word(mti.function), out)?;
    push_word(mti.origin, origin_word(mti.origin), out)?;
    out.extend_from_slice(b"\n")?;
    Ok(())
}
