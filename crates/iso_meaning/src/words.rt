//! The words for the digits of a message type, as `show` of the command writes them.

ghost use Rattle.std.specs.Prelude.{◌≡◌};
ghost use Rattle.iso_wire.specs.Describing.{version_word, class_word, function_word, origin_word};
ghost use Rattle.iso_meaning.specs.Words.{word_of};

/// The word for the version, the first digit of a message type. A reserved digit has none.
#[tactic(auto, unfolding(iso_wire::specs::Describing::version_word))]
pub fn version_word(digit: u8) -> Option<&'static str>
    // It is the word that `describe` writes for the digit, and none where that says `Reserved`.
    ensures { word_of digit result ≡ version_word digit }
{
    match digit {
        0 => Some("1987"),
        1 => Some("1993"),
        2 => Some("2003"),
        9 => Some("Private"),
        _ => None,
    }
}

/// The word for the class, the second digit of a message type. A reserved digit has none.
#[tactic(auto, unfolding(iso_wire::specs::Describing::class_word))]
pub fn class_word(digit: u8) -> Option<&'static str>
    // It is the word that `describe` writes for the digit, and none where that says `Reserved`.
    ensures { word_of digit result ≡ class_word digit }
{
    match digit {
        1 => Some("Authorization"),
        2 => Some("Financial"),
        3 => Some("FileAction"),
        4 => Some("Reversal"),
        5 => Some("Reconciliation"),
        6 => Some("Administrative"),
        7 => Some("FeeCollection"),
        8 => Some("NetworkManagement"),
        _ => None,
    }
}

/// The word for the function, the third digit of a message type. A reserved digit has none.
#[tactic(auto, unfolding(iso_wire::specs::Describing::function_word))]
pub fn function_word(digit: u8) -> Option<&'static str>
    // It is the word that `describe` writes for the digit, and none where that says `Reserved`.
    ensures { word_of digit result ≡ function_word digit }
{
    match digit {
        0 => Some("Request"),
        1 => Some("Response"),
        2 => Some("Advice"),
        3 => Some("AdviceResponse"),
        _ => None,
    }
}

/// The word for the origin, the fourth digit of a message type. A reserved digit has none.
#[tactic(auto, unfolding(iso_wire::specs::Describing::origin_word))]
pub fn origin_word(digit: u8) -> Option<&'static str>
    // It is the word that `describe` writes for the digit, and none where that says `Reserved`.
    ensures { word_of digit result ≡ origin_word digit }
{
    match digit {
        0 => Some("Acquirer"),
        1 => Some("AcquirerRepeat"),
        2 => Some("Issuer"),
        3 => Some("IssuerRepeat"),
        4 => Some("Other"),
        5 => Some("OtherRepeat"),
        _ => None,
    }
}
