//! The tags of chip data (55), by EMV's book 3 and the books of its kernels.

ghost use Rattle.std.specs.Prelude.{◌≡◌, ◌&&◌, is_some, nat_le};
ghost use Rattle.iso_meaning.specs.Tags.{is_short, is_behind_5f, is_behind_9f, has_name, is_card_data, is_named_template, is_shown};

/// The name of a tag of one byte of the application class: below 80.
fn of_application(tag: u8) -> Option<&'static str>
    ensures { is_some result ≡ (is_short tag && nat_le tag 127) }
{
    match tag {
        0x42 => Some("Issuer identification number (IIN)"),
        0x4F => Some("Application identifier (ADF name)"),
        0x50 => Some("Application label"),
        0x56 => Some("Track 1 data"),
        0x57 => Some("Track 2 equivalent data"),
        0x5A => Some("Application primary account number (PAN)"),
        0x61 => Some("Application template"),
        0x6F => Some("File control information (FCI) template"),
        0x70 => Some("READ RECORD response message template"),
        0x71 => Some("Issuer script template 1"),
        0x72 => Some("Issuer script template 2"),
        0x73 => Some("Directory discretionary template"),
        0x77 => Some("Response message template format 2"),
        _ => None,
    }
}

/// The name of a tag of one byte from 80 to 8F.
fn to_8f(tag: u8) -> Option<&'static str>
    ensures { is_some result ≡ (is_short tag && nat_le 128 tag && nat_le tag 143) }
{
    match tag {
        0x80 => Some("Response message template format 1"),
        0x81 => Some("Amount, authorised (binary)"),
        0x82 => Some("Application interchange profile"),
        0x83 => Some("Command template"),
        0x84 => Some("Dedicated file (DF) name"),
        0x86 => Some("Issuer script command"),
        0x87 => Some("Application priority indicator"),
        0x88 => Some("Short file identifier (SFI)"),
        0x89 => Some("Authorisation code"),
        0x8A => Some("Authorisation response code"),
        0x8C => Some("Card risk management data object list 1 (CDOL1)"),
        0x8D => Some("Card risk management data object list 2 (CDOL2)"),
        0x8E => Some("Cardholder verification method (CVM) list"),
        0x8F => Some("Certification authority public key index"),
        _ => None,
    }
}

/// The name of a tag of one byte from 90 on.
fn from_90(tag: u8) -> Option<&'static str>
    ensures { is_some result ≡ (is_short tag && nat_le 144 tag) }
{
    match tag {
        0x90 => Some("Issuer public key certificate"),
        0x91 => Some("Issuer authentication data"),
        0x92 => Some("Issuer public key remainder"),
        0x93 => Some("Signed static application data"),
        0x94 => Some("Application file locator (AFL)"),
        0x95 => Some("Terminal verification results"),
        0x97 => Some("Transaction certificate data object list (TDOL)"),
        0x98 => Some("Transaction certificate (TC) hash value"),
        0x99 => Some("Transaction personal identification number (PIN) data"),
        0x9A => Some("Transaction date"),
        0x9B => Some("Transaction status information"),
        0x9C => Some("Transaction type"),
        0x9D => Some("Directory definition file (DDF) name"),
        0xA5 => Some("File control information (FCI) proprietary template"),
        _ => None,
    }
}

/// The name of a tag of one byte.
fn short(tag: u8) -> Option<&'static str>
    ensures { is_some result ≡ is_short tag }
{
    match tag {
        0..=0x7F => of_application(tag),
        0x80..=0x8F => to_8f(tag),
        _ => from_90(tag),
    }
}

/// The name of a tag that begins with 5F, by its second byte.
fn behind_5f(tag: u8) -> Option<&'static str>
    ensures { is_some result ≡ is_behind_5f tag }
{
    match tag {
        0x20 => Some("Cardholder name"),
        0x24 => Some("Application expiration date"),
        0x25 => Some("Application effective date"),
        0x28 => Some("Issuer country code"),
        0x2A => Some("Transaction currency code"),
        0x2D => Some("Language preference"),
        0x30 => Some("Service code"),
        0x34 => Some("Application PAN sequence number"),
        0x36 => Some("Transaction currency exponent"),
        0x50 => Some("Issuer URL"),
        0x53 => Some("International bank account number (IBAN)"),
        0x54 => Some("Bank identifier code (BIC)"),
        0x55 => Some("Issuer country code (alpha2)"),
        0x56 => Some("Issuer country code (alpha3)"),
        _ => None,
    }
}

/// The name of a tag from 9F00 to 9F0F, by its second byte.
fn to_9f0f(tag: u8) -> Option<&'static str>
    ensures { is_some result ≡ (is_behind_9f tag && nat_le tag 15) }
{
    match tag {
        0x01 => Some("Acquirer identifier"),
        0x02 => Some("Amount, authorised (numeric)"),
        0x03 => Some("Amount, other (numeric)"),
        0x04 => Some("Amount, other (binary)"),
        0x05 => Some("Application discretionary data"),
        0x06 => Some("Application identifier (AID), terminal"),
        0x07 => Some("Application usage control"),
        0x08 => Some("Application version number, card"),
        0x09 => Some("Application version number, terminal"),
        0x0B => Some("Cardholder name extended"),
        0x0D => Some("Issuer action code, default"),
        0x0E => Some("Issuer action code, denial"),
        0x0F => Some("Issuer action code, online"),
        _ => None,
    }
}

/// The name of a tag from 9F10 to 9F1F, by its second byte.
fn to_9f1f(tag: u8) -> Option<&'static str>
    ensures { is_some result ≡ (is_behind_9f tag && nat_le 16 tag && nat_le tag 31) }
{
    match tag {
        0x10 => Some("Issuer application data"),
        0x11 => Some("Issuer code table index"),
        0x12 => Some("Application preferred name"),
        0x13 => Some("Last online application transaction counter (ATC) register"),
        0x14 => Some("Lower consecutive offline limit"),
        0x15 => Some("Merchant category code"),
        0x16 => Some("Merchant identifier"),
        0x17 => Some("PIN try counter"),
        0x18 => Some("Issuer script identifier"),
        0x1A => Some("Terminal country code"),
        0x1B => Some("Terminal floor limit"),
        0x1C => Some("Terminal identification"),
        0x1D => Some("Terminal risk management data"),
        0x1E => Some("Interface device (IFD) serial number"),
        0x1F => Some("Track 1 discretionary data"),
        _ => None,
    }
}

/// The name of a tag from 9F20 to 9F3F, by its second byte.
fn to_9f3f(tag: u8) -> Option<&'static str>
    ensures { is_some result ≡ (is_behind_9f tag && nat_le 32 tag && nat_le tag 63) }
{
    match tag {
        0x20 => Some("Track 2 discretionary data"),
        0x21 => Some("Transaction time"),
        0x23 => Some("Upper consecutive offline limit"),
        0x26 => Some("Application cryptogram"),
        0x27 => Some("Cryptogram information data"),
        0x33 => Some("Terminal capabilities"),
        0x34 => Some("Cardholder verification method (CVM) results"),
        0x35 => Some("Terminal type"),
        0x36 => Some("Application transaction counter (ATC)"),
        0x37 => Some("Unpredictable number"),
        0x38 => Some("Processing options data object list (PDOL)"),
        0x39 => Some("Point of service (POS) entry mode"),
        0x3A => Some("Amount, reference currency"),
        0x3C => Some("Transaction reference currency code"),
        _ => None,
    }
}

/// The name of a tag from 9F40 on, by its second byte.
fn from_9f40(tag: u8) -> Option<&'static str>
    ensures { is_some result ≡ (is_behind_9f tag && nat_le 64 tag) }
{
    match tag {
        0x40 => Some("Additional terminal capabilities"),
        0x41 => Some("Transaction sequence counter"),
        0x42 => Some("Application currency code"),
        0x44 => Some("Application currency exponent"),
        0x45 => Some("Data authentication code"),
        0x46 => Some("ICC public key certificate"),
        0x47 => Some("ICC public key exponent"),
        0x48 => Some("ICC public key remainder"),
        0x49 => Some("Dynamic data authentication data object list (DDOL)"),
        0x4A => Some("Static data authentication tag list"),
        0x4B => Some("Signed dynamic application data"),
        0x4C => Some("ICC dynamic number"),
        0x4D => Some("Log entry"),
        0x4E => Some("Merchant name and location"),
        0x4F => Some("Log format"),
        0x6B => Some("Track 2 data"),
        _ => None,
    }
}

/// The name of a tag that begins with 9F, by its second byte.
fn behind_9f(tag: u8) -> Option<&'static str>
    ensures { is_some result ≡ is_behind_9f tag }
{
    match tag {
        0..=0x0F => to_9f0f(tag),
        0x10..=0x1F => to_9f1f(tag),
        0x20..=0x3F => to_9f3f(tag),
        _ => from_9f40(tag),
    }
}

/// The name of a tag, its bytes taken as a number: 0x9F02 is `Amount, authorised (numeric)`.
pub fn tag_name(tag: u32) -> Option<&'static str>
    // A name exactly for the listed tags: of one byte, of two that begin with 5F or 9F, and BF0C.
    ensures { is_some result ≡ has_name tag }
{
    let last = (tag % 256) as u8;
    match tag / 256 {
        0 => short(last),
        0x5F => behind_5f(last),
        0x9F => behind_9f(last),
        0xBF if last == 0x0C => Some("File control information (FCI) issuer discretionary data"),
        _ => None,
    }
}

/// Whether the value of a tag is card data: a track, an account number, its sequence number or expiry, a service code,
/// a name or PIN data.
pub fn is_card_data(tag: u32) -> bool
    // Card data are exactly the values of the tags 56, 57, 5A, 5F20, 5F24, 5F30, 5F34, 5F53, 99,
    // 9F0B, 9F1F, 9F20 and 9F6B.
    ensures { result ≡ is_card_data tag }
{
    matches!(
        tag,
        0x56 | 0x57
            | 0x5A
            | 0x99
            | 0x5F20
            | 0x5F24
            | 0x5F30
            | 0x5F34
            | 0x5F53
            | 0x9F0B
            | 0x9F1F
            | 0x9F20
            | 0x9F6B
    )
}

/// Whether the tag is one of a template that has a name.
fn is_named_template(tag: u32) -> bool
    ensures { result ≡ is_named_template tag }
{
    matches!(tag, 0x61 | 0x6F..=0x73 | 0x77 | 0xA5 | 0xBF0C)
}

/// Whether a bystander may read the value of a tag: it has a name, is no card data, and no template, which may hold
/// some.
pub(crate) fn is_shown(tag: u32) -> bool
    ensures { result ≡ is_shown tag }
{
    tag_name(tag).is_some() && !(is_card_data(tag) || is_named_template(tag))
}
