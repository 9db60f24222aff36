//! The names of ISO 8583:1987.

ghost use Rattle.std.specs.Prelude.{◌≡◌, is_some, nat_le, ◌&&◌};
ghost use Rattle.iso_parts.specs.Numbers.{is_element};

/// The name of an element from 2 to 16.
fn to_16(element: u8) -> Option<&'static str>
    ensures { is_some result ≡ (nat_le 2 element && nat_le element 16) }
{
    match element {
        2 => Some("Primary account number (PAN)"),
        3 => Some("Processing code"),
        4 => Some("Amount, transaction"),
        5 => Some("Amount, settlement"),
        6 => Some("Amount, cardholder billing"),
        7 => Some("Transmission date and time"),
        8 => Some("Amount, cardholder billing fee"),
        9 => Some("Conversion rate, settlement"),
        10 => Some("Conversion rate, cardholder billing"),
        11 => Some("System trace audit number"),
        12 => Some("Time, local transaction"),
        13 => Some("Date, local transaction"),
        14 => Some("Date, expiration"),
        15 => Some("Date, settlement"),
        16 => Some("Date, conversion"),
        _ => None,
    }
}

/// The name of an element from 17 to 32.
fn to_32(element: u8) -> Option<&'static str>
    ensures { is_some result ≡ (nat_le 17 element && nat_le element 32) }
{
    match element {
        17 => Some("Date, capture"),
        18 => Some("Merchant type"),
        19 => Some("Acquiring institution country code"),
        20 => Some("PAN extended, country code"),
        21 => Some("Forwarding institution country code"),
        22 => Some("Point of service entry mode"),
        23 => Some("Card sequence number"),
        24 => Some("Network international identifier"),
        25 => Some("Point of service condition code"),
        26 => Some("Point of service PIN capture code"),
        27 => Some("Authorization identification response length"),
        28 => Some("Amount, transaction fee"),
        29 => Some("Amount, settlement fee"),
        30 => Some("Amount, transaction processing fee"),
        31 => Some("Amount, settlement processing fee"),
        32 => Some("Acquiring institution identification code"),
        _ => None,
    }
}

/// The name of an element from 33 to 48.
fn to_48(element: u8) -> Option<&'static str>
    ensures { is_some result ≡ (nat_le 33 element && nat_le element 48) }
{
    match element {
        33 => Some("Forwarding institution identification code"),
        34 => Some("Primary account number, extended"),
        35 => Some("Track 2 data"),
        36 => Some("Track 3 data"),
        37 => Some("Retrieval reference number"),
        38 => Some("Authorization identification response"),
        39 => Some("Response code"),
        40 => Some("Service restriction code"),
        41 => Some("Card acceptor terminal identification"),
        42 => Some("Card acceptor identification code"),
        43 => Some("Card acceptor name/location"),
        44 => Some("Additional response data"),
        45 => Some("Track 1 data"),
        46 => Some("Additional data, ISO"),
        47 => Some("Additional data, national"),
        48 => Some("Additional data, private"),
        _ => None,
    }
}

/// The name of an element from 49 to 64.
fn to_64(element: u8) -> Option<&'static str>
    ensures { is_some result ≡ (nat_le 49 element && nat_le element 64) }
{
    match element {
        49 => Some("Currency code, transaction"),
        50 => Some("Currency code, settlement"),
        51 => Some("Currency code, cardholder billing"),
        52 => Some("Personal identification number (PIN) data"),
        53 => Some("Security related control information"),
        54 => Some("Additional amounts"),
        55 => Some("Reserved, ISO (chip data today)"),
        56 => Some("Reserved, ISO"),
        57..=59 => Some("Reserved, national"),
        60..=63 => Some("Reserved, private"),
        64 => Some("Message authentication code"),
        _ => None,
    }
}

/// The name of an element from 66 to 80.
fn to_80(element: u8) -> Option<&'static str>
    ensures { is_some result ≡ (nat_le 66 element && nat_le element 80) }
{
    match element {
        66 => Some("Settlement code"),
        67 => Some("Extended payment code"),
        68 => Some("Receiving institution country code"),
        69 => Some("Settlement institution country code"),
        70 => Some("Network management information code"),
        71 => Some("Message number"),
        72 => Some("Message number, last"),
        73 => Some("Date, action"),
        74 => Some("Credits, number"),
        75 => Some("Credits, reversal number"),
        76 => Some("Debits, number"),
        77 => Some("Debits, reversal number"),
        78 => Some("Transfer, number"),
        79 => Some("Transfer, reversal number"),
        80 => Some("Inquiries, number"),
        _ => None,
    }
}

/// The name of an element from 81 to 96.
fn to_96(element: u8) -> Option<&'static str>
    ensures { is_some result ≡ (nat_le 81 element && nat_le element 96) }
{
    match element {
        81 => Some("Authorizations, number"),
        82 => Some("Credits, processing fee amount"),
        83 => Some("Credits, transaction fee amount"),
        84 => Some("Debits, processing fee amount"),
        85 => Some("Debits, transaction fee amount"),
        86 => Some("Credits, amount"),
        87 => Some("Credits, reversal amount"),
        88 => Some("Debits, amount"),
        89 => Some("Debits, reversal amount"),
        90 => Some("Original data elements"),
        91 => Some("File update code"),
        92 => Some("File security code"),
        93 => Some("Response indicator"),
        94 => Some("Service indicator"),
        95 => Some("Replacement amounts"),
        96 => Some("Message security code"),
        _ => None,
    }
}

/// The name of an element from 97 to 128.
fn to_128(element: u8) -> Option<&'static str>
    ensures { is_some result ≡ (nat_le 97 element && nat_le element 128) }
{
    match element {
        97 => Some("Amount, net settlement"),
        98 => Some("Payee"),
        99 => Some("Settlement institution identification code"),
        100 => Some("Receiving institution identification code"),
        101 => Some("File name"),
        102 => Some("Account identification 1"),
        103 => Some("Account identification 2"),
        104 => Some("Transaction description"),
        105..=111 => Some("Reserved, ISO"),
        112..=119 => Some("Reserved, national"),
        120..=127 => Some("Reserved, private"),
        128 => Some("Message authentication code"),
        _ => None,
    }
}

/// The name of an element.
pub fn name87(element: u8) -> Option<&'static str>
    // A name exactly for the elements 2 to 128 but for 65.
    ensures { is_some result ≡ is_element element }
{
    match element {
        0..=16 => to_16(element),
        17..=32 => to_32(element),
        33..=48 => to_48(element),
        49..=64 => to_64(element),
        65..=80 => to_80(element),
        81..=96 => to_96(element),
        _ => to_128(element),
    }
}
