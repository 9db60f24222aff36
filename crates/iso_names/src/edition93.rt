//! The names of ISO 8583:1993, where they are others than those of 1987.

ghost use Rattle.std.specs.Prelude.{◌≡◌, is_some};
ghost use Rattle.iso_parts.specs.Numbers.{is_element};

use crate::edition87::name87;

/// The name of an element of the primary bitmap.
fn primary(element: u8) -> Option<&'static str>
    ensures { is_some result ≡ is_element element }
{
    match element {
        12 => Some("Date and time, local transaction"),
        13 => Some("Date, effective"),
        22 => Some("Point of service data code"),
        24 => Some("Function code"),
        25 => Some("Message reason code"),
        26 => Some("Card acceptor business code"),
        28 => Some("Date, reconciliation"),
        29 => Some("Reconciliation indicator"),
        30 => Some("Amounts, original"),
        31 => Some("Acquirer reference data"),
        39 => Some("Action code"),
        40 => Some("Service code"),
        46 => Some("Amounts, fees"),
        55 => Some("Integrated circuit card data"),
        56 => Some("Original data elements"),
        57 => Some("Authorization life cycle code"),
        58 => Some("Authorizing agent institution identification code"),
        _ => name87(element),
    }
}

/// The name of an element of the secondary bitmap.
fn secondary(element: u8) -> Option<&'static str>
    ensures { is_some result ≡ is_element element }
{
    match element {
        66 => Some("Amounts, original fees"),
        70 => Some("Country code, authorizing agent institution"),
        72 => Some("Data record"),
        82 => Some("Inquiries, reversal number"),
        83 => Some("Payments, number"),
        84 => Some("Payments, reversal number"),
        85 => Some("Fee collections, number"),
        90 => Some("Authorizations, reversal number"),
        91 => Some("Country code, transaction destination institution"),
        92 => Some("Country code, transaction originator institution"),
        93 => Some("Transaction destination institution identification code"),
        94 => Some("Transaction originator institution identification code"),
        95 => Some("Card issuer reference data"),
        96 => Some("Key management data"),
        105 => Some("Credits, chargeback amount"),
        106 => Some("Debits, chargeback amount"),
        107 => Some("Credits, chargeback number"),
        108 => Some("Debits, chargeback number"),
        109 => Some("Credits, fee amounts"),
        110 => Some("Debits, fee amounts"),
        _ => name87(element),
    }
}

/// The name of an element.
pub fn name93(element: u8) -> Option<&'static str>
    // A name exactly for the elements 2 to 128 but for 65.
    ensures { is_some result ≡ is_element element }
{
    match element {
        0..=64 => primary(element),
        _ => secondary(element),
    }
}
