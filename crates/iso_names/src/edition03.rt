//! The names of ISO 8583:2003, where they are others than those of 1993.

ghost use Rattle.std.specs.Prelude.{◌≡◌, is_some};
ghost use Rattle.iso_names.specs.Named.{has_name03};

use crate::edition93::name93;

/// The name of an element. Those that the list of [`crate::name`] leaves out have none.
pub fn name03(element: u8) -> Option<&'static str>
    // A name exactly for the elements 2 to 128 but for 50, 51, 65, 74 to 90 and 105 to 110.
    ensures { is_some result ≡ has_name03 element }
{
    match element {
        5 => Some("Amount, reconciliation"),
        18 => Some("Message error indicator"),
        21 => Some("Transaction life cycle identification data"),
        26 => Some("Merchant category code"),
        27 => Some("Point of service capability"),
        34 => Some("Electronic commerce data"),
        49 => Some("Verification data"),
        54 => Some("Amounts, additional"),
        97 => Some("Amount, net reconciliation"),
        104 => Some("Transaction specific data"),
        50 | 51 | 74..=90 | 105..=110 => None,
        _ => name93(element),
    }
}
