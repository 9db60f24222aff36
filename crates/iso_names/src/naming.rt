//! The names of elements by edition.

ghost use Rattle.std.specs.Prelude.{◌≡◌, is_some};
ghost use Rattle.iso_names.specs.Named.{has_name};

use crate::edition03::name03;
use crate::edition87::name87;
use crate::edition93::name93;

/// The name of an element in the edition of a version: 0 is 1987, 1 is 1993, 2 is 2003. Each element from 2 to 128 but
/// 65 has one, except in 2003, of whose elements 50, 51, 74 to 90 and 105 to 110 no name is known here. Other versions
/// have no names.
pub fn name(version: u8, element: u8) -> Option<&'static str>
    ensures { is_some result ≡ has_name version element }
{
    match version {
        0 => name87(element),
        1 => name93(element),
        2 => name03(element),
        _ => None,
    }
}
