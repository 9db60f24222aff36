//! How many bytes things have at most.

ghost use Rattle.std.specs.Prelude.{◌≡◌, ◌≤◌, ◌*◌, length, sum_by};
ghost use Rattle.iso_table.specs.Sizes.{field_bytes, place_bytes};

use iso_parts::FieldSpec;

/// The bytes of a row's longest field.
fn field_bytes(spec: &FieldSpec) -> u64
    ensures exact { result ≡ field_bytes spec.now }
    ensures bound { result ≤ 131074 }
{
    let size = spec.length.prefix_size() + spec.coding.body_size(spec.max);
    size as u64
}

/// The bytes of the longest field at a place.
fn place_bytes(place: Option<FieldSpec>) -> u64
    ensures exact { result ≡ place_bytes place }
    ensures bound { result ≤ 131074 }
{
    match place {
        None => 0,
        Some(spec) => field_bytes(&spec),
    }
}

/// The bytes of the longest fields at all places.
pub fn places_bytes(places: &[Option<FieldSpec>]) -> u64
    // There are at most 129 places, for the numbers 0 to 128.
    requires { length places.now ≤ 129 }
    // It is the sum of the longest fields of all rows, each of its length and its most characters.
    ensures exact { result ≡ sum_by place_bytes places.now }
    // The sum is at most 129 times 131,074 bytes.
    ensures bound { result ≤ 129 * 131074 }
{
    let mut bytes = 0;
    for place in places {
        bytes += place_bytes(*place);
    }
    bytes
}
