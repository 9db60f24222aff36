//! Own names, one by one.

ghost use Rattle.std.specs.Prelude.{◌≡◌, option_map, map};
ghost use Rattle.iso_names.specs.Own.{own_view, own_name};

/// An element and the network's own name of it.
#[derive(Drop)]
pub struct OwnName {
    /// The element.
    pub element: u8,
    /// Its name.
    pub name: String,
}

/// The first own name of an element.
pub fn own_name(own: &[OwnName], element: u8) -> Option<&str>
    // It is the name in the element's first row, and none exactly where the element has no row.
    ensures { option_map (λ name. name.now) result ≡ own_name (map own_view own.now) element }
{
    for name in own {
        if name.element == element {
            return Some(name.name.as_str());
        }
    }
    None
}
