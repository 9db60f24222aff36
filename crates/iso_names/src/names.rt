//! A network's own names, laid over those of an edition.

ghost use Rattle.std.specs.Prelude.{◌≡◌, ℕ, List, [], is_some, true, option_map, map, None, Some, IfOk, IfErr, IfSome};
ghost use Rattle.iso_names.specs.Named.{has_name};

use crate::fault::NamesFault;
use crate::naming::name;
use crate::own::{OwnName, own_name};
use crate::reading::{own_names, value_of};
use std::alloc::Global;
use std::marker::Model;

/// The names of a network's elements: its own, and those of an edition for the others.
#[derive(Drop)]
pub struct Names {
    version: u8,
    own: Vec<OwnName>,
}

impl Model for Names {
    ghost use Rattle.std.specs.Prelude.{map};
    ghost use Rattle.iso_names.specs.Own.{NetworkNames, own_view};

    ghost Value = { NetworkNames };

    ghost view = { λ n. record { version = n.version; own = map own_view n.own.items } };
}

impl Names {
    ghost use Rattle.iso_names.specs.Own.{own_name};
    ghost use Rattle.iso_names.specs.Document.{IsNamesOf, IsNotJson, IsWrong, wrong_of, is_of_text};

    /// The names of an edition (version 0 is 1987, 1 is 1993, 2 is 2003) and none of the network's own.
    pub fn new(alloc: Global, version: u8) -> Names
        // The edition is that of the given version.
        ensures version { result.version ≡ version }
        // The network has no names of its own.
        ensures own { result.own ≡ [] }
    {
        Names {
            version,
            own: Vec::new(alloc),
        }
    }

    /// The names of a JSON text, an object from element numbers to names as `{"48":"Merchant data"}`, laid over those
    /// of an edition. A refusal tells the first fault: no JSON, no object, and then key by key, in the order of their
    /// bytes, a key that is no element's number, a name that is no text, a name with a control character. Of a key
    /// that is given twice the last name counts. Where it is refused, or memory ran out, nothing is left behind.
    pub fn from_json(alloc: Global, version: u8, text: &[u8]) -> Result<Names, NamesFault>
        // At `Ok` the text is JSON, and the network's own names are those that it says, over those
        // of the version's edition.
        ensures ok { IfOk result (IsNamesOf version text.now) }
        // `NotJson` comes only of a text that is no JSON.
        ensures not_json { IfErr result (λ e. is_of_text e ≡ true → IsNotJson text.now) }
        // Any other fault, memory aside, is the first thing that is wrong with what the JSON says.
        ensures wrong { IfErr result (λ e. IfSome (wrong_of e) (IsWrong text.now)) }
    {
        let value = value_of(alloc, text)?;
        Ok(Names {
            version,
            own: own_names(alloc, &value)?,
        })
    }

    /// The name of an element: the network's own one first, else the edition's.
    pub fn of(&self, element: u8) -> Option<&str>
        // An element that the network names has that name, the first one of it.
        ensures own { (text : List ℕ) → own_name self.now.own element ≡ Some text
            → option_map (λ name. name.now) result ≡ Some text }
        // An element that the network doesn't name has a name exactly where the edition names it.
        ensures edition { own_name self.now.own element ≡ None
            → is_some result ≡ has_name self.now.version element }
    {
        match own_name(&self.own, element) {
            Some(own) => Some(own),
            None => name(self.version, element),
        }
    }
}
