//! Messages.

ghost use Rattle.std.specs.Prelude.{◌≡◌, ◌<◌, ◌≤◌, ◌^◌, ◌++◌, ◌∷◌, [], ◌↔◌};
ghost use Rattle.std.specs.Prelude.{ℕ, All, true, false, IfOk, OnOk, OnErr, IsTrue, IsOkUnless};
ghost use Rattle.std.specs.Prelude.{MatchOption, Some, None};
ghost use Rattle.iso_parts.specs.Numbers.{is_element};
ghost use Rattle.iso_parts.specs.Bitmap.{contains};
ghost use Rattle.iso_parts.specs.Mti.{mti_number};
ghost use Rattle.iso_wire.specs.Contents.{Contents};
ghost use Rattle.iso_wire.specs.Debugging.{debug_message};
ghost use Rattle.iso_wire.specs.Decimal.{decimal, number_at};
ghost use Rattle.iso_wire.specs.Elements.{value_in, has, IsBelow, put, without};
ghost use Rattle.iso_wire.specs.Ends.{IsSame};
ghost use Rattle.iso_wire.specs.LookUps.{ChangesAlone};
ghost use Rattle.iso_table.specs.Layout.{AreGood};
ghost use Rattle.iso_wire.specs.Reading.{message_at, Unpacks};
ghost use Rattle.iso_wire.specs.Unpacking.{read_into};
ghost use Rattle.iso_wire.specs.Taking.{IsRead};
ghost use Rattle.iso_wire.specs.Equality.{same_contents, same_contents_equiv};
ghost use Rattle.std.specs.Cmp.{partial_equiv_from_equiv};

use crate::building::build_into;
use crate::debugging::{write_elements, write_type};
use crate::decimal::{number_in, write_decimal};
use crate::elements::Elements;
use crate::fault::{SetFault, UnpackFault};
use crate::iteration::Iter;
use crate::unpacking::read_message;
use iso_parts::{Bitmap, Mti, is_element};
use iso_table::Table;
use std::alloc::{AllocError, Global};
use std::fmt;
use std::marker::Model;

/// A message: its type, and its elements by their numbers. Its `Debug` shows what a bystander may read.
#[derive(Drop)]
pub struct Message {
    mti: Mti,
    elements: Elements,
}

impl Model for Message {
    ghost use Rattle.std.specs.Prelude.{◌≡◌};
    ghost use Rattle.iso_wire.specs.Contents.{Contents};

    ghost Value = { Contents };

    ghost use Rattle.iso_parts.specs.Mti.{mti_number};
    ghost use Rattle.iso_wire.specs.Elements.{IsAscending};
    ghost use Rattle.iso_wire.specs.Ends.{views, IsWhole, IsNumbered};

    ghost view = { λ m. record { mti = mti_number m.mti; elements = views m.elements } };

    ghost invariant = { λ m. IsWhole m.elements × IsAscending 2 (views m.elements)
        × IsNumbered m.elements };
}

impl fmt::Debug for Message {
    ghost debug_output = { λ m. Some (debug_message m) };

    fn fmt<W: fmt::Write>(&self, f: &mut fmt::Formatter<W>) -> fmt::Result {
        write!(f, "Message {{ mti: ")?;
        write_type(self.mti(), f)?;
        write_elements(self.iter(), f)?;
        write!(f, " }}")
    }
}

/// The same elements, in memory of their own.
fn copy_of(elements: &Elements) -> Result<Elements, AllocError>
    ensures same { IfOk result (λ copy. IsSame elements.now copy) }
{
    let alloc = *elements.values.allocator();
    let values = Vec::from_slice(alloc, &elements.values)?;
    let ends = Vec::from_slice(alloc, &elements.ends)?;
    Ok(Elements {
        values,
        ends,
        numbers: elements.numbers,
    })
}

impl Clone for Message {
    ghost is_clone = { λ m copy. copy ≡ m };

    fn clone(&self) -> Result<Message, AllocError> {
        let elements = copy_of(&self.elements)?;
        Ok(Message {
            mti: self.mti,
            elements,
        })
    }
}

impl PartialEq for Message {
    ghost eq = { same_contents };

    ghost laws = { partial_equiv_from_equiv same_contents_equiv };

    fn eq(&self, other: &Message) -> bool
        // The type and the elements are compared.
        ensures same { result ≡ same_contents self.now other.now }
        // It is true exactly where the messages are equal.
        ensures equal { IsTrue result ↔ (self.now ≡ other.now) }
    {
        self.equals(other)
    }
}

impl Eq for Message {
    ghost laws = { same_contents_equiv };
}

impl Message {
    ghost use Rattle.iso_wire.specs.Elements.{IsAscending};
    ghost use Rattle.iso_wire.specs.Ends.{views, IsWhole, IsNumbered};

    /// A message of that type with no elements. Takes no memory.
    pub fn new(alloc: Global, mti: Mti) -> Message
        ensures { result ≡ record { mti = mti_number mti; elements = [] } }
    {
        Message {
            mti,
            elements: Elements::new(alloc),
        }
    }

    /// A message of that type with no elements, and room for so many elements whose values have so many bytes.
    pub fn with_room(
        alloc: Global,
        mti: Mti,
        elements: usize,
        bytes: usize,
    ) -> Result<Message, AllocError>
        ensures { IfOk result (λ made. made ≡ record { mti = mti_number mti; elements = [] }) }
    {
        let elements = Elements::with_room(alloc, elements, bytes)?;
        Ok(Message { mti, elements })
    }

    /// Makes it a message of that type with no elements, and with room for so many elements whose values have so many
    /// bytes. The memory that it has is kept, and is enough where it has the room.
    pub fn start_over(&mut self, mti: Mti, elements: usize, bytes: usize) -> Result<(), AllocError>
        // Whether memory suffices or not, the message then has this type and no elements.
        ensures { self.new ≡ record { mti = mti_number mti; elements = [] } }
    {
        self.mti = mti;
        self.elements.start_over(elements, bytes)
    }

    /// The message of that type with those elements.
    pub(crate) fn from_elements(mti: Mti, elements: Elements) -> Message
        requires whole { IsWhole elements }
        requires ascending { IsAscending 2 (views elements) }
        requires numbered { IsNumbered elements }
        ensures { result ≡ record { mti = mti_number mti; elements = views elements } }
    {
        Message { mti, elements }
    }

    /// Reads the message that the bytes begin with, in place of what it was and in the memory that it has, where that is
    /// enough, and gives how many bytes it takes. After a fault it has its type and no elements.
    pub(crate) fn read(&mut self, table: &Table, bytes: &[u8]) -> Result<usize, UnpackFault>
        ensures exact { Unpacks (read_into self.new result) (message_at table.now bytes.now) }
        ensures emptied { OnErr result (self.new ≡ record self.old { elements = [] }) }
        ensures good { AreGood table.now.rows }
    {
        match read_message(table, bytes, &mut self.elements) {
            Ok((mti, end)) => {
                self.mti = mti;
                Ok(end)
            }
            Err(fault) => {
                self.elements.clear();
                Err(fault)
            }
        }
    }

    /// Builds the message that the bytes begin with, as [`Message::read`] reads it. The caller has judged it good.
    pub(crate) fn build(&mut self, table: &Table, bytes: &[u8]) -> Result<usize, UnpackFault>
        requires read { IsRead (message_at table.now bytes.now) }
        ensures exact { Unpacks (read_into self.new result) (message_at table.now bytes.now) }
        ensures emptied { OnErr result (self.new ≡ record self.old { elements = [] }) }
    {
        match build_into(table, bytes, &mut self.elements) {
            Ok((built, end)) => {
                self.mti = built;
                Ok(end)
            }
            Err(fault) => {
                self.elements.clear();
                Err(fault)
            }
        }
    }

    /// Makes it a message with its type and no elements. Its memory is kept.
    pub(crate) fn empty(&mut self)
        ensures { self.new ≡ record self.old { elements = [] } }
    {
        self.elements.clear();
    }

    /// The elements alone, whose memory can hold others.
    pub(crate) fn into_elements(self) -> Elements
        ensures { views result ≡ self.elements }
    {
        self.elements
    }

    /// The message's type. Takes no memory.
    pub fn mti(&self) -> Mti
        ensures { mti_number result ≡ self.now.mti }
    {
        self.mti
    }

    /// The value of an element, if the message has it. Takes no memory.
    pub fn get(&self, n: u8) -> Option<&[u8]>
        ensures { MatchOption result (value_in self.now.elements n ≡ None)
            (λ v. value_in self.now.elements n ≡ Some v.now) }
    {
        self.elements.get(n)
    }

    /// The number that the value of an element writes in 1 to 19 decimal digits; leading zeros don't count. `None` where
    /// the message hasn't the element, or its value is anything else. Takes no memory.
    pub fn get_number(&self, n: u8) -> Option<u64>
        ensures { result ≡ number_at self.now.elements n }
    {
        let value = self.get(n)?;
        number_in(value, 1, 19)
    }

    /// Puts a value at its number, in place of the one that was there.
    pub fn set(&mut self, n: u8, value: &[u8]) -> Result<(), SetFault>
        // At `Ok` the element has that value, and the type and every other element stay.
        ensures ok { OnOk result
            (self.new ≡ record self.old { elements = put n value.now self.old.elements }) }
        // `get` gives that value then, and of every other element what it gave before.
        ensures alone { OnOk result
            (ChangesAlone n (Some value.now) self.old.elements self.new.elements) }
        // `BadNumber` comes, with the number, where no element may have it: 0, 1, 65 and above 128.
        ensures bad_number { is_element n ≡ false → result ≡ Err (SetFault.BadNumber n) }
        // At a number that an element may have, no fault comes but for want of memory.
        ensures memory { is_element n ≡ true → IsOkUnless result SetFault.Memory }
        // After a fault the message is as it was.
        ensures unchanged { OnErr result (self.new ≡ self.old) }
    {
        if !is_element(u16::from(n)) {
            return Err(SetFault::BadNumber(n));
        }
        self.elements.put(n, value)?;
        Ok(())
    }

    /// Sets a number in decimal, with leading zeros up to that many digits.
    pub fn set_number(&mut self, n: u8, v: u64, digits: u8) -> Result<(), SetFault>
        // At least one digit is asked for.
        requires some { 1 ≤ digits }
        // At most 19 digits are asked for.
        requires few { digits ≤ 19 }
        // The number has no more digits than are asked for.
        requires fits { v < 10 ^ digits }
        // At `Ok` the element's value is the number in so many digits, with zeros in front; the
        // type and every other element stay.
        ensures ok { OnOk result
            (self.new ≡ record self.old { elements = put n (decimal digits v) self.old.elements }) }
        // `BadNumber` comes, with the number, where no element may have it: 0, 1, 65 and above 128.
        ensures bad_number { is_element n ≡ false → result ≡ Err (SetFault.BadNumber n) }
        // At a number that an element may have, no fault comes but for want of memory.
        ensures memory { is_element n ≡ true → IsOkUnless result SetFault.Memory }
        // After a fault the message is as it was.
        ensures unchanged { OnErr result (self.new ≡ self.old) }
    {
        let mut room = [0; 19];
        let text = &mut room[..digits as usize];
        write_decimal(text, v);
        self.set(n, text)
    }

    /// Adds an element behind the others.
    pub fn append(&mut self, n: u8, value: &[u8]) -> Result<(), AllocError>
        // The number is one that an element may have: 2 to 64 or 66 to 128.
        requires number { is_element n ≡ true }
        // Each element of the message has a lower number.
        requires behind { IsBelow n self.old.elements }
        // Memory aside, the element stands behind the others; these and the type stay.
        ensures ok { OnOk result
            (self.new ≡ record self.old { elements = self.old.elements ++ (n, value.now) ∷ [] }) }
        // Without memory the message is as it was.
        ensures unchanged { OnErr result (self.new ≡ self.old) }
    {
        self.elements.append(n, value)
    }

    /// Removes an element, and tells whether it was there. Takes no memory.
    pub fn unset(&mut self, n: u8) -> bool
        // True comes exactly where the message had the element.
        ensures found { result ≡ has self.old.elements n }
        // The message hasn't the element any more; its type and every other element stay.
        ensures left { self.new ≡ record self.old { elements = without n self.old.elements } }
        // `get` then gives no value of the element, and of every other one what it gave before.
        ensures alone { ChangesAlone n None self.old.elements self.new.elements }
    {
        self.elements.remove(n)
    }

    /// The numbers of the elements. Takes no memory.
    pub fn elements(&self) -> Bitmap
        ensures { (k : ℕ) → contains result k ≡ has self.now.elements k }
    {
        self.elements.numbers
    }

    /// The elements in ascending order, each by its number and its value. Takes no memory.
    pub fn iter(&self) -> Iter<'_>
        ensures { result ≡ self.now.elements }
    {
        Iter::of(&self.elements)
    }

    /// Whether the other message has the same type and the same elements. Takes no memory.
    pub fn equals(&self, other: &Message) -> bool
        ensures { IsTrue result ↔ (self.now ≡ other.now) }
    {
        self.mti.number() == other.mti.number() && self.elements.equals(&other.elements)
    }

    /// The elements, as they are kept.
    pub(crate) fn parts(&self) -> &Elements
        ensures elements { views result.now ≡ self.now.elements }
        ensures whole { IsWhole result.now }
        ensures ascending { IsAscending 2 self.now.elements }
    {
        &self.elements
    }
}
