//! The elements of a message, their values one after another in one buffer.

ghost use Rattle.std.specs.Prelude.{◌≡◌, ◌+◌, ◌-◌, ◌^◌, ◌<◌, ◌≤◌, ◌↔◌, ◌++◌, ◌∷◌, []};
ghost use Rattle.std.specs.Prelude.{All, length, map, take, drop};
ghost use Rattle.std.specs.Prelude.{vec_len, vec_capacity, IsTrue, true, IfOk, OnOk, OnErr, MatchOption, Some, None};
ghost use Rattle.iso_parts.specs.Numbers.{is_element};
ghost use Rattle.iso_wire.specs.Elements.{value_in, has, IsAscending, IsBelow, put, without};
ghost use Rattle.iso_wire.specs.Ends.{views, last_end, shifted_end, Ascend, IsWhole, IsNumbered, Adds, IsMadeOf, IsSame};

use iso_parts::Bitmap;
use std::alloc::{AllocError, Global};

/// Elements in ascending order: the bytes of their values, where in them each value ends, and the set of their numbers.
#[derive(Drop)]
pub struct Elements {
    pub values: Vec<u8>,
    pub ends: Vec<usize>,
    pub numbers: Bitmap,
}

/// Where the value behind the first `at` begins.
fn start_of(ends: &[usize], at: usize) -> usize
    requires { at ≤ length ends.now }
    ensures { result ≡ last_end 0 (take at ends.now) }
{
    if at == 0 { 0 } else { ends[at - 1] }
}

/// Moves ends, where bytes before them gave way to others.
fn move_ends(ends: &mut [usize], removed: usize, added: usize)
    requires { All (λ e. (removed ≤ e) × (e - removed + added < 2 ^ 64)) ends.old }
    ensures { ends.new ≡ map (shifted_end removed added) ends.old }
{
    for end in ends.iter_mut() {
        *end = *end - removed + added;
    }
}

/// Moves the ends behind the first `at`.
fn move_later(ends: &mut [usize], at: usize, removed: usize, added: usize)
    requires within { at ≤ length ends.old }
    requires fits { All (λ e. (removed ≤ e) × (e - removed + added < 2 ^ 64)) (drop at ends.old) }
    ensures { ends.new ≡ take at ends.old ++ map (shifted_end removed added) (drop at ends.old) }
{
    move_ends(&mut ends[at..], removed, added);
}

/// Of the bytes from `start` on, the first `count` go behind the others.
fn rotate_tail(bytes: &mut [u8], start: usize, count: usize)
    requires { start + count ≤ length bytes.old }
    ensures { bytes.new ≡ take start bytes.old
        ++ (drop (start + count) bytes.old ++ take count (drop start bytes.old)) }
{
    bytes[start..].rotate_left(count);
}

/// Takes bytes out of the buffer.
fn cut(values: &mut Vec<u8>, start: usize, count: usize)
    requires { start + count ≤ length values.old.items }
    ensures items { values.new.items
        ≡ take start values.old.items ++ drop (start + count) values.old.items }
    ensures capacity { vec_capacity values.new ≡ vec_capacity values.old }
{
    rotate_tail(values, start, count);
    values.truncate(values.len() - count);
}

/// Puts bytes into the buffer, which has room for them.
fn paste(values: &mut Vec<u8>, start: usize, value: &[u8])
    requires within { start ≤ length values.old.items }
    requires room { vec_len values.old + length value.now ≤ vec_capacity values.old }
    ensures { values.new.items
        ≡ take start values.old.items ++ (value.now ++ drop start values.old.items) }
{
    let count = values.len() - start;
    values.extend_from_slice(value).unwrap();
    rotate_tail(values, start, count);
}

/// Whether these are the same ends.
fn same_ends(ends: &[usize], others: &[usize]) -> bool
    ensures { IsTrue result ↔ (ends.now ≡ others.now) }
{
    ends == others
}

/// Whether these are the same bytes.
fn same_bytes(bytes: &[u8], others: &[u8]) -> bool
    ensures { IsTrue result ↔ (bytes.now ≡ others.now) }
{
    bytes == others
}

impl Elements {
    /// No element. Takes no memory.
    pub fn new(alloc: Global) -> Elements
        // There is no element.
        ensures none { views result ≡ [] }
        // Each number of the set has its value, and each byte of the buffer belongs to a value.
        ensures whole { IsWhole result }
        // The set has exactly the numbers of the elements.
        ensures numbered { IsNumbered result }
    {
        Elements {
            values: Vec::new(alloc),
            ends: Vec::new(alloc),
            numbers: Bitmap::new(),
        }
    }

    /// No element, and room for some.
    pub fn with_room(alloc: Global, elements: usize, bytes: usize) -> Result<Elements, AllocError>
        // Memory aside, each number has its value, and each byte of the buffer belongs to a value.
        ensures whole { IfOk result IsWhole }
        // Memory aside, the set has exactly the numbers of the elements.
        ensures numbered { IfOk result IsNumbered }
        // Memory aside, there is no byte of a value, and no end of one.
        ensures empty { IfOk result (λ made. IsMadeOf made [] []) }
        // Memory aside, there is room for the ends of so many values.
        ensures ends_room { IfOk result (λ made. elements ≤ vec_capacity made.ends) }
        // Memory aside, there is room for so many bytes of values.
        ensures values_room { IfOk result (λ made. bytes ≤ vec_capacity made.values) }
    {
        let values = Vec::with_capacity(alloc, bytes)?;
        let ends = Vec::with_capacity(alloc, elements)?;
        let numbers = Bitmap::new();
        Ok(Elements {
            values,
            ends,
            numbers,
        })
    }

    /// Drops all elements. The memory that was there is kept.
    #[inline(always)]
    pub fn clear(&mut self)
        // Then each number has its value, and each byte of the buffer belongs to a value.
        ensures whole { IsWhole self.new }
        // Then the set has exactly the numbers of the elements.
        ensures numbered { IsNumbered self.new }
        // No byte of a value is left, and no end of one.
        ensures empty { IsMadeOf self.new [] [] }
    {
        self.values.clear();
        self.ends.clear();
        self.numbers = Bitmap::new();
    }

    /// Drops all elements and makes room for some. The memory that was there is kept, and is enough where it has the room.
    pub fn start_over(&mut self, elements: usize, bytes: usize) -> Result<(), AllocError>
        // Then each number has its value, and each byte belongs to a value, also without memory.
        ensures whole { IsWhole self.new }
        // Then the set has exactly the numbers of the elements, also without memory.
        ensures numbered { IsNumbered self.new }
        // No byte of a value is left, and no end of one, also without memory.
        ensures empty { IsMadeOf self.new [] [] }
    {
        self.clear();
        self.values.reserve(bytes)?;
        self.ends.reserve(elements)?;
        Ok(())
    }

    /// The value of an element, if it is there: the set of numbers tells this at once.
    pub fn get(&self, n: u8) -> Option<&[u8]>
        // Each number has an end, and every byte belongs to a value.
        requires whole { IsWhole self.now }
        // The set has exactly the numbers of the elements.
        requires numbered { IsNumbered self.now }
        ensures { MatchOption result (value_in (views self.now) n ≡ None)
            (λ v. value_in (views self.now) n ≡ Some v.now) }
    {
        if !self.numbers.has(n) {
            return None;
        }
        let at = self.numbers.count_below(n);
        let start = start_of(&self.ends, at);
        Some(&self.values[start..self.ends[at]])
    }

    /// Makes the bytes behind the last value and so many more, which are still to be copied, the value of the next element.
    #[inline(always)]
    pub fn close_behind(&mut self, waiting: usize) -> Result<(), AllocError>
        // The bytes of all values can be counted.
        requires { length self.old.values.items + waiting < 2 ^ 64 }
        // Memory aside, one value more ends behind those bytes; other ends and the bytes stay.
        ensures ok { OnOk result (IsMadeOf self.new (self.old.ends.items
            ++ (length self.old.values.items + waiting) ∷ []) self.old.values.items) }
        // Without memory the numbers, the ends and the bytes are as before.
        ensures err { OnErr result (IsSame self.old self.new) }
        // The set of numbers stays as it was, with and without memory.
        ensures numbers { self.new.numbers ≡ self.old.numbers }
    {
        let end = self.values.len() + waiting;
        self.ends.push(end)?;
        Ok(())
    }

    /// Makes the bytes behind the last value the value of the next element. Whoever reads all elements of a message knows
    /// the set of their numbers, and puts it there first.
    pub fn close(&mut self) -> Result<(), AllocError>
        // Memory aside, one value more ends where the bytes end; other ends and the bytes stay.
        ensures ok { OnOk result (IsMadeOf self.new
            (self.old.ends.items ++ length self.old.values.items ∷ []) self.old.values.items) }
        // Without memory the numbers, the ends and the bytes are as before.
        ensures err { OnErr result (IsSame self.old self.new) }
        // The set of numbers stays as it was, with and without memory.
        ensures numbers { self.new.numbers ≡ self.old.numbers }
    {
        self.ends.push(self.values.len())?;
        Ok(())
    }

    /// Puts a value of a new element at its place.
    fn insert(&mut self, at: usize, start: usize, n: u8, value: &[u8]) -> Result<(), AllocError>
        requires place { at ≤ length self.old.ends.items }
        requires within { start ≤ length self.old.values.items }
        requires ends { Ascend start (drop at self.old.ends.items) (length self.old.values.items) }
        requires number { is_element n ≡ true }
        ensures ok { OnOk result (IsMadeOf self.new
            (take at self.old.ends.items
            ++ map (shifted_end 0 (length value.now)) (start ∷ drop at self.old.ends.items))
            (take start self.old.values.items ++ (value.now ++ drop start self.old.values.items))) }
        ensures err { OnErr result (IsSame self.old self.new) }
        ensures numbers { OnOk result (Adds self.old.numbers self.new.numbers n) }
    {
        self.ends.reserve(1)?;
        self.values.reserve(value.len())?;
        paste(&mut self.values, start, value);
        self.ends.insert(at, start).unwrap();
        move_later(&mut self.ends, at, 0, value.len());
        self.numbers.set(n);
        Ok(())
    }

    /// Puts a value in place of the one that is there.
    fn replace(
        &mut self,
        at: usize,
        start: usize,
        len: usize,
        value: &[u8],
    ) -> Result<(), AllocError>
        requires place { at ≤ length self.old.ends.items }
        requires within { start + len ≤ length self.old.values.items }
        requires ends { Ascend (start + len) (drop at self.old.ends.items)
            (length self.old.values.items) }
        ensures ok { OnOk result (IsMadeOf self.new
            (take at self.old.ends.items
            ++ map (shifted_end len (length value.now)) (drop at self.old.ends.items))
            (take start self.old.values.items
            ++ (value.now ++ drop (start + len) self.old.values.items))) }
        ensures err { OnErr result (IsSame self.old self.new) }
        ensures kept { self.new.numbers ≡ self.old.numbers }
    {
        self.values.reserve(value.len().saturating_sub(len))?;
        cut(&mut self.values, start, len);
        paste(&mut self.values, start, value);
        move_later(&mut self.ends, at, len, value.len());
        Ok(())
    }

    /// Adds an element behind the others.
    pub fn append(&mut self, n: u8, value: &[u8]) -> Result<(), AllocError>
        // The number is one that an element may have: 2 to 64 or 66 to 128.
        requires number { is_element n ≡ true }
        // Each number of the set has its value, and each byte of the buffer belongs to a value.
        requires whole { IsWhole self.old }
        // The set has exactly the numbers of the elements.
        requires numbered { IsNumbered self.old }
        // Each element that is there has a lower number.
        requires behind { IsBelow n (views self.old) }
        // Memory aside, the element stands behind the others, and these stay.
        ensures ok { OnOk result (views self.new ≡ views self.old ++ (n, value.now) ∷ []) }
        // Then each number has its value, and each byte belongs to a value, also without memory.
        ensures whole { IsWhole self.new }
        // Then the set has exactly the numbers of the elements, also without memory.
        ensures numbered { IsNumbered self.new }
        // Without memory the numbers, the ends and the bytes are as before.
        ensures err { OnErr result (IsSame self.old self.new) }
    {
        let from = self.values.len();
        self.values.extend_from_slice(value)?;
        match self.close() {
            Ok(()) => {
                self.numbers.set(n);
                Ok(())
            }
            Err(fault) => {
                self.values.truncate(from);
                Err(fault)
            }
        }
    }

    /// Puts a value at its number, in place of the one that was there.
    pub fn put(&mut self, n: u8, value: &[u8]) -> Result<(), AllocError>
        // The number is one that an element may have: 2 to 64 or 66 to 128.
        requires number { is_element n ≡ true }
        // Each number of the set has its value, and each byte of the buffer belongs to a value.
        requires whole { IsWhole self.old }
        // The elements stand in ascending order, with numbers that elements may have.
        requires ascending { IsAscending 2 (views self.old) }
        // The set has exactly the numbers of the elements.
        requires numbered { IsNumbered self.old }
        // Memory aside, the element has that value, at its place in the order; the others stay.
        ensures ok { OnOk result (views self.new ≡ put n value.now (views self.old)) }
        // Then each number has its value, and each byte belongs to a value, also without memory.
        ensures whole { IsWhole self.new }
        // Then the set has exactly the numbers of the elements, also without memory.
        ensures numbered { IsNumbered self.new }
        // Without memory the numbers, the ends and the bytes are as before.
        ensures err { OnErr result (IsSame self.old self.new) }
    {
        let at = self.numbers.count_below(n);
        let start = start_of(&self.ends, at);
        if self.numbers.has(n) {
            let len = self.ends[at] - start;
            self.replace(at, start, len, value)
        } else {
            self.insert(at, start, n, value)
        }
    }

    /// Removes an element, and tells whether it was there. Takes no memory.
    pub fn remove(&mut self, n: u8) -> bool
        // Each number of the set has its value, and each byte of the buffer belongs to a value.
        requires whole { IsWhole self.old }
        // The elements stand in ascending order, with numbers that elements may have.
        requires ascending { IsAscending 2 (views self.old) }
        // The set has exactly the numbers of the elements.
        requires numbered { IsNumbered self.old }
        // True comes exactly where the element was there.
        ensures found { result ≡ has (views self.old) n }
        // The element isn't there any more, and the others stay in their order.
        ensures left { views self.new ≡ without n (views self.old) }
        // Then each number has its value, and each byte of the buffer belongs to a value.
        ensures whole { IsWhole self.new }
        // Then the set has exactly the numbers of the elements.
        ensures numbered { IsNumbered self.new }
    {
        if !self.numbers.has(n) {
            return false;
        }
        let at = self.numbers.count_below(n);
        let start = start_of(&self.ends, at);
        let len = self.ends.remove(at) - start;
        cut(&mut self.values, start, len);
        move_later(&mut self.ends, at, len, 0);
        self.numbers.unset(n);
        true
    }

    /// Whether these are the same values, whatever their numbers.
    fn has_values_of(&self, other: &Elements) -> bool
        ensures { IsTrue result ↔ IsMadeOf self.now other.now.ends.items other.now.values.items }
    {
        same_ends(&self.ends, &other.ends) && same_bytes(&self.values, &other.values)
    }

    /// Whether these are the same elements.
    pub fn equals(&self, other: &Elements) -> bool
        // Each number has an end, and every byte belongs to a value.
        requires whole { IsWhole self.now }
        // The set has exactly the numbers of the elements.
        requires numbered { IsNumbered self.now }
        // Each number of the other set has an end, and every byte there belongs to a value.
        requires other_whole { IsWhole other.now }
        // The other set has exactly the numbers of the other elements.
        requires other_numbered { IsNumbered other.now }
        ensures { IsTrue result ↔ (views self.now ≡ views other.now) }
    {
        self.numbers.equals(&other.numbers) && self.has_values_of(other)
    }
}
