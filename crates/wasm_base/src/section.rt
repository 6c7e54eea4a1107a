// Counted items in a window.
ghost use Rattle.std.specs.Prelude.{⊤, ◌≡◌, ◌+◌, ◌<◌, ◌^◌, Some, IfSome, IfOk, length};
ghost use Rattle.std.specs.Iterator.{at_most, UpTo};
ghost use Rattle.std.specs.Iterator.SizeHint.{IsWithinCount};
ghost use Rattle.wasm_base.specs.Hints.{NotOutOfMemory, Hints};
ghost use Rattle.wasm_base.specs.Item.{Means};
ghost use Rattle.wasm_base.specs.Outcome.{GivesResult};
ghost use Rattle.wasm_base.specs.Owned.{UnlessMemory};
ghost use Rattle.wasm_base.specs.Section.{Section, ReadsSection, section_after, section_in, Items, NextItem, NextItemIn, EndsAtFault, AtItsOffset, all_items, most_items};
ghost use Rattle.wasm_base.specs.Window.{place, KeepsWindow, range_of};

use crate::error::{Error, Result};
use crate::fault::Fault;
use crate::item::FromReader;
use crate::owned::FromReaderIn;
use crate::reader::BinaryReader;
use std::alloc::{AllocError, Global};
use std::fmt;
use std::marker::{Model, PhantomData};
use std::ops::Range;

/// A counted section or list: a window that begins with a count, and then has that many items.
///
/// `new` reads only the count. An iterator reads each item when it reaches it. It returns the first error in place of
/// the item, and then ends.
///
/// ```rattle
/// let numbers = SectionLimited::<u32>::new(BinaryReader::new(&[2, 5, 7], 100))?;
/// assert_eq!(rt; numbers.count(), 2);
/// let mut sum = 0;
/// for number in numbers {
///     sum += number?;
/// }
/// assert_eq!(rt; sum, 12);
/// ```
///
/// (Core specification, Binary format, Modules, Sections.)
pub struct SectionLimited<'a, T> {
    reader: BinaryReader<'a>,
    count: u32,
    item: PhantomData<T>,
}

impl<'a, T> Model for SectionLimited<'a, T> {
    ghost use Rattle.wasm_base.specs.Section.{Section};

    ghost Value = { Section };

    ghost view = { λ s. record { reader = s.reader; count = s.count } };
}

// By hand, so that nothing is asked of `T`.
impl<'a, T> Drop for SectionLimited<'a, T> {
    fn drop(self) {
        let SectionLimited {
            reader: _,
            count: _,
            item: _,
        } = self;
    }
}

impl<'a, T> fmt::Debug for SectionLimited<'a, T> {
    fn fmt<W: fmt::Write>(&self, f: &mut fmt::Formatter<W>) -> fmt::Result {
        f.debug_struct("SectionLimited")
            .field("count", &self.count)
            .field("range", &self.range())
            .finish()
    }
}

impl<'a, T> Clone for SectionLimited<'a, T> {
    ghost is_clone = { λ section copy. copy ≡ section };

    ghost is_infallible = { λ _. ⊤ };

    fn clone(&self) -> std::result::Result<Self, AllocError> {
        Ok(SectionLimited {
            reader: self.reader.clone()?,
            count: self.count,
            item: PhantomData,
        })
    }
}

impl<'a, T> SectionLimited<'a, T> {
    /// Reads the count, a LEB128 `u32`, and returns the section. No item is read.
    ///
    /// # Errors
    ///
    /// Those of `read_var_u32`.
    #[tactic(auto, unfolding(crate::specs::Section::section_in))]
    pub fn new(mut reader: BinaryReader<'a>) -> Result<Self>
        // Proved: a `SectionLimited` is a window after its count, whose getters return count,
        //   offset and range. The window that it was made of determines it [`gives`, `whole`,
        //   `keeps` of `new`, the clauses of the getters]
        ensures gives { ReadsSection (place reader.entry) result }
        ensures whole { GivesResult (λ section. section) result (section_in reader.entry) }
        ensures keeps { IfOk result (λ section. KeepsWindow reader.entry section.reader) }
        ensures hints { Hints 1 result }
        ensures memory { NotOutOfMemory result }
    {
        let count = reader.read_var_u32()?;
        Ok(SectionLimited {
            reader,
            count,
            item: PhantomData,
        })
    }

    /// Returns the section of a window whose count was read: the reader is after this count. No item is read.
    pub fn after_count(reader: BinaryReader<'a>, count: u32) -> Self
        // Proved: `after_count` is the section with this reader and this count
        ensures { result ≡ section_after reader.entry count }
    {
        SectionLimited {
            reader,
            count,
            item: PhantomData,
        }
    }

    /// Returns the number of items that the section announces, which may be more than it has.
    pub fn count(&self) -> u32
        ensures { result ≡ self.now.count }
    {
        self.count
    }

    /// Returns the offset of the first item, after the count, from the start of the stream.
    ///
    /// If the section was made from an iterator, it is the offset at which the iterator was.
    pub fn original_position(&self) -> u64
        ensures offset { result ≡ (place self.now.reader).offset }
        ensures fits { result + length (place self.now.reader).rest < 2 ^ 64 }
    {
        self.reader.original_position()
    }

    /// Returns a reader over the items, after the count. `after_count` of it is this section again.
    ///
    /// ```rattle
    /// let all = SectionLimited::<u32>::new(BinaryReader::new(&[2, 5, 7], 0))?;
    /// assert_eq!(rt; all.get_binary_reader().remaining_buffer(), [5, 7].as_slice());
    /// ```
    pub fn get_binary_reader(&self) -> BinaryReader<'a>
        // Proved: `get_binary_reader` of a section is its window after the count
        ensures { result ≡ self.now.reader }
    {
        self.reader.clone().unwrap()
    }

    /// Returns the offsets of the whole window, including the count.
    pub fn range(&self) -> Range<u64>
        ensures { result ≡ range_of self.now.reader }
    {
        self.reader.range()
    }

    /// Returns an iterator over the items, each with the offset of its first byte in the stream.
    ///
    /// ```rattle
    /// let numbers = SectionLimited::<u32>::new(BinaryReader::new(&[2, 0x80, 1, 7], 100))?;
    /// let mut items = numbers.into_iter_with_offsets();
    /// assert_eq!(rt; items.next(), Some(Ok((101, 128))));
    /// assert_eq!(rt; items.next(), Some(Ok((103, 7))));
    /// assert_eq!(rt; items.next(), None);
    /// ```
    pub fn into_iter_with_offsets(self) -> SectionLimitedIntoIterWithOffsets<'a, T>
    where
        T: FromReader<'a>,
        ensures items { result ≡ all_items self.entry }
        ensures fits { self.entry.count < 2 ^ 32 }
    {
        SectionLimitedIntoIterWithOffsets {
            items: self.into_iter(),
        }
    }

    /// Returns an iterator over items that own lists, which it allocates with `alloc`.
    ///
    /// ```rattle
    /// use wasm_items::RecGroup;
    /// let window = BinaryReader::new(&[1, 0x60, 0, 0], 0);
    /// for group in SectionLimited::<RecGroup>::new(window)?.into_iter_in(alloc) {
    ///     assert_eq!(rt; group?.types.len(), 1);
    /// }
    /// ```
    pub fn into_iter_in(self, alloc: Global) -> SectionLimitedIntoIterIn<'a, T>
    where
        T: FromReaderIn<'a>,
        ensures items { result ≡ all_items self.entry }
        ensures fits { self.entry.count < 2 ^ 32 }
    {
        SectionLimitedIntoIterIn {
            alloc,
            items: SectionLimitedIntoIter {
                left: self.count,
                section: self,
                ended: false,
            },
        }
    }
}

impl<'a, T: FromReader<'a>> IntoIterator for SectionLimited<'a, T> {
    type Item = Result<T>;

    type IntoIter = SectionLimitedIntoIter<'a, T>;

    // `count` is below 2^32.
    ghost into_iter_gives = { λ section items. (items ≡ all_items section) × (section.count < 2 ^ 32) };

    fn into_iter(self) -> SectionLimitedIntoIter<'a, T> {
        // With the bound on the count, a loop can add up what it reads.
        SectionLimitedIntoIter {
            left: self.count,
            section: self,
            ended: false,
        }
    }
}

impl<'a, T> From<SectionLimitedIntoIter<'a, T>> for SectionLimited<'a, T> {
    ghost from_gives = { λ items section. section ≡ record { reader = items.reader; count = items.count } };

    /// Returns the section of an iterator. Its count is the announced one, and its items are read from the iterator's
    /// position on.
    ///
    /// If the iterator has yielded items, the count is above the number of the remaining ones.
    fn from(items: SectionLimitedIntoIter<'a, T>) -> Self {
        items.into_section()
    }
}

/// An iterator over the items of a section, in order.
///
/// It yields as many items as the section announces. An item's error ends the iteration. If bytes remain after the last
/// item, it yields the error `SizeMismatch` at the first of them, and then ends.
///
/// ```rattle
/// let numbers = SectionLimited::<u32>::new(BinaryReader::new(&[1, 5, 7], 100))?;
/// let mut items = numbers.into_iter();
/// assert_eq!(rt; items.next(), Some(Ok(5)));
/// assert_eq!(rt; items.next(), Some(Err(Error::new(Fault::SizeMismatch, 102))));
/// assert_eq!(rt; items.next(), None);
/// ```
#[derive(Debug)]
pub struct SectionLimitedIntoIter<'a, T> {
    section: SectionLimited<'a, T>,
    left: u32,
    ended: bool,
}

impl<'a, T> Model for SectionLimitedIntoIter<'a, T> {
    ghost use Rattle.wasm_base.specs.Section.{Items};

    ghost Value = { Items };

    ghost view = { λ s. record
        { reader = s.section.reader; count = s.section.count; left = s.left; ended = s.ended } };
}

impl<'a, T> Drop for SectionLimitedIntoIter<'a, T> {
    fn drop(self) {
        let SectionLimitedIntoIter {
            section: _,
            left: _,
            ended: _,
        } = self;
    }
}

impl<'a, T: Clone> Clone for SectionLimitedIntoIter<'a, T> {
    ghost is_clone = { λ items copy. copy ≡ items };

    ghost is_infallible = { λ _. ⊤ };

    fn clone(&self) -> std::result::Result<Self, AllocError> {
        Ok(SectionLimitedIntoIter {
            section: self.section.clone()?,
            left: self.left,
            ended: self.ended,
        })
    }
}

impl<'a, T> SectionLimitedIntoIter<'a, T> {
    /// Returns the offset of the next item, from the start of the stream.
    pub fn original_position(&self) -> u64
        ensures offset { result ≡ (place self.now.reader).offset }
        ensures fits { result + length (place self.now.reader).rest < 2 ^ 64 }
    {
        self.section.original_position()
    }

    // The section, its reader where the iterator is.
    fn into_section(self) -> SectionLimited<'a, T>
        ensures { result ≡ record { reader = self.entry.reader; count = self.entry.count } }
    {
        let SectionLimitedIntoIter {
            section,
            left: _,
            ended: _,
        } = self;
        section
    }
}

impl<'a, T: FromReader<'a>> Iterator for SectionLimitedIntoIter<'a, T> {
    type Item = Result<T>;

    // Proved: `next` over a section returns its items, of any type, up to the first fault, and
    //   after that always nothing. Over items that own lists, `OutOfMemory` may come first
    //   [`next_gives` (`NextItem`, `NextItemIn`)]
    // Proved: after the announced items `next` returns nothing, or one `SizeMismatch` if there are
    //   trailing bytes
    ghost next_gives = { NextItem T.meaning };

    ghost remaining = { λ items. at_most (most_items items) };

    fn next(&mut self) -> Option<Result<T>> {
        if self.ended {
            return None;
        }
        if self.left == 0 {
            self.ended = true;
            if self.section.reader.eof() {
                return None;
            }
            return Some(Err(Error::new(Fault::SizeMismatch, self.original_position())));
        }
        self.left -= 1;
        let item = T::from_reader(&mut self.section.reader);
        self.ended = item.is_err();
        Some(item)
    }

    fn size_hint(&self) -> (usize, Option<usize>)
        ensures lower { IsWithinCount result.0 (at_most (most_items self.now)) }
        ensures upper { IfSome result.1 (UpTo (at_most (most_items self.now))) }
        ensures exact { (result.0 ≡ 0) × (result.1 ≡ Some (most_items self.now)) }
    {
        if self.ended {
            return (0, Some(0));
        }
        (0, Some(self.left as usize + 1))
    }
}

/// An iterator over the items of a section, each with the offset of its first byte in the stream.
///
/// It ends, and yields errors, as `SectionLimitedIntoIter` does. An error is not paired with an offset: it has its own.
pub struct SectionLimitedIntoIterWithOffsets<'a, T> {
    items: SectionLimitedIntoIter<'a, T>,
}

impl<'a, T> Model for SectionLimitedIntoIterWithOffsets<'a, T> {
    ghost use Rattle.wasm_base.specs.Section.{Items};

    ghost Value = { Items };

    ghost view = { λ s. s.items };
}

impl<'a, T> Drop for SectionLimitedIntoIterWithOffsets<'a, T> {
    fn drop(self) {
        let SectionLimitedIntoIterWithOffsets { items: _ } = self;
    }
}

impl<'a, T: FromReader<'a>> Iterator for SectionLimitedIntoIterWithOffsets<'a, T> {
    type Item = Result<(u64, T)>;

    // Proved: `next` of the iterator with offsets returns the same items, each with the offset of
    //   its first byte [`next_gives` (`NextItem`, `AtItsOffset`)]
    ghost next_gives = { NextItem (AtItsOffset T.meaning) };

    ghost remaining = { λ items. at_most (most_items items) };

    fn next(&mut self) -> Option<Result<(u64, T)>> {
        let offset = self.items.original_position();
        match self.items.next() {
            Some(Ok(item)) => Some(Ok((offset, item))),
            Some(Err(e)) => Some(Err(e)),
            None => None,
        }
    }

    fn size_hint(&self) -> (usize, Option<usize>)
        ensures lower { IsWithinCount result.0 (at_most (most_items self.now)) }
        ensures upper { IfSome result.1 (UpTo (at_most (most_items self.now))) }
        ensures exact { (result.0 ≡ 0) × (result.1 ≡ Some (most_items self.now)) }
    {
        self.items.size_hint()
    }
}

/// An iterator over the items of a section that own lists.
///
/// It ends, and yields errors, as `SectionLimitedIntoIter` does. `OutOfMemory`, at offset 0, ends the iteration like an
/// item's error.
pub struct SectionLimitedIntoIterIn<'a, T> {
    alloc: Global,
    items: SectionLimitedIntoIter<'a, T>,
}

impl<'a, T> Model for SectionLimitedIntoIterIn<'a, T> {
    ghost use Rattle.wasm_base.specs.Section.{Items};

    ghost Value = { Items };

    ghost view = { λ s. s.items };
}

impl<'a, T> Drop for SectionLimitedIntoIterIn<'a, T> {
    fn drop(self) {
        let SectionLimitedIntoIterIn { alloc: _, items: _ } = self;
    }
}

impl<'a, T> SectionLimitedIntoIterIn<'a, T> {
    /// Returns the offset of the next item, from the start of the stream.
    pub fn original_position(&self) -> u64
        ensures offset { result ≡ (place self.now.reader).offset }
        ensures fits { result + length (place self.now.reader).rest < 2 ^ 64 }
    {
        // No form of this iterator yields each item with its offset, so this is the way to learn it.
        self.items.original_position()
    }
}

// Reads the next of the remaining items.
fn read_in<'a, T: FromReaderIn<'a>>(
    alloc: Global,
    items: &mut SectionLimitedIntoIter<'a, T>,
) -> Result<T>
    requires { 0 < items.old.left }
    ensures means { Means (UnlessMemory T.meaning) (place items.old.reader) result (place items.new.reader) }
    ensures keeps { KeepsWindow items.old.reader items.new.reader }
    ensures left { (items.new.left + 1 ≡ items.old.left) × (items.new.count ≡ items.old.count) }
    ensures ended { EndsAtFault result items.new }
{
    items.left -= 1;
    let item = T::from_reader(alloc, &mut items.section.reader);
    items.ended = item.is_err();
    item
}

impl<'a, T: FromReaderIn<'a>> Iterator for SectionLimitedIntoIterIn<'a, T> {
    type Item = Result<T>;

    // Proved: `next` over items that own lists works like the other iterators, or returns
    //   `OutOfMemory` instead of an item, and then nothing. Whole runs too. A clone of the section
    //   yields the same up to that, if the meaning of an item allows one outcome [`next_gives`
    //   (`NextItemIn`); `laws::owned_items_of_a_window`, `a_clone_gives_the_same_owned_items`]
    ghost next_gives = { NextItemIn T.meaning };

    ghost remaining = { λ items. at_most (most_items items) };

    fn next(&mut self) -> Option<Result<T>> {
        if self.items.ended {
            return None;
        }
        if self.items.left == 0 {
            self.items.ended = true;
            if self.items.section.reader.eof() {
                return None;
            }
            return Some(Err(Error::new(Fault::SizeMismatch, self.items.original_position())));
        }
        Some(read_in(self.alloc, &mut self.items))
    }

    fn size_hint(&self) -> (usize, Option<usize>)
        ensures lower { IsWithinCount result.0 (at_most (most_items self.now)) }
        ensures upper { IfSome result.1 (UpTo (at_most (most_items self.now))) }
        ensures exact { (result.0 ≡ 0) × (result.1 ≡ Some (most_items self.now)) }
    {
        if self.items.ended {
            return (0, Some(0));
        }
        (0, Some(self.items.left as usize + 1))
    }
}
