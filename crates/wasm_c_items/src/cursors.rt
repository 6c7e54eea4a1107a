// Lists of items that C walks.
ghost use Rattle.std.specs.Prelude.{◌≡◌, ◌-◌, ℕ, List, Option, Err, []};
ghost use Rattle.wasm_base.specs.FaultAt.{at_offset};
ghost use Rattle.wasm_base.specs.declared.fault.Fault.{Fault};
ghost use Rattle.wasm_c_items.specs.declared.cursors.StoredItems.{StoredItems};
ghost use Rattle.wasm_c_items.specs.Cursors.{StoresItems, end_by, in_order, item_by, moved_to, next_by, item_of, start_of, starting, takes};

use crate::events::PlainEvent;
use crate::readable::Readable;
use crate::spans::{after, distance, out_of_range, reader_over};
use wasm_parser::{Error, Fault, fits};

/// A cursor over the items of a list. It keeps no pointer: pass the bytes of the list to each call. Any bytes are a
/// valid cursor.
#[repr(C)]
#[derive(Clone, Copy)]
pub struct StoredItems {
    /// The offset of the next item, in bytes from the start of the stream.
    pub offset: u64,
    /// The position of the next item, in bytes from the start of the bytes of the list.
    pub position: usize,
    /// The number of remaining items.
    pub remaining: u32,
    /// The features that the items are read with, as bits.
    pub features: u32,
    /// The greatest index or id so far, if `has_last` is not 0.
    pub last: u32,
    /// 0 before the first item whose index or id has to ascend.
    pub has_last: u8,
    /// Not 0 after the end, or after a fault that ends the list.
    pub is_ended: u8,
}

/// A way to walk a list.
pub trait Walk: Copy {
    /// The struct of an item.
    type Plain: Copy;

    /// Where a walk is.
    type Cursor;

    /// What one call returns.
    ghost next: { Self → List ℕ → Self.Cursor → Option Self.Plain × Self.Cursor };

    /// Returns the next item, or its fault. `None` after the end.
    fn next(self, items: &mut Self::Cursor, bytes: &[u8]) -> Option<Self::Plain>
        ensures { (result, items.new) ≡ next self bytes.now items.old };
}

/// A list of as many items as were announced, in any order, up to the first fault.
#[derive(Clone, Copy)]
pub struct Counted<R>(pub R);

impl<R: Readable> Walk for Counted<R> {
    type Plain = R::Plain;

    type Cursor = StoredItems;

    ghost next = { λ walk. next_by (R.plain walk.0) (R.reading walk.0) };

    fn next(self, items: &mut StoredItems, bytes: &[u8]) -> Option<R::Plain> {
        next_item(self.0, items, bytes)
    }
}

/// Items whose indices ascend.
pub trait Indexed: Readable {
    /// The index of an item that has no fault.
    ghost index: { Self.Plain → Option ℕ };

    /// The fault of an item out of order.
    ghost order: { Fault };

    /// The index of an item, if it has no fault.
    fn index(item: &Self::Plain) -> Option<u32>
        ensures { result ≡ index item.now };

    /// The fault of an item out of order.
    fn order() -> Fault
        ensures { result ≡ order };
}

/// A list of items whose indices ascend.
#[derive(Clone, Copy)]
pub struct Ascending<R>(pub R);

impl<R: Indexed> Walk for Ascending<R> {
    type Plain = R::Plain;

    type Cursor = StoredItems;

    ghost next = { λ walk bytes items. in_order R.index (λ f. item_of (R.plain walk.0) items [] (Err f))
        (at_offset R.order items.offset) (next_by (R.plain walk.0) (R.reading walk.0) bytes items) };

    fn next(self, items: &mut StoredItems, bytes: &[u8]) -> Option<R::Plain> {
        let start = items.offset;
        let item = next_item(self.0, items, bytes)?;
        let index = R::index(&item);
        if items.takes(index) {
            return Some(item);
        }
        Some(self.0.refused(Error::new(R::order(), start)))
    }
}

impl StoredItems {
    /// The offset at which the bytes of the list begin.
    pub(crate) fn start(&self) -> u64
        ensures { result ≡ start_of self.now }
    {
        self.offset.saturating_sub(self.position as u64)
    }

    /// Moves to this offset.
    pub(crate) fn move_to(&mut self, offset: u64)
        ensures { self.new ≡ moved_to offset self.old }
    {
        self.position = self.position.saturating_add(distance(self.offset, offset));
        self.offset = offset;
    }

    /// Whether an index is above the last one in order, which it is then. An item with a fault has none.
    pub(crate) fn takes(&mut self, index: Option<u32>) -> bool
        ensures { (result, self.new) ≡ takes self.old index }
    {
        let Some(index) = index else { return true };
        if self.has_last != 0 {
            if index <= self.last {
                return false;
            }
        }
        self.last = index;
        self.has_last = 1;
        true
    }
}

// What comes after all items.
fn end<R: Readable>(kind: R, items: &mut StoredItems, rest: &[u8]) -> Option<R::Plain>
    ensures { (result, items.new) ≡ end_by (R.plain kind) items.old rest.now }
{
    items.is_ended = 1;
    if rest.is_empty() {
        return None;
    }
    Some(kind.refused(Error::new(Fault::SizeMismatch, items.offset)))
}

// The item at which the cursor is.
pub(crate) fn item<R: Readable>(kind: R, items: &mut StoredItems, rest: &[u8]) -> Option<R::Plain>
    ensures { (result, items.new) ≡ item_by (R.plain kind) (R.reading kind) items.old rest.now }
{
    if !fits(items.offset, rest.len()) {
        items.is_ended = 1;
        return Some(kind.refused(out_of_range(items.offset)));
    }
    let mut reader = reader_over(rest, items.offset, items.features);
    match kind.read(&mut reader, items.start()) {
        Ok(item) => {
            items.move_to(reader.original_position());
            items.remaining = items.remaining.saturating_sub(1);
            Some(item)
        }
        Err(error) => {
            items.is_ended = 1;
            Some(kind.refused(error))
        }
    }
}

/// The next item of a list whose bytes these are.
pub(crate) fn next_item<R: Readable>(
    kind: R,
    items: &mut StoredItems,
    bytes: &[u8],
) -> Option<R::Plain>
    ensures { (result, items.new) ≡ next_by (R.plain kind) (R.reading kind) bytes.now items.old }
{
    if items.is_ended != 0 {
        return None;
    }
    let rest = after(bytes, items.position);
    if items.remaining == 0 {
        return end(kind, items, rest);
    }
    item(kind, items, rest)
}

/// Stores the next items, as many as there are or as there is room for, and returns how many.
pub fn store_items<W: Walk>(
    walk: W,
    items: &mut W::Cursor,
    bytes: &[u8],
    out: &mut [W::Plain],
) -> usize
    ensures { StoresItems (W.next walk bytes.now) items.old out.old result items.new out.new }
{
    let mut count = 0;
    while count < out.len() {
        match walk.next(items, bytes) {
            Some(item) => out[count] = item,
            None => return count,
        }
        count += 1;
    }
    count
}

/// Returns a cursor at the first item of the section that this event reports, with these features.
///
/// `pulleynavy_items_init` of the C library is this call, and describes its errors.
pub fn section_items(event: &PlainEvent, features: u32) -> StoredItems
    ensures { result ≡ starting event.now.data_offset
        (event.now.data_offset - event.now.start) event.now.count features }
{
    StoredItems {
        position: distance(event.start, event.data_offset),
        ..starting(event.data_offset, event.count, features)
    }
}

/// Returns a cursor over a list of `remaining` items, of which the first is at this offset, with these features.
pub fn starting(offset: u64, remaining: u32, features: u32) -> StoredItems
    ensures { result ≡ starting offset 0 remaining features }
{
    StoredItems {
        offset,
        position: 0,
        remaining,
        features,
        last: 0,
        has_last: 0,
        is_ended: 0,
    }
}
