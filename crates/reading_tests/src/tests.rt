// What a row of `test_rows` can't show: each public call once, values, `Debug` texts, iterators that are polled after their end, and
// allocations that fail. Tests use only what is public.
ghost use Rattle.std.specs.Prelude.{◌+◌, ◌<◌, ◌^◌, length};

mod base;
mod custom;
mod items;

use std::alloc::Global;
use std::fmt::Debug;
use std::process::Abort;
use wasm_base::{BinaryReader, FromReader, FromReaderIn, Subsection, fits};

// Asserts that a value is the expected one.
fn same<T: PartialEq + Debug + Drop>(rt: &impl Abort, found: T, wanted: T) {
    assert!(rt; found == wanted, "{found:?}, and not {wanted:?}");
}

// Like `same`, in a loop: a failure also prints which turn it is.
fn same_at<T: PartialEq + Debug + Drop>(rt: &impl Abort, found: T, wanted: T, at: &impl Debug) {
    assert!(rt; found == wanted, "{found:?}, and not {wanted:?}, at {at:?}");
}

// A reader of these bytes. A proof knows nothing of them, and tests don't need that.
fn window(bytes: &[u8], offset: u64) -> BinaryReader<'_>
    requires { offset + length bytes.now < 2 ^ 64 }
{
    BinaryReader::new(bytes, offset)
}

// The debug text of a value is this one.
fn is_printed<T: Debug>(rt: &impl Abort, alloc: Global, value: &T, text: &str) {
    let found = format!(in alloc; "{value:?}").expect(rt, "out of memory");
    same(rt, found.as_str(), text);
}

// These bytes begin with an item whose copy is printed as this text, and which ends at the offset `end`.
fn prints<'a, T: FromReader<'a> + Clone + Debug>(
    rt: &impl Abort,
    alloc: Global,
    bytes: &'a [u8],
    offset: u64,
    end: u64,
    text: &str,
) {
    assert!(rt; fits(offset, bytes.len()));
    let mut reader = BinaryReader::new(bytes, offset);
    let item = T::from_reader(&mut reader).expect(rt, "a fault");
    same(rt, reader.original_position(), end);
    is_printed(rt, alloc, &item.clone().expect(rt, "out of memory"), text);
}

// Like `prints`, for an item that owns lists.
fn prints_in<'a, T: FromReaderIn<'a> + Debug>(
    rt: &impl Abort,
    alloc: Global,
    bytes: &'a [u8],
    offset: u64,
    end: u64,
    text: &str,
) {
    assert!(rt; fits(offset, bytes.len()));
    let mut reader = BinaryReader::new(bytes, offset);
    let item = T::from_reader(alloc, &mut reader).expect(rt, "a fault");
    same(rt, reader.original_position(), end);
    is_printed(rt, alloc, &item, text);
}

// The subsection with this id that is read from these bytes at 500, after the first two of them, is printed as this text.
fn prints_begun<'a, T: Subsection<'a> + Debug>(
    rt: &impl Abort,
    alloc: Global,
    id: u8,
    bytes: &'a [u8; 5],
    text: &str,
) {
    let mut reader = BinaryReader::new(bytes, 500);
    reader.read_bytes(2).expect(rt, "a fault");
    let found = T::from_reader(alloc, id, reader).expect(rt, "a fault");
    is_printed(rt, alloc, &found, text);
}

// What an iterator returns when it is polled.
fn polled<I: Iterator>(items: &mut I) -> Option<I::Item>
    requires { (items : I) → I.can_next items }
{
    items.next()
}

// An iterator has this size hint, and then returns this item.
fn is_next<I: Iterator>(rt: &impl Abort, items: &mut I, most: usize, wanted: Option<I::Item>)
where
    I::Item: PartialEq + Debug + Drop,
    requires { (items : I) → I.can_next items }
{
    same(rt, items.size_hint(), (0, Some(most)));
    same(rt, polled(items), wanted);
}

// An iterator returns nothing, however often it is polled, and its size hint says so.
fn is_over<I: Iterator>(rt: &impl Abort, items: &mut I)
where
    I::Item: PartialEq + Debug + Drop,
    requires { (items : I) → I.can_next items }
{
    for _ in 0..4 {
        is_next(rt, items, 0, None);
    }
    same(rt, items.size_hint(), (0, Some(0)));
}

// An iterator returns items that are printed as these texts, and then nothing, however often it is polled.
fn gives<I: Iterator>(rt: &impl Abort, alloc: Global, mut items: I, texts: &[&str])
where
    I::Item: Debug + Drop,
    requires { (items : I) → I.can_next items }
{
    for text in texts {
        let item = polled(&mut items).expect(rt, "nothing");
        is_printed(rt, alloc, &item, text);
    }
    for _ in 0..4 {
        assert!(rt; polled(&mut items).is_none());
    }
}
