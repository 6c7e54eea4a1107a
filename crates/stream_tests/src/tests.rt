// The parser, chunked input, the listing and stripping: what a row of `test_rows` can't show. Tests use only what is public.
mod examples;
mod feed;
mod parser;

use std::alloc::Global;
use std::fmt::Debug;
use std::process::Abort;

/// A module with one function, whose body is empty.
const SMALL: &[u8] = b"\0asm\x01\0\0\0\x03\x02\x01\0\x0a\x04\x01\x02\0\x0b";

// Asserts that a value is the expected one.
fn same<T: PartialEq + Debug + Drop>(rt: &impl Abort, found: T, wanted: T) {
    assert!(rt; found == wanted, "{found:?}, and not {wanted:?}");
}

// Like `same`, in a loop: a failure also prints which turn it is.
fn same_at<T: PartialEq + Debug + Drop>(rt: &impl Abort, found: T, wanted: T, at: &impl Debug) {
    assert!(rt; found == wanted, "{found:?}, and not {wanted:?}, at {at:?}");
}

// The debug text of a value is this one.
fn is_printed<T: Debug>(rt: &impl Abort, alloc: Global, value: &T, text: &str) {
    let found = format!(in alloc; "{value:?}").expect(rt, "out of memory");
    same(rt, found.as_str(), text);
}

// What an iterator returns when it is polled.
fn polled<I: Iterator>(items: &mut I) -> Option<I::Item>
    requires { (items : I) → I.can_next items }
{
    items.next()
}

// An iterator returns items that are printed as these texts, and then nothing, however often it is polled.
fn gives<I: Iterator>(rt: &impl Abort, alloc: Global, mut items: I, texts: &[&str])
where
    I::Item: Debug + Drop,
    requires { (items : I) → I.can_next items }
{
    for text in texts {
        let item = polled(&mut items).expect(rt, "nothing");
        is_printed(rt, alloc, &item, text);
    }
    for _ in 0..4 {
        assert!(rt; polled(&mut items).is_none());
    }
}
