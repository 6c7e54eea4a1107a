// Counted sections: their iterators, copies and texts.
ghost use Rattle.std.specs.Prelude.{◌+◌, ◌<◌, ◌^◌, length};

use crate::tests::{is_next, is_over, is_printed, same, window};
use std::test::Fail;
use wasm_base::{Error, Fault, Result, SectionLimited};

fn section<'a, T>(bytes: &'a [u8], offset: u64) -> Result<SectionLimited<'a, T>>
    requires { offset + length bytes.now < 2 ^ 64 }
{
    SectionLimited::new(window(bytes, offset))
}

#[test]
fn numbers_with_offsets_and_a_trailing_byte(rt: HostRuntime) -> std::result::Result<(), Fail> {
    let mut items = section::<u32>(&[2, 5, 0x80, 1, 7], 100)?.into_iter_with_offsets();
    is_next(&rt, &mut items, 3, Some(Ok((101, 5))));
    is_next(&rt, &mut items, 2, Some(Ok((102, 128))));
    let left = Error::new(Fault::SizeMismatch, 104);
    is_next(&rt, &mut items, 1, Some(Err(left)));
    is_over(&rt, &mut items);
    Ok(())
}

#[test]
fn numbers_and_a_trailing_byte(rt: HostRuntime) -> std::result::Result<(), Fail> {
    let mut items = section::<u32>(&[2, 5, 0x80, 1, 7], 100)?.into_iter();
    is_next(&rt, &mut items, 3, Some(Ok(5)));
    is_next(&rt, &mut items, 2, Some(Ok(128)));
    let left = Error::new(Fault::SizeMismatch, 104);
    is_next(&rt, &mut items, 1, Some(Err(left)));
    is_over(&rt, &mut items);
    Ok(())
}

#[test]
fn offsets_of_a_section_and_its_items(rt: HostRuntime) -> std::result::Result<(), Fail> {
    let numbers = section::<u32>(&[2, 5, 0x80, 1, 7], 100)?;
    same(
        &rt,
        (numbers.count(), numbers.original_position()),
        (2, 101),
    );
    same(&rt, numbers.range(), 100..105);
    let mut items = numbers.into_iter();
    same(&rt, items.original_position(), 101);
    same(&rt, items.next(), Some(Ok(5)));
    same(&rt, items.original_position(), 102);
    Ok(())
}

#[test]
fn many_items_are_announced_and_none_is_there(rt: HostRuntime) -> std::result::Result<(), Fail> {
    let mut items = section::<bool>(&[0xff, 0xff, 0xff, 0xff, 0x0f], 0)?.into_iter();
    let missing = Error::new(Fault::UnexpectedEof, 5);
    is_next(&rt, &mut items, 4294967296, Some(Err(missing)));
    is_over(&rt, &mut items);
    Ok(())
}

// The hint of the second item, which is a fault.
fn hint_of_second(bytes: &[u8; 6]) -> Result<Option<usize>> {
    let mut items = section::<&str>(bytes, 0)?.into_iter();
    items.next();
    match items.next() {
        Some(Err(error)) => Ok(error.needed_hint()),
        _other => Ok(None),
    }
}

#[test]
fn hints_of_items(rt: HostRuntime) {
    same(&rt, hint_of_second(b"\x02\x01a\x09bc"), Ok(Some(7)));
    // A trailing byte has none.
    same(&rt, hint_of_second(b"\x01\x01abcd"), Ok(None));
}

#[test]
fn a_section_again(rt: HostRuntime) -> std::result::Result<(), Fail> {
    let numbers = section::<u32>(&[2, 5, 0x80, 1, 7], 100)?;
    let mut copy = numbers.clone()?.into_iter();
    let mut items = numbers.into_iter();
    same(&rt, items.next(), Some(Ok(5)));
    same(&rt, items.clone()?.next(), Some(Ok(128)));
    same(&rt, copy.next(), Some(Ok(5)));
    let after = SectionLimited::from(items);
    same(&rt, (after.count(), after.original_position()), (2, 102));
    same(&rt, after.range(), 100..105);
    Ok(())
}

#[test]
fn a_section_as_text(rt: HostRuntime) -> std::result::Result<(), Fail> {
    let numbers = section::<u32>(&[2, 5, 0x80, 1, 7], 100)?;
    let text = "SectionLimited { count: 2, range: 100..105 }";
    is_printed(&rt, rt.alloc(), &numbers, text);
    Ok(())
}

// Where an item was read, the text is that of the whole section.
#[test]
fn a_section_of_many_items_as_text(rt: HostRuntime) -> std::result::Result<(), Fail> {
    let numbers = section::<u32>(&[0xac, 0x02, 5, 6], 70000)?;
    let text = "SectionLimited { count: 300, range: 70000..70004 }";
    is_printed(&rt, rt.alloc(), &numbers, text);
    let mut items = numbers.into_iter();
    same(&rt, items.next(), Some(Ok(5)));
    is_printed(&rt, rt.alloc(), &SectionLimited::from(items), text);
    Ok(())
}
