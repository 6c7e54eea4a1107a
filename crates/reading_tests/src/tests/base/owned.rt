// Items that own lists, and memory that runs out.
ghost use Rattle.wasm_base.specs.Outcome.{Outcome};
ghost use Rattle.wasm_base.specs.Window.{Place};

use crate::tests::{is_next, is_over, same};
use std::alloc::Global;
use std::process::Abort;
use std::test::Fail;
use wasm_base::{
    BinaryReader, Error, Fault, FromReaderIn, Result, SectionLimited, read_list, read_list_in,
};

fn reader(bytes: &'static [u8]) -> BinaryReader<'static> {
    BinaryReader::new(bytes, 0)
}

fn memory_ran_out() -> Error {
    Error::new(Fault::OutOfMemory, 0)
}

/// A list of numbers. Its meaning allows anything.
#[derive(Debug, PartialEq, Drop)]
struct Numbers(Vec<u32>);

impl<'a> FromReaderIn<'a> for Numbers {
    ghost meaning = { λ before outcome. Unit {0} };

    fn from_reader(alloc: Global, reader: &mut BinaryReader<'a>) -> Result<Self> {
        Ok(Numbers(read_list(alloc, reader)?))
    }
}

/// An item whose growth is refused where its byte is 0.
#[derive(Debug, PartialEq, Drop)]
struct Refused;

impl<'a> FromReaderIn<'a> for Refused {
    ghost meaning = { λ before outcome. Unit {0} };

    fn from_reader(_alloc: Global, reader: &mut BinaryReader<'a>) -> Result<Self> {
        if reader.read_u8()? == 0 {
            return Err(memory_ran_out());
        }
        Ok(Refused)
    }
}

fn list_of(rt: &impl Abort, alloc: Global, items: &[u32]) -> Numbers {
    Numbers(items.to_vec(alloc).expect(rt, "out of memory"))
}

#[test]
fn lists_of_a_section(rt: HostRuntime) -> std::result::Result<(), Fail> {
    let bytes = b"\x02\x02\x05\x80\x01\x00\xff";
    let lists = SectionLimited::<Numbers>::new(BinaryReader::new(bytes, 100))?;
    let mut items = lists.clone()?.into_iter_in(rt.alloc());
    let first = list_of(&rt, rt.alloc(), &[5, 128]);
    is_next(&rt, &mut items, 3, Some(Ok(first)));
    let second = list_of(&rt, rt.alloc(), &[]);
    is_next(&rt, &mut items, 2, Some(Ok(second)));
    let left = Error::new(Fault::SizeMismatch, 106);
    is_next(&rt, &mut items, 1, Some(Err(left)));
    is_over(&rt, &mut items);
    Ok(())
}

#[test]
fn a_list_of_lists(rt: HostRuntime) -> std::result::Result<(), Fail> {
    let mut inner = reader(b"\x02\x01\x07\x00");
    let lists = read_list_in::<Numbers>(rt.alloc(), &mut inner)?;
    let wanted = [
        list_of(&rt, rt.alloc(), &[7]),
        list_of(&rt, rt.alloc(), &[]),
    ];
    same(&rt, lists.as_slice(), wanted.as_slice());
    assert!(rt; inner.eof());
    Ok(())
}

#[test]
fn nothing_comes_after_out_of_memory(rt: HostRuntime) -> std::result::Result<(), Fail> {
    let section = SectionLimited::<Refused>::new(reader(b"\x03\x01\x00\x01"))?;
    let mut items = section.into_iter_in(rt.alloc());
    same(&rt, items.next(), Some(Ok(Refused)));
    same(&rt, items.next(), Some(Err(memory_ran_out())));
    is_over(&rt, &mut items);
    Ok(())
}

#[test]
fn a_list_whose_item_allocates(rt: HostRuntime) {
    let list = read_list_in::<Refused>(rt.alloc(), &mut reader(b"\x03\x01\x00\x01"));
    same(&rt, list.err(), Some(memory_ran_out()));
}
