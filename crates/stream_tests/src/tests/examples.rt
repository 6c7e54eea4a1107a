// What callers write.
mod imports;
mod linking;
mod outside;
mod printing;
mod streams;
mod visits;

ghost use Rattle.std.specs.Prelude.{◌<◌, ◌^◌, length};

use crate::tests::same;
use std::alloc::Global;
use std::test::Fail;
use wasm_base::{BinaryReader, Error, Fault, Lead, Result, SectionLimited};
use wasm_examples::{AnyByte, Nothing, check, check_in, imports_memory, total};
use wasm_items::RecGroup;

fn section<'a, T>(bytes: &'a [u8]) -> Result<SectionLimited<'a, T>>
    requires { length bytes.now < 2 ^ 64 }
{
    SectionLimited::new(BinaryReader::new(bytes, 0))
}

#[test]
fn items_that_take_no_bytes(rt: HostRuntime) -> std::result::Result<(), Fail> {
    let mut items = section::<Nothing>(&[3])?.into_iter();
    for _ in 0..3 {
        same(&rt, items.next(), Some(Ok(Nothing)));
    }
    for _ in 0..4 {
        same(&rt, items.next(), None);
    }
    Ok(())
}

#[test]
fn items_that_take_no_bytes_before_one(rt: HostRuntime) -> std::result::Result<(), Fail> {
    let mut items = section::<Nothing>(&[3, 0xff])?.into_iter_with_offsets();
    for _ in 0..3 {
        same(&rt, items.next(), Some(Ok((1, Nothing))));
    }
    let left = Error::new(Fault::SizeMismatch, 1);
    same(&rt, items.next(), Some(Err(left)));
    for _ in 0..4 {
        same(&rt, items.next(), None);
    }
    Ok(())
}

#[test]
fn items_of_any_value(rt: HostRuntime) -> std::result::Result<(), Fail> {
    let mut items = section::<AnyByte>(&[2, 7, 7])?.into_iter();
    for _ in 0..2 {
        same(&rt, items.next().map(|item| item.is_ok()), Some(true));
    }
    for _ in 0..4 {
        same(&rt, items.next(), None);
    }
    Ok(())
}

fn total_of(bytes: &[u8]) -> Result<u64>
    requires { length bytes.now < 2 ^ 64 }
{
    total(section(bytes)?)
}

#[test]
fn sums(rt: HostRuntime) {
    same(&rt, total_of(&[2, 5, 0x80, 1]), Ok(133));
    let left = Error::new(Fault::SizeMismatch, 4);
    same(&rt, total_of(&[2, 5, 0x80, 1, 7]), Err(left));
}

fn check_bools(bytes: &[u8]) -> Result<()>
    requires { length bytes.now < 2 ^ 64 }
{
    check::<bool>(section(bytes)?)
}

fn check_pairs(bytes: &[u8]) -> Result<()>
    requires { length bytes.now < 2 ^ 64 }
{
    check::<(u32, bool)>(section(bytes)?)
}

#[test]
fn checks(rt: HostRuntime) {
    same(&rt, check_bools(&[3, 1, 0, 1]), Ok(()));
    let fault = Error::new(Fault::InvalidBool, 2);
    same(&rt, check_pairs(&[1, 5, 2]), Err(fault));
}

fn memory_in(bytes: &[u8]) -> Result<bool>
    requires { length bytes.now < 2 ^ 64 }
{
    imports_memory(section(bytes)?)
}

#[test]
fn memories_among_imports(rt: HostRuntime) {
    same(&rt, memory_in(b"\x01\x01m\x01a\0\x05"), Ok(false));
    same(
        &rt,
        memory_in(b"\x02\x01m\x01a\0\x05\x01m\x01b\x02\0\x01"),
        Ok(true),
    );
    same(
        &rt,
        memory_in(b"\x01\x01m\0\x7f\x02\x01a\0\x05\x01b\x02\0\x01"),
        Ok(true),
    );
    let fault = Error::new(Fault::LeadingByte(Lead::External), 5).with_number(5);
    same(&rt, memory_in(b"\x01\x01m\x01a\x05"), Err(fault));
}

fn check_types(alloc: Global, bytes: &[u8]) -> Result<()>
    requires { length bytes.now < 2 ^ 64 }
{
    check_in(section::<RecGroup>(bytes)?, alloc)
}

#[test]
fn checks_of_types(rt: HostRuntime) {
    same(&rt, check_types(rt.alloc(), b"\x01\x60\0\0"), Ok(()));
    let fault = Error::new(Fault::LeadingByte(Lead::Composite), 1).with_number(64);
    same(&rt, check_types(rt.alloc(), b"\x01\x40"), Err(fault));
    let left = Error::new(Fault::SizeMismatch, 1);
    same(&rt, check_types(rt.alloc(), b"\0\0"), Err(left));
}
