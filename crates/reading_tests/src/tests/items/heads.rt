// The heads of groups of types and of subtypes, and type sections that are read by them.
use crate::tests::{prints, prints_in, same, window};
use std::process::Abort;
use std::test::Fail;
use wasm_base::{BinaryReader, Fault, FromReader, Lead, Result};
use wasm_items::{CompositeKind, FieldType, RecGroup, RecGroupHead, SubTypeHead, ValType};

#[test]
fn heads_as_text(rt: HostRuntime) {
    let text = "RecGroupHead { explicit: true, count: 2 }";
    prints::<RecGroupHead>(&rt, rt.alloc(), b"\x4e\x82\x00\x60", 40, 43, text);
    let text = "RecGroupHead { explicit: false, count: 1 }";
    prints::<RecGroupHead>(&rt, rt.alloc(), b"\x60", 40, 40, text);
    let text = "SubTypeHead { is_final: false, supertype: Some(5), kind: Struct, count: 3 }";
    prints::<SubTypeHead>(&rt, rt.alloc(), b"\x50\x01\x05\x5f\x03\x7f", 7, 12, text);
    let text = "SubTypeHead { is_final: true, supertype: None, kind: Func, count: 129 }";
    prints::<SubTypeHead>(&rt, rt.alloc(), b"\x4f\x00\x60\x81\x01", 7, 12, text);
    prints::<SubTypeHead>(&rt, rt.alloc(), b"\x60\x81\x01", 7, 10, text);
    let text = "SubTypeHead { is_final: true, supertype: None, kind: Array, count: 1 }";
    prints::<SubTypeHead>(&rt, rt.alloc(), b"\x5e\x78\x00", 7, 8, text);
}

// Bytes at 7 in which a head is malformed: the fault, its offset and its number.
fn is_refused<'a, T: FromReader<'a>>(
    rt: &impl Abort,
    bytes: &'a [u8],
    fault: Fault,
    at: u64,
    number: Option<u64>,
) {
    let mut reader = window(bytes, 7);
    match T::from_reader(&mut reader) {
        Ok(_) => assert!(rt; false, "no fault in {bytes:?}"),
        Err(error) => {
            same(rt, (error.fault(), error.offset()), (fault, at));
            same(rt, error.number(), number);
        }
    }
}

#[test]
fn malformed_heads(rt: HostRuntime) {
    let lacks = Fault::UnexpectedEof;
    is_refused::<RecGroupHead>(&rt, b"", lacks, 7, None);
    is_refused::<RecGroupHead>(&rt, b"\x4e", lacks, 8, None);
    is_refused::<RecGroupHead>(&rt, b"\x4e\x80", lacks, 9, None);
    is_refused::<SubTypeHead>(&rt, b"", lacks, 7, None);
    is_refused::<SubTypeHead>(&rt, b"\x60", lacks, 8, None);
    is_refused::<SubTypeHead>(&rt, b"\x50", lacks, 8, None);
    is_refused::<SubTypeHead>(&rt, b"\x50\x01\x05", lacks, 10, None);
    is_refused::<SubTypeHead>(&rt, b"\x50\x02\x01\x02\x60\x00", Fault::Supertypes, 8, None);
    let lead = Fault::LeadingByte(Lead::Composite);
    is_refused::<SubTypeHead>(&rt, b"\x61\x00", lead, 7, Some(0x61));
    is_refused::<SubTypeHead>(&rt, b"\x50\x00\x4e", lead, 9, Some(0x4e));
}

// Reads what follows the head of a subtype.
fn pass_lists(head: SubTypeHead, reader: &mut BinaryReader<'_>) -> Result<()> {
    for _ in 0..head.count {
        match head.kind {
            CompositeKind::Func => drop(ValType::from_reader(reader)?),
            CompositeKind::Array | CompositeKind::Struct => drop(FieldType::from_reader(reader)?),
        }
    }
    if head.kind == CompositeKind::Func {
        for _ in 0..reader.read_var_u32()? {
            ValType::from_reader(reader)?;
        }
    }
    Ok(())
}

// Heads and lists, one after the other, end where the group does.
#[test]
fn groups_by_their_heads(rt: HostRuntime) -> Result<(), Fail> {
    let bytes =
        b"\x4e\x03\x60\x02\x7f\x7e\x01\x7d\x4f\x01\x80\x00\x5f\x02\x77\x00\x64\x83\x00\x01\x50\x00\x5e\x78\x01\xff";
    let mut reader = window(bytes, 40);
    let group = RecGroupHead::from_reader(&mut reader)?;
    same(&rt, (group.explicit, group.count), (true, 3));
    for _ in 0..group.count {
        let head = SubTypeHead::from_reader(&mut reader)?;
        pass_lists(head, &mut reader)?;
    }
    same(&rt, reader.original_position(), 65);
    let text = "RecGroup { explicit: true, types: [\
        SubType { is_final: true, supertype: None, composite: Func(FuncType { params: [I32, I64], results: [F32] }) }, \
        SubType { is_final: true, supertype: Some(0), composite: Struct([\
        FieldType { storage: I16, mutable: false }, \
        FieldType { storage: Val(Ref(RefType { nullable: false, heap: Concrete(3) })), mutable: true }]) }, \
        SubType { is_final: false, supertype: None, composite: Array(FieldType { storage: I8, mutable: true }) }] }";
    prints_in::<RecGroup>(&rt, rt.alloc(), bytes, 40, 65, text);
    Ok(())
}
