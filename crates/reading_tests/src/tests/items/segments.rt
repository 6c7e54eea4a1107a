// Element and data segments by their fields. Tables of rows are in `test_rows`.
ghost use Rattle.std.specs.Prelude.{◌+◌, ◌<◌, ◌^◌, length};

use crate::tests::{gives, prints, same};
use std::ops::Range;
use std::test::Fail;
use wasm_base::{BinaryReader, Error, Fault, FromReader, Result, SectionLimited};
use wasm_items::{ConstExpr, Data, Element, ElementItems, ElementKind, RefType};

// The table of an active segment and the range of its offset; the range of the segment.
type Places = (Option<(Option<u32>, Range<u64>)>, Range<u64>);

// The places of a segment, and its functions or expressions.
fn read<'a>(bytes: &'a [u8], offset: u64) -> Result<(Places, ElementItems<'a>)>
    requires { offset + length bytes.now < 2 ^ 64 }
{
    let mut reader = BinaryReader::new(bytes, offset);
    let Element { kind, items, range } = Element::from_reader(&mut reader)?;
    let active = match kind {
        ElementKind::Active {
            table_index,
            offset_expr,
        } => Some((table_index, offset_expr.range())),
        _other => None,
    };
    Ok(((active, range), items))
}

// The places of a segment, and its functions.
fn functions_of<'a>(bytes: &'a [u8; 12]) -> Result<(Places, SectionLimited<'a, u32>)> {
    match read(bytes, 100)? {
        (places, ElementItems::Functions(section)) => Ok((places, section)),
        (_, ElementItems::Expressions(..)) => Err(Error::new(Fault::UnexpectedEof, 0)),
    }
}

#[test]
fn an_active_element_segment_of_functions(rt: HostRuntime) -> std::result::Result<(), Fail> {
    let bytes = b"\x02\x81\x00\x42\x7f\x0b\x00\x02\x05\x80\x01\xff";
    let (places, section) = functions_of(bytes)?;
    same(&rt, places, (Some((Some(1), 103..106)), 100..111));
    let texts = ["Ok((108, 5))", "Ok((109, 128))"];
    gives(&rt, rt.alloc(), section.into_iter_with_offsets(), &texts);
    Ok(())
}

// The places of a segment, and its type and expressions.
fn expressions_of<'a>(
    bytes: &'a [u8],
) -> Result<(Places, RefType, SectionLimited<'a, ConstExpr<'a>>)>
    requires { length bytes.now < 2 ^ 64 }
{
    match read(bytes, 0)? {
        (places, ElementItems::Expressions(ty, section)) => Ok((places, ty, section)),
        (_, ElementItems::Functions(_)) => Err(Error::new(Fault::UnexpectedEof, 0)),
    }
}

// Whether a segment is declared.
fn is_declared(bytes: &[u8]) -> Result<bool>
    requires { length bytes.now < 2 ^ 64 }
{
    let segment = Element::from_reader(&mut BinaryReader::new(bytes, 0))?;
    Ok(matches!(segment.kind, ElementKind::Declared))
}

#[test]
fn a_declared_element_segment_of_expressions(rt: HostRuntime) -> std::result::Result<(), Fail> {
    let bytes = b"\x07\x70\x02\xd2\x07\x0b\x23\x80\x00\x0b";
    let (places, ty, section) = expressions_of(bytes)?;
    same(&rt, (places, ty), ((None, 0..10), RefType::FUNCREF));
    same(&rt, is_declared(bytes), Ok(true));
    same(&rt, is_declared(b"\x05\x70\0"), Ok(false));
    let texts = [
        "Ok((3, ConstExpr { reader: BinaryReader { bytes: [210, 7, 11], start: 3, position: 0, features: WasmFeatures(3) } }))",
        "Ok((6, ConstExpr { reader: BinaryReader { bytes: [35, 128, 0, 11], start: 6, position: 0, features: WasmFeatures(3) } }))",
    ];
    gives(&rt, rt.alloc(), section.into_iter_with_offsets(), &texts);
    Ok(())
}

// The place of an active segment's offset, and the range of the segment, from offset 0.
#[test]
fn offsets_of_active_segments(rt: HostRuntime) {
    let rows: [(&[u8], Option<u32>, Range<u64>, u64); 3] = [
        (b"\0\x41\0\x0b\x02\0\x01", None, 1..4, 7),
        (b"\x04\x41\0\x0b\x01\xd0\x70\x0b", None, 1..4, 8),
        (b"\x06\0\x41\0\x0b\x6f\0", Some(0), 2..5, 7),
    ];
    for (bytes, table, offset, end) in rows {
        let wanted = (Some((table, offset)), 0..end);
        same(&rt, places_of(bytes), Ok(wanted));
    }
}

// The place of a segment from offset 0.
fn places_of(bytes: &[u8]) -> Result<Places>
    requires { length bytes.now < 2 ^ 64 }
{
    Ok(read(bytes, 0)?.0)
}

#[test]
fn expressions_of_an_active_segment(rt: HostRuntime) -> std::result::Result<(), Fail> {
    let (_, ty, section) = expressions_of(b"\x04\x41\0\x0b\x01\xd0\x70\x0b")?;
    same(&rt, ty, RefType::FUNCREF);
    let text =
        "Ok(ConstExpr { reader: BinaryReader { bytes: [208, 112, 11], start: 5, position: 0, features: WasmFeatures(3) } })";
    gives(&rt, rt.alloc(), section.into_iter(), &[text]);
    Ok(())
}

#[test]
fn data_segments(rt: HostRuntime) {
    let bytes = b"\x02\x83\x00\x41\x00\x0b\x82\x00\x01\x02\x03";
    let text =
        "Data { kind: Active { memory_index: 3, offset_expr: ConstExpr { reader: BinaryReader { bytes: [65, 0, 11], start: 73, position: 0, features: WasmFeatures(3) } } }, \
        bytes: [1, 2], range: 70..80 }";
    prints::<Data<'_>>(&rt, rt.alloc(), bytes, 70, 80, text);
    let text = "Data { kind: Active { memory_index: 0, offset_expr: ConstExpr { reader: \
        BinaryReader { bytes: [65, 0, 11], start: 2, position: 0, features: WasmFeatures(3) } } }, \
        bytes: [255], range: 0..7 }";
    prints::<Data<'_>>(&rt, rt.alloc(), b"\x80\0\x41\0\x0b\x01\xff", 0, 7, text);
    let text = "Data { kind: Passive, bytes: [170], range: 0..3 }";
    prints::<Data<'_>>(&rt, rt.alloc(), b"\x01\x01\xaa", 0, 3, text);
}
