// Element segments (core specification, Binary format, Modules, Element Section).
use super::{encodes, is_refused};
use wasm_base::{BinaryReader, FromReader, SectionLimited};
use wasm_items::{ConstExpr, Element, ElementItems, ElementKind, HeapType, RefType};

// A segment of an offset that its range doesn't have.
fn segment<'a>(kind: ElementKind<'a>, items: ElementItems<'a>) -> Element<'a> {
    Element {
        kind,
        items,
        range: 0..0,
    }
}

// The functions of these bytes, which are a count and indices.
fn functions<'a>(count: u32, bytes: &'a [u8]) -> ElementItems<'a> {
    let reader = BinaryReader::new(bytes, 7);
    ElementItems::Functions(SectionLimited::after_count(reader, count))
}

fn expressions<'a>(ty: RefType, count: u32, bytes: &'a [u8]) -> ElementItems<'a> {
    let reader = BinaryReader::new(bytes, 7);
    ElementItems::Expressions(ty, SectionLimited::after_count(reader, count))
}

fn active<'a>(table_index: Option<u32>, bytes: &'a [u8]) -> ElementKind<'a> {
    ElementKind::Active {
        table_index,
        offset_expr: ConstExpr::new(BinaryReader::new(bytes, 9)),
    }
}

const EXTERNREF: RefType = RefType {
    nullable: true,
    heap: HeapType::Extern,
};

#[test]
fn functions_of_each_kind(rt: HostRuntime) {
    let zero = b"\x41\0\x0b";
    let two = b"\x05\x06";
    let active_two = segment(active(None, zero), functions(2, two));
    encodes(&rt, &active_two, b"\0\x41\0\x0b\x02\x05\x06");
    let passive = segment(ElementKind::Passive, functions(2, two));
    encodes(&rt, &passive, b"\x01\0\x02\x05\x06");
    // The index of a table that is written stays, also if it is 0.
    let indexed = segment(active(Some(0), zero), functions(2, two));
    encodes(&rt, &indexed, b"\x02\0\x41\0\x0b\0\x02\x05\x06");
    let declared = segment(ElementKind::Declared, functions(2, two));
    encodes(&rt, &declared, b"\x03\0\x02\x05\x06");
}

#[test]
fn expressions_of_each_kind(rt: HostRuntime) {
    // `i32.const 8`; `ref.func 5`; `ref.null extern`.
    let eight = b"\x41\x08\x0b";
    let function = b"\xd2\x05\x0b";
    let null = b"\xd0\x6f\x0b";
    let active_one = segment(
        active(None, eight),
        expressions(RefType::FUNCREF, 1, function),
    );
    encodes(&rt, &active_one, b"\x04\x41\x08\x0b\x01\xd2\x05\x0b");
    let passive = segment(ElementKind::Passive, expressions(EXTERNREF, 1, null));
    encodes(&rt, &passive, b"\x05\x6f\x01\xd0\x6f\x0b");
    let indexed = segment(active(Some(200), eight), expressions(EXTERNREF, 1, null));
    encodes(
        &rt,
        &indexed,
        b"\x06\xc8\x01\x41\x08\x0b\x6f\x01\xd0\x6f\x0b",
    );
    let declared = segment(ElementKind::Declared, expressions(RefType::FUNCREF, 0, b""));
    encodes(&rt, &declared, b"\x07\x70\0");
}

#[test]
fn longer_numbers_stay_in_lists(rt: HostRuntime) {
    let segment = segment(ElementKind::Passive, functions(1, b"\x85\0"));
    encodes(&rt, &segment, b"\x01\0\x01\x85\0");
}

#[test]
fn segments_that_are_refused(rt: HostRuntime) {
    let zero = b"\x41\0\x0b";
    // One function is missing, or there is one more; the second number has no end.
    for (count, bytes) in [(2, b"\x05".as_slice()), (1, b"\x05\x06"), (2, b"\x05\x86")] {
        is_refused(&rt, &segment(ElementKind::Passive, functions(count, bytes)));
    }
    // Expressions of another type than `funcref` need the index of a table.
    let null = b"\xd0\x6f\x0b";
    is_refused(
        &rt,
        &segment(active(None, zero), expressions(EXTERNREF, 1, null)),
    );
    is_refused(
        &rt,
        &segment(ElementKind::Declared, expressions(EXTERNREF, 2, null)),
    );
    // The expression of the offset has no end.
    is_refused(&rt, &segment(active(None, b"\x41\0"), functions(0, b"")));
}

#[test]
fn a_segment_that_was_read(rt: HostRuntime) {
    let bytes = b"\x06\x01\x41\0\x0b\x70\x01\xd2\x05\x0b";
    let mut reader = BinaryReader::new(bytes, 90);
    match Element::from_reader(&mut reader) {
        Ok(segment) => encodes(&rt, &segment, bytes),
        Err(_) => panic!(&rt; "not a segment"),
    }
}
