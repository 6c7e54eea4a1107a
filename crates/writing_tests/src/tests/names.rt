// Names as items, and subsections (core specification, Appendix, Custom Sections, Name Section).
use crate::tests::{encodes, is_refused};
use std::process::Abort;
use wasm_base::{BinaryReader, FromReader};
use wasm_custom::{IndirectNaming, Naming};
use wasm_encode::{
    Encode, list_len, names_ascend, section_fits, subsection_len, write_list, write_subsection,
};

#[test]
fn names_and_entries(rt: HostRuntime) {
    encodes(&rt, &"env", b"\x03env");
    encodes(&rt, &naming(5, "f"), b"\x05\x01f");
    encodes(&rt, &naming(300, ""), b"\xac\x02\0");
}

// An item is written as this subsection.
fn is_subsection<T: Encode>(rt: &impl Abort, id: u8, item: &T, wanted: &[u8]) {
    assert!(rt; item.fits());
    assert!(rt; wanted.len() < 60);
    assert_eq!(rt; subsection_len(item), wanted.len());
    let mut bytes = [0xaa; 64];
    let end = write_subsection(&mut bytes, 3, id, item);
    assert_eq!(rt; &bytes[3..end], wanted);
    assert!(rt; bytes[2] == 0xaa && bytes[end] == 0xaa);
}

#[test]
fn a_module_name(rt: HostRuntime) {
    is_subsection(&rt, 0, &"app", b"\0\x04\x03app");
}

// Items are written as this list.
fn is_list<T: Encode>(rt: &impl Abort, items: &[T], wanted: &[u8]) {
    assert!(rt; section_fits(items));
    assert!(rt; wanted.len() < 60);
    assert_eq!(rt; list_len(items), wanted.len());
    let mut bytes = [0xaa; 64];
    let end = write_list(&mut bytes, 3, items);
    assert_eq!(rt; &bytes[3..end], wanted);
    assert!(rt; bytes[2] == 0xaa && bytes[end] == 0xaa);
}

// An entry of a name map.
fn naming(index: u32, name: &str) -> Naming<'_> {
    Naming { index, name }
}

#[test]
fn name_maps(rt: HostRuntime) {
    let names = [naming(0, "a"), naming(300, "bc")];
    is_list(&rt, &names, b"\x02\0\x01a\xac\x02\x02bc");
    let none: [Naming<'_>; 0] = [];
    is_list(&rt, &none, b"\0");
}

#[test]
fn names_that_ascend(rt: HostRuntime) {
    assert!(&rt; names_ascend(&[naming(0, "a"), naming(1, "b"), naming(300, "c")]));
    assert!(&rt; !names_ascend(&[naming(3, "a"), naming(3, "b")]));
    assert!(&rt; !names_ascend(&[naming(0, "a"), naming(7, "b"), naming(6, "c")]));
}

// The entry that these bytes begin with.
fn locals<'a>(rt: &impl Abort, bytes: &'a [u8]) -> IndirectNaming<'a> {
    match IndirectNaming::from_reader(&mut BinaryReader::new(bytes, 7)) {
        Ok(naming) => naming,
        Err(_) => panic!(rt; "no names"),
    }
}

#[test]
fn names_of_locals(rt: HostRuntime) {
    // The count has a byte more than it takes.
    let naming = locals(&rt, b"\xac\x02\x82\0\0\x01x\x03\x01y\xff");
    encodes(&rt, &naming, b"\xac\x02\x02\0\x01x\x03\x01y");
}

#[test]
fn names_that_were_iterated_over(rt: HostRuntime) {
    let mut naming = locals(&rt, b"\x05\x01\0\x01x");
    assert!(&rt; naming.names.next().is_some());
    is_refused(&rt, &naming);
}
