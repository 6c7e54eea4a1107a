// Sections (core specification, Binary format, Modules, Sections).
use std::alloc::Global;
use std::process::Abort;
use wasm_base::BinaryReader;
use wasm_encode::{
    Encode, Module, SectionItem, number_section_len, section_fits, section_len,
    write_number_section, write_section,
};
use wasm_items::{
    Export, ExternalKind, FunctionBody, Import, ImportSection, ImportSectionReader, TagKind,
    TagType, TypeRef,
};

// A module without sections.
fn empty(rt: &impl Abort, alloc: Global) -> Module<Global> {
    match Module::new(alloc) {
        Ok(module) => module,
        Err(_) => panic!(rt; "out of memory"),
    }
}

// The bytes of a module with a section of these items.
fn module_of<T: SectionItem>(rt: &impl Abort, alloc: Global, items: &[T]) -> Vec<u8> {
    let mut module = empty(rt, alloc);
    assert_eq!(rt; module.section(items), Ok(()));
    let Ok(bytes) = module.finish() else {
        panic!(rt; "a section is missing");
    };
    bytes
}

// Items are written as this section.
fn is_section<T: SectionItem>(rt: &impl Abort, alloc: Global, items: &[T], wanted: &[u8]) {
    let bytes = module_of(rt, alloc, items);
    assert_eq!(rt; bytes.get(8..).unwrap_or(b""), wanted);
}

#[test]
fn an_import_section(rt: HostRuntime) {
    let imports = [
        Import {
            module: "env",
            name: "f",
            ty: TypeRef::Func(300),
        },
        Import {
            module: "",
            name: "g",
            ty: TypeRef::Func(0),
        },
    ];
    let bytes = b"\x02\x0f\x02\x03env\x01f\0\xac\x02\0\x01g\0\0";
    is_section(&rt, rt.alloc(), &imports, bytes);
}

#[test]
fn an_import_section_is_read(rt: HostRuntime) {
    let import = Import {
        module: "env",
        name: "f",
        ty: TypeRef::Func(300),
    };
    let bytes = module_of(&rt, rt.alloc(), &[import, import]);
    let content = bytes.get(10..).unwrap_or(b"");
    let Ok(section) = ImportSectionReader::new(BinaryReader::new(content, 10)) else {
        panic!(&rt; "no section");
    };
    let mut count = 0_u64;
    for item in section.into_imports() {
        let Ok(read) = item else {
            panic!(&rt; "no import");
        };
        assert!(&rt; read == import);
        count = count.saturating_add(1);
    }
    assert_eq!(&rt; count, 2);
}

#[test]
fn other_sections(rt: HostRuntime) {
    let exports = [Export {
        name: "run",
        kind: ExternalKind::Func,
        index: 2,
    }];
    is_section(&rt, rt.alloc(), &exports, b"\x07\x07\x01\x03run\0\x02");
    let tags = [TagType {
        kind: TagKind::Exception,
        func_type_idx: 3,
    }];
    is_section(&rt, rt.alloc(), &tags, b"\x0d\x03\x01\0\x03");
}

#[test]
fn an_empty_section(rt: HostRuntime) {
    let exports: [Export<'_>; 0] = [];
    is_section(&rt, rt.alloc(), &exports, b"\x07\x01\0");
}

#[test]
fn a_section_with_an_item_that_is_refused(rt: HostRuntime) {
    let exact = Export {
        name: "f",
        kind: ExternalKind::FuncExact,
        index: 0,
    };
    assert!(&rt; !section_fits(&[exact]));
}

// A body that does nothing.
fn body() -> FunctionBody<'static> {
    FunctionBody::new(BinaryReader::new(b"\0\x0b", 0))
}

#[test]
fn functions_and_code(rt: HostRuntime) {
    let mut module = empty(&rt, rt.alloc());
    assert_eq!(&rt; module.section(&[0u32, 7, 300]), Ok(()));
    assert_eq!(&rt; module.section(&[body(), body(), body()]), Ok(()));
    let Ok(bytes) = module.finish() else {
        panic!(&rt; "a section is missing");
    };
    let wanted = b"\x03\x05\x03\0\x07\xac\x02\x0a\x0a\x03\x02\0\x0b\x02\0\x0b\x02\0\x0b".as_slice();
    assert_eq!(&rt; bytes.get(8..).unwrap_or(b""), wanted);
}

// The start section with this function is these bytes.
fn starts(rt: &impl Abort, alloc: Global, function: u32, wanted: &[u8]) {
    let mut module = empty(rt, alloc);
    assert_eq!(rt; module.start(function), Ok(()));
    let Ok(bytes) = module.finish() else {
        panic!(rt; "a section is missing");
    };
    assert_eq!(rt; bytes.get(8..).unwrap_or(b""), wanted);
}

#[test]
fn start_sections(rt: HostRuntime) {
    starts(&rt, rt.alloc(), 300, b"\x08\x02\xac\x02");
    starts(&rt, rt.alloc(), u32::MAX, b"\x08\x05\xff\xff\xff\xff\x0f");
}

// Items are written as this section, and no byte before or after it changes.
fn is_written<T: Encode>(rt: &impl Abort, id: u8, items: &[T], wanted: &[u8]) {
    assert!(rt; section_fits(items));
    assert!(rt; wanted.len() < 60);
    assert_eq!(rt; section_len(items), wanted.len());
    let mut bytes = [0xaa; 64];
    let end = write_section(&mut bytes, 3, id, items);
    assert_eq!(rt; &bytes[3..end], wanted);
    assert!(rt; bytes[2] == 0xaa && bytes[end] == 0xaa);
}

#[test]
fn sections_among_other_bytes(rt: HostRuntime) {
    is_written(&rt, 3, &[0u32, 7, 300], b"\x03\x05\x03\0\x07\xac\x02");
    let tags = [TagType {
        kind: TagKind::Exception,
        func_type_idx: 3,
    }];
    is_written(&rt, 13, &tags, b"\x0d\x03\x01\0\x03");
}

#[test]
fn numbers_among_other_bytes(rt: HostRuntime) {
    assert_eq!(&rt; number_section_len(300), 4);
    let mut bytes = [0xaa; 6];
    assert_eq!(&rt; write_number_section(&mut bytes, 1, 12, 300), 5);
    assert_eq!(&rt; &bytes, b"\xaa\x0c\x02\xac\x02\xaa");
}
