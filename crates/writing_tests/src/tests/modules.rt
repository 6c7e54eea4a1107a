// Modules that are built section by section (core specification, Binary format, Modules).
use std::alloc::Global;
use std::process::Abort;
use test_devices::Sparing;
use wasm_base::{BinaryReader, SectionLimited};
use wasm_encode::{Module, Refused, Unfinished};
use wasm_items::{
    Data, DataKind, Element, ElementItems, ElementKind, Export, ExternalKind, FunctionBody, Import,
    MemoryType, TypeRef,
};

const HEADER: &[u8] = b"\0asm\x01\0\0\0";

// A module without sections.
fn empty(rt: &impl Abort, alloc: Global) -> Module<Global> {
    match Module::new(alloc) {
        Ok(module) => module,
        Err(_) => panic!(rt; "out of memory"),
    }
}

// The module ends as these bytes, after its header.
fn ends_as(rt: &impl Abort, module: Module<Global>, sections: &[u8]) {
    let Ok(bytes) = module.finish() else {
        panic!(rt; "a section is missing");
    };
    assert!(rt; bytes.len() >= 8);
    assert_eq!(rt; &bytes.as_slice()[..8], HEADER);
    assert_eq!(rt; &bytes.as_slice()[8..], sections);
}

// An exported function.
fn export(name: &str) -> Export<'_> {
    Export {
        name,
        kind: ExternalKind::Func,
        index: 1,
    }
}

// A body that does nothing.
fn body() -> FunctionBody<'static> {
    FunctionBody::new(BinaryReader::new(b"\0\x0b", 0))
}

// A passive segment.
fn segment(bytes: &[u8]) -> Data<'_> {
    Data {
        kind: DataKind::Passive,
        bytes,
        range: 0..0,
    }
}

#[test]
fn a_module(rt: HostRuntime) {
    let mut module = empty(&rt, rt.alloc());
    let import = Import {
        module: "env",
        name: "f",
        ty: TypeRef::Func(0),
    };
    assert_eq!(&rt; module.section(&[import]), Ok(()));
    assert_eq!(&rt; module.section(&[0u32]), Ok(()));
    let memory = MemoryType {
        memory64: false,
        shared: false,
        initial: 1,
        maximum: None,
        page_size_log2: None,
    };
    assert_eq!(&rt; module.section(&[memory]), Ok(()));
    assert_eq!(&rt; module.section(&[export("run")]), Ok(()));
    assert_eq!(&rt; module.start(0), Ok(()));
    assert_eq!(&rt; module.data_count(1), Ok(()));
    assert_eq!(&rt; module.section(&[body()]), Ok(()));
    assert_eq!(&rt; module.custom("a", b"xyz"), Ok(()));
    assert_eq!(&rt; module.section(&[segment(b"hi")]), Ok(()));
    let imports = b"\x02\x09\x01\x03env\x01f\0\0";
    let functions = b"\x03\x02\x01\0";
    let memories = b"\x05\x03\x01\0\x01";
    let exports = b"\x07\x07\x01\x03run\0\x01";
    let others =
        b"\x08\x01\0\x0c\x01\x01\x0a\x04\x01\x02\0\x0b\0\x05\x01axyz\x0b\x05\x01\x01\x02hi";
    let Ok(bytes) = module.finish() else {
        panic!(&rt; "a section is missing");
    };
    let wanted: [&[u8]; 6] = [HEADER, imports, functions, memories, exports, others];
    let mut rest = bytes.as_slice();
    for part in wanted {
        assert!(&rt; rest.starts_with(part));
        rest = rest.get(part.len()..).unwrap_or(b"");
    }
    assert!(&rt; rest.is_empty());
}

#[test]
fn a_module_with_elements(rt: HostRuntime) {
    let mut module = empty(&rt, rt.alloc());
    let reader = BinaryReader::new(b"\x05\x06", 0);
    let segment = Element {
        kind: ElementKind::Declared,
        items: ElementItems::Functions(SectionLimited::after_count(reader, 2)),
        range: 0..0,
    };
    assert_eq!(&rt; module.section(&[segment]), Ok(()));
    ends_as(&rt, module, b"\x09\x06\x01\x03\0\x02\x05\x06");
}

#[test]
fn a_module_without_sections(rt: HostRuntime) {
    ends_as(&rt, empty(&rt, rt.alloc()), b"");
}

#[test]
fn sections_out_of_order(rt: HostRuntime) {
    let mut module = empty(&rt, rt.alloc());
    assert_eq!(&rt; module.start(0), Ok(()));
    assert_eq!(&rt; module.start(0), Err(Refused::Order));
    assert_eq!(&rt; module.section(&[export("f")]), Err(Refused::Order));
    // A custom section may come anywhere, and twice.
    assert_eq!(&rt; module.custom("", b""), Ok(()));
    assert_eq!(&rt; module.custom("", b""), Ok(()));
    // The data count section comes before code.
    let bodies: [FunctionBody<'_>; 0] = [];
    assert_eq!(&rt; module.section(&bodies), Ok(()));
    assert_eq!(&rt; module.data_count(0), Err(Refused::Order));
    ends_as(&rt, module, b"\x08\x01\0\0\x01\0\0\x01\0\x0a\x01\0");
}

#[test]
fn counts_that_differ(rt: HostRuntime) {
    let mut module = empty(&rt, rt.alloc());
    assert_eq!(&rt; module.section(&[body()]), Err(Refused::Count));
    assert_eq!(&rt; module.section(&[0u32, 0]), Ok(()));
    assert_eq!(&rt; module.data_count(1), Ok(()));
    assert_eq!(&rt; module.section(&[body()]), Err(Refused::Count));
    assert_eq!(&rt; module.section(&[body(), body()]), Ok(()));
    let segments: [Data<'_>; 0] = [];
    assert_eq!(&rt; module.section(&segments), Err(Refused::Count));
    assert_eq!(&rt; module.section(&[segment(b"")]), Ok(()));
    ends_as(
        &rt,
        module,
        b"\x03\x03\x02\0\0\x0c\x01\x01\x0a\x07\x02\x02\0\x0b\x02\0\x0b\x0b\x03\x01\x01\0",
    );
}

#[test]
fn modules_that_lack_a_section(rt: HostRuntime) {
    let mut module = empty(&rt, rt.alloc());
    assert_eq!(&rt; module.section(&[0u32]), Ok(()));
    assert!(&rt; matches!(module.finish(), Err(Unfinished::Code)));
    let mut module = empty(&rt, rt.alloc());
    assert_eq!(&rt; module.data_count(1), Ok(()));
    assert!(&rt; matches!(module.finish(), Err(Unfinished::Data)));
    // No function needs no code, and no announced segment no data.
    let mut module = empty(&rt, rt.alloc());
    let none: [u32; 0] = [];
    assert_eq!(&rt; module.section(&none), Ok(()));
    assert_eq!(&rt; module.data_count(0), Ok(()));
    ends_as(&rt, module, b"\x03\x01\0\x0c\x01\0");
}

#[test]
fn items_that_are_refused(rt: HostRuntime) {
    let mut module = empty(&rt, rt.alloc());
    let exact = Export {
        name: "f",
        kind: ExternalKind::FuncExact,
        index: 0,
    };
    assert_eq!(&rt;
        module.section(&[export("f"), exact, exact]),
        Err(Refused::Item(1))
    );
    // What can't be written is refused also where it may not come.
    assert_eq!(&rt; module.start(0), Ok(()));
    assert_eq!(&rt; module.section(&[exact]), Err(Refused::Item(0)));
    ends_as(&rt, module, b"\x08\x01\0");
}

#[test]
fn names_that_are_too_long(rt: HostRuntime) {
    let Ok(name) = vec![in rt.alloc(); b'a'; 100_001] else {
        panic!(&rt; "out of memory");
    };
    let Ok(name) = str::from_utf8(&name) else {
        panic!(&rt; "not a text");
    };
    let mut module = empty(&rt, rt.alloc());
    assert_eq!(&rt; module.custom(name, b""), Err(Refused::Size));
    assert_eq!(&rt; module.section(&[export(name)]), Err(Refused::Item(0)));
    ends_as(&rt, module, b"");
}

// How many blocks it takes to build a module of three sections, with this many at most: none if they are too few. A call
// that fails leaves the module as it was.
fn builds_within(rt: &impl Abort, alloc: Global, blocks: u64) -> bool {
    let heap = Sparing::new(alloc, blocks);
    let Ok(mut module) = Module::new(&heap) else {
        return false;
    };
    let mut refused = false;
    let added = module.start(300);
    if added.is_err() {
        assert_eq!(rt; added, Err(Refused::Memory));
        refused = true;
        heap.give(1);
        assert_eq!(rt; module.start(300), Ok(()));
        heap.give(0);
    }
    let added = module.custom("name", b"some bytes that need more room");
    if added.is_err() {
        assert_eq!(rt; added, Err(Refused::Memory));
        refused = true;
        heap.give(1);
        assert_eq!(rt;
            module.custom("name", b"some bytes that need more room"),
            Ok(())
        );
    }
    let Ok(bytes) = module.finish() else {
        panic!(rt; "a section is missing");
    };
    assert_eq!(rt; bytes.len(), 8 + 4 + 37);
    !refused
}

#[test]
fn allocations_that_fail(rt: HostRuntime) {
    assert!(&rt; !builds_within(&rt, rt.alloc(), 0));
    for blocks in 1..10 {
        if builds_within(&rt, rt.alloc(), blocks) {
            return;
        }
    }
    panic!(&rt; "ten blocks are not enough");
}
