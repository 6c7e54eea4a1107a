// What linkers and dynamic linkers read (tool conventions, Linking and Dynamic Linking).
use crate::tests::{encodes, is_refused};
use std::process::Abort;
use wasm_base::{BinaryReader, SectionLimited};
use wasm_custom::{
    Comdat, ComdatSymbol, ComdatSymbolKind, DefinedDataSymbol, ExportInfo, ImportInfo, InitFunc,
    MemInfo, RelocationEntry, RelocationType, Segment, SegmentFlags, SymbolFlags, SymbolInfo,
};
use wasm_encode::{reloc_len, section_fits, write_reloc};

#[test]
fn dynamic_linking(rt: HostRuntime) {
    let info = MemInfo {
        memory_size: 65_536,
        memory_alignment: 2,
        table_size: 1,
        table_alignment: 0,
    };
    encodes(&rt, &info, b"\x80\x80\x04\x02\x01\0");
    let export = ExportInfo {
        name: "f",
        flags: SymbolFlags::TLS,
    };
    encodes(&rt, &export, b"\x01f\x80\x02");
    let import = ImportInfo {
        module: "env",
        field: "g",
        flags: SymbolFlags::BINDING_WEAK,
    };
    encodes(&rt, &import, b"\x03env\x01g\x01");
}

#[test]
fn linking(rt: HostRuntime) {
    let segment = Segment {
        name: ".data",
        alignment: 3,
        flags: SegmentFlags::TLS,
    };
    encodes(&rt, &segment, b"\x05.data\x03\x02");
    let function = InitFunc {
        priority: 200,
        symbol_index: 4,
    };
    encodes(&rt, &function, b"\xc8\x01\x04");
    let symbol = ComdatSymbol {
        kind: ComdatSymbolKind::Section,
        index: 300,
    };
    encodes(&rt, &symbol, b"\x05\xac\x02");
}

// A relocation at the offset 6, of the symbol 2.
fn relocation(ty: RelocationType, addend: i64) -> RelocationEntry {
    RelocationEntry {
        ty,
        offset: 6,
        index: 2,
        addend,
    }
}

#[test]
fn relocations(rt: HostRuntime) {
    let entry = relocation(RelocationType::FunctionIndexLeb, 0);
    encodes(&rt, &entry, b"\0\x06\x02");
    let entry = relocation(RelocationType::MemoryAddrLeb, 8);
    encodes(&rt, &entry, b"\x03\x06\x02\x08");
    let entry = relocation(RelocationType::MemoryAddrI32, -0x8000_0000);
    encodes(&rt, &entry, b"\x05\x06\x02\x80\x80\x80\x80\x78");
    let entry = relocation(RelocationType::MemoryAddrI64, -1);
    encodes(&rt, &entry, b"\x10\x06\x02\x7f");
}

#[test]
fn refused_relocations(rt: HostRuntime) {
    // A type without an addend, and addends above and below 32 bits.
    is_refused(&rt, &relocation(RelocationType::FunctionIndexLeb, 1));
    is_refused(&rt, &relocation(RelocationType::MemoryAddrI32, 0x8000_0000));
    is_refused(
        &rt,
        &relocation(RelocationType::MemoryAddrLeb, -0x8000_0001),
    );
}

// A comdat with these symbols.
fn comdat<'a>(rt: &impl Abort, symbols: &'a [u8]) -> Comdat<'a> {
    match SectionLimited::new(BinaryReader::new(symbols, 9)) {
        Ok(symbols) => Comdat {
            name: "c",
            flags: 0,
            symbols,
        },
        Err(_) => panic!(rt; "no count"),
    }
}

#[test]
fn comdats(rt: HostRuntime) {
    let bytes = b"\x01c\0\x02\x01\x05\0\xac\x02";
    encodes(&rt, &comdat(&rt, b"\x02\x01\x05\0\xac\x02"), bytes);
    // A kind that there is not.
    is_refused(&rt, &comdat(&rt, b"\x01\x06\x05"));
}

// The symbol of function 3.
fn function<'a>(flags: SymbolFlags, name: Option<&'a str>) -> SymbolInfo<'a> {
    SymbolInfo::Func {
        flags,
        index: 3,
        name,
    }
}

#[test]
fn symbols(rt: HostRuntime) {
    let local = SymbolFlags::BINDING_LOCAL;
    encodes(&rt, &function(local, Some("f")), b"\0\x02\x03\x01f");
    let imported = SymbolFlags::UNDEFINED;
    encodes(&rt, &function(imported, None), b"\0\x10\x03");
    // A name that is there or not against the flags.
    is_refused(&rt, &function(local, None));
    is_refused(&rt, &function(imported, Some("f")));
    let flags = SymbolFlags::TLS;
    let section = SymbolInfo::Section { flags, section: 7 };
    encodes(&rt, &section, b"\x03\x80\x02\x07");
    let table = SymbolInfo::Table {
        flags: SymbolFlags::EXPORTED,
        index: 0,
        name: Some("t"),
    };
    encodes(&rt, &table, b"\x05\x20\0\x01t");
}

// The symbol of data.
fn data_symbol<'a>(flags: SymbolFlags, symbol: Option<DefinedDataSymbol>) -> SymbolInfo<'a> {
    SymbolInfo::Data {
        flags,
        name: "x",
        symbol,
    }
}

#[test]
fn symbols_of_data(rt: HostRuntime) {
    let place = DefinedDataSymbol {
        index: 0,
        offset: 8,
        size: 200,
    };
    encodes(&rt, &place, b"\0\x08\xc8\x01");
    let weak = SymbolFlags::BINDING_WEAK;
    encodes(
        &rt,
        &data_symbol(weak, Some(place)),
        b"\x01\x01\x01x\0\x08\xc8\x01",
    );
    let imported = SymbolFlags::UNDEFINED;
    encodes(&rt, &data_symbol(imported, None), b"\x01\x10\x01x");
    is_refused(&rt, &data_symbol(weak, None));
    is_refused(&rt, &data_symbol(imported, Some(place)));
}

#[test]
fn relocations_of_a_section(rt: HostRuntime) {
    let entries = [
        relocation(RelocationType::FunctionIndexLeb, 0),
        relocation(RelocationType::MemoryAddrSleb, -1),
    ];
    assert!(&rt; section_fits(&entries));
    assert_eq!(&rt; reloc_len(300, &entries), 10);
    let mut bytes = [0; 10];
    write_reloc(&mut bytes, 0, 300, &entries);
    assert_eq!(&rt; &bytes, b"\xac\x02\x02\0\x06\x02\x04\x06\x02\x7f");
}
