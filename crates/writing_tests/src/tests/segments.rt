// Tables, data segments and bodies (core specification, Binary format, Modules).
use super::{encodes, is_refused};
use wasm_base::BinaryReader;
use wasm_items::{ConstExpr, Data, DataKind, FunctionBody, RefType, Table, TableInit, TableType};

fn expression<'a>(bytes: &'a [u8]) -> ConstExpr<'a> {
    ConstExpr::new(BinaryReader::new(bytes, 7))
}

#[test]
fn tables(rt: HostRuntime) {
    let ty = TableType {
        element_type: RefType::FUNCREF,
        table64: false,
        initial: 1,
        maximum: None,
        shared: false,
    };
    let null = Table {
        ty,
        init: TableInit::RefNull,
    };
    encodes(&rt, &null, b"\x70\0\x01");
    let init = TableInit::Expr(expression(b"\xd2\x03\x0b"));
    encodes(&rt, &Table { ty, init }, b"\x40\0\x70\0\x01\xd2\x03\x0b");
    let init = TableInit::Expr(expression(b"\xd2\x03"));
    is_refused(&rt, &Table { ty, init });
}

#[test]
fn data(rt: HostRuntime) {
    let passive = Data {
        kind: DataKind::Passive,
        bytes: b"hi",
        range: 0..0,
    };
    encodes(&rt, &passive, b"\x01\x02hi");
    for (memory_index, wanted) in [
        (0, b"\0\x41\x08\x0b\x02hi".as_slice()),
        (200, b"\x02\xc8\x01\x41\x08\x0b\x02hi".as_slice()),
    ] {
        let kind = DataKind::Active {
            memory_index,
            offset_expr: expression(b"\x41\x08\x0b"),
        };
        let segment = Data {
            kind,
            bytes: b"hi",
            range: 0..0,
        };
        encodes(&rt, &segment, wanted);
    }
}

#[test]
fn bodies(rt: HostRuntime) {
    let body = FunctionBody::new(BinaryReader::new(b"\0\x0b", 16));
    encodes(&rt, &body, b"\x02\0\x0b");
    let body = FunctionBody::new(BinaryReader::new(b"\0\x01\x0b", 90));
    encodes(&rt, &body, b"\x03\0\x01\x0b");
}
