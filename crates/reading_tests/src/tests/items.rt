// Items by the calls that read them, and as values. Tables of rows are in `test_rows`.
mod heads;
mod imports;
mod instructions;
mod items;
mod leads;
mod segments;

use crate::tests::{is_printed, same};
use std::test::Fail;
use wasm_base::{BinaryReader, WasmFeatures};
use wasm_items::{ConstExpr, FunctionBody, HeapType, RefType, ValType};

// A window of two bytes at 102, with one feature.
fn window() -> BinaryReader<'static> {
    BinaryReader::new_features(&[0, 0x0b], 102, WasmFeatures::MEMORY64)
}

#[test]
fn a_body_is_its_window(rt: HostRuntime) -> Result<(), Fail> {
    let body = FunctionBody::new(window());
    same(&rt, body.range(), 102..104);
    let mut reader = body.get_binary_reader();
    same(&rt, reader.features(), WasmFeatures::MEMORY64);
    same(&rt, reader.read_u8(), Ok(0));
    same(&rt, reader.original_position(), 103);
    // The body still begins where it began.
    same(&rt, body.get_binary_reader().original_position(), 102);
    Ok(())
}

#[test]
fn an_expression_is_its_window(rt: HostRuntime) -> Result<(), Fail> {
    let mut reader = window();
    reader.read_u8()?;
    let expression = ConstExpr::new(reader).clone()?;
    same(&rt, expression.range(), 102..104);
    let reader = expression.get_binary_reader();
    same(&rt, reader.range(), 102..104);
    same(&rt, reader.remaining_range(), 103..104);
    Ok(())
}

#[test]
fn an_expression_of_a_long_number(rt: HostRuntime) -> Result<(), Fail> {
    let mut reader = BinaryReader::new(b"\x41\xff\xff\xff\xff\x7f\x0b", 0);
    let expression = reader.read::<ConstExpr<'_>>()?;
    same(&rt, expression.range(), 0..7);
    same(&rt, reader.original_position(), 7);
    Ok(())
}

#[test]
fn a_function_reference(rt: HostRuntime) {
    let any_function = RefType {
        nullable: true,
        heap: HeapType::Func,
    };
    same(&rt, RefType::FUNCREF, any_function);
    assert!(rt; ValType::Ref(RefType::FUNCREF) != ValType::I32);
    let text = "Ref(RefType { nullable: true, heap: Func })";
    is_printed(&rt, rt.alloc(), &ValType::Ref(RefType::FUNCREF), text);
}
