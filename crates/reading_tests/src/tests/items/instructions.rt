// The instructions of constant expressions, by their debug texts. Tables of rows are in `test_rows`.
use crate::tests::gives;
use std::alloc::Global;
use std::process::Abort;
use wasm_base::{BinaryReader, fits};
use wasm_items::ConstExpr;

// The instructions of an expression of these bytes are printed as these texts.
fn instructs(rt: &impl Abort, alloc: Global, offset: u64, bytes: &[u8], texts: &[&str]) {
    assert!(rt; fits(offset, bytes.len()));
    let expression = ConstExpr::new(BinaryReader::new(bytes, offset));
    gives(rt, alloc, expression.instructions(), texts);
}

#[test]
fn sums_and_globals(rt: HostRuntime) {
    let texts = [
        "Ok(ConstInstruction { offset: 0, operator: GlobalGet { global_index: 1 } })",
        "Ok(ConstInstruction { offset: 2, operator: I32Const { value: 4 } })",
        "Ok(ConstInstruction { offset: 4, operator: I32Add })",
        "Ok(ConstInstruction { offset: 5, operator: End })",
    ];
    instructs(&rt, rt.alloc(), 0, b"\x23\x01\x41\x04\x6a\x0b", &texts);
    let texts = [
        "Ok(ConstInstruction { offset: 18446744073709551600, operator: I64Const { value: -1 } })",
        "Ok(ConstInstruction { offset: 18446744073709551602, operator: I32Const { value: -128 } })",
        "Ok(ConstInstruction { offset: 18446744073709551605, operator: I32Sub })",
        "Ok(ConstInstruction { offset: 18446744073709551606, operator: I32Mul })",
        "Ok(ConstInstruction { offset: 18446744073709551607, operator: I64Add })",
        "Ok(ConstInstruction { offset: 18446744073709551608, operator: I64Sub })",
        "Ok(ConstInstruction { offset: 18446744073709551609, operator: I64Mul })",
        "Ok(ConstInstruction { offset: 18446744073709551610, operator: End })",
    ];
    let bytes = b"\x42\x7f\x41\x80\x7f\x6b\x6c\x7c\x7d\x7e\x0b";
    instructs(&rt, rt.alloc(), 18446744073709551600, bytes, &texts);
}

#[test]
fn references(rt: HostRuntime) {
    let texts = [
        "Ok(ConstInstruction { offset: 7, operator: RefNull { hty: Func } })",
        "Ok(ConstInstruction { offset: 9, operator: RefNull { hty: Concrete(5) } })",
        "Ok(ConstInstruction { offset: 11, operator: RefFunc { function_index: 3 } })",
        "Ok(ConstInstruction { offset: 14, operator: RefI31 })",
        "Ok(ConstInstruction { offset: 16, operator: End })",
    ];
    instructs(
        &rt,
        rt.alloc(),
        7,
        b"\xd0\x70\xd0\x05\xd2\x83\x00\xfb\x1c\x0b",
        &texts,
    );
}

#[test]
fn structures_and_arrays(rt: HostRuntime) {
    let texts = [
        "Ok(ConstInstruction { offset: 0, operator: StructNew { struct_type_index: 9 } })",
        "Ok(ConstInstruction { offset: 3, operator: StructNewDefault { struct_type_index: 8 } })",
        "Ok(ConstInstruction { offset: 6, operator: ArrayNew { array_type_index: 7 } })",
        "Ok(ConstInstruction { offset: 9, operator: ArrayNewDefault { array_type_index: 6 } })",
        "Ok(ConstInstruction { offset: 12, operator: ArrayNewFixed { array_type_index: 5, array_size: 3 } })",
        "Ok(ConstInstruction { offset: 16, operator: AnyConvertExtern })",
        "Ok(ConstInstruction { offset: 18, operator: ExternConvertAny })",
        "Ok(ConstInstruction { offset: 20, operator: End })",
    ];
    let bytes =
        b"\xfb\x00\x09\xfb\x01\x08\xfb\x06\x07\xfb\x07\x06\xfb\x08\x05\x03\xfb\x1a\xfb\x1b\x0b";
    instructs(&rt, rt.alloc(), 0, bytes, &texts);
}

#[test]
fn floats_and_vectors(rt: HostRuntime) {
    let texts = [
        "Ok(ConstInstruction { offset: 0, operator: F32Const { value: Ieee32(1065353216) } })",
        "Ok(ConstInstruction { offset: 5, operator: F64Const { value: Ieee64(578437695752307201) } })",
        "Ok(ConstInstruction { offset: 14, operator: V128Const { \
            value: V128([1, 2, 3, 4, 5, 6, 7, 8, 9, 10, 11, 12, 13, 14, 15, 16]) } })",
        "Err(Error { fault: UnexpectedEof, offset: 32, number: None, hint: Some(1) })",
    ];
    let bytes =
        b"\x43\0\0\x80\x3f\x44\x01\x02\x03\x04\x05\x06\x07\x08\xfd\x0c\x01\x02\x03\x04\x05\x06\x07\x08\x09\x0a\x0b\x0c\x0d\x0e\x0f\x10";
    instructs(&rt, rt.alloc(), 0, bytes, &texts);
}

#[test]
fn faults_and_what_comes_after_the_end(rt: HostRuntime) {
    let end = ["Ok(ConstInstruction { offset: 5, operator: End })"];
    instructs(&rt, rt.alloc(), 5, b"\x0b\x41\x00", &end);
    let missing = ["Err(Error { fault: UnexpectedEof, offset: 100, number: None, hint: Some(1) })"];
    instructs(&rt, rt.alloc(), 100, b"", &missing);
    let texts = [
        "Ok(ConstInstruction { offset: 100, operator: RefFunc { function_index: 1 } })",
        "Err(Error { fault: NotConstant, offset: 102, number: None, hint: None })",
    ];
    instructs(&rt, rt.alloc(), 100, b"\xd2\x01\x20\x00\x0b", &texts);
    let texts = [
        "Ok(ConstInstruction { offset: 100, operator: I32Const { value: 1 } })",
        "Err(Error { fault: NumberTooLarge(VarI32), offset: 107, number: None, hint: None })",
    ];
    instructs(
        &rt,
        rt.alloc(),
        100,
        b"\x41\x01\x41\x80\x80\x80\x80\x10",
        &texts,
    );
}
