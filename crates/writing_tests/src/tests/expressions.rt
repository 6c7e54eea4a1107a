// Constant expressions made of operators.
use super::encodes;
use std::process::Abort;
use wasm_base::BinaryReader;
use wasm_encode::{expression_fits, expression_len, write_expression};
use wasm_items::{ConstOperator, HeapType, read_instruction};

#[test]
fn operators(rt: HostRuntime) {
    encodes(&rt, &ConstOperator::End, b"\x0b");
    encodes(
        &rt,
        &ConstOperator::GlobalGet { global_index: 300 },
        b"\x23\xac\x02",
    );
    encodes(&rt, &ConstOperator::I32Const { value: -1 }, b"\x41\x7f");
    encodes(&rt, &ConstOperator::I64Const { value: 64 }, b"\x42\xc0\0");
    encodes(&rt, &ConstOperator::I64Mul, b"\x7e");
    encodes(
        &rt,
        &ConstOperator::RefNull {
            hty: HeapType::Extern,
        },
        b"\xd0\x6f",
    );
    encodes(
        &rt,
        &ConstOperator::RefFunc {
            function_index: 128,
        },
        b"\xd2\x80\x01",
    );
    encodes(
        &rt,
        &ConstOperator::StructNewDefault {
            struct_type_index: 2,
        },
        b"\xfb\x01\x02",
    );
    let array = ConstOperator::ArrayNewFixed {
        array_type_index: 1,
        array_size: 200,
    };
    encodes(&rt, &array, b"\xfb\x08\x01\xc8\x01");
    encodes(&rt, &ConstOperator::AnyConvertExtern, b"\xfb\x1a");
    encodes(&rt, &ConstOperator::RefI31, b"\xfb\x1c");
}

fn is_written_again(rt: &impl Abort, bytes: &[u8]) {
    match read_instruction(&mut BinaryReader::new(bytes, 300)) {
        Ok(instruction) => encodes(rt, &instruction.operator, bytes),
        Err(_) => panic!(rt; "no instruction"),
    }
}

#[test]
fn floats_and_vectors(rt: HostRuntime) {
    is_written_again(&rt, b"\x43\x01\x02\xc0\x7f");
    is_written_again(&rt, b"\x44\x01\x02\x03\x04\x05\x06\xf0\x3f");
    is_written_again(
        &rt,
        b"\xfd\x0c\x01\x02\x03\x04\x05\x06\x07\x08\x09\x0a\x0b\x0c\x0d\x0e\x0f\x10",
    );
}

#[test]
fn expressions(rt: HostRuntime) {
    let operators = [
        ConstOperator::GlobalGet { global_index: 0 },
        ConstOperator::I32Const { value: 8 },
        ConstOperator::I32Add,
    ];
    assert!(&rt; expression_fits(&operators));
    let size = expression_len(&operators);
    assert!(&rt; size == 6);
    let mut bytes = [0xaa; 10];
    let end = write_expression(&mut bytes, 1, &operators);
    assert_eq!(&rt; &bytes[..end], b"\xaa\x23\0\x41\x08\x6a\x0b".as_slice());
    assert!(&rt; !expression_fits(&[ConstOperator::End]));
}
