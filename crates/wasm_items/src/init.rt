// Constant expressions.
ghost use Rattle.std.specs.Prelude.{◌≡◌, ◌+◌, length};
ghost use Rattle.wasm_base.specs.Hints.{NotOutOfMemory};
ghost use Rattle.wasm_base.specs.Item.{ReadsAs};
ghost use Rattle.wasm_base.specs.Outcome.{GivesBy};
ghost use Rattle.wasm_base.specs.Window.{place, KeepsWindow, range_of};
ghost use Rattle.wasm_base.specs.Name.{bytes_at};
ghost use Rattle.wasm_items.specs.Init.{after_opcode, aggregate_operands_of, vector_operands_of, numbered_operands_at, end_of_expression, LeavesExpression};
ghost use Rattle.wasm_items.specs.Windows.{bytes_of_vector};

use crate::types::HeapType;
use std::ops::Range;
use wasm_base::{
    BinaryReader, Error, Fault, FromReader, Ieee32, Ieee64, Result, SkipItem, passed_since,
};

/// A constant expression, as the window of its instructions up to and including `end`.
///
/// Reading an expression checks that it consists of constant instructions, but not their types. `instructions` decodes
/// them.
///
/// ```rattle
/// // `i32.const 5` and `end`, followed by another byte.
/// let mut reader = BinaryReader::new(&[0x41, 5, 0x0b, 0], 100);
/// let expression = ConstExpr::from_reader(&mut reader)?;
/// assert_eq!(rt; expression.range().end, 103);
/// ```
///
/// (Core specification, Binary format, Instructions, Expressions.)
#[derive(Clone, Debug, Drop)]
pub struct ConstExpr<'a> {
    reader: BinaryReader<'a>,
}

impl<'a> ConstExpr<'a> {
    ghost use Rattle.wasm_items.specs.Windows.{expression_window};

    /// Creates an expression from a window, without reading or checking it.
    pub fn new(reader: BinaryReader<'a>) -> Self
        ensures { expression_window result ≡ reader.entry }
    {
        ConstExpr { reader }
    }

    /// Returns a reader over the instructions, including `end`.
    pub fn get_binary_reader(&self) -> BinaryReader<'a>
        ensures { result ≡ expression_window self.now }
    {
        self.reader.clone().unwrap()
    }

    /// Returns the offsets of the expression, including `end`, in bytes from the start of the stream.
    pub fn range(&self) -> Range<u64>
        ensures { result ≡ range_of (expression_window self.now) }
    {
        self.reader.range()
    }
}

/// A 128-bit vector, as the 16 bytes that encode it.
///
/// ```rattle
/// // `v128.const` with 16 bytes, of which the last is 7.
/// let bytes = b"\xfd\x0c\0\0\0\0\0\0\0\0\0\0\0\0\0\0\0\x07\x0b";
/// let instruction = read_instruction(&mut BinaryReader::new(bytes, 0))?;
/// if let ConstOperator::V128Const { value } = instruction.operator {
///     assert_eq!(rt; value.bytes()[15], 7);
/// }
/// ```
///
/// (Core specification, Binary format, Instructions, Vector Instructions.)
#[derive(Clone, Copy, Debug, PartialEq, Eq)]
pub struct V128(pub(crate) [u8; 16]);

impl V128 {
    /// Returns the bytes of the vector, in little-endian order as encoded.
    pub fn bytes(&self) -> &[u8; 16]
        ensures { result.now ≡ bytes_of_vector self.now }
    {
        &self.0
    }
}

/// The operator of a constant instruction, with its operands.
///
/// The variants have the names that these operators have among all of those of `wasmparser`.
///
/// ```rattle
/// let mut reader = BinaryReader::new(&[0xd2, 3, 0x0b], 0);
/// match read_instruction(&mut reader)?.operator {
///     ConstOperator::RefFunc { function_index } => assert_eq!(rt; function_index, 3),
///     _ => assert!(rt; false),
/// }
/// ```
///
/// (Core specification, Validation, Instructions, Constant Expressions.)
#[derive(Clone, Copy, Debug, PartialEq, Eq)]
pub enum ConstOperator {
    /// `end`: marks the end of the expression.
    End,
    /// `global.get`: pushes the value of a global.
    GlobalGet {
        /// The index of the global.
        global_index: u32,
    },
    /// `i32.const`: pushes a 32-bit integer.
    I32Const {
        /// The value, as a signed integer.
        value: i32,
    },
    /// `i64.const`: pushes a 64-bit integer.
    I64Const {
        /// The value, as a signed integer.
        value: i64,
    },
    /// `f32.const`: pushes a 32-bit float.
    F32Const {
        /// The value, as the bits that encode it.
        value: Ieee32,
    },
    /// `f64.const`: pushes a 64-bit float.
    F64Const {
        /// The value, as the bits that encode it.
        value: Ieee64,
    },
    /// `v128.const`: pushes a 128-bit vector.
    V128Const {
        /// The value, as the bytes that encode it.
        value: V128,
    },
    /// `i32.add`: adds two 32-bit integers.
    I32Add,
    /// `i32.sub`: subtracts two 32-bit integers.
    I32Sub,
    /// `i32.mul`: multiplies two 32-bit integers.
    I32Mul,
    /// `i64.add`: adds two 64-bit integers.
    I64Add,
    /// `i64.sub`: subtracts two 64-bit integers.
    I64Sub,
    /// `i64.mul`: multiplies two 64-bit integers.
    I64Mul,
    /// `ref.null`: pushes a null reference.
    RefNull {
        /// The heap type of the reference.
        hty: HeapType,
    },
    /// `ref.func`: pushes a reference to a function.
    RefFunc {
        /// The index of the function.
        function_index: u32,
    },
    /// `struct.new`: allocates a structure, with field values from the stack.
    StructNew {
        /// The index of the structure type.
        struct_type_index: u32,
    },
    /// `struct.new_default`: allocates a structure of default values.
    StructNewDefault {
        /// The index of the structure type.
        struct_type_index: u32,
    },
    /// `array.new`: allocates an array of copies of a value. The value and the length come from the stack.
    ArrayNew {
        /// The index of the array type.
        array_type_index: u32,
    },
    /// `array.new_default`: allocates an array of default values. The length comes from the stack.
    ArrayNewDefault {
        /// The index of the array type.
        array_type_index: u32,
    },
    /// `array.new_fixed`: allocates an array of a fixed length, with elements from the stack.
    ArrayNewFixed {
        /// The index of the array type.
        array_type_index: u32,
        /// The number of elements.
        array_size: u32,
    },
    /// `any.convert_extern`: converts a reference of the host to one of the module.
    AnyConvertExtern,
    /// `extern.convert_any`: converts a reference of the module to one of the host.
    ExternConvertAny,
    /// `ref.i31`: converts a 32-bit integer to an unboxed 31-bit reference.
    RefI31,
}

// Reads the 16 bytes of a vector.
fn read_vector(reader: &mut BinaryReader<'_>) -> Result<V128>
    ensures gives { GivesBy bytes_of_vector result reader.old reader.new (bytes_at 16) }
    ensures keeps { KeepsWindow reader.old reader.new }
    ensures memory { NotOutOfMemory result }
{
    let mut bytes = [0; 16];
    bytes.copy_from_slice(reader.read_bytes(16)?);
    Ok(V128(bytes))
}

/// Reads the operator of an instruction that begins at this offset, after its opcode.
#[tactic(auto, unfolding(crate::specs::Init::after_opcode))]
pub(crate) fn read_operands(
    start: u64,
    opcode: u8,
    reader: &mut BinaryReader<'_>,
) -> Result<ConstOperator>
    ensures gives { GivesBy (λ operator. operator) result reader.old reader.new
        (after_opcode start opcode) }
    ensures keeps { KeepsWindow reader.old reader.new }
    ensures memory { NotOutOfMemory result }
{
    match opcode {
        0x23 => Ok(ConstOperator::GlobalGet {
            global_index: reader.read_var_u32()?,
        }),
        0x41 => Ok(ConstOperator::I32Const {
            value: reader.read_var_i32()?,
        }),
        0x42 => Ok(ConstOperator::I64Const {
            value: reader.read_var_i64()?,
        }),
        0x43 => Ok(ConstOperator::F32Const {
            value: reader.read_f32()?,
        }),
        0x44 => Ok(ConstOperator::F64Const {
            value: reader.read_f64()?,
        }),
        0x6a => Ok(ConstOperator::I32Add),
        0x6b => Ok(ConstOperator::I32Sub),
        0x6c => Ok(ConstOperator::I32Mul),
        0x7c => Ok(ConstOperator::I64Add),
        0x7d => Ok(ConstOperator::I64Sub),
        0x7e => Ok(ConstOperator::I64Mul),
        0xd0 => Ok(ConstOperator::RefNull {
            hty: HeapType::from_reader(reader)?,
        }),
        0xd2 => Ok(ConstOperator::RefFunc {
            function_index: reader.read_var_u32()?,
        }),
        0xfb => read_aggregate(start, reader),
        0xfd => read_vector_constant(start, reader),
        _ => Err(Error::new(Fault::NotConstant, start)),
    }
}

// Like `read_operands`, after the opcode 0xFB of structures, arrays and references, which a number follows.
fn read_aggregate(start: u64, reader: &mut BinaryReader<'_>) -> Result<ConstOperator>
    ensures gives { GivesBy (λ operator. operator) result reader.old reader.new
        (numbered_operands_at start aggregate_operands_of) }
    ensures keeps { KeepsWindow reader.old reader.new }
    ensures memory { NotOutOfMemory result }
{
    match reader.read_var_u32()? {
        0 => Ok(ConstOperator::StructNew {
            struct_type_index: reader.read_var_u32()?,
        }),
        1 => Ok(ConstOperator::StructNewDefault {
            struct_type_index: reader.read_var_u32()?,
        }),
        6 => Ok(ConstOperator::ArrayNew {
            array_type_index: reader.read_var_u32()?,
        }),
        7 => Ok(ConstOperator::ArrayNewDefault {
            array_type_index: reader.read_var_u32()?,
        }),
        8 => Ok(ConstOperator::ArrayNewFixed {
            array_type_index: reader.read_var_u32()?,
            array_size: reader.read_var_u32()?,
        }),
        26 => Ok(ConstOperator::AnyConvertExtern),
        27 => Ok(ConstOperator::ExternConvertAny),
        28 => Ok(ConstOperator::RefI31),
        _ => Err(Error::new(Fault::NotConstant, start)),
    }
}

// Like `read_operands`, after the opcode 0xFD of vectors, which a number follows.
fn read_vector_constant(start: u64, reader: &mut BinaryReader<'_>) -> Result<ConstOperator>
    ensures gives { GivesBy (λ operator. operator) result reader.old reader.new
        (numbered_operands_at start vector_operands_of) }
    ensures keeps { KeepsWindow reader.old reader.new }
    ensures memory { NotOutOfMemory result }
{
    if reader.read_var_u32()? != 12 {
        return Err(Error::new(Fault::NotConstant, start));
    }
    Ok(ConstOperator::V128Const {
        value: read_vector(reader)?,
    })
}

// Skips instructions up to and including `end`, whatever they are.
#[inline(never)]
fn skip_instructions(reader: &mut BinaryReader<'_>) -> Result<()>
    ensures gives { GivesBy (λ nothing. nothing) result reader.old reader.new end_of_expression }
    ensures keeps { KeepsWindow reader.old reader.new }
    ensures memory { NotOutOfMemory result }
{
    'instructions: loop {
        let start = reader.original_position();
        let opcode = reader.read_u8()?;
        if opcode == 0x0b {
            return Ok(());
        }
        read_operands(start, opcode, reader)?;
    }
}

// Skips the next instruction if it is `i32.const`, the only one of most expressions. Otherwise skips nothing.
#[inline(always)]
#[tactic(auto, using(crate::proofs::Expressions::i32_passed, crate::proofs::Expressions::i32_fault, crate::proofs::Expressions::none_remains))]
fn skip_constant(reader: &mut BinaryReader<'_>) -> Result<()>
    ensures gives { LeavesExpression result reader.old reader.new }
    ensures keeps { KeepsWindow reader.old reader.new }
    ensures memory { NotOutOfMemory result }
{
    if reader.peek()? == 0x41 {
        reader.read_u8()?;
        reader.read_var_i32()?;
    }
    Ok(())
}

/// Skips instructions up to and including `end`.
#[inline(always)]
#[tactic(auto, using(crate::proofs::Expressions::end_passed, crate::proofs::Expressions::none_remains))]
fn skip_expression(reader: &mut BinaryReader<'_>) -> Result<()>
    ensures gives { GivesBy (λ nothing. nothing) result reader.old reader.new end_of_expression }
    ensures keeps { KeepsWindow reader.old reader.new }
    ensures memory { NotOutOfMemory result }
{
    // Most expressions need no operator and no call. Further instructions here would make each reader of expressions longer,
    // which costs more than it gains.
    skip_constant(reader)?;
    if reader.peek()? == 0x0b {
        reader.read_u8()?;
        return Ok(());
    }
    skip_instructions(reader)
}

/// Reads constant instructions up to and including `end`, and returns their window.
///
/// # Errors
///
/// * `NotConstant` at the first byte of any other instruction.
/// * `UnexpectedEof` where an instruction or its operands are truncated.
/// * The errors of operands: those of `read_var_u32`, `read_var_i32`, `read_var_i64` and `HeapType`.
impl<'a> FromReader<'a> for ConstExpr<'a> {
    ghost use Rattle.wasm_items.specs.Init.{expression_at};
    ghost use Rattle.wasm_items.specs.Windows.{expression_window};

    // Proved: a constant expression that was read is the window of its instructions, including the
    //   end [`meaning` on `ConstExpr` (`expression_at`)]
    ghost meaning = { ReadsAs expression_window expression_at };

    #[tactic(auto, unfolding(crate::specs::Init::expression_at))]
    #[inline(always)]
    fn from_reader(reader: &mut BinaryReader<'a>) -> Result<Self> {
        let before = reader.clone().unwrap();
        skip_expression(reader)?;
        Ok(ConstExpr::new(passed_since(&before, reader)))
    }
}

/// Skips an expression, with the errors of reading it.
impl<'a> SkipItem<'a> for ConstExpr<'a> {
    ghost skipped_at = { end_of_expression };

    fn skip_item(reader: &mut BinaryReader<'a>) -> Result<()> {
        skip_expression(reader)
    }
}
