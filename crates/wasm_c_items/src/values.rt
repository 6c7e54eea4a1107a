// Numbers and types of values as plain numbers.
ghost use Rattle.std.specs.Prelude.{◌≡◌};
ghost use Rattle.wasm_c_items.specs.Values.{heap_code, heap_index, plain_field, plain_heap, plain_heap_type, plain_ref, plain_reference_type, plain_storage, plain_type, plain_value, simple_type};
ghost use Rattle.wasm_items.specs.RecGroups.{field_type_at};
ghost use Rattle.wasm_items.specs.Values.{heap_type_at, ref_type_at, val_type_at};
ghost use Rattle.wasm_items.specs.declared.types.FieldType.{FieldType};
ghost use Rattle.wasm_items.specs.declared.types.HeapType.{HeapType};
ghost use Rattle.wasm_items.specs.declared.types.RefType.{RefType};
ghost use Rattle.wasm_items.specs.declared.types.ValType.{ValType};

use crate::faults::{NO_FAULT, PlainFault, plain_fault};
use crate::readable::Readable;
use crate::spans::{distance, flag};
use wasm_parser::{
    BinaryReader, Error, FieldType, FromReader, HeapType, RefType, Result, StorageType, ValType,
};

/// The type of a value, or of what a field stores (core specification, Binary format, Types).
#[repr(C)]
#[derive(Clone, Copy)]
pub struct PlainType {
    /// The kind of the type, a `pulleynavy_type_kind`: 0 `i32`, 1 `i64`, 2 `f32`, 3 `f64`, 4 `v128`, 5 a reference; in
    /// a field also 6 `i8` and 7 `i16`.
    pub kind: u32,
    /// 1 if a reference may be null, or 0.
    pub nullable: u32,
    /// The type of what a reference refers to, a `pulleynavy_heap_kind`: 0 `func`, 1 `extern`, 2 `any`, 3 `eq`, 4
    /// `i31`, 5 `struct`, 6 `array`, 7 `exn`, 8 `none`, 9 `noextern`, 10 `nofunc`, 11 `noexn`, 12 the type with the
    /// index.
    pub heap: u32,
    /// The index of the type that a reference refers to if `heap` is 12, or 0.
    pub index: u32,
}

/// A value type, or a fault.
#[repr(C)]
#[derive(Clone, Copy)]
pub struct PlainValue {
    /// The fault of the item, of kind 0 if there is none.
    pub fault: PlainFault,
    /// The size of the item in bytes, 0 after a fault.
    pub consumed: usize,
    /// The type.
    pub ty: PlainType,
}

/// A field of a structure or the element of an array, or a fault.
#[repr(C)]
#[derive(Clone, Copy)]
pub struct PlainField {
    /// The fault of the item, of kind 0 if there is none.
    pub fault: PlainFault,
    /// The size of the item in bytes, 0 after a fault.
    pub consumed: usize,
    /// The type of the stored values.
    pub ty: PlainType,
    /// 1 if the field is mutable, or 0.
    pub is_mutable: u32,
}

/// What a reference refers to, and the index of the type that it names.
pub(crate) fn heap_parts(heap: HeapType) -> (u32, u32)
    ensures code { result.0 ≡ heap_code heap }
    ensures index { result.1 ≡ heap_index heap }
{
    match heap {
        HeapType::Func => (0, 0),
        HeapType::Extern => (1, 0),
        HeapType::Any => (2, 0),
        HeapType::Eq => (3, 0),
        HeapType::I31 => (4, 0),
        HeapType::Struct => (5, 0),
        HeapType::Array => (6, 0),
        HeapType::Exn => (7, 0),
        HeapType::None => (8, 0),
        HeapType::NoExtern => (9, 0),
        HeapType::NoFunc => (10, 0),
        HeapType::NoExn => (11, 0),
        HeapType::Concrete(index) => (12, index),
    }
}

/// The type if there is none.
pub(crate) const SIMPLE: PlainType = PlainType {
    kind: 0,
    nullable: 0,
    heap: 0,
    index: 0,
};

// A type that is a number alone.
fn simple_type(kind: u32) -> PlainType
    ensures { result ≡ simple_type kind }
{
    PlainType {
        kind,
        nullable: 0,
        heap: 0,
        index: 0,
    }
}

/// A reference type.
pub(crate) fn plain_ref(ty: RefType) -> PlainType
    ensures { result ≡ plain_ref ty }
{
    let (heap, index) = heap_parts(ty.heap);
    PlainType {
        kind: 5,
        nullable: flag(ty.nullable),
        heap,
        index,
    }
}

/// A value type.
pub(crate) fn plain_type(ty: ValType) -> PlainType
    ensures { result ≡ plain_type ty }
{
    match ty {
        ValType::I32 => simple_type(0),
        ValType::I64 => simple_type(1),
        ValType::F32 => simple_type(2),
        ValType::F64 => simple_type(3),
        ValType::V128 => simple_type(4),
        ValType::Ref(ty) => plain_ref(ty),
    }
}

fn plain_storage(ty: StorageType) -> PlainType
    ensures { result ≡ plain_storage ty }
{
    match ty {
        StorageType::I8 => simple_type(6),
        StorageType::I16 => simple_type(7),
        StorageType::Val(ty) => plain_type(ty),
    }
}

/// Value types.
#[derive(Clone, Copy)]
pub struct ValueTypes;

impl Readable for ValueTypes {
    type Plain = PlainValue;

    ghost Item = { ValType };

    ghost reading = { λ _. val_type_at };

    ghost plain = { λ _. plain_value };

    fn read(self, reader: &mut BinaryReader<'_>, _from: u64) -> Result<PlainValue> {
        let start = reader.original_position();
        let ty = ValType::from_reader(reader)?;
        Ok(PlainValue {
            fault: NO_FAULT,
            consumed: distance(start, reader.original_position()),
            ty: plain_type(ty),
        })
    }

    fn refused(self, error: Error) -> PlainValue {
        PlainValue {
            fault: plain_fault(error),
            consumed: 0,
            ty: simple_type(0),
        }
    }
}

// A heap type, as a reference that is not nullable.
fn plain_heap(heap: HeapType) -> PlainType
    ensures { result ≡ plain_heap heap }
{
    let (heap, index) = heap_parts(heap);
    PlainType {
        kind: 5,
        nullable: 0,
        heap,
        index,
    }
}

/// Heap types.
#[derive(Clone, Copy)]
pub struct HeapTypes;

impl Readable for HeapTypes {
    type Plain = PlainValue;

    ghost Item = { HeapType };

    ghost reading = { λ _. heap_type_at };

    ghost plain = { λ _. plain_heap_type };

    fn read(self, reader: &mut BinaryReader<'_>, _from: u64) -> Result<PlainValue> {
        let start = reader.original_position();
        let heap = HeapType::from_reader(reader)?;
        Ok(PlainValue {
            fault: NO_FAULT,
            consumed: distance(start, reader.original_position()),
            ty: plain_heap(heap),
        })
    }

    fn refused(self, error: Error) -> PlainValue {
        ValueTypes.refused(error)
    }
}

/// Reference types.
#[derive(Clone, Copy)]
pub struct ReferenceTypes;

impl Readable for ReferenceTypes {
    type Plain = PlainValue;

    ghost Item = { RefType };

    ghost reading = { λ _. ref_type_at };

    ghost plain = { λ _. plain_reference_type };

    fn read(self, reader: &mut BinaryReader<'_>, _from: u64) -> Result<PlainValue> {
        let start = reader.original_position();
        let ty = RefType::from_reader(reader)?;
        Ok(PlainValue {
            fault: NO_FAULT,
            consumed: distance(start, reader.original_position()),
            ty: plain_ref(ty),
        })
    }

    fn refused(self, error: Error) -> PlainValue {
        ValueTypes.refused(error)
    }
}

/// Types of fields.
#[derive(Clone, Copy)]
pub struct FieldTypes;

impl Readable for FieldTypes {
    type Plain = PlainField;

    ghost Item = { FieldType };

    ghost reading = { λ _. field_type_at };

    ghost plain = { λ _. plain_field };

    fn read(self, reader: &mut BinaryReader<'_>, _from: u64) -> Result<PlainField> {
        let start = reader.original_position();
        let field = FieldType::from_reader(reader)?;
        Ok(PlainField {
            fault: NO_FAULT,
            consumed: distance(start, reader.original_position()),
            ty: plain_storage(field.storage),
            is_mutable: flag(field.mutable),
        })
    }

    fn refused(self, error: Error) -> PlainField {
        PlainField {
            fault: plain_fault(error),
            consumed: 0,
            ty: simple_type(0),
            is_mutable: 0,
        }
    }
}
