// Types.
use crate::type_lists::{FieldTypes, SubTypes, ValTypes};
use wasm_base::SectionLimited;

/// The type section, whose items are groups of types.
///
/// Groups own lists, so iterating takes an allocator: `into_iter_in(alloc)`.
///
/// ```rattle
/// // One function type: from an `i32` to an `i64`.
/// let bytes = &[1, 0x60, 1, 0x7f, 1, 0x7e];
/// let section = TypeSectionReader::new(BinaryReader::new(bytes, 0))?;
/// for group in section.into_iter_in(alloc) {
///     assert_eq!(rt; group?.types.len(), 1);
/// }
/// ```
///
/// (Core specification, Binary format, Modules, Type Section.)
pub type TypeSectionReader<'a> = SectionLimited<'a, RecGroup>;

/// The type of a value: a number, a vector or a reference.
///
/// ```rattle
/// let mut reader = BinaryReader::new(&[0x7e], 0);
/// assert_eq!(rt; ValType::from_reader(&mut reader)?, ValType::I64);
/// ```
///
/// (Core specification, Binary format, Types, Value Types.)
#[derive(Clone, Copy, Debug, PartialEq, Eq, Hash)]
pub enum ValType {
    /// A 32-bit integer.
    I32,
    /// A 64-bit integer.
    I64,
    /// A 32-bit float.
    F32,
    /// A 64-bit float.
    F64,
    /// A 128-bit vector.
    V128,
    /// A reference.
    Ref(RefType),
}

/// The type of a reference.
///
/// ```rattle
/// // A reference to type 5 that is never null.
/// let mut reader = BinaryReader::new(&[0x64, 5], 0);
/// let ty = RefType::from_reader(&mut reader)?;
/// assert_eq!(rt; ty.nullable, false);
/// assert_eq!(rt; ty.heap, HeapType::Concrete(5));
/// ```
///
/// (Core specification, Binary format, Types, Reference Types.)
#[derive(Clone, Copy, Debug, PartialEq, Eq, Hash)]
pub struct RefType {
    /// Whether the reference may be null.
    pub nullable: bool,
    /// The type of what the reference refers to.
    pub heap: HeapType,
}

impl RefType {
    /// `funcref`: a reference to a function, or null.
    pub const FUNCREF: RefType = RefType {
        nullable: true,
        heap: HeapType::Func,
    };
}

/// The type of what a reference refers to.
///
/// ```rattle
/// let mut reader = BinaryReader::new(&[0x6f, 5], 0);
/// assert_eq!(rt; HeapType::from_reader(&mut reader)?, HeapType::Extern);
/// assert_eq!(rt; HeapType::from_reader(&mut reader)?, HeapType::Concrete(5));
/// ```
///
/// (Core specification, Binary format, Types, Heap Types.)
#[derive(Clone, Copy, Debug, PartialEq, Eq, Hash)]
pub enum HeapType {
    /// `func`: any function.
    Func,
    /// `extern`: any reference of the host.
    Extern,
    /// `any`: any reference of the module, other than to functions and exceptions.
    Any,
    /// `eq`: any reference that `ref.eq` can compare.
    Eq,
    /// `i31`: an unboxed 31-bit integer.
    I31,
    /// `struct`: any structure.
    Struct,
    /// `array`: any array.
    Array,
    /// `exn`: an exception.
    Exn,
    /// `none`: the bottom type below `Any`, without values.
    None,
    /// `noextern`: the bottom type below `Extern`, without values.
    NoExtern,
    /// `nofunc`: the bottom type below `Func`, without values.
    NoFunc,
    /// `noexn`: the bottom type below `Exn`, without values.
    NoExn,
    /// The type with this index in the module.
    Concrete(u32),
}

/// A recursive group of types, which may refer to each other.
///
/// A group owns its lists. Reading it may allocate, so it implements `FromReaderIn`.
///
/// ```rattle
/// let mut reader = BinaryReader::new(&[0x4e, 2, 0x5f, 0, 0x60, 0, 0], 0);
/// let group = RecGroup::from_reader(alloc, &mut reader)?;
/// assert!(rt; group.explicit);
/// assert_eq!(rt; group.types.len(), 2);
/// ```
///
/// (Core specification, Binary format, Types, Recursive Types.)
#[derive(Debug, PartialEq, Eq, Drop)]
pub struct RecGroup {
    // Types that own lists are not `Clone`: a copy allocates and could fail.
    /// Whether the group is encoded as a group. Otherwise it is a single type, encoded without a group.
    pub explicit: bool,
    /// The types of the group, in order. Each takes the next type index of the module.
    pub types: SubTypes,
}

/// A composite type and the type that it extends, if any.
///
/// ```rattle
/// // Not final, and extends type 3: a structure without fields.
/// let mut reader = BinaryReader::new(&[0x50, 1, 3, 0x5f, 0], 0);
/// let ty = SubType::from_reader(alloc, &mut reader)?;
/// assert_eq!(rt; ty.is_final, false);
/// assert_eq!(rt; ty.supertype, Some(3));
/// ```
///
/// (Core specification, Binary format, Types, Recursive Types.)
#[derive(Debug, PartialEq, Eq, Drop)]
pub struct SubType {
    /// Whether no type may extend this one.
    pub is_final: bool,
    /// The index of the type that this one extends, if any.
    pub supertype: Option<u32>,
    /// The type of functions, arrays or structures.
    pub composite: CompositeType,
}

/// The type of functions, arrays or structures.
///
/// ```rattle
/// let mut reader = BinaryReader::new(&[0x5e, 0x78, 1], 0);
/// match CompositeType::from_reader(alloc, &mut reader)? {
///     CompositeType::Array(element) => assert_eq!(rt; element.storage, StorageType::I8),
///     CompositeType::Func(_) | CompositeType::Struct(_) => assert!(rt; false),
/// }
/// ```
///
/// (Core specification, Binary format, Types, Composite Types.)
#[derive(Debug, PartialEq, Eq, Drop)]
pub enum CompositeType {
    /// The type of functions with these parameters and results.
    Func(FuncType),
    /// The type of arrays with this type of elements.
    Array(FieldType),
    /// The type of structures with these fields.
    Struct(FieldTypes),
}

/// The type of a function.
///
/// ```rattle
/// let mut reader = BinaryReader::new(&[1, 0x7f, 1, 0x7e], 0);
/// let ty = FuncType::from_reader(alloc, &mut reader)?;
/// assert_eq!(rt; ty.params.as_slice(), [ValType::I32].as_slice());
/// assert_eq!(rt; ty.results.as_slice(), [ValType::I64].as_slice());
/// ```
///
/// (Core specification, Binary format, Types, Composite Types.)
#[derive(Debug, PartialEq, Eq, Drop)]
pub struct FuncType {
    /// The types of the parameters.
    pub params: ValTypes,
    /// The types of the results.
    pub results: ValTypes,
}

/// The type of a structure's field or an array's elements.
///
/// ```rattle
/// let mut reader = BinaryReader::new(&[0x7f, 1], 0);
/// let field = FieldType::from_reader(&mut reader)?;
/// assert_eq!(rt; field.storage, StorageType::Val(ValType::I32));
/// assert!(rt; field.mutable);
/// ```
///
/// (Core specification, Binary format, Types, Composite Types.)
#[derive(Clone, Copy, Debug, PartialEq, Eq, Hash)]
pub struct FieldType {
    /// The type of the stored values.
    pub storage: StorageType,
    /// Whether the field is mutable.
    pub mutable: bool,
}

/// The type of the values that a field stores (core specification, Binary format, Types, Composite Types).
#[derive(Clone, Copy, Debug, PartialEq, Eq, Hash)]
pub enum StorageType {
    /// A packed 8-bit integer.
    I8,
    /// A packed 16-bit integer.
    I16,
    /// A value of this type, not packed.
    Val(ValType),
}

/// The type of a table.
///
/// ```rattle
/// // A table of 10 to 20 function references.
/// let mut reader = BinaryReader::new(&[0x70, 0x01, 10, 20], 0);
/// let ty = TableType::from_reader(&mut reader)?;
/// assert_eq!(rt; ty.initial, 10);
/// assert_eq!(rt; ty.maximum, Some(20));
/// ```
///
/// (Core specification, Binary format, Types, Table Types.)
#[derive(Clone, Copy, Debug, PartialEq, Eq, Hash)]
pub struct TableType {
    /// The type of the elements.
    pub element_type: RefType,
    /// Whether the indices have 64 bits.
    pub table64: bool,
    /// The initial number of elements.
    pub initial: u64,
    /// The maximum number of elements, if limited.
    pub maximum: Option<u64>,
    /// Whether threads share the table (a proposal, not in the core specification).
    pub shared: bool,
}

/// The type of a memory.
///
/// ```rattle
/// // A memory of at least one page of 2^0 bytes.
/// let mut reader = BinaryReader::new(&[0x08, 1, 0], 0);
/// let ty = MemoryType::from_reader(&mut reader)?;
/// assert_eq!(rt; ty.maximum, None);
/// assert_eq!(rt; ty.page_size_log2, Some(0));
/// ```
///
/// (Core specification, Binary format, Types, Memory Types.)
#[derive(Clone, Copy, Debug, PartialEq, Eq, Hash)]
pub struct MemoryType {
    /// Whether the addresses have 64 bits.
    pub memory64: bool,
    /// Whether threads share the memory (a proposal, not in the core specification).
    pub shared: bool,
    /// The initial size, in pages.
    pub initial: u64,
    /// The maximum size, in pages, if limited.
    pub maximum: Option<u64>,
    /// The base-2 logarithm of the page size in bytes, below 64 (a proposal). If `None`, a page has 65,536 bytes.
    pub page_size_log2: Option<u32>,
}

/// The type of a global.
///
/// ```rattle
/// let mut reader = BinaryReader::new(&[0x7f, 0x01], 0);
/// let ty = GlobalType::from_reader(&mut reader)?;
/// assert_eq!(rt; ty.content_type, ValType::I32);
/// assert!(rt; ty.mutable);
/// ```
///
/// (Core specification, Binary format, Types, Global Types.)
#[derive(Clone, Copy, Debug, PartialEq, Eq, Hash)]
pub struct GlobalType {
    /// The type of the value.
    pub content_type: ValType,
    /// Whether the value is mutable.
    pub mutable: bool,
    /// Whether threads share the global (a proposal, not in the core specification).
    pub shared: bool,
}

/// The type of a tag.
///
/// ```rattle
/// let mut reader = BinaryReader::new(&[0, 4], 0);
/// let ty = TagType::from_reader(&mut reader)?;
/// assert_eq!(rt; ty.kind, TagKind::Exception);
/// assert_eq!(rt; ty.func_type_idx, 4);
/// ```
///
/// (Core specification, Binary format, Types, Tag Types.)
#[derive(Clone, Copy, Debug, PartialEq, Eq, Hash)]
pub struct TagType {
    /// The use of the tag.
    pub kind: TagKind,
    /// The index of the function type whose parameters the tag carries.
    pub func_type_idx: u32,
}

/// The use of a tag (core specification, Binary format, Types, Tag Types).
#[derive(Clone, Copy, Debug, PartialEq, Eq, Hash)]
pub enum TagKind {
    /// Exceptions.
    Exception,
}
