// Imports.
ghost use Rattle.std.specs.Prelude.{⊤, ◌≡◌, ◌<◌, false, length};
ghost use Rattle.wasm_base.specs.Hints.{NotOutOfMemory, is_out_of_memory};
ghost use Rattle.wasm_base.specs.Item.{ReadsAs};
ghost use Rattle.wasm_base.specs.Outcome.{GivesBy};
ghost use Rattle.wasm_base.specs.Window.{place, KeepsWindow};
ghost use Rattle.wasm_base.specs.Features.{takes_import_bundles};
ghost use Rattle.wasm_items.specs.Imports.{bundle_parts, bundle_byte_at, module_bundle_at, type_bundle_at, single_at, type_of_kind_at, type_ref_at};

use crate::exports::ExternalKind;
use crate::types::{GlobalType, MemoryType, TableType, TagType};
use bitflags::Flags;
use std::alloc::AllocError;
use wasm_base::{
    BinaryReader, Error, Fault, FromReader, Result, SectionLimited, SkipItem, WasmFeatures,
    read_inner,
};

/// The import section, whose items are imports or bundles of imports.
///
/// Use `ImportSection::into_imports` to iterate over the imports one by one.
///
/// ```rattle
/// let bytes = b"\x01\x01m\x01f\x00\x05";
/// let section = ImportSectionReader::new(BinaryReader::new(bytes, 0))?;
/// for import in section.into_imports() {
///     assert_eq!(rt; import?.module, "m");
/// }
/// ```
///
/// (Core specification, Binary format, Modules, Import Section.)
pub type ImportSectionReader<'a> = SectionLimited<'a, Imports<'a>>;

/// The kind and type of an import.
///
/// ```rattle
/// let mut reader = BinaryReader::new(&[0x02, 0x00, 0x01], 0);
/// match TypeRef::from_reader(&mut reader)? {
///     TypeRef::Memory(memory) => assert_eq!(rt; memory.initial, 1),
///     _ => assert!(rt; false),
/// }
/// ```
///
/// (Core specification, Binary format, Types, External Types.)
#[derive(Clone, Copy, Debug, PartialEq, Eq)]
pub enum TypeRef {
    /// A function, with the index of its type.
    Func(u32),
    /// A table, with its type.
    Table(TableType),
    /// A memory, with its type.
    Memory(MemoryType),
    /// A global, with its type.
    Global(GlobalType),
    /// A tag, with its type.
    Tag(TagType),
    /// A function of exactly the type with this index (a proposal, not in the core specification).
    FuncExact(u32),
}

/// An import.
///
/// ```rattle
/// let mut reader = BinaryReader::new(b"\x01m\x01f\x00\x05", 0);
/// let import = Import::from_reader(&mut reader)?;
/// assert_eq!(rt; import.name, "f");
/// assert_eq!(rt; import.ty, TypeRef::Func(5));
/// ```
///
/// (Core specification, Binary format, Modules, Import Section.)
#[derive(Clone, Copy, Debug, PartialEq, Eq)]
pub struct Import<'a> {
    /// The name of the module to import from.
    pub module: &'a str,
    /// The name of the import in that module.
    pub name: &'a str,
    /// The kind and type of the import.
    pub ty: TypeRef,
}

/// An import in a bundle, which names the module for all of its imports (a proposal, not in the core specification).
///
/// ```rattle
/// let mut reader = BinaryReader::new(b"\x01f\x00\x05", 0);
/// let import = ImportItemCompact::from_reader(&mut reader)?;
/// assert_eq!(rt; import.name, "f");
/// ```
#[derive(Clone, Copy, Debug, PartialEq, Eq)]
pub struct ImportItemCompact<'a> {
    /// The name of the import in the bundle's module.
    pub name: &'a str,
    /// The kind and type of the import.
    pub ty: TypeRef,
}

/// An item of an import section: an import, or a bundle of imports from one module.
///
/// `into_iter` iterates over the imports of an item. To iterate over those of the whole section, use `ImportSection`.
///
/// The single import is that of the core specification (Binary format, Modules, Import Section); the bundles are those
/// of the proposal for compact imports.
///
/// ```rattle
/// let mut reader = BinaryReader::new(b"\x01m\x00\x7e\x00\x05\x02\x01f\x01g", 0);
/// match Imports::from_reader(&mut reader)? {
///     Imports::Single(_offset, import) => assert_eq!(rt; import.module, "m"),
///     Imports::Compact1 { items, .. } => assert_eq!(rt; items.count(), 2),
///     Imports::Compact2 { names, .. } => assert_eq!(rt; names.count(), 2),
/// }
/// ```
#[derive(Debug, Drop)]
pub enum Imports<'a> {
    /// A single import, after its offset in bytes from the start of the stream.
    Single(u64, Import<'a>),
    /// A bundle of imports from the same module.
    Compact1 {
        /// The name of the module.
        module: &'a str,
        /// The name and type of each import, read lazily.
        items: SectionLimited<'a, ImportItemCompact<'a>>,
    },
    /// A bundle of imports from the same module, of the same type.
    Compact2 {
        /// The name of the module.
        module: &'a str,
        /// The kind and type of every import of the bundle.
        ty: TypeRef,
        /// The name of each import, read lazily.
        names: SectionLimited<'a, &'a str>,
    },
}

// By hand: a derived one has a branch for each list that could not be cloned, which takes twice as long to prove.
impl<'a> Clone for Imports<'a> {
    ghost is_clone = { λ imports copy. copy ≡ imports };

    ghost is_infallible = { λ _. ⊤ };

    fn clone(&self) -> std::result::Result<Self, AllocError> {
        Ok(match self {
            Imports::Single(offset, import) => Imports::Single(*offset, *import),
            Imports::Compact1 { module, items } => Imports::Compact1 {
                module,
                items: items.clone().unwrap(),
            },
            Imports::Compact2 { module, ty, names } => Imports::Compact2 {
                module,
                ty: *ty,
                names: names.clone().unwrap(),
            },
        })
    }
}

// Reads what belongs to a kind. It isn't inlined, so that the frequent kind, a function, stays short where it is.
#[inline(never)]
fn read_type_of(kind: ExternalKind, reader: &mut BinaryReader<'_>) -> Result<TypeRef>
    ensures gives { GivesBy (λ ty. ty) result reader.old reader.new (type_of_kind_at kind) }
    ensures keeps { KeepsWindow reader.old reader.new }
    ensures memory { NotOutOfMemory result }
{
    match kind {
        ExternalKind::Func => Ok(TypeRef::Func(reader.read_var_u32()?)),
        ExternalKind::Table => reader.read().map(TypeRef::Table),
        ExternalKind::Memory => reader.read().map(TypeRef::Memory),
        ExternalKind::Global => reader.read().map(TypeRef::Global),
        ExternalKind::Tag => reader.read().map(TypeRef::Tag),
        ExternalKind::FuncExact => reader.read_var_u32().map(TypeRef::FuncExact),
    }
}

// Reads a kind and what belongs to it, for a function in place.
#[tactic(auto, unfolding(crate::specs::Imports::type_ref_at))]
#[inline(always)]
fn read_type(reader: &mut BinaryReader<'_>) -> Result<TypeRef>
    ensures gives { GivesBy (λ ty. ty) result reader.old reader.new type_ref_at }
    ensures keeps { KeepsWindow reader.old reader.new }
    ensures memory { NotOutOfMemory result }
{
    match ExternalKind::from_reader(reader)? {
        ExternalKind::Func => Ok(TypeRef::Func(reader.read_var_u32()?)),
        kind => read_type_of(kind, reader),
    }
}

/// Reads a kind and the type that belongs to it: for a function the index of its type, a u32.
///
/// # Errors
///
/// `LeadingByte(External)` at a byte that is no kind, and the errors of the type.
impl<'a> FromReader<'a> for TypeRef {
    ghost use Rattle.wasm_items.specs.Imports.{type_ref_at};

    ghost meaning = { ReadsAs (λ ty. ty) type_ref_at };

    fn from_reader(reader: &mut BinaryReader<'a>) -> Result<Self> {
        read_type(reader)
    }
}

/// Reads the name of a module, the name of the import and its type, with the errors of `read_string` and of `TypeRef`.
impl<'a> FromReader<'a> for Import<'a> {
    ghost use Rattle.wasm_items.specs.Imports.{import_parts, import_at};

    ghost meaning = { ReadsAs import_parts import_at };

    #[tactic(auto, unfolding(crate::specs::Imports::import_at))]
    fn from_reader(reader: &mut BinaryReader<'a>) -> Result<Self> {
        let module = reader.read_string()?;
        let name = reader.read_string()?;
        let ty = reader.read()?;
        Ok(Import { module, name, ty })
    }
}

/// Reads the name of the import and its type, with the errors of `read_string` and of `TypeRef`.
impl<'a> FromReader<'a> for ImportItemCompact<'a> {
    ghost use Rattle.wasm_items.specs.Imports.{item_parts, item_at};

    ghost meaning = { ReadsAs item_parts item_at };

    #[tactic(auto, unfolding(crate::specs::Imports::item_at))]
    fn from_reader(reader: &mut BinaryReader<'a>) -> Result<Self> {
        let name = reader.read_string()?;
        let ty = reader.read()?;
        Ok(ImportItemCompact { name, ty })
    }
}

/// Skips an import of a bundle, with the errors of `skip_string` and of `TypeRef`. The name may be invalid UTF-8.
impl<'a> SkipItem<'a> for ImportItemCompact<'a> {
    ghost use Rattle.wasm_items.specs.Imports.{skipped_item_at};

    ghost skipped_at = { skipped_item_at };

    #[tactic(auto, unfolding(crate::specs::Imports::skipped_item_at))]
    fn skip_item(reader: &mut BinaryReader<'a>) -> Result<()> {
        reader.skip_string()?;
        TypeRef::from_reader(reader)?;
        Ok(())
    }
}

// Whether a reader accepts bundles.
fn takes_bundles(reader: &BinaryReader<'_>) -> bool
    ensures { result ≡ takes_import_bundles reader.now.features }
{
    reader.features().contains(WasmFeatures::COMPACT_IMPORTS)
}

// Skips the byte of a bundle. If bundles aren't accepted, returns this fault at the byte.
fn skip_bundle_byte(fault: Fault, reader: &mut BinaryReader<'_>) -> Result<()>
    requires byte { 0 < length (place reader.old).rest }
    requires other { is_out_of_memory fault ≡ false }
    ensures gives { GivesBy (λ nothing. nothing) result reader.old reader.new (bundle_byte_at fault) }
    ensures keeps { KeepsWindow reader.old reader.new }
    ensures memory { NotOutOfMemory result }
{
    if !takes_bundles(reader) {
        return Err(Error::new(fault, reader.original_position()));
    }
    reader.read_u8()?;
    Ok(())
}

// Reads a bundle of imports of one module.
#[tactic(auto, unfolding(crate::specs::Imports::module_bundle_at))]
fn read_module_bundle<'a>(module: &'a str, reader: &mut BinaryReader<'a>) -> Result<Imports<'a>>
    requires { 0 < length (place reader.old).rest }
    ensures gives { GivesBy bundle_parts result reader.old reader.new (module_bundle_at «module».now) }
    ensures keeps { KeepsWindow reader.old reader.new }
    ensures memory { NotOutOfMemory result }
{
    skip_bundle_byte(Fault::Compact7F, reader)?;
    let items = read_inner(reader)?;
    Ok(Imports::Compact1 { module, items })
}

// Reads a bundle of imports of one module and one type.
#[tactic(auto, unfolding(crate::specs::Imports::type_bundle_at))]
fn read_type_bundle<'a>(module: &'a str, reader: &mut BinaryReader<'a>) -> Result<Imports<'a>>
    requires { 0 < length (place reader.old).rest }
    ensures gives { GivesBy bundle_parts result reader.old reader.new (type_bundle_at «module».now) }
    ensures keeps { KeepsWindow reader.old reader.new }
    ensures memory { NotOutOfMemory result }
{
    skip_bundle_byte(Fault::Compact7E, reader)?;
    let ty = reader.read()?;
    let names = read_inner(reader)?;
    Ok(Imports::Compact2 { module, ty, names })
}

// Reads a single import after its names.
#[tactic(auto, unfolding(crate::specs::Imports::single_at))]
fn read_single<'a>(
    start: u64,
    module: &'a str,
    name: &'a str,
    reader: &mut BinaryReader<'a>,
) -> Result<Imports<'a>>
    ensures gives { GivesBy bundle_parts result reader.old reader.new
        (single_at start «module».now name.now) }
    ensures keeps { KeepsWindow reader.old reader.new }
    ensures memory { NotOutOfMemory result }
{
    let ty = read_type(reader)?;
    Ok(Imports::Single(start, Import { module, name, ty }))
}

/// Reads an import: the name of a module, the name of the import and its type. If the second name is empty, the byte
/// 0x7F or 0x7E begins a bundle instead.
///
/// The imports of a bundle are skipped. Iterating over them also checks that their names are UTF-8.
///
/// # Errors
///
/// * `Compact7F` or `Compact7E` at the byte that begins a bundle, if the reader is without the feature
///   `COMPACT_IMPORTS`.
/// * The errors of `read_string` and of `TypeRef`.
/// * Inside a bundle, the errors of `skip_string`, of `TypeRef` and of the count (`read_var_u32`).
impl<'a> FromReader<'a> for Imports<'a> {
    ghost use Rattle.wasm_items.specs.Imports.{bundle_parts, bundle_at};

    // Proved: the items of a bundle of imports are a section of their own, whose window begins at
    //   its count, at the stream's offsets and with the reader's features [`meaning` on `Imports`
    //   (`bundle_at`, `inner_section_at`)]
    ghost meaning = { ReadsAs bundle_parts bundle_at };

    #[tactic(auto, unfolding(crate::specs::Imports::bundle_at))]
    fn from_reader(reader: &mut BinaryReader<'a>) -> Result<Self> {
        let start = reader.original_position();
        let module = reader.read_string()?;
        let name = reader.read_string()?;
        match reader.peek()? {
            0x7f if name.is_empty() => read_module_bundle(module, reader),
            0x7e if name.is_empty() => read_type_bundle(module, reader),
            _ => read_single(start, module, name, reader),
        }
    }
}
