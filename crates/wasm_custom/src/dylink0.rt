// What a dynamic linker reads.
ghost use Rattle.std.specs.Prelude.{◌≡◌, None, map};
ghost use Rattle.wasm_base.specs.Item.{ReadsAs};
ghost use Rattle.wasm_base.specs.Name.{text_at};
ghost use Rattle.wasm_base.specs.Outcome.{GivesBy};
ghost use Rattle.wasm_base.specs.Owned.{GivesResultUnlessMemory, GivesUnlessMemory, MeansAs, UnlessMemory, InTurn, ListOf, list_at};
ghost use Rattle.wasm_base.specs.Subsections.{ReadsWindowAs};
ghost use Rattle.wasm_base.specs.Window.{place, KeepsWindow};
ghost use Rattle.wasm_custom.specs.Dylink0.{dylink_parts, dylink_subsection_in, export_info_parts, export_info_at, import_info_parts, import_info_at};

use crate::flags::SymbolFlags;
use std::alloc::{Allocator, Global};
use std::ops::Range;
use wasm_base::{
    BinaryReader, FromReader, MayAllocate, Result, Subsection, Subsections, read_list,
};

/// The section `dylink.0`, an iterator over subsections.
///
/// ```rattle
/// // The library needs "a.so".
/// let bytes = b"\x02\x06\x01\x04a.so";
/// for subsection in Dylink0SectionReader::new(alloc, BinaryReader::new(bytes, 0)) {
///     if let Dylink0Subsection::Needed(libraries) = subsection? {
///         assert_eq!(rt; libraries.as_slice(), ["a.so"].as_slice());
///     }
/// }
/// ```
///
/// (Tool conventions, Dynamic Linking, The "dylink.0" Section.)
pub type Dylink0SectionReader<'a> = Subsections<'a, Dylink0Subsection<'a>>;

/// The memory and table space that a library needs.
///
/// ```rattle
/// let mut reader = BinaryReader::new(&[16, 2, 1, 0], 0);
/// let info = MemInfo::from_reader(&mut reader)?;
/// assert_eq!(rt; info.memory_size, 16);
/// assert_eq!(rt; info.table_size, 1);
/// ```
///
/// (Tool conventions, Dynamic Linking, The "dylink.0" Section.)
#[derive(Clone, Copy, Debug)]
pub struct MemInfo {
    /// The size of the memory area, in bytes.
    pub memory_size: u32,
    /// The alignment of the memory area, as the base-2 logarithm of the bytes.
    pub memory_alignment: u32,
    /// The size of the table area, in elements.
    pub table_size: u32,
    /// The alignment of the table area, as the base-2 logarithm of the elements.
    pub table_alignment: u32,
}

/// The flags of an export's symbol.
///
/// ```rattle
/// let mut reader = BinaryReader::new(b"\x01f\x80\x02", 0);
/// let export = ExportInfo::from_reader(&mut reader)?;
/// assert_eq!(rt; export.name, "f");
/// assert_eq!(rt; export.flags, SymbolFlags::TLS);
/// ```
///
/// (Tool conventions, Dynamic Linking, The "dylink.0" Section.)
#[derive(Debug, Drop)]
pub struct ExportInfo<'a> {
    /// The name of the export.
    pub name: &'a str,
    /// The flags of the symbol.
    pub flags: SymbolFlags,
}

/// The flags of an import's symbol.
///
/// ```rattle
/// let mut reader = BinaryReader::new(b"\x03env\x01f\x01", 0);
/// let import = ImportInfo::from_reader(&mut reader)?;
/// assert_eq!(rt; import.module, "env");
/// assert_eq!(rt; import.flags, SymbolFlags::BINDING_WEAK);
/// ```
///
/// (Tool conventions, Dynamic Linking, The "dylink.0" Section.)
#[derive(Debug, Drop)]
pub struct ImportInfo<'a> {
    /// The name of the module that is imported from.
    pub module: &'a str,
    /// The name of the import in that module.
    pub field: &'a str,
    /// The flags of the symbol.
    pub flags: SymbolFlags,
}

/// A subsection of the section `dylink.0`.
///
/// Subsections with lists own them, so reading them allocates. The texts are borrowed from the input.
///
/// ```rattle
/// let reader = BinaryReader::new(&[16, 2, 1, 0], 0);
/// match Dylink0Subsection::from_reader(alloc, 1, reader)? {
///     Dylink0Subsection::MemInfo(info) => assert_eq!(rt; info.memory_size, 16),
///     _ => assert!(rt; false),
/// }
/// ```
///
/// (Tool conventions, Dynamic Linking, The "dylink.0" Section.)
#[derive(Debug, Drop)]
pub enum Dylink0Subsection<'a, A: Allocator = Global> {
    /// The memory and table space that the library needs (id 1).
    MemInfo(MemInfo),
    /// The names of the libraries that the library needs (id 2).
    Needed(Vec<&'a str, A>),
    /// The flags of exported symbols (id 3).
    ExportInfo(Vec<ExportInfo<'a>, A>),
    /// The flags of imported symbols (id 4).
    ImportInfo(Vec<ImportInfo<'a>, A>),
    /// The directories to search for libraries (id 5).
    RuntimePath(Vec<&'a str, A>),
    /// The name of the architecture that the library is for (id 6).
    TargetArch(&'a str),
    /// A subsection with another id, which is not decoded.
    Unknown {
        /// The id, below 128.
        ty: u8,
        /// The content, without the id and the size.
        contents: &'a [u8],
        /// The offsets of the content, in bytes from the start of the stream.
        range: Range<u64>,
    },
}

/// Reads four numbers, each a u32, with the errors of `read_var_u32`.
impl<'a> FromReader<'a> for MemInfo {
    ghost use Rattle.wasm_custom.specs.Dylink0.{mem_info_at};

    ghost meaning = { ReadsAs (λ info. info) mem_info_at };

    #[tactic(auto, unfolding(crate::specs::Dylink0::mem_info_at))]
    fn from_reader(reader: &mut BinaryReader<'a>) -> Result<Self> {
        let memory_size = reader.read_var_u32()?;
        let memory_alignment = reader.read_var_u32()?;
        let table_size = reader.read_var_u32()?;
        let table_alignment = reader.read_var_u32()?;
        Ok(MemInfo {
            memory_size,
            memory_alignment,
            table_size,
            table_alignment,
        })
    }
}

/// Reads a name of any length and flags, a u32, with the errors of `read_unlimited_string` and `read_var_u32`.
impl<'a> FromReader<'a> for ExportInfo<'a> {
    ghost meaning = { ReadsAs export_info_parts export_info_at };

    #[tactic(auto, unfolding(crate::specs::Dylink0::export_info_at))]
    fn from_reader(reader: &mut BinaryReader<'a>) -> Result<Self> {
        let name = reader.read_unlimited_string()?;
        let flags = reader.read()?;
        Ok(ExportInfo { name, flags })
    }
}

/// Reads two names of any length and flags, a u32, with the errors of `read_unlimited_string` and `read_var_u32`.
impl<'a> FromReader<'a> for ImportInfo<'a> {
    ghost meaning = { ReadsAs import_info_parts import_info_at };

    #[tactic(auto, unfolding(crate::specs::Dylink0::import_info_at))]
    fn from_reader(reader: &mut BinaryReader<'a>) -> Result<Self> {
        let module = reader.read_unlimited_string()?;
        let field = reader.read_unlimited_string()?;
        let flags = reader.read()?;
        Ok(ImportInfo {
            module,
            field,
            flags,
        })
    }
}

// Reads `count` texts. The list grows as they are read.
fn read_each_text<'a, A: Allocator>(
    alloc: A,
    reader: &mut BinaryReader<'a>,
    count: u32,
) -> Result<Vec<&'a str, A>>
    ensures means { MeansAs (λ list. list.items)
        (UnlessMemory (InTurn (ReadsAs (λ text. text.now) (text_at None)) count))
        (place reader.old) result (place reader.new) }
    ensures keeps { KeepsWindow reader.old reader.new }
{
    let mut texts = Vec::new(alloc);
    'texts: for _ in 0..count {
        let text = reader.read_unlimited_string()?;
        texts.push(text)?;
    }
    Ok(texts)
}

// Reads a count and as many texts.
fn read_text_list<'a, A: Allocator>(
    alloc: A,
    reader: &mut BinaryReader<'a>,
) -> Result<Vec<&'a str, A>>
    ensures means { MeansAs (λ list. list.items)
        (UnlessMemory (ListOf (ReadsAs (λ text. text.now) (text_at None))))
        (place reader.old) result (place reader.new) }
    ensures keeps { KeepsWindow reader.old reader.new }
{
    let count = reader.read_var_u32()?;
    read_each_text(alloc, reader, count)
}

// Reads a list of texts.
fn read_texts<'a, A: Allocator>(alloc: A, reader: &mut BinaryReader<'a>) -> Result<Vec<&'a str, A>>
    ensures gives { GivesUnlessMemory (λ list. map (λ text. text.now) list.items)
        result (place reader.new) (list_at (text_at None) (place reader.old)) }
    ensures keeps { KeepsWindow reader.old reader.new }
{
    read_text_list(alloc, reader)
}

// Reads a list of information about exports.
fn read_exports<'a, A: Allocator>(
    alloc: A,
    reader: &mut BinaryReader<'a>,
) -> Result<Vec<ExportInfo<'a>, A>>
    ensures gives { GivesUnlessMemory (λ list. map export_info_parts list.items)
        result (place reader.new) (list_at export_info_at (place reader.old)) }
    ensures keeps { KeepsWindow reader.old reader.new }
{
    read_list(alloc, reader)
}

// Reads a list of information about imports.
fn read_imports<'a, A: Allocator>(
    alloc: A,
    reader: &mut BinaryReader<'a>,
) -> Result<Vec<ImportInfo<'a>, A>>
    ensures gives { GivesUnlessMemory (λ list. map import_info_parts list.items)
        result (place reader.new) (list_at import_info_at (place reader.old)) }
    ensures keeps { KeepsWindow reader.old reader.new }
{
    read_list(alloc, reader)
}

impl<'a, A: Allocator> Dylink0Subsection<'a, A> {
    /// Reads the subsection with this id, with any allocator for its lists. `from_reader` is the same for `Global`.
    ///
    /// The subsection is the remaining bytes of the reader. Bytes after its last part are ignored.
    ///
    /// # Errors
    ///
    /// The errors of the parts, which are those of `read_var_u32` and `read_unlimited_string`; `OutOfMemory`, at offset
    /// 0, when an allocation fails. An unknown id is no error.
    #[tactic(auto, unfolding(crate::specs::Dylink0::dylink_subsection_in))]
    pub fn from_reader_in(alloc: A, id: u8, mut reader: BinaryReader<'a>) -> Result<Self>
        // Proved: a subsection of `dylink.0` may return `OutOfMemory` instead, with any allocator
        //   too; those of names and of `linking` never do [`Allocation` on each; `gives` on
        //   `from_reader_in`]
        ensures gives { GivesResultUnlessMemory dylink_parts result
            (dylink_subsection_in id reader.entry) }
    {
        match id {
            1 => Ok(Dylink0Subsection::MemInfo(reader.read()?)),
            2 => Ok(Dylink0Subsection::Needed(read_texts(alloc, &mut reader)?)),
            3 => Ok(Dylink0Subsection::ExportInfo(read_exports(alloc, &mut reader)?)),
            4 => Ok(Dylink0Subsection::ImportInfo(read_imports(alloc, &mut reader)?)),
            5 => Ok(Dylink0Subsection::RuntimePath(read_texts(alloc, &mut reader)?)),
            6 => Ok(Dylink0Subsection::TargetArch(reader.read_unlimited_string()?)),
            _ => Ok(Dylink0Subsection::Unknown {
                ty: id,
                contents: reader.remaining_buffer(),
                range: reader.remaining_range(),
            }),
        }
    }
}

/// Reads a subsection: numbers, a list of texts, exports or imports, or a text. Bytes after these are ignored.
///
/// # Errors
///
/// Those of `from_reader_in`.
impl<'a> Subsection<'a> for Dylink0Subsection<'a> {
    ghost meaning = { ReadsWindowAs dylink_parts dylink_subsection_in };

    type Allocation = MayAllocate;

    fn from_reader(alloc: Global, id: u8, reader: BinaryReader<'a>) -> Result<Self> {
        Dylink0Subsection::from_reader_in(alloc, id, reader)
    }
}
