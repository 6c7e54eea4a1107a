// What a linker reads.
ghost use Rattle.std.specs.Prelude.{⊤, ◌≡◌, Some, None, length};
ghost use Rattle.std.specs.Iterator.{at_most};
ghost use Rattle.wasm_base.specs.Hints.{NotOutOfMemory};
ghost use Rattle.wasm_base.specs.Inner.{after_reading};
ghost use Rattle.wasm_base.specs.Item.{ReadsAs};
ghost use Rattle.wasm_base.specs.Leading.{lookup};
ghost use Rattle.wasm_base.specs.Outcome.{GivesBy, GivesResult};
ghost use Rattle.wasm_base.specs.Subsections.{NextSubsection, ReadsWindowAs};
ghost use Rattle.wasm_base.specs.Window.{place, KeepsWindow};
ghost use Rattle.wasm_custom.specs.Flags.{symbol_bits};
ghost use Rattle.wasm_custom.specs.Linking.{comdat_kinds, comdat_symbol_at, symbol_name_at, index_and_name_at, text_if_any, data_place_at, linking_in, linking_parts, linking_subsection_in};

use crate::flags::{SegmentFlags, SymbolFlags};
use bitflags::Flags;
use std::alloc::{AllocError, Global};
use std::marker::Model;
use std::ops::Range;
use wasm_base::{
    BinaryReader, Error, Fault, FromReader, Lead, NeverAllocates, Result, SectionLimited, SkipItem,
    Subsection, Subsections, leading_byte_error, read_inner,
};

/// A list of information about data segments.
///
/// ```rattle
/// let bytes = b"\x01\x05.data\x02\x00";
/// for segment in SegmentMap::new(BinaryReader::new(bytes, 0))? {
///     let segment = segment?;
///     assert_eq!(rt; segment.name, ".data");
///     assert_eq!(rt; segment.alignment, 2);
/// }
/// ```
///
/// (Tool conventions, Linking, Segment Info Subsection.)
pub type SegmentMap<'a> = SectionLimited<'a, Segment<'a>>;

/// A list of functions to call at startup.
///
/// ```rattle
/// for function in InitFuncMap::new(BinaryReader::new(&[1, 10, 4], 0))? {
///     let function = function?;
///     assert_eq!(rt; function.priority, 10);
///     assert_eq!(rt; function.symbol_index, 4);
/// }
/// ```
///
/// (Tool conventions, Linking, Init Functions Subsection.)
pub type InitFuncMap<'a> = SectionLimited<'a, InitFunc>;

/// A list of comdats.
///
/// ```rattle
/// let bytes = b"\x01\x01c\x00\x01\x01\x05";
/// for comdat in ComdatMap::new(BinaryReader::new(bytes, 0))? {
///     assert_eq!(rt; comdat?.name, "c");
/// }
/// ```
///
/// (Tool conventions, Linking, COMDAT Subsection.)
pub type ComdatMap<'a> = SectionLimited<'a, Comdat<'a>>;

/// A list of symbols.
///
/// ```rattle
/// // The defined function 3 has the symbol "f".
/// let bytes = b"\x01\x00\x00\x03\x01f";
/// for symbol in SymbolInfoMap::new(BinaryReader::new(bytes, 0))? {
///     if let SymbolInfo::Func { index, name, .. } = symbol? {
///         assert_eq!(rt; index, 3);
///         assert_eq!(rt; name, Some("f"));
///     }
/// }
/// ```
///
/// (Tool conventions, Linking, Symbol Table Subsection.)
pub type SymbolInfoMap<'a> = SectionLimited<'a, SymbolInfo<'a>>;

/// Information about a data segment (tool conventions, Linking, Segment Info Subsection).
#[derive(Clone, Copy, Debug)]
pub struct Segment<'a> {
    /// The name of the segment.
    pub name: &'a str,
    /// The alignment of the segment, as the base-2 logarithm of the bytes.
    pub alignment: u32,
    /// The flags of the segment.
    pub flags: SegmentFlags,
}

/// A function to call at startup (tool conventions, Linking, Init Functions Subsection).
#[derive(Clone, Copy, Debug)]
pub struct InitFunc {
    /// The priority of the function: lower numbers are called first.
    pub priority: u32,
    /// The index of the function's symbol in the symbol table.
    pub symbol_index: u32,
}

/// A comdat: a group of symbols, of which the linker keeps one copy if several modules define it.
///
/// ```rattle
/// // The comdat "c" of function 5.
/// let mut reader = BinaryReader::new(b"\x01c\x00\x01\x01\x05", 0);
/// for symbol in Comdat::from_reader(&mut reader)?.symbols {
///     let symbol = symbol?;
///     assert_eq!(rt; symbol.kind, ComdatSymbolKind::Func);
///     assert_eq!(rt; symbol.index, 5);
/// }
/// ```
///
/// (Tool conventions, Linking, COMDAT Subsection.)
#[derive(Clone, Debug, Drop)]
pub struct Comdat<'a> {
    /// The name of the comdat, which identifies it among modules.
    pub name: &'a str,
    /// The flags. None is defined; they are not checked.
    pub flags: u32,
    /// The symbols of the comdat, read lazily. If the comdat was read, iterating over them yields no error.
    pub symbols: SectionLimited<'a, ComdatSymbol>,
}

/// A symbol of a comdat (tool conventions, Linking, COMDAT Subsection).
#[derive(Clone, Copy, Debug)]
pub struct ComdatSymbol {
    /// The kind of the symbol.
    pub kind: ComdatSymbolKind,
    /// The index of the symbol, in the index space of the kind.
    pub index: u32,
}

/// The kind of a symbol of a comdat (tool conventions, Linking, COMDAT Subsection).
#[derive(Clone, Copy, Debug, PartialEq, Eq, Hash)]
pub enum ComdatSymbolKind {
    /// A data segment.
    Data,
    /// A function.
    Func,
    /// A global.
    Global,
    /// An event.
    Event,
    /// A table.
    Table,
    /// A section.
    Section,
}

/// The location of a defined data symbol.
///
/// ```rattle
/// let mut reader = BinaryReader::new(b"\x01\x00\x01x\x00\x08\x04", 0);
/// if let SymbolInfo::Data { symbol, .. } = SymbolInfo::from_reader(&mut reader)? {
///     let place = symbol.ok_or("not defined")?;
///     assert_eq!(rt; place.offset, 8);
///     assert_eq!(rt; place.size, 4);
/// }
/// ```
///
/// (Tool conventions, Linking, Symbol Table Subsection.)
#[derive(Clone, Copy, Debug)]
pub struct DefinedDataSymbol {
    /// The index of the data segment.
    pub index: u32,
    /// The offset of the data from the start of the segment, in bytes.
    pub offset: u32,
    /// The size of the data, in bytes.
    pub size: u32,
}

/// A symbol of the symbol table.
///
/// ```rattle
/// // An undefined function, imported as function 0.
/// let mut reader = BinaryReader::new(&[0, 0x10, 0], 0);
/// match SymbolInfo::from_reader(&mut reader)? {
///     SymbolInfo::Func { index, name, .. } => {
///         assert_eq!(rt; index, 0);
///         assert_eq!(rt; name, None);
///     }
///     _ => assert!(rt; false),
/// }
/// ```
///
/// (Tool conventions, Linking, Symbol Table Subsection.)
#[derive(Clone, Copy, Debug)]
pub enum SymbolInfo<'a> {
    /// A function.
    Func {
        /// The flags of the symbol.
        flags: SymbolFlags,
        /// The index of the function.
        index: u32,
        /// The name of the symbol. `None` for an undefined symbol without `EXPLICIT_NAME`, which has the name of the
        /// import.
        name: Option<&'a str>,
    },
    /// A global.
    Global {
        /// The flags of the symbol.
        flags: SymbolFlags,
        /// The index of the global.
        index: u32,
        /// The name of the symbol, or `None` as for a function.
        name: Option<&'a str>,
    },
    /// An event, which the core specification calls a tag.
    Event {
        /// The flags of the symbol.
        flags: SymbolFlags,
        /// The index of the event.
        index: u32,
        /// The name of the symbol, or `None` as for a function.
        name: Option<&'a str>,
    },
    /// A table.
    Table {
        /// The flags of the symbol.
        flags: SymbolFlags,
        /// The index of the table.
        index: u32,
        /// The name of the symbol, or `None` as for a function.
        name: Option<&'a str>,
    },
    /// Data in a segment.
    Data {
        /// The flags of the symbol.
        flags: SymbolFlags,
        /// The name of the symbol.
        name: &'a str,
        /// The location of the data, or `None` for an undefined symbol.
        symbol: Option<DefinedDataSymbol>,
    },
    /// A section.
    Section {
        /// The flags of the symbol.
        flags: SymbolFlags,
        /// The index of the section among all sections of the module.
        section: u32,
    },
}

/// Reads a name of any length, an alignment and flags, each a u32, with the errors of `read_unlimited_string` and
/// `read_var_u32`.
impl<'a> FromReader<'a> for Segment<'a> {
    ghost use Rattle.wasm_custom.specs.Linking.{segment_parts, segment_at};

    ghost meaning = { ReadsAs segment_parts segment_at };

    #[tactic(auto, unfolding(crate::specs::Linking::segment_at))]
    fn from_reader(reader: &mut BinaryReader<'a>) -> Result<Self> {
        let name = reader.read_unlimited_string()?;
        let alignment = reader.read_var_u32()?;
        let flags = reader.read()?;
        Ok(Segment {
            name,
            alignment,
            flags,
        })
    }
}

/// Reads a priority and the index of a symbol, each a u32, with the errors of `read_var_u32`.
impl<'a> FromReader<'a> for InitFunc {
    ghost use Rattle.wasm_custom.specs.Linking.{init_function_at};

    ghost meaning = { ReadsAs (λ function. function) init_function_at };

    #[tactic(auto, unfolding(crate::specs::Linking::init_function_at))]
    fn from_reader(reader: &mut BinaryReader<'a>) -> Result<Self> {
        let priority = reader.read_var_u32()?;
        let symbol_index = reader.read_var_u32()?;
        Ok(InitFunc {
            priority,
            symbol_index,
        })
    }
}

// Returns the kind of a comdat's symbol that a byte encodes, if any.
fn comdat_kind(byte: u8) -> Option<ComdatSymbolKind>
    ensures { result ≡ lookup comdat_kinds byte }
{
    match byte {
        0 => Some(ComdatSymbolKind::Data),
        1 => Some(ComdatSymbolKind::Func),
        2 => Some(ComdatSymbolKind::Global),
        3 => Some(ComdatSymbolKind::Event),
        4 => Some(ComdatSymbolKind::Table),
        5 => Some(ComdatSymbolKind::Section),
        _ => None,
    }
}

/// Reads a byte: 0 for data, 1 a function, 2 a global, 3 an event, 4 a table, 5 a section.
///
/// # Errors
///
/// `UnexpectedEof` if no byte remains; `LeadingByte(ComdatSymbol)` at any other byte, the error's number.
impl<'a> FromReader<'a> for ComdatSymbolKind {
    ghost use Rattle.wasm_custom.specs.Linking.{comdat_kind_at};

    ghost meaning = { ReadsAs (λ kind. kind) comdat_kind_at };

    #[tactic(auto, unfolding(wasm_base::specs::Leading::in_table))]
    fn from_reader(reader: &mut BinaryReader<'a>) -> Result<Self> {
        let byte = reader.read_u8()?;
        match comdat_kind(byte) {
            Some(kind) => Ok(kind),
            None => {
                let offset = reader.original_position() - 1;
                Err(leading_byte_error(Lead::ComdatSymbol, byte, offset))
            }
        }
    }
}

/// Reads a kind and an index, a u32, with the errors of `ComdatSymbolKind` and `read_var_u32`.
impl<'a> FromReader<'a> for ComdatSymbol {
    ghost meaning = { ReadsAs (λ symbol. symbol) comdat_symbol_at };

    #[tactic(auto, unfolding(crate::specs::Linking::comdat_symbol_at))]
    fn from_reader(reader: &mut BinaryReader<'a>) -> Result<Self> {
        let kind = reader.read()?;
        let index = reader.read_var_u32()?;
        Ok(ComdatSymbol { kind, index })
    }
}

/// Skips a symbol, with the errors of reading it.
impl<'a> SkipItem<'a> for ComdatSymbol {
    ghost skipped_at = { after_reading comdat_symbol_at };

    #[tactic(auto, unfolding(wasm_base::specs::Inner::after_reading))]
    fn skip_item(reader: &mut BinaryReader<'a>) -> Result<()> {
        ComdatSymbol::from_reader(reader)?;
        Ok(())
    }
}

/// Reads a name of any length and flags, a u32, and skips the list of symbols.
///
/// # Errors
///
/// Those of `read_unlimited_string`, `read_var_u32` and, for each symbol, `ComdatSymbol`.
impl<'a> FromReader<'a> for Comdat<'a> {
    ghost use Rattle.wasm_custom.specs.Linking.{comdat_parts, comdat_at};

    ghost meaning = { ReadsAs comdat_parts comdat_at };

    #[tactic(auto, unfolding(crate::specs::Linking::comdat_at))]
    fn from_reader(reader: &mut BinaryReader<'a>) -> Result<Self> {
        let name = reader.read_unlimited_string()?;
        let flags = reader.read_var_u32()?;
        let symbols = read_inner(reader)?;
        Ok(Comdat {
            name,
            flags,
            symbols,
        })
    }
}

/// Reads the index of a segment, an offset in it and a size, each a u32, with the errors of `read_var_u32`.
impl<'a> FromReader<'a> for DefinedDataSymbol {
    ghost use Rattle.wasm_custom.specs.Linking.{defined_data_at};

    ghost meaning = { ReadsAs (λ symbol. symbol) defined_data_at };

    #[tactic(auto, unfolding(crate::specs::Linking::defined_data_at))]
    fn from_reader(reader: &mut BinaryReader<'a>) -> Result<Self> {
        let index = reader.read_var_u32()?;
        let offset = reader.read_var_u32()?;
        let size = reader.read_var_u32()?;
        Ok(DefinedDataSymbol {
            index,
            offset,
            size,
        })
    }
}

// Reads the name of a symbol, if present.
#[tactic(auto, unfolding(crate::specs::Linking::symbol_name_at))]
#[inline(always)]
fn read_name<'a>(flags: SymbolFlags, reader: &mut BinaryReader<'a>) -> Result<Option<&'a str>>
    ensures gives { GivesBy (λ name. text_if_any name (λ text. text.now)) result reader.old reader.new
        (symbol_name_at (symbol_bits flags)) }
    ensures keeps { KeepsWindow reader.old reader.new }
    ensures memory { NotOutOfMemory result }
{
    if !flags.contains(SymbolFlags::UNDEFINED) || flags.contains(SymbolFlags::EXPLICIT_NAME) {
        return Ok(Some(reader.read_unlimited_string()?));
    }
    Ok(None)
}

// Reads the index of a symbol, and its name, if present.
#[tactic(auto, unfolding(crate::specs::Linking::index_and_name_at))]
#[inline(always)]
fn read_indexed<'a>(
    flags: SymbolFlags,
    reader: &mut BinaryReader<'a>,
) -> Result<(u32, Option<&'a str>)>
    ensures gives { GivesBy (λ both. (both.0, text_if_any both.1 (λ text. text.now))) result
        reader.old reader.new (index_and_name_at (symbol_bits flags)) }
    ensures keeps { KeepsWindow reader.old reader.new }
    ensures memory { NotOutOfMemory result }
{
    let index = reader.read_var_u32()?;
    let name = read_name(flags, reader)?;
    Ok((index, name))
}

// Reads the location of data, if it is defined in this module.
#[tactic(auto, unfolding(crate::specs::Linking::data_place_at))]
fn read_data_place(
    flags: SymbolFlags,
    reader: &mut BinaryReader<'_>,
) -> Result<Option<DefinedDataSymbol>>
    ensures gives { GivesBy (λ symbol. symbol) result reader.old reader.new
        (data_place_at (symbol_bits flags)) }
    ensures keeps { KeepsWindow reader.old reader.new }
    ensures memory { NotOutOfMemory result }
{
    if flags.contains(SymbolFlags::UNDEFINED) {
        return Ok(None);
    }
    Ok(Some(reader.read()?))
}

/// Reads a kind, a byte, and flags, a u32; then an index and, if present, a name of any length; for data a name and, if
/// defined, a location; for a section an index.
///
/// # Errors
///
/// * `LeadingByte(Symbol)` at a kind above 5, the error's number. It is reported only if the flags after it can be
///   read.
/// * `UnexpectedEof` if no byte remains, and the errors of `read_var_u32` and `read_unlimited_string`.
impl<'a> FromReader<'a> for SymbolInfo<'a> {
    ghost use Rattle.wasm_custom.specs.Linking.{symbol_parts, symbol_at};

    ghost meaning = { ReadsAs symbol_parts symbol_at };

    #[tactic(auto, unfolding(crate::specs::Linking::symbol_at))]
    fn from_reader(reader: &mut BinaryReader<'a>) -> Result<Self> {
        let start = reader.original_position();
        let kind = reader.read_u8()?;
        let flags = SymbolFlags::from_reader(reader)?;
        match kind {
            0 => {
                let (index, name) = read_indexed(flags, reader)?;
                Ok(SymbolInfo::Func { flags, index, name })
            }
            1 => {
                let name = reader.read_unlimited_string()?;
                let symbol = read_data_place(flags, reader)?;
                Ok(SymbolInfo::Data {
                    flags,
                    name,
                    symbol,
                })
            }
            2 => {
                let (index, name) = read_indexed(flags, reader)?;
                Ok(SymbolInfo::Global { flags, index, name })
            }
            3 => {
                let section = reader.read_var_u32()?;
                Ok(SymbolInfo::Section { flags, section })
            }
            4 => {
                let (index, name) = read_indexed(flags, reader)?;
                Ok(SymbolInfo::Event { flags, index, name })
            }
            5 => {
                let (index, name) = read_indexed(flags, reader)?;
                Ok(SymbolInfo::Table { flags, index, name })
            }
            byte => Err(leading_byte_error(Lead::Symbol, byte, start)),
        }
    }
}

/// A subsection of the section `linking`.
///
/// ```rattle
/// let reader = BinaryReader::new(&[1, 10, 4], 0);
/// match Linking::from_reader(alloc, 6, reader)? {
///     Linking::InitFuncs(functions) => assert_eq!(rt; functions.count(), 1),
///     _ => assert!(rt; false),
/// }
/// ```
///
/// (Tool conventions, Linking, Linking Metadata Section.)
#[derive(Debug, Drop)]
pub enum Linking<'a> {
    /// Names, alignments and flags of the data segments (id 5).
    SegmentInfo(SegmentMap<'a>),
    /// The functions to call at startup (id 6).
    InitFuncs(InitFuncMap<'a>),
    /// The comdats (id 7).
    ComdatInfo(ComdatMap<'a>),
    /// The symbol table (id 8).
    SymbolTable(SymbolInfoMap<'a>),
    /// The name of the architecture that the module is for (id 9).
    TargetArch(&'a str),
    /// A subsection with another id, which is not decoded.
    Unknown {
        /// The id, below 128.
        ty: u8,
        /// The content, without the id and the size.
        contents: &'a [u8],
        /// The offsets of the content, in bytes from the start of the stream.
        range: Range<u64>,
    },
}

// By hand, like that of `Name`.
impl<'a> Clone for Linking<'a> {
    ghost is_clone = { λ subsection copy. copy ≡ subsection };

    ghost is_infallible = { λ _. ⊤ };

    fn clone(&self) -> std::result::Result<Self, AllocError> {
        Ok(match self {
            Linking::SegmentInfo(segments) => Linking::SegmentInfo(segments.clone().unwrap()),
            Linking::InitFuncs(functions) => Linking::InitFuncs(functions.clone().unwrap()),
            Linking::ComdatInfo(comdats) => Linking::ComdatInfo(comdats.clone().unwrap()),
            Linking::SymbolTable(symbols) => Linking::SymbolTable(symbols.clone().unwrap()),
            Linking::TargetArch(name) => Linking::TargetArch(name),
            Linking::Unknown {
                ty,
                contents,
                range,
            } => Linking::Unknown {
                ty: *ty,
                contents,
                range: range.start..range.end,
            },
        })
    }
}

/// Reads the count of a list, whose items are read lazily; or, for the architecture, a name of at most 100,000 bytes.
/// Bytes after that name are ignored.
///
/// # Errors
///
/// Those of `read_var_u32` for the count, or of `read_string` for the architecture.
impl<'a> Subsection<'a> for Linking<'a> {
    ghost meaning = { ReadsWindowAs linking_parts linking_subsection_in };

    type Allocation = NeverAllocates;

    #[tactic(auto, unfolding(crate::specs::Linking::linking_subsection_in))]
    fn from_reader(_alloc: Global, id: u8, mut reader: BinaryReader<'a>) -> Result<Self> {
        match id {
            5 => SectionLimited::new(reader).map(Linking::SegmentInfo),
            6 => SectionLimited::new(reader).map(Linking::InitFuncs),
            7 => SectionLimited::new(reader).map(Linking::ComdatInfo),
            8 => SectionLimited::new(reader).map(Linking::SymbolTable),
            9 => reader.read_string().map(Linking::TargetArch),
            _ => Ok(Linking::Unknown {
                ty: id,
                contents: reader.remaining_buffer(),
                range: reader.remaining_range(),
            }),
        }
    }
}

/// The section `linking`: a version and subsections.
///
/// Iterate over the section, or over `subsections`, to read the subsections. Offsets are in bytes from the start of the
/// stream.
///
/// ```rattle
/// // Version 2, and the function symbol 4 to call at startup.
/// let bytes = &[2, 6, 3, 1, 10, 4];
/// for subsection in LinkingSectionReader::new(alloc, BinaryReader::new(bytes, 0))? {
///     if let Linking::InitFuncs(functions) = subsection? {
///         assert_eq!(rt; functions.count(), 1);
///     }
/// }
/// ```
///
/// (Tool conventions, Linking, Linking Metadata Section.)
#[derive(Debug, Drop)]
pub struct LinkingSectionReader<'a> {
    version: u32,
    range: Range<u64>,
    subsections: Subsections<'a, Linking<'a>>,
}

impl<'a> Model for LinkingSectionReader<'a> {
    ghost use Rattle.wasm_custom.specs.Linking.{LinkingSection};

    ghost Value = { LinkingSection };

    ghost view = { λ s. record { version = s.version; range = s.range; subsections = s.subsections } };
}

impl<'a> Clone for LinkingSectionReader<'a> {
    ghost is_clone = { λ section copy. copy ≡ section };

    ghost is_infallible = { λ _. ⊤ };

    fn clone(&self) -> std::result::Result<Self, AllocError> {
        Ok(LinkingSectionReader {
            version: self.version,
            range: self.range.start..self.range.end,
            subsections: self.subsections.clone()?,
        })
    }
}

impl<'a> LinkingSectionReader<'a> {
    /// Reads the version, a u32. The remaining bytes of the window are the subsections; reading them never allocates.
    ///
    /// # Errors
    ///
    /// Those of `read_var_u32`; `LinkingVersion` at the version, the error's number, if it is not 2.
    #[tactic(auto, unfolding(crate::specs::Linking::linking_in))]
    pub fn new(alloc: Global, mut reader: BinaryReader<'a>) -> Result<Self>
        ensures gives { GivesResult (λ section. section) result (linking_in reader.entry) }
        ensures memory { NotOutOfMemory result }
    {
        let start = reader.original_position();
        let version = reader.read_var_u32()?;
        if version != 2 {
            let error = Error::new(Fault::LinkingVersion, start);
            return Err(error.with_number(u64::from(version)));
        }
        Ok(LinkingSectionReader {
            version,
            range: reader.range(),
            subsections: Subsections::new(alloc, reader.shrink()),
        })
    }

    /// Returns the version, which is always 2.
    pub fn version(&self) -> u32
        ensures { result ≡ self.now.version }
    {
        self.version
    }

    /// Returns the offset after the version, where the subsections begin.
    pub fn original_position(&self) -> u64
        ensures { result ≡ (place self.now.subsections).offset }
    {
        self.subsections.original_position()
    }

    /// Returns the offsets of the whole window, including the version.
    pub fn range(&self) -> Range<u64>
        ensures { result ≡ self.now.range }
    {
        self.range.start..self.range.end
    }

    /// Returns an iterator over the subsections, starting with the first.
    pub fn subsections(&self) -> Subsections<'a, Linking<'a>>
        ensures { result ≡ self.now.subsections }
    {
        self.subsections.clone().unwrap()
    }
}

impl<'a> IntoIterator for LinkingSectionReader<'a> {
    type Item = Result<Linking<'a>>;

    // Not `Subsections<'a, Linking<'a>>`, because the checker then stops at this implementation.
    type IntoIter = LinkingIntoIter<'a>;

    ghost into_iter_gives = { λ section subsections. subsections ≡ section.subsections };

    fn into_iter(self) -> LinkingIntoIter<'a> {
        LinkingIntoIter {
            subsections: self.subsections,
        }
    }
}

/// An iterator over the subsections of the section `linking`.
///
/// # Errors
///
/// Those of `Subsections`: the error of a malformed subsection, after which the next one follows.
pub struct LinkingIntoIter<'a> {
    subsections: Subsections<'a, Linking<'a>>,
}

impl<'a> Drop for LinkingIntoIter<'a> {
    fn drop(self) {
        let LinkingIntoIter { subsections: _ } = self;
    }
}

impl<'a> Model for LinkingIntoIter<'a> {
    ghost use Rattle.wasm_base.specs.Window.{Window};

    ghost Value = { Window };

    ghost view = { λ s. s.subsections };
}

impl<'a> Iterator for LinkingIntoIter<'a> {
    ghost use Rattle.std.specs.Prelude.{false};

    type Item = Result<Linking<'a>>;

    ghost next_gives = { NextSubsection (ReadsWindowAs linking_parts linking_subsection_in) false };

    ghost remaining = { λ subsections. at_most (length (place subsections).rest) };

    fn next(&mut self) -> Option<Result<Linking<'a>>> {
        self.subsections.next()
    }
}
