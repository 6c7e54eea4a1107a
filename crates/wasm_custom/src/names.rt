// Names.
ghost use Rattle.std.specs.Prelude.{⊤, ◌≡◌, ◌<◌, ℕ, false, length, refl};
ghost use Rattle.std.specs.Iterator.{at_most};
ghost use Rattle.wasm_base.specs.Ascending.{NextAscending, none_given};
ghost use Rattle.wasm_base.specs.Hints.{Hints, NotOutOfMemory, is_out_of_memory};
ghost use Rattle.wasm_base.specs.Item.{ReadsAs};
ghost use Rattle.wasm_base.specs.Outcome.{GivesResult};
ghost use Rattle.wasm_base.specs.Section.{NextItem, all_items, most_items};
ghost use Rattle.wasm_base.specs.Subsections.{NextSubsection, ReadsWindowAs};
ghost use Rattle.wasm_base.specs.Window.{place};
ghost use Rattle.wasm_custom.specs.Names.{naming_parts, naming_at, skipped_naming_at, indirect_naming_at, entries_in, name_parts, name_in, module_name_in, id_of, index_of, index_of_indirect, offset_of_entry, offset_of_subsection};

use std::alloc::{AllocError, Global};
use std::fmt;
use std::marker::Model;
use std::ops::Range;
use wasm_base::{
    BinaryReader, Error, Fault, FromReader, NeverAllocates, Result, SectionLimited,
    SectionLimitedIntoIter, SkipItem, Subsection, Subsections, expect_end, in_order, read_inner,
};

/// An entry of a name map: an index and a name.
///
/// ```rattle
/// let mut reader = BinaryReader::new(b"\x05\x01f", 0);
/// let naming = Naming::from_reader(&mut reader)?;
/// assert_eq!(rt; naming.index, 5);
/// assert_eq!(rt; naming.name, "f");
/// ```
///
/// (Core specification, Appendix, Custom Sections, Name Section, Name Maps.)
#[derive(Clone, Copy, Debug)]
pub struct Naming<'a> {
    /// The index of the named item, in the index space of the map.
    pub index: u32,
    /// The name of the item.
    pub name: &'a str,
}

/// Reads an index, a u32, and a name of any length, with the errors of `read_var_u32` and `read_unlimited_string`.
impl<'a> FromReader<'a> for Naming<'a> {
    // Proved: names and named items, the symbols, segments, functions and comdats of linkers, and
    //   the memory, exports and imports of dynamic linkers are read by their definitions [`meaning`
    //   on each (`naming_at`, `indirect_naming_at`, `symbol_at`, `segment_at`, `init_function_at`,
    //   `comdat_at`, `mem_info_at`, `export_info_at`, `import_info_at`)]
    // Proved: reading these is never `OutOfMemory`, and unknown flags are kept [`memory`;
    //   `meaning`]
    ghost meaning = { ReadsAs naming_parts naming_at };

    #[tactic(auto, unfolding(crate::specs::Names::naming_at))]
    fn from_reader(reader: &mut BinaryReader<'a>) -> Result<Self> {
        let index = reader.read_var_u32()?;
        let name = reader.read_unlimited_string()?;
        Ok(Naming { index, name })
    }
}

/// Skips an index and a name of at most 100,000 bytes, with the errors of `read_var_u32` and `skip_string`. The name
/// may be invalid UTF-8.
impl<'a> SkipItem<'a> for Naming<'a> {
    ghost skipped_at = { skipped_naming_at };

    #[tactic(auto, unfolding(crate::specs::Names::skipped_naming_at))]
    fn skip_item(reader: &mut BinaryReader<'a>) -> Result<()> {
        reader.read_var_u32()?;
        reader.skip_string()
    }
}

/// An entry of an `IndexedMap`, which has an index and a fault for indices that do not ascend.
///
/// `Naming` and `IndirectNaming` implement it.
///
/// ```rattle
/// let mut reader = BinaryReader::new(b"\x05\x01f", 0);
/// let naming = Naming::from_reader(&mut reader)?;
/// assert_eq!(rt; naming.index(), 5);
/// assert_eq!(rt; Naming::order_fault(), Fault::NamesOrder);
/// ```
pub trait MapEntry<'a>: FromReader<'a> {
    ghost use Rattle.wasm_base.specs.declared.fault.Fault.{Fault};

    /// The index of an entry.
    ghost index_of: { Self → ℕ };

    /// The fault of an entry whose index is not above every index returned before.
    ghost order_fault: { Fault };

    /// The order fault is not `OutOfMemory`.
    ghost takes_no_memory: { is_out_of_memory order_fault ≡ false };

    /// Returns the fault for an entry whose index is not above every index returned before.
    fn order_fault() -> Fault
        ensures { result ≡ order_fault };

    /// Returns the index of the entry.
    fn index(&self) -> u32
        ensures { result ≡ index_of self.now };
}

impl<'a> MapEntry<'a> for Naming<'a> {
    ghost use Rattle.wasm_base.specs.declared.fault.Fault.TheVariants.{NamesOrder};

    ghost index_of = { index_of };

    ghost order_fault = { NamesOrder };

    ghost takes_no_memory = { refl };

    fn order_fault() -> Fault
        ensures { result ≡ NamesOrder }
    {
        Fault::NamesOrder
    }

    fn index(&self) -> u32 {
        self.index
    }
}

/// An iterator over entries whose indices ascend.
///
/// Entries are read lazily and in order. The indices of the entries returned with `Ok` ascend strictly.
///
/// # Errors
///
/// * An entry whose index is not above every index returned before is the `order_fault` of its type, at the start of
///   the entry. The iterator continues with the next entry.
/// * After a malformed entry, with the errors of its `from_reader`, the iterator ends.
/// * If bytes follow the last entry, the iterator ends with `SizeMismatch` at the first of them.
///
/// ```rattle
/// // The indices are 5, 3 and 6.
/// let bytes = b"\x03\x05\x01a\x03\x01b\x06\x01c";
/// let mut names = Vec::new(alloc);
/// for naming in IndexedMap::<Naming>::new(BinaryReader::new(bytes, 0))? {
///     match naming {
///         Ok(naming) => names.push(naming.name)?,
///         Err(error) => assert_eq!(rt; error, Error::new(Fault::NamesOrder, 4)),
///     }
/// }
/// assert_eq!(rt; names.as_slice(), ["a", "c"].as_slice());
/// ```
///
/// (Core specification, Appendix, Custom Sections, Name Section, Name Maps.)
#[derive(Drop)]
pub struct IndexedMap<'a, T> {
    /// An iterator over the remaining entries as encoded, in any order.
    pub names: SectionLimitedIntoIter<'a, T>,
    last: Option<u32>,
}

/// A map from indices to names, as an iterator over ascending entries.
///
/// The order fault is `NamesOrder`. See `IndexedMap` for other errors.
///
/// ```rattle
/// for naming in NameMap::new(BinaryReader::new(b"\x01\x05\x01f", 0))? {
///     let naming = naming?;
///     assert_eq!(rt; naming.index, 5);
///     assert_eq!(rt; naming.name, "f");
/// }
/// ```
///
/// (Core specification, Appendix, Custom Sections, Name Section, Name Maps.)
pub type NameMap<'a> = IndexedMap<'a, Naming<'a>>;

/// A map from indices to name maps, as an iterator over ascending entries.
///
/// The order fault is `IndirectOrder`. See `IndexedMap` for other errors.
///
/// ```rattle
/// // Local 0 of function 5 has the name "x".
/// let bytes = b"\x01\x05\x01\x00\x01x";
/// for function in IndirectNameMap::new(BinaryReader::new(bytes, 0))? {
///     let function = function?;
///     assert_eq!(rt; function.index, 5);
///     for local in function.names {
///         assert_eq!(rt; local?.name, "x");
///     }
/// }
/// ```
///
/// (Core specification, Appendix, Custom Sections, Name Section, Indirect Name Maps.)
pub type IndirectNameMap<'a> = IndexedMap<'a, IndirectNaming<'a>>;

impl<'a, T> Model for IndexedMap<'a, T> {
    ghost use Rattle.wasm_base.specs.Section.{Items};
    ghost use Rattle.wasm_base.specs.Ascending.{Ascending};

    ghost Value = { Ascending Items };

    ghost view = { λ s. record { entries = s.names; last = s.last } };
}

// By hand, with the text of a derived one for `NameMap`. The indirect map has no `Debug`.
impl<'a> fmt::Debug for IndexedMap<'a, Naming<'a>> {
    fn fmt<W: fmt::Write>(&self, f: &mut fmt::Formatter<W>) -> fmt::Result {
        f.debug_struct("NameMap")
            .field("names", &self.names)
            .field("last", &self.last)
            .finish()
    }
}

impl<'a, T: Clone> Clone for IndexedMap<'a, T> {
    ghost is_clone = { λ names copy. copy ≡ names };

    ghost is_infallible = { λ _. ⊤ };

    fn clone(&self) -> std::result::Result<Self, AllocError> {
        Ok(IndexedMap {
            names: self.names.clone()?,
            last: self.last,
        })
    }
}

impl<'a, T: Clone> IndexedMap<'a, T> {
    // Like `clone`, which never fails.
    fn copied(&self) -> Self
        ensures { result ≡ self.now }
    {
        self.clone().unwrap()
    }
}

impl<'a, T: FromReader<'a>> IndexedMap<'a, T> {
    /// Creates an iterator from a window that begins with the count of entries. Reads only the count, a u32.
    ///
    /// # Errors
    ///
    /// Those of `read_var_u32` for the count.
    #[tactic(auto, unfolding(crate::specs::Names::entries_in))]
    pub fn new(reader: BinaryReader<'a>) -> Result<Self>
        // Proved: `new` of the maps of names and of the `linking` section returns what its
        //   definition says of the window, or the first fault [`gives` on each (`entries_in`,
        //   `linking_in`)]
        ensures gives { GivesResult (λ names. names) result (entries_in reader.entry) }
        ensures hints { Hints 1 result }
        ensures memory { NotOutOfMemory result }
    {
        Ok(IndexedMap::over(SectionLimited::new(reader)?))
    }

    // The entries of a section.
    fn over(section: SectionLimited<'a, T>) -> Self
        ensures { result ≡ none_given (all_items section.entry) }
    {
        IndexedMap {
            names: section.into_iter(),
            last: None,
        }
    }
}

impl<'a, T: MapEntry<'a>> Iterator for IndexedMap<'a, T> {
    type Item = Result<T>;

    // Proved: names come in ascending order, also after faults [`next_gives` (`NextAscending`),
    //   `laws::names_ascend`]
    ghost next_gives = { NextAscending (NextItem T.meaning) offset_of_entry T.index_of T.order_fault };

    ghost remaining = { λ names. at_most (most_items names.entries) };

    fn next(&mut self) -> Option<Result<T>> {
        let start = self.names.original_position();
        match self.names.next() {
            Some(Ok(entry)) => {
                let index = entry.index();
                Some(in_order(&mut self.last, index, entry, T::order_fault(), start))
            }
            Some(Err(e)) => Some(Err(e)),
            None => None,
        }
    }
}

/// An entry of an indirect name map: an index and a name map.
///
/// ```rattle
/// let mut reader = BinaryReader::new(b"\x05\x01\x00\x01x", 0);
/// let function = IndirectNaming::from_reader(&mut reader)?;
/// assert_eq!(rt; function.index, 5);
/// ```
///
/// (Core specification, Appendix, Custom Sections, Name Section, Indirect Name Maps.)
#[derive(Clone, Debug, Drop)]
pub struct IndirectNaming<'a> {
    /// The index of the item whose parts are named, such as a function.
    pub index: u32,
    /// The names of the parts, such as the locals of the function.
    pub names: NameMap<'a>,
}

/// Reads an index, a u32, and skips a name map.
///
/// The names are limited to 100,000 bytes here. Iterating over them also checks that they are UTF-8 and in order.
///
/// # Errors
///
/// Those of `read_var_u32` and, for the names, `skip_string`.
impl<'a> FromReader<'a> for IndirectNaming<'a> {
    ghost meaning = { ReadsAs (λ naming. naming) indirect_naming_at };

    #[tactic(auto, unfolding(crate::specs::Names::indirect_naming_at))]
    fn from_reader(reader: &mut BinaryReader<'a>) -> Result<Self> {
        let index = reader.read_var_u32()?;
        let names = NameMap::over(read_inner(reader)?);
        Ok(IndirectNaming { index, names })
    }
}

impl<'a> MapEntry<'a> for IndirectNaming<'a> {
    ghost use Rattle.wasm_base.specs.declared.fault.Fault.TheVariants.{IndirectOrder};

    ghost index_of = { index_of_indirect };

    ghost order_fault = { IndirectOrder };

    ghost takes_no_memory = { refl };

    fn order_fault() -> Fault
        ensures { result ≡ IndirectOrder }
    {
        Fault::IndirectOrder
    }

    fn index(&self) -> u32 {
        self.index
    }
}

/// A subsection of the section `name`.
///
/// The core specification has names of the module, functions, locals, types, fields and tags. The names of labels,
/// tables, memories, globals, element and data segments belong to the extended name section proposal. The names of
/// parameters are read as `wasmparser` reads them.
///
/// ```rattle
/// let reader = BinaryReader::new(b"\x03app", 0);
/// match Name::from_reader(alloc, 0, reader)? {
///     Name::Module { name, .. } => assert_eq!(rt; name, "app"),
///     _ => assert!(rt; false),
/// }
/// ```
///
/// (Core specification, Appendix, Custom Sections, Name Section, Subsections.)
#[derive(Drop)]
pub enum Name<'a> {
    /// The name of the module (id 0).
    Module {
        /// The name, of at most 100,000 bytes.
        name: &'a str,
        /// The offsets of the size and the name, which are the whole subsection, in bytes from the start of the stream.
        name_range: Range<u64>,
    },
    /// The names of functions (id 1).
    Function(NameMap<'a>),
    /// The names of locals, by function (id 2).
    Local(IndirectNameMap<'a>),
    /// The names of labels, by function (id 3).
    Label(IndirectNameMap<'a>),
    /// The names of types (id 4).
    Types(NameMap<'a>),
    /// The names of tables (id 5).
    Table(NameMap<'a>),
    /// The names of memories (id 6).
    Memory(NameMap<'a>),
    /// The names of globals (id 7).
    Global(NameMap<'a>),
    /// The names of element segments (id 8).
    Element(NameMap<'a>),
    /// The names of data segments (id 9).
    Data(NameMap<'a>),
    /// The names of fields, by type (id 10).
    Field(IndirectNameMap<'a>),
    /// The names of tags (id 11).
    Tag(NameMap<'a>),
    /// The names of parameters, by type (id 12).
    Parameter(IndirectNameMap<'a>),
    /// The names of the parameters of tags, by tag (id 13).
    TagParameter(IndirectNameMap<'a>),
    /// A subsection with another id, which is not decoded.
    Unknown {
        /// The id, below 128.
        ty: u8,
        /// The content, without the id and the size.
        contents: &'a [u8],
        /// The offsets of the content, in bytes from the start of the stream.
        range: Range<u64>,
    },
}

// By hand: a derived one has a branch for each kind of name in which its map could not be cloned.
impl<'a> Clone for Name<'a> {
    ghost is_clone = { λ name copy. copy ≡ name };

    ghost is_infallible = { λ _. ⊤ };

    fn clone(&self) -> std::result::Result<Self, AllocError> {
        Ok(match self {
            Name::Module { name, name_range } => Name::Module {
                name,
                name_range: name_range.start..name_range.end,
            },
            Name::Function(names) => Name::Function(names.copied()),
            Name::Local(names) => Name::Local(names.copied()),
            Name::Label(names) => Name::Label(names.copied()),
            Name::Types(names) => Name::Types(names.copied()),
            Name::Table(names) => Name::Table(names.copied()),
            Name::Memory(names) => Name::Memory(names.copied()),
            Name::Global(names) => Name::Global(names.copied()),
            Name::Element(names) => Name::Element(names.copied()),
            Name::Data(names) => Name::Data(names.copied()),
            Name::Field(names) => Name::Field(names.copied()),
            Name::Tag(names) => Name::Tag(names.copied()),
            Name::Parameter(names) => Name::Parameter(names.copied()),
            Name::TagParameter(names) => Name::TagParameter(names.copied()),
            Name::Unknown {
                ty,
                contents,
                range,
            } => Name::Unknown {
                ty: *ty,
                contents,
                range: range.start..range.end,
            },
        })
    }
}

// Reads the name of the module, without trailing bytes.
#[tactic(auto, unfolding(crate::specs::Names::module_name_in))]
fn module_name<'a>(mut reader: BinaryReader<'a>) -> Result<Name<'a>>
    ensures gives { GivesResult name_parts result (module_name_in reader.entry) }
    ensures memory { NotOutOfMemory result }
{
    let name_range = reader.remaining_range();
    let name = reader.read_string()?;
    expect_end(Fault::NameTrailing, &reader)?;
    Ok(Name::Module { name, name_range })
}

// Reads a subsection with an id above 6. One `match` over all ids takes half as long again to prove.
#[tactic(auto, unfolding(crate::specs::Names::name_in))]
fn later_name<'a>(id: u8, reader: BinaryReader<'a>) -> Result<Name<'a>>
    requires { 6 < id }
    ensures gives { GivesResult name_parts result (name_in id reader.entry) }
    ensures memory { NotOutOfMemory result }
{
    match id {
        7 => NameMap::new(reader).map(Name::Global),
        8 => NameMap::new(reader).map(Name::Element),
        9 => NameMap::new(reader).map(Name::Data),
        10 => IndirectNameMap::new(reader).map(Name::Field),
        11 => NameMap::new(reader).map(Name::Tag),
        12 => IndirectNameMap::new(reader).map(Name::Parameter),
        13 => IndirectNameMap::new(reader).map(Name::TagParameter),
        _ => Ok(Name::Unknown {
            ty: id,
            contents: reader.remaining_buffer(),
            range: reader.remaining_range(),
        }),
    }
}

/// Reads the name of the module, or the count of a name map, whose entries are read lazily.
///
/// # Errors
///
/// For the name of the module, those of `read_string`, and `NameTrailing` at the first byte after the name. For a name
/// map, those of `read_var_u32` for the count.
impl<'a> Subsection<'a> for Name<'a> {
    // Proved: a subsection of names, of `linking` or of `dylink.0` is what its id and its window
    //   say, or the first fault [`meaning` (`name_in`, `linking_subsection_in`,
    //   `dylink_subsection_in`)]
    // Proved: the range of an unknown one, and of the module's name, is that of the remaining bytes
    //   of the window
    ghost meaning = { ReadsWindowAs name_parts name_in };

    type Allocation = NeverAllocates;

    #[tactic(auto, unfolding(crate::specs::Names::name_in))]
    fn from_reader(_alloc: Global, id: u8, reader: BinaryReader<'a>) -> Result<Self> {
        match id {
            0 => module_name(reader),
            1 => NameMap::new(reader).map(Name::Function),
            2 => IndirectNameMap::new(reader).map(Name::Local),
            3 => IndirectNameMap::new(reader).map(Name::Label),
            4 => NameMap::new(reader).map(Name::Types),
            5 => NameMap::new(reader).map(Name::Table),
            6 => NameMap::new(reader).map(Name::Memory),
            _ => later_name(id, reader),
        }
    }
}

// Returns the id of a subsection.
fn id_of(name: &Name<'_>) -> u8
    ensures { result ≡ id_of name.now }
{
    match name {
        Name::Module { .. } => 0,
        Name::Function(_) => 1,
        Name::Local(_) => 2,
        Name::Label(_) => 3,
        Name::Types(_) => 4,
        Name::Table(_) => 5,
        Name::Memory(_) => 6,
        Name::Global(_) => 7,
        Name::Element(_) => 8,
        Name::Data(_) => 9,
        Name::Field(_) => 10,
        Name::Tag(_) => 11,
        Name::Parameter(_) => 12,
        Name::TagParameter(_) => 13,
        Name::Unknown { ty, .. } => *ty,
    }
}

/// The section `name`, an iterator over subsections whose ids ascend.
///
/// Reading subsections never allocates.
///
/// # Errors
///
/// * A subsection whose id is not above every id returned before is `NameSectionOrder` at the start of the subsection.
/// * A malformed subsection is the error of reading it. Its id does not count as returned.
/// * A malformed id is `InvalidU7`; a malformed size is an error of `read_reader`.
///
/// After each of these, the iterator continues with the next subsection, as `Subsections` does.
///
/// ```rattle
/// // The name of the module, then the name "f" for function 5.
/// let bytes = b"\x00\x04\x03app\x01\x04\x01\x05\x01f";
/// for subsection in NameSectionReader::new(alloc, BinaryReader::new(bytes, 0)) {
///     match subsection? {
///         Name::Module { name, .. } => assert_eq!(rt; name, "app"),
///         Name::Function(names) => assert_eq!(rt; names.count(), 1),
///         _ => assert!(rt; false),
///     }
/// }
/// ```
///
/// (Core specification, Appendix, Custom Sections, Name Section.)
#[derive(Drop)]
pub struct NameSectionReader<'a> {
    /// An iterator over the remaining subsections as encoded, in any order.
    pub sections: Subsections<'a, Name<'a>>,
    last: Option<u32>,
}

impl<'a> Model for NameSectionReader<'a> {
    ghost use Rattle.wasm_base.specs.Window.{Window};
    ghost use Rattle.wasm_base.specs.Ascending.{Ascending};

    ghost Value = { Ascending Window };

    ghost view = { λ s. record { entries = s.sections; last = s.last } };
}

impl<'a> Clone for NameSectionReader<'a> {
    ghost is_clone = { λ names copy. copy ≡ names };

    ghost is_infallible = { λ _. ⊤ };

    fn clone(&self) -> std::result::Result<Self, AllocError> {
        Ok(NameSectionReader {
            sections: self.sections.clone()?,
            last: self.last,
        })
    }
}

impl<'a> NameSectionReader<'a> {
    /// Creates an iterator over the subsections in the remaining bytes of a reader. Nothing is read, and nothing
    /// allocates.
    pub fn new(alloc: Global, reader: BinaryReader<'a>) -> Self
        ensures { result ≡ none_given reader.entry }
    {
        NameSectionReader {
            sections: Subsections::new(alloc, reader),
            last: None,
        }
    }
}

impl<'a> Iterator for NameSectionReader<'a> {
    ghost use Rattle.std.specs.Prelude.{false};
    ghost use Rattle.wasm_base.specs.declared.fault.Fault.TheVariants.{NameSectionOrder};

    type Item = Result<Name<'a>>;

    // Proved: `next` of both maps of names and of the name section returns an entry exactly if its
    //   index or id is above the last one that it returned [`next_gives` on each (`NextAscending`)]
    // Proved: otherwise it returns the fault of the order, at the start of the entry; an entry with
    //   a fault of its own is that fault
    ghost next_gives = { NextAscending (NextSubsection (ReadsWindowAs name_parts name_in) false)
        offset_of_subsection id_of NameSectionOrder };

    ghost remaining = { λ names. at_most (length (place names.entries).rest) };

    fn next(&mut self) -> Option<Result<Name<'a>>> {
        let start = self.sections.original_position();
        match self.sections.next() {
            Some(Ok(name)) => {
                let id = u32::from(id_of(&name));
                let fault = Fault::NameSectionOrder;
                Some(in_order(&mut self.last, id, name, fault, start))
            }
            Some(Err(e)) => Some(Err(e)),
            None => None,
        }
    }
}
