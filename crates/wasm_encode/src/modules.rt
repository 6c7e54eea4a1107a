// Modules that are written section by section.
ghost use Rattle.std.specs.Prelude.{◌≡◌, ◌<◌, ◌^◌, [], IfErr, IfOk, List, length};
ghost use Rattle.wasm_encode.specs.Modules.{Adds, AddsCustom, AddsItems, Admits, CountsItems, Finishes, FirstUnfit, Grows, Holds, IsOfNumber, MakesFrames, Notes, agrees, lacks as lacks_section, may_follow, rank_of_id};
ghost use Rattle.wasm_encode.specs.Frames.{frame_of};
ghost use Rattle.wasm_encode.specs.Numbers.{unsigned_bytes};
ghost use Rattle.wasm_grammar.specs.Accepted.{SectionFrame};

use crate::custom::{custom_fits, custom_len, write_custom};
use crate::encode::Encode;
use crate::sections::{
    number_section_len, section_fits, section_len, write_number_section, write_section,
};
use std::alloc::{AllocError, Allocator};
use wasm_grammar::{
    CODE_SECTION, CORE_HEADER, DATA_COUNT_SECTION, DATA_SECTION, Encoding, FUNCTION_SECTION,
    START_SECTION, section_kind, section_rank,
};

/// Why a section was not added to a module.
#[derive(Clone, Copy, Debug, PartialEq, Eq)]
pub enum Refused {
    /// The module already has a section with the same id, or one that must come after it (core specification, Binary
    /// format, Modules).
    Order,
    /// A code section has more or fewer bodies than there are functions, or a data section more or fewer segments than
    /// the data count section announced.
    Count,
    /// The item at this index can't be written: a name or a number is above its limit, or the format has no bytes for
    /// it. It is the first such item.
    Item(usize),
    /// The content of the section has 2^32 bytes or more, or the name of a custom section more than 100,000 bytes.
    Size,
    /// An allocation failed.
    Memory,
}

/// What a module lacks at its end.
#[derive(Clone, Copy, Debug, PartialEq, Eq)]
pub enum Unfinished {
    /// There are functions, and no code section.
    Code,
    /// Data segments were announced, and there is no data section.
    Data,
}

/// A type whose values are the items of a section: its content is a count, and as many such items.
///
/// These are types (`RecGroup`), imports (`Import`, or with bundles `Imports`), functions (`u32`, the index of the type of
/// each), tables (`Table`), memories (`MemoryType`), tags (`TagType`), globals (`Global`), exports (`Export`), elements
/// (`Element`), code (`FunctionBody`) and data (`Data`).
///
/// (Core specification, Binary format, Modules.)
pub trait SectionItem: Encode {
    ghost use Rattle.std.specs.Prelude.{ℕ};
    ghost use Rattle.wasm_encode.specs.Modules.{MakesFrames};

    /// The id of the section.
    ghost section: { ℕ };

    /// Returns the id of the section that has such items.
    fn section_id() -> u8
        ensures id { result ≡ section }
        // Proved: any items that can be written make a well-formed section with the id of their type
        ensures frames { MakesFrames Self.encoded Self.is_encodable result };
}

/// A module that is being written: its header and the sections so far.
///
/// Sections are added in their order, and `finish` returns the bytes: a module that parsers accept, with exactly these
/// sections. A section that may not follow, or can't be written, is refused when it is added, and the module is as it
/// was.
///
/// ```rattle
/// let body = FunctionBody::new(BinaryReader::new(b"\0\x0b", 0));
/// let mut module = Module::new(alloc)?;
/// assert_eq!(rt; module.section(&[3u32]), Ok(()));
/// assert_eq!(rt; module.section(&[Export { name: "run", kind: ExternalKind::Func, index: 0 }]), Ok(()));
/// assert_eq!(rt; module.section(&[body]), Ok(()));
/// assert!(rt; module.finish().is_ok());
/// ```
///
/// ```rattle
/// let mut module = Module::new(alloc)?;
/// assert_eq!(rt; module.section(&[3u32]), Ok(()));
/// assert_eq!(rt; module.start(0), Ok(()));
/// assert_eq!(rt; module.section(&[3u32]), Err(Refused::Order));
/// assert!(rt; matches!(module.finish(), Err(Unfinished::Code)));
/// ```
///
/// (Core specification, Binary format, Modules.)
#[derive(Drop)]
pub struct Module<A: Allocator> {
    bytes: Vec<u8, A>,
    // The highest rank of the sections.
    rank: u8,
    // The counts of these sections, if they are there.
    functions: Option<u32>,
    bodies: Option<u32>,
    announced: Option<u32>,
    segments: Option<u32>,
}

// Returns the number of the first item that does not fit, or how many there are.
fn first_unfit<T: Encode>(items: &[T]) -> usize
    ensures { FirstUnfit T.is_encodable items.now result }
{
    let mut index = 0;
    'items: for item in items {
        if !item.fits() {
            return index;
        }
        index += 1;
    }
    index
}

// Returns how many items there are, or why they can't be written.
fn count_items<T: Encode>(items: &[T]) -> Result<u32, Refused>
    ensures { CountsItems T.encoded T.is_encodable items.now result }
{
    if section_fits(items) {
        return Ok(items.len() as u32);
    }
    let index = first_unfit(items);
    if index < items.len() {
        return Err(Refused::Item(index));
    }
    Err(Refused::Size)
}

// Returns the rank of a module's section with this id, or 0 if it has none.
fn rank_in_module(id: u8) -> u8
    ensures { result ≡ rank_of_id id }
{
    section_rank(section_kind(Encoding::Module, id), id)
}

// Returns whether a section has items, and the other one that they imply is not there.
fn lacks(counted: Option<u32>, other: Option<u32>) -> bool
    ensures { result ≡ lacks_section counted other }
{
    counted.unwrap_or(0) != 0 && other.is_none()
}

impl<A: Allocator> Module<A> {
    /// Returns a module without sections: its header.
    ///
    /// # Errors
    ///
    /// `AllocError` when an allocation fails.
    ///
    /// (Core specification, Binary format, Modules.)
    pub fn new(alloc: A) -> Result<Self, AllocError>
        // Proved: a new module has a header and no section [`Module::new` (`Holds`)]
        ensures { IfOk result (Holds []) }
    {
        let bytes = Vec::from_slice(alloc, &CORE_HEADER)?;
        Ok(Module {
            bytes,
            rank: 0,
            functions: None,
            bodies: None,
            announced: None,
            segments: None,
        })
    }

    // Returns whether a section with this id may follow, whatever is in it.
    fn may_follow(&self, id: u8) -> bool
        ensures { result ≡ may_follow self.now id }
    {
        let rank = rank_in_module(id);
        rank == 0 || self.rank < rank
    }

    // Returns whether a section with this id and count has as many items as those before it imply.
    fn agrees(&self, id: u8, count: u32) -> bool
        ensures { result ≡ agrees self.now id count }
    {
        match id {
            CODE_SECTION => self.functions.unwrap_or(0) == count,
            DATA_SECTION => self.announced.unwrap_or(count) == count,
            _ => true,
        }
    }

    // Returns an error if a section with this id and count may not follow.
    fn admit(&self, id: u8, count: u32) -> Result<(), Refused>
        ensures { Admits id count self.now result }
    {
        if !self.may_follow(id) {
            return Err(Refused::Order);
        }
        if !self.agrees(id, count) {
            return Err(Refused::Count);
        }
        Ok(())
    }

    // Makes room for more bytes at the end, and returns the index where they begin.
    fn grow(&mut self, size: usize) -> Result<usize, Refused>
        ensures { Grows size result self.old self.new }
    {
        let at = self.bytes.len();
        // No vector has 2^64 bytes.
        let Some(end) = at.checked_add(size) else {
            return Err(Refused::Memory);
        };
        match self.bytes.resize(end, 0) {
            Ok(()) => Ok(at),
            Err(_) => Err(Refused::Memory),
        }
    }

    // Notes that a section with this id and count is there.
    fn note(&mut self, id: u8, count: u32)
        ensures { Notes id count self.old self.new }
    {
        self.rank = self.rank.max(rank_in_module(id));
        match id {
            FUNCTION_SECTION => self.functions = Some(count),
            CODE_SECTION => self.bodies = Some(count),
            DATA_COUNT_SECTION => self.announced = Some(count),
            DATA_SECTION => self.segments = Some(count),
            _ => {}
        }
    }

    /// Adds a section of these items, which may be none. The type of the items says which section it is.
    ///
    /// # Errors
    ///
    /// The module is as it was before.
    ///
    /// * `Item` if an item can't be written, with the index of the first such item.
    /// * `Size` if the content has 2^32 bytes or more.
    /// * `Order` if the module already has such a section, or one that must come after it.
    /// * `Count` if a code section has more or fewer bodies than there are functions, or a data section more or fewer
    ///   segments than the data count section announced.
    /// * `Memory` when an allocation fails.
    ///
    /// ```rattle
    /// let mut module = Module::new(alloc)?;
    /// let memory = MemoryType { memory64: false, shared: false, initial: 1, maximum: None, page_size_log2: None };
    /// assert_eq!(rt; module.section(&[memory]), Ok(()));
    /// assert_eq!(rt; module.section(&[0u32]), Err(Refused::Order));
    /// ```
    ///
    /// (Core specification, Binary format, Modules, Sections.)
    pub fn section<T: SectionItem>(&mut self, items: &[T]) -> Result<(), Refused>
        // Proved: a section of items that is added follows those before it, or the call says why it may not or can't be
        //   written, and the module is as it was [`Module::section` (`AddsItems`)]
        ensures { (frames : List SectionFrame) → Holds frames self.old
            → AddsItems T.encoded T.is_encodable T.section items.now frames result self.new }
    {
        let id = T::section_id();
        let count = count_items(items)?;
        self.admit(id, count)?;
        let at = self.grow(section_len(items))?;
        write_section(&mut self.bytes, at, id, items);
        self.note(id, count);
        Ok(())
    }

    // Adds a section that is a number.
    fn number_section(&mut self, id: u8, number: u32) -> Result<(), Refused>
        requires { IsOfNumber id }
        ensures { (frames : List SectionFrame) → Holds frames self.old
            → Adds frames (frame_of id (unsigned_bytes number)) result self.new }
    {
        self.admit(id, number)?;
        let at = self.grow(number_section_len(number))?;
        write_number_section(&mut self.bytes, at, id, number);
        self.note(id, number);
        Ok(())
    }

    /// Adds a start section: the function that is called first.
    ///
    /// # Errors
    ///
    /// `Order` or `Memory`. The module is as it was before.
    ///
    /// (Core specification, Binary format, Modules, Start Section.)
    pub fn start(&mut self, function: u32) -> Result<(), Refused>
        // Proved: the same of a start section, a data count section and a custom section [`Module::start`,
        //   `Module::data_count` (`Adds`), `Module::custom` (`AddsCustom`)]
        ensures { (frames : List SectionFrame) → Holds frames self.old
            → Adds frames (frame_of 8 (unsigned_bytes function)) result self.new }
    {
        self.number_section(START_SECTION, function)
    }

    /// Adds a data count section: how many data segments the data section will have.
    ///
    /// # Errors
    ///
    /// `Order` or `Memory`. The module is as it was before.
    ///
    /// (Core specification, Binary format, Modules, Data Count Section.)
    pub fn data_count(&mut self, segments: u32) -> Result<(), Refused>
        ensures { (frames : List SectionFrame) → Holds frames self.old
            → Adds frames (frame_of 12 (unsigned_bytes segments)) result self.new }
    {
        self.number_section(DATA_COUNT_SECTION, segments)
    }

    /// Adds a custom section with this name and data. It may come anywhere, and more than once.
    ///
    /// # Errors
    ///
    /// `Size` or `Memory`. The module is as it was before.
    ///
    /// (Core specification, Binary format, Modules, Custom Section.)
    pub fn custom(&mut self, name: &str, data: &[u8]) -> Result<(), Refused>
        ensures { (frames : List SectionFrame) → Holds frames self.old
            → AddsCustom name.now data.now frames result self.new }
    {
        if !custom_fits(name, data) {
            return Err(Refused::Size);
        }
        let at = self.grow(custom_len(name, data))?;
        write_custom(&mut self.bytes, at, name, data);
        Ok(())
    }

    /// Returns the bytes of the module.
    ///
    /// # Errors
    ///
    /// * `Code` if there are functions and no code section.
    /// * `Data` if data segments were announced and there is no data section.
    ///
    /// ```rattle
    /// let mut module = Module::new(alloc)?;
    /// assert_eq!(rt; module.custom("a", b"xyz"), Ok(()));
    /// if let Ok(bytes) = module.finish() {
    ///     assert_eq!(rt; bytes.as_slice(), b"\0asm\x01\0\0\0\0\x05\x01axyz".as_slice());
    /// }
    /// ```
    ///
    /// (Core specification, Binary format, Modules.)
    pub fn finish(self) -> Result<Vec<u8, A>, Unfinished>
        // Proved: a module that is finished is accepted, and its sections are those that were added, in order; or its code
        //   or its data is missing [`Module::finish` (`Finishes`, `IsModule`)]
        ensures { (frames : List SectionFrame) → Holds frames self → Finishes frames result }
    {
        if lacks(self.functions, self.bodies) {
            return Err(Unfinished::Code);
        }
        if lacks(self.announced, self.segments) {
            return Err(Unfinished::Data);
        }
        let Module { bytes, .. } = self;
        Ok(bytes)
    }
}
