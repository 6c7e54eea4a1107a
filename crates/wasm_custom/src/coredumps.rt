// Core dumps.
ghost use Rattle.std.specs.Prelude.{◌≡◌, ℕ, map};
ghost use Rattle.wasm_base.specs.Hints.{NotOutOfMemory};
ghost use Rattle.wasm_base.specs.Item.{Means, ReadsAs};
ghost use Rattle.wasm_base.specs.Number.{unsigned_at};
ghost use Rattle.wasm_base.specs.Outcome.{Outcome, GivesBy, GivesResult};
ghost use Rattle.wasm_base.specs.Owned.{MeansAs, UnlessMemory, InTurn, ListOf, GivesUnlessMemory, GivesResultUnlessMemory, list_at};
ghost use Rattle.wasm_base.specs.Window.{Place, place, KeepsWindow};
ghost use Rattle.wasm_base.specs.declared.fault.NumberKind.TheVariants.{VarU32};
ghost use Rattle.wasm_custom.specs.Coredumps.{start_at, module_at, value_parts, value_at, instance_parts, instance_at, frame_parts, frame_at, name_section_in, modules_in, modules_parts, instances_in, instances_parts, stack_in, stack_parts};

use std::alloc::{Allocator, Global};
use wasm_base::{
    BinaryReader, CoreStart, Error, Fault, FromReader, FromReaderIn, Ieee32, Ieee64, Result,
    expect_end, read_list,
};

/// The section `core`: the process that was dumped.
///
/// ```rattle
/// let section = CoreDumpSection::new(BinaryReader::new(b"\x00\x09test.wasm", 0))?;
/// assert_eq!(rt; section.name, "test.wasm");
/// ```
///
/// (Tool conventions, Coredump, Process Information.)
#[derive(Drop)]
pub struct CoreDumpSection<'a> {
    /// The name of the process, of any length.
    pub name: &'a str,
}

/// The section `coremodules`: the modules of the process.
///
/// ```rattle
/// let section = CoreDumpModulesSection::new(alloc, BinaryReader::new(b"\x01\x00\x04test", 0))?;
/// assert_eq!(rt; section.modules.as_slice(), ["test"].as_slice());
/// ```
///
/// (Tool conventions, Coredump, Modules and Instances.)
#[derive(Debug, Drop)]
pub struct CoreDumpModulesSection<'a, A: Allocator = Global> {
    /// The names of the modules, borrowed from the input.
    pub modules: Vec<&'a str, A>,
}

/// The section `coreinstances`: the instances of the process.
///
/// ```rattle
/// // An instance of module 0 with one memory, 0, and no globals.
/// let bytes = &[1, 0, 0, 1, 0, 0];
/// let section = CoreDumpInstancesSection::new(alloc, BinaryReader::new(bytes, 0))?;
/// for instance in &section.instances {
///     assert_eq!(rt; instance.memories.as_slice(), [0].as_slice());
/// }
/// ```
///
/// (Tool conventions, Coredump, Modules and Instances.)
#[derive(Drop)]
pub struct CoreDumpInstancesSection<A: Allocator = Global> {
    /// The instances, in order.
    pub instances: Vec<CoreDumpInstance<A>, A>,
}

/// The section `corestack`: a thread and its frames.
///
/// ```rattle
/// // The thread "main", with one frame: instance 4, function 42, offset 51, one local and nothing on the stack.
/// let bytes = b"\x00\x04main\x01\x00\x04\x2a\x33\x01\x7f\x01\x00";
/// let section = CoreDumpStackSection::new(alloc, BinaryReader::new(bytes, 0))?;
/// assert_eq!(rt; section.name, "main");
/// for frame in &section.frames {
///     assert_eq!(rt; frame.funcidx, 42);
/// }
/// ```
///
/// (Tool conventions, Coredump, Thread(s) and Stack Frames.)
#[derive(Drop)]
pub struct CoreDumpStackSection<'a, A: Allocator = Global> {
    /// The name of the thread, of any length.
    pub name: &'a str,
    /// The frames of the thread's stack, in order.
    pub frames: Vec<CoreDumpStackFrame<A>, A>,
}

/// An instance of a module in a core dump.
///
/// ```rattle
/// let mut reader = BinaryReader::new(&[0, 1, 1, 7, 0], 0);
/// let instance = CoreDumpInstance::from_reader(alloc, &mut reader)?;
/// assert_eq!(rt; instance.module_index, 1);
/// assert_eq!(rt; instance.memories.as_slice(), [7].as_slice());
/// ```
///
/// (Tool conventions, Coredump, Modules and Instances.)
#[derive(Debug, Drop)]
pub struct CoreDumpInstance<A: Allocator = Global> {
    /// The index of the module in the section `coremodules`.
    pub module_index: u32,
    /// The indices of the instance's memories.
    pub memories: Vec<u32, A>,
    /// The indices of the instance's globals.
    pub globals: Vec<u32, A>,
}

/// A frame of a thread's stack in a core dump.
///
/// ```rattle
/// let mut reader = BinaryReader::new(&[0, 4, 42, 51, 1, 0x7f, 1, 0], 0);
/// let frame = CoreDumpStackFrame::from_reader(alloc, &mut reader)?;
/// assert_eq!(rt; frame.codeoffset, 51);
/// assert_eq!(rt; frame.locals.len(), 1);
/// ```
///
/// (Tool conventions, Coredump, Thread(s) and Stack Frames.)
#[derive(Debug, Drop)]
pub struct CoreDumpStackFrame<A: Allocator = Global> {
    /// The index of the instance in the section `coreinstances`.
    pub instanceidx: u32,
    /// The index of the function in the module of the instance.
    pub funcidx: u32,
    /// The offset of the instruction from the start of the function's body, in bytes.
    pub codeoffset: u32,
    /// The values of the locals.
    pub locals: Vec<CoreDumpValue, A>,
    /// The values on the operand stack.
    pub stack: Vec<CoreDumpValue, A>,
}

/// A value of a local or on the operand stack of a frame.
///
/// ```rattle
/// let mut reader = BinaryReader::new(&[0x7f, 5], 0);
/// match CoreDumpValue::from_reader(&mut reader)? {
///     CoreDumpValue::I32(value) => assert_eq!(rt; value, 5),
///     _ => assert!(rt; false),
/// }
/// ```
///
/// (Tool conventions, Coredump, Thread(s) and Stack Frames.)
#[derive(Clone, Debug, Drop)]
pub enum CoreDumpValue {
    /// A missing value, for example one that was optimized out.
    Missing,
    /// A 32-bit integer.
    I32(i32),
    /// A 64-bit integer.
    I64(i64),
    /// A 32-bit float, as bits.
    F32(Ieee32),
    /// A 64-bit float, as bits.
    F64(Ieee64),
}

// An item of a list in a core dump. Some items report a fault at the start of the data, whose offset is passed to `read`.
trait Listed<'a, A: Allocator>: Sized + Drop {
    ghost meaning: { ℕ → Place → Outcome Self → Type 0 };

    fn read(alloc: A, start: u64, reader: &mut BinaryReader<'a>) -> Result<Self>
        ensures means { Means (UnlessMemory (meaning start)) (place reader.old) result (place reader.new) }
        ensures keeps { KeepsWindow reader.old reader.new };
}

// Reads the byte 0 at the start of an item. Any other byte is a fault at this offset.
#[tactic(auto, unfolding(crate::specs::Coredumps::start_at))]
fn read_start(what: CoreStart, offset: u64, reader: &mut BinaryReader<'_>) -> Result<()>
    ensures gives { GivesBy (λ nothing. nothing) result reader.old reader.new (start_at what offset) }
    ensures keeps { KeepsWindow reader.old reader.new }
    ensures memory { NotOutOfMemory result }
{
    if reader.read_u8()? != 0 {
        return Err(Error::new(Fault::CoreStartByte(what), offset));
    }
    Ok(())
}

// Reads `count` items. The list grows as they are read.
fn read_items<'a, T: Listed<'a, A>, A: Allocator + Copy>(
    alloc: A,
    start: u64,
    count: u32,
    reader: &mut BinaryReader<'a>,
) -> Result<Vec<T, A>>
    ensures means { MeansAs (λ list. list.items) (UnlessMemory (InTurn (T.meaning start) count))
        (place reader.old) result (place reader.new) }
    ensures keeps { KeepsWindow reader.old reader.new }
{
    let mut items = Vec::new(alloc);
    'items: for _ in 0..count {
        let item = T::read(alloc, start, reader)?;
        items.push(item)?;
    }
    Ok(items)
}

// Reads a count and as many items.
fn read_listed<'a, T: Listed<'a, A>, A: Allocator + Copy>(
    alloc: A,
    start: u64,
    reader: &mut BinaryReader<'a>,
) -> Result<Vec<T, A>>
    ensures means { MeansAs (λ list. list.items) (UnlessMemory (ListOf (T.meaning start)))
        (place reader.old) result (place reader.new) }
    ensures keeps { KeepsWindow reader.old reader.new }
{
    let count = reader.read_var_u32()?;
    read_items(alloc, start, count, reader)
}

// A module: a byte 0 and its name.
impl<'a, A: Allocator> Listed<'a, A> for &'a str {
    ghost meaning = { λ start. ReadsAs (λ name. name.now) (module_at start) };

    #[tactic(auto, unfolding(crate::specs::Coredumps::module_at))]
    fn read(_alloc: A, start: u64, reader: &mut BinaryReader<'a>) -> Result<Self> {
        read_start(CoreStart::Module, start, reader)?;
        reader.read_unlimited_string()
    }
}

impl<'a, A: Allocator + Copy> Listed<'a, A> for CoreDumpInstance<A> {
    ghost meaning = { λ _. ReadsAs instance_parts instance_at };

    fn read(alloc: A, _start: u64, reader: &mut BinaryReader<'a>) -> Result<Self> {
        read_instance(alloc, reader)
    }
}

impl<'a, A: Allocator + Copy> Listed<'a, A> for CoreDumpStackFrame<A> {
    ghost meaning = { λ _. ReadsAs frame_parts frame_at };

    fn read(alloc: A, _start: u64, reader: &mut BinaryReader<'a>) -> Result<Self> {
        read_frame(alloc, reader)
    }
}

// Reads a list of indices.
fn read_indices<A: Allocator>(alloc: A, reader: &mut BinaryReader<'_>) -> Result<Vec<u32, A>>
    ensures gives { GivesUnlessMemory (λ list. list.items)
        result (place reader.new) (list_at (unsigned_at VarU32) (place reader.old)) }
    ensures keeps { KeepsWindow reader.old reader.new }
{
    read_list(alloc, reader)
}

// Reads a list of values.
fn read_values<A: Allocator>(
    alloc: A,
    reader: &mut BinaryReader<'_>,
) -> Result<Vec<CoreDumpValue, A>>
    ensures gives { GivesUnlessMemory (λ list. map value_parts list.items)
        result (place reader.new) (list_at value_at (place reader.old)) }
    ensures keeps { KeepsWindow reader.old reader.new }
{
    read_list(alloc, reader)
}

#[tactic(auto, unfolding(crate::specs::Coredumps::instance_at))]
fn read_instance<A: Allocator + Copy>(
    alloc: A,
    reader: &mut BinaryReader<'_>,
) -> Result<CoreDumpInstance<A>>
    ensures gives { GivesUnlessMemory instance_parts
        result (place reader.new) (instance_at (place reader.old)) }
    ensures keeps { KeepsWindow reader.old reader.new }
{
    let start = reader.original_position();
    read_start(CoreStart::Instance, start, reader)?;
    let module_index = reader.read_var_u32()?;
    let memories = read_indices(alloc, reader)?;
    let globals = read_indices(alloc, reader)?;
    Ok(CoreDumpInstance {
        module_index,
        memories,
        globals,
    })
}

#[tactic(auto, unfolding(crate::specs::Coredumps::frame_at))]
fn read_frame<A: Allocator + Copy>(
    alloc: A,
    reader: &mut BinaryReader<'_>,
) -> Result<CoreDumpStackFrame<A>>
    ensures gives { GivesUnlessMemory frame_parts
        result (place reader.new) (frame_at (place reader.old)) }
    ensures keeps { KeepsWindow reader.old reader.new }
{
    let start = reader.original_position();
    read_start(CoreStart::Frame, start, reader)?;
    let instanceidx = reader.read_var_u32()?;
    let funcidx = reader.read_var_u32()?;
    let codeoffset = reader.read_var_u32()?;
    let locals = read_values(alloc, reader)?;
    let stack = read_values(alloc, reader)?;
    Ok(CoreDumpStackFrame {
        instanceidx,
        funcidx,
        codeoffset,
        locals,
        stack,
    })
}

/// Reads a byte and the value: 0x01 for a missing value; 0x7F or 0x7E and a signed LEB128 number of 32 or 64 bits; 0x7D
/// or 0x7C and the 4 or 8 bytes of a float, in little-endian order.
///
/// # Errors
///
/// `CoreValue` at any other byte; `UnexpectedEof` if no byte remains; and the errors of `read_var_i32`, `read_var_i64`,
/// `read_f32` and `read_f64`.
impl<'a> FromReader<'a> for CoreDumpValue {
    ghost meaning = { ReadsAs value_parts value_at };

    #[tactic(auto, unfolding(crate::specs::Coredumps::value_at))]
    fn from_reader(reader: &mut BinaryReader<'a>) -> Result<Self> {
        let start = reader.original_position();
        match reader.read_u8()? {
            0x01 => Ok(CoreDumpValue::Missing),
            0x7f => Ok(CoreDumpValue::I32(reader.read_var_i32()?)),
            0x7e => Ok(CoreDumpValue::I64(reader.read_var_i64()?)),
            0x7d => Ok(CoreDumpValue::F32(reader.read_f32()?)),
            0x7c => Ok(CoreDumpValue::F64(reader.read_f64()?)),
            _ => Err(Error::new(Fault::CoreValue, start)),
        }
    }
}

/// Reads a byte 0, the index of a module, a u32, and the lists of the indices of memories and of globals.
///
/// # Errors
///
/// `CoreStartByte(Instance)` at another first byte; `UnexpectedEof` if it is missing; the errors of `read_var_u32`; and
/// `OutOfMemory`, at offset 0, when an allocation fails.
impl<'a> FromReaderIn<'a> for CoreDumpInstance {
    // Proved: the instances and frames of a core dump are read by their definitions; they may
    //   return `OutOfMemory` instead [`meaning` on each (`instance_at`, `frame_at`)]
    ghost meaning = { ReadsAs instance_parts instance_at };

    fn from_reader(alloc: Global, reader: &mut BinaryReader<'a>) -> Result<Self> {
        read_instance(alloc, reader)
    }
}

/// Reads a byte 0, an instance, a function and an offset, each a u32, and the lists of values of the locals and of the
/// operand stack.
///
/// # Errors
///
/// `CoreStartByte(Frame)` at another first byte; `UnexpectedEof` if it is missing; the errors of `read_var_u32` and
/// `CoreDumpValue`; and `OutOfMemory`, at offset 0, when an allocation fails.
impl<'a> FromReaderIn<'a> for CoreDumpStackFrame {
    ghost meaning = { ReadsAs frame_parts frame_at };

    fn from_reader(alloc: Global, reader: &mut BinaryReader<'a>) -> Result<Self> {
        read_frame(alloc, reader)
    }
}

impl<'a> CoreDumpSection<'a> {
    /// Reads a byte 0 and the name of the process, a text of any length, up to the end of the window.
    ///
    /// # Errors
    ///
    /// * `CoreStartByte(Name)` at another first byte; `UnexpectedEof` if it is missing.
    /// * The errors of `read_unlimited_string`.
    /// * `CustomTrailing` at the first byte after the name.
    #[tactic(auto, unfolding(crate::specs::Coredumps::name_section_in))]
    pub fn new(mut reader: BinaryReader<'a>) -> Result<CoreDumpSection<'a>>
        // Proved: `new` of a section of relocations, and of the four sections of a core dump,
        //   returns what its definition says of the window, or the first fault [`gives` on each
        //   (`reloc_section_in`, `name_section_in`, `modules_in`, `instances_in`, `stack_in`)]
        ensures gives { GivesResult (λ section. section.name.now)
            result (name_section_in (place reader.entry)) }
        ensures memory { NotOutOfMemory result }
    {
        let start = reader.original_position();
        read_start(CoreStart::Name, start, &mut reader)?;
        let name = reader.read_unlimited_string()?;
        expect_end(Fault::CustomTrailing, &reader)?;
        Ok(CoreDumpSection { name })
    }
}

// Reads the names of modules, in data that begins at this offset.
fn read_modules<'a, A: Allocator + Copy>(
    alloc: A,
    start: u64,
    reader: &mut BinaryReader<'a>,
) -> Result<Vec<&'a str, A>>
    ensures gives { GivesUnlessMemory (λ list. map (λ name. name.now) list.items)
        result (place reader.new) (list_at (module_at start) (place reader.old)) }
    ensures keeps { KeepsWindow reader.old reader.new }
{
    read_listed(alloc, start, reader)
}

// Reads the instances of a process.
fn read_instances<A: Allocator + Copy>(
    alloc: A,
    reader: &mut BinaryReader<'_>,
) -> Result<Vec<CoreDumpInstance<A>, A>>
    ensures gives { GivesUnlessMemory (λ list. map instance_parts list.items)
        result (place reader.new) (list_at instance_at (place reader.old)) }
    ensures keeps { KeepsWindow reader.old reader.new }
{
    read_listed(alloc, 0, reader)
}

// Reads the frames of a thread.
fn read_frames<A: Allocator + Copy>(
    alloc: A,
    reader: &mut BinaryReader<'_>,
) -> Result<Vec<CoreDumpStackFrame<A>, A>>
    ensures gives { GivesUnlessMemory (λ list. map frame_parts list.items)
        result (place reader.new) (list_at frame_at (place reader.old)) }
    ensures keeps { KeepsWindow reader.old reader.new }
{
    read_listed(alloc, 0, reader)
}

impl<'a> CoreDumpModulesSection<'a> {
    /// Reads the list of modules up to the end of the window: for each a byte 0 and the name, a text of any length.
    ///
    /// # Errors
    ///
    /// * `CoreStartByte(Module)` at the start of the data, if the first byte of any module is not 0.
    /// * The errors of `read_var_u32` and `read_unlimited_string`; `UnexpectedEof` if the first byte of a module is
    ///   missing.
    /// * `CustomTrailing` at the first byte after the last module.
    /// * `OutOfMemory`, at offset 0, when an allocation fails.
    pub fn new(alloc: Global, reader: BinaryReader<'a>) -> Result<CoreDumpModulesSection<'a>>
        ensures gives { GivesResultUnlessMemory modules_parts result (modules_in (place reader.entry)) }
    {
        CoreDumpModulesSection::new_in(alloc, reader)
    }
}

impl<'a, A: Allocator + Copy> CoreDumpModulesSection<'a, A> {
    /// Reads the list of modules like `new`, with any allocator.
    ///
    /// # Errors
    ///
    /// Those of `new`.
    #[tactic(auto, unfolding(crate::specs::Coredumps::modules_in))]
    pub fn new_in(alloc: A, mut reader: BinaryReader<'a>) -> Result<Self>
        // Proved: of these, those that own lists may return `OutOfMemory` instead, and have
        //   `new_in` for any allocator [`gives` on each; `memory` on the others]
        ensures gives { GivesResultUnlessMemory modules_parts result (modules_in (place reader.entry)) }
    {
        let start = reader.original_position();
        let modules = read_modules(alloc, start, &mut reader)?;
        expect_end(Fault::CustomTrailing, &reader)?;
        Ok(CoreDumpModulesSection { modules })
    }
}

impl CoreDumpInstancesSection {
    /// Reads the list of instances up to the end of the window.
    ///
    /// # Errors
    ///
    /// * The errors of `read_var_u32` for the count, and of each instance (`CoreDumpInstance`).
    /// * `CustomTrailing` at the first byte after the last instance.
    /// * `OutOfMemory`, at offset 0, when an allocation fails.
    pub fn new(alloc: Global, reader: BinaryReader<'_>) -> Result<CoreDumpInstancesSection>
        ensures gives { GivesResultUnlessMemory instances_parts result (instances_in (place reader.entry)) }
    {
        CoreDumpInstancesSection::new_in(alloc, reader)
    }
}

impl<A: Allocator + Copy> CoreDumpInstancesSection<A> {
    /// Reads the list of instances like `new`, with any allocator.
    ///
    /// # Errors
    ///
    /// Those of `new`.
    #[tactic(auto, unfolding(crate::specs::Coredumps::instances_in))]
    pub fn new_in(alloc: A, mut reader: BinaryReader<'_>) -> Result<Self>
        ensures gives { GivesResultUnlessMemory instances_parts result (instances_in (place reader.entry)) }
    {
        let instances = read_instances(alloc, &mut reader)?;
        expect_end(Fault::CustomTrailing, &reader)?;
        Ok(CoreDumpInstancesSection { instances })
    }
}

impl<'a> CoreDumpStackSection<'a> {
    /// Reads a byte 0, the name of the thread, a text of any length, and the list of frames, up to the end of the
    /// window.
    ///
    /// # Errors
    ///
    /// * `CoreStartByte(StackName)` at another first byte; `UnexpectedEof` if it is missing.
    /// * The errors of `read_unlimited_string`, of `read_var_u32` for the count, and of each frame
    ///   (`CoreDumpStackFrame`).
    /// * `CustomTrailing` at the first byte after the last frame.
    /// * `OutOfMemory`, at offset 0, when an allocation fails.
    pub fn new(alloc: Global, reader: BinaryReader<'a>) -> Result<CoreDumpStackSection<'a>>
        ensures gives { GivesResultUnlessMemory stack_parts result (stack_in (place reader.entry)) }
    {
        CoreDumpStackSection::new_in(alloc, reader)
    }
}

impl<'a, A: Allocator + Copy> CoreDumpStackSection<'a, A> {
    /// Reads the name and the frames like `new`, with any allocator.
    ///
    /// # Errors
    ///
    /// Those of `new`.
    #[tactic(auto, unfolding(crate::specs::Coredumps::stack_in))]
    pub fn new_in(alloc: A, mut reader: BinaryReader<'a>) -> Result<Self>
        ensures gives { GivesResultUnlessMemory stack_parts result (stack_in (place reader.entry)) }
    {
        let start = reader.original_position();
        read_start(CoreStart::StackName, start, &mut reader)?;
        let name = reader.read_unlimited_string()?;
        let frames = read_frames(alloc, &mut reader)?;
        expect_end(Fault::CustomTrailing, &reader)?;
        Ok(CoreDumpStackSection { name, frames })
    }
}
