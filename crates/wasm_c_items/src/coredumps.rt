// Core dumps as plain numbers.
ghost use Rattle.std.specs.Prelude.{List, ℕ, ◌≡◌};
ghost use Rattle.wasm_base.specs.Outcome.{GivesBy};
ghost use Rattle.wasm_base.specs.Window.{KeepsWindow};
ghost use Rattle.wasm_c_items.specs.CoreHeads.{FrameHead, core_bits, core_code, core_integer, frame_head_at, instance_head_at, started_text_at};
ghost use Rattle.wasm_c_items.specs.CoreParts.{frame_head_parts};
ghost use Rattle.wasm_c_items.specs.Coredumps.{plain_core_frame, plain_core_instance, plain_core_module, plain_core_process, plain_core_thread, plain_core_value};
ghost use Rattle.wasm_custom.specs.Coredumps.{ValueParts, module_at, start_at, value_at, value_parts};
ghost use Rattle.wasm_base.specs.declared.fault.CoreStart.TheVariants as Starts;

use crate::faults::{NO_FAULT, PlainFault, plain_fault};
use crate::readable::Readable;
use crate::spans::{NO_SPAN, PlainSpan, distance, span_before};
use wasm_parser::{BinaryReader, CoreDumpValue, CoreStart, Error, Fault, FromReader, Result};

/// The name of the process of a core dump, or a fault.
#[repr(C)]
#[derive(Clone, Copy)]
pub struct PlainCoreProcess {
    /// The fault of the item, of kind 0 if there is none.
    pub fault: PlainFault,
    /// The size of the item in bytes, 0 after a fault.
    pub consumed: usize,
    /// The name, which is UTF-8.
    pub name: PlainSpan,
}

/// The name of a module of a core dump, or a fault.
#[repr(C)]
#[derive(Clone, Copy)]
pub struct PlainCoreModule {
    /// The fault of the item, of kind 0 if there is none.
    pub fault: PlainFault,
    /// The size of the item in bytes, 0 after a fault.
    pub consumed: usize,
    /// The name, which is UTF-8.
    pub name: PlainSpan,
}

/// The head of an instance of a core dump, or a fault. The indices of its memories and globals follow.
#[repr(C)]
#[derive(Clone, Copy)]
pub struct PlainCoreInstance {
    /// The fault of the item, of kind 0 if there is none.
    pub fault: PlainFault,
    /// The size of the item in bytes, 0 after a fault.
    pub consumed: usize,
    /// The index of the module in the section `coremodules`.
    pub module_index: u32,
}

/// The name of a thread of a core dump, or a fault.
#[repr(C)]
#[derive(Clone, Copy)]
pub struct PlainCoreThread {
    /// The fault of the item, of kind 0 if there is none.
    pub fault: PlainFault,
    /// The size of the item in bytes, 0 after a fault.
    pub consumed: usize,
    /// The name, which is UTF-8.
    pub name: PlainSpan,
}

/// The head of a frame of a core dump, or a fault. The values of its locals and stack follow.
#[repr(C)]
#[derive(Clone, Copy)]
pub struct PlainCoreFrame {
    /// The fault of the item, of kind 0 if there is none.
    pub fault: PlainFault,
    /// The size of the item in bytes, 0 after a fault.
    pub consumed: usize,
    /// The index of the instance in the section `coreinstances`.
    pub instance: u32,
    /// The index of the function in the module of the instance.
    pub func: u32,
    /// The offset of the instruction, in bytes from the start of the function's body.
    pub code_offset: u32,
}

/// A value of a local or on the stack of a frame, or a fault.
#[repr(C)]
#[derive(Clone, Copy)]
pub struct PlainCoreValue {
    /// The fault of the item, of kind 0 if there is none.
    pub fault: PlainFault,
    /// The size of the item in bytes, 0 after a fault.
    pub consumed: usize,
    /// The kind, a `pulleynavy_core_value_kind`: 0 missing, 1 a 32-bit integer, 2 a 64-bit integer, 3 a 32-bit float, 4
    /// a 64-bit float.
    pub kind: u32,
    /// The integer, or 0.
    pub integer: i64,
    /// The bits of the float, or 0.
    pub bits: u64,
}

#[derive(Clone, Copy)]
struct FrameHead {
    instance: u32,
    func: u32,
    code_offset: u32,
}

// The byte 0 with which something begins.
#[tactic(auto, unfolding(wasm_custom::specs::Coredumps::start_at))]
fn read_start(what: CoreStart, offset: u64, reader: &mut BinaryReader<'_>) -> Result<()>
    ensures gives { GivesBy (λ nothing. nothing) result reader.old reader.new (start_at what offset) }
    ensures keeps { KeepsWindow reader.old reader.new }
{
    if reader.read_u8()? != 0 {
        return Err(Error::new(Fault::CoreStartByte(what), offset));
    }
    Ok(())
}

// A text after such a byte.
#[tactic(auto, unfolding(crate::specs::CoreHeads::started_text_at))]
fn read_started<'a>(what: CoreStart, reader: &mut BinaryReader<'a>) -> Result<&'a str>
    ensures gives { GivesBy (λ name. name.now) result reader.old reader.new (started_text_at what) }
    ensures keeps { KeepsWindow reader.old reader.new }
{
    read_start(what, reader.original_position(), reader)?;
    reader.read_unlimited_string()
}

// The name of a module after such a byte. Another byte is a fault where the section's data begins.
#[tactic(auto, unfolding(wasm_custom::specs::Coredumps::module_at))]
fn read_module<'a>(data_offset: u64, reader: &mut BinaryReader<'a>) -> Result<&'a str>
    ensures gives { GivesBy (λ name. name.now) result reader.old reader.new (module_at data_offset) }
    ensures keeps { KeepsWindow reader.old reader.new }
{
    read_start(CoreStart::Module, data_offset, reader)?;
    reader.read_unlimited_string()
}

// The head of an instance: the index of its module.
#[tactic(auto, unfolding(crate::specs::CoreHeads::instance_head_at))]
fn read_instance(reader: &mut BinaryReader<'_>) -> Result<u32>
    ensures gives { GivesBy (λ index. index) result reader.old reader.new instance_head_at }
    ensures keeps { KeepsWindow reader.old reader.new }
{
    read_start(CoreStart::Instance, reader.original_position(), reader)?;
    reader.read_var_u32()
}

// The head of a frame.
#[tactic(auto, unfolding(crate::specs::CoreHeads::frame_head_at))]
fn read_frame(reader: &mut BinaryReader<'_>) -> Result<FrameHead>
    ensures gives { GivesBy frame_head_parts result reader.old reader.new frame_head_at }
    ensures keeps { KeepsWindow reader.old reader.new }
{
    read_start(CoreStart::Frame, reader.original_position(), reader)?;
    let instance = reader.read_var_u32()?;
    let func = reader.read_var_u32()?;
    let code_offset = reader.read_var_u32()?;
    Ok(FrameHead {
        instance,
        func,
        code_offset,
    })
}

fn core_code(value: &CoreDumpValue) -> u32
    ensures { result ≡ core_code (value_parts value.now) }
{
    match value {
        CoreDumpValue::Missing => 0,
        CoreDumpValue::I32(_) => 1,
        CoreDumpValue::I64(_) => 2,
        CoreDumpValue::F32(_) => 3,
        CoreDumpValue::F64(_) => 4,
    }
}

// The integer that a value is, or 0.
fn core_integer(value: &CoreDumpValue) -> i64
    ensures { result ≡ core_integer (value_parts value.now) }
{
    match value {
        CoreDumpValue::I32(number) => i64::from(*number),
        CoreDumpValue::I64(number) => *number,
        _ => 0,
    }
}

// The bits of the float that a value is, or 0.
fn core_bits(value: &CoreDumpValue) -> u64
    ensures { result ≡ core_bits (value_parts value.now) }
{
    match value {
        CoreDumpValue::F32(float) => u64::from(float.bits()),
        CoreDumpValue::F64(float) => float.bits(),
        _ => 0,
    }
}

/// The section `core`: the name of a process.
#[derive(Clone, Copy)]
pub struct CoreProcesses;

impl Readable for CoreProcesses {
    type Plain = PlainCoreProcess;

    ghost Item = { (List ℕ) };

    ghost reading = { λ _. started_text_at Starts.Name };

    ghost plain = { λ _. plain_core_process };

    fn read(self, reader: &mut BinaryReader<'_>, from: u64) -> Result<PlainCoreProcess> {
        let start = reader.original_position();
        let name = read_started(CoreStart::Name, reader)?;
        Ok(PlainCoreProcess {
            fault: NO_FAULT,
            consumed: distance(start, reader.original_position()),
            name: span_before(from, reader.original_position(), name.len()),
        })
    }

    fn refused(self, error: Error) -> PlainCoreProcess {
        PlainCoreProcess {
            fault: plain_fault(error),
            consumed: 0,
            name: NO_SPAN,
        }
    }
}

/// The modules of a core dump.
#[derive(Clone, Copy)]
pub struct CoreModules {
    /// The offset of the data of the section.
    pub data_offset: u64,
}

impl Readable for CoreModules {
    type Plain = PlainCoreModule;

    ghost Item = { (List ℕ) };

    ghost reading = { λ kind. module_at kind.data_offset };

    ghost plain = { λ _. plain_core_module };

    fn read(self, reader: &mut BinaryReader<'_>, from: u64) -> Result<PlainCoreModule> {
        let start = reader.original_position();
        let name = read_module(self.data_offset, reader)?;
        Ok(PlainCoreModule {
            fault: NO_FAULT,
            consumed: distance(start, reader.original_position()),
            name: span_before(from, reader.original_position(), name.len()),
        })
    }

    fn refused(self, error: Error) -> PlainCoreModule {
        PlainCoreModule {
            fault: plain_fault(error),
            consumed: 0,
            name: NO_SPAN,
        }
    }
}

/// The instances of a core dump.
#[derive(Clone, Copy)]
pub struct CoreInstances;

impl Readable for CoreInstances {
    type Plain = PlainCoreInstance;

    ghost Item = { ℕ };

    ghost reading = { λ _. instance_head_at };

    ghost plain = { λ _. plain_core_instance };

    fn read(self, reader: &mut BinaryReader<'_>, _from: u64) -> Result<PlainCoreInstance> {
        let start = reader.original_position();
        let index = read_instance(reader)?;
        Ok(PlainCoreInstance {
            fault: NO_FAULT,
            consumed: distance(start, reader.original_position()),
            module_index: index,
        })
    }

    fn refused(self, error: Error) -> PlainCoreInstance {
        PlainCoreInstance {
            fault: plain_fault(error),
            consumed: 0,
            module_index: 0,
        }
    }
}

/// The start of the section `corestack`: the name of a thread and the number of its frames.
#[derive(Clone, Copy)]
pub struct CoreThreads;

impl Readable for CoreThreads {
    type Plain = PlainCoreThread;

    ghost Item = { (List ℕ) };

    ghost reading = { λ _. started_text_at Starts.StackName };

    ghost plain = { λ _. plain_core_thread };

    fn read(self, reader: &mut BinaryReader<'_>, from: u64) -> Result<PlainCoreThread> {
        let start = reader.original_position();
        let name = read_started(CoreStart::StackName, reader)?;
        Ok(PlainCoreThread {
            fault: NO_FAULT,
            consumed: distance(start, reader.original_position()),
            name: span_before(from, reader.original_position(), name.len()),
        })
    }

    fn refused(self, error: Error) -> PlainCoreThread {
        PlainCoreThread {
            fault: plain_fault(error),
            consumed: 0,
            name: NO_SPAN,
        }
    }
}

/// The frames of a stack.
#[derive(Clone, Copy)]
pub struct CoreFrames;

impl Readable for CoreFrames {
    type Plain = PlainCoreFrame;

    ghost Item = { FrameHead };

    ghost reading = { λ _. frame_head_at };

    ghost plain = { λ _. plain_core_frame };

    fn read(self, reader: &mut BinaryReader<'_>, _from: u64) -> Result<PlainCoreFrame> {
        let start = reader.original_position();
        let frame = read_frame(reader)?;
        Ok(PlainCoreFrame {
            fault: NO_FAULT,
            consumed: distance(start, reader.original_position()),
            instance: frame.instance,
            func: frame.func,
            code_offset: frame.code_offset,
        })
    }

    fn refused(self, error: Error) -> PlainCoreFrame {
        PlainCoreFrame {
            fault: plain_fault(error),
            consumed: 0,
            instance: 0,
            func: 0,
            code_offset: 0,
        }
    }
}

/// The values of a frame.
#[derive(Clone, Copy)]
pub struct CoreValues;

impl Readable for CoreValues {
    type Plain = PlainCoreValue;

    ghost Item = { ValueParts };

    ghost reading = { λ _. value_at };

    ghost plain = { λ _. plain_core_value };

    fn read(self, reader: &mut BinaryReader<'_>, _from: u64) -> Result<PlainCoreValue> {
        let start = reader.original_position();
        let value = CoreDumpValue::from_reader(reader)?;
        Ok(PlainCoreValue {
            fault: NO_FAULT,
            consumed: distance(start, reader.original_position()),
            kind: core_code(&value),
            integer: core_integer(&value),
            bits: core_bits(&value),
        })
    }

    fn refused(self, error: Error) -> PlainCoreValue {
        PlainCoreValue {
            fault: plain_fault(error),
            consumed: 0,
            kind: 0,
            integer: 0,
            bits: 0,
        }
    }
}
