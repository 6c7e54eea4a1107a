// Core dumps.
ghost use Rattle.wasm_c_items.specs.Cursors.{StoresItems, next_by};
ghost use Rattle.std.specs.Prelude.{◌≡◌};
ghost use Rattle.wasm_c_items.specs.CoreHeads.{frame_head_at, instance_head_at, started_text_at};
ghost use Rattle.wasm_c_items.specs.Coredumps.{plain_core_frame, plain_core_instance, plain_core_module, plain_core_process, plain_core_thread, plain_core_value};
ghost use Rattle.wasm_c_items.specs.Readable.{item_over};
ghost use Rattle.wasm_custom.specs.Coredumps.{module_at, value_at};
ghost use Rattle.wasm_base.specs.declared.fault.CoreStart.TheVariants as Starts;

use wasm_c_items::{
    CoreFrames, CoreInstances, CoreModules, CoreProcesses, CoreThreads, CoreValues, Counted,
    PlainCoreFrame, PlainCoreInstance, PlainCoreModule, PlainCoreProcess, PlainCoreThread,
    PlainCoreValue, StoredItems, read_at, store_items,
};

/// Reads the data of a section `core`: a byte 0 and the name of the process. `pulleynavy_check_custom_end` checks the
/// bytes after it.
///
/// # Errors
///
/// `CORE_START_BYTE` with `PULLEYNAVY_CORE_START_NAME` at another first byte; `UNEXPECTED_EOF`; and the faults of
/// `pulleynavy_read_text`.
///
/// ```c
/// const uint8_t data[] = {0, 3, 'a', 'p', 'p'};
/// pulleynavy_core_process process = pulleynavy_read_core_process(data, sizeof data, 0, PULLEYNAVY_ALL_FEATURES);
/// size_t at = process.consumed;
/// assert(process.name.at == 2 && process.name.size == 3);
/// assert(!pulleynavy_check_custom_end(data + at, sizeof data - at, at).kind);
/// ```
///
/// (Tool conventions, Coredump, Process Information.)
#[unsafe(no_mangle)]
pub extern "C" fn pulleynavy_read_core_process(
    bytes: &[u8],
    offset: u64,
    features: u32,
) -> PlainCoreProcess
    ensures { result ≡ item_over plain_core_process (started_text_at Starts.Name) features offset bytes.now }
{
    read_at(CoreProcesses, bytes, offset, features)
}

// `wasmparser` reports a wrong start byte at the offset of the data, for a later module too.
/// Reads a module of a section `coremodules`, whose data is a count and as many modules: a byte 0 and a name.
///
/// `data_offset` is the offset of the section's data.
///
/// # Errors
///
/// `CORE_START_BYTE` with `PULLEYNAVY_CORE_START_MODULE` if the first byte is another one. Its offset is `data_offset`,
/// whichever module it is. `UNEXPECTED_EOF`, and the faults of `pulleynavy_read_text`.
///
/// (Tool conventions, Coredump, Modules and Instances.)
#[unsafe(no_mangle)]
pub extern "C" fn pulleynavy_read_core_module(
    bytes: &[u8],
    offset: u64,
    features: u32,
    data_offset: u64,
) -> PlainCoreModule
    // Proved: `pulleynavy_read_core_module` reports a wrong start byte at the offset of the
    //   section's data that it is passed, as the list of modules of `wasm_custom` does [the clause
    //   of `pulleynavy_read_core_module` (`module_at`)]
    ensures { result ≡ item_over plain_core_module (module_at data_offset) features offset bytes.now }
{
    read_at(CoreModules { data_offset }, bytes, offset, features)
}

/// Reads the head of an instance of a section `coreinstances`, whose data is a count and as many instances.
///
/// A count of memories and as many indices follow, each read by `pulleynavy_read_number`, then a count of globals and
/// as many indices.
///
/// # Errors
///
/// `CORE_START_BYTE` with `PULLEYNAVY_CORE_START_INSTANCE` at a first byte other than 0; `UNEXPECTED_EOF`; and the
/// faults of `pulleynavy_read_number`.
///
/// (Tool conventions, Coredump, Modules and Instances.)
#[unsafe(no_mangle)]
pub extern "C" fn pulleynavy_read_core_instance(
    bytes: &[u8],
    offset: u64,
    features: u32,
) -> PlainCoreInstance
    ensures { result ≡ item_over plain_core_instance instance_head_at features offset bytes.now }
{
    read_at(CoreInstances, bytes, offset, features)
}

/// Reads the start of the data of a section `corestack`: a byte 0 and the name of the thread. A count and as many
/// frames follow.
///
/// # Errors
///
/// `CORE_START_BYTE` with `PULLEYNAVY_CORE_START_STACK_NAME` at another first byte; `UNEXPECTED_EOF`; and the faults of
/// `pulleynavy_read_text`.
///
/// (Tool conventions, Coredump, Thread(s) and Stack Frames.)
#[unsafe(no_mangle)]
pub extern "C" fn pulleynavy_read_core_thread(
    bytes: &[u8],
    offset: u64,
    features: u32,
) -> PlainCoreThread
    ensures { result ≡ item_over plain_core_thread (started_text_at Starts.StackName) features offset bytes.now }
{
    read_at(CoreThreads, bytes, offset, features)
}

/// Reads the head of a frame.
///
/// A count of locals follows, read by `pulleynavy_read_number`, and as many values, each read by
/// `pulleynavy_read_core_value`; then a count of values on the stack, and these.
///
/// # Errors
///
/// `CORE_START_BYTE` with `PULLEYNAVY_CORE_START_FRAME` at a first byte other than 0; `UNEXPECTED_EOF`; and the faults
/// of `pulleynavy_read_number`.
///
/// (Tool conventions, Coredump, Thread(s) and Stack Frames.)
#[unsafe(no_mangle)]
pub extern "C" fn pulleynavy_read_core_frame(
    bytes: &[u8],
    offset: u64,
    features: u32,
) -> PlainCoreFrame
    ensures { result ≡ item_over plain_core_frame frame_head_at features offset bytes.now }
{
    read_at(CoreFrames, bytes, offset, features)
}

/// Reads a value of a local or on the stack of a frame.
///
/// # Errors
///
/// `CORE_VALUE` at a first byte that is no kind of values; `UNEXPECTED_EOF`; and the faults of `pulleynavy_read_s32`
/// and `pulleynavy_read_s64`.
///
/// (Tool conventions, Coredump, Thread(s) and Stack Frames.)
#[unsafe(no_mangle)]
pub extern "C" fn pulleynavy_read_core_value(
    bytes: &[u8],
    offset: u64,
    features: u32,
) -> PlainCoreValue
    ensures { result ≡ item_over plain_core_value value_at features offset bytes.now }
{
    read_at(CoreValues, bytes, offset, features)
}

/// Stores the next values of a list in `out`, and returns their number.
///
/// # Errors
///
/// An item has the faults of `pulleynavy_read_core_value`; the last one `SIZE_MISMATCH` if bytes follow the list.
#[unsafe(no_mangle)]
pub extern "C" fn pulleynavy_next_core_values(
    items: &mut StoredItems,
    bytes: &[u8],
    out: &mut [PlainCoreValue],
) -> usize
    ensures { StoresItems (next_by plain_core_value value_at bytes.now)
        items.old out.old result items.new out.new }
{
    store_items(Counted(CoreValues), items, bytes, out)
}
