// The ends of custom sections.
ghost use Rattle.std.specs.Prelude.{◌≡◌};
ghost use Rattle.wasm_base.specs.declared.fault.Fault.TheVariants.{CustomTrailing, NameTrailing};
ghost use Rattle.wasm_c_items.specs.Faults.{end_fault};

use wasm_c_items::{PlainFault, end_fault};
use wasm_parser::Fault;

/// Checks that no bytes remain after the last part of a core dump's section.
///
/// `left` are the bytes after that part, which begin at `offset` of the stream.
///
/// # Errors
///
/// `CUSTOM_TRAILING` at `offset`, if there are any bytes.
///
/// (Tool conventions, Coredump.)
#[unsafe(no_mangle)]
pub extern "C" fn pulleynavy_check_custom_end(left: &[u8], offset: u64) -> PlainFault
    // Proved: the checks of an end report trailing bytes at their offset [the clauses of
    //   `pulleynavy_check_custom_end` and `check_name_end` (`end_fault`)]
    ensures { result ≡ end_fault CustomTrailing left.now offset }
{
    end_fault(Fault::CustomTrailing, left, offset)
}

/// Checks that no bytes remain after the name of the module, in subsection 0 of the section `name`.
///
/// `left` are the bytes of the subsection after the name, which begin at `offset` of the stream.
///
/// # Errors
///
/// `NAME_TRAILING` at `offset`, if there are any bytes.
///
/// ```c
/// const uint8_t contents[] = {3, 'a', 'p', 'p', 0};
/// pulleynavy_name name = pulleynavy_read_name(contents, sizeof contents, 0, PULLEYNAVY_ALL_FEATURES);
/// size_t at = name.consumed;
/// pulleynavy_fault fault = pulleynavy_check_name_end(contents + at, sizeof contents - at, at);
/// assert(fault.kind == PULLEYNAVY_FAULT_NAME_TRAILING && fault.offset == 4);
/// ```
///
/// (Core specification, Appendix, Custom Sections, Name Section, Module Names.)
#[unsafe(no_mangle)]
pub extern "C" fn pulleynavy_check_name_end(left: &[u8], offset: u64) -> PlainFault
    ensures { result ≡ end_fault NameTrailing left.now offset }
{
    end_fault(Fault::NameTrailing, left, offset)
}
