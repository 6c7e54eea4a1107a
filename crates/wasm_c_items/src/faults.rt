// Faults as plain numbers.
ghost use Rattle.std.specs.Prelude.{◌≡◌, ◌<◌};
ghost use Rattle.wasm_base.specs.FaultAt.{fault_at};
ghost use Rattle.wasm_c_items.specs.Faults.{fault_code, lead_code, number_code, number_flag, number_or_0, plain_fault, start_code};

use wasm_parser::{CoreStart, Error, Fault, Lead, NumberKind};

/// A fault, or none.
///
/// ```c
/// const uint8_t bytes[] = {0x80};
/// pulleynavy_number number = pulleynavy_read_number(bytes, 1, 100, PULLEYNAVY_ALL_FEATURES);
/// assert(PULLEYNAVY_FAULT_KIND(number.fault.kind) == PULLEYNAVY_FAULT_UNEXPECTED_EOF);
/// assert(number.fault.offset == 101);
/// ```
#[repr(C)]
#[derive(Clone, Copy)]
pub struct PlainFault {
    /// The code of the fault, or 0 if there is none.
    ///
    /// `PULLEYNAVY_FAULT_KIND` returns the lowest 8 bits, a `pulleynavy_fault_kind`. `PULLEYNAVY_FAULT_DETAIL` returns
    /// the bits above: of `NUMBER_TOO_LONG` and `NUMBER_TOO_LARGE` a `pulleynavy_number_kind`, of `LEADING_BYTE` a
    /// `pulleynavy_lead`, of `CORE_START_BYTE` a `pulleynavy_core_start`, otherwise 0.
    pub kind: u32,
    /// 1 if the fault has a number, or 0.
    pub has_number: u32,
    /// The number of the fault, or 0: the version of `UNKNOWN_VERSION` and `LINKING_VERSION`, the length of
    /// `SECTION_TOO_LARGE`, the byte of `LEADING_BYTE`.
    pub number: u64,
    /// The offset of the fault, in bytes from the start of the stream, or 0 if there is none.
    pub offset: u64,
}

/// That there is no fault.
pub(crate) const NO_FAULT: PlainFault = PlainFault {
    kind: 0,
    has_number: 0,
    number: 0,
    offset: 0,
};

fn number_code(of: NumberKind) -> u32
    ensures code { result ≡ number_code of }
    ensures small { result < 256 }
{
    match of {
        NumberKind::VarU32 => 0,
        NumberKind::VarI32 => 1,
        NumberKind::VarU64 => 2,
        NumberKind::VarI64 => 3,
        NumberKind::VarS33 => 4,
    }
}

fn lead_code(of: Lead) -> u32
    ensures code { result ≡ lead_code of }
    ensures small { result < 256 }
{
    match of {
        Lead::BranchHint => 0,
        Lead::BranchTaken => 1,
        Lead::ComdatSymbol => 2,
        Lead::Symbol => 3,
        Lead::Reloc => 4,
        Lead::External => 5,
        Lead::Value => 6,
        Lead::Reference => 7,
        Lead::Heap => 8,
        Lead::Composite => 9,
        Lead::Mutability => 10,
    }
}

fn start_code(of: CoreStart) -> u32
    ensures code { result ≡ start_code of }
    ensures small { result < 256 }
{
    match of {
        CoreStart::Name => 0,
        CoreStart::Module => 1,
        CoreStart::Instance => 2,
        CoreStart::StackName => 3,
        CoreStart::Frame => 4,
    }
}

/// The number of a fault: that of its kind, and 256 times that of what it names.
pub(crate) fn fault_code(fault: Fault) -> u32
    ensures { result ≡ fault_code fault }
{
    match fault {
        Fault::OutOfMemory => 1,
        Fault::UnexpectedEof => 2,
        Fault::OffsetRange => 3,
        Fault::BadMagic => 4,
        Fault::UnknownVersion => 5,
        Fault::MagicAtSection => 6,
        Fault::MalformedSectionId => 7,
        Fault::SectionTooLarge => 8,
        Fault::OutOfOrder => 9,
        Fault::StartContent => 10,
        Fault::DataCountContent => 11,
        Fault::FunctionCodeDiffer => 12,
        Fault::FunctionWithoutCode => 13,
        Fault::CodeWithoutFunction => 14,
        Fault::DataCountDiffer => 15,
        Fault::DataCountWithoutData => 16,
        Fault::TrailingCode => 17,
        Fault::NumberTooLong(kind) => 18 + 256 * number_code(kind),
        Fault::NumberTooLarge(kind) => 19 + 256 * number_code(kind),
        Fault::StringSize => 20,
        Fault::MalformedUtf8 => 21,
        Fault::InvalidU7 => 22,
        Fault::InvalidBool => 23,
        Fault::SizeMismatch => 24,
        Fault::LeadingByte(lead) => 25 + 256 * lead_code(lead),
        Fault::DataFlags => 26,
        Fault::ElementFlags => 27,
        Fault::ElementFunctionOnly => 28,
        Fault::ExactExport => 29,
        Fault::GlobalFlags => 30,
        Fault::Compact7F => 31,
        Fault::Compact7E => 32,
        Fault::MemoryFlags => 33,
        Fault::PageSize => 34,
        Fault::TableEncoding => 35,
        Fault::TableFlags => 36,
        Fault::TagAttributes => 37,
        Fault::NamesOrder => 38,
        Fault::IndirectOrder => 39,
        Fault::NameSectionOrder => 40,
        Fault::NameTrailing => 41,
        Fault::ProducersField => 42,
        Fault::LinkingVersion => 43,
        Fault::CoreStartByte(start) => 44 + 256 * start_code(start),
        Fault::CoreValue => 45,
        Fault::CustomTrailing => 46,
        Fault::NotConstant => 47,
        Fault::Supertypes => 48,
    }
}

/// Whether there is a number, and which.
pub(crate) fn number_parts(number: Option<u64>) -> (u32, u64)
    ensures has { result.0 ≡ number_flag number }
    ensures number { result.1 ≡ number_or_0 number }
{
    match number {
        Some(number) => (1, number),
        None => (0, 0),
    }
}

/// An error's fault, its offset and the number that belongs to it.
pub(crate) fn plain_fault(error: Error) -> PlainFault
    ensures { result ≡ plain_fault (fault_at error) }
{
    let (has_number, number) = number_parts(error.number());
    PlainFault {
        kind: fault_code(error.fault()),
        has_number,
        number,
        offset: error.offset(),
    }
}
