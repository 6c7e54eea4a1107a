// Texts of faults by their numbers.
ghost use Rattle.std.specs.Prelude.{◌≡◌, find, nat_eq};
ghost use Rattle.wasm_c_items.specs.Faults.{fault_code};
ghost use Rattle.wasm_base.specs.Message.{message_of};
ghost use Rattle.wasm_c_items.specs.Texts.{SaysMessage, SaysText};

use crate::faults::fault_code;
use crate::text::write_text;
use wasm_parser::{CoreStart, Error, Fault, Lead, NumberKind};

// Every fault.
const FAULTS: [Fault; 70] = [
    Fault::OutOfMemory,
    Fault::UnexpectedEof,
    Fault::OffsetRange,
    Fault::BadMagic,
    Fault::UnknownVersion,
    Fault::MagicAtSection,
    Fault::MalformedSectionId,
    Fault::SectionTooLarge,
    Fault::OutOfOrder,
    Fault::StartContent,
    Fault::DataCountContent,
    Fault::FunctionCodeDiffer,
    Fault::FunctionWithoutCode,
    Fault::CodeWithoutFunction,
    Fault::DataCountDiffer,
    Fault::DataCountWithoutData,
    Fault::TrailingCode,
    Fault::NumberTooLong(NumberKind::VarU32),
    Fault::NumberTooLong(NumberKind::VarI32),
    Fault::NumberTooLong(NumberKind::VarU64),
    Fault::NumberTooLong(NumberKind::VarI64),
    Fault::NumberTooLong(NumberKind::VarS33),
    Fault::NumberTooLarge(NumberKind::VarU32),
    Fault::NumberTooLarge(NumberKind::VarI32),
    Fault::NumberTooLarge(NumberKind::VarU64),
    Fault::NumberTooLarge(NumberKind::VarI64),
    Fault::NumberTooLarge(NumberKind::VarS33),
    Fault::StringSize,
    Fault::MalformedUtf8,
    Fault::InvalidU7,
    Fault::InvalidBool,
    Fault::SizeMismatch,
    Fault::LeadingByte(Lead::BranchHint),
    Fault::LeadingByte(Lead::BranchTaken),
    Fault::LeadingByte(Lead::ComdatSymbol),
    Fault::LeadingByte(Lead::Symbol),
    Fault::LeadingByte(Lead::Reloc),
    Fault::LeadingByte(Lead::External),
    Fault::LeadingByte(Lead::Value),
    Fault::LeadingByte(Lead::Reference),
    Fault::LeadingByte(Lead::Heap),
    Fault::LeadingByte(Lead::Composite),
    Fault::LeadingByte(Lead::Mutability),
    Fault::DataFlags,
    Fault::ElementFlags,
    Fault::ElementFunctionOnly,
    Fault::ExactExport,
    Fault::GlobalFlags,
    Fault::Compact7F,
    Fault::Compact7E,
    Fault::MemoryFlags,
    Fault::PageSize,
    Fault::TableEncoding,
    Fault::TableFlags,
    Fault::TagAttributes,
    Fault::NamesOrder,
    Fault::IndirectOrder,
    Fault::NameSectionOrder,
    Fault::NameTrailing,
    Fault::ProducersField,
    Fault::LinkingVersion,
    Fault::CoreStartByte(CoreStart::Name),
    Fault::CoreStartByte(CoreStart::Module),
    Fault::CoreStartByte(CoreStart::Instance),
    Fault::CoreStartByte(CoreStart::StackName),
    Fault::CoreStartByte(CoreStart::Frame),
    Fault::CoreValue,
    Fault::CustomTrailing,
    Fault::NotConstant,
    Fault::Supertypes,
];

// The fault of this number, if there is one.
fn fault_numbered(kind: u32) -> Option<Fault>
    ensures { result ≡ find (λ f. nat_eq (fault_code f) kind) FAULTS }
{
    FAULTS
        .iter()
        .copied()
        .find(|fault| fault_code(*fault) == kind)
}

// Writes the text of a fault.
fn write_message(fault: Fault, out: &mut [u8]) -> usize
    ensures { SaysText (message_of fault) out.old result out.new }
{
    write_text(Error::new(fault, 0).message().as_bytes(), out)
}

/// Writes the text of the fault with this number, and returns its length in bytes, or 0 if there is no such fault.
///
/// `pulleynavy_format_message` of the C library is this call, and describes its errors.
#[inline(always)]
pub fn write_message_of(kind: u32, out: &mut [u8]) -> usize
    // By the faults, not by the list: a fault missing from the list would have no message, and no clause would notice.
    ensures { SaysMessage kind out.old result out.new }
{
    match fault_numbered(kind) {
        Some(fault) => write_message(fault, out),
        None => 0,
    }
}
