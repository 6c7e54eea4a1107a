//! Laws of custom sections and their items: of comparing, hashing and cloning them, of items that were read, and of
//! iterating over them to the end.
ghost use Rattle.std.specs.Hash as hashed;
ghost use Rattle.std.specs.Ordering.{nat_cmp};
ghost use Rattle.std.specs.Prelude.{◌≡◌, Ok, Some, false};
ghost use Rattle.wasm_base.specs.Ascending.{GivesAscending};
ghost use Rattle.wasm_base.specs.Announced.{GivesAnnounced};
ghost use Rattle.wasm_base.specs.Comparing.{DecidesSame, IsCopy};
ghost use Rattle.wasm_base.specs.Inner.{SkipsAsRead, SkipsIfSuch};
ghost use Rattle.wasm_base.specs.Item.{AllowsOne, Determines};
ghost use Rattle.wasm_base.specs.Subsections.{GivesSubsections, UnlessTaken};
ghost use Rattle.wasm_base.specs.Window.{Place, Window};
ghost use Rattle.wasm_base.specs.declared.fault.Fault.TheVariants.{IndirectOrder, NameSectionOrder, NamesOrder};
ghost use Rattle.wasm_custom.specs.Flags.{segment_bits, symbol_bits};
ghost use Rattle.wasm_custom.specs.Hashed.{hash_of_addend, hash_of_relocation, hash_of_symbol_kind};
ghost use Rattle.wasm_custom.specs.Names.{IsShortNaming, id_of, index_of, index_of_indirect, offset_of_entry, offset_of_subsection};
ghost use Rattle.wasm_custom.specs.Producers.{IsShortValue};
ghost use Rattle.wasm_custom.specs.Reloc.{number_of};

use crate::branch_hinting::{BranchHint, BranchHintFunction};
use crate::coredumps::{CoreDumpInstance, CoreDumpStackFrame, CoreDumpValue};
use crate::custom::CustomSectionReader;
use crate::dylink0::{ExportInfo, ImportInfo, MemInfo};
use crate::flags::{SegmentFlags, SymbolFlags};
use crate::linking::{
    Comdat, ComdatSymbol, ComdatSymbolKind, DefinedDataSymbol, InitFunc, Linking, LinkingIntoIter,
    LinkingSectionReader, Segment, SymbolInfo,
};
use crate::names::{IndirectNameMap, IndirectNaming, Name, NameMap, NameSectionReader, Naming};
use crate::producers::{ProducersField, ProducersFieldValue};
use crate::reloc::{RelocAddendKind, RelocSectionReader, RelocationEntry, RelocationType};
use crate::target_features::TargetFeature;
use std::hash::Hash;
use wasm_base::{
    FromReader, FromReaderIn, SectionLimitedIntoIter, SkipItem, Subsection, Subsections,
};

/// Two relocations, types of relocations or kinds of addends are equal exactly if they are the same.
pub fn equal_relocations_are_the_same()
    // Proved: relocations, their types and kinds of addends, sets of flags and kinds of symbols are
    //   equal exactly if they are the same [`laws::equal_relocations_are_the_same`,
    //   `equal_flags_are_the_same`]
    ensures relocation { DecidesSame ⟦<RelocationEntry as PartialEq>⟧.eq }
    ensures relocation_type { DecidesSame ⟦<RelocationType as PartialEq>⟧.eq }
    ensures addend_kind { DecidesSame ⟦<RelocAddendKind as PartialEq>⟧.eq }
{}

/// A relocation is hashed as its fields, one after the other, and its type as its number.
pub fn relocations_are_hashed_as_their_fields()
    // Proved: a relocation is hashed as its fields, its type as its number, a set of flags as its
    //   bits, and a kind as the number of its case [`laws::relocations_are_hashed_as_their_fields`,
    //   `flags_are_hashed_as_their_bits`]
    ensures relocation { (entry : RelocationEntry) →
        ⟦<RelocationEntry as Hash>⟧.hash_input entry ≡ hash_of_relocation entry }
    ensures relocation_type { (ty : RelocationType) →
        ⟦<RelocationType as Hash>⟧.hash_input ty ≡ hashed.u8 (number_of ty) }
{}

/// Two sets of flags, or two kinds of symbols of a comdat, are equal exactly if they are the same.
pub fn equal_flags_are_the_same()
    ensures symbol_flags { DecidesSame ⟦<SymbolFlags as PartialEq>⟧.eq }
    ensures segment_flags { DecidesSame ⟦<SegmentFlags as PartialEq>⟧.eq }
    ensures comdat_kind { DecidesSame ⟦<ComdatSymbolKind as PartialEq>⟧.eq }
{}

/// A set of flags is hashed as its bits, and a kind of symbols or of addends as the number of its case.
pub fn flags_are_hashed_as_their_bits()
    ensures symbol_flags { (flags : SymbolFlags) →
        ⟦<SymbolFlags as Hash>⟧.hash_input flags ≡ hashed.u32 (symbol_bits flags) }
    ensures segment_flags { (flags : SegmentFlags) →
        ⟦<SegmentFlags as Hash>⟧.hash_input flags ≡ hashed.u32 (segment_bits flags) }
    ensures comdat_kind { (kind : ComdatSymbolKind) →
        ⟦<ComdatSymbolKind as Hash>⟧.hash_input kind ≡ hash_of_symbol_kind kind }
    ensures addend_kind { (kind : RelocAddendKind) →
        ⟦<RelocAddendKind as Hash>⟧.hash_input kind ≡ hash_of_addend kind }
{}

/// Sets of symbol flags are in the order of the numbers that their bits are.
pub fn symbol_flags_are_in_the_order_of_their_bits()
    // Proved: sets of symbol flags are ordered by their bits; a default set is empty
    //   [`laws::symbol_flags_are_in_the_order_of_their_bits`, `default_flags_are_none`]
    ensures order { (one other : SymbolFlags) →
        ⟦<SymbolFlags as Ord>⟧.cmp one other ≡ nat_cmp (symbol_bits one) (symbol_bits other) }
    ensures partial { (one other : SymbolFlags) →
        ⟦<SymbolFlags as PartialOrd>⟧.partial_cmp one other
        ≡ Some (nat_cmp (symbol_bits one) (symbol_bits other)) }
{}

/// A default set of flags is empty.
pub fn default_flags_are_none()
    ensures symbol_flags { (flags : SymbolFlags) →
        ⟦<SymbolFlags as Default>⟧.is_default flags → symbol_bits flags ≡ 0 }
    ensures segment_flags { (flags : SegmentFlags) →
        ⟦<SegmentFlags as Default>⟧.is_default flags → segment_bits flags ≡ 0 }
{}

/// A clone of a custom section or of one of its items is identical to it, its name as a text and its window. Cloning
/// never fails, since it never allocates.
pub fn copies_are_the_same<'a>()
    // Proved: a copy is the same, and can always be made [`laws::copies_are_the_same`,
    //   `copies_of_names_and_symbols_are_the_same`]
    ensures section { IsCopy
        ⟦<CustomSectionReader<'a> as Clone>⟧.is_clone
        ⟦<CustomSectionReader<'a> as Clone>⟧.is_infallible }
    ensures function_hints { IsCopy
        ⟦<BranchHintFunction<'a> as Clone>⟧.is_clone
        ⟦<BranchHintFunction<'a> as Clone>⟧.is_infallible }
    ensures hint { IsCopy ⟦<BranchHint as Clone>⟧.is_clone ⟦<BranchHint as Clone>⟧.is_infallible }
    ensures field { IsCopy
        ⟦<ProducersField<'a> as Clone>⟧.is_clone
        ⟦<ProducersField<'a> as Clone>⟧.is_infallible }
    ensures value { IsCopy
        ⟦<ProducersFieldValue<'a> as Clone>⟧.is_clone
        ⟦<ProducersFieldValue<'a> as Clone>⟧.is_infallible }
    ensures feature { IsCopy
        ⟦<TargetFeature<'a> as Clone>⟧.is_clone
        ⟦<TargetFeature<'a> as Clone>⟧.is_infallible }
    ensures core_value { IsCopy
        ⟦<CoreDumpValue as Clone>⟧.is_clone
        ⟦<CoreDumpValue as Clone>⟧.is_infallible }
    ensures relocations { IsCopy
        ⟦<RelocSectionReader<'a> as Clone>⟧.is_clone
        ⟦<RelocSectionReader<'a> as Clone>⟧.is_infallible }
    ensures relocation { IsCopy
        ⟦<RelocationEntry as Clone>⟧.is_clone
        ⟦<RelocationEntry as Clone>⟧.is_infallible }
    ensures relocation_type { IsCopy
        ⟦<RelocationType as Clone>⟧.is_clone
        ⟦<RelocationType as Clone>⟧.is_infallible }
    ensures addend_kind { IsCopy
        ⟦<RelocAddendKind as Clone>⟧.is_clone
        ⟦<RelocAddendKind as Clone>⟧.is_infallible }
{}

/// A clone of a name, of what has names, of a symbol, of what linkers and dynamic linkers read or of a set of flags is
/// identical to it. Cloning never fails.
pub fn copies_of_names_and_symbols_are_the_same<'a>()
    ensures naming { IsCopy ⟦<Naming<'a> as Clone>⟧.is_clone ⟦<Naming<'a> as Clone>⟧.is_infallible }
    ensures segment { IsCopy
        ⟦<Segment<'a> as Clone>⟧.is_clone
        ⟦<Segment<'a> as Clone>⟧.is_infallible }
    ensures init_function { IsCopy
        ⟦<InitFunc as Clone>⟧.is_clone
        ⟦<InitFunc as Clone>⟧.is_infallible }
    ensures comdat_symbol { IsCopy
        ⟦<ComdatSymbol as Clone>⟧.is_clone
        ⟦<ComdatSymbol as Clone>⟧.is_infallible }
    ensures comdat_kind { IsCopy
        ⟦<ComdatSymbolKind as Clone>⟧.is_clone
        ⟦<ComdatSymbolKind as Clone>⟧.is_infallible }
    ensures symbol { IsCopy
        ⟦<SymbolInfo<'a> as Clone>⟧.is_clone
        ⟦<SymbolInfo<'a> as Clone>⟧.is_infallible }
    ensures defined_data { IsCopy
        ⟦<DefinedDataSymbol as Clone>⟧.is_clone
        ⟦<DefinedDataSymbol as Clone>⟧.is_infallible }
    ensures memory { IsCopy ⟦<MemInfo as Clone>⟧.is_clone ⟦<MemInfo as Clone>⟧.is_infallible }
    ensures symbol_flags { IsCopy
        ⟦<SymbolFlags as Clone>⟧.is_clone
        ⟦<SymbolFlags as Clone>⟧.is_infallible }
    ensures segment_flags { IsCopy
        ⟦<SegmentFlags as Clone>⟧.is_clone
        ⟦<SegmentFlags as Clone>⟧.is_infallible }
    ensures indirect_naming { IsCopy
        ⟦<IndirectNaming<'a> as Clone>⟧.is_clone
        ⟦<IndirectNaming<'a> as Clone>⟧.is_infallible }
    ensures names { IsCopy ⟦<NameMap<'a> as Clone>⟧.is_clone ⟦<NameMap<'a> as Clone>⟧.is_infallible }
    ensures indirect_names { IsCopy
        ⟦<IndirectNameMap<'a> as Clone>⟧.is_clone
        ⟦<IndirectNameMap<'a> as Clone>⟧.is_infallible }
    ensures name { IsCopy ⟦<Name<'a> as Clone>⟧.is_clone ⟦<Name<'a> as Clone>⟧.is_infallible }
    ensures name_section { IsCopy
        ⟦<NameSectionReader<'a> as Clone>⟧.is_clone
        ⟦<NameSectionReader<'a> as Clone>⟧.is_infallible }
    ensures comdat { IsCopy ⟦<Comdat<'a> as Clone>⟧.is_clone ⟦<Comdat<'a> as Clone>⟧.is_infallible }
    ensures linking { IsCopy ⟦<Linking<'a> as Clone>⟧.is_clone ⟦<Linking<'a> as Clone>⟧.is_infallible }
    ensures linking_section { IsCopy
        ⟦<LinkingSectionReader<'a> as Clone>⟧.is_clone
        ⟦<LinkingSectionReader<'a> as Clone>⟧.is_infallible }
{}

/// An iterator over the hints of a function that was read yields as many as announced, and no error.
pub fn hints_that_were_read_are_given<'a>()
    // Proved: an iterator over the hints of a function that was read yields as many as announced
    //   and no fault
    ensures { (before after : Place) (function : BranchHintFunction) →
        ⟦<BranchHintFunction<'a> as FromReader<'a>>⟧.meaning before (Ok (function, after)) →
        GivesAnnounced
        ⟦<SectionLimitedIntoIter<'a, BranchHint> as Iterator>⟧.next_gives function.hints }
{}

/// An iterator over the symbols of a comdat that was read yields as many as announced, and no error.
pub fn symbols_that_were_read_are_given<'a>()
    // Proved: an iterator over the symbols of a comdat that was read yields as many as announced
    //   and no fault
    ensures { (before after : Place) (comdat : Comdat) →
        ⟦<Comdat<'a> as FromReader<'a>>⟧.meaning before (Ok (comdat, after)) →
        GivesAnnounced
        ⟦<SectionLimitedIntoIter<'a, ComdatSymbol> as Iterator>⟧.next_gives comdat.symbols }
{}

/// Each of these items allows one outcome at each place, so the iterators over a section of them, and clones of these,
/// yield the same items.
pub fn items_allow_one_outcome<'a>()
    // Proved: each item of these custom sections allows one outcome at each place, and hints and
    //   relocations are determined by it [`laws::items_allow_one_outcome`,
    //   `names_and_symbols_allow_one_outcome`, `items_are_determined`]
    ensures function_hints { AllowsOne ⟦<BranchHintFunction<'a> as FromReader<'a>>⟧.meaning }
    ensures hint { AllowsOne ⟦<BranchHint as FromReader<'a>>⟧.meaning }
    ensures field { AllowsOne ⟦<ProducersField<'a> as FromReader<'a>>⟧.meaning }
    ensures value { AllowsOne ⟦<ProducersFieldValue<'a> as FromReader<'a>>⟧.meaning }
    ensures feature { AllowsOne ⟦<TargetFeature<'a> as FromReader<'a>>⟧.meaning }
    ensures core_value { AllowsOne ⟦<CoreDumpValue as FromReader<'a>>⟧.meaning }
    ensures core_instance { AllowsOne ⟦<CoreDumpInstance as FromReaderIn<'a>>⟧.meaning }
    ensures core_frame { AllowsOne ⟦<CoreDumpStackFrame as FromReaderIn<'a>>⟧.meaning }
    ensures relocation { AllowsOne ⟦<RelocationEntry as FromReader<'a>>⟧.meaning }
    ensures relocation_type { AllowsOne ⟦<RelocationType as FromReader<'a>>⟧.meaning }
{}

/// Each of these items is determined by its bytes, so the iterators over a section of them, and clones of these, yield
/// equal items.
pub fn items_are_determined<'a>()
    ensures function_hints { Determines ⟦<BranchHintFunction<'a> as FromReader<'a>>⟧.meaning }
    ensures hint { Determines ⟦<BranchHint as FromReader<'a>>⟧.meaning }
    ensures relocation { Determines ⟦<RelocationEntry as FromReader<'a>>⟧.meaning }
    ensures relocation_type { Determines ⟦<RelocationType as FromReader<'a>>⟧.meaning }
{}

/// `next` returns exactly the names, or the subsections of names, whose index or id is above every one returned before.
/// Any other one is the order fault at its start, and one with a fault of its own is that fault. The returned indices
/// or ids ascend strictly, also across faults. After the first `None`, every call returns `None`.
pub fn names_ascend<'a>()
    // Proved: whole runs: what both maps of names and the name section return ascends strictly,
    //   also after faults, and nothing comes after the end [`laws::names_ascend` (`GivesAscending`,
    //   `in_order`, `AscendsFrom`)]
    ensures names { GivesAscending
        ⟦<SectionLimitedIntoIter<'a, Naming<'a>> as Iterator>⟧.next_gives
        offset_of_entry index_of NamesOrder
        ⟦<NameMap<'a> as Iterator>⟧.next_gives }
    ensures indirect { GivesAscending
        ⟦<SectionLimitedIntoIter<'a, IndirectNaming<'a>> as Iterator>⟧.next_gives
        offset_of_entry index_of_indirect IndirectOrder
        ⟦<IndirectNameMap<'a> as Iterator>⟧.next_gives }
    ensures subsections { GivesAscending
        ⟦<Subsections<'a, Name<'a>> as Iterator>⟧.next_gives
        offset_of_subsection id_of NameSectionOrder
        ⟦<NameSectionReader<'a> as Iterator>⟧.next_gives }
{}

/// `next` returns the subsections of a section for linkers, one after the other to its end, and then only `None`. Each
/// is what its id and its window mean, or its fault.
pub fn subsections_for_linkers<'a>()
    // Proved: whole runs: the subsections of `linking` come as those of `Subsections`
    //   [`laws::subsections_for_linkers` (`GivesSubsections`)]
    ensures { (s : Window) →
        GivesSubsections ⟦<LinkingIntoIter<'a> as Iterator>⟧.next_gives
        (UnlessTaken ⟦<Linking<'a> as Subsection<'a>>⟧.meaning false) s }
{}

/// Casting a relocation type returns its number, and converting this number returns the type.
pub fn a_relocation_type_is_its_number(ty: RelocationType) -> (u8, Result<RelocationType, ()>)
    // Proved: `addend_kind`, `extent` and `relocation_range` are those of the table; a type that is
    //   cast is its number [the clauses of each (`row_of`);
    //   `laws::a_relocation_type_is_its_number`]
    ensures number { result.0 ≡ number_of ty }
    ensures back { result.1 ≡ Ok ty }
{
    let number = cast(ty);
    (number, RelocationType::try_from(number))
}

// Casts a relocation type to its number.
fn cast(ty: RelocationType) -> u8
    ensures { result ≡ number_of ty }
{
    ty as u8
}

/// If an item of a list inside an item can be read, skipping it consumes the same bytes as reading it. For an index
/// with a name, and for a producer's value, this holds if each text has at most 100,000 bytes, the limit of skipped
/// names.
pub fn skipping_consumes_what_reading_consumes<'a>()
    // Proved: skipping a hint or a symbol of a comdat consumes the bytes that reading it consumes,
    //   wherever it is read
    // Proved: for an index with a name and for a producer's value this holds if no text has more
    //   than 100,000 bytes [the same (`SkipsIfSuch`)]
    ensures hint { SkipsAsRead
        ⟦<BranchHint as FromReader<'a>>⟧.meaning
        ⟦<BranchHint as SkipItem<'a>>⟧.skipped_at }
    ensures comdat_symbol { SkipsAsRead
        ⟦<ComdatSymbol as FromReader<'a>>⟧.meaning
        ⟦<ComdatSymbol as SkipItem<'a>>⟧.skipped_at }
    ensures naming { SkipsIfSuch IsShortNaming
        ⟦<Naming<'a> as FromReader<'a>>⟧.meaning
        ⟦<Naming<'a> as SkipItem<'a>>⟧.skipped_at }
    ensures value { SkipsIfSuch IsShortValue
        ⟦<ProducersFieldValue<'a> as FromReader<'a>>⟧.meaning
        ⟦<ProducersFieldValue<'a> as SkipItem<'a>>⟧.skipped_at }
{}

/// Names, what linkers and dynamic linkers read, and flags allow one outcome at each place too.
pub fn names_and_symbols_allow_one_outcome<'a>()
    ensures naming { AllowsOne ⟦<Naming<'a> as FromReader<'a>>⟧.meaning }
    ensures indirect_naming { AllowsOne ⟦<IndirectNaming<'a> as FromReader<'a>>⟧.meaning }
    ensures segment { AllowsOne ⟦<Segment<'a> as FromReader<'a>>⟧.meaning }
    ensures init_function { AllowsOne ⟦<InitFunc as FromReader<'a>>⟧.meaning }
    ensures comdat { AllowsOne ⟦<Comdat<'a> as FromReader<'a>>⟧.meaning }
    ensures comdat_symbol { AllowsOne ⟦<ComdatSymbol as FromReader<'a>>⟧.meaning }
    ensures comdat_kind { AllowsOne ⟦<ComdatSymbolKind as FromReader<'a>>⟧.meaning }
    ensures symbol { AllowsOne ⟦<SymbolInfo<'a> as FromReader<'a>>⟧.meaning }
    ensures defined_data { AllowsOne ⟦<DefinedDataSymbol as FromReader<'a>>⟧.meaning }
    ensures symbol_flags { AllowsOne ⟦<SymbolFlags as FromReader<'a>>⟧.meaning }
    ensures segment_flags { AllowsOne ⟦<SegmentFlags as FromReader<'a>>⟧.meaning }
    ensures mem_info { AllowsOne ⟦<MemInfo as FromReader<'a>>⟧.meaning }
    ensures export_info { AllowsOne ⟦<ExportInfo<'a> as FromReader<'a>>⟧.meaning }
    ensures import_info { AllowsOne ⟦<ImportInfo<'a> as FromReader<'a>>⟧.meaning }
{}
