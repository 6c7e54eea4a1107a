//! Laws of items: of comparing and cloning them, of items that were read, and of iterating over them to the end.
ghost use Rattle.std.specs.Prelude.{◌≡◌, Ok};
ghost use Rattle.wasm_base.specs.Comparing.{DecidesWhether, DecidesSame, IsCopy};
ghost use Rattle.wasm_base.specs.Inner.{SkipsAsRead};
ghost use Rattle.wasm_base.specs.Item.{AllowsOne, Determines};
ghost use Rattle.wasm_base.specs.Window.{Place};
ghost use Rattle.wasm_items.specs.Announced.{ElementsAreGiven};
ghost use Rattle.wasm_items.specs.Flattened.{GivesAll, found_at, found};
ghost use Rattle.wasm_items.specs.Hashed.{hash_of_value, hash_of_reference, hash_of_heap, hash_of_field, hash_of_storage, hash_of_table, hash_of_memory, hash_of_global, hash_of_tag, hash_of_kind};
ghost use Rattle.wasm_items.specs.Init.{IsEndOrInstruction};
ghost use Rattle.wasm_items.specs.Instructions.{GivesItsInstructions};
ghost use Rattle.wasm_items.specs.TypeLaws.{GroupsHaveHeads, SubtypesHaveHeads};
ghost use Rattle.wasm_items.specs.Same.{IsSameImport, IsSameItem, IsSameExport, IsSameFunction, IsSameComposite, IsSameSubtype, IsSameGroup};

use crate::code::FunctionBody;
use crate::data::{Data, DataKind};
use crate::elements::{Element, ElementItems, ElementKind};
use crate::exports::{Export, ExternalKind};
use crate::flattened::{ImportsIter, IntoImports, IntoImportsWithOffsets};
use crate::globals::Global;
use crate::imports::{Import, ImportItemCompact, Imports, TypeRef};
use crate::init::ConstExpr;
use crate::instructions::ConstInstructions;
use crate::tables::{Table, TableInit};
use crate::type_heads::{CompositeKind, RecGroupHead, SubTypeHead};
use crate::types::{
    CompositeType, FieldType, FuncType, GlobalType, HeapType, MemoryType, RecGroup, RefType,
    StorageType, SubType, TableType, TagKind, TagType, ValType,
};
use std::hash::Hash;
use wasm_base::{FromReader, FromReaderIn, SectionLimitedIntoIter, SkipItem};

/// Two types, kinds or externals, which own no list, are equal exactly if they are the same.
pub fn equal_types_are_the_same()
    // Proved: types, groups of types, imports and exports are equal exactly if all their parts are
    //   the same: lists by their items, names as texts [`laws::equal_types_are_the_same`,
    //   `equal_groups_are_the_same`, `equal_imports_and_exports_are_the_same`]
    ensures value { DecidesSame ⟦<ValType as PartialEq>⟧.eq }
    ensures reference { DecidesSame ⟦<RefType as PartialEq>⟧.eq }
    ensures heap { DecidesSame ⟦<HeapType as PartialEq>⟧.eq }
    ensures field { DecidesSame ⟦<FieldType as PartialEq>⟧.eq }
    ensures storage { DecidesSame ⟦<StorageType as PartialEq>⟧.eq }
    ensures table { DecidesSame ⟦<TableType as PartialEq>⟧.eq }
    ensures memory { DecidesSame ⟦<MemoryType as PartialEq>⟧.eq }
    ensures global { DecidesSame ⟦<GlobalType as PartialEq>⟧.eq }
    ensures tag { DecidesSame ⟦<TagType as PartialEq>⟧.eq }
    ensures tag_kind { DecidesSame ⟦<TagKind as PartialEq>⟧.eq }
    ensures external_kind { DecidesSame ⟦<ExternalKind as PartialEq>⟧.eq }
    ensures group_head { DecidesSame ⟦<RecGroupHead as PartialEq>⟧.eq }
    ensures subtype_head { DecidesSame ⟦<SubTypeHead as PartialEq>⟧.eq }
    ensures composite_kind { DecidesSame ⟦<CompositeKind as PartialEq>⟧.eq }
    ensures external { DecidesSame ⟦<TypeRef as PartialEq>⟧.eq }
{}

/// A type is hashed as its fields, one after the other, and one of several cases as the number of the case and what it
/// holds.
pub fn types_are_hashed_as_their_fields()
    // Proved: a type is hashed as its fields in order, and a type with several cases as the number
    //   of the case and its contents [`laws::types_are_hashed_as_their_fields`]
    ensures value { (ty : ValType) → ⟦<ValType as Hash>⟧.hash_input ty ≡ hash_of_value ty }
    ensures reference { (ty : RefType) → ⟦<RefType as Hash>⟧.hash_input ty ≡ hash_of_reference ty }
    ensures heap { (ty : HeapType) → ⟦<HeapType as Hash>⟧.hash_input ty ≡ hash_of_heap ty }
    ensures field { (ty : FieldType) → ⟦<FieldType as Hash>⟧.hash_input ty ≡ hash_of_field ty }
    ensures storage { (ty : StorageType) → ⟦<StorageType as Hash>⟧.hash_input ty ≡ hash_of_storage ty }
    ensures table { (ty : TableType) → ⟦<TableType as Hash>⟧.hash_input ty ≡ hash_of_table ty }
    ensures memory { (ty : MemoryType) → ⟦<MemoryType as Hash>⟧.hash_input ty ≡ hash_of_memory ty }
    ensures global { (ty : GlobalType) → ⟦<GlobalType as Hash>⟧.hash_input ty ≡ hash_of_global ty }
    ensures tag { (ty : TagType) → ⟦<TagType as Hash>⟧.hash_input ty ≡ hash_of_tag ty }
    ensures tag_kind { (kind : TagKind) → ⟦<TagKind as Hash>⟧.hash_input kind ≡ hash_of_kind kind }
{}

/// Two types that own lists are equal exactly if all that they have is the same, wherever the items of the lists are.
pub fn equal_groups_are_the_same()
    ensures function { DecidesWhether IsSameFunction ⟦<FuncType as PartialEq>⟧.eq }
    ensures composite { DecidesWhether IsSameComposite ⟦<CompositeType as PartialEq>⟧.eq }
    ensures subtype { DecidesWhether IsSameSubtype ⟦<SubType as PartialEq>⟧.eq }
    ensures group { DecidesWhether IsSameGroup ⟦<RecGroup as PartialEq>⟧.eq }
{}

/// Two imports, or two exports, are equal exactly if all that they have is the same, names as texts.
pub fn equal_imports_and_exports_are_the_same<'a>()
    ensures import { DecidesWhether IsSameImport ⟦<Import<'a> as PartialEq>⟧.eq }
    ensures item { DecidesWhether IsSameItem ⟦<ImportItemCompact<'a> as PartialEq>⟧.eq }
    ensures export { DecidesWhether IsSameExport ⟦<Export<'a> as PartialEq>⟧.eq }
{}

/// A clone of an item is identical to it. Cloning never fails, since it never allocates.
pub fn copies_are_the_same<'a>()
    // Proved: a copy of any item except an instruction is the item, and can always be made
    ensures expression { IsCopy
        ⟦<ConstExpr<'a> as Clone>⟧.is_clone
        ⟦<ConstExpr<'a> as Clone>⟧.is_infallible }
    ensures body { IsCopy
        ⟦<FunctionBody<'a> as Clone>⟧.is_clone
        ⟦<FunctionBody<'a> as Clone>⟧.is_infallible }
    ensures imports { IsCopy
        ⟦<Imports<'a> as Clone>⟧.is_clone
        ⟦<Imports<'a> as Clone>⟧.is_infallible }
    ensures table { IsCopy ⟦<Table<'a> as Clone>⟧.is_clone ⟦<Table<'a> as Clone>⟧.is_infallible }
    ensures table_init { IsCopy
        ⟦<TableInit<'a> as Clone>⟧.is_clone
        ⟦<TableInit<'a> as Clone>⟧.is_infallible }
    ensures global { IsCopy ⟦<Global<'a> as Clone>⟧.is_clone ⟦<Global<'a> as Clone>⟧.is_infallible }
    ensures element { IsCopy
        ⟦<Element<'a> as Clone>⟧.is_clone
        ⟦<Element<'a> as Clone>⟧.is_infallible }
    ensures element_kind { IsCopy
        ⟦<ElementKind<'a> as Clone>⟧.is_clone
        ⟦<ElementKind<'a> as Clone>⟧.is_infallible }
    ensures element_items { IsCopy
        ⟦<ElementItems<'a> as Clone>⟧.is_clone
        ⟦<ElementItems<'a> as Clone>⟧.is_infallible }
    ensures segment { IsCopy ⟦<Data<'a> as Clone>⟧.is_clone ⟦<Data<'a> as Clone>⟧.is_infallible }
    ensures segment_kind { IsCopy
        ⟦<DataKind<'a> as Clone>⟧.is_clone
        ⟦<DataKind<'a> as Clone>⟧.is_infallible }
    ensures value { IsCopy ⟦<ValType as Clone>⟧.is_clone ⟦<ValType as Clone>⟧.is_infallible }
    ensures reference { IsCopy ⟦<RefType as Clone>⟧.is_clone ⟦<RefType as Clone>⟧.is_infallible }
    ensures heap { IsCopy ⟦<HeapType as Clone>⟧.is_clone ⟦<HeapType as Clone>⟧.is_infallible }
    ensures field { IsCopy ⟦<FieldType as Clone>⟧.is_clone ⟦<FieldType as Clone>⟧.is_infallible }
    ensures storage { IsCopy
        ⟦<StorageType as Clone>⟧.is_clone
        ⟦<StorageType as Clone>⟧.is_infallible }
    ensures table_type { IsCopy
        ⟦<TableType as Clone>⟧.is_clone
        ⟦<TableType as Clone>⟧.is_infallible }
    ensures memory { IsCopy ⟦<MemoryType as Clone>⟧.is_clone ⟦<MemoryType as Clone>⟧.is_infallible }
    ensures global_type { IsCopy
        ⟦<GlobalType as Clone>⟧.is_clone
        ⟦<GlobalType as Clone>⟧.is_infallible }
    ensures tag { IsCopy ⟦<TagType as Clone>⟧.is_clone ⟦<TagType as Clone>⟧.is_infallible }
    ensures tag_kind { IsCopy ⟦<TagKind as Clone>⟧.is_clone ⟦<TagKind as Clone>⟧.is_infallible }
    ensures external_kind { IsCopy
        ⟦<ExternalKind as Clone>⟧.is_clone
        ⟦<ExternalKind as Clone>⟧.is_infallible }
    ensures external { IsCopy ⟦<TypeRef as Clone>⟧.is_clone ⟦<TypeRef as Clone>⟧.is_infallible }
    ensures group_head { IsCopy
        ⟦<RecGroupHead as Clone>⟧.is_clone
        ⟦<RecGroupHead as Clone>⟧.is_infallible }
    ensures subtype_head { IsCopy
        ⟦<SubTypeHead as Clone>⟧.is_clone
        ⟦<SubTypeHead as Clone>⟧.is_infallible }
    ensures composite_kind { IsCopy
        ⟦<CompositeKind as Clone>⟧.is_clone
        ⟦<CompositeKind as Clone>⟧.is_infallible }
    ensures import { IsCopy ⟦<Import<'a> as Clone>⟧.is_clone ⟦<Import<'a> as Clone>⟧.is_infallible }
    ensures item { IsCopy
        ⟦<ImportItemCompact<'a> as Clone>⟧.is_clone
        ⟦<ImportItemCompact<'a> as Clone>⟧.is_infallible }
    ensures export { IsCopy ⟦<Export<'a> as Clone>⟧.is_clone ⟦<Export<'a> as Clone>⟧.is_infallible }
{}

/// `next` returns all remaining imports in order, and then only `None`: those of an item of an import section, and
/// those of a section, with offsets or without.
pub fn all_imports_come<'a>()
    // Proved: whole runs: all imports of a section come, and nothing after them
    ensures of_an_item { GivesAll found_at ⟦<ImportsIter<'a> as Iterator>⟧.next_gives }
    ensures with_offsets { GivesAll found_at ⟦<IntoImportsWithOffsets<'a> as Iterator>⟧.next_gives }
    ensures alone { GivesAll found ⟦<IntoImports<'a> as Iterator>⟧.next_gives }
{}

/// If an import of a bundle or a constant expression can be read, skipping it consumes the same bytes as reading it.
pub fn skipping_consumes_what_reading_consumes<'a>()
    // Proved: skipping an import of a bundle or a constant expression consumes the bytes that
    //   reading it consumes, wherever it is read
    ensures item { SkipsAsRead
        ⟦<ImportItemCompact<'a> as FromReader<'a>>⟧.meaning
        ⟦<ImportItemCompact<'a> as SkipItem<'a>>⟧.skipped_at }
    ensures expression { SkipsAsRead
        ⟦<ConstExpr<'a> as FromReader<'a>>⟧.meaning
        ⟦<ConstExpr<'a> as SkipItem<'a>>⟧.skipped_at }
{}

/// Each of these items allows one outcome at each place, so the iterators over a section of them, and clones of these,
/// yield the same items.
pub fn items_allow_one_outcome<'a>()
    // Proved: an item of these sections allows one outcome at each place, so what is proved of both
    //   iterators over a section and of clones holds for it [`laws::items_allow_one_outcome`
    //   (`AllowsOne`), `items_are_determined` (`Determines`)]
    ensures kind { AllowsOne ⟦<ExternalKind as FromReader<'a>>⟧.meaning }
    ensures external { AllowsOne ⟦<TypeRef as FromReader<'a>>⟧.meaning }
    ensures import { AllowsOne ⟦<Import<'a> as FromReader<'a>>⟧.meaning }
    ensures item { AllowsOne ⟦<ImportItemCompact<'a> as FromReader<'a>>⟧.meaning }
    ensures imports { AllowsOne ⟦<Imports<'a> as FromReader<'a>>⟧.meaning }
    ensures table { AllowsOne ⟦<Table<'a> as FromReader<'a>>⟧.meaning }
    ensures memory { AllowsOne ⟦<MemoryType as FromReader<'a>>⟧.meaning }
    ensures tag { AllowsOne ⟦<TagType as FromReader<'a>>⟧.meaning }
    ensures global { AllowsOne ⟦<Global<'a> as FromReader<'a>>⟧.meaning }
    ensures export { AllowsOne ⟦<Export<'a> as FromReader<'a>>⟧.meaning }
    ensures expression { AllowsOne ⟦<ConstExpr<'a> as FromReader<'a>>⟧.meaning }
    ensures value { AllowsOne ⟦<ValType as FromReader<'a>>⟧.meaning }
    ensures reference { AllowsOne ⟦<RefType as FromReader<'a>>⟧.meaning }
    ensures heap { AllowsOne ⟦<HeapType as FromReader<'a>>⟧.meaning }
    ensures table_type { AllowsOne ⟦<TableType as FromReader<'a>>⟧.meaning }
    ensures global_type { AllowsOne ⟦<GlobalType as FromReader<'a>>⟧.meaning }
{}

/// Each of these items is determined by its bytes, so the iterators over a section of them, and clones of these, yield
/// equal items.
pub fn items_are_determined<'a>()
    ensures kind { Determines ⟦<ExternalKind as FromReader<'a>>⟧.meaning }
    ensures external { Determines ⟦<TypeRef as FromReader<'a>>⟧.meaning }
    ensures table { Determines ⟦<Table<'a> as FromReader<'a>>⟧.meaning }
    ensures memory { Determines ⟦<MemoryType as FromReader<'a>>⟧.meaning }
    ensures tag { Determines ⟦<TagType as FromReader<'a>>⟧.meaning }
    ensures global { Determines ⟦<Global<'a> as FromReader<'a>>⟧.meaning }
    ensures value { Determines ⟦<ValType as FromReader<'a>>⟧.meaning }
    ensures reference { Determines ⟦<RefType as FromReader<'a>>⟧.meaning }
    ensures heap { Determines ⟦<HeapType as FromReader<'a>>⟧.meaning }
    ensures table_type { Determines ⟦<TableType as FromReader<'a>>⟧.meaning }
    ensures global_type { Determines ⟦<GlobalType as FromReader<'a>>⟧.meaning }
{}

/// An iterator over the elements of a segment that was read yields as many as announced, and no error.
pub fn elements_that_were_read_are_given<'a>()
    // Proved: an iterator over the elements of a segment that was read yields as many as announced
    //   and no fault
    ensures { (before after : Place) (element : Element) →
        ⟦<Element<'a> as FromReader<'a>>⟧.meaning before (Ok (element, after)) →
        ElementsAreGiven
        ⟦<SectionLimitedIntoIter<'a, u32> as Iterator>⟧.next_gives
        ⟦<SectionLimitedIntoIter<'a, ConstExpr<'a>> as Iterator>⟧.next_gives element.items }
{}

/// Segments and types allow one outcome. An element segment and a field are determined by it.
pub fn segments_and_types_allow_one_outcome<'a>()
    // Proved: segments and types allow one outcome at each place
    ensures element { AllowsOne ⟦<Element<'a> as FromReader<'a>>⟧.meaning ×
        Determines ⟦<Element<'a> as FromReader<'a>>⟧.meaning }
    ensures segment { AllowsOne ⟦<Data<'a> as FromReader<'a>>⟧.meaning }
    ensures storage { AllowsOne ⟦<StorageType as FromReader<'a>>⟧.meaning ×
        Determines ⟦<StorageType as FromReader<'a>>⟧.meaning }
    ensures field { AllowsOne ⟦<FieldType as FromReader<'a>>⟧.meaning ×
        Determines ⟦<FieldType as FromReader<'a>>⟧.meaning }
    ensures function { AllowsOne ⟦<FuncType as FromReaderIn<'a>>⟧.meaning }
    ensures composite { AllowsOne ⟦<CompositeType as FromReaderIn<'a>>⟧.meaning }
    ensures subtype { AllowsOne ⟦<SubType as FromReaderIn<'a>>⟧.meaning }
    ensures group { AllowsOne ⟦<RecGroup as FromReaderIn<'a>>⟧.meaning }
    ensures group_head { AllowsOne ⟦<RecGroupHead as FromReader<'a>>⟧.meaning ×
        Determines ⟦<RecGroupHead as FromReader<'a>>⟧.meaning }
    ensures subtype_head { AllowsOne ⟦<SubTypeHead as FromReader<'a>>⟧.meaning ×
        Determines ⟦<SubTypeHead as FromReader<'a>>⟧.meaning }
{}

/// A constant expression is `end`, or an instruction followed by an expression: its definition counts instructions, but
/// sets no limit on their number.
pub fn expressions_are_instructions_and_the_end()
    // Proved: a constant expression is the end, or an instruction followed by an expression, so its
    //   definition does not limit their number
    ensures { (p : Place) → IsEndOrInstruction p }
{}

/// The instructions of an expression that was read have no errors. They tile its window, each beginning where the
/// previous one ends, and only the last one is `end`.
pub fn instructions_tile_their_expression<'a>()
    // Proved: the instructions of an expression that was read come without a fault and tile its
    //   window, and the last one, and no other, is the end
    //   [`laws::instructions_tile_their_expression` (`GivesItsInstructions`)]
    ensures { (before after : Place) (expression : ConstExpr) →
        ⟦<ConstExpr<'a> as FromReader<'a>>⟧.meaning before (Ok (expression, after)) →
        GivesItsInstructions ⟦<ConstInstructions<'a> as Iterator>⟧.next_gives expression }
{}

/// A group of types is its head and this many subtypes, and a subtype its head and what its kind has (core
/// specification, Binary format, Types, Recursive Types and Composite Types). So reading heads and lists one after the
/// other reads what `RecGroup` reads.
#[tactic(auto, using(crate::proofs::TypeHeads::groups, crate::proofs::TypeHeads::subtypes))]
pub fn types_have_heads()
    ensures groups { GroupsHaveHeads }
    ensures subtypes { SubtypesHaveHeads }
{}
