// Which section has which items (core specification, Binary format, Modules).
ghost use Rattle.std.specs.Prelude.{◌≡◌, ◌<◌, ◌^◌};
ghost use Rattle.wasm_encode.specs.Bundles.{BundleFits, bundle_bytes};
ghost use Rattle.wasm_encode.specs.Code.{BodyFits, body_bytes};
ghost use Rattle.wasm_encode.specs.Data.{DataFits, data_bytes};
ghost use Rattle.wasm_encode.specs.Elements.{ElementFits, element_bytes};
ghost use Rattle.wasm_encode.specs.Globals.{GlobalFits, global_bytes};
ghost use Rattle.wasm_encode.specs.Imports.{ExportFits, ImportFits, export_bytes, import_bytes};
ghost use Rattle.wasm_encode.specs.Limits.{MemoryFits, memory_type_bytes, tag_type_bytes};
ghost use Rattle.wasm_encode.specs.Modules.{MakesFrames};
ghost use Rattle.wasm_encode.specs.Numbers.{unsigned_bytes};
ghost use Rattle.wasm_encode.specs.RecGroups.{GroupFits, group_bytes};
ghost use Rattle.wasm_encode.specs.Tables.{TableItemFits, table_bytes};
ghost use Rattle.wasm_items.specs.Exports.{export_parts};
ghost use Rattle.wasm_items.specs.Imports.{bundle_parts, import_parts};

use crate::modules::SectionItem;
use wasm_grammar::{
    CODE_SECTION, DATA_SECTION, ELEMENT_SECTION, EXPORT_SECTION, FUNCTION_SECTION, GLOBAL_SECTION,
    IMPORT_SECTION, MEMORY_SECTION, TABLE_SECTION, TAG_SECTION, TYPE_SECTION,
};
use wasm_items::{
    Data, Element, Export, FunctionBody, Global, Import, Imports, MemoryType, RecGroup, Table,
    TagType,
};

impl SectionItem for RecGroup {
    ghost section = { 1 };

    fn section_id() -> u8
        ensures id { result ≡ 1 }
        ensures frames { MakesFrames group_bytes GroupFits result }
    {
        TYPE_SECTION
    }
}

impl<'a> SectionItem for Import<'a> {
    ghost section = { 2 };

    fn section_id() -> u8
        ensures id { result ≡ 2 }
        ensures frames { MakesFrames (λ i. import_bytes (import_parts i)) (λ i. ImportFits (import_parts i)) result }
    {
        IMPORT_SECTION
    }
}

impl<'a> SectionItem for Imports<'a> {
    ghost section = { 2 };

    fn section_id() -> u8
        ensures id { result ≡ 2 }
        ensures frames { MakesFrames (λ i. bundle_bytes (bundle_parts i)) (λ i. BundleFits (bundle_parts i)) result }
    {
        IMPORT_SECTION
    }
}

impl SectionItem for u32 {
    ghost section = { 3 };

    fn section_id() -> u8
        ensures id { result ≡ 3 }
        ensures frames { MakesFrames unsigned_bytes (λ index. index < 2 ^ 32) result }
    {
        FUNCTION_SECTION
    }
}

impl<'a> SectionItem for Table<'a> {
    ghost section = { 4 };

    fn section_id() -> u8
        ensures id { result ≡ 4 }
        ensures frames { MakesFrames table_bytes TableItemFits result }
    {
        TABLE_SECTION
    }
}

impl SectionItem for MemoryType {
    ghost section = { 5 };

    fn section_id() -> u8
        ensures id { result ≡ 5 }
        ensures frames { MakesFrames memory_type_bytes MemoryFits result }
    {
        MEMORY_SECTION
    }
}

impl SectionItem for TagType {
    ghost section = { 13 };

    fn section_id() -> u8
        ensures id { result ≡ 13 }
        ensures frames { MakesFrames tag_type_bytes (λ ty. ty.func_type_idx < 2 ^ 32) result }
    {
        TAG_SECTION
    }
}

impl<'a> SectionItem for Global<'a> {
    ghost section = { 6 };

    fn section_id() -> u8
        ensures id { result ≡ 6 }
        ensures frames { MakesFrames global_bytes GlobalFits result }
    {
        GLOBAL_SECTION
    }
}

impl<'a> SectionItem for Export<'a> {
    ghost section = { 7 };

    fn section_id() -> u8
        ensures id { result ≡ 7 }
        ensures frames { MakesFrames (λ x. export_bytes (export_parts x)) (λ x. ExportFits (export_parts x)) result }
    {
        EXPORT_SECTION
    }
}

impl<'a> SectionItem for Element<'a> {
    ghost section = { 9 };

    fn section_id() -> u8
        ensures id { result ≡ 9 }
        ensures frames { MakesFrames element_bytes ElementFits result }
    {
        ELEMENT_SECTION
    }
}

impl<'a> SectionItem for FunctionBody<'a> {
    ghost section = { 10 };

    fn section_id() -> u8
        ensures id { result ≡ 10 }
        ensures frames { MakesFrames body_bytes BodyFits result }
    {
        CODE_SECTION
    }
}

impl<'a> SectionItem for Data<'a> {
    ghost section = { 11 };

    fn section_id() -> u8
        ensures id { result ≡ 11 }
        ensures frames { MakesFrames data_bytes DataFits result }
    {
        DATA_SECTION
    }
}
