//! The reader that everything else is built on: numbers, names and windows of a WebAssembly stream, and errors with
//! their offsets.
//!
//! `BinaryReader` reads. `SectionLimited` and `Subsections` iterate over items, which are types with `FromReader`,
//! `FromReaderIn` or `Subsection`. Parsing a stream is the task of `wasm_parser`, which re-exports most names of this
//! crate.
#![tactic(auto)]

mod ascending;
mod ending;
mod error;
mod fault;
mod features;
mod float;
mod inner;
mod item;
mod lanes;
pub mod laws;
mod leading;
mod limits;
mod number;
mod owned;
mod reader;
mod section;
mod subsections;
mod utf8;

pub use ascending::in_order;
pub use ending::expect_end;
pub use error::{Error, Result, leading_byte_error, only_out_of_memory};
pub use fault::{CoreStart, Fault, Lead, NumberKind};
pub use features::WasmFeatures;
pub use float::{Ieee32, Ieee64};
pub use inner::{SkipItem, passed_since, read_inner, read_inner_u32s};
pub use item::FromReader;
pub use leading::{read_flag, read_flags};
pub use limits::{
    _MAX_WASM_TABLE_SIZE, DEFAULT_WASM_PAGE_SIZE, MAX_WASM_BR_TABLE_SIZE, MAX_WASM_CATCHES,
    MAX_WASM_DATA_SEGMENTS, MAX_WASM_ELEMENT_SEGMENTS, MAX_WASM_EXPORTS, MAX_WASM_FUNCTION_LOCALS,
    MAX_WASM_FUNCTION_PARAMS, MAX_WASM_FUNCTION_RETURNS, MAX_WASM_FUNCTION_SIZE,
    MAX_WASM_FUNCTIONS, MAX_WASM_GLOBALS, MAX_WASM_HANDLERS, MAX_WASM_IMPORTS, MAX_WASM_MEMORIES,
    MAX_WASM_MODULES_AND_COMPONENTS, MAX_WASM_SELECT_RESULT_SIZE, MAX_WASM_STRING_SIZE,
    MAX_WASM_STRUCT_FIELDS, MAX_WASM_SUBTYPING_DEPTH, MAX_WASM_SUPERTYPES, MAX_WASM_TABLE_ENTRIES,
    MAX_WASM_TABLES, MAX_WASM_TAGS, MAX_WASM_TYPE_SIZE, MAX_WASM_TYPES, is_page_size,
    max_wasm_memory32_pages, max_wasm_memory64_pages,
};
pub use owned::{FromReaderIn, read_items, read_list, read_list_in};
pub use reader::{BinaryReader, MAGIC, fits};
pub use section::{
    SectionLimited, SectionLimitedIntoIter, SectionLimitedIntoIterIn,
    SectionLimitedIntoIterWithOffsets,
};
pub use subsections::{
    Allocation, MayAllocate, NeverAllocates, Subsection, Subsections, read_subsection,
};
