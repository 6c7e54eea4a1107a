//! The grammar of a WebAssembly stream: the table of sections, the headers, and the laws of readings.
//!
//! The grammar itself is a definition, in `specs`. The code here is its tables: `section_kind` and `section_rank` drive
//! the parser, and `section_name` the listing. The laws in `laws` show that the definitions are the right ones.
#![tactic(auto)]

mod encoding;
mod header;
pub mod laws;
mod sections;

pub use encoding::Encoding;
pub use header::{COMPONENT_HEADER, CORE_HEADER};
pub use sections::{
    CODE_SECTION, CUSTOM_SECTION, DATA_COUNT_SECTION, DATA_SECTION, ELEMENT_SECTION,
    EXPORT_SECTION, FUNCTION_SECTION, GLOBAL_SECTION, IMPORT_SECTION, MEMORY_SECTION,
    START_SECTION, SectionKind, TABLE_SECTION, TAG_SECTION, TYPE_SECTION, section_kind,
    section_name, section_named, section_place, section_rank,
};
pub use wasm_base::MAGIC;
