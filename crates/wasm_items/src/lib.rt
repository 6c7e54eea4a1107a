//! Readers for the items of a module's sections: types, imports, tables, memories, tags, globals, exports and segments.
//!
//! A section is a `SectionLimited` of its items, such as `ExportSectionReader`. Iterating over it reads the items
//! lazily. Nothing is validated beyond the format: indices, types and constant expressions may be invalid.
//!
//! # Errors
//!
//! Each item documents the errors that it adds to those of its parts. The parts report these, in `wasm_base`:
//!
//! * Truncated input is `UnexpectedEof`: inside a number at the end of the window, for raw bytes where they should have
//!   started.
//! * A LEB128 number is `NumberTooLong` or `NumberTooLarge` at the last byte that it may take.
//! * A name is `StringSize` at the last byte of a size above 100,000, `UnexpectedEof` after the size if bytes are
//!   missing, and `MalformedUtf8` at the last byte of the name.
//!
//! After an error the reader is in its window, at or after its previous position. `OutOfMemory` is returned only by
//! calls that take an allocator.
//!
//! ```rattle
//! let bytes = b"\x01\x03add\x00\x02";
//! for export in ExportSectionReader::new(BinaryReader::new(bytes, 0))? {
//!     let export = export?;
//!     assert_eq!(rt; export.name, "add");
//!     assert_eq!(rt; export.kind, ExternalKind::Func);
//!     assert_eq!(rt; export.index, 2);
//! }
//! ```
#![tactic(auto)]

mod code;
mod data;
mod elements;
mod exports;
mod flattened;
mod functions;
mod globals;
mod imports;
mod init;
mod instructions;
pub mod laws;
mod limits;
mod memories;
mod rec_groups;
mod tables;
mod tags;
mod type_heads;
mod type_lists;
mod types;
mod values;

pub use code::FunctionBody;
pub use data::{Data, DataKind, DataSectionReader};
pub use elements::{Element, ElementItems, ElementKind, ElementSectionReader};
pub use exports::{Export, ExportSectionReader, ExternalKind};
pub use flattened::{ImportSection, ImportsIter, IntoImports, IntoImportsWithOffsets};
pub use functions::FunctionSectionReader;
pub use globals::{Global, GlobalSectionReader};
pub use imports::{Import, ImportItemCompact, ImportSectionReader, Imports, TypeRef};
pub use init::{ConstExpr, ConstOperator, V128};
pub use instructions::{ConstInstruction, ConstInstructions, read_instruction};
pub use memories::MemorySectionReader;
pub use tables::{Table, TableInit, TableSectionReader};
pub use tags::TagSectionReader;
pub use type_heads::{CompositeKind, RecGroupHead, SubTypeHead};
pub use type_lists::{FieldTypes, SubTypes, TypeList, ValTypes};
pub use types::{
    CompositeType, FieldType, FuncType, GlobalType, HeapType, MemoryType, RecGroup, RefType,
    StorageType, SubType, TableType, TagKind, TagType, TypeSectionReader, ValType,
};
