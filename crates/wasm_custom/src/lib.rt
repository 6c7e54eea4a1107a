//! Readers for custom sections: the name, branch hint, producers, dylink, linking, relocation, target features
//! and core dump sections.
//!
//! A `CustomSectionReader` has the name and the data of a section. Its method `as_known` selects the reader for the
//! data by the name. Reading never fails the stream: custom sections with malformed data are `KnownCustom::Unknown`, or
//! report errors when you iterate over them.
//!
//! # Errors
//!
//! Each item documents the errors that it adds to those of its parts, which are documented in `wasm_base`. In short,
//! truncated input is `UnexpectedEof`, a malformed LEB128 number is `NumberTooLong` or `NumberTooLarge`, and a text
//! that is not UTF-8 is `MalformedUtf8` at its last byte. A text has no limit where the documentation says "of any
//! length", and is otherwise `StringSize` above 100,000 bytes.
//!
//! ```rattle
//! // The section `name`, with the name "f" for function 5.
//! let section = CustomSectionReader::new(BinaryReader::new(b"\x04name\x01\x04\x01\x05\x01f", 0))?;
//! if let KnownCustom::Name(subsections) = section.as_known(alloc)? {
//!     for subsection in subsections {
//!         if let Name::Function(names) = subsection? {
//!             for naming in names {
//!                 let naming = naming?;
//!                 assert_eq!(rt; naming.index, 5);
//!                 assert_eq!(rt; naming.name, "f");
//!             }
//!         }
//!     }
//! }
//! ```
#![tactic(auto)]

mod branch_hinting;
mod coredumps;
mod custom;
mod dylink0;
mod flags;
mod known;
pub mod laws;
mod linking;
mod names;
mod producers;
mod reloc;
mod target_features;

pub use branch_hinting::{BranchHint, BranchHintFunction, BranchHintSectionReader};
pub use coredumps::{
    CoreDumpInstance, CoreDumpInstancesSection, CoreDumpModulesSection, CoreDumpSection,
    CoreDumpStackFrame, CoreDumpStackSection, CoreDumpValue,
};
pub use custom::CustomSectionReader;
pub use dylink0::{Dylink0SectionReader, Dylink0Subsection, ExportInfo, ImportInfo, MemInfo};
pub use flags::{SegmentFlags, SymbolFlags};
pub use known::KnownCustom;
pub use linking::{
    Comdat, ComdatMap, ComdatSymbol, ComdatSymbolKind, DefinedDataSymbol, InitFunc, InitFuncMap,
    Linking, LinkingIntoIter, LinkingSectionReader, Segment, SegmentMap, SymbolInfo, SymbolInfoMap,
};
pub use names::{
    IndexedMap, IndirectNameMap, IndirectNaming, MapEntry, Name, NameMap, NameSectionReader, Naming,
};
pub use producers::{ProducersField, ProducersFieldValue, ProducersSectionReader};
pub use reloc::{
    RelocAddendKind, RelocSectionReader, RelocationEntry, RelocationEntryReader, RelocationType,
};
pub use target_features::{TargetFeature, TargetFeaturesSectionReader};
