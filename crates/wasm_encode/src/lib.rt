//! Writes the items of WebAssembly modules in the binary format, proved against the readers.
//!
//! * `Encode` is a type whose values can be written: each of its items is read back as itself.
//! * `section_len` and `write_section` write a section of counted items, `write_number_section` one that is a number,
//!   `write_custom` a custom section.
//! * For the data of custom sections, `write_list` writes counted items, `write_section` and `write_subsection` write
//!   subsections, and `write_reloc` relocations. Their items implement `Encode` too.
//! * `Module` is a module that is built section by section: what it ends as is accepted, with exactly these sections.
//!
//! Only `Module` allocates. Each item has one spelling, with numbers as short as possible. First ask whether the items fit
//! and how many bytes they have; then write them into bytes of your own.
//!
//! ```rattle
//! let exports = [Export { name: "run", kind: ExternalKind::Func, index: 2 }];
//! assert!(rt; section_fits(&exports));
//! let mut bytes = vec![in alloc; 0u8; section_len(&exports)]?;
//! write_section(&mut bytes, 0, 7, &exports);
//! assert_eq!(rt; bytes.as_slice(), b"\x07\x07\x01\x03run\0\x02".as_slice());
//! ```
#![tactic(auto)]

mod branch_hints;
mod bundles;
mod bytes;
mod code;
mod copied;
mod core_dumps;
mod custom;
mod data;
mod dylink0;
mod elements;
mod encode;
mod exports;
mod expressions;
mod fitting;
mod globals;
mod imports;
mod indices;
pub mod laws;
mod limits;
mod linking;
mod lists;
mod modules;
mod names;
mod namings;
mod number;
mod operators;
mod producers;
mod rec_groups;
mod reloc;
mod section_items;
mod sections;
mod subsections;
mod symbols;
mod tables;
mod target_features;
mod texts;
mod types;

pub use bundles::import_sections_read_as_bundles;
pub use code::code_sections_are_frames;
pub use copied::types_are_copied;
pub use custom::{custom_fits, custom_len, write_custom};
pub use dylink0::{
    export_infos_read_back, import_infos_read_back, library_arch_reads_back,
    library_names_read_back, mem_info_reads_back,
};
pub use elements::element_sections_read_back;
pub use encode::Encode;
pub use expressions::{expression_fits, expression_len, expression_reads_back, write_expression};
pub use linking::{linking_arch_reads_back, linking_reads_back};
pub use lists::{list_len, write_list};
pub use modules::{Module, Refused, SectionItem, Unfinished};
pub use names::{name_fits, name_len, write_name};
pub use namings::{module_name_reads_back, name_map_reads_back, names_ascend};
pub use number::{signed_len, unsigned_len, write_signed, write_unsigned};
pub use reloc::{reloc_len, reloc_reads_back, write_reloc};
pub use sections::{
    items_read_back, number_section_len, section_fits, section_len, section_reads_back,
    write_number_section, write_section,
};
pub use subsections::{
    list_subsection_reads_back, subsection_len, subsection_reads_back, subsections_read_back,
    write_subsection,
};
