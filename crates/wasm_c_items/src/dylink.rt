// What a dynamic linker reads, as plain numbers.
ghost use Rattle.wasm_c_items.specs.Dylink.{plain_dylink_export, plain_dylink_import, plain_dylink_memory};
ghost use Rattle.wasm_custom.specs.Dylink0.{ExportInfoParts, ImportInfoParts, export_info_at, import_info_at, mem_info_at};
ghost use Rattle.wasm_custom.specs.declared.dylink0.MemInfo.{MemInfo};

use crate::faults::{NO_FAULT, PlainFault, plain_fault};
use crate::readable::Readable;
use crate::spans::{NO_SPAN, PlainSpan, distance, text_after_sized, text_span};
use bitflags::Flags;
use wasm_parser::{BinaryReader, Error, ExportInfo, FromReader, ImportInfo, MemInfo, Result};

/// The memory and table space that a library needs, or a fault.
#[repr(C)]
#[derive(Clone, Copy)]
pub struct PlainDylinkMemory {
    /// The fault of the item, of kind 0 if there is none.
    pub fault: PlainFault,
    /// The size of the item in bytes, 0 after a fault.
    pub consumed: usize,
    /// The size of the memory area, in bytes.
    pub memory_size: u32,
    /// The alignment of the memory area, as the base-2 logarithm of the bytes.
    pub memory_alignment: u32,
    /// The size of the table area, in elements.
    pub table_size: u32,
    /// The alignment of the table area, as the base-2 logarithm of the elements.
    pub table_alignment: u32,
}

/// The flags of an export's symbol, or a fault.
#[repr(C)]
#[derive(Clone, Copy)]
pub struct PlainDylinkExport {
    /// The fault of the item, of kind 0 if there is none.
    pub fault: PlainFault,
    /// The size of the item in bytes, 0 after a fault.
    pub consumed: usize,
    /// The name of the export, which is UTF-8.
    pub name: PlainSpan,
    /// The flags of the symbol, `pulleynavy_symbol_flags`. Unknown bits are kept.
    pub flags: u32,
}

/// The flags of an import's symbol, or a fault.
#[repr(C)]
#[derive(Clone, Copy)]
pub struct PlainDylinkImport {
    /// The fault of the item, of kind 0 if there is none.
    pub fault: PlainFault,
    /// The size of the item in bytes, 0 after a fault.
    pub consumed: usize,
    /// The name of the module to import from, which is UTF-8.
    pub module_name: PlainSpan,
    /// The name of the import in that module, which is UTF-8.
    pub field: PlainSpan,
    /// The flags of the symbol, `pulleynavy_symbol_flags`. Unknown bits are kept.
    pub flags: u32,
}

/// The memory and table sizes of the section `dylink.0`.
#[derive(Clone, Copy)]
pub struct DylinkMemories;

impl Readable for DylinkMemories {
    type Plain = PlainDylinkMemory;

    ghost Item = { MemInfo };

    ghost reading = { λ _. mem_info_at };

    ghost plain = { λ _. plain_dylink_memory };

    fn read(self, reader: &mut BinaryReader<'_>, _from: u64) -> Result<PlainDylinkMemory> {
        let start = reader.original_position();
        let info = MemInfo::from_reader(reader)?;
        Ok(PlainDylinkMemory {
            fault: NO_FAULT,
            consumed: distance(start, reader.original_position()),
            memory_size: info.memory_size,
            memory_alignment: info.memory_alignment,
            table_size: info.table_size,
            table_alignment: info.table_alignment,
        })
    }

    fn refused(self, error: Error) -> PlainDylinkMemory {
        PlainDylinkMemory {
            fault: plain_fault(error),
            consumed: 0,
            memory_size: 0,
            memory_alignment: 0,
            table_size: 0,
            table_alignment: 0,
        }
    }
}

/// Information about exports in the section `dylink.0`.
#[derive(Clone, Copy)]
pub struct DylinkExports;

impl Readable for DylinkExports {
    type Plain = PlainDylinkExport;

    ghost Item = { ExportInfoParts };

    ghost reading = { λ _. export_info_at };

    ghost plain = { λ _. plain_dylink_export };

    fn read(self, reader: &mut BinaryReader<'_>, from: u64) -> Result<PlainDylinkExport> {
        let start = reader.original_position();
        let before = reader.clone().unwrap();
        let info = ExportInfo::from_reader(reader)?;
        Ok(PlainDylinkExport {
            fault: NO_FAULT,
            consumed: distance(start, reader.original_position()),
            name: text_span(from, before, info.name.len()),
            flags: info.flags.bits(),
        })
    }

    fn refused(self, error: Error) -> PlainDylinkExport {
        PlainDylinkExport {
            fault: plain_fault(error),
            consumed: 0,
            name: NO_SPAN,
            flags: 0,
        }
    }
}

/// Information about imports in the section `dylink.0`.
#[derive(Clone, Copy)]
pub struct DylinkImports;

impl Readable for DylinkImports {
    type Plain = PlainDylinkImport;

    ghost Item = { ImportInfoParts };

    ghost reading = { λ _. import_info_at };

    ghost plain = { λ _. plain_dylink_import };

    fn read(self, reader: &mut BinaryReader<'_>, from: u64) -> Result<PlainDylinkImport> {
        let start = reader.original_position();
        let before = reader.clone().unwrap();
        let info = ImportInfo::from_reader(reader)?;
        Ok(PlainDylinkImport {
            fault: NO_FAULT,
            consumed: distance(start, reader.original_position()),
            module_name: text_span(from, before.clone().unwrap(), info.module.len()),
            field: text_after_sized(from, before, info.field.len()),
            flags: info.flags.bits(),
        })
    }

    fn refused(self, error: Error) -> PlainDylinkImport {
        PlainDylinkImport {
            fault: plain_fault(error),
            consumed: 0,
            module_name: NO_SPAN,
            field: NO_SPAN,
            flags: 0,
        }
    }
}
