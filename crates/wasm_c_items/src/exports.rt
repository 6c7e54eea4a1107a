// Exports as plain numbers.
ghost use Rattle.std.specs.Prelude.{◌≡◌};
ghost use Rattle.wasm_c_items.specs.Exports.{external_code, plain_export};
ghost use Rattle.wasm_items.specs.Exports.{ExportParts, export_at};

use crate::faults::{NO_FAULT, PlainFault, plain_fault};
use crate::readable::Readable;
use crate::spans::{NO_SPAN, PlainSpan, distance, text_span};
use wasm_parser::{BinaryReader, Error, Export, ExternalKind, FromReader, Result};

/// An export, or a fault.
#[repr(C)]
#[derive(Clone, Copy)]
pub struct PlainExport {
    /// The fault of the item, of kind 0 if there is none.
    pub fault: PlainFault,
    /// The size of the item in bytes, 0 after a fault.
    pub consumed: usize,
    /// The name of the export, which is UTF-8.
    pub name: PlainSpan,
    /// The kind, a `pulleynavy_external_kind`: 0 a function, 1 a table, 2 a memory, 3 a global, 4 a tag.
    pub kind: u32,
    /// The index in the index space of the kind.
    pub index: u32,
}

fn external_code(kind: ExternalKind) -> u32
    ensures { result ≡ external_code kind }
{
    match kind {
        ExternalKind::Func => 0,
        ExternalKind::Table => 1,
        ExternalKind::Memory => 2,
        ExternalKind::Global => 3,
        ExternalKind::Tag => 4,
        ExternalKind::FuncExact => 5,
    }
}

/// Exports.
#[derive(Clone, Copy)]
pub struct Exports;

impl Readable for Exports {
    type Plain = PlainExport;

    ghost Item = { ExportParts };

    ghost reading = { λ _. export_at };

    ghost plain = { λ _. plain_export };

    fn read(self, reader: &mut BinaryReader<'_>, from: u64) -> Result<PlainExport> {
        let start = reader.original_position();
        let before = reader.clone().unwrap();
        let export = Export::from_reader(reader)?;
        Ok(PlainExport {
            fault: NO_FAULT,
            consumed: distance(start, reader.original_position()),
            name: text_span(from, before, export.name.len()),
            kind: external_code(export.kind),
            index: export.index,
        })
    }

    fn refused(self, error: Error) -> PlainExport {
        PlainExport {
            fault: plain_fault(error),
            consumed: 0,
            name: NO_SPAN,
            kind: 0,
            index: 0,
        }
    }
}
