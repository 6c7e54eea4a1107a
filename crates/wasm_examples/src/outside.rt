// Lists the imports and exports of a module, and checks that each export exists.
ghost use Rattle.std.specs.Prelude.{◌≡◌, OnOk, IfErr};
ghost use Rattle.wasm_base.specs.Window.{place};
ghost use Rattle.wasm_parser.specs.ParseAnswer.{report_of, ItemsBegin};
ghost use Rattle.wasm_items.specs.Exports.{export_parts};
ghost use Rattle.wasm_items.specs.Imports.{import_parts};
ghost use Rattle.wasm_examples.specs.Imported.{imports_of};
ghost use Rattle.wasm_examples.specs.Outside.{kind_of_type, outside_parts, with_outside_import, with_export, imported, exported, noted, Comes, IsMemory, IsOutside};

use std::alloc::Global;
use wasm_base::Error;
use wasm_items::{
    Export, ExportSectionReader, ExternalKind, Import, ImportSection, ImportSectionReader, TypeRef,
};
use wasm_parser::{Parser, Payload};

/// The number of items of each external kind.
#[derive(Clone, Copy, Debug, PartialEq, Eq)]
pub struct Spans {
    /// Functions.
    pub functions: u64,
    /// Tables.
    pub tables: u64,
    /// Memories.
    pub memories: u64,
    /// Globals.
    pub globals: u64,
    /// Tags.
    pub tags: u64,
}

impl Spans {
    ghost use Rattle.wasm_examples.specs.Outside.{span_of, with_span};

    /// Returns the number of items of a kind.
    pub fn of(&self, kind: ExternalKind) -> u64
        ensures { result ≡ span_of self.now kind }
    {
        match kind {
            ExternalKind::Func | ExternalKind::FuncExact => self.functions,
            ExternalKind::Table => self.tables,
            ExternalKind::Memory => self.memories,
            ExternalKind::Global => self.globals,
            ExternalKind::Tag => self.tags,
        }
    }

    // Adds items of a kind. A count saturates above every index, so that adding can't overflow.
    fn add(&mut self, kind: ExternalKind, count: u64)
        ensures { self.new ≡ with_span self.old kind count }
    {
        match kind {
            ExternalKind::Func | ExternalKind::FuncExact => {
                self.functions = self.functions.saturating_add(count);
            }
            ExternalKind::Table => self.tables = self.tables.saturating_add(count),
            ExternalKind::Memory => self.memories = self.memories.saturating_add(count),
            ExternalKind::Global => self.globals = self.globals.saturating_add(count),
            ExternalKind::Tag => self.tags = self.tags.saturating_add(count),
        }
    }
}

/// The imports and exports of a module, in order, and the number of its items of each kind.
#[derive(Drop)]
pub struct Outside<'a> {
    /// The number of items of each kind, imported or defined.
    pub spans: Spans,
    /// The imports.
    pub imports: Vec<Import<'a>>,
    /// The exports.
    pub exports: Vec<Export<'a>>,
}

/// Why a module can't be loaded.
#[derive(Clone, Copy, Debug, PartialEq, Eq)]
pub enum Misfit {
    /// A fault of its stream, or out of memory.
    Stream(Error),
    /// The export at this position, counted from 0, has an index that no item has.
    NoSuch(usize),
}

impl From<Error> for Misfit {
    ghost use Rattle.std.specs.Prelude.{◌≡◌};
    ghost use Rattle.wasm_examples.specs.declared.outside.Misfit.TheVariants.{Stream};

    ghost from_gives = { λ error misfit. misfit ≡ Stream error };

    fn from(error: Error) -> Misfit {
        Misfit::Stream(error)
    }
}

// Returns the kind of an import.
fn kind_of(ty: &TypeRef) -> ExternalKind
    ensures { result ≡ kind_of_type ty.now }
{
    match ty {
        TypeRef::Func(_) => ExternalKind::Func,
        TypeRef::Table(_) => ExternalKind::Table,
        TypeRef::Memory(_) => ExternalKind::Memory,
        TypeRef::Global(_) => ExternalKind::Global,
        TypeRef::Tag(_) => ExternalKind::Tag,
        TypeRef::FuncExact(_) => ExternalKind::FuncExact,
    }
}

impl<'a> Outside<'a> {
    fn add_import(&mut self, import: Import<'a>) -> Result<(), Misfit>
        ensures ok { OnOk result
            (outside_parts self.new ≡ with_outside_import (outside_parts self.old) (import_parts import.entry)) }
        ensures memory { IfErr result IsMemory }
    {
        self.imports.push(import).map_err(Error::from)?;
        self.spans.add(kind_of(&import.ty), 1);
        Ok(())
    }

    fn add_imports(&mut self, section: ImportSectionReader<'a>) -> Result<(), Misfit>
        ensures { Comes (imported (outside_parts self.old) (imports_of section.entry))
            result (outside_parts self.new) }
    {
        for import in section.into_imports() {
            self.add_import(import?)?;
        }
        Ok(())
    }

    fn add_export(&mut self, export: Export<'a>) -> Result<(), Misfit>
        ensures { Comes (with_export (outside_parts self.old) (export_parts export.entry))
            result (outside_parts self.new) }
    {
        if u64::from(export.index) >= self.spans.of(export.kind) {
            return Err(Misfit::NoSuch(self.exports.len()));
        }
        self.exports.push(export).map_err(Error::from)?;
        Ok(())
    }

    #[tactic(auto, using(crate::proofs::Items::item_came, crate::proofs::Items::items_over))]
    fn add_exports(&mut self, section: ExportSectionReader<'a>) -> Result<(), Misfit>
        ensures { Comes
            (exported (outside_parts self.old) section.entry.count (place section.entry.reader))
            result (outside_parts self.new) }
    {
        for export in section {
            self.add_export(export?)?;
        }
        Ok(())
    }

    fn add(&mut self, payload: Payload<'a>) -> Result<(), Misfit>
        ensures { ItemsBegin payload.entry → Comes
            (noted (outside_parts self.old) (report_of payload.entry))
            result (outside_parts self.new) }
    {
        match payload {
            Payload::ImportSection(section) => return self.add_imports(section),
            Payload::ExportSection(section) => return self.add_exports(section),
            Payload::FunctionSection(section) => {
                self.spans
                    .add(ExternalKind::Func, u64::from(section.count()));
            }
            Payload::TableSection(section) => {
                self.spans
                    .add(ExternalKind::Table, u64::from(section.count()));
            }
            Payload::MemorySection(section) => {
                self.spans
                    .add(ExternalKind::Memory, u64::from(section.count()));
            }
            Payload::GlobalSection(section) => {
                self.spans
                    .add(ExternalKind::Global, u64::from(section.count()));
            }
            Payload::TagSection(section) => {
                self.spans
                    .add(ExternalKind::Tag, u64::from(section.count()));
            }
            _other => {}
        }
        Ok(())
    }
}

#[tactic(auto, using(crate::proofs::Folding::begun))]
/// Returns the imports and exports of a module.
///
/// # Errors
///
/// `Misfit` says why it can't be loaded: a fault, an export whose index no imported or defined item has, or `OutOfMemory`.
pub fn outside_of<'a>(alloc: Global, bytes: &'a [u8]) -> Result<Outside<'a>, Misfit>
    // Proved: a loader's check, `outside_of`, has a module's imports and exports in order, each
    //   export an index of what imports and sections before it span, or says which isn't; or it
    //   returns the first fault of the stream, an import or an export, or an allocation failed
    //   [`IsOutside` (`noted`)]
    ensures { IsOutside bytes.now result }
{
    let mut outside = Outside {
        spans: Spans {
            functions: 0,
            tables: 0,
            memories: 0,
            globals: 0,
            tags: 0,
        },
        imports: Vec::new(alloc),
        exports: Vec::new(alloc),
    };
    for payload in Parser::new(0).parse_all(bytes) {
        outside.add(payload?)?;
    }
    Ok(outside)
}
