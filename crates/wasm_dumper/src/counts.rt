// Counts the items that come first in their index spaces.
ghost use Rattle.std.specs.Prelude.{◌≡◌};
ghost use Rattle.wasm_base.specs.Window.{place};
ghost use Rattle.wasm_dumper.specs.Counting.{after, count_of, no_counts, space_of, with_imports, with_one};
ghost use Rattle.wasm_dumper.specs.Hiding.{after_hidden};
ghost use Rattle.wasm_items.specs.Flattened.{flattened};
ghost use Rattle.wasm_parser.specs.ParseAnswer.{ItemsBegin, report_of};

use wasm_items::{ImportSection, ImportSectionReader, TypeRef};
use wasm_output::Space;
use wasm_parser::Payload;

/// The number of items so far that come before later items in the same index space: imports, and function bodies.
///
/// ```rattle
/// let mut counts = Counts::new();
/// for payload in Parser::new(0).parse_all(b"\0asm\x01\0\0\0\x02\x07\x01\x01m\x01f\0\0") {
///     counts.pass(&payload?);
/// }
/// // The first function of the module itself has index 1.
/// assert_eq!(rt; counts.of(Space::Functions), 1);
/// ```
#[derive(Clone, Copy)]
pub struct Counts {
    // Imports and bodies are counted across sections. Nothing else is, because each other section comes at most once.

    /// The number of imported functions.
    pub functions: u64,
    /// The number of imported tables.
    pub tables: u64,
    /// The number of imported memories.
    pub memories: u64,
    /// The number of imported tags.
    pub tags: u64,
    /// The number of imported globals.
    pub globals: u64,
    /// The number of imported functions and of bodies: the function index of the next body.
    pub bodies: u64,
}

/// Returns the index space that an import of this type belongs to.
pub fn import_space(ty: &TypeRef) -> Space
    ensures { result ≡ space_of ty.now }
{
    match ty {
        TypeRef::Func(_) | TypeRef::FuncExact(_) => Space::Functions,
        TypeRef::Table(_) => Space::Tables,
        TypeRef::Memory(_) => Space::Memories,
        TypeRef::Global(_) => Space::Globals,
        TypeRef::Tag(_) => Space::Tags,
    }
}

impl Counts {
    /// Returns counts before any items, all 0.
    pub fn new() -> Counts
        ensures { result ≡ no_counts }
    {
        Counts {
            functions: 0,
            tables: 0,
            memories: 0,
            tags: 0,
            globals: 0,
            bodies: 0,
        }
    }

    /// Returns the index of the first item of the module itself in an index space, which is the number of its imports
    /// so far.
    pub fn of(&self, space: Space) -> u64
        ensures { result ≡ count_of self.now space }
    {
        match space {
            Space::Functions => self.functions,
            Space::Tables => self.tables,
            Space::Memories => self.memories,
            Space::Tags => self.tags,
            Space::Globals => self.globals,
            Space::Types | Space::Elements | Space::DataSegments | Space::Symbols => 0,
        }
    }

    /// Counts an import into an index space.
    pub fn add(&mut self, space: Space)
        ensures { self.new ≡ with_one self.old space }
    {
        match space {
            Space::Functions => {
                self.functions = self.functions.saturating_add(1);
                self.bodies = self.bodies.saturating_add(1);
            }
            Space::Tables => self.tables = self.tables.saturating_add(1),
            Space::Memories => self.memories = self.memories.saturating_add(1),
            Space::Tags => self.tags = self.tags.saturating_add(1),
            Space::Globals => self.globals = self.globals.saturating_add(1),
            Space::Types | Space::Elements | Space::DataSegments | Space::Symbols => {}
        }
    }

    // Counts the imports of a section.
    fn add_imports(&mut self, section: &ImportSectionReader<'_>)
        ensures { self.new ≡ with_imports self.old (flattened section.now.count (place section.now.reader)) }
    {
        for import in section.clone().unwrap().into_imports_with_offsets() {
            if let Ok((_, import)) = import {
                self.add(import_space(&import.ty));
            }
        }
    }

    // Counts a part of which nothing is shown: a body, or a section that is not an import section.
    pub(crate) fn pass_hidden(&mut self, is_body: bool)
        ensures { self.new ≡ after_hidden self.old is_body }
    {
        if is_body {
            self.bodies = self.bodies.saturating_add(1);
        }
    }

    /// Counts the items of a payload: the imports of an import section without errors, or a body.
    pub fn pass(&mut self, payload: &Payload<'_>)
        // Proved: what is counted of a payload whose reader is at its items is the imports of its section, or one
        //   body [`Counts::pass` (`after`, `with_imports`)]
        ensures { ItemsBegin payload.now → self.new ≡ after self.old (report_of payload.now) }
    {
        match payload {
            Payload::ImportSection(section) => self.add_imports(section),
            Payload::CodeSectionEntry(_) => self.bodies = self.bodies.saturating_add(1),
            _ => {}
        }
    }
}
