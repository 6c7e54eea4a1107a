// The names that an object file has: those of its symbols, and by them of its items.
ghost use Rattle.std.specs.Prelude.{◌≡◌, IfErr, None, OnOk, Some};
ghost use Rattle.wasm_io.specs.declared.devices.ListError.TheVariants.{Memory};
ghost use Rattle.wasm_output.specs.ItemNames.{KeepsNames};
ghost use Rattle.wasm_output.specs.Tree.{Adds};

use crate::counts::{Counts, import_space};
use crate::events::{Only, chooses, shows_items};
use crate::hidden::Outline;
use std::alloc::Global;
use wasm_base::BinaryReader;
use wasm_custom::{
    CustomSectionReader, Linking, LinkingSectionReader, SegmentMap, SymbolInfo, SymbolInfoMap,
};
use wasm_io::ListError;
use wasm_items::{Import, ImportSection, ImportSectionReader};
use wasm_output::{ItemNames, Space, Tree};
use wasm_parser::Payload;

/// The name of the section with the symbols of an object file (tool conventions, Linking).
pub(crate) const LINKING: &str = "linking";

/// The names that the symbols of an object file have and give to items (tool conventions, Linking).
#[derive(Drop)]
pub(crate) struct Linked {
    /// The names of symbols, of the items that they are for, and of data segments, if these are wanted.
    pub(crate) names: ItemNames,
    // Whether the names of items are wanted, and not only those of symbols.
    has_items: bool,
    // The content of the import section, until its names are read: most streams have no symbols, and don't need them.
    held: Option<Vec<u8>>,
    // The names of imports in their modules. The symbol of an import has no other, unless its flags say so.
    imports: ItemNames,
    // How many sections there were so far, and those of them that are custom.
    section_count: u32,
    sections: Vec<NamedSection>,
    counts: Counts,
}

// A custom section: its index among all sections, and its name.
#[derive(Drop)]
struct NamedSection {
    index: u32,
    name: String,
}

// Returns the index space of the item that a symbol is for, and its index. The symbol of a section or of data has none.
fn item_of(symbol: &SymbolInfo<'_>) -> Option<(Space, u32)> {
    match symbol {
        SymbolInfo::Func { index, .. } => Some((Space::Functions, *index)),
        SymbolInfo::Global { index, .. } => Some((Space::Globals, *index)),
        SymbolInfo::Event { index, .. } => Some((Space::Tags, *index)),
        SymbolInfo::Table { index, .. } => Some((Space::Tables, *index)),
        SymbolInfo::Data { .. } | SymbolInfo::Section { .. } => None,
    }
}

// Returns the name that a symbol has in the symbol table, if it has one there.
fn own_name<'a>(symbol: &SymbolInfo<'a>) -> Option<&'a str> {
    match symbol {
        SymbolInfo::Func { name, .. } => *name,
        SymbolInfo::Global { name, .. } => *name,
        SymbolInfo::Event { name, .. } => *name,
        SymbolInfo::Table { name, .. } => *name,
        SymbolInfo::Data { name, .. } => Some(name),
        SymbolInfo::Section { .. } => None,
    }
}

// Returns the last ones of these bytes, this many.
fn last_bytes(bytes: &[u8], size: u64) -> &[u8] {
    match usize::try_from(size) {
        Ok(size) if size <= bytes.len() => &bytes[bytes.len() - size..],
        _ => bytes,
    }
}

impl Linked {
    /// Creates it without names. It is to hold those of items only if `has_items`. Allocates nothing yet.
    pub(crate) fn new(alloc: Global, has_items: bool) -> Linked {
        Linked {
            names: ItemNames::new(alloc),
            has_items,
            held: None,
            imports: ItemNames::new(alloc),
            section_count: 0,
            sections: Vec::new(alloc),
            counts: Counts::new(),
        }
    }

    /// Returns the names of symbols, of the items that they are for, and of data segments.
    pub(crate) fn into_names(self) -> ItemNames
        ensures { result ≡ self.names }
    {
        let Linked {
            names,
            has_items: _has_items,
            held: _held,
            imports: _imports,
            section_count: _,
            sections: _sections,
            counts: _counts,
        } = self;
        names
    }

    /// Passes a part that was skipped: a function body, or a section, whose name is not kept.
    pub(crate) fn pass_hidden(&mut self, is_body: bool)
        ensures { self.new.names ≡ self.old.names }
    {
        if !is_body {
            self.pass_section();
        }
    }

    // Passes a section that has no name.
    fn pass_section(&mut self)
        ensures { self.new.names ≡ self.old.names }
    {
        self.section_count = self.section_count.saturating_add(1);
    }

    // Passes a custom section, whose name is kept.
    fn pass_named(&mut self, alloc: Global, name: &str) -> Result<(), ListError>
        ensures keeps { self.new.names ≡ self.old.names }
        ensures memory { IfErr result (λ why. why ≡ Memory) }
    {
        let section = NamedSection {
            index: self.section_count,
            name: String::from_str(alloc, name)?,
        };
        self.pass_section();
        match self.sections.push(section) {
            Ok(()) => Ok(()),
            Err(_) => Err(ListError::Memory),
        }
    }

    // Holds the content of the import section, which ends with these bytes.
    fn hold(
        &mut self,
        alloc: Global,
        bytes: &[u8],
        section: &ImportSectionReader<'_>,
    ) -> Result<(), ListError>
        ensures keeps { self.new.names ≡ self.old.names }
        ensures memory { IfErr result (λ why. why ≡ Memory) }
    {
        let range = section.range();
        let mut content = Vec::new(alloc);
        content.extend_from_slice(last_bytes(bytes, range.end.saturating_sub(range.start)))?;
        self.held = Some(content);
        Ok(())
    }

    // Reads the names of imports that are held.
    fn read_imports(&mut self, alloc: Global) -> Result<(), ListError>
        ensures keeps { KeepsNames self.old.names self.new.names }
        ensures memory { IfErr result (λ why. why ≡ Memory) }
    {
        let Some(content) = self.held.take() else {
            return Ok(());
        };
        match ImportSectionReader::new(BinaryReader::new(content.as_slice(), 0)) {
            Ok(section) => self.pass_imports(alloc, section),
            Err(_) => Ok(()),
        }
    }

    // Adds the name of an import.
    fn pass_import(&mut self, alloc: Global, import: &Import<'_>) -> Result<(), ListError>
        ensures keeps { KeepsNames self.old.names self.new.names }
        ensures memory { IfErr result (λ why. why ≡ Memory) }
    {
        let space = import_space(&import.ty);
        let index = self.counts.of(space);
        self.counts.add(space);
        match u32::try_from(index) {
            Ok(index) => self.imports.add(alloc, space, index, import.name),
            Err(_) => Ok(()),
        }
    }

    // Passes the imports of a section, up to its first fault.
    fn pass_imports(
        &mut self,
        alloc: Global,
        section: ImportSectionReader<'_>,
    ) -> Result<(), ListError>
        ensures keeps { KeepsNames self.old.names self.new.names }
        ensures memory { IfErr result (λ why. why ≡ Memory) }
    {
        for import in section.into_imports_with_offsets() {
            if let Ok((_, import)) = import {
                self.pass_import(alloc, &import)?;
            }
        }
        Ok(())
    }

    // Returns the name of the section with this index, if it is a custom one.
    fn section_name(&self, section: u32) -> Option<&str> {
        match self
            .sections
            .binary_search_by_key(&section, |named| named.index)
        {
            Ok(place) => match self.sections.get(place) {
                Some(named) => Some(named.name.as_str()),
                None => None,
            },
            Err(_) => None,
        }
    }

    // Returns the name that a symbol has by what it is for: that of an import, or of a section.
    fn given_name(&self, symbol: &SymbolInfo<'_>) -> Option<&str> {
        match symbol {
            SymbolInfo::Section { section, .. } => self.section_name(*section),
            _ => match item_of(symbol) {
                Some((space, index)) => self.imports.of(space, u64::from(index)),
                None => None,
            },
        }
    }

    // Adds the name of a symbol, its own or a given one.
    fn add_symbol(
        &mut self,
        alloc: Global,
        named: &mut ItemNames,
        index: u32,
        symbol: &SymbolInfo<'_>,
    ) -> Result<(), ListError>
        ensures keeps { KeepsNames self.old.names self.new.names }
        ensures others { KeepsNames named.old named.new }
        ensures memory { IfErr result (λ why. why ≡ Memory) }
    {
        if let Some(name) = own_name(symbol) {
            return self.add_name(alloc, named, index, item_of(symbol), name);
        }
        let given = match self.given_name(symbol) {
            Some(name) => String::from_str(alloc, name)?,
            None => return Ok(()),
        };
        self.add_name(alloc, named, index, item_of(symbol), given.as_str())
    }

    // Adds the name of the symbol with this index, also as that of its item.
    fn add_name(
        &mut self,
        alloc: Global,
        named: &mut ItemNames,
        index: u32,
        item: Option<(Space, u32)>,
        name: &str,
    ) -> Result<(), ListError>
        ensures keeps { KeepsNames self.old.names self.new.names }
        ensures others { KeepsNames named.old named.new }
        ensures memory { IfErr result (λ why. why ≡ Memory) }
    {
        named.add(alloc, Space::Symbols, index, name)?;
        if !self.has_items {
            return Ok(());
        }
        self.names.add(alloc, Space::Symbols, index, name)?;
        match item {
            Some((space, item)) => self.names.add(alloc, space, item, name),
            None => Ok(()),
        }
    }

    // Adds the names of a symbol table, up to its first fault.
    fn add_symbols(
        &mut self,
        alloc: Global,
        named: &mut ItemNames,
        symbols: &SymbolInfoMap<'_>,
    ) -> Result<(), ListError>
        ensures keeps { KeepsNames self.old.names self.new.names }
        ensures others { KeepsNames named.old named.new }
        ensures memory { IfErr result (λ why. why ≡ Memory) }
    {
        let mut symbols = symbols.clone().unwrap().into_iter();
        'symbols: for index in 0..u32::MAX {
            match symbols.next() {
                Some(Ok(symbol)) => self.add_symbol(alloc, named, index, &symbol)?,
                Some(Err(_)) => break,
                None => break,
            }
        }
        Ok(())
    }

    // Adds the names of data segments, up to the first fault.
    fn add_segments(&mut self, alloc: Global, segments: &SegmentMap<'_>) -> Result<(), ListError>
        ensures keeps { KeepsNames self.old.names self.new.names }
        ensures memory { IfErr result (λ why. why ≡ Memory) }
    {
        let mut segments = segments.clone().unwrap().into_iter();
        'segments: for index in 0..u32::MAX {
            match segments.next() {
                Some(Ok(segment)) => {
                    self.names
                        .add(alloc, Space::DataSegments, index, segment.name)?
                }
                Some(Err(_)) => break,
                None => break,
            }
        }
        Ok(())
    }

    // Adds the names of a subsection, if it has any.
    fn add_subsection(
        &mut self,
        alloc: Global,
        named: &mut ItemNames,
        subsection: &Linking<'_>,
    ) -> Result<(), ListError>
        ensures keeps { KeepsNames self.old.names self.new.names }
        ensures others { KeepsNames named.old named.new }
        ensures memory { IfErr result (λ why. why ≡ Memory) }
    {
        match subsection {
            Linking::SymbolTable(symbols) => self.add_symbols(alloc, named, symbols),
            Linking::SegmentInfo(segments) if self.has_items => self.add_segments(alloc, segments),
            _ => Ok(()),
        }
    }

    // Adds the names of a section `linking`, up to the first fault of its subsections. The names of its symbols are added to
    // `named` as well.
    fn add_subsections(
        &mut self,
        alloc: Global,
        named: &mut ItemNames,
        section: &LinkingSectionReader<'_>,
    ) -> Result<(), ListError>
        ensures keeps { KeepsNames self.old.names self.new.names }
        ensures others { KeepsNames named.old named.new }
        ensures memory { IfErr result (λ why. why ≡ Memory) }
    {
        let mut subsections = section.subsections();
        'subsections: for _ in 0..u64::MAX {
            match subsections.next() {
                Some(Ok(subsection)) => self.add_subsection(alloc, named, &subsection)?,
                Some(Err(_)) => break,
                None => break,
            }
        }
        Ok(())
    }

    // Passes a custom section, whose name is kept if `is_shown`, and adds the names that it has if it is called `linking`, up to a
    // fault. The names of symbols are added to `named` as well.
    fn pass_custom(
        &mut self,
        alloc: Global,
        named: &mut ItemNames,
        section: &CustomSectionReader<'_>,
        is_shown: bool,
    ) -> Result<(), ListError>
        ensures keeps { KeepsNames self.old.names self.new.names }
        ensures others { KeepsNames named.old named.new }
        ensures memory { IfErr result (λ why. why ≡ Memory) }
    {
        if is_shown {
            self.pass_named(alloc, section.name())?;
        } else {
            self.pass_section();
        }
        if section.name() != LINKING {
            return Ok(());
        }
        self.read_imports(alloc)?;
        match LinkingSectionReader::new(alloc, section.data_reader()) {
            Ok(section) => self.add_subsections(alloc, named, &section),
            Err(_) => Ok(()),
        }
    }

    /// Passes a payload that is read of these bytes, and adds the names that it has if it is the custom section `linking`, up
    /// to a fault. The names of symbols are added to `named` as well. That of a custom section is kept if `is_shown`.
    pub(crate) fn pass(
        &mut self,
        alloc: Global,
        named: &mut ItemNames,
        bytes: &[u8],
        payload: &Payload<'_>,
        is_shown: bool,
    ) -> Result<(), ListError>
        ensures keeps { KeepsNames self.old.names self.new.names }
        ensures others { KeepsNames named.old named.new }
        ensures memory { IfErr result (λ why. why ≡ Memory) }
    {
        match payload {
            Payload::CustomSection(section) => {
                return self.pass_custom(alloc, named, section, is_shown);
            }
            Payload::ImportSection(section) => self.hold(alloc, bytes, section)?,
            _ => {}
        }
        if payload.as_section().is_some() {
            self.pass_section();
        }
        Ok(())
    }
}

/// Adds the names of symbols in a payload to those of the tree, if it shows items: relocations show them. The tree stops if
/// an allocation fails. A section that is not shown may be skipped before it has come as a whole, so its name is not kept
/// in either case.
pub(crate) fn learn_payload<O: Tree>(
    alloc: Global,
    only: &[Only<'_>],
    linked: &mut Linked,
    bytes: &[u8],
    payload: &Payload<'_>,
    out: &mut O,
) -> Result<(), ListError>
    ensures keeps { OnOk result (O.writing out.new ≡ O.writing out.old) }
    ensures adds { Adds (O.writing out.old) (O.writing out.new) }
    ensures stops { IfErr result (λ why. (O.writing out.new).why ≡ Some why) }
{
    if !shows_items(only) || payload.as_section().is_none() {
        return Ok(());
    }
    let mut names = out.take_names().unwrap_or(ItemNames::new(alloc));
    let learned = linked.pass(alloc, &mut names, bytes, payload, chooses(only, payload));
    out.set_names(names);
    match learned {
        Ok(()) => Ok(()),
        Err(_) => Err(stop(out)),
    }
}

/// Passes a part that was skipped. The name of a custom section that is shown is kept: symbols name sections. The tree stops
/// if an allocation fails.
pub(crate) fn learn_skipped<O: Tree>(
    alloc: Global,
    only: &[Only<'_>],
    linked: &mut Linked,
    outline: Outline,
    out: &mut O,
) -> Result<(), ListError>
    ensures keeps { OnOk result (O.writing out.new ≡ O.writing out.old) }
    ensures adds { Adds (O.writing out.old) (O.writing out.new) }
    ensures stops { IfErr result (λ why. (O.writing out.new).why ≡ Some why) }
{
    match outline {
        Outline::Hidden { is_body } => {
            linked.pass_hidden(is_body);
            Ok(())
        }
        Outline::Custom(section) => {
            learn_payload(alloc, only, linked, &[], &section.without_data(), out)
        }
    }
}

/// Stops the tree because an allocation failed, and returns why it has stopped.
pub(crate) fn stop<O: Tree>(out: &mut O) -> ListError
    ensures adds { Adds (O.writing out.old) (O.writing out.new) }
    ensures stops { (O.writing out.new).why ≡ Some result }
{
    out.out_of_memory();
    match out.stopped() {
        Some(why) => why,
        None => ListError::Memory,
    }
}
