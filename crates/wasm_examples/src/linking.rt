// Finds the bytes that a linker fills in.
ghost use Rattle.std.specs.Prelude.{◌≡◌, OnOk, IfErr, option_map, slice_get, map};
ghost use Rattle.wasm_base.specs.FaultAt.{fault_at};
ghost use Rattle.wasm_base.specs.Owned.{out_of_memory};
ghost use Rattle.wasm_base.specs.Window.{place, whole_window};
ghost use Rattle.wasm_custom.specs.Linking.{symbol_parts, linking_parts, linking_in};
ghost use Rattle.wasm_parser.specs.ParseAnswer.{report_of};
ghost use Rattle.wasm_examples.specs.Folding.{FoldsTo};
ghost use Rattle.wasm_examples.specs.Linking.{filled_in, linked_parts, with_symbols, with_subsection, with_linking, with_relocations, with_custom, with_if_custom, with_section, linked, IsLinked};

use std::alloc::Global;
use std::ops::Range;
use wasm_base::Result;
use wasm_custom::{
    CustomSectionReader, Linking, LinkingSectionReader, RelocSectionReader, RelocationEntry,
    RelocationType, SymbolInfo, SymbolInfoMap,
};
use wasm_parser::{Parser, Payload};

/// A relocation, with the symbol that it names and the bytes that it fills in.
#[derive(Drop)]
pub struct Fixup<'a> {
    /// The relocation as it is encoded.
    pub entry: RelocationEntry,
    /// The symbol with its index, if an earlier symbol table has one. `TypeIndexLeb` names a type and has none.
    pub symbol: Option<SymbolInfo<'a>>,
    /// The offsets of the bytes that it fills in, from the start of the stream, if an earlier section contains them.
    pub range: Option<Range<u64>>,
}

/// The relocations of a module so far.
#[derive(Drop)]
pub struct Linked<'a> {
    /// The offsets of the content of each section, from the start of the stream.
    pub sections: Vec<Range<u64>>,
    /// The symbols.
    pub symbols: Vec<SymbolInfo<'a>>,
    /// The relocations.
    pub fixups: Vec<Fixup<'a>>,
}

// Returns the bytes that a relocation of a section fills in, if the section has them.
fn filled_in(section: &Range<u64>, entry: &RelocationEntry) -> Option<Range<u64>>
    ensures { result ≡ filled_in section.now entry.now }
{
    let Ok(place) = entry.relocation_range() else {
        return None;
    };
    let end = section.start.checked_add(place.end as u64)?;
    if end > section.end {
        return None;
    }
    Some(section.start + place.start as u64..end)
}

impl<'a> Linked<'a> {
    ghost use Rattle.wasm_examples.specs.Linking.{symbol_of, filled_if_there, with_relocation, with_symbol};

    // Returns the symbol that a relocation names.
    fn symbol_of(&self, entry: &RelocationEntry) -> Option<SymbolInfo<'a>>
        ensures { option_map symbol_parts result
            ≡ symbol_of (map symbol_parts self.now.symbols.items) entry.now }
    {
        match entry.ty {
            RelocationType::TypeIndexLeb => None,
            _ => match self.symbols.get(entry.index as usize) {
                Some(symbol) => Some(*symbol),
                None => None,
            },
        }
    }

    // Returns the bytes that a relocation fills in, in the section with this index.
    fn range_of(&self, section: u32, entry: &RelocationEntry) -> Option<Range<u64>>
        ensures { result
            ≡ filled_if_there (slice_get self.now.sections.items section) entry.now }
    {
        match self.sections.get(section as usize) {
            Some(section) => filled_in(section, entry),
            None => None,
        }
    }

    fn add_relocation(&mut self, section: u32, entry: RelocationEntry) -> Result<()>
        ensures { FoldsTo (Ok (with_relocation section (linked_parts self.old) entry))
            result (linked_parts self.new) }
    {
        let symbol = self.symbol_of(&entry);
        let range = self.range_of(section, &entry);
        self.fixups.push(Fixup {
            entry,
            symbol,
            range,
        })?;
        Ok(())
    }

    #[tactic(auto, using(crate::proofs::Items::item_came, crate::proofs::Items::items_over))]
    fn add_relocations(&mut self, section: RelocSectionReader<'a>) -> Result<()>
        ensures { FoldsTo (with_relocations (linked_parts self.old) section.entry)
            result (linked_parts self.new) }
    {
        for entry in section.entries() {
            self.add_relocation(section.section_index(), entry?)?;
        }
        Ok(())
    }

    fn add_symbol(&mut self, symbol: SymbolInfo<'a>) -> Result<()>
        ensures { FoldsTo (Ok (with_symbol (linked_parts self.old) (symbol_parts symbol.entry)))
            result (linked_parts self.new) }
    {
        self.symbols.push(symbol)?;
        Ok(())
    }

    #[tactic(auto, using(crate::proofs::Items::item_came, crate::proofs::Items::items_over))]
    fn add_symbols(&mut self, symbols: SymbolInfoMap<'a>) -> Result<()>
        ensures { FoldsTo (with_symbols (linked_parts self.old) symbols.entry)
            result (linked_parts self.new) }
    {
        for symbol in symbols {
            self.add_symbol(symbol?)?;
        }
        Ok(())
    }

    fn add_subsection(&mut self, subsection: Linking<'a>) -> Result<()>
        ensures { FoldsTo (with_subsection (linked_parts self.old) (linking_parts subsection.entry))
            result (linked_parts self.new) }
    {
        match subsection {
            Linking::SymbolTable(symbols) => self.add_symbols(symbols),
            _other => Ok(()),
        }
    }

    fn add_linking(&mut self, section: LinkingSectionReader<'a>) -> Result<()>
        ensures { FoldsTo (with_linking (linked_parts self.old) section.entry)
            result (linked_parts self.new) }
    {
        for subsection in section {
            self.add_subsection(subsection?)?;
        }
        Ok(())
    }

    fn add_custom(&mut self, alloc: Global, section: CustomSectionReader<'a>) -> Result<()>
        ensures { FoldsTo
            (with_custom (linked_parts self.old) section.entry.name
            (whole_window (place section.entry.reader)))
            result (linked_parts self.new) }
    {
        if section.name() == "linking" {
            self.add_linking(LinkingSectionReader::new(alloc, section.data_reader())?)
        } else if section.name().starts_with("reloc.") {
            self.add_relocations(RelocSectionReader::new(section.data_reader())?)
        } else {
            Ok(())
        }
    }

    fn add_section(&mut self, section: Option<(u8, Range<u64>)>) -> Result<()>
        ensures ok { OnOk result
            (linked_parts self.new ≡ with_section (linked_parts self.old) section) }
        ensures memory { IfErr result (λ e. fault_at e ≡ out_of_memory) }
    {
        if let Some((_id, range)) = section {
            self.sections.push(range)?;
        }
        Ok(())
    }

    fn add_if_custom(&mut self, alloc: Global, payload: Payload<'a>) -> Result<()>
        ensures { FoldsTo (with_if_custom (linked_parts self.old) (report_of payload.entry))
            result (linked_parts self.new) }
    {
        match payload {
            Payload::CustomSection(section) => self.add_custom(alloc, section),
            _other => Ok(()),
        }
    }

    fn add(&mut self, alloc: Global, payload: Payload<'a>) -> Result<()>
        ensures { FoldsTo (linked (linked_parts self.old) (report_of payload.entry))
            result (linked_parts self.new) }
    {
        self.add_section(payload.as_section())?;
        self.add_if_custom(alloc, payload)
    }
}

#[tactic(auto, using(crate::proofs::Folding::begun))]
/// Returns the relocations of a module, in order, each with the symbol that it names and the bytes that it fills in.
///
/// # Errors
///
/// The first fault of the stream, a symbol or a relocation, or `OutOfMemory`.
pub fn linked_of<'a>(alloc: Global, bytes: &'a [u8]) -> Result<Linked<'a>>
    // Proved: the first half of a linker, `linked_of`, has all relocations in order, each with the
    //   symbol of its index, if that is not the index of a type and a table before it has one
    //   [`IsLinked` (`linked`)]
    // Proved: it has the offsets of the bytes that each relocation patches, if its section has
    //   them; or it returns the first fault of the stream, of a `linking` section or of
    //   relocations, or an allocation failed
    ensures { IsLinked bytes.now result }
{
    let mut linked = Linked {
        sections: Vec::new(alloc),
        symbols: Vec::new(alloc),
        fixups: Vec::new(alloc),
    };
    for payload in Parser::new(0).parse_all(bytes) {
        linked.add(alloc, payload?)?;
    }
    Ok(linked)
}
