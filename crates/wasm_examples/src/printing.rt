// The names of a module's functions, by its name section.
ghost use Rattle.std.specs.Prelude.{◌≡◌, OnOk, IfErr};
ghost use Rattle.wasm_base.specs.FaultAt.{fault_at};
ghost use Rattle.wasm_base.specs.Owned.{out_of_memory};
ghost use Rattle.wasm_base.specs.Window.{place};
ghost use Rattle.wasm_custom.specs.Names.{naming_parts, name_parts};
ghost use Rattle.wasm_parser.specs.ParseAnswer.{report_of, ItemsBegin};
ghost use Rattle.wasm_examples.specs.Folding.{FoldsTo};
ghost use Rattle.wasm_examples.specs.Imported.{imports_of};
ghost use Rattle.wasm_examples.specs.Printing.{texts_of, one_more, with_name, names_of_map, with_subsection, names_of_section, add_imported_name, add_imported, with_custom, names_after, AreNames};

use std::alloc::Global;
use wasm_base::{BinaryReader, Result};
use wasm_custom::{CustomSectionReader, Name, NameMap, NameSectionReader, Naming};
use wasm_items::{ImportSection, ImportSectionReader, TypeRef};
use wasm_parser::{Parser, Payload};

// The name of each function that was read so far, if it has one.
#[derive(Drop)]
struct Names<'a> {
    alloc: Global,
    list: Vec<Option<&'a str>>,
}

impl<'a> Names<'a> {
    // Adds a function without a name.
    fn add(&mut self) -> Result<()>
        ensures ok { OnOk result (texts_of self.new.list ≡ one_more (texts_of self.old.list)) }
        ensures memory { IfErr result (λ e. fault_at e ≡ out_of_memory) }
    {
        self.list.push(None)?;
        Ok(())
    }

    #[tactic(auto, using(crate::proofs::Texts::is_set))]
    fn set(&mut self, naming: Naming<'a>)
        ensures { texts_of self.new.list
            ≡ with_name (texts_of self.old.list) (naming_parts naming.entry) }
    {
        let function = naming.index as usize;
        if function < self.list.len() {
            self.list[function] = Some(naming.name);
        }
    }

    #[tactic(auto, using(crate::proofs::Texts::naming_came, crate::proofs::Items::items_over))]
    fn set_all(&mut self, map: NameMap<'a>)
        ensures { texts_of self.new.list ≡ names_of_map (texts_of self.old.list) map.entry }
    {
        for naming in map {
            if let Ok(naming) = naming {
                self.set(naming);
            }
        }
    }

    fn set_subsection(&mut self, subsection: Name<'a>)
        ensures { texts_of self.new.list
            ≡ with_subsection (texts_of self.old.list) (name_parts subsection.entry) }
    {
        match subsection {
            Name::Function(map) => self.set_all(map),
            _other => {}
        }
    }

    fn set_section(&mut self, window: BinaryReader<'a>)
        ensures { texts_of self.new.list
            ≡ names_of_section (texts_of self.old.list) (place window.entry) }
    {
        for subsection in NameSectionReader::new(self.alloc, window) {
            if let Ok(subsection) = subsection {
                self.set_subsection(subsection);
            }
        }
    }

    fn set_custom(&mut self, section: CustomSectionReader<'a>)
        ensures { texts_of self.new.list
            ≡ with_custom (texts_of self.old.list) section.entry.name (place section.entry.reader) }
    {
        if section.name() == "name" {
            self.set_section(section.data_reader());
        }
    }

    fn add_import(&mut self, ty: &TypeRef) -> Result<()>
        ensures ok { OnOk result
            (texts_of self.new.list ≡ add_imported_name (texts_of self.old.list) ty.now) }
        ensures memory { IfErr result (λ e. fault_at e ≡ out_of_memory) }
    {
        match ty {
            TypeRef::Func(_) | TypeRef::FuncExact(_) => self.add(),
            _ => Ok(()),
        }
    }

    fn add_imports(&mut self, section: ImportSectionReader<'a>) -> Result<()>
        ensures { FoldsTo (add_imported (texts_of self.old.list) (imports_of section.entry))
            result (texts_of self.new.list) }
    {
        for import in section.into_imports() {
            self.add_import(&import?.ty)?;
        }
        Ok(())
    }

    fn take(&mut self, payload: Payload<'a>) -> Result<()>
        ensures { ItemsBegin payload.entry → FoldsTo
            (names_after (texts_of self.old.list) (report_of payload.entry))
            result (texts_of self.new.list) }
    {
        match payload {
            Payload::ImportSection(section) => self.add_imports(section),
            Payload::CodeSectionEntry(_body) => self.add(),
            Payload::CustomSection(section) => {
                self.set_custom(section);
                Ok(())
            }
            _other => Ok(()),
        }
    }
}

#[tactic(auto, using(crate::proofs::Folding::begun))]
/// Returns the name of each function of a module, if it has one: first of the imported functions, then of its own.
///
/// A name section names functions that come before it. If a function has two names, the later one counts. A name that is
/// malformed or out of order is skipped.
///
/// # Errors
///
/// The fault of the stream or of an import, or `OutOfMemory`.
pub fn function_names<'a>(alloc: Global, bytes: &'a [u8]) -> Result<Vec<Option<&'a str>>>
    // Proved: a printer, `function_names`, has the name of every function of a module, imported or
    //   its own, that the name sections after it give it, or none; or it returns the first fault of
    //   the stream or of an import, or an allocation failed [`AreNames` (`names_after`)]
    // Proved: names out of order or past the functions are ignored, and a fault in a name section
    //   ends only its list
    ensures { AreNames bytes.now result }
{
    let mut names = Names {
        alloc,
        list: Vec::new(alloc),
    };
    for payload in Parser::new(0).parse_all(bytes) {
        names.take(payload?)?;
    }
    let Names { list, .. } = names;
    Ok(list)
}
