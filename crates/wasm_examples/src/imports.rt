// The imports of a module, as text.
ghost use Rattle.std.specs.Prelude.{◌≡◌, ◌++◌, OnOk, IfErr, string_bytes};
ghost use Rattle.wasm_base.specs.FaultAt.{fault_at};
ghost use Rattle.wasm_base.specs.Owned.{out_of_memory};
ghost use Rattle.wasm_items.specs.Imports.{import_parts};
ghost use Rattle.wasm_parser.specs.ParseAnswer.{report_of, ItemsBegin};
ghost use Rattle.wasm_examples.specs.Folding.{FoldsTo};
ghost use Rattle.wasm_examples.specs.Imported.{imports_of};
ghost use Rattle.wasm_examples.specs.ImportsText.{import_line, with_lines, with_part, IsImportsText};

use std::alloc::Global;
use wasm_base::{Error, Fault, Result};
use wasm_items::{Import, ImportSection, ImportSectionReader};
use wasm_parser::{Parser, Payload};

#[tactic(auto, using(crate::proofs::Folding::begun))]
/// Returns a line for each import of a module: the name of the module that it comes from, a blank, and its own name.
///
/// # Errors
///
/// The fault of the stream or of an import, or `OutOfMemory`.
pub fn imports_text(alloc: Global, bytes: &[u8]) -> Result<String>
    // Proved: `imports_text` writes a line for each import of the stream's reading, or returns the
    //   first fault of the stream or of an import, or an allocation failed [`IsImportsText`
    //   (`with_part`)]
    ensures { IsImportsText bytes.now result }
{
    let mut text = String::new(alloc);
    for payload in Parser::new(0).parse_all(bytes) {
        add_payload(&mut text, payload?)?;
    }
    Ok(text)
}

// Adds the imports of a payload.
fn add_payload(text: &mut String, payload: Payload<'_>) -> Result<()>
    ensures { ItemsBegin payload.entry → FoldsTo
        (with_part (string_bytes text.old) (report_of payload.entry))
        result (string_bytes text.new) }
{
    match payload {
        Payload::ImportSection(section) => add_imports(text, section),
        _other => Ok(()),
    }
}

// Adds a line for each import of a section.
fn add_imports(text: &mut String, section: ImportSectionReader<'_>) -> Result<()>
    ensures { FoldsTo (with_lines (string_bytes text.old) (imports_of section.entry))
        result (string_bytes text.new) }
{
    for import in section.into_imports() {
        add_line(text, import?)?;
    }
    Ok(())
}

// Adds the line of an import.
fn add_line(text: &mut String, import: Import<'_>) -> Result<()>
    ensures ok { OnOk result
        (string_bytes text.new ≡ string_bytes text.old ++ import_line (import_parts import.entry)) }
    ensures memory { IfErr result (λ e. fault_at e ≡ out_of_memory) }
{
    add(text, import.module)?;
    add(text, " ")?;
    add(text, import.name)?;
    add(text, "\n")
}

// Adds a part of a line.
fn add(text: &mut String, part: &str) -> Result<()>
    ensures ok { OnOk result (string_bytes text.new ≡ string_bytes text.old ++ part.now) }
    ensures memory { IfErr result (λ e. fault_at e ≡ out_of_memory) }
{
    match text.push_str(part) {
        Ok(()) => Ok(()),
        Err(_) => Err(Error::new(Fault::OutOfMemory, 0)),
    }
}
