// Walks over the items of a section.
ghost use Rattle.std.specs.Prelude.{◌≡◌, Ok, Err, MatchResult};
ghost use Rattle.wasm_base.specs.FaultAt.{fault_at};
ghost use Rattle.wasm_base.specs.Owned.{UnlessMemory};
ghost use Rattle.wasm_base.specs.Section.{Walks};
ghost use Rattle.wasm_base.specs.Window.{place};
ghost use Rattle.wasm_examples.specs.Imported.{imports_of, memory_in};
ghost use Rattle.wasm_examples.specs.Totals.{total_at};

use std::alloc::Global;
use wasm_base::{FromReader, FromReaderIn, Result, SectionLimited};
use wasm_items::{ImportSection, ImportSectionReader, TypeRef};

/// Returns the sum of the numbers of a section, or the first fault.
#[tactic(auto, using(crate::proofs::Items::item_came, crate::proofs::Items::items_over))]
pub fn total(numbers: SectionLimited<'_, u32>) -> Result<u64>
    // Proved: `total` adds up a section of numbers
    ensures { let sum = total_at numbers.entry.count (place numbers.entry.reader) in
        MatchResult result (λ n. sum ≡ Ok n) (λ e. sum ≡ Err (fault_at e)) }
{
    let mut total = 0;
    for number in numbers {
        total += u64::from(number?);
    }
    Ok(total)
}

/// Checks that all announced items can be read and that no bytes follow them. Returns the first fault otherwise.
pub fn check<'a, T: FromReader<'a>>(section: SectionLimited<'a, T>) -> Result<()>
    // Proved: `check` and `check_in` read any section to its end, the second one with items that
    //   own lists
    ensures { Walks T.meaning section.entry.count (place section.entry.reader) result }
{
    for item in section {
        let _ = item?;
    }
    Ok(())
}

/// Like `check`, for items that own lists, such as types. A failed allocation ends the walk with `OutOfMemory`.
pub fn check_in<'a, T: FromReaderIn<'a>>(
    section: SectionLimited<'a, T>,
    alloc: Global,
) -> Result<()>
    ensures { Walks (UnlessMemory T.meaning) section.entry.count (place section.entry.reader) result }
{
    for one in section.into_iter_in(alloc) {
        let _ = one?;
    }
    Ok(())
}

/// Returns whether a module imports a memory, separately or in a bundle, or the first fault before such an import.
pub fn imports_memory(section: ImportSectionReader<'_>) -> Result<bool>
    // Proved: `imports_memory` returns whether an import section has a memory, alone or in a
    //   bundle, before its first fault, or that fault
    ensures { let found = memory_in (imports_of section.entry) in
        MatchResult result (λ some. found ≡ Ok some) (λ e. found ≡ Err (fault_at e)) }
{
    for import in section.into_imports() {
        if let TypeRef::Memory(_) = import?.ty {
            return Ok(true);
        }
    }
    Ok(false)
}
