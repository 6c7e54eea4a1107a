//! Laws of encodings, each the contract of a function that does nothing.
ghost use Rattle.std.specs.Prelude.{◌<◌, ◌^◌, All, length};
ghost use Rattle.wasm_encode.specs.Frames.{NumbersAreFrames, SectionsAreFrames};
ghost use Rattle.wasm_encode.specs.Imports.{ImportFits};
ghost use Rattle.wasm_items.specs.Imports.{import_parts};
ghost use Rattle.wasm_encode.specs.Laws.{ImportsBack, ModulesAreRead, NumbersAreCopied, SignedNumbersReadBack, UnsignedNumbersReadBack};

use crate::sections::section_reads_back;
use wasm_items::Import;

/// An encoded unsigned number is read as that number, wherever it is, and takes exactly its bytes.
pub fn unsigned_numbers_read_back()
    // Proved: an encoded number that fits its kind is read as that number, unsigned or signed
    //   [`laws::unsigned_numbers_read_back`, `signed_numbers_read_back`]
    ensures { UnsignedNumbersReadBack }
{}

/// An encoded signed number is read as that number, wherever it is, and takes exactly its bytes.
pub fn signed_numbers_read_back()
    ensures { SignedNumbersReadBack }
{}

/// The content of an import section, at any offset, is read as its count and exactly these imports, by readers whose
/// features allow their limits.
pub fn import_sections_read_back(imports: &[Import<'_>])
    requires fits { All (λ i. ImportFits (import_parts i)) imports.now }
    requires few { length imports.now < 2 ^ 32 }
    // Proved: an import section that was written is read as exactly the given imports
    ensures { ImportsBack imports.now }
{
    section_reads_back(imports)
}

/// Copying the bytes of an unsigned number that was read writes the number, also if they are more than it takes.
pub fn numbers_are_copied()
    // Proved: the bytes of a number that was read, shortest or not, are read as it wherever they are
    //   copied to
    ensures { NumbersAreCopied }
{}

/// A section of counted items is a well-formed section of a module.
pub fn sections_are_frames()
    // Proved: a section of counted items that was written is a well-formed section of a module
    ensures { SectionsAreFrames }
{}

/// A section that is one number is a well-formed section of a module.
pub fn number_sections_are_frames()
    // Proved: a section that is one number and was written is a well-formed section of a module
    ensures { NumbersAreFrames }
{}

/// The reading of a module that was written is the events of its header, of its sections in their order, and its end.
///
/// What a section of items is read as, `section_reads_back` says.
pub fn modules_are_read()
    // Proved: the reading of a module that was written is its header, its sections in the order in which they were
    //   added, each at its offset, and its end [`laws::modules_are_read` (`ModulesAreRead`)]
    ensures { ModulesAreRead }
{}
