// The data of known custom sections, by the section's name.
ghost use Rattle.std.specs.Prelude.{◌≡◌, false, IfOk, IfErr, is_err, codes, nat_eq};
ghost use Rattle.std.specs.List.{starts_with};
ghost use Rattle.wasm_base.specs.FaultAt.{fault_at};
ghost use Rattle.wasm_base.specs.Hints.{NotOutOfMemory, is_out_of_memory};
ghost use Rattle.wasm_base.specs.Outcome.{GivesResult};
ghost use Rattle.wasm_base.specs.Owned.{GivesResultUnlessMemory, out_of_memory};
ghost use Rattle.wasm_custom.specs.Known.{unknown, known_parts, known_of, owns_lists, branch_hints_in, producers_in, core_dump_in, core_modules_in, core_instances_in, core_stack_in, linking_section_in, reading_of, relocations_in};

use crate::branch_hinting::BranchHintSectionReader;
use crate::coredumps::{
    CoreDumpInstancesSection, CoreDumpModulesSection, CoreDumpSection, CoreDumpStackSection,
};
use crate::custom::CustomSectionReader;
use crate::dylink0::Dylink0SectionReader;
use crate::linking::LinkingSectionReader;
use crate::names::NameSectionReader;
use crate::producers::ProducersSectionReader;
use crate::reloc::RelocSectionReader;
use std::alloc::{Allocator, Global};
use wasm_base::{BinaryReader, Error, Result, SectionLimited, Subsections, only_out_of_memory};

/// The data of a custom section, read as the name of the section says.
///
/// `CustomSectionReader::as_known` returns it. The readers in the variants are lazy, except those of core dumps: these
/// own what they read.
///
/// ```rattle
/// // A core dump that lists one module.
/// let bytes = b"\x0bcoremodules\x01\x00\x04test";
/// let section = CustomSectionReader::new(BinaryReader::new(bytes, 0))?;
/// match section.as_known(alloc)? {
///     KnownCustom::CoreDumpModules(dump) => assert_eq!(rt; dump.modules.as_slice(), ["test"].as_slice()),
///     _ => assert!(rt; false),
/// }
/// ```
#[derive(Drop)]
pub enum KnownCustom<'a, A: Allocator = Global> {
    /// The section `name`: the names of functions, locals and other parts of the module.
    Name(NameSectionReader<'a>),
    /// The section `metadata.code.branch_hint`: which branches are likely to be taken.
    BranchHints(BranchHintSectionReader<'a>),
    /// The section `producers`: the languages and tools that the module was produced with.
    Producers(ProducersSectionReader<'a>),
    /// The section `dylink.0`: what a dynamic linker needs.
    Dylink0(Dylink0SectionReader<'a>),
    /// The section `core`: the process of a core dump.
    CoreDump(CoreDumpSection<'a>),
    /// The section `corestack`: a thread of a core dump, with its frames.
    CoreDumpStack(CoreDumpStackSection<'a, A>),
    /// The section `coreinstances`: the instances of a core dump.
    CoreDumpInstances(CoreDumpInstancesSection<A>),
    /// The section `coremodules`: the modules of a core dump.
    CoreDumpModules(CoreDumpModulesSection<'a, A>),
    /// The section `linking`: the symbols and other information of an object file.
    Linking(LinkingSectionReader<'a>),
    /// A section whose name begins with `reloc.`: the relocations of another section.
    Reloc(RelocSectionReader<'a>),
    /// A section with another name, or one whose data the reader for its name rejects.
    Unknown,
}

// Whether a section has relocations, by its name.
fn has_relocations(name: &str) -> bool
    ensures { result ≡ starts_with nat_eq name.now (codes "reloc.") }
{
    name.starts_with("reloc.")
}

fn branch_hints<'a, A: Allocator>(window: BinaryReader<'a>) -> Result<KnownCustom<'a, A>>
    ensures gives { GivesResult known_parts result (branch_hints_in window.entry) }
    ensures memory { NotOutOfMemory result }
{
    Ok(KnownCustom::BranchHints(SectionLimited::new(window)?))
}

fn producers<'a, A: Allocator>(window: BinaryReader<'a>) -> Result<KnownCustom<'a, A>>
    ensures gives { GivesResult known_parts result (producers_in window.entry) }
    ensures memory { NotOutOfMemory result }
{
    Ok(KnownCustom::Producers(SectionLimited::new(window)?))
}

fn core_dump<'a, A: Allocator>(window: BinaryReader<'a>) -> Result<KnownCustom<'a, A>>
    ensures gives { GivesResult known_parts result (core_dump_in window.entry) }
    ensures memory { NotOutOfMemory result }
{
    Ok(KnownCustom::CoreDump(CoreDumpSection::new(window)?))
}

fn linking<'a, A: Allocator>(kept: Global, window: BinaryReader<'a>) -> Result<KnownCustom<'a, A>>
    ensures gives { GivesResult known_parts result (linking_section_in window.entry) }
    ensures memory { NotOutOfMemory result }
{
    Ok(KnownCustom::Linking(LinkingSectionReader::new(kept, window)?))
}

fn relocations<'a, A: Allocator>(window: BinaryReader<'a>) -> Result<KnownCustom<'a, A>>
    ensures gives { GivesResult known_parts result (relocations_in window.entry) }
    ensures memory { NotOutOfMemory result }
{
    Ok(KnownCustom::Reloc(RelocSectionReader::new(window)?))
}

fn core_modules<'a, A: Allocator + Copy>(
    alloc: A,
    window: BinaryReader<'a>,
) -> Result<KnownCustom<'a, A>>
    ensures { GivesResultUnlessMemory known_parts result (core_modules_in window.entry) }
{
    Ok(KnownCustom::CoreDumpModules(CoreDumpModulesSection::new_in(alloc, window)?))
}

fn core_instances<'a, A: Allocator + Copy>(
    alloc: A,
    window: BinaryReader<'a>,
) -> Result<KnownCustom<'a, A>>
    ensures { GivesResultUnlessMemory known_parts result (core_instances_in window.entry) }
{
    Ok(KnownCustom::CoreDumpInstances(CoreDumpInstancesSection::new_in(alloc, window)?))
}

fn core_stack<'a, A: Allocator + Copy>(
    alloc: A,
    window: BinaryReader<'a>,
) -> Result<KnownCustom<'a, A>>
    ensures { GivesResultUnlessMemory known_parts result (core_stack_in window.entry) }
{
    Ok(KnownCustom::CoreDumpStack(CoreDumpStackSection::new_in(alloc, window)?))
}

// Converts an error of a section's reader: malformed data makes the section `Unknown`, and `OutOfMemory` is returned as a new
// error, at offset 0 whatever the reader reported. So `refused` needs nothing about that error.
fn unknown_but_for_memory<'a, A: Allocator>(error: Error) -> Result<KnownCustom<'a, A>>
    ensures known { IfOk result (λ known. known_parts known ≡ unknown) }
    ensures other { is_out_of_memory (fault_at error).fault ≡ is_err result }
    ensures refused { IfErr result (λ e. fault_at e ≡ out_of_memory) }
{
    only_out_of_memory(error)?;
    Ok(KnownCustom::Unknown)
}

impl<'a> CustomSectionReader<'a> {
    /// Returns a reader for the data, selected by the name of the section.
    ///
    /// The result is `Unknown` if the name is not known, or if the `new` of the selected reader returns an error. Only
    /// `coremodules`, `coreinstances` and `corestack` allocate. The subsections of `dylink.0` allocate later, when you
    /// iterate over them.
    ///
    /// # Errors
    ///
    /// `OutOfMemory`, at offset 0, when an allocation fails. There is no other error: malformed data is `Unknown`.
    ///
    /// ```rattle
    /// // A section `core` has to begin with the byte 0.
    /// let section = CustomSectionReader::new(BinaryReader::new(b"\x04core\x01", 0))?;
    /// let known = section.as_known(alloc)?;
    /// assert!(rt; matches!(known, KnownCustom::Unknown));
    /// ```
    pub fn as_known(&self, alloc: Global) -> Result<KnownCustom<'a>>
        // Proved: `as_known` returns what a custom section is by its name and data; its only error
        //   is `OutOfMemory` [`known` (`known_of`), `refused`]
        // Proved: `as_known` returns the reader for the section's name, on its data; `Unknown` for
        //   another name, or if `new` of that reader has a fault [`known` (`known_of`)]
        ensures known { IfOk result (λ known. known_parts known ≡ known_of self.now) }
        ensures refused { IfErr result (λ e. fault_at e ≡ out_of_memory) }
        // Proved: only `coremodules`, `coreinstances` and `corestack` may return `OutOfMemory`
        ensures memory { owns_lists self.now.name ≡ false → NotOutOfMemory result }
    {
        self.as_known_in(alloc, alloc)
    }

    /// Returns a reader for the data like `as_known`, with `alloc` for the lists of core dumps.
    ///
    /// A reader of subsections keeps `kept`, the allocator for the lists of the subsections that it will read.
    ///
    /// # Errors
    ///
    /// Those of `as_known`.
    pub fn as_known_in<A: Allocator + Copy>(
        &self,
        kept: Global,
        alloc: A,
    ) -> Result<KnownCustom<'a, A>>
        // Proved: `as_known_in` does the same with any allocator [`known`, `refused`, `memory`]
        ensures known { IfOk result (λ known. known_parts known ≡ known_of self.now) }
        ensures refused { IfErr result (λ e. fault_at e ≡ out_of_memory) }
        ensures memory { owns_lists self.now.name ≡ false → NotOutOfMemory result }
    {
        match self.read_known_in(kept, alloc) {
            Ok(known) => Ok(known),
            Err(error) => unknown_but_for_memory(error),
        }
    }

    /// Returns a reader for the data like `as_known`, but reports malformed data instead of returning `Unknown`.
    ///
    /// The result is `Unknown` only if the name is not known.
    ///
    /// # Errors
    ///
    /// * The fault of the `new` of the reader that the name selects, at its offset in bytes from the start of the stream.
    /// * `OutOfMemory`, at offset 0, when an allocation fails.
    ///
    /// ```rattle
    /// // A section `core` has to begin with the byte 0.
    /// let section = CustomSectionReader::new(BinaryReader::new(b"\x04core\x01", 0))?;
    /// match section.read_known(alloc) {
    ///     Err(error) => assert_eq!(rt; error.offset(), 5),
    ///     Ok(_) => assert!(rt; false),
    /// }
    /// ```
    pub fn read_known(&self, alloc: Global) -> Result<KnownCustom<'a>>
        // Proved: `read_known` returns the same reader as `as_known`, or the fault of its `new`
        //   [`gives` (`reading_of`), `memory`]
        ensures gives { GivesResultUnlessMemory known_parts result (reading_of self.now) }
        ensures memory { owns_lists self.now.name ≡ false → NotOutOfMemory result }
    {
        self.read_known_in(alloc, alloc)
    }

    // Returns a reader for the data, with `alloc` for the lists of core dumps.
    fn read_known_in<A: Allocator + Copy>(
        &self,
        kept: Global,
        alloc: A,
    ) -> Result<KnownCustom<'a, A>>
        ensures gives { GivesResultUnlessMemory known_parts result (reading_of self.now) }
        ensures memory { owns_lists self.now.name ≡ false → NotOutOfMemory result }
    {
        let data = self.data_reader();
        match self.name() {
            "name" => Ok(KnownCustom::Name(NameSectionReader::new(kept, data))),
            "metadata.code.branch_hint" => branch_hints(data),
            "producers" => producers(data),
            "dylink.0" => Ok(KnownCustom::Dylink0(Subsections::new(kept, data))),
            "core" => core_dump(data),
            "coremodules" => core_modules(alloc, data),
            "coreinstances" => core_instances(alloc, data),
            "corestack" => core_stack(alloc, data),
            "linking" => linking(kept, data),
            name if has_relocations(name) => relocations(data),
            _ => Ok(KnownCustom::Unknown),
        }
    }
}
