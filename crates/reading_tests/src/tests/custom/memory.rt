// Custom sections and subsections whose allocations fail in turn.
ghost use Rattle.std.specs.Prelude.{◌+◌, ◌<◌, ◌^◌, length};

use crate::tests::{same, same_at, window};
use std::alloc::{Allocator, Global};
use std::process::Abort;
use std::test::Fail;
use test_devices::Sparing;
use wasm_base::{BinaryReader, Error, Fault, Result, Subsection};
use wasm_custom::{CustomSectionReader, Dylink0Subsection, KnownCustom};

/// More blocks than any of the sections takes.
const AMPLE: u64 = 40;

// Which section is known, and how many items it has.
fn kind_of<A: Allocator>(known: &KnownCustom<'_, A>) -> (&'static str, usize) {
    match known {
        KnownCustom::CoreDumpStack(section) => ("core stack", section.frames.len()),
        KnownCustom::CoreDumpInstances(section) => ("core instances", section.instances.len()),
        KnownCustom::CoreDumpModules(section) => ("core modules", section.modules.len()),
        _other => ("another", 0),
    }
}

// What a section is whose lists are in this allocator.
fn kind_in<A: Allocator + Copy>(
    alloc: Global,
    heap: A,
    section: &CustomSectionReader<'_>,
) -> Result<(&'static str, usize)> {
    Ok(kind_of(&section.as_known_in(alloc, heap)?))
}

// What a section is with this many blocks, or `None` if they don't suffice: the error is `OutOfMemory` then.
fn kind_with(
    rt: &impl Abort,
    alloc: Global,
    section: &CustomSectionReader<'_>,
    blocks: u64,
) -> Option<(&'static str, usize)> {
    let heap = Sparing::new(alloc, blocks);
    match kind_in(alloc, &heap, section) {
        Ok(kind) => Some(kind),
        Err(e) => {
            same_at(rt, e, Error::new(Fault::OutOfMemory, 0), &blocks);
            None
        }
    }
}

// Each allocation of a section of this kind fails in turn.
fn runs_out(rt: &impl Abort, alloc: Global, bytes: &[u8], kind: (&'static str, usize), least: u64)
    requires { 8 + length bytes.now < 2 ^ 64 }
{
    let section = CustomSectionReader::new(window(bytes, 8)).expect(rt, "a fault");
    same(rt, kind_in(alloc, alloc, &section), Ok(kind));
    let mut refused = 0;
    for blocks in 0..AMPLE {
        if let Some(found) = kind_with(rt, alloc, &section, blocks) {
            same(rt, found, kind);
            refused = blocks;
            break;
        }
    }
    assert!(rt; refused >= least, "{refused}");
}

// The names of the modules of a core dump, if the section is known as that.
fn modules_of<'a>(known: KnownCustom<'a>) -> Option<Vec<&'a str>> {
    match known {
        KnownCustom::CoreDumpModules(section) => Some(section.modules),
        _other => None,
    }
}

const MODULES: &[u8] = b"\x0bcoremodules\x01\x00\x04test";

#[test]
fn modules_of_a_core_dump(rt: HostRuntime) -> std::result::Result<(), Fail> {
    let section = CustomSectionReader::new(window(MODULES, 0))?;
    let modules = modules_of(section.as_known(rt.alloc())?).ok_or("unknown")?;
    same(&rt, modules.as_slice(), ["test"].as_slice());
    Ok(())
}

#[test]
fn sections_whose_memory_runs_out(rt: HostRuntime) {
    runs_out(&rt, rt.alloc(), MODULES, ("core modules", 1), 1);
    let bytes = b"\x0bcoremodules\x06\x00\x00\x00\x00\x00\x00\x00\x00\x00\x00\x00\x00";
    runs_out(&rt, rt.alloc(), bytes, ("core modules", 6), 2);
    let bytes = b"\x0dcoreinstances\x02\x00\x02\x01\x00\x01\x03\x00\x02\x01\x00\x01\x03";
    runs_out(&rt, rt.alloc(), bytes, ("core instances", 2), 5);
    let bytes = b"\x09corestack\x00\x00\x01\x00\x04\x2a\x33\x01\x01\x01\x01";
    runs_out(&rt, rt.alloc(), bytes, ("core stack", 1), 3);
}

// Whether this many blocks suffice for the list of a subsection. If not, the error is `OutOfMemory`.
fn suffices(rt: &impl Abort, alloc: Global, id: u8, bytes: &[u8; 13], blocks: u64) -> bool {
    let heap = Sparing::new(alloc, blocks);
    match Dylink0Subsection::from_reader_in(&heap, id, window(bytes, 8)) {
        Ok(_) => true,
        Err(e) => {
            same_at(rt, e, Error::new(Fault::OutOfMemory, 0), &blocks);
            false
        }
    }
}

// Each allocation of a list fails in turn.
fn list_runs_out(rt: &impl Abort, alloc: Global, id: u8, bytes: &[u8; 13], least: u64) {
    let mut refused = 0;
    for blocks in 0..9 {
        if suffices(rt, alloc, id, bytes, blocks) {
            refused = blocks;
            break;
        }
    }
    assert!(rt; refused >= least, "{refused}");
}

// A list of this many items, each of zeros.
fn zeros(count: u8) -> [u8; 13] {
    [count, 0, 0, 0, 0, 0, 0, 0, 0, 0, 0, 0, 0]
}

#[test]
fn lists_whose_memory_runs_out(rt: HostRuntime) {
    list_runs_out(&rt, rt.alloc(), 2, &zeros(12), 2);
    list_runs_out(&rt, rt.alloc(), 5, &zeros(12), 2);
    list_runs_out(&rt, rt.alloc(), 3, &zeros(6), 2);
    list_runs_out(&rt, rt.alloc(), 4, &zeros(4), 1);
}

/// Two subsections with a list each: the library "a" is needed, and "f" is exported with a local binding.
const DYLINK: &[u8; 11] = b"\x02\x03\x01\x01a\x03\x04\x01\x01f\x02";

// A subsection as text, if it is one of these two.
fn name_in<A: Allocator>(subsection: &Dylink0Subsection<'_, A>) -> Option<(&'static str, usize)> {
    match subsection {
        Dylink0Subsection::Needed(names) => Some(("needed", names.len())),
        Dylink0Subsection::ExportInfo(exports) => Some(("exports", exports.len())),
        _other => None,
    }
}

// The next subsection of a section whose lists are in this allocator.
fn next_in<A: Allocator>(
    heap: A,
    section: &mut BinaryReader<'_>,
) -> Result<Option<(&'static str, usize)>> {
    let id = section.read_u7()?;
    let content = section.read_reader()?;
    Ok(name_in(&Dylink0Subsection::from_reader_in(heap, id, content)?))
}

// Asserts that the section is the two subsections, and returns true; or returns false if this many blocks do not suffice: the
// error is `OutOfMemory` then.
fn section_suffices(rt: &impl Abort, alloc: Global, blocks: u64) -> bool {
    let heap = Sparing::new(alloc, blocks);
    let mut section = BinaryReader::new(DYLINK, 0);
    for wanted in [("needed", 1), ("exports", 1)] {
        match next_in(&heap, &mut section) {
            Ok(found) => same_at(rt, found, Some(wanted), &blocks),
            Err(e) => {
                same_at(rt, e, Error::new(Fault::OutOfMemory, 0), &blocks);
                return false;
            }
        }
    }
    same(rt, section.eof(), true);
    true
}

// The section takes two blocks, one for each list, and each of them is refused.
#[test]
fn a_section_for_a_dynamic_linker_whose_memory_runs_out(rt: HostRuntime) {
    for (blocks, wanted) in [(0, false), (1, false), (2, true)] {
        same_at(
            &rt,
            section_suffices(&rt, rt.alloc(), blocks),
            wanted,
            &blocks,
        );
    }
}
