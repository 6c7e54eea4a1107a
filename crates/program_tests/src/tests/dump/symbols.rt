// Dumps of an object file with the names that its symbols give.
use super::dumps::dumps;
use super::named::{Form, dumped};
use super::names::names_in;
use std::alloc::Global;
use std::process::Abort;
use std::test::Fail;
use wasm_dumper::Only;
use wasm_output::Space;
use wasm_streams::Ended;

/// An imported function without a name of its own, a function of the module, data of another module, and a section.
const OBJECT: &[u8] =
    b"\0asm\x01\0\0\0\x01\x04\x01`\0\0\x02\x0b\x01\x03env\x03log\0\0\x03\x02\x01\0\x0a\x0a\x01\x08\0\x10\x80\x80\x80\x80\0\x0b\0\x07\x06.debug\0$\x07linking\x02\x08\x12\x04\0\x10\0\0\0\x01\x03run\x01\x10\x01s\x03\x02\x04\x06\x05\x01\xff\xff\x03\x01\0\x1b\x0areloc.CODE\x03\x04\0\x04\0\x06\x04\0\x05\x14\x02\x08\x09\0\x03\0";

/// The lines of its dump before the relocations, with the names of items.
const BEFORE: &[u8] = b"version 0 8 1 module
section 1 10 14 1 type size=4
  11 type[0] type=(func)
section 2 16 27 1 import size=11
  17 func[0] \"log\" module=\"env\" name=\"log\" ty=func index=0
section 3 29 31 1 function size=2
  30 func[1] \"run\" index=0
code 33 43 1 9 size=10
body 35 43 size=8 func[1] \"run\"
custom 45 52 52 size=7 \".debug\"
  section name=\".debug\" unknown
custom 54 90 62 size=36 \"linking\"
  section name=\"linking\" version=2 range=62..90 subsections=63
    63 symbol_table=65..83 count=4
      66 symbol[0] \"log\" func flags=UNDEFINED index=0
      69 symbol[1] func flags=0 index=1 name=\"run\"
      76 symbol[2] data flags=UNDEFINED name=\"s\" undefined
      80 symbol[3] \".debug\" section flags=BINDING_LOCAL section=4
    83 init_funcs=85..90 count=1
      86 priority=65535 symbol_index=1 \"run\"
";

/// The relocations.
const RELOCATIONS: &[u8] = b"custom 92 119 103 size=27 \"reloc.CODE\"
  section name=\"reloc.CODE\" section=3 range=103..119 entries=104..119 count=4
    105 type=R_WASM_FUNCTION_INDEX_LEB offset=4 index=0 addend=0 \"log\"
    108 type=R_WASM_TYPE_INDEX_LEB offset=4 index=0 addend=0
    111 type=R_WASM_MEMORY_ADDR_I32 offset=20 index=2 addend=8 \"s\"
    115 type=R_WASM_SECTION_OFFSET_I32 offset=0 index=3 addend=0";

/// The name of the section in the last one, and the end.
const NAMED: &[u8] = b" \".debug\"\nend 119\n";

/// The end if that section has no name.
const UNNAMED: &[u8] = b"\nend 119\n";

#[test]
fn symbols_name_items_and_relocations(rt: HostRuntime) -> Result<(), Fail> {
    let text = dumped(rt.alloc(), OBJECT, Form::Named)?;
    let wanted = [BEFORE, RELOCATIONS, NAMED].concat(rt.alloc())?;
    assert_eq!(rt; text.as_slice(), wanted.as_slice());
    Ok(())
}

// Items have no names in this form, but relocations do.
#[test]
fn relocations_always_have_the_names_of_symbols(rt: HostRuntime) -> Result<(), Fail> {
    let text = dumped(rt.alloc(), OBJECT, Form::Lines)?;
    let wanted = [RELOCATIONS, NAMED].concat(rt.alloc())?;
    assert!(rt; text.as_slice().ends_with(wanted.as_slice()));
    Ok(())
}

// The dump of these sections of the object file has these parts.
fn chosen(rt: &impl Abort, alloc: Global, only: &[Only<'_>], parts: &[&[u8]]) -> Result<(), Fail> {
    let text = parts.concat(alloc)?;
    dumps(rt, alloc, only, OBJECT, Ok(Ended::End), text.as_slice())
}

// The symbols are read though they are not shown. Of sections that are not shown no name is known, however they come.
#[test]
fn relocations_alone_have_names(rt: HostRuntime) -> Result<(), Fail> {
    let only = [Only::Name("reloc.CODE")];
    chosen(&rt, rt.alloc(), &only, &[RELOCATIONS, UNNAMED])
}

// The section of a symbol is counted among others, of which some are skipped.
#[test]
fn shown_sections_name_their_symbols(rt: HostRuntime) -> Result<(), Fail> {
    let only = [Only::Name(".debug"), Only::Name("reloc.CODE")];
    let debug =
        b"custom 45 52 52 size=7 \".debug\"\n  section name=\".debug\" unknown\n".as_slice();
    chosen(&rt, rt.alloc(), &only, &[debug, RELOCATIONS, NAMED])
}

const HEADER: &[u8] = b"\0asm\x01\0\0\0";

/// A relocation with the index 0.
const RELOCATION: &[u8] = b"\0\x10\x0areloc.CODE\x03\x01\0\x04\0";

/// A table of a symbol.
const SYMBOL: &[u8] = b"\0\x11\x07linking\x02\x08\x06\x01\0\0\x05\x01f";

const RELOCATION_FIRST: &[u8] = b"version 0 8 1 module
custom 10 26 21 size=16 \"reloc.CODE\"
  section name=\"reloc.CODE\" section=3 range=21..26 entries=22..26 count=1
    23 type=R_WASM_FUNCTION_INDEX_LEB offset=4 index=0 addend=0
custom 28 45 36 size=17 \"linking\"
  section name=\"linking\" version=2 range=36..45 subsections=37
    37 symbol_table=39..45 count=1
      40 symbol[0] func flags=0 index=5 name=\"f\"
end 45
";

// A relocation before its symbol has no name yet.
#[test]
fn a_relocation_before_its_symbol_has_no_name(rt: HostRuntime) -> Result<(), Fail> {
    let stream = [HEADER, RELOCATION, SYMBOL].concat(rt.alloc())?;
    let text = dumped(rt.alloc(), stream.as_slice(), Form::Lines)?;
    assert_eq!(rt; text.as_slice(), RELOCATION_FIRST);
    Ok(())
}

/// The same table in a section with another name.
const LYNKING: &[u8] = b"\0\x11\x07lynking\x02\x08\x06\x01\0\0\x05\x01f";

const RELOCATION_LAST: &[u8] = b"version 0 8 1 module
custom 10 27 18 size=17 \"lynking\"
  section name=\"lynking\" unknown
custom 29 45 40 size=16 \"reloc.CODE\"
  section name=\"reloc.CODE\" section=3 range=40..45 entries=41..45 count=1
    42 type=R_WASM_FUNCTION_INDEX_LEB offset=4 index=0 addend=0
end 45
";

// Only a section called `linking` has symbols, whatever is in another.
#[test]
fn other_sections_have_no_symbols(rt: HostRuntime) -> Result<(), Fail> {
    let stream = [HEADER, LYNKING, RELOCATION].concat(rt.alloc())?;
    let text = dumped(rt.alloc(), stream.as_slice(), Form::Lines)?;
    assert_eq!(rt; text.as_slice(), RELOCATION_LAST);
    Ok(())
}

/// The last lines of the objects of JSON, with the names of items.
const OBJECTS: &[u8] =
    b"{\"level\":2,\"at\":111,\"type\":\"R_WASM_MEMORY_ADDR_I32\",\"offset\":20,\"index\":2,\"addend\":8,\"item_name\":\"s\"}
{\"level\":2,\"at\":115,\"type\":\"R_WASM_SECTION_OFFSET_I32\",\"offset\":0,\"index\":3,\"addend\":0,\"item_name\":\".debug\"}
{\"event\":\"end\",\"offset\":119}
";

// A relocation has the name of its symbol as a member too.
#[test]
fn objects_have_the_names_of_symbols(rt: HostRuntime) -> Result<(), Fail> {
    let text = dumped(rt.alloc(), OBJECT, Form::NamedObjects)?;
    assert!(rt; text.as_slice().ends_with(OBJECTS));
    Ok(())
}

// A section `name`, before or after, has the only names of items. Symbols have theirs anyway.
#[test]
fn a_section_of_names_comes_first(rt: HostRuntime) -> Result<(), Fail> {
    let names = b"\0\x0b\x04name\x01\x04\x01\0\x01n".as_slice();
    let (header, sections) = OBJECT.split_at(8);
    for parts in [[header, names, sections], [header, sections, names]] {
        let stream = parts.concat(rt.alloc())?;
        let found = names_in(rt.alloc(), stream.as_slice())?;
        assert_eq!(rt; found.of(Space::Functions, 0), Some("n"));
        assert_eq!(rt; found.of(Space::Functions, 1), None);
        assert_eq!(rt; found.of(Space::Symbols, 0), Some("log"));
        assert_eq!(rt; found.of(Space::Symbols, 1), Some("run"));
        assert_eq!(rt; found.of(Space::Symbols, 4), None);
    }
    Ok(())
}

// Names of symbols end at the first fault of their table, those of segments at that of theirs.
#[test]
fn names_of_symbols_end_at_a_fault(rt: HostRuntime) -> Result<(), Fail> {
    // Two symbols are announced, and the second has a kind that is not known. The second segment has no name.
    let stream =
        b"\0asm\x01\0\0\0\0\x1f\x07linking\x02\x08\x07\x02\0\0\x05\x01f\x06\x05\x0b\x02\x02.d\0\0\x02\x80\x80\0\0";
    let found = names_in(rt.alloc(), stream)?;
    assert_eq!(rt; found.of(Space::Symbols, 0), Some("f"));
    assert_eq!(rt; found.of(Space::Functions, 5), Some("f"));
    assert_eq!(rt; found.of(Space::Symbols, 1), None);
    assert_eq!(rt; found.of(Space::DataSegments, 0), Some(".d"));
    assert_eq!(rt; found.of(Space::DataSegments, 1), None);
    Ok(())
}

/// Symbols of items of four kinds with the same index, and two functions to call at startup.
const KINDS: &[u8] =
    b"\0asm\x01\0\0\0\0\x27\x07linking\x02\x08\x15\x04\0\0\x03\x01f\x02\0\x03\x01g\x04\0\x03\x01t\x05\0\x03\x01w\x06\x05\x02\x01\x03\x02\0";

/// The last lines of its dump.
const STARTUP: &[u8] = b"    42 init_funcs=44..49 count=2
      45 priority=1 symbol_index=3 \"w\"
      47 priority=2 symbol_index=0 \"f\"
end 49
";

// Each symbol names the item of its own kind. A function to call at startup is a symbol, whatever its priority.
#[test]
fn symbols_name_items_of_their_kinds(rt: HostRuntime) -> Result<(), Fail> {
    let found = names_in(rt.alloc(), KINDS)?;
    assert_eq!(rt; found.of(Space::Functions, 3), Some("f"));
    assert_eq!(rt; found.of(Space::Globals, 3), Some("g"));
    assert_eq!(rt; found.of(Space::Tags, 3), Some("t"));
    assert_eq!(rt; found.of(Space::Tables, 3), Some("w"));
    assert_eq!(rt; found.of(Space::Memories, 3), None);
    assert_eq!(rt; found.of(Space::Symbols, 2), Some("t"));
    let text = dumped(rt.alloc(), KINDS, Form::Named)?;
    assert!(rt; text.as_slice().ends_with(STARTUP));
    Ok(())
}

// How many bytes the name of a symbol has that is longer than what is read at once.
const LONG: usize = 70_000;

/// The section `linking` before that name, the table after it, and a relocation with the symbol after it.
const BEFORE_LONG: &[u8] =
    b"\0asm\x01\0\0\0\0\x89\xa3\x04\x07linking\x02\x08\xfc\xa2\x04\x02\0\0\0\xf0\xa2\x04";

const AFTER_LONG: &[u8] = b"\0\0\x05\x01f\0\x10\x0areloc.CODE\x03\x01\0\x04\x01";

/// The dump of the relocation.
const AFTER_LONG_LINES: &[u8] = b"custom 70039 70055 70050 size=16 \"reloc.CODE\"
  section name=\"reloc.CODE\" section=3 range=70050..70055 entries=70051..70055 count=1
    70052 type=R_WASM_FUNCTION_INDEX_LEB offset=4 index=1 addend=0 \"f\"
end 70055
";

// The section with the symbols is read whole, also if it is larger than what is read at once.
#[test]
fn symbols_after_a_long_name(rt: HostRuntime) -> Result<(), Fail> {
    let alloc = rt.alloc();
    let long = vec![in alloc; b'a'; LONG]?;
    let stream = [BEFORE_LONG, long.as_slice(), AFTER_LONG].concat(alloc)?;
    let found = names_in(alloc, stream.as_slice())?;
    assert_eq!(rt; found.of(Space::Functions, 5), Some("f"));
    assert_eq!(rt; found.of(Space::Symbols, 1), Some("f"));
    let only = [Only::Name("reloc.CODE")];
    let lines = AFTER_LONG_LINES;
    dumps(&rt, alloc, &only, stream.as_slice(), Ok(Ended::End), lines)
}
