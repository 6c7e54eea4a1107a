// Dumps with names.
use super::named::{self, Form};
use std::alloc::Global;
use std::test::Fail;
use wasm_dumper::{Only, Shown, collect_names, dump};
use wasm_io::{Base, BoundedSink, ListError, Sink, SliceSource};
use wasm_output::{ItemNames, TextLines};
use wasm_streams::Ended;

// The linked module of docs/DUMP.md, whose bodies are filled with a byte.
const LINKED: &[u8] =
    b"\0asm\x01\0\0\0\x01\x0e\x03`\0\x01\x7f`\x01\x7f\0`\x01\x7f\x01\x7f\x02\x12\x01\x03env\x0alog_number\0\x01\x03\x04\x03\0\x02\x02\x04\x05\x01p\x01\x02\x02\x05\x03\x01\0\x02\x06\x08\x01\x7f\x01A\xa0\x88\x04\x0b\x07\x1a\x03\x06memory\x02\0\x07name_of\0\x02\x03run\0\x03\x09\x07\x01\0A\x01\x0b\x01\x01\x0aZ\x03\x1d\0\x01\x01\x01\x01\x01\x01\x01\x01\x01\x01\x01\x01\x01\x01\x01\x01\x01\x01\x01\x01\x01\x01\x01\x01\x01\x01\x01\x0b\x14\0\x01\x01\x01\x01\x01\x01\x01\x01\x01\x01\x01\x01\x01\x01\x01\x01\x01\x01\x0b%\0\x01\x01\x01\x01\x01\x01\x01\x01\x01\x01\x01\x01\x01\x01\x01\x01\x01\x01\x01\x01\x01\x01\x01\x01\x01\x01\x01\x01\x01\x01\x01\x01\x01\x01\x01\x0b\x0b'\x02\0A\x80\x08\x0b\x16\x13\x04\0\0\x10\x04\0\0\x01\0\0\0\x01\0\0\0cd\0ab\0\0A\x98\x08\x0b\x04\x03\0\0\0\0O\x04name\x01!\x04\0\x0alog_number\x01\x04next\x02\x07name_of\x03\x03run\x07\x12\x01\0\x0f__stack_pointer\x09\x11\x02\0\x07.rodata\x01\x05.data\0-\x09producers\x01\x0cprocessed-by\x01\x0cDebian clang\x0614.0.6";

const NAMED: &[u8] = b"version 0 8 1 module
section 1 10 24 3 type size=14
  11 type[0] type=(func (result i32))
  15 type[1] type=(func (param i32))
  19 type[2] type=(func (param i32) (result i32))
section 2 26 44 1 import size=18
  27 func[0] \"log_number\" module=\"env\" name=\"log_number\" ty=func index=1
section 3 46 50 3 function size=4
  47 func[1] \"next\" index=0
  48 func[2] \"name_of\" index=2
  49 func[3] \"run\" index=2
section 4 52 57 1 table size=5
  53 table[0] element_type=(ref null func) initial=2 maximum=2 init=null
section 5 59 62 1 memory size=3
  60 memory[0] initial=2
section 6 64 72 1 global size=8
  65 global[0] \"__stack_pointer\" content_type=(mut i32) init_expr=(i32.const 66592)
section 7 74 100 3 export size=26
  75 name=\"memory\" kind=memory index=0
  84 name=\"name_of\" kind=func index=2 \"name_of\"
  94 name=\"run\" kind=func index=3 \"run\"
section 9 102 109 1 element size=7
  103 elem[0] kind=active offset_expr=(i32.const 1) functions=107..109 count=1 range=103..109
    108 index=1 \"next\"
code 111 201 3 89 size=90
body 113 142 size=29 func[1] \"next\"
body 143 163 size=20 func[2] \"name_of\"
body 164 201 size=37 func[3] \"run\"
section 11 203 242 2 data size=39
  204 data[0] \".rodata\" kind=active memory_index=0 offset_expr=(i32.const 1024) data=22:13040000100400000100000001000000.. range=204..232
  232 data[1] \".data\" kind=active memory_index=0 offset_expr=(i32.const 1048) data=4:03000000 range=232..242
custom 244 323 249 size=79 \"name\"
  section name=\"name\"
    249 function
      252 index=0 name=\"log_number\"
      264 index=1 name=\"next\"
      270 index=2 name=\"name_of\"
      279 index=3 name=\"run\"
    284 global
      287 index=0 name=\"__stack_pointer\"
    304 data
      307 index=0 name=\".rodata\"
      316 index=1 name=\".data\"
custom 325 370 335 size=45 \"producers\"
  section name=\"producers\" fields=335..370 count=1
    336 name=\"processed-by\" values=349..370 count=1
      350 name=\"Debian clang\" version=\"14.0.6\"
end 370
";

// The names that a stream has.
pub(super) fn names_in(alloc: Global, stream: &[u8]) -> Result<ItemNames, Fail> {
    match collect_names(alloc, &mut SliceSource::new(stream)) {
        Ok(names) => Ok(names),
        Err(_why) => Err(Fail::new("out of memory")),
    }
}

// What a stream is dumped as, with the names that it has.
fn dumped(alloc: Global, stream: &[u8]) -> Result<Vec<u8>, Fail> {
    named::dumped(alloc, stream, Form::Named)
}

#[test]
fn shows_the_names_of_items(rt: HostRuntime) -> Result<(), Fail> {
    let text = dumped(rt.alloc(), LINKED)?;
    assert_eq!(rt; text.as_slice(), NAMED);
    Ok(())
}

// The first section has the name of an item that another one has too.
#[test]
fn shows_the_first_name(rt: HostRuntime) -> Result<(), Fail> {
    let stream =
        b"\0asm\x01\0\0\0\x01\x04\x01`\0\0\x03\x03\x02\0\0\0\x0d\x04name\x01\x06\x01\x01\x03b\x0a\"\0\x14\x04name\x01\x07\x02\0\x01a\x01\x01c\x04\x04\x01\0\x01t";
    let wanted = b"version 0 8 1 module
section 1 10 14 1 type size=4
  11 type[0] \"t\" type=(func)
section 3 16 19 2 function size=3
  17 func[0] \"a\" index=0
  18 func[1] \"b\\0a\\22\" index=0
"
        .as_slice();
    assert!(rt; dumped(rt.alloc(), stream)?.as_slice().starts_with(wanted));
    Ok(())
}

// Names are known up to the first fault, whatever comes after it.
#[test]
fn ends_at_a_fault_of_names(rt: HostRuntime) -> Result<(), Fail> {
    let stream =
        b"\0asm\x01\0\0\0\x01\x04\x01`\0\0\x03\x03\x02\0\0\0\x14\x04name\x01\x07\x02\x01\x01b\0\x01a\x04\x04\x01\0\x01t\0\x0b\x04name\x04\x04\x01\0\x01u";
    let wanted = b"version 0 8 1 module
section 1 10 14 1 type size=4
  11 type[0] type=(func)
section 3 16 19 2 function size=3
  17 func[0] index=0
  18 func[1] \"b\" index=0
"
        .as_slice();
    assert!(rt; dumped(rt.alloc(), stream)?.as_slice().starts_with(wanted));
    Ok(())
}

// How many bytes a name has that is longer than what waits to be written.
const LONG: usize = 70_000;

// A module of one function, whose name is long.
fn named_at_length(alloc: Global) -> Result<Vec<u8>, Fail> {
    let mut stream = Vec::<u8>::new(alloc);
    stream.extend_from_slice(
        b"\0asm\x01\0\0\0\x01\x04\x01`\0\0\x03\x02\x01\0\x0a\x04\x01\x02\0\x0b\0\xfe\xa2\x04\x04name\x01\xf5\xa2\x04\x01\0\xf0\xa2\x04",
    )?;
    stream.extend_from_slice(&vec![in alloc; b'a'; LONG]?)?;
    Ok(stream)
}

// What its code is dumped as.
fn long_dump(alloc: Global) -> Result<Vec<u8>, Fail> {
    let mut text = Vec::<u8>::new(alloc);
    text.extend_from_slice(b"code 20 24 1 3 size=4\nbody 22 24 size=2 func[0] \"")?;
    text.extend_from_slice(&vec![in alloc; b'a'; LONG]?)?;
    text.extend_from_slice(b"\"\nend 70042\n")?;
    Ok(text)
}

// How the dump of a stream's code ends, with the names that it has, in a sink with room for this many bytes.
fn dumped_into(
    alloc: Global,
    stream: &[u8],
    room: usize,
) -> Result<(Result<Ended, ListError>, BoundedSink), Fail> {
    let names = names_in(alloc, stream)?;
    let output = BoundedSink::new(alloc, room)?;
    let mut tree = TextLines::with_names(alloc, output, Base::Decimal, Some(names));
    let shown = Shown {
        only: &[Only::Id(10)],
        has_bytes: false,
        found: &[],
    };
    let input = &mut SliceSource::new(stream);
    let ended = dump(alloc, shown, input, &mut tree, 65_536);
    Ok((ended, tree.into_output()))
}

#[test]
fn shows_a_long_name(rt: HostRuntime) -> Result<(), Fail> {
    let stream = named_at_length(rt.alloc())?;
    let (ended, output) = dumped_into(rt.alloc(), &stream, 100_000)?;
    assert!(rt; ended == Ok(Ended::End));
    assert!(rt; output.written() == long_dump(rt.alloc())?.as_slice());
    Ok(())
}

// A sink that is full in the middle of the body's line has a prefix of the dump.
#[test]
fn stops_in_a_long_name(rt: HostRuntime) -> Result<(), Fail> {
    let stream = named_at_length(rt.alloc())?;
    let wanted = long_dump(rt.alloc())?;
    for room in [36, 65_536, 70_000] {
        let (ended, output) = dumped_into(rt.alloc(), &stream, room)?;
        assert!(rt; ended == Err(ListError::Output));
        assert!(rt; output.failed());
        assert!(rt; wanted.starts_with(output.written()));
    }
    Ok(())
}
