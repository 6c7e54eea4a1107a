// Dumps in other forms: objects of JSON, lines with bytes, and lines with hexadecimal offsets.
use super::named::{Form, dumped};
use crate::tests::commands::{MODULE, runs};
use std::alloc::Global;
use std::process::Abort;
use std::test::Fail;
use wasm_io::BoundedSink;
use wasm_output::{TextLines, Tree};

// Names with a quote, a backslash, a line feed, a control character, and a character outside of ASCII.
const NAMES: &[u8] = b"\0asm\x01\0\0\0\x07\x0f\x02\x03a\"b\0\x00\x05\\\x0a\x01\xc3\xa9\x03\x00";

// Offsets to be added in relocations, one of them below 0.
const ADDENDS: &[u8] =
    b"\0asm\x01\0\0\0\0\x16\x0areloc.CODE\x03\x02\x03\x21\x49\x7c\x03\x22\x4a\x82\x01";

// A fault of an item, and one of the stream.
const FAULTS: &[u8] = b"\0asm\x01\0\0\0\x07\x02\x01\x05\x80";

// A custom section of more than sixteen bytes, and a section of functions.
const LONG: &[u8] =
    b"\0asm\x01\0\0\0\0\x16\x01a\0\x01\x02\x03\x04\x05\x06\x07\x08\x09\x0a\x0b\x0c\x0d\x0e\x0f\x10\x11\x12\x13\x03\x02\x01\0";

/// Options, a stream, and the exit status and the dump of a run.
type Row = (&'static [&'static str], &'static [u8], u8, &'static [u8]);

const ROWS: [Row; 11] = [
    (&["dump", "--json"], MODULE, 0, OBJECTS),
    (&["dump", "--json"], NAMES, 0, ESCAPED),
    (&["dump", "--json"], ADDENDS, 0, SIGNED),
    (&["dump", "--json"], FAULTS, 1, FAULT_OBJECTS),
    (&["dump", "--bytes"], MODULE, 0, BYTES),
    // Sixteen bytes a row, and only those of the sections that are chosen.
    (
        &["dump", "--section", "custom", "--bytes"],
        LONG,
        1,
        SIXTEEN,
    ),
    (&["dump", "--hex"], MODULE, 0, HEX),
    // Offsets that don't count from the start of the stream stay decimal.
    (&["dump", "--hex"], ADDENDS, 0, HEX_RANGES),
    (&["dump", "--hex"], FAULTS, 1, HEX_FAULTS),
    (
        &["dump", "--section", "custom", "--hex", "--bytes"],
        LONG,
        1,
        HEX_BYTES,
    ),
    (
        &["dump", "--color", "--hex", "--section", "3"],
        MODULE,
        0,
        HEX_COLORS,
    ),
];

const OBJECTS: &[u8] =
    b"{\"event\":\"version\",\"range\":[0,8],\"num\":1,\"encoding\":\"module\",\"file\":\"-\"}
{\"event\":\"section\",\"range\":[10,12],\"id\":3,\"name\":\"function\",\"count\":1,\"file\":\"-\"}
{\"level\":1,\"at\":11,\"space\":\"func\",\"number\":0,\"index\":5,\"file\":\"-\"}
{\"event\":\"section\",\"range\":[14,18],\"id\":10,\"name\":\"code\",\"count\":1,\"size\":3,\"file\":\"-\"}
{\"event\":\"body\",\"range\":[16,18],\"space\":\"func\",\"number\":0,\"file\":\"-\"}
{\"event\":\"section\",\"range\":[20,26],\"id\":0,\"name\":\"custom\",\"custom_name\":\"type\",\"data_offset\":25,\"file\":\"-\"}
{\"level\":1,\"line\":\"section\",\"name\":\"type\",\"known\":\"unknown\",\"file\":\"-\"}
{\"event\":\"end\",\"offset\":26,\"file\":\"-\"}
";

const ESCAPED: &[u8] =
    b"{\"event\":\"version\",\"range\":[0,8],\"num\":1,\"encoding\":\"module\",\"file\":\"-\"}
{\"event\":\"section\",\"range\":[10,25],\"id\":7,\"name\":\"export\",\"count\":2,\"file\":\"-\"}
{\"level\":1,\"at\":11,\"name\":\"a\\\"b\",\"kind\":\"func\",\"index\":0,\"file\":\"-\"}
{\"level\":1,\"at\":17,\"name\":\"\\\\\\u000a\\u0001\xc3\xa9\",\"kind\":\"global\",\"index\":0,\"file\":\"-\"}
{\"event\":\"end\",\"offset\":25,\"file\":\"-\"}
";

const SIGNED: &[u8] =
    b"{\"event\":\"version\",\"range\":[0,8],\"num\":1,\"encoding\":\"module\",\"file\":\"-\"}
{\"event\":\"section\",\"range\":[10,32],\"id\":0,\"name\":\"custom\",\"custom_name\":\"reloc.CODE\",\"data_offset\":21,\"file\":\"-\"}
{\"level\":1,\"line\":\"section\",\"name\":\"reloc.CODE\",\"section\":3,\"range\":[21,32],\"entries\":[22,32],\"count\":2,\"file\":\"-\"}
{\"level\":2,\"at\":23,\"type\":\"R_WASM_MEMORY_ADDR_LEB\",\"offset\":33,\"index\":73,\"addend\":-4,\"file\":\"-\"}
{\"level\":2,\"at\":27,\"type\":\"R_WASM_MEMORY_ADDR_LEB\",\"offset\":34,\"index\":74,\"addend\":130,\"file\":\"-\"}
{\"event\":\"end\",\"offset\":32,\"file\":\"-\"}
";

const FAULT_OBJECTS: &[u8] =
    b"{\"event\":\"version\",\"range\":[0,8],\"num\":1,\"encoding\":\"module\",\"file\":\"-\"}
{\"event\":\"section\",\"range\":[10,12],\"id\":7,\"name\":\"export\",\"count\":1,\"file\":\"-\"}
{\"level\":1,\"fault\":\"unexpected end-of-file\",\"offset\":12,\"number\":null,\"file\":\"-\"}
{\"event\":\"fault\",\"fault\":\"malformed section id\",\"offset\":12,\"number\":null,\"file\":\"-\"}
";

const BYTES: &[u8] = b"0 | 00 61 73 6d 01 00 00 00
version 0 8 1 module
8 | 03 02 01
section 3 10 12 1 function size=2
11 | 05
  11 func[0] index=5
12 | 0a 04 01
code 14 18 1 3 size=4
15 | 02 00 0b
body 16 18 size=2 func[0]
18 | 00 06 04 74 79 70 65 ff
custom 20 26 25 size=6 \"type\"
  section name=\"type\" unknown
end 26
";

const SIXTEEN: &[u8] = b"8 | 00 16 01 61 00 01 02 03 04 05 06 07 08 09 0a 0b
24 | 0c 0d 0e 0f 10 11 12 13
custom 10 32 12 size=22 \"a\"
  section name=\"a\" unknown
fault 36 function section has non-zero count but code section is absent
";

const HEX: &[u8] = b"version 0x0 0x8 1 module
section 3 0xa 0xc 1 function size=2
  0xb func[0] index=5
code 0xe 0x12 1 3 size=4
body 0x10 0x12 size=2 func[0]
custom 0x14 0x1a 0x19 size=6 \"type\"
  section name=\"type\" unknown
end 0x1a
";

const HEX_RANGES: &[u8] = b"version 0x0 0x8 1 module
custom 0xa 0x20 0x15 size=22 \"reloc.CODE\"
  section name=\"reloc.CODE\" section=3 range=0x15..0x20 entries=0x16..0x20 count=2
    0x17 type=R_WASM_MEMORY_ADDR_LEB offset=33 index=73 addend=-4
    0x1b type=R_WASM_MEMORY_ADDR_LEB offset=34 index=74 addend=130
end 0x20
";

const HEX_FAULTS: &[u8] = b"version 0x0 0x8 1 module
section 7 0xa 0xc 1 export size=2
  fault 0xc unexpected end-of-file
fault 0xc malformed section id
";

const HEX_BYTES: &[u8] = b"0x8 | 00 16 01 61 00 01 02 03 04 05 06 07 08 09 0a 0b
0x18 | 0c 0d 0e 0f 10 11 12 13
custom 0xa 0x20 0xc size=22 \"a\"
  section name=\"a\" unknown
fault 0x24 function section has non-zero count but code section is absent
";

const HEX_COLORS: &[u8] =
    b"\x1b[0;1msection\x1b[0m 3 0xa 0xc 1 function size=2\n  \x1b[0;2m0xb\x1b[0m func[0] index=5
\x1b[0;1mend\x1b[0m 0x1a\n";

fn all_write(rt: &impl Abort, alloc: Global, rows: &[Row]) -> Result<(), Fail> {
    for (words, stream, status, text) in rows {
        runs(rt, alloc, words, stream, (*status, text, b""))?;
    }
    Ok(())
}

#[test]
fn writes_other_forms(rt: HostRuntime) -> Result<(), Fail> {
    all_write(&rt, rt.alloc(), &ROWS)
}

// What a sink has of two parts: bytes are left after the last line of the first one, and the second has no line.
fn two_parts(alloc: Global) -> Result<BoundedSink, Fail> {
    let cuts = vec![in alloc; 11]?;
    let mut out = TextLines::new(alloc, BoundedSink::new(alloc, 100)?);
    out.begin_part(alloc, 10, &[1, 2, 3], cuts);
    out.item(1, 11);
    out.begin_part(alloc, 13, &[4], Vec::new(alloc));
    out.write_out();
    Ok(out.into_output())
}

#[test]
fn writes_the_last_bytes_of_a_part(rt: HostRuntime) -> Result<(), Fail> {
    let output = two_parts(rt.alloc())?;
    let wanted = b"10 | 01\n  11\n11 | 02 03\n13 | 04\n";
    assert_eq!(rt; output.written(), wanted.as_slice());
    Ok(())
}

/// The last rows and lines of a custom section of 70,002 bytes and of an empty section of types.
const LAST_ROWS: &[u8] = b"70008 | 61 61 61 61 61 61
custom 12 70014 14 size=70002 \"a\"
  section name=\"a\" unknown
70014 | 01 01 00
section 1 70016 70017 0 type size=1
end 70017
";

#[test]
fn writes_bytes_after_a_large_part(rt: HostRuntime) -> Result<(), Fail> {
    let alloc = rt.alloc();
    let data = vec![in alloc; b'a'; 70_000]?;
    let before = b"\0asm\x01\0\0\0\0\xf2\xa2\x04\x01a".as_slice();
    let stream = [before, data.as_slice(), b"\x01\x01\0"].concat(alloc)?;
    let text = dumped(alloc, stream.as_slice(), Form::Bytes)?;
    assert!(rt; text.as_slice().ends_with(LAST_ROWS));
    Ok(())
}
