// Dumps with the names of items, in each form, and small streams whose values a larger one could hide.
use super::names::names_in;
use std::alloc::Global;
use std::process::Abort;
use std::test::Fail;
use wasm_commands::{Format, Titles, dump_as};
use wasm_dumper::{Only, Shown};
use wasm_io::{SliceSource, WriteSink};
use wasm_output::ItemNames;

/// A form of a dump.
#[derive(Clone, Copy)]
pub(super) enum Form {
    /// Lines.
    Lines,
    /// Lines with the names of items.
    Named,
    /// Lines after their bytes.
    Bytes,
    /// Objects of JSON.
    Objects,
    /// Objects of JSON with the names of items.
    NamedObjects,
}

impl Form {
    fn format(self) -> Format {
        let format = Format::new();
        match self {
            Form::Lines | Form::Bytes => format,
            Form::Named => Format {
                is_named: true,
                ..format
            },
            Form::Objects => Format {
                is_json: true,
                ..format
            },
            Form::NamedObjects => Format {
                is_json: true,
                is_named: true,
                ..format
            },
        }
    }
}

// The dump of a stream in a form.
pub(super) fn dumped(alloc: Global, stream: &[u8], form: Form) -> Result<Vec<u8>, Fail> {
    let format = form.format();
    let names = if format.is_named {
        Some(names_in(alloc, stream)?)
    } else {
        None
    };
    let mut written = Vec::<u8>::new(alloc);
    let shown = Shown {
        only: &[Only::All],
        has_bytes: matches!(form, Form::Bytes),
        found: &[],
    };
    write_dump(alloc, stream, shown, format, names, &mut written);
    Ok(written)
}

fn write_dump(
    alloc: Global,
    stream: &[u8],
    shown: Shown<'_>,
    format: Format,
    names: Option<ItemNames>,
    written: &mut Vec<u8>,
) {
    let (_how, _output) = dump_as(
        alloc,
        shown,
        format,
        Titles { file: None, names },
        &mut SliceSource::new(stream),
        WriteSink::new(written),
    );
}

/// An item in each index space, and its name.
const SPACES: &[u8] =
    b"\0asm\x01\0\0\0\x01\x04\x01`\0\0\x03\x02\x01\0\x04\x04\x01p\0\0\x05\x03\x01\0\x01\x0d\x03\x01\0\0\x06\x06\x01\x7f\0A\0\x0b\x09\x04\x01\x01\0\0\x0c\x01\x01\x0a\x04\x01\x02\0\x0b\x0b\x04\x01\x01\x01a\07\x04name\x01\x04\x01\0\x01f\x04\x04\x01\0\x01t\x05\x06\x01\0\x03tab\x06\x04\x01\0\x01m\x07\x04\x01\0\x01g\x08\x04\x01\0\x01e\x09\x04\x01\0\x01d\x0b\x04\x01\0\x01x";

const SPACES_NAMED: &[u8] = b"version 0 8 1 module
section 1 10 14 1 type size=4
  11 type[0] \"t\" type=(func)
section 3 16 18 1 function size=2
  17 func[0] \"f\" index=0
section 4 20 24 1 table size=4
  21 table[0] \"tab\" element_type=(ref null func) initial=0 init=null
section 5 26 29 1 memory size=3
  27 memory[0] \"m\" initial=1
section 13 31 34 1 tag size=3
  32 tag[0] \"x\" kind=exception func_type_idx=0
section 6 36 42 1 global size=6
  37 global[0] \"g\" content_type=i32 init_expr=(i32.const 0)
section 9 44 48 1 element size=4
  45 elem[0] \"e\" kind=passive functions=47..48 count=0 range=45..48
datacount 50 51 1 size=1
code 53 57 1 3 size=4
body 55 57 size=2 func[0] \"f\"
section 11 59 63 1 data size=4
  60 data[0] \"d\" kind=passive data=1:61 range=60..63
custom 65 120 70 size=55 \"name\"
  section name=\"name\"
    70 function
      73 index=0 name=\"f\"
    76 type
      79 index=0 name=\"t\"
    82 table
      85 index=0 name=\"tab\"
    90 memory
      93 index=0 name=\"m\"
    96 global
      99 index=0 name=\"g\"
    102 element
      105 index=0 name=\"e\"
    108 data
      111 index=0 name=\"d\"
    114 tag
      117 index=0 name=\"x\"
end 120
";

const SPACES_OBJECTS: &[u8] =
    b"{\"event\":\"version\",\"range\":[0,8],\"num\":1,\"encoding\":\"module\"}
{\"event\":\"section\",\"range\":[10,14],\"id\":1,\"name\":\"type\",\"count\":1}
{\"level\":1,\"at\":11,\"space\":\"type\",\"number\":0,\"item_name\":\"t\",\"explicit\":false,\"type\":\"(func)\"}
{\"event\":\"section\",\"range\":[16,18],\"id\":3,\"name\":\"function\",\"count\":1}
{\"level\":1,\"at\":17,\"space\":\"func\",\"number\":0,\"item_name\":\"f\",\"index\":0}
{\"event\":\"section\",\"range\":[20,24],\"id\":4,\"name\":\"table\",\"count\":1}
{\"level\":1,\"at\":21,\"space\":\"table\",\"number\":0,\"item_name\":\"tab\",\"element_type\":\"(ref null func)\",\"table64\":false,\"initial\":0,\"maximum\":null,\"shared\":false,\"init\":\"null\"}
{\"event\":\"section\",\"range\":[26,29],\"id\":5,\"name\":\"memory\",\"count\":1}
{\"level\":1,\"at\":27,\"space\":\"memory\",\"number\":0,\"item_name\":\"m\",\"memory64\":false,\"shared\":false,\"initial\":1,\"maximum\":null,\"page_size_log2\":null}
{\"event\":\"section\",\"range\":[31,34],\"id\":13,\"name\":\"tag\",\"count\":1}
{\"level\":1,\"at\":32,\"space\":\"tag\",\"number\":0,\"item_name\":\"x\",\"kind\":\"exception\",\"func_type_idx\":0}
{\"event\":\"section\",\"range\":[36,42],\"id\":6,\"name\":\"global\",\"count\":1}
{\"level\":1,\"at\":37,\"space\":\"global\",\"number\":0,\"item_name\":\"g\",\"content_type\":\"i32\",\"shared\":false,\"init_expr\":\"(i32.const 0)\"}
{\"event\":\"section\",\"range\":[44,48],\"id\":9,\"name\":\"element\",\"count\":1}
{\"level\":1,\"at\":45,\"space\":\"elem\",\"number\":0,\"item_name\":\"e\",\"kind\":\"passive\",\"functions\":[47,48],\"count\":0,\"range\":[45,48]}
{\"event\":\"section\",\"range\":[50,51],\"id\":12,\"name\":\"datacount\",\"count\":1}
{\"event\":\"section\",\"range\":[53,57],\"id\":10,\"name\":\"code\",\"count\":1,\"size\":3}
{\"event\":\"body\",\"range\":[55,57],\"space\":\"func\",\"number\":0,\"item_name\":\"f\"}
{\"event\":\"section\",\"range\":[59,63],\"id\":11,\"name\":\"data\",\"count\":1}
{\"level\":1,\"at\":60,\"space\":\"data\",\"number\":0,\"item_name\":\"d\",\"kind\":\"passive\",\"data\":\"1:61\",\"range\":[60,63]}
{\"event\":\"section\",\"range\":[65,120],\"id\":0,\"name\":\"custom\",\"custom_name\":\"name\",\"data_offset\":70}
{\"level\":1,\"line\":\"section\",\"name\":\"name\"}
{\"level\":2,\"at\":70,\"kind\":\"function\"}
{\"level\":3,\"at\":73,\"index\":0,\"name\":\"f\"}
{\"level\":2,\"at\":76,\"kind\":\"type\"}
{\"level\":3,\"at\":79,\"index\":0,\"name\":\"t\"}
{\"level\":2,\"at\":82,\"kind\":\"table\"}
{\"level\":3,\"at\":85,\"index\":0,\"name\":\"tab\"}
{\"level\":2,\"at\":90,\"kind\":\"memory\"}
{\"level\":3,\"at\":93,\"index\":0,\"name\":\"m\"}
{\"level\":2,\"at\":96,\"kind\":\"global\"}
{\"level\":3,\"at\":99,\"index\":0,\"name\":\"g\"}
{\"level\":2,\"at\":102,\"kind\":\"element\"}
{\"level\":3,\"at\":105,\"index\":0,\"name\":\"e\"}
{\"level\":2,\"at\":108,\"kind\":\"data\"}
{\"level\":3,\"at\":111,\"index\":0,\"name\":\"d\"}
{\"level\":2,\"at\":114,\"kind\":\"tag\"}
{\"level\":3,\"at\":117,\"index\":0,\"name\":\"x\"}
{\"event\":\"end\",\"offset\":120}
";

/// Two functions and their names.
const FUNCTIONS: &[u8] =
    b"\0asm\x01\0\0\0\x01\x04\x01`\0\0\x03\x03\x02\0\0\x0a\x07\x02\x02\0\x0b\x02\0\x0b\0\x0e\x04name\x01\x07\x02\0\x01f\x01\x01g";

/// What refers to a function or a table: exports, the start section, an element segment, branch hints.
const REFERENCES: &[u8] =
    b"\0asm\x01\0\0\0\x01\x04\x01`\0\0\x03\x02\x01\0\x04\x04\x01p\0\x01\x07\x09\x02\x01a\0\0\x01t\x01\0\x08\x01\0\x09\x05\x01\x01\0\x01\0\0 \x19metadata.code.branch_hint\x01\0\x01\0\x01\0\x0a\x04\x01\x02\0\x0b\0\x13\x04name\x01\x04\x01\0\x01f\x05\x06\x01\0\x03tab";

const REFERENCES_NAMED: &[u8] = b"version 0 8 1 module
section 1 10 14 1 type size=4
  11 type[0] type=(func)
section 3 16 18 1 function size=2
  17 func[0] \"f\" index=0
section 4 20 24 1 table size=4
  21 table[0] \"tab\" element_type=(ref null func) initial=1 init=null
section 7 26 35 2 export size=9
  27 name=\"a\" kind=func index=0 \"f\"
  31 name=\"t\" kind=table index=0 \"tab\"
start 37 38 0 size=1 \"f\"
section 9 40 45 1 element size=5
  41 elem[0] kind=passive functions=43..45 count=1 range=41..45
    44 index=0 \"f\"
custom 47 79 73 size=32 \"metadata.code.branch_hint\"
  section name=\"metadata.code.branch_hint\" functions=73..79 count=1
    74 func=0 \"f\" hints=75..79 count=1
      76 func_offset=0
code 81 85 1 3 size=4
body 83 85 size=2 func[0] \"f\"
custom 87 106 92 size=19 \"name\"
  section name=\"name\"
    92 function
      95 index=0 name=\"f\"
    98 table
      101 index=0 name=\"tab\"
end 106
";

const REFERENCES_OBJECTS: &[u8] =
    b"{\"event\":\"version\",\"range\":[0,8],\"num\":1,\"encoding\":\"module\"}
{\"event\":\"section\",\"range\":[10,14],\"id\":1,\"name\":\"type\",\"count\":1}
{\"level\":1,\"at\":11,\"space\":\"type\",\"number\":0,\"explicit\":false,\"type\":\"(func)\"}
{\"event\":\"section\",\"range\":[16,18],\"id\":3,\"name\":\"function\",\"count\":1}
{\"level\":1,\"at\":17,\"space\":\"func\",\"number\":0,\"item_name\":\"f\",\"index\":0}
{\"event\":\"section\",\"range\":[20,24],\"id\":4,\"name\":\"table\",\"count\":1}
{\"level\":1,\"at\":21,\"space\":\"table\",\"number\":0,\"item_name\":\"tab\",\"element_type\":\"(ref null func)\",\"table64\":false,\"initial\":1,\"maximum\":null,\"shared\":false,\"init\":\"null\"}
{\"event\":\"section\",\"range\":[26,35],\"id\":7,\"name\":\"export\",\"count\":2}
{\"level\":1,\"at\":27,\"name\":\"a\",\"kind\":\"func\",\"index\":0,\"item_name\":\"f\"}
{\"level\":1,\"at\":31,\"name\":\"t\",\"kind\":\"table\",\"index\":0,\"item_name\":\"tab\"}
{\"event\":\"section\",\"range\":[37,38],\"id\":8,\"name\":\"start\",\"func\":0,\"item_name\":\"f\"}
{\"event\":\"section\",\"range\":[40,45],\"id\":9,\"name\":\"element\",\"count\":1}
{\"level\":1,\"at\":41,\"space\":\"elem\",\"number\":0,\"kind\":\"passive\",\"functions\":[43,45],\"count\":1,\"range\":[41,45]}
{\"level\":2,\"at\":44,\"index\":0,\"item_name\":\"f\"}
{\"event\":\"section\",\"range\":[47,79],\"id\":0,\"name\":\"custom\",\"custom_name\":\"metadata.code.branch_hint\",\"data_offset\":73}
{\"level\":1,\"line\":\"section\",\"name\":\"metadata.code.branch_hint\",\"functions\":[73,79],\"count\":1}
{\"level\":2,\"at\":74,\"func\":0,\"item_name\":\"f\",\"hints\":[75,79],\"count\":1}
{\"level\":3,\"at\":76,\"func_offset\":0,\"taken\":false}
{\"event\":\"section\",\"range\":[81,85],\"id\":10,\"name\":\"code\",\"count\":1,\"size\":3}
{\"event\":\"body\",\"range\":[83,85],\"space\":\"func\",\"number\":0,\"item_name\":\"f\"}
{\"event\":\"section\",\"range\":[87,106],\"id\":0,\"name\":\"custom\",\"custom_name\":\"name\",\"data_offset\":92}
{\"level\":1,\"line\":\"section\",\"name\":\"name\"}
{\"level\":2,\"at\":92,\"kind\":\"function\"}
{\"level\":3,\"at\":95,\"index\":0,\"name\":\"f\"}
{\"level\":2,\"at\":98,\"kind\":\"table\"}
{\"level\":3,\"at\":101,\"index\":0,\"name\":\"tab\"}
{\"event\":\"end\",\"offset\":106}
";

/// Three types, each after its bytes.
const TYPES: &[u8] = b"0 | 00 61 73 6d 01 00 00 00
version 0 8 1 module
8 | 01 0a 03
section 1 10 20 3 type size=10
11 | 60 00 00
  11 type[0] type=(func)
14 | 60 00 00
  14 type[1] type=(func)
17 | 60 00 00
  17 type[2] type=(func)
end 20
";

/// A form, a stream, and its dump.
type Row = (Form, &'static [u8], &'static [u8]);

const ROWS: [Row; 12] = [
    (Form::Named, SPACES, SPACES_NAMED),
    (Form::NamedObjects, SPACES, SPACES_OBJECTS),
    (Form::Named, REFERENCES, REFERENCES_NAMED),
    (Form::NamedObjects, REFERENCES, REFERENCES_OBJECTS),
    (
        Form::Named,
        FUNCTIONS,
        b"version 0 8 1 module
section 1 10 14 1 type size=4
  11 type[0] type=(func)
section 3 16 19 2 function size=3
  17 func[0] \"f\" index=0
  18 func[1] \"g\" index=0
code 21 28 2 6 size=7
body 23 25 size=2 func[0] \"f\"
body 26 28 size=2 func[1] \"g\"
custom 30 44 35 size=14 \"name\"
  section name=\"name\"
    35 function
      38 index=0 name=\"f\"
      41 index=1 name=\"g\"
end 44
",
    ),
    (
        Form::Bytes,
        b"\0asm\x01\0\0\0\x01\x0a\x03`\0\0`\0\0`\0\0",
        TYPES,
    ),
    (
        Form::Lines,
        b"\0asm\x01\0\0\0\x08\x01\x05",
        b"version 0 8 1 module
start 10 11 5 size=1
end 11
",
    ),
    (
        Form::Objects,
        b"\0asm\x01\0\0\0\x08\x01\x05",
        b"{\"event\":\"version\",\"range\":[0,8],\"num\":1,\"encoding\":\"module\"}
{\"event\":\"section\",\"range\":[10,11],\"id\":8,\"name\":\"start\",\"func\":5}
{\"event\":\"end\",\"offset\":11}
",
    ),
    (
        Form::Lines,
        b"\0asm\x0d\0\x01\0\x01\x01\0",
        b"version 0 8 13 component
unknown 1 10 11 size=1
end 11
",
    ),
    (
        Form::Objects,
        b"\0asm\x0d\0\x01\0\x01\x01\0",
        b"{\"event\":\"version\",\"range\":[0,8],\"num\":13,\"encoding\":\"component\"}
{\"event\":\"section\",\"range\":[10,11],\"id\":1,\"name\":null}
{\"event\":\"end\",\"offset\":11}
",
    ),
    (
        Form::Objects,
        b"\0asm\x01\0\0\0\x05\x04\x01\x03\x01\x02",
        b"{\"event\":\"version\",\"range\":[0,8],\"num\":1,\"encoding\":\"module\"}
{\"event\":\"section\",\"range\":[10,14],\"id\":5,\"name\":\"memory\",\"count\":1}
{\"level\":1,\"at\":11,\"space\":\"memory\",\"number\":0,\"memory64\":false,\"shared\":true,\"initial\":1,\"maximum\":2,\"page_size_log2\":null}
{\"event\":\"end\",\"offset\":14}
",
    ),
    (
        Form::Objects,
        b"\0asm\x01\0\0\0\x06\x06\x01\x7f\0A\0\x0b",
        b"{\"event\":\"version\",\"range\":[0,8],\"num\":1,\"encoding\":\"module\"}
{\"event\":\"section\",\"range\":[10,16],\"id\":6,\"name\":\"global\",\"count\":1}
{\"level\":1,\"at\":11,\"space\":\"global\",\"number\":0,\"content_type\":\"i32\",\"shared\":false,\"init_expr\":\"(i32.const 0)\"}
{\"event\":\"end\",\"offset\":16}
",
    ),
];

// The rows by a function, since a proof over them knows nothing of their bytes.
fn rows() -> &'static [Row] {
    &ROWS
}

fn all_are_dumped(rt: &impl Abort, alloc: Global, rows: &[Row]) -> Result<(), Fail> {
    for (form, stream, text) in rows {
        let found = dumped(alloc, stream, *form)?;
        assert!(rt; found.as_slice() == *text, "{stream:?}");
    }
    Ok(())
}

#[test]
fn shows_names_and_values_in_each_form(rt: HostRuntime) -> Result<(), Fail> {
    all_are_dumped(&rt, rt.alloc(), rows())
}
