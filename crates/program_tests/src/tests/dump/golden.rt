// Streams, and what wasmparser 0.263.0 says of them: tools/check golden compares them with tools/golden.jsonl.
use super::dumps::dumps;
use std::alloc::Global;
use std::process::Abort;
use std::test::Fail;
use wasm_dumper::Only;
use wasm_streams::Ended;

/// A module.
const MODULE_1: &[u8] = b"\0asm\x01\0\0\0\x06\x03\x01\0\xff";

/// Its dump.
const DUMP_1: &[u8] = b"version 0 8 1 module
section 6 10 13 1 global size=3
  fault 11 invalid leading byte for value type: 0
end 13
";

/// A module.
const MODULE_2: &[u8] =
    b"\0asm\x01\0\0\0\x01\x0d\x03_\x02\x7f\0~\x01^\x7f\x01`\0\0\x03\x02\x01\x02\x0a\x04\x01\x02\0\x0b\0\
\x0a\x04name\x02\x03\x01\0\0";

/// Its dump.
const DUMP_2: &[u8] = b"version 0 8 1 module
section 1 10 23 3 type size=13
  11 type[0] type=(struct (field i32) (field (mut i64)))
  17 type[1] type=(array (mut i32))
  20 type[2] type=(func)
section 3 25 27 1 function size=2
  26 func[0] index=2
code 29 33 1 3 size=4
body 31 33 size=2 func[0]
custom 35 45 40 size=10 \"name\"
  section name=\"name\"
    40 local
      43 index=0
end 45
";

/// A module.
const MODULE_3: &[u8] =
    b"\0asm\x01\0\0\0\x01\x84\x80\x80\x80\0\x01`\0\0\x03\x82\x80\x80\x80\0\x01\0\x05\x84\x80\x80\x80\0\
\x01\x01\x01\x04\x06\x86\x80\x80\x80\0\x01\x7f\0A\x08\x0b\x0c\x81\x80\x80\x80\0\x04\x0a\x95\x80\x80\
\x80\0\x01\x8f\x80\x80\x80\0\0A\0A\0A\x03\xfc\x08\x02\0\xfc\x09\x02\x0b\x0b\x9f\x80\x80\x80\0\x04\0\
A\0\x0b\x03abc\0A\x04\x0b\0\x01\x07passive\0A\xe4\0\x0b\x02xy";

/// Its dump.
const DUMP_3: &[u8] = b"version 0 8 1 module
section 1 14 18 1 type size=4
  15 type[0] type=(func)
section 3 24 26 1 function size=2
  25 func[0] index=0
section 5 32 36 1 memory size=4
  33 memory[0] initial=1 maximum=4
section 6 42 48 1 global size=6
  43 global[0] content_type=i32 init_expr=(i32.const 8)
datacount 54 55 4 size=1
code 61 82 1 20 size=21
body 67 82 size=15 func[0]
section 11 88 119 4 data size=31
  89 data[0] kind=active memory_index=0 offset_expr=(i32.const 0) data=3:616263 range=89..97
  97 data[1] kind=active memory_index=0 offset_expr=(i32.const 4) data=0: range=97..102
  102 data[2] kind=passive data=7:70617373697665 range=102..111
  111 data[3] kind=active memory_index=0 offset_expr=(i32.const 100) data=2:7879 range=111..119
end 119
";

/// A module.
const MODULE_4: &[u8] =
    b"\0asm\x01\0\0\0\x01\x0c\x02`\0\0`\x04\x7f~}|\x01|\x025\x06\x03env\x01f\0\x01\x03env\x01t\x01p\x01\
\x01\x0a\x03env\x01m\x02\x01\x01d\x03env\x01g\x03\x7f\0\x03env\x02mg\x03~\x01\0\0\0\0\x03\x03\x02\0\
\x01\x06(\x04\x7f\0A\x05\x0b|\x01D\0\0\0\0\0\0\xf8?\x0b}\0C\0\0\0\x80\x0b~\0B\x80\x80\x80\x80\x80\
\x80\x80\x80\x80\x7f\x0b\x07\x16\x05\x03two\0\x03\x01m\x02\0\x01t\x01\0\x01g\x03\x02\0\0\0\x08\x01\
\x02\x09\x08\x01\0A\0\x0b\x02\x02\x03\x0a\x09\x02\x02\0\x0b\x04\0 \x03\x0b\x0b\x0d\x01\0A\x10\x0b\
\x07hello\0\xff\0?\x07linking\x02\x084\x0b\00\0\0\x10\x01\0\0\x02\x05start\0\xa4\x01\x03\x03two\x05\
0\0\x02\x10\0\x02\x10\x01\x02\xa4\x01\x02\x01c\x02\0\x03\x01d\x02\x06\x04\0\x02\x06\x05\0";

/// Its dump.
const DUMP_4: &[u8] = b"version 0 8 1 module
section 1 10 22 2 type size=12
  11 type[0] type=(func)
  14 type[1] type=(func (param i32 i64 f32 f64) (result f64))
section 2 24 77 6 import size=53
  25 func[0] module=\"env\" name=\"f\" ty=func index=1
  33 table[0] module=\"env\" name=\"t\" ty=table element_type=(ref null func) initial=1 maximum=10
  44 memory[0] module=\"env\" name=\"m\" ty=memory initial=1 maximum=100
  54 global[0] module=\"env\" name=\"g\" ty=global content_type=i32
  63 global[1] module=\"env\" name=\"mg\" ty=global content_type=(mut i64)
  73 func[1] module=\"\" name=\"\" ty=func index=0
section 3 79 82 2 function size=3
  80 func[2] index=0
  81 func[3] index=1
section 6 84 124 4 global size=40
  85 global[2] content_type=i32 init_expr=(i32.const 5)
  90 global[3] content_type=(mut f64) init_expr=(f64.const bits=4609434218613702656)
  102 global[4] content_type=f32 init_expr=(f32.const bits=2147483648)
  110 global[5] content_type=i64 init_expr=(i64.const -9223372036854775808)
section 7 126 148 5 export size=22
  127 name=\"two\" kind=func index=3
  133 name=\"m\" kind=memory index=0
  137 name=\"t\" kind=table index=0
  141 name=\"g\" kind=global index=2
  145 name=\"\" kind=func index=0
start 150 151 2 size=1
section 9 153 161 1 element size=8
  154 elem[0] kind=active offset_expr=(i32.const 0) functions=158..161 count=2 range=154..161
    159 index=2
    160 index=3
code 163 172 2 8 size=9
body 165 167 size=2 func[2]
body 168 172 size=4 func[3]
section 11 174 187 1 data size=13
  175 data[0] kind=active memory_index=0 offset_expr=(i32.const 16) data=7:68656c6c6f00ff range=175..187
custom 189 252 197 size=63 \"linking\"
  section name=\"linking\" version=2 range=197..252 subsections=198
    198 symbol_table=200..252 count=11
      201 symbol[0] \"f\" func flags=UNDEFINED | EXPORTED index=0
      204 symbol[1] \"\" func flags=UNDEFINED index=1
      207 symbol[2] func flags=0 index=2 name=\"start\"
      216 symbol[3] func flags=VISIBILITY_HIDDEN | EXPORTED | NO_STRIP index=3 name=\"two\"
      224 symbol[4] \"t\" table flags=UNDEFINED | EXPORTED index=0
      227 symbol[5] \"g\" global flags=UNDEFINED index=0
      230 symbol[6] \"mg\" global flags=UNDEFINED index=1
      233 symbol[7] global flags=VISIBILITY_HIDDEN | EXPORTED | NO_STRIP index=2 name=\"c\"
      239 symbol[8] global flags=0 index=3 name=\"d\"
      244 symbol[9] global flags=BINDING_LOCAL | VISIBILITY_HIDDEN index=4 name=\"\"
      248 symbol[10] global flags=BINDING_LOCAL | VISIBILITY_HIDDEN index=5 name=\"\"
end 252
";

/// A module.
const MODULE_5: &[u8] =
    b"\0asm\x01\0\0\0\x01\x08\x02`\0\0`\x01\x7f\0\x03\x02\x01\x01\x04\x04\x01p\0\x01\x05\x03\x01\0\x01\
\x06\x06\x01\x7f\0A\0\x0b\x09\x05\x01\x01\0\x01\0\x0a\x06\x01\x04\x01\x01~\x0b\x0b\x04\x01\x01\x01x\
\0F\x04name\0\x06\x05named\x01\x04\x01\0\x01f\x02\x09\x01\0\x02\0\x01p\x01\x01l\x04\x04\x01\0\x01t\
\x05\x05\x01\0\x02tb\x06\x05\x01\0\x02mm\x07\x04\x01\0\x01g\x08\x05\x01\0\x02ee\x09\x05\x01\0\x02dd";

/// Its dump.
const DUMP_5: &[u8] = b"version 0 8 1 module
section 1 10 18 2 type size=8
  11 type[0] type=(func)
  14 type[1] type=(func (param i32))
section 3 20 22 1 function size=2
  21 func[0] index=1
section 4 24 28 1 table size=4
  25 table[0] element_type=(ref null func) initial=1 init=null
section 5 30 33 1 memory size=3
  31 memory[0] initial=1
section 6 35 41 1 global size=6
  36 global[0] content_type=i32 init_expr=(i32.const 0)
section 9 43 48 1 element size=5
  44 elem[0] kind=passive functions=46..48 count=1 range=44..48
    47 index=0
code 50 56 1 5 size=6
body 52 56 size=4 func[0]
section 11 58 62 1 data size=4
  59 data[0] kind=passive data=1:78 range=59..62
custom 64 134 69 size=70 \"name\"
  section name=\"name\"
    69 module name=\"named\" range=71..77
    77 function
      80 index=0 name=\"f\"
    83 local
      86 index=0
        88 index=0 name=\"p\"
        91 index=1 name=\"l\"
    94 type
      97 index=0 name=\"t\"
    100 table
      103 index=0 name=\"tb\"
    107 memory
      110 index=0 name=\"mm\"
    114 global
      117 index=0 name=\"g\"
    120 element
      123 index=0 name=\"ee\"
    127 data
      130 index=0 name=\"dd\"
end 134
";

/// A module.
const MODULE_6: &[u8] =
    b"\0asm\x01\0\0\0\x01\x11\x04`\x02\x7f~\0`\x01\x7f\0`\x01}\0`\0\0\x02\x0a\x01\x01m\x03tag\x04\0\x01\
\x03\x02\x01\x03\x0d\x05\x02\0\0\0\x02\x07\x09\x02\x01x\x04\x02\x01f\0\0\x0a\x11\x01\x0f\0\x06@A\
\x01B\x02\x08\x01\x07\x01\x1a\x1a\x0b\x0b\0\x16\x04name\x02\x03\x01\0\0\x04\x04\x01\0\x01t\x0a\x04\
\x01\x01\x01e";

/// Its dump.
const DUMP_6: &[u8] = b"version 0 8 1 module
section 1 10 27 4 type size=17
  11 type[0] type=(func (param i32 i64))
  16 type[1] type=(func (param i32))
  20 type[2] type=(func (param f32))
  24 type[3] type=(func)
section 2 29 39 1 import size=10
  30 tag[0] module=\"m\" name=\"tag\" ty=tag kind=exception func_type_idx=1
section 3 41 43 1 function size=2
  42 func[0] index=3
section 13 45 50 2 tag size=5
  46 tag[1] kind=exception func_type_idx=0
  48 tag[2] kind=exception func_type_idx=2
section 7 52 61 2 export size=9
  53 name=\"x\" kind=tag index=2
  57 name=\"f\" kind=func index=0
code 63 80 1 16 size=17
body 65 80 size=15 func[0]
custom 82 104 87 size=22 \"name\"
  section name=\"name\"
    87 local
      90 index=0
    92 type
      95 index=0 name=\"t\"
    98 field
      fault 104 unexpected end-of-file
end 104
";

/// Each module and its dump.
const DUMPS: [(&[u8], &[u8]); 6] = [
    (MODULE_1, DUMP_1),
    (MODULE_2, DUMP_2),
    (MODULE_3, DUMP_3),
    (MODULE_4, DUMP_4),
    (MODULE_5, DUMP_5),
    (MODULE_6, DUMP_6),
];

// Each stream ends well, and has its dump.
fn dump_all(rt: &impl Abort, alloc: Global, rows: &[(&[u8], &[u8])]) -> Result<(), Fail> {
    for (stream, text) in rows {
        dumps(rt, alloc, &[Only::All], stream, Ok(Ended::End), text)?;
    }
    Ok(())
}

#[test]
fn dumps_golden_streams(rt: HostRuntime) -> Result<(), Fail> {
    dump_all(&rt, rt.alloc(), &DUMPS)
}
