// Worked dumps with every kind of item, in which no two fields of an item have the same value. The lines were put together from the
// formats, and agree with a model of them.
use super::dumps;
use std::test::Fail;
use wasm_dumper::Only;
use wasm_parser::{Error, Fault};
use wasm_streams::Ended;

/// A module with each kind of section with every kind of item, and a fault in some.
const SECTIONS: &[u8] =
    b"\0asm\x01\0\0\0\x01\x3d\x03N\x04O\x01\x05\x60\x03\x7f\x7e\x7d\x02\x7c\x7bP\0\x5ex\x01P\x01\x84\x01\x5ew\0O\0\x5f\
\x05x\0w\x01c\x07\x01do\0\x7e\0\x60\x0cponmlkjiqrst\x01d\xc8\x01\x40\x02q\x0c\x01a\x01b\0\xac\x02\x01c\0\x01o\x05\
\x03\x09\0\x01d\x01d\x04\x03\x82\x01\x83\x01\x01e\x01f\x02\x0d\x05\x06\x07\x01g\x01h\x02\x03\x08\x0a\x01i\x01j\x03\
\x7f\x01\x01k\x01l\x03n\x02\x01m\x01n\x04\0\x0b\x01o\x01p\x20\x0c\x01q\0\x7f\x03\x01r\0\x0d\x01s\x04\0\x0e\x01\xff\
\0\0\x01t\0\x7e\x02\x08\x0f\x10\x02\x01u\x01v\x04w\"\\\x0a\x03x\xc3\xa9\0\x11\x03\x05\x03\x01\xc8\x01\x07\x04\x0e\
\x02p\x05\x15\x16\x40\0c\x18\x02\x17\xd0p\x0b\x05\x08\x02\x0d\x19\x1a\x1b\x02\x1c\0\x0d\x06\x02\0\x1d\0\xac\x02\x06\
\x23\x03\x7e\x01B\x1e\x0b\x7d\x02C\0\0\0\0\x0b\x7b\0\xfd\x0c\0\0\0\0\0\0\0\0\0\0\0\0\0\0\0\0\x0b\x07\x18\x06\x01\
f\0\x1f\x01t\x01\x20\x01m\x02\x21\x01g\x03\"\x01e\x04\x23\x01x\x20\x08\x01\x24\x09B\x09\0A\x01\x0b\x02\x25\x26\x01\
\0\x01\x27\x02\x28A\x02\x0b\0\x03\x29\xac\x02\x2a\x03\0\0\x04A\x03\x0b\x02\xd0p\x0b\xd2\x2b\x0b\x05o\x01\xd0o\x0b\
\x06\x2cA\xac\x02\x0bd\x2d\x01\xd2\x2e\x0b\x07cn\x02\xd0p\x0b\xd0p\x0b\x08\x0c\x01\x03\x0a\x0d\x03\x02\0\x0b\x03\
\0\x01\x0b\x04\x01\x02\x7f\x0b\x0b2\x03\0A\x2f\x0b\x03abc\x01\x11\0\x01\x02\x03\x04\x05\x06\x07\x08\x09\x0a\x0b\x0c\
\x0d\x0e\x0f\x10\x020A\x7f\x0b\x10\xf0\xf1\xf2\xf3\xf4\xf5\xf6\xf7\xf8\xf9\xfa\xfb\xfc\xfd\xfe\xff\x0e\x02\x01\x02\
\xff";

/// Its dump.
const SECTIONS_DUMP: &[u8] = b"version 0 8 1 module
section 1 10 71 3 type size=61
  11 explicit=true
    type[0] type=(sub final 5 (func (param i32 i64 f32) (result f64 v128)))
    type[1] type=(sub (array (mut i8)))
    type[2] type=(sub 132 (array i16))
    type[3] type=(struct (field i8) (field (mut i16)) (field (mut (ref null 7))) (field (ref extern)) (field i64))
  52 type[4] type=(func (param (ref null func) (ref null extern) (ref null any) (ref null eq) (ref null i31) (ref null struct) (ref null array) (ref null exn) (ref null none) (ref null noextern) (ref null nofunc) (ref null noexn)) (result (ref 200)))
  fault 70 invalid leading byte for composite type: 64
section 2 73 186 12 import size=113
  74 func[0] module=\"a\" name=\"b\" ty=func index=300
  81 table[0] module=\"c\" name=\"\" ty=table element_type=(ref null extern) table64=true initial=3 maximum=9
  89 table[1] module=\"\" name=\"d\" ty=table element_type=(ref 4) initial=130 maximum=131 shared=true
  100 memory[0] module=\"e\" name=\"f\" ty=memory memory64=true initial=5 maximum=6 page_size_log2=7
  109 memory[1] module=\"g\" name=\"h\" ty=memory shared=true initial=8 maximum=10
  117 global[0] module=\"i\" name=\"j\" ty=global content_type=(mut i32)
  124 global[1] module=\"k\" name=\"l\" ty=global content_type=(ref null any) shared=true
  131 tag[0] module=\"m\" name=\"n\" ty=tag kind=exception func_type_idx=11
  138 func[1] module=\"o\" name=\"p\" ty=func_exact index=12
  149 func[2] module=\"q\" name=\"r\" ty=func index=13
  153 tag[1] module=\"q\" name=\"s\" ty=tag kind=exception func_type_idx=14
  fault 159 malformed UTF-8 encoding
  171 memory[2] module=\"t\" name=\"u\" ty=memory initial=15 page_size_log2=16
  173 memory[3] module=\"t\" name=\"v\" ty=memory initial=15 page_size_log2=16
  175 func[3] module=\"w\\22\\5c\\0a\" name=\"x\\c3\\a9\" ty=func index=17
section 3 188 193 3 function size=5
  189 func[4] index=1
  190 func[5] index=200
  192 func[6] index=7
section 4 195 209 2 table size=14
  196 table[2] element_type=(ref null func) table64=true initial=21 maximum=22 init=null
  200 table[3] element_type=(ref null 24) initial=23 shared=true init=(ref.null func)
section 5 211 219 2 memory size=8
  212 memory[4] memory64=true initial=25 maximum=26 page_size_log2=27
  216 memory[5] shared=true initial=28
  fault 218 section size mismatch: unexpected data at the end of the section
section 13 221 227 2 tag size=6
  222 tag[2] kind=exception func_type_idx=29
  224 tag[3] kind=exception func_type_idx=300
section 6 229 264 3 global size=35
  230 global[2] content_type=(mut i64) init_expr=(i64.const 30)
  235 global[3] content_type=f32 shared=true init_expr=(f32.const bits=0)
  243 global[4] content_type=v128 init_expr=(v128.const 00000000000000000000000000000000)
section 7 266 290 6 export size=24
  267 name=\"f\" kind=func index=31
  271 name=\"t\" kind=table index=32
  275 name=\"m\" kind=memory index=33
  279 name=\"g\" kind=global index=34
  283 name=\"e\" kind=tag index=35
  fault 290 Exact type is not allowed in the exports
start 292 293 36 size=1
section 9 295 361 9 element size=66
  296 elem[0] kind=active offset_expr=(i32.const 1) functions=300..303 count=2 range=296..303
    301 index=37
    302 index=38
  303 elem[1] kind=passive functions=305..307 count=1 range=303..307
    306 index=39
  307 elem[2] kind=active table_index=40 offset_expr=(i32.const 2) functions=313..318 count=3 range=307..318
    314 index=41
    315 index=300
    317 index=42
  318 elem[3] kind=declared functions=320..321 count=0 range=318..321
  321 elem[4] kind=active offset_expr=(i32.const 3) expressions=325..332 count=2 type=(ref null func) range=321..332
    326 expr=(ref.null func)
    329 expr=(ref.func 43)
  332 elem[5] kind=passive expressions=334..338 count=1 type=(ref null extern) range=332..338
    335 expr=(ref.null extern)
  338 elem[6] kind=active table_index=44 offset_expr=(i32.const 300) expressions=346..350 count=1 type=(ref 45) range=338..350
    347 expr=(ref.func 46)
  350 elem[7] kind=declared expressions=353..360 count=2 type=(ref null any) range=350..360
    354 expr=(ref.null func)
    357 expr=(ref.null func)
  fault 360 invalid flags byte in element segment
datacount 363 364 3 size=1
code 366 379 3 12 size=13
body 368 370 size=2 func[4]
body 371 374 size=3 func[5]
body 375 379 size=4 func[6]
section 11 381 431 3 data size=50
  382 data[0] kind=active memory_index=0 offset_expr=(i32.const 47) data=3:616263 range=382..390
  390 data[1] kind=passive data=17:000102030405060708090a0b0c0d0e0f.. range=390..409
  409 data[2] kind=active memory_index=48 offset_expr=(i32.const -1) data=16:f0f1f2f3f4f5f6f7f8f9fafbfcfdfeff range=409..431
unknown 14 433 435 size=2
fault 435 malformed section id
";

/// A module with names of all kinds, branch hints and producers, with faults in their places.
const NAMES: &[u8] =
    b"\0asm\x01\0\0\0\0\x97\x01\x04name\0\x04\x03top\0\x03\x01a\xff\x01\x0a\x03\x01\x01a\x01\x01b\x03\x01c\x02\x16\x03\
\x04\x03\x05\x01d\x05\x01e\x06\x01f\x02\x01\x07\x01g\x08\x01\x09\x01h\x02\x01\0\x03\x06\x01\x0a\x01\x0b\x01i\x04\
\x04\x01\x0c\x01j\x05\x04\x01\x0d\x01k\x06\x04\x01\x0e\x01l\x07\x04\x01\x0f\x01m\x08\x04\x01\x10\x01n\x09\x04\x01\
\x11\x01o\x0a\x06\x01\x12\x01\x13\x01p\x0b\x04\x01\x14\x01q\x0c\x06\x01\x15\x01\x16\x01r\x0d\x06\x01\x17\x01\x18\
\x01s\x0e\x12\x01\x02\x03\x04\x05\x06\x07\x08\x09\x0a\x0b\x0c\x0d\x0e\x0f\x10\x11\x12\x19\0\0\x28\x19metadata\x2e\
code\x2ebranch\x5fhint\x02\x1a\x02\x1b\x01\x01\x1c\x01\0\x1d\x01\x1e\x01\x01\0\x3c\x09producers\x04\x08language\x02\
\x01A\x011\x01B\x032\x2e0\x03sdk\x01\x01C\0\x0cprocessed\x2dby\x01\x01D\x013\x01x\0\0\x0c\x08sour\"ce\x0axyz\0\x0b\
\x09producers\x80";

/// Its dump.
const NAMES_DUMP: &[u8] = b"version 0 8 1 module
custom 11 162 16 size=151 \"name\"
  section name=\"name\"
    16 module name=\"top\" range=18..22
    fault 26 trailing data at the end of a name
    27 function
      30 index=1 name=\"a\"
      fault 33 names out of order
      36 index=3 name=\"c\"
    39 local
      42 index=4
        44 index=5 name=\"d\"
        fault 47 names out of order
        50 index=6 name=\"f\"
      fault 53 indirect names out of order
      58 index=8
        60 index=9 name=\"h\"
    fault 63 name subsection out of order
    66 label
      69 index=10
        71 index=11 name=\"i\"
    74 type
      77 index=12 name=\"j\"
    80 table
      83 index=13 name=\"k\"
    86 memory
      89 index=14 name=\"l\"
    92 global
      95 index=15 name=\"m\"
    98 element
      101 index=16 name=\"n\"
    104 data
      107 index=17 name=\"o\"
    110 field
      113 index=18
        115 index=19 name=\"p\"
    118 tag
      121 index=20 name=\"q\"
    124 parameter
      127 index=21
        129 index=22 name=\"r\"
    132 tag_parameter
      135 index=23
        137 index=24 name=\"s\"
    140 unknown ty=14 contents=18:0102030405060708090a0b0c0d0e0f10.. range=142..160
    160 unknown ty=25 contents=0: range=162..162
custom 164 204 190 size=40 \"metadata.code.branch_hint\"
  section name=\"metadata.code.branch_hint\" functions=190..204 count=2
    191 func=26 hints=192..199 count=2
      193 func_offset=27 taken=true
      196 func_offset=28
    199 func=29 hints=200..204 count=1
      201 func_offset=30 taken=true
custom 206 266 216 size=60 \"producers\"
  section name=\"producers\" fields=216..266 count=4
    217 name=\"language\" values=226..237 count=2
      227 name=\"A\" version=\"1\"
      231 name=\"B\" version=\"2.0\"
    237 name=\"sdk\" values=241..245 count=1
      242 name=\"C\" version=\"\"
    245 name=\"processed-by\" values=258..263 count=1
      259 name=\"D\" version=\"3\"
    fault 263 invalid producers field name
custom 268 280 277 size=12 \"sour\\22ce\\0a\"
  section name=\"sour\\22ce\\0a\" unknown
custom 282 293 292 size=11 \"producers\"
  section name=\"producers\" unknown
end 293
";

/// A module with sections for linkers, with symbols and relocations of all kinds, and faults in their places.
const LINKING: &[u8] =
    b"\0asm\x01\0\0\0\0I\x08dylink\x2e0\x01\x05\x01\x02\xac\x02\x04\x02\x0b\x02\x04a\x2eso\x04b\x2eso\x03\x08\x02\x01e\
\x05\x01f\x84\x02\x02\x02\x01\x05\x04\x06\x01\x01m\x01g\x10\x05\x07\x02\x02\x2fx\x02\x2fy\x06\x07\x06wasm64\x07\x02\
\x08\x09\0s\x07linking\x02\x05\x0a\x02\x01p\x0c\x0d\x01q\x0e\xac\x02\x06\x05\x02\x0f\x10\x11\x12\x07\x15\x02\x01\
r\x13\x06\0\x14\x01\x15\x02\x16\x03\x17\x04\x18\x05\x19\x01s\x1a\0\x05\x01\x80\x08\x2f\x0a\0\x01\x02\x01h\0\x10\x03\
\0P\x04\x01i\x01\x80\x01\x01j\x05\x06\x07\x01\x10\x01k\x02\x04\x08\x01l\x03\x02\x09\x04\x20\x0a\x01n\x05\x80\x04\
\x0b\x01o\x06\0\x09\x07\x06wasm32\x0a\x01\x01\0s\x0areloc\x2eCODE\x1d\x1c\0\x1eF\x01\x1fG\x02\x20H\x03\x21I\x7c\x04\
\"J\x7b\x05\x23K\x82\x01\x06\x24L\x07\x25M\x08\x26Nw\x09\x27Ov\x0a\x28P\x0b\x29Qt\x0c\x2aR\x0d\x2bS\x0e\x2cT\x0f\
\x0f\x2dU\x10\x10\x2eV\x80\x80\x80\x80\x80\x60\x11\x2fW\x12\x120X\x131Y\x142Z\x153\x5bj\x164\\\x17\x175\x5dh\x18\
6\x5e\x197\x5f\x1a\x1a8\x60\x1b";

/// Its dump.
const LINKING_DUMP: &[u8] = b"version 0 8 1 module
custom 10 83 19 size=73 \"dylink.0\"
  section name=\"dylink.0\"
    19 mem_info memory_size=1 memory_alignment=2 table_size=300 table_alignment=4
    26 needed
      library name=\"a.so\"
      library name=\"b.so\"
    39 export_info
      export name=\"e\" flags=BINDING_WEAK | VISIBILITY_HIDDEN
      export name=\"f\" flags=VISIBILITY_HIDDEN | TLS
    fault 53 unexpected end-of-file
    53 import_info
      import module=\"m\" field=\"g\" flags=UNDEFINED
    61 runtime_path
      folder name=\"/x\"
      folder name=\"/y\"
    70 target_arch=\"wasm64\"
    79 unknown ty=7 contents=2:0809 range=81..83
custom 85 200 93 size=115 \"linking\"
  section name=\"linking\" version=2 range=93..200 subsections=94
    94 segment_info=96..106 count=2
      97 name=\"p\" alignment=12 flags=STRINGS | RETAIN | 8
      101 name=\"q\" alignment=14 flags=RETAIN | 296
    106 init_funcs=108..113 count=2
      109 priority=15 symbol_index=16
      111 priority=17 symbol_index=18
    113 comdat_info=115..136 count=2
      116 name=\"r\" flags=19 symbols=119..132 count=6
        120 kind=data index=20
        122 kind=func index=21
        124 kind=global index=22
        126 kind=event index=23
        128 kind=table index=24
        130 kind=section index=25
      132 name=\"s\" flags=26 symbols=135..136 count=0
    fault 139 unexpected end-of-file
    139 symbol_table=141..188 count=10
      142 symbol[0] func flags=BINDING_WEAK index=2 name=\"h\"
      147 symbol[1] func flags=UNDEFINED index=3
      150 symbol[2] func flags=UNDEFINED | EXPLICIT_NAME index=4 name=\"i\"
      155 symbol[3] data flags=NO_STRIP name=\"j\" index=5 offset=6 size=7
      163 symbol[4] data flags=UNDEFINED name=\"k\" undefined
      167 symbol[5] global flags=VISIBILITY_HIDDEN index=8 name=\"l\"
      172 symbol[6] section flags=BINDING_LOCAL section=9
      175 symbol[7] event flags=EXPORTED index=10 name=\"n\"
      180 symbol[8] table flags=ABSOLUTE index=11 name=\"o\"
      fault 186 invalid leading byte for symbol kind: 6
    188 target_arch=\"wasm32\"
    197 unknown ty=10 contents=1:01 range=199..200
custom 202 317 213 size=115 \"reloc.CODE\"
  section name=\"reloc.CODE\" section=29 range=213..317 entries=214..317 count=28
    215 type=R_WASM_FUNCTION_INDEX_LEB offset=30 index=70 addend=0
    218 type=R_WASM_TABLE_INDEX_SLEB offset=31 index=71 addend=0
    221 type=R_WASM_TABLE_INDEX_I32 offset=32 index=72 addend=0
    224 type=R_WASM_MEMORY_ADDR_LEB offset=33 index=73 addend=-4
    228 type=R_WASM_MEMORY_ADDR_SLEB offset=34 index=74 addend=-5
    232 type=R_WASM_MEMORY_ADDR_I32 offset=35 index=75 addend=130
    237 type=R_WASM_TYPE_INDEX_LEB offset=36 index=76 addend=0
    240 type=R_WASM_GLOBAL_INDEX_LEB offset=37 index=77 addend=0
    243 type=R_WASM_FUNCTION_OFFSET_I32 offset=38 index=78 addend=-9
    247 type=R_WASM_SECTION_OFFSET_I32 offset=39 index=79 addend=-10
    251 type=R_WASM_EVENT_INDEX_LEB offset=40 index=80 addend=0
    254 type=R_WASM_MEMORY_ADDR_REL_SLEB offset=41 index=81 addend=-12
    258 type=R_WASM_TABLE_INDEX_REL_SLEB offset=42 index=82 addend=0
    261 type=R_WASM_GLOBAL_INDEX_I32 offset=43 index=83 addend=0
    264 type=R_WASM_MEMORY_ADDR_LEB64 offset=44 index=84 addend=15
    268 type=R_WASM_MEMORY_ADDR_SLEB64 offset=45 index=85 addend=16
    272 type=R_WASM_MEMORY_ADDR_I64 offset=46 index=86 addend=-1099511627776
    281 type=R_WASM_MEMORY_ADDR_REL_SLEB64 offset=47 index=87 addend=18
    285 type=R_WASM_TABLE_INDEX_SLEB64 offset=48 index=88 addend=0
    288 type=R_WASM_TABLE_INDEX_I64 offset=49 index=89 addend=0
    291 type=R_WASM_TABLE_NUMBER_LEB offset=50 index=90 addend=0
    294 type=R_WASM_MEMORY_ADDR_TLS_SLEB offset=51 index=91 addend=-22
    298 type=R_WASM_FUNCTION_OFFSET_I64 offset=52 index=92 addend=23
    302 type=R_WASM_MEMORY_ADDR_LOCREL_I32 offset=53 index=93 addend=-24
    306 type=R_WASM_TABLE_INDEX_REL_SLEB64 offset=54 index=94 addend=0
    309 type=R_WASM_MEMORY_ADDR_TLS_SLEB64 offset=55 index=95 addend=26
    313 type=R_WASM_FUNCTION_INDEX_I32 offset=56 index=96 addend=0
    fault 316 invalid leading byte for RelocEntryType: 27
end 317
";

/// A module with core dumps, and sections whose data is not known.
const CORE: &[u8] =
    b"\0asm\x01\0\0\0\0\x10\x04core\0\x09test\x2ewasm\0\x13\x0bcoremodules\x02\0\x01a\0\x01b\0\x1d\x0dcoreinstances\x02\
\0\x01\x02\x02\xac\x02\x01\x04\0\x05\0\x02\x06\x07\0\x3b\x09corestack\0\x04main\x02\0\x01\x02\xac\x02\x03\x7f\x7c\
\x7e\x80\x80\x80\x80\x80\x60\x01\x03\x7d\0\0\x80\x3f\x7c\0\0\0\0\0\0\xf0\x3f\x7f\x05\0\x06\x07\x08\0\x02\x01\x7e\
\x09\0\x0e\x0bcoremodules\x01\x01\0\x01\0";

/// Its dump.
const CORE_DUMP: &[u8] = b"version 0 8 1 module
custom 10 26 15 size=16 \"core\"
  section name=\"core\" process=\"test.wasm\"
custom 28 47 40 size=19 \"coremodules\"
  section name=\"coremodules\" modules=2
    module name=\"a\"
    module name=\"b\"
custom 49 78 63 size=29 \"coreinstances\"
  section name=\"coreinstances\" instances=2
    instance module_index=1
      memory=2
      memory=300
      global=4
    instance module_index=5
      global=6
      global=7
custom 80 139 90 size=59 \"corestack\"
  section name=\"corestack\" thread=\"main\" frames=2
    frame instanceidx=1 funcidx=2 codeoffset=300
      local i32=-4
      local i64=-1099511627776
      local missing
      stack f32_bits=1065353216
      stack f64_bits=4607182418800017408
      stack i32=5
    frame instanceidx=6 funcidx=7 codeoffset=8
      stack missing
      stack i64=9
custom 141 155 153 size=14 \"coremodules\"
  section name=\"coremodules\" unknown
custom 157 158 158 size=1 \"\"
  section name=\"\" unknown
end 158
";

// By functions, since a proof over them knows nothing of their bytes.
pub(super) fn sections() -> (&'static [u8], &'static [u8]) {
    (SECTIONS, SECTIONS_DUMP)
}

pub(super) fn names() -> (&'static [u8], &'static [u8]) {
    (NAMES, NAMES_DUMP)
}

pub(super) fn linking() -> (&'static [u8], &'static [u8]) {
    (LINKING, LINKING_DUMP)
}

pub(super) fn core() -> (&'static [u8], &'static [u8]) {
    (CORE, CORE_DUMP)
}

#[test]
fn shows_sections_of_each_kind(rt: HostRuntime) -> Result<(), Fail> {
    let (stream, text) = sections();
    let how = Ok(Ended::Fault(Error::new(Fault::MalformedSectionId, 435)));
    dumps(&rt, rt.alloc(), &[Only::All], stream, how, text)
}

#[test]
fn shows_names_hints_and_producers(rt: HostRuntime) -> Result<(), Fail> {
    let (stream, text) = names();
    dumps(&rt, rt.alloc(), &[Only::All], stream, Ok(Ended::End), text)
}

#[test]
fn shows_what_linkers_read(rt: HostRuntime) -> Result<(), Fail> {
    let (stream, text) = linking();
    dumps(&rt, rt.alloc(), &[Only::All], stream, Ok(Ended::End), text)
}

#[test]
fn shows_core_dumps(rt: HostRuntime) -> Result<(), Fail> {
    let (stream, text) = core();
    dumps(&rt, rt.alloc(), &[Only::All], stream, Ok(Ended::End), text)
}
