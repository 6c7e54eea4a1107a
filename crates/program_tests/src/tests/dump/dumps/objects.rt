// Worked dumps as objects of JSON, whole: each value is that of its line in the worked dump, as tools/compare forms compares them.
use super::worked::{core, linking, names, sections};
use crate::tests::dump::named::{Form, dumped};
use std::alloc::Global;
use std::process::Abort;
use std::test::Fail;

/// The objects of a module with each kind of section.
const SECTIONS: &[u8] = b"{\"event\":\"version\",\"range\":[0,8],\"num\":1,\"encoding\":\"module\"}
{\"event\":\"section\",\"range\":[10,71],\"id\":1,\"name\":\"type\",\"count\":3}
{\"level\":1,\"at\":11,\"explicit\":true}
{\"level\":2,\"space\":\"type\",\"number\":0,\"type\":\"(sub final 5 (func (param i32 i64 f32) (result f64 v128)))\"}
{\"level\":2,\"space\":\"type\",\"number\":1,\"type\":\"(sub (array (mut i8)))\"}
{\"level\":2,\"space\":\"type\",\"number\":2,\"type\":\"(sub 132 (array i16))\"}
{\"level\":2,\"space\":\"type\",\"number\":3,\"type\":\"(struct (field i8) (field (mut i16)) (field (mut (ref null 7))) (field (ref extern)) (field i64))\"}
{\"level\":1,\"at\":52,\"space\":\"type\",\"number\":4,\"explicit\":false,\"type\":\"(func (param (ref null func) (ref null extern) (ref null any) (ref null eq) (ref null i31) (ref null struct) (ref null array) (ref null exn) (ref null none) (ref null noextern) (ref null nofunc) (ref null noexn)) (result (ref 200)))\"}
{\"level\":1,\"fault\":\"invalid leading byte for composite type\",\"offset\":70,\"number\":64}
{\"event\":\"section\",\"range\":[73,186],\"id\":2,\"name\":\"import\",\"count\":12}
{\"level\":1,\"at\":74,\"space\":\"func\",\"number\":0,\"module\":\"a\",\"name\":\"b\",\"ty\":\"func\",\"index\":300}
{\"level\":1,\"at\":81,\"space\":\"table\",\"number\":0,\"module\":\"c\",\"name\":\"\",\"ty\":\"table\",\"element_type\":\"(ref null extern)\",\"table64\":true,\"initial\":3,\"maximum\":9,\"shared\":false}
{\"level\":1,\"at\":89,\"space\":\"table\",\"number\":1,\"module\":\"\",\"name\":\"d\",\"ty\":\"table\",\"element_type\":\"(ref 4)\",\"table64\":false,\"initial\":130,\"maximum\":131,\"shared\":true}
{\"level\":1,\"at\":100,\"space\":\"memory\",\"number\":0,\"module\":\"e\",\"name\":\"f\",\"ty\":\"memory\",\"memory64\":true,\"shared\":false,\"initial\":5,\"maximum\":6,\"page_size_log2\":7}
{\"level\":1,\"at\":109,\"space\":\"memory\",\"number\":1,\"module\":\"g\",\"name\":\"h\",\"ty\":\"memory\",\"memory64\":false,\"shared\":true,\"initial\":8,\"maximum\":10,\"page_size_log2\":null}
{\"level\":1,\"at\":117,\"space\":\"global\",\"number\":0,\"module\":\"i\",\"name\":\"j\",\"ty\":\"global\",\"content_type\":\"(mut i32)\",\"shared\":false}
{\"level\":1,\"at\":124,\"space\":\"global\",\"number\":1,\"module\":\"k\",\"name\":\"l\",\"ty\":\"global\",\"content_type\":\"(ref null any)\",\"shared\":true}
{\"level\":1,\"at\":131,\"space\":\"tag\",\"number\":0,\"module\":\"m\",\"name\":\"n\",\"ty\":\"tag\",\"kind\":\"exception\",\"func_type_idx\":11}
{\"level\":1,\"at\":138,\"space\":\"func\",\"number\":1,\"module\":\"o\",\"name\":\"p\",\"ty\":\"func_exact\",\"index\":12}
{\"level\":1,\"at\":149,\"space\":\"func\",\"number\":2,\"module\":\"q\",\"name\":\"r\",\"ty\":\"func\",\"index\":13}
{\"level\":1,\"at\":153,\"space\":\"tag\",\"number\":1,\"module\":\"q\",\"name\":\"s\",\"ty\":\"tag\",\"kind\":\"exception\",\"func_type_idx\":14}
{\"level\":1,\"fault\":\"malformed UTF-8 encoding\",\"offset\":159,\"number\":null}
{\"level\":1,\"at\":171,\"space\":\"memory\",\"number\":2,\"module\":\"t\",\"name\":\"u\",\"ty\":\"memory\",\"memory64\":false,\"shared\":false,\"initial\":15,\"maximum\":null,\"page_size_log2\":16}
{\"level\":1,\"at\":173,\"space\":\"memory\",\"number\":3,\"module\":\"t\",\"name\":\"v\",\"ty\":\"memory\",\"memory64\":false,\"shared\":false,\"initial\":15,\"maximum\":null,\"page_size_log2\":16}
{\"level\":1,\"at\":175,\"space\":\"func\",\"number\":3,\"module\":\"w\\\"\\\\\\u000a\",\"name\":\"x\xc3\xa9\",\"ty\":\"func\",\"index\":17}
{\"event\":\"section\",\"range\":[188,193],\"id\":3,\"name\":\"function\",\"count\":3}
{\"level\":1,\"at\":189,\"space\":\"func\",\"number\":4,\"index\":1}
{\"level\":1,\"at\":190,\"space\":\"func\",\"number\":5,\"index\":200}
{\"level\":1,\"at\":192,\"space\":\"func\",\"number\":6,\"index\":7}
{\"event\":\"section\",\"range\":[195,209],\"id\":4,\"name\":\"table\",\"count\":2}
{\"level\":1,\"at\":196,\"space\":\"table\",\"number\":2,\"element_type\":\"(ref null func)\",\"table64\":true,\"initial\":21,\"maximum\":22,\"shared\":false,\"init\":\"null\"}
{\"level\":1,\"at\":200,\"space\":\"table\",\"number\":3,\"element_type\":\"(ref null 24)\",\"table64\":false,\"initial\":23,\"maximum\":null,\"shared\":true,\"init\":\"(ref.null func)\"}
{\"event\":\"section\",\"range\":[211,219],\"id\":5,\"name\":\"memory\",\"count\":2}
{\"level\":1,\"at\":212,\"space\":\"memory\",\"number\":4,\"memory64\":true,\"shared\":false,\"initial\":25,\"maximum\":26,\"page_size_log2\":27}
{\"level\":1,\"at\":216,\"space\":\"memory\",\"number\":5,\"memory64\":false,\"shared\":true,\"initial\":28,\"maximum\":null,\"page_size_log2\":null}
{\"level\":1,\"fault\":\"section size mismatch: unexpected data at the end of the section\",\"offset\":218,\"number\":null}
{\"event\":\"section\",\"range\":[221,227],\"id\":13,\"name\":\"tag\",\"count\":2}
{\"level\":1,\"at\":222,\"space\":\"tag\",\"number\":2,\"kind\":\"exception\",\"func_type_idx\":29}
{\"level\":1,\"at\":224,\"space\":\"tag\",\"number\":3,\"kind\":\"exception\",\"func_type_idx\":300}
{\"event\":\"section\",\"range\":[229,264],\"id\":6,\"name\":\"global\",\"count\":3}
{\"level\":1,\"at\":230,\"space\":\"global\",\"number\":2,\"content_type\":\"(mut i64)\",\"shared\":false,\"init_expr\":\"(i64.const 30)\"}
{\"level\":1,\"at\":235,\"space\":\"global\",\"number\":3,\"content_type\":\"f32\",\"shared\":true,\"init_expr\":\"(f32.const bits=0)\"}
{\"level\":1,\"at\":243,\"space\":\"global\",\"number\":4,\"content_type\":\"v128\",\"shared\":false,\"init_expr\":\"(v128.const 00000000000000000000000000000000)\"}
{\"event\":\"section\",\"range\":[266,290],\"id\":7,\"name\":\"export\",\"count\":6}
{\"level\":1,\"at\":267,\"name\":\"f\",\"kind\":\"func\",\"index\":31}
{\"level\":1,\"at\":271,\"name\":\"t\",\"kind\":\"table\",\"index\":32}
{\"level\":1,\"at\":275,\"name\":\"m\",\"kind\":\"memory\",\"index\":33}
{\"level\":1,\"at\":279,\"name\":\"g\",\"kind\":\"global\",\"index\":34}
{\"level\":1,\"at\":283,\"name\":\"e\",\"kind\":\"tag\",\"index\":35}
{\"level\":1,\"fault\":\"Exact type is not allowed in the exports\",\"offset\":290,\"number\":null}
{\"event\":\"section\",\"range\":[292,293],\"id\":8,\"name\":\"start\",\"func\":36}
{\"event\":\"section\",\"range\":[295,361],\"id\":9,\"name\":\"element\",\"count\":9}
{\"level\":1,\"at\":296,\"space\":\"elem\",\"number\":0,\"kind\":\"active\",\"table_index\":null,\"offset_expr\":\"(i32.const 1)\",\"functions\":[300,303],\"count\":2,\"range\":[296,303]}
{\"level\":2,\"at\":301,\"index\":37}
{\"level\":2,\"at\":302,\"index\":38}
{\"level\":1,\"at\":303,\"space\":\"elem\",\"number\":1,\"kind\":\"passive\",\"functions\":[305,307],\"count\":1,\"range\":[303,307]}
{\"level\":2,\"at\":306,\"index\":39}
{\"level\":1,\"at\":307,\"space\":\"elem\",\"number\":2,\"kind\":\"active\",\"table_index\":40,\"offset_expr\":\"(i32.const 2)\",\"functions\":[313,318],\"count\":3,\"range\":[307,318]}
{\"level\":2,\"at\":314,\"index\":41}
{\"level\":2,\"at\":315,\"index\":300}
{\"level\":2,\"at\":317,\"index\":42}
{\"level\":1,\"at\":318,\"space\":\"elem\",\"number\":3,\"kind\":\"declared\",\"functions\":[320,321],\"count\":0,\"range\":[318,321]}
{\"level\":1,\"at\":321,\"space\":\"elem\",\"number\":4,\"kind\":\"active\",\"table_index\":null,\"offset_expr\":\"(i32.const 3)\",\"expressions\":[325,332],\"count\":2,\"type\":\"(ref null func)\",\"range\":[321,332]}
{\"level\":2,\"at\":326,\"expr\":\"(ref.null func)\"}
{\"level\":2,\"at\":329,\"expr\":\"(ref.func 43)\"}
{\"level\":1,\"at\":332,\"space\":\"elem\",\"number\":5,\"kind\":\"passive\",\"expressions\":[334,338],\"count\":1,\"type\":\"(ref null extern)\",\"range\":[332,338]}
{\"level\":2,\"at\":335,\"expr\":\"(ref.null extern)\"}
{\"level\":1,\"at\":338,\"space\":\"elem\",\"number\":6,\"kind\":\"active\",\"table_index\":44,\"offset_expr\":\"(i32.const 300)\",\"expressions\":[346,350],\"count\":1,\"type\":\"(ref 45)\",\"range\":[338,350]}
{\"level\":2,\"at\":347,\"expr\":\"(ref.func 46)\"}
{\"level\":1,\"at\":350,\"space\":\"elem\",\"number\":7,\"kind\":\"declared\",\"expressions\":[353,360],\"count\":2,\"type\":\"(ref null any)\",\"range\":[350,360]}
{\"level\":2,\"at\":354,\"expr\":\"(ref.null func)\"}
{\"level\":2,\"at\":357,\"expr\":\"(ref.null func)\"}
{\"level\":1,\"fault\":\"invalid flags byte in element segment\",\"offset\":360,\"number\":null}
{\"event\":\"section\",\"range\":[363,364],\"id\":12,\"name\":\"datacount\",\"count\":3}
{\"event\":\"section\",\"range\":[366,379],\"id\":10,\"name\":\"code\",\"count\":3,\"size\":12}
{\"event\":\"body\",\"range\":[368,370],\"space\":\"func\",\"number\":4}
{\"event\":\"body\",\"range\":[371,374],\"space\":\"func\",\"number\":5}
{\"event\":\"body\",\"range\":[375,379],\"space\":\"func\",\"number\":6}
{\"event\":\"section\",\"range\":[381,431],\"id\":11,\"name\":\"data\",\"count\":3}
{\"level\":1,\"at\":382,\"space\":\"data\",\"number\":0,\"kind\":\"active\",\"memory_index\":0,\"offset_expr\":\"(i32.const 47)\",\"data\":\"3:616263\",\"range\":[382,390]}
{\"level\":1,\"at\":390,\"space\":\"data\",\"number\":1,\"kind\":\"passive\",\"data\":\"17:000102030405060708090a0b0c0d0e0f\",\"range\":[390,409]}
{\"level\":1,\"at\":409,\"space\":\"data\",\"number\":2,\"kind\":\"active\",\"memory_index\":48,\"offset_expr\":\"(i32.const -1)\",\"data\":\"16:f0f1f2f3f4f5f6f7f8f9fafbfcfdfeff\",\"range\":[409,431]}
{\"event\":\"section\",\"range\":[433,435],\"id\":14,\"name\":null}
{\"event\":\"fault\",\"fault\":\"malformed section id\",\"offset\":435,\"number\":null}
";

/// The objects of names of all kinds, branch hints and producers.
const NAMES: &[u8] = b"{\"event\":\"version\",\"range\":[0,8],\"num\":1,\"encoding\":\"module\"}
{\"event\":\"section\",\"range\":[11,162],\"id\":0,\"name\":\"custom\",\"custom_name\":\"name\",\"data_offset\":16}
{\"level\":1,\"line\":\"section\",\"name\":\"name\"}
{\"level\":2,\"at\":16,\"kind\":\"module\",\"name\":\"top\",\"range\":[18,22]}
{\"level\":2,\"fault\":\"trailing data at the end of a name\",\"offset\":26,\"number\":null}
{\"level\":2,\"at\":27,\"kind\":\"function\"}
{\"level\":3,\"at\":30,\"index\":1,\"name\":\"a\"}
{\"level\":3,\"fault\":\"names out of order\",\"offset\":33,\"number\":null}
{\"level\":3,\"at\":36,\"index\":3,\"name\":\"c\"}
{\"level\":2,\"at\":39,\"kind\":\"local\"}
{\"level\":3,\"at\":42,\"index\":4}
{\"level\":4,\"at\":44,\"index\":5,\"name\":\"d\"}
{\"level\":4,\"fault\":\"names out of order\",\"offset\":47,\"number\":null}
{\"level\":4,\"at\":50,\"index\":6,\"name\":\"f\"}
{\"level\":3,\"fault\":\"indirect names out of order\",\"offset\":53,\"number\":null}
{\"level\":3,\"at\":58,\"index\":8}
{\"level\":4,\"at\":60,\"index\":9,\"name\":\"h\"}
{\"level\":2,\"fault\":\"name subsection out of order\",\"offset\":63,\"number\":null}
{\"level\":2,\"at\":66,\"kind\":\"label\"}
{\"level\":3,\"at\":69,\"index\":10}
{\"level\":4,\"at\":71,\"index\":11,\"name\":\"i\"}
{\"level\":2,\"at\":74,\"kind\":\"type\"}
{\"level\":3,\"at\":77,\"index\":12,\"name\":\"j\"}
{\"level\":2,\"at\":80,\"kind\":\"table\"}
{\"level\":3,\"at\":83,\"index\":13,\"name\":\"k\"}
{\"level\":2,\"at\":86,\"kind\":\"memory\"}
{\"level\":3,\"at\":89,\"index\":14,\"name\":\"l\"}
{\"level\":2,\"at\":92,\"kind\":\"global\"}
{\"level\":3,\"at\":95,\"index\":15,\"name\":\"m\"}
{\"level\":2,\"at\":98,\"kind\":\"element\"}
{\"level\":3,\"at\":101,\"index\":16,\"name\":\"n\"}
{\"level\":2,\"at\":104,\"kind\":\"data\"}
{\"level\":3,\"at\":107,\"index\":17,\"name\":\"o\"}
{\"level\":2,\"at\":110,\"kind\":\"field\"}
{\"level\":3,\"at\":113,\"index\":18}
{\"level\":4,\"at\":115,\"index\":19,\"name\":\"p\"}
{\"level\":2,\"at\":118,\"kind\":\"tag\"}
{\"level\":3,\"at\":121,\"index\":20,\"name\":\"q\"}
{\"level\":2,\"at\":124,\"kind\":\"parameter\"}
{\"level\":3,\"at\":127,\"index\":21}
{\"level\":4,\"at\":129,\"index\":22,\"name\":\"r\"}
{\"level\":2,\"at\":132,\"kind\":\"tag_parameter\"}
{\"level\":3,\"at\":135,\"index\":23}
{\"level\":4,\"at\":137,\"index\":24,\"name\":\"s\"}
{\"level\":2,\"at\":140,\"kind\":\"unknown\",\"ty\":14,\"contents\":\"18:0102030405060708090a0b0c0d0e0f10\",\"range\":[142,160]}
{\"level\":2,\"at\":160,\"kind\":\"unknown\",\"ty\":25,\"contents\":\"0:\",\"range\":[162,162]}
{\"event\":\"section\",\"range\":[164,204],\"id\":0,\"name\":\"custom\",\"custom_name\":\"metadata.code.branch_hint\",\"data_offset\":190}
{\"level\":1,\"line\":\"section\",\"name\":\"metadata.code.branch_hint\",\"functions\":[190,204],\"count\":2}
{\"level\":2,\"at\":191,\"func\":26,\"hints\":[192,199],\"count\":2}
{\"level\":3,\"at\":193,\"func_offset\":27,\"taken\":true}
{\"level\":3,\"at\":196,\"func_offset\":28,\"taken\":false}
{\"level\":2,\"at\":199,\"func\":29,\"hints\":[200,204],\"count\":1}
{\"level\":3,\"at\":201,\"func_offset\":30,\"taken\":true}
{\"event\":\"section\",\"range\":[206,266],\"id\":0,\"name\":\"custom\",\"custom_name\":\"producers\",\"data_offset\":216}
{\"level\":1,\"line\":\"section\",\"name\":\"producers\",\"fields\":[216,266],\"count\":4}
{\"level\":2,\"at\":217,\"name\":\"language\",\"values\":[226,237],\"count\":2}
{\"level\":3,\"at\":227,\"name\":\"A\",\"version\":\"1\"}
{\"level\":3,\"at\":231,\"name\":\"B\",\"version\":\"2.0\"}
{\"level\":2,\"at\":237,\"name\":\"sdk\",\"values\":[241,245],\"count\":1}
{\"level\":3,\"at\":242,\"name\":\"C\",\"version\":\"\"}
{\"level\":2,\"at\":245,\"name\":\"processed-by\",\"values\":[258,263],\"count\":1}
{\"level\":3,\"at\":259,\"name\":\"D\",\"version\":\"3\"}
{\"level\":2,\"fault\":\"invalid producers field name\",\"offset\":263,\"number\":null}
{\"event\":\"section\",\"range\":[268,280],\"id\":0,\"name\":\"custom\",\"custom_name\":\"sour\\\"ce\\u000a\",\"data_offset\":277}
{\"level\":1,\"line\":\"section\",\"name\":\"sour\\\"ce\\u000a\",\"known\":\"unknown\"}
{\"event\":\"section\",\"range\":[282,293],\"id\":0,\"name\":\"custom\",\"custom_name\":\"producers\",\"data_offset\":292}
{\"level\":1,\"line\":\"section\",\"name\":\"producers\",\"known\":\"unknown\"}
{\"event\":\"end\",\"offset\":293}
";

/// The objects of sections for linkers.
const LINKING: &[u8] = b"{\"event\":\"version\",\"range\":[0,8],\"num\":1,\"encoding\":\"module\"}
{\"event\":\"section\",\"range\":[10,83],\"id\":0,\"name\":\"custom\",\"custom_name\":\"dylink.0\",\"data_offset\":19}
{\"level\":1,\"line\":\"section\",\"name\":\"dylink.0\"}
{\"level\":2,\"at\":19,\"kind\":\"mem_info\",\"memory_size\":1,\"memory_alignment\":2,\"table_size\":300,\"table_alignment\":4}
{\"level\":2,\"at\":26,\"kind\":\"needed\"}
{\"level\":3,\"line\":\"library\",\"name\":\"a.so\"}
{\"level\":3,\"line\":\"library\",\"name\":\"b.so\"}
{\"level\":2,\"at\":39,\"kind\":\"export_info\"}
{\"level\":3,\"line\":\"export\",\"name\":\"e\",\"flags\":5,\"flag_words\":\"BINDING_WEAK | VISIBILITY_HIDDEN\"}
{\"level\":3,\"line\":\"export\",\"name\":\"f\",\"flags\":260,\"flag_words\":\"VISIBILITY_HIDDEN | TLS\"}
{\"level\":2,\"fault\":\"unexpected end-of-file\",\"offset\":53,\"number\":null}
{\"level\":2,\"at\":53,\"kind\":\"import_info\"}
{\"level\":3,\"line\":\"import\",\"module\":\"m\",\"field\":\"g\",\"flags\":16,\"flag_words\":\"UNDEFINED\"}
{\"level\":2,\"at\":61,\"kind\":\"runtime_path\"}
{\"level\":3,\"line\":\"folder\",\"name\":\"/x\"}
{\"level\":3,\"line\":\"folder\",\"name\":\"/y\"}
{\"level\":2,\"at\":70,\"target_arch\":\"wasm64\"}
{\"level\":2,\"at\":79,\"kind\":\"unknown\",\"ty\":7,\"contents\":\"2:0809\",\"range\":[81,83]}
{\"event\":\"section\",\"range\":[85,200],\"id\":0,\"name\":\"custom\",\"custom_name\":\"linking\",\"data_offset\":93}
{\"level\":1,\"line\":\"section\",\"name\":\"linking\",\"version\":2,\"range\":[93,200],\"subsections\":94}
{\"level\":2,\"at\":94,\"segment_info\":[96,106],\"count\":2}
{\"level\":3,\"at\":97,\"name\":\"p\",\"alignment\":12,\"flags\":13,\"flag_words\":\"STRINGS | RETAIN | 8\"}
{\"level\":3,\"at\":101,\"name\":\"q\",\"alignment\":14,\"flags\":300,\"flag_words\":\"RETAIN | 296\"}
{\"level\":2,\"at\":106,\"init_funcs\":[108,113],\"count\":2}
{\"level\":3,\"at\":109,\"priority\":15,\"symbol_index\":16}
{\"level\":3,\"at\":111,\"priority\":17,\"symbol_index\":18}
{\"level\":2,\"at\":113,\"comdat_info\":[115,136],\"count\":2}
{\"level\":3,\"at\":116,\"name\":\"r\",\"flags\":19,\"symbols\":[119,132],\"count\":6}
{\"level\":4,\"at\":120,\"kind\":\"data\",\"index\":20}
{\"level\":4,\"at\":122,\"kind\":\"func\",\"index\":21}
{\"level\":4,\"at\":124,\"kind\":\"global\",\"index\":22}
{\"level\":4,\"at\":126,\"kind\":\"event\",\"index\":23}
{\"level\":4,\"at\":128,\"kind\":\"table\",\"index\":24}
{\"level\":4,\"at\":130,\"kind\":\"section\",\"index\":25}
{\"level\":3,\"at\":132,\"name\":\"s\",\"flags\":26,\"symbols\":[135,136],\"count\":0}
{\"level\":2,\"fault\":\"unexpected end-of-file\",\"offset\":139,\"number\":null}
{\"level\":2,\"at\":139,\"symbol_table\":[141,188],\"count\":10}
{\"level\":3,\"at\":142,\"space\":\"symbol\",\"number\":0,\"kind\":\"func\",\"flags\":1,\"flag_words\":\"BINDING_WEAK\",\"index\":2,\"name\":\"h\"}
{\"level\":3,\"at\":147,\"space\":\"symbol\",\"number\":1,\"kind\":\"func\",\"flags\":16,\"flag_words\":\"UNDEFINED\",\"index\":3,\"name\":null}
{\"level\":3,\"at\":150,\"space\":\"symbol\",\"number\":2,\"kind\":\"func\",\"flags\":80,\"flag_words\":\"UNDEFINED | EXPLICIT_NAME\",\"index\":4,\"name\":\"i\"}
{\"level\":3,\"at\":155,\"space\":\"symbol\",\"number\":3,\"kind\":\"data\",\"flags\":128,\"flag_words\":\"NO_STRIP\",\"name\":\"j\",\"index\":5,\"offset\":6,\"size\":7}
{\"level\":3,\"at\":163,\"space\":\"symbol\",\"number\":4,\"kind\":\"data\",\"flags\":16,\"flag_words\":\"UNDEFINED\",\"name\":\"k\",\"symbol\":\"undefined\"}
{\"level\":3,\"at\":167,\"space\":\"symbol\",\"number\":5,\"kind\":\"global\",\"flags\":4,\"flag_words\":\"VISIBILITY_HIDDEN\",\"index\":8,\"name\":\"l\"}
{\"level\":3,\"at\":172,\"space\":\"symbol\",\"number\":6,\"kind\":\"section\",\"flags\":2,\"flag_words\":\"BINDING_LOCAL\",\"section\":9}
{\"level\":3,\"at\":175,\"space\":\"symbol\",\"number\":7,\"kind\":\"event\",\"flags\":32,\"flag_words\":\"EXPORTED\",\"index\":10,\"name\":\"n\"}
{\"level\":3,\"at\":180,\"space\":\"symbol\",\"number\":8,\"kind\":\"table\",\"flags\":512,\"flag_words\":\"ABSOLUTE\",\"index\":11,\"name\":\"o\"}
{\"level\":3,\"fault\":\"invalid leading byte for symbol kind\",\"offset\":186,\"number\":6}
{\"level\":2,\"at\":188,\"target_arch\":\"wasm32\"}
{\"level\":2,\"at\":197,\"kind\":\"unknown\",\"ty\":10,\"contents\":\"1:01\",\"range\":[199,200]}
{\"event\":\"section\",\"range\":[202,317],\"id\":0,\"name\":\"custom\",\"custom_name\":\"reloc.CODE\",\"data_offset\":213}
{\"level\":1,\"line\":\"section\",\"name\":\"reloc.CODE\",\"section\":29,\"range\":[213,317],\"entries\":[214,317],\"count\":28}
{\"level\":2,\"at\":215,\"type\":\"R_WASM_FUNCTION_INDEX_LEB\",\"offset\":30,\"index\":70,\"addend\":0}
{\"level\":2,\"at\":218,\"type\":\"R_WASM_TABLE_INDEX_SLEB\",\"offset\":31,\"index\":71,\"addend\":0}
{\"level\":2,\"at\":221,\"type\":\"R_WASM_TABLE_INDEX_I32\",\"offset\":32,\"index\":72,\"addend\":0}
{\"level\":2,\"at\":224,\"type\":\"R_WASM_MEMORY_ADDR_LEB\",\"offset\":33,\"index\":73,\"addend\":-4}
{\"level\":2,\"at\":228,\"type\":\"R_WASM_MEMORY_ADDR_SLEB\",\"offset\":34,\"index\":74,\"addend\":-5}
{\"level\":2,\"at\":232,\"type\":\"R_WASM_MEMORY_ADDR_I32\",\"offset\":35,\"index\":75,\"addend\":130}
{\"level\":2,\"at\":237,\"type\":\"R_WASM_TYPE_INDEX_LEB\",\"offset\":36,\"index\":76,\"addend\":0}
{\"level\":2,\"at\":240,\"type\":\"R_WASM_GLOBAL_INDEX_LEB\",\"offset\":37,\"index\":77,\"addend\":0}
{\"level\":2,\"at\":243,\"type\":\"R_WASM_FUNCTION_OFFSET_I32\",\"offset\":38,\"index\":78,\"addend\":-9}
{\"level\":2,\"at\":247,\"type\":\"R_WASM_SECTION_OFFSET_I32\",\"offset\":39,\"index\":79,\"addend\":-10}
{\"level\":2,\"at\":251,\"type\":\"R_WASM_EVENT_INDEX_LEB\",\"offset\":40,\"index\":80,\"addend\":0}
{\"level\":2,\"at\":254,\"type\":\"R_WASM_MEMORY_ADDR_REL_SLEB\",\"offset\":41,\"index\":81,\"addend\":-12}
{\"level\":2,\"at\":258,\"type\":\"R_WASM_TABLE_INDEX_REL_SLEB\",\"offset\":42,\"index\":82,\"addend\":0}
{\"level\":2,\"at\":261,\"type\":\"R_WASM_GLOBAL_INDEX_I32\",\"offset\":43,\"index\":83,\"addend\":0}
{\"level\":2,\"at\":264,\"type\":\"R_WASM_MEMORY_ADDR_LEB64\",\"offset\":44,\"index\":84,\"addend\":15}
{\"level\":2,\"at\":268,\"type\":\"R_WASM_MEMORY_ADDR_SLEB64\",\"offset\":45,\"index\":85,\"addend\":16}
{\"level\":2,\"at\":272,\"type\":\"R_WASM_MEMORY_ADDR_I64\",\"offset\":46,\"index\":86,\"addend\":-1099511627776}
{\"level\":2,\"at\":281,\"type\":\"R_WASM_MEMORY_ADDR_REL_SLEB64\",\"offset\":47,\"index\":87,\"addend\":18}
{\"level\":2,\"at\":285,\"type\":\"R_WASM_TABLE_INDEX_SLEB64\",\"offset\":48,\"index\":88,\"addend\":0}
{\"level\":2,\"at\":288,\"type\":\"R_WASM_TABLE_INDEX_I64\",\"offset\":49,\"index\":89,\"addend\":0}
{\"level\":2,\"at\":291,\"type\":\"R_WASM_TABLE_NUMBER_LEB\",\"offset\":50,\"index\":90,\"addend\":0}
{\"level\":2,\"at\":294,\"type\":\"R_WASM_MEMORY_ADDR_TLS_SLEB\",\"offset\":51,\"index\":91,\"addend\":-22}
{\"level\":2,\"at\":298,\"type\":\"R_WASM_FUNCTION_OFFSET_I64\",\"offset\":52,\"index\":92,\"addend\":23}
{\"level\":2,\"at\":302,\"type\":\"R_WASM_MEMORY_ADDR_LOCREL_I32\",\"offset\":53,\"index\":93,\"addend\":-24}
{\"level\":2,\"at\":306,\"type\":\"R_WASM_TABLE_INDEX_REL_SLEB64\",\"offset\":54,\"index\":94,\"addend\":0}
{\"level\":2,\"at\":309,\"type\":\"R_WASM_MEMORY_ADDR_TLS_SLEB64\",\"offset\":55,\"index\":95,\"addend\":26}
{\"level\":2,\"at\":313,\"type\":\"R_WASM_FUNCTION_INDEX_I32\",\"offset\":56,\"index\":96,\"addend\":0}
{\"level\":2,\"fault\":\"invalid leading byte for RelocEntryType\",\"offset\":316,\"number\":27}
{\"event\":\"end\",\"offset\":317}
";

/// The objects of core dumps.
const CORE: &[u8] = b"{\"event\":\"version\",\"range\":[0,8],\"num\":1,\"encoding\":\"module\"}
{\"event\":\"section\",\"range\":[10,26],\"id\":0,\"name\":\"custom\",\"custom_name\":\"core\",\"data_offset\":15}
{\"level\":1,\"line\":\"section\",\"name\":\"core\",\"process\":\"test.wasm\"}
{\"event\":\"section\",\"range\":[28,47],\"id\":0,\"name\":\"custom\",\"custom_name\":\"coremodules\",\"data_offset\":40}
{\"level\":1,\"line\":\"section\",\"name\":\"coremodules\",\"modules\":2}
{\"level\":2,\"line\":\"module\",\"name\":\"a\"}
{\"level\":2,\"line\":\"module\",\"name\":\"b\"}
{\"event\":\"section\",\"range\":[49,78],\"id\":0,\"name\":\"custom\",\"custom_name\":\"coreinstances\",\"data_offset\":63}
{\"level\":1,\"line\":\"section\",\"name\":\"coreinstances\",\"instances\":2}
{\"level\":2,\"line\":\"instance\",\"module_index\":1}
{\"level\":3,\"memory\":\"2\"}
{\"level\":3,\"memory\":\"300\"}
{\"level\":3,\"global\":\"4\"}
{\"level\":2,\"line\":\"instance\",\"module_index\":5}
{\"level\":3,\"global\":\"6\"}
{\"level\":3,\"global\":\"7\"}
{\"event\":\"section\",\"range\":[80,139],\"id\":0,\"name\":\"custom\",\"custom_name\":\"corestack\",\"data_offset\":90}
{\"level\":1,\"line\":\"section\",\"name\":\"corestack\",\"thread\":\"main\",\"frames\":2}
{\"level\":2,\"line\":\"frame\",\"instanceidx\":1,\"funcidx\":2,\"codeoffset\":300}
{\"level\":3,\"line\":\"local\",\"i32\":-4}
{\"level\":3,\"line\":\"local\",\"i64\":-1099511627776}
{\"level\":3,\"line\":\"local\",\"value\":\"missing\"}
{\"level\":3,\"line\":\"stack\",\"f32_bits\":1065353216}
{\"level\":3,\"line\":\"stack\",\"f64_bits\":4607182418800017408}
{\"level\":3,\"line\":\"stack\",\"i32\":5}
{\"level\":2,\"line\":\"frame\",\"instanceidx\":6,\"funcidx\":7,\"codeoffset\":8}
{\"level\":3,\"line\":\"stack\",\"value\":\"missing\"}
{\"level\":3,\"line\":\"stack\",\"i64\":9}
{\"event\":\"section\",\"range\":[141,155],\"id\":0,\"name\":\"custom\",\"custom_name\":\"coremodules\",\"data_offset\":153}
{\"level\":1,\"line\":\"section\",\"name\":\"coremodules\",\"known\":\"unknown\"}
{\"event\":\"section\",\"range\":[157,158],\"id\":0,\"name\":\"custom\",\"custom_name\":\"\",\"data_offset\":158}
{\"level\":1,\"line\":\"section\",\"name\":\"\",\"known\":\"unknown\"}
{\"event\":\"end\",\"offset\":158}
";

// The dump of a stream as JSON is this text.
fn shows_objects(
    rt: &impl Abort,
    alloc: Global,
    stream: &[u8],
    text: &'static [u8],
) -> Result<(), Fail> {
    let found = dumped(alloc, stream, Form::Objects)?;
    assert!(rt; found.as_slice() == text);
    Ok(())
}

#[test]
fn objects_of_each_kind_of_section(rt: HostRuntime) -> Result<(), Fail> {
    shows_objects(&rt, rt.alloc(), sections().0, SECTIONS)
}

#[test]
fn objects_of_names_hints_and_producers(rt: HostRuntime) -> Result<(), Fail> {
    shows_objects(&rt, rt.alloc(), names().0, NAMES)
}

#[test]
fn objects_of_what_linkers_read(rt: HostRuntime) -> Result<(), Fail> {
    shows_objects(&rt, rt.alloc(), linking().0, LINKING)
}

#[test]
fn objects_of_core_dumps(rt: HostRuntime) -> Result<(), Fail> {
    shows_objects(&rt, rt.alloc(), core().0, CORE)
}
