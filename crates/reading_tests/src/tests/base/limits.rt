// Limits, and pages of memories.
use crate::tests::{same, same_at};
use wasm_base::{
    _MAX_WASM_TABLE_SIZE, DEFAULT_WASM_PAGE_SIZE, MAX_WASM_BR_TABLE_SIZE, MAX_WASM_CATCHES,
    MAX_WASM_DATA_SEGMENTS, MAX_WASM_ELEMENT_SEGMENTS, MAX_WASM_EXPORTS, MAX_WASM_FUNCTION_LOCALS,
    MAX_WASM_FUNCTION_PARAMS, MAX_WASM_FUNCTION_RETURNS, MAX_WASM_FUNCTION_SIZE,
    MAX_WASM_FUNCTIONS, MAX_WASM_GLOBALS, MAX_WASM_HANDLERS, MAX_WASM_IMPORTS, MAX_WASM_MEMORIES,
    MAX_WASM_MODULES_AND_COMPONENTS, MAX_WASM_SELECT_RESULT_SIZE, MAX_WASM_STRING_SIZE,
    MAX_WASM_STRUCT_FIELDS, MAX_WASM_SUBTYPING_DEPTH, MAX_WASM_SUPERTYPES, MAX_WASM_TABLE_ENTRIES,
    MAX_WASM_TABLES, MAX_WASM_TAGS, MAX_WASM_TYPE_SIZE, MAX_WASM_TYPES, is_page_size,
    max_wasm_memory32_pages, max_wasm_memory64_pages,
};

/// Limits, and the constants that have each.
const LIMITS: [(usize, &[usize]); 11] = [
    (
        1000000,
        &[
            MAX_WASM_TYPES,
            MAX_WASM_FUNCTIONS,
            MAX_WASM_IMPORTS,
            MAX_WASM_EXPORTS,
            MAX_WASM_GLOBALS,
            MAX_WASM_TAGS,
        ],
    ),
    (
        100000,
        &[
            MAX_WASM_ELEMENT_SEGMENTS,
            MAX_WASM_DATA_SEGMENTS,
            MAX_WASM_STRING_SIZE,
            MAX_WASM_TABLES,
        ],
    ),
    (7654321, &[MAX_WASM_FUNCTION_SIZE, MAX_WASM_BR_TABLE_SIZE]),
    (10000000, &[_MAX_WASM_TABLE_SIZE, MAX_WASM_TABLE_ENTRIES]),
    (
        10000,
        &[MAX_WASM_STRUCT_FIELDS, MAX_WASM_CATCHES, MAX_WASM_HANDLERS],
    ),
    (
        1000,
        &[
            MAX_WASM_FUNCTION_PARAMS,
            MAX_WASM_FUNCTION_RETURNS,
            MAX_WASM_MODULES_AND_COMPONENTS,
        ],
    ),
    (100, &[MAX_WASM_MEMORIES]),
    (63, &[MAX_WASM_SUBTYPING_DEPTH]),
    (10, &[MAX_WASM_SELECT_RESULT_SIZE]),
    (5, &[MAX_WASM_SUPERTYPES]),
    (50000, &[MAX_WASM_FUNCTION_LOCALS as usize]),
];

#[test]
fn limits_of_modules(rt: HostRuntime) {
    for (limit, constants) in &LIMITS {
        for constant in *constants {
            same(&rt, *constant, *limit);
        }
    }
    same(&rt, MAX_WASM_TYPE_SIZE, 1000000);
    same(&rt, DEFAULT_WASM_PAGE_SIZE, 65536);
}

#[test]
fn most_pages_of_two_sizes(rt: HostRuntime) {
    let pages = [
        max_wasm_memory32_pages(65536),
        max_wasm_memory32_pages(1),
        max_wasm_memory64_pages(65536),
        max_wasm_memory64_pages(1),
    ];
    let wanted = [65536, 4294967295, 281474976710656, 18446744073709551615];
    same(&rt, pages, wanted);
}

#[test]
fn seventeen_sizes_of_pages(rt: HostRuntime) {
    let mut doubled = 1;
    let mut count = 0;
    for size in 0..=65537 {
        let is_power = size == doubled;
        same_at(&rt, is_page_size(size), is_power, &size);
        if is_power {
            doubled = size * 2;
            count = size;
        }
    }
    same(&rt, count, 65536);
    for size in [131072, 4294967296, 18446744073709551615] {
        assert!(rt; !is_page_size(size));
    }
}
