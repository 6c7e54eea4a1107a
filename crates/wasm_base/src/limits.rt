// Limits of modules, which the core specification leaves to implementations (Appendix, Implementation Limitations).
// They are for whoever validates a module: of what is read here only names have such a limit.
ghost use Rattle.std.specs.Int.{IsPowerOfTwo};
ghost use Rattle.std.specs.Prelude.{◌≡◌, ◌↔◌, ◌≤◌, IsTrue};
ghost use Rattle.wasm_base.specs.Limits.{is_page_size, most_pages};

/// The maximum number of types in a module.
///
/// This limit and the ones below are those that engines agree on (core specification, Appendix, Implementation
/// Limitations). They are for validators: the readers here check only `MAX_WASM_STRING_SIZE`.
pub const MAX_WASM_TYPES: usize = 1_000_000;

/// The maximum number of supertypes that a subtype may declare. The readers here refuse more than one.
pub const MAX_WASM_SUPERTYPES: usize = 5;

/// The maximum number of functions in a module.
pub const MAX_WASM_FUNCTIONS: usize = 1_000_000;

/// The maximum number of imports in a module.
pub const MAX_WASM_IMPORTS: usize = 1_000_000;

/// The maximum number of exports in a module.
pub const MAX_WASM_EXPORTS: usize = 1_000_000;

/// The maximum number of globals in a module.
pub const MAX_WASM_GLOBALS: usize = 1_000_000;

/// The maximum number of element segments in a module.
pub const MAX_WASM_ELEMENT_SEGMENTS: usize = 100_000;

/// The maximum number of data segments in a module.
pub const MAX_WASM_DATA_SEGMENTS: usize = 100_000;

/// The maximum size of a name in bytes. `read_string` and `skip_string` return `StringSize` above it.
pub const MAX_WASM_STRING_SIZE: usize = 100_000;

/// The maximum size of a function body in bytes.
pub const MAX_WASM_FUNCTION_SIZE: usize = 7_654_321;

/// The maximum number of locals in a function.
pub const MAX_WASM_FUNCTION_LOCALS: u32 = 50_000;

/// The maximum number of parameters of a function.
pub const MAX_WASM_FUNCTION_PARAMS: usize = 1_000;

/// The maximum number of results of a function.
pub const MAX_WASM_FUNCTION_RETURNS: usize = 1_000;

/// The maximum initial number of elements in a table. The name, with its underscore, is that of `wasmparser`.
pub const _MAX_WASM_TABLE_SIZE: usize = 10_000_000;

/// The maximum number of elements in a table.
pub const MAX_WASM_TABLE_ENTRIES: usize = 10_000_000;

/// The maximum number of tables in a module.
pub const MAX_WASM_TABLES: usize = 100_000;

/// The maximum number of memories in a module.
pub const MAX_WASM_MEMORIES: usize = 100;

/// The maximum number of tags in a module.
pub const MAX_WASM_TAGS: usize = 1_000_000;

/// The maximum number of labels in a `br_table` instruction.
pub const MAX_WASM_BR_TABLE_SIZE: usize = MAX_WASM_FUNCTION_SIZE;

/// The maximum number of fields in a struct type.
pub const MAX_WASM_STRUCT_FIELDS: usize = 10_000;

/// The maximum number of catch clauses in a `try_table` instruction.
pub const MAX_WASM_CATCHES: usize = 10_000;

/// The maximum depth of subtyping: the number of steps from a type to its last supertype.
pub const MAX_WASM_SUBTYPING_DEPTH: usize = 63;

/// The maximum number of handlers in a `resume` instruction.
pub const MAX_WASM_HANDLERS: usize = 10_000;

/// The maximum size of a type: the number of types that it consists of, itself included.
pub const MAX_WASM_TYPE_SIZE: u32 = 1_000_000;

/// The maximum number of results of a `select` instruction.
pub const MAX_WASM_SELECT_RESULT_SIZE: usize = 10;

/// The maximum number of modules and components in a component.
pub const MAX_WASM_MODULES_AND_COMPONENTS: usize = 1_000;

/// The page size in bytes of a memory whose type does not give one.
pub const DEFAULT_WASM_PAGE_SIZE: u64 = 65_536;

/// Returns whether a memory may have pages of this size in bytes: a power of two, at most 65,536.
///
/// No reader checks this. Use it before `max_wasm_memory32_pages` and `max_wasm_memory64_pages`.
pub fn is_page_size(page_size: u64) -> bool
    // Proved: `is_page_size` is true for the powers of two up to 65,536. For such a size a page
    //   limit is the lesser of two numbers [the clauses of `is_page_size` and of each limit]
    ensures says { result ≡ is_page_size page_size }
    ensures power { IsTrue result ↔ (IsPowerOfTwo page_size × (page_size ≤ 65536)) }
{
    page_size.is_power_of_two() && page_size <= DEFAULT_WASM_PAGE_SIZE
}

/// Returns the maximum number of pages of `page_size` bytes that a memory with 32-bit addresses may have.
///
/// All bytes lie below 2^32, and the number itself has 32 bits. `page_size` must be a valid page size: see
/// `is_page_size`.
///
/// ```rattle
/// assert_eq!(rt; max_wasm_memory32_pages(DEFAULT_WASM_PAGE_SIZE), 65_536);
/// assert_eq!(rt; max_wasm_memory32_pages(1), 4_294_967_295);
/// ```
#[tactic(auto, using(crate::proofs::Pages::page_size_positive))]
pub fn max_wasm_memory32_pages(page_size: u64) -> u64
    requires { IsTrue (is_page_size page_size) }
    ensures { result ≡ most_pages 32 page_size }
{
    ((1 << 32) / page_size).min(u64::from(u32::MAX))
}

/// Returns the maximum number of pages of `page_size` bytes that a memory with 64-bit addresses may have.
///
/// All bytes lie below 2^64, and the number itself has 64 bits. `page_size` must be a valid page size: see
/// `is_page_size`.
#[tactic(auto, using(crate::proofs::Pages::page_size_positive))]
pub fn max_wasm_memory64_pages(page_size: u64) -> u64
    requires { IsTrue (is_page_size page_size) }
    ensures { result ≡ most_pages 64 page_size }
{
    ((1 << 64) / u128::from(page_size)).min(u128::from(u64::MAX)) as u64
}
