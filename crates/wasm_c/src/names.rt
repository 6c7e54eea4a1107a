// Names and subsections.
ghost use Rattle.wasm_c_items.specs.Cursors.{StoresItems, next_indirect_namings, next_name_subsection, next_namings, next_subsection};
ghost use Rattle.std.specs.Prelude.{◌≡◌};
ghost use Rattle.wasm_base.specs.Subsections.{subsection_at};
ghost use Rattle.wasm_c_items.specs.Names.{plain_indirect, plain_naming, plain_subsection};
ghost use Rattle.wasm_c_items.specs.Readable.{item_over};
ghost use Rattle.wasm_custom.specs.Names.{indirect_naming_at, naming_at};

use wasm_c_items::{
    AnySubsections, Ascending, IndirectNamings, NameSubsections, Namings, PlainIndirectNaming,
    PlainNaming, PlainSubsection, StoredItems, Subsections, read_at, store_items,
};

/// Reads a subsection of the section `name`, `linking` or `dylink.0`: an id below 128, a size, a u32, and that many
/// bytes.
///
/// # Errors
///
/// `INVALID_U7` at an id of 128 or above; `UNEXPECTED_EOF`; and the faults of `pulleynavy_read_number` for the size.
///
/// (Core specification, Appendix, Custom Sections, Name Section, Subsections; tool conventions, Linking.)
#[unsafe(no_mangle)]
pub extern "C" fn pulleynavy_read_subsection(
    bytes: &[u8],
    offset: u64,
    features: u32,
) -> PlainSubsection
    ensures { result ≡ item_over plain_subsection subsection_at features offset bytes.now }
{
    read_at(AnySubsections, bytes, offset, features)
}

/// Reads an index and a name of any length, an entry of a name map. It does not check that indices ascend.
///
/// # Errors
///
/// Those of `pulleynavy_read_number` and `pulleynavy_read_text`.
///
/// (Core specification, Appendix, Custom Sections, Name Section, Name Maps.)
#[unsafe(no_mangle)]
pub extern "C" fn pulleynavy_read_naming(bytes: &[u8], offset: u64, features: u32) -> PlainNaming
    ensures { result ≡ item_over plain_naming naming_at features offset bytes.now }
{
    read_at(Namings, bytes, offset, features)
}

/// Stores the next entries of a name map in `out`, and returns their number.
///
/// # Errors
///
/// An item has the faults of `pulleynavy_read_naming`. An entry whose index is not above that of every earlier entry
/// without a fault has the fault `NAMES_ORDER` at the start of the entry, and the next one follows. The last item is
/// `SIZE_MISMATCH` if bytes follow the list.
#[unsafe(no_mangle)]
pub extern "C" fn pulleynavy_next_namings(
    items: &mut StoredItems,
    bytes: &[u8],
    out: &mut [PlainNaming],
) -> usize
    // Proved: a name with an index that doesn't ascend is a fault at its start, and the list
    //   continues after it; so is a subsection of `name` whose id doesn't ascend [the clauses of
    //   `pulleynavy_next_namings`, `next_indirect_namings` and `next_name_subsections` (`in_order`,
    //   `takes`)]
    ensures { StoresItems (next_namings bytes.now)
        items.old out.old result items.new out.new }
{
    store_items(Ascending(Namings), items, bytes, out)
}

/// Reads an index and a name map, an entry of an indirect name map. It does not check that indices ascend.
///
/// The names are skipped, without checking that they are UTF-8. Walk them with `pulleynavy_next_namings`.
///
/// # Errors
///
/// Those of `pulleynavy_read_number`; and `STRING_SIZE` and `UNEXPECTED_EOF` for the names.
///
/// (Core specification, Appendix, Custom Sections, Name Section, Indirect Name Maps.)
#[unsafe(no_mangle)]
pub extern "C" fn pulleynavy_read_indirect_naming(
    bytes: &[u8],
    offset: u64,
    features: u32,
) -> PlainIndirectNaming
    ensures { result ≡ item_over plain_indirect indirect_naming_at features offset bytes.now }
{
    read_at(IndirectNamings, bytes, offset, features)
}

/// Stores the next entries of an indirect name map in `out`, and returns their number.
///
/// # Errors
///
/// An item has the faults of `pulleynavy_read_indirect_naming`. An entry whose index is not above that of every earlier
/// entry without a fault has the fault `INDIRECT_ORDER` at the start of the entry, and the next one follows. The last
/// item is `SIZE_MISMATCH` if bytes follow the list.
#[unsafe(no_mangle)]
pub extern "C" fn pulleynavy_next_indirect_namings(
    items: &mut StoredItems,
    bytes: &[u8],
    out: &mut [PlainIndirectNaming],
) -> usize
    ensures { StoresItems (next_indirect_namings bytes.now)
        items.old out.old result items.new out.new }
{
    store_items(Ascending(IndirectNamings), items, bytes, out)
}

/// Stores the next subsections of a section `linking` or `dylink.0` in `out`, and returns their number.
///
/// `bytes` are the content of the section, the same in each call. For `linking` the cursor begins after the version,
/// and for a cursor of `pulleynavy_list_init` so do the bytes.
///
/// # Errors
///
/// An item has the faults of `pulleynavy_read_subsection`. After a malformed one, the next one follows.
#[unsafe(no_mangle)]
pub extern "C" fn pulleynavy_next_subsections(
    items: &mut StoredItems,
    bytes: &[u8],
    out: &mut [PlainSubsection],
) -> usize
    // Proved: after a malformed subsection the list continues after its id and size; contents are
    //   not read, so an id out of order is reported before a fault in the contents, which
    //   `wasm_custom` reports first [the clause of `pulleynavy_next_subsections`
    //   (`next_subsection`, `after_refused`)]
    ensures { StoresItems (next_subsection bytes.now) items.old out.old result items.new out.new }
{
    store_items(Subsections, items, bytes, out)
}

/// Stores the next subsections of a section `name` in `out`, and returns their number.
///
/// # Errors
///
/// An item has the faults of `pulleynavy_read_subsection`. A subsection whose id is not above that of every earlier one
/// without a fault has the fault `NAME_SECTION_ORDER` at the start of the subsection. After either, the next one
/// follows.
///
/// ```c
/// // The name "f" for function 5, in subsection 1.
/// const uint8_t data[] = {1, 4, 1, 5, 1, 'f'};
/// pulleynavy_items items = pulleynavy_list_init(0, 0, PULLEYNAVY_ALL_FEATURES);
/// pulleynavy_subsection part;
/// assert(pulleynavy_next_name_subsections(&items, data, sizeof data, &part, 1) == 1 && part.id == PULLEYNAVY_NAME_FUNCTION);
/// const uint8_t *map = data + part.contents.at;
/// pulleynavy_number count = pulleynavy_read_number(map, part.contents.size, part.contents.at, PULLEYNAVY_ALL_FEATURES);
/// pulleynavy_items names = pulleynavy_list_init(part.contents.at + count.consumed, count.value, PULLEYNAVY_ALL_FEATURES);
/// pulleynavy_naming naming;
/// map += count.consumed;
/// assert(pulleynavy_next_namings(&names, map, part.contents.size - count.consumed, &naming, 1) == 1);
/// assert(naming.index == 5 && map[naming.name.at] == 'f');
/// ```
#[unsafe(no_mangle)]
pub extern "C" fn pulleynavy_next_name_subsections(
    items: &mut StoredItems,
    bytes: &[u8],
    out: &mut [PlainSubsection],
) -> usize
    ensures { StoresItems (next_name_subsection bytes.now) items.old out.old result
        items.new out.new }
{
    store_items(NameSubsections, items, bytes, out)
}
