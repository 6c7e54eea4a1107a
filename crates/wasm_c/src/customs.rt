// Which known section a custom section is.
ghost use Rattle.std.specs.Prelude.{◌≡◌};
ghost use Rattle.wasm_c_items.specs.Customs.{custom_kind};

use wasm_c_items::custom_kind;

/// Returns the kind of a custom section with this name, a `pulleynavy_custom_kind`.
///
/// It is 0 for another name, 1 for `name`, 2 for `metadata.code.branch_hint`, 3 for `producers`, 4 for `dylink.0`, 5
/// for `linking`, 6 for a name that begins with `reloc.`, 7 for `core`, 8 for `coremodules`, 9 for `coreinstances`, 10
/// for `corestack`. The name of a section is the `name_size` bytes before the data.
///
/// ```c
/// const uint8_t bytes[] = {0, 'a', 's', 'm', 1, 0, 0, 0, 0, 5, 4, 'n', 'a', 'm', 'e'};
/// pulleynavy_parser parser = pulleynavy_parser_init(0, PULLEYNAVY_ALL_FEATURES);
/// const uint8_t *rest = bytes + pulleynavy_parse(&parser, bytes, sizeof bytes, true).consumed;
/// pulleynavy_event event = pulleynavy_parse(&parser, rest, 7, true);
/// const uint8_t *data = rest + event.at + (event.data_offset - event.start);
/// assert(pulleynavy_classify_custom(data - event.name_size, event.name_size) == PULLEYNAVY_CUSTOM_NAME);
/// ```
///
/// (Core specification, Appendix, Custom Sections; tool conventions.)
#[unsafe(no_mangle)]
pub extern "C" fn pulleynavy_classify_custom(name: &[u8]) -> u32
    // Proved: `pulleynavy_classify_custom` returns which known section has a name
    ensures { result ≡ custom_kind name.now }
{
    custom_kind(name)
}
