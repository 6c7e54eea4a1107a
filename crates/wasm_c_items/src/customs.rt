// Which known section a custom section's name is that of.
ghost use Rattle.std.specs.Prelude.{◌≡◌, bytes_eq};
ghost use Rattle.wasm_c_items.specs.Customs.{custom_kind};

fn is_text(name: &[u8], text: &[u8]) -> bool
    ensures { result ≡ bytes_eq name.now text.now }
{
    name == text
}

/// Returns the number of the kind of a custom section with this name, or 0.
///
/// `pulleynavy_classify_custom` of the C library is this call, and describes its errors.
pub fn custom_kind(name: &[u8]) -> u32
    ensures { result ≡ custom_kind name.now }
{
    if is_text(name, b"name") {
        1
    } else if is_text(name, b"metadata.code.branch_hint") {
        2
    } else if is_text(name, b"producers") {
        3
    } else if is_text(name, b"dylink.0") {
        4
    } else if is_text(name, b"core") {
        7
    } else if is_text(name, b"coremodules") {
        8
    } else if is_text(name, b"coreinstances") {
        9
    } else if is_text(name, b"corestack") {
        10
    } else if is_text(name, b"linking") {
        5
    } else if name.starts_with(b"reloc.") {
        6
    } else {
        0
    }
}
