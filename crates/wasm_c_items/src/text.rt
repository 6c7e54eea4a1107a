// Texts of faults.
ghost use Rattle.std.specs.Prelude.{◌≡◌, length};
ghost use Rattle.wasm_c_items.specs.Texts.{written_over};
/// Writes as much of the text as there is room for to the front, and returns how long it is.
pub(crate) fn write_text(text: &[u8], out: &mut [u8]) -> usize
    ensures size { result ≡ length text.now }
    ensures written { out.new ≡ written_over text.now out.old }
{
    let n = text.len().min(out.len());
    out[..n].copy_from_slice(&text[..n]);
    text.len()
}
