// Custom sections that are written, and edits of a stream, one a call.
ghost use Rattle.wasm_c_items.specs.Edits.{EditsPlain, EncodesPlain};

use wasm_c_items::{PlainEdited, edit_bytes, encode_custom};

/// Writes a custom section to `out`, with its id and its length, and returns its size in bytes.
///
/// The name has at most 100,000 bytes of UTF-8, and the content, which is the name with its size and the data, less than
/// 2^32. Numbers have as few bytes as possible. If `out` is shorter than the section, nothing is written.
///
/// # Errors
///
/// It returns 0, and writes nothing, if the name is not UTF-8, or the name or the content is too large.
///
/// ```c
/// uint8_t out[16];
/// const uint8_t data[] = {'x', 'y', 'z'};
/// size_t size = pulleynavy_encode_custom((const uint8_t *)"a", 1, data, sizeof data, out, sizeof out);
/// assert(size == 7 && !memcmp(out, "\0\5\1axyz", size));
/// assert(pulleynavy_encode_custom((const uint8_t *)"\xff", 1, data, 0, out, sizeof out) == 0);
/// ```
///
/// (Core specification, Binary format, Modules, Custom Section.)
#[unsafe(no_mangle)]
pub extern "C" fn pulleynavy_encode_custom(name: &[u8], data: &[u8], out: &mut [u8]) -> usize
    // Proved: `pulleynavy_encode_custom` returns the size of the custom section with a name and its
    //   data, and writes its bytes if there is room for them; it returns 0 if there is no such
    //   section [the clause of `pulleynavy_encode_custom` (`EncodesPlain`)]
    ensures { EncodesPlain name.now «data».now out.old result out.new }
{
    encode_custom(name, data, out)
}

/// Edits the custom sections of a whole stream, and writes the edited stream to `out`.
///
/// The kind of the edit is a `pulleynavy_edit_kind`:
///
/// * `PULLEYNAVY_EDIT_APPEND` appends a custom section with this name and this data.
/// * `PULLEYNAVY_EDIT_REPLACE` replaces each custom section with this name, in its place.
/// * `PULLEYNAVY_EDIT_REMOVE` removes each custom section with this name. The data is ignored.
/// * `PULLEYNAVY_EDIT_KEEP` removes the custom sections with other names. If the name ends with `*`, the sections stay
///   whose names begin with the bytes before the `*`. The data is ignored.
///
/// The other sections keep their bytes and their order. The stream begins at offset 0. For several edits, call once for
/// each, and pass the bytes that the last call wrote. If `out` is shorter than the edited stream, nothing is written, and
/// the status is `PULLEYNAVY_EDIT_STATUS_NO_ROOM`: allocate `size` bytes, and call again.
///
/// # Errors
///
/// The status says why nothing was written. For `PULLEYNAVY_EDIT_STATUS_MALFORMED` the fault is that at which the stream
/// stops, as `pulleynavy_parse` returns it. The name of every edit must be UTF-8, and a new section must be one that
/// `pulleynavy_encode_custom` can write.
///
/// ```c
/// const uint8_t bytes[] = {0, 'a', 's', 'm', 1, 0, 0, 0, 0, 2, 1, 'a', 1, 1, 0}, data[] = {'z'};
/// uint8_t out[16];
/// pulleynavy_edited edited = pulleynavy_edit(
///     bytes, sizeof bytes, PULLEYNAVY_EDIT_REPLACE, (const uint8_t *)"a", 1, data, 1, out, sizeof out);
/// assert(edited.status == PULLEYNAVY_EDIT_STATUS_DONE && edited.size == 16);
/// assert(!memcmp(out + 8, "\0\3\1az\1\1\0", 8));
/// ```
///
/// (Core specification, Binary format, Modules, Custom Section.)
#[unsafe(no_mangle)]
pub extern "C" fn pulleynavy_edit(
    bytes: &[u8],
    kind: u32,
    name: &[u8],
    data: &[u8],
    out: &mut [u8],
) -> PlainEdited
    // Proved: `pulleynavy_edit` writes the header and the sections after an edit, if there is room
    //   for them, and returns how many bytes these are; for a stream that isn't accepted it returns
    //   the fault, and for an edit that can't be made why, and writes nothing [the clause of
    //   `pulleynavy_edit` (`EditsPlain`, `IsEdited`)]
    ensures { EditsPlain kind name.now «data».now bytes.now out.old result out.new }
{
    edit_bytes(bytes, kind, name, data, out)
}
