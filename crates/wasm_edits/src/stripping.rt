// A stream without its custom sections.
ghost use Rattle.std.specs.Prelude.{◌≡◌, ◌+◌, ◌<◌, ◌≤◌, ◌^◌, [], ◌∷◌, length};
ghost use Rattle.std.specs.List.{copy_within};
ghost use Rattle.wasm_edits.specs.EditParts.{MovesKept};
ghost use Rattle.wasm_edits.specs.Edited.{MeasuresEdited};
ghost use Rattle.wasm_edits.specs.Stripped.{Strips, StripsInPlace, StripsToFront};
ghost use Rattle.wasm_edits.specs.declared.edits.Edit.TheVariants as edit;
ghost use Rattle.wasm_edits.specs.Fates.{custom_stays, stays_by};
ghost use Rattle.wasm_grammar.specs.Reading.{Stream};

use crate::editing::{edit, edited_len, next_part};
use crate::edits::{Edit, Fate};
use crate::fates::Keep;
use std::alloc::{Allocator, Global};
use wasm_base::Result;
use wasm_frames::StoredParser;
use wasm_streams::Cursor;

// Returns the length of the stripped stream, if it has no fault.
fn stripped_len(bytes: &[u8], keep: Keep<'_>) -> Result<usize>
    ensures measures { MeasuresEdited (edit.Keep keep.entry ∷ []) bytes.now result }
    ensures stream { Stream bytes.now 0 }
{
    edited_len(bytes, &[Edit::Keep(keep)])
}

// Moves `size` bytes from `start` down to another place, if they are not there already.
fn move_down(bytes: &mut [u8], start: usize, size: usize, to: usize)
    requires order { to ≤ start }
    requires within { start + size ≤ length bytes.old }
    ensures items { bytes.new ≡ copy_within bytes.old start (start + size) to }
    ensures len { length bytes.new ≡ length bytes.old }
{
    if to < start {
        bytes.copy_within(start..start + size, to);
    }
}

// Moves the stripped stream to the front of its bytes, and returns its length in bytes.
fn move_kept(bytes: &mut [u8], keep: Keep<'_>) -> Result<usize>
    requires { length bytes.old < 2 ^ 64 }
    ensures { MovesKept (edit.Keep keep.entry ∷ []) bytes.old result bytes.new }
{
    let mut cursor = Cursor::over_all(StoredParser::new(0));
    let mut kept = 0;
    'parts: while let Some(part) = next_part(&mut cursor, bytes, &[Edit::Keep(keep)])? {
        match part.fate {
            Fate::Stays => {
                let size = part.bytes.len();
                move_down(bytes, cursor.mark() - size, size, kept);
                kept += size;
            }
            Fate::Goes => {}
            Fate::Becomes(_) => unreachable!(),
        }
    }
    Ok(kept)
}

/// Strips a stream in place, moves the result to the front of the bytes, and returns the length of the result in bytes.
///
/// The result is that of `edit` with `Edit::Keep(keep)`. The bytes after it are unspecified. It never allocates.
///
/// # Errors
///
/// The fault at which the stream stops, at its offset in bytes from the start of the stream. The bytes are then
/// unchanged.
///
/// ```rattle
/// let mut bytes = *b"\0asm\x01\0\0\0\0\x02\x01a";
/// let len = strip_to_front(&mut bytes, Keep::names(false))?;
/// assert_eq!(rt; &bytes[..len], b"\0asm\x01\0\0\0".as_slice());
/// ```
pub fn strip_to_front(bytes: &mut [u8], keep: Keep<'_>) -> Result<usize>
    // Proved: `strip_to_front` and `strip_in_place` keep what `strip` keeps and the custom sections
    //   whose names match a pattern of `kept`, and if `removed` has patterns, those whose names
    //   match none of them [their clauses (`stays_by`)]
    // Proved: `strip_to_front` moves the bytes that stay to the front of a slice and returns how
    //   many; for a stream that isn't accepted it returns the fault and leaves the bytes unchanged.
    //   It never returns `OutOfMemory` [the clause of `strip_to_front` (`StripsToFront`,
    //   `LeavesStream`)]
    ensures { StripsToFront (stays_by keep.entry) bytes.old result bytes.new }
{
    // In place, so that a program holds only its input: of 40 MB, a copy cost a third of the time, by the page faults of fresh memory.
    stripped_len(bytes, keep)?;
    move_kept(bytes, keep)
}

/// Strips a stream in place, and truncates the vector to the result.
///
/// # Errors
///
/// Those of `strip_to_front`.
///
/// ```rattle
/// let mut bytes = b"\0asm\x01\0\0\0\0\x02\x01a".to_vec(alloc)?;
/// strip_in_place(&mut bytes, Keep::names(false))?;
/// assert_eq!(rt; bytes.len(), 8);
/// ```
pub fn strip_in_place<A: Allocator>(bytes: &mut Vec<u8, A>, keep: Keep<'_>) -> Result<()>
    // Proved: `strip_in_place` does the same with a vector and never returns `OutOfMemory`; for a
    //   stream that isn't accepted it returns the fault and leaves the bytes unchanged [the clause
    //   of `strip_in_place` (`StripsInPlace`, `LeavesStream`)]
    ensures { StripsInPlace (stays_by keep.entry) bytes.old.items result bytes.new.items }
{
    let kept = strip_to_front(bytes.as_mut_slice(), keep)?;
    bytes.truncate(kept);
    Ok(())
}

/// Returns a copy of a stream without its custom sections.
///
/// The copy has the header and the other sections, byte for byte and in order. With `keep_names` the custom sections
/// named `name` stay too. The copy has no fault either, and parses like the stream, except for the removed sections;
/// offsets are less by the number of bytes removed before them. The call allocates once, exactly the bytes of the copy.
///
/// # Errors
///
/// * The fault at which the stream stops, at its offset in bytes from the start of the stream. Nothing was allocated.
/// * `OutOfMemory`, at offset 0, when the allocation fails.
///
/// ```rattle
/// let stripped = strip(alloc, b"\0asm\x01\0\0\0\0\x02\x01a", false)?;
/// assert_eq!(rt; stripped.as_slice(), b"\0asm\x01\0\0\0".as_slice());
/// ```
///
/// (Core specification, Binary format, Modules, Custom Section.)
pub fn strip(alloc: Global, bytes: &[u8], keep_names: bool) -> Result<Vec<u8>>
    // Proved: `strip` returns the header and the sections that aren't custom, each byte for byte
    //   and in order; with `keep_names` also the custom sections named `name` [the clause of
    //   `strip` (`IsStripped`)]
    // Proved: these bytes are accepted, and their reading is the stream's without the dropped
    //   events, each offset less by the bytes dropped before it [the clause of `strip` (`AreKept`)]
    // Proved: for a stream that isn't accepted it returns the fault at which the reading ends;
    //   `OutOfMemory` only for an accepted one [the clause of `strip` (`RefusesToStrip`)]
    ensures { Strips (custom_stays keep_names) bytes.now result }
{
    edit(alloc, bytes, &[Edit::Keep(Keep::names(keep_names))])
}
