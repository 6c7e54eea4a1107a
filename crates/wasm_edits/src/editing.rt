// Editing streams in memory.
ghost use Rattle.std.specs.Prelude.{◌≡◌, ◌+◌, ◌≤◌, ◌++◌, [], All, Ok, drop, length, take, true};
ghost use Rattle.wasm_edits.specs.EditParts.{HoldsLess, HasRoom, IsLength, IsEditedPart, PartFits, Passes, TakesEditedPart, WritesEdited};
ghost use Rattle.wasm_edits.specs.Edited.{EditsStream, EditsTo, MeasuresEdited};
ghost use Rattle.wasm_edits.specs.Edits.{CanBeMade, CanBeWritten, added_by, bytes_as, new_bytes};
ghost use Rattle.wasm_streams.specs.Cursors.{feed_of};

use crate::edits::{Edit, Fate, added_by, frame_fate};
use std::alloc::Allocator;
use wasm_base::{Error, Fault, Result};
use wasm_frames::{Frame, FrameKind, StoredParser};
use wasm_io::write_bytes;
use wasm_streams::{Cursor, FrameStep, next_frame};

/// A part of a stream that is edited.
#[derive(Clone, Copy)]
pub(crate) struct Part<'a> {
    /// Its bytes.
    pub(crate) bytes: &'a [u8],
    /// What becomes of it.
    pub(crate) fate: Fate<'a>,
}

impl Part<'_> {
    // Returns how many bytes are written of the part.
    fn size(&self) -> usize
        requires { CanBeWritten self.now.fate }
        ensures { result ≡ length (bytes_as self.now.fate self.now.bytes.now) }
    {
        match &self.fate {
            Fate::Stays => self.bytes.len(),
            Fate::Goes => 0,
            Fate::Becomes(section) => section.size(),
        }
    }

    // Writes the part, or what becomes of it, at the index `at`, and returns the index after it.
    fn write_at(&self, bytes: &mut [u8], at: usize) -> usize
        requires fits { CanBeWritten self.now.fate }
        requires room { at + length (bytes_as self.now.fate self.now.bytes.now) ≤ length bytes.old }
        ensures end { result ≡ at + length (bytes_as self.now.fate self.now.bytes.now) }
        ensures written { take result bytes.new
            ≡ take at bytes.old ++ bytes_as self.now.fate self.now.bytes.now }
        ensures rest { drop result bytes.new ≡ drop result bytes.old }
        ensures len { length bytes.new ≡ length bytes.old }
    {
        match &self.fate {
            Fate::Stays => write_bytes(bytes, at, self.bytes),
            Fate::Goes => at,
            Fate::Becomes(section) => section.write_at(bytes, at),
        }
    }
}

// Returns the section that an edit appends, as the later edits leave it.
fn new_part<'a>(edit: &Edit<'a>, later: &[Edit<'a>]) -> Part<'a>
    requires { CanBeMade edit.now × All CanBeMade later.now }
    ensures bytes { result.bytes.now ≡ [] }
    ensures fate { result.fate ≡ added_by edit.now later.now }
    ensures fits { CanBeWritten result.fate }
{
    Part {
        bytes: b"",
        fate: added_by(edit, later),
    }
}

// Returns the part that is this frame, none at the end of the stream.
fn part_of<'a>(bytes: &'a [u8], frame: &Frame<'_>, edits: &[Edit<'a>]) -> Option<Part<'a>>
    ensures is { IsEditedPart edits.now frame.now bytes.now result }
    ensures fits { All CanBeMade edits.now → PartFits (Ok result) }
{
    match frame.kind() {
        FrameKind::End => None,
        _ => Some(Part {
            bytes,
            fate: frame_fate(edits, frame),
        }),
    }
}

// Returns the next part of these bytes, which are all of a stream; none at its end.
pub(crate) fn next_part<'a>(
    cursor: &mut Cursor,
    bytes: &'a [u8],
    edits: &[Edit<'a>],
) -> Result<Option<Part<'a>>>
    requires finished { cursor.old.is_finished ≡ true }
    ensures takes { TakesEditedPart edits.now (feed_of bytes.now cursor.old) result
        (feed_of bytes.now cursor.new) }
    ensures goes_on { HoldsLess (feed_of bytes.now cursor.old) result
        (feed_of bytes.now cursor.new) }
    ensures finished { cursor.new.is_finished ≡ true }
    ensures passes { Passes bytes.now cursor.old.mark result cursor.new.mark }
    ensures fits { All CanBeMade edits.now → PartFits result }
{
    match next_frame(cursor, bytes) {
        FrameStep::Parsed { frame, bytes } => Ok(part_of(bytes, &frame, edits)),
        FrameStep::NeedMoreData(_) => unreachable!(),
        FrameStep::Fault(error) => Err(error),
    }
}

// Returns how many bytes the sections have that edits append, or `usize::MAX` if that is less.
fn new_len(edits: &[Edit<'_>]) -> usize
    requires { All CanBeMade edits.now }
    ensures { IsLength result (new_bytes edits.now) }
{
    let mut size = 0usize;
    let mut rest = edits;
    'edits: while let [edit, later @ ..] = rest {
        size = size.saturating_add(new_part(edit, later).size());
        rest = later;
    }
    size
}

// Writes the sections that edits append at the index `at`, and returns the index after them.
fn write_new(edits: &[Edit<'_>], bytes: &mut [u8], at: usize) -> usize
    requires fits { All CanBeMade edits.now }
    requires room { at + length (new_bytes edits.now) ≤ length bytes.old }
    ensures end { result ≡ at + length (new_bytes edits.now) }
    ensures written { take result bytes.new ≡ take at bytes.old ++ new_bytes edits.now }
    ensures rest { drop result bytes.new ≡ drop result bytes.old }
    ensures len { length bytes.new ≡ length bytes.old }
{
    let mut end = at;
    let mut rest = edits;
    'edits: while let [edit, later @ ..] = rest {
        end = new_part(edit, later).write_at(bytes, end);
        rest = later;
    }
    end
}

/// Returns how many bytes a stream has after edits, or `usize::MAX` if that is less.
///
/// The new sections must fit (`all_fit`). It never allocates.
///
/// # Errors
///
/// The fault at which the stream stops, at its offset in bytes from the start of the stream.
pub fn edited_len<'a>(bytes: &'a [u8], edits: &[Edit<'a>]) -> Result<usize>
    requires { All CanBeMade edits.now }
    // Proved: `edited_len` returns the length of the edited stream, or the greatest number if that is less; for a stream
    //   that isn't accepted the fault, and never `OutOfMemory` [the clause of `edited_len` (`MeasuresEdited`)]
    ensures { MeasuresEdited edits.now bytes.now result }
{
    // A slice is shorter than 2^64 bytes, which the functions below want to know.
    let _length = bytes.len();
    let mut cursor = Cursor::over_all(StoredParser::new(0));
    let mut size = 0usize;
    'parts: while let Some(part) = next_part(&mut cursor, bytes, edits)? {
        size = size.saturating_add(part.size());
    }
    Ok(size.saturating_add(new_len(edits)))
}

// Writes an edited stream at the front of these bytes, where there is room for it. Returns its length.
fn write_edited<'a>(bytes: &'a [u8], edits: &[Edit<'a>], out: &mut [u8]) -> Result<usize>
    requires fits { All CanBeMade edits.now }
    requires room { HasRoom edits.now bytes.now out.old }
    ensures { WritesEdited edits.now bytes.now out.old result out.new }
{
    let _length = bytes.len();
    let mut cursor = Cursor::over_all(StoredParser::new(0));
    let mut end = 0;
    'parts: while let Some(part) = next_part(&mut cursor, bytes, edits)? {
        end = part.write_at(out, end);
    }
    Ok(write_new(edits, out, end))
}

/// Writes a stream after edits to the front of `out`, if it has room for all of it, and returns the length of the edited
/// stream, or `usize::MAX` if that is less. Otherwise it leaves `out` unchanged.
///
/// The new sections must fit (`all_fit`). It never allocates.
///
/// # Errors
///
/// The fault at which the stream stops, at its offset in bytes from the start of the stream. Nothing was written.
///
/// ```rattle
/// let bytes = b"\0asm\x01\0\0\0\0\x02\x01a";
/// let edits = [Edit::Replace(NewSection { name: "a", data: b"z" })];
/// assert!(rt; all_fit(&edits));
/// let mut out = [0; 20];
/// let size = edit_to(bytes, &edits, &mut out)?;
/// assert_eq!(rt; &out[..size], b"\0asm\x01\0\0\0\0\x03\x01az".as_slice());
/// ```
pub fn edit_to(bytes: &[u8], edits: &[Edit<'_>], out: &mut [u8]) -> Result<usize>
    requires { All CanBeMade edits.now }
    // Proved: `edit_to` writes the edited stream to the front of other bytes if there is room for it, and otherwise
    //   leaves them unchanged [the clause of `edit_to` (`EditsTo`, `FillsFront`)]
    ensures { EditsTo edits.now bytes.now out.old result out.new }
{
    let size = edited_len(bytes, edits)?;
    if size <= out.len() {
        write_edited(bytes, edits, out)?;
    }
    Ok(size)
}

/// Returns a copy of a stream after edits.
///
/// The other sections keep their bytes and their order, as do the custom sections that stay. The copy parses like the
/// stream, except for the removed and the new sections; offsets differ by the number of bytes removed or added before
/// them. The new sections must fit (`all_fit`). The call allocates once, exactly the bytes of the copy.
///
/// # Errors
///
/// * The fault at which the stream stops, at its offset in bytes from the start of the stream. Nothing was allocated.
/// * `OutOfMemory`, at offset 0, when the allocation fails.
///
/// (Core specification, Binary format, Modules, Custom Section.)
pub fn edit<A: Allocator>(alloc: A, bytes: &[u8], edits: &[Edit<'_>]) -> Result<Vec<u8, A>>
    requires { All CanBeMade edits.now }
    // Proved: `edit` returns the header and the sections after the edits; the result is accepted, with these sections.
    //   For a stream that isn't accepted it returns the fault at which the reading ends, and `OutOfMemory` only for an
    //   accepted one [the clause of `edit` (`IsEdited`)]
    ensures { EditsStream edits.now bytes.now result }
{
    let size = edited_len(bytes, edits)?;
    let Ok(mut edited) = vec![in alloc; 0u8; size] else {
        return Err(Error::new(Fault::OutOfMemory, 0));
    };
    write_edited(bytes, edits, &mut edited)?;
    Ok(edited)
}
