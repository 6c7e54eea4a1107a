// Custom sections that are written, and edits of a stream, one a call.
ghost use Rattle.std.specs.Prelude.{◌≡◌, [], ◌∷◌, All, IfOk, length};
ghost use Rattle.wasm_edits.specs.Edited.{FillsFront};
ghost use Rattle.wasm_edits.specs.Edits.{CanBeMade};
ghost use Rattle.wasm_edits.specs.Encoded.{Fits, encoded_section};
ghost use Rattle.wasm_c_items.specs.Edits.{Answers, EditsPlain, EncodesPlain, IsChoice, IsEditOf, IsNewSection, KeepsOnly, MakesEdits, plain_edit, refused, room_status, status_code, names_as_bytes};

use crate::faults::{NO_FAULT, PlainFault, plain_fault};
use wasm_edits::{Edit, Keep, NewSection, edit_to};
use wasm_parser::Result;

/// The result of an edit.
#[repr(C)]
#[derive(Clone, Copy)]
pub struct PlainEdited {
    /// The fault at which the stream stops, of kind 0 if there is none.
    pub fault: PlainFault,
    /// The size of the edited stream in bytes, also if `out` has no room for it. 0 if there is no edited stream.
    pub size: usize,
    /// A `pulleynavy_edit_status`: 0 if the edited stream was written, otherwise why it was not.
    pub status: u32,
}

/// Whether an edited stream was written, and why not.
#[derive(Clone, Copy)]
pub(crate) enum EditStatus {
    /// It was written.
    Done,
    /// There is no room for it.
    NoRoom,
    /// The stream has a fault.
    Malformed,
    /// No edit has this kind.
    UnknownKind,
    /// The name is not UTF-8.
    NameNotUtf8,
    /// The name of the new section is too long, or its content too large.
    SectionTooLarge,
}

fn status_code(status: EditStatus) -> u32
    ensures { result ≡ status_code status }
{
    match status {
        EditStatus::Done => 0,
        EditStatus::NoRoom => 1,
        EditStatus::Malformed => 2,
        EditStatus::UnknownKind => 3,
        EditStatus::NameNotUtf8 => 4,
        EditStatus::SectionTooLarge => 5,
    }
}

// ---- sections

// Returns the section with this name and this data; none if the name is not UTF-8 or the section does not fit.
fn new_section<'a>(name: &'a [u8], data: &'a [u8]) -> Option<NewSection<'a>>
    ensures { IsNewSection name.now «data».now result }
{
    let Ok(name) = std::str::from_utf8(name) else {
        return None;
    };
    let section = NewSection { name, data };
    if section.fits() { Some(section) } else { None }
}

// Writes a section to the front, if there is room for it, and returns its size.
fn write_section(section: &NewSection<'_>, out: &mut [u8]) -> usize
    requires { Fits section.now }
    ensures size { result ≡ length (encoded_section section.now) }
    ensures written { FillsFront (encoded_section section.now) out.old out.new }
{
    let size = section.size();
    if size <= out.len() {
        section.write_at(out, 0);
    }
    size
}

/// Writes a custom section, if there is room for it, and returns its size; or 0 if it can't be written.
///
/// `pulleynavy_encode_custom` of the C library is this call, and describes its errors.
pub fn encode_custom(name: &[u8], data: &[u8], out: &mut [u8]) -> usize
    ensures { EncodesPlain name.now «data».now out.old result out.new }
{
    match new_section(name, data) {
        Some(section) => write_section(&section, out),
        None => 0,
    }
}

// ---- edits

// The choice that keeps the sections with these names.
fn only<'a>(names: &'a [&'a str]) -> Keep<'a>
    ensures { KeepsOnly (names_as_bytes names.now) result }
{
    Keep {
        names: false,
        kept: names,
        removed: &[],
    }
}

// Returns the edit of this kind; none if no edit has it. The names to keep are that of the section.
fn edit_of<'a>(kind: u32, section: NewSection<'a>, kept: &'a [&'a str]) -> Option<Edit<'a>>
    requires { names_as_bytes kept.now ≡ section.name.now ∷ [] }
    ensures { IsEditOf kind section.entry.name.now section.entry.«data».now result }
{
    match kind {
        0 => Some(Edit::Append(section)),
        1 => Some(Edit::Replace(section)),
        2 => Some(Edit::Remove(section.name)),
        3 => Some(Edit::Keep(only(kept))),
        _ => None,
    }
}

// Returns the edit of this kind, or why it can't be made.
fn choice<'a>(
    kind: u32,
    section: NewSection<'a>,
    kept: &'a [&'a str],
) -> std::result::Result<Edit<'a>, EditStatus>
    requires { names_as_bytes kept.now ≡ section.name.now ∷ [] }
    ensures { IsChoice kind section.entry.name.now section.entry.«data».now result }
{
    let Some(edit) = edit_of(kind, section, kept) else {
        return Err(EditStatus::UnknownKind);
    };
    if edit.fits() {
        Ok(edit)
    } else {
        Err(EditStatus::SectionTooLarge)
    }
}

fn refused(status: EditStatus) -> PlainEdited
    ensures { result ≡ refused status }
{
    PlainEdited {
        fault: NO_FAULT,
        size: 0,
        status: status_code(status),
    }
}

// Whether there was room for this many bytes.
fn room_status(room: usize, size: usize) -> EditStatus
    ensures { result ≡ room_status room size }
{
    if size <= room {
        EditStatus::Done
    } else {
        EditStatus::NoRoom
    }
}

fn plain_edit(room: usize, size: Result<usize>) -> PlainEdited
    ensures { result ≡ plain_edit room size }
{
    match size {
        Ok(size) => PlainEdited {
            fault: NO_FAULT,
            size,
            status: status_code(room_status(room, size)),
        },
        Err(error) => PlainEdited {
            fault: plain_fault(error),
            size: 0,
            status: status_code(EditStatus::Malformed),
        },
    }
}

// Writes a stream after edits, if there is room for it.
fn make_edits(bytes: &[u8], edits: &[Edit<'_>], out: &mut [u8]) -> PlainEdited
    requires { All CanBeMade edits.now }
    ensures { MakesEdits edits.now bytes.now out.old result out.new }
{
    let room = out.len();
    plain_edit(room, edit_to(bytes, edits, out))
}

// Makes an edit, or reports why it can't be made.
fn answer(
    bytes: &[u8],
    choice: std::result::Result<Edit<'_>, EditStatus>,
    out: &mut [u8],
) -> PlainEdited
    requires { IfOk choice CanBeMade }
    ensures { Answers choice.entry bytes.now out.old result out.new }
{
    match choice {
        Ok(edit) => make_edits(bytes, &[edit], out),
        Err(status) => refused(status),
    }
}

/// Writes a stream after an edit, if there is room for it.
///
/// `pulleynavy_edit` of the C library is this call, and describes its errors.
pub fn edit_bytes<'a>(
    bytes: &[u8],
    kind: u32,
    name: &'a [u8],
    data: &'a [u8],
    out: &mut [u8],
) -> PlainEdited
    ensures { EditsPlain kind name.now «data».now bytes.now out.old result out.new }
{
    let Ok(name) = std::str::from_utf8(name) else {
        return refused(EditStatus::NameNotUtf8);
    };
    let kept = [name];
    answer(bytes, choice(kind, NewSection { name, data }, &kept), out)
}
