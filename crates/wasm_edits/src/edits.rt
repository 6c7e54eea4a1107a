// Edits of the custom sections of a stream.
ghost use Rattle.std.specs.Prelude.{◌≡◌, All, IsTrue, ◌↔◌, bytes_eq};
ghost use Rattle.wasm_edits.specs.Edits.{CanBeMade, CanBeWritten, added_by, fate_by, head_fate, is_itself, report_fate};
ghost use Rattle.wasm_frames.specs.SkipNext.{head_is};

use crate::encoding::NewSection;
use crate::fates::{Keep, is_kept};
use wasm_frames::{Frame, FrameKind, PartHead};

/// A change of the custom sections of a stream. Edits in a slice happen in turn: a later one also changes the sections
/// that an earlier one added.
///
/// ```rattle
/// let bytes = b"\0asm\x01\0\0\0\0\x02\x01a\0\x02\x01b";
/// let edits = [
///     Edit::Remove("b"),
///     Edit::Replace(NewSection { name: "a", data: b"z" }),
///     Edit::Append(NewSection { name: "c", data: b"" }),
/// ];
/// assert!(rt; all_fit(&edits));
/// let edited = edit(alloc, bytes, &edits)?;
/// assert_eq!(rt; edited.as_slice(), b"\0asm\x01\0\0\0\0\x03\x01az\0\x02\x01c".as_slice());
/// ```
///
/// (Core specification, Binary format, Modules, Custom Section.)
#[derive(Clone, Copy)]
pub enum Edit<'a> {
    /// Keeps the custom sections that this choice keeps, and removes the others.
    Keep(Keep<'a>),
    /// Removes each custom section with this name.
    Remove(&'a str),
    /// Appends a section.
    Append(NewSection<'a>),
    /// Replaces each custom section with the name of this one, in its place.
    Replace(NewSection<'a>),
}

/// What becomes of a section.
#[derive(Clone, Copy)]
pub(crate) enum Fate<'a> {
    /// It stays.
    Stays,
    /// It is removed.
    Goes,
    /// It is replaced by another one.
    Becomes(NewSection<'a>),
}

impl Fate<'_> {
    /// Returns whether the section stays as it is.
    pub(crate) fn is_itself(&self) -> bool
        ensures { result ≡ is_itself self.now }
    {
        matches!(self, Fate::Stays)
    }
}

impl Edit<'_> {
    /// Returns whether the new section of the edit can be written, if it has one (`NewSection::fits`).
    pub fn fits(&self) -> bool
        // Proved: whether the new section of an edit can be written, and those of all edits
        ensures { IsTrue result ↔ CanBeMade self.now }
    {
        match self {
            Edit::Append(section) | Edit::Replace(section) => section.fits(),
            Edit::Keep(_) | Edit::Remove(_) => true,
        }
    }
}

/// Returns whether the new section of each edit can be written.
pub fn all_fit(edits: &[Edit<'_>]) -> bool
    ensures { IsTrue result ↔ All CanBeMade edits.now }
{
    for edit in edits {
        if !edit.fits() {
            return false;
        }
    }
    true
}

// Returns whether two names are equal. Out of line, so that it costs nothing where no name is compared.
#[inline(never)]
fn is_same(name: &[u8], other: &str) -> bool
    ensures { result ≡ bytes_eq name.now other.now }
{
    name == other.as_bytes()
}

/// Returns what becomes of a custom section with this name.
#[inline(always)]
pub(crate) fn fate_by<'a>(edits: &[Edit<'a>], name: &[u8]) -> Fate<'a>
    // Proved: what becomes of a custom section: the first edit that removes it decides, else the last one that replaces
    //   it; a section that an edit appends is changed by the later ones alone [`fate_by`, `added_by`, both private]
    ensures is { result ≡ fate_by edits.now name.now }
    ensures fits { All CanBeMade edits.now → CanBeWritten result }
{
    let mut fate = Fate::Stays;
    for edit in edits {
        match *edit {
            Edit::Keep(keep) => {
                if !is_kept(name, keep) {
                    return Fate::Goes;
                }
            }
            Edit::Remove(removed) => {
                if is_same(name, removed) {
                    return Fate::Goes;
                }
            }
            Edit::Replace(section) => {
                if is_same(name, section.name) {
                    fate = Fate::Becomes(section);
                }
            }
            Edit::Append(_) => {}
        }
    }
    fate
}

/// Returns what becomes of a part that is this frame.
#[inline(always)]
pub(crate) fn frame_fate<'a>(edits: &[Edit<'a>], frame: &Frame<'_>) -> Fate<'a>
    ensures is { result ≡ report_fate edits.now frame.now }
    ensures fits { All CanBeMade edits.now → CanBeWritten result }
{
    match frame.kind() {
        FrameKind::Custom => fate_by(edits, frame.name_bytes()),
        _ => Fate::Stays,
    }
}

/// Returns what becomes of a part that is skipped, by its first fields.
pub(crate) fn head_fate<'a>(edits: &[Edit<'a>], head: &PartHead<'_>) -> Fate<'a>
    ensures is { result ≡ head_fate edits.now (head_is head.now) }
    ensures fits { All CanBeMade edits.now → CanBeWritten result }
{
    match head {
        PartHead::Custom { name, .. } => fate_by(edits, name.as_bytes()),
        _ => Fate::Stays,
    }
}

/// Returns what is written of the section that an edit appends, as the later edits leave it. Nothing, if it appends none.
pub(crate) fn added_by<'a>(edit: &Edit<'a>, later: &[Edit<'a>]) -> Fate<'a>
    requires { CanBeMade edit.now × All CanBeMade later.now }
    ensures is { result ≡ added_by edit.now later.now }
    ensures fits { CanBeWritten result }
{
    match *edit {
        Edit::Append(section) => match fate_by(later, section.name.as_bytes()) {
            Fate::Stays => Fate::Becomes(section),
            other => other,
        },
        _ => Fate::Goes,
    }
}
