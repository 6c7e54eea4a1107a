// Where the first custom section with a name is in a stream.
ghost use Rattle.std.specs.Prelude.{◌≡◌, ◌<◌, true};
ghost use Rattle.wasm_commands.specs.Finding.{has_name};
ghost use Rattle.wasm_commands.specs.FirstNamed.{FindsFirst, GoesOn, IsPartOf, TakesPart, first_found};

use wasm_frames::{Frame, FrameKind, StoredParser};
use wasm_parser::Result;
use wasm_streams::{Cursor, FrameStep, next_frame};

/// The bytes before and after a part of a stream.
#[derive(Clone, Copy)]
pub(crate) struct Around<'a> {
    pub(crate) before: &'a [u8],
    pub(crate) after: &'a [u8],
}

// A part of a stream: whether it is a custom section with the name, and the bytes around it.
#[derive(Clone, Copy)]
struct Part<'a> {
    is_named: bool,
    around: Around<'a>,
}

// Returns whether a part is a custom section with this name.
fn is_named(frame: &Frame<'_>, name: &str) -> bool
    ensures { result ≡ has_name name.now frame.now }
{
    match frame.kind() {
        FrameKind::Custom => frame.name_bytes() == name.as_bytes(),
        _ => false,
    }
}

// Returns the part that is this frame, none at the end of the stream.
fn part_of<'a>(frame: &Frame<'_>, name: &str, around: Around<'a>) -> Option<Part<'a>>
    ensures { IsPartOf name.now frame.now around.entry result }
{
    match frame.kind() {
        FrameKind::End => None,
        _ => Some(Part {
            is_named: is_named(frame, name),
            around,
        }),
    }
}

// Returns the next part of a stream, none at its end.
fn next_part<'a>(cursor: &mut Cursor, bytes: &'a [u8], name: &str) -> Result<Option<Part<'a>>>
    requires { cursor.old.is_finished ≡ true }
    ensures takes { TakesPart name.now bytes.now cursor.old result cursor.new }
    ensures goes_on { GoesOn bytes.now cursor.old result cursor.new }
    ensures finished { cursor.new.is_finished ≡ true }
{
    let rest = cursor.remaining(bytes);
    let before = &bytes[..bytes.len() - rest.len()];
    match next_frame(cursor, bytes) {
        FrameStep::Parsed { frame, .. } => {
            let after = cursor.remaining(bytes);
            Ok(part_of(&frame, name, Around { before, after }))
        }
        FrameStep::NeedMoreData(_) => unreachable!(),
        FrameStep::Fault(error) => Err(error),
    }
}

// Returns the first section with the name, where one was found so far or not.
fn first_of<'a>(found: Option<Around<'a>>, part: Part<'a>) -> Option<Around<'a>>
    ensures { result ≡ first_found found.entry part.entry }
{
    match found {
        Some(around) => Some(around),
        None => {
            if part.is_named {
                Some(part.around)
            } else {
                None
            }
        }
    }
}

/// Returns what is around the first custom section with a name, if the stream has one.
///
/// # Errors
///
/// The fault at which the stream stops, wherever it is.
pub(crate) fn find_first<'a>(bytes: &'a [u8], name: &str) -> Result<Option<Around<'a>>>
    // Proved: the section that `producers --set` changes is the first one with its name, and the stream
    //   has no fault to its end [`find_first` (`FindsFirst`)]
    ensures { FindsFirst name.now bytes.now result }
{
    // A slice is shorter than 2^64 bytes, which the functions below want to know.
    let _length = bytes.len();
    let mut cursor = Cursor::over_all(StoredParser::new(0));
    let mut found = None;
    'parts: while let Some(part) = next_part(&mut cursor, bytes, name)? {
        found = first_of(found, part);
    }
    Ok(found)
}
