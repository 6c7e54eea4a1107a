// Index spaces, and the numbers of items in them.
ghost use Rattle.std.specs.Prelude.{◌≡◌, ◌≤◌, ◌+◌, ◌++◌, [], length, take};
ghost use Rattle.wasm_output.specs.Numbers.{number_text, word_of};

use crate::padded::{Padded, write_padded};
use wasm_io::{ShortText, write_number, write_word};

/// An index space (core specification, Binary format, Modules, Indices), or the symbols of an object file.
#[derive(Clone, Copy)]
pub enum Space {
    /// The index space of types.
    Types,
    /// The index space of functions.
    Functions,
    /// The index space of tables.
    Tables,
    /// The index space of memories.
    Memories,
    /// The index space of tags.
    Tags,
    /// The index space of globals.
    Globals,
    /// The index space of element segments.
    Elements,
    /// The index space of data segments.
    DataSegments,
    /// The symbols of an object file (tool conventions, Linking, Symbol Table Subsection).
    Symbols,
}

// The word of an index space.
#[inline(always)]
fn space_word(space: Space) -> Padded
    ensures word { result ≡ word_of space }
    ensures short { length result ≤ 6 }
{
    match space {
        Space::Types => Padded::of("type    ", 4),
        Space::Functions => Padded::of("func    ", 4),
        Space::Tables => Padded::of("table   ", 5),
        Space::Memories => Padded::of("memory  ", 6),
        Space::Tags => Padded::of("tag     ", 3),
        Space::Globals => Padded::of("global  ", 6),
        Space::Elements => Padded::of("elem    ", 4),
        Space::DataSegments => Padded::of("data    ", 4),
        Space::Symbols => Padded::of("symbol  ", 6),
    }
}

/// Writes the word of an index space.
#[inline(always)]
pub(crate) fn write_space(bytes: &mut [u8], at: usize, space: Space) -> usize
    requires { at + 8 ≤ length bytes.old }
    ensures short { result ≤ at + 6 }
    ensures written { take result bytes.new ≡ take at bytes.old ++ word_of space }
{
    write_padded(bytes, at, &space_word(space))
}

/// Writes the number of an item into `bytes` at this place, and returns the place after it: a word for the index space,
/// and the index in brackets.
///
/// There must be at least 28 bytes from the place on.
///
/// ```rattle
/// let mut bytes = [0; 28];
/// let end = write_item(&mut bytes, 0, Space::Functions, 5);
/// assert_eq!(rt; &bytes[..end], b"func[5]".as_slice());
/// ```
#[inline(always)]
pub fn write_item(bytes: &mut [u8], at: usize, space: Space, index: u64) -> usize
    requires { at + 28 ≤ length bytes.old }
    ensures short { result ≤ at + 28 }
    ensures written { take result bytes.new ≡ take at bytes.old
        ++ number_text (record { space = space; index = index }) [] }
{
    let at = write_space(bytes, at, space);
    let at = write_word(bytes, at, "[");
    let at = write_number(bytes, at, index);
    write_word(bytes, at, "]")
}

/// The number of an item.
#[derive(Clone, Copy)]
pub(crate) struct ItemNumber {
    pub(crate) space: Space,
    pub(crate) index: u64,
}

impl ShortText for ItemNumber {
    ghost use Rattle.std.specs.Prelude.{[]};
    ghost use Rattle.wasm_output.specs.Numbers.{number_text};

    ghost text = { λ n. number_text (record { space = n.space; index = n.index }) [] };

    #[inline(always)]
    fn write_at(&self, bytes: &mut [u8], at: usize) -> usize {
        write_item(bytes, at, self.space, self.index)
    }
}
