// Bodies of functions.
ghost use Rattle.std.specs.Prelude.{◌≡◌, ◌+◌, length};

use std::ops::Range;
use wasm_base::BinaryReader;

/// The body of a function, as the window after its size field.
///
/// `parse` returns bodies without decoding their locals and instructions. `get_binary_reader` gives a decoder their
/// bytes.
///
/// ```rattle
/// let body = FunctionBody::new(BinaryReader::new(&[0x00, 0x0b], 16));
/// let mut reader = body.get_binary_reader();
/// assert_eq!(rt; reader.read_var_u32()?, 0);
/// assert_eq!(rt; body.range().end, 18);
/// ```
///
/// (Core specification, Binary format, Modules, Code Section.)
#[derive(Clone, Debug, Drop)]
pub struct FunctionBody<'a> {
    reader: BinaryReader<'a>,
}

impl<'a> FunctionBody<'a> {
    ghost use Rattle.wasm_base.specs.Window.{range_of};
    ghost use Rattle.wasm_items.specs.Windows.{body_window};

    /// Creates a body from a window, without reading it.
    pub fn new(reader: BinaryReader<'a>) -> Self
        // Proved: a `FunctionBody` and a `ConstExpr` are the window that they were made of: its
        //   reader and its offsets [the clauses of `new`, `get_binary_reader` and `range`]
        ensures { body_window result ≡ reader.entry }
    {
        FunctionBody { reader }
    }

    /// Returns a reader over the body: its declarations of locals, then its instructions.
    pub fn get_binary_reader(&self) -> BinaryReader<'a>
        ensures { result ≡ body_window self.now }
    {
        self.reader.clone().unwrap()
    }

    /// Returns the offsets of the body, without the size field, in bytes from the start of the stream.
    pub fn range(&self) -> Range<u64>
        ensures { result ≡ range_of (body_window self.now) }
    {
        self.reader.range()
    }
}
