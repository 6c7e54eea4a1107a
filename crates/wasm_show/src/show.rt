// The traits of what can be shown.
ghost use Rattle.wasm_show.specs.ItemText.{index_fields};
ghost use Rattle.wasm_output.specs.Said.{Says, SaysFields};
ghost use Rattle.wasm_output.specs.Tree.{Adds};

use wasm_output::Tree;

/// An item whose fields can be written on a tree.
///
/// Implement it to show your own items. `show` is called after the line of the item was begun.
///
/// ```rattle
/// let mut reader = BinaryReader::new(b"\x03add\x00\x05", 0);
/// let export = Export::from_reader(&mut reader)?;
/// let mut out = TextLines::new(alloc, BoundedSink::new(alloc, 1000)?);
/// out.item(1, 0);
/// export.show(1, &mut out);
/// out.write_out();
/// let wanted = b"  0 name=\"add\" kind=func index=5\n";
/// assert_eq!(rt; out.into_output().written(), wanted.as_slice());
/// ```
pub trait Show: Drop {
    /// Writes the fields of the item on the current line, which is at this level, and the items of its lists on lines
    /// under it.
    fn show<O: Tree>(&self, level: usize, out: &mut O)
        ensures { Adds (O.writing out.old) (O.writing out.new) };
}

/// A part of an item that is written without the name of a field, such as a type.
///
/// ```rattle
/// let mut out = TextLines::new(alloc, BoundedSink::new(alloc, 1000)?);
/// out.line_field(1, "ty");
/// RefType::FUNCREF.text(&mut out);
/// out.write_out();
/// assert_eq!(rt; out.into_output().written(), b"  ty=(ref null func)\n".as_slice());
/// ```
pub trait Text: Drop {
    ghost use Rattle.std.specs.Prelude.{ℕ, List};

    /// The value that the text depends on.
    ghost words: { Self → List ℕ };

    /// Writes the part on the current line. It has no line feed.
    fn text<O: Tree>(&self, out: &mut O)
        ensures adds { Adds (O.writing out.old) (O.writing out.new) }
        // Proved: the text of a type [`says` of `text` of each type (`val_text`, `func_text` and the like)]
        ensures says { Says (words self.now) (O.writing out.old) (O.writing out.new) };
}

impl Text for u32 {
    ghost use Rattle.std.specs.Prelude.{decimal};

    ghost words = { decimal };

    fn text<O: Tree>(&self, out: &mut O) {
        out.digits(u64::from(*self));
    }
}

/// Writes a field: an index.
impl Show for u32 {
    fn show<O: Tree>(&self, _level: usize, out: &mut O)
        ensures adds { Adds (O.writing out.old) (O.writing out.new) }
        // Proved: what the line of a function's index says in the style of lines after its offset, number and name
        //   [`says` of `show` of `u32` (`SaysFields`, `index_fields`)]
        ensures says { SaysFields (index_fields self.now) (O.writing out.old) (O.writing out.new) }
    {
        out.number("index", u64::from(*self));
    }
}

/// Writes a field: a name.
impl Show for &str {
    fn show<O: Tree>(&self, _level: usize, out: &mut O) {
        out.quoted("name", self);
    }
}
