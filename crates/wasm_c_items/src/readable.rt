// How an item is read for C.
ghost use Rattle.std.specs.Prelude.{◌≡◌, ℕ, Err};
ghost use Rattle.wasm_base.specs.FaultAt.{fault_at};
ghost use Rattle.wasm_base.specs.Outcome.{Outcome, GivesBy};
ghost use Rattle.wasm_base.specs.Window.{Place, place};
ghost use Rattle.wasm_c_items.specs.Readable.{item_over, read_plainly};

use crate::spans::{out_of_range, reader_over};
use wasm_parser::{BinaryReader, Error, Result, fits};

/// A kind of item, and the struct of plain numbers that C gets for it.
pub trait Readable: Copy {
    /// The struct.
    type Plain: Copy;

    /// What is read.
    ghost Item: { Type 0 };

    /// Reading it.
    ghost reading: { Self → Place → Outcome Item };

    /// The struct of what was read at a place, or of its fault. Its spans begin at the offset `from`.
    ghost plain: { Self → (from : ℕ) → Place → Outcome Item → Self.Plain };

    /// Reads an item.
    fn read(self, reader: &mut BinaryReader<'_>, from: u64) -> Result<Self::Plain>
        ensures { GivesBy (λ item. item) result reader.old reader.new
            (read_plainly (plain self from) (reading self)) };

    /// The struct of a fault: all other fields are 0.
    fn refused(self, error: Error) -> Self::Plain
        ensures { (from : ℕ) (p : Place) → result ≡ plain self from p (Err (fault_at error)) };
}

// Reads the item at which the reader is.
fn read_next<R: Readable>(kind: R, mut reader: BinaryReader<'_>, from: u64) -> R::Plain
    ensures { result ≡ R.plain kind from (place reader.entry)
        (R.reading kind (place reader.entry)) }
{
    match kind.read(&mut reader, from) {
        Ok(item) => item,
        Err(error) => kind.refused(error),
    }
}

/// Reads the item at the start of these bytes, which are at this offset of the stream.
#[inline(always)]
pub fn read_at<R: Readable>(kind: R, bytes: &[u8], offset: u64, features: u32) -> R::Plain
    ensures { result ≡ item_over (R.plain kind) (R.reading kind) features offset bytes.now }
{
    if !fits(offset, bytes.len()) {
        return kind.refused(out_of_range(offset));
    }
    read_next(kind, reader_over(bytes, offset, features), offset)
}
