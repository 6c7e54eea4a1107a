// What can be read from a reader.
ghost use Rattle.wasm_base.specs.Hints.{NotOutOfMemory, Hints, missing_of_sized};
ghost use Rattle.wasm_base.specs.Item.{Means, ReadsAs, ReadsName, BothInTurn, bool_at};
ghost use Rattle.wasm_base.specs.Number.{unsigned_at};
ghost use Rattle.wasm_base.specs.Outcome.{Outcome};
ghost use Rattle.wasm_base.specs.Window.{Place, place, KeepsWindow};

use crate::error::{Error, Result};
use crate::fault::Fault;
use crate::reader::BinaryReader;

/// A type that a reader can read without allocating.
///
/// `SectionLimited` requires only that `from_reader` keeps to the type's `meaning`. A `meaning` may allow several
/// outcomes, and an item may consume no bytes.
///
/// ```rattle
/// let mut reader = BinaryReader::new(b"\x05\x01a", 0);
/// let index = u32::from_reader(&mut reader)?;
/// let name: &str = reader.read()?;
/// assert_eq!(rt; (index, name), (5, "a"));
/// ```
pub trait FromReader<'a>: Sized + Drop {
    /// What reading at a place may result in: a value and the place after it, or a fault.
    ghost meaning: { Place → Outcome Self → Type 0 };

    /// Reads an item from the front of the reader's remaining bytes.
    ///
    /// # Errors
    ///
    /// Those of the type, as its `impl` says. The reader is then in its window, at or after its previous position. The
    /// fault is never `OutOfMemory`.
    fn from_reader(reader: &mut BinaryReader<'a>) -> Result<Self>
        // Proved: `from_reader` of `bool`, `u32`, `&str` and pairs returns an outcome that the
        //   meaning of the type allows, stays in the window and never goes back. Each
        //   implementation of the trait has to prove this [`means`, `keeps` of `FromReader`]
        ensures means { Means meaning (place reader.old) result (place reader.new) }
        ensures keeps { KeepsWindow reader.old reader.new }
        ensures memory { NotOutOfMemory result };
}

/// Reads a byte that is 0 or 1.
///
/// # Errors
///
/// `UnexpectedEof` at the current offset if no byte remains; `InvalidBool` at any other byte.
impl<'a> FromReader<'a> for bool {
    ghost meaning = { ReadsAs (λ truth. truth) bool_at };

    #[tactic(auto, unfolding(crate::specs::Item::bool_at))]
    fn from_reader(reader: &mut BinaryReader<'a>) -> Result<Self>
        ensures means { Means (ReadsAs (λ truth. truth) bool_at) (place reader.old) result
            (place reader.new) }
        ensures keeps { KeepsWindow reader.old reader.new }
        ensures memory { NotOutOfMemory result }
        ensures hints { Hints 1 result }
    {
        match reader.read_u8()? {
            0 => Ok(false),
            1 => Ok(true),
            _ => Err(Error::new(Fault::InvalidBool, reader.original_position() - 1)),
        }
    }
}

/// Reads a LEB128 `u32`, with the errors of `read_var_u32`.
impl<'a> FromReader<'a> for u32 {
    ghost use Rattle.wasm_base.specs.declared.fault.NumberKind.TheVariants.{VarU32};

    ghost meaning = { ReadsAs (λ n. n) (unsigned_at VarU32) };

    fn from_reader(reader: &mut BinaryReader<'a>) -> Result<Self>
        ensures means { Means (ReadsAs (λ n. n) (unsigned_at VarU32)) (place reader.old) result
            (place reader.new) }
        ensures keeps { KeepsWindow reader.old reader.new }
        ensures memory { NotOutOfMemory result }
        ensures hints { Hints 1 result }
    {
        reader.read_var_u32()
    }
}

/// Reads a name of at most 100,000 bytes, with the errors of `read_string`. The name borrows from the stream.
impl<'a> FromReader<'a> for &'a str {
    ghost meaning = { ReadsName (λ text. text.now) };

    fn from_reader(reader: &mut BinaryReader<'a>) -> Result<Self>
        ensures means { Means (ReadsName (λ text. text.now)) (place reader.old) result (place reader.new) }
        ensures keeps { KeepsWindow reader.old reader.new }
        ensures memory { NotOutOfMemory result }
        ensures hints { Hints (missing_of_sized (place reader.old)) result }
    {
        reader.read_string()
    }
}

/// Reads two items, one after the other, with the errors of each.
impl<'a, T: FromReader<'a>, U: FromReader<'a>> FromReader<'a> for (T, U) {
    ghost meaning = { BothInTurn T.meaning U.meaning };

    fn from_reader(reader: &mut BinaryReader<'a>) -> Result<Self> {
        let first = T::from_reader(reader)?;
        let second = U::from_reader(reader)?;
        Ok((first, second))
    }
}
