// Lists inside an item that are not owned: they are skipped, and become sections of their own.
ghost use Rattle.std.specs.Prelude.{◌≡◌};
ghost use Rattle.wasm_base.specs.Hints.{NotOutOfMemory};
ghost use Rattle.wasm_base.specs.Inner.{all_skipped_at, inner_section_at, after_reading};
ghost use Rattle.wasm_base.specs.Number.{unsigned_at};
ghost use Rattle.wasm_base.specs.Outcome.{Outcome, GivesBy};
ghost use Rattle.wasm_base.specs.Skip.{skipped_name_at};
ghost use Rattle.wasm_base.specs.Window.{Place, place, window_between, KeepsWindow};
ghost use Rattle.wasm_base.specs.declared.fault.NumberKind.TheVariants.{VarU32};

use crate::error::Result;
use crate::item::FromReader;
use crate::reader::BinaryReader;
use crate::section::SectionLimited;

/// An item of an inner list, which can be skipped now and read later.
///
/// An inner list is part of an item that does not own it, such as the elements of a segment: `read_inner` skips it and
/// returns it as a section.
///
/// ```rattle
/// let mut reader = BinaryReader::new(b"\x02\x01a\x01b\xff", 0);
/// let names = read_inner::<&str>(&mut reader)?;
/// assert_eq!(rt; reader.original_position(), 5);
/// assert_eq!(rt; names.into_iter().next(), Some(Ok("a")));
/// ```
pub trait SkipItem<'a>: FromReader<'a> {
    // That skipping consumes what reading consumes is a law of each crate and no clause here, because a name of any length
    // is skipped as one with a limit.
    /// The place after the skipped bytes, or the fault.
    ghost skipped_at: { Place → Outcome (Unit {0}) };

    /// Skips an item: consumes the bytes that reading it consumes. It may check them less strictly.
    ///
    /// # Errors
    ///
    /// Those of the item, as its `impl` says. The reader is then in its window, at or after its previous position. The
    /// fault is never `OutOfMemory`.
    fn skip_item(reader: &mut BinaryReader<'a>) -> Result<()>
        ensures gives { GivesBy (λ nothing. nothing) result reader.old reader.new skipped_at }
        ensures keeps { KeepsWindow reader.old reader.new }
        ensures memory { NotOutOfMemory result };
}

/// Skips a name of at most 100,000 bytes, as `skip_string` does: the bytes need not be UTF-8.
impl<'a> SkipItem<'a> for &'a str {
    ghost skipped_at = { skipped_name_at };

    fn skip_item(reader: &mut BinaryReader<'a>) -> Result<()> {
        reader.skip_string()
    }
}

/// Returns the bytes between two states of a reader, as a window of its own with the same features.
///
/// `after` must be a later state of `before`: the same window, and no position before that of `before`.
///
/// ```rattle
/// let mut reader = BinaryReader::new(&[1, 2, 3], 10);
/// let before = reader.clone()?;
/// reader.read_bytes(2)?;
/// assert_eq!(rt; passed_since(&before, &reader).range(), 10..12);
/// ```
pub fn passed_since<'a>(before: &BinaryReader<'a>, after: &BinaryReader<'a>) -> BinaryReader<'a>
    requires { KeepsWindow before.now after.now }
    ensures { result ≡ window_between (place before.now) (place after.now) }
{
    let passed = after.current_position() - before.current_position();
    let bytes = &before.remaining_buffer()[..passed];
    BinaryReader::new_features(bytes, before.original_position(), before.features())
}

// Skips `count` items, one after the other.
fn skip_items<'a, T: SkipItem<'a>>(count: u32, reader: &mut BinaryReader<'a>) -> Result<()>
    ensures gives { GivesBy (λ nothing. nothing) result reader.old reader.new
        (all_skipped_at T.skipped_at count) }
    ensures keeps { KeepsWindow reader.old reader.new }
    ensures memory { NotOutOfMemory result }
{
    'items: for _ in 0..count {
        T::skip_item(reader)?;
    }
    Ok(())
}

/// Skips a list, a count and that many items, and returns it as a section whose window begins at the count.
///
/// # Errors
///
/// Those of `read_var_u32` for the count, then those of `skip_item` for each item.
#[tactic(auto, unfolding(crate::specs::Inner::inner_section_at))]
pub fn read_inner<'a, T: SkipItem<'a>>(
    reader: &mut BinaryReader<'a>,
) -> Result<SectionLimited<'a, T>>
    // Proved: a list inside an item that the item does not own is skipped, and is a section of its
    //   own from its count to its end. This holds for every item that can be skipped, and for `u32`
    //   numbers [`gives` on `read_inner` and `read_inner_u32s` (`inner_section_at`), `gives` of
    //   `SkipItem`]
    ensures gives { GivesBy (λ section. section) result reader.old reader.new
        (inner_section_at T.skipped_at) }
    ensures keeps { KeepsWindow reader.old reader.new }
    ensures memory { NotOutOfMemory result }
{
    // Two states of the reader make the window: with `skip`, the loop would be in a closure. Reading the count again, which
    // `new` does, can't fail.
    let before = reader.clone().unwrap();
    let count = reader.read_var_u32()?;
    skip_items::<T>(count, reader)?;
    SectionLimited::new(passed_since(&before, reader))
}

/// Skips a list of LEB128 `u32`s and returns it as a section, 32 bytes at a time.
///
/// # Errors
///
/// Those of `read_var_u32`, for the count and for each number.
#[tactic(auto, unfolding(crate::specs::Inner::inner_section_at))]
pub fn read_inner_u32s<'a>(reader: &mut BinaryReader<'a>) -> Result<SectionLimited<'a, u32>>
    ensures gives { GivesBy (λ section. section) result reader.old reader.new
        (inner_section_at (after_reading (unsigned_at VarU32))) }
    ensures keeps { KeepsWindow reader.old reader.new }
    ensures memory { NotOutOfMemory result }
{
    // `u32` is not a `SkipItem`, because `read_inner` would skip the numbers one by one.
    let before = reader.clone().unwrap();
    let count = reader.read_var_u32()?;
    reader.skip_var_u32s(count)?;
    SectionLimited::new(passed_since(&before, reader))
}
