// Items that own lists.
ghost use Rattle.std.specs.Prelude.{◌≡◌, ◌++◌, ◌∷◌, [], OnOk, IfErr};
ghost use Rattle.wasm_base.specs.FaultAt.{fault_at};
ghost use Rattle.wasm_base.specs.Item.{Means};
ghost use Rattle.wasm_base.specs.Outcome.{Outcome};
ghost use Rattle.wasm_base.specs.Owned.{MeansAs, UnlessMemory, InTurn, ListOf, out_of_memory};
ghost use Rattle.wasm_base.specs.Window.{Place, place, KeepsWindow};

use crate::error::{Error, Result};
use crate::fault::Fault;
use crate::item::FromReader;
use crate::reader::BinaryReader;
use std::alloc::{Allocator, Global};

/// A type that a reader can read, and that owns lists, which it allocates.
///
/// It is `FromReader` with an allocator. Types of the type section are such items.
///
/// ```rattle
/// use wasm_items::RecGroup;
/// let mut reader = BinaryReader::new(&[0x60, 1, 0x7f, 0], 0);
/// let group = RecGroup::from_reader(alloc, &mut reader)?;
/// assert_eq!(rt; group.types.len(), 1);
/// ```
pub trait FromReaderIn<'a>: Sized + Drop {
    /// What reading at a place may result in, memory aside: a value and the place after it, or a fault.
    ghost meaning: { Place → Outcome Self → Type 0 };

    /// Reads an item from the front of the reader's remaining bytes, and allocates its lists with `alloc`.
    ///
    /// # Errors
    ///
    /// Those of the type, as its `impl` says, and `OutOfMemory` at offset 0 when an allocation fails. The reader is
    /// then in its window, at or after its previous position.
    fn from_reader(alloc: Global, reader: &mut BinaryReader<'a>) -> Result<Self>
        // Proved: `from_reader` of an item type that owns lists returns an outcome that its meaning
        //   allows, or `OutOfMemory`, stays in the window and never goes back. Each implementation
        //   has to prove this [`means`, `keeps` of `FromReaderIn`]
        ensures means { Means (UnlessMemory meaning) (place reader.old) result (place reader.new) }
        ensures keeps { KeepsWindow reader.old reader.new };
}

// The first allocation of a list is for this many items, or for its count if that is less.
const FIRST_ROOM: usize = 4;

// Appends an item to a list that is to have `count` items.
#[inline(always)]
fn put<T: Drop, A: Allocator>(items: &mut Vec<T, A>, item: T, count: u32) -> Result<()>
    ensures ok { OnOk result (items.new.items ≡ items.old.items ++ item ∷ []) }
    ensures memory { IfErr result (λ e. fault_at e ≡ out_of_memory) }
{
    if items.is_empty() && items.reserve_exact(FIRST_ROOM.min(count as usize)).is_err() {
        return Err(Error::new(Fault::OutOfMemory, 0));
    }
    items.push(item)?;
    Ok(())
}

/// Reads `count` items, one after the other: a list whose count was read.
///
/// The list grows as its items are read, so a large count alone allocates nothing.
///
/// # Errors
///
/// Those of the items, and `OutOfMemory` at offset 0 when an allocation fails.
///
/// ```rattle
/// let mut reader = BinaryReader::new(&[5, 7], 0);
/// let numbers = read_items::<u32, _>(alloc, &mut reader, 2)?;
/// assert_eq!(rt; numbers.as_slice(), [5, 7].as_slice());
/// ```
pub fn read_items<'a, T: FromReader<'a>, A: Allocator>(
    alloc: A,
    reader: &mut BinaryReader<'a>,
    count: u32,
) -> Result<Vec<T, A>>
    // Proved: items whose count is known are as many items, each by its meaning, up to the first
    //   fault, or `OutOfMemory` instead [`means` of `read_items` (`InTurn`)]
    ensures means { MeansAs (λ list. list.items) (UnlessMemory (InTurn T.meaning count))
        (place reader.old) result (place reader.new) }
    ensures keeps { KeepsWindow reader.old reader.new }
{
    let mut items = Vec::new(alloc);
    'items: for _ in 0..count {
        let item = T::from_reader(reader)?;
        put(&mut items, item, count)?;
    }
    Ok(items)
}

// Reads `count` items that own lists, one after the other. The list grows as they are read.
fn read_items_in<'a, T: FromReaderIn<'a>>(
    alloc: Global,
    reader: &mut BinaryReader<'a>,
    count: u32,
) -> Result<Vec<T>>
    ensures means { MeansAs (λ list. list.items) (UnlessMemory (InTurn T.meaning count))
        (place reader.old) result (place reader.new) }
    ensures keeps { KeepsWindow reader.old reader.new }
{
    let mut items = Vec::new(alloc);
    'items: for _ in 0..count {
        let item = T::from_reader(alloc, reader)?;
        items.push(item)?;
    }
    Ok(items)
}

/// Reads a list: a count, which is a LEB128 `u32`, and that many items (core specification, Binary format, Conventions,
/// Lists).
///
/// The list grows as its items are read, so a large count alone allocates nothing.
///
/// # Errors
///
/// Those of `read_var_u32` for the count, then those of the items; `OutOfMemory` at offset 0 when an allocation fails.
///
/// # Example
///
/// ```rattle
/// let mut reader = BinaryReader::new(&[2, 5, 7], 0);
/// let numbers = read_list::<u32, _>(alloc, &mut reader)?;
/// assert_eq!(rt; numbers.as_slice(), [5, 7].as_slice());
/// ```
pub fn read_list<'a, T: FromReader<'a>, A: Allocator>(
    alloc: A,
    reader: &mut BinaryReader<'a>,
) -> Result<Vec<T, A>>
    // Proved: a list is a count and as many items as it announces, each by its meaning, up to the
    //   first fault, or `OutOfMemory` instead [`means` of `read_list`, `read_list_in` (`ListOf`)]
    ensures means { MeansAs (λ list. list.items) (UnlessMemory (ListOf T.meaning))
        (place reader.old) result (place reader.new) }
    ensures keeps { KeepsWindow reader.old reader.new }
{
    // Any allocator, so that tests can fail each allocation.
    let count = reader.read_var_u32()?;
    read_items(alloc, reader, count)
}

/// Reads a list of items that own lists: a count, which is a LEB128 `u32`, and that many items.
///
/// # Errors
///
/// Those of `read_list`.
pub fn read_list_in<'a, T: FromReaderIn<'a>>(
    alloc: Global,
    reader: &mut BinaryReader<'a>,
) -> Result<Vec<T>>
    ensures means { MeansAs (λ list. list.items) (UnlessMemory (ListOf T.meaning))
        (place reader.old) result (place reader.new) }
    ensures keeps { KeepsWindow reader.old reader.new }
{
    // A call of its own: an item type with both traits would make `T::from_reader` ambiguous, so no trait covers both.
    let count = reader.read_var_u32()?;
    read_items_in(alloc, reader, count)
}
