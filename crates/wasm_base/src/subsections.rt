// Subsections of a window.
ghost use Rattle.std.specs.Prelude.{⊤, ◌≡◌, ◌<◌, ℕ, Bool, false, OnErr, Result, length};
ghost use Rattle.std.specs.Iterator.{at_most};
ghost use Rattle.wasm_base.specs.FaultAt.{FaultAt};
ghost use Rattle.wasm_base.specs.Hints.{NotOutOfMemory};
ghost use Rattle.wasm_base.specs.Name.{window_at};
ghost use Rattle.wasm_base.specs.Number.{after_number};
ghost use Rattle.wasm_base.specs.Outcome.{GivesBy};
ghost use Rattle.wasm_base.specs.Subsections.{MeansSubsection, ReadsSubsection, NextSubsection, after_refused, subsection_at};
ghost use Rattle.wasm_base.specs.Window.{Window, place, KeepsWindow, range_of};
ghost use Rattle.wasm_base.specs.declared.fault.NumberKind.TheVariants.{VarU32};

use crate::error::Result;
use crate::reader::BinaryReader;
use std::alloc::{AllocError, Global};
use std::fmt;
use std::marker::{Model, PhantomData};
use std::ops::Range;

/// Whether reading a subsection may allocate: `NeverAllocates` or `MayAllocate`. If not, no call returns `OutOfMemory`.
pub trait Allocation {
    /// The constant `ALLOCATES`, for clauses.
    ghost ALLOCATES: { Bool };

    /// Whether reading may allocate.
    const ALLOCATES: bool;
}

/// The `Allocation` of subsections that never allocate.
pub struct NeverAllocates;

impl Allocation for NeverAllocates {
    ghost use Rattle.std.specs.Prelude.{false};

    ghost ALLOCATES = { false };

    const ALLOCATES: bool = false;
}

/// The `Allocation` of subsections that may allocate.
pub struct MayAllocate;

impl Allocation for MayAllocate {
    ghost use Rattle.std.specs.Prelude.{true};

    ghost ALLOCATES = { true };

    const ALLOCATES: bool = true;
}

/// A type that the subsections of a window can be read as.
///
/// `Subsections` requires only that `from_reader` keeps to the type's `meaning`.
///
/// ```rattle
/// use wasm_custom::Dylink0Subsection;
/// let window = BinaryReader::new(&[16, 2, 1, 0], 0);
/// let info = Dylink0Subsection::from_reader(alloc, 1, window)?;
/// assert!(rt; matches!(info, Dylink0Subsection::MemInfo(_)));
/// ```
pub trait Subsection<'a>: Sized + Drop {
    /// What a subsection with this id and this window may result in: a value, or a fault.
    ghost meaning: { ℕ → Window → Result Self FaultAt → Type 0 };

    // A type, because the checker refuses a constant of this trait for a type with a lifetime.
    /// Whether reading may allocate: `NeverAllocates` or `MayAllocate`.
    type Allocation: Allocation;

    /// Reads the subsection with this id, whose content is the reader's window. Lists are allocated with `alloc`.
    ///
    /// # Errors
    ///
    /// Those of the type, as its `impl` says, and `OutOfMemory` at offset 0 when an allocation fails.
    fn from_reader(alloc: Global, id: u8, reader: BinaryReader<'a>) -> Result<Self>
        ensures means { MeansSubsection meaning Self.Allocation.ALLOCATES id reader.entry result }
        ensures memory { Self.Allocation.ALLOCATES ≡ false → NotOutOfMemory result };
}

/// The subsections of a window, and an iterator over them, each read as a `T`.
///
/// A subsection is an id, which is a byte below 128, a size, which is a LEB128 `u32`, and that many bytes.
///
/// # Errors
///
/// Iteration continues after an error. Each call consumes at least one byte, so it always ends.
///
/// - A subsection's own error, or `OutOfMemory`: the next subsection begins after this one.
/// - `InvalidU7` at an id above 127: the next subsection begins after the id.
/// - An error of `read_reader`: the next subsection begins after the bytes of the size, up to the wrong byte or to the
///   end.
///
/// # Example
///
/// ```rattle
/// use wasm_custom::Dylink0Subsection;
/// let window = BinaryReader::new(&[1, 4, 16, 2, 1, 0, 99, 1, 0], 0);
/// let mut subsections = Subsections::<Dylink0Subsection>::new(alloc, window);
/// assert!(rt; matches!(subsections.next(), Some(Ok(Dylink0Subsection::MemInfo(_)))));
/// assert_eq!(rt; subsections.original_position(), 6);
/// assert!(rt; matches!(subsections.next(), Some(Ok(Dylink0Subsection::Unknown { ty: 99, .. }))));
/// assert!(rt; subsections.next().is_none());
/// ```
pub struct Subsections<'a, T> {
    alloc: Global,
    reader: BinaryReader<'a>,
    subsection: PhantomData<T>,
}

impl<'a, T> Model for Subsections<'a, T> {
    ghost use Rattle.wasm_base.specs.Window.{Window};

    ghost Value = { Window };

    ghost view = { λ s. s.reader };
}

// By hand, so that `T` needs no bound.
impl<'a, T> Drop for Subsections<'a, T> {
    fn drop(self) {
        let Subsections {
            alloc: _,
            reader: _,
            subsection: _,
        } = self;
    }
}

impl<'a, T> fmt::Debug for Subsections<'a, T> {
    fn fmt<W: fmt::Write>(&self, f: &mut fmt::Formatter<W>) -> fmt::Result {
        f.debug_struct("Subsections")
            .field("range", &self.range())
            .finish()
    }
}

impl<'a, T> Clone for Subsections<'a, T> {
    ghost is_clone = { λ subsections copy. copy ≡ subsections };

    ghost is_infallible = { λ _. ⊤ };

    fn clone(&self) -> std::result::Result<Self, AllocError> {
        Ok(Subsections {
            alloc: self.alloc,
            reader: self.reader.clone()?,
            subsection: PhantomData,
        })
    }
}

impl<'a, T> Subsections<'a, T> {
    /// Returns the subsections in the remaining bytes of a reader. Lists are allocated with `alloc`.
    pub fn new(alloc: Global, reader: BinaryReader<'a>) -> Self
        ensures { result ≡ reader.entry }
    {
        Subsections {
            alloc,
            reader,
            subsection: PhantomData,
        }
    }

    /// Returns the offset of the next subsection, from the start of the stream.
    pub fn original_position(&self) -> u64
        ensures { result ≡ (place self.now).offset }
    {
        self.reader.original_position()
    }

    /// Returns the offsets of the whole window, including the subsections already read.
    pub fn range(&self) -> Range<u64>
        ensures { result ≡ range_of self.now }
    {
        self.reader.range()
    }
}

// Reads a size and a window of that many bytes. After an error the reader is after the size, or after those of its bytes
// that are present.
#[tactic(auto, unfolding(crate::specs::Name::window_at))]
fn read_window<'a>(reader: &mut BinaryReader<'a>) -> Result<BinaryReader<'a>>
    ensures gives { GivesBy (λ window. window) result reader.old reader.new window_at }
    ensures keeps { KeepsWindow reader.old reader.new }
    ensures memory { NotOutOfMemory result }
    ensures after { OnErr result (place reader.new ≡ after_number VarU32 (place reader.old)) }
{
    // As in `wasmparser`, the next subsection begins after a malformed size. Elsewhere such a number is not consumed.
    let size = reader.skip_var_u32()?;
    let start = reader.original_position();
    let bytes = reader.read_bytes(size as usize)?;
    // A new reader, so that the ranges of an unknown subsection and of a module's name are the whole window.
    Ok(BinaryReader::new_features(bytes, start, reader.features()))
}

/// Reads the id and the window of the next subsection, whatever its kind.
///
/// Use it to walk subsections that `Subsections` does not know, without allocating.
///
/// # Errors
///
/// - `UnexpectedEof` at the current offset if no byte remains. The reader is then unchanged.
/// - `InvalidU7` at an id above 127. The reader is then after the id.
/// - Those of `read_reader`. The reader is then after the bytes of the size, up to the wrong byte or to the end.
///
/// # Example
///
/// ```rattle
/// let mut reader = BinaryReader::new(&[4, 2, 5, 7], 0);
/// let (id, window) = read_subsection(&mut reader)?;
/// assert_eq!(rt; (id, window.range()), (4, 2..4));
/// ```
#[tactic(auto, unfolding(crate::specs::Subsections::subsection_at, crate::specs::Subsections::after_refused))]
pub fn read_subsection<'a>(reader: &mut BinaryReader<'a>) -> Result<(u8, BinaryReader<'a>)>
    ensures gives { GivesBy (λ x. (x.0, x.1)) result reader.old reader.new subsection_at }
    ensures keeps { KeepsWindow reader.old reader.new }
    ensures moves { 0 < length (place reader.old).rest
        → reader.old.position < reader.new.position }
    ensures memory { NotOutOfMemory result }
    ensures after { 0 < length (place reader.old).rest
        → OnErr result (place reader.new ≡ after_refused (place reader.old)) }
{
    let id = reader.read_u7()?;
    let window = read_window(reader)?;
    Ok((id, window))
}

// Reads the subsection that comes next.
fn read_as<'a, T: Subsection<'a>>(alloc: Global, reader: &mut BinaryReader<'a>) -> Result<T>
    requires { 0 < length (place reader.old).rest }
    ensures reads { ReadsSubsection T.meaning T.Allocation.ALLOCATES (place reader.old)
        (subsection_at (place reader.old)) result (place reader.new) }
    ensures keeps { KeepsWindow reader.old reader.new }
    ensures moves { reader.old.position < reader.new.position }
    ensures memory { T.Allocation.ALLOCATES ≡ false → NotOutOfMemory result }
{
    let (id, window) = read_subsection(reader)?;
    T::from_reader(alloc, id, window)
}

impl<'a, T: Subsection<'a>> Iterator for Subsections<'a, T> {
    type Item = Result<T>;

    // Proved: `next` over subsections returns what the id and the window of the next one mean, or
    //   the fault of its id or size, or `OutOfMemory` if the type may allocate
    // Proved: after such a fault the next subsection begins after the bytes that were consumed: the
    //   id, and all of a well-formed size, or a malformed one up to its wrong byte or its end [the
    //   same (`after_refused`)]
    // Proved: each call that returns a subsection or a fault consumes at least one byte, and a call
    //   returns nothing only at the end of the window. If the type never allocates, no call returns
    //   `OutOfMemory`
    ghost next_gives = { NextSubsection T.meaning T.Allocation.ALLOCATES };

    ghost remaining = { λ subsections. at_most (length (place subsections).rest) };

    fn next(&mut self) -> Option<Result<T>> {
        if self.reader.eof() {
            return None;
        }
        Some(read_as(self.alloc, &mut self.reader))
    }
}
