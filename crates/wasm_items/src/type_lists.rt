// Lists of types, which keep their items in place while they are few.
ghost use Rattle.std.specs.Prelude.{◌≡◌, ℕ, ◌^◌, ◌==◌, ◌<◌, ◌≤◌, List, [], ◌∷◌, ◌++◌, length, IfOk, IfErr};
ghost use Rattle.std.specs.Cmp.Lexicographic.{pointwise, lists_per, lists_equiv};
ghost use Rattle.std.specs.Iterator.Runs.{EveryRun, ItemsMapTo};
ghost use Rattle.std.specs.Slice.Iter.{iter_rest, iter_steps};
ghost use Rattle.wasm_base.specs.Owned.{MeansAs, UnlessMemory, InTurn, ListOf};
ghost use Rattle.wasm_base.specs.Window.{place, KeepsWindow};

use crate::types::{FieldType, StorageType, SubType, ValType};
use std::alloc::Global;
use std::convert::AsSlice;
use std::marker::Model;
use std::ops::DerefSlice;
use std::{fmt, slice};
use wasm_base::{BinaryReader, FromReader, Result, read_items};

/// A list of value types, fields or subtypes that were read.
///
/// A few items are in the list itself, and more are allocated. Use it like a slice: index it, iterate over it, or borrow
/// it as one. Two lists are equal if their items are.
///
/// ```rattle
/// let mut reader = BinaryReader::new(&[2, 0x7f, 0x7e, 0], 0);
/// let ty = FuncType::from_reader(alloc, &mut reader)?;
/// assert_eq!(rt; ty.params.len(), 2);
/// assert_eq!(rt; ty.params[1], ValType::I64);
/// assert!(rt; ty.results.is_empty());
/// ```
#[derive(Drop)]
pub struct TypeList<T, P: AsSlice<T>> {
    items: Items<T, P>,
}

// Where the items of a list are.
#[derive(Drop)]
enum Items<T, P> {
    InPlace(P),
    Allocated(Vec<T>),
}

impl<T, P: AsSlice<T>> Model for TypeList<T, P> {
    ghost use Rattle.std.specs.Prelude.{List};
    ghost use Rattle.std.specs.Coded.{coded_list};
    ghost use Rattle.wasm_items.specs.TypeLists.{items_of};

    ghost Value = { List T };

    ghost coded = { coded_list T.code };

    ghost view = { λ list. items_of P.items list.items };
}

impl<T, P: AsSlice<T>> TypeList<T, P> {
    /// Returns a list of items that are in place.
    #[inline(always)]
    pub(crate) fn in_place(items: P) -> Self
        ensures { result ≡ P.items items }
    {
        TypeList {
            items: Items::InPlace(items),
        }
    }

    /// Returns a list of these items. Never allocates.
    ///
    /// ```rattle
    /// let mut params = Vec::new(alloc);
    /// params.push(ValType::I32)?;
    /// let ty = FuncType {
    ///     params: ValTypes::from_vec(params),
    ///     results: ValTypes::from_vec(Vec::new(alloc)),
    /// };
    /// let mut reader = BinaryReader::new(&[1, 0x7f, 0], 0);
    /// assert!(rt; FuncType::from_reader(alloc, &mut reader)? == ty);
    /// ```
    #[inline(always)]
    pub fn from_vec(items: Vec<T>) -> Self
        ensures { result ≡ items.items }
    {
        TypeList {
            items: Items::Allocated(items),
        }
    }

    /// Returns the items as a `Vec` if they are allocated, as those of `from_vec` are. Never allocates.
    ///
    /// # Errors
    ///
    /// Returns the list itself if its items are in place.
    pub fn into_vec(self) -> std::result::Result<Vec<T>, Self>
        ensures items { IfOk result (λ items. items.items ≡ self) }
        ensures unchanged { IfErr result (λ list. list ≡ self) }
    {
        match self.items {
            Items::Allocated(items) => Ok(items),
            Items::InPlace(items) => Err(TypeList::in_place(items)),
        }
    }

    /// Returns the items as a slice.
    #[inline(always)]
    pub fn as_slice(&self) -> &[T]
        // Proved: a list of types is its items, wherever they are in memory: as a slice, for `len`
        //   and `is_empty`, for iterating over it and for comparing it [the clauses of `as_slice`,
        //   `len` and `is_empty`; `deref_gives`, `into_iter_gives` and `eq` of `TypeList`]
        ensures { result.now ≡ self.now }
    {
        match &self.items {
            Items::InPlace(items) => items.as_slice(),
            Items::Allocated(items) => items.as_slice(),
        }
    }

    /// Returns the number of items.
    #[inline(always)]
    pub fn len(&self) -> usize
        ensures { result ≡ length self.now }
    {
        self.as_slice().len()
    }

    /// Returns whether there is no item.
    #[inline(always)]
    pub fn is_empty(&self) -> bool
        ensures { result ≡ (length self.now == 0) }
    {
        self.len() == 0
    }
}

impl<T, P: AsSlice<T>> DerefSlice for TypeList<T, P> {
    type Elem = T;

    ghost deref_gives = { λ list items. items ≡ list };

    #[inline(always)]
    fn deref(&self) -> &[T] {
        self.as_slice()
    }
}

impl<'a, T, P: AsSlice<T>> IntoIterator for &'a TypeList<T, P> {
    type Item = &'a T;

    type IntoIter = slice::Iter<'a, T>;

    ghost into_iter_gives = { λ list it. (iter_rest it ≡ list.now) × (length (iter_rest it) < 2 ^ 64)
        × EveryRun (iter_steps {A = T}) (λ p. ItemsMapTo p (λ x. x.now) (iter_rest p.from)) };

    fn into_iter(self) -> slice::Iter<'a, T> {
        self.as_slice().iter()
    }
}

impl<T: PartialEq, P: AsSlice<T>> PartialEq for TypeList<T, P> {
    ghost eq = { λ one other. pointwise T.eq one other };

    ghost laws = { lists_per T.laws };

    fn eq(&self, other: &Self) -> bool {
        self.as_slice() == other.as_slice()
    }
}

impl<T: Eq, P: AsSlice<T>> Eq for TypeList<T, P> {
    ghost laws = { lists_equiv T.Eq.laws };
}

impl<T: fmt::Debug, P: AsSlice<T>> fmt::Debug for TypeList<T, P> {
    fn fmt<W: fmt::Write>(&self, f: &mut fmt::Formatter<W>) -> fmt::Result {
        f.debug_list().entries(self.as_slice()).finish()
    }
}

/// Value types, such as the parameters of a function. Up to six are in the list itself.
pub type ValTypes = TypeList<ValType, FewValTypes>;

/// The fields of a structure. Up to six are in the list itself.
pub type FieldTypes = TypeList<FieldType, FewFieldTypes>;

/// The types of a group. A group that is not explicit has its one type in the list itself.
pub type SubTypes = TypeList<SubType, OneSubType>;

// Places in a list for its first items, which are filled in order.
pub(crate) trait Places<T>: AsSlice<T> + Sized + Drop {
    ghost MOST: { ℕ };

    // The number of places.
    const MOST: u32;

    // Returns empty places.
    fn new() -> Self
        ensures { Self.items result ≡ [] };

    // Fills the next place.
    fn push(&mut self, item: T)
        requires { length (Self.items self.old) < MOST }
        ensures { Self.items self.new ≡ Self.items self.old ++ item ∷ [] };
}

/// Up to six value types.
#[derive(Drop)]
pub struct FewValTypes {
    places: [ValType; 6],
    filled: usize,
}

impl Model for FewValTypes {
    ghost use Rattle.std.specs.Prelude.{List, ◌≤◌, take};
    ghost use Rattle.wasm_items.specs.declared.types.ValType.{ValType};

    ghost Value = { List ValType };

    ghost view = { λ few. take few.filled few.places };

    ghost invariant = { λ few. few.filled ≤ 6 };
}

impl AsSlice<ValType> for FewValTypes {
    ghost items = { λ few. few };

    #[inline(always)]
    fn as_slice(&self) -> &[ValType] {
        &self.places[..self.filled]
    }
}

impl Places<ValType> for FewValTypes {
    ghost MOST = { 6 };

    const MOST: u32 = 6;

    #[inline(always)]
    fn new() -> Self {
        FewValTypes {
            places: [ValType::I32; 6],
            filled: 0,
        }
    }

    #[inline(always)]
    fn push(&mut self, item: ValType) {
        self.places[self.filled] = item;
        self.filled += 1;
    }
}

/// Up to six fields.
#[derive(Drop)]
pub struct FewFieldTypes {
    places: [FieldType; 6],
    filled: usize,
}

impl Model for FewFieldTypes {
    ghost use Rattle.std.specs.Prelude.{List, ◌≤◌, take};
    ghost use Rattle.wasm_items.specs.declared.types.FieldType.{FieldType};

    ghost Value = { List FieldType };

    ghost view = { λ few. take few.filled few.places };

    ghost invariant = { λ few. few.filled ≤ 6 };
}

impl AsSlice<FieldType> for FewFieldTypes {
    ghost items = { λ few. few };

    #[inline(always)]
    fn as_slice(&self) -> &[FieldType] {
        &self.places[..self.filled]
    }
}

impl Places<FieldType> for FewFieldTypes {
    ghost MOST = { 6 };

    const MOST: u32 = 6;

    #[inline(always)]
    fn new() -> Self {
        let unused = FieldType {
            storage: StorageType::I8,
            mutable: false,
        };
        FewFieldTypes {
            places: [unused; 6],
            filled: 0,
        }
    }

    #[inline(always)]
    fn push(&mut self, item: FieldType) {
        self.places[self.filled] = item;
        self.filled += 1;
    }
}

/// One subtype.
#[derive(Drop)]
pub struct OneSubType {
    one: SubType,
}

impl OneSubType {
    /// Returns the place of this subtype.
    #[inline(always)]
    pub(crate) fn new(one: SubType) -> OneSubType
        ensures { result ≡ record { one = one } }
    {
        OneSubType { one }
    }
}

impl AsSlice<SubType> for OneSubType {
    ghost items = { λ place. place.one ∷ [] };

    #[inline(always)]
    fn as_slice(&self) -> &[SubType] {
        slice::from_ref(&self.one)
    }
}

// Reads `count` items into places.
#[inline(always)]
fn read_in_place<'a, T: FromReader<'a>, P: Places<T>>(
    reader: &mut BinaryReader<'a>,
    count: u32,
) -> Result<P>
    requires fits { count ≤ P.MOST }
    ensures means { MeansAs P.items (UnlessMemory (InTurn T.meaning count))
        (place reader.old) result (place reader.new) }
    ensures keeps { KeepsWindow reader.old reader.new }
{
    let mut places = P::new();
    'items: for _ in 0..count {
        places.push(T::from_reader(reader)?);
    }
    Ok(places)
}

/// Reads a list: a count, which is a LEB128 `u32`, and that many items (core specification, Binary format, Conventions,
/// Lists).
///
/// # Errors
///
/// Those of `read_list` of `wasm_base`.
#[inline(always)]
pub(crate) fn read_types<'a, T: FromReader<'a>, P: Places<T>>(
    alloc: Global,
    reader: &mut BinaryReader<'a>,
) -> Result<TypeList<T, P>>
    ensures means { MeansAs (λ list. list) (UnlessMemory (ListOf T.meaning))
        (place reader.old) result (place reader.new) }
    ensures keeps { KeepsWindow reader.old reader.new }
{
    let count = reader.read_var_u32()?;
    if count <= P::MOST {
        return Ok(TypeList::in_place(read_in_place::<T, P>(reader, count)?));
    }
    Ok(TypeList::from_vec(read_items(alloc, reader, count)?))
}
