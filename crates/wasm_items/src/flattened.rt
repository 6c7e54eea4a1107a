// The imports of an import section one by one.
ghost use Rattle.std.specs.Iterator.{at_most};
ghost use Rattle.std.specs.Prelude.{◌≡◌, ◌++◌, [], map, length, IfSome};
ghost use Rattle.wasm_base.specs.Hints.{NotOutOfMemory};
ghost use Rattle.wasm_base.specs.Window.{place};
ghost use Rattle.wasm_items.specs.Flattened.{imports_of_bundles, bundle_imports, flattened, import_alone, found_at, found, GivesFirst, NextImport};
ghost use Rattle.wasm_items.specs.Imports.{bundle_parts};
ghost use Rattle.wasm_items.specs.Left.{items_left, names_left};

use crate::imports::{Import, ImportItemCompact, ImportSectionReader, Imports, TypeRef};
use std::marker::Model;
use wasm_base::{Result, SectionLimitedIntoIter, SectionLimitedIntoIterWithOffsets};

// The remaining imports of a bundle of one module.
#[derive(Drop)]
struct ItemsLeft<'a> {
    module: &'a str,
    items: SectionLimitedIntoIterWithOffsets<'a, ImportItemCompact<'a>>,
}

impl<'a> ItemsLeft<'a> {
    fn next_import(&mut self) -> Option<Result<(u64, Import<'a>)>>
        ensures gives { GivesFirst found_at (items_left self.old) result (items_left self.new) }
        ensures memory { IfSome result NotOutOfMemory }
    {
        let module = self.module;
        match self.items.next() {
            Some(Ok((offset, ImportItemCompact { name, ty }))) => {
                Some(Ok((offset, Import { module, name, ty })))
            }
            Some(Err(e)) => Some(Err(e)),
            None => None,
        }
    }
}

// The remaining imports of a bundle of one module and one type.
#[derive(Drop)]
struct NamesLeft<'a> {
    module: &'a str,
    ty: TypeRef,
    names: SectionLimitedIntoIterWithOffsets<'a, &'a str>,
}

impl<'a> NamesLeft<'a> {
    fn next_import(&mut self) -> Option<Result<(u64, Import<'a>)>>
        ensures gives { GivesFirst found_at (names_left self.old) result (names_left self.new) }
        ensures memory { IfSome result NotOutOfMemory }
    {
        let (module, ty) = (self.module, self.ty);
        match self.names.next() {
            Some(Ok((offset, name))) => Some(Ok((offset, Import { module, name, ty }))),
            Some(Err(e)) => Some(Err(e)),
            None => None,
        }
    }
}

// The remaining imports of an item of an import section.
#[derive(Drop)]
enum Left<'a> {
    One(Option<(u64, Import<'a>)>),
    Items(ItemsLeft<'a>),
    Names(NamesLeft<'a>),
}

/// An iterator over the imports of one item of an import section, each with its offset.
///
/// The offset is in bytes from the start of the stream. It is that of the item for a single import, and that of the
/// import itself in a bundle. `Imports::into_iter` creates the iterator.
///
/// # Errors
///
/// `next` returns the error of an import of a bundle (a malformed name or type), and then only `None`. A bundle with
/// bytes after its last import ends with `SizeMismatch` at the first of them. A single import was read already and
/// yields no error.
///
/// ```rattle
/// let mut reader = BinaryReader::new(b"\x01m\x01f\x00\x05", 100);
/// for import in Imports::from_reader(&mut reader)? {
///     let (offset, import) = import?;
///     assert_eq!(rt; offset, 100);
///     assert_eq!(rt; import.ty, TypeRef::Func(5));
/// }
/// ```
pub struct ImportsIter<'a> {
    left: Left<'a>,
}

// By hand, like those of the iterators below: a derived one is proved in every crate that drops the value, and makes the proof of each
// function that does so twice as long.
impl<'a> Drop for ImportsIter<'a> {
    fn drop(self) {
        let ImportsIter { left: _ } = self;
    }
}

// The model of an iterator over imports is the list of its remaining results. One call of `next` takes the first of them,
// so what whole runs yield follows by a short induction.
impl<'a> Model for ImportsIter<'a> {
    ghost use Rattle.std.specs.Prelude.{ℕ, List, Result};
    ghost use Rattle.wasm_base.specs.FaultAt.{FaultAt};
    ghost use Rattle.wasm_items.specs.Imports.{ImportParts};
    ghost use Rattle.wasm_items.specs.Left.{imports_left};

    ghost Value = { List (Result (ℕ × ImportParts) FaultAt) };

    ghost view = { λ s. imports_left s.left };
}

impl<'a> Iterator for ImportsIter<'a> {
    type Item = Result<(u64, Import<'a>)>;

    ghost next_gives = { NextImport found_at };

    ghost remaining = { λ imports. at_most (length imports) };

    fn next(&mut self) -> Option<Result<(u64, Import<'a>)>> {
        match &mut self.left {
            Left::One(import) => import.take().map(Ok),
            Left::Items(bundle) => bundle.next_import(),
            Left::Names(bundle) => bundle.next_import(),
        }
    }
}

impl<'a> ImportsIter<'a> {
    // Continues with the imports of this bundle.
    fn start(&mut self, bundle: Imports<'a>)
        ensures { self.new ≡ bundle_imports (bundle_parts bundle.entry) }
    {
        *self = bundle.into_iter();
    }
}

impl<'a> IntoIterator for Imports<'a> {
    type Item = Result<(u64, Import<'a>)>;

    type IntoIter = ImportsIter<'a>;

    // Proved: `into_iter` of an item of an import section yields its imports, each with its offset;
    //   no call of `next` returns `OutOfMemory` [`into_iter_gives` of `Imports` (`bundle_imports`),
    //   `next_gives` of `ImportsIter` (`NextImport`, `GivesFirst`)]
    ghost into_iter_gives = { λ bundle imports. imports ≡ bundle_imports (bundle_parts bundle) };

    fn into_iter(self) -> ImportsIter<'a> {
        let left = match self {
            Imports::Single(offset, import) => Left::One(Some((offset, import))),
            Imports::Compact1 { module, items } => Left::Items(ItemsLeft {
                module,
                items: items.into_iter_with_offsets(),
            }),
            Imports::Compact2 { module, ty, names } => Left::Names(NamesLeft {
                module,
                ty,
                names: names.into_iter_with_offsets(),
            }),
        };
        ImportsIter { left }
    }
}

// Returns the next import of an import section: the next one of the current bundle, or the first one of a later bundle.
fn next_import<'a>(
    bundle: &mut ImportsIter<'a>,
    bundles: &mut SectionLimitedIntoIter<'a, Imports<'a>>,
) -> Option<Result<(u64, Import<'a>)>>
    ensures gives { GivesFirst found_at (bundle.old ++ imports_of_bundles bundles.old) result
        (bundle.new ++ imports_of_bundles bundles.new) }
    ensures memory { IfSome result NotOutOfMemory }
{
    'left: loop {
        if let Some(import) = bundle.next() {
            return Some(import);
        }
        match bundles.next() {
            Some(Ok(next)) => match next {
                // Returned as it is, because storing it in `bundle` first would copy it twice.
                Imports::Single(offset, import) => return Some(Ok((offset, import))),
                bundled => bundle.start(bundled),
            },
            Some(Err(e)) => return Some(Err(e)),
            None => return None,
        }
    }
}

/// An iterator over all imports of an import section, single or in bundles, each with its offset.
///
/// The offset is in bytes from the start of the stream. It is that of the item for a single import, and that of the
/// import itself in a bundle. `ImportSection::into_imports_with_offsets` creates the iterator.
///
/// # Errors
///
/// * After an error inside a bundle, the next item of the section follows.
/// * After an error of an item of the section itself, the iterator ends.
/// * If bytes follow the last item, the iterator ends with `SizeMismatch` at the first of them.
///
/// ```rattle
/// let bytes = b"\x01\x01m\x01f\x00\x05";
/// let section = ImportSectionReader::new(BinaryReader::new(bytes, 100))?;
/// for import in section.into_imports_with_offsets() {
///     let (offset, import) = import?;
///     assert_eq!(rt; offset, 101);
///     assert_eq!(rt; import.name, "f");
/// }
/// ```
pub struct IntoImportsWithOffsets<'a> {
    bundle: ImportsIter<'a>,
    bundles: SectionLimitedIntoIter<'a, Imports<'a>>,
}

impl<'a> Drop for IntoImportsWithOffsets<'a> {
    fn drop(self) {
        let IntoImportsWithOffsets {
            bundle: _,
            bundles: _,
        } = self;
    }
}

impl<'a> Model for IntoImportsWithOffsets<'a> {
    ghost use Rattle.std.specs.Prelude.{ℕ, List, ◌++◌, Result};
    ghost use Rattle.wasm_base.specs.FaultAt.{FaultAt};
    ghost use Rattle.wasm_items.specs.Flattened.{imports_of_bundles};
    ghost use Rattle.wasm_items.specs.Imports.{ImportParts};

    ghost Value = { List (Result (ℕ × ImportParts) FaultAt) };

    ghost view = { λ s. s.bundle ++ imports_of_bundles s.bundles };
}

impl<'a> Iterator for IntoImportsWithOffsets<'a> {
    type Item = Result<(u64, Import<'a>)>;

    ghost next_gives = { NextImport found_at };

    ghost remaining = { λ imports. at_most (length imports) };

    fn next(&mut self) -> Option<Result<(u64, Import<'a>)>> {
        next_import(&mut self.bundle, &mut self.bundles)
    }
}

/// An iterator over all imports of an import section, single or in bundles.
///
/// It yields the imports and errors of `IntoImportsWithOffsets`, without the offsets. `ImportSection::into_imports`
/// creates it.
///
/// ```rattle
/// let bytes = b"\x01\x01m\x01f\x00\x05";
/// let mut imports = ImportSectionReader::new(BinaryReader::new(bytes, 0))?.into_imports();
/// if let Some(import) = imports.next() {
///     assert_eq!(rt; import?.name, "f");
/// }
/// assert!(rt; imports.next().is_none());
/// ```
pub struct IntoImports<'a> {
    imports: IntoImportsWithOffsets<'a>,
}

impl<'a> Drop for IntoImports<'a> {
    fn drop(self) {
        let IntoImports { imports: _ } = self;
    }
}

impl<'a> Model for IntoImports<'a> {
    ghost use Rattle.std.specs.Prelude.{List, Result, map};
    ghost use Rattle.wasm_base.specs.FaultAt.{FaultAt};
    ghost use Rattle.wasm_items.specs.Flattened.{import_alone};
    ghost use Rattle.wasm_items.specs.Imports.{ImportParts};

    ghost Value = { List (Result ImportParts FaultAt) };

    ghost view = { λ s. map import_alone s.imports };
}

impl<'a> Iterator for IntoImports<'a> {
    type Item = Result<Import<'a>>;

    ghost next_gives = { NextImport found };

    ghost remaining = { λ imports. at_most (length imports) };

    fn next(&mut self) -> Option<Result<Import<'a>>> {
        match self.imports.next() {
            Some(Ok((_offset, import))) => Some(Ok(import)),
            Some(Err(e)) => Some(Err(e)),
            None => None,
        }
    }
}

/// Extends import sections with iterators over their imports, whether single or in bundles.
///
/// Bring this trait into scope to list imports one by one. Without it, an import section yields its items (`Imports`),
/// each of which may be a bundle.
///
/// ```rattle
/// // A bundle of the module "m" with two functions of type 5, "f" and "g".
/// let bytes = b"\x01\x01m\x00\x7e\x00\x05\x02\x01f\x01g";
/// let section = ImportSectionReader::new(BinaryReader::new(bytes, 0))?;
/// let mut names = Vec::new(alloc);
/// for import in section.into_imports() {
///     names.push(import?.name)?;
/// }
/// assert_eq!(rt; names.as_slice(), ["f", "g"].as_slice());
/// ```
pub trait ImportSection<'a> {
    /// Returns an iterator over all imports of the section, in order.
    fn into_imports(self) -> IntoImports<'a>;

    /// Returns an iterator over all imports of the section, in order, each with its offset in bytes from the start of
    /// the stream.
    fn into_imports_with_offsets(self) -> IntoImportsWithOffsets<'a>;
}

// The clauses are here, because the trait can't see the count and the window of the section.
impl<'a> ImportSection<'a> for ImportSectionReader<'a> {
    fn into_imports(self) -> IntoImports<'a>
        // Proved: `into_imports` yields all imports of a section in order, including those in
        //   bundles [the clause of `ImportSectionReader::into_imports` (`flattened`)]
        ensures { result ≡ map import_alone (flattened self.entry.count (place self.entry.reader)) }
    {
        IntoImports {
            imports: self.into_imports_with_offsets(),
        }
    }

    fn into_imports_with_offsets(self) -> IntoImportsWithOffsets<'a>
        // Proved: `into_imports_with_offsets` yields the same imports as `into_imports`, each with
        //   its offset
        // Proved: after a fault in a bundle the next bundle follows, after the fault of an item
        //   nothing; neither call returns `OutOfMemory` [the clauses of both (`flattened`),
        //   `next_gives` (`NextImport`) of their iterators]
        ensures { result ≡ flattened self.entry.count (place self.entry.reader) }
    {
        IntoImportsWithOffsets {
            bundle: ImportsIter {
                left: Left::One(None),
            },
            bundles: self.into_iter(),
        }
    }
}
