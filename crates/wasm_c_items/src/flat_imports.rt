// The imports of a section one by one, those of bundles among them.
ghost use Rattle.std.specs.Prelude.{◌≡◌, ◌+◌};
ghost use Rattle.wasm_c_items.specs.FlatImports.{bundled_by, entered, import_of, imports_from, is_within, next_flat, within};

use crate::cursors::{StoredItems, Walk, item, next_item, section_items, starting};
use crate::events::PlainEvent;
use crate::imports::{
    BundledItems, Bundles, NO_IMPORT, OF_TYPE, PlainImport, PlainImportItem, TypedNames,
};
use crate::spans::after;

/// A cursor over all imports of a section, including those of bundles one by one. It keeps no pointer. Any bytes are a
/// valid cursor.
#[repr(C)]
#[derive(Clone, Copy)]
pub struct StoredImports {
    /// The cursor over the items of the section, imports and bundles.
    pub items: StoredItems,
    /// The cursor over the imports of the last bundle.
    pub bundled: StoredItems,
    /// The last bundle.
    pub bundle: PlainImport,
}

impl StoredImports {
    // Whether the next import is one of the bundle.
    fn is_within(&self) -> bool
        ensures { result ≡ is_within self.now }
    {
        self.bundled.is_ended == 0 && self.bundled.remaining != 0
    }

    // Moves to the first import of this bundle.
    fn enter(&mut self, bundle: PlainImport)
        ensures { self.new ≡ entered bundle self.old }
    {
        let offset = self.items.start().saturating_add(bundle.items.at as u64);
        self.bundled = StoredItems {
            position: bundle.items.at,
            ..starting(offset, bundle.count, self.items.features)
        };
        self.bundle = bundle;
    }
}

// The import at which the cursor of a bundle is.
fn bundled(bundle: &PlainImport, items: &mut StoredItems, rest: &[u8]) -> Option<PlainImportItem>
    ensures { (result, items.new) ≡ bundled_by bundle.now items.old rest.now }
{
    if bundle.kind == OF_TYPE {
        return item(TypedNames { ty: bundle.ty }, items, rest);
    }
    item(BundledItems, items, rest)
}

// An import of a bundle, as an import on its own.
fn import_of(bundle: &PlainImport, one: PlainImportItem) -> PlainImport
    ensures { result ≡ import_of bundle.now one }
{
    if one.fault.kind != 0 {
        return PlainImport {
            fault: one.fault,
            ..NO_IMPORT
        };
    }
    PlainImport {
        consumed: one.consumed,
        module_name: bundle.module_name,
        name: one.name,
        ty: one.ty,
        count: 1,
        ..NO_IMPORT
    }
}

// The next import of the bundle.
fn within(imports: &mut StoredImports, bytes: &[u8]) -> Option<PlainImport>
    ensures { (result, imports.new) ≡ within bytes.now imports.old }
{
    let rest = after(bytes, imports.bundled.position);
    let one = bundled(&imports.bundle, &mut imports.bundled, rest)?;
    Some(import_of(&imports.bundle, one))
}

// The next import of the section. No call passes more bundles without imports than are left.
fn next_import(imports: &mut StoredImports, bytes: &[u8]) -> Option<PlainImport>
    ensures { (result, imports.new) ≡ next_flat bytes.now imports.old }
{
    let mut left = u64::from(imports.items.remaining) + 1;
    while left != 0 {
        if imports.is_within() {
            return within(imports, bytes);
        }
        let one = next_item(Bundles, &mut imports.items, bytes)?;
        if one.kind == 0 {
            return Some(one);
        }
        imports.enter(one);
        left -= 1;
    }
    None
}

/// The imports of a section one by one, those of bundles among them.
#[derive(Clone, Copy)]
pub struct EveryImport;

impl Walk for EveryImport {
    type Plain = PlainImport;

    type Cursor = StoredImports;

    ghost next = { λ _. next_flat };

    fn next(self, imports: &mut StoredImports, bytes: &[u8]) -> Option<PlainImport> {
        next_import(imports, bytes)
    }
}

/// Returns a cursor at the first import of the section that this event reports, with these features.
///
/// `pulleynavy_imports_init` of the C library is this call, and describes its errors.
pub fn section_imports(event: &PlainEvent, features: u32) -> StoredImports
    ensures { result ≡ imports_from event.now features }
{
    StoredImports {
        items: section_items(event, features),
        bundled: starting(0, 0, features),
        bundle: NO_IMPORT,
    }
}
