// Names of items.
ghost use Rattle.std.specs.Prelude.{◌≡◌, [], IfErr, OnErr, OnOk};
ghost use Rattle.std.specs.Option.{option_copied};
ghost use Rattle.wasm_io.specs.declared.devices.ListError.TheVariants.{Memory};
ghost use Rattle.wasm_output.specs.ItemNames.{AddsName, KeepsNames, item, named, rank_of as rank};

use crate::numbers::Space;
use std::alloc::{Allocator, Global};
use std::collections::BTreeMap;
use std::marker::Model;
use wasm_io::ListError;

/// The names of items, by index space and index. The first name that was added for an item counts.
///
/// ```rattle
/// let mut names = ItemNames::new(alloc);
/// names.add(alloc, Space::Functions, 5, "f")?;
/// names.add(alloc, Space::Functions, 5, "g")?;
/// assert_eq!(rt; names.of(Space::Functions, 5), Some("f"));
/// assert_eq!(rt; names.of(Space::Tables, 5), None);
/// ```
#[derive(Drop)]
pub struct ItemNames<A: Allocator = Global> {
    names: BTreeMap<(u8, u32), String<A>, A>,
}

impl<A: Allocator> Model for ItemNames<A> {
    ghost use Rattle.wasm_output.specs.ItemNames.{Names, names_in};

    ghost Value = { Names };

    ghost view = { λ a. names_in a.names };
}

// The rank of an index space among the keys.
fn rank_of(space: Space) -> u8
    ensures { result ≡ rank space }
{
    match space {
        Space::Types => 0,
        Space::Functions => 1,
        Space::Tables => 2,
        Space::Memories => 3,
        Space::Tags => 4,
        Space::Globals => 5,
        Space::Elements => 6,
        Space::DataSegments => 7,
        Space::Symbols => 8,
    }
}

impl ItemNames {
    /// Creates an empty map. Allocates nothing yet.
    pub fn new(alloc: Global) -> ItemNames
        ensures { result ≡ [] }
    {
        ItemNames::new_in(alloc)
    }
}

impl<A: Allocator> ItemNames<A> {
    /// Creates an empty map with any allocator.
    pub fn new_in(alloc: A) -> ItemNames<A>
        ensures { result ≡ [] }
    {
        ItemNames {
            names: BTreeMap::new(alloc),
        }
    }

    /// Adds the name of an item, which is copied, unless the item has a name already.
    ///
    /// # Errors
    ///
    /// `Memory` when an allocation fails. The names are then unchanged.
    pub fn add(&mut self, alloc: A, space: Space, index: u32, name: &str) -> Result<(), ListError>
    where
        A: Clone,
        // Proved: an item has the name that was added for it first, and none before one was [`ItemNames::new`, `add`
        //   (`added`: `AddsName`), `of` (`named`)]
        // Proved: adding a name changes no other item's
        ensures added { OnOk result (AddsName self.old (item space index) name.now self.new) }
        ensures keeps { KeepsNames self.old self.new }
        // Proved: if an allocation failed, all names are unchanged
        ensures refused { OnErr result (self.new ≡ self.old) }
        ensures memory { IfErr result (λ why. why ≡ Memory) }
    {
        let key = (rank_of(space), index);
        if self.names.contains_key(&key) {
            return Ok(());
        }
        match self.names.insert(key, String::from_str(alloc, name)?) {
            Ok(_) => Ok(()),
            Err(_) => Err(ListError::Memory),
        }
    }

    /// Returns the name of an item, if it has one.
    pub fn of(&self, space: Space, index: u64) -> Option<&str>
        ensures { option_copied result ≡ named self.now (item space index) }
    {
        match u32::try_from(index) {
            Ok(index) => match self.names.get(&(rank_of(space), index)) {
                Some(name) => Some(name.as_str()),
                None => None,
            },
            Err(_) => None,
        }
    }
}

/// The name of an item, if there are names, and it has one.
pub(crate) fn name_in(names: &Option<ItemNames>, space: Space, index: u64) -> Option<&str> {
    match names {
        Some(names) => names.of(space, index),
        None => None,
    }
}

/// The name of a function, if there is a number, and it has a name.
pub(crate) fn function_name(names: &Option<ItemNames>, function: Option<u64>) -> Option<&str> {
    name_in(names, Space::Functions, function?)
}
