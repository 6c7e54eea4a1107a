//! Laws of the definitions of this crate, each the contract of a function that does nothing.
ghost use Rattle.wasm_c_items.specs.Faults.{EachHasItsNumber};
ghost use Rattle.wasm_c_items.specs.SectionLists.{ListsAreSections};

/// No two faults have one number.
pub fn each_fault_has_its_number()
    // Proved: no two faults have the same number [`laws::each_fault_has_its_number` of
    //   `wasm_c_items`]
    ensures { EachHasItsNumber }
{}

/// A list returns what an iterator over a section with the same bytes and count returns, call by call: the same items,
/// and the same fault.
///
/// Each call of C for a list without an order, `pulleynavy_next_exports` for example, returns what `next_by` says of it.
pub fn lists_return_the_items_of_sections<X, T>()
    // Proved: a list without an order returns what an iterator over a section with the same bytes
    //   and count returns, call by call: the same items, and the same fault
    //   [`laws::lists_return_the_items_of_sections` of `wasm_c_items` (`ListsAreSections`)]
    ensures { ListsAreSections X T }
{}
