//! The laws of iterators over sections and subsections, of numbers, and of comparing and copying, for every item type.
//!
//! Each law is the contract of a function that does nothing.
ghost use Rattle.std.specs.Hash as hashed;
ghost use Rattle.std.specs.Prelude.{◌≡◌};
ghost use Rattle.wasm_base.specs.Comparing.{DecidesWhether, DecidesSame, IsCopy};
ghost use Rattle.wasm_base.specs.FaultAt.{fault_at};
ghost use Rattle.wasm_base.specs.Features.{feature_bits};
ghost use Rattle.wasm_base.specs.Float.{bits_of_32, bits_of_64};
ghost use Rattle.wasm_base.specs.Inner.{SkipsAsRead};
ghost use Rattle.wasm_base.specs.Item.{AllowsOne, Determines};
ghost use Rattle.wasm_base.specs.Owned.{UnlessMemory};
ghost use Rattle.wasm_base.specs.Section.{Section, Items, AtItsOffset, GivesItems, GivesTheSame, GivesEqual, SameRuns, EqualRuns, OfCopies};
ghost use Rattle.wasm_base.specs.Section.{GivesTheSameUnlessMemory, run_over, run_with_offsets, all_items};
ghost use Rattle.wasm_base.specs.Subsections.{UnlessTaken, GivesSubsections};
ghost use Rattle.wasm_base.specs.Widths.{IsLongEnough, ChecksUnused, BoundsSum};
ghost use Rattle.wasm_base.specs.Window.{Window};

use crate::error::Error;
use crate::fault::{CoreStart, Fault, Lead, NumberKind};
use crate::features::WasmFeatures;
use crate::float::{Ieee32, Ieee64};
use crate::inner::SkipItem;
use crate::item::FromReader;
use crate::limits::{
    _MAX_WASM_TABLE_SIZE, DEFAULT_WASM_PAGE_SIZE, MAX_WASM_BR_TABLE_SIZE, MAX_WASM_CATCHES,
    MAX_WASM_DATA_SEGMENTS, MAX_WASM_ELEMENT_SEGMENTS, MAX_WASM_EXPORTS, MAX_WASM_FUNCTION_LOCALS,
    MAX_WASM_FUNCTION_PARAMS, MAX_WASM_FUNCTION_RETURNS, MAX_WASM_FUNCTION_SIZE,
    MAX_WASM_FUNCTIONS, MAX_WASM_GLOBALS, MAX_WASM_HANDLERS, MAX_WASM_IMPORTS, MAX_WASM_MEMORIES,
    MAX_WASM_MODULES_AND_COMPONENTS, MAX_WASM_SELECT_RESULT_SIZE, MAX_WASM_STRING_SIZE,
    MAX_WASM_STRUCT_FIELDS, MAX_WASM_SUBTYPING_DEPTH, MAX_WASM_SUPERTYPES, MAX_WASM_TABLE_ENTRIES,
    MAX_WASM_TABLES, MAX_WASM_TAGS, MAX_WASM_TYPE_SIZE, MAX_WASM_TYPES,
};
use crate::owned::FromReaderIn;
use crate::reader::BinaryReader;
use crate::section::{
    SectionLimited, SectionLimitedIntoIter, SectionLimitedIntoIterIn,
    SectionLimitedIntoIterWithOffsets,
};
use crate::subsections::{Subsection, Subsections};
use std::hash::Hash;

/// Calls of `next` return the items of the window up to the first `None`, and nothing after it.
///
/// `SectionLimitedIntoIterWithOffsets` yields each item with the offset at which its bytes begin. The items of a window
/// are the announced ones, and then nothing, or one `SizeMismatch` if bytes remain; after an item's error, nothing.
pub fn items_of_a_window<'a, T: FromReader<'a>>()
    // Proved: whole runs: the items of a window, at most one more than announced; `size_hint`
    //   bounds them [`laws::items_of_a_window`, the clauses of `size_hint`]
    ensures items { (s : Items) →
        GivesItems ⟦<SectionLimitedIntoIter<'a, T> as Iterator>⟧.next_gives T.meaning s }
    ensures with_offsets { (s : Items) →
        GivesItems
        ⟦<SectionLimitedIntoIterWithOffsets<'a, T> as Iterator>⟧.next_gives
        (AtItsOffset T.meaning) s }
{}

/// Calls of `next` return the items of the window, for items that own lists too.
///
/// It is as in `items_of_a_window`, except that `OutOfMemory` may come in place of an item, which is then the last.
pub fn owned_items_of_a_window<'a, T: FromReaderIn<'a>>()
    ensures { (s : Items) →
        GivesItems ⟦<SectionLimitedIntoIterIn<'a, T> as Iterator>⟧.next_gives (UnlessMemory T.meaning) s }
{}

/// Calls of `next` return the subsections of the window up to the first `None`, and nothing after it.
///
/// Each is what its id and its window mean, or its error, and the others follow it, to the end of the window. If an id
/// or a size is malformed, the later subsections are those that begin at a later place.
pub fn subsections_of_a_window<'a, T: Subsection<'a>>()
    // Proved: whole runs: the subsections of a window, each after the one before, whatever fault
    //   that had. There are at most as many as bytes remain [`laws::subsections_of_a_window`
    //   (`GivesSubsections`)]
    ensures { (s : Window) →
        GivesSubsections ⟦<Subsections<'a, T> as Iterator>⟧.next_gives
        (UnlessTaken T.meaning T.Allocation.ALLOCATES) s }
{}

/// `SectionLimitedIntoIter` and `SectionLimitedIntoIterWithOffsets` yield the same items and the same error, if the
/// meaning of an item allows one outcome.
///
/// The items are equal if the meaning determines the value completely.
pub fn both_iterators_give_the_same_items<'a, T: FromReader<'a>>()
    // Proved: both iterators, a clone of a section and a clone of an iterator yield the same items,
    //   if the meaning of an item allows one outcome [`laws::both_iterators_give_the_same_items`,
    //   `a_clone_gives_the_same_items`, `a_cloned_iterator_gives_the_same_items`;
    //   `these_allow_one_outcome`]
    ensures same { AllowsOne T.meaning → (s : Items) → GivesTheSame T.meaning
        (run_over ⟦<SectionLimitedIntoIter<'a, T> as Iterator>⟧.next_gives s)
        (run_with_offsets ⟦<SectionLimitedIntoIterWithOffsets<'a, T> as Iterator>⟧.next_gives s) }
    ensures equal { Determines T.meaning → (s : Items) → GivesEqual
        (run_over ⟦<SectionLimitedIntoIter<'a, T> as Iterator>⟧.next_gives s)
        (run_with_offsets ⟦<SectionLimitedIntoIterWithOffsets<'a, T> as Iterator>⟧.next_gives s) }
{}

/// A clone of a section yields the same items and the same error, if the meaning of an item allows one outcome.
pub fn a_clone_gives_the_same_items<'a, T: FromReader<'a>>()
    ensures same { AllowsOne T.meaning → OfCopies
        ⟦<SectionLimited<'a, T> as Clone>⟧.is_clone
        ⟦<SectionLimited<'a, T> as IntoIterator>⟧.into_iter_gives
        (SameRuns T.meaning ⟦<SectionLimitedIntoIter<'a, T> as Iterator>⟧.next_gives) }
    ensures equal { Determines T.meaning → OfCopies
        ⟦<SectionLimited<'a, T> as Clone>⟧.is_clone
        ⟦<SectionLimited<'a, T> as IntoIterator>⟧.into_iter_gives
        (EqualRuns ⟦<SectionLimitedIntoIter<'a, T> as Iterator>⟧.next_gives) }
{}

/// A clone of a section yields the same items that own lists and the same error, up to an `OutOfMemory`.
///
/// This needs a meaning of an item that allows one outcome.
pub fn a_clone_gives_the_same_owned_items<'a, T: FromReaderIn<'a>>()
    ensures { AllowsOne T.meaning → (section copy : Section) →
        ⟦<SectionLimited<'a, T> as Clone>⟧.is_clone section copy →
        GivesTheSameUnlessMemory T.meaning
        ⟦<SectionLimitedIntoIterIn<'a, T> as Iterator>⟧.next_gives
        (all_items section) (all_items copy) }
{}

/// A clone of an iterator yields the same items and the same error, if the meaning of an item allows one outcome.
pub fn a_cloned_iterator_gives_the_same_items<'a, T: FromReader<'a> + Clone>()
    ensures same { AllowsOne T.meaning → (s t : Items) →
        ⟦<SectionLimitedIntoIter<'a, T> as Clone>⟧.is_clone s t →
        SameRuns T.meaning ⟦<SectionLimitedIntoIter<'a, T> as Iterator>⟧.next_gives s t }
    ensures equal { Determines T.meaning → (s t : Items) →
        ⟦<SectionLimitedIntoIter<'a, T> as Clone>⟧.is_clone s t →
        EqualRuns ⟦<SectionLimitedIntoIter<'a, T> as Iterator>⟧.next_gives s t }
{}

/// The meanings of booleans, numbers and names allow one outcome, and so does that of a pair of such items.
///
/// Those of booleans and numbers determine the value, and so does that of a pair of such items.
pub fn these_allow_one_outcome<'a, T: FromReader<'a>, U: FromReader<'a>>()
    ensures truth { AllowsOne ⟦<bool as FromReader<'a>>⟧.meaning × Determines
        ⟦<bool as FromReader<'a>>⟧.meaning }
    ensures number { AllowsOne ⟦<u32 as FromReader<'a>>⟧.meaning × Determines
        ⟦<u32 as FromReader<'a>>⟧.meaning }
    ensures name { AllowsOne ⟦<&'a str as FromReader<'a>>⟧.meaning }
    ensures pair { AllowsOne T.meaning → AllowsOne U.meaning → AllowsOne
        ⟦<(T, U) as FromReader<'a>>⟧.meaning }
    ensures determined_pair { Determines T.meaning → Determines U.meaning → Determines
        ⟦<(T, U) as FromReader<'a>>⟧.meaning }
{}

/// Wherever a name is read, skipping it as an item of an inner list consumes the same bytes as reading it.
pub fn skipping_a_name_consumes_its_bytes<'a>()
    // Proved: skipping a name consumes the bytes that reading it consumes, wherever it is read
    ensures { SkipsAsRead ⟦<&'a str as FromReader<'a>>⟧.meaning ⟦<&'a str as SkipItem<'a>>⟧.skipped_at }
{}

/// The limits of LEB128 numbers follow from how many bits a value has, and whether it is signed.
///
/// These are how many bytes a number has at most, which unused bits its last byte may have, and how large the sum of
/// its seven-bit groups is.
pub fn widths_of_numbers()
    // Proved: each kind of number takes as many bytes as its bits need
    // Proved: the unused bits of the last byte that a number may have are 0, or equal the sign for
    //   a signed kind. Its seven-bit groups are bounded by the bits of its value, or for a signed
    //   kind by those of all its bytes [`laws::widths_of_numbers` (`ChecksUnused`, `BoundsSum`)]
    ensures bytes { (kind : NumberKind) → IsLongEnough kind }
    ensures unused { (kind : NumberKind) → ChecksUnused kind }
    ensures sum { (kind : NumberKind) → BoundsSum kind }
{}

/// `==` of two faults, kinds within faults, or sets of features returns true exactly if the two are the same:
/// the same variant with the same values, or the same bits.
pub fn equal_faults_are_the_same()
    // Proved: two faults, what they name, and two sets of features are equal exactly if they are
    //   the same
    ensures number_kind { DecidesSame ⟦<NumberKind as PartialEq>⟧.eq }
    ensures lead { DecidesSame ⟦<Lead as PartialEq>⟧.eq }
    ensures core_start { DecidesSame ⟦<CoreStart as PartialEq>⟧.eq }
    ensures fault { DecidesSame ⟦<Fault as PartialEq>⟧.eq }
    ensures features { DecidesSame ⟦<WasmFeatures as PartialEq>⟧.eq }
{}

/// A set of features is hashed as its bits.
pub fn features_are_hashed_as_their_bits()
    // Proved: a set of features is hashed as its bits, and so is a float; two floats are equal
    //   exactly if their bits are [`laws::features_are_hashed_as_their_bits`,
    //   `floats_are_hashed_as_their_bits`, `equal_floats_have_the_same_bits`]
    ensures { (features : WasmFeatures) → ⟦<WasmFeatures as Hash>⟧.hash_input features ≡ hashed.u32
        (feature_bits features) }
{}

/// Two floats are equal exactly if their bits are, so a NaN is equal to itself.
pub fn equal_floats_have_the_same_bits()
    ensures single { DecidesWhether (λ one other. bits_of_32 one ≡ bits_of_32 other)
        ⟦<Ieee32 as PartialEq>⟧.eq }
    ensures double { DecidesWhether (λ one other. bits_of_64 one ≡ bits_of_64 other)
        ⟦<Ieee64 as PartialEq>⟧.eq }
{}

/// A float is hashed as its bits.
pub fn floats_are_hashed_as_their_bits()
    ensures single { (float : Ieee32) → ⟦<Ieee32 as Hash>⟧.hash_input float ≡ hashed.u32 (bits_of_32 float) }
    ensures double { (float : Ieee64) → ⟦<Ieee64 as Hash>⟧.hash_input float ≡ hashed.u64 (bits_of_64 float) }
{}

/// Two errors are equal exactly if their fault, offset and number are. The hint is not compared.
pub fn equal_errors_are_the_same()
    // Proved: two errors are equal exactly if fault, offset and number are, whatever they hint at
    ensures { DecidesWhether (λ one other. fault_at one ≡ fault_at other) ⟦<Error as PartialEq>⟧.eq }
{}

/// A copy is the same as the original, and copying never fails: it does not allocate.
///
/// This holds for a fault, an error with its hint, a set of features, a float, a reader, a section, an iterator over
/// its items, and subsections.
pub fn copies_are_the_same<'a, T, U: Clone>()
    // Proved: a copy of an error, a fault, a set of features, a float, a reader, a section, its
    //   iterator or subsections is the same, and can always be made
    ensures error { IsCopy ⟦<Error as Clone>⟧.is_clone ⟦<Error as Clone>⟧.is_infallible }
    ensures fault { IsCopy ⟦<Fault as Clone>⟧.is_clone ⟦<Fault as Clone>⟧.is_infallible }
    ensures number_kind { IsCopy
        ⟦<NumberKind as Clone>⟧.is_clone
        ⟦<NumberKind as Clone>⟧.is_infallible }
    ensures lead { IsCopy ⟦<Lead as Clone>⟧.is_clone ⟦<Lead as Clone>⟧.is_infallible }
    ensures core_start { IsCopy
        ⟦<CoreStart as Clone>⟧.is_clone
        ⟦<CoreStart as Clone>⟧.is_infallible }
    ensures features { IsCopy
        ⟦<WasmFeatures as Clone>⟧.is_clone
        ⟦<WasmFeatures as Clone>⟧.is_infallible }
    ensures single { IsCopy ⟦<Ieee32 as Clone>⟧.is_clone ⟦<Ieee32 as Clone>⟧.is_infallible }
    ensures double { IsCopy ⟦<Ieee64 as Clone>⟧.is_clone ⟦<Ieee64 as Clone>⟧.is_infallible }
    ensures reader { IsCopy
        ⟦<BinaryReader<'a> as Clone>⟧.is_clone
        ⟦<BinaryReader<'a> as Clone>⟧.is_infallible }
    ensures section { IsCopy
        ⟦<SectionLimited<'a, T> as Clone>⟧.is_clone
        ⟦<SectionLimited<'a, T> as Clone>⟧.is_infallible }
    ensures items { IsCopy
        ⟦<SectionLimitedIntoIter<'a, U> as Clone>⟧.is_clone
        ⟦<SectionLimitedIntoIter<'a, U> as Clone>⟧.is_infallible }
    ensures subsections { IsCopy
        ⟦<Subsections<'a, T> as Clone>⟧.is_clone
        ⟦<Subsections<'a, T> as Clone>⟧.is_infallible }
{}

/// The limits of modules have these values.
pub fn limits_of_modules()
    // Proved: each limit of modules has its number
    ensures types { MAX_WASM_TYPES ≡ 1000000 }
    ensures supertypes { MAX_WASM_SUPERTYPES ≡ 5 }
    ensures functions { MAX_WASM_FUNCTIONS ≡ 1000000 }
    ensures imports { MAX_WASM_IMPORTS ≡ 1000000 }
    ensures exports { MAX_WASM_EXPORTS ≡ 1000000 }
    ensures globals { MAX_WASM_GLOBALS ≡ 1000000 }
    ensures element_segments { MAX_WASM_ELEMENT_SEGMENTS ≡ 100000 }
    ensures data_segments { MAX_WASM_DATA_SEGMENTS ≡ 100000 }
    ensures name { MAX_WASM_STRING_SIZE ≡ 100000 }
    ensures body { MAX_WASM_FUNCTION_SIZE ≡ 7654321 }
    ensures locals { MAX_WASM_FUNCTION_LOCALS ≡ 50000 }
    ensures params { MAX_WASM_FUNCTION_PARAMS ≡ 1000 }
    ensures results { MAX_WASM_FUNCTION_RETURNS ≡ 1000 }
    ensures table { _MAX_WASM_TABLE_SIZE ≡ 10000000 }
    ensures table_entries { MAX_WASM_TABLE_ENTRIES ≡ 10000000 }
    ensures tables { MAX_WASM_TABLES ≡ 100000 }
    ensures memories { MAX_WASM_MEMORIES ≡ 100 }
    ensures tags { MAX_WASM_TAGS ≡ 1000000 }
    ensures labels { MAX_WASM_BR_TABLE_SIZE ≡ 7654321 }
    ensures fields { MAX_WASM_STRUCT_FIELDS ≡ 10000 }
    ensures catches { MAX_WASM_CATCHES ≡ 10000 }
    ensures subtyping_depth { MAX_WASM_SUBTYPING_DEPTH ≡ 63 }
    ensures handlers { MAX_WASM_HANDLERS ≡ 10000 }
    ensures type_size { MAX_WASM_TYPE_SIZE ≡ 1000000 }
    ensures select_results { MAX_WASM_SELECT_RESULT_SIZE ≡ 10 }
    ensures modules { MAX_WASM_MODULES_AND_COMPONENTS ≡ 1000 }
    ensures page { DEFAULT_WASM_PAGE_SIZE ≡ 65536 }
{}
