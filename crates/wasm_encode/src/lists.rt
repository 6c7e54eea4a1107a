// Lists: those inside items, which are written by their bytes, and those of given items.
ghost use Rattle.std.specs.Prelude.{◌≡◌, ◌+◌, ◌≤◌, ◌<◌, ◌^◌, ◌++◌, ◌↔◌, IsTrue, drop, length, take};
ghost use Rattle.wasm_base.specs.Inner.{all_skipped_at};
ghost use Rattle.wasm_base.specs.Outcome.{GivesBy};
ghost use Rattle.wasm_encode.specs.Lists.{IsList, list_bytes};
ghost use Rattle.wasm_encode.specs.Sections.{SectionFits, content_bytes};

use crate::bytes::write_bytes;
use crate::encode::Encode;
use crate::number::{unsigned_len, write_unsigned};
use crate::sections::{content_len, write_content};
use wasm_base::{BinaryReader, Result, SectionLimited, SkipItem};

// Skips `count` items, one after the other.
fn skip_items<'a, T: SkipItem<'a>>(count: u32, reader: &mut BinaryReader<'a>) -> Result<()>
    ensures { GivesBy (λ nothing. nothing) result reader.old reader.new
        (all_skipped_at T.skipped_at count) }
{
    'items: for _ in 0..count {
        T::skip_item(reader)?;
    }
    Ok(())
}

/// Returns whether a list has as many items as it announces, and nothing after them.
pub(crate) fn is_list<'a, T: SkipItem<'a>>(list: &SectionLimited<'a, T>) -> bool
    ensures { IsTrue result ↔ IsList T.skipped_at list.now }
{
    let mut reader = list.get_binary_reader();
    match skip_items::<T>(list.count(), &mut reader) {
        Ok(()) => reader.eof(),
        Err(_) => false,
    }
}

/// Returns how many bytes a list has: its count and its items.
#[tactic(auto, using(crate::proofs::Numbers::septets_few))]
pub(crate) fn copied_len<T>(list: &SectionLimited<'_, T>) -> usize
    ensures len { result ≡ length (list_bytes list.now) }
    ensures most { result < 2 ^ 63 + 10 }
{
    unsigned_len(u64::from(list.count())) + list.get_binary_reader().remaining_buffer().len()
}

/// Writes a list at the index `at`, its count and its items, and returns the index after it.
#[tactic(auto, using(crate::proofs::RestStays::stays_on))]
pub(crate) fn write_copied<T>(bytes: &mut [u8], at: usize, list: &SectionLimited<'_, T>) -> usize
    requires { at + length (list_bytes list.now) ≤ length bytes.old }
    ensures end { result ≡ at + length (list_bytes list.now) }
    ensures written { take result bytes.new ≡ take at bytes.old ++ list_bytes list.now }
    ensures rest { drop result bytes.new ≡ drop result bytes.old }
    ensures len { length bytes.new ≡ length bytes.old }
{
    let after_count = write_unsigned(bytes, at, u64::from(list.count()));
    write_bytes(
        bytes,
        after_count,
        list.get_binary_reader().remaining_buffer(),
    )
}

/// Returns how many bytes `write_list` writes of a list. The items must fit (`section_fits`).
///
/// ```rattle
/// let features = [TargetFeature { prefix: b'+', name: "simd128" }];
/// assert!(rt; section_fits(&features));
/// assert_eq!(rt; list_len(&features), 10);
/// ```
///
/// (Core specification, Binary format, Conventions, Lists.)
pub fn list_len<T: Encode>(items: &[T]) -> usize
    requires { SectionFits T.encoded T.is_encodable items.now }
    // Proved: `list_len` is how many bytes `write_list` writes
    ensures { result ≡ length (content_bytes T.encoded items.now) }
{
    content_len(items)
}

/// Writes a list: how many items it has, and the items. It is the data of a custom section that has counted items, such
/// as `producers`.
///
/// Writes at the index `at`, where there must be room for it, and returns the index after it. The items must fit
/// (`section_fits`).
///
/// ```rattle
/// let features = [TargetFeature { prefix: b'+', name: "simd128" }];
/// assert!(rt; section_fits(&features));
/// let mut bytes = [0; 10];
/// write_list(&mut bytes, 0, &features);
/// assert_eq!(rt; &bytes, b"\x01+\x07simd128");
/// ```
///
/// (Core specification, Binary format, Conventions, Lists.)
pub fn write_list<T: Encode>(bytes: &mut [u8], at: usize, items: &[T]) -> usize
    requires fits { SectionFits T.encoded T.is_encodable items.now }
    requires room { at + length (content_bytes T.encoded items.now) ≤ length bytes.old }
    ensures end { result ≡ at + length (content_bytes T.encoded items.now) }
    // Proved: a list is written as its count and its items, and no byte before or after it changes [`written`, `rest`
    //   of `write_list` (`content_bytes`)]
    ensures written { take result bytes.new ≡ take at bytes.old ++ content_bytes T.encoded items.now }
    ensures rest { drop result bytes.new ≡ drop result bytes.old }
    ensures len { length bytes.new ≡ length bytes.old }
{
    write_content(bytes, at, items)
}
