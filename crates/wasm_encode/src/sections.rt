// Sections of counted items.
ghost use Rattle.std.specs.Prelude.{◌≡◌, ℕ, ◌+◌, ◌<◌, ◌≤◌, ◌^◌, ◌++◌, ◌↔◌, All, IsTrue, drop, length, take};
ghost use Rattle.wasm_encode.specs.Sections.{IsReadBack, ItemsBack, ListFits, SectionFits, content_bytes, items_bytes, number_section_bytes, section_bytes};

use crate::bytes::write_byte;
use crate::encode::Encode;
use crate::fitting::items_fit;
use crate::number::{unsigned_len, write_unsigned};

// The most bytes of a section's content, and one more.
const SECTION_BOUND: usize = 1 << 32;

// Writes items, one after the other, at the index `at`, and returns the index after them.
pub(crate) fn write_items<T: Encode>(bytes: &mut [u8], at: usize, items: &[T]) -> usize
    requires fits { All T.is_encodable items.now }
    requires room { at + length (items_bytes T.encoded items.now) ≤ length bytes.old }
    ensures end { result ≡ at + length (items_bytes T.encoded items.now) }
    ensures written { take result bytes.new ≡ take at bytes.old ++ items_bytes T.encoded items.now }
    ensures rest { drop result bytes.new ≡ drop result bytes.old }
    ensures len { length bytes.new ≡ length bytes.old }
{
    let mut end = at;
    'items: for item in items {
        end = item.encode_at(bytes, end);
    }
    end
}

/// Each item of a section whose items fit is read as itself, wherever it is. Does nothing.
pub fn items_read_back<T: Encode>(items: &[T])
    requires { All T.is_encodable items.now }
    // Proved: each item of a section that was written is read as itself, wherever it is
    ensures { All (IsReadBack T.meaning T.encoded T.is_allowed T.placed) items.now }
{
    'items: for item in items {
        item.reads_back();
    }
}

// Returns how many bytes items have, which are fewer than 2^32.
pub(crate) fn items_len<T: Encode>(items: &[T]) -> usize
    requires fits { All T.is_encodable items.now }
    requires short { length (items_bytes T.encoded items.now) < 2 ^ 32 }
    ensures { result ≡ length (items_bytes T.encoded items.now) }
{
    let mut size = 0;
    'items: for item in items {
        size += item.encoded_len();
    }
    size
}

// Returns how many bytes a list has: how many items it has, and the items.
pub(crate) fn content_len<T: Encode>(items: &[T]) -> usize
    requires fits { All T.is_encodable items.now }
    requires short { length (content_bytes T.encoded items.now) < 2 ^ 32 }
    ensures { result ≡ length (content_bytes T.encoded items.now) }
{
    unsigned_len(items.len() as u64) + items_len(items)
}

// Writes a list at the index `at`: how many items it has, and the items. Returns the index after it.
#[tactic(auto, using(crate::proofs::RestStays::stays_on))]
pub(crate) fn write_content<T: Encode>(bytes: &mut [u8], at: usize, items: &[T]) -> usize
    requires fits { All T.is_encodable items.now }
    requires room { at + length (content_bytes T.encoded items.now) ≤ length bytes.old }
    ensures end { result ≡ at + length (content_bytes T.encoded items.now) }
    ensures written { take result bytes.new ≡ take at bytes.old ++ content_bytes T.encoded items.now }
    ensures rest { drop result bytes.new ≡ drop result bytes.old }
    ensures len { length bytes.new ≡ length bytes.old }
{
    let after_count = write_unsigned(bytes, at, items.len() as u64);
    write_items(bytes, after_count, items)
}

// Returns whether items can be written as a list: each fits, and the count and the items have fewer bytes than a bound.
#[tactic(auto, using(crate::proofs::Numbers::septets_few, crate::proofs::SectionsBack::content_longer))]
pub(crate) fn list_fits<T: Encode>(bound: usize, items: &[T]) -> bool
    requires some { 10 < bound }
    requires most { bound ≤ 2 ^ 32 }
    ensures { IsTrue result ↔ ListFits bound T.encoded T.is_encodable items.now }
{
    if items.len() > u32::MAX as usize {
        return false;
    }
    items_fit(items, unsigned_len(items.len() as u64), bound)
}

/// Returns whether items can be written as a section: each fits, they are fewer than 2^32, and so are the bytes of the
/// content.
///
/// ```rattle
/// assert!(rt; section_fits(&[TypeRef::Func(5)]));
/// ```
pub fn section_fits<T: Encode>(items: &[T]) -> bool
    // Proved: whether items can be written as a section: each can, and their number and the length
    //   of the content are `u32`
    ensures { IsTrue result ↔ SectionFits T.encoded T.is_encodable items.now }
{
    list_fits(SECTION_BOUND, items)
}

/// Returns how many bytes `write_section` writes of a section, with its id and its length.
///
/// The items must fit (`section_fits`).
///
/// ```rattle
/// let exports = [Export { name: "run", kind: ExternalKind::Func, index: 2 }];
/// assert_eq!(rt; section_len(&exports), 9);
/// ```
///
/// (Core specification, Binary format, Modules, Sections.)
#[tactic(auto, using(crate::proofs::Numbers::septets_few))]
pub fn section_len<T: Encode>(items: &[T]) -> usize
    requires { SectionFits T.encoded T.is_encodable items.now }
    // Proved: `section_len` is how many bytes `write_section` writes
    ensures { result ≡ length (section_bytes T.encoded 0 items.now) }
{
    let size = content_len(items);
    1 + unsigned_len(size as u64) + size
}

/// Writes a section of counted items: its id, its length, the number of items, and the items.
///
/// Writes at the index `at`, where there must be room for it, and returns the index after it. The items must fit
/// (`section_fits`).
///
/// ```rattle
/// let tags = [TagType { kind: TagKind::Exception, func_type_idx: 3 }];
/// let mut bytes = [0; 5];
/// write_section(&mut bytes, 0, 13, &tags);
/// assert_eq!(rt; &bytes, b"\x0d\x03\x01\0\x03");
/// ```
///
/// (Core specification, Binary format, Modules, Sections.)
#[tactic(auto, using(crate::proofs::RestStays::stays_on))]
pub fn write_section<T: Encode>(bytes: &mut [u8], at: usize, id: u8, items: &[T]) -> usize
    requires fits { SectionFits T.encoded T.is_encodable items.now }
    requires room { at + length (section_bytes T.encoded id items.now) ≤ length bytes.old }
    ensures end { result ≡ at + length (section_bytes T.encoded id items.now) }
    // Proved: a section is written as its id, its length, its count and its items, and no byte
    //   before or after it changes [`written`, `rest` of `write_section` (`section_bytes`)]
    ensures written { take result bytes.new ≡ take at bytes.old ++ section_bytes T.encoded id items.now }
    ensures rest { drop result bytes.new ≡ drop result bytes.old }
    ensures len { length bytes.new ≡ length bytes.old }
{
    let after_id = write_byte(bytes, at, id);
    let after_size = write_unsigned(bytes, after_id, content_len(items) as u64);
    write_content(bytes, after_size, items)
}

/// Returns how many bytes `write_number_section` writes of a section, with its id and its length.
///
/// ```rattle
/// assert_eq!(rt; number_section_len(127), 3);
/// assert_eq!(rt; number_section_len(128), 4);
/// ```
#[tactic(auto, using(crate::proofs::Numbers::septets_few))]
pub fn number_section_len(number: u32) -> usize
    // Proved: `number_section_len` is how many bytes `write_number_section` writes
    ensures { result ≡ length (number_section_bytes 0 number) }
{
    let size = unsigned_len(u64::from(number));
    1 + unsigned_len(size as u64) + size
}

/// Writes a section that is one number, as the start section and the data count section are: its id, its length, and the
/// number.
///
/// Writes at the index `at`, where there must be room for it, and returns the index after it.
///
/// ```rattle
/// let mut bytes = [0; 4];
/// write_number_section(&mut bytes, 0, 8, 300);
/// assert_eq!(rt; &bytes, b"\x08\x02\xac\x02");
/// ```
///
/// (Core specification, Binary format, Modules, Start Section and Data Count Section.)
#[tactic(auto, using(crate::proofs::RestStays::stays_on))]
pub fn write_number_section(bytes: &mut [u8], at: usize, id: u8, number: u32) -> usize
    requires { at + length (number_section_bytes id number) ≤ length bytes.old }
    ensures end { result ≡ at + length (number_section_bytes id number) }
    // Proved: a section that is one number is written as its id, its length and the number, and no
    //   byte before or after it changes [`written`, `rest` of `write_number_section`
    //   (`number_section_bytes`)]
    ensures written { take result bytes.new ≡ take at bytes.old ++ number_section_bytes id number }
    ensures rest { drop result bytes.new ≡ drop result bytes.old }
    ensures len { length bytes.new ≡ length bytes.old }
{
    let after_id = write_byte(bytes, at, id);
    let size = unsigned_len(u64::from(number));
    let after_size = write_unsigned(bytes, after_id, size as u64);
    write_unsigned(bytes, after_size, u64::from(number))
}

/// The content of a section, at any offset, is read as its count and exactly these items, by readers with features that
/// allow each. Does nothing.
pub fn section_reads_back<T: Encode>(items: &[T])
    requires fits { All T.is_encodable items.now }
    requires few { length items.now < 2 ^ 32 }
    // Proved: the content of a section that was written, at any offset, is read as exactly the given
    //   items, for items of any type
    ensures { (features offset : ℕ) → All (T.is_allowed features) items.now
        → ItemsBack T.meaning features offset T.encoded (T.placed features) items.now }
{
    items_read_back(items)
}
