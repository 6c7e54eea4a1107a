// Subsections of the custom sections `name`, `linking` and `dylink.0`.
ghost use Rattle.std.specs.Prelude.{◌≡◌, ◌+◌, ◌≤◌, ◌++◌, drop, length, take};
ghost use Rattle.wasm_encode.specs.Sections.{SectionFits};
ghost use Rattle.wasm_encode.specs.Subsections.{ItemReadsBack, ListReadsBack, SubsectionsReadBack, subsection_bytes};
ghost use Rattle.wasm_encode.specs.Subsections.{subsection_size};

use crate::bytes::write_byte;
use crate::encode::Encode;
use crate::number::{unsigned_len, write_unsigned};
use crate::sections::section_reads_back;
use wasm_base::Subsection;

/// Returns how many bytes `write_subsection` writes of a subsection that is one item, with its id and its size.
///
/// The item must fit (`Encode::fits`). A subsection of counted items has as many bytes as a section of them
/// (`section_len`).
///
/// ```rattle
/// assert_eq!(rt; subsection_len(&"app"), 6);
/// ```
///
/// (Core specification, Appendix, Custom Sections, Name Section, Subsections.)
#[tactic(auto, using(crate::proofs::Numbers::septets_few))]
pub fn subsection_len<T: Encode>(item: &T) -> usize
    requires { T.is_encodable item.now }
    // Proved: `subsection_len` is how many bytes `write_subsection` writes
    ensures { result ≡ subsection_size (T.encoded item.now) }
{
    let size = item.encoded_len();
    1 + unsigned_len(size as u64) + size
}

/// Writes a subsection that is one item: its id, its size, and the item.
///
/// Writes at the index `at`, where there must be room for it, and returns the index after it. The item must fit
/// (`Encode::fits`). `write_section` writes a subsection of counted items, because it is framed as a section is.
///
/// ```rattle
/// // The name of the module.
/// let mut bytes = [0; 6];
/// write_subsection(&mut bytes, 0, 0, &"app");
/// assert_eq!(rt; &bytes, b"\0\x04\x03app");
/// ```
///
/// (Core specification, Appendix, Custom Sections, Name Section, Subsections.)
#[tactic(auto, using(crate::proofs::RestStays::stays_on))]
pub fn write_subsection<T: Encode>(bytes: &mut [u8], at: usize, id: u8, item: &T) -> usize
    requires fits { T.is_encodable item.now }
    requires room { at + length (subsection_bytes id (T.encoded item.now)) ≤ length bytes.old }
    ensures end { result ≡ at + length (subsection_bytes id (T.encoded item.now)) }
    // Proved: a subsection that is one item is written as its id, its size and the item, and no byte before or after it
    //   changes [`written`, `rest` of `write_subsection` (`subsection_bytes`)]
    ensures written { take result bytes.new ≡ take at bytes.old
        ++ subsection_bytes id (T.encoded item.now) }
    ensures rest { drop result bytes.new ≡ drop result bytes.old }
    ensures len { length bytes.new ≡ length bytes.old }
{
    let after_id = write_byte(bytes, at, id);
    let after_size = write_unsigned(bytes, after_id, item.encoded_len() as u64);
    item.encode_at(bytes, after_size)
}

/// A subsection that is one item is read as its id and a window, whatever comes after it, and the window as exactly the
/// item. Does nothing.
pub fn subsection_reads_back<T: Encode>(item: &T)
    requires { T.is_encodable item.now }
    // Proved: a subsection that is one item and was written is read as its id and a window, and the window is read as
    //   exactly the item
    ensures { ItemReadsBack T.meaning T.is_allowed T.encoded T.placed item.now }
{
    let _size = item.encoded_len();
    item.reads_back();
}

/// A section of counted items, with an id below 128, is also a subsection: it is read as its id and a window, whatever
/// comes after it, and the window as exactly these items. Does nothing.
pub fn list_subsection_reads_back<T: Encode>(items: &[T])
    requires { SectionFits T.encoded T.is_encodable items.now }
    // Proved: a subsection of counted items that was written, by `write_section`, is read as its id and a window, and
    //   the window as exactly the given items, for items of any type
    ensures { ListReadsBack T.meaning T.is_allowed T.encoded T.placed items.now }
{
    section_reads_back(items)
}

/// Subsections that were written one after the other are read as each of them, in order, for any kind of subsections.
/// Does nothing.
pub fn subsections_read_back<'a, T: Subsection<'a>>()
    // Proved: the subsections of bytes that were written one after the other, which `Subsections` returns, are what the
    //   id and the window of each one mean, in order
    ensures { SubsectionsReadBack T.meaning }
{}
