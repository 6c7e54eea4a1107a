// The line of a payload in a listing.
ghost use Rattle.std.specs.Prelude.{◌≡◌, ◌≤◌, ◌+◌, ◌++◌, length, take};
ghost use Rattle.wasm_lines.specs.Listing.{report_text};
ghost use Rattle.wasm_parser.specs.ParseAnswer.{report_of};

use wasm_io::Base;
use wasm_lines::{
    write_body, write_code, write_counted, write_custom, write_data_count, write_end, write_start,
    write_unknown, write_version,
};
use wasm_parser::Payload;

/// Writes the line of a payload at the index `at` of `bytes`, with offsets in this base and without a line feed, and
/// returns the index after it.
///
/// From `at` on there must be 100 bytes. Later bytes may be overwritten.
///
/// ```rattle
/// let mut bytes = [0; 100];
/// let mut payloads = Parser::new(0).parse_all(b"\0asm\x01\0\0\0");
/// let version = payloads.next().ok_or("no header")??;
/// let end = write_payload(&mut bytes, 0, Base::Decimal, &version);
/// assert_eq!(rt; &bytes[..end], b"version 0 8 1 module".as_slice());
/// ```
#[inline(always)]
#[tactic(auto, unfolding(wasm_lines::specs::Listing::report_text))]
pub fn write_payload(bytes: &mut [u8], at: usize, base: Base, payload: &Payload) -> usize
    requires { at + 100 ≤ length bytes.old }
    ensures short { result ≤ at + 100 }
    ensures written { take result bytes.new ≡ take at bytes.old
        ++ report_text base (report_of payload.now) }
{
    match payload {
        Payload::Version {
            num,
            encoding,
            range,
        } => write_version(bytes, at, base, *num, *encoding, range),
        Payload::StartSection { func, range } => { write_start(bytes, at, base, range, *func) }
        Payload::DataCountSection { count, range } => {
            write_data_count(bytes, at, base, range, *count)
        }
        Payload::CodeSectionStart {
            count,
            unchecked_range,
            size,
        } => write_code(bytes, at, base, unchecked_range, *count, *size),
        Payload::CodeSectionEntry(body) => write_body(bytes, at, base, &body.range()),
        Payload::CustomSection(section) => {
            write_custom(bytes, at, base, &section.range(), section.data_offset())
        }
        Payload::UnknownSection { id, range, .. } => write_unknown(bytes, at, base, *id, range),
        Payload::End(offset) => write_end(bytes, at, base, *offset),
        _ => match payload.as_counted() {
            Some(section) => {
                write_counted(bytes, at, base, section.id, &section.range, section.count)
            }
            None => unreachable!(),
        },
    }
}
