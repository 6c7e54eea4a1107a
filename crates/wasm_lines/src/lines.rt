// The texts of a listing.
ghost use Rattle.std.specs.List.{list_any};
ghost use Rattle.std.specs.Prelude.{◌≡◌, ◌≤◌, ◌+◌, ◌++◌, codes, false, length, nat_eq, take};
ghost use Rattle.wasm_frames.specs.SkipNext.{skip_is};
ghost use Rattle.wasm_base.specs.FaultAt.{fault_at};
ghost use Rattle.wasm_grammar.specs.Content.{fault};
ghost use Rattle.wasm_grammar.specs.Reading.{code_start, stream_end};
ghost use Rattle.wasm_lines.specs.Listing.{encoding_name as name_of, field, fault_number, offset_field, report_text, skip_text};

use std::ops::Range;
use wasm_base::Error;
use wasm_frames::{Frame, FrameKind, PartHead, SkippedPart};
use wasm_grammar::Encoding;
use wasm_io::{Base, ShortText, write_number, write_offset, write_word};

/// Returns the name of an encoding in listings: `module` or `component`.
pub fn encoding_name(encoding: Encoding) -> &'static str
    ensures name { result.now ≡ name_of encoding }
    ensures short { length result.now ≤ 9 }
    ensures one_line { list_any (λ b. nat_eq b 10) result.now ≡ false }
{
    match encoding {
        Encoding::Module => "module",
        Encoding::Component => "component",
    }
}

// Writes a blank and a number.
#[inline(always)]
fn write_field(bytes: &mut [u8], at: usize, number: u64) -> usize
    requires { at + 21 ≤ length bytes.old }
    ensures short { result ≤ at + 21 }
    ensures written { take result bytes.new ≡ take at bytes.old ++ field number }
{
    let after = write_word(bytes, at, " ");
    write_number(bytes, after, number)
}

// Writes a blank and an offset.
#[inline(always)]
fn write_place(bytes: &mut [u8], at: usize, base: Base, offset: u64) -> usize
    requires { at + 21 ≤ length bytes.old }
    ensures short { result ≤ at + 21 }
    ensures written { take result bytes.new ≡ take at bytes.old ++ offset_field base offset }
{
    let after = write_word(bytes, at, " ");
    write_offset(bytes, after, base, offset)
}

// Writes a word, a range and a number.
#[inline(always)]
fn write_range(
    bytes: &mut [u8],
    at: usize,
    base: Base,
    word: &str,
    range: &Range<u64>,
    number: u64,
) -> usize
    requires word { length word.now ≤ 9 }
    requires room { at + 72 ≤ length bytes.old }
    ensures short { result ≤ at + 72 }
    ensures written { take result bytes.new ≡ take at bytes.old ++ (word.now
        ++ (offset_field base range.now.start ++ (offset_field base range.now.end ++ field number))) }
{
    let at = write_word(bytes, at, word);
    let at = write_place(bytes, at, base, range.start);
    let at = write_place(bytes, at, base, range.end);
    write_field(bytes, at, number)
}

/// Writes the line of a section that begins with a count, as `FrameLine` does.
#[inline(always)]
pub fn write_counted(
    bytes: &mut [u8],
    at: usize,
    base: Base,
    id: u8,
    range: &Range<u64>,
    count: u32,
) -> usize
    requires { at + 100 ≤ length bytes.old }
    ensures short { result ≤ at + 100 }
    ensures written { take result bytes.new ≡ take at bytes.old
        ++ (codes "section" ++ (field id ++ ((offset_field base range.now.start
        ++ offset_field base range.now.end) ++ field count))) }
{
    let at = write_word(bytes, at, "section");
    let at = write_field(bytes, at, u64::from(id));
    let at = write_place(bytes, at, base, range.start);
    let at = write_place(bytes, at, base, range.end);
    write_field(bytes, at, u64::from(count))
}

/// Writes the line of the start of a code section, as `FrameLine` does.
#[tactic(auto, unfolding(crate::specs::Listing::report_text))]
pub fn write_code(
    bytes: &mut [u8],
    at: usize,
    base: Base,
    range: &Range<u64>,
    count: u32,
    size: u32,
) -> usize
    requires { at + 100 ≤ length bytes.old }
    ensures short { result ≤ at + 100 }
    ensures written { take result bytes.new ≡ take at bytes.old
        ++ report_text base (code_start count range.now.start range.now.end size) }
{
    let at = write_word(bytes, at, "code");
    let at = write_place(bytes, at, base, range.start);
    let at = write_place(bytes, at, base, range.end);
    let at = write_field(bytes, at, u64::from(count));
    write_field(bytes, at, u64::from(size))
}

/// Writes the line of a header, as `FrameLine` does.
pub fn write_version(
    bytes: &mut [u8],
    at: usize,
    base: Base,
    version: u16,
    encoding: Encoding,
    range: &Range<u64>,
) -> usize
    requires { at + 100 ≤ length bytes.old }
    ensures short { result ≤ at + 100 }
    ensures written { take result bytes.new ≡ take at bytes.old ++ (codes "version"
        ++ (offset_field base range.now.start ++ (offset_field base range.now.end
        ++ (field version ++ (codes " " ++ name_of encoding))))) }
{
    let at = write_range(bytes, at, base, "version", range, u64::from(version));
    let at = write_word(bytes, at, " ");
    write_word(bytes, at, encoding_name(encoding))
}

/// Writes the line of a start section, as `FrameLine` does.
pub fn write_start(bytes: &mut [u8], at: usize, base: Base, range: &Range<u64>, func: u32) -> usize
    requires { at + 100 ≤ length bytes.old }
    ensures short { result ≤ at + 100 }
    ensures written { take result bytes.new ≡ take at bytes.old ++ (codes "start"
        ++ (offset_field base range.now.start ++ (offset_field base range.now.end ++ field func))) }
{
    write_range(bytes, at, base, "start", range, u64::from(func))
}

/// Writes the line of a data count section, as `FrameLine` does.
pub fn write_data_count(
    bytes: &mut [u8],
    at: usize,
    base: Base,
    range: &Range<u64>,
    count: u32,
) -> usize
    requires { at + 100 ≤ length bytes.old }
    ensures short { result ≤ at + 100 }
    ensures written { take result bytes.new ≡ take at bytes.old ++ (codes "datacount"
        ++ (offset_field base range.now.start ++ (offset_field base range.now.end ++ field count))) }
{
    write_range(bytes, at, base, "datacount", range, u64::from(count))
}

/// Writes the line of a body, as `FrameLine` does.
#[inline(always)]
pub fn write_body(bytes: &mut [u8], at: usize, base: Base, range: &Range<u64>) -> usize
    requires { at + 100 ≤ length bytes.old }
    ensures short { result ≤ at + 100 }
    ensures written { take result bytes.new ≡ take at bytes.old
        ++ (codes "body" ++ (offset_field base range.now.start ++ offset_field base range.now.end)) }
{
    let at = write_word(bytes, at, "body");
    let at = write_place(bytes, at, base, range.start);
    write_place(bytes, at, base, range.end)
}

/// Writes the line of a custom section, as `FrameLine` does.
#[inline(always)]
pub fn write_custom(
    bytes: &mut [u8],
    at: usize,
    base: Base,
    range: &Range<u64>,
    data_offset: u64,
) -> usize
    requires { at + 100 ≤ length bytes.old }
    ensures short { result ≤ at + 100 }
    ensures written { take result bytes.new ≡ take at bytes.old ++ (codes "custom"
        ++ ((offset_field base range.now.start ++ offset_field base range.now.end)
        ++ offset_field base data_offset)) }
{
    let at = write_word(bytes, at, "custom");
    let at = write_place(bytes, at, base, range.start);
    let at = write_place(bytes, at, base, range.end);
    write_place(bytes, at, base, data_offset)
}

/// Writes the line of an unknown section, as `FrameLine` does.
#[inline(always)]
pub fn write_unknown(bytes: &mut [u8], at: usize, base: Base, id: u8, range: &Range<u64>) -> usize
    requires { at + 100 ≤ length bytes.old }
    ensures short { result ≤ at + 100 }
    ensures written { take result bytes.new ≡ take at bytes.old ++ (codes "unknown"
        ++ (field id ++ (offset_field base range.now.start ++ offset_field base range.now.end))) }
{
    let at = write_word(bytes, at, "unknown");
    let at = write_field(bytes, at, u64::from(id));
    let at = write_place(bytes, at, base, range.start);
    write_place(bytes, at, base, range.end)
}

/// Writes the line of the end, as `FrameLine` does.
pub fn write_end(bytes: &mut [u8], at: usize, base: Base, offset: u64) -> usize
    requires { at + 100 ≤ length bytes.old }
    ensures short { result ≤ at + 100 }
    ensures written { take result bytes.new ≡ take at bytes.old
        ++ (codes "end" ++ offset_field base offset) }
{
    let at = write_word(bytes, at, "end");
    write_place(bytes, at, base, offset)
}

// Writes the line of a frame.
#[inline(always)]
#[tactic(auto, unfolding(crate::specs::Listing::report_text))]
fn write_frame(bytes: &mut [u8], at: usize, base: Base, frame: &Frame<'_>) -> usize
    requires { at + 100 ≤ length bytes.old }
    ensures short { result ≤ at + 100 }
    ensures written { take result bytes.new ≡ take at bytes.old ++ report_text base frame.now }
{
    let range = frame.range();
    match frame.kind() {
        FrameKind::Body => write_body(bytes, at, base, &range),
        FrameKind::Custom => write_custom(bytes, at, base, &range, frame.data_offset()),
        FrameKind::Items => write_counted(bytes, at, base, frame.id(), &range, frame.count()),
        FrameKind::Unknown => write_unknown(bytes, at, base, frame.id(), &range),
        FrameKind::Header => {
            write_version(bytes, at, base, frame.version(), frame.encoding(), &range)
        }
        FrameKind::Start => write_start(bytes, at, base, &range, frame.count()),
        FrameKind::DataCount => write_data_count(bytes, at, base, &range, frame.count()),
        FrameKind::CodeStart => { write_code(bytes, at, base, &range, frame.count(), frame.size()) }
        FrameKind::End => write_end(bytes, at, base, range.start),
    }
}

// Writes the line of a part that was skipped.
fn write_skipped(bytes: &mut [u8], at: usize, base: Base, part: &SkippedPart<'_>) -> usize
    requires { at + 100 ≤ length bytes.old }
    ensures short { result ≤ at + 100 }
    ensures written { take result bytes.new ≡ take at bytes.old
        ++ skip_text base (skip_is part.now) }
{
    match &part.head {
        PartHead::Custom { data_offset, .. } => {
            write_custom(bytes, at, base, &part.range, *data_offset)
        }
        PartHead::Items { id, count } => write_counted(bytes, at, base, *id, &part.range, *count),
        PartHead::Unknown { id } => write_unknown(bytes, at, base, *id, &part.range),
        PartHead::Body => write_body(bytes, at, base, &part.range),
    }
}

// Writes the number of a fault, if it has one.
fn write_fault_number(bytes: &mut [u8], at: usize, number: Option<u64>) -> usize
    requires { at + 22 ≤ length bytes.old }
    ensures short { result ≤ at + 22 }
    ensures written { take result bytes.new ≡ take at bytes.old ++ fault_number number }
{
    match number {
        Some(number) => {
            let at = write_word(bytes, at, ": ");
            write_number(bytes, at, number)
        }
        None => at,
    }
}

// Writes the line of a fault: `fault`, the offset, the message, and the number if there is one.
#[tactic(auto, unfolding(crate::specs::Listing::report_text))]
fn write_fault(bytes: &mut [u8], at: usize, base: Base, error: &Error) -> usize
    requires { at + 159 ≤ length bytes.old }
    ensures short { result ≤ at + 159 }
    ensures written { take result bytes.new ≡ take at bytes.old
        ++ report_text base (stream_end (fault (fault_at error.now))) }
{
    let at = write_word(bytes, at, "fault");
    let at = write_place(bytes, at, base, error.offset());
    let at = write_word(bytes, at, " ");
    let at = write_word(bytes, at, error.message());
    write_fault_number(bytes, at, error.number())
}

/// The line of a frame, without its line feed.
///
/// ```rattle
/// let mut bytes = [0; TEXT_BYTES];
/// let mut parser = StoredParser::new(0);
/// match parser.next(b"\0asm\x01\0\0\0", true) {
///     NextFrame::Parsed { frame, .. } => {
///         let line = FrameLine { base: Base::Decimal, frame: &frame };
///         let end = line.write_at(&mut bytes, 0);
///         assert_eq!(rt; &bytes[..end], b"version 0 8 1 module".as_slice());
///     }
///     _ => assert!(rt; false),
/// }
/// ```
#[derive(Clone, Copy)]
pub struct FrameLine<'a, 'b> {
    /// The base of the offsets.
    pub base: Base,
    /// The frame.
    pub frame: &'a Frame<'b>,
}

impl ShortText for FrameLine<'_, '_> {
    ghost use Rattle.wasm_lines.specs.Listing.{report_text};

    ghost text = { λ line. report_text line.base line.frame.now };

    #[inline(always)]
    fn write_at(&self, bytes: &mut [u8], at: usize) -> usize {
        write_frame(bytes, at, self.base, self.frame)
    }
}

/// The line of a part that was skipped, without its line feed: that of the frame that it would have been.
#[derive(Clone, Copy)]
pub struct SkippedLine<'a, 'b> {
    /// The base of the offsets.
    pub base: Base,
    /// The part.
    pub part: &'a SkippedPart<'b>,
}

impl ShortText for SkippedLine<'_, '_> {
    ghost use Rattle.wasm_frames.specs.SkipNext.{skip_is};
    ghost use Rattle.wasm_lines.specs.Listing.{skip_text};

    ghost text = { λ line. skip_text line.base (skip_is line.part.now) };

    #[inline(always)]
    fn write_at(&self, bytes: &mut [u8], at: usize) -> usize {
        write_skipped(bytes, at, self.base, self.part)
    }
}

/// The line of the fault at which a stream ends, without its line feed: `fault`, the offset, the message, and the number
/// if there is one.
///
/// ```rattle
/// let mut bytes = [0; TEXT_BYTES];
/// let line = FaultLine { base: Base::Hexadecimal, error: &Error::new(Fault::BadMagic, 16) };
/// let end = line.write_at(&mut bytes, 0);
/// assert!(rt; bytes[..end].starts_with(b"fault 0x10 magic header not detected"));
/// ```
#[derive(Clone, Copy)]
pub struct FaultLine<'a> {
    /// The base of the offset.
    pub base: Base,
    /// The fault.
    pub error: &'a Error,
}

impl ShortText for FaultLine<'_> {
    ghost use Rattle.wasm_base.specs.FaultAt.{fault_at};
    ghost use Rattle.wasm_grammar.specs.Content.{fault};
    ghost use Rattle.wasm_grammar.specs.Reading.{stream_end};
    ghost use Rattle.wasm_lines.specs.Listing.{report_text};

    ghost text = { λ line. report_text line.base (stream_end (fault (fault_at line.error.now))) };

    #[inline(always)]
    fn write_at(&self, bytes: &mut [u8], at: usize) -> usize {
        write_fault(bytes, at, self.base, self.error)
    }
}
