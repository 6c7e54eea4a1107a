// What a part is made of: a header; the head of a section or body, which comes before its content; the content of a section.
ghost use Rattle.std.specs.Prelude.{◌≡◌, ◌+◌, ◌<◌, ◌&&◌, not, length, nat_lt, ◌^◌, option_to_list};
ghost use Rattle.wasm_base.specs.Hints.{Hints, HintsNothing, missing_at};
ghost use Rattle.wasm_base.specs.Outcome.{GivesBy};
ghost use Rattle.wasm_base.specs.Window.{place, KeepsWindow};
ghost use Rattle.wasm_frames.specs.Contents.{HasOwnTile, ReadsKind, ReadsAnywhere, ReadsItems, ReadsWhole};
ghost use Rattle.wasm_frames.specs.Heads.{ReadsBodyHead, ReadsHead, ReadsHeadAfterId, ReadsHeadAfterLength};
ghost use Rattle.wasm_frames.specs.ReadsPart.{is_magic_next, ReadsHeader, sized_window, is_lacking, is_miscounted as miscounted, is_other, kind_of_module, ReadsCodeStart, ReadsSingleNumber};
ghost use Rattle.wasm_frames.specs.Stored.{numbers_of};
ghost use Rattle.wasm_grammar.specs.Content.{custom, items, index, data_count, unknown, whole};
ghost use Rattle.wasm_grammar.specs.Grammar.{encoding_named as named};
ghost use Rattle.wasm_grammar.specs.KindInCode.{kind_is};
ghost use Rattle.wasm_grammar.specs.Waiting.{asked_at_section};

use crate::frame::Frame;
use crate::name::Name;
use crate::stored::StoredParser;
use wasm_base::{BinaryReader, Error, Fault, Result};
use wasm_grammar::{DATA_SECTION, Encoding, MAGIC, SectionKind, section_kind, section_rank};

// The encoding that a header's version and kind name.
fn encoding_named(version: u16, kind: u16) -> Option<Encoding>
    ensures { result ≡ named version kind }
{
    if version == 1 && kind == 0 {
        Some(Encoding::Module)
    } else if version == 13 && kind == 1 {
        Some(Encoding::Component)
    } else {
        None
    }
}

/// Reads a header. In place, like `only_u32`.
#[inline(always)]
pub(crate) fn read_header<'a>(reader: &mut BinaryReader<'a>) -> Result<Frame<'a>>
    ensures { ReadsHeader (place reader.old) result (place reader.new) }
{
    let start = reader.original_position();
    let bits = reader.read_header_version()?;
    let (num, kind) = ((bits % 65536) as u16, (bits / 65536) as u16);
    match encoding_named(num, kind) {
        Some(encoding) => Ok(Frame::header(encoding, num, start, reader.original_position())),
        None => Err(Error::new(Fault::UnknownVersion, start + 4).with_number(u64::from(bits))),
    }
}

/// Returns whether the remaining bytes begin with the magic.
pub(crate) fn magic_follows(reader: &BinaryReader) -> bool
    ensures { result ≡ is_magic_next (place reader.now) }
{
    reader.remaining_buffer().starts_with(MAGIC.as_slice())
}

/// Returns a hint of how many bytes are missing, at least, where a section may start, before the parser looks at the id.
///
/// It is 1 if there are no bytes. If the bytes may begin a second header, it is as many as the magic lacks.
pub(crate) fn missing_at_section(bytes: &[u8]) -> Option<usize>
    ensures { result ≡ asked_at_section bytes.now }
{
    if bytes.is_empty() {
        Some(1)
    } else if bytes.len() < MAGIC.len() && MAGIC.starts_with(bytes) {
        Some(MAGIC.len() - bytes.len())
    } else {
        None
    }
}

/// What comes before the content of a section.
#[derive(Clone, Copy)]
pub(crate) struct SectionHead {
    /// The form of the content.
    pub(crate) kind: SectionKind,
    /// The id of the section.
    pub(crate) id: u8,
    /// The size of the content in bytes.
    pub(crate) size: u32,
}

impl StoredParser {
    // Whether a section of this rank is out of order here: it has a rank, and that of an earlier one is no lower.
    fn is_out_of_order(&self, rank: u8) -> bool
        ensures { result ≡ (nat_lt 0 rank && not (nat_lt self.now.rank rank)) }
    {
        rank > 0 && rank <= self.rank
    }

    /// Reads the id and the length of a section, which ends within the offsets of a stream and is in order.
    #[inline(always)]
    pub(crate) fn section_head(&self, reader: &mut BinaryReader<'_>) -> Result<SectionHead>
        requires { 0 < length (place reader.old).rest }
        ensures { ReadsHead (numbers_of self.now) (place reader.old) result (place reader.new) }
    {
        let start = reader.original_position();
        if magic_follows(reader) {
            return Err(Error::new(Fault::MagicAtSection, start));
        }
        let id = reader.read_u8()?;
        self.head_after_id(start, id, reader)
    }

    // Reads the length of a section with this id, which is at this offset, just before the reader. In place, like
    // `only_u32`.
    #[inline(always)]
    fn head_after_id(
        &self,
        start: u64,
        id: u8,
        reader: &mut BinaryReader<'_>,
    ) -> Result<SectionHead>
        requires { start + 1 ≡ (place reader.old).offset }
        ensures { ReadsHeadAfterId (numbers_of self.now) start id (place reader.old) result
            (place reader.new) }
    {
        if id >= 128 {
            return Err(Error::new(Fault::MalformedSectionId, start));
        }
        let field = reader.original_position();
        let size = reader.read_var_u32()?;
        self.head_of(id, field, size, reader)
    }

    // Returns the head of a section with this id and size before its content, where the reader is. The length field is at
    // this offset.
    #[inline(always)]
    fn head_of(
        &self,
        id: u8,
        field: u64,
        size: u32,
        reader: &BinaryReader<'_>,
    ) -> Result<SectionHead>
        ensures { ReadsHeadAfterLength (numbers_of self.now) id field size (place reader.now) result }
    {
        if u64::from(size) > u64::MAX - reader.original_position() {
            return Err(Error::new(Fault::SectionTooLarge, field).with_number(u64::from(size)));
        }
        let kind = section_kind(self.encoding(), id);
        if self.is_out_of_order(section_rank(kind, id)) {
            return Err(Error::new(Fault::OutOfOrder, reader.original_position()));
        }
        Ok(SectionHead { kind, id, size })
    }

    /// Reads the size of a body, which ends within its code section.
    #[inline(always)]
    pub(crate) fn body_head(&self, reader: &mut BinaryReader<'_>) -> Result<u32>
        ensures { ReadsBodyHead (numbers_of self.now) (place reader.old) result (place reader.new) }
    {
        let start = reader.original_position();
        if self.bodies == 0 {
            return Err(Error::new(Fault::TrailingCode, start));
        }
        let size = reader.read_var_u32()?;
        if passes(self.code_bytes, reader.original_position() - start, size) {
            return Err(Error::new(Fault::UnexpectedEof, start));
        }
        Ok(size)
    }
}

// Whether a field of this width, and the bytes that it counts, exceed the remaining bytes.
fn passes(code_bytes: u32, width: u64, size: u32) -> bool
    ensures { result ≡ nat_lt code_bytes (width + size) }
{
    let left = u64::from(code_bytes);
    if width > left {
        true
    } else {
        u64::from(size) > left - width
    }
}

/// Reads content of this kind, which ends at this offset, or as much of it as there is.
///
/// The count of a data section must be the announced one, if a data count section announced one.
pub(crate) fn content<'a, For>(
    announced: Option<u32>,
    kind: SectionKind,
    id: u8,
    end: u64,
    window: BinaryReader<'a>,
) -> Result<Frame<'a>>
    requires whole { HasOwnTile (kind_is kind) id }
    requires begins { window.position ≡ 0 }
    ensures { ReadsKind announced (kind_is kind) id end window.entry result }
{
    match kind {
        SectionKind::Custom => custom::<true>(id, window),
        SectionKind::Items => items::<For>(announced, id, end, window),
        SectionKind::Index => start::<For>(id, window),
        SectionKind::DataCount => data_count::<For>(id, window),
        SectionKind::Unknown => unknown(id, window),
        SectionKind::Code => unreachable!(),
    }
}

/// Reads the content of a custom section, of this size.
// Custom and unknown sections are the most frequent ones. So these have a call of their own, without a look at the kind.
pub(crate) fn whole_custom<'a, For, const AS_TEXT: bool>(
    id: u8,
    size: u32,
    reader: &mut BinaryReader<'a>,
) -> Result<Frame<'a>>
    ensures { ReadsWhole custom id size (place reader.old) result (place reader.new) }
{
    let window = window(size, reader)?;
    custom::<AS_TEXT>(id, window)
}

/// Reads the content of an unknown section, of this size.
pub(crate) fn whole_unknown<'a, For>(
    id: u8,
    size: u32,
    reader: &mut BinaryReader<'a>,
) -> Result<Frame<'a>>
    ensures { ReadsWhole unknown id size (place reader.old) result (place reader.new) }
{
    let window = window(size, reader)?;
    unknown(id, window)
}

// Reads the content of a custom section. In place, like `only_u32`.
#[inline(always)]
fn custom<'a, const AS_TEXT: bool>(id: u8, mut window: BinaryReader<'a>) -> Result<Frame<'a>>
    requires { window.position ≡ 0 }
    ensures { ReadsAnywhere custom id window.entry result }
{
    match Name::read::<AS_TEXT>(&mut window) {
        Ok(name) => Ok(Frame::custom(name, window)),
        Err(error) => Err(error.without_needed_hint()),
    }
}

// Reads the content of a section that is a count and its items.
fn items<'a, For>(
    announced: Option<u32>,
    id: u8,
    end: u64,
    mut window: BinaryReader<'a>,
) -> Result<Frame<'a>>
    requires known { kind_of_module id ≡ whole items }
    requires begins { window.position ≡ 0 }
    ensures { ReadsItems announced id end window.entry result }
{
    let count = match window.read_var_u32() {
        Ok(count) => count,
        Err(error) => return Err(error.without_needed_hint()),
    };
    if is_miscounted(announced, id, count) {
        return Err(Error::new(Fault::DataCountDiffer, end));
    }
    Ok(Frame::items(id, count, window))
}

// Reads the content of a start section: the index of a function.
fn start<'a, For>(id: u8, window: BinaryReader<'a>) -> Result<Frame<'a>>
    requires { window.position ≡ 0 }
    ensures { ReadsAnywhere index id window.entry result }
{
    let range = window.range();
    let func = only_u32(window, Fault::StartContent)?;
    Ok(Frame::start(func, range))
}

// Reads the content of a data count section: the number of data segments.
fn data_count<'a, For>(id: u8, window: BinaryReader<'a>) -> Result<Frame<'a>>
    requires { window.position ≡ 0 }
    ensures { ReadsAnywhere data_count id window.entry result }
{
    let range = window.range();
    let count = only_u32(window, Fault::DataCountContent)?;
    Ok(Frame::data_count(count, range))
}

// Returns the content of an unknown section, which is any bytes.
#[inline(always)]
fn unknown<'a>(id: u8, window: BinaryReader<'a>) -> Result<Frame<'a>>
    requires { window.position ≡ 0 }
    ensures { ReadsAnywhere unknown id window.entry result }
{
    Ok(Frame::unknown(id, window))
}

/// Reads `size` bytes and returns them as a window of their own.
#[tactic(auto, unfolding(crate::specs::ReadsPart::sized_window))]
pub(crate) fn window<'a>(size: u32, reader: &mut BinaryReader<'a>) -> Result<BinaryReader<'a>>
    ensures gives { GivesBy (λ window. window) result reader.old reader.new (sized_window size) }
    ensures keeps { KeepsWindow reader.old reader.new }
    ensures hints { Hints (missing_at size (place reader.old)) result }
{
    let start = reader.original_position();
    let bytes = reader.read_bytes(size as usize)?;
    Ok(BinaryReader::new_features(bytes, start, reader.features()))
}

// Whether another count of data segments was announced.
fn is_miscounted(announced: Option<u32>, id: u8, count: u32) -> bool
    ensures { result ≡ miscounted (option_to_list announced) id count }
{
    id == DATA_SECTION && differs(announced, count)
}

/// Reads the start of a code section: the number of bodies, which must be the count of the function section, or 0
/// without one.
pub(crate) fn code<'a, For>(
    functions: Option<u32>,
    size: u32,
    reader: &mut BinaryReader<'a>,
) -> Result<Frame<'a>>
    requires { (place reader.old).offset + size < 2 ^ 64 }
    ensures { ReadsCodeStart functions size (place reader.old) result (place reader.new) }
{
    let start = reader.original_position();
    let end = start + u64::from(size);
    let count = reader.read_var_u32()?;
    let after = reader.original_position();
    if end < after {
        return Err(Error::new(Fault::UnexpectedEof, start));
    }
    if differs(functions, count) {
        return Err(Error::new(Fault::FunctionCodeDiffer, start));
    }
    if lacks(Some(count), functions) {
        return Err(Error::new(Fault::CodeWithoutFunction, start));
    }
    Ok(Frame::code_start(count, (end - after) as u32, start..end))
}

// Reads content that is a single number. `trailing` is the fault of bytes after it, at the first of them.
// In place: next to a call of it, LLVM moves the fields of all kinds of sections, which costs each of them ten instructions.
#[inline(always)]
fn only_u32(mut window: BinaryReader, trailing: Fault) -> Result<u32>
    ensures reads { ReadsSingleNumber trailing (place window.entry) result }
    ensures hints { HintsNothing result }
{
    let number = match window.read_var_u32() {
        Ok(number) => number,
        Err(error) => return Err(error.without_needed_hint()),
    };
    if !window.eof() {
        return Err(Error::new(trailing, window.original_position()));
    }
    Ok(number)
}

// Whether an earlier section announced another count than this.
fn differs(known: Option<u32>, count: u32) -> bool
    ensures { result ≡ is_other known count }
{
    match known {
        Some(known) => known != count,
        None => false,
    }
}

/// Returns whether a section has items, and the section that must accompany it is missing.
///
/// That is so if the section's count is known and above 0, and the other section's count is not known.
pub(crate) fn lacks(count: Option<u32>, other: Option<u32>) -> bool
    ensures { result ≡ is_lacking count other }
{
    match count {
        Some(count) => count > 0 && other.is_none(),
        None => false,
    }
}
