// What a parser says of a stream.
ghost use Rattle.std.specs.Prelude.{◌≡◌};
ghost use Rattle.wasm_frames.specs.Frame.{HoldsCount, counted_frame};
ghost use Rattle.wasm_parser.specs.ParseAnswer.{IsPayload, counted_in, report_of};
ghost use Rattle.wasm_grammar.specs.Reading.{counted};
ghost use Rattle.wasm_grammar.specs.Sections.{parts_of, section_of};

use std::fmt;
use std::ops::Range;
use wasm_base::{BinaryReader, SectionLimited};
use wasm_custom::CustomSectionReader;
use wasm_frames::{Frame, FrameKind};
use wasm_grammar::{
    CODE_SECTION, CUSTOM_SECTION, DATA_COUNT_SECTION, DATA_SECTION, ELEMENT_SECTION,
    EXPORT_SECTION, Encoding, FUNCTION_SECTION, GLOBAL_SECTION, IMPORT_SECTION, MEMORY_SECTION,
    START_SECTION, TABLE_SECTION, TAG_SECTION, TYPE_SECTION,
};
use wasm_items::{
    DataSectionReader, ElementSectionReader, ExportSectionReader, FunctionBody,
    FunctionSectionReader, GlobalSectionReader, ImportSectionReader, MemorySectionReader,
    TableSectionReader, TagSectionReader, TypeSectionReader,
};

/// One part of a stream: a header, a section, the start of a code section, a body, or the end.
///
/// Ranges and offsets count bytes from the start of the stream. Readers borrow from the parsed bytes and have the
/// parser's features. A section with a count is a `SectionLimited`: its items are read when you iterate over them.
///
/// ```rattle
/// let stream: &[u8] = b"\0asm\x01\0\0\0\x03\x02\x01\0\x0a\x04\x01\x02\0\x0b";
/// let mut bodies = 0;
/// for payload in Parser::new(0).parse_all(stream) {
///     match payload? {
///         Payload::FunctionSection(section) => assert_eq!(rt; section.count(), 1),
///         Payload::CodeSectionEntry(_) => bodies += 1,
///         _ => {}
///     }
/// }
/// assert_eq!(rt; bodies, 1);
/// ```
///
/// (Core specification, Binary format, Modules.)
#[derive(Drop)]
pub enum Payload<'a> {
    // Fields of less than eight bytes come first: so they share a word, and lie over no pointer or offset of another kind.
    /// The header: the encoding and its version.
    Version {
        /// The encoding that the header announces.
        encoding: Encoding,
        /// The 16-bit version: 1 for a module, 13 for a component.
        num: u16,
        /// The offsets of the eight bytes of the header.
        range: Range<u64>,
    },
    /// The type section.
    TypeSection(TypeSectionReader<'a>),
    /// The import section.
    ImportSection(ImportSectionReader<'a>),
    /// The function section: the type index of each function.
    FunctionSection(FunctionSectionReader<'a>),
    /// The table section.
    TableSection(TableSectionReader<'a>),
    /// The memory section.
    MemorySection(MemorySectionReader<'a>),
    /// The tag section.
    TagSection(TagSectionReader<'a>),
    /// The global section.
    GlobalSection(GlobalSectionReader<'a>),
    /// The export section.
    ExportSection(ExportSectionReader<'a>),
    /// The start section: the index of the start function.
    StartSection {
        /// The index of the start function.
        func: u32,
        /// The offsets of the section's content.
        range: Range<u64>,
    },
    /// The element section.
    ElementSection(ElementSectionReader<'a>),
    /// The data count section: the number of data segments that the data section must have.
    DataCountSection {
        /// The number of data segments.
        count: u32,
        /// The offsets of the section's content.
        range: Range<u64>,
    },
    /// The data section.
    DataSection(DataSectionReader<'a>),
    /// The start of a code section: its count. Each body is a payload of its own, `CodeSectionEntry`.
    CodeSectionStart {
        /// The number of bodies that follow.
        count: u32,
        /// The number of bytes of the section's content after the count.
        size: u32,
        /// The offsets of the section's content, including the count. The stream may end, or be malformed, within them.
        unchecked_range: Range<u64>,
    },
    /// One body of a code section.
    CodeSectionEntry(FunctionBody<'a>),
    /// A custom section.
    CustomSection(CustomSectionReader<'a>),
    /// A section with an unknown id, or any section of a component except a custom one.
    UnknownSection {
        /// The section's id, from 1 to 127.
        id: u8,
        /// The bytes of the section's content.
        contents: &'a [u8],
        /// The offsets of the section's content.
        range: Range<u64>,
    },
    /// The end of the stream, at this offset.
    End(u64),
}

/// The result of `Parser::parse` without an error: a part, or a request for more bytes.
#[derive(Debug, Drop)]
pub enum Chunk<'a> {
    /// More bytes are needed to decide what comes next. The number is a hint of how many to read, at least 1. Fewer can
    /// be enough: after a byte 0 at the start of a section, it is 3, for a header, although the byte can also begin a
    /// custom section. Nothing was consumed.
    NeedMoreData(usize),
    /// A part of the stream was consumed.
    Parsed {
        /// The number of bytes consumed: at least 1, and 0 only at the end of the stream.
        consumed: usize,
        /// The part.
        payload: Payload<'a>,
    },
}

/// A section's id, the offsets of its content in the stream, and its count if it has one.
pub type SectionParts = (u8, Range<u64>, Option<u32>);

/// A section that begins with a count of items, whatever their type: its id, count and range.
#[derive(Drop)]
pub struct CountedSection {
    /// The section's id.
    pub id: u8,
    /// The number of items that the section announces.
    pub count: u32,
    /// The offsets of the section's content in the stream, including the count.
    pub range: Range<u64>,
}

// The section with this id.
#[inline(always)]
fn counted_section<T>(id: u8, section: &SectionLimited<'_, T>) -> Option<CountedSection>
    ensures { result ≡ counted_in (counted id section.now.count section.now.reader) }
{
    Some(CountedSection {
        id,
        count: section.count(),
        range: section.range(),
    })
}

// The section with this id, count and window.
fn counted_payload<'a>(id: u8, count: u32, reader: BinaryReader<'a>) -> Payload<'a>
    requires { HoldsCount id count reader }
    ensures { IsPayload (counted_frame id count reader.entry) result }
{
    match id {
        TYPE_SECTION => Payload::TypeSection(SectionLimited::after_count(reader, count)),
        IMPORT_SECTION => Payload::ImportSection(SectionLimited::after_count(reader, count)),
        FUNCTION_SECTION => Payload::FunctionSection(SectionLimited::after_count(reader, count)),
        TABLE_SECTION => Payload::TableSection(SectionLimited::after_count(reader, count)),
        MEMORY_SECTION => Payload::MemorySection(SectionLimited::after_count(reader, count)),
        GLOBAL_SECTION => Payload::GlobalSection(SectionLimited::after_count(reader, count)),
        EXPORT_SECTION => Payload::ExportSection(SectionLimited::after_count(reader, count)),
        ELEMENT_SECTION => Payload::ElementSection(SectionLimited::after_count(reader, count)),
        DATA_SECTION => Payload::DataSection(SectionLimited::after_count(reader, count)),
        TAG_SECTION => Payload::TagSection(SectionLimited::after_count(reader, count)),
        _ => unreachable!(),
    }
}

/// Returns the payload of a frame: the same part, with readers of its items.
impl<'a> From<Frame<'a>> for Payload<'a> {
    // Proved: a payload made of a frame reports what the frame does, and its items begin after its
    //   count [`from_gives` of `Payload`]
    ghost from_gives = { λ frame payload. IsPayload frame payload };

    #[inline(always)]
    fn from(frame: Frame<'a>) -> Self {
        match frame.kind() {
            FrameKind::Body => Payload::CodeSectionEntry(FunctionBody::new(frame.into_reader())),
            FrameKind::Custom => Payload::CustomSection(CustomSectionReader::after_name(
                frame.name(),
                frame.into_reader(),
            )),
            FrameKind::Unknown => Payload::UnknownSection {
                id: frame.id(),
                range: frame.range(),
                contents: frame.into_reader().remaining_buffer(),
            },
            FrameKind::Items => counted_payload(frame.id(), frame.count(), frame.into_reader()),
            FrameKind::Header => Payload::Version {
                encoding: frame.encoding(),
                num: frame.version(),
                range: frame.range(),
            },
            FrameKind::Start => Payload::StartSection {
                func: frame.count(),
                range: frame.range(),
            },
            FrameKind::DataCount => Payload::DataCountSection {
                count: frame.count(),
                range: frame.range(),
            },
            FrameKind::CodeStart => Payload::CodeSectionStart {
                count: frame.count(),
                size: frame.size(),
                unchecked_range: frame.range(),
            },
            FrameKind::End => Payload::End(frame.range().start),
        }
    }
}

impl<'a> Payload<'a> {
    /// Returns the section that this payload is, if the section begins with a count of items.
    ///
    /// A code section is not such a section, because its bodies are payloads of their own.
    #[inline(always)]
    pub fn as_counted(&self) -> Option<CountedSection>
        ensures { result ≡ counted_in (report_of self.now) }
    {
        match self {
            Payload::TypeSection(section) => counted_section(TYPE_SECTION, section),
            Payload::ImportSection(section) => counted_section(IMPORT_SECTION, section),
            Payload::FunctionSection(section) => counted_section(FUNCTION_SECTION, section),
            Payload::TableSection(section) => counted_section(TABLE_SECTION, section),
            Payload::MemorySection(section) => counted_section(MEMORY_SECTION, section),
            Payload::TagSection(section) => counted_section(TAG_SECTION, section),
            Payload::GlobalSection(section) => counted_section(GLOBAL_SECTION, section),
            Payload::ExportSection(section) => counted_section(EXPORT_SECTION, section),
            Payload::ElementSection(section) => counted_section(ELEMENT_SECTION, section),
            Payload::DataSection(section) => counted_section(DATA_SECTION, section),
            _ => None,
        }
    }

    /// Returns the section's id and the offsets of its content, or `None` for a header, a body and the end.
    ///
    /// The content is what follows the section's length, up to the end of the section. `CodeSectionStart` stands for the
    /// whole code section.
    pub fn as_section(&self) -> Option<(u8, Range<u64>)>
        // Proved: `as_section` is the id and the offsets of the content, `section_parts` these and
        //   the count; `as_counted` is the same for a section that begins with a count of items
        //   [the clause of each]
        ensures { result ≡ section_of (report_of self.now) }
    {
        match self.section_parts() {
            Some((id, range, _)) => Some((id, range)),
            None => None,
        }
    }

    /// Returns the section's id, the offsets of its content and its count, or `None` for a header, a body and the end.
    ///
    /// The count is `None` for a start section, a custom section and an unknown one.
    ///
    /// ```rattle
    /// let mut payloads = Parser::new(0).parse_all(b"\0asm\x01\0\0\0\x01\x01\0");
    /// payloads.next();
    /// let types = payloads.next().ok_or("no section")??;
    /// assert_eq!(rt; types.section_parts(), Some((1, 10..11, Some(0))));
    /// ```
    pub fn section_parts(&self) -> Option<SectionParts>
        ensures { result ≡ parts_of (report_of self.now) }
    {
        match self {
            Payload::StartSection { range, .. } => Some((
                START_SECTION,
                range.start..range.end,
                None,
            )),
            Payload::DataCountSection { count, range } => Some((
                DATA_COUNT_SECTION,
                range.start..range.end,
                Some(*count),
            )),
            Payload::CodeSectionStart {
                count,
                unchecked_range,
                ..
            } => Some((
                CODE_SECTION,
                unchecked_range.start..unchecked_range.end,
                Some(*count),
            )),
            Payload::CustomSection(section) => Some((CUSTOM_SECTION, section.range(), None)),
            Payload::UnknownSection { id, range, .. } => Some((*id, range.start..range.end, None)),
            _ => match self.as_counted() {
                Some(section) => Some((section.id, section.range, Some(section.count))),
                None => None,
            },
        }
    }
}

// The name of a payload whose content is not printed.
fn elided(payload: &Payload) -> &'static str {
    match payload {
        Payload::TypeSection(_) => "TypeSection",
        Payload::ImportSection(_) => "ImportSection",
        Payload::FunctionSection(_) => "FunctionSection",
        Payload::TableSection(_) => "TableSection",
        Payload::MemorySection(_) => "MemorySection",
        Payload::TagSection(_) => "TagSection",
        Payload::GlobalSection(_) => "GlobalSection",
        Payload::ExportSection(_) => "ExportSection",
        Payload::ElementSection(_) => "ElementSection",
        Payload::DataSection(_) => "DataSection",
        _ => "CodeSectionEntry",
    }
}

// A payload that is a number in a range.
fn fmt_number<W: fmt::Write>(
    f: &mut fmt::Formatter<W>,
    name: &str,
    field: &str,
    number: &u32,
    range: &Range<u64>,
) -> fmt::Result {
    f.debug_struct(name)
        .field(field, number)
        .field("range", range)
        .finish()
}

impl<'a> fmt::Debug for Payload<'a> {
    fn fmt<W: fmt::Write>(&self, f: &mut fmt::Formatter<W>) -> fmt::Result {
        match self {
            Payload::Version {
                num,
                encoding,
                range,
            } => f
                .debug_struct("Version")
                .field("num", num)
                .field("encoding", encoding)
                .field("range", range)
                .finish(),
            Payload::StartSection { func, range } => {
                fmt_number(f, "StartSection", "func", func, range)
            }
            Payload::DataCountSection { count, range } => {
                fmt_number(f, "DataCountSection", "count", count, range)
            }
            Payload::CodeSectionStart {
                count,
                unchecked_range,
                size,
            } => f
                .debug_struct("CodeSectionStart")
                .field("count", count)
                .field("unchecked_range", unchecked_range)
                .field("size", size)
                .finish(),
            Payload::CustomSection(section) => f
                .debug_tuple("CustomSection")
                .field(section)
                .finish(),
            Payload::UnknownSection { id, range, .. } => f
                .debug_struct("UnknownSection")
                .field("id", id)
                .field("range", range)
                .finish(),
            Payload::End(at) => f.debug_tuple("End").field(at).finish(),
            _ => f.debug_tuple(elided(self)).field(&"...").finish(),
        }
    }
}
