// One part of a stream.
ghost use Rattle.std.specs.Prelude.{◌≡◌, ◌+◌, ◌<◌, ◌^◌};
ghost use Rattle.wasm_base.specs.Window.{place};
ghost use Rattle.wasm_frames.specs.Frame.{HoldsCount, IsPartOrEnd, IsReaderOf, StartsData, counted_frame, report_count, custom_frame, report_encoding, report_id, report_kind, report_name, no_window, report_range, report_size, unknown_frame, unread, report_version};
ghost use Rattle.wasm_grammar.specs.Content.{ended};
ghost use Rattle.wasm_grammar.specs.Reading.{version, start_section, data_count_section, code_start, code_entry, stream_end};

use crate::kind::FrameKind;
use crate::name::Name;
use std::marker::Model;
use std::ops::Range;
use wasm_base::BinaryReader;
use wasm_grammar::{CODE_SECTION, CUSTOM_SECTION, DATA_COUNT_SECTION, Encoding, START_SECTION};

/// One part of a stream: a header, a section, the start of a code section, a body, or the end.
///
/// A frame is what a parser needs to know of a part, and the part's bytes as a window. No item is read. Its fields are 0
/// or empty in a kind that does not have them.
///
/// (Core specification, Binary format, Modules.)
#[derive(Debug, Drop)]
pub struct Frame<'a> {
    // The kind has the first word for itself, so that a caller who looks at it alone moves nothing else.
    kind: FrameKind,
    start: u64,
    end: u64,
    reader: BinaryReader<'a>,
    name: Name<'a>,
    id: u8,
    encoding: Encoding,
    version: u16,
    count: u32,
    size: u32,
}

impl<'a> Model for Frame<'a> {
    ghost use Rattle.wasm_frames.specs.Frame.{HasReportFields, report_of};
    ghost use Rattle.wasm_grammar.specs.Reading.{Report};

    ghost Value = { Report };

    ghost view = { λ f. report_of (record {
      kind = f.kind;
      start = f.start;
      end = f.end;
      reader = f.reader;
      name = f.name;
      id = f.id;
      encoding = f.encoding;
      version = f.version;
      count = f.count;
      size = f.size;
    }) };

    ghost invariant = { λ f. HasReportFields (record {
      kind = f.kind;
      start = f.start;
      end = f.end;
      reader = f.reader;
      name = f.name;
      id = f.id;
      encoding = f.encoding;
      version = f.version;
      count = f.count;
      size = f.size;
    }) };
}

// A reader of no bytes, for a frame without a window.
#[inline(always)]
fn no_bytes<'a>() -> BinaryReader<'a>
    ensures { result ≡ no_window }
{
    BinaryReader::new(&[], 0)
}

impl<'a> Frame<'a> {
    /// Returns a header between these offsets.
    #[inline(always)]
    pub(crate) fn header(encoding: Encoding, num: u16, start: u64, end: u64) -> Self
        ensures { result ≡ version num encoding start end }
    {
        Frame {
            kind: FrameKind::Header,
            start,
            end,
            reader: no_bytes(),
            name: Name::none(),
            id: 0,
            encoding,
            version: num,
            count: 0,
            size: 0,
        }
    }

    /// Returns a section with this id whose content is this window, of which the count was read.
    #[inline(always)]
    pub(crate) fn items(id: u8, count: u32, reader: BinaryReader<'a>) -> Self
        requires { HoldsCount id count reader }
        ensures { result ≡ counted_frame id count reader.entry }
    {
        let Range { start, end } = reader.range();
        Frame {
            kind: FrameKind::Items,
            start,
            end,
            reader,
            name: Name::none(),
            id,
            encoding: Encoding::Module,
            version: 0,
            count,
            size: 0,
        }
    }

    /// Returns a start section with this index, between these offsets.
    pub(crate) fn start(func: u32, range: Range<u64>) -> Self
        ensures { result ≡ start_section func range.start range.end }
    {
        Frame {
            kind: FrameKind::Start,
            start: range.start,
            end: range.end,
            reader: no_bytes(),
            name: Name::none(),
            id: START_SECTION,
            encoding: Encoding::Module,
            version: 0,
            count: func,
            size: 0,
        }
    }

    /// Returns a data count section with this count, between these offsets.
    pub(crate) fn data_count(count: u32, range: Range<u64>) -> Self
        ensures { result ≡ data_count_section count range.start range.end }
    {
        Frame {
            kind: FrameKind::DataCount,
            start: range.start,
            end: range.end,
            reader: no_bytes(),
            name: Name::none(),
            id: DATA_COUNT_SECTION,
            encoding: Encoding::Module,
            version: 0,
            count,
            size: 0,
        }
    }

    /// Returns the start of a code section with this count, whose content lies between these offsets, `size` bytes of it
    /// after the count.
    pub(crate) fn code_start(count: u32, size: u32, range: Range<u64>) -> Self
        ensures { result ≡ code_start count range.start range.end size }
    {
        Frame {
            kind: FrameKind::CodeStart,
            start: range.start,
            end: range.end,
            reader: no_bytes(),
            name: Name::none(),
            id: CODE_SECTION,
            encoding: Encoding::Module,
            version: 0,
            count,
            size,
        }
    }

    /// Returns a body, which is this window.
    #[inline(always)]
    pub(crate) fn body(reader: BinaryReader<'a>) -> Self
        ensures { result ≡ code_entry reader.entry }
    {
        let Range { start, end } = reader.range();
        Frame {
            kind: FrameKind::Body,
            start,
            end,
            reader,
            name: Name::none(),
            id: CODE_SECTION,
            encoding: Encoding::Module,
            version: 0,
            count: 0,
            size: 0,
        }
    }

    /// Returns a custom section whose content is this window, of which the name was read.
    #[inline(always)]
    pub(crate) fn custom(name: Name<'a>, reader: BinaryReader<'a>) -> Self
        ensures { result ≡ custom_frame name.entry reader.entry }
    {
        let Range { start, end } = reader.range();
        Frame {
            kind: FrameKind::Custom,
            start,
            end,
            reader,
            name,
            id: CUSTOM_SECTION,
            encoding: Encoding::Module,
            version: 0,
            count: 0,
            size: 0,
        }
    }

    /// Returns a section with an unknown id, whose content is this window.
    #[inline(always)]
    pub(crate) fn unknown(id: u8, reader: BinaryReader<'a>) -> Self
        requires begins { reader.position ≡ 0 }
        ensures { result ≡ unknown_frame id reader.entry }
    {
        let Range { start, end } = reader.range();
        Frame {
            kind: FrameKind::Unknown,
            start,
            end,
            reader,
            name: Name::none(),
            id,
            encoding: Encoding::Module,
            version: 0,
            count: 0,
            size: 0,
        }
    }

    /// Returns the end of a stream, at this offset.
    pub(crate) fn end(offset: u64) -> Self
        ensures { result ≡ stream_end (ended offset) }
    {
        Frame {
            kind: FrameKind::End,
            start: offset,
            end: offset,
            reader: no_bytes(),
            name: Name::none(),
            id: 0,
            encoding: Encoding::Module,
            version: 0,
            count: 0,
            size: 0,
        }
    }

    /// Returns what the frame is.
    #[inline(always)]
    pub fn kind(&self) -> FrameKind
        // Proved: a frame is its report: its kind, id, count and all other fields are those of the
        //   report, and 0 or empty where the report has none [the clause of each getter of `Frame`]
        ensures is { result ≡ report_kind self.now }
        ensures part { IsPartOrEnd self.now }
    {
        self.kind
    }

    /// Returns the id of a section, of a body the one of the code section, and 0 for a header and the end.
    #[inline(always)]
    pub fn id(&self) -> u8
        ensures { result ≡ report_id self.now }
    {
        self.id
    }

    /// Returns the encoding that a header announces, otherwise `Module`.
    #[inline(always)]
    pub fn encoding(&self) -> Encoding
        ensures { result ≡ report_encoding self.now }
    {
        self.encoding
    }

    /// Returns the version of a header, otherwise 0.
    #[inline(always)]
    pub fn version(&self) -> u16
        ensures { result ≡ report_version self.now }
    {
        self.version
    }

    /// Returns the number of items, bodies or data segments that a section announces, the index of the start function,
    /// otherwise 0.
    #[inline(always)]
    pub fn count(&self) -> u32
        ensures { result ≡ report_count self.now }
    {
        self.count
    }

    /// Returns the number of bytes of a code section after its count, otherwise 0.
    #[inline(always)]
    pub fn size(&self) -> u32
        ensures { result ≡ report_size self.now }
    {
        self.size
    }

    /// Returns the name of a custom section, otherwise an empty one. It is checked here if the parser did not read it as
    /// text.
    #[inline(always)]
    pub fn name(&self) -> &'a str
        ensures { result.now ≡ report_name self.now }
    {
        self.name.text()
    }

    /// Returns the bytes of the name of a custom section, otherwise none.
    #[inline(always)]
    pub fn name_bytes(&self) -> &'a [u8]
        ensures { result.now ≡ report_name self.now }
    {
        self.name.bytes()
    }

    /// Returns the offsets of the content of a section or body, or of a header or the end, in bytes from the start of the
    /// stream. Those of a code section include its bodies, which may be missing.
    #[inline(always)]
    pub fn range(&self) -> Range<u64>
        ensures { result ≡ report_range self.now }
    {
        self.start..self.end
    }

    /// Returns the offset of the data of a custom section, after its name, and of the first item of a section of items.
    /// Of other frames it means nothing.
    #[inline(always)]
    pub fn data_offset(&self) -> u64
        ensures { StartsData self.now result }
    {
        self.reader.original_position()
    }

    /// Returns a reader of the content: of a body or an unknown section from its first byte, after the count of a section
    /// of items, and after the name of a custom section. Other frames have a reader of no bytes.
    #[inline(always)]
    pub fn into_reader(self) -> BinaryReader<'a>
        // Proved: the reader of a frame is at the first item of a section of items, whose id is
        //   that of such a section, after the name of a custom section, and at the first byte of a
        //   body or unknown section; that of another frame has no bytes [`IsReaderOf`]
        ensures { IsReaderOf self.entry result }
    {
        self.reader
    }
}
