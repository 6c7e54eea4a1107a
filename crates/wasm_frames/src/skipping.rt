// Skipping a section or body by its first fields.
ghost use Rattle.std.specs.Prelude.{◌≡◌, ◌+◌, ◌<◌, ◌≤◌, ◌^◌, length, nat_eq, nat_lt, option_map, true};
ghost use Rattle.wasm_base.specs.Window.{place};
ghost use Rattle.wasm_frames.specs.Cuts.{Cuts, CutsBody, CutsContent, CutsSection, kind_grows};
ghost use Rattle.wasm_frames.specs.SkipNext.{PartCanPass, SkipsNext, head_in, head_is, part_of, skip_is, skip_of, state_after_skip};
ghost use Rattle.wasm_frames.specs.Stored.{numbers_of, parser_of};
ghost use Rattle.wasm_grammar.specs.Content.{kind_of};
ghost use Rattle.wasm_grammar.specs.KindInCode.{kind_is};

use crate::frame::Frame;
use crate::kind::FrameKind;
use crate::parts::{SectionHead, content, missing_at_section};
use crate::stored::StoredParser;
use std::ops::Range;
use wasm_base::{BinaryReader, fits};
use wasm_grammar::SectionKind;

/// A section or body that `skip_next` skipped.
///
/// (Core specification, Binary format, Modules, Sections and Code Section.)
#[derive(Debug, Drop)]
pub struct SkippedPart<'a> {
    /// The offsets between which its content lies. If the stream ends before `range.end`, its fault is `UnexpectedEof`
    /// at `range.start`.
    pub range: Range<u64>,
    /// The first fields of the content.
    pub head: PartHead<'a>,
}

/// The first fields of a section or body that was skipped.
#[derive(Debug, Drop)]
pub enum PartHead<'a> {
    /// A custom section.
    Custom {
        /// Its name.
        name: &'a str,
        /// The offset of its data, after the name.
        data_offset: u64,
    },
    /// A section that is a count and its items.
    Items {
        /// The id of the section.
        id: u8,
        /// The number of its items.
        count: u32,
    },
    /// A section with an unknown id.
    Unknown {
        /// The id of the section.
        id: u8,
    },
    /// A function body.
    Body,
}

impl StoredParser {
    /// Skips the next section or body if its first fields are in `bytes`, but not all of it, as `Parser::skip_next`
    /// of `wasm_parser` does.
    ///
    /// Any numbers are a parser. The remaining bytes of a code section are limited to the offsets of a stream.
    ///
    /// ```rattle
    /// let mut parser = StoredParser::new(0);
    /// parser.next(b"\0asm\x01\0\0\0", false);
    /// assert!(rt; parser.skip_next(b"\0\x64").is_none());
    /// let part = parser.skip_next(b"\0\x64\x01a").ok_or("not skipped")?;
    /// assert_eq!(rt; (part.range.start, part.range.end, parser.offset), (10, 110, 110));
    /// ```
    ///
    /// (Core specification, Binary format, Modules, Sections and Code Section.)
    pub fn skip_next<'a>(&mut self, bytes: &'a [u8]) -> Option<SkippedPart<'a>>
        ensures gives { option_map skip_is result ≡ skip_of (parser_of self.old) bytes.now }
        ensures state { parser_of self.new ≡ state_after_skip (parser_of self.old)
            (skip_of (parser_of self.old) bytes.now) }
        ensures skips { SkipsNext (parser_of self.old) bytes.now (option_map skip_is result)
            (parser_of self.new) }
    {
        self.settle();
        self.skip_settled(bytes)
    }

    /// Does what `skip_next` does, for a parser whose code section ends within the offsets of a stream.
    pub fn skip_settled<'a>(&mut self, bytes: &'a [u8]) -> Option<SkippedPart<'a>>
        requires { self.old.offset + self.old.code_bytes < 2 ^ 64 }
        ensures gives { option_map skip_is result ≡ skip_of (numbers_of self.old) bytes.now }
        ensures state { numbers_of self.new ≡ state_after_skip (numbers_of self.old)
            (skip_of (numbers_of self.old) bytes.now) }
        ensures skips { SkipsNext (numbers_of self.old) bytes.now (option_map skip_is result)
            (numbers_of self.new) }
        ensures room { self.new.offset + self.new.code_bytes < 2 ^ 64 }
    {
        if self.expects_header() || !fits(self.offset, bytes.len()) {
            return None;
        }
        let mut reader = self.reader(bytes);
        match self.cut(&mut reader) {
            Some((frame, end)) => {
                self.advance(&frame, end);
                Some(skipped_part(&frame, end))
            }
            None => None,
        }
    }

    // Reads the first fields of a section or body of which the end is missing. The frame has the bytes that there are, and
    // the part ends at the offset.
    fn cut<'a>(&self, reader: &mut BinaryReader<'a>) -> Option<(Frame<'a>, u64)>
        requires starts { (place reader.old).offset ≡ self.now.offset }
        requires room { self.now.offset + self.now.code_bytes < 2 ^ 64 }
        ensures gives { Cuts (numbers_of self.now) (place reader.old) result }
        ensures passes { PartCanPass (numbers_of self.now) result }
    {
        if self.is_code_open() {
            self.cut_body(reader)
        } else {
            self.cut_section(reader)
        }
    }

    // Reads the first fields of a section of which the end is missing.
    fn cut_section<'a>(&self, reader: &mut BinaryReader<'a>) -> Option<(Frame<'a>, u64)>
        requires starts { (place reader.old).offset ≡ self.now.offset }
        requires closed { nat_eq (self.now.bodies + self.now.code_bytes) 0 ≡ true }
        ensures gives { CutsSection (numbers_of self.now) (place reader.old) result }
        ensures passes { PartCanPass (numbers_of self.now) result }
    {
        if missing_at_section(reader.remaining_buffer()).is_some() {
            return None;
        }
        match self.section_head(reader) {
            Ok(head) => self.cut_content(head, reader),
            Err(_) => None,
        }
    }

    // Reads the first fields of content after the head of a section, if its end is missing.
    fn cut_content<'a>(
        &self,
        head: SectionHead,
        reader: &BinaryReader<'a>,
    ) -> Option<(Frame<'a>, u64)>
        requires starts { self.now.offset ≤ (place reader.now).offset }
        requires known { kind_is head.kind ≡ kind_of (numbers_of self.now).encoding head.id }
        requires fits { (place reader.now).offset + head.size < 2 ^ 64 }
        requires closed { nat_eq (self.now.bodies + self.now.code_bytes) 0 ≡ true }
        ensures gives { CutsContent (numbers_of self.now) head (place reader.now) result }
        ensures passes { PartCanPass (numbers_of self.now) result }
    {
        if !may_grow(head.kind) {
            return None;
        }
        if !is_cut(head.size, reader) {
            return None;
        }
        let end = reader.original_position() + u64::from(head.size);
        match content::<SkippedPart<'_>>(
            self.data_counts(),
            head.kind,
            head.id,
            end,
            reader.shrink(),
        ) {
            Ok(frame) => Some((frame, end)),
            Err(_) => None,
        }
    }

    // Reads the size of a body of which the end is missing.
    fn cut_body<'a>(&self, reader: &mut BinaryReader<'a>) -> Option<(Frame<'a>, u64)>
        requires starts { (place reader.old).offset ≡ self.now.offset }
        requires room { self.now.offset + self.now.code_bytes < 2 ^ 64 }
        ensures gives { CutsBody (numbers_of self.now) (place reader.old) result }
        ensures passes { PartCanPass (numbers_of self.now) result }
    {
        match self.body_head(reader) {
            Ok(size) => {
                if !is_cut(size, reader) {
                    return None;
                }
                let end = reader.original_position() + u64::from(size);
                Some((Frame::body(reader.shrink()), end))
            }
            Err(_) => None,
        }
    }
}

// Whether more content of this kind changes nothing of what its first fields say.
fn may_grow(kind: SectionKind) -> bool
    ensures { result ≡ kind_grows (kind_is kind) }
{
    match kind {
        SectionKind::Custom => true,
        SectionKind::Items => true,
        SectionKind::Unknown => true,
        SectionKind::Index => false,
        SectionKind::DataCount => false,
        SectionKind::Code => false,
    }
}

// Whether bytes are missing at the end of content of this size.
fn is_cut(size: u32, reader: &BinaryReader<'_>) -> bool
    ensures { result ≡ nat_lt (length (place reader.now).rest) size }
{
    (reader.bytes_remaining() as u64) < u64::from(size)
}

// The part with this frame and this end.
fn skipped_part<'a>(frame: &Frame<'a>, end: u64) -> SkippedPart<'a>
    ensures { skip_is result ≡ part_of (frame.now, end) }
{
    SkippedPart {
        range: frame.range().start..end,
        head: part_head(frame),
    }
}

// The first fields of a frame.
fn part_head<'a>(frame: &Frame<'a>) -> PartHead<'a>
    ensures { head_is result ≡ head_in frame.now }
{
    match frame.kind() {
        FrameKind::Custom => PartHead::Custom {
            name: frame.name(),
            data_offset: frame.data_offset(),
        },
        FrameKind::Items => PartHead::Items {
            id: frame.id(),
            count: frame.count(),
        },
        FrameKind::Unknown => PartHead::Unknown { id: frame.id() },
        _ => PartHead::Body,
    }
}
