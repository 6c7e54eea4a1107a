// The parser of frames.
ghost use Rattle.std.specs.Prelude.{◌≡◌, ◌+◌, ◌<◌, ◌^◌, not, true, [], length, nat_eq};
ghost use Rattle.wasm_base.specs.Window.{place, window_over};
ghost use Rattle.wasm_frames.specs.Answer.{AsksForSome, Consumes, FaultsWithin, GivesFrame, GivesMade, answer_in};
ghost use Rattle.wasm_frames.specs.AsksWhereOpen.{AsksWhereOpen};
ghost use Rattle.wasm_frames.specs.GivesNextEvent.{GivesNextEvent};
ghost use Rattle.wasm_frames.specs.ParserState.{is_at_section as at_section};
ghost use Rattle.wasm_frames.specs.Contents.{HasOwnTile};
ghost use Rattle.wasm_frames.specs.ReadsPart.{IsBegun, place_of, ReadsBody, ReadsContent, ReadsNext, Refuses};
ghost use Rattle.wasm_frames.specs.Stored.{numbers_of, parser_of};
ghost use Rattle.wasm_grammar.specs.KindInCode.{kind_is};

use crate::frame::Frame;
use crate::kind::FrameKind;
use crate::next::{NextFrame, Outcome, Plain};
use crate::parts::{
    SectionHead, code, content, lacks, missing_at_section, read_header, whole_custom,
    whole_unknown, window,
};
use crate::stored::StoredParser;
use wasm_base::{BinaryReader, Error, Fault, Result, fits};
use wasm_grammar::SectionKind;

impl StoredParser {
    /// Returns the next frame of the stream, or requests more bytes. `bytes` are the stream's bytes from the parser's
    /// offset on.
    ///
    /// `eof` says that no bytes come after these, so that missing bytes are a fault. Without it, `NeedMoreData` is
    /// returned while these bytes don't decide what comes next. After a frame the parser has advanced by `consumed`
    /// bytes; otherwise it is unchanged. At the end of the stream, `consumed` is 0.
    ///
    /// Any numbers are a parser. The remaining bytes of a code section are limited to the offsets of a stream.
    ///
    /// The faults are the errors of `Parser::parse` of `wasm_parser`.
    ///
    /// ```rattle
    /// let stream: &[u8] = b"\0asm\x01\0\0\0\0\x02\x01a";
    /// let mut parser = StoredParser::new(0);
    /// assert!(rt; matches!(parser.next(stream, true), NextFrame::Parsed { consumed: 8, .. }));
    /// assert!(rt; matches!(parser.next(&stream[8..], true), NextFrame::Parsed { consumed: 4, .. }));
    /// assert_eq!(rt; parser.offset, 12);
    /// ```
    pub fn next<'a>(&mut self, bytes: &'a [u8], eof: bool) -> NextFrame<'a>
        // Proved: `next` returns what the grammar says of the bytes, by what the parser knows: a
        //   frame, a fault, or a request where they do not decide; the parser is then after the
        //   frame, and otherwise unchanged
        ensures answers { GivesFrame (parser_of self.old) eof bytes.now result (parser_of self.new) }
        ensures gives { GivesNextEvent (parser_of self.old) eof bytes.now (answer_in result)
            (parser_of self.new) }
        ensures consumes { Consumes bytes.now (answer_in result) }
        ensures asks { AsksForSome (answer_in result) }
        ensures waits { AsksWhereOpen (parser_of self.old) eof bytes.now (answer_in result) }
        ensures faults { FaultsWithin (parser_of self.old) bytes.now (answer_in result) }
    {
        self.next_by_kind(bytes, eof)
    }

    // What `next` returns. Each of the frequent kinds returns on its own, so that its fields go straight to the caller's memory.
    #[inline(always)]
    fn next_by_kind<'a>(&mut self, bytes: &'a [u8], eof: bool) -> NextFrame<'a>
        ensures { GivesFrame (parser_of self.old) eof bytes.now result (parser_of self.new) }
    {
        match self.next_for::<Frame<'_>, false>(bytes, eof) {
            NextFrame::Parsed { frame, consumed } => match frame.kind() {
                FrameKind::Body => return NextFrame::Parsed { frame, consumed },
                FrameKind::Custom => return NextFrame::Parsed { frame, consumed },
                FrameKind::Unknown => return NextFrame::Parsed { frame, consumed },
                _ => return NextFrame::Parsed { frame, consumed },
            },
            NextFrame::NeedMoreData(hint) => NextFrame::NeedMoreData(hint),
            NextFrame::Fault(error) => NextFrame::Fault(error),
        }
    }

    /// Does what `next` does. `For` is what the caller makes of a frame, and `AS_TEXT` whether it needs names as text, as
    /// for `next_settled`.
    #[inline(always)]
    pub fn next_for<'a, For, const AS_TEXT: bool>(
        &mut self,
        bytes: &'a [u8],
        eof: bool,
    ) -> NextFrame<'a>
        // Proved: `next_for` and `next_settled` return what `next` does, whatever their type is [the
        //   clauses of both (`GivesFrame`)]
        ensures { GivesFrame (parser_of self.old) eof bytes.now result (parser_of self.new) }
    {
        self.settle();
        self.next_settled::<For, AS_TEXT>(bytes, eof)
    }

    /// Does what `next` does, for a parser whose code section ends within the offsets of a stream. That is so after
    /// each call.
    ///
    /// `For` is a type of the caller's, such as what it makes of a frame. So each caller has an instance of this and of
    /// what it calls, which LLVM puts in place: a parser that is called costs up to a half more.
    ///
    /// `AS_TEXT` says whether the name of a custom section is read as text, so that `Frame::name` need not check it again.
    /// Without it a name is checked at less cost.
    pub fn next_settled<'a, For, const AS_TEXT: bool>(
        &mut self,
        bytes: &'a [u8],
        eof: bool,
    ) -> NextFrame<'a>
        requires room { self.old.offset + self.old.code_bytes < 2 ^ 64 }
        ensures answers { GivesFrame (numbers_of self.old) eof bytes.now result (numbers_of self.new) }
        ensures room { self.new.offset + self.new.code_bytes < 2 ^ 64 }
    {
        self.next_as::<Plain<For>, AS_TEXT>(bytes, eof)
    }

    /// Does what `next_settled` does, and returns what `As` makes of the result.
    pub fn next_as<'a, As: Outcome<'a>, const AS_TEXT: bool>(
        &mut self,
        bytes: &'a [u8],
        eof: bool,
    ) -> As::Out
        requires room { self.old.offset + self.old.code_bytes < 2 ^ 64 }
        ensures answers { GivesMade As.made (numbers_of self.old) eof bytes.now result
            (numbers_of self.new) }
        ensures room { self.new.offset + self.new.code_bytes < 2 ^ 64 }
    {
        let start = self.offset;
        if !fits(start, bytes.len()) {
            return As::of(NextFrame::Fault(Error::new(Fault::OffsetRange, start)));
        }
        if self.is_at_section() {
            if !eof {
                if let Some(hint) = missing_at_section(bytes) {
                    return As::of(NextFrame::NeedMoreData(hint));
                }
            } else if bytes.is_empty() {
                return As::of(self.end::<As>());
            }
        }
        let mut reader = self.reader(bytes);
        if self.expects_header() {
            let read = read_header(&mut reader);
            return self.given::<As>(read, bytes, &reader, eof);
        }
        if self.is_code_open() {
            let read = self.body::<As>(&mut reader);
            return self.given::<As>(read, bytes, &reader, eof);
        }
        self.section::<As, AS_TEXT>(bytes, &mut reader, eof)
    }

    // Moves past the frame that was read of these bytes, or refuses. In place, so that each kind of frame is looked at where
    // it is known.
    #[inline(always)]
    fn given<'a, As: Outcome<'a>>(
        &mut self,
        read: Result<Frame<'a>>,
        bytes: &'a [u8],
        reader: &BinaryReader<'a>,
        eof: bool,
    ) -> As::Out
        requires fits { self.old.offset + length bytes.now < 2 ^ 64 }
        requires room { self.old.offset + self.old.code_bytes < 2 ^ 64 }
        requires begun { IsBegun (numbers_of self.old) eof bytes.now }
        requires reads { ReadsNext (numbers_of self.old) (place_of (numbers_of self.old) bytes.now)
            read (place reader.now) }
        ensures answers { GivesMade As.made (numbers_of self.old) eof bytes.now result
            (numbers_of self.new) }
        ensures room { self.new.offset + self.new.code_bytes < 2 ^ 64 }
    {
        match read {
            Ok(frame) => {
                let end = reader.original_position();
                let consumed = (end - self.offset) as usize;
                self.advance(&frame, end);
                As::of(NextFrame::Parsed { frame, consumed })
            }
            Err(error) => As::of(refused(error, eof)),
        }
    }

    // Reads a section of these bytes, where one may start. Frequent kinds come first, each on its own.
    fn section<'a, As: Outcome<'a>, const AS_TEXT: bool>(
        &mut self,
        bytes: &'a [u8],
        reader: &mut BinaryReader<'a>,
        eof: bool,
    ) -> As::Out
        requires fits { self.old.offset + length bytes.now < 2 ^ 64 }
        requires room { self.old.offset + self.old.code_bytes < 2 ^ 64 }
        requires begun { IsBegun (numbers_of self.old) eof bytes.now }
        requires at { place reader.old ≡ place_of (numbers_of self.old) bytes.now }
        requires closed { at_section (numbers_of self.old) ≡ true }
        ensures answers { GivesMade As.made (numbers_of self.old) eof bytes.now result
            (numbers_of self.new) }
        ensures room { self.new.offset + self.new.code_bytes < 2 ^ 64 }
    {
        let head = match self.section_head(reader) {
            Ok(head) => head,
            Err(error) => return As::of(refused(error, eof)),
        };
        match head.kind {
            SectionKind::Custom => {
                let read = whole_custom::<As, AS_TEXT>(head.id, head.size, reader);
                self.given::<As>(read, bytes, reader, eof)
            }
            SectionKind::Unknown => {
                let read = whole_unknown::<As>(head.id, head.size, reader);
                self.given::<As>(read, bytes, reader, eof)
            }
            SectionKind::Code => {
                let read = code::<As>(self.functions(), head.size, reader);
                self.given::<As>(read, bytes, reader, eof)
            }
            _ => {
                let read = self.whole::<As>(head, reader);
                self.given::<As>(read, bytes, reader, eof)
            }
        }
    }

    // Ends the stream at the parser. Each count above 0 needs its other section.
    fn end<'a, For>(&mut self) -> NextFrame<'a>
        requires { at_section (numbers_of self.old) ≡ true }
        ensures answers { GivesFrame (numbers_of self.old) true [] result (numbers_of self.new) }
        ensures room { self.new.offset + self.new.code_bytes ≡ self.old.offset + self.old.code_bytes }
    {
        let end = self.offset;
        if lacks(self.functions(), self.codes()) {
            return NextFrame::Fault(Error::new(Fault::FunctionWithoutCode, end));
        }
        if lacks(self.data_counts(), self.datas()) {
            return NextFrame::Fault(Error::new(Fault::DataCountWithoutData, end));
        }
        self.in_code = 0;
        NextFrame::Parsed {
            frame: Frame::end(end),
            consumed: 0,
        }
    }

    // Whether a code section has remaining bytes or bodies.
    pub(crate) fn is_code_open(&self) -> bool
        ensures { result ≡ not (nat_eq (self.now.bodies + self.now.code_bytes) 0) }
    {
        self.bodies > 0 || self.code_bytes > 0
    }

    // Whether a section may start here.
    fn is_at_section(&self) -> bool
        ensures { result ≡ at_section (numbers_of self.now) }
    {
        !self.expects_header() && !self.is_code_open()
    }

    // Returns a reader of bytes that begin at the parser's offset.
    pub(crate) fn reader<'a>(&self, bytes: &'a [u8]) -> BinaryReader<'a>
        requires { self.now.offset + length bytes.now < 2 ^ 64 }
        ensures { result ≡ window_over self.now.features self.now.offset bytes.now }
    {
        BinaryReader::new_features(bytes, self.offset, self.features())
    }

    // Reads the content of a section that is a frame of its own.
    fn whole<'a, For>(&self, head: SectionHead, reader: &mut BinaryReader<'a>) -> Result<Frame<'a>>
        requires { HasOwnTile (kind_is head.kind) head.id }
        ensures { ReadsContent (numbers_of self.now) (kind_is head.kind) head.id head.size
            (place reader.old) result (place reader.new) }
    {
        let window = window(head.size, reader)?;
        let end = reader.original_position();
        content::<For>(self.data_counts(), head.kind, head.id, end, window)
    }

    // Reads the next body of a code section that has remaining bytes or bodies.
    fn body<'a, For>(&self, reader: &mut BinaryReader<'a>) -> Result<Frame<'a>>
        ensures { ReadsBody (numbers_of self.now) (place reader.old) result (place reader.new) }
    {
        let size = self.body_head(reader)?;
        let window = window(size, reader)?;
        Ok(Frame::body(window))
    }
}

// Returns the error, or requests the missing bytes if they may still come.
fn refused<'a>(error: Error, eof: bool) -> NextFrame<'a>
    ensures { Refuses eof error result }
{
    if !eof {
        if let Some(hint) = error.needed_hint() {
            return NextFrame::NeedMoreData(hint);
        }
    }
    NextFrame::Fault(error)
}
