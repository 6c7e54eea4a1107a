// The parser in a cursor.
ghost use Rattle.std.specs.Prelude.{◌≡◌, ◌<◌, option_map};
ghost use Rattle.wasm_frames.specs.Answer.{Consumes, GivesFrame, answer_to, asks, answer_in};
ghost use Rattle.wasm_frames.specs.SkipNext.{SkipsNext, skip_is, skip_of};
ghost use Rattle.wasm_frames.specs.Stored.{parser_of};
ghost use Rattle.wasm_streams.specs.Awaited.{IsAsked};

use std::marker::Model;
use wasm_base::fits;
use wasm_frames::{NextFrame, SkippedPart, StoredParser};

/// The part at this offset, whose end was missing.
#[derive(Clone, Copy)]
pub(crate) struct CutPart {
    pub(crate) offset: u64,
    /// The bytes at its offset: its head is among them.
    pub(crate) first: [u8; 8],
    /// How many bytes it has; 0 if no such part was met.
    pub(crate) size: usize,
}

/// A parser of frames, which clauses see as what it knows, and not as its numbers.
///
/// It remembers a part whose end was missing, so that the part need not be read again before it is whole.
#[derive(Drop)]
pub(crate) struct FrameParser {
    stored: StoredParser,
    cut: CutPart,
}

impl Model for FrameParser {
    ghost use Rattle.wasm_frames.specs.ParserState.{ParserState};
    ghost use Rattle.wasm_frames.specs.Stored.{parser_of};
    ghost use Rattle.wasm_streams.specs.Awaited.{Recalls};

    ghost Value = { ParserState };

    ghost view = { λ p. parser_of p.stored };

    ghost invariant = { λ p. Recalls (parser_of p.stored) p.cut };
}

impl FrameParser {
    /// Returns the parser with these numbers.
    pub(crate) fn new(stored: StoredParser) -> FrameParser
        ensures { result ≡ parser_of stored }
    {
        FrameParser {
            stored,
            cut: CutPart {
                offset: stored.offset,
                first: [0; 8],
                size: 0,
            },
        }
    }

    /// Returns a copy of the parser.
    pub(crate) fn copy(&self) -> FrameParser
        ensures { result ≡ self.now }
    {
        FrameParser {
            stored: self.stored,
            cut: self.cut,
        }
    }

    /// Returns the offset of the next part.
    #[inline(always)]
    pub(crate) fn offset(&self) -> u64
        ensures { result ≡ self.now.offset }
    {
        self.stored.offset
    }

    /// Returns the next frame, as `StoredParser::next` does.
    pub(crate) fn next<'a>(&mut self, bytes: &'a [u8], eof: bool) -> NextFrame<'a>
        ensures { GivesFrame self.old eof bytes.now result self.new }
    {
        self.stored.next(bytes, eof)
    }

    /// Returns the next frame, as `StoredParser::next_for` does.
    #[inline(always)]
    pub(crate) fn next_for<'a, For, const AS_TEXT: bool>(
        &mut self,
        bytes: &'a [u8],
        eof: bool,
    ) -> NextFrame<'a>
        ensures answers { GivesFrame self.old eof bytes.now result self.new }
        ensures consumes { Consumes bytes.now (answer_in result) }
    {
        self.stored.next_for::<For, AS_TEXT>(bytes, eof)
    }

    /// Returns how many bytes are missing of the part that begins with these, or 0 if that is not known.
    #[inline(always)]
    pub(crate) fn missing(&self, bytes: &[u8], eof: bool) -> usize
        ensures { 0 < result → answer_to self.now eof bytes.now ≡ asks result }
    {
        let part = &self.cut;
        if bytes.len() >= part.size || part.offset != self.stored.offset || eof {
            return 0;
        }
        if bytes.starts_with(part.first.as_slice()) {
            return part.size - bytes.len();
        }
        0
    }

    /// Remembers how many bytes are missing. A request for one byte may be for the next of a number, and says less.
    #[inline(never)]
    pub(crate) fn remember(&mut self, bytes: &[u8], hint: usize)
        requires { IsAsked self.old bytes.now hint }
        ensures { self.new ≡ self.old }
    {
        let offset = self.stored.offset;
        let Some(first) = bytes.first_chunk::<8>() else {
            return;
        };
        let Some(size) = bytes.len().checked_add(hint) else {
            return;
        };
        if hint > 1 && fits(offset, size) {
            self.cut = CutPart {
                offset,
                first: *first,
                size,
            };
        }
    }

    /// Skips the next part, as `StoredParser::skip_next` does.
    #[inline(always)]
    pub(crate) fn skip_next<'a>(&mut self, bytes: &'a [u8]) -> Option<SkippedPart<'a>>
        ensures gives { option_map skip_is result ≡ skip_of self.old bytes.now }
        ensures skips { SkipsNext self.old bytes.now (option_map skip_is result) self.new }
    {
        self.stored.skip_next(bytes)
    }
}
