// The parser of a stream.
ghost use Rattle.std.specs.Prelude.{⊤, ◌≡◌, ◌+◌, ◌<◌, ◌^◌, length, option_map};
ghost use Rattle.std.specs.Option.{IsSome};
ghost use Rattle.wasm_base.specs.Features.{feature_bits, all_features};
ghost use Rattle.wasm_base.specs.Window.{window_over};
ghost use Rattle.wasm_frames.specs.Answer.{AsksForSome, Consumes, FaultsWithin, IsUnchanged};
ghost use Rattle.wasm_frames.specs.AsksWhereOpen.{AsksWhereOpen};
ghost use Rattle.wasm_frames.specs.GivesNextEvent.{GivesNextEvent};
ghost use Rattle.wasm_frames.specs.ParserState.{initial_state, skippable_of, skipped_state};
ghost use Rattle.wasm_frames.specs.SkipNext.{SkipsNext, skip_is, skip_of, state_after_skip};
ghost use Rattle.wasm_frames.specs.Skipped.{SkipsSection};
ghost use Rattle.wasm_frames.specs.Stored.{numbers_of, parser_of};
ghost use Rattle.wasm_grammar.specs.Accepted.{begins_with_header};
ghost use Rattle.wasm_grammar.specs.declared.encoding.Encoding.TheVariants.{Module, Component};
ghost use Rattle.wasm_parser.specs.ParseAll.{walk_over, WalksWhole};
ghost use Rattle.wasm_parser.specs.ParseAnswer.{ParseAnswer, said};

use crate::parse_all::ParseAll;
use crate::payload::{Chunk, Payload};
use bitflags::Flags;
use std::alloc::AllocError;
use std::marker::Model;
use wasm_base::{BinaryReader, Result, WasmFeatures};
use wasm_frames::{FrameKind, NextFrame, SkippedPart, StoredParser};
use wasm_grammar::{COMPONENT_HEADER, CORE_HEADER};

/// A parser of a module or component, one part at a time (core specification, Binary format, Modules).
///
/// A parser buffers nothing and never allocates. It keeps its offset and what earlier sections imply for later ones:
/// order and counts. `parse` takes the bytes from that offset on and returns the next part. `parse_all` walks a stream
/// in memory. Offsets count bytes from the start of the stream, which may begin at any offset.
///
/// The parser checks the frame of a stream: headers, sections, their order and counts, and the sizes of bodies. The
/// items of a section are read, and checked, only when you iterate over them. Nothing is validated, and function bodies
/// are not decoded.
///
/// ```rattle
/// let stream: &[u8] = b"\0asm\x01\0\0\0\x02\x07\x01\x01m\x01f\0\0";
/// for payload in Parser::new(0).parse_all(stream) {
///     if let Payload::ImportSection(section) = payload? {
///         let first = section.into_imports().next().ok_or("no import")??;
///         assert_eq!(rt; (first.module, first.name), ("m", "f"));
///     }
/// }
/// ```
#[derive(Debug, Drop)]
pub struct Parser {
    // `StoredParser` finds the frames: so a program in C parses in its own memory.
    stored: StoredParser,
}

impl Parser {
    /// Returns a parser of a stream that begins at this offset, with all features.
    pub fn new(offset: u64) -> Self
        ensures { result ≡ initial_state offset all_features }
    {
        Parser {
            stored: StoredParser::new(offset),
        }
    }

    /// Returns the next part of the stream, or requests more bytes. `bytes` are the stream's bytes from the parser's
    /// offset on.
    ///
    /// `eof` says that no bytes come after these, so that missing bytes are a fault. Without it, `NeedMoreData` is
    /// returned while these bytes don't decide what comes next. The parser is then unchanged: pass the same bytes
    /// again, with more after them. More bytes never change any other result, and no parser could decide earlier: it
    /// requests more bytes exactly if two streams that begin with these bytes have different next events.
    ///
    /// After a part the parser has advanced by `consumed` bytes. Pass the bytes after them to the next call. At the end
    /// of the stream, `consumed` is 0 and the payload is `End`.
    ///
    /// # Errors
    ///
    /// The parser is unchanged, and returns the same error for the same bytes. If `eof` is false, bytes that may still
    /// come are not missing.
    ///
    /// - `OffsetRange` at the parser's offset if the bytes go beyond the largest offset of a stream.
    /// - At a header: those of `read_header_version`, and `UnknownVersion` at the version.
    /// - At a section: `MagicAtSection` at a second header, `MalformedSectionId` at an id above 127, those of
    ///   `read_var_u32` for the length, `SectionTooLarge` at the length, and `OutOfOrder` at the content.
    /// - In the content of a section: `UnexpectedEof` at the content if bytes are missing, and the errors of the first
    ///   fields, which must lie in the content: those of `read_string` for the name of a custom section, otherwise
    ///   those of `read_var_u32`. `StartContent` and `DataCountContent` at the first trailing byte. `DataCountDiffer`
    ///   at the end of the section.
    /// - At the start of a code section: those of `read_var_u32` for the count, `UnexpectedEof` at the content if the
    ///   count overruns it, `FunctionCodeDiffer` and `CodeWithoutFunction` at the content.
    /// - At a body: `TrailingCode` at the first byte after the last body, those of `read_var_u32` for the size,
    ///   `UnexpectedEof` at the size if the body overruns its section, which is reported as soon as the size is read,
    ///   and `UnexpectedEof` after the size if bytes are missing.
    /// - At the end of the stream: `FunctionWithoutCode` and `DataCountWithoutData` there.
    ///
    /// # Example
    ///
    /// ```rattle
    /// let stream: &[u8] = b"\0asm\x01\0\0\0\0\x02\x01a";
    /// let mut parser = Parser::new(0);
    /// assert!(rt; matches!(parser.parse(&stream[..6], false)?, Chunk::NeedMoreData(2)));
    /// assert!(rt; matches!(parser.parse(stream, true)?, Chunk::Parsed { consumed: 8, .. }));
    /// assert!(rt; matches!(parser.parse(&stream[8..], true)?, Chunk::Parsed { consumed: 4, .. }));
    /// let end = parser.parse(&stream[12..], true)?;
    /// assert!(rt; matches!(end, Chunk::Parsed { consumed: 0, payload: Payload::End(12) }));
    /// ```
    pub fn parse<'a>(&mut self, bytes: &'a [u8], eof: bool) -> Result<Chunk<'a>>
        // On every outcome.
        // Proved: what `parse` returns, in terms of what the parser knows alone; data past the
        //   offsets of a stream is `OffsetRange`
        // Proved: the reader of a payload's section is at the first item, after the count
        //   [`answers` on `parse` (`AnswerBegins`); `items` of `GivesReading`]
        ensures answers { ParseAnswer self.old eof bytes.now result self.new }
        // Proved: `parse` consumes the bytes of its event, and the parser is then after them, with
        //   the same features [`gives` (`GivesEvent`)]
        ensures gives { GivesNextEvent self.old eof bytes.now (said result) self.new }
        // On a part.
        // Proved: consumed bytes are part of the input, and there are some except at the end
        ensures consumes { Consumes bytes.now (said result) }
        // On a request.
        // Proved: without `eof`, `parse` asks for as many bytes as the first unfinished field is
        //   known to lack, and at least one. If the bytes where a section may start may begin a
        //   second header, it asks for the rest of the magic, though a short custom section may end
        //   before. With `eof` it never asks [`answers`, `gives` (`answer_in_time`, `IsUndecided`),
        //   `asks` (`AsksForSome`)]
        ensures asks { AsksForSome (said result) }
        ensures waits { AsksWhereOpen self.old eof bytes.now (said result) }
        // On an error.
        // Proved: the offset of a fault lies between the parser's and the end of the bytes,
        //   wherever the parser is
        ensures faults { FaultsWithin self.old bytes.now (said result) }
        // On a request or an error.
        // Proved: after a fault or a request the parser is unchanged
        ensures unchanged { IsUnchanged self.old (said result) self.new }
    {
        // Each of the frequent kinds returns on its own, so that its fields go straight to the caller's memory.
        match self.stored.next_settled::<Parser, true>(bytes, eof) {
            NextFrame::Parsed { frame, consumed } => match frame.kind() {
                FrameKind::Body => {
                    return Ok(Chunk::Parsed {
                        consumed,
                        payload: Payload::from(frame),
                    });
                }
                FrameKind::Custom => {
                    return Ok(Chunk::Parsed {
                        consumed,
                        payload: Payload::from(frame),
                    });
                }
                FrameKind::Unknown => {
                    return Ok(Chunk::Parsed {
                        consumed,
                        payload: Payload::from(frame),
                    });
                }
                _ => {
                    return Ok(Chunk::Parsed {
                        consumed,
                        payload: Payload::from(frame),
                    });
                }
            },
            NextFrame::NeedMoreData(hint) => Ok(Chunk::NeedMoreData(hint)),
            NextFrame::Fault(error) => Err(error),
        }
    }

    /// Returns an iterator over the payloads of a stream in memory, up to its end or its first error.
    ///
    /// `bytes` are the stream's bytes from the parser's offset on. `bytes` must be complete: missing bytes are an
    /// error.
    ///
    /// ```rattle
    /// let mut names = Vec::new(alloc);
    /// for payload in Parser::new(0).parse_all(b"\0asm\x01\0\0\0\0\x02\x01a") {
    ///     if let Payload::CustomSection(section) = payload? {
    ///         names.push(section.name())?;
    ///     }
    /// }
    /// assert_eq!(rt; names.as_slice(), ["a"].as_slice());
    /// ```
    pub fn parse_all<'a>(self, bytes: &'a [u8]) -> ParseAll<'a>
        ensures walks { result ≡ walk_over self bytes.now }
        // Proved: `parse_all` of a parser that has read nothing yields the reading, if the input
        //   fits the offsets
        // Proved: `parse_all` of a parser that has read nothing, over input that fits the offsets,
        //   ends with `End` exactly if the stream is accepted; then the stream is a header and the
        //   sections that the payloads are [`reading` on `parse_all` (`WalksWhole`:
        //   `GivesReading`)]
        ensures reading { WalksWhole self bytes.now result }
    {
        ParseAll::over(self, bytes)
    }

    /// Returns the number of bytes that `skip_section` would skip, or `None` outside a code section.
    ///
    /// It is `Some` from `CodeSectionStart` until a payload that is not a body.
    pub fn skippable(&self) -> Option<u32>
        // Proved: `skippable` is the number of remaining bytes of a code section, from its start
        //   until a payload that is not a body
        ensures { result ≡ skippable_of self.now }
    {
        if self.stored.in_code != 0 {
            Some(self.stored.code_bytes)
        } else {
            None
        }
    }

    /// Skips the remaining bytes of a code section, as many as `skippable` returns. Pass the bytes after those to the
    /// next call.
    ///
    /// The parser must be in a code section: `skippable` must be `Some`. The skipped bodies are not checked.
    ///
    /// ```rattle
    /// let stream: &[u8] = b"\0asm\x01\0\0\0\x03\x02\x01\0\x0a\x04\x01\x02\0\x0b";
    /// let mut parser = Parser::new(0);
    /// for part in [0..8, 8..12, 12..15] {
    ///     parser.parse(&stream[part], false)?;
    /// }
    /// assert_eq!(rt; parser.skippable(), Some(3));
    /// parser.skip_section();
    /// assert_eq!(rt; (parser.offset(), parser.skippable()), (18, Some(0)));
    /// ```
    pub fn skip_section(&mut self)
        requires { IsSome (skippable_of self.old) }
        ensures state { self.new ≡ skipped_state self.old }
        // Proved: after `skip_section` the parser is after that many bytes, whatever they are, if
        //   some such bytes complete the section
        ensures skips { SkipsSection self.old self.new }
    {
        // The parser's invariant says that this does not overflow.
        self.stored.offset += u64::from(self.stored.code_bytes);
        self.stored.bodies = 0;
        self.stored.code_bytes = 0;
    }

    /// Skips the next section or body if its first fields are in `bytes`, but not all of it. `bytes` are the stream's
    /// bytes from the parser's offset on.
    ///
    /// Then the parser is after the part: pass the bytes from `range.end` on to the next call, whatever the skipped
    /// bytes are. So a section needs no buffer of its size. The first fields are a name of a custom section, or the
    /// count of a section that begins with one.
    ///
    /// It returns `None` and leaves the parser unchanged if `parse` has to look: where all of the part is in `bytes`,
    /// where its first fields are not, at a fault, at a header, at the end, and at the start of a code section, a start
    /// section or a data count section.
    ///
    /// ```rattle
    /// let mut parser = Parser::new(0);
    /// parser.parse(b"\0asm\x01\0\0\0", false)?;
    /// // A custom section "a" of 100 bytes, of which the first 4 are here.
    /// let part = parser.skip_next(b"\0\x64\x01a").ok_or("not skipped")?;
    /// assert_eq!(rt; (part.range.start, part.range.end), (10, 110));
    /// assert!(rt; matches!(part.head, PartHead::Custom { name: "a", data_offset: 12 }));
    /// assert_eq!(rt; parser.offset(), 110);
    /// ```
    ///
    /// (Core specification, Binary format, Modules, Sections and Code Section.)
    pub fn skip_next<'a>(&mut self, bytes: &'a [u8]) -> Option<SkippedPart<'a>>
        // Proved: `skip_next` skips the next part exactly if it is a body, a custom section, an
        //   unknown one or one of counted items, its first fields are in the bytes, in order and
        //   right, its end is not, and it ends below the largest offset. It never skips a header,
        //   bytes that may begin one, or a start, data count or code section. If it skips nothing,
        //   the parser is unchanged [`gives`, `state` on `skip_next` (`skip_of`,
        //   `state_after_skip`)]
        ensures gives { option_map skip_is result ≡ skip_of self.old bytes.now }
        ensures state { self.new ≡ state_after_skip self.old (skip_of self.old bytes.now) }
        // Proved: whatever bytes follow, the skipped part is the next tile of the stream, with the
        //   same first fields and offsets, and the parser is after it; if too few follow, the
        //   stream has the fault `UnexpectedEof` at its content
        ensures skips { SkipsNext self.old bytes.now (option_map skip_is result) self.new }
    {
        self.stored.skip_settled(bytes)
    }

    /// Returns the parser as numbers, which a program in another language can keep.
    #[tactic(auto, using(wasm_frames::proofs::Settled::settled))]
    pub fn stored(&self) -> StoredParser
        // Proved: `stored` is a parser as numbers. Every bit pattern of its 48 bytes is a parser: its
        //   `next` returns the frame of the payload that `Parser::parse` returns, its `skip_next` has
        //   the clauses of `Parser::skip_next`, and its `skip_section` skips the rest of a code
        //   section, and elsewhere nothing [`stored` of `Parser`; `next`, `skip_next` and
        //   `skip_section` of `StoredParser` (`parser_of`, `skipped_of`)]
        ensures { parser_of result ≡ self.now }
    {
        self.stored
    }

    /// Returns the offset of the next part, from the start of the stream.
    pub fn offset(&self) -> u64
        ensures { result ≡ self.now.offset }
    {
        self.stored.offset
    }

    /// Returns the features of the readers in every payload.
    pub fn features(&self) -> WasmFeatures
        ensures { feature_bits result ≡ self.now.features }
    {
        self.stored.features()
    }

    /// Sets the features of the readers in later payloads. They change how items are read, not the frame of a stream.
    pub fn set_features(&mut self, features: WasmFeatures)
        ensures { self.new ≡ record self.old { features = feature_bits features } }
    {
        self.stored.features = features.bits();
    }

    /// Returns a reader of these bytes, which begin at this offset of the stream, with the parser's features.
    ///
    /// The bytes must end within the offsets of a stream: see `fits`.
    pub fn binary_reader<'a>(&self, bytes: &'a [u8], offset: u64) -> BinaryReader<'a>
        requires { offset + length bytes.now < 2 ^ 64 }
        ensures { result ≡ window_over self.now.features offset bytes.now }
    {
        BinaryReader::new_features(bytes, offset, self.stored.features())
    }

    /// Returns whether these bytes begin with the eight bytes of a core module's header.
    ///
    /// ```rattle
    /// assert!(rt; Parser::is_core_wasm(b"\0asm\x01\0\0\0\0"));
    /// assert!(rt; !Parser::is_core_wasm(b"\0asm\x01"));
    /// ```
    pub fn is_core_wasm(bytes: &[u8]) -> bool
        // Proved: `is_core_wasm`, `is_component`, `binary_reader`, the features, the offset, a
        //   default and a copy are what their names say [the clauses of each; `is_default`,
        //   `is_clone`]
        ensures { result ≡ begins_with_header Module bytes.now }
    {
        bytes.starts_with(CORE_HEADER.as_slice())
    }

    /// Returns whether these bytes begin with the eight bytes of a component's header.
    pub fn is_component(bytes: &[u8]) -> bool
        ensures { result ≡ begins_with_header Component bytes.now }
    {
        bytes.starts_with(COMPONENT_HEADER.as_slice())
    }
}

impl Model for Parser {
    ghost use Rattle.std.specs.Prelude.{◌+◌, ◌<◌, ◌^◌};
    ghost use Rattle.wasm_frames.specs.GivesNextEvent.{GivesNextEvent};
    ghost use Rattle.wasm_frames.specs.ParserState.{ParserState};
    ghost use Rattle.wasm_frames.specs.Skipped.{SkipsSection};
    ghost use Rattle.wasm_frames.specs.Stored.{numbers_of};

    ghost Value = { ParserState };

    ghost view = { λ p. numbers_of p.stored };

    ghost invariant = { λ p. p.stored.offset + p.stored.code_bytes < 2 ^ 64 };
}

impl Clone for Parser {
    ghost is_clone = { λ parser copy. copy ≡ parser };

    ghost is_infallible = { λ _. ⊤ };

    fn clone(&self) -> std::result::Result<Self, AllocError> {
        Ok(Parser {
            stored: self.stored,
        })
    }
}

/// Returns a parser of a stream that begins at offset 0, with all features.
impl Default for Parser {
    ghost is_default = { λ parser. parser ≡ initial_state 0 all_features };

    fn default() -> Self {
        Parser::new(0)
    }
}
