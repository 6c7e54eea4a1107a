// A parser for programs in C: each call takes plain numbers and bytes of the caller, and none has a condition.
ghost use Rattle.std.specs.Prelude.{◌≡◌};
ghost use Rattle.wasm_frames.specs.ParserState.{initial_state};
ghost use Rattle.wasm_frames.specs.Answer.{answer_in};
ghost use Rattle.wasm_c_items.specs.Events.{ParsesPlain};
ghost use Rattle.wasm_frames.specs.Stored.{parser_of};
ghost use Rattle.wasm_c_items.specs.Texts.{Says, SaysFault};

use crate::events::{Origin, PlainEvent, fault_event, frame_event, request_event};
use crate::text::write_text;
use bitflags::Flags;
use wasm_frames::{FrameKind, NextFrame};
use wasm_parser::{Parser, StoredParser, WasmFeatures};

/// Returns a parser of a stream that begins at this offset, with these features.
///
/// `pulleynavy_parser_init` of the C library is this call, and describes its errors.
pub fn new_parser(offset: u64, features: u32) -> StoredParser
    ensures { parser_of result ≡ initial_state offset features }
{
    let mut parser = Parser::new(offset);
    parser.set_features(WasmFeatures::from_bits_retain(features));
    parser.stored()
}

/// Returns the next event of a stream, a fault, or a request for more bytes, for bytes that begin at `base` of a storage.
// All calls of the library share it: a copy of it in each is slower, and larger.
#[inline(never)]
pub(crate) fn next_event(
    parser: &mut StoredParser,
    bytes: &[u8],
    is_all: bool,
    base: usize,
) -> PlainEvent
    ensures { ParsesPlain base (parser_of parser.old) is_all bytes.now result
        (parser_of parser.new) }
{
    let offset = parser.offset;
    match parser.next_for::<PlainEvent, false>(bytes, is_all) {
        NextFrame::Parsed { frame, consumed } => {
            let origin = Origin {
                offset,
                base,
                consumed,
            };
            // Each of the frequent kinds returns on its own, so that its fields go straight to the caller's memory.
            match frame.kind() {
                FrameKind::Body => return frame_event(origin, &frame),
                FrameKind::Custom => return frame_event(origin, &frame),
                FrameKind::Unknown => return frame_event(origin, &frame),
                _ => return frame_event(origin, &frame),
            }
        }
        NextFrame::NeedMoreData(hint) => request_event(hint, base),
        NextFrame::Fault(error) => fault_event(error, base),
    }
}

/// Returns the next event of a stream, a fault, or a request for more bytes.
///
/// `pulleynavy_parse` of the C library is this call, and describes its errors.
#[inline(always)]
pub fn parse(parser: &mut StoredParser, bytes: &[u8], is_all: bool) -> PlainEvent
    ensures { ParsesPlain 0 (parser_of parser.old) is_all bytes.now result (parser_of parser.new) }
{
    next_event(parser, bytes, is_all, 0)
}

/// Writes the text of the fault that `parse` returns for the same arguments, and returns its length in bytes, or 0 without one.
///
/// `pulleynavy_format_fault` of the C library is this call, and describes its errors.
#[inline(always)]
pub fn write_next_fault(parser: &StoredParser, bytes: &[u8], is_all: bool, out: &mut [u8]) -> usize
    ensures { SaysFault (parser_of parser.now) is_all bytes.now out.old result out.new }
{
    let mut copy = *parser;
    write_fault(copy.next(bytes, is_all), out)
}

fn write_fault(answer: NextFrame<'_>, out: &mut [u8]) -> usize
    ensures { Says (answer_in answer.entry) out.old result out.new }
{
    match answer {
        NextFrame::Fault(error) => write_text(error.message().as_bytes(), out),
        _ => 0,
    }
}
