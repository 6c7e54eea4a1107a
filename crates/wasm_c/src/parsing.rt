// A parser: each call takes plain numbers and bytes of the caller, and none has a condition.
ghost use Rattle.std.specs.Prelude.{◌≡◌};
ghost use Rattle.wasm_frames.specs.ParserState.{initial_state};
ghost use Rattle.wasm_c_items.specs.Events.{ParsesPlain};
ghost use Rattle.wasm_frames.specs.Stored.{parser_of, skipped_of};
ghost use Rattle.wasm_c_items.specs.Skips.{SkipsPlain};
ghost use Rattle.wasm_c_items.specs.Texts.{SaysFault};

use wasm_c_items::{PlainEvent, new_parser, parse, skip, write_next_fault};
use wasm_parser::StoredParser;

/// Returns a parser for a stream that begins at this offset and is read with these features.
#[unsafe(no_mangle)]
pub extern "C" fn pulleynavy_parser_init(offset: u64, features: u32) -> StoredParser
    // Proved: `pulleynavy_parser_init` is a new parser; `pulleynavy_skip_section` skips the rest of
    //   a code section, and elsewhere nothing [the clauses of both (`initial_state`, `skipped_of`)]
    ensures { parser_of result ≡ initial_state offset features }
{
    new_parser(offset, features)
}

/// Returns the next event of a stream, a fault, or a request for more input.
///
/// `bytes` are the remaining bytes of the stream or, if `is_all` is false, a prefix of them. Pass the bytes after the
/// consumed ones in the next call. After a request, call again with more bytes after the same ones, or at the end of
/// input with `is_all` true: the parser then never requests more. A fault or a request leaves the parser unchanged.
/// After the end, it returns the end again.
///
/// # Errors
///
/// A fault is an event of kind 10. Its `fault` has the kind and the offset; the same call returns it again. Kinds 2 to
/// 21 can occur:
///
/// * `BAD_MAGIC`, `UNKNOWN_VERSION`, `MAGIC_AT_SECTION`, `MALFORMED_SECTION_ID`, `NUMBER_TOO_LONG`, `NUMBER_TOO_LARGE`
///   and `SECTION_TOO_LARGE` at the malformed field.
/// * `UNEXPECTED_EOF` where a header, a section, a body or one of their fields is truncated, or overruns the section
///   around it.
/// * `OUT_OF_ORDER`, `FUNCTION_CODE_DIFFER` and `CODE_WITHOUT_FUNCTION` at the content of the section.
/// * `DATA_COUNT_DIFFER` at the end of the data section; `FUNCTION_WITHOUT_CODE` and `DATA_COUNT_WITHOUT_DATA` at the
///   end of the stream.
/// * `START_CONTENT`, `DATA_COUNT_CONTENT` and `TRAILING_CODE` at the first trailing byte of a section.
/// * `STRING_SIZE` and `MALFORMED_UTF8` in the name of a custom section.
/// * `OFFSET_RANGE` at the offset of the parser, if `bytes` end beyond the offset 2^64 - 1.
///
/// ```c
/// const uint8_t bytes[] = {0, 'a', 's', 'm', 1, 0, 0, 0, 3, 2, 1, 0};
/// pulleynavy_parser parser = pulleynavy_parser_init(0, PULLEYNAVY_ALL_FEATURES);
/// pulleynavy_event header = pulleynavy_parse(&parser, bytes, 12, true);
/// assert(header.kind == PULLEYNAVY_EVENT_VERSION && header.consumed == 8);
/// pulleynavy_event section = pulleynavy_parse(&parser, bytes + 8, 4, true);
/// assert(section.kind == PULLEYNAVY_EVENT_SECTION && section.id == PULLEYNAVY_SECTION_FUNCTION && section.count == 1);
/// // A function was declared, but there is no code section.
/// pulleynavy_event last = pulleynavy_parse(&parser, bytes + 12, 0, true);
/// assert(last.fault.kind == PULLEYNAVY_FAULT_FUNCTION_WITHOUT_CODE && last.fault.offset == 12);
/// ```
#[unsafe(no_mangle)]
pub extern "C" fn pulleynavy_parse(
    parser: &mut StoredParser,
    bytes: &[u8],
    is_all: bool,
) -> PlainEvent
    // Proved: `pulleynavy_parse` returns as plain numbers what a parser returns: the next event of
    //   every stream that continues this way, a fault, or a request. It says where in the bytes the
    //   event's contents are and consumes bytes of the input. If the bytes don't decide, it asks
    //   for at least one more. Afterwards it is where that parser is: after a fault or a request,
    //   where it was [the clause of `pulleynavy_parse` (`ParsesPlain`: `asks_for_some`, `waits`, `answers`)]
    ensures { ParsesPlain 0 (parser_of parser.old) is_all bytes.now result (parser_of parser.new) }
{
    parse(parser, bytes, is_all)
}

/// Skips the next section or body if its first fields are in `bytes`, but not all of it, and returns its event. So a
/// part needs no buffer of its size.
///
/// `bytes` are a prefix of the remaining bytes of the stream. Call it after `pulleynavy_parse` returned a request for
/// the same bytes. If it skips the part, all of `bytes` belong to the part, and the parser is at its end: drop the
/// bytes of the stream up to the offset `end` of the event, whatever they are, and pass those after it to the next
/// call. The event is that of `pulleynavy_parse`, except for two fields: `consumed` is `bytes_size`, and `data_offset`
/// is 0 for a section with a count.
///
/// It returns a request with the hint 0, and leaves the parser unchanged, if `pulleynavy_parse` has to look: if all of
/// the part is in `bytes`, if its first fields are not, at a fault, a header and the end, and at the start of a code
/// section, a start section and a data count section. The first fields are the name of a custom section, and the count
/// of a section that begins with one.
///
/// # Errors
///
/// It returns no fault. If the stream ends before the offset `end`, its fault is `UNEXPECTED_EOF` at the offset
/// `start`.
///
/// ```c
/// // A custom section "a" of 100 bytes, of which the first 4 are here.
/// const uint8_t bytes[] = {0, 'a', 's', 'm', 1, 0, 0, 0, 0, 100, 1, 'a'};
/// pulleynavy_parser parser = pulleynavy_parser_init(0, PULLEYNAVY_ALL_FEATURES);
/// pulleynavy_parse(&parser, bytes, 12, false);
/// assert(pulleynavy_parse(&parser, bytes + 8, 4, false).kind == PULLEYNAVY_EVENT_NEED_MORE);
/// pulleynavy_event part = pulleynavy_skip(&parser, bytes + 8, 4);
/// assert(part.kind == PULLEYNAVY_EVENT_CUSTOM && part.start == 10 && part.end == 110 && part.data_offset == 12);
/// assert(part.consumed == 4 && parser.offset == 110);
/// ```
#[unsafe(no_mangle)]
pub extern "C" fn pulleynavy_skip(parser: &mut StoredParser, bytes: &[u8]) -> PlainEvent
    // Proved: `pulleynavy_skip` skips what `skip_next` of a parser does, and returns it as an
    //   event: its first fields, the offsets of its content, and all bytes that were passed as
    //   consumed. If it skips nothing, it returns a request with the hint 0, and the parser is
    //   unchanged [the clause of `pulleynavy_skip` (`SkipsPlain`: `skip_event`, `state_after_skip`,
    //   `SkipsNext`)]
    ensures { SkipsPlain (parser_of parser.old) bytes.now result (parser_of parser.new) }
{
    skip(parser, bytes)
}

/// Skips the remaining bytes of a code section, and returns their number. Pass the bytes after them to the next
/// `pulleynavy_parse`.
///
/// Call it after the start of a code section or after a body. Elsewhere it returns 0 and leaves the parser unchanged.
///
/// ```c
/// const uint8_t bytes[] = {0, 'a', 's', 'm', 1, 0, 0, 0, 3, 2, 1, 0, 10, 4, 1, 2, 0, 11};
/// pulleynavy_parser parser = pulleynavy_parser_init(0, PULLEYNAVY_ALL_FEATURES);
/// size_t at = 0;
/// for (int i = 0; i < 3; i++) at += pulleynavy_parse(&parser, bytes + at, 18 - at, true).consumed;
/// at += pulleynavy_skip_section(&parser);
/// assert(at == 18 && pulleynavy_parse(&parser, bytes + at, 0, true).kind == PULLEYNAVY_EVENT_END);
/// ```
#[unsafe(no_mangle)]
pub extern "C" fn pulleynavy_skip_section(parser: &mut StoredParser) -> u32
    ensures { skipped_of (parser_of parser.old) ≡ (result, parser_of parser.new) }
{
    parser.skip_section()
}

/// Writes the text of the fault that `pulleynavy_parse` returns for the same arguments, and returns the length of the
/// whole text.
///
/// The text is that of `pulleynavy_format_message`, at most 80 bytes, without a zero byte at the end. If `out` is
/// shorter, it gets the first `out_size` bytes. The parser is unchanged.
///
/// # Errors
///
/// It returns 0, and writes nothing, if `pulleynavy_parse` returns no fault.
#[unsafe(no_mangle)]
pub extern "C" fn pulleynavy_format_fault(
    parser: &StoredParser,
    bytes: &[u8],
    is_all: bool,
    out: &mut [u8],
) -> usize
    // Proved: `pulleynavy_format_fault` writes the text of the fault that `pulleynavy_parse`
    //   returns there, as far as there is room, and nothing else
    ensures { SaysFault (parser_of parser.now) is_all bytes.now out.old result out.new }
{
    write_next_fault(parser, bytes, is_all, out)
}
