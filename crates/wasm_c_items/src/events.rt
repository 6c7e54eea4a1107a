// The results of a parser as plain numbers.
ghost use Rattle.std.specs.Prelude.{◌≡◌};
ghost use Rattle.wasm_base.specs.FaultAt.{fault_at};
ghost use Rattle.wasm_c_items.specs.Events.{code_event, encoding_code, event_between, fault_event, placed_at, report_event, request_event};

use crate::faults::{NO_FAULT, PlainFault, plain_fault};
use crate::spans::distance;
use std::ops::Range;
use wasm_base::Error;
use wasm_frames::{Frame, FrameKind};
use wasm_grammar::{CODE_SECTION, CUSTOM_SECTION, DATA_COUNT_SECTION, Encoding, START_SECTION};

/// An event of a stream, a fault or a request for more input. Fields that the kind does not use are 0.
///
/// Offsets are in bytes from the start of the stream.
///
/// (Core specification, Binary format, Modules.)
#[repr(C)]
#[derive(Clone, Copy)]
pub struct PlainEvent {
    /// The kind of the event, a `pulleynavy_event_kind`: 0 a request for more input, 1 a header, 2 a section that
    /// begins with a count of items, 3 the start section, 4 the data count section, 5 the start of a code section, 6 a
    /// body, 7 a custom section, 8 a section with an unknown id, 9 the end of the stream, 10 a fault.
    pub kind: u32,
    /// The id of the section, a `pulleynavy_section_id` if it is known; for a header 0 for a module and 1 for a
    /// component.
    pub id: u32,
    /// The announced number of items, bodies or segments; the index of the start function; for a header the 16-bit
    /// version.
    pub count: u32,
    /// The size of a code section's content after the count, in bytes.
    pub size: u32,
    /// The offset where it begins: the header, the section's content, the body, the end or the fault.
    pub start: u64,
    /// The offset where it ends. For a code section, it is the end of the content, including the bodies.
    pub end: u64,
    /// The offset of the first item after a count, of the first body of a code section, or of the data of a custom
    /// section. It is 0 for a section with a count that was skipped.
    pub data_offset: u64,
    /// The position in memory where it begins: that of the byte at offset `start`.
    ///
    /// It counts bytes from the first one passed to `pulleynavy_parse`, or from the start of a feeder's storage. For a
    /// request, the end and a fault it is the position of the first byte that is not consumed.
    pub at: usize,
    /// The number of consumed bytes: 0 for a request, the end and a fault, otherwise at least 1. For a part that was
    /// skipped, it is the number of bytes that were passed, all of which belong to the part.
    pub consumed: usize,
    /// For a request, how many bytes to read next, at least 1; otherwise 0. Fewer can be enough: after a byte 0 at the
    /// start of a section, it is 3, for a header, although the byte can also begin a custom section.
    pub hint: usize,
    /// The size of a custom section's name in bytes. The name ends where the data begins.
    pub name_size: usize,
    /// The fault of an event of kind 10, otherwise none.
    pub fault: PlainFault,
}

pub(crate) const SILENT: PlainEvent = PlainEvent {
    kind: 0,
    id: 0,
    count: 0,
    size: 0,
    start: 0,
    end: 0,
    data_offset: 0,
    at: 0,
    consumed: 0,
    hint: 0,
    name_size: 0,
    fault: NO_FAULT,
};

/// Where an event was read: the offset of the first byte, where that is in memory, and how many bytes were consumed.
#[derive(Clone, Copy)]
pub(crate) struct Origin {
    pub(crate) offset: u64,
    pub(crate) base: usize,
    pub(crate) consumed: usize,
}

/// An event of this kind with these offsets.
#[inline(always)]
pub(crate) fn event_between(origin: Origin, kind: u32, id: u32, from: u64, to: u64) -> PlainEvent
    ensures { result ≡ placed_at origin (event_between kind id from to) }
{
    PlainEvent {
        kind,
        id,
        start: from,
        end: to,
        at: origin.base.saturating_add(distance(origin.offset, from)),
        consumed: origin.consumed,
        ..SILENT
    }
}

fn encoding_code(encoding: Encoding) -> u32
    ensures { result ≡ encoding_code encoding }
{
    match encoding {
        Encoding::Module => 0,
        Encoding::Component => 1,
    }
}

// The start of a code section.
#[inline(always)]
fn code_event(origin: Origin, count: u32, from: u64, to: u64, size: u32) -> PlainEvent
    ensures { result ≡ placed_at origin (code_event count from to size) }
{
    PlainEvent {
        count,
        size,
        data_offset: to.saturating_sub(u64::from(size)),
        ..event_between(origin, 5, u32::from(CODE_SECTION), from, to)
    }
}

/// A frame.
#[inline(always)]
pub(crate) fn frame_event(origin: Origin, frame: &Frame) -> PlainEvent
    ensures { result ≡ placed_at origin (report_event frame.now) }
{
    let Range { start, end } = frame.range();
    match frame.kind() {
        FrameKind::Body => event_between(origin, 6, u32::from(CODE_SECTION), start, end),
        FrameKind::Custom => PlainEvent {
            data_offset: frame.data_offset(),
            name_size: frame.name_bytes().len(),
            ..event_between(origin, 7, u32::from(CUSTOM_SECTION), start, end)
        },
        FrameKind::Unknown => event_between(origin, 8, u32::from(frame.id()), start, end),
        FrameKind::Items => PlainEvent {
            count: frame.count(),
            data_offset: frame.data_offset(),
            ..event_between(origin, 2, u32::from(frame.id()), start, end)
        },
        FrameKind::Header => PlainEvent {
            count: u32::from(frame.version()),
            ..event_between(origin, 1, encoding_code(frame.encoding()), start, end)
        },
        FrameKind::Start => PlainEvent {
            count: frame.count(),
            ..event_between(origin, 3, u32::from(START_SECTION), start, end)
        },
        FrameKind::DataCount => PlainEvent {
            count: frame.count(),
            ..event_between(origin, 4, u32::from(DATA_COUNT_SECTION), start, end)
        },
        FrameKind::CodeStart => code_event(origin, frame.count(), start, end, frame.size()),
        FrameKind::End => event_between(origin, 9, 0, start, start),
    }
}

/// A fault.
pub(crate) fn fault_event(error: Error, base: usize) -> PlainEvent
    ensures { result ≡ fault_event base (fault_at error) }
{
    PlainEvent {
        kind: 10,
        start: error.offset(),
        end: error.offset(),
        at: base,
        fault: plain_fault(error),
        ..SILENT
    }
}

/// A request for more bytes.
pub(crate) fn request_event(hint: usize, base: usize) -> PlainEvent
    ensures { result ≡ request_event base hint }
{
    PlainEvent {
        at: base,
        hint,
        ..SILENT
    }
}
