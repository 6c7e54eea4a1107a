// The events of a stream, as values that own their bytes.
ghost use Rattle.std.specs.Prelude.{◌≡◌, IfOk, IfErr};
ghost use Rattle.wasm_base.specs.FaultAt.{fault_at};
ghost use Rattle.wasm_base.specs.Owned.{out_of_memory};
ghost use Rattle.wasm_parser.specs.ParseAnswer.{report_of};
ghost use Rattle.wasm_feed.specs.Events.{IsKindOf, offsets_of, is_last, IsEventOfStep};
ghost use Rattle.wasm_feed.specs.Steps.{told};

use crate::feeder::Step;
use std::alloc::{Allocator, Global};
use std::ops::Range;
use wasm_parser::{Encoding, Error, Fault, Payload, Result};

/// The kind of an event, with the numbers that the bytes announce.
///
/// ```rattle
/// let events = read_pieces(alloc, 0, &[b"\0asm\x01\0\0\0\x01\x01\0".as_slice()])?;
/// assert_eq!(rt; events[1].kind, EventKind::Section { id: 1, count: 0 });
/// assert_eq!(rt; events[2].kind, EventKind::End);
/// ```
///
/// (Core specification, Binary format, Modules.)
#[derive(Debug, Drop, PartialEq, Eq)]
pub enum EventKind {
    /// The header.
    Version {
        /// The 16-bit version: 1 for a module, 13 for a component.
        num: u16,
        /// The encoding that the header announces: a module or a component.
        encoding: Encoding,
    },
    /// A section that begins with a count of items. The items are not read.
    Section {
        /// The id of the section.
        id: u8,
        /// The announced number of items.
        count: u32,
    },
    /// The start section.
    Start {
        /// The index of the function.
        func: u32,
    },
    /// The data count section.
    DataCount {
        /// The announced number of data segments.
        count: u32,
    },
    /// The start of a code section.
    Code {
        /// The announced number of bodies.
        count: u32,
        /// The size of the content after the count, in bytes.
        size: u32,
    },
    /// The body of one function in the code section.
    Body,
    /// A custom section.
    Custom {
        /// The offset of the data, which begins after the name, in bytes from the start of the stream.
        data_offset: u64,
    },
    /// A section with an unknown id.
    Unknown {
        /// The id of the section.
        id: u8,
    },
    /// The end of the stream, without a fault.
    End,
    /// The fault at which the stream stops.
    Fault(Error),
}

/// An event of a stream, as a value that owns its bytes.
///
/// `read_pieces` returns the events of a stream.
///
/// ```rattle
/// let events = read_pieces(alloc, 0, &[b"\0asm\x01\0\0\0\x01\x01\0".as_slice()])?;
/// assert_eq!(rt; events[1].range, 10..11);
/// assert_eq!(rt; events[1].bytes.as_slice(), [1, 1, 0].as_slice());
/// ```
#[derive(Debug, Drop, PartialEq, Eq)]
pub struct Event<A: Allocator = Global> {
    /// The kind of the event.
    pub kind: EventKind,
    /// The offsets of the header, of the section's content or of the body, in bytes from the start of the stream.
    ///
    /// For the start of a code section they are those of the whole content, including the bodies. For the end and for a
    /// fault the range is empty.
    pub range: Range<u64>,
    /// A copy of the bytes that the event consumed, empty for the end and for a fault.
    pub bytes: Vec<u8, A>,
}

impl EventKind {
    /// Whether no event comes after it.
    pub(crate) fn is_last(&self) -> bool
        ensures { result ≡ is_last self.now }
    {
        matches!(self, EventKind::End | EventKind::Fault(_))
    }
}

// The kind and the offsets of a payload.
fn payload_kind(payload: &Payload) -> (EventKind, Range<u64>)
    ensures kind { IsKindOf (report_of payload.now) result.0 }
    ensures range { result.1 ≡ offsets_of (report_of payload.now) }
{
    match payload {
        Payload::Version {
            num,
            encoding,
            range,
        } => (
            EventKind::Version {
                num: *num,
                encoding: *encoding,
            },
            range.start..range.end,
        ),
        Payload::StartSection { func, range } => (
            EventKind::Start { func: *func },
            range.start..range.end,
        ),
        Payload::DataCountSection { count, range } => (
            EventKind::DataCount { count: *count },
            range.start..range.end,
        ),
        Payload::CodeSectionStart {
            count,
            unchecked_range,
            size,
        } => (
            EventKind::Code {
                count: *count,
                size: *size,
            },
            unchecked_range.start..unchecked_range.end,
        ),
        Payload::CodeSectionEntry(body) => (EventKind::Body, body.range()),
        Payload::CustomSection(section) => (
            EventKind::Custom {
                data_offset: section.data_offset(),
            },
            section.range(),
        ),
        Payload::UnknownSection { id, range, .. } => (
            EventKind::Unknown { id: *id },
            range.start..range.end,
        ),
        Payload::End(offset) => (EventKind::End, *offset..*offset),
        _ => match payload.as_counted() {
            Some(section) => {
                let id = section.id;
                let count = section.count;
                (EventKind::Section { id, count }, section.range)
            }
            None => unreachable!(),
        },
    }
}

/// What a step says of the stream: its event, with a copy of its bytes, or nothing where it asks for more.
pub(crate) fn event_of<A: Allocator>(alloc: A, step: Result<Step<'_>>) -> Result<Option<Event<A>>>
    ensures is { IfOk result (λ event. IsEventOfStep (told step.entry) event) }
    ensures memory { IfErr result (λ e. fault_at e ≡ out_of_memory) }
{
    match step {
        Ok(Step::NeedMoreData(_)) => Ok(None),
        Ok(Step::Parsed { bytes, payload }) => {
            let (kind, range) = payload_kind(&payload);
            match bytes.to_vec(alloc) {
                Ok(bytes) => Ok(Some(Event { kind, range, bytes })),
                Err(_) => Err(Error::new(Fault::OutOfMemory, 0)),
            }
        }
        Err(error) => Ok(Some(Event {
            kind: EventKind::Fault(error),
            range: error.offset()..error.offset(),
            bytes: Vec::new(alloc),
        })),
    }
}
