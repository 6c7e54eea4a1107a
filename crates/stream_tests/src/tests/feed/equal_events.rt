// What equality of events says.
use crate::tests::{same, same_at};
use std::alloc::Global;
use std::ops::Range;
use std::process::Abort;
use wasm_base::{BinaryReader, Error, Fault};
use wasm_feed::{Event, EventKind};
use wasm_parser::Encoding;

// Each kind, and each with one of its numbers changed.
fn kinds() -> [EventKind; 17] {
    let encoding = Encoding::Module;
    [
        EventKind::Version { num: 1, encoding },
        EventKind::Version { num: 13, encoding },
        EventKind::Version {
            num: 1,
            encoding: Encoding::Component,
        },
        EventKind::Section { id: 1, count: 300 },
        EventKind::Section { id: 2, count: 300 },
        EventKind::Section { id: 1, count: 301 },
        EventKind::Start { func: 300 },
        EventKind::DataCount { count: 300 },
        EventKind::Code {
            count: 300,
            size: 1000,
        },
        EventKind::Code {
            count: 300,
            size: 1001,
        },
        EventKind::Body,
        EventKind::Custom { data_offset: 300 },
        EventKind::Unknown { id: 14 },
        EventKind::End,
        EventKind::Fault(Error::new(Fault::UnexpectedEof, 300)),
        EventKind::Fault(Error::new(Fault::UnexpectedEof, 301)),
        EventKind::Fault(Error::new(Fault::UnknownVersion, 300).with_number(2)),
    ]
}

#[test]
fn kinds_are_equal_to_themselves_alone(rt: HostRuntime) {
    for (place, one) in kinds().iter().enumerate() {
        for (other_place, other) in kinds().iter().enumerate() {
            same_at(&rt, one == other, place == other_place, &(one, other));
        }
    }
}

#[test]
fn hints_of_faults_do_not_count(rt: HostRuntime) {
    let missing = BinaryReader::new(&[], 300)
        .read_bytes(5)
        .expect_err(&rt, "no fault");
    let fault = Error::new(Fault::UnexpectedEof, 300);
    same(
        &rt,
        (missing.needed_hint(), fault.needed_hint()),
        (Some(5), None),
    );
    same(&rt, EventKind::Fault(missing), EventKind::Fault(fault));
}

fn event(
    rt: &impl Abort,
    alloc: Global,
    kind: EventKind,
    range: Range<u64>,
    bytes: &[u8],
) -> Event {
    let bytes = bytes.to_vec(alloc).expect(rt, "out of memory");
    Event { kind, range, bytes }
}

#[test]
fn events_are_equal_by_kind_range_and_bytes(rt: HostRuntime) {
    let one = event(&rt, rt.alloc(), EventKind::Body, 300..302, &[2, 0, 11]);
    let rows: [(EventKind, Range<u64>, &[u8], bool); 6] = [
        (EventKind::Body, 300..302, &[2, 0, 11], true),
        (EventKind::Body, 299..302, &[2, 0, 11], false),
        (EventKind::Body, 300..303, &[2, 0, 11], false),
        (EventKind::Body, 300..302, &[2, 0, 12], false),
        (EventKind::Body, 300..302, &[2, 0], false),
        (EventKind::End, 300..302, &[2, 0, 11], false),
    ];
    for (kind, range, bytes, are_equal) in rows {
        let other = event(&rt, rt.alloc(), kind, range, bytes);
        same_at(&rt, one == other, are_equal, &other);
    }
}
