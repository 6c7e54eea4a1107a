// Lists whose memory runs out at a chosen growth.
ghost use Rattle.std.specs.Prelude.{◌<◌, ◌^◌, length};

use crate::tests::{same, same_at, window};
use std::alloc::Global;
use std::process::Abort;
use test_devices::Sparing;
use wasm_base::{BinaryReader, Error, Fault, FromReader, NumberKind, read_list};

// More blocks than the list takes.
const AMPLE: u64 = 40;

const BYTES: &[u8; 22] =
    b"\x14\0\x01\x02\x03\x04\x05\x06\x07\x08\x09\x0a\x0b\x0c\x0d\x0e\x0f\x10\x11\x12\xff\x01";

const NUMBERS: &[u32] = &[
    0, 1, 2, 3, 4, 5, 6, 7, 8, 9, 10, 11, 12, 13, 14, 15, 16, 17, 18, 255,
];

#[test]
fn a_list_with_ample_memory(rt: HostRuntime) {
    let mut reader = BinaryReader::new(BYTES, 0);
    let list = read_list::<u32, Global>(rt.alloc(), &mut reader).expect(&rt, "a fault");
    same(&rt, list.as_slice(), NUMBERS);
}

// Whether this many blocks suffice for the list. If not, the error is `OutOfMemory`.
fn suffices(rt: &impl Abort, alloc: Global, blocks: u64) -> bool {
    let heap = Sparing::new(alloc, blocks);
    let mut reader = BinaryReader::new(BYTES, 0);
    match read_list::<u32, _>(&heap, &mut reader) {
        Ok(list) => {
            same(rt, (list.as_slice(), reader.eof()), (NUMBERS, true));
            true
        }
        Err(e) => {
            same_at(rt, e, Error::new(Fault::OutOfMemory, 0), &blocks);
            false
        }
    }
}

#[test]
fn a_list_whose_memory_runs_out(rt: HostRuntime) {
    let mut refused = 0;
    for blocks in 0..AMPLE {
        if suffices(&rt, rt.alloc(), blocks) {
            refused = blocks;
            break;
        }
    }
    assert!(rt; refused >= 2, "{refused}");
}

#[test]
fn an_empty_list_takes_no_memory(rt: HostRuntime) {
    let none = Sparing::new(rt.alloc(), 0);
    let mut reader = BinaryReader::new(b"\x80\x00\x05", 0);
    let list = read_list::<u32, _>(&none, &mut reader).expect(&rt, "a fault");
    same(&rt, (list.len(), reader.current_position()), (0, 2));
}

// The fault of a list that is read without memory.
fn refusal<'a, T: FromReader<'a> + Drop>(alloc: Global, bytes: &'a [u8]) -> Option<Error>
    requires { length bytes.now < 2 ^ 64 }
{
    let none = Sparing::new(alloc, 0);
    read_list::<T, _>(&none, &mut window(bytes, 0)).err()
}

// A count on its own allocates nothing, nor does an item that is a fault, or a malformed count.
#[test]
fn a_count_asks_for_no_memory(rt: HostRuntime) {
    let many = refusal::<u32>(rt.alloc(), b"\xff\xff\xff\xff\x0f");
    same(&rt, many, Some(Error::new(Fault::UnexpectedEof, 5)));
    let truths = refusal::<bool>(rt.alloc(), b"\xff\xff\xff\xff\x0f\x02");
    same(&rt, truths, Some(Error::new(Fault::InvalidBool, 5)));
    let large = refusal::<bool>(rt.alloc(), b"\xff\xff\xff\xff\x1f");
    let fault = Fault::NumberTooLarge(NumberKind::VarU32);
    same(&rt, large, Some(Error::new(fault, 4)));
}
