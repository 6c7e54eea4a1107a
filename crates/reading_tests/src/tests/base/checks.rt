// Checks that several readers share.
use crate::tests::{same, window};
use wasm_base::{Error, Fault, Result, expect_end, in_order, only_out_of_memory, read_flags};

// The flags that these bytes at 100 begin with, of at most 7, and the offset of the reader afterwards.
fn flags(bytes: &[u8]) -> (Result<Option<u8>>, u64) {
    let mut reader = window(bytes, 100);
    let found = read_flags(7, &mut reader);
    (found, reader.original_position())
}

#[test]
fn flags_up_to_a_bound(rt: HostRuntime) {
    same(&rt, flags(b"\x00"), (Ok(Some(0)), 101));
    same(&rt, flags(b"\x07\x01"), (Ok(Some(7)), 101));
    same(&rt, flags(b"\x87\x00"), (Ok(Some(7)), 102));
    same(&rt, flags(b"\x08"), (Ok(None), 101));
    // 263, whose low byte is 7.
    same(&rt, flags(b"\x87\x02"), (Ok(None), 102));
    same(&rt, flags(b"\xff\xff\xff\xff\x0f"), (Ok(None), 105));
    let truncated = Error::new(Fault::UnexpectedEof, 101);
    same(&rt, flags(b"\x87"), (Err(truncated), 100));
}

#[test]
fn trailing_bytes_at_the_top_of_the_offsets(
    rt: HostRuntime,
) -> std::result::Result<(), std::test::Fail> {
    let mut reader = window(b"ab", u64::MAX - 2);
    for offset in [u64::MAX - 2, u64::MAX - 1] {
        let trailing = Error::new(Fault::NameTrailing, offset);
        same(&rt, expect_end(Fault::NameTrailing, &reader), Err(trailing));
        reader.read_u8()?;
    }
    for _ in 0..2 {
        same(&rt, expect_end(Fault::NameTrailing, &reader), Ok(()));
    }
    Ok(())
}

#[test]
fn a_refused_index_is_not_the_last_one(rt: HostRuntime) {
    let mut last = None;
    let rows = [
        (5, true),
        (3, false),
        (4, false),
        (5, false),
        (6, true),
        (u32::MAX, true),
        (u32::MAX, false),
        (0, false),
    ];
    for (index, is_above) in rows {
        let refused = Error::new(Fault::NamesOrder, 12);
        let wanted = if is_above { Ok('a') } else { Err(refused) };
        let before = last;
        same(
            &rt,
            in_order(&mut last, index, 'a', Fault::NamesOrder, 12),
            wanted,
        );
        same(&rt, last, if is_above { Some(index) } else { before });
    }
}

#[test]
fn only_an_error_of_memory_is_kept(rt: HostRuntime) {
    let refused = Error::new(Fault::OutOfMemory, 0);
    same(
        &rt,
        only_out_of_memory(Error::new(Fault::OutOfMemory, 7)),
        Err(refused),
    );
    same(
        &rt,
        only_out_of_memory(Error::new(Fault::UnexpectedEof, 7)),
        Ok(()),
    );
}
