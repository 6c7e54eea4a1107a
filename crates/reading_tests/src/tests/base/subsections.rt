// Subsections: their ends, copies and texts.
ghost use Rattle.std.specs.Prelude.{⊤, ◌+◌, ◌<◌, ◌^◌, length};

use crate::tests::{is_printed, same, window};
use std::alloc::Global;
use std::test::Fail;
use wasm_base::{
    BinaryReader, Error, Fault, NeverAllocates, NumberKind, Result, Subsection, Subsections,
};

// An id, a number that the window begins with, and the offset after it.
#[derive(Clone, Copy, Debug, PartialEq, Eq)]
struct Numbered(u8, u32, u64);

impl<'a> Subsection<'a> for Numbered {
    ghost meaning = { λ id window outcome. ⊤ };

    type Allocation = NeverAllocates;

    fn from_reader(alloc: Global, id: u8, mut reader: BinaryReader<'a>) -> Result<Self> {
        let number = reader.read_var_u32()?;
        Ok(Numbered(id, number, reader.original_position()))
    }
}

fn over<'a>(alloc: Global, bytes: &'a [u8], offset: u64) -> Subsections<'a, Numbered>
    requires { offset + length bytes.now < 2 ^ 64 }
{
    Subsections::new(alloc, window(bytes, offset))
}

#[test]
fn subsections_one_after_the_other(rt: HostRuntime) -> std::result::Result<(), Fail> {
    let bytes = &[
        0x7f, 0x82, 0x80, 0, 9, 8, 3, 0, 4, 5, 0xff, 0xff, 0xff, 0xff, 0x1f, 5, 1, 7,
    ];
    let mut all = over(rt.alloc(), bytes, 1000);
    same(&rt, all.range(), 1000..1018);
    same(&rt, all.next(), Some(Ok(Numbered(127, 9, 1005))));
    same(&rt, all.original_position(), 1006);
    let missing = Error::new(Fault::UnexpectedEof, 1008);
    same(&rt, all.next(), Some(Err(missing)));
    let mut copy = all.clone()?;
    let large = Error::new(Fault::NumberTooLarge(NumberKind::VarU32), 1014);
    same(&rt, all.next(), Some(Err(large)));
    same(&rt, all.next(), Some(Ok(Numbered(5, 7, 1018))));
    same(&rt, copy.original_position(), 1008);
    same(&rt, copy.next(), Some(Err(large)));
    for _ in 0..4 {
        same(&rt, all.next(), None);
    }
    is_printed(&rt, rt.alloc(), &all, "Subsections { range: 1000..1018 }");
    Ok(())
}

#[test]
fn how_many_come(rt: HostRuntime) {
    let short = over(rt.alloc(), &[5, 0xff], 70);
    same(&rt, short.count(), 1);
    let mut refused = over(rt.alloc(), &[0xff, 0xff, 0], 0);
    let id = Error::new(Fault::InvalidU7, 0);
    same(&rt, refused.next(), Some(Err(id)));
    same(&rt, refused.count(), 2);
}
