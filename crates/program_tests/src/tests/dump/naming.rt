// Names of items, and such whose memory runs out at a chosen growth.
use std::alloc::{Allocator, Global};
use std::process::Abort;
use std::test::Fail;
use test_devices::Sparing;
use wasm_io::ListError;
use wasm_output::{ItemNames, Space};

const SPACES: [Space; 9] = [
    Space::Types,
    Space::Functions,
    Space::Tables,
    Space::Memories,
    Space::Tags,
    Space::Globals,
    Space::Elements,
    Space::DataSegments,
    Space::Symbols,
];

// Two names of one item in each index space; the second ones are not kept.
const FIRST: [&str; 9] = ["a", "bc", "", "d\n", "\0", "e", "f", "g", "p"];

const SECOND: [&str; 9] = ["h", "i", "j", "k", "l", "m", "n", "o", "q"];

// More blocks than these names take.
const AMPLE: u64 = 100;

fn add<A: Allocator + Clone>(
    alloc: A,
    names: &mut ItemNames<A>,
    space: Space,
    index: u32,
    name: &str,
) -> Result<(), ListError> {
    names.add(alloc, space, index, name)
}

fn name_of<A: Allocator>(names: &ItemNames<A>, space: Space, index: u64) -> Option<&str> {
    names.of(space, index)
}

#[test]
fn an_item_has_its_first_name(rt: HostRuntime) -> Result<(), Fail> {
    let mut names = ItemNames::new(rt.alloc());
    for text in [FIRST, SECOND] {
        for i in 0..9 {
            assert!(rt; add(rt.alloc(), &mut names, SPACES[i], u32::MAX, text[i]).is_ok());
        }
    }
    for i in 0..9 {
        assert!(rt; name_of(&names, SPACES[i], 4_294_967_295) == Some(FIRST[i]));
        for other in [0, 4_294_967_294, 4_294_967_296, 8_589_934_591, u64::MAX] {
            assert!(rt; name_of(&names, SPACES[i], other).is_none());
        }
    }
    Ok(())
}

// Adds the first names, which are there afterwards, up to the growth that is refused, after which there are no others. Answers
// whether none was.
fn adds_all(rt: &impl Abort, heap: &Sparing<Global>) -> bool {
    let mut names = ItemNames::new_in(heap);
    for i in 0..9 {
        let added = add(heap, &mut names, SPACES[i], 7, FIRST[i]);
        for k in 0..9 {
            let is_there = k < i || (k == i && added.is_ok());
            let wanted = if is_there { Some(FIRST[k]) } else { None };
            assert!(rt; name_of(&names, SPACES[k], 7) == wanted, "{i} {k}");
        }
        if let Err(why) = added {
            assert!(rt; why == ListError::Memory, "{i}");
            return false;
        }
    }
    true
}

#[test]
fn names_whose_memory_runs_out(rt: HostRuntime) -> Result<(), Fail> {
    let mut refused = 0;
    for blocks in 0..AMPLE {
        let heap = Sparing::new(rt.alloc(), blocks);
        if adds_all(&rt, &heap) {
            refused = blocks;
            break;
        }
    }
    assert!(rt; refused >= 9, "{refused}");
    Ok(())
}
