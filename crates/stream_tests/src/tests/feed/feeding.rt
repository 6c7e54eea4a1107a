// Feeders of streams that come in chunks.
use crate::tests::{SMALL, same};
use bitflags::Flags;
use std::alloc::{AllocError, Allocator, Global};
use std::ops::Range;
use std::process::Abort;
use std::test::Fail;
use test_devices::Sparing;
use wasm_feed::{Feeder, Step};
use wasm_parser::{Error, Fault, Payload, Result, WasmFeatures};

// More blocks than any of these feeders takes.
const AMPLE: u64 = 20;

// What a step is: how many bytes it shows, or how many it asks for.
#[derive(Clone, Copy, Debug, PartialEq, Eq)]
pub(super) enum Reported {
    Shows(usize),
    Asks(usize),
    Ends(u64),
    Refuses(Error),
}

fn reported_by(step: &Step<'_>) -> Reported {
    match step {
        Step::NeedMoreData(hint) => Reported::Asks(*hint),
        Step::Parsed {
            payload: Payload::End(at),
            ..
        } => Reported::Ends(*at),
        Step::Parsed { bytes, .. } => Reported::Shows(bytes.len()),
    }
}

pub(super) fn say(step: Result<Step<'_>>) -> Reported {
    match step {
        Ok(step) => reported_by(&step),
        Err(error) => Reported::Refuses(error),
    }
}

// What the next step is.
fn step(feeder: &mut Feeder) -> Reported {
    say(feeder.step())
}

// Like `step`, over no further bytes, of a feeder with any memory.
fn step_over_none<A: Allocator>(feeder: &mut Feeder<A>) -> Reported {
    match feeder.step_over(b"", say) {
        Ok((_, said)) => said,
        Err(error) => Reported::Refuses(error),
    }
}

// Pushes a chunk, if the feeder wants more.
pub(super) fn push<A: Allocator>(feeder: &mut Feeder<A>, piece: &[u8]) -> Result<()> {
    if feeder.wants_more() {
        feeder.push(piece)
    } else {
        Ok(())
    }
}

// Pushes a chunk and steps until more is asked for: the last step, and how many bytes are held and stored.
fn steps_after(rt: &impl Abort, feeder: &mut Feeder, piece: &[u8]) -> (Reported, usize, usize) {
    assert!(rt; feeder.wants_more());
    same(rt, push(feeder, piece), Ok(()));
    same(rt, feeder.held(), feeder.stored());
    let mut now = step(feeder);
    for _ in 0..3 {
        if let Reported::Shows(_) = now {
            now = step(feeder);
        }
    }
    (now, feeder.held(), feeder.stored())
}

#[test]
fn a_module_in_three_pieces(rt: HostRuntime) {
    let mut feeder = Feeder::new(rt.alloc(), 0, WasmFeatures::all());
    let rows: [(&[u8], (Reported, usize, usize)); 3] = [
        (&SMALL[..5], (Reported::Asks(3), 5, 5)),
        (&SMALL[5..10], (Reported::Asks(2), 2, 10)),
        (&SMALL[10..15], (Reported::Asks(1), 0, 7)),
    ];
    for (piece, wanted) in rows {
        same(&rt, steps_after(&rt, &mut feeder, piece), wanted);
    }
    same(&rt, push(&mut feeder, &SMALL[15..]), Ok(()));
    same(&rt, step(&mut feeder), Reported::Shows(3));
    same(&rt, step(&mut feeder), Reported::Asks(1));
    feeder.finish();
    assert!(rt; !feeder.wants_more());
    for _ in 0..2 {
        feeder.finish();
        same(&rt, step(&mut feeder), Reported::Ends(18));
    }
}

// What the next step is, and how many bytes are held after it.
fn step_and_held(feeder: &mut Feeder) -> (Reported, usize) {
    let now = step(feeder);
    (now, feeder.held())
}

// Pushes a chunk. The next steps are these, each with how many bytes are held after it.
fn steps_are(rt: &impl Abort, feeder: &mut Feeder, piece: &[u8], steps: &[(Reported, usize)]) {
    same(rt, push(feeder, piece), Ok(()));
    for wanted in steps {
        same(rt, step_and_held(feeder), *wanted);
    }
}

#[test]
fn what_is_held_after_each_step(rt: HostRuntime) {
    let mut feeder = Feeder::new(rt.alloc(), 0, WasmFeatures::all());
    steps_are(&rt, &mut feeder, &SMALL[..5], &[(Reported::Asks(3), 5)]);
    let steps = [(Reported::Shows(8), 2), (Reported::Asks(2), 2)];
    steps_are(&rt, &mut feeder, &SMALL[5..10], &steps);
    let steps = [
        (Reported::Shows(4), 3),
        (Reported::Shows(3), 0),
        (Reported::Asks(1), 0),
    ];
    steps_are(&rt, &mut feeder, &SMALL[10..15], &steps);
    let steps = [(Reported::Shows(3), 0), (Reported::Asks(1), 0)];
    steps_are(&rt, &mut feeder, &SMALL[15..], &steps);
    feeder.finish();
    same(&rt, step(&mut feeder), Reported::Ends(18));
}

// The range of the section of imports that a step shows, if these are the bytes that it consumed.
fn imports(step: &Step<'_>, consumed: &[u8]) -> Option<Range<u64>> {
    match step {
        Step::Parsed {
            bytes,
            payload: Payload::ImportSection(section),
        } => {
            if *bytes == consumed {
                Some(section.range())
            } else {
                None
            }
        }
        _other => None,
    }
}

// Like `imports`, of the next step.
fn next_imports(feeder: &mut Feeder, consumed: &[u8]) -> Result<Option<Range<u64>>> {
    let step = feeder.open().step()?;
    Ok(imports(&step, consumed))
}

#[test]
fn faults_and_features(rt: HostRuntime) {
    let mut feeder = Feeder::new(rt.alloc(), 7, WasmFeatures::MEMORY64);
    let pushed = push(&mut feeder, b"\0asm\x01\0\0\0\x02\x01\0\x02");
    same(&rt, pushed, Ok(()));
    same(&rt, step_over_none(&mut feeder), Reported::Shows(8));
    let imports = next_imports(&mut feeder, b"\x02\x01\0");
    same(&rt, imports, Ok(Some(17..18)));
    same(&rt, step(&mut feeder), Reported::Asks(1));
    same(&rt, push(&mut feeder, b"\0"), Ok(()));
    let fault = Error::new(Fault::OutOfOrder, 20);
    for _ in 0..2 {
        same(&rt, step(&mut feeder), Reported::Refuses(fault));
    }
}

#[test]
fn pushes_past_the_top(rt: HostRuntime) {
    let mut feeder = Feeder::new(rt.alloc(), 18446744073709551607, WasmFeatures::all());
    same(&rt, push(&mut feeder, b"\0asm\x01\0\0\0"), Ok(()));
    same(&rt, step(&mut feeder), Reported::Shows(8));
    same(&rt, step(&mut feeder), Reported::Asks(1));
    let fault = Error::new(Fault::OffsetRange, 18446744073709551615);
    same(&rt, push(&mut feeder, b"\0"), Err(fault));
    same(&rt, (feeder.held(), feeder.stored()), (0, 8));
    assert!(rt; feeder.wants_more());
    same(&rt, push(&mut feeder, b""), Ok(()));
    feeder.finish();
    same(&rt, step(&mut feeder), Reported::Ends(18446744073709551615));
}

// Pushes the next bytes of a download where the feeder wants more, or says that it has ended. Returns the rest.
fn feed<'a>(feeder: &mut Feeder, download: &'a [u8], size: usize) -> Result<&'a [u8]> {
    if !feeder.wants_more() {
        return Ok(download);
    }
    if download.is_empty() {
        feeder.finish();
        return Ok(download);
    }
    let (piece, later) = download.split_at(download.len().min(size));
    push(feeder, piece)?;
    Ok(later)
}

// The loop that the documents show: how many bytes the last part before the end has.
fn last_part(feeder: &mut Feeder) -> Result<usize> {
    let mut download = SMALL;
    let mut last = 0;
    for _ in 0..20 {
        match feeder.open().step()? {
            Step::Parsed {
                payload: Payload::End(_),
                ..
            } => break,
            Step::Parsed { bytes, .. } => last = bytes.len(),
            Step::NeedMoreData(_) => {}
        }
        download = feed(feeder, download, 5)?;
    }
    Ok(last)
}

#[test]
fn pieces_of_a_download(rt: HostRuntime) {
    let mut feeder = Feeder::new(rt.alloc(), 0, WasmFeatures::all());
    same(&rt, last_part(&mut feeder), Ok(3));
    same(&rt, feeder.held(), 0);
}

// A feeder whose memory runs out.
type SparingFeeder<'a> = Feeder<&'a Sparing<Global>>;

// Pushes a chunk. A push that is refused leaves the feeder as it was, and is repeated with more memory. Returns whether it was
// refused.
fn push_again(
    rt: &impl Abort,
    feeder: &mut SparingFeeder<'_>,
    heap: &Sparing<Global>,
    piece: &[u8],
) -> bool {
    let before = (feeder.held(), feeder.stored());
    if push(feeder, piece).is_ok() {
        return false;
    }
    same(rt, (feeder.held(), feeder.stored()), before);
    heap.give(AMPLE);
    same(rt, push(feeder, piece), Ok(()));
    true
}

// Notes the steps of a feeder up to a request or the end.
fn note_steps(
    feeder: &mut SparingFeeder<'_>,
    steps: &mut Vec<Reported>,
) -> std::result::Result<(), AllocError> {
    for _ in 0..4 {
        let step = step_over_none(feeder);
        steps.push(step)?;
        let Reported::Shows(_) = step else {
            break;
        };
    }
    Ok(())
}

// Notes the steps of the module in chunks of these sizes. Returns whether a push was refused.
fn note_pieces(
    rt: &impl Abort,
    feeder: &mut SparingFeeder<'_>,
    heap: &Sparing<Global>,
    sizes: &[usize],
    steps: &mut Vec<Reported>,
) -> bool {
    let mut refused = false;
    let mut rest = SMALL;
    for size in sizes {
        let (piece, later) = rest.split_at(rest.len().min(*size));
        rest = later;
        refused |= push_again(rt, feeder, heap, piece);
        note_steps(feeder, steps).expect(rt, "out of memory");
    }
    feeder.finish();
    note_steps(feeder, steps).expect(rt, "out of memory");
    refused
}

// The steps are these, with this many blocks at first. Returns whether a push was refused.
fn says_which(
    rt: &impl Abort,
    alloc: Global,
    blocks: u64,
    sizes: &[usize],
    wanted: &[Reported],
) -> bool {
    let heap = Sparing::new(alloc, blocks);
    let mut feeder = Feeder::new_in(&heap, 0, WasmFeatures::all());
    let mut steps = Vec::new(alloc);
    let refused = note_pieces(rt, &mut feeder, &heap, sizes, &mut steps);
    same(rt, steps.as_slice(), wanted);
    refused
}

// Each growth is refused in turn, until all succeed.
fn repeats(rt: &impl Abort, alloc: Global, sizes: &[usize], wanted: &[Reported]) {
    let mut runs = 0;
    for blocks in 0..AMPLE {
        if !says_which(rt, alloc, blocks, sizes, wanted) {
            runs = blocks;
            break;
        }
    }
    assert!(rt; runs >= 2, "{runs}");
}

#[test]
fn refused_pushes_are_repeated(rt: HostRuntime) {
    let steps = [
        Reported::Asks(3),
        Reported::Shows(8),
        Reported::Asks(2),
        Reported::Shows(4),
        Reported::Shows(3),
        Reported::Asks(1),
        Reported::Shows(3),
        Reported::Asks(1),
        Reported::Ends(18),
    ];
    repeats(&rt, rt.alloc(), &[5, 5, 5, 3], &steps);
    let steps = [
        Reported::Shows(8),
        Reported::Asks(1),
        Reported::Shows(4),
        Reported::Shows(3),
        Reported::Shows(3),
        Reported::Asks(1),
        Reported::Ends(18),
    ];
    repeats(&rt, rt.alloc(), &[8, 10], &steps);
}

// What a compiler makes of the parts of a module.
#[derive(Clone, Copy, Debug, PartialEq, Eq)]
enum Task {
    Expect(u32),
    Compile(u64),
    Declare,
    Finish,
    Wait,
}

fn task_for(payload: &Payload<'_>) -> Task {
    match payload {
        Payload::CodeSectionStart { count, .. } => Task::Expect(*count),
        Payload::CodeSectionEntry(body) => Task::Compile(body.range().end),
        Payload::End(_) => Task::Finish,
        _ => Task::Declare,
    }
}

fn task_of(step: Step<'_>) -> Task {
    match step {
        Step::Parsed { payload, .. } => task_for(&payload),
        Step::NeedMoreData(_) => Task::Wait,
    }
}

// The loop of a compiler that takes bodies as they come, as the documents show it.
fn note_tasks(
    feeder: &mut Feeder,
    mut download: &[u8],
    tasks: &mut Vec<Task>,
) -> std::result::Result<(), Fail> {
    for _ in 0..40 {
        let task = task_of(feeder.open().step()?);
        if task == Task::Finish {
            break;
        }
        tasks.push(task)?;
        download = feed(feeder, download, 9)?;
    }
    Ok(())
}

#[test]
fn bodies_as_they_come(rt: HostRuntime) -> std::result::Result<(), Fail> {
    let download = b"\0asm\x01\0\0\0\x03\x03\x02\0\0\x0a\x08\x02\x02\0\x0b\x03\0\x01\x0b";
    let mut feeder = Feeder::new(rt.alloc(), 0, WasmFeatures::all());
    let mut tasks = Vec::new(rt.alloc());
    note_tasks(&mut feeder, download, &mut tasks)?;
    let wanted = [
        Task::Wait,
        Task::Declare,
        Task::Wait,
        Task::Declare,
        Task::Expect(2),
        Task::Wait,
        Task::Compile(19),
        Task::Compile(23),
        Task::Wait,
    ];
    same(&rt, tasks.as_slice(), wanted.as_slice());
    Ok(())
}
