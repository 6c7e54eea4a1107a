// A source and a sink that fail or go short at a chosen call.
ghost use Rattle.std.specs.Prelude.{◌≡◌, false};

use super::{PARTS, PARTS_LISTING, ends, lists};
use crate::tests::{SMALL, same, same_at};
use std::alloc::Global;
use std::io::{self, Write};
use std::process::Abort;
use test_devices::Measuring;
use wasm_feed::{
    BoundedSink, Ended, Failed, ListError, ReadSource, Sink, SliceSource, Source, WriteSink,
};

/// A source of the bytes of a slice, a few at a time, that fails at one call.
#[derive(Drop)]
pub(crate) struct Failing<'a> {
    rest: &'a [u8],
    step: usize,
    calls_left: usize,
    failed: bool,
}

impl<'a> Failing<'a> {
    /// Gives `step` bytes a call, and fails after this many calls.
    pub(crate) fn after(bytes: &'a [u8], step: usize, calls: usize) -> Self
        ensures { result.failed ≡ false }
    {
        Failing {
            rest: bytes,
            step,
            calls_left: calls,
            failed: false,
        }
    }
}

impl Source for Failing<'_> {
    ghost use Rattle.std.specs.Prelude.{Some};

    ghost remaining = { λ s. Some s.rest.now };

    ghost has_failed = { λ s. s.failed };

    fn read(&mut self, buf: &mut [u8]) -> Result<usize, Failed> {
        if self.calls_left == 0 {
            self.failed = true;
            return Err(Failed);
        }
        self.calls_left -= 1;
        let count = buf.len().min(self.rest.len()).min(self.step.max(1));
        buf[..count].copy_from_slice(&self.rest[..count]);
        self.rest = &self.rest[count..];
        Ok(count)
    }

    fn failed(&self) -> bool {
        self.failed
    }
}

/// The listing of `SMALL`.
const LISTING: &[u8] =
    b"version 0 8 1 module\nsection 3 10 12 1\ncode 14 18 1 3\nbody 16 18\nend 18\n";

/// A sink that takes one byte a call, and fails at one call.
#[derive(Drop)]
struct Slow {
    inner: BoundedSink,
    calls_left: usize,
    failed: bool,
}

impl Sink for Slow {
    ghost use Rattle.std.specs.Prelude.{Some};

    ghost taken = { λ s. Some s.inner.bytes.items };

    ghost has_failed = { λ s. s.failed };

    fn write(&mut self, buf: &[u8]) -> Result<usize, Failed> {
        let Some(calls) = self.calls_left.checked_sub(1) else {
            self.failed = true;
            return Err(Failed);
        };
        self.calls_left = calls;
        let first = &buf[..buf.len().min(1)];
        match self.inner.write(first) {
            Ok(count) => Ok(count),
            Err(_) => {
                self.failed = true;
                Err(Failed)
            }
        }
    }

    fn failed(&self) -> bool {
        self.failed
    }
}

fn sink(rt: &impl Abort, alloc: Global, size: usize) -> BoundedSink {
    BoundedSink::new(alloc, size).expect(rt, "out of memory")
}

// The listing of what this source returns ends so, with these lines. The source fails where the listing does.
fn lists_from(
    rt: &impl Abort,
    alloc: Global,
    mut input: Failing<'_>,
    piece: usize,
    wanted: Result<Ended, ListError>,
    lines: &[u8],
) {
    let place = (piece, input.step, input.calls_left);
    let fails = wanted.is_err();
    let mut output = sink(rt, alloc, 200);
    let ended = ends(alloc, &mut input, &mut output, piece);
    let failed = (input.failed(), output.failed());
    same_at(
        rt,
        (ended, output.written(), failed),
        (wanted, lines, (fails, false)),
        &place,
    );
}

/// Where the header, the sections, the start of the code section and the body of `PARTS` end, and how many bytes of lines are
/// written up to there.
const DECIDED: [(usize, usize); 8] = [
    (8, 21),
    (32, 37),
    (55, 55),
    (77, 72),
    (81, 90),
    (84, 107),
    (105, 119),
    (128, 140),
];

// The lines that the first bytes of `PARTS` decide.
fn decided(given: usize) -> &'static [u8] {
    let mut count = 0;
    for (end, lines) in &DECIDED {
        if *end <= given {
            count = *lines;
        }
    }
    &PARTS_LISTING[..count.min(PARTS_LISTING.len())]
}

/// How many bytes are read at once, and how many reads there are: the last says that it is the end.
const READS: [(usize, usize); 3] = [(1, 129), (3, 44), (16, 9)];

#[test]
fn a_source_that_fails_leaves_the_lines_of_what_it_gave(rt: HostRuntime) {
    for (piece, reads) in READS {
        for calls in 0..reads {
            let input = Failing::after(PARTS, piece, calls);
            let lines = decided(calls.saturating_mul(piece));
            lists_from(&rt, rt.alloc(), input, piece, Err(ListError::Input), lines);
        }
        let input = Failing::after(PARTS, piece, reads);
        lists_from(&rt, rt.alloc(), input, piece, Ok(Ended::End), PARTS_LISTING);
    }
}

#[test]
fn a_source_that_fails_at_its_second_read(rt: HostRuntime) {
    let input = Failing::after(SMALL, 10, 1);
    let lines = &LISTING[..21];
    lists_from(&rt, rt.alloc(), input, 10, Err(ListError::Input), lines);
}

#[test]
fn a_source_that_goes_short_changes_nothing(rt: HostRuntime) {
    for step in 1..20 {
        let input = Failing::after(SMALL, step, 20);
        lists_from(&rt, rt.alloc(), input, 5, Ok(Ended::End), LISTING);
    }
}

// The listing of a stream to a sink that takes this many bytes, one a call, ends so, with these lines. The sink fails where the
// listing does. Returns how many more bytes the sink takes.
fn lists_slowly(
    rt: &impl Abort,
    alloc: Global,
    stream: &[u8],
    piece: usize,
    calls: usize,
    wanted: Result<Ended, ListError>,
    lines: &[u8],
) -> usize {
    let mut input = SliceSource::new(stream);
    let mut output = Slow {
        inner: sink(rt, alloc, 200),
        calls_left: calls,
        failed: false,
    };
    let fails = wanted.is_err();
    let ended = ends(alloc, &mut input, &mut output, piece);
    let failed = (input.failed(), output.failed());
    same_at(
        rt,
        (ended, output.inner.written(), failed),
        (wanted, lines, (false, fails)),
        &(piece, calls),
    );
    output.calls_left
}

#[test]
fn a_sink_that_fails_at_each_byte_of_a_module(rt: HostRuntime) {
    let failed = Err(ListError::Output);
    for piece in [3, 10, 18] {
        for calls in 0..PARTS_LISTING.len() {
            let lines = &PARTS_LISTING[..calls];
            lists_slowly(&rt, rt.alloc(), PARTS, piece, calls, failed, lines);
        }
    }
}

#[test]
fn a_sink_that_takes_one_byte_a_call(rt: HostRuntime) {
    let (calls, ended) = (PARTS_LISTING.len(), Ok(Ended::End));
    let left = lists_slowly(&rt, rt.alloc(), PARTS, 65_536, calls, ended, PARTS_LISTING);
    same(&rt, left, 0);
}

#[test]
fn a_sink_that_goes_short_or_fails(rt: HostRuntime) {
    for calls in 0..LISTING.len() {
        let (failed, lines) = (Err(ListError::Output), &LISTING[..calls]);
        lists_slowly(&rt, rt.alloc(), SMALL, 5, calls, failed, lines);
    }
    for calls in [LISTING.len(), LISTING.len() + 1] {
        lists_slowly(&rt, rt.alloc(), SMALL, 5, calls, Ok(Ended::End), LISTING);
    }
}

#[test]
fn a_reader_and_a_writer_of_the_standard_library(rt: HostRuntime) {
    let mut input = ReadSource::new(SMALL);
    let mut written = Vec::<u8>::new(rt.alloc());
    let mut output = WriteSink::new(&mut written);
    let ended = ends(rt.alloc(), &mut input, &mut output, 65_536);
    same(
        &rt,
        (ended, input.failed(), output.failed()),
        (Ok(Ended::End), false, false),
    );
    same(&rt, written.as_slice(), LISTING);
}

/// A writer that takes nothing at its first call and everything later, and counts its calls and bytes.
#[derive(Drop)]
struct Stalling {
    calls: usize,
    taken: usize,
}

impl Write for Stalling {
    fn write(&mut self, buf: &[u8]) -> io::Result<usize> {
        self.calls = self.calls.saturating_add(1);
        if self.calls == 1 {
            return Ok(0);
        }
        self.taken = self.taken.saturating_add(buf.len());
        Ok(buf.len())
    }

    fn flush(&mut self) -> io::Result<()> {
        Ok(())
    }
}

#[test]
fn a_writer_that_takes_nothing_at_first(rt: HostRuntime) {
    let mut writer = Stalling { calls: 0, taken: 0 };
    let mut input = SliceSource::new(SMALL);
    let mut output = WriteSink::new(&mut writer);
    let ended = ends(rt.alloc(), &mut input, &mut output, 65_536);
    same(
        &rt,
        (ended, output.failed(), output.write(b"")),
        (Err(ListError::Output), true, Ok(0)),
    );
    drop(output);
    same(&rt, (writer.calls, writer.taken), (2, 0));
}

/// A writer that takes all bytes and notes how often it was flushed, which fails the first times.
#[derive(Drop)]
struct Noting {
    failures: usize,
    flushes: usize,
}

impl Write for Noting {
    fn write(&mut self, buf: &[u8]) -> io::Result<usize> {
        Ok(buf.len())
    }

    fn flush(&mut self) -> io::Result<()> {
        self.flushes = self.flushes.saturating_add(1);
        if self.flushes <= self.failures {
            return Err(io::Error::from(io::ErrorKind::BrokenPipe));
        }
        Ok(())
    }
}

#[test]
fn a_sink_flushes_its_writer(rt: HostRuntime) {
    let mut writer = Noting {
        failures: 1,
        flushes: 0,
    };
    let mut sink = WriteSink::new(&mut writer);
    same(&rt, sink.write(b"abc"), Ok(3));
    for wanted in [Err(Failed), Ok(()), Ok(())] {
        same(&rt, (sink.flush(), sink.failed()), (wanted, true));
    }
    drop(sink);
    same(&rt, writer.flushes, 3);
}

// The sizes of the smallest and the largest read of a listing by chunks of this size.
fn sizes_of_reads(rt: &impl Abort, alloc: Global, piece: usize) -> (usize, usize) {
    let mut input = Measuring::new(SMALL);
    let mut output = sink(rt, alloc, 100);
    let ended = ends(alloc, &mut input, &mut output, piece);
    same_at(
        rt,
        (ended, output.written()),
        (Ok(Ended::End), LISTING),
        &piece,
    );
    input.measured()
}

// Each read has room for one chunk, and for no more.
#[test]
fn each_read_has_room_for_a_chunk(rt: HostRuntime) {
    for piece in [1, 3, 65_536] {
        let sizes = sizes_of_reads(&rt, rt.alloc(), piece);
        same_at(&rt, sizes, (piece, piece), &piece);
    }
}

// The listing to a sink of this size ends so, with these lines. The sink fails where the listing does.
fn lists_within(
    rt: &impl Abort,
    alloc: Global,
    size: usize,
    wanted: Result<Ended, ListError>,
    lines: &[u8],
) {
    let fails = wanted.is_err();
    let mut output = sink(rt, alloc, size);
    let ended = lists(alloc, SMALL, &mut output, 4);
    same_at(
        rt,
        (ended, output.failed(), output.written()),
        (wanted, fails, lines),
        &size,
    );
}

#[test]
fn a_sink_of_each_size(rt: HostRuntime) {
    for size in 0..LISTING.len() {
        let (failed, lines) = (Err(ListError::Output), &LISTING[..size]);
        lists_within(&rt, rt.alloc(), size, failed, lines);
    }
    for size in [LISTING.len(), LISTING.len() + 1] {
        lists_within(&rt, rt.alloc(), size, Ok(Ended::End), LISTING);
    }
}

// What a write returns, and whether the sink has failed after it.
fn written(sink: &mut BoundedSink, bytes: &[u8]) -> (Result<usize, Failed>, bool) {
    (sink.write(bytes), sink.failed())
}

#[test]
fn a_sink_that_discards(rt: HostRuntime) {
    let mut sink = io::sink();
    for bytes in [b"".as_slice(), b"abc", &[0; 70_000]] {
        same(&rt, Sink::write(&mut sink, bytes), Ok(bytes.len()));
        same(&rt, sink.failed(), false);
    }
}

#[test]
fn a_sink_takes_what_fits(rt: HostRuntime) {
    let mut sink = sink(&rt, rt.alloc(), 5);
    let rows: [(&[u8], (Result<usize, Failed>, bool)); 6] = [
        (b"abc", (Ok(3), false)),
        (b"", (Ok(0), false)),
        (b"def", (Ok(2), false)),
        (b"", (Ok(0), false)),
        (b"f", (Err(Failed), true)),
        (b"", (Ok(0), true)),
    ];
    for (bytes, wanted) in rows {
        same_at(&rt, written(&mut sink, bytes), wanted, &bytes);
    }
    same(&rt, sink.written(), b"abcde".as_slice());
}
