// A source that records the sizes of the buffers that it is passed.
ghost use Rattle.std.specs.Prelude.{◌≡◌};

use wasm_io::{Failed, SliceSource, Source};

/// A source of the bytes of a slice that records the lengths of the smallest and the largest buffer that it was passed.
#[derive(Drop)]
pub struct Measuring<'a> {
    inner: SliceSource<'a>,
    smallest: usize,
    largest: usize,
}

impl<'a> Measuring<'a> {
    /// A source of these bytes, which was passed no buffer yet.
    pub fn new(bytes: &'a [u8]) -> Measuring<'a>
        ensures { result.inner.rest.now ≡ bytes.now }
    {
        Measuring {
            inner: SliceSource::new(bytes),
            smallest: usize::MAX,
            largest: 0,
        }
    }

    /// The lengths of the smallest and the largest buffer: `usize::MAX` and 0 before the first one.
    pub fn measured(&self) -> (usize, usize)
        ensures smallest { result.0 ≡ self.now.smallest }
        ensures largest { result.1 ≡ self.now.largest }
    {
        (self.smallest, self.largest)
    }
}

impl Source for Measuring<'_> {
    ghost use Rattle.std.specs.Prelude.{Some, false};

    ghost remaining = { λ s. Some s.inner.rest.now };

    ghost has_failed = { λ _. false };

    fn read(&mut self, buf: &mut [u8]) -> Result<usize, Failed> {
        self.smallest = self.smallest.min(buf.len());
        self.largest = self.largest.max(buf.len());
        self.inner.read(buf)
    }

    fn failed(&self) -> bool {
        self.inner.failed()
    }
}
