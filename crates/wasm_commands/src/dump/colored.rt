// A sink that colors a dump.
ghost use Rattle.std.specs.Prelude.{◌≡◌, ◌≢◌, ℕ, ◌≤◌, ◌<◌, ◌+◌, ◌++◌, ◌∷◌, [], true, length, take, IfOk, OnErr, is_ok, if◌then◌else◌};
ghost use Rattle.std.specs.Io.KnownBytes.{Appends, WriteAppends};
ghost use Rattle.wasm_commands.specs.Colors.{plain, without_colors};

use super::gathered::{Run, gather};
use super::inks::{Spot, sequence};
use super::plain::{ESC, count_plain};
use wasm_io::{Failed, Sink, write_all};

/// A sink that forwards text to another one, with escape sequences between the bytes that set colors, or without.
///
/// The bytes that it has taken are those of the other sink without the sequences. Each line ends in the terminal's own
/// color. An ESC in the text is followed by a `\`, so that it begins no sequence. Without colors it forwards the bytes as
/// they are.
///
/// ```rattle
/// let mut output = Colored::new(BoundedSink::new(alloc, 1000)?, true);
/// write_all(&mut output, b"end 8\n").ok().ok_or("no room")?;
/// let colored = output.into_inner();
/// assert!(rt; colored.written().len() > 6);
/// ```
// Colors follow from the bytes of the text alone, so the code that shows items knows nothing of them. Each write begins with a
// sequence, so no clause depends on what was written before. Whether there are colors is a field, not a type parameter, so that
// the program contains the code that shows items only once.
#[derive(Drop)]
pub struct Colored<W> {
    inner: W,
    is_colored: bool,
    spot: Spot,
}

impl<W: Sink> Colored<W> {
    /// Creates a sink that forwards text to this one, with colors or without.
    pub fn new(inner: W, is_colored: bool) -> Self
        ensures inner { result.inner ≡ inner }
        ensures colors { result.is_colored ≡ is_colored }
    {
        Colored {
            inner,
            is_colored,
            spot: Spot::Start,
        }
    }

    /// Returns the other sink, with what it has taken.
    pub fn into_inner(self) -> W
        ensures { result ≡ self.inner }
    {
        let Colored {
            inner,
            is_colored: _,
            spot: _,
        } = self;
        inner
    }
}

// Writes all of `head`, then as much of `body` as one write takes. Returns how many bytes of `body` that was.
fn write_after<W: Sink>(output: &mut W, head: &[u8], body: &[u8]) -> Result<usize, Failed>
    ensures bound { IfOk result (λ n. n ≤ length body.now) }
    ensures some { IfOk result (λ n. 0 < length body.now → 0 < n) }
    ensures ok { IfOk result (λ n. Appends (W.taken output.old) (W.taken output.new)
        (head.now ++ take n body.now)) }
    ensures err { OnErr result ((n : ℕ)
        × Appends (W.taken output.old) (W.taken output.new) (take n head.now)) }
    ensures failed { W.has_failed output.new
        ≡ (if is_ok result then W.has_failed output.old else true) }
{
    write_all(output, head)?;
    output.write(body)
}

// Writes an ESC of the text itself, followed by a `\`, so that it begins no sequence.
fn write_escape<W: Sink>(output: &mut W) -> Result<usize, Failed>
    ensures one { IfOk result (λ n. n ≡ 1) }
    ensures bytes { WriteAppends (plain (W.taken output.old)) (plain (W.taken output.new))
        result (27 ∷ []) }
    ensures failed { W.has_failed output.new
        ≡ (if is_ok result then W.has_failed output.old else true) }
{
    write_after(output, &[ESC], b"\\")
}

// Returns the length without colors of the first `written` bytes of what was gathered.
fn count_written(run: &Run, written: usize) -> usize
    requires within { written ≤ length run.now.text }
    requires count { run.now.count ≡ length (without_colors run.now.text) }
    ensures { result ≡ length (without_colors (take written run.now.text)) }
{
    let bytes = run.text.as_bytes();
    if written == bytes.len() {
        run.count
    } else {
        count_plain(&bytes[..written])
    }
}

// Returns the position after `count` bytes of a text, of which the first led to `start`.
fn spot_after(run: &Run, start: Spot, later: &[u8], count: usize) -> Spot {
    if count == run.count {
        return run.spot;
    }
    let mut spot = start;
    for byte in later.iter().take(count.saturating_sub(1)) {
        spot = spot.after(*byte);
    }
    spot
}

// Writes a prefix of a text that does not begin with an ESC, and moves the position after it. Returns its length.
fn write_colors<W: Sink>(
    output: &mut W,
    spot: &mut Spot,
    first: u8,
    later: &[u8],
) -> Result<usize, Failed>
    requires { first ≢ 27 }
    ensures some { IfOk result (λ n. 0 < n) }
    ensures bound { IfOk result (λ n. n ≤ length later.now + 1) }
    ensures bytes { WriteAppends (plain (W.taken output.old)) (plain (W.taken output.new))
        result (first ∷ later.now) }
    ensures failed { W.has_failed output.new
        ≡ (if is_ok result then W.has_failed output.old else true) }
{
    let start = spot.after(first);
    let run = gather(*spot, first, later);
    let written = write_after(output, sequence(start.ink()), run.text.as_bytes())?;
    let count = count_written(&run, written);
    *spot = spot_after(&run, start, later, count);
    Ok(count)
}

// Writes a prefix of a text with its colors, and moves the position after it. Returns its length.
fn write_colored<W: Sink>(output: &mut W, spot: &mut Spot, buf: &[u8]) -> Result<usize, Failed>
    ensures bound { IfOk result (λ n. n ≤ length buf.now) }
    ensures some { IfOk result (λ n. 0 < length buf.now → 0 < n) }
    ensures bytes { WriteAppends (plain (W.taken output.old)) (plain (W.taken output.new))
        result buf.now }
    ensures failed { W.has_failed output.new
        ≡ (if is_ok result then W.has_failed output.old else true) }
{
    let Some((first, later)) = buf.split_first() else {
        return Ok(0);
    };
    if *first == ESC {
        let count = write_escape(output)?;
        *spot = spot.after(ESC);
        Ok(count)
    } else {
        write_colors(output, spot, *first, later)
    }
}

impl<W: Sink> Sink for Colored<W> {
    ghost use Rattle.wasm_commands.specs.Colors.{marked};

    // The number before the bytes stays where it is. So wherever the bytes are known, it is known that the sink still has colors,
    // or still has none.
    ghost taken = { λ s. marked s.is_colored (W.taken s.inner) };

    ghost has_failed = { λ s. W.has_failed s.inner };

    fn write(&mut self, buf: &[u8]) -> Result<usize, Failed> {
        if !self.is_colored {
            return self.inner.write(buf);
        }
        write_colored(&mut self.inner, &mut self.spot, buf)
    }

    fn failed(&self) -> bool {
        self.inner.failed()
    }
}
