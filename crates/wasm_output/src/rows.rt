// Rows of bytes.
ghost use Rattle.std.specs.Prelude.{◌≡◌, ◌≤◌, ◌+◌, ◌*◌, ◌++◌, [], None, IfNone, IfOk, IfSome, drop, length, take, true};
ghost use Rattle.wasm_output.specs.Rows.{BeginsWithRow};
ghost use Rattle.std.specs.List.{flat_map};
ghost use Rattle.wasm_output.specs.Tree.{after_blank};

use crate::escapes::hexadecimal_digits;
use crate::gathered::Gathered;
use std::alloc::{AllocError, Global};
use std::marker::Model;
use wasm_io::{Base, ShortText, write_offset, write_word};

/// How many bytes of the stream a row shows at most.
const WIDTH: usize = 16;

// Writes a byte over those from this place on, after a blank.
fn write_byte(bytes: &mut [u8], at: usize, byte: u8) -> usize
    requires { at + 3 ≤ length bytes.old }
    ensures end { result ≡ at + 3 }
    ensures written { take result bytes.new ≡ take at bytes.old ++ after_blank byte }
{
    let digits = hexadecimal_digits(byte);
    bytes[at] = b' ';
    bytes[at + 1] = digits[0];
    bytes[at + 2] = digits[1];
    at + 3
}

// Writes bytes over those from this place on, each after a blank.
fn write_row(bytes: &mut [u8], at: usize, shown: &[u8]) -> usize
    requires { at + 3 * length shown.now ≤ length bytes.old }
    ensures end { result ≡ at + 3 * length shown.now }
    ensures written { take result bytes.new
        ≡ take at bytes.old ++ flat_map after_blank shown.now }
{
    let mut end = at;
    for byte in shown {
        end = write_byte(bytes, end, *byte);
    }
    end
}

/// A row: bytes of the stream, and the offset of the first one, in this base.
#[derive(Drop)]
pub(crate) struct Row {
    base: Base,
    offset: u64,
    bytes: Gathered<WIDTH>,
}

// The row of these bytes, of which the first is at this offset.
fn row_of(base: Base, offset: u64, bytes: &[u8]) -> Row
    requires { length bytes.now ≤ 16 }
    ensures base { result.base ≡ base }
    ensures offset { result.offset ≡ offset }
    ensures bytes { result.bytes ≡ bytes.now }
{
    let mut gathered = Gathered::new();
    gathered.put(bytes);
    Row {
        base,
        offset,
        bytes: gathered,
    }
}

impl ShortText for Row {
    ghost use Rattle.wasm_output.specs.Tree.{row_text};

    ghost text = { λ row. row_text row.base row.offset row.bytes };

    fn write_at(&self, bytes: &mut [u8], at: usize) -> usize {
        let at = write_offset(bytes, at, self.base, self.offset);
        let at = write_word(bytes, at, " |");
        let at = write_row(bytes, at, self.bytes.as_bytes());
        write_word(bytes, at, "\n")
    }
}

/// Bytes of the stream that are to be shown, and where the rows of them end.
#[derive(Drop)]
pub(crate) struct Rows {
    bytes: Vec<u8>,
    shown: usize,
    // The offset in the whole stream of the first that wasn't shown.
    offset: u64,
    // The offsets of items, at which a row ends.
    cuts: Vec<u64>,
    passed: usize,
}

impl Model for Rows {
    ghost use Rattle.std.specs.Prelude.{ℕ, List, drop};

    ghost Value = { List ℕ };

    ghost view = { λ r. drop r.shown r.bytes.items };
}

impl Rows {
    /// No bytes. Does not allocate.
    pub(crate) fn new(alloc: Global) -> Rows
        ensures { result ≡ [] }
    {
        Rows {
            bytes: Vec::new(alloc),
            shown: 0,
            offset: 0,
            cuts: Vec::new(alloc),
            passed: 0,
        }
    }

    /// Those of these bytes, which begin at this offset.
    pub(crate) fn of(
        alloc: Global,
        offset: u64,
        bytes: &[u8],
        cuts: Vec<u64>,
    ) -> Result<Rows, AllocError>
        ensures { IfOk result (λ rows. rows ≡ bytes.now) }
    {
        Ok(Rows {
            bytes: bytes.to_vec(alloc)?,
            shown: 0,
            offset,
            cuts,
            passed: 0,
        })
    }

    /// Returns whether all bytes were shown.
    #[inline(always)]
    pub(crate) fn is_empty(&self) -> bool
        ensures { result ≡ true → self.now ≡ [] }
    {
        self.shown >= self.bytes.len()
    }

    /// Passes a cut, and returns the offset of the next one, if there is one.
    pub(crate) fn next_cut(&mut self) -> Option<u64>
        ensures { self.new ≡ self.old }
    {
        let cut = *self.cuts.get(self.passed)?;
        self.passed += 1;
        Some(cut)
    }

    // How many bytes the next row shows, if it ends at this offset at the latest, or may end anywhere.
    fn width(&self, end: Option<u64>, rest: &[u8]) -> usize
        ensures within { (result ≤ 16) × (result ≤ length rest.now) }
        ensures all { end ≡ None → result ≡ 0 → rest.now ≡ [] }
    {
        let most = rest.len().min(WIDTH);
        match end {
            Some(end) => match usize::try_from(end.saturating_sub(self.offset)) {
                Ok(before) => most.min(before),
                Err(_) => most,
            },
            None => most,
        }
    }

    /// The next row, with its offset in this base, and how many bytes it shows, if bytes are left: before the end, or
    /// anywhere.
    pub(crate) fn next_row(&self, base: Base, end: Option<u64>) -> Option<(Row, usize)>
        ensures none { IfNone result (end ≡ None → self.now ≡ []) }
        ensures some { IfSome result (λ row. BeginsWithRow row.0.bytes row.1 self.now) }
        ensures base { IfSome result (λ row. row.0.base ≡ base) }
    {
        let rest = after(&self.bytes, self.shown);
        let count = self.width(end, rest);
        if count == 0 {
            return None;
        }
        Some((row_of(base, self.offset, &rest[..count]), count))
    }

    /// Passes bytes that were shown.
    pub(crate) fn pass(&mut self, count: usize)
        requires { count ≤ length self.old }
        ensures { self.new ≡ drop count self.old }
    {
        self.shown += count;
        self.offset = self.offset.saturating_add(count as u64);
    }
}

// The bytes after the first `shown`.
fn after(bytes: &[u8], shown: usize) -> &[u8]
    ensures { result.now ≡ drop shown bytes.now }
{
    if shown <= bytes.len() {
        &bytes[shown..]
    } else {
        &[]
    }
}
