// A reader of bytes that knows where they are in the whole stream.
ghost use Rattle.std.specs.Fn.{FnOnceReturnsAtMut};
ghost use Rattle.std.specs.Prelude.{IsUtf8, ⊤, ◌≡◌, ◌+◌, ◌<◌, ◌≤◌, ◌^◌, ◌==◌, ◌↔◌, IsTrue, IfOk, OnOk, OnErr, Some, None, length, true};
ghost use Rattle.wasm_base.specs.FaultAt.{fault_at, at_offset, hint_of};
ghost use Rattle.wasm_base.specs.Features.{feature_bits, takes_wide_limits, all_features};
ghost use Rattle.wasm_base.specs.Float.{bits_of_32, bits_of_64, u64_at};
ghost use Rattle.wasm_base.specs.Septets.{sum_bound};
ghost use Rattle.wasm_base.specs.Header.{agree, magic, header_version_at};
ghost use Rattle.wasm_base.specs.Hints.{NotOutOfMemory, Hints, missing_at, missing_of_sized, missing_of_header};
ghost use Rattle.wasm_base.specs.Item.{Means};
ghost use Rattle.wasm_base.specs.Name.{bytes_at, byte_at, peeked_at, peeked_byte_at, of_four, u32_at, u7_at, name_limit, text_at, window_at};
ghost use Rattle.wasm_base.specs.TextOf.{text_of};
ghost use Rattle.wasm_base.specs.Number.{after_number, bits_of, bytes_read, number, unsigned_at};
ghost use Rattle.wasm_base.specs.Outcome.{Gives, GivesBy};
ghost use Rattle.wasm_base.specs.Signed.{signed_at, FitsBits};
ghost use Rattle.wasm_base.specs.Skip.{skipped_name_at, skipped_numbers_at, window_of, NeverGoesBack, Skips};
ghost use Rattle.wasm_base.specs.Widths.{is_signed};
ghost use Rattle.wasm_base.specs.Window.{place, advanced, whole_window, KeepsWindow, window_over, range_of, rest_range};
ghost use Rattle.wasm_base.specs.declared.fault.Fault.TheVariants.{UnexpectedEof};
ghost use Rattle.wasm_base.specs.declared.fault.NumberKind.TheVariants.{VarU32, VarI32, VarU64, VarI64, VarS33};

use crate::error::{Error, Result};
use crate::fault::{Fault, NumberKind};
use crate::features::WasmFeatures;
use crate::float::{Ieee32, Ieee64};
use crate::item::FromReader;
use crate::lanes::{LANES, are_below_128, single_byte_run};
use crate::limits::MAX_WASM_STRING_SIZE;
use crate::number::{Found, number_in, signed_of};
use crate::utf8::is_utf8;
use bitflags::Flags;
use std::alloc::AllocError;
use std::marker::Model;
use std::ops::Range;
use std::simd::prelude::*;

/// A range of a stream's bytes (a window) and the current position in it.
///
/// Each read consumes bytes from the front of the remaining bytes. A read borrows what it returns from the stream, and
/// never allocates. Offsets count bytes from the start of the stream, so an error in a nested window says where it is
/// in the file.
///
/// # Errors
///
/// After an error of `read_bytes`, `read_u8`, `read_u32`, a float or a LEB128 number, the reader is unchanged. After an
/// error of another read, it is in its window, at or after its previous position.
///
/// If bytes are missing, `needed_hint` of the error returns how many: 1 inside a LEB128 number. No other fault of a
/// read has a hint.
///
/// # Example
///
/// ```rattle
/// let mut reader = BinaryReader::new(b"\x03\x01a\x00\x00", 100);
/// assert_eq!(rt; reader.read_var_u32()?, 3);
/// assert_eq!(rt; reader.read_string()?, "a");
/// assert_eq!(rt; reader.original_position(), 103);
/// assert_eq!(rt; reader.bytes_remaining(), 2);
/// ```
#[derive(Debug, Drop)]
pub struct BinaryReader<'a> {
    bytes: &'a [u8],
    start: u64,
    position: usize,
    features: WasmFeatures,
}

impl<'a> Model for BinaryReader<'a> {
    ghost use Rattle.std.specs.Prelude.{◌+◌, ◌≤◌, ◌<◌, ◌^◌, length};
    ghost use Rattle.wasm_base.specs.Features.{feature_bits};
    ghost use Rattle.wasm_base.specs.Window.{Window};

    ghost Value = { Window };

    ghost view = { λ r. record {
      features = feature_bits r.features;
      start = r.start;
      bytes = r.bytes.now;
      position = r.position;
    } };

    ghost invariant = { λ r.
        (r.position ≤ length r.bytes.now) × (r.start + length r.bytes.now < 2 ^ 64) };
}

// By hand, here and for other structs with a model, because a derived `Clone` can't state that it never fails and that
// the copy is equal.
impl<'a> Clone for BinaryReader<'a> {
    ghost is_clone = { λ reader copy. copy ≡ reader };

    ghost is_infallible = { λ _. ⊤ };

    fn clone(&self) -> std::result::Result<Self, AllocError> {
        Ok(BinaryReader {
            bytes: self.bytes,
            start: self.start,
            position: self.position,
            features: self.features,
        })
    }
}

/// Returns whether `len` bytes at this offset end within the offsets of a stream, of which 2^64 - 1 is the largest.
///
/// If so, a reader over them can be made.
///
/// ```rattle
/// assert!(rt; fits(0, 1_000));
/// assert!(rt; !fits(18_446_744_073_709_551_615, 1));
/// ```
pub fn fits(offset: u64, len: usize) -> bool
    // Proved: `fits` says exactly whether a reader of *n* bytes can be made at an offset
    ensures { IsTrue result ↔ (offset + len < 2 ^ 64) }
{
    len as u64 <= u64::MAX - offset
}

impl<'a> BinaryReader<'a> {
    /// Returns a reader of these bytes, which begin at this offset of the stream, with all features.
    ///
    /// The bytes must end within the offsets of a stream: see `fits`.
    pub fn new(bytes: &'a [u8], offset: u64) -> Self
        requires { offset + length bytes.now < 2 ^ 64 }
        ensures { result ≡ window_over all_features offset bytes.now }
    {
        BinaryReader::new_features(bytes, offset, WasmFeatures::all())
    }

    /// Returns a reader of these bytes, which begin at this offset of the stream, with these features.
    ///
    /// The bytes must end within the offsets of a stream: see `fits`.
    pub fn new_features(bytes: &'a [u8], offset: u64, features: WasmFeatures) -> Self
        requires { offset + length bytes.now < 2 ^ 64 }
        ensures { result ≡ window_over (feature_bits features) offset bytes.now }
    {
        BinaryReader {
            bytes,
            start: offset,
            position: 0,
            features,
        }
    }

    /// Returns the offset of the next byte, from the start of the stream.
    pub fn original_position(&self) -> u64
        // Proved: the offset of a reader, its ranges, and the offsets of the windows made of it
        //   count from the start of the stream; `current_position` counts from the start of the
        //   reader's window. Windows have the reader's features [the clauses of
        //   `original_position`, `current_position`, `range`, `remaining_range`,
        //   `remaining_buffer`, `bytes_remaining`, `eof`, `shrink`, `features`]
        ensures offset { result ≡ (place self.now).offset }
        ensures fits { result + length (place self.now).rest < 2 ^ 64 }
    {
        self.start + self.position as u64
    }

    /// Returns the position in the window, in bytes from its start.
    pub fn current_position(&self) -> usize
        ensures position { result ≡ self.now.position }
        ensures within { result ≤ length self.now.bytes }
    {
        self.position
    }

    /// Returns the offsets of the whole window, including the bytes already consumed.
    pub fn range(&self) -> Range<u64>
        ensures { result ≡ range_of self.now }
    {
        self.start..self.start + self.bytes.len() as u64
    }

    /// Returns the offsets of the remaining bytes.
    pub fn remaining_range(&self) -> Range<u64>
        ensures { result ≡ rest_range self.now }
    {
        self.original_position()..self.start + self.bytes.len() as u64
    }

    /// Returns the remaining bytes, without consuming them.
    pub fn remaining_buffer(&self) -> &'a [u8]
        ensures { result.now ≡ (place self.now).rest }
    {
        &self.bytes[self.position..]
    }

    /// Returns the number of remaining bytes.
    pub fn bytes_remaining(&self) -> usize
        ensures { result ≡ length (place self.now).rest }
    {
        self.bytes.len() - self.position
    }

    /// Returns whether no bytes remain in the window.
    pub fn eof(&self) -> bool
        ensures { result ≡ (length (place self.now).rest == 0) }
    {
        self.position >= self.bytes.len()
    }

    /// Returns the remaining bytes as a window of its own, with the same features.
    ///
    /// ```rattle
    /// let mut reader = BinaryReader::new(&[1, 2, 3], 10);
    /// reader.read_u8()?;
    /// assert_eq!(rt; reader.range(), 10..13);
    /// assert_eq!(rt; reader.shrink().range(), 11..13);
    /// ```
    pub fn shrink(&self) -> Self
        ensures { result ≡ whole_window (place self.now) }
    {
        BinaryReader {
            bytes: &self.bytes[self.position..],
            start: self.start + self.position as u64,
            position: 0,
            features: self.features,
        }
    }

    /// Returns the features of the reader.
    pub fn features(&self) -> WasmFeatures
        ensures { feature_bits result ≡ self.now.features }
    {
        self.features
    }

    /// Returns whether limits of memories and tables are 64-bit numbers: whether the features contain `MEMORY64`.
    pub fn memory64(&self) -> bool
        ensures { result ≡ takes_wide_limits self.now.features }
    {
        let features = self.features;
        features.contains(WasmFeatures::MEMORY64)
    }

    // Advances by `len` bytes.
    fn move_past(&mut self, len: usize)
        requires { len ≤ length (place self.old).rest }
        ensures place { place self.new ≡ advanced len (place self.old) }
        ensures keeps { KeepsWindow self.old self.new }
    {
        self.position += len;
    }

    // The error of a read for which `wanted` bytes are missing.
    fn missing(&self, wanted: usize) -> Error
        ensures report { fault_at result ≡ at_offset UnexpectedEof (place self.now).offset }
        ensures hint { hint_of result ≡ Some wanted }
    {
        Error::new(Fault::UnexpectedEof, self.original_position()).with_hint(wanted)
    }

    // The offset of the last byte that was read.
    fn last_offset(&self) -> u64
        requires { 0 < (place self.now).offset }
        ensures { result + 1 ≡ (place self.now).offset }
    {
        self.original_position() - 1
    }

    /// Returns the next byte without consuming it.
    ///
    /// # Errors
    ///
    /// `UnexpectedEof` at the current offset if no byte remains.
    pub fn peek(&self) -> Result<u8>
        // Proved: each read of `BinaryReader` returns what its definition says of the bytes: a
        //   value, or a fault with its offset and number [`gives` on each read]
        // Proved: `peek` and `peek_bytes` return the bytes that follow and consume nothing [`gives`
        //   on both]
        ensures gives { Gives (λ b. b) result (place self.now) (peeked_byte_at (place self.now)) }
        ensures hints { Hints 1 result }
        ensures memory { NotOutOfMemory result }
    {
        match self.remaining_buffer() {
            [byte, ..] => Ok(*byte),
            [] => Err(self.missing(1)),
        }
    }

    /// Returns the next `len` bytes without consuming them.
    ///
    /// # Errors
    ///
    /// `UnexpectedEof` at the current offset if fewer than `len` bytes remain.
    pub fn peek_bytes(&self, len: usize) -> Result<&'a [u8]>
        ensures gives { Gives (λ bytes. bytes.now) result (place self.now) (peeked_at len (place self.now)) }
        ensures hints { Hints (missing_at len (place self.now)) result }
        ensures memory { NotOutOfMemory result }
    {
        let rest = self.remaining_buffer();
        if rest.len() < len {
            return Err(self.missing(len - rest.len()));
        }
        Ok(&rest[..len])
    }

    /// Reads `len` bytes and returns them.
    ///
    /// # Errors
    ///
    /// `UnexpectedEof` at the current offset if fewer than `len` bytes remain. The reader is then unchanged.
    #[inline(always)]
    pub fn read_bytes(&mut self, len: usize) -> Result<&'a [u8]>
        // On every outcome.
        ensures gives { GivesBy (λ bytes. bytes.now) result self.old self.new (bytes_at len) }
        // Proved: after each read, also a failed one, the reader is in its window and not before
        //   where it was [`keeps` on each read]
        ensures keeps { KeepsWindow self.old self.new }
        // Proved: the error of a read hints at the number of missing bytes if the input is
        //   truncated (1 inside a number), and otherwise at nothing [`hints` (`Hints`), also on
        //   `bool`, `u32`, `&str` and `SectionLimited::new`]
        ensures hints { Hints (missing_at len (place self.old)) result }
        // Proved: no read except `skip` returns `OutOfMemory`, no item that owns no lists does, and
        //   no section of such items; `skip` returns the error of its closure [`memory`
        //   (`NotOutOfMemory`), also on the trait `FromReader`; `memory` of `NextItem`]
        ensures memory { NotOutOfMemory result }
        // On an error.
        // Proved: after a fault of `read_bytes`, `read_u8`, `read_u32`, of a LEB128 number or of a
        //   float, the reader is where it was
        ensures unmoved { OnErr result (self.new ≡ self.old) }
    {
        let bytes = self.peek_bytes(len)?;
        self.move_past(len);
        Ok(bytes)
    }

    /// Reads a byte and returns it.
    ///
    /// # Errors
    ///
    /// `UnexpectedEof` at the current offset if no byte remains. The reader is then unchanged.
    #[inline(always)]
    pub fn read_u8(&mut self) -> Result<u8>
        // On every outcome.
        ensures gives { GivesBy (λ b. b) result self.old self.new byte_at }
        ensures keeps { KeepsWindow self.old self.new }
        ensures hints { Hints 1 result }
        ensures memory { NotOutOfMemory result }
        // On an error.
        ensures unmoved { OnErr result (self.new ≡ self.old) }
    {
        let byte = self.peek()?;
        self.move_past(1);
        Ok(byte)
    }

    /// Reads a byte below 128 and returns it.
    ///
    /// # Errors
    ///
    /// `UnexpectedEof` at the current offset if no byte remains; `InvalidU7` at any other byte, which is consumed.
    #[tactic(auto, unfolding(crate::specs::Name::u7_at))]
    pub fn read_u7(&mut self) -> Result<u8>
        // On every outcome.
        ensures gives { GivesBy (λ b. b) result self.old self.new u7_at }
        ensures keeps { KeepsWindow self.old self.new }
        ensures hints { Hints 1 result }
        ensures memory { NotOutOfMemory result }
        // If a byte remains.
        ensures moves { 0 < length (place self.old).rest → self.old.position < self.new.position }
        ensures passes { 0 < length (place self.old).rest → place self.new ≡ advanced 1 (place self.old) }
    {
        let byte = self.read_u8()?;
        if byte >= 128 {
            return Err(Error::new(Fault::InvalidU7, self.last_offset()));
        }
        Ok(byte)
    }

    /// Reads four bytes as a little-endian number. For a LEB128 number, call `read_var_u32`.
    ///
    /// # Errors
    ///
    /// `UnexpectedEof` at the current offset if fewer than 4 bytes remain. The reader is then unchanged.
    #[tactic(auto, unfolding(crate::specs::Name::u32_at))]
    pub fn read_u32(&mut self) -> Result<u32>
        // On every outcome.
        ensures gives { GivesBy (λ n. n) result self.old self.new u32_at }
        ensures keeps { KeepsWindow self.old self.new }
        ensures hints { Hints (missing_at 4 (place self.old)) result }
        ensures memory { NotOutOfMemory result }
        // On an error.
        ensures unmoved { OnErr result (self.new ≡ self.old) }
    {
        Ok(of_four(self.read_bytes(4)?))
    }

    /// Reads a 32-bit float, four bytes in little-endian order.
    ///
    /// # Errors
    ///
    /// `UnexpectedEof` at the current offset if fewer than 4 bytes remain. The reader is then unchanged.
    ///
    /// (Core specification, Binary format, Values, Floating-Point.)
    pub fn read_f32(&mut self) -> Result<Ieee32>
        // On every outcome.
        ensures gives { GivesBy (λ float. bits_of_32 float) result self.old self.new u32_at }
        ensures keeps { KeepsWindow self.old self.new }
        ensures hints { Hints (missing_at 4 (place self.old)) result }
        ensures memory { NotOutOfMemory result }
        // On an error.
        ensures unmoved { OnErr result (self.new ≡ self.old) }
    {
        Ok(Ieee32(self.read_u32()?))
    }

    /// Reads a 64-bit float, eight bytes in little-endian order.
    ///
    /// # Errors
    ///
    /// `UnexpectedEof` at the current offset if fewer than 8 bytes remain. The reader is then unchanged.
    ///
    /// (Core specification, Binary format, Values, Floating-Point.)
    #[tactic(auto, unfolding(crate::specs::Float::u64_at))]
    pub fn read_f64(&mut self) -> Result<Ieee64>
        // On every outcome.
        ensures gives { GivesBy (λ float. bits_of_64 float) result self.old self.new u64_at }
        ensures keeps { KeepsWindow self.old self.new }
        ensures hints { Hints (missing_at 8 (place self.old)) result }
        ensures memory { NotOutOfMemory result }
        // On an error.
        ensures unmoved { OnErr result (self.new ≡ self.old) }
    {
        let bytes = self.read_bytes(8)?;
        let (low, high) = (of_four(&bytes[..4]), of_four(&bytes[4..]));
        Ok(Ieee64(u64::from(low) + 4294967296 * u64::from(high)))
    }

    // The septets of the number of this kind.
    #[tactic(auto, unfolding(crate::specs::Number::unsigned_at))]
    fn read_septets(&mut self, kind: NumberKind) -> Result<u128>
        ensures gives { GivesBy (λ n. n) result self.old self.new (unsigned_at kind) }
        ensures keeps { KeepsWindow self.old self.new }
        ensures hints { Hints 1 result }
        ensures memory { NotOutOfMemory result }
        ensures unmoved { OnErr result (self.new ≡ self.old) }
        ensures below { IfOk result (λ n. n < sum_bound kind) }
        ensures moves { OnOk result ((place self.old).offset < (place self.new).offset) }
    {
        let rest = self.remaining_buffer();
        match number_in(kind, rest) {
            Found::Read { sum, used } => {
                self.move_past(used);
                Ok(sum)
            }
            Found::Bad { fault, place } => {
                let offset = self.original_position() + place as u64;
                Err(Error::new(fault, offset))
            }
            Found::Short => {
                let end = self.original_position() + rest.len() as u64;
                Err(Error::new(Fault::UnexpectedEof, end).with_hint(1))
            }
        }
    }

    /// Reads a LEB128 `u32`, of at most 5 bytes. Longer encodings of a value than necessary are accepted.
    ///
    /// # Errors
    ///
    /// The reader is unchanged after an error.
    ///
    /// - `UnexpectedEof` at the end of the window if the number is truncated.
    /// - `NumberTooLong(VarU32)` at the fifth byte if its top bit is set.
    /// - `NumberTooLarge(VarU32)` at the fifth byte if one of its unused bits is set.
    ///
    /// # Example
    ///
    /// ```rattle
    /// let mut reader = BinaryReader::new(&[0x80, 0x80, 0x80, 0x80, 0x10], 100);
    /// let error = Error::new(Fault::NumberTooLarge(NumberKind::VarU32), 104);
    /// assert_eq!(rt; reader.read_var_u32(), Err(error));
    /// ```
    ///
    /// (Core specification, Binary format, Values, Integers.)
    #[inline(always)]
    pub fn read_var_u32(&mut self) -> Result<u32>
        // On every outcome.
        ensures gives { GivesBy (λ n. n) result self.old self.new (unsigned_at VarU32) }
        ensures keeps { KeepsWindow self.old self.new }
        ensures hints { Hints 1 result }
        ensures memory { NotOutOfMemory result }
        // On an error.
        ensures unmoved { OnErr result (self.new ≡ self.old) }
        // On success.
        ensures moves { OnOk result ((place self.old).offset < (place self.new).offset) }
    {
        Ok(self.read_septets(NumberKind::VarU32)? as u32)
    }

    // How many bytes reading a number of this kind consumes, malformed or not.
    fn bytes_of_number(&self, kind: NumberKind) -> usize
        ensures length { result ≡ bytes_read (place self.now).rest (number kind (place self.now).rest) }
        ensures within { result ≤ length (place self.now).rest }
    {
        let rest = self.remaining_buffer();
        match number_in(kind, rest) {
            Found::Read { sum: _, used } => used,
            Found::Bad { fault: _, place } => place + 1,
            Found::Short => rest.len(),
        }
    }

    /// Reads a LEB128 `u32` and consumes its bytes even if they are malformed: up to the wrong byte, or to the end.
    ///
    /// # Errors
    ///
    /// Those of `read_var_u32`.
    #[tactic(auto, unfolding(crate::specs::Number::after_number), using(crate::proofs::NumberPlaces::read_is_passed))]
    pub(crate) fn skip_var_u32(&mut self) -> Result<u32>
        ensures gives { GivesBy (λ n. n) result self.old self.new (unsigned_at VarU32) }
        ensures keeps { KeepsWindow self.old self.new }
        ensures memory { NotOutOfMemory result }
        ensures after { place self.new ≡ after_number VarU32 (place self.old) }
    {
        match self.read_var_u32() {
            Ok(number) => Ok(number),
            Err(e) => {
                self.move_past(self.bytes_of_number(NumberKind::VarU32));
                Err(e)
            }
        }
    }

    // Skips single-byte numbers, 32 at a time, up to the first longer one. Returns how many numbers remain.
    #[tactic(auto, using(crate::proofs::PassedNumbers::skip_run))]
    fn skip_small(&mut self, count: usize) -> usize
        ensures passed { skipped_numbers_at result (place self.new)
            ≡ skipped_numbers_at count (place self.old) }
        ensures fewer { result ≤ count }
        ensures keeps { KeepsWindow self.old self.new }
    {
        let mut left = count;
        while left >= LANES {
            let rest = self.remaining_buffer();
            if rest.len() < LANES {
                return left;
            }
            let bytes = u8x32::from_slice(rest);
            if !are_below_128(bytes) {
                // Skipping this run first is faster, if some numbers have two bytes, than reading one number and looking again.
                let run = single_byte_run(bytes);
                self.move_past(run);
                return left - run;
            }
            self.move_past(LANES);
            left -= LANES;
        }
        left
    }

    /// Skips `count` LEB128 `u32`s. The result is that of reading them one after the other.
    ///
    /// # Errors
    ///
    /// Those of `read_var_u32`, for the first malformed number. The reader is then in its window, at or after its
    /// previous position.
    #[tactic(auto, using(crate::proofs::PassedNumbers::passing))]
    pub fn skip_var_u32s(&mut self, count: u32) -> Result<()>
        // Proved: `skip_var_u32s` skips *n* LEB128 `u32`s as reading them one after the other does:
        //   to the place after them, or to the first fault [`gives` (`skipped_numbers_at`),
        //   `keeps`, `hints`, `memory`]
        ensures gives { GivesBy (λ nothing. nothing) result self.old self.new
            (skipped_numbers_at count) }
        ensures keeps { KeepsWindow self.old self.new }
        ensures hints { Hints 1 result }
        ensures memory { NotOutOfMemory result }
    {
        let mut left = count as usize;
        while left > 0 {
            left = self.skip_small(left);
            if left > 0 {
                self.read_var_u32()?;
                left -= 1;
            }
        }
        Ok(())
    }

    /// Reads a LEB128 `u64`, of at most 10 bytes.
    ///
    /// # Errors
    ///
    /// Those of `read_var_u32`, with the kind `VarU64` and the tenth byte in place of the fifth.
    ///
    /// (Core specification, Binary format, Values, Integers.)
    #[inline(always)]
    pub fn read_var_u64(&mut self) -> Result<u64>
        // On every outcome.
        ensures gives { GivesBy (λ n. n) result self.old self.new (unsigned_at VarU64) }
        ensures keeps { KeepsWindow self.old self.new }
        ensures hints { Hints 1 result }
        ensures memory { NotOutOfMemory result }
        // On an error.
        ensures unmoved { OnErr result (self.new ≡ self.old) }
        // On success.
        ensures moves { OnOk result ((place self.old).offset < (place self.new).offset) }
    {
        Ok(self.read_septets(NumberKind::VarU64)? as u64)
    }

    // The signed number of this kind.
    #[tactic(auto, unfolding(crate::specs::Signed::signed_at))]
    fn read_signed(&mut self, kind: NumberKind) -> Result<i64>
        requires { is_signed kind ≡ true }
        ensures gives { GivesBy (λ n. n) result self.old self.new (signed_at kind) }
        ensures keeps { KeepsWindow self.old self.new }
        ensures hints { Hints 1 result }
        ensures memory { NotOutOfMemory result }
        ensures unmoved { OnErr result (self.new ≡ self.old) }
        ensures moves { OnOk result ((place self.old).offset < (place self.new).offset) }
        ensures fits { IfOk result (λ n. FitsBits (bits_of kind) n) }
    {
        let start = self.original_position();
        let sum = self.read_septets(kind)?;
        Ok(signed_of(sum, self.original_position() - start))
    }

    /// Reads a signed LEB128 number of 32 bits, of at most 5 bytes.
    ///
    /// # Errors
    ///
    /// Those of `read_var_u32`, with the kind `VarI32`. The unused bits of the fifth byte must be copies of the sign
    /// bit.
    ///
    /// (Core specification, Binary format, Values, Integers.)
    #[inline(always)]
    pub fn read_var_i32(&mut self) -> Result<i32>
        // On every outcome.
        ensures gives { GivesBy (λ n. n) result self.old self.new (signed_at VarI32) }
        ensures keeps { KeepsWindow self.old self.new }
        ensures hints { Hints 1 result }
        ensures memory { NotOutOfMemory result }
        // On an error.
        ensures unmoved { OnErr result (self.new ≡ self.old) }
        // On success.
        ensures moves { OnOk result ((place self.old).offset < (place self.new).offset) }
    {
        Ok(self.read_signed(NumberKind::VarI32)? as i32)
    }

    /// Reads a signed LEB128 number of 64 bits, of at most 10 bytes.
    ///
    /// # Errors
    ///
    /// Those of `read_var_u32`, with the kind `VarI64` and the tenth byte in place of the fifth. Its unused bits must
    /// be copies of the sign bit.
    ///
    /// (Core specification, Binary format, Values, Integers.)
    #[inline(always)]
    pub fn read_var_i64(&mut self) -> Result<i64>
        // On every outcome.
        ensures gives { GivesBy (λ n. n) result self.old self.new (signed_at VarI64) }
        ensures keeps { KeepsWindow self.old self.new }
        ensures hints { Hints 1 result }
        ensures memory { NotOutOfMemory result }
        // On an error.
        ensures unmoved { OnErr result (self.new ≡ self.old) }
        // On success.
        ensures moves { OnOk result ((place self.old).offset < (place self.new).offset) }
    {
        self.read_signed(NumberKind::VarI64)
    }

    /// Reads a signed LEB128 number of 33 bits, of at most 5 bytes: a heap type, or the type index of a block type.
    ///
    /// # Errors
    ///
    /// Those of `read_var_u32`, with the kind `VarS33`. The unused bits of the fifth byte must be copies of the sign
    /// bit.
    ///
    /// (Core specification, Binary format, Values, Integers.)
    #[inline(always)]
    pub fn read_var_s33(&mut self) -> Result<i64>
        // On every outcome.
        ensures gives { GivesBy (λ n. n) result self.old self.new (signed_at VarS33) }
        ensures keeps { KeepsWindow self.old self.new }
        ensures hints { Hints 1 result }
        ensures memory { NotOutOfMemory result }
        // On an error.
        ensures unmoved { OnErr result (self.new ≡ self.old) }
        // On success.
        ensures moves { OnOk result ((place self.old).offset < (place self.new).offset) }
        // Proved: a signed number has as many bits as its kind allows [`fits` on `read_var_s33`;
        //   elsewhere the type of the result]
        ensures fits { IfOk result (λ n. FitsBits (bits_of VarS33) n) }
    {
        self.read_signed(NumberKind::VarS33)
    }

    // Reads `len` bytes of text, after their size.
    #[tactic(auto, unfolding(crate::specs::TextOf::text_of), using(crate::proofs::Texts::text_test))]
    #[inline(always)]
    fn read_text(&mut self, len: usize) -> Result<&'a str>
        requires { 0 < (place self.old).offset }
        ensures gives { GivesBy (λ text. text.now) result self.old self.new (text_of len) }
        ensures keeps { KeepsWindow self.old self.new }
        ensures hints { Hints (missing_at len (place self.old)) result }
        ensures memory { NotOutOfMemory result }
    {
        let bytes = self.read_bytes(len)?;
        match std::str::from_utf8(bytes) {
            Ok(text) => Ok(text),
            Err(_) => Err(Error::new(Fault::MalformedUtf8, self.last_offset())),
        }
    }

    /// Reads a text of any size: a LEB128 `u32` and that many bytes of UTF-8.
    ///
    /// # Errors
    ///
    /// - Those of `read_var_u32` for the size.
    /// - `UnexpectedEof` at the offset after the size if bytes of the text are missing.
    /// - `MalformedUtf8` at the last byte of the text.
    ///
    /// (Core specification, Binary format, Values, Names.)
    #[tactic(auto, using(crate::proofs::Texts::text_steps))]
    #[inline(always)]
    pub fn read_unlimited_string(&mut self) -> Result<&'a str>
        ensures gives { GivesBy (λ text. text.now) result self.old self.new (text_at None) }
        ensures keeps { KeepsWindow self.old self.new }
        ensures hints { Hints (missing_of_sized (place self.old)) result }
        ensures memory { NotOutOfMemory result }
    {
        let size = self.read_var_u32()?;
        self.read_text(size as usize)
    }

    /// Reads a name: a text of at most 100,000 bytes, a LEB128 `u32` and that many bytes of UTF-8.
    ///
    /// # Errors
    ///
    /// - Those of `read_var_u32` for the size.
    /// - `StringSize` at the last byte of the size if it is above 100,000, whether or not the bytes are present.
    /// - `UnexpectedEof` at the offset after the size if bytes of the name are missing.
    /// - `MalformedUtf8` at the last byte of the name.
    ///
    /// (Core specification, Binary format, Values, Names.)
    #[tactic(auto, using(crate::proofs::Texts::text_steps))]
    #[inline(always)]
    pub fn read_string(&mut self) -> Result<&'a str>
        ensures gives { GivesBy (λ text. text.now) result self.old self.new (text_at (Some name_limit)) }
        ensures keeps { KeepsWindow self.old self.new }
        ensures hints { Hints (missing_of_sized (place self.old)) result }
        ensures memory { NotOutOfMemory result }
    {
        let size = self.read_var_u32()? as usize;
        if size > MAX_WASM_STRING_SIZE {
            return Err(Error::new(Fault::StringSize, self.last_offset()));
        }
        self.read_text(size)
    }

    // Reads `len` bytes of text, after their size, of which no `&str` is needed.
    #[tactic(auto, unfolding(crate::specs::TextOf::text_of), using(crate::proofs::Texts::text_test))]
    #[inline(always)]
    fn read_text_bytes(&mut self, len: usize) -> Result<&'a [u8]>
        requires { 0 < (place self.old).offset }
        ensures gives { GivesBy (λ text. text.now) result self.old self.new (text_of len) }
        ensures keeps { KeepsWindow self.old self.new }
        ensures hints { Hints (missing_at len (place self.old)) result }
        ensures memory { NotOutOfMemory result }
        ensures text { IfOk result (λ text. IsUtf8 text.now) }
    {
        let bytes = self.read_bytes(len)?;
        if is_utf8(bytes) {
            Ok(bytes)
        } else {
            Err(Error::new(Fault::MalformedUtf8, self.last_offset()))
        }
    }

    /// Reads a name, as `read_string` does, and returns its bytes. This is cheaper: `std` makes a `&str` only of bytes that
    /// it looks at one after the other.
    ///
    /// # Errors
    ///
    /// Those of `read_string`.
    ///
    /// ```rattle
    /// let mut reader = BinaryReader::new(b"\x02ab", 0);
    /// assert_eq!(rt; reader.read_string_bytes()?, b"ab".as_slice());
    /// ```
    ///
    /// (Core specification, Binary format, Values, Names.)
    #[tactic(auto, using(crate::proofs::Texts::text_steps))]
    #[inline(always)]
    pub fn read_string_bytes(&mut self) -> Result<&'a [u8]>
        ensures gives { GivesBy (λ text. text.now) result self.old self.new (text_at (Some name_limit)) }
        ensures keeps { KeepsWindow self.old self.new }
        ensures hints { Hints (missing_of_sized (place self.old)) result }
        ensures memory { NotOutOfMemory result }
        // Proved: the bytes of a name that was read are UTF-8
        ensures text { IfOk result (λ text. IsUtf8 text.now) }
    {
        let len = self.read_var_u32()? as usize;
        if len > MAX_WASM_STRING_SIZE {
            return Err(Error::new(Fault::StringSize, self.last_offset()));
        }
        self.read_text_bytes(len)
    }

    /// Skips a name: a size of at most 100,000 and that many bytes, which need not be UTF-8.
    ///
    /// # Errors
    ///
    /// Those of `read_string`, except `MalformedUtf8`.
    #[tactic(auto, unfolding(crate::specs::Skip::skipped_name_at))]
    pub fn skip_string(&mut self) -> Result<()>
        ensures gives { GivesBy (λ nothing. nothing) result self.old self.new skipped_name_at }
        ensures keeps { KeepsWindow self.old self.new }
        ensures hints { Hints (missing_of_sized (place self.old)) result }
        ensures memory { NotOutOfMemory result }
    {
        let len = self.read_var_u32()? as usize;
        if len > MAX_WASM_STRING_SIZE {
            return Err(Error::new(Fault::StringSize, self.last_offset()));
        }
        self.read_bytes(len)?;
        Ok(())
    }

    // The next `len` bytes as a window of its own.
    fn window_of(&self, len: usize) -> BinaryReader<'a>
        requires { len ≤ length (place self.now).rest }
        ensures { result ≡ window_of len (place self.now) }
    {
        BinaryReader {
            bytes: &self.bytes[self.position..self.position + len],
            start: self.start + self.position as u64,
            position: 0,
            features: self.features,
        }
    }

    /// Returns the bytes that a closure consumes, as a window of their own.
    ///
    /// The closure must keep the reader's window and never move back, as every read of a reader does.
    ///
    /// # Errors
    ///
    /// Those of the closure. The reader is then where the closure left it.
    ///
    /// # Example
    ///
    /// ```rattle
    /// let mut reader = BinaryReader::new(&[5, 7, 9], 0);
    /// let two = reader.skip(|reader| reader.skip_var_u32s(2))?;
    /// assert_eq!(rt; two.range(), 0..2);
    /// assert_eq!(rt; reader.original_position(), 2);
    /// ```
    pub fn skip<F: FnOnce(&mut BinaryReader<'a>) -> Result<()>>(
        &mut self,
        f: F,
    ) -> Result<BinaryReader<'a>>
        requires callable { F.IsAlwaysCallable f }
        requires forward { NeverGoesBack (λ old given new. FnOnceReturnsAtMut F.FnOnce f old given new) }
        // Proved: `skip` returns the window of the bytes that its closure skipped, or the closure's
        //   error, and stays in its window. It has two preconditions: the closure can always be
        //   called, and it stays in the window and never goes back [`passes`, `keeps` and the
        //   preconditions `callable` and `forward` of `skip`]
        ensures passes { Skips (λ old given new. FnOnceReturnsAtMut F.FnOnce f old given new)
            self.old result self.new }
        ensures keeps { KeepsWindow self.old self.new }
    {
        // The precondition speaks of every window, because a closure is known only by what it may return. The error is the
        // closure's own, so no clause says anything of its hint or of `OutOfMemory`.
        let before = self.clone().unwrap();
        f(self)?;
        Ok(before.window_of(self.position - before.position))
    }

    /// Reads a size, a LEB128 `u32`, and returns that many bytes as a window with the same features.
    ///
    /// # Errors
    ///
    /// Those of `read_var_u32` for the size; `UnexpectedEof` at the offset after the size if bytes are missing.
    ///
    /// # Example
    ///
    /// ```rattle
    /// let mut reader = BinaryReader::new(&[2, 5, 7, 9], 0);
    /// let window = reader.read_reader()?;
    /// assert_eq!(rt; window.range(), 1..3);
    /// assert_eq!(rt; reader.original_position(), 3);
    /// ```
    #[tactic(auto, unfolding(crate::specs::Name::window_at))]
    pub fn read_reader(&mut self) -> Result<BinaryReader<'a>>
        ensures gives { GivesBy (λ window. window) result self.old self.new window_at }
        ensures keeps { KeepsWindow self.old self.new }
        ensures hints { Hints (missing_of_sized (place self.old)) result }
        ensures memory { NotOutOfMemory result }
    {
        let size = self.read_var_u32()?;
        let start = self.original_position();
        let bytes = self.read_bytes(size as usize)?;
        Ok(BinaryReader::new_features(bytes, start, self.features))
    }

    /// Reads an item of any type that implements `FromReader`.
    ///
    /// # Errors
    ///
    /// Those of the type.
    pub fn read<T: FromReader<'a>>(&mut self) -> Result<T>
        ensures means { Means T.meaning (place self.old) result (place self.new) }
        ensures keeps { KeepsWindow self.old self.new }
        ensures memory { NotOutOfMemory result }
    {
        T::from_reader(self)
    }

    /// Reads a header: the magic, and a 32-bit number whose lower 16 bits are the version and whose upper 16 bits are
    /// the kind.
    ///
    /// The number is not checked: `CORE_HEADER` of `wasm_grammar` has 1, `COMPONENT_HEADER` has 65,549.
    ///
    /// # Errors
    ///
    /// - `UnexpectedEof` at the current offset if fewer than 4 bytes remain, and after the magic if fewer than 4 follow
    ///   it.
    /// - `BadMagic` at the current offset if the first four bytes are not the magic.
    ///
    /// (Core specification, Binary format, Modules.)
    #[tactic(auto, unfolding(crate::specs::Header::header_version_at))]
    pub fn read_header_version(&mut self) -> Result<u32>
        ensures gives { GivesBy (λ n. n) result self.old self.new header_version_at }
        ensures keeps { KeepsWindow self.old self.new }
        ensures hints { Hints (missing_of_header (place self.old)) result }
        ensures memory { NotOutOfMemory result }
    {
        let start = self.original_position();
        let prefix = self.read_bytes(4)?;
        if !is_magic(prefix) {
            return Err(Error::new(Fault::BadMagic, start));
        }
        self.read_u32()
    }
}

// The number of four bytes, the lowest first.
fn of_four(bytes: &[u8]) -> u32
    requires { length bytes.now ≡ 4 }
    ensures { result ≡ of_four bytes.now }
{
    u32::from(bytes[0])
        + 256 * u32::from(bytes[1])
        + 65536 * u32::from(bytes[2])
        + 16777216 * u32::from(bytes[3])
}

/// The magic: the four bytes that begin a header (core specification, Binary format, Modules).
pub const MAGIC: [u8; 4] = *b"\0asm";

// Whether four bytes begin a header.
fn is_magic(prefix: &[u8]) -> bool
    requires { length prefix.now ≡ 4 }
    ensures { result ≡ agree prefix.now magic }
{
    prefix[0] == MAGIC[0] && prefix[1] == MAGIC[1] && prefix[2] == MAGIC[2] && prefix[3] == MAGIC[3]
}
