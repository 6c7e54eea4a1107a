// A parser as numbers, in the memory of a program in another language.
ghost use Rattle.std.specs.Prelude.{◌≡◌, ◌+◌, ◌<◌, ◌^◌};
ghost use Rattle.wasm_base.specs.Features.{all_features, feature_bits};
ghost use Rattle.wasm_frames.specs.ParserState.{initial_state};
ghost use Rattle.wasm_frames.specs.Stored.{count_from, encoding_from, numbers_of, parser_of, skipped_of};

use bitflags::Flags;
use wasm_base::WasmFeatures;
use wasm_grammar::Encoding;

/// A parser of a stream. Any 48 bytes are a valid parser; 48 zero bytes are a new one without features.
///
/// It keeps no pointer: copy it to save a position, and to return to it later. Treat the fields other than `offset` as
/// private.
#[repr(C)]
#[derive(Clone, Copy, Debug)]
pub struct StoredParser {
    /// The offset of the next part of the stream, in bytes from the start of the stream.
    pub offset: u64,
    /// The features that the stream is read with, as bits.
    pub features: u32,
    /// The count of the function section, if `has_functions` is not 0.
    pub functions: u32,
    /// The count of the code section, if `has_codes` is not 0.
    pub codes: u32,
    /// The count of the data section, if `has_datas` is not 0.
    pub datas: u32,
    /// The count of the data count section, if `has_data_counts` is not 0.
    pub data_counts: u32,
    /// The number of remaining bodies of a code section.
    pub bodies: u32,
    /// The number of remaining bytes of a code section.
    pub code_bytes: u32,
    /// 0 before the header, otherwise not 0.
    pub is_begun: u8,
    /// 0 in a module, not 0 in a component.
    pub is_component: u8,
    /// The greatest rank of the sections so far, which must ascend, or 0.
    pub rank: u8,
    /// Not 0 after a function section.
    pub has_functions: u8,
    /// Not 0 after a code section.
    pub has_codes: u8,
    /// Not 0 after a data section.
    pub has_datas: u8,
    /// Not 0 after a data count section.
    pub has_data_counts: u8,
    /// Not 0 if the last event was the start of a code section, or a body.
    pub in_code: u8,
}

/// Returns the byte of an encoding.
pub(crate) fn encoding_byte(encoding: Encoding) -> u8
    ensures { encoding_from result ≡ encoding }
{
    match encoding {
        Encoding::Module => 0,
        Encoding::Component => 1,
    }
}

/// Returns the encoding that a byte stands for.
pub(crate) fn encoding_of(is_component: u8) -> Encoding
    ensures { result ≡ encoding_from is_component }
{
    if is_component == 0 {
        Encoding::Module
    } else {
        Encoding::Component
    }
}

/// Returns a count as a byte that says whether it is known, and its number or 0.
pub(crate) fn count_parts(count: Option<u32>) -> (u8, u32)
    ensures { count_from result.0 result.1 ≡ count }
{
    match count {
        Some(count) => (1, count),
        None => (0, 0),
    }
}

/// Returns the count of such a byte and number.
pub(crate) fn count_of(has: u8, count: u32) -> Option<u32>
    ensures { result ≡ count_from has count }
{
    if has == 0 { None } else { Some(count) }
}

impl StoredParser {
    // Limits the remaining bytes of a code section to the offsets of a stream.
    #[inline(always)]
    pub(crate) fn settle(&mut self)
        ensures is { numbers_of self.new ≡ parser_of self.old }
        ensures fits { self.new.offset + self.new.code_bytes < 2 ^ 64 }
    {
        let (left, room) = (self.code_bytes, u64::MAX - self.offset);
        if u64::from(left) > room {
            self.code_bytes = room as u32;
        }
    }

    /// Returns a parser of a stream that begins at this offset, with all features.
    pub fn new(offset: u64) -> Self
        ensures { numbers_of result ≡ initial_state offset all_features }
    {
        StoredParser {
            offset,
            features: WasmFeatures::all().bits(),
            functions: 0,
            codes: 0,
            datas: 0,
            data_counts: 0,
            bodies: 0,
            code_bytes: 0,
            is_begun: 0,
            is_component: 0,
            rank: 0,
            has_functions: 0,
            has_codes: 0,
            has_datas: 0,
            has_data_counts: 0,
            in_code: 0,
        }
    }

    /// Returns the features of the readers in later frames.
    pub fn features(&self) -> WasmFeatures
        ensures { feature_bits result ≡ self.now.features }
    {
        WasmFeatures::from_bits_retain(self.features)
    }

    pub(crate) fn encoding(&self) -> Encoding
        ensures { result ≡ (numbers_of self.now).encoding }
    {
        encoding_of(self.is_component)
    }

    pub(crate) fn expects_header(&self) -> bool
        ensures { result ≡ (numbers_of self.now).expects_header }
    {
        self.is_begun == 0
    }

    pub(crate) fn functions(&self) -> Option<u32>
        ensures { result ≡ (numbers_of self.now).functions }
    {
        count_of(self.has_functions, self.functions)
    }

    pub(crate) fn codes(&self) -> Option<u32>
        ensures { result ≡ (numbers_of self.now).codes }
    {
        count_of(self.has_codes, self.codes)
    }

    pub(crate) fn datas(&self) -> Option<u32>
        ensures { result ≡ (numbers_of self.now).datas }
    {
        count_of(self.has_datas, self.datas)
    }

    pub(crate) fn data_counts(&self) -> Option<u32>
        ensures { result ≡ (numbers_of self.now).data_counts }
    {
        count_of(self.has_data_counts, self.data_counts)
    }

    /// Skips the remaining bytes of a code section, and returns their number.
    ///
    /// Outside a code section it returns 0, and leaves the parser unchanged.
    ///
    /// ```rattle
    /// let stream: &[u8] = b"\0asm\x01\0\0\0\x03\x02\x01\0\x0a\x04\x01\x02\0\x0b";
    /// let mut parser = StoredParser::new(0);
    /// assert_eq!(rt; parser.skip_section(), 0);
    /// for part in [0..8, 8..12, 12..15] {
    ///     parser.next(&stream[part], false);
    /// }
    /// assert_eq!(rt; (parser.skip_section(), parser.offset), (3, 18));
    /// ```
    pub fn skip_section(&mut self) -> u32
        ensures { skipped_of (parser_of self.old) ≡ (result, parser_of self.new) }
    {
        if self.in_code == 0 {
            return 0;
        }
        self.settle();
        let left = self.code_bytes;
        self.offset += u64::from(left);
        self.bodies = 0;
        self.code_bytes = 0;
        left
    }
}
