// Parses the rows of a table: a reader, features, an offset, and bytes.
use bitflags::Flags;
use std::alloc::{AllocError, Global};
use std::io::{self, ErrorKind};
use wasm_base::{Error, Fault, WasmFeatures};
use wasm_feed::{ListError, Sink};
use wasm_output::TextLines;

/// How many bytes are written at once at most.
const PART: usize = 65_536;

/// Why the lines of a row could not be written.
#[derive(Drop)]
pub(crate) enum Failed {
    /// The line is not a row, for this reason.
    Row(&'static str),
    /// The input or the output failed, or an allocation of this program did. An item whose allocation fails is a line instead.
    System(ListError),
}

impl From<Error> for Failed {
    fn from(error: Error) -> Failed {
        match error.fault() {
            Fault::OutOfMemory => Failed::System(ListError::Memory),
            _ => Failed::Row("the bytes do not hold pieces"),
        }
    }
}

impl From<AllocError> for Failed {
    fn from(_error: AllocError) -> Failed {
        Failed::System(ListError::Memory)
    }
}

impl From<io::Error> for Failed {
    fn from(error: io::Error) -> Failed {
        match error.kind() {
            ErrorKind::OutOfMemory => Failed::System(ListError::Memory),
            _ => Failed::System(ListError::Input),
        }
    }
}

/// A row of a table.
#[derive(Drop)]
pub(crate) struct Row<'a> {
    /// The name of its reader.
    pub(crate) reader: &'a str,
    /// The features of the reader.
    pub(crate) features: WasmFeatures,
    /// The offset of the first byte in the stream.
    pub(crate) offset: u64,
    /// The bytes.
    pub(crate) bytes: Vec<u8>,
}

/// Returns whether a line is empty or a comment.
pub(crate) fn is_prose(line: &str) -> bool {
    line.is_empty() || line.starts_with('#')
}

/// Parses a row: the name of a reader, features, an offset, and bytes in hexadecimal.
pub(crate) fn parse_row<'a>(alloc: Global, line: &'a str) -> Result<Row<'a>, Failed> {
    let mut words = line.split_whitespace();
    let reader = words.next().ok_or(Failed::Row("no reader"))?;
    let features = parse_features(words.next().ok_or(Failed::Row("no features"))?)?;
    let offset = parse_offset(words.next().ok_or(Failed::Row("no offset"))?)?;
    let mut bytes = Vec::new(alloc);
    for word in words {
        add_word(word, &mut bytes)?;
    }
    Ok(Row {
        reader,
        features,
        offset,
        bytes,
    })
}

// Parses features that are joined by `+`.
fn parse_features(word: &str) -> Result<WasmFeatures, Failed> {
    match word.split_once('+') {
        Some((first, second)) => Ok(parse_feature(first)?.union(parse_feature(second)?)),
        None => parse_feature(word),
    }
}

fn parse_feature(name: &str) -> Result<WasmFeatures, Failed> {
    match name {
        "all" => Ok(WasmFeatures::all()),
        "none" => Ok(WasmFeatures::from_bits_retain(0)),
        "memory64" => Ok(WasmFeatures::MEMORY64),
        "compact" => Ok(WasmFeatures::COMPACT_IMPORTS),
        _ => Err(Failed::Row("unknown feature")),
    }
}

fn parse_offset(word: &str) -> Result<u64, Failed> {
    match word.parse::<u64>() {
        Ok(offset) => Ok(offset),
        Err(_) => Err(Failed::Row("invalid offset")),
    }
}

// Adds the bytes of a word: pairs of digits, repeated by the number after a `*`.
fn add_word(word: &str, bytes: &mut Vec<u8>) -> Result<(), Failed> {
    match word.split_once('*') {
        Some((pairs, times)) => add_repeated(pairs, times, bytes),
        None => add_pairs(word.as_bytes(), bytes),
    }
}

// Adds repeated bytes.
fn add_repeated(pairs: &str, times: &str, bytes: &mut Vec<u8>) -> Result<(), Failed> {
    match times.parse::<u32>() {
        Ok(times) => {
            for _ in 0..times {
                add_pairs(pairs.as_bytes(), bytes)?;
            }
            Ok(())
        }
        Err(_) => Err(Failed::Row("invalid repetition")),
    }
}

// Adds a byte for each pair of digits.
fn add_pairs(pairs: &[u8], bytes: &mut Vec<u8>) -> Result<(), Failed> {
    let mut rest = pairs;
    while let Some((high, later)) = rest.split_first() {
        let Some((low, after)) = later.split_first() else {
            return Err(Failed::Row("a byte has two hexadecimal digits"));
        };
        if bytes.push(byte_of(*high, *low)?).is_err() {
            return Err(Failed::System(ListError::Memory));
        }
        rest = after;
    }
    Ok(())
}

fn byte_of(high: u8, low: u8) -> Result<u8, Failed> {
    Ok(
        parse_digit(high)?
            .wrapping_mul(16)
            .wrapping_add(parse_digit(low)?),
    )
}

// Returns the value of a hexadecimal digit.
fn parse_digit(digit: u8) -> Result<u8, Failed> {
    match digit {
        b'0'..=b'9' => Ok(digit.wrapping_sub(b'0')),
        b'a'..=b'f' => Ok(digit.wrapping_sub(b'a').wrapping_add(10)),
        _ => Err(Failed::Row("invalid hexadecimal digit")),
    }
}

/// Writes bytes as they are.
pub(crate) fn write_bytes<W: Sink>(bytes: &[u8], out: &mut TextLines<W>) {
    let mut rest = bytes;
    while rest.len() > PART {
        let (first, later) = rest.split_at(PART);
        out.first(first);
        rest = later;
    }
    out.first(rest);
}
