// Symbols as plain numbers.
ghost use Rattle.std.specs.Prelude.{ℕ, ◌≡◌};
ghost use Rattle.wasm_base.specs.Outcome.{GivesBy};
ghost use Rattle.wasm_base.specs.Window.{KeepsWindow, place};
ghost use Rattle.wasm_c_items.specs.Spans.{text_after};
ghost use Rattle.wasm_c_items.specs.Symbols.{symbol_flags_at, indexed_symbol, linking_version_at, symbol_name_parts, named_symbol, placed_symbol, plain_symbol, symbol_from};
ghost use Rattle.wasm_c_items.specs.Numbers.{plain_number};
ghost use Rattle.wasm_custom.specs.Flags.{symbol_bits};
ghost use Rattle.wasm_custom.specs.Linking.{SymbolParts, symbol_at, symbol_parts, text_if_any};

use crate::faults::{NO_FAULT, PlainFault, plain_fault};
use crate::numbers::{Numbers, PlainNumber};
use crate::readable::Readable;
use crate::spans::{NO_SPAN, PlainSpan, distance, span_before, text_after_number, unknown_span};
use bitflags::Flags;
use wasm_parser::{
    BinaryReader, DefinedDataSymbol, Error, Fault, FromReader, Result, SymbolFlags, SymbolInfo,
};

/// A symbol of the symbol table, or a fault.
#[repr(C)]
#[derive(Clone, Copy)]
pub struct PlainSymbol {
    /// The fault of the item, of kind 0 if there is none.
    pub fault: PlainFault,
    /// The size of the item in bytes, 0 after a fault.
    pub consumed: usize,
    /// The name of the symbol, which is UTF-8, if `has_name` is 1.
    pub name: PlainSpan,
    /// The kind, a `pulleynavy_symbol_kind`: 0 a function, 1 data, 2 a global, 3 a section, 4 an event, 5 a table.
    pub kind: u32,
    /// The flags, `pulleynavy_symbol_flags`. Unknown bits are kept.
    pub flags: u32,
    /// The index of the function, global, section, event or table, or of the data segment of a defined data symbol.
    pub index: u32,
    /// 1 if the name is encoded, or 0. An undefined symbol without a name has that of its import.
    pub has_name: u32,
    /// 1 for a data symbol that is defined in this module, otherwise 0.
    pub is_defined: u32,
    /// The offset of the data, in bytes from the start of the segment, if `is_defined` is 1.
    pub data_offset: u32,
    /// The size of the data in bytes, if `is_defined` is 1.
    pub data_size: u32,
}

const NO_SYMBOL: PlainSymbol = PlainSymbol {
    fault: NO_FAULT,
    consumed: 0,
    name: NO_SPAN,
    kind: 0,
    flags: 0,
    index: 0,
    has_name: 0,
    is_defined: 0,
    data_offset: 0,
    data_size: 0,
};

// The version of a section for linkers.
#[tactic(auto, unfolding(crate::specs::Symbols::linking_version_at))]
fn read_version(reader: &mut BinaryReader<'_>) -> Result<u32>
    ensures gives { GivesBy (λ version. version) result reader.old reader.new linking_version_at }
    ensures keeps { KeepsWindow reader.old reader.new }
{
    let start = reader.original_position();
    let version = reader.read_var_u32()?;
    if version != 2 {
        return Err(Error::new(Fault::LinkingVersion, start).with_number(u64::from(version)));
    }
    Ok(version)
}

/// The version of the section `linking`.
#[derive(Clone, Copy)]
pub struct LinkingVersions;

impl Readable for LinkingVersions {
    type Plain = PlainNumber;

    ghost Item = { ℕ };

    ghost reading = { λ _. linking_version_at };

    ghost plain = { λ _. plain_number };

    fn read(self, reader: &mut BinaryReader<'_>, from: u64) -> Result<PlainNumber> {
        let start = reader.original_position();
        let version = read_version(reader)?;
        Ok(PlainNumber {
            fault: NO_FAULT,
            consumed: distance(start, reader.original_position()),
            value: u64::from(version),
        })
    }

    fn refused(self, error: Error) -> PlainNumber {
        Numbers.refused(error)
    }
}

// Whether there is a name, and its span as the last part of a symbol.
fn name_parts(from: u64, to: u64, name: Option<&str>) -> (u32, PlainSpan)
    ensures { result ≡ symbol_name_parts from to (text_if_any name.entry (λ text. text.now)) }
{
    match name {
        Some(name) => (1, span_before(from, to, name.len())),
        None => (0, NO_SPAN),
    }
}

fn indexed(
    consumed: usize,
    kind: u32,
    flags: SymbolFlags,
    index: u32,
    name: (u32, PlainSpan),
) -> PlainSymbol
    ensures { result ≡ indexed_symbol consumed kind (symbol_bits flags) index name }
{
    let (has_name, name) = name;
    PlainSymbol {
        consumed,
        name,
        kind,
        flags: flags.bits(),
        index,
        has_name,
        ..NO_SYMBOL
    }
}

// Where the name of a data symbol is, after its kind and its flags.
fn name_after_flags(from: u64, mut reader: BinaryReader<'_>, size: usize) -> PlainSpan
    ensures { result ≡ text_after from size (symbol_flags_at (place reader.entry)) }
{
    match reader.read_u8() {
        Ok(_) => text_after_number(from, reader, size),
        Err(_) => unknown_span(size),
    }
}

// A data symbol with this name.
fn named(
    consumed: usize,
    flags: SymbolFlags,
    name: PlainSpan,
    symbol: Option<DefinedDataSymbol>,
) -> PlainSymbol
    ensures { result ≡ placed_symbol (named_symbol consumed (symbol_bits flags) name) symbol }
{
    let plain = PlainSymbol {
        consumed,
        name,
        kind: 1,
        flags: flags.bits(),
        has_name: 1,
        ..NO_SYMBOL
    };
    match symbol {
        Some(symbol) => PlainSymbol {
            index: symbol.index,
            is_defined: 1,
            data_offset: symbol.offset,
            data_size: symbol.size,
            ..plain
        },
        None => plain,
    }
}

// A symbol that begins where the reader is and ends at an offset.
fn whole_symbol(from: u64, before: BinaryReader<'_>, to: u64, symbol: SymbolInfo<'_>) -> PlainSymbol
    ensures { result ≡ symbol_from from (place before.entry) to (symbol_parts symbol.entry) }
{
    let consumed = distance(before.original_position(), to);
    match symbol {
        SymbolInfo::Func { flags, index, name } => {
            indexed(consumed, 0, flags, index, name_parts(from, to, name))
        }
        SymbolInfo::Global { flags, index, name } => {
            indexed(consumed, 2, flags, index, name_parts(from, to, name))
        }
        SymbolInfo::Event { flags, index, name } => {
            indexed(consumed, 4, flags, index, name_parts(from, to, name))
        }
        SymbolInfo::Table { flags, index, name } => {
            indexed(consumed, 5, flags, index, name_parts(from, to, name))
        }
        SymbolInfo::Data {
            flags,
            name,
            symbol,
        } => {
            let span = name_after_flags(from, before, name.len());
            named(consumed, flags, span, symbol)
        }
        SymbolInfo::Section { flags, section } => PlainSymbol {
            consumed,
            kind: 3,
            flags: flags.bits(),
            index: section,
            ..NO_SYMBOL
        },
    }
}

/// Symbols of the symbol table.
#[derive(Clone, Copy)]
pub struct Symbols;

impl Readable for Symbols {
    type Plain = PlainSymbol;

    ghost Item = { SymbolParts };

    ghost reading = { λ _. symbol_at };

    ghost plain = { λ _. plain_symbol };

    fn read(self, reader: &mut BinaryReader<'_>, from: u64) -> Result<PlainSymbol> {
        let before = reader.clone().unwrap();
        let symbol = SymbolInfo::from_reader(reader)?;
        Ok(whole_symbol(from, before, reader.original_position(), symbol))
    }

    fn refused(self, error: Error) -> PlainSymbol {
        PlainSymbol {
            fault: plain_fault(error),
            ..NO_SYMBOL
        }
    }
}
