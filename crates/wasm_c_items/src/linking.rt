// What a linker reads, as plain numbers.
ghost use Rattle.std.specs.Prelude.{◌≡◌};
ghost use Rattle.wasm_c_items.specs.Linking.{comdat_code, plain_comdat, plain_comdat_symbol, plain_init_function, plain_linking_segment};
ghost use Rattle.wasm_custom.specs.Linking.{ComdatParts, SegmentParts, comdat_at, comdat_symbol_at, init_function_at, segment_at};
ghost use Rattle.wasm_custom.specs.declared.linking.ComdatSymbol.{ComdatSymbol};
ghost use Rattle.wasm_custom.specs.declared.linking.InitFunc.{InitFunc};

use crate::faults::{NO_FAULT, PlainFault, plain_fault};
use crate::readable::Readable;
use crate::spans::{NO_SPAN, PlainSpan, distance, items_span, text_span};
use bitflags::Flags;
use wasm_parser::{
    BinaryReader, Comdat, ComdatSymbol, ComdatSymbolKind, Error, FromReader, InitFunc, Result,
    Segment,
};

/// The name, alignment and flags of a data segment, or a fault.
#[repr(C)]
#[derive(Clone, Copy)]
pub struct PlainLinkingSegment {
    /// The fault of the item, of kind 0 if there is none.
    pub fault: PlainFault,
    /// The size of the item in bytes, 0 after a fault.
    pub consumed: usize,
    /// The name of the segment, which is UTF-8.
    pub name: PlainSpan,
    /// The alignment of the segment, as the base-2 logarithm of the bytes.
    pub alignment: u32,
    /// The flags of the segment, `pulleynavy_segment_flags`. Unknown bits are kept.
    pub flags: u32,
}

/// A function to call at startup, or a fault.
#[repr(C)]
#[derive(Clone, Copy)]
pub struct PlainInitFunction {
    /// The fault of the item, of kind 0 if there is none.
    pub fault: PlainFault,
    /// The size of the item in bytes, 0 after a fault.
    pub consumed: usize,
    /// The priority: lower numbers are called first.
    pub priority: u32,
    /// The index of the function's symbol in the symbol table.
    pub symbol: u32,
}

/// A comdat, or a fault.
#[repr(C)]
#[derive(Clone, Copy)]
pub struct PlainComdat {
    /// The fault of the item, of kind 0 if there is none.
    pub fault: PlainFault,
    /// The size of the item in bytes, 0 after a fault.
    pub consumed: usize,
    /// The name of the comdat, which is UTF-8.
    pub name: PlainSpan,
    /// The flags. None is defined; they are not checked.
    pub flags: u32,
    /// The number of symbols.
    pub count: u32,
    /// The symbols, after their count.
    pub symbols: PlainSpan,
}

/// A symbol of a comdat, or a fault.
#[repr(C)]
#[derive(Clone, Copy)]
pub struct PlainComdatSymbol {
    /// The fault of the item, of kind 0 if there is none.
    pub fault: PlainFault,
    /// The size of the item in bytes, 0 after a fault.
    pub consumed: usize,
    /// The kind, a `pulleynavy_comdat_kind`: 0 data, 1 a function, 2 a global, 3 an event, 4 a table, 5 a section.
    pub kind: u32,
    /// The index in the index space of the kind.
    pub index: u32,
}

fn comdat_code(kind: ComdatSymbolKind) -> u32
    ensures { result ≡ comdat_code kind }
{
    match kind {
        ComdatSymbolKind::Data => 0,
        ComdatSymbolKind::Func => 1,
        ComdatSymbolKind::Global => 2,
        ComdatSymbolKind::Event => 3,
        ComdatSymbolKind::Table => 4,
        ComdatSymbolKind::Section => 5,
    }
}

/// Information about data segments in the section `linking`.
#[derive(Clone, Copy)]
pub struct LinkingSegments;

impl Readable for LinkingSegments {
    type Plain = PlainLinkingSegment;

    ghost Item = { SegmentParts };

    ghost reading = { λ _. segment_at };

    ghost plain = { λ _. plain_linking_segment };

    fn read(self, reader: &mut BinaryReader<'_>, from: u64) -> Result<PlainLinkingSegment> {
        let start = reader.original_position();
        let before = reader.clone().unwrap();
        let segment = Segment::from_reader(reader)?;
        Ok(PlainLinkingSegment {
            fault: NO_FAULT,
            consumed: distance(start, reader.original_position()),
            name: text_span(from, before, segment.name.len()),
            alignment: segment.alignment,
            flags: segment.flags.bits(),
        })
    }

    fn refused(self, error: Error) -> PlainLinkingSegment {
        PlainLinkingSegment {
            fault: plain_fault(error),
            consumed: 0,
            name: NO_SPAN,
            alignment: 0,
            flags: 0,
        }
    }
}

/// Functions to call at startup.
#[derive(Clone, Copy)]
pub struct InitFunctions;

impl Readable for InitFunctions {
    type Plain = PlainInitFunction;

    ghost Item = { InitFunc };

    ghost reading = { λ _. init_function_at };

    ghost plain = { λ _. plain_init_function };

    fn read(self, reader: &mut BinaryReader<'_>, _from: u64) -> Result<PlainInitFunction> {
        let start = reader.original_position();
        let function = InitFunc::from_reader(reader)?;
        Ok(PlainInitFunction {
            fault: NO_FAULT,
            consumed: distance(start, reader.original_position()),
            priority: function.priority,
            symbol: function.symbol_index,
        })
    }

    fn refused(self, error: Error) -> PlainInitFunction {
        PlainInitFunction {
            fault: plain_fault(error),
            consumed: 0,
            priority: 0,
            symbol: 0,
        }
    }
}

/// Comdats.
#[derive(Clone, Copy)]
pub struct Comdats;

impl Readable for Comdats {
    type Plain = PlainComdat;

    ghost Item = { ComdatParts };

    ghost reading = { λ _. comdat_at };

    ghost plain = { λ _. plain_comdat };

    fn read(self, reader: &mut BinaryReader<'_>, from: u64) -> Result<PlainComdat> {
        let start = reader.original_position();
        let before = reader.clone().unwrap();
        let comdat = Comdat::from_reader(reader)?;
        Ok(PlainComdat {
            fault: NO_FAULT,
            consumed: distance(start, reader.original_position()),
            name: text_span(from, before, comdat.name.len()),
            flags: comdat.flags,
            count: comdat.symbols.count(),
            symbols: items_span(from, &comdat.symbols),
        })
    }

    fn refused(self, error: Error) -> PlainComdat {
        PlainComdat {
            fault: plain_fault(error),
            consumed: 0,
            name: NO_SPAN,
            flags: 0,
            count: 0,
            symbols: NO_SPAN,
        }
    }
}

/// Symbols of a comdat.
#[derive(Clone, Copy)]
pub struct ComdatSymbols;

impl Readable for ComdatSymbols {
    type Plain = PlainComdatSymbol;

    ghost Item = { ComdatSymbol };

    ghost reading = { λ _. comdat_symbol_at };

    ghost plain = { λ _. plain_comdat_symbol };

    fn read(self, reader: &mut BinaryReader<'_>, _from: u64) -> Result<PlainComdatSymbol> {
        let start = reader.original_position();
        let symbol = ComdatSymbol::from_reader(reader)?;
        Ok(PlainComdatSymbol {
            fault: NO_FAULT,
            consumed: distance(start, reader.original_position()),
            kind: comdat_code(symbol.kind),
            index: symbol.index,
        })
    }

    fn refused(self, error: Error) -> PlainComdatSymbol {
        PlainComdatSymbol {
            fault: plain_fault(error),
            consumed: 0,
            kind: 0,
            index: 0,
        }
    }
}
