// Flags of symbols and of segments.
ghost use Rattle.std.specs.Prelude.{⊤, [], ◌∷◌, codes};
ghost use Rattle.wasm_base.specs.Item.{ReadsAs};
ghost use Rattle.wasm_base.specs.Number.{unsigned_at};
ghost use Rattle.wasm_base.specs.declared.fault.NumberKind.TheVariants.{VarU32};

use bitflags::{Flag, Flags};
use wasm_base::{BinaryReader, FromReader, Result};

/// The flags of a symbol, as a set of bits.
///
/// The methods of `bitflags::Flags`, such as `contains`, examine the set. Unknown bits are kept.
///
/// ```rattle
/// use bitflags::Flags;
/// let mut reader = BinaryReader::new(&[0x14], 0);
/// let flags = SymbolFlags::from_reader(&mut reader)?;
/// assert!(rt; flags.contains(SymbolFlags::UNDEFINED));
/// assert!(rt; !flags.contains(SymbolFlags::EXPORTED));
/// ```
///
/// (Tool conventions, Linking, Symbol Table Subsection.)
#[derive(Clone, Copy, Debug, PartialEq, Eq, Hash, Default, PartialOrd, Ord)]
pub struct SymbolFlags(u32);

impl SymbolFlags {
    /// The symbol is weak: another definition of it may replace this one.
    pub const BINDING_WEAK: SymbolFlags = SymbolFlags(1);

    /// The symbol is visible only in its own module.
    pub const BINDING_LOCAL: SymbolFlags = SymbolFlags(2);

    /// The symbol is not visible outside the linked module.
    pub const VISIBILITY_HIDDEN: SymbolFlags = SymbolFlags(4);

    /// The symbol is not defined in this module.
    pub const UNDEFINED: SymbolFlags = SymbolFlags(16);

    /// The symbol is exported from the linked module.
    pub const EXPORTED: SymbolFlags = SymbolFlags(32);

    /// The symbol has a name of its own, though it is imported.
    pub const EXPLICIT_NAME: SymbolFlags = SymbolFlags(64);

    /// The symbol is kept even if it is unused.
    pub const NO_STRIP: SymbolFlags = SymbolFlags(128);

    /// The symbol is thread-local.
    pub const TLS: SymbolFlags = SymbolFlags(256);

    /// The symbol is an absolute address, in no segment.
    pub const ABSOLUTE: SymbolFlags = SymbolFlags(512);

    const TABLE: &'static [Flag<SymbolFlags>] = &[
        Flag {
            name: "BINDING_WEAK",
            value: SymbolFlags::BINDING_WEAK,
        },
        Flag {
            name: "BINDING_LOCAL",
            value: SymbolFlags::BINDING_LOCAL,
        },
        Flag {
            name: "VISIBILITY_HIDDEN",
            value: SymbolFlags::VISIBILITY_HIDDEN,
        },
        Flag {
            name: "UNDEFINED",
            value: SymbolFlags::UNDEFINED,
        },
        Flag {
            name: "EXPORTED",
            value: SymbolFlags::EXPORTED,
        },
        Flag {
            name: "EXPLICIT_NAME",
            value: SymbolFlags::EXPLICIT_NAME,
        },
        Flag {
            name: "NO_STRIP",
            value: SymbolFlags::NO_STRIP,
        },
        Flag {
            name: "TLS",
            value: SymbolFlags::TLS,
        },
        Flag {
            name: "ABSOLUTE",
            value: SymbolFlags::ABSOLUTE,
        },
    ];
}

impl Flags for SymbolFlags {
    ghost use Rattle.wasm_custom.specs.Flags.{symbol_bits};

    type Bits = u32;

    ghost exact = { ⊤ };

    ghost table = { (codes "BINDING_WEAK", 1) ∷ (codes "BINDING_LOCAL", 2) ∷
        (codes "VISIBILITY_HIDDEN", 4) ∷ (codes "UNDEFINED", 16) ∷ (codes "EXPORTED", 32) ∷
        (codes "EXPLICIT_NAME", 64) ∷ (codes "NO_STRIP", 128) ∷ (codes "TLS", 256) ∷
        (codes "ABSOLUTE", 512) ∷ [] };

    ghost set_of = { symbol_bits };

    fn flags<'a>() -> &'a [Flag<SymbolFlags>] {
        SymbolFlags::TABLE
    }

    fn bits(&self) -> u32 {
        self.0
    }

    fn from_bits_retain(bits: u32) -> SymbolFlags {
        SymbolFlags(bits)
    }
}

/// Reads a u32, with the errors of `read_var_u32`. Unknown bits are kept.
impl<'a> FromReader<'a> for SymbolFlags {
    ghost use Rattle.wasm_custom.specs.Flags.{symbol_bits};

    ghost meaning = { ReadsAs symbol_bits (unsigned_at VarU32) };

    fn from_reader(reader: &mut BinaryReader<'a>) -> Result<Self> {
        Ok(SymbolFlags(reader.read_var_u32()?))
    }
}

/// The flags of a data segment, as a set of bits.
///
/// The methods of `bitflags::Flags`, such as `contains`, examine the set. Unknown bits are kept.
///
/// ```rattle
/// use bitflags::Flags;
/// let mut reader = BinaryReader::new(&[0x01], 0);
/// let flags = SegmentFlags::from_reader(&mut reader)?;
/// assert!(rt; flags.contains(SegmentFlags::STRINGS));
/// ```
///
/// (Tool conventions, Linking, Segment Info Subsection.)
#[derive(Clone, Copy, Debug, PartialEq, Eq, Hash, Default)]
pub struct SegmentFlags(u32);

impl SegmentFlags {
    /// The segment contains null-terminated strings, which may be merged.
    pub const STRINGS: SegmentFlags = SegmentFlags(1);

    /// The segment is thread-local.
    pub const TLS: SegmentFlags = SegmentFlags(2);

    const TABLE: &'static [Flag<SegmentFlags>] = &[
        Flag {
            name: "STRINGS",
            value: SegmentFlags::STRINGS,
        },
        Flag {
            name: "TLS",
            value: SegmentFlags::TLS,
        },
    ];
}

impl Flags for SegmentFlags {
    ghost use Rattle.wasm_custom.specs.Flags.{segment_bits};

    type Bits = u32;

    ghost exact = { ⊤ };

    ghost table = { (codes "STRINGS", 1) ∷ (codes "TLS", 2) ∷ [] };

    ghost set_of = { segment_bits };

    fn flags<'a>() -> &'a [Flag<SegmentFlags>] {
        SegmentFlags::TABLE
    }

    fn bits(&self) -> u32 {
        self.0
    }

    fn from_bits_retain(bits: u32) -> SegmentFlags {
        SegmentFlags(bits)
    }
}

/// Reads a u32, with the errors of `read_var_u32`. Unknown bits are kept.
impl<'a> FromReader<'a> for SegmentFlags {
    ghost use Rattle.wasm_custom.specs.Flags.{segment_bits};

    ghost meaning = { ReadsAs segment_bits (unsigned_at VarU32) };

    fn from_reader(reader: &mut BinaryReader<'a>) -> Result<Self> {
        Ok(SegmentFlags(reader.read_var_u32()?))
    }
}
