// Exports.
ghost use Rattle.std.specs.Prelude.{◌≡◌};
ghost use Rattle.wasm_base.specs.Item.{ReadsAs};

use wasm_base::{
    BinaryReader, Error, Fault, FromReader, Lead, Result, SectionLimited, leading_byte_error,
};

/// The export section, whose items are exports.
///
/// ```rattle
/// let bytes = b"\x02\x01f\x00\x05\x01m\x02\x00";
/// for export in ExportSectionReader::new(BinaryReader::new(bytes, 0))? {
///     let export = export?;
///     if export.name == "m" {
///         assert_eq!(rt; export.kind, ExternalKind::Memory);
///     }
/// }
/// ```
///
/// (Core specification, Binary format, Modules, Export Section.)
pub type ExportSectionReader<'a> = SectionLimited<'a, Export<'a>>;

/// The kind of an import or export.
///
/// ```rattle
/// let mut reader = BinaryReader::new(&[2], 0);
/// assert_eq!(rt; ExternalKind::from_reader(&mut reader)?, ExternalKind::Memory);
/// ```
///
/// (Core specification, Binary format, Modules, Export Section.)
#[derive(Clone, Copy, Debug, PartialEq, Eq)]
pub enum ExternalKind {
    /// A function.
    Func,
    /// A table.
    Table,
    /// A memory.
    Memory,
    /// A global.
    Global,
    /// A tag.
    Tag,
    /// A function of exactly the given type (a proposal, not in the core specification).
    FuncExact,
}

/// An export.
///
/// ```rattle
/// let mut reader = BinaryReader::new(b"\x03add\x00\x05", 0);
/// let export = Export::from_reader(&mut reader)?;
/// assert_eq!(rt; export.name, "add");
/// assert_eq!(rt; export.index, 5);
/// ```
///
/// (Core specification, Binary format, Modules, Export Section.)
#[derive(Clone, Copy, Debug, PartialEq, Eq)]
pub struct Export<'a> {
    /// The name of the export.
    pub name: &'a str,
    /// The kind of what is exported.
    pub kind: ExternalKind,
    /// The index of what is exported, in the index space of the kind.
    pub index: u32,
}

/// Reads a byte: 0 for a function, 1 a table, 2 a memory, 3 a global, 4 a tag, 0x20 a function of exactly the given
/// type.
///
/// # Errors
///
/// `UnexpectedEof` if no byte remains; `LeadingByte(External)` at any other byte, with that byte as the error's number.
impl<'a> FromReader<'a> for ExternalKind {
    ghost use Rattle.wasm_items.specs.Externals.{kind_at};

    ghost meaning = { ReadsAs (λ kind. kind) kind_at };

    #[tactic(auto, unfolding(wasm_base::specs::Leading::in_table))]
    fn from_reader(reader: &mut BinaryReader<'a>) -> Result<Self> {
        match reader.read_u8()? {
            0x00 => Ok(ExternalKind::Func),
            0x01 => Ok(ExternalKind::Table),
            0x02 => Ok(ExternalKind::Memory),
            0x03 => Ok(ExternalKind::Global),
            0x04 => Ok(ExternalKind::Tag),
            0x20 => Ok(ExternalKind::FuncExact),
            byte => {
                let offset = reader.original_position() - 1;
                Err(leading_byte_error(Lead::External, byte, offset))
            }
        }
    }
}

/// Reads a name of at most 100,000 bytes, a kind and an index, a u32.
///
/// # Errors
///
/// `ExactExport` at the offset after the kind if it is `FuncExact`; and the errors of `read_string`, the kind and
/// `read_var_u32`.
impl<'a> FromReader<'a> for Export<'a> {
    ghost use Rattle.wasm_items.specs.Exports.{export_parts, export_at};

    ghost meaning = { ReadsAs export_parts export_at };

    #[tactic(auto, unfolding(crate::specs::Exports::export_at))]
    fn from_reader(reader: &mut BinaryReader<'a>) -> Result<Self> {
        let name = reader.read_string()?;
        let kind = reader.read()?;
        if let ExternalKind::FuncExact = kind {
            return Err(Error::new(Fault::ExactExport, reader.original_position()));
        }
        let index = reader.read_var_u32()?;
        Ok(Export { name, kind, index })
    }
}
