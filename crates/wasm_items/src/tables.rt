// Tables.
ghost use Rattle.std.specs.Prelude.{◌≡◌};
ghost use Rattle.wasm_base.specs.Hints.{NotOutOfMemory};
ghost use Rattle.wasm_base.specs.Item.{ReadsAs};
ghost use Rattle.wasm_base.specs.Outcome.{GivesBy};
ghost use Rattle.wasm_base.specs.Window.{place, KeepsWindow};
ghost use Rattle.wasm_items.specs.Tables.{filled_table_at};

use crate::init::ConstExpr;
use crate::limits::{IS_SHARED, IS_WIDE, has_flag, read_limits};
use crate::types::{RefType, TableType};
use wasm_base::{BinaryReader, Error, Fault, FromReader, Result, SectionLimited};

/// The table section, whose items are tables.
///
/// ```rattle
/// let section = TableSectionReader::new(BinaryReader::new(&[1, 0x70, 0x00, 10], 0))?;
/// for table in section {
///     assert_eq!(rt; table?.ty.initial, 10);
/// }
/// ```
///
/// (Core specification, Binary format, Modules, Table Section.)
pub type TableSectionReader<'a> = SectionLimited<'a, Table<'a>>;

/// A table.
///
/// ```rattle
/// // A table of 10 function references.
/// let mut reader = BinaryReader::new(&[0x70, 0x00, 10], 0);
/// let table = Table::from_reader(&mut reader)?;
/// assert_eq!(rt; table.ty.element_type, RefType::FUNCREF);
/// assert_eq!(rt; table.ty.maximum, None);
/// ```
///
/// (Core specification, Binary format, Modules, Table Section.)
#[derive(Clone, Debug, Drop)]
pub struct Table<'a> {
    /// The type of the table.
    pub ty: TableType,
    /// The initial value of the elements.
    pub init: TableInit<'a>,
}

/// The initial value of a table's elements.
///
/// ```rattle
/// // A table of one function reference, which is initialized with function 3.
/// let mut reader = BinaryReader::new(&[0x40, 0, 0x70, 0, 1, 0xd2, 3, 0x0b], 0);
/// match Table::from_reader(&mut reader)?.init {
///     TableInit::RefNull => assert!(rt; false),
///     TableInit::Expr(expression) => assert_eq!(rt; expression.range().start, 5),
/// }
/// ```
///
/// (Core specification, Binary format, Modules, Table Section.)
#[derive(Clone, Debug, Drop)]
pub enum TableInit<'a> {
    /// A null reference: the table was encoded without an expression.
    RefNull,
    /// The value of this constant expression.
    Expr(ConstExpr<'a>),
}

/// Reads the type of the elements, a byte of flags, the initial number of elements, and the maximum if flagged.
///
/// The flags are bit 0 for a maximum, bit 1 for a shared table and bit 2 for 64-bit indices. The limits are read as u64
/// if the reader has the feature `MEMORY64`, and as u32 otherwise, whatever the flags are.
///
/// # Errors
///
/// `TableFlags` at flags above 7; `UnexpectedEof` if they are missing; and the errors of the type (`RefType`),
/// `read_var_u64` and `read_var_u32`.
impl<'a> FromReader<'a> for TableType {
    ghost use Rattle.wasm_items.specs.Tables.{table_type_at};

    ghost meaning = { ReadsAs (λ table. table) table_type_at };

    #[tactic(auto, unfolding(crate::specs::Tables::table_type_at, crate::specs::Tables::table_after_flags))]
    fn from_reader(reader: &mut BinaryReader<'a>) -> Result<Self> {
        let element_type = RefType::from_reader(reader)?;
        let start = reader.original_position();
        let flags = reader.read_u8()?;
        if flags > 7 {
            return Err(Error::new(Fault::TableFlags, start));
        }
        let (initial, maximum) = read_limits(flags, reader)?;
        Ok(TableType {
            element_type,
            table64: has_flag(flags, IS_WIDE),
            initial,
            maximum,
            shared: has_flag(flags, IS_SHARED),
        })
    }
}

// Reads a table with an expression, after its first byte.
#[tactic(auto, unfolding(crate::specs::Tables::filled_table_at))]
fn read_filled<'a>(reader: &mut BinaryReader<'a>) -> Result<Table<'a>>
    ensures gives { GivesBy (λ table. table) result reader.old reader.new filled_table_at }
    ensures keeps { KeepsWindow reader.old reader.new }
    ensures memory { NotOutOfMemory result }
{
    let start = reader.original_position();
    if reader.read_u8()? != 0x00 {
        return Err(Error::new(Fault::TableEncoding, start));
    }
    let ty = TableType::from_reader(reader)?;
    let init = TableInit::Expr(ConstExpr::from_reader(reader)?);
    Ok(Table { ty, init })
}

/// Reads a table type; or the bytes 0x40 and 0x00, a table type and the expression of the initial value.
///
/// # Errors
///
/// `TableEncoding` at a byte after 0x40 that is not 0; `UnexpectedEof` if a byte is missing; and the errors of the type
/// (`TableType`) and of the expression (`ConstExpr`).
impl<'a> FromReader<'a> for Table<'a> {
    ghost use Rattle.wasm_items.specs.Tables.{table_at};

    ghost meaning = { ReadsAs (λ table. table) table_at };

    #[tactic(auto, unfolding(crate::specs::Tables::table_at))]
    fn from_reader(reader: &mut BinaryReader<'a>) -> Result<Self> {
        if reader.peek()? == 0x40 {
            reader.read_u8()?;
            return read_filled(reader);
        }
        Ok(Table {
            ty: TableType::from_reader(reader)?,
            init: TableInit::RefNull,
        })
    }
}
