// Globals.
ghost use Rattle.std.specs.Prelude.{◌≡◌};
ghost use Rattle.wasm_base.specs.Item.{ReadsAs};

use crate::init::ConstExpr;
use crate::limits::{IS_SHARED, has_flag};
use crate::types::{GlobalType, ValType};
use wasm_base::{BinaryReader, Error, Fault, FromReader, Result, SectionLimited};

/// The global section, whose items are globals.
///
/// ```rattle
/// let bytes = &[1, 0x7f, 0x01, 0x41, 5, 0x0b];
/// for global in GlobalSectionReader::new(BinaryReader::new(bytes, 0))? {
///     assert!(rt; global?.ty.mutable);
/// }
/// ```
///
/// (Core specification, Binary format, Modules, Global Section.)
pub type GlobalSectionReader<'a> = SectionLimited<'a, Global<'a>>;

/// A global.
///
/// ```rattle
/// // A mutable `i32` with the initial value 5.
/// let mut reader = BinaryReader::new(&[0x7f, 0x01, 0x41, 5, 0x0b], 0);
/// let global = Global::from_reader(&mut reader)?;
/// assert_eq!(rt; global.ty.content_type, ValType::I32);
/// assert_eq!(rt; global.init_expr.range().start, 2);
/// ```
///
/// (Core specification, Binary format, Modules, Global Section.)
#[derive(Clone, Debug, Drop)]
pub struct Global<'a> {
    /// The type of the global.
    pub ty: GlobalType,
    /// The expression of the initial value.
    pub init_expr: ConstExpr<'a>,
}

// The flag of a mutable global.
const IS_MUTABLE: u8 = 1;

/// Reads the type of the value and a byte of flags: bit 0 for a mutable global, bit 1 for a shared one.
///
/// # Errors
///
/// `GlobalFlags` at flags above 3; `UnexpectedEof` if they are missing; and the errors of the type (`ValType`).
impl<'a> FromReader<'a> for GlobalType {
    ghost use Rattle.wasm_items.specs.Globals.{global_type_at};

    ghost meaning = { ReadsAs (λ global. global) global_type_at };

    #[tactic(auto, unfolding(crate::specs::Globals::global_type_at))]
    #[inline(always)]
    fn from_reader(reader: &mut BinaryReader<'a>) -> Result<Self> {
        let content_type = ValType::from_reader(reader)?;
        let start = reader.original_position();
        let flags = reader.read_u8()?;
        if flags > 3 {
            return Err(Error::new(Fault::GlobalFlags, start));
        }
        Ok(GlobalType {
            content_type,
            mutable: has_flag(flags, IS_MUTABLE),
            shared: has_flag(flags, IS_SHARED),
        })
    }
}

/// Reads a global type and an expression, with the errors of both.
impl<'a> FromReader<'a> for Global<'a> {
    ghost use Rattle.wasm_items.specs.Globals.{global_at};

    ghost meaning = { ReadsAs (λ global. global) global_at };

    #[tactic(auto, unfolding(crate::specs::Globals::global_at))]
    fn from_reader(reader: &mut BinaryReader<'a>) -> Result<Self> {
        let ty = GlobalType::from_reader(reader)?;
        let init_expr = ConstExpr::from_reader(reader)?;
        Ok(Global { ty, init_expr })
    }
}
