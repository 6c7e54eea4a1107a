// Tags.
ghost use Rattle.std.specs.Prelude.{◌≡◌};
ghost use Rattle.wasm_base.specs.Item.{ReadsAs};

use crate::types::{TagKind, TagType};
use wasm_base::{BinaryReader, Error, Fault, FromReader, Result, SectionLimited};

/// The tag section, whose items are tag types.
///
/// ```rattle
/// let section = TagSectionReader::new(BinaryReader::new(&[1, 0, 4], 0))?;
/// for tag in section {
///     assert_eq!(rt; tag?.func_type_idx, 4);
/// }
/// ```
///
/// (Core specification, Binary format, Modules, Tag Section.)
pub type TagSectionReader<'a> = SectionLimited<'a, TagType>;

/// Reads a byte that must be 0, and the index of a function type, a u32.
///
/// # Errors
///
/// `TagAttributes` at a first byte other than 0; `UnexpectedEof` if it is missing; and the errors of `read_var_u32`.
impl<'a> FromReader<'a> for TagType {
    ghost use Rattle.wasm_items.specs.Tags.{tag_type_at};

    ghost meaning = { ReadsAs (λ tag. tag) tag_type_at };

    #[tactic(auto, unfolding(crate::specs::Tags::tag_type_at))]
    fn from_reader(reader: &mut BinaryReader<'a>) -> Result<Self> {
        let start = reader.original_position();
        if reader.read_u8()? != 0x00 {
            return Err(Error::new(Fault::TagAttributes, start));
        }
        Ok(TagType {
            kind: TagKind::Exception,
            func_type_idx: reader.read_var_u32()?,
        })
    }
}
