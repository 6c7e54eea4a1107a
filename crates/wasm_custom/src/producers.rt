// The tools that a module was produced with.
ghost use Rattle.std.specs.Prelude.{◌≡◌};
ghost use Rattle.wasm_base.specs.Hints.{NotOutOfMemory};
ghost use Rattle.wasm_base.specs.Item.{ReadsAs};
ghost use Rattle.wasm_base.specs.Outcome.{GivesBy};
ghost use Rattle.wasm_base.specs.Window.{place, KeepsWindow};
ghost use Rattle.wasm_custom.specs.Producers.{is_field_name, field_name_at, skipped_value_at};

use wasm_base::{
    BinaryReader, Error, Fault, FromReader, Result, SectionLimited, SkipItem, read_inner,
};

/// The section `producers`, whose items are fields: the languages and tools that a module was produced with.
///
/// ```rattle
/// let bytes = b"\x01\x08language\x01\x04Rust\x00";
/// for field in ProducersSectionReader::new(BinaryReader::new(bytes, 0))? {
///     let field = field?;
///     assert_eq!(rt; field.name, "language");
///     assert_eq!(rt; field.values.count(), 1);
/// }
/// ```
///
/// (Tool conventions, Producers Section.)
pub type ProducersSectionReader<'a> = SectionLimited<'a, ProducersField<'a>>;

/// A field of the producers section: the values for one kind of tool.
///
/// ```rattle
/// let mut reader = BinaryReader::new(b"\x03sdk\x01\x0aEmscripten\x053.1.0", 0);
/// for value in ProducersField::from_reader(&mut reader)?.values {
///     assert_eq!(rt; value?.version, "3.1.0");
/// }
/// ```
///
/// (Tool conventions, Producers Section.)
#[derive(Clone, Debug, Drop)]
pub struct ProducersField<'a> {
    /// The kind of the values: `language`, `sdk` or `processed-by`.
    pub name: &'a str,
    /// The languages or tools, each with a version, read lazily.
    pub values: SectionLimited<'a, ProducersFieldValue<'a>>,
}

/// A language or tool that a module was produced with.
///
/// ```rattle
/// let mut reader = BinaryReader::new(b"\x01C\x0311.", 0);
/// let value = ProducersFieldValue::from_reader(&mut reader)?;
/// assert_eq!(rt; value.name, "C");
/// assert_eq!(rt; value.version, "11.");
/// ```
///
/// (Tool conventions, Producers Section.)
#[derive(Clone, Copy, Debug)]
pub struct ProducersFieldValue<'a> {
    /// The name of the language or tool.
    pub name: &'a str,
    /// The version of the language or tool, possibly empty.
    pub version: &'a str,
}

// Whether a field may have this name.
fn is_field_name(name: &str) -> bool
    ensures { result ≡ is_field_name name.now }
{
    name == "language" || name == "sdk" || name == "processed-by"
}

// Reads the name of a field.
#[tactic(auto, unfolding(crate::specs::Producers::field_name_at))]
fn read_field_name<'a>(reader: &mut BinaryReader<'a>) -> Result<&'a str>
    ensures gives { GivesBy (λ name. name.now) result reader.old reader.new field_name_at }
    ensures keeps { KeepsWindow reader.old reader.new }
    ensures memory { NotOutOfMemory result }
{
    let start = reader.original_position();
    let name = reader.read_unlimited_string()?;
    if !is_field_name(name) {
        return Err(Error::new(Fault::ProducersField, start));
    }
    Ok(name)
}

/// Reads a name and a version, each a text of any length, with the errors of `read_unlimited_string`.
impl<'a> FromReader<'a> for ProducersFieldValue<'a> {
    ghost use Rattle.wasm_custom.specs.Producers.{value_parts, field_value_at};

    ghost meaning = { ReadsAs value_parts field_value_at };

    #[tactic(auto, unfolding(crate::specs::Producers::field_value_at))]
    fn from_reader(reader: &mut BinaryReader<'a>) -> Result<Self> {
        let name = reader.read_unlimited_string()?;
        let version = reader.read_unlimited_string()?;
        Ok(ProducersFieldValue { name, version })
    }
}

/// Skips a name and a version of at most 100,000 bytes each, with the errors of `skip_string`. They may be invalid
/// UTF-8.
impl<'a> SkipItem<'a> for ProducersFieldValue<'a> {
    ghost skipped_at = { skipped_value_at };

    #[tactic(auto, unfolding(crate::specs::Producers::skipped_value_at))]
    fn skip_item(reader: &mut BinaryReader<'a>) -> Result<()> {
        reader.skip_string()?;
        reader.skip_string()
    }
}

/// Reads the name of the field, a text of any length, and skips the list of values.
///
/// The texts of the values are limited to 100,000 bytes here. Iterating over the values also checks that they are
/// UTF-8.
///
/// # Errors
///
/// `ProducersField` at the start of the field if its name is not `language`, `sdk` or `processed-by`; the errors of
/// `read_unlimited_string` and `read_var_u32`; and for the values those of `skip_string`.
impl<'a> FromReader<'a> for ProducersField<'a> {
    ghost use Rattle.wasm_custom.specs.Producers.{field_parts, field_at};

    ghost meaning = { ReadsAs field_parts field_at };

    #[tactic(auto, unfolding(crate::specs::Producers::field_at))]
    fn from_reader(reader: &mut BinaryReader<'a>) -> Result<Self> {
        let name = read_field_name(reader)?;
        let values = read_inner(reader)?;
        Ok(ProducersField { name, values })
    }
}
