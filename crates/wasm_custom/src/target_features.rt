// The features of WebAssembly that a module uses.
ghost use Rattle.wasm_base.specs.Item.{ReadsAs};

use wasm_base::{BinaryReader, FromReader, Result, SectionLimited};

/// The section `target_features`, whose items are the features of WebAssembly that an object file uses or refuses.
///
/// `as_known` does not know this section: compare the name, and pass the section's data.
///
/// ```rattle
/// let section = CustomSectionReader::new(BinaryReader::new(b"\x0ftarget_features\x01+\x08sign-ext", 0))?;
/// assert_eq!(rt; section.name(), "target_features");
/// let features = TargetFeaturesSectionReader::new(BinaryReader::new(section.data(), section.data_offset()))?;
/// for feature in features {
///     let feature = feature?;
///     assert_eq!(rt; (feature.prefix, feature.name), (b'+', "sign-ext"));
/// }
/// ```
///
/// (Tool conventions, Linking, Target Features Section.)
pub type TargetFeaturesSectionReader<'a> = SectionLimited<'a, TargetFeature<'a>>;

/// A feature of WebAssembly, and how a module uses it.
///
/// ```rattle
/// let mut reader = BinaryReader::new(b"-\x07atomics", 0);
/// let feature = TargetFeature::from_reader(&mut reader)?;
/// assert_eq!(rt; (feature.prefix, feature.name), (b'-', "atomics"));
/// ```
///
/// (Tool conventions, Linking, Target Features Section.)
#[derive(Clone, Copy, Debug)]
pub struct TargetFeature<'a> {
    /// `+` if the module uses the feature, `-` if no module that uses it may be linked with this one. Other bytes are
    /// returned too.
    pub prefix: u8,
    /// The name of the feature.
    pub name: &'a str,
}

/// Reads a byte and a text of any length, with the errors of `read_u8` and `read_unlimited_string`.
impl<'a> FromReader<'a> for TargetFeature<'a> {
    ghost use Rattle.wasm_custom.specs.TargetFeatures.{feature_parts, target_feature_at};

    ghost meaning = { ReadsAs feature_parts target_feature_at };

    #[tactic(auto, unfolding(crate::specs::TargetFeatures::target_feature_at))]
    fn from_reader(reader: &mut BinaryReader<'a>) -> Result<Self> {
        let prefix = reader.read_u8()?;
        let name = reader.read_unlimited_string()?;
        Ok(TargetFeature { prefix, name })
    }
}
