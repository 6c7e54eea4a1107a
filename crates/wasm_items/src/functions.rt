// Functions.
use wasm_base::SectionLimited;

/// The function section, whose items are the type indices of the module's functions.
///
/// ```rattle
/// let section = FunctionSectionReader::new(BinaryReader::new(&[2, 0, 7], 0))?;
/// let mut last = 0;
/// for type_index in section {
///     last = type_index?;
/// }
/// assert_eq!(rt; last, 7);
/// ```
///
/// (Core specification, Binary format, Modules, Function Section.)
pub type FunctionSectionReader<'a> = SectionLimited<'a, u32>;
