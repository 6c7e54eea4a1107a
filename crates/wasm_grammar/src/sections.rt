// The table of sections: ids, names, forms, and the order in which they come.
ghost use Rattle.std.specs.Prelude.{◌≡◌, option_map};
ghost use Rattle.wasm_base.specs.Header.{magic};
ghost use Rattle.wasm_grammar.specs.Accepted.{header_bytes};
ghost use Rattle.wasm_grammar.specs.Content.{kind_of, rank_of};
ghost use Rattle.wasm_grammar.specs.Ids.{id_named, name_of, place_of};
ghost use Rattle.wasm_grammar.specs.KindInCode.{kind_is};
ghost use Rattle.wasm_grammar.specs.declared.encoding.Encoding.TheVariants.{Component, Module};

use crate::encoding::Encoding;

/// The id of a custom section (core specification, Binary format, Modules, Sections).
pub const CUSTOM_SECTION: u8 = 0;

/// The id of the type section.
pub const TYPE_SECTION: u8 = 1;

/// The id of the import section.
pub const IMPORT_SECTION: u8 = 2;

/// The id of the function section.
pub const FUNCTION_SECTION: u8 = 3;

/// The id of the table section.
pub const TABLE_SECTION: u8 = 4;

/// The id of the memory section.
pub const MEMORY_SECTION: u8 = 5;

/// The id of the global section.
pub const GLOBAL_SECTION: u8 = 6;

/// The id of the export section.
pub const EXPORT_SECTION: u8 = 7;

/// The id of the start section.
pub const START_SECTION: u8 = 8;

/// The id of the element section.
pub const ELEMENT_SECTION: u8 = 9;

/// The id of the code section.
pub const CODE_SECTION: u8 = 10;

/// The id of the data section.
pub const DATA_SECTION: u8 = 11;

/// The id of the data count section.
pub const DATA_COUNT_SECTION: u8 = 12;

/// The id of the tag section.
pub const TAG_SECTION: u8 = 13;

/// The form of a section's content (core specification, Binary format, Modules, Sections).
#[derive(Clone, Copy)]
pub enum SectionKind {
    /// A name, then any bytes: a custom section.
    Custom,
    /// A count, then that many items.
    Items,
    /// A single index: the start section.
    Index,
    /// A single count: the data count section.
    DataCount,
    /// A count, then that many bodies, which the parser returns one by one.
    Code,
    /// Any bytes: a section with an unknown id, or a component's section.
    Unknown,
}

/// Returns the word for a module's section in listings, or `None` for an unknown id.
///
/// It is the section's name in the core specification without "section", and `datacount` for the data count section.
///
/// ```rattle
/// assert_eq!(rt; section_name(DATA_COUNT_SECTION), Some("datacount"));
/// assert_eq!(rt; section_name(14), None);
/// ```
///
/// (Core specification, Binary format, Modules, Sections.)
pub fn section_name(id: u8) -> Option<&'static str>
    // Proved: each call of the table of sections returns what the standard's table defines: a name,
    //   an id, a form, a place or a rank [the clauses of `section_name`, `section_named`,
    //   `section_kind`, `section_place`, `section_rank`]
    ensures { option_map (λ name. name.now) result ≡ name_of id }
{
    match id {
        CUSTOM_SECTION => Some("custom"),
        TYPE_SECTION => Some("type"),
        IMPORT_SECTION => Some("import"),
        FUNCTION_SECTION => Some("function"),
        TABLE_SECTION => Some("table"),
        MEMORY_SECTION => Some("memory"),
        GLOBAL_SECTION => Some("global"),
        EXPORT_SECTION => Some("export"),
        START_SECTION => Some("start"),
        ELEMENT_SECTION => Some("element"),
        CODE_SECTION => Some("code"),
        DATA_SECTION => Some("data"),
        DATA_COUNT_SECTION => Some("datacount"),
        TAG_SECTION => Some("tag"),
        _ => None,
    }
}

/// Returns the id of a module's section from its word in listings, or `None` for an unknown word.
pub fn section_named(name: &str) -> Option<u8>
    ensures { result ≡ id_named name.now }
{
    match name {
        "custom" => Some(CUSTOM_SECTION),
        "type" => Some(TYPE_SECTION),
        "import" => Some(IMPORT_SECTION),
        "function" => Some(FUNCTION_SECTION),
        "table" => Some(TABLE_SECTION),
        "memory" => Some(MEMORY_SECTION),
        "global" => Some(GLOBAL_SECTION),
        "export" => Some(EXPORT_SECTION),
        "start" => Some(START_SECTION),
        "element" => Some(ELEMENT_SECTION),
        "code" => Some(CODE_SECTION),
        "data" => Some(DATA_SECTION),
        "datacount" => Some(DATA_COUNT_SECTION),
        "tag" => Some(TAG_SECTION),
        _ => None,
    }
}

// The form of a module's section with this id.
fn kind_in_module(id: u8) -> SectionKind
    ensures { kind_is result ≡ kind_of Module id }
{
    match id {
        CUSTOM_SECTION => SectionKind::Custom,
        START_SECTION => SectionKind::Index,
        CODE_SECTION => SectionKind::Code,
        DATA_COUNT_SECTION => SectionKind::DataCount,
        TYPE_SECTION
        | IMPORT_SECTION
        | FUNCTION_SECTION
        | TABLE_SECTION
        | MEMORY_SECTION
        | GLOBAL_SECTION
        | EXPORT_SECTION
        | ELEMENT_SECTION
        | DATA_SECTION
        | TAG_SECTION => { SectionKind::Items }
        _ => SectionKind::Unknown,
    }
}

/// Returns the form of the section with this id.
///
/// In a component every section except custom ones is `Unknown`: its content is any bytes.
///
/// ```rattle
/// let kind = section_kind(Encoding::Module, IMPORT_SECTION);
/// assert!(rt; matches!(kind, SectionKind::Items));
/// let kind = section_kind(Encoding::Component, IMPORT_SECTION);
/// assert!(rt; matches!(kind, SectionKind::Unknown));
/// ```
pub fn section_kind(encoding: Encoding, id: u8) -> SectionKind
    ensures { kind_is result ≡ kind_of encoding id }
{
    match encoding {
        Encoding::Component => if id == CUSTOM_SECTION {
            SectionKind::Custom
        } else {
            SectionKind::Unknown
        },
        Encoding::Module => kind_in_module(id),
    }
}

/// Returns the place of a module's section in the order of sections, from 1, or 0 if it may come anywhere.
///
/// The order is that of the standard: tags come after memories, and the data count section before the code section.
///
/// ```rattle
/// assert!(rt; section_place(TAG_SECTION) < section_place(GLOBAL_SECTION));
/// assert_eq!(rt; section_place(CUSTOM_SECTION), 0);
/// ```
pub fn section_place(id: u8) -> u8
    ensures { result ≡ place_of id }
{
    match id {
        TYPE_SECTION => 1,
        IMPORT_SECTION => 2,
        FUNCTION_SECTION => 3,
        TABLE_SECTION => 4,
        MEMORY_SECTION => 5,
        TAG_SECTION => 6,
        GLOBAL_SECTION => 7,
        EXPORT_SECTION => 8,
        START_SECTION => 9,
        ELEMENT_SECTION => 10,
        DATA_COUNT_SECTION => 11,
        CODE_SECTION => 12,
        DATA_SECTION => 13,
        _ => 0,
    }
}

/// Returns the rank of a section of this form: its place, or 0 if it may come anywhere.
///
/// Ranks of a stream's sections must ascend. Custom sections and sections of the form `Unknown` have rank 0.
pub fn section_rank(kind: SectionKind, id: u8) -> u8
    ensures { result ≡ rank_of (kind_is kind) id }
{
    match kind {
        SectionKind::Custom | SectionKind::Unknown => 0,
        SectionKind::Items | SectionKind::Index | SectionKind::DataCount => section_place(id),
        SectionKind::Code => section_place(CODE_SECTION),
    }
}
