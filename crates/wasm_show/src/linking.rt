// Texts of the sections `linking`, `reloc.*` and `dylink.0`, and of their items.
ghost use Rattle.std.specs.Prelude.{◌≡◌, false};
ghost use Rattle.wasm_show.specs.CustomText.{mem_info_fields};
ghost use Rattle.wasm_custom.specs.Linking.{comdat_at};
ghost use Rattle.wasm_show.specs.Lists.{comdat_seen, linking_section_seen, linking_seen, listing};
ghost use Rattle.wasm_show.specs.Walk.{Sees};
ghost use Rattle.wasm_output.specs.Said.{SaysFields};
ghost use Rattle.wasm_show.specs.SymbolText.{comdat_kind_word, comdat_symbol_fields, export_info_fields, import_info_fields, init_fields, relocation_fields, relocation_type_word, segment_fields};
ghost use Rattle.wasm_output.specs.Tree.{Adds, has_line_feed};

use crate::flags::{show_segment_flags, show_symbol_flags};
use crate::lists::{
    Found, Items, placed, show_extent, show_items, show_lines, show_list, under, walk_items,
    walk_section, without_number,
};
use crate::names::show_unknown;
use crate::show::Show;
use crate::symbols::show_symbols;
use crate::walker::Walker;
use bitflags::Flags;
use wasm_base::{Result, SectionLimitedIntoIterWithOffsets, Subsections};
use wasm_custom::{
    Comdat, ComdatMap, ComdatSymbol, ComdatSymbolKind, Dylink0SectionReader, Dylink0Subsection,
    ExportInfo, ImportInfo, InitFunc, Linking, LinkingSectionReader, MemInfo, RelocSectionReader,
    RelocationEntry, RelocationType, Segment,
};
use wasm_output::{Space, Tree};

impl Show for Segment<'_> {
    fn show<O: Tree>(&self, _level: usize, out: &mut O)
        ensures adds { Adds (O.writing out.old) (O.writing out.new) }
        // Proved: what the line of the information about a data segment says
        ensures says { SaysFields (segment_fields self.now) (O.writing out.old) (O.writing out.new) }
    {
        out.quoted("name", self.name);
        out.number("alignment", u64::from(self.alignment));
        show_segment_flags(self.flags.bits(), out);
    }
}

// Writes the fields of a function to call at startup.
fn show_init<O: Tree>(function: &InitFunc, out: &mut O)
    ensures adds { Adds (O.writing out.old) (O.writing out.new) }
    // Proved: what the line of a function to call at startup says before a name
    ensures says { SaysFields (init_fields function.now) (O.writing out.old) (O.writing out.new) }
{
    out.number("priority", u64::from(function.priority));
    out.number("symbol_index", u64::from(function.symbol_index));
}

/// Writes the fields of the item, and the name of its symbol, if the tree has it.
impl Show for InitFunc {
    fn show<O: Tree>(&self, _level: usize, out: &mut O) {
        show_init(self, out);
        out.item_name(Space::Symbols, u64::from(self.symbol_index));
    }
}

// Returns the name of the kind of a COMDAT symbol.
fn comdat_word(kind: &ComdatSymbolKind) -> &'static str
    ensures word { result.now ≡ comdat_kind_word kind.now }
    ensures one_line { has_line_feed result.now ≡ false }
{
    match kind {
        ComdatSymbolKind::Data => "data",
        ComdatSymbolKind::Func => "func",
        ComdatSymbolKind::Global => "global",
        ComdatSymbolKind::Event => "event",
        ComdatSymbolKind::Table => "table",
        ComdatSymbolKind::Section => "section",
    }
}

impl Show for ComdatSymbol {
    fn show<O: Tree>(&self, _level: usize, out: &mut O)
        ensures adds { Adds (O.writing out.old) (O.writing out.new) }
        // Proved: what the line of a symbol of a comdat says
        ensures says { SaysFields (comdat_symbol_fields self.now) (O.writing out.old) (O.writing out.new) }
    {
        out.begin_field("kind");
        out.text(comdat_word(&self.kind));
        out.number("index", u64::from(self.index));
    }
}

/// Writes the fields of the item, and the symbols on lines under it.
impl Show for Comdat<'_> {
    fn show<O: Tree>(&self, level: usize, out: &mut O) {
        out.quoted("name", self.name);
        out.number("flags", u64::from(self.flags));
        show_list("symbols", level, &self.symbols, out);
    }
}

/// Writes the fields of the item, and the items of a list on lines under it.
impl Show for Linking<'_> {
    fn show<O: Tree>(&self, level: usize, out: &mut O) {
        match self {
            Linking::SegmentInfo(segments) => show_list("segment_info", level, segments, out),
            Linking::InitFuncs(functions) => show_list("init_funcs", level, functions, out),
            Linking::ComdatInfo(comdats) => show_list("comdat_info", level, comdats, out),
            Linking::SymbolTable(symbols) => {
                show_extent("symbol_table", symbols, out);
                show_symbols(under(level), symbols, out);
            }
            Linking::TargetArch(name) => out.quoted("target_arch", name),
            Linking::Unknown {
                ty,
                contents,
                range,
            } => show_unknown(*ty, contents, range, out),
        }
    }
}

// The subsections of a section `linking`.
#[derive(Drop)]
struct LinkingItems<'a> {
    subsections: Subsections<'a, Linking<'a>>,
}

impl<'a> Items for LinkingItems<'a> {
    ghost use Rattle.std.specs.Prelude.{length};
    ghost use Rattle.wasm_base.specs.Window.{place};
    ghost use Rattle.wasm_show.specs.Lists.{OwesLinking, linking_seen};

    type Item = Linking<'a>;

    ghost owes = { λ deep level l. OwesLinking deep level l.subsections };

    ghost lists = { linking_seen };

    ghost most = { λ l. length (place l.subsections).rest };

    fn next_item(&mut self) -> Option<Result<Found<Linking<'a>>>> {
        let offset = self.subsections.original_position();
        placed(offset, self.subsections.next())
    }

    fn walk_lists<W: Walker>(level: usize, item: &Linking<'a>, walker: &mut W) {
        walk_listed(level, item, walker);
    }
}

// The comdats of a list.
#[derive(Drop)]
struct Comdats<'a> {
    comdats: SectionLimitedIntoIterWithOffsets<'a, Comdat<'a>>,
}

impl<'a> Items for Comdats<'a> {
    ghost use Rattle.wasm_base.specs.Section.{most_items};
    ghost use Rattle.wasm_custom.specs.Linking.{comdat_at};
    ghost use Rattle.wasm_show.specs.Lists.{OwesListing, comdat_seen, symbols_of_comdat};

    type Item = Comdat<'a>;

    ghost owes = { λ deep level c. OwesListing comdat_seen comdat_at deep level c.comdats };

    ghost lists = { symbols_of_comdat };

    ghost most = { λ c. most_items c.comdats };

    fn next_item(&mut self) -> Option<Result<Found<Comdat<'a>>>> {
        without_number(self.comdats.next())
    }

    fn walk_lists<W: Walker>(level: usize, item: &Comdat<'a>, walker: &mut W) {
        walk_section(level, &item.symbols, walker);
    }
}

// Walks over the comdats of a list.
fn walk_comdats<W: Walker>(level: usize, section: &ComdatMap<'_>, walker: &mut W)
    ensures { Sees W.saw W.why (listing comdat_seen W.IS_DEEP level comdat_at section.now)
        walker.old walker.new }
{
    let comdats = section.clone().unwrap().into_iter_with_offsets();
    walk_items(level, Comdats { comdats }, walker);
}

// Walks over the items of the list of a subsection.
fn walk_listed<W: Walker>(level: usize, item: &Linking<'_>, walker: &mut W)
    ensures { Sees W.saw W.why (linking_seen W.IS_DEEP level item.now) walker.old walker.new }
{
    match item {
        Linking::SegmentInfo(segments) => walk_section(level, segments, walker),
        Linking::InitFuncs(functions) => walk_section(level, functions, walker),
        Linking::ComdatInfo(comdats) => walk_comdats(level, comdats, walker),
        Linking::SymbolTable(symbols) => walk_section(level, symbols, walker),
        Linking::TargetArch(_) => {}
        Linking::Unknown { .. } => {}
    }
}

/// Walks over the subsections of a section `linking` at this level.
pub(crate) fn walk_linking<W: Walker>(
    level: usize,
    section: &LinkingSectionReader<'_>,
    walker: &mut W,
)
    ensures { Sees W.saw W.why (linking_section_seen W.IS_DEEP level section.now)
        walker.old walker.new }
{
    let subsections = section.subsections();
    walk_items(level, LinkingItems { subsections }, walker);
}

// Writes the fields of a section `linking`.
fn show_head<O: Tree>(section: &LinkingSectionReader<'_>, out: &mut O)
    ensures { Adds (O.writing out.old) (O.writing out.new) }
{
    let range = section.range();
    out.number("version", u64::from(section.version()));
    out.range("range", range.start, range.end);
    out.number("subsections", section.original_position());
}

/// Writes the subsections on lines under the current line.
impl Show for LinkingSectionReader<'_> {
    fn show<O: Tree>(&self, level: usize, out: &mut O) {
        show_head(self, out);
        show_items(under(level), self.subsections(), out);
    }
}

/// Writes the subsections on lines under the current line.
impl Show for Dylink0SectionReader<'_> {
    fn show<O: Tree>(&self, level: usize, out: &mut O) {
        show_items(under(level), self.clone().unwrap(), out);
    }
}

impl Show for MemInfo {
    fn show<O: Tree>(&self, _level: usize, out: &mut O)
        ensures adds { Adds (O.writing out.old) (O.writing out.new) }
        // Proved: what the line of the memory and tables of a dynamic library says
        ensures says { SaysFields (mem_info_fields self.now) (O.writing out.old) (O.writing out.new) }
    {
        out.label("kind", "mem_info");
        out.number("memory_size", u64::from(self.memory_size));
        out.number("memory_alignment", u64::from(self.memory_alignment));
        out.number("table_size", u64::from(self.table_size));
        out.number("table_alignment", u64::from(self.table_alignment));
    }
}

impl Show for ExportInfo<'_> {
    fn show<O: Tree>(&self, _level: usize, out: &mut O)
        ensures adds { Adds (O.writing out.old) (O.writing out.new) }
        // Proved: what the line of the flags of an export says
        ensures says { SaysFields (export_info_fields self.now) (O.writing out.old) (O.writing out.new) }
    {
        out.quoted("name", self.name);
        show_symbol_flags(self.flags.bits(), out);
    }
}

impl Show for ImportInfo<'_> {
    fn show<O: Tree>(&self, _level: usize, out: &mut O)
        ensures adds { Adds (O.writing out.old) (O.writing out.new) }
        // Proved: what the line of the flags of an import says
        ensures says { SaysFields (import_info_fields self.now) (O.writing out.old) (O.writing out.new) }
    {
        out.quoted("module", self.module);
        out.quoted("field", self.field);
        show_symbol_flags(self.flags.bits(), out);
    }
}

// Writes the kind of a list, and its items on lines under the current line.
fn show_words<T: Show, O: Tree>(list: &str, item: &str, level: usize, items: &[T], out: &mut O)
    requires list_line { has_line_feed list.now ≡ false }
    requires item_line { has_line_feed item.now ≡ false }
    ensures { Adds (O.writing out.old) (O.writing out.new) }
{
    out.label("kind", list);
    show_lines(under(level), item, items, out);
}

/// Writes the fields of the item, and the items of a list on lines under it.
impl Show for Dylink0Subsection<'_> {
    fn show<O: Tree>(&self, level: usize, out: &mut O) {
        match self {
            Dylink0Subsection::MemInfo(info) => info.show(level, out),
            Dylink0Subsection::Needed(names) => {
                show_words("needed", "library", level, names, out);
            }
            Dylink0Subsection::ExportInfo(exports) => {
                show_words("export_info", "export", level, exports, out);
            }
            Dylink0Subsection::ImportInfo(imports) => {
                show_words("import_info", "import", level, imports, out);
            }
            Dylink0Subsection::RuntimePath(paths) => {
                show_words("runtime_path", "folder", level, paths, out);
            }
            Dylink0Subsection::TargetArch(name) => out.quoted("target_arch", name),
            Dylink0Subsection::Unknown {
                ty,
                contents,
                range,
            } => show_unknown(*ty, contents, range, out),
        }
    }
}

// Returns the name of a relocation type in the tool conventions.
fn relocation_word(ty: &RelocationType) -> &'static str
    ensures word { result.now ≡ relocation_type_word ty.now }
    ensures one_line { has_line_feed result.now ≡ false }
{
    match ty {
        RelocationType::FunctionIndexLeb => "R_WASM_FUNCTION_INDEX_LEB",
        RelocationType::TableIndexSleb => "R_WASM_TABLE_INDEX_SLEB",
        RelocationType::TableIndexI32 => "R_WASM_TABLE_INDEX_I32",
        RelocationType::MemoryAddrLeb => "R_WASM_MEMORY_ADDR_LEB",
        RelocationType::MemoryAddrSleb => "R_WASM_MEMORY_ADDR_SLEB",
        RelocationType::MemoryAddrI32 => "R_WASM_MEMORY_ADDR_I32",
        RelocationType::TypeIndexLeb => "R_WASM_TYPE_INDEX_LEB",
        RelocationType::GlobalIndexLeb => "R_WASM_GLOBAL_INDEX_LEB",
        RelocationType::FunctionOffsetI32 => "R_WASM_FUNCTION_OFFSET_I32",
        RelocationType::SectionOffsetI32 => "R_WASM_SECTION_OFFSET_I32",
        RelocationType::EventIndexLeb => "R_WASM_EVENT_INDEX_LEB",
        RelocationType::MemoryAddrRelSleb => "R_WASM_MEMORY_ADDR_REL_SLEB",
        RelocationType::TableIndexRelSleb => "R_WASM_TABLE_INDEX_REL_SLEB",
        RelocationType::GlobalIndexI32 => "R_WASM_GLOBAL_INDEX_I32",
        RelocationType::MemoryAddrLeb64 => "R_WASM_MEMORY_ADDR_LEB64",
        RelocationType::MemoryAddrSleb64 => "R_WASM_MEMORY_ADDR_SLEB64",
        RelocationType::MemoryAddrI64 => "R_WASM_MEMORY_ADDR_I64",
        RelocationType::MemoryAddrRelSleb64 => "R_WASM_MEMORY_ADDR_REL_SLEB64",
        RelocationType::TableIndexSleb64 => "R_WASM_TABLE_INDEX_SLEB64",
        RelocationType::TableIndexI64 => "R_WASM_TABLE_INDEX_I64",
        RelocationType::TableNumberLeb => "R_WASM_TABLE_NUMBER_LEB",
        RelocationType::MemoryAddrTlsSleb => "R_WASM_MEMORY_ADDR_TLS_SLEB",
        RelocationType::FunctionOffsetI64 => "R_WASM_FUNCTION_OFFSET_I64",
        RelocationType::MemoryAddrLocrelI32 => "R_WASM_MEMORY_ADDR_LOCREL_I32",
        RelocationType::TableIndexRelSleb64 => "R_WASM_TABLE_INDEX_REL_SLEB64",
        RelocationType::MemoryAddrTlsSleb64 => "R_WASM_MEMORY_ADDR_TLS_SLEB64",
        RelocationType::FunctionIndexI32 => "R_WASM_FUNCTION_INDEX_I32",
    }
}

// Writes the fields of a relocation.
fn show_entry<O: Tree>(entry: &RelocationEntry, out: &mut O)
    ensures adds { Adds (O.writing out.old) (O.writing out.new) }
    // Proved: what the line of a relocation says before a name
    ensures says { SaysFields (relocation_fields entry.now) (O.writing out.old) (O.writing out.new) }
{
    out.word_field("type", relocation_word(&entry.ty));
    out.number("offset", u64::from(entry.offset));
    out.number("index", u64::from(entry.index));
    out.signed("addend", entry.addend);
}

// Returns what the index of a relocation counts: symbols, or types.
fn indexed_space(ty: &RelocationType) -> Space {
    match ty {
        RelocationType::TypeIndexLeb => Space::Types,
        _ => Space::Symbols,
    }
}

/// Writes the fields of the item, and the name of its symbol or type, if the tree has it.
impl Show for RelocationEntry {
    fn show<O: Tree>(&self, _level: usize, out: &mut O) {
        show_entry(self, out);
        out.item_name(indexed_space(&self.ty), u64::from(self.index));
    }
}

// Writes the fields of a section of relocations.
fn show_relocated<O: Tree>(section: &RelocSectionReader<'_>, out: &mut O)
    ensures { Adds (O.writing out.old) (O.writing out.new) }
{
    let range = section.range();
    out.number("section", u64::from(section.section_index()));
    out.range("range", range.start, range.end);
}

/// Writes the relocations on lines under the current line.
impl Show for RelocSectionReader<'_> {
    fn show<O: Tree>(&self, level: usize, out: &mut O) {
        show_relocated(self, out);
        show_list("entries", level, &self.entries(), out);
    }
}
