// Texts of symbols.
ghost use Rattle.std.specs.Prelude.{◌≡◌, [], ◌∷◌, false};
ghost use Rattle.wasm_custom.specs.Linking.{text_if_any};
ghost use Rattle.wasm_show.specs.SymbolText.{data_symbol_fields, defined_fields, indexed_fields, section_symbol_fields, symbol_fields, symbol_number};
ghost use Rattle.wasm_output.specs.Said.{SaysFields};
ghost use Rattle.wasm_output.specs.Tree.{Adds, has_line_feed};

use crate::flags::show_symbol_flags;
use crate::lists::{Found, Items, show_items};
use crate::show::Show;
use crate::walker::Walker;
use bitflags::Flags;
use wasm_base::{Result, SectionLimitedIntoIterWithOffsets};
use wasm_custom::{DefinedDataSymbol, SymbolInfo, SymbolInfoMap};
use wasm_output::{Space, Style, Tree};

// Writes a symbol that has an index and perhaps a name.
fn show_indexed<O: Tree>(kind: &str, flags: u32, index: u32, name: &Option<&str>, out: &mut O)
    requires one_line { has_line_feed kind.now ≡ false }
    ensures adds { Adds (O.writing out.old) (O.writing out.new) }
    ensures says { SaysFields (indexed_fields kind.now flags index (text_if_any name.now (λ text. text.now)))
        (O.writing out.old) (O.writing out.new) }
{
    out.label("kind", kind);
    show_symbol_flags(flags, out);
    out.number("index", u64::from(index));
    match name {
        Some(name) => out.quoted("name", name),
        None => out.nothing("name"),
    }
}

// Writes the position of the data of a symbol, if it is defined in this module.
fn show_defined<O: Tree>(symbol: &Option<DefinedDataSymbol>, out: &mut O)
    ensures adds { Adds (O.writing out.old) (O.writing out.new) }
    ensures says { SaysFields (defined_fields symbol.now) (O.writing out.old) (O.writing out.new) }
{
    match symbol {
        Some(symbol) => {
            out.number("index", u64::from(symbol.index));
            out.number("offset", u64::from(symbol.offset));
            out.number("size", u64::from(symbol.size));
        }
        None => out.label("symbol", "undefined"),
    }
}

// Writes a data symbol.
fn show_data<O: Tree>(flags: u32, name: &str, symbol: &Option<DefinedDataSymbol>, out: &mut O)
    ensures adds { Adds (O.writing out.old) (O.writing out.new) }
    ensures says { SaysFields (data_symbol_fields flags name.now symbol.now)
        (O.writing out.old) (O.writing out.new) }
{
    out.label("kind", "data");
    show_symbol_flags(flags, out);
    out.quoted("name", name);
    show_defined(symbol, out);
}

// Writes a section symbol.
fn show_section_symbol<O: Tree>(flags: u32, section: u32, out: &mut O)
    ensures adds { Adds (O.writing out.old) (O.writing out.new) }
    ensures says { SaysFields (section_symbol_fields flags section)
        (O.writing out.old) (O.writing out.new) }
{
    out.label("kind", "section");
    show_symbol_flags(flags, out);
    out.number("section", u64::from(section));
}

impl Show for SymbolInfo<'_> {
    fn show<O: Tree>(&self, _level: usize, out: &mut O)
        ensures adds { Adds (O.writing out.old) (O.writing out.new) }
        // Proved: what the line of a symbol of the `linking` section says
        ensures says { SaysFields (symbol_fields self.now) (O.writing out.old) (O.writing out.new) }
    {
        match self {
            SymbolInfo::Func { flags, index, name } => {
                show_indexed("func", flags.bits(), *index, name, out);
            }
            SymbolInfo::Global { flags, index, name } => {
                show_indexed("global", flags.bits(), *index, name, out);
            }
            SymbolInfo::Event { flags, index, name } => {
                show_indexed("event", flags.bits(), *index, name, out);
            }
            SymbolInfo::Table { flags, index, name } => {
                show_indexed("table", flags.bits(), *index, name, out);
            }
            SymbolInfo::Data {
                flags,
                name,
                symbol,
            } => show_data(flags.bits(), name, symbol, out),
            SymbolInfo::Section { flags, section } => {
                show_section_symbol(flags.bits(), *section, out);
            }
        }
    }
}

// A symbol with its index in the symbol table.
#[derive(Drop)]
struct NumberedSymbol<'a> {
    index: u64,
    symbol: SymbolInfo<'a>,
}

// Writes the index of a symbol, as other items have their numbers.
fn show_number<O: Tree>(index: u64, out: &mut O)
    ensures adds { Adds (O.writing out.old) (O.writing out.new) }
    // Proved: a symbol of a table has its index in brackets
    ensures says { SaysFields (symbol_number index ∷ []) (O.writing out.old) (O.writing out.new) }
{
    match out.style() {
        Style::Lines(_) => {
            out.text(" symbol[");
            out.digits(index);
            out.text("]");
        }
        Style::Objects => {
            out.word_field("space", "symbol");
            out.number("number", index);
        }
    }
}

// Returns whether a symbol has its name in the table.
fn has_own_name(symbol: &SymbolInfo<'_>) -> bool {
    match symbol {
        SymbolInfo::Func { name, .. } => name.is_some(),
        SymbolInfo::Global { name, .. } => name.is_some(),
        SymbolInfo::Event { name, .. } => name.is_some(),
        SymbolInfo::Table { name, .. } => name.is_some(),
        SymbolInfo::Data { .. } => true,
        SymbolInfo::Section { .. } => false,
    }
}

/// Writes the index of the symbol, the name that it has from what it is for, if the tree has it, and its fields.
impl Show for NumberedSymbol<'_> {
    fn show<O: Tree>(&self, level: usize, out: &mut O) {
        show_number(self.index, out);
        if !has_own_name(&self.symbol) {
            out.item_name(Space::Symbols, self.index);
        }
        self.symbol.show(level, out);
    }
}

// The symbols of a table, of which the next one has this index.
#[derive(Drop)]
struct Symbols<'a> {
    symbols: SectionLimitedIntoIterWithOffsets<'a, SymbolInfo<'a>>,
    index: u64,
}

impl<'a> Items for Symbols<'a> {
    ghost use Rattle.wasm_base.specs.Section.{most_items};
    ghost use Rattle.wasm_show.specs.Lists.{never_lists};

    type Item = NumberedSymbol<'a>;

    ghost owes = { λ deep level s all. ⊥ };

    ghost lists = { never_lists };

    ghost most = { λ s. most_items s.symbols };

    fn next_item(&mut self) -> Option<Result<Found<NumberedSymbol<'a>>>> {
        let index = self.index;
        self.index = index.saturating_add(1);
        match self.symbols.next() {
            Some(Ok((offset, symbol))) => Some(Ok((
                offset,
                None,
                NumberedSymbol { index, symbol },
            ))),
            Some(Err(error)) => Some(Err(error)),
            None => None,
        }
    }

    fn walk_lists<W: Walker>(_level: usize, _item: &NumberedSymbol<'a>, _walker: &mut W) {}
}

/// Writes the symbols of a table, each on a line at this level, with its index.
pub(crate) fn show_symbols<O: Tree>(level: usize, symbols: &SymbolInfoMap<'_>, out: &mut O)
    ensures adds { Adds (O.writing out.old) (O.writing out.new) }
{
    let symbols = symbols.clone().unwrap().into_iter_with_offsets();
    show_items(level, Symbols { symbols, index: 0 }, out);
}
