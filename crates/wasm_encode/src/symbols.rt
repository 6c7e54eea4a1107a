// Symbols of the symbol table of a linker.
ghost use Rattle.std.specs.Prelude.{◌≡◌, ◌+◌, ◌≤◌, ◌<◌, ◌^◌, ◌++◌, ◌↔◌, IsTrue, drop, length, take};
ghost use Rattle.wasm_custom.specs.Flags.{symbol_bits};
ghost use Rattle.wasm_custom.specs.Linking.{is_named, is_undefined, symbol_parts};
ghost use Rattle.wasm_encode.specs.Names.{name_bytes};
ghost use Rattle.wasm_encode.specs.Numbers.{unsigned_bytes};
ghost use Rattle.wasm_encode.specs.Symbols.{IsShort, NameMatches, PlaceMatches, RestFits, maybe_name, maybe_place};
ghost use Rattle.wasm_encode.specs.Symbols.{place_bytes, symbol_bytes, symbol_flags, symbol_kind, symbol_rest, texts};

use crate::bytes::write_byte;
use crate::encode::Encode;
use crate::names::write_name;
use crate::number::{unsigned_len, write_unsigned};
use crate::texts::{text_fits, text_len};
use bitflags::Flags;
use wasm_custom::{DefinedDataSymbol, SymbolFlags, SymbolInfo};

// Returns how many bytes the location of data has.
#[tactic(auto, unfolding(crate::specs::Symbols::place_bytes), using(crate::proofs::Numbers::septets_few))]
fn place_len(place: &DefinedDataSymbol) -> usize
    ensures len { result ≡ length (place_bytes place.now) }
    ensures most { result ≤ 30 }
{
    unsigned_len(u64::from(place.index))
        + unsigned_len(u64::from(place.offset))
        + unsigned_len(u64::from(place.size))
}

// Writes the location of data.
#[tactic(auto, unfolding(crate::specs::Symbols::place_bytes), using(crate::proofs::RestStays::stays_on))]
fn write_place(bytes: &mut [u8], at: usize, place: &DefinedDataSymbol) -> usize
    requires { at + length (place_bytes place.now) ≤ length bytes.old }
    ensures end { result ≡ at + length (place_bytes place.now) }
    ensures written { take result bytes.new ≡ take at bytes.old ++ place_bytes place.now }
    ensures rest { drop result bytes.new ≡ drop result bytes.old }
    ensures len { length bytes.new ≡ length bytes.old }
{
    let after_index = write_unsigned(bytes, at, u64::from(place.index));
    let after_offset = write_unsigned(bytes, after_index, u64::from(place.offset));
    write_unsigned(bytes, after_offset, u64::from(place.size))
}

impl Encode for DefinedDataSymbol {
    ghost use Rattle.wasm_base.specs.Item.{ReadsAs};
    ghost use Rattle.wasm_custom.specs.Linking.{defined_data_at};
    ghost use Rattle.wasm_encode.specs.Symbols.{PlaceFits};

    ghost meaning = { ReadsAs (λ symbol. symbol) defined_data_at };

    ghost encoded = { place_bytes };

    ghost is_encodable = { PlaceFits };

    ghost is_allowed = { λ features symbol. Unit {0} };

    ghost placed = { λ features offset symbol. symbol };

    fn fits(&self) -> bool {
        let _index = self.index;
        let _offset = self.offset;
        let _size = self.size;
        true
    }

    fn encoded_len(&self) -> usize {
        place_len(self)
    }

    fn encode_at(&self, bytes: &mut [u8], at: usize) -> usize {
        write_place(bytes, at, self)
    }

    fn reads_back(&self) {}
}

// Returns whether a symbol with these flags is not defined here.
fn is_undefined(flags: SymbolFlags) -> bool
    ensures { result ≡ is_undefined (symbol_bits flags) }
{
    flags.contains(SymbolFlags::UNDEFINED)
}

// Returns whether a symbol with these flags has a name.
fn is_named(flags: SymbolFlags) -> bool
    ensures { result ≡ is_named (symbol_bits flags) }
{
    !is_undefined(flags) || flags.contains(SymbolFlags::EXPLICIT_NAME)
}

// Returns whether a name is there exactly if the flags of its symbol say so.
fn name_matches(flags: SymbolFlags, name: Option<&str>) -> bool
    ensures { IsTrue result ↔ NameMatches (symbol_bits flags) (texts name.entry) }
{
    match name {
        Some(text) => {
            if !is_named(flags) {
                return false;
            }
            text_fits(text)
        }
        None => !is_named(flags),
    }
}

// Returns whether the location of data is there exactly if the flags of its symbol say so.
fn place_matches(flags: SymbolFlags, symbol: Option<DefinedDataSymbol>) -> bool
    ensures { IsTrue result ↔ PlaceMatches (symbol_bits flags) symbol }
{
    match symbol {
        Some(place) => {
            if is_undefined(flags) {
                return false;
            }
            place.fits()
        }
        None => is_undefined(flags),
    }
}

// Returns whether what follows the flags of a symbol can be written after them.
fn rest_fits(symbol: &SymbolInfo<'_>) -> bool
    ensures { IsTrue result ↔ RestFits (symbol_parts symbol.now) }
{
    match symbol {
        SymbolInfo::Func { flags, index, name }
        | SymbolInfo::Global { flags, index, name }
        | SymbolInfo::Event { flags, index, name }
        | SymbolInfo::Table { flags, index, name } => {
            let _index = *index;
            name_matches(*flags, *name)
        }
        SymbolInfo::Data {
            flags,
            name,
            symbol,
        } => {
            if !text_fits(name) {
                return false;
            }
            place_matches(*flags, *symbol)
        }
        SymbolInfo::Section { section, .. } => {
            let _section = *section;
            true
        }
    }
}

// Returns how many bytes a name has, if there is one. Its size must be a `u32`.
fn maybe_name_len(name: Option<&str>) -> usize
    requires { IsShort (texts name) }
    ensures len { result ≡ length (maybe_name (texts name.entry)) }
    ensures most { result < 2 ^ 32 + 10 }
{
    match name {
        Some(text) => text_len(text),
        None => 0,
    }
}

// Returns how many bytes the location of data has, if there is one.
fn maybe_place_len(symbol: Option<DefinedDataSymbol>) -> usize
    ensures len { result ≡ length (maybe_place symbol) }
    ensures most { result ≤ 30 }
{
    match symbol {
        Some(place) => place_len(&place),
        None => 0,
    }
}

// Returns how many bytes follow the flags of a symbol.
#[tactic(auto, using(crate::proofs::Numbers::septets_few))]
fn rest_len(symbol: &SymbolInfo<'_>) -> usize
    requires { RestFits (symbol_parts symbol.now) }
    ensures len { result ≡ length (symbol_rest (symbol_parts symbol.now)) }
    ensures most { result < 2 ^ 32 + 50 }
{
    match symbol {
        SymbolInfo::Func { index, name, .. }
        | SymbolInfo::Global { index, name, .. }
        | SymbolInfo::Event { index, name, .. }
        | SymbolInfo::Table { index, name, .. } => {
            unsigned_len(u64::from(*index)) + maybe_name_len(*name)
        }
        SymbolInfo::Data { name, symbol, .. } => text_len(name) + maybe_place_len(*symbol),
        SymbolInfo::Section { section, .. } => unsigned_len(u64::from(*section)),
    }
}

// Returns the byte of the kind of a symbol.
fn kind_of(symbol: &SymbolInfo<'_>) -> u8
    ensures { result ≡ symbol_kind (symbol_parts symbol.now) }
{
    match symbol {
        SymbolInfo::Func { .. } => 0x00,
        SymbolInfo::Data { .. } => 0x01,
        SymbolInfo::Global { .. } => 0x02,
        SymbolInfo::Section { .. } => 0x03,
        SymbolInfo::Event { .. } => 0x04,
        SymbolInfo::Table { .. } => 0x05,
    }
}

// Returns the flags of a symbol.
fn flags_of(symbol: &SymbolInfo<'_>) -> u32
    ensures { result ≡ symbol_flags (symbol_parts symbol.now) }
{
    match symbol {
        SymbolInfo::Func { flags, .. }
        | SymbolInfo::Data { flags, .. }
        | SymbolInfo::Global { flags, .. }
        | SymbolInfo::Section { flags, .. }
        | SymbolInfo::Event { flags, .. }
        | SymbolInfo::Table { flags, .. } => flags.bits(),
    }
}

// Writes an index and a name, if there is one.
#[tactic(auto, using(crate::proofs::RestStays::stays_on))]
fn write_indexed(bytes: &mut [u8], at: usize, index: u32, name: Option<&str>) -> usize
    requires { at + length (unsigned_bytes index ++ maybe_name (texts name)) ≤ length bytes.old }
    ensures end { result ≡ at + length (unsigned_bytes index ++ maybe_name (texts name.entry)) }
    ensures written { take result bytes.new ≡ take at bytes.old
        ++ (unsigned_bytes index ++ maybe_name (texts name.entry)) }
    ensures rest { drop result bytes.new ≡ drop result bytes.old }
    ensures len { length bytes.new ≡ length bytes.old }
{
    let after_index = write_unsigned(bytes, at, u64::from(index));
    match name {
        Some(text) => write_name(bytes, after_index, text),
        None => after_index,
    }
}

// Writes the name of data, and its location, if there is one.
#[tactic(auto, using(crate::proofs::RestStays::stays_on))]
fn write_data(bytes: &mut [u8], at: usize, name: &str, symbol: Option<DefinedDataSymbol>) -> usize
    requires { at + length (name_bytes name.now ++ maybe_place symbol) ≤ length bytes.old }
    ensures end { result ≡ at + length (name_bytes name.now ++ maybe_place symbol) }
    ensures written { take result bytes.new ≡ take at bytes.old
        ++ (name_bytes name.now ++ maybe_place symbol) }
    ensures rest { drop result bytes.new ≡ drop result bytes.old }
    ensures len { length bytes.new ≡ length bytes.old }
{
    let after_name = write_name(bytes, at, name);
    match symbol {
        Some(place) => write_place(bytes, after_name, &place),
        None => after_name,
    }
}

// Writes what follows the flags of a symbol.
fn write_rest(bytes: &mut [u8], at: usize, symbol: &SymbolInfo<'_>) -> usize
    requires { at + length (symbol_rest (symbol_parts symbol.now)) ≤ length bytes.old }
    ensures end { result ≡ at + length (symbol_rest (symbol_parts symbol.now)) }
    ensures written { take result bytes.new ≡ take at bytes.old
        ++ symbol_rest (symbol_parts symbol.now) }
    ensures rest { drop result bytes.new ≡ drop result bytes.old }
    ensures len { length bytes.new ≡ length bytes.old }
{
    match symbol {
        SymbolInfo::Func { index, name, .. }
        | SymbolInfo::Global { index, name, .. }
        | SymbolInfo::Event { index, name, .. }
        | SymbolInfo::Table { index, name, .. } => write_indexed(bytes, at, *index, *name),
        SymbolInfo::Data { name, symbol, .. } => write_data(bytes, at, name, *symbol),
        SymbolInfo::Section { section, .. } => write_unsigned(bytes, at, u64::from(*section)),
    }
}

// Returns how many bytes a symbol has.
#[tactic(auto, unfolding(crate::specs::Symbols::symbol_bytes), using(crate::proofs::Numbers::septets_few))]
fn symbol_len(symbol: &SymbolInfo<'_>) -> usize
    requires { RestFits (symbol_parts symbol.now) }
    ensures { result ≡ length (symbol_bytes (symbol_parts symbol.now)) }
{
    1 + unsigned_len(u64::from(flags_of(symbol))) + rest_len(symbol)
}

impl<'a> Encode for SymbolInfo<'a> {
    ghost use Rattle.wasm_base.specs.Item.{ReadsAs};
    ghost use Rattle.wasm_custom.specs.Linking.{symbol_at};
    ghost use Rattle.wasm_encode.specs.Symbols.{SymbolFits};

    ghost meaning = { ReadsAs symbol_parts symbol_at };

    ghost encoded = { λ symbol. symbol_bytes (symbol_parts symbol) };

    ghost is_encodable = { λ symbol. SymbolFits (symbol_parts symbol) };

    ghost is_allowed = { λ features symbol. Unit {0} };

    ghost placed = { λ features offset symbol. symbol };

    fn fits(&self) -> bool {
        let _flags = flags_of(self);
        if !rest_fits(self) {
            return false;
        }
        symbol_len(self) <= u32::MAX as usize
    }

    fn encoded_len(&self) -> usize {
        symbol_len(self)
    }

    #[tactic(auto, unfolding(crate::specs::Symbols::symbol_bytes), using(crate::proofs::RestStays::stays_on))]
    fn encode_at(&self, bytes: &mut [u8], at: usize) -> usize {
        let after_kind = write_byte(bytes, at, kind_of(self));
        let after_flags = write_unsigned(bytes, after_kind, u64::from(flags_of(self)));
        write_rest(bytes, after_flags, self)
    }

    fn reads_back(&self) {}
}
