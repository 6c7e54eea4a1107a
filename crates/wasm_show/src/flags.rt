// Texts of sets of flags.
ghost use Rattle.std.specs.Prelude.{◌≡◌, ◌<◌, ◌||◌, ◌^◌, codes, false};
ghost use Rattle.wasm_show.specs.FlagText.{flag_after, flags_field, has_flag, segment_words, symbol_words, unnamed_after, words_text};
ghost use Rattle.wasm_output.specs.Fields.{field_start};
ghost use Rattle.wasm_output.specs.Said.{Says, SaysFields};
ghost use Rattle.wasm_output.specs.Tree.{Adds, has_line_feed};

use wasm_output::{Style, Tree};

// The bits of a symbol's flags that have no name.
const UNNAMED_OF_SYMBOLS: u32 = 0xffff_fc08;

// The bits of a segment's flags that have no name.
const UNNAMED_OF_SEGMENTS: u32 = 0xffff_fff8;

// Begins the field. In objects, which have the number of the flags as well, the words have a name of their own.
fn begin_flags<O: Tree>(bits: u32, out: &mut O)
    ensures adds { Adds (O.writing out.old) (O.writing out.new) }
    ensures says { Says (field_start (codes "flags")) (O.writing out.old) (O.writing out.new) }
{
    match out.style() {
        Style::Lines(_) => out.begin_field("flags"),
        Style::Objects => {
            out.number("flags", u64::from(bits));
            out.begin_field("flag_words");
        }
    }
}

// Writes the name of a flag if it is set, after a bar if there are names before it. Returns whether there are names now.
fn write_flag<O: Tree>(has_names: bool, bits: u32, flag: u32, name: &str, out: &mut O) -> bool
    requires one_line { has_line_feed name.now ≡ false }
    ensures adds { Adds (O.writing out.old) (O.writing out.new) }
    ensures says { Says (flag_after has_names bits flag name.now)
        (O.writing out.old) (O.writing out.new) }
    ensures has { result ≡ (has_names || has_flag bits flag) }
{
    if bits & flag == 0 {
        return has_names;
    }
    if has_names {
        out.text(" | ");
    }
    out.text(name);
    true
}

// Writes the bits without names, if there are any or no name is before them.
fn write_unnamed<O: Tree>(has_names: bool, unnamed: u32, out: &mut O)
    ensures adds { Adds (O.writing out.old) (O.writing out.new) }
    ensures says { Says (unnamed_after has_names unnamed) (O.writing out.old) (O.writing out.new) }
{
    if has_names {
        if unnamed == 0 {
            return;
        }
        out.text(" | ");
    }
    out.digits(u64::from(unnamed));
}

// Writes the flags of a symbol, as the tool conventions call them.
fn write_symbol_flags<O: Tree>(bits: u32, out: &mut O)
    ensures adds { Adds (O.writing out.old) (O.writing out.new) }
    ensures says { Says (words_text symbol_words bits) (O.writing out.old) (O.writing out.new) }
{
    let names = write_flag(false, bits, 1, "BINDING_WEAK", out);
    let names = write_flag(names, bits, 2, "BINDING_LOCAL", out);
    let names = write_flag(names, bits, 4, "VISIBILITY_HIDDEN", out);
    let names = write_flag(names, bits, 16, "UNDEFINED", out);
    let names = write_flag(names, bits, 32, "EXPORTED", out);
    let names = write_flag(names, bits, 64, "EXPLICIT_NAME", out);
    let names = write_flag(names, bits, 128, "NO_STRIP", out);
    let names = write_flag(names, bits, 256, "TLS", out);
    let names = write_flag(names, bits, 512, "ABSOLUTE", out);
    write_unnamed(names, bits & UNNAMED_OF_SYMBOLS, out);
}

// Writes the flags of a segment, as the tool conventions call them.
fn write_segment_flags<O: Tree>(bits: u32, out: &mut O)
    ensures adds { Adds (O.writing out.old) (O.writing out.new) }
    ensures says { Says (words_text segment_words bits) (O.writing out.old) (O.writing out.new) }
{
    let names = write_flag(false, bits, 1, "STRINGS", out);
    let names = write_flag(names, bits, 2, "TLS", out);
    let names = write_flag(names, bits, 4, "RETAIN", out);
    write_unnamed(names, bits & UNNAMED_OF_SEGMENTS, out);
}

/// Writes the flags of a symbol as a field.
pub(crate) fn show_symbol_flags<O: Tree>(bits: u32, out: &mut O)
    ensures adds { Adds (O.writing out.old) (O.writing out.new) }
    // Proved: the flags of a symbol, in the style of lines, are the names of those that are set with bars between them,
    //   and other bits as a number; those of a segment too [`says` of `flags::show_symbol_flags` and
    //   `flags::show_segment_flags` (`words_text`)]
    ensures says { SaysFields (flags_field symbol_words bits) (O.writing out.old) (O.writing out.new) }
{
    begin_flags(bits, out);
    write_symbol_flags(bits, out);
}

/// Writes the flags of a segment as a field.
pub(crate) fn show_segment_flags<O: Tree>(bits: u32, out: &mut O)
    ensures adds { Adds (O.writing out.old) (O.writing out.new) }
    ensures says { SaysFields (flags_field segment_words bits) (O.writing out.old) (O.writing out.new) }
{
    begin_flags(bits, out);
    write_segment_flags(bits, out);
}
