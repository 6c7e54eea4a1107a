// The readers of single values: numbers, texts and windows, and sections of them.
use wasm_base::{
    BinaryReader, Error, FromReader, Ieee32, Ieee64, Result, SectionLimited,
    SectionLimitedIntoIterWithOffsets,
};
use wasm_output::Tree;

/// What a call returns, as fields of a line.
trait Value: Drop {
    /// Writes the fields.
    fn write<O: Tree>(&self, out: &mut O);
}

impl Value for () {
    fn write<O: Tree>(&self, _out: &mut O) {}
}

impl Value for bool {
    fn write<O: Tree>(&self, out: &mut O) {
        out.word_field("bool", if *self { "true" } else { "false" });
    }
}

impl Value for u8 {
    fn write<O: Tree>(&self, out: &mut O) {
        out.number("number", u64::from(*self));
    }
}

impl Value for u32 {
    fn write<O: Tree>(&self, out: &mut O) {
        out.number("number", u64::from(*self));
    }
}

impl Value for u64 {
    fn write<O: Tree>(&self, out: &mut O) {
        out.number("number", *self);
    }
}

impl Value for i32 {
    fn write<O: Tree>(&self, out: &mut O) {
        out.signed("number", i64::from(*self));
    }
}

impl Value for i64 {
    fn write<O: Tree>(&self, out: &mut O) {
        out.signed("number", *self);
    }
}

impl Value for Ieee32 {
    fn write<O: Tree>(&self, out: &mut O) {
        out.number("bits", u64::from((*self).bits()));
    }
}

impl Value for Ieee64 {
    fn write<O: Tree>(&self, out: &mut O) {
        out.number("bits", (*self).bits());
    }
}

impl Value for &str {
    fn write<O: Tree>(&self, out: &mut O) {
        out.quoted("text", self);
    }
}

impl Value for BinaryReader<'_> {
    fn write<O: Tree>(&self, out: &mut O) {
        let range = self.range();
        out.range("range", range.start, range.end);
        out.raw("bytes", self.remaining_buffer());
    }
}

impl Value for (u32, bool) {
    fn write<O: Tree>(&self, out: &mut O) {
        self.0.write(out);
        self.1.write(out);
    }
}

impl Value for (&str, &str) {
    fn write<O: Tree>(&self, out: &mut O) {
        self.0.write(out);
        self.1.write(out);
    }
}

/// Writes what a call with this name reads, and how many bytes it consumes. Returns whether there is such a call.
pub(crate) fn show_value<O: Tree>(name: &str, reader: &mut BinaryReader<'_>, out: &mut O) -> bool {
    match name {
        "u8" => show_call(reader.read_u8(), reader, out),
        "u7" => show_call(reader.read_u7(), reader, out),
        "u32" => show_call(reader.read_var_u32(), reader, out),
        "i32" => show_call(reader.read_var_i32(), reader, out),
        "s33" => show_call(reader.read_var_s33(), reader, out),
        "u64" => show_call(reader.read_var_u64(), reader, out),
        "i64" => show_call(reader.read_var_i64(), reader, out),
        "fixed32" => show_call(reader.read_u32(), reader, out),
        "f32" => show_call(reader.read_f32(), reader, out),
        "f64" => show_call(reader.read_f64(), reader, out),
        _ => return show_text(name, reader, out),
    }
    true
}

// Like `show_value`, for texts and windows.
fn show_text<O: Tree>(name: &str, reader: &mut BinaryReader<'_>, out: &mut O) -> bool {
    match name {
        "bool" => show_call(reader.read::<bool>(), reader, out),
        "string" => show_call(reader.read_string(), reader, out),
        "longstring" => show_call(reader.read_unlimited_string(), reader, out),
        "skipstring" => show_call(reader.skip_string(), reader, out),
        "skipu32s" => show_call(skip_counted(reader), reader, out),
        "window" => show_call(reader.read_reader(), reader, out),
        "header" => show_call(reader.read_header_version(), reader, out),
        "pair" => show_call(reader.read::<(u32, bool)>(), reader, out),
        "stringpair" => show_call(reader.read::<(&str, &str)>(), reader, out),
        _ => return show_section(name, reader, out),
    }
    true
}

// Like `show_text`, for sections.
fn show_section<O: Tree>(name: &str, reader: &mut BinaryReader<'_>, out: &mut O) -> bool {
    let window = reader.shrink();
    match name {
        "bools" => show_items::<bool, O>(window, out),
        "u32s" => show_items::<u32, O>(window, out),
        "strings" => show_items::<&str, O>(window, out),
        "pairs" => show_items::<(u32, bool), O>(window, out),
        _ => return false,
    }
    true
}

// Reads a count and skips as many numbers.
fn skip_counted(reader: &mut BinaryReader<'_>) -> Result<()> {
    let count = reader.read_var_u32()?;
    reader.skip_var_u32s(count)
}

// Writes what a call returned, and how many bytes the reader has consumed after it.
fn show_call<T: Value, O: Tree>(returned: Result<T>, reader: &BinaryReader<'_>, out: &mut O) {
    match returned {
        Ok(value) => {
            out.line(1, "read");
            value.write(out);
        }
        Err(e) => show_fault(1, &e, out),
    }
    out.number("used", reader.current_position() as u64);
}

// Writes a fault and, if it has a hint, how many bytes are missing.
fn show_fault<O: Tree>(level: usize, error: &Error, out: &mut O) {
    out.fault(level, error);
    if let Some(missing) = error.needed_hint() {
        out.number("missing", missing as u64);
    }
}

// Writes the items of a section with their offsets, or the fault of its count.
fn show_items<'a, T: FromReader<'a> + Value, O: Tree>(window: BinaryReader<'a>, out: &mut O) {
    match SectionLimited::<T>::new(window) {
        Ok(section) => {
            let range = section.range();
            out.line(1, "section");
            out.range("items", range.start, range.end);
            out.number("count", u64::from(section.count()));
            show_each(section.into_iter_with_offsets(), out);
        }
        Err(e) => show_fault(1, &e, out),
    }
}

fn show_each<'a, T: FromReader<'a> + Value, O: Tree>(
    mut items: SectionLimitedIntoIterWithOffsets<'a, T>,
    out: &mut O,
) {
    for _ in 0..u64::MAX {
        match items.next() {
            Some(Ok((offset, item))) => {
                out.item(2, offset);
                item.write(out);
            }
            Some(Err(e)) => show_fault(2, &e, out),
            None => break,
        }
    }
}
