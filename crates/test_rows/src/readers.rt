// Runs the reader of each row and writes its result.
use crate::customs::show_custom;
use crate::pieces::{Shown, show_pieces};
use crate::readings::Stream;
use crate::rows::{Failed, Row, is_prose, parse_row, write_bytes};
use crate::streams::{lines_of_prefix, lines_of_stream};
use crate::subsections::show_subsections;
use crate::values::show_value;
use std::alloc::Global;
use std::io::Read;
use wasm_base::{BinaryReader, FromReader, FromReaderIn, fits};
use wasm_custom::{
    Comdat, CoreDumpInstance, CoreDumpStackFrame, CoreDumpValue, ProducersFieldValue,
    RelocationEntry, SymbolInfo,
};
use wasm_feed::{Sink, WriteSink};
use wasm_items::{
    ConstExpr, Data, Element, Export, ExternalKind, Global as GlobalItem, HeapType, Import,
    ImportItemCompact, ImportSection, ImportSectionReader, Imports, MemoryType, RecGroup, RefType,
    Table, TagType, TypeRef, ValType,
};
use wasm_output::{TextLines, Tree};
use wasm_show::{Show, show_items};

/// Reads tables from standard input, and writes their lines, with the result of each row in lines under it. A fault is a line in
/// the place of its item; so is `OutOfMemory`.
///
/// # Errors
///
/// Returns why the run stopped, and the number of the line that it stopped at.
pub(crate) fn run(rt: &HostRuntime) -> Result<(), (u64, Failed)> {
    let mut text = String::new(rt.alloc());
    if let Err(error) = rt.stdin().read_to_string(&mut text) {
        return Err((0, Failed::from(error)));
    }
    let mut out = TextLines::new(rt.alloc(), WriteSink::new(rt.stdout()));
    let shown = show_lines(rt.alloc(), text.as_str(), &mut out);
    out.write_out();
    let stopped = out.stopped();
    drop(out.into_output());
    match stopped {
        Some(why) => Err((0, Failed::System(why))),
        None => shown,
    }
}

// Writes each line of the input, and under each row its result.
fn show_lines<W: Sink>(
    alloc: Global,
    text: &str,
    out: &mut TextLines<W>,
) -> Result<(), (u64, Failed)> {
    let mut number = 0_u64;
    for line in text.lines() {
        number = number.wrapping_add(1);
        echo(line, out);
        if let Err(why) = show_result(alloc, line, out) {
            return Err((number, why));
        }
    }
    Ok(())
}

// Writes a line of the input.
fn echo<W: Sink>(line: &str, out: &mut TextLines<W>) {
    write_bytes(line.as_bytes(), out);
    out.first(b"\n");
}

// Writes the result of a line if it is a row.
fn show_result<W: Sink>(alloc: Global, line: &str, out: &mut TextLines<W>) -> Result<(), Failed> {
    if is_prose(line) {
        return Ok(());
    }
    let row = parse_row(alloc, line)?;
    show_row(alloc, &row, out)
}

fn show_row<W: Sink>(alloc: Global, row: &Row<'_>, out: &mut TextLines<W>) -> Result<(), Failed> {
    let stream = Stream {
        bytes: &row.bytes,
        offset: row.offset,
        features: row.features,
    };
    let lines = match row.reader {
        "stream" => lines_of_stream(alloc, &stream)?,
        "prefix" => lines_of_prefix(alloc, &stream)?,
        name => return show_window(alloc, name, &stream, out),
    };
    write_bytes(&lines, out);
    Ok(())
}

// Writes what the reader with this name returns for these bytes.
fn show_window<O: Tree>(
    alloc: Global,
    name: &str,
    stream: &Stream<'_>,
    out: &mut O,
) -> Result<(), Failed> {
    let offset = stream.offset;
    if !fits(offset, stream.bytes.len()) {
        return Err(Failed::Row("the bytes overrun the largest offset"));
    }
    let mut reader = BinaryReader::new_features(stream.bytes, offset, stream.features);
    match name {
        "events" => return show_pieces(alloc, Shown::Events, reader, offset, out),
        "steps" => return show_pieces(alloc, Shown::Steps, reader, offset, out),
        _ => {}
    }
    if show_value(name, &mut reader, out) {
        return Ok(());
    }
    if show_read_by(alloc, name, reader, out) {
        return Ok(());
    }
    Err(Failed::Row("unknown reader"))
}

// Writes what the reader with this name returns. Returns whether there is such a reader.
fn show_read_by<O: Tree>(
    alloc: Global,
    name: &str,
    mut reader: BinaryReader<'_>,
    out: &mut O,
) -> bool {
    match name {
        "kind" => show_read::<ExternalKind, O>(&mut reader, out),
        "typeref" => show_read::<TypeRef, O>(&mut reader, out),
        "import" => show_read::<Import<'_>, O>(&mut reader, out),
        "imports" => show_read::<Imports<'_>, O>(&mut reader, out),
        "valtype" => show_read::<ValType, O>(&mut reader, out),
        "reftype" => show_read::<RefType, O>(&mut reader, out),
        "heaptype" => show_read::<HeapType, O>(&mut reader, out),
        "table" => show_read::<Table<'_>, O>(&mut reader, out),
        "memory" => show_read::<MemoryType, O>(&mut reader, out),
        "tag" => show_read::<TagType, O>(&mut reader, out),
        "global" => show_read::<GlobalItem<'_>, O>(&mut reader, out),
        "export" => show_read::<Export<'_>, O>(&mut reader, out),
        "constexpr" => show_read::<ConstExpr<'_>, O>(&mut reader, out),
        "element" => show_read::<Element<'_>, O>(&mut reader, out),
        "data" => show_read::<Data<'_>, O>(&mut reader, out),
        "recgroup" => show_read_in::<RecGroup, O>(alloc, &mut reader, out),
        "flatimports" => show_flattened(reader, out),
        "subsections" => show_subsections(alloc, reader, out),
        "compactitem" => show_read::<ImportItemCompact<'_>, O>(&mut reader, out),
        "producersvalue" => show_read::<ProducersFieldValue<'_>, O>(&mut reader, out),
        "relocation" => show_read::<RelocationEntry, O>(&mut reader, out),
        "symbol" => show_read::<SymbolInfo<'_>, O>(&mut reader, out),
        "comdat" => show_read::<Comdat<'_>, O>(&mut reader, out),
        "corevalue" => show_read::<CoreDumpValue, O>(&mut reader, out),
        "instance" => show_read_in::<CoreDumpInstance, O>(alloc, &mut reader, out),
        "frame" => show_read_in::<CoreDumpStackFrame, O>(alloc, &mut reader, out),
        _ => return show_custom(alloc, name, reader, out),
    }
    true
}

// Writes the item at this offset and the number of bytes that it takes, or its fault.
fn show_outcome<T: Show, O: Tree>(
    offset: u64,
    item: &wasm_base::Result<T>,
    used: usize,
    out: &mut O,
) {
    match item {
        Ok(item) => {
            out.item(1, offset);
            item.show(1, out);
            out.line(1, "used=");
            out.digits(used as u64);
        }
        Err(e) => out.fault(1, e),
    }
}

fn show_read<'a, T: FromReader<'a> + Show, O: Tree>(reader: &mut BinaryReader<'a>, out: &mut O) {
    let offset = reader.original_position();
    let item = T::from_reader(reader);
    show_outcome(offset, &item, reader.current_position(), out);
}

fn show_read_in<'a, T: FromReaderIn<'a> + Show, O: Tree>(
    alloc: Global,
    reader: &mut BinaryReader<'a>,
    out: &mut O,
) {
    let offset = reader.original_position();
    let item = T::from_reader(alloc, reader);
    show_outcome(offset, &item, reader.current_position(), out);
}

// Writes the imports of a section, each with its offset, or the fault of its count.
fn show_flattened<O: Tree>(reader: BinaryReader<'_>, out: &mut O) {
    match ImportSectionReader::new(reader) {
        Ok(section) => show_items(1, section.into_imports_with_offsets(), out),
        Err(e) => out.fault(1, &e),
    }
}
