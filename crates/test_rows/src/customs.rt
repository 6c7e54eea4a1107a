// Custom sections, and lists whose items own lists.
use std::alloc::Global;
use wasm_base::{BinaryReader, FromReader, FromReaderIn, Result, SectionLimited};
use wasm_custom::{
    BranchHintFunction, CoreDumpInstance, CoreDumpInstancesSection, CoreDumpModulesSection,
    CoreDumpSection, CoreDumpStackFrame, CoreDumpStackSection, CustomSectionReader,
    Dylink0SectionReader, IndirectNameMap, KnownCustom, LinkingSectionReader, NameMap,
    NameSectionReader, ProducersField, RelocSectionReader, TargetFeature,
};
use wasm_items::RecGroup;
use wasm_output::Tree;
use wasm_show::{Found, Items, Show, show_list};

/// Writes the section or the list that this reader reads, or its fault. Returns whether there is such a reader.
pub(crate) fn show_custom<O: Tree>(
    alloc: Global,
    name: &str,
    reader: BinaryReader<'_>,
    out: &mut O,
) -> bool {
    match name {
        "types" => show_counted_in::<RecGroup, O>(alloc, reader, out),
        "hints" => show_counted::<BranchHintFunction<'_>, O>(reader, out),
        "producers" => show_counted::<ProducersField<'_>, O>(reader, out),
        "features" => show_counted::<TargetFeature<'_>, O>(reader, out),
        "namemap" => show_section(NameMap::new(reader), out),
        "indirect" => show_section(IndirectNameMap::new(reader), out),
        "names" => show_all(NameSectionReader::new(alloc, reader), out),
        "dylink" => show_all(Dylink0SectionReader::new(alloc, reader), out),
        "linking" => show_section(LinkingSectionReader::new(alloc, reader), out),
        "reloc" => show_section(RelocSectionReader::new(reader), out),
        "core" => show_section(CoreDumpSection::new(reader), out),
        "coremodules" => show_section(CoreDumpModulesSection::new(alloc, reader), out),
        "coreinstances" => show_section(CoreDumpInstancesSection::new(alloc, reader), out),
        "corestack" => show_section(CoreDumpStackSection::new(alloc, reader), out),
        "instances" => show_counted_in::<CoreDumpInstance, O>(alloc, reader, out),
        "frames" => show_counted_in::<CoreDumpStackFrame, O>(alloc, reader, out),
        "known" => show_named(alloc, reader, out),
        _ => return false,
    }
    true
}

// Writes a section that was read, or its fault.
fn show_section<T: Show, O: Tree>(read: Result<T>, out: &mut O) {
    match read {
        Ok(section) => {
            out.line(1, "section");
            section.show(1, out);
        }
        Err(e) => out.fault(1, &e),
    }
}

// Writes the items of a section, or the fault of its count.
fn show_counted<'a, T: FromReader<'a> + Show, O: Tree>(reader: BinaryReader<'a>, out: &mut O) {
    match SectionLimited::<T>::new(reader) {
        Ok(section) => {
            out.line(1, "section");
            show_list("items", 1, &section, out);
        }
        Err(e) => out.fault(1, &e),
    }
}

// Like `show_counted`, for items that own lists.
fn show_counted_in<'a, T: FromReaderIn<'a> + Show, O: Tree>(
    alloc: Global,
    reader: BinaryReader<'a>,
    out: &mut O,
) {
    match SectionLimited::<T>::new(reader) {
        Ok(section) => show_all(section.into_iter_in(alloc), out),
        Err(e) => out.fault(1, &e),
    }
}

// Writes each item of an iterator on a line. Unlike `show_items`, it writes `OutOfMemory` as a line and continues.
fn show_all<I: Items, O: Tree>(mut items: I, out: &mut O) {
    out.line(1, "section");
    for _ in 0..u64::MAX {
        match items.next_item() {
            Some(item) => show_one(&item, out),
            None => break,
        }
    }
}

// Writes an item, or its fault.
fn show_one<T: Show, O: Tree>(item: &Result<Found<T>>, out: &mut O) {
    match item {
        Ok((offset, _, item)) => {
            out.item(2, *offset);
            item.show(2, out);
        }
        Err(e) => out.fault(2, e),
    }
}

// Writes the known contents of a custom section, or the fault.
fn show_named<O: Tree>(alloc: Global, reader: BinaryReader<'_>, out: &mut O) {
    match CustomSectionReader::new(reader) {
        Ok(section) => match section.as_known(alloc) {
            Ok(known) => show_known(section.name(), &known, out),
            Err(e) => out.fault(1, &e),
        },
        Err(e) => out.fault(1, &e),
    }
}

// Writes the name of a custom section and, if it is known, its contents under it.
fn show_known<O: Tree>(name: &str, known: &KnownCustom<'_>, out: &mut O) {
    out.line(1, "section");
    out.quoted("name", name);
    match known {
        KnownCustom::Name(section) => section.show(1, out),
        KnownCustom::BranchHints(section) => show_list("functions", 1, section, out),
        KnownCustom::Producers(section) => show_list("fields", 1, section, out),
        KnownCustom::Dylink0(section) => section.show(1, out),
        KnownCustom::CoreDump(section) => section.show(1, out),
        KnownCustom::CoreDumpStack(section) => section.show(1, out),
        KnownCustom::CoreDumpInstances(section) => section.show(1, out),
        KnownCustom::CoreDumpModules(section) => section.show(1, out),
        KnownCustom::Linking(section) => section.show(1, out),
        KnownCustom::Reloc(section) => section.show(1, out),
        KnownCustom::Unknown => out.label("known", "unknown"),
    }
}
