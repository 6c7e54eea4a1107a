// Branch hints, producers, target features and core dumps by the calls that read them. Tables of rows are in `test_rows`.
use crate::tests::{gives, is_printed, prints, prints_in, same, window};
use std::test::Fail;
use wasm_base::{Error, Fault, FromReader};
use wasm_custom::{
    BranchHintFunction, BranchHintSectionReader, CoreDumpInstance, CoreDumpInstancesSection,
    CoreDumpModulesSection, CoreDumpSection, CoreDumpStackFrame, CoreDumpStackSection,
    CoreDumpValue, ProducersField, ProducersFieldValue, ProducersSectionReader,
    TargetFeaturesSectionReader,
};

#[test]
fn hints_of_functions(rt: HostRuntime) -> Result<(), Fail> {
    let section = BranchHintSectionReader::new(window(b"\x01\x00\x01\x05\x01\x01", 0))?;
    let texts = [
        "Ok(BranchHintFunction { func: 0, hints: SectionLimited { count: 1, range: 2..6 } })",
    ];
    gives(&rt, rt.alloc(), section.into_iter(), &texts);
    Ok(())
}

// A function at another offset, with numbers of several bytes, and bytes after it.
#[test]
fn hints_of_a_function(rt: HostRuntime) -> Result<(), Fail> {
    let bytes = b"\x81\x01\x82\x00\x80\x01\x01\x00\xff\x00\x01\x01\x07";
    let text =
        "BranchHintFunction { func: 129, hints: SectionLimited { count: 2, range: 5002..5012 } }";
    prints::<BranchHintFunction<'_>>(&rt, rt.alloc(), bytes, 5000, 5012, text);
    let hints = BranchHintFunction::from_reader(&mut window(bytes, 5000))?.hints;
    let texts = [
        "Ok((5004, BranchHint { func_offset: 128, taken: false }))",
        "Ok((5008, BranchHint { func_offset: 127, taken: true }))",
    ];
    gives(&rt, rt.alloc(), hints.into_iter_with_offsets(), &texts);
    Ok(())
}

#[test]
fn a_section_with_a_malformed_hint(rt: HostRuntime) -> Result<(), Fail> {
    let section = BranchHintSectionReader::new(window(b"\x01\x00\x01\x05\x02\x01", 0))?;
    let texts = [
        "Err(Error { fault: LeadingByte(BranchHint), offset: 4, number: Some(2), hint: None })",
    ];
    gives(
        &rt,
        rt.alloc(),
        section.clone()?.into_iter_with_offsets(),
        &texts,
    );
    gives(&rt, rt.alloc(), section.into_iter(), &texts);
    Ok(())
}

#[test]
fn fields_of_producers(rt: HostRuntime) -> Result<(), Fail> {
    let bytes = b"\x01\x08language\x02\x03wat\x011\x01C\x039.0";
    let section = ProducersSectionReader::new(window(bytes, 0))?;
    let texts = [
        "Ok(ProducersField { name: \"language\", values: SectionLimited { count: 2, range: 10..23 } })",
    ];
    gives(&rt, rt.alloc(), section.into_iter(), &texts);
    Ok(())
}

#[test]
fn features_of_a_target(rt: HostRuntime) -> Result<(), Fail> {
    let bytes = b"\x03+\x08sign-ext-\x01a\x7f\x01\xff";
    let section = TargetFeaturesSectionReader::new(window(bytes, 100))?;
    let texts = [
        "Ok((101, TargetFeature { prefix: 43, name: \"sign-ext\" }))",
        "Ok((111, TargetFeature { prefix: 45, name: \"a\" }))",
        "Err(Error { fault: MalformedUtf8, offset: 116, number: None, hint: None })",
    ];
    gives(&rt, rt.alloc(), section.into_iter_with_offsets(), &texts);
    let truncated = TargetFeaturesSectionReader::new(window(b"\x01", 0))?;
    let texts = ["Err(Error { fault: UnexpectedEof, offset: 1, number: None, hint: Some(1) })"];
    gives(&rt, rt.alloc(), truncated.into_iter(), &texts);
    Ok(())
}

#[test]
fn values_of_a_field(rt: HostRuntime) -> Result<(), Fail> {
    let bytes = b"\x08language\x02\x03wat\x011\x01C\x039.0";
    let field = ProducersField::from_reader(&mut window(bytes, 1))?;
    let texts = [
        "Ok((11, ProducersFieldValue { name: \"wat\", version: \"1\" }))",
        "Ok((17, ProducersFieldValue { name: \"C\", version: \"9.0\" }))",
    ];
    gives(
        &rt,
        rt.alloc(),
        field.values.into_iter_with_offsets(),
        &texts,
    );
    let text = "ProducersFieldValue { name: \"C\", version: \"9.0\" }";
    prints::<ProducersFieldValue<'_>>(&rt, rt.alloc(), b"\x01C\x039.0", 0, 6, text);
    Ok(())
}

// Values are skipped whether or not they are UTF-8, which is checked when they are read.
#[test]
fn a_field_whose_value_is_malformed(rt: HostRuntime) -> Result<(), Fail> {
    let bytes = b"\x83\x00sdk\x81\x00\x02\xc3\x28\x00\x0b";
    let text =
        "ProducersField { name: \"sdk\", values: SectionLimited { count: 1, range: 905..911 } }";
    prints::<ProducersField<'_>>(&rt, rt.alloc(), bytes, 900, 911, text);
    let field = ProducersField::from_reader(&mut window(bytes, 900))?;
    let texts = ["Err(Error { fault: MalformedUtf8, offset: 909, number: None, hint: None })"];
    gives(&rt, rt.alloc(), field.values.into_iter(), &texts);
    Ok(())
}

#[test]
fn a_section_with_an_unknown_field(rt: HostRuntime) -> Result<(), Fail> {
    let section = ProducersSectionReader::new(window(b"\x01\x01x\x00", 0))?;
    let texts = ["Err(Error { fault: ProducersField, offset: 1, number: None, hint: None })"];
    gives(&rt, rt.alloc(), section.into_iter(), &texts);
    Ok(())
}

// Only three names of fields are known, and none that begins with one of them or ends it.
#[test]
fn names_of_fields(rt: HostRuntime) {
    let names: [(&[u8], bool); 9] = [
        (b"\x08language\0", true),
        (b"\x0cprocessed-by\0", true),
        (b"\x03sdk\0", true),
        (b"\0\0", false),
        (b"\x0dprocessed-by-\0", false),
        (b"\x0eprocessed-bycc\0", false),
        (b"\x09languages\0", false),
        (b"\x04sdks\0", false),
        (b"\x02sd\0", false),
    ];
    for (bytes, is_known) in names {
        let wanted = if is_known {
            None
        } else {
            Some(Error::new(Fault::ProducersField, 7))
        };
        let field = ProducersField::from_reader(&mut window(bytes, 7));
        same(&rt, field.err(), wanted);
    }
}

// The first of the two texts of a value is skipped with the limit of names.
#[test]
fn a_field_with_a_long_text(rt: HostRuntime) {
    let field = ProducersField::from_reader(&mut window(b"\x03sdk\x01\xa1\x8d\x06", 0));
    same(&rt, field.err(), Some(Error::new(Fault::StringSize, 7)));
}

/// Values of a core dump, their debug texts and their sizes.
const VALUES: [(&[u8], &str, u64); 5] = [
    (b"\x01\x02", "Missing", 1),
    (b"\x7f\x80\x7f", "I32(-128)", 3),
    (b"\x7e\xff\xff\xff\xff\x77", "I64(-2147483649)", 6),
    (b"\x7d\x01\x02\x03\x84", "F32(Ieee32(2214789633))", 5),
    (
        b"\x7c\x01\x00\x00\x00\x02\x00\x00\x40\xff",
        "F64(Ieee64(4611686027017322497))",
        9,
    ),
];

#[test]
fn values_of_a_core_dump(rt: HostRuntime) {
    for (bytes, text, used) in &VALUES {
        prints::<CoreDumpValue>(&rt, rt.alloc(), bytes, 600, 600 + used, text);
    }
}

#[test]
fn the_program_of_a_core_dump(rt: HostRuntime) -> Result<(), Fail> {
    let section = CoreDumpSection::new(window(b"\x00\x09test.wasm", 0))?;
    same(&rt, section.name, "test.wasm");
    Ok(())
}

#[test]
fn modules_of_a_core_dump(rt: HostRuntime) -> Result<(), Fail> {
    let bytes = b"\x82\x00\x00\x04test\x00\x80\x00";
    let section = CoreDumpModulesSection::new(rt.alloc(), window(bytes, 9))?;
    let text = "CoreDumpModulesSection { modules: [\"test\", \"\"] }";
    is_printed(&rt, rt.alloc(), &section, text);
    Ok(())
}

#[test]
fn instances_of_a_core_dump(rt: HostRuntime) -> Result<(), Fail> {
    let bytes = b"\x01\x00\x02\x01\x00\x01\x03";
    let section = CoreDumpInstancesSection::new(rt.alloc(), window(bytes, 0))?;
    let text = "[CoreDumpInstance { module_index: 2, memories: [0], globals: [3] }]";
    is_printed(&rt, rt.alloc(), &section.instances, text);
    Ok(())
}

#[test]
fn the_stack_of_a_core_dump(rt: HostRuntime) -> Result<(), Fail> {
    let bytes = b"\x00\x04main\x01\x00\x04\x2a\x33\x01\x7f\x01\x01\x7f\x02";
    let section = CoreDumpStackSection::new(rt.alloc(), window(bytes, 0))?;
    same(&rt, section.name, "main");
    let text =
        "[CoreDumpStackFrame { instanceidx: 4, funcidx: 42, codeoffset: 51, locals: [I32(1)], stack: [I32(2)] }]";
    is_printed(&rt, rt.alloc(), &section.frames, text);
    Ok(())
}

#[test]
fn instances_and_frames_of_a_core_dump(rt: HostRuntime) {
    let bytes = b"\x00\x80\x01\x00\x82\x00\x05\x86\x00\x07";
    let text = "CoreDumpInstance { module_index: 128, memories: [], globals: [5, 6] }";
    prints_in::<CoreDumpInstance>(&rt, rt.alloc(), bytes, 50, 59, text);
    let bytes = b"\x00\x81\x00\x02\x03\x02\x01\x7e\x7f\x01\x7f\x02\x0b";
    let text =
        "CoreDumpStackFrame { instanceidx: 1, funcidx: 2, codeoffset: 3, locals: [Missing, I64(-1)], stack: [I32(2)] }";
    prints_in::<CoreDumpStackFrame>(&rt, rt.alloc(), bytes, 50, 62, text);
}
