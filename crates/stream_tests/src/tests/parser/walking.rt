// Walks over whole streams, polled after their end.
use super::{HEADER, next};
use crate::tests::{gives, same};
use wasm_parser::{Parser, Payload, SectionLimited};

#[test]
fn a_walk_ends_after_the_end(rt: HostRuntime) {
    let texts = [
        "Ok(Version { num: 1, encoding: Module, range: 0..8 })",
        "Ok(DataCountSection { count: 0, range: 10..11 })",
        "Ok(End(11))",
    ];
    let stream = b"\0asm\x01\0\0\0\x0c\x01\0";
    gives(&rt, rt.alloc(), Parser::new(0).parse_all(stream), &texts);
}

#[test]
fn a_walk_ends_after_a_fault(rt: HostRuntime) {
    let texts = [
        "Ok(Version { num: 1, encoding: Module, range: 0..8 })",
        "Ok(DataCountSection { count: 1, range: 10..11 })",
        "Err(Error { fault: DataCountDiffer, offset: 15, number: None, hint: None })",
    ];
    let stream = b"\0asm\x01\0\0\0\x0c\x01\x01\x0b\x02\x02\0\0\0";
    gives(&rt, rt.alloc(), Parser::new(0).parse_all(stream), &texts);
}

#[test]
fn a_walk_near_the_top_of_the_offsets(rt: HostRuntime) {
    let (past, last) = (18446744073709551608, 18446744073709551607);
    let refused =
        "Err(Error { fault: OffsetRange, offset: 18446744073709551608, number: None, hint: None })";
    gives(
        &rt,
        rt.alloc(),
        Parser::new(past).parse_all(HEADER),
        &[refused],
    );
    let texts = [
        "Ok(Version { num: 1, encoding: Module, range: 18446744073709551607..18446744073709551615 })",
        "Ok(End(18446744073709551615))",
    ];
    gives(&rt, rt.alloc(), Parser::new(last).parse_all(HEADER), &texts);
}

// The types of a function section.
fn functions<'a>(payload: Payload<'a>) -> Option<SectionLimited<'a, u32>> {
    match payload {
        Payload::FunctionSection(section) => Some(section),
        _other => None,
    }
}

#[test]
fn items_of_a_section_begin_after_its_count(rt: HostRuntime) {
    let stream = b"\0asm\x01\0\0\0\x03\x04\x02\x05\x80\x01";
    let mut walk = Parser::new(100).parse_all(stream);
    drop(next(&rt, &mut walk));
    let section = functions(next(&rt, &mut walk)).expect(&rt, "no functions");
    same(&rt, section.range(), 110..114);
    let texts = ["Ok((111, 5))", "Ok((112, 128))"];
    gives(&rt, rt.alloc(), section.into_iter_with_offsets(), &texts);
}
