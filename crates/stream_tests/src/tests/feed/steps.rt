// Steps of a feeder, by callers of another crate.
use super::feeding::{Reported, say};
use crate::tests::same;
use bitflags::Flags;
use std::alloc::Global;
use std::test::Fail;
use wasm_base::{Error, Fault, Result, SectionLimited, WasmFeatures};
use wasm_feed::{Feeder, Step};
use wasm_parser::{Encoding, Payload};

// A feeder of these bytes, which are a whole stream.
fn fed(alloc: Global, bytes: &[u8]) -> Result<Feeder> {
    let mut feeder = Feeder::new(alloc, 0, WasmFeatures::all());
    if feeder.wants_more() {
        feeder.push(bytes)?;
    }
    feeder.finish();
    Ok(feeder)
}

// The sum of a section's numbers.
fn total(numbers: SectionLimited<'_, u32>) -> Result<u64> {
    let mut total = 0u64;
    for number in numbers {
        total = total.saturating_add(u64::from(number?));
    }
    Ok(total)
}

// The number and the encoding of a header.
fn version_of(step: &Result<Step<'_>>) -> Option<(u16, Encoding)> {
    match step {
        Ok(
            Step::Parsed {
                payload: Payload::Version { num, encoding, .. },
                ..
            },
        ) => Some((*num, *encoding)),
        _other => None,
    }
}

// The sum of the types of a function section.
fn total_of(step: &Result<Step<'_>>) -> Option<u64> {
    match step {
        Ok(
            Step::Parsed {
                payload: Payload::FunctionSection(types),
                ..
            },
        ) => total(types.clone().ok()?).ok(),
        _other => None,
    }
}

#[test]
fn payloads_are_read(rt: HostRuntime) -> std::result::Result<(), Fail> {
    let mut feeder = fed(rt.alloc(), b"\0asm\x01\0\0\0\x03\x03\x02\x05\x07")?;
    same(&rt, version_of(&feeder.step()), Some((1, Encoding::Module)));
    same(&rt, total_of(&feeder.open().step()), Some(12));
    let fault = Reported::Refuses(Error::new(Fault::FunctionWithoutCode, 13));
    for _ in 0..2 {
        same(&rt, say(feeder.step()), fault);
        same(&rt, say(feeder.open().step()), fault);
    }
    Ok(())
}
