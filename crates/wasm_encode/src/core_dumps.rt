// Instances, frames and values of core dumps.
ghost use Rattle.std.specs.Prelude.{◌≡◌, ◌+◌, ◌≤◌, ◌<◌, ◌^◌, ◌++◌, ◌↔◌, IsTrue, drop, length, take};
ghost use Rattle.wasm_custom.specs.Coredumps.{value_parts};
ghost use Rattle.wasm_encode.specs.CoreDumps.{FrameFits, FrameListsFit, InstanceFits, InstanceListsFit, ValueFits};
ghost use Rattle.wasm_encode.specs.CoreDumps.{frame_bytes, frame_lists, instance_bytes, value_bytes, value_kind, value_rest};

use crate::bytes::{write_byte, write_bytes};
use crate::encode::Encode;
use crate::number::{signed_len, unsigned_len, write_signed, write_unsigned};
use crate::sections::{content_len, section_fits, write_content};
use std::alloc::Allocator;
use wasm_custom::{CoreDumpInstance, CoreDumpStackFrame, CoreDumpValue};

// Returns how many bytes follow the kind of a value.
#[tactic(auto, using(crate::proofs::Numbers::septets_few))]
fn rest_len(value: &CoreDumpValue) -> usize
    requires { ValueFits (value_parts value.now) }
    ensures len { result ≡ length (value_rest (value_parts value.now)) }
    ensures most { result ≤ 10 }
{
    match value {
        CoreDumpValue::Missing => 0,
        CoreDumpValue::I32(number) => signed_len(i64::from(*number)),
        CoreDumpValue::I64(number) => signed_len(*number),
        CoreDumpValue::F32(_) => 4,
        CoreDumpValue::F64(_) => 8,
    }
}

// Returns the byte of the kind of a value.
fn kind_of(value: &CoreDumpValue) -> u8
    ensures { result ≡ value_kind (value_parts value.now) }
{
    match value {
        CoreDumpValue::Missing => 0x01,
        CoreDumpValue::I32(_) => 0x7f,
        CoreDumpValue::I64(_) => 0x7e,
        CoreDumpValue::F32(_) => 0x7d,
        CoreDumpValue::F64(_) => 0x7c,
    }
}

// Writes what follows the kind of a value.
fn write_rest(bytes: &mut [u8], at: usize, value: &CoreDumpValue) -> usize
    requires fits { ValueFits (value_parts value.now) }
    requires room { at + length (value_rest (value_parts value.now)) ≤ length bytes.old }
    ensures end { result ≡ at + length (value_rest (value_parts value.now)) }
    ensures written { take result bytes.new ≡ take at bytes.old ++ value_rest (value_parts value.now) }
    ensures rest { drop result bytes.new ≡ drop result bytes.old }
    ensures len { length bytes.new ≡ length bytes.old }
{
    match value {
        CoreDumpValue::Missing => at,
        CoreDumpValue::I32(number) => write_signed(bytes, at, i64::from(*number)),
        CoreDumpValue::I64(number) => write_signed(bytes, at, *number),
        CoreDumpValue::F32(float) => write_bytes(bytes, at, &float.bits().to_le_bytes()),
        CoreDumpValue::F64(float) => write_bytes(bytes, at, &float.bits().to_le_bytes()),
    }
}

impl Encode for CoreDumpValue {
    ghost use Rattle.wasm_base.specs.Item.{ReadsAs};
    ghost use Rattle.wasm_custom.specs.Coredumps.{value_at};

    ghost meaning = { ReadsAs value_parts value_at };

    ghost encoded = { λ value. value_bytes (value_parts value) };

    ghost is_encodable = { λ value. ValueFits (value_parts value) };

    ghost is_allowed = { λ features value. Unit {0} };

    ghost placed = { λ features offset value. value };

    fn fits(&self) -> bool {
        match self {
            CoreDumpValue::Missing => true,
            CoreDumpValue::I32(number) => {
                let _number = *number;
                true
            }
            CoreDumpValue::I64(number) => {
                let _number = *number;
                true
            }
            CoreDumpValue::F32(float) => {
                let _bits = float.bits();
                true
            }
            CoreDumpValue::F64(float) => {
                let _bits = float.bits();
                true
            }
        }
    }

    #[tactic(auto, unfolding(crate::specs::CoreDumps::value_bytes))]
    fn encoded_len(&self) -> usize {
        1 + rest_len(self)
    }

    #[tactic(auto, unfolding(crate::specs::CoreDumps::value_bytes), using(crate::proofs::RestStays::stays_on))]
    fn encode_at(&self, bytes: &mut [u8], at: usize) -> usize {
        let after_kind = write_byte(bytes, at, kind_of(self));
        write_rest(bytes, after_kind, self)
    }

    fn reads_back(&self) {}
}

// Returns how many bytes an instance has.
#[tactic(auto, unfolding(crate::specs::CoreDumps::instance_bytes), using(crate::proofs::Numbers::septets_few))]
fn instance_len<A: Allocator>(instance: &CoreDumpInstance<A>) -> usize
    requires { InstanceListsFit instance.now }
    ensures { result ≡ length (instance_bytes instance.now) }
{
    1 + unsigned_len(u64::from(instance.module_index))
        + content_len(instance.memories.as_slice())
        + content_len(instance.globals.as_slice())
}

impl<A: Allocator> Encode for CoreDumpInstance<A> {
    ghost use Rattle.wasm_base.specs.Item.{ReadsAs};
    ghost use Rattle.wasm_custom.specs.Coredumps.{instance_at, instance_parts};

    ghost meaning = { ReadsAs instance_parts instance_at };

    ghost encoded = { instance_bytes };

    ghost is_encodable = { InstanceFits };

    ghost is_allowed = { λ features instance. Unit {0} };

    ghost placed = { λ features offset instance. instance };

    fn fits(&self) -> bool {
        let _index = self.module_index;
        if !section_fits(self.memories.as_slice()) {
            return false;
        }
        if !section_fits(self.globals.as_slice()) {
            return false;
        }
        instance_len(self) <= u32::MAX as usize
    }

    fn encoded_len(&self) -> usize {
        instance_len(self)
    }

    #[tactic(auto, unfolding(crate::specs::CoreDumps::instance_bytes), using(crate::proofs::RestStays::stays_on))]
    fn encode_at(&self, bytes: &mut [u8], at: usize) -> usize {
        let after_start = write_byte(bytes, at, 0x00);
        let after_index = write_unsigned(bytes, after_start, u64::from(self.module_index));
        let after_memories = write_content(bytes, after_index, self.memories.as_slice());
        write_content(bytes, after_memories, self.globals.as_slice())
    }

    fn reads_back(&self) {}
}

// Writes the values of the locals of a frame and of its stack.
#[tactic(auto, using(crate::proofs::RestStays::stays_on))]
fn write_lists<A: Allocator>(bytes: &mut [u8], at: usize, frame: &CoreDumpStackFrame<A>) -> usize
    requires fits { FrameListsFit frame.now }
    requires room { at + length (frame_lists frame.now) ≤ length bytes.old }
    ensures end { result ≡ at + length (frame_lists frame.now) }
    ensures written { take result bytes.new ≡ take at bytes.old ++ frame_lists frame.now }
    ensures rest { drop result bytes.new ≡ drop result bytes.old }
    ensures len { length bytes.new ≡ length bytes.old }
{
    let after_locals = write_content(bytes, at, frame.locals.as_slice());
    write_content(bytes, after_locals, frame.stack.as_slice())
}

// Returns how many bytes a frame has.
#[tactic(auto, unfolding(crate::specs::CoreDumps::frame_bytes), using(crate::proofs::Numbers::septets_few))]
fn frame_len<A: Allocator>(frame: &CoreDumpStackFrame<A>) -> usize
    requires { FrameListsFit frame.now }
    ensures { result ≡ length (frame_bytes frame.now) }
{
    1 + unsigned_len(u64::from(frame.instanceidx))
        + unsigned_len(u64::from(frame.funcidx))
        + unsigned_len(u64::from(frame.codeoffset))
        + content_len(frame.locals.as_slice())
        + content_len(frame.stack.as_slice())
}

impl<A: Allocator> Encode for CoreDumpStackFrame<A> {
    ghost use Rattle.wasm_base.specs.Item.{ReadsAs};
    ghost use Rattle.wasm_custom.specs.Coredumps.{frame_at, frame_parts};

    ghost meaning = { ReadsAs frame_parts frame_at };

    ghost encoded = { frame_bytes };

    ghost is_encodable = { FrameFits };

    ghost is_allowed = { λ features frame. Unit {0} };

    ghost placed = { λ features offset frame. frame };

    fn fits(&self) -> bool {
        let _instance = self.instanceidx;
        let _function = self.funcidx;
        let _offset = self.codeoffset;
        if !section_fits(self.locals.as_slice()) {
            return false;
        }
        if !section_fits(self.stack.as_slice()) {
            return false;
        }
        frame_len(self) <= u32::MAX as usize
    }

    fn encoded_len(&self) -> usize {
        frame_len(self)
    }

    #[tactic(auto, unfolding(crate::specs::CoreDumps::frame_bytes), using(crate::proofs::RestStays::stays_on))]
    fn encode_at(&self, bytes: &mut [u8], at: usize) -> usize {
        let after_start = write_byte(bytes, at, 0x00);
        let after_instance = write_unsigned(bytes, after_start, u64::from(self.instanceidx));
        let after_function = write_unsigned(bytes, after_instance, u64::from(self.funcidx));
        let after_offset = write_unsigned(bytes, after_function, u64::from(self.codeoffset));
        write_lists(bytes, after_offset, self)
    }

    fn reads_back(&self) {}
}
