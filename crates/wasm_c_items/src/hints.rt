// Branch hints as plain numbers.
ghost use Rattle.wasm_c_items.specs.Hints.{plain_branch_hint, plain_hinted_function};
ghost use Rattle.wasm_custom.specs.BranchHinting.{branch_hint_at, function_hints_at};
ghost use Rattle.wasm_custom.specs.declared.branch_hinting.BranchHint.{BranchHint};
ghost use Rattle.wasm_custom.specs.declared.branch_hinting.BranchHintFunction.{BranchHintFunction};

use crate::faults::{NO_FAULT, PlainFault, plain_fault};
use crate::readable::Readable;
use crate::spans::{NO_SPAN, PlainSpan, distance, flag, items_span};
use wasm_parser::{BinaryReader, BranchHint, BranchHintFunction, Error, FromReader, Result};

/// A function with branch hints, or a fault.
#[repr(C)]
#[derive(Clone, Copy)]
pub struct PlainHintedFunction {
    /// The fault of the item, of kind 0 if there is none.
    pub fault: PlainFault,
    /// The size of the item in bytes, 0 after a fault.
    pub consumed: usize,
    /// The index of the function.
    pub func: u32,
    /// The number of hints.
    pub count: u32,
    /// The hints, after their count.
    pub hints: PlainSpan,
}

/// A branch hint, or a fault.
#[repr(C)]
#[derive(Clone, Copy)]
pub struct PlainBranchHint {
    /// The fault of the item, of kind 0 if there is none.
    pub fault: PlainFault,
    /// The size of the item in bytes, 0 after a fault.
    pub consumed: usize,
    /// The offset of the branch instruction, in bytes from the start of the function's body.
    pub func_offset: u32,
    /// 1 if the branch is likely to be taken, or 0.
    pub taken: u32,
}

/// Functions that have branch hints.
#[derive(Clone, Copy)]
pub struct HintedFunctions;

impl Readable for HintedFunctions {
    type Plain = PlainHintedFunction;

    ghost Item = { BranchHintFunction };

    ghost reading = { λ _. function_hints_at };

    ghost plain = { λ _. plain_hinted_function };

    fn read(self, reader: &mut BinaryReader<'_>, from: u64) -> Result<PlainHintedFunction> {
        let start = reader.original_position();
        let function = BranchHintFunction::from_reader(reader)?;
        Ok(PlainHintedFunction {
            fault: NO_FAULT,
            consumed: distance(start, reader.original_position()),
            func: function.func,
            count: function.hints.count(),
            hints: items_span(from, &function.hints),
        })
    }

    fn refused(self, error: Error) -> PlainHintedFunction {
        PlainHintedFunction {
            fault: plain_fault(error),
            consumed: 0,
            func: 0,
            count: 0,
            hints: NO_SPAN,
        }
    }
}

/// Branch hints of a function.
#[derive(Clone, Copy)]
pub struct BranchHints;

impl Readable for BranchHints {
    type Plain = PlainBranchHint;

    ghost Item = { BranchHint };

    ghost reading = { λ _. branch_hint_at };

    ghost plain = { λ _. plain_branch_hint };

    fn read(self, reader: &mut BinaryReader<'_>, _from: u64) -> Result<PlainBranchHint> {
        let start = reader.original_position();
        let hint = BranchHint::from_reader(reader)?;
        Ok(PlainBranchHint {
            fault: NO_FAULT,
            consumed: distance(start, reader.original_position()),
            func_offset: hint.func_offset,
            taken: flag(hint.taken),
        })
    }

    fn refused(self, error: Error) -> PlainBranchHint {
        PlainBranchHint {
            fault: plain_fault(error),
            consumed: 0,
            func_offset: 0,
            taken: 0,
        }
    }
}
