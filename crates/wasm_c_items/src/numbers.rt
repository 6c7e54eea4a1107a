// Numbers in LEB128.
ghost use Rattle.std.specs.Prelude.{ℕ, ℤ, ◌≡◌, Err};
ghost use Rattle.wasm_base.specs.FaultAt.{fault_at};
ghost use Rattle.wasm_base.specs.Number.{unsigned_at};
ghost use Rattle.wasm_base.specs.Signed.{signed_at};
ghost use Rattle.wasm_base.specs.Window.{Place};
ghost use Rattle.wasm_base.specs.declared.fault.NumberKind.TheVariants.{VarI32, VarI64, VarS33, VarU32, VarU64};
ghost use Rattle.wasm_c_items.specs.Numbers.{plain_number, plain_signed};

use crate::faults::{NO_FAULT, PlainFault, plain_fault};
use crate::readable::Readable;
use crate::spans::distance;
use wasm_parser::{BinaryReader, Error, Result};

/// An unsigned number, or a fault.
#[repr(C)]
#[derive(Clone, Copy)]
pub struct PlainNumber {
    /// The fault of the item, of kind 0 if there is none.
    pub fault: PlainFault,
    /// The size of the item in bytes, 0 after a fault.
    pub consumed: usize,
    /// The number.
    pub value: u64,
}

/// A signed number, or a fault.
#[repr(C)]
#[derive(Clone, Copy)]
pub struct PlainSigned {
    /// The fault of the item, of kind 0 if there is none.
    pub fault: PlainFault,
    /// The size of the item in bytes, 0 after a fault.
    pub consumed: usize,
    /// The number.
    pub value: i64,
}

/// LEB128 numbers, `u32`.
#[derive(Clone, Copy)]
pub struct Numbers;

impl Readable for Numbers {
    type Plain = PlainNumber;

    ghost Item = { ℕ };

    ghost reading = { λ _. unsigned_at VarU32 };

    ghost plain = { λ _. plain_number };

    fn read(self, reader: &mut BinaryReader<'_>, from: u64) -> Result<PlainNumber> {
        let start = reader.original_position();
        let value = reader.read_var_u32()?;
        Ok(PlainNumber {
            fault: NO_FAULT,
            consumed: distance(start, reader.original_position()),
            value: u64::from(value),
        })
    }

    fn refused(self, error: Error) -> PlainNumber {
        PlainNumber {
            fault: plain_fault(error),
            consumed: 0,
            value: 0,
        }
    }
}

/// LEB128 numbers, `u64`.
#[derive(Clone, Copy)]
pub struct LongNumbers;

impl Readable for LongNumbers {
    type Plain = PlainNumber;

    ghost Item = { ℕ };

    ghost reading = { λ _. unsigned_at VarU64 };

    ghost plain = { λ _. plain_number };

    fn read(self, reader: &mut BinaryReader<'_>, _from: u64) -> Result<PlainNumber> {
        let start = reader.original_position();
        let value = reader.read_var_u64()?;
        Ok(PlainNumber {
            fault: NO_FAULT,
            consumed: distance(start, reader.original_position()),
            value,
        })
    }

    fn refused(self, error: Error) -> PlainNumber {
        Numbers.refused(error)
    }
}

// The fault of a number with a sign.
fn refused_signed(error: Error) -> PlainSigned
    ensures { (from : ℕ) (p : Place) → result ≡ plain_signed from p (Err (fault_at error)) }
{
    PlainSigned {
        fault: plain_fault(error),
        consumed: 0,
        value: 0,
    }
}

/// LEB128 numbers, `i32`.
#[derive(Clone, Copy)]
pub struct SignedNumbers;

impl Readable for SignedNumbers {
    type Plain = PlainSigned;

    ghost Item = { ℤ };

    ghost reading = { λ _. signed_at VarI32 };

    ghost plain = { λ _. plain_signed };

    fn read(self, reader: &mut BinaryReader<'_>, from: u64) -> Result<PlainSigned> {
        let start = reader.original_position();
        let value = reader.read_var_i32()?;
        Ok(PlainSigned {
            fault: NO_FAULT,
            consumed: distance(start, reader.original_position()),
            value: i64::from(value),
        })
    }

    fn refused(self, error: Error) -> PlainSigned {
        refused_signed(error)
    }
}

/// LEB128 numbers of 33 bits, signed.
#[derive(Clone, Copy)]
pub struct BlockTypes;

impl Readable for BlockTypes {
    type Plain = PlainSigned;

    ghost Item = { ℤ };

    ghost reading = { λ _. signed_at VarS33 };

    ghost plain = { λ _. plain_signed };

    fn read(self, reader: &mut BinaryReader<'_>, _from: u64) -> Result<PlainSigned> {
        let start = reader.original_position();
        let value = reader.read_var_s33()?;
        Ok(PlainSigned {
            fault: NO_FAULT,
            consumed: distance(start, reader.original_position()),
            value,
        })
    }

    fn refused(self, error: Error) -> PlainSigned {
        refused_signed(error)
    }
}

/// LEB128 numbers, `i64`.
#[derive(Clone, Copy)]
pub struct LongSignedNumbers;

impl Readable for LongSignedNumbers {
    type Plain = PlainSigned;

    ghost Item = { ℤ };

    ghost reading = { λ _. signed_at VarI64 };

    ghost plain = { λ _. plain_signed };

    fn read(self, reader: &mut BinaryReader<'_>, _from: u64) -> Result<PlainSigned> {
        let start = reader.original_position();
        let value = reader.read_var_i64()?;
        Ok(PlainSigned {
            fault: NO_FAULT,
            consumed: distance(start, reader.original_position()),
            value,
        })
    }

    fn refused(self, error: Error) -> PlainSigned {
        refused_signed(error)
    }
}
