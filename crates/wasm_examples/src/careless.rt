// Item types whose meaning says little, to show that sections of them are still safe.
ghost use Rattle.wasm_base.specs.Item.{ReadsAs};
ghost use Rattle.wasm_examples.specs.Careless.{nothing_at, TakesOneByte};

use wasm_base::{BinaryReader, FromReader, Result};

/// An item without bytes.
#[derive(Clone, Copy, Debug, PartialEq, Eq)]
pub struct Nothing;

impl<'a> FromReader<'a> for Nothing {
    // Proved: two item types whose meaning says little satisfy what sections require: one reads
    //   nothing, one allows any byte for the byte that is there [`Nothing`, `AnyByte`]
    ghost meaning = { ReadsAs (λ nothing. nothing) nothing_at };

    fn from_reader(_reader: &mut BinaryReader<'a>) -> Result<Self> {
        Ok(Nothing)
    }
}

/// A byte. Its meaning states that one byte is consumed, but not its value.
#[derive(Clone, Copy, Debug, PartialEq, Eq)]
pub struct AnyByte(pub u8);

impl<'a> FromReader<'a> for AnyByte {
    ghost meaning = { TakesOneByte };

    fn from_reader(reader: &mut BinaryReader<'a>) -> Result<Self> {
        Ok(AnyByte(reader.read_u8()?))
    }
}
