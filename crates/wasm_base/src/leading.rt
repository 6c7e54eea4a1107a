// Bytes that say what follows them.
ghost use Rattle.std.specs.Prelude.{◌<◌, OnOk};
ghost use Rattle.wasm_base.specs.Hints.{NotOutOfMemory};
ghost use Rattle.wasm_base.specs.Leading.{flag_at, flags_at};
ghost use Rattle.wasm_base.specs.Outcome.{GivesBy};
ghost use Rattle.wasm_base.specs.Window.{place, KeepsWindow};

use crate::error::{Result, leading_byte_error};
use crate::fault::Lead;
use crate::reader::BinaryReader;

/// Reads a byte that is 0 for `false` or 1 for `true`.
///
/// # Errors
///
/// `UnexpectedEof` at the current offset if no byte remains; `LeadingByte(lead)` at any other byte, with the byte as
/// its number.
#[tactic(auto, unfolding(crate::specs::Leading::in_table))]
pub fn read_flag(lead: Lead, reader: &mut BinaryReader<'_>) -> Result<bool>
    // Proved: `read_flag` reads a byte that is 0 or 1. Any other byte is the fault `LeadingByte` at
    //   it, and the reader keeps its window [`gives` (`flag_at`), `keeps`, `memory`]
    ensures gives { GivesBy (λ flag. flag) result reader.old reader.new (flag_at lead) }
    ensures keeps { KeepsWindow reader.old reader.new }
    ensures memory { NotOutOfMemory result }
{
    match reader.read_u8()? {
        0 => Ok(false),
        1 => Ok(true),
        byte => {
            let offset = reader.original_position() - 1;
            Err(leading_byte_error(lead, byte, offset))
        }
    }
}

/// Reads the flags of a segment, a LEB128 `u32`, and returns them if they are at most `most`, and otherwise `None`.
///
/// The fault of larger flags is the caller's, because an element segment reports it at their last byte and a data
/// segment at their first.
///
/// # Errors
///
/// Those of `read_var_u32`.
#[tactic(auto, unfolding(crate::specs::Leading::flags_at))]
#[inline(always)]
pub fn read_flags(most: u8, reader: &mut BinaryReader<'_>) -> Result<Option<u8>>
    // Proved: `read_flags` reads a LEB128 `u32` and returns it exactly if it is at most the
    //   caller's bound [`gives` (`flags_at`), `keeps`, `memory`, `moves`]
    ensures gives { GivesBy (λ flags. flags) result reader.old reader.new (flags_at most) }
    ensures keeps { KeepsWindow reader.old reader.new }
    ensures memory { NotOutOfMemory result }
    ensures moves { OnOk result ((place reader.old).offset < (place reader.new).offset) }
{
    let flags = reader.read_var_u32()?;
    if flags > u32::from(most) {
        return Ok(None);
    }
    Ok(Some(flags as u8))
}
