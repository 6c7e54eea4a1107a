// Limits of tables and memories.
ghost use Rattle.std.specs.Prelude.{◌≡◌};
ghost use Rattle.wasm_base.specs.Bits.{has_flag};
ghost use Rattle.wasm_base.specs.Hints.{NotOutOfMemory};
ghost use Rattle.wasm_base.specs.Outcome.{GivesBy};
ghost use Rattle.wasm_base.specs.Window.{place, KeepsWindow};
ghost use Rattle.wasm_items.specs.Limits.{limit_at, maximum_at, limits_at};

use wasm_base::{BinaryReader, Result};

/// The flag of limits with a maximum.
pub(crate) const HAS_MAXIMUM: u8 = 1;

/// The flag of a shared memory or table.
pub(crate) const IS_SHARED: u8 = 2;

/// The flag of 64-bit indices.
pub(crate) const IS_WIDE: u8 = 4;

/// The flag of a memory with a page size.
pub(crate) const HAS_PAGE_SIZE: u8 = 8;

/// Whether a flag, a power of two, is set.
pub(crate) fn has_flag(flags: u8, flag: u8) -> bool
    ensures { result ≡ has_flag flags flag }
{
    flags & flag == flag
}

// Reads one limit: a u64 with 64-bit memories, a u32 without them.
#[tactic(auto, unfolding(crate::specs::Limits::limit_at))]
fn read_limit(reader: &mut BinaryReader<'_>) -> Result<u64>
    ensures gives { GivesBy (λ n. n) result reader.old reader.new limit_at }
    ensures keeps { KeepsWindow reader.old reader.new }
    ensures memory { NotOutOfMemory result }
{
    if reader.memory64() {
        reader.read_var_u64()
    } else {
        Ok(u64::from(reader.read_var_u32()?))
    }
}

// Reads the maximum, if present.
#[tactic(auto, unfolding(crate::specs::Limits::maximum_at))]
fn read_maximum(flags: u8, reader: &mut BinaryReader<'_>) -> Result<Option<u64>>
    ensures gives { GivesBy (λ n. n) result reader.old reader.new (maximum_at flags) }
    ensures keeps { KeepsWindow reader.old reader.new }
    ensures memory { NotOutOfMemory result }
{
    if has_flag(flags, HAS_MAXIMUM) {
        Ok(Some(read_limit(reader)?))
    } else {
        Ok(None)
    }
}

/// Reads limits after their flags: a minimum, and a maximum if there is one (core specification, Binary format, Types,
/// Limits).
#[tactic(auto, unfolding(crate::specs::Limits::limits_at))]
pub(crate) fn read_limits(flags: u8, reader: &mut BinaryReader<'_>) -> Result<(u64, Option<u64>)>
    ensures gives { GivesBy (λ limits. limits) result reader.old reader.new (limits_at flags) }
    ensures keeps { KeepsWindow reader.old reader.new }
    ensures memory { NotOutOfMemory result }
{
    let initial = read_limit(reader)?;
    let maximum = read_maximum(flags, reader)?;
    Ok((initial, maximum))
}
