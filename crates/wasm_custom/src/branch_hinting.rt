// Branch hints.
ghost use Rattle.std.specs.Prelude.{◌≡◌};
ghost use Rattle.wasm_base.specs.Hints.{NotOutOfMemory};
ghost use Rattle.wasm_base.specs.Inner.{after_reading};
ghost use Rattle.wasm_base.specs.Item.{ReadsAs};
ghost use Rattle.wasm_base.specs.Outcome.{GivesBy};
ghost use Rattle.wasm_base.specs.Window.{place, KeepsWindow};
ghost use Rattle.wasm_custom.specs.BranchHinting.{hint_size_at, branch_hint_at};

use wasm_base::{
    BinaryReader, FromReader, Lead, Result, SectionLimited, SkipItem, leading_byte_error,
    read_flag, read_inner,
};

/// The section `metadata.code.branch_hint`, whose items are the functions with branch hints.
///
/// ```rattle
/// // In function 3, the branch at offset 9 is likely.
/// let bytes = &[1, 3, 1, 9, 1, 1];
/// for function in BranchHintSectionReader::new(BinaryReader::new(bytes, 0))? {
///     let function = function?;
///     assert_eq!(rt; function.func, 3);
///     assert_eq!(rt; function.hints.count(), 1);
/// }
/// ```
///
/// (Tool conventions, Code Metadata, Branch Hints.)
pub type BranchHintSectionReader<'a> = SectionLimited<'a, BranchHintFunction<'a>>;

/// The branch hints of a function.
///
/// ```rattle
/// let mut reader = BinaryReader::new(&[3, 1, 9, 1, 1], 0);
/// for hint in BranchHintFunction::from_reader(&mut reader)?.hints {
///     assert_eq!(rt; hint?.func_offset, 9);
/// }
/// ```
///
/// (Tool conventions, Code Metadata, Branch Hints.)
#[derive(Clone, Debug, Drop)]
pub struct BranchHintFunction<'a> {
    /// The index of the function.
    pub func: u32,
    /// The hints of the function, read lazily. If the function was read, iterating over them yields no error.
    pub hints: SectionLimited<'a, BranchHint>,
}

/// A branch hint: whether a branch is likely to be taken.
///
/// ```rattle
/// let mut reader = BinaryReader::new(&[9, 1, 0], 0);
/// let hint = BranchHint::from_reader(&mut reader)?;
/// assert_eq!(rt; hint.func_offset, 9);
/// assert!(rt; !hint.taken);
/// ```
///
/// (Tool conventions, Code Metadata, Branch Hints.)
#[derive(Clone, Copy, Debug)]
pub struct BranchHint {
    /// The offset of the branch instruction from the start of the function's body, in bytes.
    pub func_offset: u32,
    /// Whether the branch is likely to be taken.
    pub taken: bool,
}

// Reads the size of a hint's value, which must be 1.
#[tactic(auto, unfolding(wasm_base::specs::Leading::in_table))]
fn read_hint_size(reader: &mut BinaryReader<'_>) -> Result<()>
    ensures gives { GivesBy (λ nothing. nothing) result reader.old reader.new hint_size_at }
    ensures keeps { KeepsWindow reader.old reader.new }
    ensures memory { NotOutOfMemory result }
{
    match reader.read_u8()? {
        1 => Ok(()),
        byte => {
            let offset = reader.original_position() - 1;
            Err(leading_byte_error(Lead::BranchHint, byte, offset))
        }
    }
}

/// Reads the offset of the branch, a u32; the size of the value, a byte that must be 1; and the value, a byte that is 0
/// or 1.
///
/// # Errors
///
/// `LeadingByte(BranchHint)` at another size, `LeadingByte(BranchTaken)` at another value, with the byte as the number
/// of the error; `UnexpectedEof` if a byte is missing; and the errors of `read_var_u32`.
impl<'a> FromReader<'a> for BranchHint {
    // Proved: branch hints, a function's hints, producers fields and values, target features,
    //   relocations and their types, and the values of a core dump are read by their definitions
    //   [`meaning` on each (`ReadsAs`), `means`, `keeps`, `memory` of `FromReader`]
    ghost meaning = { ReadsAs (λ hint. hint) branch_hint_at };

    #[tactic(auto, unfolding(crate::specs::BranchHinting::branch_hint_at))]
    fn from_reader(reader: &mut BinaryReader<'a>) -> Result<Self> {
        let func_offset = reader.read_var_u32()?;
        read_hint_size(reader)?;
        let taken = read_flag(Lead::BranchTaken, reader)?;
        Ok(BranchHint { func_offset, taken })
    }
}

/// Skips a hint, with the errors of reading it.
impl<'a> SkipItem<'a> for BranchHint {
    ghost skipped_at = { after_reading branch_hint_at };

    fn skip_item(reader: &mut BinaryReader<'a>) -> Result<()> {
        BranchHint::from_reader(reader)?;
        Ok(())
    }
}

/// Reads the index of a function, a u32, and skips the list of hints.
///
/// # Errors
///
/// The errors of `read_var_u32` for the index and the count, and of each hint (`BranchHint`).
impl<'a> FromReader<'a> for BranchHintFunction<'a> {
    ghost use Rattle.wasm_custom.specs.BranchHinting.{function_hints_at};

    ghost meaning = { ReadsAs (λ function. function) function_hints_at };

    #[tactic(auto, unfolding(crate::specs::BranchHinting::function_hints_at))]
    fn from_reader(reader: &mut BinaryReader<'a>) -> Result<Self> {
        let func = reader.read_var_u32()?;
        let hints = read_inner(reader)?;
        Ok(BranchHintFunction { func, hints })
    }
}
