// A fault with its place in the stream.
ghost use Rattle.std.specs.Prelude.{◌≡◌, Some, None, IfErr, is_err};
ghost use Rattle.wasm_base.specs.FaultAt.{fault_at, hint_of};
ghost use Rattle.wasm_base.specs.Hints.{HintsNothing, is_out_of_memory};
ghost use Rattle.wasm_base.specs.Leading.{leading_byte};
ghost use Rattle.wasm_base.specs.Owned.{out_of_memory};

use crate::fault::{Fault, Lead};
use std::alloc::AllocFailed;
use std::fmt;

/// The result of a read: a value, or the `Error` at which the read ended.
pub type Result<T, E = Error> = std::result::Result<T, E>;

/// An error: a fault, its offset in bytes from the start of the stream, and its number if it has one.
///
/// Two errors are equal if these three are equal. The hint is not compared. `Display` writes the message, the number if
/// there is one, and the offset in hexadecimal.
///
/// ```rattle
/// let mut reader = BinaryReader::new(&[7], 16);
/// let error = reader.read_u32().err().ok_or("no error")?;
/// assert_eq!(rt; error, Error::new(Fault::UnexpectedEof, 16));
/// assert_eq!(rt; error.needed_hint(), Some(3));
/// let text = format!(in alloc; "{error}")?;
/// assert_eq!(rt; text.as_str(), "unexpected end-of-file (at offset 0x10)");
/// ```
// The small fields lie together, where an `Ok` has its tag, so that an error adds no word to a `Result`.
#[derive(Clone, Copy)]
pub struct Error {
    fault: Fault,
    has_number: bool,
    has_hint: bool,
    offset: u64,
    // 0 without a number.
    number: u64,
    // 0 without a hint.
    hint: usize,
}

impl Error {
    ghost use Rattle.wasm_base.specs.Message.{message_of};
    ghost use Rattle.wasm_base.specs.FaultAt.{fault_at, at_offset, hint_of};

    /// Returns an error with this fault and this offset, without a number or a hint.
    pub fn new(fault: Fault, offset: u64) -> Self
        // Proved: an `Error` keeps its fault, offset, number and hint; `Display` prints the text,
        //   the number, and the offset in hexadecimal [`report` and `hint` of its constructors, the
        //   clauses of its getters, `output` of `Display`]
        ensures report { fault_at result ≡ at_offset fault offset }
        ensures hint { hint_of result ≡ None }
    {
        Error {
            fault,
            has_number: false,
            has_hint: false,
            offset,
            number: 0,
            hint: 0,
        }
    }

    /// Returns the error with this number instead of its own.
    pub fn with_number(self, number: u64) -> Self
        ensures report { fault_at result ≡ record (fault_at self) { number = Some number } }
        ensures hint { hint_of result ≡ hint_of self }
    {
        Error {
            has_number: true,
            number,
            ..self
        }
    }

    /// Returns the error with this hint instead of its own.
    pub(crate) fn with_hint(self, hint: usize) -> Self
        ensures report { fault_at result ≡ fault_at self }
        ensures hint { hint_of result ≡ Some hint }
    {
        Error {
            has_hint: true,
            hint,
            ..self
        }
    }

    /// Returns the error without its hint. Fault, offset and number stay.
    pub fn without_needed_hint(self) -> Self
        ensures report { fault_at result ≡ fault_at self }
        ensures hint { hint_of result ≡ None }
    {
        Error {
            has_hint: false,
            hint: 0,
            ..self
        }
    }

    /// Returns the fault.
    pub fn fault(&self) -> Fault
        ensures { result ≡ (fault_at self.now).fault }
    {
        self.fault
    }

    /// Returns the message of the fault, which has neither the offset nor the number.
    pub fn message(&self) -> &'static str
        ensures { result.now ≡ message_of (fault_at self.now).fault }
    {
        self.fault.message()
    }

    /// Returns the offset of the fault, in bytes from the start of the stream.
    pub fn offset(&self) -> u64
        ensures { result ≡ (fault_at self.now).offset }
    {
        self.offset
    }

    /// Returns the number of the fault, if it has one.
    ///
    /// It is the version of `UnknownVersion` and `LinkingVersion`, the length of `SectionTooLarge`, and the byte of
    /// `LeadingByte`.
    pub fn number(&self) -> Option<u64>
        ensures { result ≡ (fault_at self.now).number }
    {
        if self.has_number {
            Some(self.number)
        } else {
            None
        }
    }

    /// Returns how many bytes the read lacked, if the window was too short for it.
    ///
    /// Inside a LEB128 number it is 1, because its length is unknown. Bytes that are wrong, and not missing, give no
    /// hint.
    pub fn needed_hint(&self) -> Option<usize>
        ensures { result ≡ hint_of self.now }
    {
        if self.has_hint { Some(self.hint) } else { None }
    }
}

// By hand, because a derived `eq` would compare the hint too.
impl PartialEq for Error {
    ghost use Rattle.std.specs.Cmp.{partial_equiv_from_equiv};
    ghost use Rattle.wasm_base.specs.SameErrors.{same_errors, same_errors_equiv};

    ghost eq = { same_errors };

    ghost laws = { partial_equiv_from_equiv same_errors_equiv };

    fn eq(&self, other: &Error) -> bool {
        self.fault == other.fault && self.offset == other.offset && self.number() == other.number()
    }
}

impl Eq for Error {
    ghost use Rattle.wasm_base.specs.SameErrors.{same_errors_equiv};

    ghost laws = { same_errors_equiv };
}

impl fmt::Debug for Error {
    fn fmt<W: fmt::Write>(&self, f: &mut fmt::Formatter<W>) -> fmt::Result {
        f.debug_struct("Error")
            .field("fault", &self.fault)
            .field("offset", &self.offset)
            .field("number", &self.number())
            .field("hint", &self.needed_hint())
            .finish()
    }
}

/// Returns the error `LeadingByte(lead)` at this offset, with the byte as its number.
///
/// Use it in your own items, when the byte at `offset` is not a valid first byte of what `lead` names.
pub fn leading_byte_error(lead: Lead, byte: u8, offset: u64) -> Error
    ensures report { fault_at result ≡ leading_byte lead byte offset }
    ensures hint { hint_of result ≡ None }
{
    Error::new(Fault::LeadingByte(lead), offset).with_number(u64::from(byte))
}

/// Returns `OutOfMemory` at offset 0 if the error is out of memory, and otherwise nothing.
///
/// # Errors
///
/// `OutOfMemory` at offset 0, whatever the offset of the error.
pub fn only_out_of_memory(error: Error) -> Result<()>
    // Proved: `only_out_of_memory` returns an error exactly if the one that it is passed is out of
    //   memory: `OutOfMemory` at offset 0, with no number and no hint [`other`, `refused`, `hint`]
    ensures other { is_out_of_memory (fault_at error).fault ≡ is_err result }
    ensures refused { IfErr result (λ e. fault_at e ≡ out_of_memory) }
    ensures hint { HintsNothing result }
{
    match error.fault() {
        Fault::OutOfMemory => Err(Error::new(Fault::OutOfMemory, 0)),
        _ => Ok(()),
    }
}

impl fmt::Display for Error {
    ghost use Rattle.std.specs.Prelude.{Some};
    ghost use Rattle.wasm_base.specs.Message.{error_text};
    ghost use Rattle.wasm_base.specs.FaultAt.{fault_at};

    ghost output = { λ e. Some (error_text (fault_at e)) };

    fn fmt<W: fmt::Write>(&self, f: &mut fmt::Formatter<W>) -> fmt::Result {
        let (message, offset) = (self.message(), self.offset);
        match self.number() {
            Some(number) => write!(f, "{message}: {number} (at offset 0x{offset:x})"),
            None => write!(f, "{message} (at offset 0x{offset:x})"),
        }
    }
}

impl<T: Drop> From<AllocFailed<T>> for Error {
    ghost use Rattle.std.specs.Prelude.{◌≡◌, None};
    ghost use Rattle.wasm_base.specs.FaultAt.{fault_at, at_offset, hint_of};
    ghost use Rattle.wasm_base.specs.declared.fault.Fault.TheVariants.{OutOfMemory};

    // Proved: a failed allocation becomes `OutOfMemory` at offset 0, with no number and no hint
    ghost from_gives = { λ _ e. (fault_at e ≡ at_offset OutOfMemory 0) × (hint_of e ≡ None) };

    fn from(_refused: AllocFailed<T>) -> Error {
        Error::new(Fault::OutOfMemory, 0)
    }
}
