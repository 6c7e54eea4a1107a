// What commands need of the system, so that tests can run them over files in memory.
use crate::messages::Causes;
use crate::reasons::Cause;
use std::alloc::Global;
use wasm_io::{Sink, Source};

/// The files that commands read and write, and why they failed.
///
/// Its ghost members say what each call may return, for the clauses of commands. They follow the system as far as `std`
/// says what it does. Those of the calls that change files also say what the system is afterwards, so that a clause sees
/// each such call, and their order.
pub trait System {
    ghost use Rattle.std.specs.Prelude.{ℕ, Bool, List, Result};
    ghost use Rattle.wasm_commands.specs.declared.reasons.Cause.{Cause};

    /// A file that is read.
    type Input: Source + Drop;
    /// A file that is written, in place of another one once it is complete.
    type Output: Sink + Drop;

    /// What opening the file with a name may return.
    ghost opens: { Self → (name : List ℕ) → Result Self.Input Cause → Type 0 };

    /// Whether the file with a name may be said to be one that can be read twice.
    ghost rereads: { Self → (name : List ℕ) → Bool → Type 0 };

    /// Whether the output may be said to be a terminal.
    ghost shows: { Self → Bool → Type 0 };

    /// What beginning a file that is to replace `name` may return, and what the system then is.
    ghost creates: { Self → (input name : List ℕ) → Result Self.Output Cause → Self → Type 0 };

    /// What replacing a file by what was written, or discarding that, may return, and what the system then is.
    ghost replaces: { Self → Self.Output → (is_complete : Bool) → Result (Unit {0}) Cause → Self → Type 0 };

    /// Opens a file, or standard input if its name is `-`.
    ///
    /// # Errors
    ///
    /// Why the system does not open it.
    fn open(&self, name: &str) -> Result<Self::Input, Cause>
        ensures { opens self.now name.now result };

    /// Returns whether a file can be read twice, as regular files can.
    fn is_regular(&self, name: &str) -> bool
        ensures { rereads self.now name.now result };

    /// Returns whether the output is a terminal.
    fn is_terminal(&self) -> bool
        ensures { shows self.now result };

    /// Begins a file that is to replace `name`, with the permissions of `name`, or of `input` if `name` does not exist.
    ///
    /// # Errors
    ///
    /// Why the system does not create it.
    fn create(&mut self, alloc: Global, input: &str, name: &str) -> Result<Self::Output, Cause>
        ensures { creates self.old input.now name.now result self.new };

    /// Replaces the file by what was written, if all of it was written, and discards what was written otherwise.
    ///
    /// # Errors
    ///
    /// Why the system does not replace it. The file is then unchanged.
    fn replace(&mut self, output: Self::Output, is_complete: bool) -> Result<(), Cause>
        ensures { replaces self.old output is_complete result self.new };

    /// Shows from now on no progress of large files.
    fn hide_progress(&self);

    /// Returns why devices failed, as far as they said so.
    fn causes(&self) -> Causes;
}
