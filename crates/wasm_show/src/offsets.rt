// Where items begin.
ghost use Rattle.std.specs.Prelude.{◌≡◌, [], Some, option_map};
ghost use Rattle.wasm_show.specs.Noted.{noted_by};

use crate::show::Show;
use crate::walker::{Walker, Within};
use std::alloc::Global;
use wasm_base::{Error, Fault};
use wasm_io::ListError;
use wasm_output::Space;

/// A walker that records the offsets at which items begin.
///
/// ```rattle
/// let section = FunctionSectionReader::new(BinaryReader::new(&[2, 5, 7], 100))?;
/// let mut offsets = Offsets::new(alloc);
/// walk_section(1, &section, &mut offsets);
/// let noted = offsets.into_noted().ok_or("out of memory")?;
/// assert_eq!(rt; noted.as_slice(), [101, 102].as_slice());
/// ```
#[derive(Drop)]
pub struct Offsets {
    noted: Vec<u64>,
    has_stopped: bool,
}

impl Offsets {
    /// Creates a walker without offsets. Allocates nothing yet.
    pub fn new(alloc: Global) -> Offsets
        ensures { noted_by result ≡ Some [] }
    {
        Offsets {
            noted: Vec::new(alloc),
            has_stopped: false,
        }
    }

    /// Returns the recorded offsets, in bytes from the start of the stream, in the order in which they were seen; `None`
    /// if an allocation failed.
    pub fn into_noted(self) -> Option<Vec<u64>>
        // Proved: a walker of `Offsets` records the offset of each item after the others, unless an allocation failed
        //   [`saw` of `Offsets` (`HasOffsets`), `Offsets::into_noted` (`noted_by`)]
        ensures { option_map (λ noted. noted.items) result ≡ noted_by self }
    {
        let Offsets { noted, has_stopped } = self;
        if has_stopped { None } else { Some(noted) }
    }
}

impl Walker for Offsets {
    ghost use Rattle.std.specs.Prelude.{true};
    ghost use Rattle.wasm_show.specs.Noted.{HasOffsets, stop_of};

    ghost saw = { HasOffsets };

    ghost why = { stop_of };

    ghost IS_DEEP = { true };

    const IS_DEEP: bool = true;

    fn why_stopped(&self) -> Option<ListError> {
        if self.has_stopped {
            Some(ListError::Memory)
        } else {
            None
        }
    }

    fn enter(&mut self, _place: Within<'_>) {}

    fn take_item<T: Show>(
        &mut self,
        _level: usize,
        offset: Option<u64>,
        _number: Option<(Space, u64)>,
        _item: &T,
    ) {
        if self.has_stopped {
            return;
        }
        if let Some(offset) = offset {
            self.has_stopped = self.noted.push(offset).is_err();
        }
    }

    fn take_fault(&mut self, _level: usize, error: &Error) {
        if let Fault::OutOfMemory = error.fault() {
            self.has_stopped = true;
        }
    }
}
