// What takes the items on a walk.
ghost use Rattle.std.specs.Prelude.{◌≡◌, [], ◌∷◌};
ghost use Rattle.wasm_output.specs.Tree.{AddsThese};
ghost use Rattle.wasm_show.specs.Seen.{Seen, an_item, number_of, site_seen};
ghost use Rattle.wasm_show.specs.Walk.{Takes, TakesFault};

use crate::show::Show;
use wasm_base::{Error, Fault};
use wasm_io::ListError;
use wasm_output::{Space, Start, Tree};

/// The place of the items that follow.
#[derive(Clone, Copy)]
pub enum Within<'a> {
    /// No section: the stream itself.
    Stream,
    /// The section with this name (core specification, Binary format, Modules, Sections).
    Section(&'static str),
    /// The custom section with this name.
    Custom(&'a str),
    /// A section with an unknown id, whose content begins at this offset of the stream.
    Unknown(u8, u64),
}

/// What takes the items of a stream, one after the other.
///
/// Each `Tree` is one: it shows the items.
///
/// # Errors
///
/// No call returns an error. A walker that has stopped ignores what is reported; `why_stopped` returns why: `Output` or
/// `Memory`.
///
/// ```rattle
/// let section = FunctionSectionReader::new(BinaryReader::new(&[2, 5, 7], 100))?;
/// let mut offsets = Offsets::new(alloc);
/// walk_section(1, &section, &mut offsets);
/// let noted = offsets.into_noted().ok_or("out of memory")?;
/// assert_eq!(rt; noted.as_slice(), [101, 102].as_slice());
/// ```
pub trait Walker {
    ghost use Rattle.std.specs.Prelude.{Bool, List, Option};
    ghost use Rattle.wasm_io.specs.declared.devices.ListError.{ListError as Stop};

    /// What it has seen from one state to another, if it had not stopped before.
    ghost saw: { Self → List Seen → Self → Type 0 };

    /// Why it has stopped, if it has.
    ghost why: { Self → Option Stop };

    /// The constant `IS_DEEP`, for clauses.
    ghost IS_DEEP: { Bool };

    /// Whether it takes the items of lists inside items, such as those of an element segment. What shows an item
    /// shows its lists.
    const IS_DEEP: bool;

    /// Returns why the walker has stopped, if it has.
    fn why_stopped(&self) -> Option<ListError>
        ensures { result ≡ why self.now };

    /// Takes the place of the items that follow.
    fn enter(&mut self, place: Within<'_>)
        ensures { Takes saw why (site_seen place.entry ∷ []) self.old self.new };

    /// Takes an item at this level, which is 1 for the items of a section.
    ///
    /// `offset` is where its bytes begin, in bytes from the start of the stream, and `number` its index space and its
    /// index, if it has them.
    fn take_item<T: Show>(
        &mut self,
        level: usize,
        offset: Option<u64>,
        number: Option<(Space, u64)>,
        item: &T,
    )
        ensures { Takes saw why (an_item level offset number ∷ []) self.old self.new };

    /// Takes the fault in the place of an item at this level. At `OutOfMemory`, which is not a fault of the stream, the
    /// walker stops.
    fn take_fault(&mut self, level: usize, error: &Error)
        ensures { TakesFault saw why error.now self.old self.new };
}

// Begins the line of an item.
fn begin_item<O: Tree>(level: usize, offset: Option<u64>, number: Option<(Space, u64)>, out: &mut O)
    ensures { AddsThese (number_of number) (O.writing out.old) (O.writing out.new) }
{
    match offset {
        Some(offset) => {
            out.item(level, offset);
            if number.is_some() {
                out.text(" ");
            }
        }
        None => out.begin_line(level, Start::Empty),
    }
    if let Some((space, index)) = number {
        out.item_number(space, index);
    }
}

/// Shows each item on a line, and a fault in the place of its item.
impl<O: Tree> Walker for O {
    ghost use Rattle.std.specs.Prelude.{false};
    ghost use Rattle.wasm_output.specs.Tree.{AddsThese};
    ghost use Rattle.wasm_show.specs.Seen.{numbers_of};

    ghost saw = { λ since seen now. AddsThese (numbers_of seen) (O.writing since) (O.writing now) };

    ghost why = { λ t. (O.writing t).why };

    ghost IS_DEEP = { false };

    const IS_DEEP: bool = false;

    fn why_stopped(&self) -> Option<ListError> {
        self.stopped()
    }

    fn enter(&mut self, _place: Within<'_>) {}

    fn take_item<T: Show>(
        &mut self,
        level: usize,
        offset: Option<u64>,
        number: Option<(Space, u64)>,
        item: &T,
    ) {
        if self.has_stopped() {
            return;
        }
        begin_item(level, offset, number, self);
        item.show(level, self);
    }

    fn take_fault(&mut self, level: usize, error: &Error) {
        if self.has_stopped() {
            return;
        }
        match error.fault() {
            Fault::OutOfMemory => self.out_of_memory(),
            _ => self.fault(level, error),
        }
    }
}
