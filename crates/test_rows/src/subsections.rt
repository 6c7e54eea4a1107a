// Subsections, each read as a number.
ghost use Rattle.std.specs.Prelude.{⊤};

use std::alloc::Global;
use wasm_base::{BinaryReader, NeverAllocates, Result, Subsection, Subsections};
use wasm_output::Tree;

/// An id, the number that the subsection begins with, and the offset after it.
#[derive(Drop)]
struct Numbered {
    id: u8,
    number: u32,
    after: u64,
}

impl<'a> Subsection<'a> for Numbered {
    ghost meaning = { λ id window outcome. ⊤ };

    type Allocation = NeverAllocates;

    fn from_reader(_alloc: Global, id: u8, mut reader: BinaryReader<'a>) -> Result<Self> {
        let number = reader.read_var_u32()?;
        Ok(Numbered {
            id,
            number,
            after: reader.original_position(),
        })
    }
}

/// Writes the subsections of a window, each with the offset at which the next one begins.
pub(crate) fn show_subsections<O: Tree>(alloc: Global, window: BinaryReader<'_>, out: &mut O) {
    let mut subsections = Subsections::<Numbered>::new(alloc, window);
    for _ in 0..u64::MAX {
        match subsections.next() {
            Some(subsection) => show_one(&subsection, out),
            None => break,
        }
        out.number("next", subsections.original_position());
    }
}

fn show_one<O: Tree>(subsection: &Result<Numbered>, out: &mut O) {
    match subsection {
        Ok(Numbered { id, number, after }) => {
            out.line(1, "subsection");
            out.number("id", u64::from(*id));
            out.number("number", u64::from(*number));
            out.number("after", *after);
        }
        Err(e) => out.fault(1, e),
    }
}
