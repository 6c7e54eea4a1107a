// The sections that `--section` chooses.
ghost use Rattle.std.specs.Prelude.{IfOk};
ghost use Rattle.wasm_commands.specs.Parsing.{texts};
ghost use Rattle.wasm_commands.specs.Choices.{ChooseInTurn, Chooses};

use std::alloc::{AllocError, Global};
use wasm_dumper::Only;
use wasm_grammar::section_named;

// Parses a value of `--section`: an id, a name of the standard, or the name of a custom section.
fn sections_named(word: &str) -> Only<'_>
    ensures { Chooses word.now result }
{
    match word.parse::<u8>() {
        Ok(id) => Only::Id(id),
        Err(_) => match section_named(word) {
            Some(id) => Only::Id(id),
            None => Only::Name(word),
        },
    }
}

/// Parses the values of `--section`, in order.
pub(crate) fn chosen_by<'w>(alloc: Global, words: &[&'w str]) -> Result<Vec<Only<'w>>, AllocError>
    // Proved: a value of `--section` chooses by an id, else a name of the standard, else a custom
    //   section's name
    ensures { IfOk result (λ only. ChooseInTurn (texts words.now) only.items) }
{
    let mut only = Vec::new(alloc);
    for word in words {
        only.push(sections_named(word))?;
    }
    Ok(only)
}
