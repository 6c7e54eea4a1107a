// The custom sections of a stream, with their sizes.
ghost use Rattle.std.specs.Prelude.{◌≡◌, [], ◌∷◌, ◌++◌, ◌<◌, ◌^◌, length, MatchOption, OnOk, IfErr};
ghost use Rattle.wasm_base.specs.FaultAt.{fault_at};
ghost use Rattle.wasm_base.specs.Features.{feature_bits};
ghost use Rattle.wasm_base.specs.Owned.{out_of_memory};
ghost use Rattle.wasm_feed.specs.Pieces.{joined};
ghost use Rattle.wasm_parser.specs.ParseAnswer.{report_of};
ghost use Rattle.wasm_examples.specs.Customs.{custom_names, ListsCustoms};

use crate::visits::{Visitor, visit_pieces};
use std::alloc::Global;
use wasm_base::{Error, Fault, Result, WasmFeatures};
use wasm_parser::Payload;

/// The name and the size of a custom section.
#[derive(Drop)]
pub struct CustomSize {
    /// The name.
    pub name: String,
    /// The size in bytes, including the id and the length.
    pub size: usize,
}

/// A visitor that records custom sections.
#[derive(Drop)]
struct CustomSizes {
    alloc: Global,
    list: Vec<CustomSize>,
}

impl CustomSizes {
    ghost use Rattle.wasm_examples.specs.Customs.{sizes_in};

    // Records a custom section.
    fn add(&mut self, name: &str, size: usize) -> Result<()>
        ensures adds { OnOk result
            (sizes_in self.new.list ≡ sizes_in self.old.list ++ (name.now, size) ∷ []) }
        ensures memory { IfErr result (λ e. fault_at e ≡ out_of_memory) }
    {
        let Ok(name) = String::from_str(self.alloc, name) else {
            return Err(Error::new(Fault::OutOfMemory, 0));
        };
        self.list.push(CustomSize { name, size })?;
        Ok(())
    }
}

impl Visitor for CustomSizes {
    ghost use Rattle.wasm_examples.specs.Customs.{customs_of, sizes_in};

    ghost takes = { λ v e w. sizes_in w.list ≡ sizes_in v.list ++ customs_of e };

    fn visit(&mut self, bytes: &[u8], payload: Payload<'_>) -> Result<()> {
        match custom_name(payload) {
            Some(name) => self.add(name, bytes.len()),
            None => Ok(()),
        }
    }
}

// Returns the name of a custom section.
fn custom_name(payload: Payload<'_>) -> Option<&str>
    ensures { MatchOption result
        (custom_names (report_of payload.entry) ≡ [])
        (λ name. custom_names (report_of payload.entry) ≡ name.now ∷ []) }
{
    match payload {
        Payload::CustomSection(section) => Some(section.name()),
        _other => None,
    }
}

/// Returns the names and sizes of the custom sections of a stream in these chunks, in order. Their contents are not kept.
///
/// # Errors
///
/// The fault of the stream, or `OutOfMemory`.
pub fn custom_sizes(
    alloc: Global,
    features: WasmFeatures,
    pieces: &[&[u8]],
) -> Result<Vec<CustomSize>>
    requires { length (joined pieces.now) < 2 ^ 64 }
    // Proved: the first half of a stripper, `custom_sizes`, lists the custom sections with their
    //   sizes in bytes, or returns the fault of the stream, or an allocation failed
    ensures { ListsCustoms pieces.now (feature_bits features) result }
{
    let mut sizes = CustomSizes {
        alloc,
        list: Vec::new(alloc),
    };
    visit_pieces(alloc, features, pieces, &mut sizes)?;
    let CustomSizes { list, .. } = sizes;
    Ok(list)
}
