// The features that a module uses, as plain numbers.
ghost use Rattle.wasm_custom.specs.TargetFeatures.{FeatureParts, target_feature_at};
ghost use Rattle.wasm_c_items.specs.TargetFeatures.{plain_target_feature};

use crate::faults::{NO_FAULT, PlainFault, plain_fault};
use crate::readable::Readable;
use crate::spans::{NO_SPAN, PlainSpan, distance, span_before};
use wasm_parser::{BinaryReader, Error, FromReader, Result, TargetFeature};

/// A feature of WebAssembly and how a module uses it, or a fault.
#[repr(C)]
#[derive(Clone, Copy)]
pub struct PlainTargetFeature {
    /// The fault of the item, of kind 0 if there is none.
    pub fault: PlainFault,
    /// The size of the item in bytes, 0 after a fault.
    pub consumed: usize,
    /// The name of the feature, which is UTF-8.
    pub name: PlainSpan,
    /// The byte `+` if the module uses the feature, `-` if no module that uses it may be linked with this one. Other
    /// bytes are returned too.
    pub prefix: u32,
}

/// Features of the section `target_features`.
#[derive(Clone, Copy)]
pub struct TargetFeatures;

impl Readable for TargetFeatures {
    type Plain = PlainTargetFeature;

    ghost Item = { FeatureParts };

    ghost reading = { λ _. target_feature_at };

    ghost plain = { λ _. plain_target_feature };

    fn read(self, reader: &mut BinaryReader<'_>, from: u64) -> Result<PlainTargetFeature> {
        let start = reader.original_position();
        let feature = TargetFeature::from_reader(reader)?;
        let end = reader.original_position();
        Ok(PlainTargetFeature {
            fault: NO_FAULT,
            consumed: distance(start, end),
            name: span_before(from, end, feature.name.len()),
            prefix: u32::from(feature.prefix),
        })
    }

    fn refused(self, error: Error) -> PlainTargetFeature {
        PlainTargetFeature {
            fault: plain_fault(error),
            consumed: 0,
            name: NO_SPAN,
            prefix: 0,
        }
    }
}
