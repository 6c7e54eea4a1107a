// What a module was produced with, as plain numbers.
ghost use Rattle.wasm_c_items.specs.Producers.{plain_producers_field, plain_producers_value};
ghost use Rattle.wasm_custom.specs.Producers.{FieldParts, ValueParts, field_at, field_value_at};

use crate::faults::{NO_FAULT, PlainFault, plain_fault};
use crate::readable::Readable;
use crate::spans::{NO_SPAN, PlainSpan, distance, items_span, text_after_sized, text_span};
use wasm_parser::{BinaryReader, Error, FromReader, ProducersField, ProducersFieldValue, Result};

/// A field of the producers section, or a fault.
#[repr(C)]
#[derive(Clone, Copy)]
pub struct PlainProducersField {
    /// The fault of the item, of kind 0 if there is none.
    pub fault: PlainFault,
    /// The size of the item in bytes, 0 after a fault.
    pub consumed: usize,
    /// The name of the field: `language`, `sdk` or `processed-by`.
    pub name: PlainSpan,
    /// The number of values.
    pub count: u32,
    /// The values, after their count.
    pub values: PlainSpan,
}

/// A value of a field of the producers section, or a fault.
#[repr(C)]
#[derive(Clone, Copy)]
pub struct PlainProducersValue {
    /// The fault of the item, of kind 0 if there is none.
    pub fault: PlainFault,
    /// The size of the item in bytes, 0 after a fault.
    pub consumed: usize,
    /// The name of a language or tool, which is UTF-8.
    pub name: PlainSpan,
    /// The version, which is UTF-8, possibly empty.
    pub version: PlainSpan,
}

/// Fields of the section `producers`.
#[derive(Clone, Copy)]
pub struct ProducersFields;

impl Readable for ProducersFields {
    type Plain = PlainProducersField;

    ghost Item = { FieldParts };

    ghost reading = { λ _. field_at };

    ghost plain = { λ _. plain_producers_field };

    fn read(self, reader: &mut BinaryReader<'_>, from: u64) -> Result<PlainProducersField> {
        let start = reader.original_position();
        let before = reader.clone().unwrap();
        let field = ProducersField::from_reader(reader)?;
        Ok(PlainProducersField {
            fault: NO_FAULT,
            consumed: distance(start, reader.original_position()),
            name: text_span(from, before, field.name.len()),
            count: field.values.count(),
            values: items_span(from, &field.values),
        })
    }

    fn refused(self, error: Error) -> PlainProducersField {
        PlainProducersField {
            fault: plain_fault(error),
            consumed: 0,
            name: NO_SPAN,
            count: 0,
            values: NO_SPAN,
        }
    }
}

/// Values of a field of the section `producers`.
#[derive(Clone, Copy)]
pub struct ProducersValues;

impl Readable for ProducersValues {
    type Plain = PlainProducersValue;

    ghost Item = { ValueParts };

    ghost reading = { λ _. field_value_at };

    ghost plain = { λ _. plain_producers_value };

    fn read(self, reader: &mut BinaryReader<'_>, from: u64) -> Result<PlainProducersValue> {
        let start = reader.original_position();
        let before = reader.clone().unwrap();
        let value = ProducersFieldValue::from_reader(reader)?;
        Ok(PlainProducersValue {
            fault: NO_FAULT,
            consumed: distance(start, reader.original_position()),
            name: text_span(from, before.clone().unwrap(), value.name.len()),
            version: text_after_sized(from, before, value.version.len()),
        })
    }

    fn refused(self, error: Error) -> PlainProducersValue {
        PlainProducersValue {
            fault: plain_fault(error),
            consumed: 0,
            name: NO_SPAN,
            version: NO_SPAN,
        }
    }
}
