// Skips the parts of a stream of which a dump shows nothing, or only their first fields.
ghost use Rattle.std.specs.List.{starts_with};
ghost use Rattle.std.specs.Prelude.{◌≡◌, ◌<◌, ◌≤◌, ◌+◌, [], codes, false, drop, length, nat_eq, option_map, vec_capacity, vec_len, Some, IfErr, IfOk, OnOk};
ghost use Rattle.std.specs.String.{string_bytes};
ghost use Rattle.wasm_base.specs.Features.{all_features};
ghost use Rattle.wasm_base.specs.Window.{window_over};
ghost use Rattle.wasm_dumper.specs.Chosen.{fields_part, id_of as id_reported, name_of as name_reported};
ghost use Rattle.wasm_dumper.specs.Hiding.{DropsPart, FailsWithin, IsOutlineIfAny, SkipsIfAny, has_imports as imports_are_in, has_symbols as symbols_are_in};
ghost use Rattle.wasm_dumper.specs.Hiding.{is_body_head, is_hidden as hides, is_known as name_is_known, is_outlined as outlines, outlined_part};
ghost use Rattle.wasm_dumper.specs.Requests.{Meets};
ghost use Rattle.wasm_streams.specs.Beside.{beside, lending, seen};
ghost use Rattle.wasm_streams.specs.Cursors.{feed_of};
ghost use Rattle.wasm_streams.specs.Passing.{held_by};
ghost use Rattle.wasm_frames.specs.SkipNext.{head_is, report_with, skip_is};
ghost use Rattle.wasm_grammar.specs.Reading.{custom_section};
ghost use Rattle.wasm_parser.specs.ParseAnswer.{ItemsBegin, report_of};
ghost use Rattle.wasm_io.specs.Calls.{device_of, input_failed};
ghost use Rattle.wasm_io.specs.declared.devices.ListError.TheVariants.{Memory};

use crate::events::{CustomFields, Only, Shown, is_chosen_by_any, shows_items};
use crate::linked::LINKING;
use std::alloc::Global;
use std::io;
use wasm_base::BinaryReader;
use wasm_custom::CustomSectionReader;
use wasm_grammar::{CODE_SECTION, CUSTOM_SECTION, IMPORT_SECTION};
use wasm_io::{ListError, Page, Source};
use wasm_parser::{Error, PartHead, Payload, SkippedPart};
use wasm_streams::{Ahead, Cursor, Passing, pass_part, seen};

/// A part that was skipped by its first fields.
#[derive(Drop)]
pub(crate) struct Skipped {
    /// Its offset and its size.
    pub(crate) passing: Passing,
    /// What a dump shows of it.
    pub(crate) outline: Outline,
}

/// What a dump shows of a part that was skipped.
#[derive(Drop)]
pub(crate) enum Outline {
    /// Nothing.
    Hidden {
        /// Whether it is a function body.
        is_body: bool,
    },
    /// The first fields of a custom section.
    Custom(CustomOutline),
}

/// The first fields of a custom section that was skipped.
#[derive(Drop)]
pub(crate) struct CustomOutline {
    name: String,
    start: u64,
    end: u64,
    data_offset: u64,
}

impl CustomOutline {
    /// Returns the first fields.
    pub(crate) fn fields(&self) -> CustomFields<'_>
        ensures { fields_part result ≡ outlined_part self.now }
    {
        CustomFields {
            name: self.name.as_str(),
            start: self.start,
            end: self.end,
            data_offset: self.data_offset,
        }
    }

    /// Returns the payload of the section as if it had no data, of which a dump shows nothing.
    pub(crate) fn without_data(&self) -> Payload<'_>
        ensures is { report_of result ≡ custom_section (string_bytes self.now.name) self.now.data_offset
            (window_over all_features self.now.data_offset []) }
        ensures begins { ItemsBegin result }
    {
        empty_section(self.name.as_str(), self.data_offset)
    }
}

// Returns the payload of a custom section without data.
fn empty_section<'a>(name: &'a str, data_offset: u64) -> Payload<'a>
    ensures is { report_of result ≡ custom_section name.now data_offset (window_over all_features data_offset []) }
    ensures begins { ItemsBegin result }
{
    let data = BinaryReader::new(&[], data_offset);
    Payload::CustomSection(CustomSectionReader::after_name(name, data))
}

// Returns the id of the section that a part with these first fields is, or belongs to.
fn id_of(head: &PartHead<'_>) -> u8
    ensures { Some result ≡ id_reported (report_with (head_is head.now)) }
{
    match head {
        PartHead::Custom { .. } => CUSTOM_SECTION,
        PartHead::Items { id, .. } | PartHead::Unknown { id } => *id,
        PartHead::Body => CODE_SECTION,
    }
}

// Returns the name of a custom section with these first fields.
fn name_of<'a>(head: &PartHead<'a>) -> Option<&'a str>
    ensures { option_map (λ name. name.now) result ≡ name_reported (report_with (head_is head.now)) }
{
    match head {
        PartHead::Custom { name, .. } => Some(name),
        _ => None,
    }
}

// Returns whether a part with these first fields is an import section, whose items are counted.
fn has_imports(head: &PartHead<'_>) -> bool
    ensures { result ≡ imports_are_in (head_is head.now) }
{
    match head {
        PartHead::Items { id, .. } => *id == IMPORT_SECTION,
        _ => false,
    }
}

// Returns whether it is the section with the symbols that relocations name.
fn has_symbols(head: &PartHead<'_>) -> bool
    ensures { result ≡ symbols_are_in (head_is head.now) }
{
    match head {
        PartHead::Custom { name, .. } => *name == LINKING,
        _ => false,
    }
}

// Returns whether a dump shows nothing of a part with these first fields, and neither counts its items nor needs its names.
fn is_hidden(only: &[Only<'_>], head: &PartHead<'_>) -> bool
    ensures { result ≡ hides only.now (head_is head.now) }
{
    if has_imports(head) {
        return false;
    }
    if has_symbols(head) {
        return false;
    }
    !is_chosen_by_any(only, Some(id_of(head)), name_of(head))
}

// Returns whether the part is a function body.
fn is_body(head: &PartHead<'_>) -> bool
    ensures { result ≡ is_body_head (head_is head.now) }
{
    match head {
        PartHead::Body => true,
        _ => false,
    }
}

// Returns whether a custom section with this name has relocations.
fn has_relocations(name: &str) -> bool
    ensures { result ≡ starts_with nat_eq name.now (codes "reloc.") }
{
    name.starts_with("reloc.")
}

// Returns whether the name of a custom section is known: a dump that shows items reads the data of such a section.
fn is_known(name: &str) -> bool
    ensures { result ≡ name_is_known name.now }
{
    match name {
        "name"
        | "metadata.code.branch_hint"
        | "producers"
        | "dylink.0"
        | "core"
        | "coremodules"
        | "coreinstances"
        | "corestack"
        | "linking"
        | "target_features" => true,
        _ => has_relocations(name),
    }
}

// Returns whether a dump shows the first fields of the custom section with this name, and nothing of its data.
fn is_outlined(shown: Shown<'_>, name: &str) -> bool
    ensures { result ≡ outlines shown.entry.only.now shown.entry.has_bytes name.now }
{
    if shown.has_bytes {
        return false;
    }
    if shows_items(shown.only) && is_known(name) {
        return false;
    }
    is_chosen_by_any(shown.only, Some(CUSTOM_SECTION), Some(name))
}

// Returns what a dump shows of a part, if its first fields are enough for that.
fn outline_of(
    alloc: Global,
    shown: Shown<'_>,
    part: &SkippedPart<'_>,
) -> Result<Option<Outline>, ListError>
    ensures outlines { IfOk result (λ outline.
        IsOutlineIfAny shown.entry.only.now shown.entry.has_bytes (skip_is part.now) outline) }
    ensures memory { IfErr result (λ why. why ≡ Memory) }
{
    if is_hidden(shown.only, &part.head) {
        return Ok(Some(Outline::Hidden {
            is_body: is_body(&part.head),
        }));
    }
    match &part.head {
        PartHead::Custom { name, data_offset } if is_outlined(shown, name) => {
            Ok(Some(Outline::Custom(CustomOutline {
                name: String::from_str(alloc, name)?,
                start: part.range.start,
                end: part.range.end,
                data_offset: *data_offset,
            })))
        }
        _ => Ok(None),
    }
}

/// Skips the part at the cursor if its first fields are in these bytes, and are all that a dump needs of it.
pub(crate) fn skip_unread(
    alloc: Global,
    shown: Shown<'_>,
    cursor: &mut Cursor,
    bytes: &[u8],
) -> Result<Option<Skipped>, ListError>
    // Proved: a part is skipped only if nothing of it is chosen, it is no import section and not called `linking`; or if it
    //   is a custom section that is chosen without bytes, and its items are not shown or its name is not known. Then
    //   `skip_next` skips it [`hidden::skip_unread` (`SkipsIfAny`)]
    ensures skips { IfOk result (λ part. SkipsIfAny shown.entry.only.now shown.entry.has_bytes
        cursor.old bytes.now part cursor.new) }
    ensures memory { IfErr result (λ why. why ≡ Memory) }
{
    let start = cursor.offset();
    let mut after = cursor.clone().unwrap();
    let Some(part) = after.skip_next(bytes) else {
        return Ok(None);
    };
    let Some(outline) = outline_of(alloc, shown, &part)? else {
        return Ok(None);
    };
    let passing = Passing {
        from: part.range.start,
        size: part.range.end - start,
        stays: false,
    };
    *cursor = after;
    Ok(Some(Skipped { passing, outline }))
}

/// Drops a part that the cursor has skipped, whose first bytes are held. Returns the fault of a stream that ends before
/// the part does.
pub(crate) fn drop_part<R: Source>(
    alloc: Global,
    passing: Passing,
    cursor: &mut Cursor,
    stored: &mut Vec<u8>,
    ahead: &mut Ahead<Global>,
    input: &mut R,
) -> Result<Option<Error>, ListError>
    requires held { length (drop cursor.old.mark (seen stored.old.items ahead.old)) < passing.size }
    requires drops { passing.stays ≡ false }
    // Proved: dropping it leaves what follows it: what was held and then read is the part and these bytes; or the
    //   source ended or failed before all of the part had come [`hidden::drop_part` (`DropsPart`, `FailsWithin`)]
    ensures drops { IfOk result (λ fault. DropsPart (R.remaining input.old) (R.remaining input.new)
        passing (held_by cursor.old stored.old.items ahead.old) fault ahead.new) }
    ensures none { stored.new.items ≡ [] }
    ensures cursor { cursor.new ≡ record cursor.old { mark = 0 } }
    ensures fails { IfErr result (λ e. FailsWithin (R.remaining input.old) (R.remaining input.new)
        passing.size (held_by cursor.old stored.old.items ahead.old) e) }
    ensures source { R.has_failed input.new ≡ input_failed result (R.has_failed input.old) }
{
    pass_part(
        passing,
        cursor,
        stored,
        ahead,
        &mut Page::new(alloc),
        input,
        &mut io::sink(),
    )
}

/// What a request for more input came to.
#[derive(Drop)]
pub(crate) enum Supplied {
    /// The source was read.
    Read,
    /// A part was skipped by its first fields, of which this is shown.
    Passed(Outline),
    /// The stream ends within such a part, which is this fault.
    Cut(Error),
}

/// Meets a request for more input: skips the part at the cursor if its first fields are all that is needed of it, or
/// else reads the source once.
pub(crate) fn supply<R: Source>(
    alloc: Global,
    shown: Shown<'_>,
    cursor: &mut Cursor,
    stored: &mut Vec<u8>,
    ahead: &mut Ahead<Global>,
    input: &mut R,
) -> Result<Supplied, ListError>
    requires { vec_len stored.old + length ahead.old ≤ vec_capacity stored.old }
    // Proved: a request for more input is met by the next event, which is skipped, or by bytes of the source; or a read
    //   failed, and the next event was not decided [`hidden::supply` (`Meets`)]
    ensures meets { Meets shown.entry.only.now shown.entry.has_bytes
        (device_of R.remaining R.has_failed input.old input.new)
        (lending stored.old.items ahead.old cursor.old)
        (beside (feed_of stored.new.items cursor.new) ahead.new) result }
    ensures source { OnOk result (R.has_failed input.new ≡ R.has_failed input.old) }
{
    let bytes = seen(stored, ahead.bytes());
    let Some(Skipped { passing, outline }) = skip_unread(alloc, shown, cursor, bytes)? else {
        ahead.refill(cursor, stored, input)?;
        return Ok(Supplied::Read);
    };
    match drop_part(alloc, passing, cursor, stored, ahead, input)? {
        None => Ok(Supplied::Passed(outline)),
        Some(error) => Ok(Supplied::Cut(error)),
    }
}
