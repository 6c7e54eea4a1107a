// Which events a dump shows, and the line or JSON object of each.
ghost use Rattle.std.specs.List.{list_any};
ghost use Rattle.std.specs.Prelude.{◌≡◌, ◌≤◌, ◌+◌, ◌++◌, codes, false, IfSome, length, option_map, Some, take, true};
ghost use Rattle.wasm_base.specs.FaultAt.{fault_at};
ghost use Rattle.wasm_base.specs.Window.{place};
ghost use Rattle.wasm_dumper.specs.Chosen.{after_blank, body_words, counted_name as name_counted, end_text, fields_part, id_of as id_reported, is_chosen, is_chosen_by, is_chosen_with, is_parts, name_of as name_reported, numbered_line, outlined_text, range_of as range_reported, section_words, shows_items as items_are_shown, size_text};
ghost use Rattle.wasm_grammar.specs.Content.{fault};
ghost use Rattle.wasm_grammar.specs.Ids.{name_of};
ghost use Rattle.wasm_grammar.specs.Reading.{stream_end};
ghost use Rattle.wasm_frames.specs.Frame.{unread};
ghost use Rattle.wasm_frames.specs.SkipNext.{custom, windowed};
ghost use Rattle.wasm_lines.specs.Listing.{line_in};
ghost use Rattle.wasm_parser.specs.ParseAnswer.{report_of};
ghost use Rattle.wasm_output.specs.Tree.{Adds, AddsFirst, base_of, has_line_feed};

use crate::counts::Counts;
use crate::lines::write_payload;
use std::cell::Cell;
use std::ops::Range;
use wasm_base::Error;
use wasm_custom::CustomSectionReader;
use wasm_grammar::{CODE_SECTION, CUSTOM_SECTION, section_name};
use wasm_io::{Base, ShortText, write_number, write_word};
use wasm_items::FunctionBody;
use wasm_lines::{FaultLine, encoding_name, write_custom};
use wasm_output::{Space, Style, Tree, write_item};
use wasm_parser::{Encoding, Payload};

/// A choice of events for a dump.
///
/// ```rattle
/// // Only the import section, without bytes.
/// let only = [Only::Id(2)];
/// let shown = Shown { only: &only, has_bytes: false, found: &[] };
/// let mut input = SliceSource::new(b"\0asm\x01\0\0\0\x01\x01\0\x02\x01\0");
/// let mut out = TextLines::new(alloc, BoundedSink::new(alloc, 1000)?);
/// let ended = dump(alloc, shown, &mut input, &mut out, 4096);
/// let wanted = b"section 2 13 14 0 import size=1\nend 14\n";
/// assert_eq!(rt; out.into_output().written(), wanted.as_slice());
/// assert_eq!(rt; ended, Ok(Ended::End));
/// ```
#[derive(Clone, Copy)]
pub enum Only<'n> {
    /// All events.
    All,
    /// All events, without their items. With other choices too, no items are shown.
    Parts,
    /// The events of sections with this id (core specification, Binary format, Modules, Sections).
    Id(u8),
    /// The custom sections with this name.
    Name(&'n str),
}

/// What a dump shows: which events, and whether with their bytes.
#[derive(Clone, Copy)]
pub struct Shown<'n> {
    /// The choices. A dump shows the events that any of them chooses, and always the last one.
    pub only: &'n [Only<'n>],
    /// Whether the dump shows the bytes of these events.
    pub has_bytes: bool,
    /// A flag for each choice: the dump sets it where the choice chooses an event. There may be fewer flags.
    pub found: &'n [Cell<bool>],
}

// Returns the id of the section that a payload is, or belongs to.
fn id_of(payload: &Payload<'_>) -> Option<u8>
    ensures { result ≡ id_reported (report_of payload.now) }
{
    match payload {
        Payload::CodeSectionEntry(_) => Some(CODE_SECTION),
        _ => match payload.section_parts() {
            Some((id, _, _)) => Some(id),
            None => None,
        },
    }
}

// Returns the name of a custom section.
fn name_of_custom<'a>(payload: &Payload<'a>) -> Option<&'a str>
    ensures { option_map (λ name. name.now) result ≡ name_reported (report_of payload.now) }
{
    match payload {
        Payload::CustomSection(section) => Some(section.name()),
        _ => None,
    }
}

// Returns whether this choice includes the parts of the section with this id, or the custom section with this name.
fn is_chosen_alone(choice: &Only<'_>, section: Option<u8>, name: Option<&str>) -> bool
    ensures { result ≡ is_chosen_with choice.now section (option_map (λ text. text.now) name.entry) }
{
    match choice {
        Only::All | Only::Parts => true,
        Only::Id(id) => section == Some(*id),
        Only::Name(text) => match name {
            Some(name) => *text == name,
            None => false,
        },
    }
}

/// Returns whether any of these choices includes the parts of the section with this id, or the custom section with this
/// name.
#[tactic(auto, using(std::proofs::lemmas::List::Folds::list_any_more, std::proofs::lemmas::List::Folds::list_any_at))]
pub(crate) fn is_chosen_by_any(only: &[Only<'_>], section: Option<u8>, name: Option<&str>) -> bool
    ensures { result ≡ list_any (λ choice.
        is_chosen_with choice section (option_map (λ text. text.now) name.entry)) only.now }
{
    for choice in only {
        if is_chosen_alone(choice, section, name) {
            return true;
        }
    }
    false
}

// Returns whether a choice is of the parts alone.
fn is_parts_choice(choice: &Only<'_>) -> bool
    ensures { result ≡ is_parts choice.now }
{
    match choice {
        Only::Parts => true,
        _ => false,
    }
}

/// Returns whether items are shown: no choice is of the parts alone.
#[tactic(auto, using(std::proofs::lemmas::List::Folds::list_any_more, std::proofs::lemmas::List::Folds::list_any_at))]
pub(crate) fn shows_items(only: &[Only<'_>]) -> bool
    ensures { result ≡ items_are_shown only.now }
{
    for choice in only {
        if is_parts_choice(choice) {
            return false;
        }
    }
    true
}

/// Sets the flags of the choices that choose a payload.
pub(crate) fn note_found(shown: Shown<'_>, payload: &Payload<'_>) {
    for (choice, found) in shown.only.iter().zip(shown.found.iter()) {
        if is_chosen_alone(choice, id_of(payload), name_of_custom(payload)) {
            found.set(true);
        }
    }
}

/// Returns whether a payload is shown: the end always is.
pub(crate) fn chooses(only: &[Only<'_>], payload: &Payload<'_>) -> bool
    ensures { result ≡ is_chosen only.now (report_of payload.now) }
{
    match payload {
        Payload::End(_) => true,
        _ => is_chosen_by_any(only, id_of(payload), name_of_custom(payload)),
    }
}

// Returns the standard's name of a section id. Its length bounds that of the line.
fn short_name(id: u8) -> Option<&'static str>
    ensures name { option_map (λ name. name.now) result ≡ name_of id }
    ensures short { IfSome result (λ name. length name.now ≤ 9) }
{
    section_name(id)
}

/// Returns the standard's name of a section whose line has an id and a count.
pub(crate) fn counted_name(payload: &Payload<'_>) -> Option<&'static str>
    ensures name { option_map (λ name. name.now) result ≡ name_counted (report_of payload.now) }
    ensures short { IfSome result (λ name. length name.now ≤ 9) }
{
    match payload.as_counted() {
        Some(section) => short_name(section.id),
        None => None,
    }
}

// Writes a blank and a name, if there is one.
fn write_name(bytes: &mut [u8], at: usize, name: Option<&'static str>) -> usize
    requires room { at + 10 ≤ length bytes.old }
    requires short { IfSome name (λ name. length name.now ≤ 9) }
    ensures short { result ≤ at + 10 }
    ensures written { take result bytes.new ≡ take at bytes.old
        ++ after_blank (option_map (λ name. name.now) name.entry) }
{
    match name {
        Some(name) => {
            let at = write_word(bytes, at, " ");
            write_word(bytes, at, name)
        }
        None => at,
    }
}

// Returns the offsets of a section's content, or of a body.
#[inline(always)]
fn range_of(payload: &Payload<'_>) -> Option<Range<u64>>
    ensures { result ≡ range_reported (report_of payload.now) }
{
    match payload {
        Payload::CodeSectionEntry(body) => Some(body.range()),
        _ => match payload.as_section() {
            Some((_, range)) => Some(range),
            None => None,
        },
    }
}

// Writes how many bytes a range has, if there is one.
#[inline(always)]
fn write_size(bytes: &mut [u8], at: usize, range: Option<Range<u64>>) -> usize
    requires room { at + 26 ≤ length bytes.old }
    ensures short { result ≤ at + 26 }
    ensures written { take result bytes.new ≡ take at bytes.old ++ size_text range }
{
    match range {
        Some(range) => {
            let at = write_word(bytes, at, " size=");
            write_number(bytes, at, range.end.saturating_sub(range.start))
        }
        None => at,
    }
}

// Writes the name of a section and its size, or the size of a body.
#[inline(always)]
fn write_section_words(bytes: &mut [u8], at: usize, payload: &Payload<'_>) -> usize
    requires { at + 36 ≤ length bytes.old }
    ensures short { result ≤ at + 36 }
    ensures written { take result bytes.new ≡ take at bytes.old
        ++ section_words (report_of payload.now) }
{
    let at = write_name(bytes, at, counted_name(payload));
    write_size(bytes, at, range_of(payload))
}

// Writes the size of a body, and the number of its function.
#[inline(always)]
fn write_body_words(bytes: &mut [u8], at: usize, range: Range<u64>, function: u64) -> usize
    requires { at + 55 ≤ length bytes.old }
    ensures short { result ≤ at + 55 }
    ensures written { take result bytes.new ≡ take at bytes.old ++ body_words range function }
{
    let at = write_size(bytes, at, Some(range));
    let at = write_word(bytes, at, " ");
    write_item(bytes, at, Space::Functions, function)
}

// Writes what a dump adds to the line of a listing.
#[inline(always)]
fn write_end(bytes: &mut [u8], at: usize, counts: &Counts, payload: &Payload<'_>) -> usize
    requires { at + 59 ≤ length bytes.old }
    ensures short { result ≤ at + 59 }
    ensures written { take result bytes.new ≡ take at bytes.old
        ++ end_text counts.now (report_of payload.now) }
{
    match payload {
        Payload::CodeSectionEntry(body) => {
            write_body_words(bytes, at, body.range(), counts.bodies)
        }
        _ => write_section_words(bytes, at, payload),
    }
}

// The line of a payload, without its line feed and without the name of a function.
#[derive(Drop)]
struct Heading<'a, 'b> {
    base: Base,
    counts: &'a Counts,
    payload: &'a Payload<'b>,
}

impl ShortText for Heading<'_, '_> {
    ghost use Rattle.std.specs.Prelude.{[]};
    ghost use Rattle.wasm_parser.specs.ParseAnswer.{report_of};
    ghost use Rattle.wasm_dumper.specs.Chosen.{numbered_text};

    ghost text = { λ h. numbered_text h.base h.counts.now (report_of h.payload.now) [] };

    #[inline(always)]
    fn write_at(&self, bytes: &mut [u8], at: usize) -> usize {
        let at = write_payload(bytes, at, self.base, self.payload);
        write_end(bytes, at, self.counts, self.payload)
    }
}

// Begins the object of an event.
fn begin_event<O: Tree>(word: &str, out: &mut O)
    requires one_line { has_line_feed word.now ≡ false }
    ensures { Adds (O.writing out.old) (O.writing out.new) }
{
    out.end();
    out.word_field("event", word);
}

// Writes the object of a header.
fn version_event<O: Tree>(num: u16, encoding: Encoding, range: &Range<u64>, out: &mut O)
    ensures { Adds (O.writing out.old) (O.writing out.new) }
{
    begin_event("version", out);
    out.range("range", range.start, range.end);
    out.number("num", u64::from(num));
    out.word_field("encoding", encoding_name(encoding));
}

// Writes the object of a body, with the number of its function.
fn body_event<O: Tree>(counts: &Counts, body: &FunctionBody<'_>, out: &mut O)
    ensures { Adds (O.writing out.old) (O.writing out.new) }
{
    let range = body.range();
    begin_event("body", out);
    out.range("range", range.start, range.end);
    out.word_field("space", "func");
    out.number("number", counts.bodies);
    out.item_name(Space::Functions, counts.bodies);
}

// Returns the standard's name of a section. An unknown section has none, whatever its id.
fn standard_name(id: u8, payload: &Payload<'_>) -> Option<&'static str> {
    match payload {
        Payload::UnknownSection { .. } => None,
        _ => section_name(id),
    }
}

// Begins the object of a section, with the members that all sections have.
fn begin_section<O: Tree>(id: u8, name: Option<&'static str>, range: &Range<u64>, out: &mut O)
    ensures { Adds (O.writing out.old) (O.writing out.new) }
{
    begin_event("section", out);
    out.range("range", range.start, range.end);
    out.number("id", u64::from(id));
    match name {
        Some(name) => out.quoted("name", name),
        None => out.nothing("name"),
    }
}

// Writes the members that only some sections have.
fn section_fields<O: Tree>(payload: &Payload<'_>, out: &mut O)
    ensures { Adds (O.writing out.old) (O.writing out.new) }
{
    match payload {
        Payload::StartSection { func, .. } => {
            out.number("func", u64::from(*func));
            out.item_name(Space::Functions, u64::from(*func));
        }
        Payload::CodeSectionStart { size, .. } => out.number("size", u64::from(*size)),
        _ => {}
    }
}

// Writes the object of a section, or of the start of a code section.
fn section_event<O: Tree>(payload: &Payload<'_>, out: &mut O)
    ensures { Adds (O.writing out.old) (O.writing out.new) }
{
    let Some((id, range, count)) = payload.section_parts() else {
        return;
    };
    begin_section(id, standard_name(id, payload), &range, out);
    if let Some(count) = count {
        out.number("count", u64::from(count));
    }
    section_fields(payload, out);
}

// Writes the object of an event.
fn event_object<O: Tree>(counts: &Counts, payload: &Payload<'_>, out: &mut O)
    ensures { Adds (O.writing out.old) (O.writing out.new) }
{
    match payload {
        Payload::Version {
            num,
            encoding,
            range,
        } => version_event(*num, *encoding, range, out),
        Payload::CodeSectionEntry(body) => body_event(counts, body, out),
        Payload::End(offset) => {
            begin_event("end", out);
            out.number("offset", *offset);
        }
        _ => section_event(payload, out),
    }
}

// Writes the object of a fault.
fn fault_object<O: Tree>(error: &Error, out: &mut O)
    ensures { Adds (O.writing out.old) (O.writing out.new) }
{
    begin_event("fault", out);
    out.fault_fields(error);
}

// Returns the index of the function of a body, or of the function that the start section names.
fn function_of(counts: &Counts, payload: &Payload<'_>) -> Option<u64> {
    match payload {
        Payload::CodeSectionEntry(_) => Some(counts.bodies),
        Payload::StartSection { func, .. } => Some(u64::from(*func)),
        _ => None,
    }
}

/// The first fields of a custom section, which its line shows.
#[derive(Clone, Copy)]
pub(crate) struct CustomFields<'a> {
    /// Its name.
    pub(crate) name: &'a str,
    /// The offset at which its content starts.
    pub(crate) start: u64,
    /// The offset at which its content ends.
    pub(crate) end: u64,
    /// The offset of its data, after the name.
    pub(crate) data_offset: u64,
}

// Returns the first fields of a custom section.
fn fields_of<'a>(section: &CustomSectionReader<'a>) -> CustomFields<'a>
    ensures { fields_part result ≡ windowed (unread section.now.reader)
        (custom section.now.name (place section.now.reader).offset) }
{
    let range = section.range();
    CustomFields {
        name: section.name(),
        start: range.start,
        end: range.end,
        data_offset: section.data_offset(),
    }
}

// The line of a custom section, without its line feed and without its name.
#[derive(Clone, Copy)]
struct CustomLine<'a> {
    base: Base,
    fields: CustomFields<'a>,
}

impl ShortText for CustomLine<'_> {
    ghost use Rattle.wasm_dumper.specs.Chosen.{fields_part, outlined_text};

    ghost text = { λ line. outlined_text line.base (fields_part line.fields) };

    fn write_at(&self, bytes: &mut [u8], at: usize) -> usize {
        let range = self.fields.start..self.fields.end;
        let at = write_custom(bytes, at, self.base, &range, self.fields.data_offset);
        write_size(bytes, at, Some(range))
    }
}

// Writes the object of a custom section.
fn custom_object<O: Tree>(fields: CustomFields<'_>, out: &mut O)
    ensures { Adds (O.writing out.old) (O.writing out.new) }
{
    let range = fields.start..fields.end;
    begin_section(CUSTOM_SECTION, section_name(CUSTOM_SECTION), &range, out);
    out.quoted("custom_name", fields.name);
    out.number("data_offset", fields.data_offset);
}

/// Writes the line of a custom section, with its name, or its object.
pub(crate) fn show_custom_event<O: Tree>(fields: CustomFields<'_>, out: &mut O)
    ensures { AddsFirst (outlined_text (base_of (O.writing out.old).style) (fields_part fields.entry) ++ codes "\n")
        (O.writing out.old) (O.writing out.new) }
{
    match out.style() {
        Style::Lines(base) => out.first_named(&CustomLine { base, fields }, fields.name),
        Style::Objects => custom_object(fields, out),
    }
}

// Writes the line of an event that is no custom section, or its object. That of a body has the number and the name of its
// function.
fn show_other_event<O: Tree>(counts: &Counts, payload: &Payload<'_>, out: &mut O)
    ensures { AddsFirst (numbered_line (base_of (O.writing out.old).style) counts.now (report_of payload.now))
        (O.writing out.old) (O.writing out.new) }
{
    match out.style() {
        Style::Lines(base) => {
            let heading = Heading {
                base,
                counts,
                payload,
            };
            out.first_of_function(&heading, function_of(counts, payload));
        }
        Style::Objects => event_object(counts, payload, out),
    }
}

/// Writes the line of an event, or its object. That of a body has the number and the name of its function, and that of a
/// custom section its name.
pub(crate) fn show_event<O: Tree>(counts: &Counts, payload: &Payload<'_>, out: &mut O)
    ensures { AddsFirst (numbered_line (base_of (O.writing out.old).style) counts.now (report_of payload.now))
        (O.writing out.old) (O.writing out.new) }
{
    match payload {
        Payload::CustomSection(section) => show_custom_event(fields_of(section), out),
        _ => show_other_event(counts, payload, out),
    }
}

/// Writes the line of the fault at which the stream ends, or its object.
pub(crate) fn show_last_fault<O: Tree>(error: &Error, out: &mut O)
    ensures { AddsFirst (line_in (base_of (O.writing out.old).style) (stream_end (fault (fault_at error.now))))
        (O.writing out.old) (O.writing out.new) }
{
    match out.style() {
        Style::Lines(base) => out.first_of_function(&FaultLine { base, error }, None),
        Style::Objects => fault_object(error, out),
    }
}
