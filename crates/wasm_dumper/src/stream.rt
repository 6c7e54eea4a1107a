// Dumps a stream: the line of each part, and its items under it.
ghost use Rattle.std.specs.Prelude.{◌≡◌, ◌≤◌, ◌<◌, ◌+◌, [], length, vec_len, vec_capacity, Some, None, OnOk, IfErr, if◌then◌else◌};
ghost use Rattle.wasm_streams.specs.Beside.{beside, lending, ReadsEnough};
ghost use Rattle.wasm_streams.specs.Cursors.{feed_of};
ghost use Rattle.wasm_streams.specs.Step.{Part as a_part};
ghost use Rattle.wasm_parser.specs.ParseAnswer.{ItemsBegin, report_of};
ghost use Rattle.wasm_io.specs.Calls.{device_of, from_to};
ghost use Rattle.wasm_dumper.specs.Dump.{DumpsByTree, DumpsInto, ShowsAnswer, ShowsItems, ShowsItemsIf, ShowsReport, after_answer};
ghost use Rattle.wasm_dumper.specs.Walks.{items_of_report, report_seen, site_of_report};
ghost use Rattle.wasm_show.specs.Seen.{site_seen};
ghost use Rattle.wasm_show.specs.Walk.{Sees};
ghost use Rattle.wasm_dumper.specs.Dumping.{dump_stages, dumper};
ghost use Rattle.wasm_dumper.specs.Hiding.{CountsOutline, ShowsOutline};
ghost use Rattle.wasm_dumper.specs.declared.hidden.Outline.TheVariants.{Custom};
ghost use Rattle.wasm_output.specs.Tree.{Adds, AddsBytes, IsOut};

use crate::counts::Counts;
use crate::events::{
    Shown, chooses, counted_name, note_found, show_custom_event, show_event, show_last_fault,
    shows_items,
};
use crate::hidden::{CustomOutline, Outline, Skipped, drop_part, skip_unread};
use crate::linked::{Linked, learn_payload, learn_skipped, stop};
use crate::numbered::{walk_groups, walk_imports, walk_numbered, walk_segments};
use std::alloc::Global;
use wasm_frames::Frame;
use wasm_io::{ListError, Source};
use wasm_output::{Space, Tree};
use wasm_parser::{Error, Payload};
use wasm_show::{Offsets, Walker, Within, show_custom, walk_custom, walk_section};
use wasm_streams::{Ahead, Cursor, Ended, Visitor, seen, visit};

// The place of the items of a payload.
fn within<'a>(payload: &Payload<'a>) -> Within<'a>
    ensures { site_seen result ≡ site_of_report (report_of payload.now) }
{
    match payload {
        Payload::CustomSection(section) => Within::Custom(section.name()),
        Payload::UnknownSection { id, range, .. } => Within::Unknown(*id, range.start),
        _ => match counted_name(payload) {
            Some(name) => Within::Section(name),
            None => Within::Stream,
        },
    }
}

/// Walks over the items of a payload, at level 1, with their numbers in their index spaces, after its section.
///
/// `counts` are those of the payloads before. Payloads without items have a section alone.
///
/// ```rattle
/// let mut out = Offsets::new(alloc);
/// let counts = Counts::new();
/// for payload in Parser::new(0).parse_all(b"\0asm\x01\0\0\0\x07\x05\x01\x01f\0\x05") {
///     if let Ok(payload) = payload {
///         walk_payload(alloc, &counts, &payload, &mut out);
///     }
/// }
/// let noted = out.into_noted().ok_or("out of memory")?;
/// assert_eq!(rt; noted.as_slice(), [11].as_slice());
/// ```
pub fn walk_payload<W: Walker>(
    alloc: Global,
    counts: &Counts,
    payload: &Payload<'_>,
    walker: &mut W,
)
    // Proved: what a walker sees of a payload whose reader is at its items: its section, and each item of it with its
    //   level, its offset and its number, in order, up to the first fault [`walk_payload` (`report_seen`)]
    ensures { ItemsBegin payload.now → Sees W.saw W.why
        (report_seen W.IS_DEEP counts.now (report_of payload.now)) walker.old walker.new }
{
    walker.enter(within(payload));
    walk_items_of(alloc, counts, payload, walker);
}

// Walks over the items of a payload.
#[inline(always)]
fn walk_items_of<W: Walker>(alloc: Global, counts: &Counts, payload: &Payload<'_>, walker: &mut W)
    ensures { ItemsBegin payload.now → Sees W.saw W.why
        (items_of_report W.IS_DEEP counts.now (report_of payload.now)) walker.old walker.new }
{
    match payload {
        Payload::TypeSection(section) => walk_groups(alloc, section, walker),
        Payload::ImportSection(section) => walk_imports(counts, section, walker),
        Payload::FunctionSection(section) => {
            walk_numbered(Space::Functions, counts, section, walker);
        }
        Payload::TableSection(section) => walk_numbered(Space::Tables, counts, section, walker),
        Payload::MemorySection(section) => walk_numbered(Space::Memories, counts, section, walker),
        Payload::TagSection(section) => walk_numbered(Space::Tags, counts, section, walker),
        Payload::GlobalSection(section) => walk_numbered(Space::Globals, counts, section, walker),
        Payload::ExportSection(section) => walk_section(1, section, walker),
        Payload::ElementSection(section) => walk_segments(section, walker),
        Payload::DataSection(section) => {
            walk_numbered(Space::DataSegments, counts, section, walker);
        }
        Payload::CustomSection(section) => walk_custom(alloc, 1, section, walker),
        _ => {}
    }
}

/// Writes the items of a payload on lines of level 1, with their numbers in their index spaces.
///
/// `counts` are those of the payloads before. A fault of an item is a line in its place. Payloads without items write
/// nothing.
///
/// ```rattle
/// let mut out = TextLines::new(alloc, BoundedSink::new(alloc, 1000)?);
/// let counts = Counts::new();
/// for payload in Parser::new(0).parse_all(b"\0asm\x01\0\0\0\x07\x05\x01\x01f\0\x05") {
///     if let Ok(payload) = payload {
///         show_payload(alloc, &counts, &payload, &mut out);
///     }
/// }
/// out.write_out();
/// let wanted = b"  11 name=\"f\" kind=func index=5\n";
/// assert_eq!(rt; out.into_output().written(), wanted.as_slice());
/// ```
#[inline(always)]
pub fn show_payload<O: Tree>(alloc: Global, counts: &Counts, payload: &Payload<'_>, out: &mut O)
    // Proved: the numbers of the items of a payload whose reader is at them, and that of one item [`show_payload`
    //   (`ShowsItems`, `AreOfItems`), `Tree::item_number` (`AddsNumber`)]
    ensures { ItemsBegin payload.now
        → ShowsItems counts.now (report_of payload.now) (O.writing out.old) (O.writing out.new) }
{
    match payload {
        Payload::CustomSection(section) => show_custom(alloc, section, out),
        _ => walk_items_of(alloc, counts, payload, out),
    }
}

// Writes the items of a payload, if items are shown.
#[inline(always)]
fn show_payload_if<O: Tree>(
    has_items: bool,
    alloc: Global,
    counts: &Counts,
    payload: &Payload<'_>,
    out: &mut O,
)
    ensures { ItemsBegin payload.now → ShowsItemsIf has_items counts.now
        (report_of payload.now) (O.writing out.old) (O.writing out.new) }
{
    if has_items {
        show_payload(alloc, counts, payload, out);
    }
}

// Returns the offsets of the items that are shown under a payload, in the order of their lines. Returns `None` when an
// allocation fails.
fn offsets_of_items(alloc: Global, counts: &Counts, payload: &Payload<'_>) -> Option<Vec<u64>> {
    let mut offsets = Offsets::new(alloc);
    walk_payload(alloc, counts, payload, &mut offsets);
    offsets.into_noted()
}

// The bytes of one part of the stream, and their offset.
#[derive(Clone, Copy)]
struct Part<'b> {
    offset: u64,
    bytes: &'b [u8],
}

// Passes the bytes of a part to the tree, if bytes are shown. That walks the payload once more, to record the offsets of its
// items, so that a row of bytes can end where the next item begins. No clause states which bytes one row shows: all rows
// together are the bytes, whatever was recorded.
fn show_bytes<O: Tree>(
    alloc: Global,
    has_bytes: bool,
    counts: &Counts,
    part: Part<'_>,
    payload: &Payload<'_>,
    out: &mut O,
)
    ensures { AddsBytes (if has_bytes then part.entry.bytes.now else [])
        (O.writing out.old) (O.writing out.new) }
{
    if has_bytes {
        match offsets_of_items(alloc, counts, payload) {
            Some(cuts) => out.begin_part(alloc, part.offset, part.bytes, cuts),
            None => {
                out.out_of_memory();
                out.begin_part(alloc, part.offset, part.bytes, Vec::new(alloc));
            }
        }
    }
}

// Writes the line of a payload and its items, if it is shown.
fn show_chosen<O: Tree>(
    alloc: Global,
    shown: Shown<'_>,
    counts: &Counts,
    part: Part<'_>,
    payload: &Payload<'_>,
    out: &mut O,
)
    ensures { ItemsBegin payload.now → ShowsReport shown.entry.only.now shown.entry.has_bytes
        counts.now (report_of payload.now) part.entry.bytes.now
        (O.writing out.old) (O.writing out.new) }
{
    if chooses(shown.only, payload) {
        show_bytes(alloc, shown.has_bytes, counts, part, payload, out);
        note_found(shown, payload);
        show_event(counts, payload, out);
        show_payload_if(shows_items(shown.only), alloc, counts, payload, out);
    }
}

// Writes a part and counts its items.
fn show_part<O: Tree>(
    alloc: Global,
    shown: Shown<'_>,
    counts: &mut Counts,
    part: Part<'_>,
    payload: &Payload<'_>,
    out: &mut O,
)
    ensures shows { ItemsBegin payload.now → ShowsAnswer shown.entry.only.now shown.entry.has_bytes
        counts.old (a_part (report_of payload.now) part.entry.bytes.now)
        (O.writing out.old) (O.writing out.new) }
    ensures counts { ItemsBegin payload.now → counts.new
        ≡ after_answer counts.old (a_part (report_of payload.now) part.entry.bytes.now) }
{
    show_chosen(alloc, shown, counts, part, payload, out);
    counts.pass(payload);
}

// Writes the line of a custom section that was skipped, and the line below it, if items are shown.
fn show_outline<O: Tree>(
    alloc: Global,
    shown: Shown<'_>,
    counts: &Counts,
    section: &CustomOutline,
    out: &mut O,
)
    ensures { ShowsOutline shown.entry.only.now shown.entry.has_bytes counts.now (Custom section.now)
        (O.writing out.old) (O.writing out.new) }
{
    let payload = section.without_data();
    note_found(shown, &payload);
    show_custom_event(section.fields(), out);
    show_payload_if(shows_items(shown.only), alloc, counts, &payload, out);
}

// Counts a part that was skipped, and writes what is shown of it.
fn show_skipped<O: Tree>(
    alloc: Global,
    shown: Shown<'_>,
    counts: &mut Counts,
    outline: &Outline,
    out: &mut O,
)
    // Proved: what is shown and counted of a part that was skipped is what is shown and counted of its event, whatever its
    //   other bytes are [`stream::show_skipped` (`ShowsOutline`, `CountsOutline`)]
    ensures shows { ShowsOutline shown.entry.only.now shown.entry.has_bytes counts.old outline.now
        (O.writing out.old) (O.writing out.new) }
    ensures counts { CountsOutline shown.entry.only.now shown.entry.has_bytes outline.now counts.old counts.new }
{
    match outline {
        Outline::Hidden { is_body } => counts.pass_hidden(*is_body),
        Outline::Custom(section) => show_outline(alloc, shown, counts, section, out),
    }
}

// Returns an error if the tree has stopped.
fn go_on<O: Tree>(out: &O) -> Result<(), ListError>
    ensures ok { OnOk result ((O.writing out.now).why ≡ None) }
    ensures err { IfErr result (λ why. (O.writing out.now).why ≡ Some why) }
{
    match out.stopped() {
        None => Ok(()),
        Some(why) => Err(why),
    }
}

// Writes the buffered lines out. Returns an error if the tree has stopped.
fn flush<O: Tree>(out: &mut O) -> Result<(), ListError>
    ensures adds { Adds (O.writing out.old) (O.writing out.new) }
    ensures out { IsOut (O.writing out.new) }
    ensures ok { OnOk result ((O.writing out.new).why ≡ None) }
    ensures err { IfErr result (λ why. (O.writing out.new).why ≡ Some why) }
{
    out.write_out();
    go_on(out)
}

// What shows each part on a tree.
#[derive(Drop)]
struct Dumper<'a> {
    alloc: Global,
    shown: Shown<'a>,
    // The items and bodies so far.
    counts: Counts,
    // The names of symbols so far.
    linked: Linked,
    // The offset of the next part.
    offset: u64,
}

impl<'a, O: Tree> Visitor<Global, O> for Dumper<'a> {
    ghost stages = { dump_stages (dumper (λ d. d.shown.only.now) (λ d. d.shown.has_bytes)
        (λ d. d.counts) O.writing) };

    ghost sound = { λ d. Unit {0} };

    fn take_part(&mut self, frame: Frame<'_>, bytes: &[u8], out: &mut O) -> Result<(), ListError> {
        let payload = Payload::from(frame);
        let only = self.shown.only;
        learn_payload(self.alloc, only, &mut self.linked, bytes, &payload, out)?;
        let offset = self.offset;
        let part = Part { offset, bytes };
        show_part(
            self.alloc,
            self.shown,
            &mut self.counts,
            part,
            &payload,
            out,
        );
        self.offset = offset.saturating_add(bytes.len() as u64);
        go_on(out)
    }

    fn take_fault(&mut self, error: Error, out: &mut O) -> Result<(), ListError> {
        show_last_fault(&error, out);
        go_on(out)
    }

    fn read_on<R: Source>(
        &mut self,
        cursor: &mut Cursor,
        stored: &mut Vec<u8>,
        ahead: &mut Ahead<Global>,
        input: &mut R,
        out: &mut O,
    ) -> Result<Option<Error>, ListError> {
        flush(out)?;
        let bytes = seen(stored, ahead.bytes());
        let part = skip_unread(self.alloc, self.shown, cursor, bytes)?;
        let Some(Skipped { passing, outline }) = part else {
            ahead.refill(cursor, stored, input)?;
            return Ok(None);
        };
        if let Some(error) = drop_part(self.alloc, passing, cursor, stored, ahead, input)? {
            show_last_fault(&error, out);
            go_on(out)?;
            flush(out)?;
            return Ok(Some(error));
        }
        show_skipped(self.alloc, self.shown, &mut self.counts, &outline, out);
        go_on(out)?;
        learn_skipped(self.alloc, self.shown.only, &mut self.linked, outline, out)?;
        self.offset = cursor.offset();
        Ok(None)
    }

    fn finish(&mut self, out: &mut O) -> Result<(), ListError> {
        flush(out)
    }

    fn out_of_memory(&mut self, out: &mut O) -> ListError {
        stop(out)
    }
}

/// Reads a stream from a source and writes its dump on a tree, and returns how the stream ended.
///
/// Each chosen event has its line, as `list` writes it, with the name and the size of its section, or the size of a body
/// and the number of its function. Under it each item has a line, indented by two blanks a level, with its number in its
/// index space. Offsets and sizes are in bytes, offsets from the start of the stream. If bytes are shown, they are in
/// rows before the lines that are read from them.
/// On a tree of objects each line is a JSON object.
///
/// It reads at most `piece` bytes at once, which must be at least 1. The tree must not have written anything. It
/// buffers the last chunk, the undecided bytes, which are less than a part, and the lines that are not written yet, at
/// most 65,536 bytes; if bytes are shown, also a copy of the current part and the offsets of its items. Of a part that
/// is not chosen it buffers only the first fields, except of import sections, whose items count, and of sections
/// `linking`, whose symbols relocations name. The same goes for a custom section that is chosen without bytes, if items
/// are not shown or its name is unknown. It also holds a copy of the import section, and the names of symbols and of
/// custom sections that it shows, if it shows items.
///
/// A fault of the stream is no error: its line is written, and `Ended::Fault` is returned. A fault of an item is a line
/// in its place.
///
/// # Errors
///
/// A prefix of the dump has been written.
///
/// * `Input` if the source failed. The dump of the bytes read so far has been written, without its last event, the end
///   or fault.
/// * `Output` if the sink of the tree failed.
/// * `Memory` when an allocation fails.
///
/// ```rattle
/// let mut input = SliceSource::new(b"\0asm\x01\0\0\0\x07\x05\x01\x01f\0\x05");
/// let mut out = TextLines::new(alloc, BoundedSink::new(alloc, 1000)?);
/// let shown = Shown { only: &[Only::All], has_bytes: false, found: &[] };
/// let ended = dump(alloc, shown, &mut input, &mut out, 4096);
/// let wanted = b"version 0 8 1 module\nsection 7 10 15 1 export size=5\n  11 name=\"f\" kind=func index=5\nend 15\n";
/// assert_eq!(rt; out.into_output().written(), wanted.as_slice());
/// assert_eq!(rt; ended, Ok(Ended::End));
/// ```
pub fn dump<R: Source, O: Tree>(
    alloc: Global,
    shown: Shown<'_>,
    input: &mut R,
    out: &mut O,
    piece: usize,
) -> Result<Ended, ListError>
    requires { 1 ≤ piece }
    // Proved: `dump` writes lines whose first level is the listing with names of sections
    // Proved: an item's number counts what came before; rows of bytes show each byte once, in order; as JSON each
    //   line is one object: see below [the same]
    // Proved: what the clause of `list` says of the source holds for `dump` too [`DumpsByTree` (`Dumps`, `ListsBy`)]
    // Proved: in the style of lines, with a tree that has written nothing yet, its lines of the first level are the
    //   listing's, for the events that are chosen [the same (`chosen_line`, `IsOutlined`)]
    // Proved: each of these has the name and the size of its section, or the size of a body, and then perhaps numbers
    //   and one name in quotes [the same (`chosen_line`)]
    // Proved: each offset in these lines and at the start of a row of bytes is in the base of the tree, decimal or
    //   hexadecimal, and all other numbers are decimal [the same (`report_text`, `row_text`)]
    // Proved: all other lines begin with two spaces, or are rows of bytes, and none has a second line feed [the same
    //   (`IsOutlined`)]
    // Proved: if bytes are shown, those of its rows, joined, are those that the shown events consumed: each once and
    //   in order [`DumpsByTree` (`AreOfSource`: `consumed`, `are_bytes`; `bytes_of_events`)]
    // Proved: what the source returned is what all events consumed plus the rest: nothing, if the dump ended at the
    //   stream's end. So the rows of a dump of a whole stream are the stream [the same (`none_left`)]
    // Proved: in the style of objects each line is one JSON object, whatever the bytes of names and of other texts
    //   are [the same (`IsShaped`, `AreObjects`)]
    // Proved: a dump in this style that is given up writes a prefix of such lines [the same]
    // Proved: the numbers of items in a dump, in order, are those of the events that the source returned [the same
    //   (`AreOfSource`, `AreOfEvents`, `AreOf`)]
    // Proved: an import's number is how many imports of its index space came before; a body's, how many imported
    //   functions and bodies did [the same]
    // Proved: the numbers of another section's items continue from the imports of its space [the same]
    // Proved: of each section that is shown a dump has the number of each item, up to the first fault, or the first
    //   of them where the dump stopped; of others none [the same (`AreOfItems`, `AreShown`)]
    // Proved: a dump ends as the listing does: at the end, at the fault of the stream, or when a device or an
    //   allocation failed, which it reports [`DumpsByTree` (`ListsBy`)]
    // Proved: if the source failed, all but the last event is written [the same (`Writes`)]
    // Proved: at another error a prefix is written [the same (`WritesSome`)]
    ensures { DumpsByTree shown.entry.only.now shown.entry.has_bytes
        (device_of R.remaining R.has_failed input.old input.new)
        (O.writing out.old) result (O.writing out.new) }
{
    let buffer = vec![in alloc; 0u8; piece]?;
    let mut dumper = Dumper {
        alloc,
        shown,
        counts: Counts::new(),
        linked: Linked::new(alloc, false),
        offset: 0,
    };
    visit(alloc, &mut dumper, input, out, buffer)
}
