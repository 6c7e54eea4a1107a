// Collects the names of items from the custom sections of a stream: `name`, or else `linking`.
ghost use Rattle.std.specs.Prelude.{◌≡◌, ◌<◌, vec_len, IfErr, if◌then◌else◌};
ghost use Rattle.wasm_dumper.specs.Collecting.{collect_stages};
ghost use Rattle.wasm_io.specs.declared.devices.ListError.TheVariants.{Memory};
ghost use Rattle.wasm_output.specs.ItemNames.{KeepsNames};

use crate::events::{Only, Shown};
use crate::hidden::{Outline, Supplied, supply};
use crate::linked::Linked;
use std::alloc::Global;
use wasm_custom::{Name, NameMap, NameSectionReader};
use wasm_frames::Frame;
use wasm_grammar::CUSTOM_SECTION;
use wasm_io::{ListError, Source};
use wasm_output::{ItemNames, Space};
use wasm_parser::{Error, Payload};
use wasm_streams::{Ahead, Cursor, Visitor, visit};

/// The number of bytes that are read at once, at most.
const PIECE: usize = 65_536;

// Adds the names of a map, up to its first fault. Returns false if it has one.
fn add_map(
    alloc: Global,
    names: &mut ItemNames,
    space: Space,
    map: &NameMap<'_>,
) -> Result<bool, ListError>
    ensures keeps { KeepsNames names.old names.new }
    ensures memory { IfErr result (λ why. why ≡ Memory) }
{
    let mut map = map.clone().unwrap();
    'names: for _ in 0..u64::MAX {
        match map.next() {
            Some(Ok(naming)) => names.add(alloc, space, naming.index, naming.name)?,
            Some(Err(_)) => return Ok(false),
            None => break,
        }
    }
    Ok(true)
}

// Adds the names of a subsection if they belong to items. Returns false if it has a fault.
fn add_subsection(
    alloc: Global,
    names: &mut ItemNames,
    subsection: &Name<'_>,
) -> Result<bool, ListError>
    ensures keeps { KeepsNames names.old names.new }
    ensures memory { IfErr result (λ why. why ≡ Memory) }
{
    match subsection {
        Name::Function(map) => add_map(alloc, names, Space::Functions, map),
        Name::Types(map) => add_map(alloc, names, Space::Types, map),
        Name::Table(map) => add_map(alloc, names, Space::Tables, map),
        Name::Memory(map) => add_map(alloc, names, Space::Memories, map),
        Name::Global(map) => add_map(alloc, names, Space::Globals, map),
        Name::Element(map) => add_map(alloc, names, Space::Elements, map),
        Name::Data(map) => add_map(alloc, names, Space::DataSegments, map),
        Name::Tag(map) => add_map(alloc, names, Space::Tags, map),
        _ => Ok(true),
    }
}

// Adds the names of a name section, up to its first fault. Returns false if it has one.
fn add_subsections(
    alloc: Global,
    names: &mut ItemNames,
    mut section: NameSectionReader<'_>,
) -> Result<bool, ListError>
    ensures keeps { KeepsNames names.old names.new }
    ensures memory { IfErr result (λ why. why ≡ Memory) }
{
    'subsections: for _ in 0..u64::MAX {
        match section.next() {
            Some(Ok(subsection)) => {
                if !add_subsection(alloc, names, &subsection)? {
                    return Ok(false);
                }
            }
            Some(Err(_)) => return Ok(false),
            None => break,
        }
    }
    Ok(true)
}

// The names that were collected.
#[derive(Drop)]
struct Collected {
    // The names in sections called `name`, and those of symbols.
    named: ItemNames,
    // Whether there is such a section.
    has_section: bool,
    // The names that symbols give, for a stream without such a section.
    linked: Linked,
}

impl Collected {
    // Adds the names of a section `name`. At a fault all names end: it then returns `Output`.
    fn add_names(&mut self, alloc: Global, section: NameSectionReader<'_>) -> Result<(), ListError>
        ensures keeps { KeepsNames self.old.named self.new.named }
        ensures linked { self.new.linked ≡ self.old.linked }
    {
        self.has_section = true;
        if add_subsections(alloc, &mut self.named, section)? {
            Ok(())
        } else {
            Err(ListError::Output)
        }
    }

    // Adds the names of a payload that is read of these bytes. If all names end with it, it returns `Output`.
    fn add_payload(
        &mut self,
        alloc: Global,
        bytes: &[u8],
        payload: &Payload<'_>,
    ) -> Result<(), ListError>
        ensures keeps { KeepsNames self.old.named self.new.named }
        ensures linked { KeepsNames self.old.linked.names self.new.linked.names }
    {
        self.linked
            .pass(alloc, &mut self.named, bytes, payload, true)?;
        match payload {
            Payload::CustomSection(section) if section.name() == "name" => {
                self.add_names(alloc, NameSectionReader::new(alloc, section.data_reader()))
            }
            _ => Ok(()),
        }
    }

    // Passes a part that was skipped. The name of a custom section is kept: symbols name sections.
    fn add_skipped(&mut self, alloc: Global, outline: Outline) -> Result<(), ListError>
        ensures keeps { KeepsNames self.old.named self.new.named }
        ensures linked { KeepsNames self.old.linked.names self.new.linked.names }
        ensures memory { IfErr result (λ why. why ≡ Memory) }
    {
        match outline {
            Outline::Hidden { is_body } => {
                self.linked.pass_hidden(is_body);
                Ok(())
            }
            Outline::Custom(section) => {
                let payload = section.without_data();
                self.linked
                    .pass(alloc, &mut self.named, &[], &payload, true)
            }
        }
    }

    // The names of a section called `name`, if there is one, or else those that symbols give. Symbols have theirs anyway.
    fn into_names(self) -> ItemNames
        ensures { result ≡ (if self.has_section then self.named else self.linked.names) }
    {
        let Collected {
            named,
            has_section,
            linked,
        } = self;
        if has_section {
            named
        } else {
            linked.into_names()
        }
    }
}

// The parts that are read: custom sections with known names. Import sections are read in any case.
fn named_parts() -> Shown<'static> {
    Shown {
        only: &[Only::Id(CUSTOM_SECTION)],
        has_bytes: false,
        found: &[],
    }
}

// What collects the names of each part.
#[derive(Drop)]
struct Collector {
    alloc: Global,
}

impl Visitor<Global, Collected> for Collector {
    ghost stages = { collect_stages };

    ghost sound = { λ v. Unit {0} };

    fn take_part(
        &mut self,
        frame: Frame<'_>,
        bytes: &[u8],
        names: &mut Collected,
    ) -> Result<(), ListError> {
        names.add_payload(self.alloc, bytes, &Payload::from(frame))
    }

    fn take_fault(&mut self, _error: Error, _names: &mut Collected) -> Result<(), ListError> {
        Ok(())
    }

    fn read_on<R: Source>(
        &mut self,
        cursor: &mut Cursor,
        stored: &mut Vec<u8>,
        ahead: &mut Ahead<Global>,
        input: &mut R,
        names: &mut Collected,
    ) -> Result<Option<Error>, ListError> {
        match supply(self.alloc, named_parts(), cursor, stored, ahead, input)? {
            Supplied::Read => Ok(None),
            Supplied::Passed(outline) => {
                names.add_skipped(self.alloc, outline)?;
                Ok(None)
            }
            Supplied::Cut(error) => Ok(Some(error)),
        }
    }

    fn finish(&mut self, _names: &mut Collected) -> Result<(), ListError> {
        Ok(())
    }

    fn out_of_memory(&mut self, _names: &mut Collected) -> ListError {
        ListError::Memory
    }
}

// Adds the names of a stream, up to its first fault.
fn collect_into<R: Source>(
    alloc: Global,
    names: &mut Collected,
    input: &mut R,
    buffer: Vec<u8>,
) -> Result<(), ListError>
    requires { 0 < vec_len buffer }
    // Proved: whatever comes in a stream after a name was collected from a section called `name`, its item keeps it
    //   [`keeps` (`KeepsNames`) of `collected::collect_into`, and of all that it calls]
    // Proved: so does an item that has a name by its symbol [`linked`, the same]
    ensures keeps { KeepsNames names.old.named names.new.named }
    ensures linked { KeepsNames names.old.linked.names names.new.linked.names }
    ensures memory { IfErr result (λ why. why ≡ Memory) }
{
    match visit(alloc, &mut Collector { alloc }, input, names, buffer) {
        Err(ListError::Memory) => Err(ListError::Memory),
        _ => Ok(()),
    }
}

/// Reads a whole stream, and returns the names of its items and symbols.
///
/// Items have the names in the custom sections `name`. In a stream without such a section they have those of their symbols
/// in the custom section `linking`, and data segments those of its segments (tool conventions, Linking). A symbol without a
/// name has that of its import, or of its section.
///
/// These are the names before the first fault of the stream, of a name section or of the source. Those of a section
/// `linking` end at its first fault, those of imports at theirs. If an item has two names, the first one counts. It reads
/// at most 65,536 bytes at once. It buffers import sections and custom sections with known names, and of other parts only
/// the first fields.
///
/// # Errors
///
/// `Memory` when an allocation fails. There is no other error: a fault ends the names.
///
/// ```rattle
/// // The name "f" for function 5.
/// let bytes = b"\0asm\x01\0\0\0\0\x0b\x04name\x01\x04\x01\x05\x01f";
/// let names = collect_names(alloc, &mut SliceSource::new(bytes))?;
/// assert_eq!(rt; names.of(Space::Functions, 5), Some("f"));
/// ```
pub fn collect_names<R: Source>(alloc: Global, input: &mut R) -> Result<ItemNames, ListError>
    // Proved: the only error of `collect_names` is out of memory
    ensures { IfErr result (λ why. why ≡ Memory) }
{
    let mut names = Collected {
        named: ItemNames::new(alloc),
        has_section: false,
        linked: Linked::new(alloc, true),
    };
    let buffer = vec![in alloc; 0u8; PIECE]?;
    collect_into(alloc, &mut names, input, buffer)?;
    Ok(names.into_names())
}
