// Faults alone.
ghost use Rattle.std.specs.Prelude.{◌≡◌, ◌++◌, [], None, codes, decimal, false};
ghost use Rattle.std.specs.String.{string_bytes};
ghost use Rattle.wasm_base.specs.FaultAt.{fault_at};
ghost use Rattle.wasm_base.specs.Message.{number_text};
ghost use Rattle.wasm_io.specs.Offsets.{offset_text};
ghost use Rattle.wasm_io.specs.declared.digits.Base.TheVariants.{Hexadecimal};
ghost use Rattle.wasm_output.specs.Said.{PutsMore};
ghost use Rattle.wasm_show.specs.Noted.{Notes, found_by, site_of};
ghost use Rattle.wasm_show.specs.Seen.{custom, enters, fault_line, faulty, outside, site_text, unknown, warning_line};

use crate::show::Show;
use crate::walker::{Walker, Within};
use std::alloc::Global;
use wasm_base::{Error, Fault};
use wasm_io::{Base, ListError, Sink};
use wasm_output::{Output, Space};

/// Where the items are that are walked.
#[derive(Drop)]
enum Place {
    Stream,
    Section(&'static str),
    Custom(String),
}

/// A walker that writes a line for each malformed item to a sink. It buffers at most 65,536 bytes.
///
/// A line is the prefix that was passed, the offset of the fault in hexadecimal digits, its message, its number, if it
/// has one, and the section that the item is in. Names of custom sections are in quotes. A section with an unknown id
/// has a line with the word `warning`, and is no fault. A quiet one writes nothing. Either way `has_faults` returns
/// whether there was a fault. Call `write_out` at the end to write the buffered lines.
///
/// ```rattle
/// let error = Error::new(Fault::MalformedUtf8, 60);
/// let mut out = Faults::new(alloc, BoundedSink::new(alloc, 1000)?, String::from_str(alloc, "a.wasm: ")?, false);
/// out.enter(Within::Section("import"));
/// out.take_fault(1, &error);
/// out.write_out();
/// assert!(rt; out.has_faults());
/// let wanted = b"a.wasm: 0x3c: malformed UTF-8 encoding, in section import\n";
/// assert_eq!(rt; out.into_output().written(), wanted.as_slice());
/// ```
pub struct Faults<W: Sink> {
    alloc: Global,
    output: Output<W>,
    prefix: String,
    place: Place,
    is_quiet: bool,
    has_found: bool,
}

impl<W: Sink> Faults<W> {
    /// Creates a walker that has seen nothing. Each line begins with `prefix`, which may be empty, such as the name of the file and
    /// `": "`. If `is_quiet`, no line is written. Nothing is written yet.
    pub fn new(alloc: Global, output: W, prefix: String, is_quiet: bool) -> Faults<W>
        ensures { found_by result ≡ record {
          output = record {
            taken = W.taken output;
            waiting = [];
            has_failed = W.has_failed output;
            why = None;
          };
          prefix = string_bytes prefix;
          is_quiet = is_quiet;
          site = outside;
          has_found = false;
        } }
    {
        Faults {
            alloc,
            output: Output::new(alloc, output),
            prefix,
            place: Place::Stream,
            is_quiet,
            has_found: false,
        }
    }

    /// Returns whether there was a fault.
    ///
    /// If the walker has stopped, it has not seen later items.
    pub fn has_faults(&self) -> bool
        ensures { result ≡ (found_by self.now).has_found }
    {
        self.has_found
    }

    /// Returns the sink, with what was written to it. Buffered bytes are dropped: call `write_out` first.
    pub fn into_output(self) -> W
        ensures taken { W.taken result ≡ (found_by self).output.taken }
        ensures failed { W.has_failed result ≡ (found_by self).output.has_failed }
    {
        let Faults {
            alloc: _,
            output,
            prefix: _,
            place: _,
            is_quiet: _,
            has_found: _,
        } = self;
        output.into_sink()
    }

    /// Writes the buffered lines to the sink.
    pub fn write_out(&mut self)
        ensures puts { PutsMore [] self.old.output self.new.output }
        ensures kept { self.new ≡ record self.old { output = self.new.output } }
        ensures out { self.new.output.why ≡ None → self.new.output.waiting ≡ [] }
    {
        self.output.write_out();
    }

    // Writes the prefix of a line, and an offset.
    fn put_offset(&mut self, offset: u64)
        ensures puts { PutsMore (string_bytes self.old.prefix ++ offset_text Hexadecimal offset)
            self.old.output self.new.output }
        ensures kept { self.new ≡ record self.old { output = self.new.output } }
    {
        self.output.put_long(self.prefix.as_bytes());
        self.output.put_offset(Base::Hexadecimal, offset);
    }

    // Writes the line of a section whose id is unknown, which is no fault.
    fn put_warning(&mut self, id: u8, offset: u64)
        ensures puts { PutsMore (warning_line (string_bytes self.old.prefix) id offset)
            self.old.output self.new.output }
        ensures kept { self.new ≡ record self.old { output = self.new.output } }
    {
        self.put_offset(offset);
        self.output.put_long(b": warning: unknown section id: ");
        self.output.put_short(&u64::from(id));
        self.output.put_long(b"\n");
    }

    // Writes that the id of a section is unknown, unless the walker is quiet.
    fn warn(&mut self, id: u8, offset: u64)
        ensures { Notes (unknown id offset) (found_by self.old) (found_by self.new) }
    {
        if !self.is_quiet {
            self.put_warning(id, offset);
        }
    }

    // Writes where the items are.
    fn put_place(&mut self)
        ensures puts { PutsMore (site_text (site_of self.old.place)) self.old.output self.new.output }
        ensures kept { self.new ≡ record self.old { output = self.new.output } }
    {
        match &self.place {
            Place::Stream => {}
            Place::Section(name) => {
                self.output.put_long(b", in section ");
                self.output.put_long(name.as_bytes());
            }
            Place::Custom(name) => {
                self.output.put_long(b", in custom section ");
                self.output.put_quoted(name.as_str());
            }
        }
    }

    // Writes the number of a fault, if it has one.
    fn put_number(&mut self, number: Option<u64>)
        ensures puts { PutsMore (number_text number) self.old.output self.new.output }
        ensures kept { self.new ≡ record self.old { output = self.new.output } }
    {
        if let Some(number) = number {
            self.output.put_long(b": ");
            self.output.put_short(&number);
        }
    }

    // Writes the line of a fault.
    fn put_fault(&mut self, error: &Error)
        ensures puts { PutsMore (fault_line (string_bytes self.old.prefix) (site_of self.old.place)
            (fault_at error.now)) self.old.output self.new.output }
        ensures kept { self.new ≡ record self.old { output = self.new.output } }
    {
        self.put_offset(error.offset());
        self.output.put_long(b": ");
        self.output.put_long(error.message().as_bytes());
        self.put_number(error.number());
        self.put_place();
        self.output.put_long(b"\n");
    }

    // Keeps the place of the items that follow.
    fn enter_section(&mut self, place: Place)
        ensures { Notes (enters (site_of place)) (found_by self.old) (found_by self.new) }
    {
        self.place = place;
    }

    // Keeps the name of the custom section whose items follow. Stops if an allocation fails.
    fn enter_custom(&mut self, name: &str)
        ensures { Notes (enters (custom name.now)) (found_by self.old) (found_by self.new) }
    {
        match String::from_str(self.alloc, name) {
            Ok(name) => self.enter_section(Place::Custom(name)),
            Err(_) => self.output.out_of_memory(),
        }
    }

    // Notes a fault, and writes its line unless the walker is quiet.
    fn note_fault(&mut self, error: &Error)
        ensures { Notes (faulty (fault_at error.now)) (found_by self.old) (found_by self.new) }
    {
        self.has_found = true;
        if !self.is_quiet {
            self.put_fault(error);
        }
    }
}

impl<W: Sink> Walker for Faults<W> {
    ghost use Rattle.std.specs.Prelude.{true};
    ghost use Rattle.wasm_show.specs.Noted.{HasNoted, found_by};

    ghost saw = { λ since seen now. HasNoted (found_by since) seen (found_by now) };

    ghost why = { λ t. t.output.why };

    ghost IS_DEEP = { true };

    const IS_DEEP: bool = true;

    fn why_stopped(&self) -> Option<ListError> {
        self.output.stopped()
    }

    fn enter(&mut self, place: Within<'_>) {
        if self.output.stopped().is_some() {
            return;
        }
        match place {
            Within::Stream => self.enter_section(Place::Stream),
            Within::Section(name) => self.enter_section(Place::Section(name)),
            Within::Custom(name) => self.enter_custom(name),
            Within::Unknown(id, offset) => self.warn(id, offset),
        }
    }

    fn take_item<T: Show>(
        &mut self,
        _level: usize,
        _offset: Option<u64>,
        _number: Option<(Space, u64)>,
        _item: &T,
    ) {}

    fn take_fault(&mut self, _level: usize, error: &Error) {
        if self.output.stopped().is_some() {
            return;
        }
        match error.fault() {
            Fault::OutOfMemory => self.output.out_of_memory(),
            _ => self.note_fault(error),
        }
    }
}
