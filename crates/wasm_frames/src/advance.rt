// What a parser knows after a frame.
ghost use Rattle.std.specs.Prelude.{◌≡◌, ◌+◌, ◌-◌, ◌<◌, ◌≤◌, ◌^◌, Some, true};
ghost use Rattle.wasm_frames.specs.ParserState.{is_at_section as at_section};
ghost use Rattle.wasm_frames.specs.StateAfter.{implies_nothing, known_count, known_rank, missing_bytes, opened, past_body, state_after, state_after_section, with_count, with_rank};
ghost use Rattle.wasm_frames.specs.Stored.{numbers_of};

use crate::frame::Frame;
use crate::kind::FrameKind;
use crate::stored::{StoredParser, count_parts, encoding_byte};
use wasm_grammar::{
    CODE_SECTION, DATA_COUNT_SECTION, DATA_SECTION, FUNCTION_SECTION, section_place,
};

impl StoredParser {
    /// Moves to the end of a frame, which is at this offset, and records what later parts must fit.
    ///
    /// Sections that imply nothing for later parts come where no code section is open.
    // In place, where the kind of the frame is known.
    #[inline(always)]
    pub(crate) fn advance(&mut self, frame: &Frame, end: u64)
        requires after { self.old.offset ≤ end }
        requires section { implies_nothing frame.now ≡ true
            → at_section (numbers_of self.old) ≡ true }
        requires fits { end + missing_bytes frame.now
            (end - self.old.offset) self.old.code_bytes < 2 ^ 64 }
        ensures state { numbers_of self.new ≡ state_after (numbers_of self.old) end frame.now }
        ensures room { self.new.offset + self.new.code_bytes < 2 ^ 64 }
    {
        match frame.kind() {
            FrameKind::Body => self.pass_body(end),
            FrameKind::Custom | FrameKind::Unknown => self.pass_section(end),
            FrameKind::CodeStart => {
                self.learn(frame.id(), frame.count());
                self.open_code(frame.count(), frame.size(), end);
            }
            FrameKind::Items => self.pass_counted(frame.id(), frame.count(), end),
            FrameKind::DataCount => self.pass_counted(frame.id(), frame.count(), end),
            FrameKind::Start => {
                self.learn_rank(frame.id());
                self.close(end);
            }
            FrameKind::Header => {
                self.is_component = encoding_byte(frame.encoding());
                self.close(end);
            }
            FrameKind::End => self.close(end),
        }
    }

    // Moves to the end of a section that implies nothing for later parts. No code section is open where a section is.
    fn pass_section(&mut self, end: u64)
        requires { at_section (numbers_of self.old) ≡ true }
        ensures state { numbers_of self.new ≡ state_after_section (numbers_of self.old) end }
        ensures room { self.new.offset + self.new.code_bytes < 2 ^ 64 }
    {
        self.offset = end;
        self.in_code = 0;
    }

    // Moves to the end of a section with this id and count.
    fn pass_counted(&mut self, id: u8, count: u32, end: u64)
        ensures state { numbers_of self.new
            ≡ state_after_section (with_count (numbers_of self.old) id count) end }
        ensures room { self.new.offset + self.new.code_bytes < 2 ^ 64 }
    {
        self.learn(id, count);
        self.close(end);
    }

    // Moves to the end of any part that is not of a code section.
    fn close(&mut self, end: u64)
        ensures state { numbers_of self.new ≡ state_after_section (numbers_of self.old) end }
        ensures room { self.new.offset + self.new.code_bytes < 2 ^ 64 }
    {
        self.offset = end;
        self.is_begun = 1;
        self.bodies = 0;
        self.code_bytes = 0;
        self.in_code = 0;
    }

    // Moves to the first body of a code section with this many bodies and bytes.
    fn open_code(&mut self, bodies: u32, code_bytes: u32, end: u64)
        ensures state { numbers_of self.new ≡ opened (numbers_of self.old) end bodies code_bytes }
        ensures room { self.new.offset + self.new.code_bytes ≡ end + code_bytes }
    {
        self.offset = end;
        self.is_begun = 1;
        self.bodies = bodies;
        self.code_bytes = code_bytes;
        self.in_code = 1;
    }

    // Moves to the end of a body.
    fn pass_body(&mut self, end: u64)
        requires { self.old.offset ≤ end }
        ensures state { numbers_of self.new ≡ past_body (numbers_of self.old) end }
        ensures room { self.new.offset + self.new.code_bytes
            ≡ end + (self.old.code_bytes - (end - self.old.offset)) }
    {
        let taken = end - self.offset;
        self.offset = end;
        self.is_begun = 1;
        self.bodies = self.bodies.saturating_sub(1);
        self.code_bytes = u64::from(self.code_bytes).saturating_sub(taken) as u32;
        self.in_code = 1;
    }

    // Records the rank of a section with this id, if it has one. It is above all earlier ones.
    fn learn_rank(&mut self, id: u8)
        ensures state { numbers_of self.new ≡ with_rank (numbers_of self.old) id }
        ensures stays { (self.new.offset ≡ self.old.offset) × (self.new.code_bytes ≡ self.old.code_bytes) }
    {
        let rank = section_place(id);
        if rank > 0 {
            self.rank = rank;
        }
    }

    /// Records the rank and the count of a section with this id.
    // Each field has a function: one `match` over all would need a proof for each of its arms.
    pub(crate) fn learn(&mut self, id: u8, count: u32)
        ensures state { numbers_of self.new ≡ with_count (numbers_of self.old) id count }
        ensures stays { (self.new.offset ≡ self.old.offset) × (self.new.code_bytes ≡ self.old.code_bytes) }
    {
        self.learn_rank(id);
        self.set_functions(count_after(FUNCTION_SECTION, id, count, self.functions()));
        self.set_codes(count_after(CODE_SECTION, id, count, self.codes()));
        self.set_datas(count_after(DATA_SECTION, id, count, self.datas()));
        self.set_data_counts(count_after(DATA_COUNT_SECTION, id, count, self.data_counts()));
    }

    fn set_functions(&mut self, count: Option<u32>)
        ensures { numbers_of self.new ≡ record (numbers_of self.old) { functions = count } }
    {
        let (has, number) = count_parts(count);
        self.has_functions = has;
        self.functions = number;
    }

    fn set_codes(&mut self, count: Option<u32>)
        ensures { numbers_of self.new ≡ record (numbers_of self.old) { codes = count } }
    {
        let (has, number) = count_parts(count);
        self.has_codes = has;
        self.codes = number;
    }

    fn set_datas(&mut self, count: Option<u32>)
        ensures { numbers_of self.new ≡ record (numbers_of self.old) { datas = count } }
    {
        let (has, number) = count_parts(count);
        self.has_datas = has;
        self.datas = number;
    }

    fn set_data_counts(&mut self, count: Option<u32>)
        ensures { numbers_of self.new ≡ record (numbers_of self.old) { data_counts = count } }
    {
        let (has, number) = count_parts(count);
        self.has_data_counts = has;
        self.data_counts = number;
    }
}

// Returns the count of the section with the first id, after a section with this id and count.
fn count_after(first: u8, id: u8, count: u32, known: Option<u32>) -> Option<u32>
    ensures { result ≡ known_count first (Some (id, count)) known }
{
    if id == first { Some(count) } else { known }
}
