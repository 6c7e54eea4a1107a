//! The laws of the parser, and of the grammar that it follows. Each is the contract of a function that does nothing.
ghost use Rattle.wasm_parser.specs.PayloadItems.{GivesTypes, GivesImports, GivesFunctions, GivesTables};
ghost use Rattle.wasm_parser.specs.PayloadItems.{GivesMemories, GivesTags, GivesGlobals, GivesExports};
ghost use Rattle.wasm_parser.specs.PayloadItems.{GivesElements, GivesData, NoOthersAreCounted};

use wasm_base::{SectionLimitedIntoIterIn, SectionLimitedIntoIterWithOffsets};
// These hold of frames and payloads alike.
pub use wasm_frames::laws::{
    answers_go_along, answers_last, end_consumes_all, parser_suffices, short_is_undecided,
    skipping_goes_along, skipping_leaves_out_bodies, some_next_event,
};
// These are about streams too. The laws of other crates are found there.
pub use wasm_grammar::laws::{
    accepted_ends, bodies_follow_their_count, edges_of_rules, equal_encodings_are_the_same,
    events_lie_end_to_end, events_say_their_bytes, fault_ends, fault_lies_within,
    frames_give_events, frames_read_the_same, long_fields, longest_tiling, one_division,
    one_reading, rankless_may_go, ranks_ascend, sections_tile_an_accepted_stream, some_reading,
    start_only_moves, tiles_stand_alone, two_faults, whole_readings, worked_endings,
    worked_streams,
};
use wasm_items::{Data, Element, Export, Global, Imports, MemoryType, RecGroup, Table, TagType};

/// The items of a payload that begins with a count are those of its window, by the grammar of its kind of section.
///
/// They are as many as announced, each at its offset in the stream, up to the first error, and then nothing or one
/// `SizeMismatch`. Types own lists, so `OutOfMemory` may come in place of a type, as the last item.
pub fn items_of_payloads<'a>()
    // Proved: the items of a payload that begins with a count are those of its window, for every
    //   kind of section: each at its offset in the stream, except that for types `OutOfMemory` may
    //   come instead of any [`laws::items_of_payloads` (`GivesTypes` to `GivesData`,
    //   `NoOthersAreCounted`)]
    ensures types { GivesTypes
        ⟦<SectionLimitedIntoIterIn<'a, RecGroup> as Iterator>⟧.next_gives }
    ensures imports { GivesImports
        ⟦<SectionLimitedIntoIterWithOffsets<'a, Imports<'a>> as Iterator>⟧.next_gives }
    ensures functions { GivesFunctions
        ⟦<SectionLimitedIntoIterWithOffsets<'a, u32> as Iterator>⟧.next_gives }
    ensures tables { GivesTables
        ⟦<SectionLimitedIntoIterWithOffsets<'a, Table<'a>> as Iterator>⟧.next_gives }
    ensures memories { GivesMemories
        ⟦<SectionLimitedIntoIterWithOffsets<'a, MemoryType> as Iterator>⟧.next_gives }
    ensures tags { GivesTags
        ⟦<SectionLimitedIntoIterWithOffsets<'a, TagType> as Iterator>⟧.next_gives }
    ensures globals { GivesGlobals
        ⟦<SectionLimitedIntoIterWithOffsets<'a, Global<'a>> as Iterator>⟧.next_gives }
    ensures exports { GivesExports
        ⟦<SectionLimitedIntoIterWithOffsets<'a, Export<'a>> as Iterator>⟧.next_gives }
    ensures elements { GivesElements
        ⟦<SectionLimitedIntoIterWithOffsets<'a, Element<'a>> as Iterator>⟧.next_gives }
    ensures segments { GivesData
        ⟦<SectionLimitedIntoIterWithOffsets<'a, Data<'a>> as Iterator>⟧.next_gives }
    ensures others { NoOthersAreCounted }
{}
