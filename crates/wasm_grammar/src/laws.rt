//! The laws of readings: they show that the definitions of a stream are the right ones.
//!
//! Each law is the contract of a function that does nothing.
ghost use Rattle.wasm_base.specs.Comparing.{DecidesSame, IsCopy};
ghost use Rattle.wasm_grammar.specs.FrameLaws.{FramesGiveEvents, FramesReadTheSame, OneDivision, RanklessMayGo};
ghost use Rattle.wasm_grammar.specs.Laws.{AcceptedEnds, EventsLieEndToEnd, FaultEnds, EventsSayTheirBytes, FaultLiesWithin, LongestTiling, OneReading, SomeReading, StartOnlyMoves, TilesStandAlone};
ghost use Rattle.wasm_grammar.specs.SectionLaws.{BodiesFollowTheirCount, RanksAscend, SectionsTile};
ghost use Rattle.wasm_grammar.specs.Worked.{EdgesOfRules, WorkedStreams};
ghost use Rattle.wasm_grammar.specs.WorkedEndings.{WorkedEndings};
ghost use Rattle.wasm_grammar.specs.WorkedFields.{LongFields, TwoFaults, WholeReadings};

use crate::encoding::Encoding;

/// A stream has at most one reading.
pub fn one_reading()
    ensures { OneReading }
{}

/// Every stream has a reading.
pub fn some_reading()
    ensures { SomeReading }
{}

/// The reading of a stream ends at its end exactly if the stream is accepted.
///
/// An accepted stream is a header, and then nothing but well-formed sections in their order.
pub fn accepted_ends()
    ensures { AcceptedEnds }
{}

/// The reading of a stream ends with a fault exactly if the stream is not accepted.
pub fn fault_ends()
    // Proved: a reading ends with a fault exactly if the stream is not accepted
    ensures { FaultEnds }
{}

/// A fault lies in the stream after the tiles before it, or at its end.
pub fn fault_lies_within()
    // Proved: a fault lies in the stream or at its end
    ensures { FaultLiesWithin }
{}

/// The tiles of a reading are the longest faultless tiling of its stream: every other is a prefix of it.
pub fn longest_tiling()
    // Proved: the tiles of a reading are the longest faultless tiling of its stream
    ensures { LongestTiling }
{}

/// The events of a reading are end to end in its stream, and their windows are its parts at their own offsets.
///
/// The bytes that they consumed, joined, are the stream up to where the reading stops.
pub fn events_lie_end_to_end()
    // Proved: the events of a reading lie end to end, and those of sections and bodies state what
    //   their bytes are [`laws::events_lie_end_to_end`, `laws::events_say_their_bytes`]
    // Proved: the windows of events are parts of the stream, with the enabled features
    ensures { EventsLieEndToEnd }
{}

/// The start offset only moves offsets.
///
/// The reading of a stream that starts later has the same events with every offset moved, unless a section overruns the
/// largest offset there.
pub fn start_only_moves()
    // Proved: the start offset only moves offsets, unless a section passes the largest offset there
    ensures { StartOnlyMoves }
{}

/// What a tile is depends only on its own bytes.
///
/// It comes after the same tiles in every stream that has its bytes there.
pub fn tiles_stand_alone()
    // Proved: what a tile is depends on its own bytes alone
    ensures { TilesStandAlone }
{}

/// Worked streams have the readings that were computed by hand.
pub fn worked_streams()
    // Proved: worked streams have the readings, or the ends of readings, that were computed by hand
    //   [`laws::worked_streams` and four more]
    ensures { WorkedStreams }
{}

/// For worked prefixes of streams, the number of requested bytes and the deciding suffix are those computed by hand.
///
/// There is one prefix for each kind of waiting.
pub fn worked_endings()
    // Proved: after worked prefixes, one for each kind of waiting, the computed number of bytes is
    //   requested, and the computed suffix decides
    ensures { WorkedEndings }
{}

/// Streams at the edges of the rules have the readings, or the ends, that were computed by hand.
pub fn edges_of_rules()
    ensures { EdgesOfRules }
{}

/// An accepted stream is its header and then the sections that its reading reports, in order, with nothing between or
/// after them.
///
/// Each section is its id, its length, and its content, which is the bytes of the reported range.
pub fn sections_tile_an_accepted_stream()
    // Proved: an accepted stream is its header and then the sections of its reading: of each the
    //   id, a length, the bytes of its range
    ensures { SectionsTile }
{}

/// An accepted stream is divided into a header and sections in one way.
pub fn one_division()
    // Proved: an accepted stream is divided into sections in one way
    ensures { OneDivision }
{}

/// The events of an accepted stream are those of its header, of its sections in their order, and its end, each at its
/// offset.
///
/// A code section has events for its start and for each body. Every other section has one event.
pub fn frames_give_events()
    // Proved: the events of an accepted stream are that of its header, those of its sections in
    //   order, and its end. Those of a code section are its start and its bodies; every other
    //   section has one [`laws::frames_give_events` (`TellsFrames`)]
    ensures { FramesGiveEvents }
{}

/// A section that fits after some sections fits after others that imply the same for it, and is read the same there.
///
/// Its events at another offset are its events moved. Sections without a rank, such as custom ones, imply nothing.
pub fn frames_read_the_same()
    // Proved: a section that fits after some sections fits after others that imply the same for it,
    //   and its events at another offset are its events moved [`laws::frames_read_the_same`
    //   (`SayTheSame`)]
    ensures { FramesReadTheSame }
{}

/// An accepted stream stays accepted without some of its sections that have no rank, such as custom sections.
pub fn rankless_may_go()
    // Proved: sections without a rank imply nothing for others, so an accepted stream without some
    //   of them is accepted
    ensures { RanklessMayGo }
{}

/// Of two sections of a reading with ranks, the later one has the higher rank: a module's sections ascend.
///
/// Ranks are those of the encoding that the stream's header names.
pub fn ranks_ascend()
    // Proved: of two sections of a reading the later one has the higher rank, if both have one
    ensures { RanksAscend }
{}

/// After the start of a code section a reading has as many bodies as the section counts, or a fault.
///
/// After all bodies another event follows. If there are fewer bodies, a fault comes next, which is the last event.
pub fn bodies_follow_their_count()
    // Proved: the start of a code section is followed by as many bodies as it counts, or by fewer
    //   and a fault [`laws::bodies_follow_their_count`]
    ensures { BodiesFollowTheirCount }
{}

/// Two encodings are equal exactly if they are the same. A copy of an encoding is the same, and can always be made.
pub fn equal_encodings_are_the_same()
    // Proved: two encodings are equal exactly if they are the same; a copy of one is the same, and
    //   can always be made
    ensures equal { DecidesSame ⟦<Encoding as PartialEq>⟧.eq }
    ensures copy { IsCopy ⟦<Encoding as Clone>⟧.is_clone ⟦<Encoding as Clone>⟧.is_infallible }
{}

/// What the events of a reading, accepted or not, report of sections and bodies is what the bytes that they consumed
/// are.
///
/// The bytes of a section are its id, a length field and the content, which is the bytes of its range and begins with
/// the reported count, index or name. Those of a code section are only the content up to its count. Those of a body are
/// a size field and its window.
pub fn events_say_their_bytes()
    // Proved: the event of a section states its id, its length field, and its content in the range,
    //   with the count, index or name that begins it. That of a body states a size field and a
    //   window [`laws::events_say_their_bytes`]
    ensures { EventsSayTheirBytes }
{}

/// Streams that start elsewhere, with other features, names and all ids, have the readings that were computed by hand.
pub fn whole_readings()
    // Proved: whole readings are as computed by hand; streams at the edges of the rules, with long
    //   fields and with two faults end as computed by hand [`laws::whole_readings`,
    //   `edges_of_rules`, `long_fields`, `two_faults`]
    ensures { WholeReadings }
{}

/// Streams whose fields take several bytes before a fault end at the fault that was computed by hand.
pub fn long_fields()
    ensures { LongFields }
{}

/// Streams in which two checks can fail end at the first of the two faults, as computed by hand.
pub fn two_faults()
    ensures { TwoFaults }
{}
