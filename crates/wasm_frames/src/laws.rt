//! The laws of the parser of frames, and of the grammar that it follows. Each is the contract of a function that does nothing.
ghost use Rattle.wasm_frames.specs.Along.{AnswersGoAlong};
ghost use Rattle.wasm_frames.specs.ParserLaws.{AnswersLast, EndConsumesAll, ParserSuffices, SomeNextEvent};
ghost use Rattle.wasm_frames.specs.SkipAlong.{SkippingGoesAlong};
ghost use Rattle.wasm_frames.specs.Skipped.{SkippingLeavesOutBodies};
ghost use Rattle.wasm_grammar.specs.Undecided.{EnoughIsDecided, OneComesNext, ShortIsUndecided};

/// What may come after a prefix of a stream depends only on the state of a parser there. When a parser consumes
/// the next part, its state is that which the reading of the longer prefix determines.
pub fn parser_suffices()
    // Proved: what a parser knows after a prefix suffices for what may follow
    ensures { ParserSuffices }
{}

/// What a call returns, other than a request, is final: more bytes, whether they complete the stream or not, do not
/// change it.
pub fn answers_last()
    // Proved: what a call returns without `eof`, except a request, it also returns with more
    //   bytes, as long as these fit the offsets, with `eof` and without
    ensures { AnswersLast }
{}

/// A caller that receives a stream in chunks, and passes unconsumed bytes again, reads the events of the stream.
///
/// A new parser is at the start of the stream, and a request leaves the parser where it is. Each part or fault is the
/// next event of every stream with this prefix. Each part except the end consumes some bytes, and the parser's state
/// follows from the result. Equal bytes have equal results; a fault, or the end, is returned again.
pub fn answers_go_along()
    // Proved: a caller that passes a stream in chunks, and passes again what was not consumed, is
    //   along it: below the largest offset each result except a request is the next event of every
    //   stream that continues this way [`laws::answers_go_along` (`Along`, `GoesAlong`)]
    // Proved: a new parser is along at the start, and more bytes change nothing. A part except
    //   the end consumes some bytes, and the parser afterwards follows from the result
    // Proved: the same bytes yield the same result again, and so does a fault or the end that was
    //   returned before
    ensures { AnswersGoAlong }
{}

/// A caller that calls `skip_section` continues the reading, without the events of the skipped bodies.
///
/// This needs that some bytes of that length complete the section; the actual bytes are not looked at.
pub fn skipping_leaves_out_bodies()
    // Proved: a caller that holds no bytes and skips the rest of a code section continues with the
    //   reading without its bodies, if the skipped bytes complete the section
    ensures { SkippingLeavesOutBodies }
{}

/// A caller that receives a stream in chunks, and skips a part with `skip_next`, continues the reading after it.
///
/// The next event is that part, with its first fields and all its bytes, whatever these are. If the stream ends before
/// the part does, the next event is the fault `UnexpectedEof` at the start of its content.
pub fn skipping_goes_along()
    // Proved: a caller that skips parts by `skip_next` continues the reading after them
    ensures { SkippingGoesAlong }
{}

// It has no premise of room: the events of two lists of bytes differ wherever these start. Only that both are streams
// needs room, and 2^33 bytes are more than any that decide.
/// No parser could decide earlier than `next` does.
///
/// `front` is a prefix of a stream that starts at `offset`: empty, or the bytes of its first parts, without a fault.
/// `data` are the bytes that have arrived after it. In each stream with this prefix exactly one event comes next. If the
/// data suffices, it is the same in every stream that begins with both. Otherwise the next event of the stream that ends after the data differs
/// from that of the stream that continues with a given suffix; both are streams, if there are 2^33 more offsets after
/// the data.
///
/// (Core specification, Binary format, Modules.)
pub fn short_is_undecided(offset: u64, front: &[u8], data: &[u8])
    // Proved: one event comes next after a front, however the stream continues
    // Proved: if the bytes after a front suffice, it is the same in every stream that begins with
    //   both [`laws::short_is_undecided` (`EnoughIsDecided`)]
    // Proved: if the bytes after a front don't suffice, the next event differs between the stream
    //   that ends after the bytes and one that continues with a suffix that the definitions name;
    //   both are streams if the offsets continue for 2^33 bytes [`laws::short_is_undecided`
    //   (`ShortIsUndecided`)]
    ensures next { OneComesNext offset front.now }
    ensures decided { EnoughIsDecided offset front.now «data».now }
    ensures undecided { ShortIsUndecided offset front.now «data».now }
{}

/// The reading of a stream has a next event wherever a parser is in the stream.
pub fn some_next_event()
    // Proved: wherever a parser is in a stream, the reading of that stream has a next event
    ensures { SomeNextEvent }
{}

/// The events of a reading that ends at the stream's end consume all of the stream.
pub fn end_consumes_all()
    // Proved: the events of a reading that ends at the stream's end consumed all of the stream
    //   [`laws::end_consumes_all`]
    ensures { EndConsumesAll }
{}
