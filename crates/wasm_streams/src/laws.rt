//! Laws of feeders and of the ends of streams, each the contract of a function that does nothing.
ghost use Rattle.wasm_base.specs.Comparing.{DecidesWhether, DecidesSame, IsCopy};
ghost use Rattle.std.specs.Prelude.{◌≡◌};
ghost use Rattle.wasm_streams.specs.Ends.{fault_at_end};
ghost use Rattle.wasm_streams.specs.FeedersLaws.{FeedersGoAlong, FeedersWait};

use crate::turns::Ended;
use wasm_io::{Failed, ListError};

/// A feeder's place in the stream follows from the bytes it received, whatever calls are made and in any order. A new
/// one has received nothing, and a chunk adds to what it received. A step, over a chunk too, is the next event of every
/// stream that begins with these bytes, its last event, or a request. Each payload except the end shows some bytes, so
/// a loop over steps ends. The parser's state afterwards follows from the step. After the end or a fault each later
/// step reports the same, whatever bytes come, and after `finish` too.
pub fn feeders_go_along()
    // Proved: below the largest offset a step, over a chunk too, is the next event of every stream
    //   that continues this way, its last one, or undecided [`laws::feeders_go_along`
    //   (`SteppedOver`)]
    // Proved: the feeder's input then is what it took of the chunk as well
    // Proved: a payload except the end provides some bytes
    // Proved: the parser afterwards follows from the step
    // Proved: after the end or a fault each later step returns the same, whatever bytes come below
    //   the largest offset, and after `finish` too [the same (`again`, `again_over`)]
    ensures { FeedersGoAlong }
{}

/// A feeder wants more only if its parser is undecided on the held bytes, and more may come. After bytes arrived, by a
/// push, a read or a step over a chunk, it stores fewer bytes than the bound on undecided bytes plus the size of the
/// chunk. If the held bytes decide, a step over a chunk takes and stores nothing. All of this holds below the largest
/// offset; a step past it is the fault `OffsetRange`.
pub fn feeders_wait_where_undecided()
    // Proved: while the stream stays below the largest offset, a feeder wants more only if its
    //   parser is undecided on what it holds, and more may come
    //   [`laws::feeders_wait_where_undecided` (`WaitsUndecided`)]
    // Proved: a step past the largest offset is `OffsetRange` [the same (`past_the_top`)]
    // Proved: if the held bytes are undecided, less is stored after a push, a read or a step over a
    //   chunk than their bound and the chunk together [`laws::feeders_wait_where_undecided`
    //   (`bounded`, `bounded_over`)]
    ensures { FeedersWait }
{}

/// Two ends of listings are equal exactly if both are the end of a stream, or both a fault with the same kind, offset
/// and number. Two `ListError`s are equal exactly if they are the same.
pub fn equal_ends_are_the_same()
    // Proved: two ends of listings are equal exactly if both are the end of a stream, or faults
    //   that say the same
    // Proved: two reasons to give up are equal exactly if they are the same; copies are the same,
    //   and can always be made [`laws::equal_ends_are_the_same`, `copies_of_ends_are_the_same`]
    ensures ended { DecidesWhether (λ one other. fault_at_end one ≡ fault_at_end other)
        ⟦<Ended as PartialEq>⟧.eq }
    ensures list_error { DecidesSame ⟦<ListError as PartialEq>⟧.eq }
    ensures failed { DecidesSame ⟦<Failed as PartialEq>⟧.eq }
{}

/// A copy of an end of a listing, or of a `ListError`, is the same, and copying never fails.
pub fn copies_of_ends_are_the_same()
    ensures ended { IsCopy ⟦<Ended as Clone>⟧.is_clone ⟦<Ended as Clone>⟧.is_infallible }
    ensures list_error { IsCopy
        ⟦<ListError as Clone>⟧.is_clone
        ⟦<ListError as Clone>⟧.is_infallible }
    ensures failed { IsCopy ⟦<Failed as Clone>⟧.is_clone ⟦<Failed as Clone>⟧.is_infallible }
{}
