// A feeder over memory of the caller.
ghost use Rattle.wasm_frames.specs.ParserState.{initial_state};
ghost use Rattle.wasm_c_items.specs.Feeds.{IsFinished, IsNewFeed, PushesPlain, StepsPlain};

use wasm_c_items::{PlainEvent, StoredFeed, finish_feed, new_feed, push_to_feed, step_feed};

/// Returns a feeder for a stream that begins at this offset and is read with these features. It holds no bytes, so any
/// storage will do.
#[unsafe(no_mangle)]
pub extern "C" fn pulleynavy_feed_init(offset: u64, features: u32) -> StoredFeed
    // Proved: `pulleynavy_feed_init` holds nothing, and `pulleynavy_feed_finish` signals the end of
    //   input [their clauses (`IsNewFeed`, `IsFinished`)]
    ensures { IsNewFeed result (initial_state offset features) }
{
    new_feed(offset, features)
}

/// Returns the next event of the stream, a fault, or a request for more input, from the bytes in the storage.
///
/// After a request, call `pulleynavy_feed_push` or `pulleynavy_feed_finish`, then step again. After
/// `pulleynavy_feed_finish` it never requests more. A fault or a request leaves the feeder unchanged. The position `at`
/// of the event counts from the start of the storage, and is valid until the next push.
///
/// # Errors
///
/// A fault is an event of kind 10, as `pulleynavy_parse` returns it. The next step returns the same fault.
///
/// ```c
/// uint8_t storage[64];
/// pulleynavy_feed feed = pulleynavy_feed_init(0, PULLEYNAVY_ALL_FEATURES);
/// assert(pulleynavy_feed_push(&feed, storage, sizeof storage, (const uint8_t *)"\0asm\1", 5));
/// assert(pulleynavy_feed_step(&feed, storage, sizeof storage).kind == PULLEYNAVY_EVENT_NEED_MORE);
/// assert(pulleynavy_feed_push(&feed, storage, sizeof storage, (const uint8_t *)"\0\0\0", 3));
/// assert(pulleynavy_feed_step(&feed, storage, sizeof storage).kind == PULLEYNAVY_EVENT_VERSION);
/// pulleynavy_feed_finish(&feed);
/// assert(pulleynavy_feed_step(&feed, storage, sizeof storage).kind == PULLEYNAVY_EVENT_END);
/// ```
#[unsafe(no_mangle)]
pub extern "C" fn pulleynavy_feed_step(feed: &mut StoredFeed, storage: &[u8]) -> PlainEvent
    // Proved: `pulleynavy_feed_step` is `pulleynavy_parse` on what is held, and then holds what
    //   follows the consumed bytes
    ensures { StepsPlain feed.old storage.now result feed.new }
{
    step_feed(feed, storage)
}

/// Marks the end of input: no bytes follow those that were pushed. Truncated input is then a fault of the next step.
#[unsafe(no_mangle)]
pub extern "C" fn pulleynavy_feed_finish(feed: &mut StoredFeed)
    ensures { IsFinished feed.old feed.new }
{
    finish_feed(feed);
}

/// Appends the next chunk of the stream to the bytes in the storage, and returns true.
///
/// If there is no room after these bytes, it moves them to the front of the storage first. Push as often as you like
/// between steps.
///
/// # Errors
///
/// It returns false if the storage has no room for both, and leaves feeder and storage unchanged. Call it again with
/// larger storage that begins with the same bytes, as after `realloc`. A stream that ends beyond the offset 2^64 - 1 is
/// a fault of the next step.
#[unsafe(no_mangle)]
pub extern "C" fn pulleynavy_feed_push(
    feed: &mut StoredFeed,
    storage: &mut [u8],
    piece: &[u8],
) -> bool
    // Proved: `pulleynavy_feed_push` appends a chunk to what is held, or, exactly if there is no
    //   room for both, changes nothing
    ensures { PushesPlain feed.old storage.old piece.now result feed.new storage.new }
{
    push_to_feed(feed, storage, piece)
}
