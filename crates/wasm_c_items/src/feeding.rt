// A feeder over memory of the caller.
ghost use Rattle.std.specs.Prelude.{◌≡◌, ◌+◌, ◌++◌, ◌≤◌, ◌↔◌, IsTrue, drop, take, length};
ghost use Rattle.wasm_frames.specs.ParserState.{initial_state};
ghost use Rattle.wasm_c_items.specs.Feeds.{IsFinished, IsNewFeed, PushesPlain, StepsPlain};

use crate::events::PlainEvent;
use crate::parsing::{new_parser, next_event};
use crate::spans::{after, front};
use wasm_parser::StoredParser;

/// A feeder: a parser for chunked input, which keeps the bytes that were pushed and not consumed in storage of the
/// caller.
///
/// Any bytes are a valid feeder. Between calls leave the storage alone, or move it as a whole (`realloc`): the next
/// call reads its bytes from `mark` to `end`.
#[repr(C)]
#[derive(Clone, Copy)]
pub struct StoredFeed {
    /// The parser of the stream.
    pub parser: StoredParser,
    /// The position of the first byte that is not consumed, in bytes from the start of the storage.
    pub mark: usize,
    /// The position after the last pushed byte, in bytes from the start of the storage.
    pub end: usize,
    /// 0 until the end of input is marked.
    pub is_finished: u8,
}

/// Returns a feeder of a stream that begins at this offset, with these features. It holds no bytes.
///
/// `pulleynavy_feed_init` of the C library is this call, and describes its errors.
pub fn new_feed(offset: u64, features: u32) -> StoredFeed
    ensures { IsNewFeed result (initial_state offset features) }
{
    StoredFeed {
        parser: new_parser(offset, features),
        mark: 0,
        end: 0,
        is_finished: 0,
    }
}

/// Returns the next event from the bytes that the feeder holds in the storage.
///
/// `pulleynavy_feed_step` of the C library is this call, and describes its errors.
#[inline(always)]
pub fn step_feed(feed: &mut StoredFeed, storage: &[u8]) -> PlainEvent
    ensures { StepsPlain feed.old storage.now result feed.new }
{
    let held = after(front(storage, feed.end), feed.mark);
    let is_all = feed.is_finished != 0;
    let event = next_event(&mut feed.parser, held, is_all, feed.mark);
    feed.mark = feed.mark.saturating_add(event.consumed);
    event
}

/// Marks the end of input.
///
/// `pulleynavy_feed_finish` of the C library is this call, and describes its errors.
pub fn finish_feed(feed: &mut StoredFeed)
    ensures { IsFinished feed.old feed.new }
{
    feed.is_finished = 1;
}

/// Appends a chunk to the bytes in the storage. Returns whether there was room for both.
///
/// `pulleynavy_feed_push` of the C library is this call, and describes its errors.
#[inline(always)]
pub fn push_to_feed(feed: &mut StoredFeed, storage: &mut [u8], piece: &[u8]) -> bool
    ensures { PushesPlain feed.old storage.old piece.now result feed.new storage.new }
{
    if feed.mark <= feed.end && has_room(storage, feed.end, piece) {
        put(storage, feed.end, piece);
        feed.end += piece.len();
        return true;
    }
    let held = after(front(storage, feed.end), feed.mark).len();
    if piece.len() > storage.len() - held {
        return false;
    }
    gather(storage, feed.mark, held, piece);
    feed.mark = 0;
    feed.end = held + piece.len();
    true
}

// Whether the chunk fits there.
fn has_room(storage: &[u8], end: usize, piece: &[u8]) -> bool
    ensures { IsTrue result ↔ (end + length piece.now ≤ length storage.now) }
{
    end <= storage.len() && piece.len() <= storage.len() - end
}

// Copies a chunk there.
fn put(storage: &mut [u8], end: usize, piece: &[u8])
    requires { end + length piece.now ≤ length storage.old }
    ensures len { length storage.new ≡ length storage.old }
    ensures holds { take (end + length piece.now) storage.new ≡ take end storage.old ++ piece.now }
{
    storage[end..end + piece.len()].copy_from_slice(piece);
}

// Only if the chunk has no room after the held bytes: moving them at each push cost most of the time with small chunks.
// Moves this many bytes from the mark to the front, and appends a chunk. It is seldom called, and stays out of line.
#[inline(never)]
fn gather(storage: &mut [u8], mark: usize, held: usize, piece: &[u8])
    requires within { held ≤ length (drop mark storage.old) }
    requires fits { held + length piece.now ≤ length storage.old }
    ensures len { length storage.new ≡ length storage.old }
    ensures holds { take (held + length piece.now) storage.new
        ≡ take held (drop mark storage.old) ++ piece.now }
{
    move_front(storage, mark, held);
    put(storage, held, piece);
}

// Moves this many bytes from the mark to the front. Where they don't overlap their new place, they are copied at once.
fn move_front(storage: &mut [u8], mark: usize, held: usize)
    requires within { held ≤ length (drop mark storage.old) }
    ensures len { length storage.new ≡ length storage.old }
    ensures holds { take held storage.new ≡ take held (drop mark storage.old) }
{
    if held == 0 {
        return;
    }
    if held <= mark {
        copy_front(storage, mark, held);
    } else {
        storage.copy_within(mark..mark + held, 0);
    }
}

fn copy_front(storage: &mut [u8], mark: usize, held: usize)
    requires within { mark + held ≤ length storage.old }
    requires apart { held ≤ mark }
    ensures len { length storage.new ≡ length storage.old }
    ensures holds { take held storage.new ≡ take held (drop mark storage.old) }
{
    let (front, back) = storage.split_at_mut(mark);
    front[..held].copy_from_slice(&back[..held]);
}
