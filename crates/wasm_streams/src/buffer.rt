// The stored bytes of a stream.
ghost use Rattle.std.specs.Prelude.{◌≡◌, ◌+◌, ◌≤◌, ◌++◌, drop, length, vec_len, vec_capacity, OnOk, OnErr};

use std::alloc::{AllocError, Allocator};

/// Appends a chunk to the remaining bytes, and drops the consumed ones. A failed allocation changes nothing.
pub(crate) fn append<A: Allocator>(
    bytes: &mut Vec<u8, A>,
    spent: usize,
    piece: &[u8],
) -> Result<(), AllocError>
    requires { spent ≤ vec_len bytes.old }
    ensures ok { OnOk result (bytes.new.items ≡ drop spent bytes.old.items ++ piece.now) }
    ensures err { OnErr result (bytes.new.items ≡ bytes.old.items) }
{
    make_room(bytes, spent, piece.len())?;
    put(bytes, piece);
    Ok(())
}

/// Drops the first bytes, and makes room for `count` after the remaining ones. It allocates for these alone, before
/// anything is moved: a failed allocation changes nothing. It grows by more than it must, so that many small chunks
/// cost no more than a large one.
pub(crate) fn make_room<A: Allocator>(
    bytes: &mut Vec<u8, A>,
    spent: usize,
    size: usize,
) -> Result<(), AllocError>
    requires { spent ≤ vec_len bytes.old }
    ensures ok { OnOk result (bytes.new.items ≡ drop spent bytes.old.items) }
    ensures room { OnOk result (vec_len bytes.new + size ≤ vec_capacity bytes.new) }
    ensures err { OnErr result (bytes.new.items ≡ bytes.old.items) }
{
    bytes.reserve(size.saturating_sub(spent))?;
    drop_front(bytes, spent);
    Ok(())
}

/// Appends a chunk, for which there must be room.
pub(crate) fn put<A: Allocator>(bytes: &mut Vec<u8, A>, piece: &[u8])
    requires { vec_len bytes.old + length piece.now ≤ vec_capacity bytes.old }
    ensures items { bytes.new.items ≡ bytes.old.items ++ piece.now }
    ensures len { vec_len bytes.new ≡ vec_len bytes.old + length piece.now }
    ensures capacity { vec_capacity bytes.old ≤ vec_capacity bytes.new }
{
    bytes.extend_from_slice(piece).unwrap();
}

/// Takes the first bytes out.
pub(crate) fn drop_front<A: Allocator>(bytes: &mut Vec<u8, A>, count: usize)
    requires { count ≤ vec_len bytes.old }
    ensures items { bytes.new.items ≡ drop count bytes.old.items }
    ensures capacity { vec_capacity bytes.new ≡ vec_capacity bytes.old }
{
    if count > 0 {
        let len = bytes.len();
        bytes.copy_within(count..len, 0);
        bytes.truncate(len - count);
    }
}

/// Returns the bytes after the first `mark`, none if there are no more.
#[tactic(auto, using(std::proofs::lemmas::List::drop_min))]
pub(crate) fn after(bytes: &[u8], mark: usize) -> &[u8]
    ensures { result.now ≡ drop mark bytes.now }
{
    &bytes[mark.min(bytes.len())..]
}
