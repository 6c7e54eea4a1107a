// A check of UTF-8 that only says yes or no. Most names are short and ASCII, and two loads see all of such a name.
ghost use Rattle.std.specs.Prelude.{◌+◌, ◌≤◌, ◌↔◌, IsTrue, length};
ghost use Rattle.std.specs.Str.{IsAscii, IsUtf8};

use crate::lanes::are_below_128;
use std::simd::prelude::*;

// Whether the first N bytes and the last N bytes are ASCII, which are all of at most twice as many.
#[inline(always)]
fn ends_are_ascii<const N: usize>(bytes: &[u8]) -> bool
    requires { (N ≤ 32) × (N ≤ length bytes.now) × (length bytes.now ≤ N + N) }
    ensures { IsTrue result → IsAscii bytes.now }
{
    are_below_128(Simd::<u8, N>::from_slice(bytes))
        && are_below_128(Simd::<u8, N>::from_slice(&bytes[bytes.len() - N..]))
}

// Whether bytes are ASCII, and so few that this is seen at once.
#[inline(always)]
fn are_few_ascii(bytes: &[u8]) -> bool
    ensures { IsTrue result → IsAscii bytes.now }
{
    match bytes.len() {
        4..=8 => ends_are_ascii::<4>(bytes),
        9..=16 => ends_are_ascii::<8>(bytes),
        17..=32 => ends_are_ascii::<16>(bytes),
        33..=64 => ends_are_ascii::<32>(bytes),
        _ => false,
    }
}

// Whether any bytes are UTF-8. A call, so that it costs nothing where few bytes are looked at.
#[inline(never)]
fn are_utf8(bytes: &[u8]) -> bool
    ensures { IsTrue result ↔ IsUtf8 bytes.now }
{
    std::str::from_utf8(bytes).is_ok()
}

/// Whether bytes are UTF-8.
#[inline(always)]
pub(crate) fn is_utf8(bytes: &[u8]) -> bool
    ensures { IsTrue result ↔ IsUtf8 bytes.now }
{
    are_few_ascii(bytes) || are_utf8(bytes)
}
