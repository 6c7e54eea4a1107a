// Bytes below 128, looked at up to 32 at once: each is a number in LEB128 of one byte, and ASCII.
ghost use Rattle.std.specs.Prelude.{◌≡◌, ◌<◌, ◌≤◌, ◌↔◌, IsTrue, All};
ghost use Rattle.wasm_base.specs.SmallBytes.{continuation_bytes, small_prefix};

use std::simd::prelude::*;

/// How many bytes are looked at at once.
pub(crate) const LANES: usize = 32;

// A bit for each byte of 128 or more, that of the first byte the lowest.
#[inline(always)]
fn continuation_bytes<const N: usize>(bytes: Simd<u8, N>) -> u64
    requires { N ≤ 64 }
    ensures { result ≡ continuation_bytes bytes.entry }
{
    bytes.simd_ge(Simd::splat(128)).to_bitmask()
}

/// Whether all bytes are below 128.
#[inline(always)]
pub(crate) fn are_below_128<const N: usize>(bytes: Simd<u8, N>) -> bool
    requires { N ≤ 64 }
    // Proved: the test of up to 64 bytes at a time is true exactly if all are below 128
    ensures { IsTrue result ↔ All (λ b. b < 128) bytes.entry }
{
    continuation_bytes(bytes) == 0
}

/// How many bytes below 128 come before the first larger one.
#[inline(always)]
pub(crate) fn single_byte_run(bytes: u8x32) -> usize
    ensures run { result ≡ small_prefix bytes }
    ensures few { result ≤ 32 }
{
    let large = continuation_bytes(bytes);
    if large == 0 {
        return LANES;
    }
    large.trailing_zeros() as usize
}
