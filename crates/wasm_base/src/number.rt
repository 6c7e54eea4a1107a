// Numbers in LEB128, as bytes.
ghost use Rattle.std.specs.Prelude.{◌≡◌, ◌<◌, ◌≤◌, ◌^◌, ◌*◌, length, take, position};
ghost use Rattle.wasm_base.specs.Number.{most_bytes, is_unused_right, septets, number};
ghost use Rattle.wasm_base.specs.Found.{number_of, IsWithin};
ghost use Rattle.wasm_base.specs.Septets.{is_last};
ghost use Rattle.wasm_base.specs.Signed.{signed_value, FitsBits};

use crate::fault::{Fault, NumberKind};

/// What bytes say of the number that begins with them.
pub(crate) enum Found {
    Read { sum: u128, used: usize },
    Bad { fault: Fault, place: usize },
    Short,
}

// How many bytes a number takes at most.
fn limit(kind: NumberKind) -> usize
    ensures { result ≡ most_bytes kind }
{
    match kind {
        NumberKind::VarU32 | NumberKind::VarI32 | NumberKind::VarS33 => 5,
        NumberKind::VarU64 | NumberKind::VarI64 => 10,
    }
}

// Whether the last byte that may be taken leaves its unused bits 0, or like the sign.
fn unused_bits_are_right(kind: NumberKind, byte: u8) -> bool
    ensures { result ≡ is_unused_right kind byte }
{
    match kind {
        NumberKind::VarU32 => byte < 16,
        NumberKind::VarI32 => byte < 8 || byte >= 120,
        NumberKind::VarS33 => byte < 16 || byte >= 112,
        NumberKind::VarU64 => byte < 2,
        NumberKind::VarI64 => byte < 1 || byte >= 127,
    }
}

// The index of the first byte below 128 among the first `limit` bytes.
fn last_of(bytes: &[u8], limit: usize) -> Option<usize>
    ensures { result ≡ position is_last (take limit bytes.now) }
{
    bytes.iter().take(limit).position(|b| *b < 128)
}

// The septets, put together.
fn sum_of_septets(bytes: &[u8]) -> u128
    requires { length bytes.now ≤ 10 }
    ensures { result ≡ septets bytes.now }
{
    let mut sum = 0u128;
    let mut weight = 1u128;
    for b in bytes {
        sum += u128::from(*b % 128) * weight;
        weight *= 128;
    }
    sum
}

/// The number of this kind that begins with these bytes. Most numbers have one byte or two.
pub(crate) fn number_in(kind: NumberKind, bytes: &[u8]) -> Found
    ensures value { number_of result ≡ number kind bytes.now }
    ensures within { IsWithin kind result (length bytes.now) }
{
    match bytes {
        [only, ..] if *only < 128 => Found::Read {
            sum: u128::from(*only),
            used: 1,
        },
        [low, high, ..] if *high < 128 => Found::Read {
            sum: u128::from(u16::from(*low - 128) + 128 * u16::from(*high)),
            used: 2,
        },
        _ => long_number_in(kind, bytes),
    }
}

// The number of this kind that begins with these bytes, however many bytes it has.
fn long_number_in(kind: NumberKind, bytes: &[u8]) -> Found
    ensures value { number_of result ≡ number kind bytes.now }
    ensures within { IsWithin kind result (length bytes.now) }
{
    let limit = limit(kind);
    let Some(last) = last_of(bytes, limit) else {
        if bytes.len() < limit {
            return Found::Short;
        }
        return Found::Bad {
            fault: Fault::NumberTooLong(kind),
            place: limit - 1,
        };
    };
    if last + 1 == limit && !unused_bits_are_right(kind, bytes[last]) {
        return Found::Bad {
            fault: Fault::NumberTooLarge(kind),
            place: last,
        };
    }
    Found::Read {
        sum: sum_of_septets(&bytes[..last + 1]),
        used: last + 1,
    }
}

/// Returns the signed number whose `used` septets have this sum.
pub(crate) fn signed_of(sum: u128, used: u64) -> i64
    requires used { used ≤ 10 }
    requires sum { sum < 2 ^ 70 }
    requires fits { FitsBits 64 (signed_value sum used) }
    ensures { result ≡ signed_value sum used }
{
    let span = 1u128 << (7 * used);
    if 2 * sum < span {
        return sum as i64;
    }
    (sum as i128 - span as i128) as i64
}
