// Removes the escape sequences of colors from a text.
ghost use Rattle.std.specs.Prelude.{◌≡◌, ◌≤◌, length};
ghost use Rattle.wasm_commands.specs.Colors.{given_by, where_after_byte, without_colors};

/// The first byte of an escape sequence.
pub(super) const ESC: u8 = 0x1b;

/// The position in a text with colors.
#[derive(Clone, Copy)]
pub(super) enum Where {
    /// Outside of a sequence.
    Outside,
    /// After an ESC.
    Escaped,
    /// In a sequence that sets a color.
    Inside,
}

// Returns the position after this byte.
fn after(at: Where, byte: u8) -> Where
    ensures { result ≡ where_after_byte at byte }
{
    if byte == ESC {
        return Where::Escaped;
    }
    match at {
        Where::Outside => Where::Outside,
        Where::Escaped => {
            if byte == b'\\' {
                Where::Outside
            } else {
                Where::Inside
            }
        }
        Where::Inside => {
            if byte == b'm' {
                Where::Outside
            } else {
                Where::Inside
            }
        }
    }
}

// Returns how many bytes of the plain text this byte adds: one, or none.
fn gives(at: Where, byte: u8) -> usize
    ensures count { result ≡ length (given_by at byte) }
    ensures one { result ≤ 1 }
{
    if byte == ESC {
        return 0;
    }
    match at {
        Where::Outside => 1,
        Where::Escaped => usize::from(byte == b'\\'),
        Where::Inside => 0,
    }
}

/// Returns the length of these bytes without their colors.
pub(super) fn count_plain(bytes: &[u8]) -> usize
    ensures { result ≡ length (without_colors bytes.now) }
{
    let mut at = Where::Outside;
    let mut count = 0;
    for byte in bytes {
        count += gives(at, *byte);
        at = after(at, *byte);
    }
    count
}
