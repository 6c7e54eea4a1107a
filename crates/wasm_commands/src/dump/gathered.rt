// A buffer of text with the escape sequences of its colors.
ghost use Rattle.std.specs.Prelude.{◌≡◌, ◌≢◌, ◌≤◌, ◌+◌, ◌++◌, [], length};
ghost use Rattle.wasm_commands.specs.Colors.{GainsByte, IsColored, without_colors};

use super::inks::{Ink, Spot, sequence};
use super::plain::ESC;

/// The capacity of the buffer, in bytes.
const ROOM: usize = 4096;

/// Text with escape sequences, to be written at once.
pub(super) type Gathered = wasm_output::Gathered<ROOM>;

// Appends a byte, after a sequence for its color if that differs from the color of the byte before it.
fn put_byte(gathered: &mut Gathered, last: Ink, ink: Ink, byte: u8)
    requires room { length gathered.old ≤ 4088 }
    requires no_escape { byte ≢ 27 }
    ensures { GainsByte byte gathered.old gathered.new }
{
    if ink != last {
        gathered.put(sequence(ink));
    }
    gathered.put(&[byte]);
}

/// What was gathered of a text.
#[derive(Drop)]
pub(super) struct Run {
    /// The text with its colors.
    pub(super) text: Gathered,
    /// Its length without them.
    pub(super) count: usize,
    /// The position after it.
    pub(super) spot: Spot,
}

/// Gathers the first byte of a text and a prefix of the rest, with sequences for the colors of all bytes but the first.
/// Stops before an ESC, or when the buffer is full.
pub(super) fn gather(spot: Spot, first: u8, later: &[u8]) -> Run
    requires { first ≢ 27 }
    ensures colored { IsColored first later.now result.text }
    ensures count { result.count ≡ length (without_colors result.text) }
{
    let mut run = Run {
        text: Gathered::new(),
        count: 1,
        spot: spot.after(first),
    };
    run.text.put(&[first]);
    for byte in later {
        if *byte == ESC || run.text.len() > ROOM - 8 {
            return run;
        }
        let next = run.spot.after(*byte);
        put_byte(&mut run.text, run.spot.ink(), next.ink(), *byte);
        run.spot = next;
        run.count += 1;
    }
    run
}
