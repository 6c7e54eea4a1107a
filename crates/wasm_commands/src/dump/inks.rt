// The colors of a dump: a state machine over the bytes of its lines.
ghost use Rattle.std.specs.Prelude.{◌≡◌, ◌≤◌, length};
ghost use Rattle.wasm_commands.specs.Colors.{IsSequence};

/// The position in a line of a dump. The first word of a line is bold, or its offset dim. Quoted texts are green, and the
/// message of a fault is red.
#[derive(Clone, Copy)]
pub(super) enum Spot {
    /// At the start of a line.
    Start,
    /// In the indentation.
    Indent,
    /// In the first word of a line.
    Word,
    /// After an initial `f` of that word.
    LetterF,
    /// In the word `fault`: no other first word begins with `fa`.
    FaultWord,
    /// In the offset at the start of an item's line.
    Offset,
    /// In the message of a fault.
    Fault,
    /// In the fields.
    Fields,
    /// In a quoted text.
    Quoted,
    /// At the closing quote of a text.
    Closed,
}

/// A color of text.
#[derive(Clone, Copy, PartialEq, Eq)]
pub(super) enum Ink {
    /// The terminal's own color.
    Plain,
    Bold,
    Dim,
    Green,
    Red,
}

impl Spot {
    /// Returns the position after this byte.
    pub(super) fn after(self, byte: u8) -> Spot
        ensures { byte ≡ 10 → result ≡ Spot.Start }
    {
        if byte == b'\n' {
            return Spot::Start;
        }
        match self {
            Spot::Start | Spot::Indent => after_blank(byte),
            Spot::Word => after_word(byte),
            Spot::LetterF => after_f(byte),
            Spot::FaultWord => after_fault_word(byte),
            Spot::Offset => after_offset(byte),
            Spot::Fault => Spot::Fault,
            Spot::Quoted => after_quoted(byte),
            Spot::Fields | Spot::Closed => after_field(byte),
        }
    }

    /// Returns the color of the byte that led to this position.
    pub(super) fn ink(self) -> Ink
        ensures { self ≡ Spot.Start → result ≡ Ink.Plain }
    {
        match self {
            Spot::Start | Spot::Indent | Spot::Fields => Ink::Plain,
            Spot::Word | Spot::LetterF | Spot::FaultWord => Ink::Bold,
            Spot::Offset => Ink::Dim,
            Spot::Fault => Ink::Red,
            Spot::Quoted | Spot::Closed => Ink::Green,
        }
    }
}

// The position after the first byte of a line, or after a byte that follows the indentation.
fn after_blank(byte: u8) -> Spot {
    match byte {
        b' ' => Spot::Indent,
        b'f' => Spot::LetterF,
        b'0'..=b'9' => Spot::Offset,
        _ => Spot::Word,
    }
}

fn after_word(byte: u8) -> Spot {
    match byte {
        b' ' | b'=' => Spot::Fields,
        _ => Spot::Word,
    }
}

fn after_f(byte: u8) -> Spot {
    match byte {
        b'a' => Spot::FaultWord,
        _ => after_word(byte),
    }
}

fn after_fault_word(byte: u8) -> Spot {
    match byte {
        b' ' => Spot::Fault,
        _ => Spot::FaultWord,
    }
}

// An offset is decimal, or hexadecimal with `0x` before its digits.
fn after_offset(byte: u8) -> Spot {
    match byte {
        b'0'..=b'9' | b'a'..=b'f' | b'x' => Spot::Offset,
        _ => Spot::Fields,
    }
}

fn after_quoted(byte: u8) -> Spot {
    match byte {
        b'"' => Spot::Closed,
        _ => Spot::Quoted,
    }
}

fn after_field(byte: u8) -> Spot {
    match byte {
        b'"' => Spot::Quoted,
        _ => Spot::Fields,
    }
}

/// Returns the escape sequence that sets a color.
pub(super) fn sequence(ink: Ink) -> &'static [u8]
    ensures sets { IsSequence result.now }
    ensures short { length result.now ≤ 7 }
{
    match ink {
        Ink::Plain => b"\x1b[0m",
        Ink::Bold => b"\x1b[0;1m",
        Ink::Dim => b"\x1b[0;2m",
        Ink::Green => b"\x1b[0;32m",
        Ink::Red => b"\x1b[0;31m",
    }
}
