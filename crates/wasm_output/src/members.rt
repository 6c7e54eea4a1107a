// Parts of JSON objects that are put at once.
ghost use Rattle.std.specs.Prelude.{◌≡◌, ◌≤◌, ◌+◌, ◌++◌, length, take};
ghost use Rattle.wasm_output.specs.Json.{member_start, name_start, object_end};

use crate::numbers::{Space, write_space};
use crate::objects::Spot;
use crate::padded::{Padded, write_padded};
use crate::plain::Plain;
use wasm_io::{ShortText, write_number, write_word};

/// What leads into the name of the next member.
#[inline(always)]
pub(crate) fn name_start_of(spot: Spot) -> Padded
    ensures { result ≡ name_start spot }
{
    match spot {
        Spot::Outside => Padded::of("{\"      ", 2),
        Spot::Ended => Padded::of(",\"      ", 2),
        Spot::InName => Padded::of("\":null,\"", 8),
        Spot::AtValue => Padded::of("null,\"  ", 6),
        Spot::InText => Padded::of("\",\"     ", 3),
    }
}

/// What ends the line.
#[inline(always)]
pub(crate) fn object_end_of(spot: Spot) -> Padded
    ensures { result ≡ object_end spot }
{
    match spot {
        Spot::Outside => Padded::of("        ", 0),
        Spot::Ended => Padded::of("}\n      ", 2),
        Spot::InName => Padded::of("\":null}\n", 8),
        Spot::AtValue => Padded::of("null}\n  ", 6),
        Spot::InText => Padded::of("\"}\n     ", 3),
    }
}

// Writes the name of a member, up to its value.
#[inline(always)]
fn write_member_start(bytes: &mut [u8], at: usize, spot: Spot, name: &str) -> usize
    requires { at + (10 + length name.now) ≤ length bytes.old }
    ensures short { result ≤ at + (10 + length name.now) }
    ensures written { take result bytes.new ≡ take at bytes.old ++ member_start spot name.now }
{
    let at = write_padded(bytes, at, &name_start_of(spot));
    let at = write_word(bytes, at, name);
    write_word(bytes, at, "\":")
}

/// The name of a member, up to its value.
#[derive(Drop)]
pub(crate) struct MemberStart<'a> {
    pub(crate) spot: Spot,
    pub(crate) name: Plain<'a>,
}

impl ShortText for MemberStart<'_> {
    ghost use Rattle.wasm_output.specs.Json.{member_start};

    ghost text = { λ m. member_start m.spot m.name };

    #[inline(always)]
    fn write_at(&self, bytes: &mut [u8], at: usize) -> usize {
        write_member_start(bytes, at, self.spot, self.name.as_str())
    }
}

/// A member whose value is a number.
#[derive(Drop)]
pub(crate) struct NumberMember<'a> {
    pub(crate) spot: Spot,
    pub(crate) name: Plain<'a>,
    pub(crate) number: u64,
}

impl ShortText for NumberMember<'_> {
    ghost use Rattle.std.specs.Prelude.{◌++◌, decimal};
    ghost use Rattle.wasm_output.specs.Json.{member_start};

    ghost text = { λ m. member_start m.spot m.name ++ decimal m.number };

    #[inline(always)]
    fn write_at(&self, bytes: &mut [u8], at: usize) -> usize {
        let at = write_member_start(bytes, at, self.spot, self.name.as_str());
        write_number(bytes, at, self.number)
    }
}

/// The start of a string.
#[derive(Drop)]
pub(crate) struct TextStart<'a> {
    pub(crate) text: Plain<'a>,
}

impl ShortText for TextStart<'_> {
    ghost use Rattle.std.specs.Prelude.{◌++◌, codes};

    ghost text = { λ t. codes "\"" ++ t.text };

    #[inline(always)]
    fn write_at(&self, bytes: &mut [u8], at: usize) -> usize {
        let at = write_word(bytes, at, "\"");
        write_word(bytes, at, self.text.as_str())
    }
}

/// The end of a line and the start of the object of an item: its level and its offset.
#[derive(Drop)]
pub(crate) struct ItemStart {
    pub(crate) spot: Spot,
    pub(crate) level: u64,
    pub(crate) offset: u64,
}

impl ShortText for ItemStart {
    ghost use Rattle.wasm_output.specs.Json.{item_start};

    ghost text = { λ s. item_start s.spot s.level s.offset };

    fn write_at(&self, bytes: &mut [u8], at: usize) -> usize {
        let at = write_padded(bytes, at, &object_end_of(self.spot));
        let at = write_word(bytes, at, "{\"level\":");
        let at = write_number(bytes, at, self.level);
        let at = write_word(bytes, at, ",\"at\":");
        write_number(bytes, at, self.offset)
    }
}

/// The members for the number of an item: its index space and its index.
#[derive(Drop)]
pub(crate) struct NumberMembers {
    pub(crate) spot: Spot,
    pub(crate) space: Space,
    pub(crate) index: u64,
}

impl ShortText for NumberMembers {
    ghost use Rattle.wasm_output.specs.Json.{number_members};

    ghost text = { λ m. number_members m.spot m.space m.index };

    fn write_at(&self, bytes: &mut [u8], at: usize) -> usize {
        let at = write_padded(bytes, at, &name_start_of(self.spot));
        let at = write_word(bytes, at, "space\":\"");
        let at = write_space(bytes, at, self.space);
        let at = write_word(bytes, at, "\",\"number\":");
        write_number(bytes, at, self.index)
    }
}
