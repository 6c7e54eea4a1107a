// Short values.
ghost use Rattle.std.specs.Prelude.{◌≡◌, ◌++◌, ◌<◌, ◌^◌, [], codes, decimal, false, if◌then◌else◌};
ghost use Rattle.std.specs.Fmt.{signed_decimal};
ghost use Rattle.wasm_output.specs.Fields.{flag_text};
ghost use Rattle.wasm_output.specs.Json.{Leads};
ghost use Rattle.wasm_output.specs.Tree.{has_line_feed};
ghost use Rattle.wasm_output.specs.declared.objects.Spot.TheVariants.{AtValue, Ended};

use wasm_io::{Base, ShortText, write_number, write_offset, write_word};

/// `true` or `false`, in lines and in JSON.
pub(crate) fn flag_word(flag: bool) -> &'static str
    ensures word { result.now ≡ flag_text flag }
    ensures leads { Leads AtValue result.now Ended }
    ensures one_line { has_line_feed result.now ≡ false }
{
    if flag { "true" } else { "false" }
}

/// A number, with its sign if it is below 0.
#[derive(Drop)]
pub(crate) struct Signed {
    is_negative: bool,
    digits: u64,
}

/// This number.
pub(crate) fn signed_of(number: i64) -> Signed
    ensures digits { result.digits < 2 ^ 64 }
    ensures text { (if result.is_negative then codes "-" else []) ++ decimal result.digits
        ≡ signed_decimal number }
{
    Signed {
        is_negative: number < 0,
        digits: number.unsigned_abs(),
    }
}

impl ShortText for Signed {
    ghost use Rattle.std.specs.Prelude.{◌++◌, codes, decimal, if◌then◌else◌, []};

    ghost text = { λ n. (if n.is_negative then codes "-" else []) ++ decimal n.digits };

    fn write_at(&self, bytes: &mut [u8], at: usize) -> usize {
        let sign = if self.is_negative { "-" } else { "" };
        let at = write_word(bytes, at, sign);
        write_number(bytes, at, self.digits)
    }
}

/// An offset, in this base.
#[derive(Drop)]
pub(crate) struct Offset {
    pub(crate) base: Base,
    pub(crate) offset: u64,
}

impl ShortText for Offset {
    ghost use Rattle.wasm_io.specs.Offsets.{offset_text};

    ghost text = { λ n. offset_text n.base n.offset };

    #[inline(always)]
    fn write_at(&self, bytes: &mut [u8], at: usize) -> usize {
        write_offset(bytes, at, self.base, self.offset)
    }
}

/// An array of two numbers in JSON.
#[derive(Drop)]
pub(crate) struct Two {
    pub(crate) first: u64,
    pub(crate) second: u64,
}

impl ShortText for Two {
    ghost use Rattle.std.specs.Prelude.{◌++◌, codes, decimal};

    ghost text = { λ n. codes "["
        ++ (decimal n.first ++ (codes "," ++ (decimal n.second ++ codes "]"))) };

    fn write_at(&self, bytes: &mut [u8], at: usize) -> usize {
        let at = write_word(bytes, at, "[");
        let at = write_number(bytes, at, self.first);
        let at = write_word(bytes, at, ",");
        let at = write_number(bytes, at, self.second);
        write_word(bytes, at, "]")
    }
}
