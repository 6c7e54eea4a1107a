// Floats, as the bits that are written.
ghost use Rattle.std.specs.Prelude.{◌≡◌};
ghost use Rattle.wasm_base.specs.Float.{bits_of_32, bits_of_64};

/// A 32-bit float, as its bits (core specification, Binary format, Values, Floating-Point).
#[derive(Clone, Copy, Debug, PartialEq, Eq, Hash)]
pub struct Ieee32(pub(crate) u32);

impl Ieee32 {
    /// Returns the bits of the float in the layout of IEEE 754. They keep the payload of a NaN.
    pub fn bits(self) -> u32
        ensures { result ≡ bits_of_32 self }
    {
        self.0
    }
}

/// A 64-bit float, as its bits (core specification, Binary format, Values, Floating-Point).
#[derive(Clone, Copy, Debug, PartialEq, Eq, Hash)]
pub struct Ieee64(pub(crate) u64);

impl Ieee64 {
    /// Returns the bits of the float in the layout of IEEE 754. They keep the payload of a NaN.
    pub fn bits(self) -> u64
        ensures { result ≡ bits_of_64 self }
    {
        self.0
    }
}
