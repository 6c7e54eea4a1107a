// Whether items can be written one after the other.
ghost use Rattle.std.specs.Prelude.{◌<◌, ◌≤◌, ◌^◌, ◌↔◌, IsTrue};
ghost use Rattle.wasm_encode.specs.Fitting.{ItemsFit};

use crate::encode::Encode;

/// Returns whether each item fits, and they have fewer bytes than a bound with this many before them.
pub(crate) fn items_fit<T: Encode>(items: &[T], before: usize, bound: usize) -> bool
    requires few { before ≤ 10 }
    requires some { 10 < bound }
    requires most { bound ≤ 2 ^ 32 }
    ensures { IsTrue result ↔ ItemsFit before bound T.encoded T.is_encodable items.now }
{
    let mut size = before;
    'items: for item in items {
        if !item.fits() {
            return false;
        }
        size += item.encoded_len();
        if size >= bound {
            return false;
        }
    }
    true
}
