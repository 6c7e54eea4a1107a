// The version of the library.
ghost use Rattle.std.specs.Prelude.{◌≡◌};

/// Returns the version of the linked library: the major version times 65,536, plus the minor version times 256, plus
/// the patch.
///
/// Compare it with `PULLEYNAVY_VERSION_NUMBER`, the version of the header.
///
/// ```c
/// assert(pulleynavy_version() == PULLEYNAVY_VERSION_NUMBER);
/// ```
#[unsafe(no_mangle)]
pub extern "C" fn pulleynavy_version() -> u32
    // Proved: `pulleynavy_version` returns the version of the library as a number; that it is that
    //   of the header is only tested
    ensures { result ≡ 4096 }
{
    4096
}
