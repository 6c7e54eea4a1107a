// What was read can be copied.
ghost use Rattle.wasm_encode.specs.Copied.{TypesAreCopied};

/// Copying the bytes of a type, of what an import is or of a constant expression that was read writes it, also if they
/// are more than it takes. Does nothing.
///
/// Readers with the same features read the copy as the same, wherever it is.
pub fn types_are_copied()
    // Proved: the bytes of a type, of what an import is or of a constant expression that was read, shortest or not, are
    //   read as the same wherever they are copied to, by readers with the same features
    ensures { TypesAreCopied }
{}
