// The bytes that begin a stream.

/// The eight bytes that begin a core module: the magic, version 1 and kind 0.
pub const CORE_HEADER: [u8; 8] = *b"\0asm\x01\0\0\0";

/// The eight bytes that begin a component: the magic, version 13 and kind 1.
pub const COMPONENT_HEADER: [u8; 8] = *b"\0asm\x0d\0\x01\0";
