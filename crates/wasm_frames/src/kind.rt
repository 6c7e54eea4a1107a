// The kinds of frames.
/// What a frame is.
///
/// (Core specification, Binary format, Modules.)
#[derive(Clone, Copy, Debug, PartialEq, Eq)]
pub enum FrameKind {
    /// The header.
    Header,
    /// A section that is a count and its items.
    Items,
    /// The start section.
    Start,
    /// The data count section.
    DataCount,
    /// The start of a code section.
    CodeStart,
    /// A body of a code section.
    Body,
    /// A custom section.
    Custom,
    /// A section with an unknown id, or any section of a component except a custom one.
    Unknown,
    /// The end of the stream.
    End,
}
