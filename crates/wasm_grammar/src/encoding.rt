// What a header announces.
/// The encoding that a header announces: a core module or a component.
///
/// (Core specification, Binary format, Modules; the component's header is defined by the component model.)
#[derive(Clone, Copy, Debug, PartialEq, Eq)]
pub enum Encoding {
    /// A core module: version 1, kind 0.
    Module,
    /// A component: version 13, kind 1. Its sections are not decoded, except custom sections.
    Component,
}
