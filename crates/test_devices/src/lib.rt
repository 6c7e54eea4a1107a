//! Test doubles: an allocator that runs out, and a source that records the sizes of the buffers that it is passed. No library and no
//! program uses them.
#![tactic(auto)]

mod heap;
mod measuring;

pub use heap::Sparing;
pub use measuring::Measuring;
