//! Tests of what reads streams: the parser, chunked input, the listing, stripping, and the examples, by what they export.
#![tactic(auto)]

#[cfg(test)]
mod tests;
