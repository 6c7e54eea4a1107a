//! Tests of both programs over devices, and of the text of a dump.
#![tactic(auto)]

#[cfg(test)]
mod tests;
