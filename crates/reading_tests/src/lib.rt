//! Tests of what reads numbers, items and custom sections: `wasm_base`, `wasm_items` and `wasm_custom`, by what they export.
#![tactic(auto)]

#[cfg(test)]
mod tests;
