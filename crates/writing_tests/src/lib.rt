//! Tests of what writes numbers, names, items and sections: `wasm_encode`, by what it exports.
#![tactic(auto)]

#[cfg(test)]
mod tests;
