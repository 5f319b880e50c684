//! Callers of `dary_heap_uses` that are proved. They stand apart from `dary_heap_tests`, which needn't wait for the
//! proof of that crate.
#![tactic(auto)]

#[cfg(test)]
mod preconditions;
