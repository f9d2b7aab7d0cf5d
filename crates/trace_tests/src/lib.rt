//! Tests of `trace_text` and `llfree_trace` that no run of the program reaches.
#![tactic(auto)]

#[cfg(test)]
mod tests;
