// The messages of MT515 records: how long they are at most, and worked cases. This crate has no code: what is right stands in specs/, and
// proofs/ proves it.
#![tactic(auto)]
