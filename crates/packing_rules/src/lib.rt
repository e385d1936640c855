// The rules of packing and the theorems about them. This crate has no code.
#![tactic(auto)]
