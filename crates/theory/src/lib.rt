#![tactic(auto)]

// Document 01 as definitions, and its three terms as theorems of them. This crate has no code: its definitions
// stand in specs/, in the paper's order, and its theorems in proofs/.
