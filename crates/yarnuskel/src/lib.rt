// The doors of the library for other languages: each says the answer of a proved call as numbers, and does nothing else.
#![tactic(auto)]

pub mod check;
pub mod conflicts;
pub mod names;
pub mod proposals;
pub mod states;
mod tell;
