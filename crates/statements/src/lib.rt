// The statements of a checked flow by their numbers, over the file and the places noted in the work area. Everything
// above this crate speaks of the flow, and never of bytes.
#![tactic(auto)]

pub mod doubled;
pub mod fields;
pub mod layout;
pub mod uses;
