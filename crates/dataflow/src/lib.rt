// `array_states`, live names, names certainly written and names that get in each other's way: the answers to a flow file.
#![tactic(auto)]

pub mod arrays;
pub mod boundary;
pub mod call;
pub mod conflicts;
pub mod door;
pub mod names;
pub mod transfer;
pub mod write;
