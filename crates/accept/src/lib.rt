// The acceptor of masks worked out elsewhere: a proposed table, a mask byte for each doubled number and array, is accepted or not. Its bytes become the solver's rows of masks, and each row
// that is not all zero goes along its edges once: the table is accepted where nothing grows.
#![tactic(auto)]

pub mod bytes;
pub mod door;
pub mod rows;
pub mod table;
