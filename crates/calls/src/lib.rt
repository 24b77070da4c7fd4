#![tactic(auto)]

// Body walks, call summaries and the edges of the doubled graph, kept in the work area.

// The states of a body and of a call, as a word of the work area has them: a word that is zero has none yet. An open body is being walked: whoever calls it then lies on a
// cycle of calls with it. Transparent is what is not opaque; the paper has no word of its own for it.
#[derive(Clone, Copy, Debug, PartialEq, Eq)]
pub enum SummaryState {
    Unentered = 0,
    Open = 1,
    Transparent = 2,
    Opaque = 3,
}

pub mod edges;
pub mod leaders;
pub mod orders;
pub mod returns;
mod rows;
pub mod summary;
pub mod walk;
