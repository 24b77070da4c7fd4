// A row of masks is pushed to a doubled number: the union of what was pushed so far is what the queue rule would pull.
ghost use Rattle.std.specs.Prelude.{ℕ, ◌+◌, ◌*◌, ◌<◌, ◌≤◌, List, length};
ghost use Rattle.solve.specs.Clauses.Layout.{nodes_end};
ghost use Rattle.solve.specs.Clauses.Waiting.{Waits};
ghost use Rattle.solve.specs.Clauses.Pushed.{Source, Grown, Pushed};

use crate::layout::Layout;
use crate::state::State;
use crate::{Queue, ring};
use flow::NodeId;

// The row at `from` is joined to the masks of d, and d waits afterwards.
pub fn push(work: &mut [u64], layout: Layout, queue: Queue, from: usize, d: NodeId) -> Queue
    requires { (nodes_end layout.n layout.width ≤ length work.old) × (d.0 < 2 * layout.n) × Source layout.n layout.width from × ((l : List ℕ) × Waits work.old layout.n layout.width queue l) }
    ensures { Pushed work.old work.new layout.n layout.width queue from d.0 result }
{
    let grew = words::union(work, layout.mask_row(d), from, 3 * layout.width);
    ring::enqueue(work, layout, queue, d.0, grew)
}

// The row at `from` is joined to the masks of d, which does not wait for it.
pub fn grow(work: &mut [u64], layout: Layout, from: usize, d: NodeId)
    requires { (nodes_end layout.n layout.width ≤ length work.old) × (d.0 < 2 * layout.n) × Source layout.n layout.width from }
    ensures { Grown work.old work.new layout.n layout.width from d.0 }
{
    if words::union(work, layout.mask_row(d), from, 3 * layout.width) {
        let at = layout.state(d.0);
        work[at] = State(work[at]).grown().0;
    }
}
