// The queue of the forward solver: doubled numbers wait.
ghost use Rattle.std.specs.Prelude.{List, ◌≡◌, ℕ, ◌+◌, ◌*◌, ◌<◌, ◌≤◌, eqb, length, set};
ghost use Rattle.solve.specs.Clauses.Layout.{state_at, waits_in, settled_in, nodes_end};
ghost use Rattle.solve.specs.Clauses.Waiting.{Waits, Enqueued, Taken};

use crate::layout::Layout;
use crate::state::State;
use crate::{Queue, ring};
use flow::NodeId;

// d joins the back unless it waits.
pub fn enqueue(work: &mut [u64], layout: Layout, queue: Queue, d: NodeId) -> Queue
    requires { (nodes_end layout.n layout.width ≤ length work.old) × (d.0 < 2 * layout.n) × ((l : List ℕ) × Waits work.old layout.n layout.width queue l) }
    ensures { Enqueued work.old work.new layout.n layout.width queue d.0 result }
{
    ring::enqueue(work, layout, queue, d.0, false)
}

// The front, which waits no more.
pub fn take(work: &mut [u64], layout: Layout, queue: Queue) -> NodeId
    requires { (nodes_end layout.n layout.width ≤ length work.old) × (0 < queue.len) × ((l : List ℕ) × Waits work.old layout.n layout.width queue l) }
    ensures { Taken work.old work.new layout.n layout.width queue result.0 }
{
    NodeId(ring::take(work, layout, queue))
}

pub fn waits(work: &[u64], layout: Layout, d: NodeId) -> bool
    requires { (nodes_end layout.n layout.width ≤ length work.now) × (d.0 < 2 * layout.n) }
    ensures { result ≡ eqb (waits_in work.now layout.n layout.width d.0) 1 }
{
    State(work[layout.state(d.0)]).is_waiting()
}

// Whether d was visited, and its masks have not grown since.
pub fn settled(work: &[u64], layout: Layout, d: NodeId) -> bool
    requires { (nodes_end layout.n layout.width ≤ length work.now) × (d.0 < 2 * layout.n) }
    ensures { result ≡ eqb (settled_in work.now layout.n layout.width d.0) 1 }
{
    State(work[layout.state(d.0)]).is_settled()
}

// The same as `enqueue`, for numbers of which most wait: nothing is written then.
pub fn join(work: &mut [u64], layout: Layout, queue: Queue, d: NodeId) -> Queue
    requires { (nodes_end layout.n layout.width ≤ length work.old) × (d.0 < 2 * layout.n) × ((l : List ℕ) × Waits work.old layout.n layout.width queue l) }
    ensures { Enqueued work.old work.new layout.n layout.width queue d.0 result }
{
    if waits(work, layout, d) {
        return queue;
    }
    enqueue(work, layout, queue, d)
}

// d is settled by its visit. Says whether it was before.
pub fn settle(work: &mut [u64], layout: Layout, d: NodeId) -> bool
    requires { (nodes_end layout.n layout.width ≤ length work.old) × (d.0 < 2 * layout.n) }
    ensures value { result ≡ eqb (settled_in work.old layout.n layout.width d.0) 1 }
    ensures work_after { work.new ≡ set work.old (state_at layout.n layout.width d.0) (waits_in work.old layout.n layout.width d.0 + 2) }
{
    let at = layout.state(d.0);
    let old = State(work[at]);
    work[at] = old.visited().0;
    old.is_settled()
}
