// The queue of waiting numbers, a ring in the work area, with a state for each number that says whether it waits. It serves both solvers, so its numbers
// are bare: `nodes` and `stmts` say what they stand for.
ghost use Rattle.std.specs.Prelude.{List, ℕ, ◌*◌, ◌<◌, ◌≤◌, length};
ghost use Rattle.solve.specs.Clauses.Layout.{nodes_end};
ghost use Rattle.solve.specs.Clauses.Waiting.{Waits, Enqueued, Taken, unsettled};

use crate::layout::Layout;
use crate::state::State;
use crate::{Queue, wrap};

// d, whose masks may have grown, joins the back unless it waits. It is stored at the free place behind the last in either case, since a branch on what waits would often be mispredicted;
// and its state is stored once, for what grew and for what waits.
pub fn enqueue(work: &mut [u64], layout: Layout, queue: Queue, d: usize, grew: bool) -> Queue
    requires { (nodes_end layout.n layout.width ≤ length work.old) × (d < 2 * layout.n) × ((l : List ℕ) × Waits work.old layout.n layout.width queue l) }
    ensures { Enqueued (unsettled grew work.old layout.n layout.width d) work.new layout.n layout.width queue d result }
{
    let at = layout.state(d);
    let old = State(work[at]);
    work[layout.queue() + wrap(queue.head + queue.len, 3 * layout.n)] = d as u64;
    work[at] = old.joined(grew).0;
    Queue {
        head: queue.head,
        len: queue.len + usize::from(!old.is_waiting()),
    }
}

// The front, which waits no more.
pub fn take(work: &mut [u64], layout: Layout, queue: Queue) -> usize
    requires { (nodes_end layout.n layout.width ≤ length work.old) × (0 < queue.len) × ((l : List ℕ) × Waits work.old layout.n layout.width queue l) }
    ensures { Taken work.old work.new layout.n layout.width queue result }
{
    let d = work[layout.queue() + queue.head] as usize;
    let at = layout.state(d);
    work[at] = State(work[at]).taken().0;
    d
}
