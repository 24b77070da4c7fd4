// The queue of the live names: statements wait, in words of numbers without masks.
ghost use Rattle.std.specs.Prelude.{List, ℕ, ◌*◌, ◌<◌, ◌≤◌, length};
ghost use Rattle.solve.specs.Clauses.Layout.{nodes_end};
ghost use Rattle.solve.specs.Clauses.Waiting.{Waits, Enqueued, Taken};

use crate::{Queue, layout, ring};
use flow::StmtId;
use statements::layout::Layout;

// i joins the back unless it waits.
pub fn enqueue(work: &mut [u64], layout: Layout, queue: Queue, i: StmtId) -> Queue
    requires { (nodes_end layout.n 0 ≤ length work.old) × (i.0 < 2 * layout.n) × ((w : List ℕ) × Waits work.old layout.n 0 queue w) }
    ensures { Enqueued work.old work.new layout.n 0 queue i.0 result }
{
    let numbers = layout::Layout {
        n: layout.n,
        width: 0,
    };
    ring::enqueue(work, numbers, queue, i.0, false)
}

// The front, which waits no more.
pub fn take(work: &mut [u64], layout: Layout, queue: Queue) -> StmtId
    requires { (nodes_end layout.n 0 ≤ length work.old) × (0 < queue.len) × ((w : List ℕ) × Waits work.old layout.n 0 queue w) }
    ensures { Taken work.old work.new layout.n 0 queue result.0 }
{
    let numbers = layout::Layout {
        n: layout.n,
        width: 0,
    };
    StmtId(ring::take(work, numbers, queue))
}
