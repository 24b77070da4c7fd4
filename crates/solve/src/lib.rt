// The worklist, and what a solver's step does with it, over rows of sets in the work area. It knows nothing of
// flow files: a row is pushed along an edge to a doubled number.
#![tactic(auto)]

ghost use Rattle.std.specs.Prelude.{◌≡◌, ◌*◌, ◌<◌, ◌≤◌};
ghost use Rattle.solve.specs.Clauses.Waiting.{wrapped, ring_words, rest_of};

pub mod layout;
pub mod nodes;
pub mod push;
mod ring;
pub mod rows;
mod state;
pub mod stmts;

use statements::layout::Layout;

// The waiting numbers: where the front stands in the queue's words, and how many wait.
#[derive(Clone, Copy)]
pub struct Queue {
    pub head: usize,
    pub len: usize,
}

fn wrap(i: usize, capacity: usize) -> usize
    ensures { result ≡ wrapped capacity i }
{
    if i < capacity { i } else { i - capacity }
}

// What waits behind the front.
pub fn rest(layout: Layout, queue: Queue) -> Queue
    requires { (0 < queue.len) × (queue.head < ring_words layout.n) }
    ensures { result ≡ rest_of layout.n queue }
{
    Queue {
        head: wrap(queue.head + 1, 3 * layout.n),
        len: queue.len - 1,
    }
}
