// Live names, backward over the listed graph: by sweeps, and where these do not settle, by a worklist that pushes what is live at a statement's start
// to its predecessors.
#![tactic(auto)]

ghost use Rattle.std.specs.Prelude.{List, [], ◌≡◌, ℕ, ◌-◌, ◌<◌, ◌≤◌, length};
ghost use Rattle.flow.specs.Format.{flow_of};
ghost use Rattle.words.specs.Clauses.Change.{zeroed};
ghost use Rattle.statements.specs.Clauses.Layout.{matrix_at, lists_at, queue_at};
ghost use Rattle.statements.specs.Clauses.Ready.{Ready};
ghost use Rattle.solve.specs.Clauses.Layout.{nodes_end};
ghost use Rattle.solve.specs.Clauses.Waiting.{Waits};
ghost use Rattle.live.specs.Clauses.Predecessors.{Column, Noted, Predecessors};
ghost use Rattle.live.specs.Clauses.Spread.{PushedTo, PushedLive};
ghost use Rattle.live.specs.Clauses.Solving.{Sound, Held, Visited};
ghost use Rattle.live.specs.Clauses.Sweeping.{SettledOrWaits};
ghost use Rattle.live.specs.Clauses.LiveNames.{LiveStart, Begun, LiveNames};

use flow::StmtId;
use solve::{Queue, stmts};
use statements::fields;
use statements::layout::Layout;

mod sweep;

// Row j of the matrix gets i as a predecessor, for each successor j of i.
fn note_predecessors(file: &[u8], work: &mut [u64], layout: Layout, i: StmtId)
    requires { Ready file.now work.old layout.n × (i.0 < layout.n) × Column work.old layout.n i.0 [] }
    ensures { Noted (flow_of file.now) work.old work.new layout.n i.0 }
{
    let count = fields::successor_count(file, work, layout.n, i);
    for k in 0..count {
        let j = fields::successor(file, work, layout.n, i, k);
        words::insert(work, layout.row(j), i.0);
    }
}

// A set joined to the live-out of i; if that grew, i waits.
fn push_to(
    work: &mut [u64],
    live_out: &mut [u64],
    layout: Layout,
    queue: Queue,
    i: StmtId,
    live: u64,
) -> Queue
    requires { (nodes_end layout.n 0 ≤ length work.old) × (layout.n ≤ length live_out.old) × (i.0 < layout.n) × ((w : List ℕ) × Waits work.old layout.n 0 queue w) }
    ensures { PushedTo work.old work.new live_out.old live_out.new layout.n queue result i.0 live }
{
    if words::union_word(live_out, i.0, live) {
        return stmts::enqueue(work, layout, queue, i);
    }
    queue
}

// What is live at j's start is live after each predecessor.
fn push_live(
    work: &mut [u64],
    live_out: &mut [u64],
    layout: Layout,
    start: Queue,
    j: StmtId,
    live: u64,
) -> Queue
    requires { (nodes_end layout.n 0 ≤ length work.old) × (layout.n ≤ length live_out.old) × (j.0 < layout.n) × ((w : List ℕ) × Waits work.old layout.n 0 start w) }
    ensures { PushedLive work.old work.new live_out.old live_out.new layout.n start result j.0 live }
{
    let row = layout.row(j);
    let mut queue = start;
    let mut from = 0;
    while let Some(i) = words::next(work, row, from, layout.n) {
        queue = push_to(work, live_out, layout, queue, StmtId(i), live);
        from = i + 1;
    }
    queue
}

// The front is taken: its live-in follows from its live-out, and goes to its predecessors.
fn visit(
    file: &[u8],
    work: &mut [u64],
    live_in: &mut [u64],
    live_out: &mut [u64],
    layout: Layout,
    r: Queue,
) -> Queue
    requires { Ready file.now work.old layout.n × (layout.n ≤ length live_in.old) × (layout.n ≤ length live_out.old) × Predecessors (flow_of file.now) work.old layout.n × Held (flow_of file.now) 0 layout.n work.old live_in.old live_out.old r × (0 < r.len) }
    ensures { Visited (flow_of file.now) layout.n work.old work.new live_in.old live_in.new live_out.old live_out.new r result }
{
    let j = stmts::take(work, layout, r);
    let queue = solve::rest(layout, r);
    let reads = fields::read(file, work, layout.n, j);
    let writes = fields::written(file, work, layout.n, j);
    let at = j.0;
    let live = reads | words::difference(live_out[at], writes);
    live_in[at] = live;
    push_live(work, live_out, layout, queue, j, live)
}

// The words that the worklist counts on: the matrix, and behind the lists of calls the queue and those of the numbers that wait.
fn clear(work: &mut [u64], layout: Layout)
    requires { nodes_end layout.n 0 ≤ length work.old }
    ensures { work.new ≡ zeroed (zeroed work.old (matrix_at layout.n) (lists_at layout.n - matrix_at layout.n)) (queue_at layout.n) (nodes_end layout.n 0 - queue_at layout.n) }
{
    let matrix = layout.matrix();
    words::zero_row(work, matrix, layout.lists() - matrix);
    let queue = layout.queue();
    let numbers = solve::layout::Layout {
        n: layout.n,
        width: 0,
    };
    words::zero_row(work, queue, numbers.nodes_end() - queue);
}

// Statement i is settled; if its live-in changed, it waits.
fn settle_or_wait(
    file: &[u8],
    work: &mut [u64],
    live_in: &mut [u64],
    live_out: &mut [u64],
    layout: Layout,
    waiting: Queue,
    i: StmtId,
) -> Queue
    requires { LiveStart file.now work.old live_in.old live_out.old layout.n × (i.0 < layout.n) × ((w : List ℕ) × Waits work.old layout.n 0 waiting w) }
    ensures { SettledOrWaits (flow_of file.now) layout.n work.old work.new live_in.old live_in.new live_out.old live_out.new waiting result i.0 }
{
    if sweep::settle(file, work, live_in, live_out, layout.n, i) {
        return stmts::enqueue(work, layout, waiting, i);
    }
    waiting
}

// One more sweep, which notes the predecessors: the statements whose live-in changes wait, since the others have handed theirs on.
fn begin(
    file: &[u8],
    work: &mut [u64],
    live_in: &mut [u64],
    live_out: &mut [u64],
    layout: Layout,
) -> Queue
    requires { LiveStart file.now work.old live_in.old live_out.old layout.n × Sound (flow_of file.now) layout.n live_in.old }
    ensures { Begun (flow_of file.now) layout.n work.old work.new live_in.old live_in.new live_out.old live_out.new result }
{
    clear(work, layout);
    let mut queue = Queue { head: 0, len: 0 };
    for i in (0..layout.n).rev() {
        note_predecessors(file, work, layout, StmtId(i));
        queue = settle_or_wait(file, work, live_in, live_out, layout, queue, StmtId(i));
    }
    queue
}

// Word i of live_in and of live_out is the set of names that are live before and after statement i.
pub fn live_names(
    file: &[u8],
    work: &mut [u64],
    live_in: &mut [u64],
    live_out: &mut [u64],
    layout: Layout,
)
    requires { LiveStart file.now work.old live_in.old live_out.old layout.n }
    ensures { LiveNames (flow_of file.now) layout.n work.old work.new live_in.old live_in.new live_out.old live_out.new }
{
    if !sweep::sweeps(file, work, live_in, live_out, layout.n) {
        return;
    }
    let mut queue = begin(file, work, live_in, live_out, layout);
    // No range: it runs until nothing waits, and a visit makes others wait.
    while 0 < queue.len {
        queue = visit(file, work, live_in, live_out, layout, queue);
    }
}
