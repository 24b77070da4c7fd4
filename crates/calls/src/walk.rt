// The body walk of an entry, into its row of the matrix. The queue's words serve as a stack.
ghost use Rattle.std.specs.Prelude.{◌<◌, ◌∷◌, []};
ghost use Rattle.flow.specs.Format.{flow_of};
ghost use Rattle.theory.specs.Body.{successors, walk_next};
ghost use Rattle.statements.specs.Clauses.Ready.{Ready};
ghost use Rattle.calls.specs.Clauses.Held.{EmptyRow, Walked};
ghost use Rattle.calls.specs.Clauses.Walking.{Stack, Met};

use flow::StmtId;
use statements::fields;
use statements::layout::Layout;

// Puts i into the row of e and on the stack, unless it was met before. The height of the stack comes back.
fn meet(work: &mut [u64], layout: Layout, e: StmtId, top: usize, i: StmtId) -> usize
    requires { Stack work.old layout.n e.0 top × (e.0 < layout.n) × (i.0 < layout.n) }
    ensures { Met work.old work.new layout.n e.0 top result (i.0 ∷ []) }
{
    let row = layout.row(e);
    // A statement that was met before is only looked up: a word that each edge writes is waited for at the next.
    if words::contains(work, row, i.0) {
        return top;
    }
    words::insert(work, row, i.0);
    work[layout.queue() + top] = i.0 as u64;
    top + 1
}

fn meet_successors(
    file: &[u8],
    work: &mut [u64],
    layout: Layout,
    e: StmtId,
    top: usize,
    i: StmtId,
) -> usize
    requires { Ready file.now work.old layout.n × Stack work.old layout.n e.0 top × (e.0 < layout.n) × (i.0 < layout.n) }
    ensures { Met work.old work.new layout.n e.0 top result (successors (flow_of file.now) i.0) }
{
    let place = fields::offset(file, work, layout.n, i);
    let count = records::successor_count(file, place);
    let mut height = top;
    for k in 0..count {
        height = meet(
            work,
            layout,
            e,
            height,
            fields::successor_at(file, i, place, k),
        );
    }
    height
}

// Where a body walk goes on from i: nowhere at RETURN, to the continuation only at a call with one, else to the successors.
fn meet_next(
    file: &[u8],
    work: &mut [u64],
    layout: Layout,
    e: StmtId,
    top: usize,
    i: StmtId,
) -> usize
    requires { Ready file.now work.old layout.n × Stack work.old layout.n e.0 top × (e.0 < layout.n) × (i.0 < layout.n) }
    ensures { Met work.old work.new layout.n e.0 top result (walk_next (flow_of file.now) i.0) }
{
    if fields::is_return(file, work, layout.n, i) {
        return top;
    }
    match fields::continuation(file, work, layout.n, i) {
        Some(k) => meet(work, layout, e, top, k),
        None => meet_successors(file, work, layout, e, top, i),
    }
}

pub fn walk(file: &[u8], work: &mut [u64], layout: Layout, e: StmtId)
    requires { Ready file.now work.old layout.n × (e.0 < layout.n) × EmptyRow work.old layout.n e.0 }
    ensures { Walked (flow_of file.now) work.old work.new layout.n e.0 }
{
    let mut top = meet(work, layout, e, 0, e);
    // No range: what is left to go on from is made by the body.
    while 0 < top {
        top -= 1;
        let i = work[layout.queue() + top] as usize;
        top = meet_next(file, work, layout, e, top, StmtId(i));
    }
}
