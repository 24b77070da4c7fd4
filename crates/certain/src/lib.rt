// Names certainly written, forward over the listed graph: for each statement the names that may be unwritten when it starts, from the entry on, by a worklist in file
// order; and from them the names that no statement reads too early.
#![tactic(auto)]

ghost use Rattle.std.specs.Prelude.{◌≡◌, [], ◌∷◌, ◌<◌, ◌≤◌, length};
ghost use Rattle.flow.specs.Format.{flow_of};
ghost use Rattle.theory.specs.Certain.{certain_word};
ghost use Rattle.statements.specs.Clauses.Ready.{Ready};
ghost use Rattle.certain.specs.Clauses.Layout as at;
ghost use Rattle.certain.specs.Clauses.Unwritten.{Pushed, PushedAll, Visited, Begun, Solved};
ghost use Rattle.certain.specs.Clauses.CertainNames.{CertainStart, Early};

use flow::StmtId;
use statements::layout::Layout;
use statements::{fields, uses};

// The two words of statement i: the names that may be unwritten when it starts; and all bits if a walk from the entry reaches it, as if they were names that nothing
// writes.
fn set(layout: Layout, i: StmtId) -> usize
    requires { i.0 < layout.n }
    ensures { result ≡ at.set_at layout.n i.0 }
{
    layout.n + 2 * i.0
}

// The row of statements that wait.
fn waiting(layout: Layout) -> usize
    ensures { result ≡ at.waiting_at layout.n }
{
    3 * layout.n
}

// Two words are joined to the set of statement j; if it grew, j waits.
fn push(work: &mut [u64], layout: Layout, j: StmtId, names: u64, reached: u64)
    requires { (at.waiting_end layout.n ≤ length work.old) × (j.0 < layout.n) }
    ensures { Pushed work.old work.new layout.n j.0 (names ∷ reached ∷ []) }
{
    if words::union_pair(work, set(layout, j), names, reached) {
        words::insert(work, waiting(layout), j.0);
    }
}

// The same, to each successor of statement i.
fn push_listed(file: &[u8], work: &mut [u64], layout: Layout, i: StmtId, names: u64, reached: u64)
    requires { Ready file.now work.old layout.n × (i.0 < layout.n) }
    ensures { PushedAll (flow_of file.now) work.old work.new layout.n i.0 (names ∷ reached ∷ []) }
{
    let p = fields::offset(file, work, layout.n, i);
    let count = records::successor_count(file, p);
    for k in 0..count {
        push(
            work,
            layout,
            fields::successor_at(file, i, p, k),
            names,
            reached,
        );
    }
}

// Statement i waits no more: what it does not write goes to its successors.
fn visit(file: &[u8], work: &mut [u64], layout: Layout, i: StmtId)
    requires { Ready file.now work.old layout.n × (i.0 < layout.n) }
    ensures { Visited (flow_of file.now) work.old work.new layout.n i.0 }
{
    words::remove(work, waiting(layout), i.0);
    let writes = fields::written(file, work, layout.n, i);
    let at = set(layout, i);
    let names = words::difference(work[at], writes);
    let reached = work[at + 1];
    push_listed(file, work, layout, i, names, reached);
}

// The entry waits, with every name unwritten.
fn begin(work: &mut [u64], layout: Layout, entry: StmtId)
    requires { (at.waiting_end layout.n ≤ length work.old) × (entry.0 < layout.n) }
    ensures { Begun work.old work.new layout.n entry.0 }
{
    words::zero_row(work, layout.n, 2 * layout.n + layout.row_words());
    push(work, layout, entry, u64::MAX, u64::MAX);
}

// The sets of all statements. The next to be visited is one that waits, in file order from the last one on and then from the first: the entry at the start.
fn solve(file: &[u8], work: &mut [u64], layout: Layout, entry: StmtId)
    requires { CertainStart file.now work.old layout.n entry.0 }
    ensures { Solved (flow_of file.now) work.old work.new layout.n }
{
    begin(work, layout, entry);
    let mut last = entry.0;
    while let Some(i) = words::next_around(work, waiting(layout), last, layout.n) {
        visit(file, work, layout, StmtId(i));
        last = i;
    }
}

// The names that some statement reads where a walk may come without a write, or no walk comes.
fn early(file: &[u8], work: &[u64], layout: Layout) -> u64
    requires { Ready file.now work.now layout.n × Solved (flow_of file.now) work.now work.now layout.n }
    ensures { Early (flow_of file.now) layout.n result }
{
    let mut names: u64 = 0;
    for i in 0..layout.n {
        let p = fields::offset(file, work, layout.n, StmtId(i));
        let at = set(layout, StmtId(i));
        let before = words::difference(work[at + 1], work[at]);
        names |= words::difference(records::read(file, p), before);
    }
    names
}

// The word of certain names. A name that is not both written and read somewhere needs no walk.
pub fn certain_names(file: &[u8], work: &mut [u64], layout: Layout, entry: StmtId) -> u64
    requires { CertainStart file.now work.old layout.n entry.0 }
    ensures { result ≡ certain_word (flow_of file.now) }
{
    let all = uses::gather_uses(file, work, layout.n);
    if (all.written & all.read) == 0 {
        return all.written;
    }
    solve(file, work, layout, entry);
    words::difference(all.written, early(file, work, layout))
}
