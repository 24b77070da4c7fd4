// From which statements a body walk to a RETURN misses an array: by a worklist over the noted statements, backward along the walks.
ghost use Rattle.std.specs.Prelude.{[], ◌∷◌, ◌+◌, ◌<◌, ◌≤◌, length, get_or};
ghost use Rattle.flow.specs.Format.{flow_of};
ghost use Rattle.theory.specs.Body.{successors};
ghost use Rattle.statements.specs.Clauses.Layout.{sure_at};
ghost use Rattle.statements.specs.Clauses.Ready.{Ready};
ghost use Rattle.sure.specs.Clauses.Layout as at;
ghost use Rattle.sure.specs.Clauses.Noting.{Firsts};
ghost use Rattle.sure.specs.Clauses.Missing.{Bodies, Gathered, NextSet, LetThrough, Woken, Visited, Solved};

use crate::encoding::{Set, body_of, followers_of, set_of};
use crate::layout::{first, mirrored, set, waiting};
use flow::StmtId;
use statements::fields;
use statements::layout::Layout;

// The union over the successors of statement i.
fn listed_set(file: &[u8], work: &[u64], layout: Layout, i: StmtId) -> Set
    requires { Ready file.now work.now layout.n × (at.words_end layout.n ≤ length work.now) × (i.0 < layout.n) }
    ensures { Gathered work.now layout.n (successors (flow_of file.now) i.0) (result.missed ∷ result.returns ∷ []) }
{
    let p = fields::offset(file, work, layout.n, i);
    let count = records::successor_count(file, p);
    let mut missed = 0;
    let mut returns = 0;
    for k in 0..count {
        let next = set_of(work, layout, fields::successor_at(file, i, p, k));
        missed |= next.missed;
        returns |= next.returns;
    }
    Set { missed, returns }
}

// What the body walks that go on from i miss; at a RETURN a walk is over, and has missed all.
fn next_set(file: &[u8], work: &[u64], layout: Layout, i: StmtId) -> Set
    requires { Ready file.now work.now layout.n × (at.words_end layout.n ≤ length work.now) × (i.0 < layout.n) }
    ensures { NextSet (flow_of file.now) work.now layout.n i.0 (result.missed ∷ result.returns ∷ []) }
{
    if fields::is_return(file, work, layout.n, i) {
        return Set {
            missed: u64::MAX,
            returns: u64::MAX,
        };
    }
    match fields::continuation(file, work, layout.n, i) {
        Some(k) => set_of(work, layout, k),
        None => listed_set(file, work, layout, i),
    }
}

// What statement i lets through: what it does not refer to, and of that, if it asks a body, what the body misses.
fn let_through(file: &[u8], work: &[u64], layout: Layout, i: StmtId) -> u64
    requires { Ready file.now work.now layout.n × (at.words_end layout.n ≤ length work.now) × (i.0 < layout.n) × (get_or work.now (sure_at layout.n + i.0) 0 ≤ layout.n) }
    ensures { LetThrough (flow_of file.now) work.now layout.n i.0 result }
{
    let others = !fields::references_word(file, work, layout.n, i);
    match body_of(work[layout.sure() + i.0]) {
        Some(b) => others & set_of(work, layout, b).missed,
        None => others,
    }
}

// Those wait whose sets follow from that of statement j.
fn wake(work: &mut [u64], layout: Layout, j: StmtId)
    requires { (at.words_end layout.n ≤ length work.old) × (j.0 < layout.n) × Firsts work.old layout.n }
    ensures { Woken work.old work.new layout.n j.0 }
{
    let Some(followers) = followers_of(work[first(layout, j)]) else {
        return;
    };
    words::insert(work, waiting(layout), mirrored(layout.n, followers.first));
    if followers.more {
        words::union(work, waiting(layout), layout.row(j), layout.row_words());
    }
}

// Statement i waits no more: its set is found anew, and if it grew, those wait whose sets follow from it.
fn visit(file: &[u8], work: &mut [u64], layout: Layout, i: StmtId)
    requires { Ready file.now work.old layout.n × (at.words_end layout.n ≤ length work.old) × (i.0 < layout.n) × Bodies work.old layout.n × Firsts work.old layout.n }
    ensures { Visited (flow_of file.now) work.old work.new layout.n i.0 }
{
    words::remove(work, waiting(layout), mirrored(layout.n, i));
    let next = next_set(file, work, layout, i);
    let missed = next.missed & let_through(file, work, layout, i);
    let returns = next.returns;
    if words::union_pair(work, set(layout, i), missed, returns) {
        wake(work, layout, i);
    }
}

// Statements are visited until none waits. A visit makes others wait, so that no range says beforehand which they are.
pub fn solve(file: &[u8], work: &mut [u64], layout: Layout)
    requires { Ready file.now work.old layout.n × (at.words_end layout.n ≤ length work.old) × Bodies work.old layout.n × Firsts work.old layout.n }
    ensures { Solved (flow_of file.now) work.old work.new layout.n }
{
    let mut last = 0;
    while let Some(k) = words::next_around(work, waiting(layout), last, layout.n) {
        visit(file, work, layout, StmtId(layout.n - 1 - k));
        last = k;
    }
}
