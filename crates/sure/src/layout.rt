// Where the words of this phase stand: where the lists of calls come later, so that they are written before those.
ghost use Rattle.std.specs.Prelude.{◌≡◌, ◌+◌, ◌*◌, ◌<◌, ◌≤◌};
ghost use Rattle.statements.specs.Clauses.Layout.{lists_at};
ghost use Rattle.sure.specs.Clauses.Layout as at;

use flow::StmtId;
use statements::layout::Layout;

// Word k of this phase.
fn word(layout: Layout, k: usize) -> usize
    requires { k ≤ 4 * layout.n }
    ensures { result ≡ lists_at layout.n + k }
{
    layout.lists() + k
}

// Two words for each statement: the arrays that some body walk from there to a RETURN misses, and all bits if there is such a walk at all, as if they were arrays that
// nothing refers to.
pub fn set(layout: Layout, i: StmtId) -> usize
    requires { i.0 < layout.n }
    ensures { result ≡ at.set_at layout.n i.0 }
{
    word(layout, 2 * i.0)
}

// A word for each statement: the first of those whose sets follow from its own.
pub fn first(layout: Layout, j: StmtId) -> usize
    requires { j.0 < layout.n }
    ensures { result ≡ at.first_at layout.n j.0 }
{
    word(layout, 2 * layout.n + j.0)
}

// The row of statements that wait.
pub fn waiting(layout: Layout) -> usize
    ensures { result ≡ at.waiting_at layout.n }
{
    word(layout, 3 * layout.n)
}

// The place of statement i in a row of this phase: from the last one down, since a set mostly follows from later statements, which a search forward then finds first.
pub fn mirrored(n: usize, i: StmtId) -> usize
    requires { i.0 < n }
    ensures { result ≡ at.mirror n i.0 }
{
    n - 1 - i.0
}
