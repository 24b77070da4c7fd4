// The doubled numbers: a statement becomes one, and goes back, here and nowhere else.
ghost use Rattle.std.specs.Prelude.{◌≡◌, ◌<◌, ◌≤◌};
ghost use Rattle.flow.specs.Limits.{max_statements};
ghost use Rattle.theory.specs.Doubled.{at, number_in, node_in};

use flow::{Base, NodeId, StmtId};

// Which copy of which statement.
#[derive(Clone, Copy)]
pub struct StmtCopy {
    pub base: Base,
    pub stmt: StmtId,
}

// The number of that copy of statement i, of n statements.
pub fn node(n: usize, base: Base, i: StmtId) -> NodeId
    requires { (n ≤ max_statements) × (i.0 < n) }
    ensures { result.0 ≡ number_in n (at base i.0) }
{
    match base {
        Base::Zero => NodeId(i.0),
        Base::N => NodeId(n + i.0),
    }
}

// The copy that the doubled number stands for.
pub fn copy_of(n: usize, d: NodeId) -> StmtCopy
    ensures { at result.base result.stmt.0 ≡ node_in n d.0 }
{
    if d.0 < n {
        StmtCopy {
            base: Base::Zero,
            stmt: StmtId(d.0),
        }
    } else {
        StmtCopy {
            base: Base::N,
            stmt: StmtId(d.0 - n),
        }
    }
}
