// RETURNs that go to the same continuations: each has a leader, the first RETURN whose row is the same, so that what one of them has sent to all continuations need not
// be sent again by another.
ghost use Rattle.std.specs.Prelude.{◌+◌, ◌<◌, ◌≤◌, ◌≡◌, ◌↔◌, IsTrue, length, slice_range, get_or};
ghost use Rattle.flow.specs.Format.{flow_of};
ghost use Rattle.statements.specs.Clauses.Layout.{bodies_at, matrix_at};
ghost use Rattle.statements.specs.Clauses.Ready.{Ready, Keeps};
ghost use Rattle.calls.specs.Clauses.Held.{Leads, Leaders};
ghost use Rattle.calls.specs.Clauses.Joins.{ReturnSet};

use flow::StmtId;
use statements::layout::Layout;

// Whether the rows at a and b, of that many words, are the same.
fn same_words(work: &[u64], a: usize, b: usize, width: usize) -> bool
    requires { (a + width ≤ length work.now) × (b + width ≤ length work.now) }
    ensures { IsTrue result ↔ slice_range work.now a (a + width) ≡ slice_range work.now b (b + width) }
{
    work[a..a + width] == work[b..b + width]
}

// The first RETURN whose row is that of r.
#[tactic(auto, using(crate::proofs::Leading::found_low))]
fn leader_of(file: &[u8], work: &[u64], layout: Layout, r: StmtId) -> StmtId
    requires { Ready file.now work.now layout.n × (r.0 < layout.n) }
    ensures { Leads work.now layout.n r.0 result.0 }
{
    let mut from = 0;
    while let Some(l) = words::next(work, layout.returns_row(), from, r.0) {
        if same_words(
            work,
            layout.row(StmtId(l)),
            layout.row(r),
            layout.row_words(),
        ) {
            return StmtId(l);
        }
        from = l + 1;
    }
    r
}

// The leader of each RETURN is noted in the word of its body, whose summary is not asked for any more.
#[tactic(auto, using(crate::proofs::Leading::found_low))]
pub fn note_leaders(file: &[u8], work: &mut [u64], layout: Layout)
    requires { Ready file.now work.old layout.n × ReturnSet (flow_of file.now) work.old layout.n }
    ensures { Leaders (flow_of file.now) work.new layout.n × Keeps (bodies_at layout.n) (matrix_at layout.n) work.old work.new }
{
    let mut from = 0;
    while let Some(r) = words::next(work, layout.returns_row(), from, layout.n) {
        let l = leader_of(file, work, layout, StmtId(r));
        work[layout.bodies() + r] = l.0 as u64;
        from = r + 1;
    }
}

// The leader of the RETURN r, as it is noted.
pub fn leader(file: &[u8], work: &[u64], layout: Layout, r: StmtId) -> StmtId
    requires { Ready file.now work.now layout.n × (r.0 < layout.n) }
    ensures { result.0 ≡ get_or work.now (bodies_at layout.n + r.0) 0 }
{
    StmtId(work[layout.bodies() + r.0] as usize)
}
