// The edges of each RETURN in base 0: its row of the matrix holds the continuations of opaque calls that enter a body whose
// walk meets it. A RETURN's own body walk is just itself, so its row is free for this. The walks of the bodies that a call of many
// lines enters are first joined in the row of entered statements, so that a call goes through its RETURNs once; and the RETURNs are
// noted as a row of their own, whose words are gone through together with those of the walk, so that no other statement of a walk is looked at.
ghost use Rattle.std.specs.Prelude.{◌+◌, ◌<◌};
ghost use Rattle.flow.specs.Format.{flow_of};
ghost use Rattle.theory.specs.Body.{entered};
ghost use Rattle.theory.specs.Doubled.{returns_to};
ghost use Rattle.statements.specs.Clauses.Layout.{row_words, bodies_at, queue_at, solver_at, returns_row_at};
ghost use Rattle.statements.specs.Clauses.Ready.{Ready, Indexed, Keeps};
ghost use Rattle.calls.specs.Clauses.Held.{Area, Summarized, Linked};
ghost use Rattle.calls.specs.Clauses.Joins.{Joins, Gains, Apart, Gathers, Adds, Summary, BodyRows, ReturnSet, if_return, in_word, is_shared, from_bodies};

use crate::{SummaryState, leaders, orders, rows};
use flow::StmtId;
use statements::fields;
use statements::layout::Layout;

// Statement r, if it is a RETURN, joins the row of RETURNs.
fn note_return(file: &[u8], work: &mut [u64], layout: Layout, r: StmtId)
    requires { Ready file.now work.old layout.n × (r.0 < layout.n) }
    ensures { Adds (returns_row_at layout.n) work.old work.new layout.n (if_return (flow_of file.now) r.0) }
{
    if fields::is_return(file, work, layout.n, r) {
        words::insert(work, layout.returns_row(), r.0);
    }
}

// The row of RETURNs.
fn note_returns(file: &[u8], work: &mut [u64], layout: Layout)
    requires { Ready file.now work.old layout.n }
    ensures { ReturnSet (flow_of file.now) work.new layout.n × Keeps (returns_row_at layout.n) (returns_row_at layout.n + row_words layout.n) work.old work.new }
{
    rows::zero_row(work, layout, layout.returns_row());
    for r in 0..layout.n {
        note_return(file, work, layout, StmtId(r));
    }
}

// The statements that are bits of the word, which is word j of a row, go to k.
fn note_word(work: &mut [u64], layout: Layout, word: u64, j: usize, k: StmtId)
    requires { Area work.old layout.n × (j < row_words layout.n) × (k.0 < layout.n) }
    ensures { Gains work.old work.new layout.n (queue_at layout.n) (in_word word j) k.0 }
{
    let mut rest = word;
    // No range: what is left is made by the body, and an iterator over bits would be a type of its own, longer than this loop.
    while rest != 0 {
        let lowest = rest.trailing_zeros() as usize;
        let r = 64 * j + lowest;
        // What the last word of a row has from n on is no statement.
        if layout.n <= r {
            return;
        }
        words::insert(work, layout.row(StmtId(r)), k.0);
        rest = words::difference(rest, 1u64 << lowest);
    }
}

// The RETURNs in the row at `row` go to k. The row is not the one of a RETURN, so that it stays while they are noted.
fn note_shared(work: &mut [u64], layout: Layout, row: usize, k: StmtId)
    requires { Area work.old layout.n × Apart work.old layout.n row × (k.0 < layout.n) }
    ensures { Gains work.old work.new layout.n (queue_at layout.n) (is_shared work.old layout.n row) k.0 }
{
    let returns = layout.returns_row();
    let width = layout.row_words();
    for j in 0..width {
        let word = work[row + j] & work[returns + j];
        note_word(work, layout, word, j, k);
    }
}

// The walks of the bodies that the call c enters, joined line by line in the row of entered statements, which comes back.
fn gather_lines(file: &[u8], h: flow::Header, work: &mut [u64], c: StmtId) -> usize
    requires { Indexed file.now h work.old × (c.0 < h.statements) × BodyRows (flow_of file.now) work.old h.statements c.0 }
    ensures { Gathers (flow_of file.now) work.old work.new h.statements (entered (flow_of file.now) c.0) result }
{
    let layout = Layout { n: h.statements };
    let row = layout.entered_row();
    rows::zero_row(work, layout, row);
    rows::add_lines(file, h, work, row, c, true);
    row
}

// The same. A call of one line mostly enters a body whose walk stands in a row already: nothing is joined.
fn gather(file: &[u8], h: flow::Header, work: &mut [u64], c: StmtId) -> usize
    requires { Indexed file.now h work.old × (c.0 < h.statements) × BodyRows (flow_of file.now) work.old h.statements c.0 × ReturnSet (flow_of file.now) work.old h.statements }
    ensures { Gathers (flow_of file.now) work.old work.new h.statements (entered (flow_of file.now) c.0) result }
{
    let layout = Layout { n: h.statements };
    if fields::line_count(file, work, layout.n, c) == 1
        && let Some(b) = fields::entered(file, work, layout.n, h.lines_at, c, 0)
        && !fields::is_return(file, work, layout.n, b)
    {
        return layout.row(b);
    }
    gather_lines(file, h, work, c)
}

// The RETURNs on the walks of the bodies that the call c enters go to k.
fn note_bodies(file: &[u8], h: flow::Header, work: &mut [u64], c: StmtId, k: StmtId)
    requires { Indexed file.now h work.old × (c.0 < h.statements) × (k.0 < h.statements) × BodyRows (flow_of file.now) work.old h.statements c.0 × ReturnSet (flow_of file.now) work.old h.statements }
    ensures { Joins (flow_of file.now) work.old work.new h.statements (solver_at h.statements) (from_bodies (flow_of file.now) (entered (flow_of file.now) c.0) k.0) }
{
    let layout = Layout { n: h.statements };
    let row = gather(file, h, work, c);
    note_shared(work, layout, row, k);
}

// Statement c, if it is an opaque call with a continuation.
fn note_call(file: &[u8], h: flow::Header, work: &mut [u64], c: StmtId)
    requires { Indexed file.now h work.old × (c.0 < h.statements) × Summary (flow_of file.now) work.old h.statements c.0 × ReturnSet (flow_of file.now) work.old h.statements }
    ensures { Joins (flow_of file.now) work.old work.new h.statements (solver_at h.statements) (λ r k. returns_to (flow_of file.now) r k c.0) }
{
    let layout = Layout { n: h.statements };
    if work[layout.calls() + c.0] != SummaryState::Opaque as u64 {
        return;
    }
    // A call that has a summary has a continuation, so there is nothing to do otherwise.
    if let Some(k) = fields::continuation(file, work, layout.n, c) {
        note_bodies(file, h, work, c, k);
    }
}

// Notes what the edges are made from: first where each RETURN goes, then, since no walk is needed any more, in the row of each call that is not
// opaque the statements that it enters, which RETURNs go to the same continuations, and in which order calls of several lines enter statements.
pub fn note_edges(file: &[u8], h: flow::Header, work: &mut [u64])
    requires { Indexed file.now h work.old × Summarized (flow_of file.now) work.old h.statements }
    ensures linked { Linked (flow_of file.now) work.new h.statements }
    ensures keeps { Keeps (bodies_at h.statements) (returns_row_at h.statements + row_words h.statements) work.old work.new }
{
    let layout = Layout { n: h.statements };
    note_returns(file, work, layout);
    rows::clear_rows(file, work, layout);
    for c in 0..layout.n {
        note_call(file, h, work, StmtId(c));
    }
    rows::note_rows(file, h, work);
    leaders::note_leaders(file, work, layout);
    orders::note_orders(file, h, work);
}
