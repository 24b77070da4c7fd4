// Rows of statements that calls enter: the bodies that the lines of a call name are joined to a row, and each call that is not opaque has
// them in its own row of the matrix. And the rows of RETURNs, emptied before anything is noted there.
ghost use Rattle.std.specs.Prelude.{◌+◌, ◌≤◌, ◌<◌, true, ◌≡◌, length, get_or};
ghost use Rattle.flow.specs.Flow.{enters};
ghost use Rattle.flow.specs.Format.{flow_of};
ghost use Rattle.theory.specs.Lists.{option_list};
ghost use Rattle.theory.specs.Body.{kind, call_lines, entered};
ghost use Rattle.statements.specs.Clauses.Layout.{row_words};
ghost use Rattle.statements.specs.Clauses.Ready.{Ready, Indexed, Keeps};
ghost use Rattle.calls.specs.Clauses.Held.{Empty};
ghost use Rattle.calls.specs.Clauses.Joins.{Adds, Target, BodyRow, BodyRows, NotesCalls, ClearsReturns, body_of, bodies_of};

use crate::SummaryState;
use flow::StmtId;
use statements::fields;
use statements::layout::Layout;

// Body e joins the row at `to`: by itself, or whole, with its walk. The walk of a RETURN is itself.
fn add_body(file: &[u8], work: &mut [u64], layout: Layout, to: usize, e: StmtId, whole: bool)
    requires { Ready file.now work.old layout.n × (e.0 < layout.n) × Target work.old layout.n to whole × (whole ≡ true → BodyRow (flow_of file.now) work.old layout.n e.0) }
    ensures { Adds to work.old work.new layout.n (body_of (flow_of file.now) whole e.0) }
{
    if whole && !fields::is_return(file, work, layout.n, e) {
        words::union(work, to, layout.row(e), layout.row_words());
    } else {
        words::insert(work, to, e.0);
    }
}

// Line l of the call c.
fn add_line(
    file: &[u8],
    h: flow::Header,
    work: &mut [u64],
    to: usize,
    c: StmtId,
    l: usize,
    whole: bool,
)
    requires { Indexed file.now h work.old × (c.0 < h.statements) × (l < length (call_lines (kind (flow_of file.now) c.0))) × Target work.old h.statements to whole × (whole ≡ true → BodyRows (flow_of file.now) work.old h.statements c.0) }
    ensures { Adds to work.old work.new h.statements (bodies_of (flow_of file.now) whole (option_list (enters (flow_of file.now) (get_or (call_lines (kind (flow_of file.now) c.0)) l 0)))) }
{
    let layout = Layout { n: h.statements };
    if let Some(b) = fields::entered(file, work, layout.n, h.lines_at, c, l) {
        add_body(file, work, layout, to, b, whole);
    }
}

pub fn add_lines(file: &[u8], h: flow::Header, work: &mut [u64], to: usize, c: StmtId, whole: bool)
    requires { Indexed file.now h work.old × (c.0 < h.statements) × Target work.old h.statements to whole × (whole ≡ true → BodyRows (flow_of file.now) work.old h.statements c.0) }
    ensures { Adds to work.old work.new h.statements (bodies_of (flow_of file.now) whole (entered (flow_of file.now) c.0)) }
{
    let n = h.statements;
    let count = fields::line_count(file, work, n, c);
    for l in 0..count {
        add_line(file, h, work, to, c, l, whole);
    }
}

pub fn zero_row(work: &mut [u64], layout: Layout, to: usize)
    requires { to + row_words layout.n ≤ length work.old }
    ensures { Empty work.new layout.n to × Keeps to (to + row_words layout.n) work.old work.new }
{
    words::zero_row(work, to, layout.row_words());
}

// The row of statement r, if it is a RETURN, is emptied for its continuations.
fn clear_row(file: &[u8], work: &mut [u64], layout: Layout, r: StmtId)
    requires { Ready file.now work.old layout.n × (r.0 < layout.n) }
    ensures { ClearsReturns (flow_of file.now) work.old work.new layout.n r.0 (r.0 + 1) }
{
    if fields::is_return(file, work, layout.n, r) {
        zero_row(work, layout, layout.row(r));
    }
}

// The rows of all RETURNs.
pub fn clear_rows(file: &[u8], work: &mut [u64], layout: Layout)
    requires { Ready file.now work.old layout.n }
    ensures { ClearsReturns (flow_of file.now) work.old work.new layout.n 0 layout.n }
{
    for r in 0..layout.n {
        clear_row(file, work, layout, StmtId(r));
    }
}

// Statement i, if it is a call that is not opaque.
fn note_row(file: &[u8], h: flow::Header, work: &mut [u64], i: StmtId)
    requires { Indexed file.now h work.old × (i.0 < h.statements) }
    ensures { NotesCalls (flow_of file.now) work.old work.new h.statements i.0 (i.0 + 1) }
{
    let layout = Layout { n: h.statements };
    if work[layout.calls() + i.0] != SummaryState::Transparent as u64 {
        return;
    }
    let row = layout.row(i);
    zero_row(work, layout, row);
    add_lines(file, h, work, row, i, false);
}

// The statements that each call that is not opaque enters, in its row of the matrix: a visit then need not look up its lines.
pub fn note_rows(file: &[u8], h: flow::Header, work: &mut [u64])
    requires { Indexed file.now h work.old }
    ensures { NotesCalls (flow_of file.now) work.old work.new h.statements 0 h.statements }
{
    let n = h.statements;
    for i in 0..n {
        note_row(file, h, work, StmtId(i));
    }
}
