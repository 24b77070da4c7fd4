// What the edges of a call that is not opaque are made from. It is read once a visit, so that no edge looks it up again.
ghost use Rattle.std.specs.Prelude.{◌+◌, ◌/◌, ◌<◌, true, ◌||◌, ◌≡◌, eqb, length, get_or};
ghost use mathlib.Core.Option.{some};
ghost use Rattle.words.specs.Clauses.Row.{has};
ghost use Rattle.flow.specs.Flow.{enters};
ghost use Rattle.flow.specs.Format.{flow_of};
ghost use Rattle.flow.specs.Clauses.Answers.{statement_in};
ghost use Rattle.theory.specs.Body.{kind, call_lines, continuation_of};
ghost use Rattle.statements.specs.Clauses.Ready.{Ready, Indexed, RecordOf};
ghost use Rattle.calls.specs.Clauses.Held.{Linked};
ghost use Rattle.calls.specs.Clauses.Class.{transparent_call, CallOf};

use crate::SummaryState;
use flow::StmtId;
use flow::kind::Kind;
use statements::layout::{Layout, lines};

// Where the call goes on, how many lines it names and successors it lists, and the place of its row of the matrix, which holds the statements that it enters.
#[derive(Clone, Copy)]
pub struct Call {
    pub continuation: StmtId,
    pub lines: usize,
    pub successors: usize,
    pub row: usize,
}

// Whether statement i, whose record stands at `place`, is a call that is not opaque. The kind is looked at first: most statements are no calls, and their
// record is read anyway.
pub fn is_call(file: &[u8], work: &[u64], layout: Layout, i: StmtId, place: usize) -> bool
    requires { Ready file.now work.now layout.n × Linked (flow_of file.now) work.now layout.n × (i.0 < layout.n) × RecordOf file.now i.0 place }
    ensures { result ≡ transparent_call (flow_of file.now) i.0 }
{
    matches!(records::kind(file, place), Kind::Gosub | Kind::OnGosub)
        && work[layout.calls() + i.0] == SummaryState::Transparent as u64
}

// Where the call i goes on, which is not opaque.
fn continuation_of(file: &[u8], i: StmtId, place: usize) -> StmtId
    requires { RecordOf file.now i.0 place × (transparent_call (flow_of file.now) i.0 ≡ true) }
    ensures { continuation_of (kind (flow_of file.now) i.0) ≡ some result.0 }
{
    // Only a call with a continuation has a summary.
    records::continuation(file, place).unwrap()
}

// The call i that is not opaque.
pub fn call_of(file: &[u8], work: &[u64], layout: Layout, i: StmtId, place: usize) -> Call
    requires { Ready file.now work.now layout.n × Linked (flow_of file.now) work.now layout.n × (i.0 < layout.n) × RecordOf file.now i.0 place × (transparent_call (flow_of file.now) i.0 ≡ true) }
    ensures { CallOf (flow_of file.now) work.now i.0 result }
{
    Call {
        continuation: continuation_of(file, i, place),
        lines: records::line_count(file, place),
        successors: records::successor_count(file, place),
        row: layout.row(i),
    }
}

// The statement that line l of the call i enters. Of a call that names one line it is the only member of the call's row, and no line is
// looked up.
pub fn line_entered(
    file: &[u8],
    h: flow::Header,
    work: &[u64],
    i: StmtId,
    place: usize,
    call: Call,
    l: usize,
) -> Option<StmtId>
    requires { Indexed file.now h work.now × RecordOf file.now i.0 place × (i.0 < h.statements) × CallOf (flow_of file.now) work.now i.0 call × (l < call.lines) }
    ensures { result ≡ statement_in (enters (flow_of file.now) (get_or (call_lines (kind (flow_of file.now) i.0)) l 0)) }
{
    let n = h.statements;
    if call.lines == 1 {
        return words::next(work, call.row, 0, n).map(StmtId);
    }
    // The place of the record is at hand, which `fields::entered` looks up: a visit looks nothing up twice.
    let line = records::call_line(file, place, l);
    records::lines::line_entry(file, h.lines_at, work, lines(n), n, line)
}

// Whether the successor s of a call is left out: it is the continuation, or entered.
pub fn left_out(work: &[u64], call: Call, s: StmtId) -> bool
    requires { call.row + s.0 / 64 < length work.now }
    ensures { result ≡ (eqb s.0 call.continuation.0 || eqb (has work.now call.row s.0) 1) }
{
    s == call.continuation || words::contains(work, call.row, s.0)
}
