// Summaries: of a body, by its walk and its calls; of a call, by the bodies that it enters. A subroutine's summary needs its
// calls, and a call's summary needs its subroutines, so the two functions call each other; the number of unentered entries falls.
// What the two keep across a call of each other stands on the machine's stack once a level of a nest of subroutines. So they keep little, and
// all else is done in functions of their own, which read again what they need: what is made from a number that is kept is kept with it.
ghost use Rattle.std.specs.Prelude.{ℕ, ◌+◌, ◌<◌, ◌≤◌, ◌≡◌, get_or};
ghost use Rattle.words.specs.Clauses.Row.{next_member, found_below};
ghost use Rattle.flow.specs.Limits.{max_statements};
ghost use Rattle.flow.specs.Format.{flow_of, statements_of};
ghost use Rattle.flow.specs.Clauses.Answers.{FitFile};
ghost use Rattle.statements.specs.Clauses.Layout.{sure_at, calls_at, row_at, entered_row_at};
ghost use Rattle.statements.specs.Clauses.Ready.{Ready, Indexed, Located, Keeps};
ghost use Rattle.theory.specs.Lists.{In};
ghost use Rattle.theory.specs.Body.{callees};
ghost use Rattle.sure.specs.Clauses.SureArrays.{SureWords};
ghost use Rattle.calls.specs.Clauses.Held.{NoSummaries, Summarized};
ghost use Rattle.calls.specs.Clauses.Summing as state;
ghost use Rattle.calls.specs.Clauses.Summing.{Summing, Leads, WalkPassed, BodyJoined, Entered, Awaits, BodySummed, CallSummed, HandlerSummed};

use crate::walk::walk;
use crate::{SummaryState, rows};
use flow::StmtId;
use flow::bytes::u16_at;
use statements::fields;
use statements::layout::Layout;

// Where the parts of the work area stand, by the number of statements that the header has.
fn layout_of(file: &[u8]) -> Layout
    requires { FitFile file.now }
    ensures { result.n ≡ statements_of file.now }
{
    let n = u16_at(file, 2);
    Layout { n }
}

fn summary_state(opaque: bool) -> u64
    ensures { result ≡ state.summary_state opaque }
{
    if opaque {
        SummaryState::Opaque as u64
    } else {
        SummaryState::Transparent as u64
    }
}

// Joins the references of statement i, and what it touches as a call, to what body e touches, and says whether it makes the body opaque.
fn pass_by(file: &[u8], work: &mut [u64], e: StmtId, i: StmtId) -> bool
    requires { Ready file.now work.old (statements_of file.now) × (e.0 < statements_of file.now) × (i.0 < statements_of file.now) }
    ensures { WalkPassed (flow_of file.now) work.old work.new (statements_of file.now) e.0 i.0 result }
{
    let layout = layout_of(file);
    let refs = fields::references_word(file, work, layout.n, i);
    let inner = work[layout.call_touched() + i.0];
    let opaque_call = work[layout.calls() + i.0] == SummaryState::Opaque as u64;
    let wiped = fields::wipes(file, work, layout.n, i);
    words::union_word(work, layout.touched() + e.0, refs | inner);
    opaque_call || wiped
}

// Opens the body that starts at e, unless it was entered before, and says whether its walk is to be gone through. A RETURN's walk is
// itself, and its row is kept for its edges, so that it has its summary at once.
fn enter(file: &[u8], work: &mut [u64], e: StmtId) -> bool
    requires { Ready file.now work.old (statements_of file.now) × (e.0 < statements_of file.now) × Summing (flow_of file.now) work.old (statements_of file.now) }
    ensures { Entered (flow_of file.now) work.old work.new (statements_of file.now) e.0 result }
{
    let layout = layout_of(file);
    let at = layout.bodies() + e.0;
    if work[at] != SummaryState::Unentered as u64 {
        return false;
    }
    if fields::is_return(file, work, layout.n, e) {
        pass_by(file, work, e, e);
        work[at] = SummaryState::Transparent as u64;
        return false;
    }
    work[at] = SummaryState::Open as u64;
    // The matrix is not zeroed before: each row is when it is first needed.
    rows::zero_row(work, layout, layout.row(e));
    walk(file, work, layout, e);
    true
}

// The first statement of the walk of e from that one on.
fn next_walked(file: &[u8], work: &[u64], e: StmtId, from: usize) -> Option<usize>
    requires { Ready file.now work.now (statements_of file.now) × (e.0 < statements_of file.now) }
    ensures { result ≡ found_below (next_member work.now (row_at (statements_of file.now) e.0) from (statements_of file.now)) (statements_of file.now) }
{
    let layout = layout_of(file);
    words::next(work, layout.row(e), from, layout.n)
}

// The body that starts at e gets its summary, once. The file's lines stand at `lines_at`.
#[cycle(call_summary_sub_effect)]
fn sub_effect(file: &[u8], work: &mut [u64], lines_at: usize, e: StmtId)
    requires { Located file.now work.old (statements_of file.now) lines_at × (e.0 < statements_of file.now) × Summing (flow_of file.now) work.old (statements_of file.now) × Leads (flow_of file.now) work.old (statements_of file.now) e.0 }
    ensures { BodySummed (flow_of file.now) work.old work.new (statements_of file.now) e.0 }
{
    if !enter(file, work, e) {
        return;
    }
    let mut opaque = false;
    let mut from = 0;
    while let Some(i) = next_walked(file, work, e, from) {
        call_summary(file, work, lines_at, StmtId(i));
        opaque |= pass_by(file, work, e, StmtId(i));
        from = i + 1;
    }
    work[layout_of(file).bodies() + e.0] = summary_state(opaque);
}

// Whether statement c is a call with a continuation that has no summary yet.
fn awaits(file: &[u8], work: &[u64], c: StmtId) -> bool
    requires { Ready file.now work.now (statements_of file.now) × (c.0 < statements_of file.now) }
    ensures { Awaits (flow_of file.now) work.now (statements_of file.now) c.0 result }
{
    let layout = layout_of(file);
    if work[layout.calls() + c.0] != SummaryState::Unentered as u64 {
        return false;
    }
    fields::continuation(file, work, layout.n, c).is_some()
}

// Joins what body b touches to what the call c touches, and says whether the body is not transparent: an open one is opaque, since it
// lies on a cycle of calls.
fn join_body(file: &[u8], work: &mut [u64], c: StmtId, b: StmtId) -> bool
    requires { Ready file.now work.old (statements_of file.now) × (c.0 < statements_of file.now) × (b.0 < statements_of file.now) }
    ensures { BodyJoined work.old work.new (statements_of file.now) c.0 b.0 result }
{
    let layout = layout_of(file);
    let opaque_body = work[layout.bodies() + b.0] != SummaryState::Transparent as u64;
    let inner = work[layout.touched() + b.0];
    words::union_word(work, layout.call_touched() + c.0, inner);
    opaque_body
}

// Statement c, if it is a call with a continuation, gets its summary, once: whether a body that it enters is opaque, and the
// arrays that they touch.
#[cycle(call_summary_sub_effect)]
fn call_summary(file: &[u8], work: &mut [u64], lines_at: usize, c: StmtId)
    requires { Located file.now work.old (statements_of file.now) lines_at × (c.0 < statements_of file.now) × Summing (flow_of file.now) work.old (statements_of file.now) × ((b : ℕ) → In b (callees (flow_of file.now) c.0) → Leads (flow_of file.now) work.old (statements_of file.now) b) }
    ensures { CallSummed (flow_of file.now) work.old work.new (statements_of file.now) c.0 }
{
    if !awaits(file, work, c) {
        return;
    }
    let count = fields::line_count(file, work, layout_of(file).n, c);
    let mut opaque = false;
    for k in 0..count {
        if let Some(b) = fields::entered(file, work, layout_of(file).n, lines_at, c, k) {
            sub_effect(file, work, lines_at, b);
            opaque |= join_body(file, work, c, b);
        }
    }
    work[layout_of(file).calls() + c.0] = summary_state(opaque);
}

// The body of the handler, if there is one, gets its summary.
fn summarize_handler(file: &[u8], h: flow::Header, work: &mut [u64])
    requires { Indexed file.now h work.old × NoSummaries work.old h.statements }
    ensures { HandlerSummed (flow_of file.now) work.old work.new h.statements }
{
    if let Some(e) = h.handler {
        sub_effect(file, work, h.lines_at, e);
    }
}

// The summary of the handler's body and of every call with a continuation, beside the arrays that are sure for it, which are noted.
fn summarize_each(file: &[u8], h: flow::Header, work: &mut [u64])
    requires { Indexed file.now h work.old × NoSummaries work.old h.statements × SureWords (flow_of file.now) work.old h.statements }
    ensures summarized { Summarized (flow_of file.now) work.new h.statements }
    ensures keeps { Keeps (calls_at h.statements) (entered_row_at h.statements) work.old work.new }
{
    summarize_handler(file, h, work);
    let n = h.statements;
    for c in 0..n {
        call_summary(file, work, h.lines_at, StmtId(c));
    }
}

// The summary of every call, the arrays that are sure for it, those that it touches, and whether it is opaque, and that of the handler's body.
pub fn summarize_calls(file: &[u8], h: flow::Header, work: &mut [u64])
    requires { Indexed file.now h work.old × NoSummaries work.old h.statements × ((c : ℕ) → c < h.statements → get_or work.old (sure_at h.statements + c) 0 ≡ 0) }
    ensures summarized { Summarized (flow_of file.now) work.new h.statements }
    ensures keeps { Keeps (sure_at h.statements) (entered_row_at h.statements) work.old work.new }
{
    sure::sure_arrays(file, h, work);
    summarize_each(file, h, work);
}
