// What is noted of the statements, once: the body of each plain GOSUB with a continuation, and for each statement those whose sets follow from its own.
ghost use Rattle.std.specs.Prelude.{false, [], ◌∷◌, ◌≡◌, ℕ, ◌+◌, ◌<◌, ◌≤◌, length, get_or};
ghost use Rattle.flow.specs.Format.{flow_of};
ghost use Rattle.flow.specs.Clauses.Answers.{statement_in};
ghost use Rattle.theory.specs.Body.{successors};
ghost use Rattle.theory.specs.Sure.{gosub_body};
ghost use Rattle.statements.specs.Clauses.Layout.{sure_at};
ghost use Rattle.statements.specs.Clauses.Ready.{Ready, Indexed};
ghost use Rattle.sure.specs.Clauses.Layout as at;
ghost use Rattle.sure.specs.Clauses.Noting.{body_of, body_word, asked, Asks, BodiesNoted, Firsts, NotesFollower, StatementNoted, StatementsNoted};

use crate::encoding::{Followers, body_of, body_word, followers_of, followers_word};
use crate::layout::{first, mirrored, waiting};
use flow::StmtId;
use statements::fields;
use statements::layout::Layout;

// The body that statement c enters, if it is a plain GOSUB with a continuation.
fn gosub_body(file: &[u8], h: flow::Header, work: &[u64], c: StmtId) -> Option<StmtId>
    requires { Indexed file.now h work.now × (c.0 < h.statements) }
    ensures { result ≡ statement_in (body_of (gosub_body (flow_of file.now) c.0)) }
{
    let p = fields::offset(file, work, h.statements, c);
    if !fields::is_gosub(file, c, p) {
        return None;
    }
    records::continuation(file, p)?;
    fields::entered(file, work, h.statements, h.lines_at, c, 0)
}

// The body of each such GOSUB, in the word of its sure arrays. Says whether there is one.
pub fn note_bodies(file: &[u8], h: flow::Header, work: &mut [u64]) -> bool
    requires { Indexed file.now h work.old × ((c : ℕ) → c < h.statements → get_or work.old (sure_at h.statements + c) 0 ≡ 0) }
    ensures { BodiesNoted (flow_of file.now) work.old work.new h.statements × (result ≡ false → (c : ℕ) → c < h.statements → body_word (gosub_body (flow_of file.now) c) ≡ 0) }
{
    let layout = Layout { n: h.statements };
    let mut found = false;
    for c in 0..layout.n {
        if let Some(b) = gosub_body(file, h, work, StmtId(c)) {
            work[layout.sure() + c] = body_word(Some(b));
            found = true;
        }
    }
    found
}

// The set of statement i follows from that of j: i is noted as the first such statement, or in the row of j. A row is zeroed where it is first needed.
fn note_follower(work: &mut [u64], layout: Layout, j: StmtId, i: StmtId)
    requires { (at.words_end layout.n ≤ length work.old) × (j.0 < layout.n) × (i.0 < layout.n) × Firsts work.old layout.n }
    ensures { NotesFollower work.old work.new layout.n i.0 (j.0 ∷ []) }
{
    let at = first(layout, j);
    let Some(followers) = followers_of(work[at]) else {
        work[at] = followers_word(Followers {
            first: i,
            more: false,
        });
        return;
    };
    let row = layout.row(j);
    if !followers.more {
        words::zero_row(work, row, layout.row_words());
        work[at] = followers_word(Followers {
            more: true,
            ..followers
        });
    }
    words::insert(work, row, mirrored(layout.n, i));
}

fn note_successors(file: &[u8], work: &mut [u64], layout: Layout, i: StmtId)
    requires { Ready file.now work.old layout.n × (at.words_end layout.n ≤ length work.old) × (i.0 < layout.n) × Firsts work.old layout.n }
    ensures { NotesFollower work.old work.new layout.n i.0 (successors (flow_of file.now) i.0) }
{
    let p = fields::offset(file, work, layout.n, i);
    let count = records::successor_count(file, p);
    for k in 0..count {
        let j = fields::successor_at(file, i, p, k);
        note_follower(work, layout, j, i);
    }
}

// The set of a call with a continuation follows from that of its continuation, and if it asks a body, from that of the body.
fn note_call(work: &mut [u64], layout: Layout, i: StmtId, k: StmtId)
    requires { (at.words_end layout.n ≤ length work.old) × (k.0 < layout.n) × (i.0 < layout.n) × (get_or work.old (sure_at layout.n + i.0) 0 ≤ layout.n) × Firsts work.old layout.n }
    ensures { NotesFollower work.old work.new layout.n i.0 (k.0 ∷ asked (get_or work.old (sure_at layout.n + i.0) 0)) }
{
    note_follower(work, layout, k, i);
    if let Some(b) = body_of(work[layout.sure() + i.0]) {
        note_follower(work, layout, b, i);
    }
}

// Statement i is noted where its set follows from: the statements that a body walk goes on to, and the body that it asks. That of a RETURN follows from no other, and it waits.
fn note_statement(file: &[u8], work: &mut [u64], layout: Layout, i: StmtId)
    requires { Ready file.now work.old layout.n × (at.words_end layout.n ≤ length work.old) × (i.0 < layout.n) × Asks (gosub_body (flow_of file.now)) work.old layout.n × Firsts work.old layout.n }
    ensures { StatementNoted (flow_of file.now) work.old work.new layout.n i.0 }
{
    if fields::is_return(file, work, layout.n, i) {
        words::insert(work, waiting(layout), mirrored(layout.n, i));
        return;
    }
    match fields::continuation(file, work, layout.n, i) {
        Some(k) => note_call(work, layout, i, k),
        None => note_successors(file, work, layout, i),
    }
}

// All statements; no set has anything yet.
pub fn note_statements(file: &[u8], work: &mut [u64], layout: Layout)
    requires { Ready file.now work.old layout.n × (at.words_end layout.n ≤ length work.old) × Asks (gosub_body (flow_of file.now)) work.old layout.n }
    ensures { StatementsNoted (flow_of file.now) work.old work.new layout.n }
{
    words::zero_row(work, layout.lists(), 4 * layout.n);
    for i in 0..layout.n {
        note_statement(file, work, layout, StmtId(i));
    }
}
