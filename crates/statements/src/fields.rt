// The fields of statement i, each equal to the field of the flow that the file stands for. What the words of the lent area hold (`Ready`, and in the crates above `Linked`, `Waits` and others) stays a
// clause: the phases write the area in turn, and a struct over it would have to show all its facts again at each write.
ghost use Rattle.std.specs.Prelude.{◌≡◌, ◌<◌, cond, length, get_or};
ghost use Rattle.flow.specs.Flow.{statement, enters, items};
ghost use Rattle.flow.specs.Format.{flow_of, record_place};
ghost use Rattle.flow.specs.Clauses.Answers.{statement_in};
ghost use Rattle.records.specs.Clauses.Fields.{record_part};
ghost use Rattle.theory.specs.Body as body;
ghost use Rattle.theory.specs.Body.{kind, successors, references, call_lines, continuation_of, is_return};
ghost use Rattle.theory.specs.Doubled as doubled;
ghost use Rattle.theory.specs.Lists as lists;
ghost use Rattle.theory.specs.Sure.{is_gosub};
ghost use Rattle.statements.specs.Clauses.Ready.{Ready, Located, RecordOf, MembersWord, acts_in, no_item};

use crate::layout::lines;
use flow::StmtId;
use flow::kind::Kind;
use records::offsets::Noted;

// The place of statement i's record.
pub fn offset(file: &[u8], work: &[u64], n: usize, i: StmtId) -> usize
    requires { Ready file.now work.now n × (i.0 < n) }
    ensures { RecordOf file.now i.0 result }
{
    Noted::from(work[i.0]).place as usize
}

// Whether statement i does anything to masks, which is noted with the place of its record.
pub fn acts(file: &[u8], work: &[u64], n: usize, i: StmtId) -> bool
    requires { Ready file.now work.now n × (i.0 < n) }
    ensures { result ≡ acts_in (flow_of file.now) i.0 }
{
    Noted::from(work[i.0]).acts
}

pub fn is_return(file: &[u8], work: &[u64], n: usize, i: StmtId) -> bool
    requires { Ready file.now work.now n × (i.0 < n) }
    ensures { result ≡ is_return (kind (flow_of file.now) i.0) }
{
    records::kind(file, offset(file, work, n, i)) == Kind::Return
}

// CLR and RUN: every array becomes NONE. The record of statement i is at p.
pub fn resets(file: &[u8], i: StmtId, p: usize) -> bool
    requires { RecordOf file.now i.0 p }
    ensures { result ≡ doubled.resets (kind (flow_of file.now) i.0) }
{
    matches!(records::kind(file, p), Kind::Clr | Kind::Run)
}

// A plain GOSUB. The record of statement i is at p.
pub fn is_gosub(file: &[u8], i: StmtId, p: usize) -> bool
    requires { RecordOf file.now i.0 p }
    ensures { result ≡ is_gosub (kind (flow_of file.now) i.0) }
{
    records::kind(file, p) == Kind::Gosub
}

// CLR, RUN and a DIM that counts.
pub fn wipes(file: &[u8], work: &[u64], n: usize, i: StmtId) -> bool
    requires { Ready file.now work.now n × (i.0 < n) }
    ensures { result ≡ body.wipes (kind (flow_of file.now) i.0) }
{
    let p = offset(file, work, n, i);
    resets(file, i, p) || 0 < records::item_count(file, p)
}

pub fn continuation(file: &[u8], work: &[u64], n: usize, i: StmtId) -> Option<StmtId>
    requires { Ready file.now work.now n × (i.0 < n) }
    ensures { result ≡ statement_in (continuation_of (kind (flow_of file.now) i.0)) }
{
    records::continuation(file, offset(file, work, n, i))
}

pub fn successor_count(file: &[u8], work: &[u64], n: usize, i: StmtId) -> usize
    requires { Ready file.now work.now n × (i.0 < n) }
    ensures { result ≡ length (successors (flow_of file.now) i.0) }
{
    records::successor_count(file, offset(file, work, n, i))
}

pub fn successor(file: &[u8], work: &[u64], n: usize, i: StmtId, k: usize) -> StmtId
    requires { Ready file.now work.now n × (i.0 < n) × (k < length (successors (flow_of file.now) i.0)) }
    ensures { result.0 ≡ get_or (successors (flow_of file.now) i.0) k 0 }
{
    successor_at(file, i, offset(file, work, n, i), k)
}

// The same, where the record of statement i is known to be at p.
pub fn successor_at(file: &[u8], i: StmtId, p: usize, k: usize) -> StmtId
    requires { RecordOf file.now i.0 p × (k < length (successors (flow_of file.now) i.0)) }
    ensures { result.0 ≡ get_or (successors (flow_of file.now) i.0) k 0 }
{
    records::successor(file, p, k)
}

pub fn reference_count(file: &[u8], work: &[u64], n: usize, i: StmtId) -> usize
    requires { Ready file.now work.now n × (i.0 < n) }
    ensures { result ≡ length (references (flow_of file.now) i.0) }
{
    records::reference_count(file, offset(file, work, n, i))
}

pub fn reference(file: &[u8], work: &[u64], n: usize, i: StmtId, k: usize) -> usize
    requires { Ready file.now work.now n × (i.0 < n) × (k < length (references (flow_of file.now) i.0)) }
    ensures { result ≡ get_or (references (flow_of file.now) i.0) k 0 }
{
    records::reference(file, offset(file, work, n, i), k)
}

// The references as a set: array a is bit a of the word.
pub fn references_word(file: &[u8], work: &[u64], n: usize, i: StmtId) -> u64
    requires { Ready file.now work.now n × (i.0 < n) }
    ensures { MembersWord result (λ a. lists.elem a (references (flow_of file.now) i.0)) }
{
    records::references_word(file, offset(file, work, n, i), 0)
}

pub fn written(file: &[u8], work: &[u64], n: usize, i: StmtId) -> u64
    requires { Ready file.now work.now n × (i.0 < n) }
    ensures { result ≡ (statement (flow_of file.now) i.0).written }
{
    records::written(file, offset(file, work, n, i))
}

pub fn read(file: &[u8], work: &[u64], n: usize, i: StmtId) -> u64
    requires { Ready file.now work.now n × (i.0 < n) }
    ensures { result ≡ (statement (flow_of file.now) i.0).read }
{
    records::read(file, offset(file, work, n, i))
}

pub fn item_count(file: &[u8], work: &[u64], n: usize, i: StmtId) -> usize
    requires { Ready file.now work.now n × (i.0 < n) }
    ensures { result ≡ length (items (kind (flow_of file.now) i.0)) }
{
    records::item_count(file, offset(file, work, n, i))
}

pub fn item(file: &[u8], work: &[u64], n: usize, i: StmtId, k: usize) -> flow::Item
    requires { Ready file.now work.now n × (i.0 < n) × (k < length (items (kind (flow_of file.now) i.0))) }
    ensures { (result.array ≡ (get_or (items (kind (flow_of file.now) i.0)) k no_item).array) × (cond result.flag 1 0 ≡ (get_or (items (kind (flow_of file.now) i.0)) k no_item).flag) }
{
    records::item(file, offset(file, work, n, i), k)
}

// The lines that a call names.
pub fn line_count(file: &[u8], work: &[u64], n: usize, i: StmtId) -> usize
    requires { Ready file.now work.now n × (i.0 < n) }
    ensures { result ≡ length (call_lines (kind (flow_of file.now) i.0)) }
{
    records::line_count(file, offset(file, work, n, i))
}

// The statement that the k-th of them enters, if any. The file's lines stand at `lines_at`.
pub fn entered(
    file: &[u8],
    work: &[u64],
    n: usize,
    lines_at: usize,
    i: StmtId,
    k: usize,
) -> Option<StmtId>
    requires { Located file.now work.now n lines_at × (i.0 < n) × (k < length (call_lines (kind (flow_of file.now) i.0))) }
    ensures { result ≡ statement_in (enters (flow_of file.now) (get_or (call_lines (kind (flow_of file.now) i.0)) k 0)) }
{
    let line = records::call_line(file, offset(file, work, n, i), k);
    records::lines::line_entry(file, lines_at, work, lines(n), n, line)
}

// The record of statement i, given out as that part of the file.
pub fn record<'a>(file: &'a [u8], work: &[u64], n: usize, i: StmtId) -> &'a [u8]
    requires { Ready file.now work.now n × (i.0 < n) }
    ensures { result.now ≡ record_part file.now (record_place file.now i.0) }
{
    records::record(file, offset(file, work, n, i))
}
