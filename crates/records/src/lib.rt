// Fields of a statement's record at p, which was found fit. The file and p stay two parameters: of a struct of both, contracts would say `self.entry.file.now` and `self.entry.at`.
#![tactic(auto, using(crate::proofs::Fits::fits))]

ghost use Rattle.std.specs.Prelude.{cond, eqb, ◌≡◌, ◌+◌, ◌≤◌, ◌<◌, length};
ghost use Rattle.flow.specs.Limits.{no_continuation};
ghost use Rattle.flow.specs.Format.{continuation_from, line_at, kind_at, successor_count, successor_at, references_place, reference_count, reference_at, names_place, written_at, read_at, data_place, item_at, record_end};
ghost use Rattle.flow.specs.Clauses.Kinds.{kind_number};
ghost use Rattle.flow.specs.Clauses.Answers.{FitRecord, statement_in};
ghost use Rattle.records.specs.Clauses.Fields.{record_part, item_count, acts_at, call_line_count, call_lines_place, call_line_at, continuation_in, bit_in, set_word};

use flow::bytes::{u8_at, u16_at, u64_at};
use flow::kind::Kind;
use flow::{Item, NO_CONTINUATION, StmtId};

pub fn kind(file: &[u8], p: usize) -> Kind
    requires { FitRecord file.now p }
    ensures { kind_number result ≡ kind_at file.now p }
{
    Kind::at(file, p)
}

pub fn successor_count(file: &[u8], p: usize) -> usize
    requires { FitRecord file.now p }
    ensures { result ≡ successor_count file.now p }
{
    u8_at(file, p + 5)
}

pub fn successor(file: &[u8], p: usize, k: usize) -> StmtId
    requires { FitRecord file.now p × (k < successor_count file.now p) }
    ensures { result.0 ≡ successor_at file.now p k }
{
    StmtId(u16_at(file, p + 6 + 2 * k))
}

// The place of the reference count.
fn references_place(file: &[u8], p: usize) -> usize
    requires { FitRecord file.now p }
    ensures { result ≡ references_place file.now p }
{
    p + 6 + 2 * u8_at(file, p + 5)
}

pub fn reference_count(file: &[u8], p: usize) -> usize
    requires { FitRecord file.now p }
    ensures { result ≡ reference_count file.now p }
{
    u8_at(file, references_place(file, p))
}

pub fn reference(file: &[u8], p: usize, k: usize) -> usize
    requires { FitRecord file.now p × (k < reference_count file.now p) }
    ensures { result ≡ reference_at file.now p k }
{
    u8_at(file, references_place(file, p) + 1 + k)
}

// Array a as a bit of word w: none where it belongs to another word, as it may once sets have more words than one.
fn bit_in(w: usize, a: usize) -> u64
    ensures { result ≡ bit_in w a }
{
    if a / 64 == w { 1u64 << (a % 64) } else { 0 }
}

// Word w of the set of references: array a is bit a % 64 of word a / 64.
#[tactic(auto, using(crate::proofs::Fits::fits), unfolding(crate::specs::Clauses::Fields::set_word))]
pub fn references_word(file: &[u8], p: usize, w: usize) -> u64
    requires { FitRecord file.now p }
    ensures { result ≡ set_word (reference_count file.now p) (reference_at file.now p) w }
{
    let first = references_place(file, p) + 1;
    let mut word = 0;
    for a in &file[first..first + reference_count(file, p)] {
        word |= bit_in(w, *a as usize);
    }
    word
}

// The place of the names written; those read follow.
fn names_place(file: &[u8], p: usize) -> usize
    requires { FitRecord file.now p }
    ensures { result ≡ names_place file.now p }
{
    let at = references_place(file, p);
    at + 1 + u8_at(file, at)
}

pub fn written(file: &[u8], p: usize) -> u64
    requires { FitRecord file.now p }
    ensures { result ≡ written_at file.now p }
{
    u64_at(file, names_place(file, p))
}

pub fn read(file: &[u8], p: usize) -> u64
    requires { FitRecord file.now p }
    ensures { result ≡ read_at file.now p }
{
    u64_at(file, names_place(file, p) + 8)
}

// Where the kind's data begin.
fn data_place(file: &[u8], p: usize) -> usize
    requires { FitRecord file.now p }
    ensures { result ≡ data_place file.now p }
{
    names_place(file, p) + 16
}

// The items of a DIM; other kinds have none.
#[tactic(auto, using(crate::proofs::Fits::fits), unfolding(crate::specs::Clauses::Fields::item_count))]
pub fn item_count(file: &[u8], p: usize) -> usize
    requires { FitRecord file.now p }
    ensures { result ≡ item_count file.now p }
{
    match kind(file, p) {
        Kind::Dim => u8_at(file, data_place(file, p)),
        _ => 0,
    }
}

pub fn item(file: &[u8], p: usize, k: usize) -> Item
    requires { FitRecord file.now p × (k < item_count file.now p) }
    ensures { (result.array ≡ (item_at file.now p k).array) × (cond result.flag 1 0 ≡ (item_at file.now p k).flag) }
{
    let at = data_place(file, p) + 1 + 2 * k;
    Item {
        array: u8_at(file, at),
        flag: u8_at(file, at + 1) == 1,
    }
}

// Whether the statement does anything to masks.
#[tactic(auto, using(crate::proofs::Fits::fits), unfolding(crate::specs::Clauses::Fields::acts_at))]
pub fn acts(file: &[u8], p: usize) -> bool
    requires { FitRecord file.now p }
    ensures { result ≡ acts_at file.now p }
{
    match kind(file, p) {
        Kind::Clr | Kind::Run => true,
        _ => 0 < item_count(file, p) || 0 < reference_count(file, p),
    }
}

// The lines of a call, of which GOSUB has one; other kinds have none.
#[tactic(auto, using(crate::proofs::Fits::fits), unfolding(crate::specs::Clauses::Fields::call_line_count))]
pub fn line_count(file: &[u8], p: usize) -> usize
    requires { FitRecord file.now p }
    ensures { result ≡ call_line_count file.now p }
{
    match kind(file, p) {
        Kind::Gosub => 1,
        Kind::OnGosub => u8_at(file, data_place(file, p)),
        _ => 0,
    }
}

// Where the lines of a call begin.
fn lines_place(file: &[u8], p: usize) -> usize
    requires { FitRecord file.now p }
    ensures { result ≡ call_lines_place file.now p }
{
    let at = data_place(file, p);
    match kind(file, p) {
        Kind::Gosub => at,
        _ => at + 1,
    }
}

pub fn call_line(file: &[u8], p: usize, k: usize) -> usize
    requires { FitRecord file.now p × (k < call_line_count file.now p) }
    ensures { result ≡ call_line_at file.now p k }
{
    u16_at(file, lines_place(file, p) + 2 * k)
}

// The place after the record.
#[tactic(auto, using(crate::proofs::Fits::fits), unfolding(flow::specs::Format::record_end))]
pub fn record_end(file: &[u8], p: usize) -> usize
    requires { FitRecord file.now p }
    ensures { result ≡ record_end file.now p }
{
    let at = data_place(file, p);
    match kind(file, p) {
        Kind::Dim => at + 1 + 2 * u8_at(file, at),
        Kind::Gosub => at + 4,
        Kind::OnGosub => at + 3 + 2 * u8_at(file, at),
        _ => at,
    }
}

// What the number of a continuation stands for.
fn target(t: usize) -> Option<StmtId>
    ensures { result ≡ statement_in (continuation_from t (eqb t no_continuation)) }
{
    if t == NO_CONTINUATION {
        None
    } else {
        Some(StmtId(t))
    }
}

// A call's continuation ends its record.
pub fn continuation(file: &[u8], p: usize) -> Option<StmtId>
    requires { FitRecord file.now p }
    ensures { result ≡ statement_in (continuation_in file.now p) }
{
    match kind(file, p) {
        Kind::Gosub | Kind::OnGosub => target(u16_at(file, record_end(file, p) - 2)),
        _ => None,
    }
}

// The record, as that part of the file.
pub fn record(file: &[u8], p: usize) -> &[u8]
    requires { FitRecord file.now p }
    ensures { result.now ≡ record_part file.now p }
{
    let e = record_end(file, p);
    &file[p..e]
}

// The line of a record that was given out.
pub fn record_line(part: &[u8]) -> usize
    requires { 4 ≤ length part.now }
    ensures { result ≡ line_at part.now 0 }
{
    u16_at(part, 2)
}

pub mod lines;
pub mod offsets;
