// The checking reader: every field of a file in file order, up to the first that is unfit. It writes nothing.
#![tactic(auto, using(crate::proofs::Tests::tests), unfolding(crate::specs::Format::header_checks, crate::specs::Format::start_checks, crate::specs::Format::reference_count_checks, crate::specs::Format::reference_checks, crate::specs::Format::name_checks, crate::specs::Format::item_checks, crate::specs::Format::dim_checks, crate::specs::Format::continuation_checks, crate::specs::Format::gosub_checks, crate::specs::Format::data_checks, crate::specs::Format::record_end, crate::specs::Format::key_checks, crate::specs::Format::end_checks, crate::specs::Format::each, crate::specs::Format::verdict))]

ghost use Rattle.std.specs.Prelude.{◌≡◌, ◌++◌, ◌+◌, ◌≤◌, ◌^◌, length, ltb};
ghost use Rattle.flow.specs.Format as format;
ghost use Rattle.flow.specs.Format.{verdict, each, header_checks, start_checks, reference_count_checks, reference_checks, name_checks, dim_checks, gosub_checks, on_gosub_checks, continuation_checks, data_checks, rest_checks, statement_checks, line_record_checks, key_checks, end_checks, file_checks, successors_place, references_place, reference_count, names_place, data_place, elements_end, record_end, lines_place, line_count, key_place, end_place, handler_of};
ghost use Rattle.flow.specs.Clauses.Answers.{Reached, answer_of, statement_in, header_of};
ghost use Rattle.flow.specs.Clauses.Parts.{Due, Read, part_answer};

use crate::bytes::{u8_at, u16_at, u64_at};
use crate::kind::Kind;
use crate::reader::Reader;
use crate::{
    Header, MAX_ARRAYS, MAX_FILE, MAX_NAMES, MAX_STATEMENTS, NO_CONTINUATION, Part, Refusal, StmtId,
};

// Whether `F` and the letter stand at p, within the file.
fn marked(file: &[u8], p: usize, letter: u8) -> bool
    requires { p ≤ length file.now }
    ensures { result ≡ format.marked file.now p letter }
{
    p + 2 <= file.len() && file[p] == b'F' && file[p + 1] == letter
}

// The length of the file and its header.
fn check_header(file: &[u8]) -> Result<usize, Refusal>
    ensures { result ≡ answer_of (verdict (header_checks file.now)) 8 }
{
    if file.len() > MAX_FILE {
        return Err(Refusal::TooLong);
    }
    if !marked(file, 0, b'H') {
        return Err(Refusal::Record(0));
    }
    if file.len() < 4 {
        return Err(Refusal::Record(0));
    }
    let n = u16_at(file, 2);
    if n > MAX_STATEMENTS {
        return Err(Refusal::Header(0));
    }
    if file.len() < 5 {
        return Err(Refusal::Record(0));
    }
    if u8_at(file, 4) > MAX_ARRAYS {
        return Err(Refusal::Header(0));
    }
    if file.len() < 6 {
        return Err(Refusal::Record(0));
    }
    if u8_at(file, 5) > MAX_NAMES {
        return Err(Refusal::Header(0));
    }
    if file.len() < 8 {
        return Err(Refusal::Record(0));
    }
    if n == 0 {
        return Ok(8);
    }
    if u16_at(file, 6) >= n {
        return Err(Refusal::Header(0));
    }
    Ok(8)
}

// The mark, the line, the kind and the successor count of the record at p.
fn check_start(file: &[u8], p: usize) -> Result<usize, Refusal>
    requires { p ≤ length file.now }
    ensures { result ≡ answer_of (verdict (start_checks file.now p)) (successors_place p) }
{
    if !marked(file, p, b'N') {
        return Err(Refusal::Record(p));
    }
    if file.len() < p + 5 {
        return Err(Refusal::Record(p));
    }
    if Kind::try_from(file[p + 4]).is_err() {
        return Err(Refusal::Kind(p));
    }
    if file.len() < p + 6 {
        return Err(Refusal::Record(p));
    }
    Ok(p + 6)
}

// The references of the record at p, whose count stands at `at`. `least` is the smallest array number that still rises.
fn check_references(file: &[u8], p: usize, at: usize) -> Result<usize, Refusal>
    requires { Reached file.now p at (references_place file.now p) }
    ensures { result ≡ answer_of (verdict (reference_count_checks file.now p ++ each (reference_count file.now p) (reference_checks file.now p))) (names_place file.now p) }
{
    if file.len() <= at {
        return Err(Refusal::Record(p));
    }
    let count = u8_at(file, at);
    if count == 0 {
        return Ok(at + 1);
    }
    if Kind::at(file, p) == Kind::Return {
        return Err(Refusal::ReturnReference(p));
    }
    let arrays = u8_at(file, 4);
    let mut least = 0;
    for k in 0..count {
        let q = at + 1 + k;
        if file.len() <= q {
            return Err(Refusal::Record(p));
        }
        let a = u8_at(file, q);
        if a >= arrays {
            return Err(Refusal::Member(p));
        }
        if a < least {
            return Err(Refusal::Order(p));
        }
        least = a + 1;
    }
    Ok(at + 1 + count)
}

// Whether no bit of w is at or above names.
fn names_fit(w: u64, names: usize) -> bool
    ensures { result ≡ ltb w (2 ^ names) }
{
    names >= 64 || w >> names == 0
}

// The names written and the names read by the record at p, which stand at `at`.
fn check_names(file: &[u8], p: usize, at: usize) -> Result<usize, Refusal>
    requires { Reached file.now p at (names_place file.now p) }
    ensures { result ≡ answer_of (verdict (name_checks file.now p)) (data_place file.now p) }
{
    let names = u8_at(file, 5);
    if file.len() < at + 8 {
        return Err(Refusal::Record(p));
    }
    if !names_fit(u64_at(file, at), names) {
        return Err(Refusal::Member(p));
    }
    if file.len() < at + 16 {
        return Err(Refusal::Record(p));
    }
    if !names_fit(u64_at(file, at + 8), names) {
        return Err(Refusal::Member(p));
    }
    Ok(at + 16)
}

// The data of a DIM: items of an array and a flag, whose count stands at `at`.
fn check_items(file: &[u8], p: usize, at: usize) -> Result<usize, Refusal>
    requires { Reached file.now p at (data_place file.now p) }
    ensures { result ≡ answer_of (verdict (dim_checks file.now p)) (elements_end file.now p) }
{
    if file.len() <= at {
        return Err(Refusal::Record(p));
    }
    let count = u8_at(file, at);
    let arrays = u8_at(file, 4);
    for k in 0..count {
        let q = at + 1 + 2 * k;
        if file.len() <= q {
            return Err(Refusal::Record(p));
        }
        if u8_at(file, q) >= arrays {
            return Err(Refusal::Member(p));
        }
        if file.len() <= q + 1 {
            return Err(Refusal::Record(p));
        }
        if u8_at(file, q + 1) > 1 {
            return Err(Refusal::Kind(p));
        }
    }
    Ok(at + 1 + 2 * count)
}

// A call's continuation: a statement, or none.
fn check_continuation(file: &[u8], p: usize, at: usize) -> Result<usize, Refusal>
    requires { Reached file.now p at at }
    ensures { result ≡ answer_of (verdict (continuation_checks file.now p at)) (at + 2) }
{
    if file.len() < at + 2 {
        return Err(Refusal::Record(p));
    }
    let t = u16_at(file, at);
    if t == NO_CONTINUATION {
        return Ok(at + 2);
    }
    if t >= u16_at(file, 2) {
        return Err(Refusal::Target(p));
    }
    Ok(at + 2)
}

// The data of a GOSUB: a line, which may be any, and a continuation.
fn check_gosub(file: &[u8], p: usize, at: usize) -> Result<usize, Refusal>
    requires { Reached file.now p at (data_place file.now p) }
    ensures { result ≡ answer_of (verdict (gosub_checks file.now p)) (data_place file.now p + 4) }
{
    if file.len() < at + 2 {
        return Err(Refusal::Record(p));
    }
    check_continuation(file, p, at + 2)
}

// The data of an ON GOSUB: lines and a continuation. The lines may be any, so it is enough that the last one lies within the file.
fn check_call_lines(file: &[u8], p: usize, at: usize) -> Result<usize, Refusal>
    requires { Reached file.now p at (data_place file.now p) }
    ensures { result ≡ answer_of (verdict (on_gosub_checks file.now p)) (elements_end file.now p + 2) }
{
    if file.len() <= at {
        return Err(Refusal::Record(p));
    }
    let end = at + 1 + 2 * u8_at(file, at);
    if file.len() < end {
        return Err(Refusal::Record(p));
    }
    check_continuation(file, p, end)
}

// The data of the kind.
fn check_data(file: &[u8], p: usize, at: usize) -> Result<usize, Refusal>
    requires { Reached file.now p at (data_place file.now p) }
    ensures { result ≡ answer_of (verdict (data_checks file.now p)) (record_end file.now p) }
{
    // No `match`: it becomes one jump by a table, which is guessed wrong wherever a record's kind is another one than the last.
    let kind = Kind::at(file, p);
    if kind == Kind::Dim {
        check_items(file, p, at)
    } else if kind == Kind::Gosub {
        check_gosub(file, p, at)
    } else if kind == Kind::OnGosub {
        check_call_lines(file, p, at)
    } else {
        Ok(at)
    }
}

// The rest of the record at p, behind its successors.
fn check_rest(file: &[u8], p: usize, at: usize) -> Result<usize, Refusal>
    requires { Reached file.now p at (references_place file.now p) }
    ensures { result ≡ answer_of (verdict (rest_checks file.now p)) (record_end file.now p) }
{
    let names_at = check_references(file, p, at)?;
    let data_at = check_names(file, p, names_at)?;
    check_data(file, p, data_at)
}

// The statements' records, one after the other: the first unfit field ends the reading of all of them. By a labelled loop that is left from the inner one, as the order asks.
fn check_statements(file: &[u8]) -> Result<usize, Refusal>
    requires { 8 ≤ length file.now }
    ensures { result ≡ answer_of (verdict (statement_checks file.now)) (lines_place file.now) }
{
    let n = u16_at(file, 2);
    let mut p = 8;
    let mut refusal = None;
    'records: for i in 0..n {
        let successors = check_start(file, p)?;
        let count = u8_at(file, p + 5);
        for k in 0..count {
            let q = successors + 2 * k;
            if file.len() < q + 2 {
                refusal = Some(Refusal::Record(p));
                break 'records;
            }
            if u16_at(file, q) >= n {
                refusal = Some(Refusal::Target(p));
                break 'records;
            }
        }
        p = check_rest(file, p, successors + 2 * count)?;
    }
    match refusal {
        Some(r) => Err(r),
        None => Ok(p),
    }
}

// The FL records, of which the first stands at `at`, if there are any.
fn check_lines(file: &[u8], at: usize) -> Result<usize, Refusal>
    requires { (8 ≤ length file.now) × (at ≤ length file.now) × (at ≡ lines_place file.now) }
    ensures { result ≡ answer_of (verdict (each (line_count file.now) (line_record_checks file.now))) (key_place file.now) }
{
    let n = u16_at(file, 2);
    let mut least = 0;
    let mut k = 0;
    // How many FL records there are is known at the last one alone, so this is no range.
    while marked(file, at + 6 * k, b'L') {
        let q = at + 6 * k;
        if file.len() < q + 4 {
            return Err(Refusal::Record(q));
        }
        let line = u16_at(file, q + 2);
        if line < least {
            return Err(Refusal::Order(q));
        }
        if file.len() < q + 6 {
            return Err(Refusal::Record(q));
        }
        if u16_at(file, q + 4) >= n {
            return Err(Refusal::Target(q));
        }
        least = line + 1;
        k += 1;
    }
    Ok(at + 6 * k)
}

// The key's record at `at`, if it is there.
fn check_key(file: &[u8], at: usize) -> Result<usize, Refusal>
    requires { (8 ≤ length file.now) × (at ≤ length file.now) × (at ≡ key_place file.now) }
    ensures { result ≡ answer_of (verdict (key_checks file.now)) (end_place file.now) }
{
    if !marked(file, at, b'K') {
        return Ok(at);
    }
    if file.len() < at + 4 {
        return Err(Refusal::Record(at));
    }
    if u16_at(file, at + 2) >= u16_at(file, 2) {
        return Err(Refusal::Target(at));
    }
    Ok(at + 4)
}

// The end record at `at`, and nothing after it.
fn check_end(file: &[u8], at: usize) -> Result<usize, Refusal>
    requires { (at ≤ length file.now) × (at ≡ end_place file.now) }
    ensures { result ≡ answer_of (verdict (end_checks file.now)) (end_place file.now + 2) }
{
    if !marked(file, at, b'E') {
        return Err(Refusal::Record(at));
    }
    if file.len() > at + 2 {
        return Err(Refusal::Trailing(at + 2));
    }
    Ok(at + 2)
}

// One part of the file, which begins at `at`.
pub fn check_part(file: &[u8], part: Part, at: usize) -> Result<usize, Refusal>
    requires { Due file.now part at }
    ensures { result ≡ part_answer file.now part }
{
    match part {
        Part::Header => check_header(file),
        Part::Statements => check_statements(file),
        Part::Lines => check_lines(file, at),
        Part::Key => check_key(file, at),
        Part::End => check_end(file, at),
    }
}

// The handler of a file that is fit, whose key was looked for at `key_at` and whose end stands at `end_at`.
fn handler(file: &[u8], key_at: usize, end_at: usize) -> Option<StmtId>
    requires { (key_at ≡ key_place file.now) × (end_at ≡ end_place file.now) × (end_at ≤ length file.now) }
    ensures { result ≡ statement_in (handler_of file.now) }
{
    if key_at < end_at {
        return Some(StmtId(u16_at(file, key_at + 2)));
    }
    None
}

// The header of a file that is fit. The lines were looked for at `lines_at`, the key at `key_at`, and the end at `end_at`.
fn header(file: &[u8], lines_at: usize, key_at: usize, end_at: usize) -> Header
    requires { Read file.now lines_at key_at end_at }
    ensures { result ≡ header_of file.now }
{
    Header {
        statements: u16_at(file, 2),
        arrays: u8_at(file, 4),
        names: u8_at(file, 5),
        entry: StmtId(u16_at(file, 6)),
        lines_at,
        lines: (key_at - lines_at) / 6,
        handler: handler(file, key_at, end_at),
    }
}

// A whole file: one reader goes through its parts, and each begins where the reader stands. The first refusal is the answer.
pub fn check_file(file: &[u8]) -> Result<Header, Refusal>
    ensures { result ≡ answer_of (verdict (file_checks file.now)) (header_of file.now) }
{
    let mut reader = Reader::new(file);
    reader.next(Part::Header)?;
    let lines_at = reader.next(Part::Statements)?;
    let key_at = reader.next(Part::Lines)?;
    let end_at = reader.next(Part::Key)?;
    reader.next(Part::End)?;
    Ok(header(file, lines_at, key_at, end_at))
}
