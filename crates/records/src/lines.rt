// The statement that a line enters, by binary search: the FL records of a fit file rise strictly. The lines of 16 bits fall into n parts of one size, and it is noted once
// where the records of each part stand, so that a search is among the few of one part.
#![tactic(auto)]

ghost use Rattle.std.specs.Prelude.{◌≡◌, cond, ℕ, ◌+◌, ◌*◌, ◌/◌, ◌%◌, ◌≤◌, ◌<◌, ltb, length, get_or};
ghost use Rattle.flow.specs.Format.{u16_at, lines_place, line_place, line_count, flow_of};
ghost use Rattle.flow.specs.Flow.{enters};
ghost use Rattle.flow.specs.Limits.{max_statements};
ghost use Rattle.flow.specs.Clauses.Answers.{FitFile, statement_in};
ghost use Rattle.records.specs.Clauses.Fields.{LineRank, PartsNoted, LineParts};

use flow::StmtId;
use flow::bytes::u16_at;
use std::ops::Range;

// 1 if the number at `at` is below the line, else 0: by a carry, since a branch on it would be mispredicted at every other step of the search.
fn below(file: &[u8], at: usize, line: usize) -> usize
    requires { (at + 2 ≤ length file.now) × (line < 65536) }
    ensures { result ≡ cond (ltb (u16_at file.now at) line) 1 0 }
{
    (65535 + line - u16_at(file, at)) / 65536
}

// The place of the first of these FL records whose line is not below this one, or where they end. By places, not by numbers of records: a step
// of the search then waits for less. The first of them stands at `at`, and there are n.
fn line_place(file: &[u8], at: usize, n: usize, line: usize) -> usize
    requires { FitFile file.now × (line < 65536) × ((k : ℕ) × (at ≡ line_place file.now k) × (k + n ≤ line_count file.now)) }
    ensures { (k j : ℕ) × (at ≡ line_place file.now k) × (result ≡ line_place file.now j) × LineRank file.now k (k + n) line j }
{
    let mut p = at;
    let mut len = n;
    // No range: a search that halves what is left.
    while 0 < len {
        let half = len - len / 2;
        let step = 6 * half;
        p += step * below(file, p + step - 4, line);
        len -= half;
    }
    p
}

// The FL records of a part of the lines, by their numbers, as the part's word has them.
fn part_records(word: u64) -> Range<usize>
    ensures { (result.start ≡ word % 65536) × (result.end ≡ word / 65536) }
{
    (word % 65536) as usize..(word / 65536) as usize
}

// The word of a part with these FL records.
fn part_word(records: Range<usize>) -> u64
    requires { (records.start < 65536) × (records.end < 65536) }
    ensures { result ≡ records.start + 65536 * records.end }
{
    records.start as u64 + 65536 * records.end as u64
}

// The records of a part and record r, which is the next in it.
fn extended(records: Range<usize>, r: usize) -> Range<usize>
    requires { r < 65535 }
    ensures { (result.start ≡ cond (ltb records.start records.end) records.start r) × (result.end ≡ r + 1) }
{
    if records.is_empty() {
        r..r + 1
    } else {
        records.start..r + 1
    }
}

// Notes in the n words from base on where the FL records of each of n parts of the lines stand. The file's lines stand at `at`, and there are so many.
pub fn note_lines(file: &[u8], at: usize, lines: usize, work: &mut [u64], base: usize, n: usize)
    requires { FitFile file.now × ((at ≡ lines_place file.now) × (lines ≡ line_count file.now)) × (0 < n) × (n ≤ max_statements) × (base + n ≤ length work.old) × ((k : ℕ) → k < n → get_or work.old (base + k) 0 ≡ 0) }
    ensures { PartsNoted file.now work.old work.new base n (line_count file.now) }
{
    for r in 0..lines {
        let k = base + u16_at(file, at + 6 * r + 2) * n / 65536;
        work[k] = part_word(extended(part_records(work[k]), r));
    }
}

// The file's lines stand at `at`, and those of each of n parts are noted in the words from base on.
pub fn line_entry(
    file: &[u8],
    at: usize,
    work: &[u64],
    base: usize,
    n: usize,
    line: usize,
) -> Option<StmtId>
    requires { FitFile file.now × (at ≡ lines_place file.now) × (0 < n) × (n ≤ max_statements) × (base + n ≤ length work.now) × LineParts file.now work.now base n (line_count file.now) }
    ensures { result ≡ statement_in (enters (flow_of file.now) line) }
{
    // No file has such a line, but a caller may ask for any; the search is for numbers of 16 bits.
    if 65535 < line {
        return None;
    }
    let part = part_records(work[base + line * n / 65536]);
    let p = line_place(file, at + 6 * part.start, part.end - part.start, line);
    if p < at + 6 * part.end && u16_at(file, p + 2) == line {
        return Some(StmtId(u16_at(file, p + 4)));
    }
    None
}
