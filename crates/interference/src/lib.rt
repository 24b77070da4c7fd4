// Names that get in each other's way: a word a name, from the live sets of all statements and their writes; and how many names are live at once.
#![tactic(auto)]

ghost use mathlib.Core.Option.{none, some};
ghost use Rattle.std.specs.Prelude.{◌≡◌, ℕ, ◌^◌, ◌<◌, ◌≤◌, length, get_or};
ghost use Rattle.std.specs.Int.Count.{ones};
ghost use Rattle.flow.specs.Format.{flow_of};
ghost use Rattle.theory.specs.Lists.{max_below};
ghost use Rattle.interference.specs.Clauses.Clique.{CliqueAdded, NewCliqueAdded};
ghost use Rattle.interference.specs.Clauses.Rows.{RowsRoom, RowsStart, LiveSets, Seen, BothUsed, Noted, Rows};

use flow::StmtId;
use statements::fields;

// The names of a set interfere with one another: the word of each gets the others.
fn add_clique(rows: &mut [u64], set: u64)
    requires { set < 2 ^ length rows.old }
    ensures { CliqueAdded rows.old rows.new set }
{
    let mut rest = set;
    // The lowest name is taken away until none is left: an iterator over bits would be a type of our own, longer than the loop.
    while rest != 0 {
        let x = rest.trailing_zeros() as usize;
        let name = 1u64 << x;
        words::union_word(rows, x, words::difference(set, name));
        rest = words::difference(rest, name);
    }
}

// The same, unless the set is within the last one that was added. Answers which is the last one then.
fn add_new_clique(rows: &mut [u64], last: u64, set: u64) -> u64
    requires { set < 2 ^ length rows.old }
    ensures { NewCliqueAdded rows.old rows.new last set result }
{
    if words::difference(set, last) == 0 {
        return last;
    }
    add_clique(rows, set);
    set
}

// The names at the start of each statement interfere, and so do those at its end: what is live after it, and what it writes. The end of one statement mostly has the
// names that the next one starts with.
fn add_statements(
    file: &[u8],
    work: &[u64],
    live_in: &[u64],
    live_out: &[u64],
    rows: &mut [u64],
    n: usize,
)
    requires { RowsRoom file.now work.now rows.old n × LiveSets (flow_of file.now) n live_in.now live_out.now }
    ensures { Noted (flow_of file.now) (Seen (flow_of file.now) n) rows.old rows.new }
{
    let mut last: u64 = 0;
    for i in 0..n {
        let p = fields::offset(file, work, n, StmtId(i));
        last = add_new_clique(rows, last, live_in[i]);
        last = add_new_clique(rows, last, live_out[i] | records::written(file, p));
    }
}

// The names that some statement reads or writes interfere.
fn add_used(file: &[u8], work: &[u64], rows: &mut [u64], n: usize)
    requires { RowsRoom file.now work.now rows.old n }
    ensures { Noted (flow_of file.now) (BothUsed (flow_of file.now)) rows.old rows.new }
{
    let all = statements::uses::gather_uses(file, work, n);
    add_clique(rows, all.written | all.read);
}

// The word of each name, from the live sets, in a flow without an interrupt key.
pub fn live_rows(
    file: &[u8],
    work: &[u64],
    live_in: &[u64],
    live_out: &[u64],
    rows: &mut [u64],
    names: usize,
    n: usize,
)
    requires { RowsStart file.now work.now rows.old names n × LiveSets (flow_of file.now) n live_in.now live_out.now × ((flow_of file.now).handler ≡ none) }
    ensures { Rows (flow_of file.now) rows.old rows.new }
{
    words::zero_row(rows, 0, names);
    add_statements(file, work, live_in, live_out, rows, n);
}

// The same with an interrupt key, which may come between any two statements: every name that is used interferes with every other.
pub fn used_rows(file: &[u8], work: &[u64], rows: &mut [u64], names: usize, n: usize)
    requires { RowsStart file.now work.now rows.old names n × ((h : ℕ) × ((flow_of file.now).handler ≡ some h)) }
    ensures { Rows (flow_of file.now) rows.old rows.new }
{
    words::zero_row(rows, 0, names);
    add_used(file, work, rows, n);
}

// How many names are live at once: the size of the largest live-in set.
pub fn most_live(live_in: &[u64], n: usize) -> u64
    requires { n ≤ length live_in.now }
    ensures { result ≡ max_below n (λ i. ones (get_or live_in.now i 0)) }
{
    let mut most = 0;
    for i in 0..n {
        most = most.max(u64::from(live_in[i].count_ones()));
    }
    most
}
