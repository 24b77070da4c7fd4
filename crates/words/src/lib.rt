// Bit sets kept in rows of 64-bit words of a lent slice. A row starts at word `base`; number i is
// bit i % 64 of word base + i / 64.
#![tactic(auto)]

ghost use Rattle.std.specs.Prelude.{◌≡◌, ◌+◌, ◌-◌, ◌*◌, ◌/◌, ◌^◌, ◌≤◌, ◌<◌, min, eqb, length};
ghost use Rattle.std.specs.Int.{div_ceil};
ghost use Rattle.words.specs.Clauses.Row.{has, members, next_member, found_below, SomeMember};
ghost use Rattle.words.specs.Clauses.Change.{Joined, PairJoined, Inserted, removed, Unioned, zeroed, without, Chosen};

pub fn contains(ws: &[u64], base: usize, i: usize) -> bool
    requires { base + i / 64 < length ws.now }
    ensures { result ≡ eqb (has ws.now base i) 1 }
{
    (ws[base + i / 64] >> (i % 64)) % 2 == 1
}

// Joins `bits` to the word at `at`, and says whether the word grew.
pub fn union_word(ws: &mut [u64], at: usize, bits: u64) -> bool
    requires { at < length ws.old }
    ensures { Joined ws.old ws.new at bits result }
{
    let old = ws[at];
    let joined = old | bits;
    ws[at] = joined;
    joined != old
}

// Two words joined to those from `at` on. Says whether one of them grew.
pub fn union_pair(ws: &mut [u64], at: usize, low: u64, high: u64) -> bool
    requires { at + 2 ≤ length ws.old }
    ensures { PairJoined ws.old ws.new at low high result }
{
    let first = union_word(ws, at, low);
    let second = union_word(ws, at + 1, high);
    first | second
}

// Says whether i is new.
pub fn insert(ws: &mut [u64], base: usize, i: usize) -> bool
    requires { base + i / 64 < length ws.old }
    ensures { Inserted ws.old ws.new base i result }
{
    union_word(ws, base + i / 64, 1u64 << (i % 64))
}

pub fn remove(ws: &mut [u64], base: usize, i: usize)
    requires { base + i / 64 < length ws.old }
    ensures { ws.new ≡ removed ws.old base i }
{
    let at = base + i / 64;
    ws[at] = difference(ws[at], 1u64 << (i % 64));
}

// Three words without a loop: as many as the masks of up to 64 arrays take.
fn union_three(ws: &mut [u64], to: usize, from: usize) -> bool
    requires { (to + 3 ≤ length ws.old) × (from + 3 ≤ length ws.old) }
    ensures { Unioned ws.old ws.new to from 3 result }
{
    let low = ws[from];
    let first = union_word(ws, to, low);
    let middle = ws[from + 1];
    let second = union_word(ws, to + 1, middle);
    let high = ws[from + 2];
    let third = union_word(ws, to + 2, high);
    first | second | third
}

// Joins the row at `from` to the row at `to`, lowest word first, and says whether that row grew.
pub fn union(ws: &mut [u64], to: usize, from: usize, width: usize) -> bool
    requires { (to + width ≤ length ws.old) × (from + width ≤ length ws.old) }
    ensures { Unioned ws.old ws.new to from width result }
{
    if width == 3 {
        return union_three(ws, to, from);
    }
    let mut grew = false;
    for k in 0..width {
        let bits = ws[from + k];
        grew |= union_word(ws, to + k, bits);
    }
    grew
}

// The bits of `a` that are not in `b`.
pub fn difference(a: u64, b: u64) -> u64
    ensures { result ≡ without a b }
{
    a & !b
}

// The bits of `b` where the set has them, and those of `a` elsewhere.
pub fn choose(set: u64, b: u64, a: u64) -> u64
    ensures { Chosen set b a result }
{
    (b & set) | difference(a, set)
}

pub fn zero_row(ws: &mut [u64], base: usize, width: usize)
    requires { base + width ≤ length ws.old }
    ensures { ws.new ≡ zeroed ws.old base width }
{
    ws[base..base + width].fill(0);
}

// The second bound says that every number of the row is a usize, and so is their count.
pub fn count(ws: &[u64], base: usize, width: usize) -> usize
    requires { (base + width ≤ length ws.now) × (64 * width < 2 ^ 64) }
    ensures { result ≡ members ws.now base width }
{
    let mut n = 0;
    for k in 0..width {
        n += ws[base + k].count_ones() as usize;
    }
    n
}

// i and `step` more, where that is below `bound`.
fn forward(i: usize, step: usize, bound: usize) -> Option<usize>
    requires { i ≤ bound }
    ensures { result ≡ found_below (i + step) bound }
{
    (step < bound - i).then(|| i + step)
}

// The first member at or after number 64 `first` and below `bound`, by whole words.
fn next_by_word(ws: &[u64], base: usize, first: usize, bound: usize) -> Option<usize>
    requires { base + div_ceil bound 64 ≤ length ws.now }
    ensures { result ≡ found_below (next_member ws.now base (min (64 * first) bound) bound) bound }
{
    for k in first..bound.div_ceil(64) {
        let word = ws[base + k];
        if word != 0 {
            return forward(64 * k, word.trailing_zeros() as usize, bound);
        }
    }
    None
}

// The first member at or after `from` and below `bound`. `from` itself is looked at first, since members often stand side by side, and the
// next search then need not wait for the place of the lowest bit.
pub fn next(ws: &[u64], base: usize, from: usize, bound: usize) -> Option<usize>
    requires { base + (bound + 63) / 64 ≤ length ws.now }
    ensures { result ≡ found_below (next_member ws.now base from bound) bound }
{
    if bound <= from {
        return None;
    }
    let rest = ws[base + from / 64] >> (from % 64);
    if rest % 2 == 1 {
        return Some(from);
    }
    if rest != 0 {
        return forward(from, rest.trailing_zeros() as usize, bound);
    }
    next_by_word(ws, base, from / 64 + 1, bound)
}

// A member below `bound`: the first one from `from` on, or else from 0 on.
pub fn next_around(ws: &[u64], base: usize, from: usize, bound: usize) -> Option<usize>
    requires { (base + (bound + 63) / 64 ≤ length ws.now) × (from ≤ bound) }
    ensures { SomeMember ws.now base bound result }
{
    next(ws, base, from, bound).or_else(|| next(ws, base, 0, bound))
}
