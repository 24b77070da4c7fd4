// The order in which a call of several lines enters statements, each once: what a visit needs of its lines. It is noted once, as a list of 12-bit numbers, five in a word, as far as
// there is room behind the matrix; a call whose list finds none looks its lines up.
ghost use Rattle.std.specs.Prelude.{◌+◌, ◌/◌, ◌%◌, ◌^◌, ◌<◌, ◌≤◌, [], ◌∷◌, true, MatchOption, ◌≢◌, ◌≡◌, length, get_or};
ghost use Rattle.flow.specs.Flow.{enters};
ghost use Rattle.flow.specs.Format.{flow_of};
ghost use Rattle.theory.specs.Lists.{option_list};
ghost use Rattle.theory.specs.Body.{kind, call_lines};
ghost use Rattle.statements.specs.Clauses.Layout.{touched_at, lists_at, queue_at, entered_row_at};
ghost use Rattle.statements.specs.Clauses.Ready.{Indexed};
ghost use Rattle.calls.specs.Clauses.Held.{Area, Empty, CallSummaries};
ghost use Rattle.calls.specs.Clauses.Orders.{order, several, entry_at, list_end, order_word, Put, Listing, Lists, OrderNoted, OrdersNoted};

use crate::{SummaryState, rows};
use flow::StmtId;
use statements::fields;
use statements::layout::Layout;

// Where the list stands, and how many entries it has.
#[derive(Clone, Copy)]
pub struct Order {
    pub at: usize,
    pub count: usize,
}

// The order of the call i, if a list of it is noted.
pub fn order_of(work: &[u64], layout: Layout, i: StmtId) -> Option<Order>
    requires { (i.0 < layout.n) × (touched_at layout.n + i.0 < length work.now) }
    ensures { MatchOption result (order_word work.now layout.n i.0 ≡ 0) (λ order. (order.at ≡ order_word work.now layout.n i.0 % 2 ^ 32) × (order.count ≡ order_word work.now layout.n i.0 / 2 ^ 32) × (order_word work.now layout.n i.0 ≢ 0)) }
{
    let word = work[layout.touched() + i.0];
    if word == 0 {
        return None;
    }
    Some(Order {
        at: (word % 0x1_0000_0000) as usize,
        count: (word >> 32) as usize,
    })
}

// Entry k of the list at `at`.
pub fn entry(work: &[u64], at: usize, k: usize) -> StmtId
    requires { at + k / 5 < length work.now }
    ensures { result.0 ≡ entry_at work.now at k }
{
    StmtId(((work[at + k / 5] >> (12 * (k % 5))) % 4096) as usize)
}

// b becomes entry k, the last one.
fn put(work: &mut [u64], at: usize, k: usize, b: StmtId)
    requires { (at + k / 5 < length work.old) × (b.0 < 4096) }
    ensures { Put work.old work.new at k b.0 }
{
    let place = at + k / 5;
    let shift = 12 * (k % 5);
    let low = work[place] % (1u64 << shift);
    work[place] = low + ((b.0 as u64) << shift);
}

// b becomes an entry of the list, which has k, unless it is one. How many it has then comes back.
fn list_statement(work: &mut [u64], layout: Layout, at: usize, k: usize, b: StmtId) -> usize
    requires { Area work.old layout.n × (b.0 < layout.n) × (list_end at (k + 1) ≤ queue_at layout.n) }
    ensures { Lists work.old work.new layout.n at k (b.0 ∷ []) result }
{
    if words::insert(work, layout.entered_row(), b.0) {
        put(work, at, k, b);
        return k + 1;
    }
    k
}

// The statement that line l of the call c enters, if any.
fn list_line(
    file: &[u8],
    h: flow::Header,
    work: &mut [u64],
    c: StmtId,
    at: usize,
    k: usize,
    l: usize,
) -> usize
    requires { Indexed file.now h work.old × (c.0 < h.statements) × (l < length (call_lines (kind (flow_of file.now) c.0))) × (list_end at (k + 1) ≤ queue_at h.statements) }
    ensures { Lists work.old work.new h.statements at k (option_list (enters (flow_of file.now) (get_or (call_lines (kind (flow_of file.now) c.0)) l 0))) result }
{
    match fields::entered(file, work, h.statements, h.lines_at, c, l) {
        Some(b) => list_statement(work, Layout { n: h.statements }, at, k, b),
        None => k,
    }
}

// Those of all its lines, of which there are `count`.
fn list_lines(
    file: &[u8],
    h: flow::Header,
    work: &mut [u64],
    c: StmtId,
    at: usize,
    count: usize,
) -> usize
    requires { Indexed file.now h work.old × (c.0 < h.statements) × (count ≡ length (call_lines (kind (flow_of file.now) c.0))) × (lists_at h.statements ≤ at) × (list_end at count ≤ queue_at h.statements) × Empty work.old h.statements (entered_row_at h.statements) }
    ensures { Listing work.old work.new h.statements at (order (flow_of file.now) c.0) result × (result ≤ count) }
{
    let mut k = 0;
    for l in 0..count {
        k = list_line(file, h, work, c, at, k, l);
    }
    k
}

// The order of the call c, which has `count` lines, as a list at `at`, where there is room for it. Where the next list may stand comes back.
fn note_list(
    file: &[u8],
    h: flow::Header,
    work: &mut [u64],
    c: StmtId,
    at: usize,
    count: usize,
) -> usize
    requires { Indexed file.now h work.old × (c.0 < h.statements) × (count ≡ length (call_lines (kind (flow_of file.now) c.0))) × (lists_at h.statements ≤ at) × (list_end at count ≤ queue_at h.statements) × (several (flow_of file.now) c.0 ≡ true) }
    ensures { OrderNoted (flow_of file.now) work.old work.new h.statements c.0 at result }
{
    let layout = Layout { n: h.statements };
    rows::zero_row(work, layout, layout.entered_row());
    let k = list_lines(file, h, work, c, at, count);
    work[layout.touched() + c.0] = at as u64 + 0x1_0000_0000 * (k as u64);
    at + (k + 4) / 5
}

// The same of statement c, if it is a call of several lines that is not opaque, and if there is room.
fn note_order(file: &[u8], h: flow::Header, work: &mut [u64], c: StmtId, at: usize) -> usize
    requires { Indexed file.now h work.old × CallSummaries (flow_of file.now) work.old h.statements × (c.0 < h.statements) × (lists_at h.statements ≤ at) × (at ≤ queue_at h.statements) }
    ensures { OrderNoted (flow_of file.now) work.old work.new h.statements c.0 at result }
{
    let layout = Layout { n: h.statements };
    if work[layout.calls() + c.0] != SummaryState::Transparent as u64 {
        return at;
    }
    let count = fields::line_count(file, work, layout.n, c);
    if count < 2 {
        return at;
    }
    if layout.queue() < at + (count + 4) / 5 {
        work[layout.touched() + c.0] = 0;
        return at;
    }
    note_list(file, h, work, c, at, count)
}

// The orders of all calls of several lines that are not opaque, as far as there is room.
pub fn note_orders(file: &[u8], h: flow::Header, work: &mut [u64])
    requires { Indexed file.now h work.old × CallSummaries (flow_of file.now) work.old h.statements }
    ensures { OrdersNoted (flow_of file.now) work.old work.new h.statements h.statements }
{
    let layout = Layout { n: h.statements };
    let mut at = layout.lists();
    for c in 0..layout.n {
        at = note_order(file, h, work, StmtId(c), at);
    }
}
