// Masks by doubled number: the queue rule, with every mask pushed along the edges instead of pulled. Each kind of statement has a loop of its own over its edges, so that a
// visit looks nothing up twice.
#![tactic(auto, using(crate::proofs::Headers::sizes))]

ghost use Rattle.std.specs.Prelude.{true, false, List, ◌≡◌, ℕ, ◌*◌, ◌<◌, ◌≤◌, eqb, get_or};
ghost use Rattle.flow.specs.declared.Base.TheVariants.{Zero};
ghost use Rattle.flow.specs.Format.{flow_of};
ghost use Rattle.theory.specs.Lists.{option_list};
ghost use Rattle.theory.specs.Body.{kind, call_lines, is_return};
ghost use Rattle.theory.specs.Doubled as theory;
ghost use Rattle.statements.specs.Clauses.Layout.{queue_at, set_words, max_width};
ghost use Rattle.statements.specs.Clauses.Ready.{Ready, Indexed, RecordOf, Keeps};
ghost use Rattle.calls.specs.Clauses.Held.{Linked};
ghost use Rattle.calls.specs.Clauses.Class.{transparent_call, CallOf};
ghost use Rattle.calls.specs.Clauses.Orders.{ListOf, OrderOf};
ghost use Rattle.calls.specs.Clauses.Slots.{present, listed_slots, return_slots, line_slot, line_slots, other_slot, other_slots, call_slots, slots};
ghost use Rattle.solve.specs.Clauses.Layout.{area_end};
ghost use Rattle.solve.specs.Clauses.Waiting.{Waits};
ghost use Rattle.solve.specs.Clauses.Pushed.{Source};
ghost use Rattle.dataflow.specs.Clauses.Sent.{edge_row, Sent, Shared, MembersHold, Goes, statement_arcs, Sends, KeyGrown, KeyJoined};
ghost use Rattle.dataflow.specs.Clauses.Transfer.{KeySet};
ghost use Rattle.dataflow.specs.Clauses.Solving.{Underway, VisitsFront, Unused, RuleResult};

use crate::boundary::begin_row;
use crate::transfer;
use calls::edges::Call;
use calls::orders::Order;
use calls::{edges, leaders, orders};
use flow::kind::Kind;
use flow::{Base, NodeId, StmtId};
use solve::layout::Layout;
use solve::{Queue, nodes, push};
use statements::doubled::{StmtCopy, copy_of, node};
use statements::{fields, layout};

// The row at `from` goes to the successors of that copy of a statement.
fn push_listed(
    file: &[u8],
    work: &mut [u64],
    layout: Layout,
    first: Queue,
    copy: StmtCopy,
    place: usize,
    from: usize,
) -> Queue
    requires { Ready file.now work.old layout.n × RecordOf file.now copy.stmt.0 place × (copy.stmt.0 < layout.n) × Source layout.n layout.width from × ((l : List ℕ) × Waits work.old layout.n layout.width first l) }
    ensures { Sent (flow_of file.now) work.old work.new layout.n layout.width (λ _. from) first copy.stmt.0 (present (listed_slots (flow_of file.now) copy.base copy.stmt.0)) result }
{
    let count = records::successor_count(file, place);
    let mut queue = first;
    for k in 0..count {
        let j = fields::successor_at(file, copy.stmt, place, k);
        queue = push::push(work, layout, queue, from, node(layout.n, copy.base, j));
    }
    queue
}

// The row at `from` goes to the continuations of the RETURN i. Where they hold it already, as where it brought nothing to what was sent, they only join the queue.
fn push_members(
    file: &[u8],
    work: &mut [u64],
    layout: Layout,
    first: Queue,
    i: StmtId,
    from: usize,
    held: bool,
) -> Queue
    requires { Ready file.now work.old layout.n × Linked (flow_of file.now) work.old layout.n × (is_return (kind (flow_of file.now) i.0) ≡ true) × (i.0 < layout.n) × Source layout.n layout.width from × (held ≡ true → MembersHold work.old layout.n layout.width i.0 from) × ((l : List ℕ) × Waits work.old layout.n layout.width first l) }
    ensures { Sent (flow_of file.now) work.old work.new layout.n layout.width (λ _. from) first i.0 (present (return_slots (flow_of file.now) Zero i.0)) result }
{
    let mut queue = first;
    let row = layout::Layout { n: layout.n }.row(i);
    let mut start = 0;
    while let Some(k) = words::next(work, row, start, layout.n) {
        let t = node(layout.n, Base::Zero, StmtId(k));
        queue = if held {
            nodes::join(work, layout, queue, t)
        } else {
            push::push(work, layout, queue, from, t)
        };
        start = k + 1;
    }
    queue
}

// The row at `from` goes to the continuations of the RETURN i. What the RETURNs with the same continuations have sent stands in the row of their leader, so that
// a row which brings nothing to that one brings nothing to any of them.
fn push_return(
    file: &[u8],
    work: &mut [u64],
    layout: Layout,
    first: Queue,
    i: StmtId,
    from: usize,
) -> Queue
    requires { Ready file.now work.old layout.n × Linked (flow_of file.now) work.old layout.n × (is_return (kind (flow_of file.now) i.0) ≡ true) × (i.0 < layout.n) × Source layout.n layout.width from × Shared (flow_of file.now) work.old layout.n layout.width × ((l : List ℕ) × Waits work.old layout.n layout.width first l) }
    ensures { Goes (flow_of file.now) work.old work.new layout.n layout.width (λ _. from) first i.0 (present (return_slots (flow_of file.now) Zero i.0)) result }
{
    let lead = leaders::leader(file, work, layout::Layout { n: layout.n }, i);
    let grew = words::union(work, layout.sent_row(lead), from, 3 * layout.width);
    push_members(file, work, layout, first, i, from, !grew)
}

// Where the row stands that a call sends to t, if it goes on at `back`.
fn call_row(layout: Layout, t: NodeId, back: NodeId) -> usize
    ensures { result ≡ edge_row layout.n layout.width (eqb t.0 back.0) }
{
    if t == back {
        return layout.back_row();
    }
    layout.out_row()
}

// The row of the call goes to the statement that its line l enters, if any.
fn push_line(
    file: &[u8],
    h: flow::Header,
    work: &mut [u64],
    width: usize,
    queue: Queue,
    copy: StmtCopy,
    place: usize,
    call: Call,
    l: usize,
) -> Queue
    requires { (width ≤ max_width) × Indexed file.now h work.old × RecordOf file.now copy.stmt.0 place × (copy.stmt.0 < h.statements) × CallOf (flow_of file.now) work.old copy.stmt.0 call × (l < call.lines) × ((q : List ℕ) × Waits work.old h.statements width queue q) }
    ensures { Sent (flow_of file.now) work.old work.new h.statements width (edge_row h.statements width) queue copy.stmt.0 (option_list (line_slot (flow_of file.now) copy.base call.continuation.0 (get_or (call_lines (kind (flow_of file.now) copy.stmt.0)) l 0))) result }
{
    let layout = Layout {
        n: h.statements,
        width,
    };
    match edges::line_entered(file, h, work, copy.stmt, place, call, l) {
        Some(b) => {
            let t = node(layout.n, Base::N, b);
            let from = call_row(layout, t, node(layout.n, copy.base, call.continuation));
            push::push(work, layout, queue, from, t)
        }
        None => queue,
    }
}

// The rows of the call go to the statements that its lines enter, line by line in the order that the queue rule asks for.
fn push_each_line(
    file: &[u8],
    h: flow::Header,
    work: &mut [u64],
    width: usize,
    first: Queue,
    copy: StmtCopy,
    place: usize,
    call: Call,
) -> Queue
    requires { (width ≤ max_width) × Indexed file.now h work.old × RecordOf file.now copy.stmt.0 place × (copy.stmt.0 < h.statements) × CallOf (flow_of file.now) work.old copy.stmt.0 call × ((l : List ℕ) × Waits work.old h.statements width first l) }
    ensures { Sent (flow_of file.now) work.old work.new h.statements width (edge_row h.statements width) first copy.stmt.0 (present (line_slots (flow_of file.now) copy.base copy.stmt.0 call.continuation.0)) result }
{
    let mut queue = first;
    for l in 0..call.lines {
        queue = push_line(file, h, work, width, queue, copy, place, call, l);
    }
    queue
}

// The same, by the order that is noted of the call: no line is looked up.
fn push_order(
    file: &[u8],
    work: &mut [u64],
    layout: Layout,
    first: Queue,
    copy: StmtCopy,
    call: Call,
    order: Order,
) -> Queue
    requires { Ready file.now work.old layout.n × (copy.stmt.0 < layout.n) × CallOf (flow_of file.now) work.old copy.stmt.0 call × ListOf (flow_of file.now) work.old layout.n copy.stmt.0 order.at order.count × ((l : List ℕ) × Waits work.old layout.n layout.width first l) }
    ensures { Sent (flow_of file.now) work.old work.new layout.n layout.width (edge_row layout.n layout.width) first copy.stmt.0 (present (line_slots (flow_of file.now) copy.base copy.stmt.0 call.continuation.0)) result }
{
    let back = node(layout.n, copy.base, call.continuation);
    let mut queue = first;
    for k in 0..order.count {
        let t = node(layout.n, Base::N, orders::entry(work, order.at, k));
        queue = push::push(work, layout, queue, call_row(layout, t, back), t);
    }
    queue
}

// The same. Of a call that names several lines the order of what they enter is noted, if there was room for it.
fn push_lines(
    file: &[u8],
    h: flow::Header,
    work: &mut [u64],
    width: usize,
    first: Queue,
    copy: StmtCopy,
    place: usize,
    call: Call,
) -> Queue
    requires { (width ≤ max_width) × Indexed file.now h work.old × RecordOf file.now copy.stmt.0 place × (copy.stmt.0 < h.statements) × CallOf (flow_of file.now) work.old copy.stmt.0 call × (1 < call.lines → OrderOf (flow_of file.now) work.old h.statements copy.stmt.0) × ((l : List ℕ) × Waits work.old h.statements width first l) }
    ensures { Sent (flow_of file.now) work.old work.new h.statements width (edge_row h.statements width) first copy.stmt.0 (present (line_slots (flow_of file.now) copy.base copy.stmt.0 call.continuation.0)) result }
{
    let layout = Layout {
        n: h.statements,
        width,
    };
    if 1 < call.lines {
        if let Some(order) = orders::order_of(work, layout::Layout { n: layout.n }, copy.stmt) {
            return push_order(file, work, layout, first, copy, call, order);
        }
    }
    push_each_line(file, h, work, width, first, copy, place, call)
}

// The row of the call goes to its successor j, unless that is entered or the continuation.
fn push_other(
    file: &[u8],
    work: &mut [u64],
    layout: Layout,
    queue: Queue,
    copy: StmtCopy,
    call: Call,
    j: StmtId,
) -> Queue
    requires { Ready file.now work.old layout.n × (copy.stmt.0 < layout.n) × CallOf (flow_of file.now) work.old copy.stmt.0 call × (j.0 < layout.n) × ((q : List ℕ) × Waits work.old layout.n layout.width queue q) }
    ensures { Sent (flow_of file.now) work.old work.new layout.n layout.width (edge_row layout.n layout.width) queue copy.stmt.0 (option_list (other_slot (flow_of file.now) copy.base copy.stmt.0 call.continuation.0 j.0)) result }
{
    if edges::left_out(work, call, j) {
        return queue;
    }
    push::push(
        work,
        layout,
        queue,
        layout.out_row(),
        node(layout.n, copy.base, j),
    )
}

// And to each of them in turn.
fn push_others(
    file: &[u8],
    work: &mut [u64],
    layout: Layout,
    first: Queue,
    copy: StmtCopy,
    place: usize,
    call: Call,
) -> Queue
    requires { Ready file.now work.old layout.n × RecordOf file.now copy.stmt.0 place × (copy.stmt.0 < layout.n) × CallOf (flow_of file.now) work.old copy.stmt.0 call × ((l : List ℕ) × Waits work.old layout.n layout.width first l) }
    ensures { Sent (flow_of file.now) work.old work.new layout.n layout.width (edge_row layout.n layout.width) first copy.stmt.0 (present (other_slots (flow_of file.now) copy.base copy.stmt.0 call.continuation.0)) result }
{
    let mut queue = first;
    for k in 0..call.successors {
        let j = fields::successor_at(file, copy.stmt, place, k);
        queue = push_other(file, work, layout, queue, copy, call, j);
    }
    queue
}

// The rows of the call go along its edges: to the entered statements, then to the continuation, then to the other successors.
fn push_call(
    file: &[u8],
    h: flow::Header,
    work: &mut [u64],
    width: usize,
    first: Queue,
    copy: StmtCopy,
    place: usize,
    call: Call,
) -> Queue
    requires { (width ≤ max_width) × Indexed file.now h work.old × RecordOf file.now copy.stmt.0 place × (copy.stmt.0 < h.statements) × CallOf (flow_of file.now) work.old copy.stmt.0 call × (1 < call.lines → OrderOf (flow_of file.now) work.old h.statements copy.stmt.0) × ((l : List ℕ) × Waits work.old h.statements width first l) }
    ensures { Sent (flow_of file.now) work.old work.new h.statements width (edge_row h.statements width) first copy.stmt.0 (present (call_slots (flow_of file.now) copy.base copy.stmt.0 call.continuation.0)) result }
{
    let layout = Layout {
        n: h.statements,
        width,
    };
    let back = layout.back_row();
    let entered = push_lines(file, h, work, width, first, copy, place, call);
    let queue = push::push(
        work,
        layout,
        entered,
        back,
        node(layout.n, copy.base, call.continuation),
    );
    push_others(file, work, layout, queue, copy, place, call)
}

// The masks of d go on along the edges of its statement i, which is a call that is not opaque.
fn send_call(
    file: &[u8],
    h: flow::Header,
    work: &mut [u64],
    width: usize,
    first: Queue,
    d: NodeId,
    copy: StmtCopy,
    place: usize,
) -> Queue
    requires { (width ≡ set_words h.arrays) × Indexed file.now h work.old × Linked (flow_of file.now) work.old h.statements × KeySet (flow_of file.now) work.old h.statements width × (d.0 < 2 * h.statements) × RecordOf file.now copy.stmt.0 place × (theory.at copy.base copy.stmt.0 ≡ theory.node (flow_of file.now) d.0) × (copy.stmt.0 < h.statements) × (transparent_call (flow_of file.now) copy.stmt.0 ≡ true) × Shared (flow_of file.now) work.old h.statements width × ((l : List ℕ) × Waits work.old h.statements width first l) }
    ensures { Sends (flow_of file.now) work.old work.new h.statements width first d.0 (statement_arcs (flow_of file.now) d.0) result }
{
    let call = edges::call_of(
        file,
        work,
        layout::Layout { n: h.statements },
        copy.stmt,
        place,
    );
    let again = transfer::enters_again(work, copy.base, call.row, call.continuation);
    transfer::call_rows(file, h, work, width, d, copy.stmt, place, again);
    push_call(file, h, work, width, first, copy, place, call)
}

// The row at `from` goes along the edges of that copy of a statement, which is no such call.
fn push_plain(
    file: &[u8],
    work: &mut [u64],
    layout: Layout,
    first: Queue,
    copy: StmtCopy,
    place: usize,
    from: usize,
) -> Queue
    requires { Ready file.now work.old layout.n × Linked (flow_of file.now) work.old layout.n × RecordOf file.now copy.stmt.0 place × (copy.stmt.0 < layout.n) × (transparent_call (flow_of file.now) copy.stmt.0 ≡ false) × Source layout.n layout.width from × Shared (flow_of file.now) work.old layout.n layout.width × ((l : List ℕ) × Waits work.old layout.n layout.width first l) }
    ensures { Goes (flow_of file.now) work.old work.new layout.n layout.width (λ _. from) first copy.stmt.0 (present (slots (flow_of file.now) (theory.at copy.base copy.stmt.0))) result }
{
    if records::kind(file, place) != Kind::Return {
        return push_listed(file, work, layout, first, copy, place, from);
    }
    match copy.base {
        Base::Zero => push_return(file, work, layout, first, copy.stmt, from),
        // A RETURN of base n goes nowhere.
        Base::N => first,
    }
}

// The masks of d go on along the edges of its statement.
fn send_edges(
    file: &[u8],
    h: flow::Header,
    work: &mut [u64],
    width: usize,
    first: Queue,
    d: NodeId,
) -> Queue
    requires { (width ≡ set_words h.arrays) × Indexed file.now h work.old × Linked (flow_of file.now) work.old h.statements × KeySet (flow_of file.now) work.old h.statements width × (d.0 < 2 * h.statements) × Shared (flow_of file.now) work.old h.statements width × ((l : List ℕ) × Waits work.old h.statements width first l) }
    ensures { Sends (flow_of file.now) work.old work.new h.statements width first d.0 (statement_arcs (flow_of file.now) d.0) result }
{
    let layout = Layout {
        n: h.statements,
        width,
    };
    let copy = copy_of(layout.n, d);
    let i = copy.stmt;
    let place = fields::offset(file, work, layout.n, i);
    if edges::is_call(file, work, layout::Layout { n: layout.n }, i, place) {
        return send_call(file, h, work, width, first, d, copy, place);
    }
    let from = transfer::plain_row(file, h, work, width, d, i, place);
    push_plain(file, work, layout, first, copy, place, from)
}

// The masks of d, as they are, are joined to those of n + the handler, if there is one: before an edge of d to itself makes them grow.
fn grow_key(file: &[u8], h: flow::Header, work: &mut [u64], width: usize, d: NodeId)
    requires { (width ≡ set_words h.arrays) × Indexed file.now h work.old × (d.0 < 2 * h.statements) }
    ensures { KeyGrown (flow_of file.now) work.old work.new h.statements width d.0 }
{
    let layout = Layout {
        n: h.statements,
        width,
    };
    if let Some(e) = h.handler {
        push::grow(work, layout, layout.mask_row(d), node(layout.n, Base::N, e));
    }
}

// That number waits, if there is one.
fn join_key(file: &[u8], h: flow::Header, work: &mut [u64], width: usize, queue: Queue) -> Queue
    requires { (width ≡ set_words h.arrays) × Indexed file.now h work.old × ((l : List ℕ) × Waits work.old h.statements width queue l) }
    ensures { KeyJoined (flow_of file.now) work.old work.new h.statements width queue result }
{
    let layout = Layout {
        n: h.statements,
        width,
    };
    match h.handler {
        None => queue,
        Some(e) => nodes::enqueue(work, layout, queue, node(layout.n, Base::N, e)),
    }
}

// The masks of d go on along its edges, of which the last is the key's. The edges of its statement are gone through in one place, which the compiler then makes part of a visit.
pub fn send(
    file: &[u8],
    h: flow::Header,
    work: &mut [u64],
    width: usize,
    first: Queue,
    d: NodeId,
) -> Queue
    requires { (width ≡ set_words h.arrays) × Indexed file.now h work.old × Linked (flow_of file.now) work.old h.statements × KeySet (flow_of file.now) work.old h.statements width × (d.0 < 2 * h.statements) × Shared (flow_of file.now) work.old h.statements width × ((l : List ℕ) × Waits work.old h.statements width first l) }
    ensures { Sends (flow_of file.now) work.old work.new h.statements width first d.0 ((theory.doubled (flow_of file.now)).arcs d.0) result }
{
    grow_key(file, h, work, width, d);
    let queue = send_edges(file, h, work, width, first, d);
    join_key(file, h, work, width, queue)
}

// One visit: the number's masks are what was pushed to it; at its first visit, or if they grew, they go on along its edges.
fn visit(file: &[u8], h: flow::Header, work: &mut [u64], width: usize, first: Queue) -> Queue
    requires { (width ≡ set_words h.arrays) × Indexed file.now h work.old × Linked (flow_of file.now) work.old h.statements × KeySet (flow_of file.now) work.old h.statements width × (0 < h.statements) × (0 < first.len) × Underway (flow_of file.now) work.old h.statements width first }
    ensures { ((u : Underway (flow_of file.now) work.old h.statements width first) → VisitsFront (flow_of file.now) work.old work.new h.statements width first result u) × Keeps (queue_at h.statements) (area_end h.statements width) work.old work.new }
{
    let layout = Layout {
        n: h.statements,
        width,
    };
    let d = nodes::take(work, layout, first);
    let queue = solve::rest(layout::Layout { n: layout.n }, first);
    if nodes::settle(work, layout, d) {
        return queue;
    }
    send(file, h, work, width, queue, d)
}

// The queue rule. The count of visits comes back.
pub fn array_states(file: &[u8], h: flow::Header, work: &mut [u64]) -> u64
    requires { Indexed file.now h work.old × Linked (flow_of file.now) work.old h.statements × KeySet (flow_of file.now) work.old h.statements (set_words h.arrays) × (0 < h.statements) × Unused work.old h.statements (set_words h.arrays) }
    ensures { RuleResult (flow_of file.now) work.old work.new h.statements (set_words h.arrays) result }
{
    let width = layout::set_words(h.arrays);
    let layout = Layout {
        n: h.statements,
        width,
    };
    let entry = node(layout.n, Base::Zero, h.entry);
    begin_row(file, h, work, width, layout.mask_row(entry));
    let mut queue = nodes::enqueue(work, layout, Queue { head: 0, len: 0 }, entry);
    let mut visits = 0u64;
    // It ends when nothing waits, and each visit makes others wait.
    while 0 < queue.len {
        queue = visit(file, h, work, width, queue);
        visits += 1;
    }
    visits
}
