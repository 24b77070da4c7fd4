// One pass over the edges of a proposed table: the masks of each number whose row is not all zero go along its edges, as the solver sends them, and a target that did not hold them is settled no more.
ghost use Rattle.std.specs.Prelude.{◌*◌, ◌+◌, ◌<◌, ◌≤◌, not, ◌≡◌, eqb, length};
ghost use Rattle.flow.specs.Format.{flow_of};
ghost use Rattle.theory.specs.Lists.{all_below};
ghost use Rattle.theory.specs.Accept.{Proposal};
ghost use Rattle.statements.specs.Clauses.Layout.{set_words};
ghost use Rattle.solve.specs.Clauses.Layout.{nodes_end};
ghost use Rattle.solve.specs.Clauses.Pushed.{masks_at};
ghost use Rattle.accept.specs.Clauses.Table.{Bytes, all_settled, Edged, Passing, Passed, AllPassed, nothing};

use flow::NodeId;
use solve::layout::Layout;
use solve::{Queue, nodes};

// Whether one of the masks of d is not zero.
fn is_filled(work: &[u64], layout: Layout, d: NodeId) -> bool
    requires { (d.0 < 2 * layout.n) × (nodes_end layout.n layout.width ≤ length work.now) }
    ensures { result ≡ not (all_below (64 * layout.width) (λ a. eqb (masks_at work.now layout.n layout.width d.0 a) 0)) }
{
    let row = layout.mask_row(d);
    for k in 0..layout.width {
        if (work[row + k] | work[row + layout.width + k] | work[row + 2 * layout.width + k]) != 0 {
            return true;
        }
    }
    false
}

// The masks of d go along its edges, unless its row is all zero.
fn pass_row(
    file: &[u8],
    h: flow::Header,
    work: &mut [u64],
    width: usize,
    queue: Queue,
    d: NodeId,
) -> Queue
    requires { (width ≡ set_words h.arrays) × Edged file.now h work.old × (d.0 < 2 * h.statements) × ((t : Proposal) × Passing (flow_of file.now) t work.old h.statements width queue d.0) }
    ensures { Passed (flow_of file.now) work.old work.new h.statements width queue d.0 result }
{
    let layout = Layout {
        n: h.statements,
        width,
    };
    if is_filled(work, layout, d) {
        return dataflow::arrays::send(file, h, work, width, queue, d);
    }
    queue
}

// Each number in turn.
pub fn pass_rows(file: &[u8], h: flow::Header, work: &mut [u64], width: usize)
    requires { (width ≡ set_words h.arrays) × Edged file.now h work.old × ((t : Proposal) × Bytes (flow_of file.now) t × Passing (flow_of file.now) t work.old h.statements width nothing 0) }
    ensures { AllPassed (flow_of file.now) work.old work.new h.statements width }
{
    let mut queue = Queue { head: 0, len: 0 };
    for d in 0..2 * h.statements {
        queue = pass_row(file, h, work, width, queue, NodeId(d));
    }
}

// Whether every number is settled still.
pub fn all_settled(work: &[u64], layout: Layout) -> bool
    requires { nodes_end layout.n layout.width ≤ length work.now }
    ensures { result ≡ all_settled work.now layout.n layout.width }
{
    for d in 0..2 * layout.n {
        if !nodes::settled(work, layout, NodeId(d)) {
            return false;
        }
    }
    true
}
