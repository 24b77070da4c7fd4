// The call that accepts a proposed table or not: the file is judged, then the work area, then the proposal; only then is anything written.
ghost use Rattle.std.specs.Prelude.{◌*◌, ◌≡◌};
ghost use Rattle.flow.specs.Format.{flow_of};
ghost use Rattle.theory.specs.Key.{opaque_handler};
ghost use Rattle.theory.specs.Accept.{proposed, all_held, accepted};
ghost use Rattle.dataflow.specs.Clauses.Phases.{FitFlow, SolverStart};
ghost use Rattle.accept.specs.Promise.{AcceptPromise};
ghost use Rattle.accept.specs.Clauses.Bytes.{Masks};

use crate::{bytes, rows, table};
use dataflow::call::check_call;
use flow::areas::area_fits;
use flow::{Base, Header, Refusal};
use solve::layout::Layout;
use solve::push;
use statements::doubled::node;
use statements::layout::set_words;

// Whether the entry's masks hold the boundary, and the masks of every edge's target what the edge brings.
fn holds(file: &[u8], h: Header, proposal: &[u8], work: &mut [u64]) -> bool
    requires { SolverStart file.now h work.old × Masks proposal.now (2 * (h.statements * h.arrays)) }
    ensures { result ≡ all_held (flow_of file.now) (proposed (flow_of file.now) proposal.now) }
{
    let n = h.statements;
    let width = set_words(h.arrays);
    let layout = Layout { n, width };
    let back = layout.back_row();
    dataflow::boundary::begin_row(file, h, work, width, back);
    rows::load_rows(work, proposal, n, h.arrays);
    push::grow(work, layout, back, node(n, Base::Zero, h.entry));
    table::pass_rows(file, h, work, width);
    table::all_settled(work, layout)
}

// Whether a table is accepted, of a file, a proposal and a work area that are fit. An opaque handler may leave any array in any state, so that no edge is asked for.
fn accepts(file: &[u8], h: Header, proposal: &[u8], work: &mut [u64]) -> bool
    requires { FitFlow file.now h work.old × Masks proposal.now (2 * (h.statements * h.arrays)) }
    ensures { result ≡ accepted (flow_of file.now) (proposed (flow_of file.now) proposal.now) }
{
    dataflow::door::summarize(file, h, work);
    if dataflow::door::opaque_handler(file, h, work) {
        return bytes::all_any(&proposal[..2 * (h.statements * h.arrays)]);
    }
    dataflow::door::note_key(file, h, work);
    dataflow::door::link(file, h, work);
    holds(file, h, proposal, work)
}

// Whether the proposal is accepted, for every file, proposal and work area; the work area is zeroed whole, for the caller.
pub fn accept(file: &[u8], proposal: &[u8], work: &mut [u64]) -> Result<bool, Refusal>
    ensures { AcceptPromise file.now proposal.now work.old work.new result }
{
    let size = work.len();
    let h = check_call(file, size)?;
    let count = 2 * (h.statements * h.arrays);
    if !area_fits(count, proposal.len()) {
        return Err(Refusal::Areas);
    }
    if let Some(over) = bytes::first_over(&proposal[..count]) {
        return Err(Refusal::Mask(over));
    }
    // With no statements there is nothing that a table could leave out.
    if h.statements == 0 {
        words::zero_row(work, 0, size);
        return Ok(true);
    }
    let yes = accepts(file, h, proposal, work);
    words::zero_row(work, 0, size);
    Ok(yes)
}
