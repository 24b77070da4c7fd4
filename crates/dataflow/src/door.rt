// The call that answers a flow file: the file is judged, then the areas; only then is anything written.
#![tactic(auto, using(crate::proofs::Headers::sizes))]

ghost use Rattle.std.specs.Prelude.{◌*◌, ◌<◌, ◌≤◌, false, ◌≡◌, length};
ghost use Rattle.flow.specs.Format.{flow_of};
ghost use Rattle.theory.specs.Key.{opaque_handler};
ghost use Rattle.theory.specs.Live.{live_in_word, live_out_word};
ghost use Rattle.flow.specs.Limits.{max_statements, max_arrays, work_words};
ghost use Rattle.statements.specs.Clauses.Layout.{set_words};
ghost use Rattle.statements.specs.Clauses.Ready.{Ready};
ghost use Rattle.dataflow.specs.Promise.{Promise, Written};
ghost use Rattle.dataflow.specs.Clauses.Transfer.{KeySet};
ghost use Rattle.dataflow.specs.Clauses.Phases.{edges_end, cleared, FitFlow, SummariesMade, SolverStart, Masked, FitAreas, Findings};

use crate::{arrays, write};
use calls::SummaryState;
use flow::areas::areas_fit;
use flow::check::check_file;
use flow::{Header, Refusal};
use statements::layout::{Layout, lines, set_words};

// Where the words end that finding the edges uses.
fn edges_end(layout: Layout) -> usize
    ensures { result ≡ edges_end layout.n }
{
    layout.returns_row() + layout.row_words()
}

// The words that the phases count on are zeroed: those of the lines and of the summaries, and those of the solver. All others, and so the matrix, which is the largest part of the area,
// are zeroed or written where they are first needed.
fn clear(work: &mut [u64], layout: solve::layout::Layout)
    requires { (0 < layout.n) × (work_words layout.n ≤ length work.old) }
    ensures { work.new ≡ cleared work.old layout.n layout.width }
{
    let area = Layout { n: layout.n };
    let lines = lines(layout.n);
    words::zero_row(work, lines, area.matrix() - lines);
    let from = edges_end(area);
    words::zero_row(work, from, layout.end() - from);
}

// The places of the records, the parts of the lines and the summaries of the calls.
pub fn summarize(file: &[u8], h: Header, work: &mut [u64])
    requires { FitFlow file.now h work.old }
    ensures { SummariesMade file.now h work.new }
{
    let n = h.statements;
    let width = set_words(h.arrays);
    clear(work, solve::layout::Layout { n, width });
    records::offsets::note_offsets(file, work, 0, n);
    records::lines::note_lines(file, h.lines_at, h.lines, work, lines(n), n);
    calls::summary::summarize_calls(file, h, work);
}

// Whether the body of the handler, if there is one, is opaque.
pub fn opaque_handler(file: &[u8], h: Header, work: &[u64]) -> bool
    requires { SummariesMade file.now h work.now }
    ensures { result ≡ opaque_handler (flow_of file.now) }
{
    // Arms and no closure, which would have to state what the place in the area asks for.
    match h.handler {
        None => false,
        Some(e) => {
            let bodies = Layout { n: h.statements }.bodies();
            work[bodies + e.0] == SummaryState::Opaque as u64
        }
    }
}

// The arrays that the handler's body touches are noted for the solver: the words where they stand now serve for the edges.
pub fn note_key(file: &[u8], h: Header, work: &mut [u64])
    requires { SummariesMade file.now h work.old × (opaque_handler (flow_of file.now) ≡ false) }
    ensures { SummariesMade file.now h work.new × KeySet (flow_of file.now) work.new h.statements (set_words h.arrays) }
{
    let n = h.statements;
    if let Some(e) = h.handler {
        let width = set_words(h.arrays);
        let key = solve::layout::Layout { n, width }.key();
        work[key] = work[Layout { n }.touched() + e.0];
    }
}

// What the edges are made from. The queue's words served as a stack, and the rows of entered statements and of RETURNs were used: all are zeroed for
// the solver.
pub fn link(file: &[u8], h: Header, work: &mut [u64])
    requires { SummariesMade file.now h work.old × KeySet (flow_of file.now) work.old h.statements (set_words h.arrays) × (0 < h.statements) }
    ensures { SolverStart file.now h work.new }
{
    let layout = Layout { n: h.statements };
    calls::returns::note_edges(file, h, work);
    let queue = layout.queue();
    words::zero_row(work, queue, edges_end(layout) - queue);
}

// The masks that the queue rule leaves.
fn solve_arrays(file: &[u8], h: Header, masks: &mut [u8], work: &mut [u64]) -> u64
    requires { SolverStart file.now h work.old × (h.statements * h.arrays ≤ length masks.old) × (opaque_handler (flow_of file.now) ≡ false) }
    ensures { Masked file.now h masks.old masks.new work.new result }
{
    let n = h.statements;
    let arrays = h.arrays;
    let visits = arrays::array_states(file, h, work);
    write::write_masks(masks, work, n, arrays);
    visits
}

// The masks. An opaque handler may leave any array in any state before any statement, so there is nothing to solve.
fn find_masks(file: &[u8], h: Header, masks: &mut [u8], work: &mut [u64]) -> u64
    requires { SummariesMade file.now h work.old × (0 < h.statements) × (h.statements * h.arrays ≤ length masks.old) }
    ensures { Masked file.now h masks.old masks.new work.new result }
{
    if opaque_handler(file, h, work) {
        write::write_any(&mut masks[..h.statements * h.arrays]);
        return 0;
    }
    note_key(file, h, work);
    link(file, h, work);
    solve_arrays(file, h, masks, work)
}

// The live sets of all statements.
fn solve_names(file: &[u8], n: usize, live_in: &mut [u64], live_out: &mut [u64], work: &mut [u64])
    requires { Ready file.now work.old n × (0 < n) × (n ≤ length live_in.old) × (n ≤ length live_out.old) }
    ensures { Written n (live_in_word (flow_of file.now)) live_in.old live_in.new × Written n (live_out_word (flow_of file.now)) live_out.old live_out.new }
{
    live::live_names(file, work, live_in, live_out, Layout { n });
}

// What the phases find of a file and areas that are fit.
fn solve_flow(
    file: &[u8],
    h: Header,
    masks: &mut [u8],
    live_in: &mut [u64],
    live_out: &mut [u64],
    work: &mut [u64],
) -> u64
    requires { FitAreas file.now h masks.old live_in.old live_out.old work.old }
    ensures { Findings (flow_of file.now) masks.old masks.new live_in.old live_in.new live_out.old live_out.new result }
{
    let n = h.statements;
    summarize(file, h, work);
    let visits = find_masks(file, h, masks, work);
    solve_names(file, n, live_in, live_out, work);
    visits
}

// The answer to every file and all lent areas. Nothing is written before both are judged, so that a refusal changes nothing; the work area
// is zeroed whole after the phases, for the caller.
pub fn states(
    file: &[u8],
    masks: &mut [u8],
    live_in: &mut [u64],
    live_out: &mut [u64],
    work: &mut [u64],
) -> Result<u64, Refusal>
    ensures { Promise file.now masks.old masks.new live_in.old live_in.new live_out.old live_out.new work.old work.new result }
{
    let h = check_file(file)?;
    let size = work.len();
    if !areas_fit(
        h.statements,
        h.arrays,
        masks.len(),
        live_in.len(),
        live_out.len(),
        size,
    ) {
        return Err(Refusal::Areas);
    }
    // With no statements there is no entry, and nothing to visit.
    if h.statements == 0 {
        words::zero_row(work, 0, size);
        return Ok(0);
    }
    let visits = solve_flow(file, h, masks, live_in, live_out, work);
    words::zero_row(work, 0, size);
    Ok(visits)
}
