// The masks at the entry, in any row: a table that was worked out elsewhere is begun in a row of its own.
#![tactic(auto, using(crate::proofs::Headers::sizes))]

ghost use Rattle.std.specs.Prelude.{◌≡◌, ◌+◌, ◌*◌, ◌<◌, ◌≤◌};
ghost use Rattle.flow.specs.Format.{flow_of};
ghost use Rattle.statements.specs.Clauses.Layout.{set_words};
ghost use Rattle.statements.specs.Clauses.Ready.{Indexed};
ghost use Rattle.solve.specs.Clauses.Layout.{back_row, nodes_end};
ghost use Rattle.dataflow.specs.Clauses.Transfer.{KeySet};
ghost use Rattle.dataflow.specs.Clauses.Solving.{Unused, RowBegun};

use crate::transfer;
use solve::layout::Layout;

// The masks of the row become those at the entry: NONE for all arrays, with the touched step of the handler.
pub fn begin_row(file: &[u8], h: flow::Header, work: &mut [u64], width: usize, row: usize)
    requires { (width ≡ set_words h.arrays) × Indexed file.now h work.old × KeySet (flow_of file.now) work.old h.statements width × (0 < h.statements) × (back_row h.statements width ≤ row) × (row + 3 * width ≤ nodes_end h.statements width) × Unused work.old h.statements width }
    ensures { RowBegun (flow_of file.now) work.old work.new h.statements width row }
{
    let layout = Layout {
        n: h.statements,
        width,
    };
    transfer::reset_row(
        work,
        h.arrays,
        width,
        layout.set_row(),
        row,
        layout.out_row(),
    );
    if h.handler.is_some() {
        transfer::step_key(work, layout, row, row);
    }
}
