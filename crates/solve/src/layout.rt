// Where the solver's words stand, for a flow of n statements whose sets of arrays have `width` words: behind those of the calls a set and two rows of masks for the statement at hand; then for
// each doubled number a row of masks and its state, whether it waits and whether it is settled, so that what a visit asks of a number stands together; then a row of masks for each statement that leads RETURNs.
ghost use Rattle.std.specs.Prelude.{◌≡◌, ◌+◌, ◌*◌, ◌<◌, ◌≤◌};
ghost use Rattle.flow.specs.Limits.{max_statements};
ghost use Rattle.statements.specs.Clauses.Layout.{max_width, queue_at};
ghost use Rattle.solve.specs.Clauses.Layout as at;

use flow::{NodeId, StmtId};
use statements::layout;

// Neither number is more than there may be.
#[derive(Clone, Copy)]
pub struct Layout {
    pub n: usize,
    pub width: usize,
    pub ghost few: { n ≤ max_statements },
    pub ghost narrow: { width ≤ max_width },
}

impl Layout {
    // Where the waiting numbers stand.
    pub fn queue(self) -> usize
        ensures { result ≡ queue_at self.n }
    {
        layout::Layout { n: self.n }.queue()
    }

    // The arrays that take an effect at the statement at hand.
    pub fn set_row(self) -> usize
        ensures { result ≡ at.set_row self.n }
    {
        layout::Layout { n: self.n }.solver()
    }

    // What stands k sets of arrays behind that set.
    fn sets_on(self, k: usize) -> usize
        requires { k ≤ 7 }
        ensures { result ≡ at.set_row self.n + k * self.width }
    {
        self.set_row() + k * self.width
    }

    // The masks that the statement at hand sends along its edges.
    pub fn out_row(self) -> usize
        ensures { result ≡ at.out_row self.n self.width }
    {
        self.sets_on(1)
    }

    // Those that it sends along the edge to base + continuation.
    pub fn back_row(self) -> usize
        ensures { result ≡ at.back_row self.n self.width }
    {
        self.sets_on(4)
    }

    // Where the words of the first k doubled numbers end.
    fn mask_rows_end(self, k: usize) -> usize
        requires { k ≤ 2 * self.n }
        ensures { result ≡ at.mask_rows_end self.n self.width k }
    {
        self.sets_on(7) + (3 * (self.width * k) + k)
    }

    // The row of masks of a doubled number.
    pub fn mask_row(self, d: NodeId) -> usize
        requires { d.0 < 2 * self.n }
        ensures { result ≡ at.mask_row_at self.n self.width d.0 }
    {
        self.mask_rows_end(d.0)
    }

    // The word that says whether the number d of the ring waits, and whether it was visited and its masks have not grown since.
    pub fn state(self, d: usize) -> usize
        requires { d < 2 * self.n }
        ensures { result ≡ at.state_at self.n self.width d }
    {
        self.mask_rows_end(d) + 3 * self.width
    }

    // Where the words of the doubled numbers end.
    pub fn nodes_end(self) -> usize
        ensures { result ≡ at.nodes_end self.n self.width }
    {
        self.mask_rows_end(2 * self.n)
    }

    // Where the first k rows of what was sent end.
    fn sent_rows_end(self, k: usize) -> usize
        requires { k ≤ self.n }
        ensures { result ≡ at.sent_row_at self.n self.width k }
    {
        self.nodes_end() + 3 * (self.width * k)
    }

    // The masks that the RETURNs which statement i leads have sent along all their edges.
    pub fn sent_row(self, i: StmtId) -> usize
        requires { i.0 < self.n }
        ensures { result ≡ at.sent_row_at self.n self.width i.0 }
    {
        self.sent_rows_end(i.0)
    }

    // Where the words end that the solver writes.
    pub fn end(self) -> usize
        ensures { result ≡ at.area_end self.n self.width }
    {
        self.sent_rows_end(self.n)
    }

    // The arrays that the handler's body touches, behind all words that the solver writes.
    pub fn key(self) -> usize
        ensures { result ≡ at.key_at self.n self.width }
    {
        self.end()
    }
}
