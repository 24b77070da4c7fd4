// Where the parts of the work area stand, for a flow of n statements: what is noted of the file, what is found of its calls, and where the
// words of the solver begin. Each phase writes one run of words.
ghost use Rattle.std.specs.Prelude.{◌≡◌, ◌+◌, ◌*◌, ◌<◌, ◌≤◌};
ghost use Rattle.flow.specs.Limits.{max_statements, max_arrays};
ghost use Rattle.statements.specs.Clauses.Layout as at;

use flow::StmtId;

// Where the FL records of each part of the lines stand.
pub fn lines(n: usize) -> usize
    ensures { result ≡ at.lines_at n }
{
    n
}

// The other parts, of a flow of no more statements than may be.
#[derive(Clone, Copy)]
pub struct Layout {
    pub n: usize,
    pub ghost few: { n ≤ max_statements },
}

impl Layout {
    // The arrays that are sure for each call.
    pub fn sure(self) -> usize
        ensures { result ≡ at.sure_at self.n }
    {
        2 * self.n
    }

    // The state of each call with a continuation: transparent or opaque.
    pub fn calls(self) -> usize
        ensures { result ≡ at.calls_at self.n }
    {
        3 * self.n
    }

    // The arrays that each such call touches.
    pub fn call_touched(self) -> usize
        ensures { result ≡ at.call_touched_at self.n }
    {
        4 * self.n
    }

    // The state of each body: unentered, open, transparent or opaque.
    pub fn bodies(self) -> usize
        ensures { result ≡ at.bodies_at self.n }
    {
        5 * self.n
    }

    // The arrays that each body touches.
    pub fn touched(self) -> usize
        ensures { result ≡ at.touched_at self.n }
    {
        6 * self.n
    }

    // Words of a row of statements.
    pub fn row_words(self) -> usize
        ensures { result ≡ at.row_words self.n }
    {
        self.n.div_ceil(64)
    }

    // The matrix of statement sets.
    pub fn matrix(self) -> usize
        ensures { result ≡ at.matrix_at self.n }
    {
        7 * self.n
    }

    // Where the first k rows of the matrix end.
    fn rows_end(self, k: usize) -> usize
        requires { k ≤ self.n }
        ensures { result ≡ at.rows_end self.n k }
    {
        self.matrix() + self.row_words() * k
    }

    // The row of statement i: a set of statements.
    pub fn row(self, i: StmtId) -> usize
        requires { i.0 < self.n }
        ensures { result ≡ at.row_at self.n i.0 }
    {
        self.rows_end(i.0)
    }

    // The lists of what calls enter, behind the rows of the matrix.
    pub fn lists(self) -> usize
        ensures { result ≡ at.lists_at self.n }
    {
        self.rows_end(self.n)
    }

    // Behind the lists, which have what the matrix leaves.
    pub fn queue(self) -> usize
        ensures { result ≡ at.queue_at self.n }
    {
        (48 * self.n).saturating_sub(7)
    }

    // What stands k parts of n words behind the lists.
    fn part(self, k: usize) -> usize
        requires { k ≤ 3 }
        ensures { result ≡ at.queue_at self.n + k * self.n }
    {
        self.queue() + k * self.n
    }

    // The statements that the call at hand enters.
    pub fn entered_row(self) -> usize
        ensures { result ≡ at.entered_row_at self.n }
    {
        self.part(2)
    }

    // Where the solver's words begin.
    pub fn solver(self) -> usize
        ensures { result ≡ at.solver_at self.n }
    {
        self.part(3)
    }

    // The RETURNs of the flow, where the solver's words begin: it is not yet at work while they are needed.
    pub fn returns_row(self) -> usize
        ensures { result ≡ at.returns_row_at self.n }
    {
        self.solver()
    }
}

// Words of a set of up to 64 arrays.
const ONE_WORD: usize = 1;

// Words of a set of arrays: as many as the flow's arrays need. A flow has at most 64 arrays, so that is one, and where it is said instead of computed the compiler makes the
// solver for rows of that width, which is a tenth faster.
pub fn set_words(arrays: usize) -> usize
    requires { arrays ≤ max_arrays }
    ensures { result ≡ at.set_words arrays }
{
    ONE_WORD
}
