// The lent areas, judged last.
ghost use Rattle.std.specs.Prelude.{◌≡◌, ◌≤◌, leb};
ghost use Rattle.flow.specs.Format.{verdict, area_checks};
ghost use Rattle.flow.specs.Limits.{max_statements, max_arrays, work_words};
ghost use Rattle.flow.specs.Clauses.Answers.{is_fit};

use crate::WORK_PER_STATEMENT;

// An area that must have `need` elements is long enough.
pub fn area_fits(need: usize, have: usize) -> bool
    ensures { result ≡ leb need have }
{
    need <= have
}

// Work of 64 × n words.
pub fn work_fits(n: usize, work: usize) -> bool
    requires { n ≤ max_statements }
    ensures { result ≡ leb (work_words n) work }
{
    area_fits(WORK_PER_STATEMENT * n, work)
}

// Masks of n × arrays bytes, live-in and live-out of n words, and the work area.
#[tactic(auto, using(crate::proofs::Tests::tests), unfolding(crate::specs::Format::area_checks, crate::specs::Format::verdict))]
pub fn areas_fit(
    n: usize,
    arrays: usize,
    masks: usize,
    live_in: usize,
    live_out: usize,
    work: usize,
) -> bool
    requires { (n ≤ max_statements) × (arrays ≤ max_arrays) }
    ensures { result ≡ is_fit (verdict (area_checks n arrays masks live_in live_out work)) }
{
    area_fits(n * arrays, masks)
        && area_fits(n, live_in)
        && area_fits(n, live_out)
        && work_fits(n, work)
}
