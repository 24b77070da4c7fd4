// Rows of masks, each three sets of arrays: the arrays of a set take an effect, a word of them at a time.
ghost use Rattle.std.specs.Prelude.{◌+◌, ◌*◌, ◌<◌, ◌≤◌, length};
ghost use Rattle.statements.specs.Clauses.Layout.{max_width};
ghost use Rattle.solve.specs.Clauses.Rows.{mask_at, RowIs, Beside, Aside, WordStepped, step_where, member};

use masks::{Effect, State};

// Word k of the row at `to` becomes that of the row at `from`, of which the arrays in the word `chosen` take the effect.
fn step_word(
    work: &mut [u64],
    width: usize,
    to: usize,
    from: usize,
    k: usize,
    chosen: u64,
    effect: Effect,
)
    requires { (k < width) × (to + 3 * width ≤ length work.old) × (from + 3 * width ≤ length work.old) }
    ensures { WordStepped work.old work.new width to from k chosen effect }
{
    let none = work[from + k];
    let auto = work[from + width + k];
    let dimmed = work[from + 2 * width + k];
    work[to + k] = words::choose(
        chosen,
        masks::holders(effect, State::None, none, auto, dimmed),
        none,
    );
    work[to + width + k] = words::choose(
        chosen,
        masks::holders(effect, State::Auto, none, auto, dimmed),
        auto,
    );
    work[to + 2 * width + k] = words::choose(
        chosen,
        masks::holders(effect, State::Dimmed, none, auto, dimmed),
        dimmed,
    );
}

// The row at `to` becomes the row at `from`, of which the arrays in the set at word `set` take the effect. The two may be one row.
pub fn step_members(
    work: &mut [u64],
    width: usize,
    to: usize,
    from: usize,
    set: usize,
    effect: Effect,
)
    requires { (width ≤ max_width) × Aside width set to × (set + width ≤ length work.old) × (to + 3 * width ≤ length work.old) × (from + 3 * width ≤ length work.old) × Beside width to from }
    ensures { RowIs work.old work.new width to (step_where (member work.old set) effect (mask_at work.old width from)) }
{
    // Up to 64 arrays take one word, and no loop.
    if width == 1 {
        let chosen = work[set];
        step_word(work, 1, to, from, 0, chosen, effect);
        return;
    }
    for k in 0..width {
        let chosen = work[set + k];
        step_word(work, width, to, from, k, chosen, effect);
    }
}
