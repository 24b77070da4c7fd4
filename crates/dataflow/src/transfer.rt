// What a statement does to the masks of a doubled number, on the way to its edges: which arrays take an effect is noted as a set, and the row of masks steps.
#![tactic(auto, using(crate::proofs::Headers::sizes))]

ghost use Rattle.std.specs.Prelude.{◌≡◌, true, ◌&&◌, cond, ◌⊎◌, ℕ, ◌+◌, ◌*◌, ◌/◌, ◌<◌, ◌≤◌, eqb, ltb, length};
ghost use Rattle.words.specs.Clauses.Row.{bit, has};
ghost use Rattle.masks.specs.declared.Effect.TheVariants.{Reset, Touched};
ghost use Rattle.flow.specs.declared.Base.TheVariants.{N};
ghost use Rattle.flow.specs.Flow.{items};
ghost use Rattle.flow.specs.Format.{flow_of};
ghost use Rattle.flow.specs.Limits.{max_arrays};
ghost use Rattle.flow.specs.Clauses.Answers.{FitFile};
ghost use Rattle.theory.specs.Lists as lists;
ghost use Rattle.theory.specs.Body.{kind, references};
ghost use Rattle.theory.specs.Doubled as doubled;
ghost use Rattle.theory.specs.Doubled.{dims, statement_effects, own_effects, edge_effects};
ghost use Rattle.statements.specs.Clauses.Layout.{solver_at, set_words, max_width};
ghost use Rattle.statements.specs.Clauses.Ready.{Indexed, RecordOf};
ghost use Rattle.calls.specs.Clauses.Held.{Linked};
ghost use Rattle.calls.specs.Clauses.Class.{transparent_call};
ghost use Rattle.solve.specs.Clauses.Layout.{out_row, back_row, mask_row_at, area_end, key_at};
ghost use Rattle.solve.specs.Clauses.Rows.{RowIs, Beside, mask_at, step_where, member};
ghost use Rattle.dataflow.specs.Clauses.Transfer.{SetIs, SetGains, RowSteps, RowsApart, enters_again, Acted, plain_effects, KeySet, KeyStepped};
ghost use Rattle.dataflow.specs.Clauses.Sent.{edge_row, Prepared};

use flow::{Base, NodeId, StmtId};
use masks::Effect;
use solve::layout::Layout;
use solve::rows;
use statements::{fields, layout};

// The references of statement i, whose record is at p, as a set.
fn note_references(file: &[u8], work: &mut [u64], i: StmtId, p: usize, set: usize, width: usize)
    requires { RecordOf file.now i.0 p × (width ≤ max_width) × (set + width ≤ length work.old) }
    ensures { SetIs work.old work.new set width (λ a. lists.elem a (references (flow_of file.now) i.0)) }
{
    // Up to 64 arrays take one word, and no loop.
    if width == 1 {
        work[set] = records::references_word(file, p, 0);
        return;
    }
    for k in 0..width {
        work[set + k] = records::references_word(file, p, k);
    }
}

// The array of an item with dimensions joins the set; an item without does nothing to its array's mask.
fn note_item(work: &mut [u64], set: usize, width: usize, x: flow::Item)
    requires { (width ≤ max_width) × (set + width ≤ length work.old) × (x.array < 64 * width) }
    ensures { SetGains work.old work.new set width (λ a. eqb x.array a && x.flag) }
{
    if x.flag {
        words::insert(work, set, x.array);
    }
}

// The arrays of the items of statement i, whose record is at p, that have dimensions, as a set.
fn note_items(file: &[u8], work: &mut [u64], i: StmtId, p: usize, set: usize, width: usize)
    requires { FitFile file.now × RecordOf file.now i.0 p × (width ≡ set_words (flow_of file.now).arrays) × (set + width ≤ length work.old) }
    ensures { SetIs work.old work.new set width (λ a. lists.any (dims a) (items (kind (flow_of file.now) i.0))) }
{
    words::zero_row(work, set, width);
    let count = records::item_count(file, p);
    for k in 0..count {
        note_item(work, set, width, records::item(file, p, k));
    }
}

// Word k of the set of the arrays below the count.
fn below_word(count: usize, k: usize) -> u64
    requires { (count ≤ max_arrays) × (k < max_width) }
    ensures { (j : ℕ) → j < 64 → bit result j ≡ cond (ltb (64 * k + j) count) 1 0 }
{
    let rest = count.saturating_sub(64 * k);
    if rest < 64 { (1 << rest) - 1 } else { u64::MAX }
}

// All arrays, as a set.
fn note_all(work: &mut [u64], count: usize, set: usize, width: usize)
    requires { (count ≤ max_arrays) × (width ≤ max_width) × (set + width ≤ length work.old) }
    ensures { SetIs work.old work.new set width (λ a. ltb a count) }
{
    for k in 0..width {
        work[set + k] = below_word(count, k);
    }
}

// The row at `to` becomes the row at `from` once all arrays are reset.
pub fn reset_row(work: &mut [u64], count: usize, width: usize, set: usize, to: usize, from: usize)
    requires { (count ≤ max_arrays) × (width ≤ max_width) × RowsApart work.old width set to from }
    ensures { RowSteps work.old work.new width set to from (λ a. ltb a count) Reset }
{
    note_all(work, count, set, width);
    rows::step_members(work, width, to, from, set, Effect::Reset);
}

// The act of statement i on the masks of d, into the row for its edges. The row of the other edge serves between the two steps of a DIM.
fn transfer(
    file: &[u8],
    h: flow::Header,
    work: &mut [u64],
    width: usize,
    d: NodeId,
    i: StmtId,
    p: usize,
)
    requires { (width ≡ set_words h.arrays) × Indexed file.now h work.old × (d.0 < 2 * h.statements) × RecordOf file.now i.0 p }
    ensures { Acted (flow_of file.now) work.old work.new h.statements width d.0 (statement_effects (flow_of file.now) i.0) (out_row h.statements width) }
{
    let layout = Layout {
        n: h.statements,
        width,
    };
    let set = layout.set_row();
    let out = layout.out_row();
    let from = layout.mask_row(d);
    if fields::resets(file, i, p) {
        reset_row(work, h.arrays, width, set, out, from);
        return;
    }
    note_references(file, work, i, p, set, width);
    if records::item_count(file, p) == 0 {
        rows::step_members(work, width, out, from, set, Effect::Reference);
        return;
    }
    let back = layout.back_row();
    rows::step_members(work, width, back, from, set, Effect::Reference);
    note_items(file, work, i, p, set, width);
    rows::step_members(work, width, out, back, set, Effect::Dim);
}

// Where the act of statement i on the masks of d stands: where the statement does nothing to masks, in the number's own row.
fn act_row(
    file: &[u8],
    h: flow::Header,
    work: &mut [u64],
    width: usize,
    d: NodeId,
    i: StmtId,
    p: usize,
) -> usize
    requires { (width ≡ set_words h.arrays) × Indexed file.now h work.old × (d.0 < 2 * h.statements) × RecordOf file.now i.0 p × (i.0 < h.statements) }
    ensures { Acted (flow_of file.now) work.old work.new h.statements width d.0 (statement_effects (flow_of file.now) i.0) result × ((result ≡ out_row h.statements width) ⊎ (result ≡ mask_row_at h.statements width d.0)) }
{
    let layout = Layout {
        n: h.statements,
        width,
    };
    if fields::acts(file, work, layout.n, i) {
        transfer(file, h, work, width, d, i, p);
        return layout.out_row();
    }
    layout.mask_row(d)
}

// The row at `to` becomes the row at `from` with the touched step of the handler. The two may be one row.
pub fn step_key(work: &mut [u64], layout: Layout, to: usize, from: usize)
    requires { (key_at layout.n layout.width + layout.width ≤ length work.old) × (to + 3 * layout.width ≤ key_at layout.n layout.width) × (from + 3 * layout.width ≤ key_at layout.n layout.width) × Beside layout.width to from }
    ensures { RowIs work.old work.new layout.width to (step_where (member work.old (key_at layout.n layout.width)) Touched (mask_at work.old layout.width from)) }
{
    rows::step_members(work, layout.width, to, from, layout.key(), Effect::Touched);
}

// Where the row stands that goes along all edges of d, whose statement i is no call that is not opaque.
pub fn plain_row(
    file: &[u8],
    h: flow::Header,
    work: &mut [u64],
    width: usize,
    d: NodeId,
    i: StmtId,
    p: usize,
) -> usize
    requires { (width ≡ set_words h.arrays) × Indexed file.now h work.old × KeySet (flow_of file.now) work.old h.statements width × (d.0 < 2 * h.statements) × RecordOf file.now i.0 p × (i.0 < h.statements) }
    ensures { Acted (flow_of file.now) work.old work.new h.statements width d.0 (plain_effects (flow_of file.now) i.0) result × ((result ≡ out_row h.statements width) ⊎ (result ≡ mask_row_at h.statements width d.0)) }
{
    let layout = Layout {
        n: h.statements,
        width,
    };
    let own = act_row(file, h, work, width, d, i, p);
    if h.handler.is_none() {
        return own;
    }
    let out = layout.out_row();
    step_key(work, layout, out, own);
    out
}

// The row for the edge to the continuation of the call at hand, from the row at `from`, of which the arrays in the set at word `set` take the effect.
fn step_back(work: &mut [u64], layout: Layout, from: usize, set: usize, effect: Effect)
    requires { (area_end layout.n layout.width ≤ length work.old) × (set + layout.width ≤ solver_at layout.n) × ((from ≡ out_row layout.n layout.width) ⊎ (from ≡ back_row layout.n layout.width)) }
    ensures { RowIs work.old work.new layout.width (back_row layout.n layout.width) (step_where (member work.old set) effect (mask_at work.old layout.width from)) }
{
    rows::step_members(work, layout.width, layout.back_row(), from, set, effect);
}

// Whether the edge of a call to base + its continuation k is also one to a statement that it enters: so it is in base n where k is in the row of these.
pub fn enters_again(work: &[u64], base: Base, row: usize, k: StmtId) -> bool
    requires { row + k.0 / 64 < length work.now }
    ensures { result ≡ (doubled.same_base base N && eqb (has work.now row k.0) 1) }
{
    match base {
        Base::Zero => false,
        Base::N => words::contains(work, row, k.0),
    }
}

// The rows of d, whose statement i is a call that is not opaque, by the statement alone: that of its act, and for the edge to the continuation
// with the touched step and, unless that edge is also one to an entered statement, for sure arrays that of a reference.
fn own_rows(
    file: &[u8],
    h: flow::Header,
    work: &mut [u64],
    width: usize,
    d: NodeId,
    i: StmtId,
    p: usize,
    again: bool,
)
    requires { (width ≡ set_words h.arrays) × Indexed file.now h work.old × Linked (flow_of file.now) work.old h.statements × (d.0 < 2 * h.statements) × RecordOf file.now i.0 p × (i.0 ≡ (doubled.node (flow_of file.now) d.0).stmt) × (i.0 < h.statements) × (transparent_call (flow_of file.now) i.0 ≡ true) × (again ≡ enters_again (flow_of file.now) (doubled.node (flow_of file.now) d.0).base i.0) }
    ensures { Prepared (flow_of file.now) work.old work.new h.statements width d.0 (own_effects (flow_of file.now) (doubled.node (flow_of file.now) d.0).stmt) (edge_row h.statements width) }
{
    let layout = Layout {
        n: h.statements,
        width,
    };
    transfer(file, h, work, width, d, i, p);
    let out = layout.out_row();
    let touched = layout::Layout { n: layout.n }.call_touched() + i.0;
    step_back(work, layout, out, touched, Effect::Touched);
    if again {
        return;
    }
    let back = layout.back_row();
    let sure = layout::Layout { n: layout.n }.sure() + i.0;
    step_back(work, layout, back, sure, Effect::Reference);
}

// Both rows take the touched step of the handler.
fn key_rows(work: &mut [u64], layout: Layout)
    requires { key_at layout.n layout.width + layout.width ≤ length work.old }
    ensures { KeyStepped work.old work.new layout.n layout.width }
{
    let out = layout.out_row();
    let back = layout.back_row();
    step_key(work, layout, out, out);
    step_key(work, layout, back, back);
}

// The rows that go along the edges of d, whose statement i is a call that is not opaque. They are not the number's own, which the edge to the continuation may
// change while others are still to be sent.
pub fn call_rows(
    file: &[u8],
    h: flow::Header,
    work: &mut [u64],
    width: usize,
    d: NodeId,
    i: StmtId,
    p: usize,
    again: bool,
)
    requires { (width ≡ set_words h.arrays) × Indexed file.now h work.old × Linked (flow_of file.now) work.old h.statements × KeySet (flow_of file.now) work.old h.statements width × (d.0 < 2 * h.statements) × RecordOf file.now i.0 p × (i.0 ≡ (doubled.node (flow_of file.now) d.0).stmt) × (i.0 < h.statements) × (transparent_call (flow_of file.now) i.0 ≡ true) × (again ≡ enters_again (flow_of file.now) (doubled.node (flow_of file.now) d.0).base i.0) }
    ensures { Prepared (flow_of file.now) work.old work.new h.statements width d.0 (edge_effects (flow_of file.now) (doubled.node (flow_of file.now) d.0).stmt) (edge_row h.statements width) }
{
    own_rows(file, h, work, width, d, i, p, again);
    if h.handler.is_some() {
        key_rows(
            work,
            Layout {
                n: h.statements,
                width,
            },
        );
    }
}
