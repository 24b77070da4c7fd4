// The masks as bytes, statement by statement: the union over both copies. The sets of a statement become bytes eight arrays at a time.
ghost use Rattle.std.specs.Prelude.{◌+◌, ◌-◌, ◌*◌, ◌<◌, ◌≤◌, min, ◌≡◌, length, replicate};
ghost use Rattle.flow.specs.Format.{tabulate};
ghost use Rattle.words.specs.Clauses.Byte.{byte_of, bytes};
ghost use Rattle.words.specs.Clauses.Row.{bit};
ghost use Rattle.words.specs.Clauses.Change.{noted};
ghost use Rattle.flow.specs.Limits.{max_statements, max_arrays};
ghost use Rattle.theory.specs.Masks.{any_state};
ghost use Rattle.statements.specs.Clauses.Layout.{set_words};
ghost use Rattle.solve.specs.Clauses.Layout.{area_end};
ghost use Rattle.dataflow.specs.Clauses.Bytes.{mask_in, EightMasks, RowsHeld, both_words, both_copies, SameSets, Says, RowBefore, noted_rows};

use flow::{Base, StmtId};
use solve::layout::Layout;
use statements::doubled;
use statements::layout::set_words;

// Eight bits as the bytes of a word. The product has `bits` in each byte, of which byte j keeps bit j; the sum then carries it to the top of its byte.
fn spread(bits: u64) -> u64
    requires { bits < 256 }
    ensures { result ≡ bytes (bit bits) 8 }
{
    ((((bits * 0x0101010101010101) & 0x8040201008040201) + 0x00406070787C7E7F) >> 7)
        & 0x0101010101010101
}

// The masks of eight arrays, a byte each: those of the lowest bits of the sets.
fn eight_masks(none: u64, auto: u64, dimmed: u64) -> u64
    ensures { EightMasks none auto dimmed result }
{
    spread(none % 256) + 2 * spread(auto % 256) + 4 * spread(dimmed % 256)
}

// The lowest bytes of a word, as many as there is room for.
fn write_bytes(out: &mut [u8], word: u64)
    requires { length out.old ≤ 8 }
    ensures { out.new ≡ tabulate (length out.old) (byte_of word) }
{
    // By the shift: a copy of so many bytes as there happen to be is a call of `memcpy`, which a program without the C library may not have.
    for k in 0..out.len() {
        out[k] = ((word >> (8 * k)) % 256) as u8;
    }
}

// The masks of the first arrays of a word of each set. Eight bytes of a word become one store, so the last, short group stands apart.
fn write_word(out: &mut [u8], none: u64, auto: u64, dimmed: u64)
    requires { length out.old ≤ 64 }
    ensures { out.new ≡ tabulate (length out.old) (mask_in none auto dimmed) }
{
    let mut x = none;
    let mut y = auto;
    let mut z = dimmed;
    let groups = out.len() / 8;
    for g in 0..groups {
        out[8 * g..8 * g + 8].copy_from_slice(&eight_masks(x, y, z).to_le_bytes());
        x >>= 8;
        y >>= 8;
        z >>= 8;
    }
    write_bytes(&mut out[8 * groups..], eight_masks(x, y, z));
}

// How many arrays word k of a set stands for.
pub fn in_word(arrays: usize, k: usize) -> usize
    requires { (arrays ≤ max_arrays) × (64 * k ≤ arrays) }
    ensures { result ≡ min 64 (arrays - 64 * k) }
{
    (arrays - 64 * k).min(64)
}

// Word k of the sets of statement i, joined over both copies.
fn joined_word(work: &[u64], layout: Layout, i: usize, k: usize) -> u64
    requires { RowsHeld work.now layout.n layout.width × (i < layout.n) × (k < 3 * layout.width) }
    ensures { result ≡ both_words work.now layout.n layout.width i k }
{
    let zero = layout.mask_row(doubled::node(layout.n, Base::Zero, StmtId(i)));
    let other = layout.mask_row(doubled::node(layout.n, Base::N, StmtId(i)));
    work[zero + k] | work[other + k]
}

// The masks of statement i, made from its sets.
fn write_row(out: &mut [u8], work: &[u64], n: usize, i: usize)
    requires { (length out.old ≤ max_arrays) × RowsHeld work.now n (set_words (length out.old)) × (i < n) }
    ensures { out.new ≡ tabulate (length out.old) (both_copies work.now n (set_words (length out.old)) i) }
{
    let arrays = out.len();
    let width = set_words(arrays);
    let layout = Layout { n, width };
    for k in 0..width {
        let none = joined_word(work, layout, i, k);
        let auto = joined_word(work, layout, i, width + k);
        let dimmed = joined_word(work, layout, i, 2 * width + k);
        let at = 64 * k;
        write_word(&mut out[at..at + in_word(arrays, k)], none, auto, dimmed);
    }
}

// Whether statements i and j have the same sets, joined over both copies.
fn same_sets(work: &[u64], layout: Layout, i: usize, j: usize) -> bool
    requires { RowsHeld work.now layout.n layout.width × (i < layout.n) × (j < layout.n) }
    ensures { Says result (SameSets work.now layout.n layout.width i j) }
{
    // A loop: of `all` over the same range the proof did not close.
    for k in 0..3 * layout.width {
        if joined_word(work, layout, i, k) != joined_word(work, layout, j, k) {
            return false;
        }
    }
    true
}

// The masks of statement i. Most statements leave the masks as they were before them: those are copied.
fn write_statement(masks: &mut [u8], work: &[u64], n: usize, arrays: usize, i: usize)
    requires { (arrays ≤ max_arrays) × RowsHeld work.now n (set_words arrays) × (i < n) × (i * arrays + arrays ≤ length masks.old) × RowBefore masks.old work.now n arrays i }
    ensures { masks.new ≡ noted masks.old (i * arrays) arrays (both_copies work.now n (set_words arrays) i) }
{
    let at = i * arrays;
    let width = set_words(arrays);
    if 0 < i && same_sets(work, Layout { n, width }, i - 1, i) {
        masks.copy_within(at - arrays..at, at);
        return;
    }
    write_row(&mut masks[at..at + arrays], work, n, i);
}

pub fn write_masks(masks: &mut [u8], work: &[u64], n: usize, arrays: usize)
    requires { (n ≤ max_statements) × (arrays ≤ max_arrays) × (n * arrays ≤ length masks.old) × (area_end n (set_words arrays) ≤ length work.now) }
    ensures { masks.new ≡ noted_rows masks.old arrays (both_copies work.now n (set_words arrays)) n }
{
    for i in 0..n {
        write_statement(masks, work, n, arrays, i);
    }
}

// No mask leaves a state out.
pub fn write_any(out: &mut [u8])
    ensures { out.new ≡ replicate (length out.old) any_state }
{
    out.fill(masks::ANY_STATE);
}
