// The bytes of a proposal become rows of masks: of eight arrays at a time, the bits that say whether a mask has the state.
ghost use Rattle.std.specs.Prelude.{◌+◌, ◌*◌, ◌<◌, ◌≤◌, ◌≡◌, length, get_or};
ghost use Rattle.flow.specs.Format.{le_at};
ghost use Rattle.flow.specs.Limits.{max_statements, max_arrays};
ghost use Rattle.statements.specs.Clauses.Layout.{set_words};
ghost use Rattle.solve.specs.Clauses.Layout.{mask_row_at, nodes_end};
ghost use Rattle.solve.specs.Clauses.Rows.{RowIs};
ghost use Rattle.dataflow.specs.Clauses.Sent.{masks_below};
ghost use Rattle.accept.specs.Clauses.Bytes.{Masks};
ghost use Rattle.accept.specs.Clauses.Rows.{Gathered, SetsOf, row_of, LoadedBefore, Unloaded, Loaded};

use crate::bytes;
use flow::NodeId;
use solve::layout::Layout;
use solve::nodes;
use statements::layout::set_words;

// The lowest bits of the eight bytes of a word, side by side.
fn gather(word: u64) -> u64
    ensures { Gathered word result }
{
    let ones = word & 0x0101010101010101;
    let pairs = ones | (ones >> 7);
    let fours = pairs | (pairs >> 14);
    (fours | (fours >> 28)) % 256
}

// Fewer than eight bytes as a word. One by one: copied for `from_le_bytes` they cost a call of memcpy for each row, and a small file takes longer to accept than to solve.
fn short_word(s: &[u8]) -> u64
    requires { length s.now < 8 }
    ensures { result ≡ le_at (length s.now) s.now 0 }
{
    let mut word = 0;
    for k in (0..s.len()).rev() {
        word = 256 * word + u64::from(s[k]);
    }
    word
}

// One word of each of the three sets of a row of masks.
#[derive(Clone, Copy)]
pub struct Sets {
    pub none: u64,
    pub auto: u64,
    pub dimmed: u64,
}

// The sets of up to 64 arrays by the states that their masks have. Eight bytes are read at once for all three; the last, short group comes first.
fn sets_of(s: &[u8]) -> Sets
    requires { length s.now ≤ 64 }
    ensures { SetsOf s.now 0 result.none result.auto result.dimmed }
{
    let groups = s.len() / 8;
    let last = short_word(&s[8 * groups..]);
    let mut none = gather(last);
    let mut auto = gather(last >> 1);
    let mut dimmed = gather(last >> 2);
    for g in (0..groups).rev() {
        let eight = flow::bytes::u64_at(s, 8 * g);
        none = (none << 8) | gather(eight);
        auto = (auto << 8) | gather(eight >> 1);
        dimmed = (dimmed << 8) | gather(eight >> 2);
    }
    Sets { none, auto, dimmed }
}

// The row of masks at `row` becomes that of the bytes. By words and not by chunks of the bytes: with no arrays there are no chunks, and still one word.
fn load_row(work: &mut [u64], s: &[u8], row: usize, width: usize)
    requires { (width ≡ set_words (length s.now)) × (length s.now ≤ max_arrays) × (row + 3 * width ≤ length work.old) × Masks s.now (length s.now) }
    ensures { RowIs work.old work.new width row (masks_below (length s.now) (λ a. get_or s.now a 0)) }
{
    for k in 0..width {
        let at = 64 * k;
        let count = dataflow::write::in_word(s.len(), k);
        let sets = sets_of(&s[at..at + count]);
        work[row + k] = sets.none;
        work[row + width + k] = sets.auto;
        work[row + 2 * width + k] = sets.dimmed;
    }
}

// The masks of d, whose row is still zero, become those of its bytes. Most numbers have the masks of the one before them: those are joined to the row.
fn load_next(work: &mut [u64], s: &[u8], layout: Layout, arrays: usize, d: NodeId)
    requires { (arrays ≤ max_arrays) × (layout.width ≡ set_words arrays) × (d.0 < 2 * layout.n) × (nodes_end layout.n layout.width ≤ length work.old) × Masks s.now (2 * (layout.n * arrays)) × LoadedBefore s.now work.old layout.n layout.width arrays d.0 }
    ensures { RowIs work.old work.new layout.width (mask_row_at layout.n layout.width d.0) (masks_below arrays (row_of s.now arrays d.0)) }
{
    let row = layout.mask_row(d);
    let at = d.0 * arrays;
    let own = &s[at..at + arrays];
    if 0 < d.0 && bytes::join_apart(&s[at - arrays..at], own) == 0 {
        let before = layout.mask_row(NodeId(d.0 - 1));
        words::union(work, row, before, 3 * layout.width);
        return;
    }
    load_row(work, own, row, layout.width);
}

// Every number has the masks of its row, and is settled.
pub fn load_rows(work: &mut [u64], s: &[u8], n: usize, arrays: usize)
    requires { (n ≤ max_statements) × (arrays ≤ max_arrays) × (nodes_end n (set_words arrays) ≤ length work.old) × Masks s.now (2 * (n * arrays)) × Unloaded work.old n (set_words arrays) 0 }
    ensures { Loaded s.now work.old work.new n arrays (2 * n) }
{
    let width = set_words(arrays);
    let layout = Layout { n, width };
    for d in 0..2 * n {
        load_next(work, s, layout, arrays, NodeId(d));
        nodes::settle(work, layout, NodeId(d));
    }
}
