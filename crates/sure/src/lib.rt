// The arrays that are sure for a plain GOSUB, for all bodies at once: which statements miss an array follows backward along the body walks. At a plain GOSUB a walk misses only what its
// body misses; and what that is follows in the same way. A body without a RETURN is not asked, but which have none is known only afterwards: their GOSUBs are then visited again.
#![tactic(auto)]

ghost use Rattle.std.specs.Prelude.{◌≡◌, ℕ, ◌+◌, ◌<◌, ◌≤◌, length, get_or};
ghost use Rattle.flow.specs.Format.{flow_of};
ghost use Rattle.statements.specs.Clauses.Layout.{sure_at};
ghost use Rattle.statements.specs.Clauses.Ready.{Indexed};
ghost use Rattle.sure.specs.Clauses.Layout as at;
ghost use Rattle.sure.specs.Clauses.Missing.{Bodies};
ghost use Rattle.sure.specs.Clauses.SureArrays as sure;
ghost use Rattle.sure.specs.Clauses.SureArrays.{opened, WordsBecome, Opened, SureNoted};

use crate::encoding::{body_of, body_word, set_of};
use crate::layout::{mirrored, waiting};
use flow::StmtId;
use statements::layout::Layout;

pub mod encoding;
pub mod layout;
pub mod missed;
pub mod noting;

// The word from now on of a statement that has this one: a body that no walk leaves by a RETURN is asked no more.
fn still_asked(work: &[u64], layout: Layout, word: u64) -> u64
    requires { (at.words_end layout.n ≤ length work.now) × (word ≤ layout.n) }
    ensures { result ≡ opened work.now layout.n word }
{
    match body_of(word) {
        Some(b) if set_of(work, layout, b).returns != 0 => word,
        _ => body_word(None),
    }
}

// So it is for all statements, and each that asks no more waits.
fn open_bodies(work: &mut [u64], layout: Layout)
    requires { (at.words_end layout.n ≤ length work.old) × Bodies work.old layout.n }
    ensures { Opened work.old work.new layout.n }
{
    for c in 0..layout.n {
        let place = layout.sure() + c;
        let word = work[place];
        let still = still_asked(work, layout, word);
        if still != word {
            work[place] = still;
            words::insert(work, waiting(layout), mirrored(layout.n, StmtId(c)));
        }
    }
}

// The arrays that the body does not miss which a statement with this word asks.
fn unmissed(work: &[u64], layout: Layout, word: u64) -> u64
    requires { (at.words_end layout.n ≤ length work.now) × (word ≤ layout.n) }
    ensures { result ≡ sure.unmissed work.now layout.n word }
{
    match body_of(word) {
        Some(b) => !set_of(work, layout, b).missed,
        None => 0,
    }
}

fn note_unmissed(work: &mut [u64], layout: Layout)
    requires { (at.words_end layout.n ≤ length work.old) × Bodies work.old layout.n }
    ensures { WordsBecome (sure.unmissed work.old layout.n) work.old work.new layout.n }
{
    for c in 0..layout.n {
        let place = layout.sure() + c;
        let word = work[place];
        work[place] = unmissed(work, layout, word);
    }
}

// The arrays that are sure for each call.
pub fn sure_arrays(file: &[u8], h: flow::Header, work: &mut [u64])
    requires { Indexed file.now h work.old × ((c : ℕ) → c < h.statements → get_or work.old (sure_at h.statements + c) 0 ≡ 0) }
    ensures { SureNoted (flow_of file.now) work.old work.new h.statements }
{
    let layout = Layout { n: h.statements };
    if !noting::note_bodies(file, h, work) {
        return;
    }
    noting::note_statements(file, work, layout);
    missed::solve(file, work, layout);
    open_bodies(work, layout);
    missed::solve(file, work, layout);
    note_unmissed(work, layout);
}
