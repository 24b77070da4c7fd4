// What words of the work area say of a statement: the body that it asks, the statements whose sets follow from its own, and its set.
#![tactic(auto)]

ghost use Rattle.std.specs.Prelude.{◌≡◌, ◌+◌, ◌<◌, ◌≤◌, IfSome, length, get_or};
ghost use Rattle.flow.specs.Limits.{max_statements};
ghost use Rattle.flow.specs.Clauses.Answers.{statement_in};
ghost use Rattle.sure.specs.Clauses.Noting.{body_of, asked};
ghost use Rattle.sure.specs.Clauses.Layout as at;
ghost use Rattle.sure.specs.Clauses.Encoding as encoding;

use crate::layout::set;
use flow::StmtId;
use statements::layout::Layout;

// The statements whose sets follow from that of another: the first of them, and whether there are more, which stand in the row of the other.
#[derive(Clone, Copy)]
pub struct Followers {
    pub first: StmtId,
    pub more: bool,
}

// What the word of followers has besides where there are more than the first.
const MORE: u64 = 65536;

// The body that is asked, if any.
pub fn body_of(word: u64) -> Option<StmtId>
    ensures { result ≡ statement_in (body_of (asked word)) }
{
    let b = word.checked_sub(1)?;
    Some(StmtId(b as usize))
}

// The word of a body, 0 for none: the lent work area is words, and there is no other memory.
pub fn body_word(body: Option<StmtId>) -> u64
    requires { IfSome body (λ b. b.0 < max_statements) }
    ensures { result ≡ encoding.body_word body }
{
    body.map_or(0, |b| b.0 as u64 + 1)
}

// The followers, if any.
pub fn followers_of(word: u64) -> Option<Followers>
    ensures { result ≡ encoding.followers_of word }
{
    let first = (word % MORE).checked_sub(1)?;
    Some(Followers {
        first: StmtId(first as usize),
        more: MORE <= word,
    })
}

// Their word.
pub fn followers_word(followers: Followers) -> u64
    requires { followers.first.0 < max_statements }
    ensures { result ≡ encoding.followers_word followers }
{
    let first = followers.first.0 as u64 + 1;
    if followers.more { MORE + first } else { first }
}

// What a body walk from a statement to a RETURN misses: arrays, and all bits of a second word if there is such a walk at all.
#[derive(Clone, Copy)]
pub struct Set {
    pub missed: u64,
    pub returns: u64,
}

pub fn set_of(work: &[u64], layout: Layout, i: StmtId) -> Set
    requires { (at.words_end layout.n ≤ length work.now) × (i.0 < layout.n) }
    ensures { (result.missed ≡ get_or work.now (at.set_at layout.n i.0) 0) × (result.returns ≡ get_or work.now (at.set_at layout.n i.0 + 1) 0) }
{
    let at = set(layout, i);
    Set {
        missed: work[at],
        returns: work[at + 1],
    }
}
