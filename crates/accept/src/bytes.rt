// The bytes of a proposal: which of them are masks, and whether each leaves no state out. The loops over all bytes have no way out, so that the compiler takes many bytes at a time.
ghost use Rattle.std.specs.Prelude.{◌≡◌, eqb, length, get_or};
ghost use Rattle.std.specs.Int.Bits.{bit_xor};
ghost use Rattle.theory.specs.Lists.{all_below};
ghost use Rattle.theory.specs.Masks.{any_state};
ghost use Rattle.theory.specs.Queue.{union_below};
ghost use Rattle.accept.specs.Clauses.Bytes.{Over};

use masks::ANY_STATE;

// The union of the bytes.
fn join_bytes(s: &[u8]) -> u8
    ensures { result ≡ union_below (length s.now) (λ k. get_or s.now k 0) }
{
    let mut all = 0;
    for x in s {
        all |= *x;
    }
    all
}

// The union of the bits in which the bytes of two rows differ.
pub fn join_apart(a: &[u8], b: &[u8]) -> u8
    requires { length a.now ≡ length b.now }
    ensures { result ≡ union_below (length a.now) (λ k. bit_xor (get_or a.now k 0) (get_or b.now k 0)) }
{
    let mut all = 0;
    for (x, y) in a.iter().zip(b) {
        all |= x ^ y;
    }
    all
}

// The first of the bytes that is over 7, if there is one.
fn seek_over(s: &[u8]) -> Option<usize>
    ensures { Over s.now (length s.now) result }
{
    s.iter().position(|x| ANY_STATE < *x)
}

// The same. In most proposals there is none.
pub fn first_over(s: &[u8]) -> Option<usize>
    ensures { Over s.now (length s.now) result }
{
    if join_bytes(s) <= ANY_STATE {
        return None;
    }
    seek_over(s)
}

// Whether each of the bytes leaves no state out.
pub fn all_any(s: &[u8]) -> bool
    ensures { result ≡ all_below (length s.now) (λ k. eqb (get_or s.now k 0) any_state) }
{
    let mut all = true;
    for x in s {
        all &= *x == ANY_STATE;
    }
    all
}
