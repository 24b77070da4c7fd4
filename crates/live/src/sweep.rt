// Sweeps over the statements from the last to the first: a walk mostly goes on to a later statement, whose set is then complete before it is asked for.
ghost use Rattle.std.specs.Prelude.{◌≡◌, ℕ, ◌<◌, length, get_or};
ghost use Rattle.flow.specs.Format.{flow_of, successor_count, successor_at};
ghost use Rattle.flow.specs.Clauses.Answers.{FitRecord};
ghost use Rattle.words.specs.Clauses.Change.{differs};
ghost use Rattle.theory.specs.Queue.{union_below};
ghost use Rattle.live.specs.Clauses.Solving.{Sound};
ghost use Rattle.live.specs.Clauses.Sweeping.{Settled, Swept};
ghost use Rattle.live.specs.Clauses.LiveNames.{LiveStart};

use flow::StmtId;
use statements::fields;

// Sweeps before the worklist takes over: scripts with loops and subroutines settle in six or fewer, and one in vain costs a tenth of what the worklist
// does.
const MOST_SWEEPS: usize = 6;

// What is live at the starts of the successors that the record at p lists.
fn live_after(file: &[u8], live_in: &[u64], p: usize) -> u64
    requires { FitRecord file.now p × ((k : ℕ) → k < successor_count file.now p → successor_at file.now p k < length live_in.now) }
    ensures { result ≡ union_below (successor_count file.now p) (λ k. get_or live_in.now (successor_at file.now p k) 0) }
{
    let count = records::successor_count(file, p);
    let mut live: u64 = 0;
    for k in 0..count {
        live |= live_in[records::successor(file, p, k).0];
    }
    live
}

// The words of statement i follow from those of its successors. Says whether its live-in changed.
pub fn settle(
    file: &[u8],
    work: &[u64],
    live_in: &mut [u64],
    live_out: &mut [u64],
    n: usize,
    i: StmtId,
) -> bool
    requires { LiveStart file.now work.now live_in.old live_out.old n × (i.0 < n) }
    ensures { Settled (flow_of file.now) i.0 live_in.old live_in.new live_out.old live_out.new result }
{
    let p = fields::offset(file, work, n, i);
    let after = live_after(file, live_in, p);
    let at = i.0;
    let live = records::read(file, p) | words::difference(after, records::written(file, p));
    let old = live_in[at];
    live_out[at] = after;
    live_in[at] = live;
    live != old
}

// Every statement is settled once. Says whether some live-in changed.
fn sweep(file: &[u8], work: &[u64], live_in: &mut [u64], live_out: &mut [u64], n: usize) -> bool
    requires { LiveStart file.now work.now live_in.old live_out.old n × Sound (flow_of file.now) n live_in.old }
    ensures { Swept (flow_of file.now) n live_in.old live_in.new live_out.old live_out.new result × (result ≡ differs live_in.old live_in.new 0 n) }
{
    let mut changed = false;
    for i in (0..n).rev() {
        changed |= settle(file, work, live_in, live_out, n, StmtId(i));
    }
    changed
}

// From empty sets, until a sweep changes nothing or there were enough. Says whether the last one changed something.
pub fn sweeps(
    file: &[u8],
    work: &[u64],
    live_in: &mut [u64],
    live_out: &mut [u64],
    n: usize,
) -> bool
    requires { LiveStart file.now work.now live_in.old live_out.old n }
    ensures { Swept (flow_of file.now) n live_in.old live_in.new live_out.old live_out.new result }
{
    words::zero_row(live_in, 0, n);
    for _ in 0..MOST_SWEEPS {
        if !sweep(file, work, live_in, live_out, n) {
            return false;
        }
    }
    true
}
