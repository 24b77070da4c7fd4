// The call that finds the names that get in each other's way: the file is judged, then the areas; only then is anything written.
ghost use Rattle.std.specs.Prelude.{◌^◌, ◌<◌, ◌≤◌, ◌≡◌, length};
ghost use Rattle.flow.specs.Clauses.Answers.{header_of};
ghost use Rattle.flow.specs.Format.{flow_of};
ghost use Rattle.interference.specs.Clauses.Rows.{RowsStart, LiveSets, Rows};
ghost use Rattle.dataflow.specs.Interference.{InterferencePromise};
ghost use Rattle.dataflow.specs.Clauses.Conflicts.{FitRows, ConflictsFound};

use crate::call::check_call;
use flow::areas::area_fits;
use flow::{Header, MAX_STATEMENTS, Refusal};
use statements::layout::Layout;

// The statements of a flow whose live sets take few words.
const FEW: usize = 64;

// The word of each name, with an interrupt key or without.
fn write_rows(
    file: &[u8],
    h: Header,
    work: &[u64],
    live_in: &[u64],
    live_out: &[u64],
    rows: &mut [u64],
)
    requires { RowsStart file.now work.now rows.old h.names h.statements × LiveSets (flow_of file.now) h.statements live_in.now live_out.now × (h ≡ header_of file.now) }
    ensures { Rows (flow_of file.now) rows.old rows.new }
{
    match h.handler {
        Some(_) => interference::used_rows(file, work, rows, h.names, h.statements),
        None => interference::live_rows(file, work, live_in, live_out, rows, h.names, h.statements),
    }
}

// What is found of a file and areas that are fit, with two areas for the live sets.
fn conflicts_by(
    file: &[u8],
    h: Header,
    rows: &mut [u64],
    work: &mut [u64],
    live_in: &mut [u64],
    live_out: &mut [u64],
) -> u64
    requires { FitRows file.now h rows.old work.old × (h.statements ≤ length live_in.old) × (h.statements ≤ length live_out.old) }
    ensures { ConflictsFound (flow_of file.now) rows.old rows.new result }
{
    let n = h.statements;
    records::offsets::note_offsets(file, work, 0, n);
    live::live_names(file, work, live_in, live_out, Layout { n });
    write_rows(file, h, work, live_in, live_out, rows);
    interference::most_live(live_in, n)
}

// The same with N words for each live set: they cannot stand in the work area, since two parts of one area cannot be lent at the same time.
fn find_within<const N: usize>(file: &[u8], h: Header, rows: &mut [u64], work: &mut [u64]) -> u64
    requires { FitRows file.now h rows.old work.old × (h.statements ≤ N) × (N < 2 ^ 32) }
    ensures { ConflictsFound (flow_of file.now) rows.old rows.new result }
{
    let mut live_in = [0u64; N];
    let mut live_out = [0u64; N];
    conflicts_by(file, h, rows, work, &mut live_in, &mut live_out)
}

// A flow of few statements does not pay for clearing the live sets of the largest.
fn find_conflicts(file: &[u8], h: Header, rows: &mut [u64], work: &mut [u64]) -> u64
    requires { FitRows file.now h rows.old work.old }
    ensures { ConflictsFound (flow_of file.now) rows.old rows.new result }
{
    if h.statements <= FEW {
        find_within::<FEW>(file, h, rows, work)
    } else {
        find_within::<MAX_STATEMENTS>(file, h, rows, work)
    }
}

// The word of each name and how many names are live at once, for every file and all lent areas; the work area is zeroed whole, for the caller.
pub fn interference(file: &[u8], rows: &mut [u64], work: &mut [u64]) -> Result<u64, Refusal>
    ensures { InterferencePromise file.now rows.old rows.new work.old work.new result }
{
    let size = work.len();
    let h = check_call(file, size)?;
    if !area_fits(h.names, rows.len()) {
        return Err(Refusal::Areas);
    }
    // With no statements no name is used.
    if h.statements == 0 {
        words::zero_row(rows, 0, h.names);
        words::zero_row(work, 0, size);
        return Ok(0);
    }
    let most = find_conflicts(file, h, rows, work);
    words::zero_row(work, 0, size);
    Ok(most)
}
