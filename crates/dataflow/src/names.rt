// The call that finds the names certainly written: the file is judged, then the work area; only then is anything written.
ghost use mathlib.Core.Option.{none};
ghost use Rattle.std.specs.Prelude.{◌≡◌};
ghost use Rattle.flow.specs.Format.{flow_of};
ghost use Rattle.theory.specs.Certain.{certain_word};
ghost use Rattle.dataflow.specs.Certain.{CertainPromise};
ghost use Rattle.dataflow.specs.Clauses.Phases.{FitRoom, FitFlow};

use crate::call::check_call;
use flow::{Header, Refusal};
use statements::layout::Layout;

// The certain names of a flow without a handler.
fn walk_names(file: &[u8], h: Header, work: &mut [u64]) -> u64
    requires { FitFlow file.now h work.old × ((flow_of file.now).handler ≡ none) }
    ensures { result ≡ certain_word (flow_of file.now) }
{
    let n = h.statements;
    records::offsets::note_offsets(file, work, 0, n);
    certain::certain_names(file, work, Layout { n }, h.entry)
}

// What is found of a file and a work area that are fit.
fn find_certain(file: &[u8], h: Header, work: &mut [u64]) -> u64
    requires { FitRoom file.now h work.old }
    ensures { result ≡ certain_word (flow_of file.now) }
{
    // With no statements no name is written.
    if h.statements == 0 {
        return 0;
    }
    match h.handler {
        // A key may come before any write.
        Some(_) => 0,
        None => walk_names(file, h, work),
    }
}

// The word of certain names, for every file and every work area; the area is zeroed whole, for the caller.
pub fn certain(file: &[u8], work: &mut [u64]) -> Result<u64, Refusal>
    ensures { CertainPromise file.now work.old work.new result }
{
    let size = work.len();
    let h = check_call(file, size)?;
    let word = find_certain(file, h, work);
    words::zero_row(work, 0, size);
    Ok(word)
}
