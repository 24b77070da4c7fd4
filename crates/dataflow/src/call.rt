// What the calls for certain names, interference and proposals ask first: the fields of the file in file order, then the work area.
ghost use Rattle.std.specs.Prelude.{◌≡◌};
ghost use Rattle.flow.specs.Clauses.Answers.{answer_of, header_of};
ghost use Rattle.dataflow.specs.Certain.{judged_work};

use flow::areas::work_fits;
use flow::check::check_file;
use flow::{Header, Refusal};

// The header of a fit file with a work area of so many words, or why the call is refused.
pub fn check_call(file: &[u8], work: usize) -> Result<Header, Refusal>
    ensures { result ≡ answer_of (judged_work file.now work) (header_of file.now) }
{
    let h = check_file(file)?;
    if !work_fits(h.statements, work) {
        return Err(Refusal::Areas);
    }
    Ok(h)
}
