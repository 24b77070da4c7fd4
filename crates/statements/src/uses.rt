// The names that the statements use.
ghost use Rattle.flow.specs.Format.{flow_of};
ghost use Rattle.statements.specs.Clauses.Ready.{Ready};
ghost use Rattle.statements.specs.Clauses.Uses.{Gathered};

use crate::fields;
use flow::StmtId;

// The names that some statement writes, and those that some statement reads.
#[derive(Clone, Copy)]
pub struct Uses {
    pub written: u64,
    pub read: u64,
}

pub fn gather_uses(file: &[u8], work: &[u64], n: usize) -> Uses
    requires { Ready file.now work.now n }
    ensures { Gathered (flow_of file.now) n result.written result.read }
{
    let mut written = 0;
    let mut read = 0;
    for i in 0..n {
        let p = fields::offset(file, work, n, StmtId(i));
        written |= records::written(file, p);
        read |= records::read(file, p);
    }
    Uses { written, read }
}
