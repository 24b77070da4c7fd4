// The door of the call that accepts a proposed table or not.
ghost use Rattle.yarnuskel.specs.Door.{AcceptDoor};

use crate::tell::tell;

// 0, place 0 and 1 for yes or 0 for no; else the refusal's number, its place and 0.
#[unsafe(no_mangle)]
pub extern "C" fn yarnuskel_accept(
    file: &[u8],
    proposal: &[u8],
    work: &mut [u64],
    place: &mut u64,
    accepted: &mut u64,
) -> u64
    ensures { AcceptDoor file.now proposal.now work.old work.new place.new accepted.new result }
{
    let answer = accept::door::accept(file, proposal, work);
    tell(answer.map(u64::from), place, accepted)
}
