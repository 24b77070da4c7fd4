// The door of the call that finds the names certainly written.
ghost use Rattle.yarnuskel.specs.Door.{CertainDoor};

use crate::tell::tell;

// 0, place 0 and the word of certain names where the flow is accepted; else the refusal's number, its place and 0.
#[unsafe(no_mangle)]
pub extern "C" fn yarnuskel_certain(
    file: &[u8],
    work: &mut [u64],
    place: &mut u64,
    certain: &mut u64,
) -> u64
    ensures { CertainDoor file.now work.old work.new place.new certain.new result }
{
    let answer = dataflow::names::certain(file, work);
    tell(answer, place, certain)
}
