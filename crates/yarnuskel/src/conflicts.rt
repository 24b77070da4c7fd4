// The door of the call that finds the names that get in each other's way.
ghost use Rattle.yarnuskel.specs.Door.{InterferenceDoor};

use crate::tell::tell;

// 0, place 0 and how many names are live at once where the flow is accepted; else the refusal's number, its place and 0.
#[unsafe(no_mangle)]
pub extern "C" fn yarnuskel_interference(
    file: &[u8],
    rows: &mut [u64],
    work: &mut [u64],
    place: &mut u64,
    most: &mut u64,
) -> u64
    ensures { InterferenceDoor file.now rows.old rows.new work.old work.new place.new most.new result }
{
    let answer = dataflow::conflicts::interference(file, rows, work);
    tell(answer, place, most)
}
