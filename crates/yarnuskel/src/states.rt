// The door of the call that answers a flow file.
ghost use Rattle.yarnuskel.specs.Door.{Door};

use crate::tell::tell;

// 0, place 0 and the count of visits where the flow is accepted; else the refusal's number, its place and 0.
#[unsafe(no_mangle)]
pub extern "C" fn yarnuskel_states(
    file: &[u8],
    masks: &mut [u8],
    live_in: &mut [u64],
    live_out: &mut [u64],
    work: &mut [u64],
    place: &mut u64,
    visits: &mut u64,
) -> u64
    ensures { Door file.now masks.old masks.new live_in.old live_in.new live_out.old live_out.new work.old work.new place.new visits.new result }
{
    let answer = dataflow::door::states(file, masks, live_in, live_out, work);
    tell(answer, place, visits)
}
