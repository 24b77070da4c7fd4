// Replays the stored answers: each case is a flow file, the lengths of the lent areas, and what they must be answered.
// It prints the number of each case that is answered otherwise, and how many cases there are.
#![tactic(auto)]

ghost use Rattle.std.specs.Prelude.{◌^◌, ◌<◌};

mod answers;
mod areas;
mod case;
mod reader;

use areas::Room;
use case::Case;
use reader::Reader;

fn replay(stored: &[u8], file: &mut [u8], room: &mut Room<'_>) {
    let mut reader = Reader::new(stored);
    let mut cases = 0u64;
    let mut different = 0u64;
    // A byte 1 begins a case. No range: the bytes that are left say whether one follows.
    while reader.read_u8() == 1 {
        let case = Case::read(&mut reader, file);
        if !case.is_answered(room) {
            io::write_all(1, b"differs: ");
            io::print_decimal(1, cases);
            io::write_all(1, b"\n");
            different += 1;
        }
        cases += 1;
    }
    io::print_decimal(1, cases);
    io::write_all(1, b" cases, ");
    io::print_decimal(1, different);
    io::write_all(1, b" different\n");
}

// Reads the cases into `stored`, and replays them in room that the largest of them fits into.
fn replay_read(stored: &mut [u8]) {
    let size = io::read_full(0, stored);
    let mut file = [0u8; 262200];
    let mut masks = [0u8; 131200];
    let mut live_in = [0u64; 2100];
    let mut live_out = [0u64; 2100];
    let mut rows = [0u64; 200];
    let mut work = [0u64; 131200];
    let mut room = Room {
        masks: &mut masks,
        live_in: &mut live_in,
        live_out: &mut live_out,
        rows: &mut rows,
        work: &mut work,
    };
    replay(&stored[..size], &mut file, &mut room);
}

// The cases take at most N bytes. The number is a parameter, so that no proof counts that many bytes one by one.
fn replay_stored<const N: usize>()
    requires { N < 2 ^ 63 }
{
    let mut stored = [0u8; N];
    replay_read(&mut stored);
}

fn main() {
    replay_stored::<600000>();
}
