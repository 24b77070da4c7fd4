// The listing program: reads a flow file from standard input, and prints each statement with its masks and its live names.
#![tactic(auto)]

ghost use Rattle.std.specs.Prelude.{◌≡◌, ◌≤◌, [], length};
ghost use Rattle.listing.specs.Text as spec;
ghost use Rattle.listing.specs.Text.{max_input, HoldsText};

mod lines;
mod text;

use lines::Areas;
use text::Text;

// The longest input.
const INPUT: usize = 16384;

// The statements that the areas serve.
const STATEMENTS: usize = 96;

// The longest text: 11 bytes of the first line, and 108 a statement.
const TEXT: usize = 11 + 108 * STATEMENTS;

fn main() {
    // A byte more than the longest input, so that a longer one is seen to be too long. Arrays, since there is no heap; by `io`, since the standard reader and writer rest on more assumed contracts.
    let mut input = [0u8; INPUT + 1];
    let size = io::read_full(0, &mut input);
    let mut out = [0u8; TEXT];
    let end = listing(&input[..size], &mut out);
    io::write_all(1, &out[..end]);
}

// Writes the listing of the input at the start of `out`, and answers how many bytes it has.
#[tactic(auto, using(crate::proofs::InputText::too_long))]
pub fn listing(input: &[u8], out: &mut [u8; TEXT]) -> usize
    ensures { HoldsText input.now out.old out.new result }
{
    let mut text = Text::new();
    if input.len() > INPUT {
        text.field(b"L", b'\n');
        return text.copy_to(out);
    }
    answer(&mut text, input);
    text.copy_to(out)
}

// The answer of the call: a refusal, or the flow with its masks and live names.
fn answer(text: &mut Text, input: &[u8])
    requires short { length input.now ≤ max_input }
    requires empty { text.old.buffer.items ≡ [] }
    ensures { text.new.buffer.items ≡ spec.text input.now }
{
    let mut masks = [0u8; STATEMENTS * flow::MAX_ARRAYS];
    let mut live_in = [0u64; STATEMENTS];
    let mut live_out = [0u64; STATEMENTS];
    let mut work = [0u64; STATEMENTS * flow::WORK_PER_STATEMENT];
    match dataflow::door::states(input, &mut masks, &mut live_in, &mut live_out, &mut work) {
        Err(refusal) => lines::refusal(text, refusal),
        Ok(_) => {
            let areas = Areas {
                masks: &masks,
                live_in: &live_in,
                live_out: &live_out,
            };
            lines::accepted(text, input, &areas, &mut work);
        }
    }
}
