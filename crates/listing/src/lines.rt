// The lines of the listing, each appended to the text.
ghost use Rattle.std.specs.Prelude.{◌≤◌, ◌≡◌, [], ◌∷◌, ◌++◌, length};
ghost use Rattle.flow.specs.Limits.{work_words};
ghost use Rattle.flow.specs.Format.{letter_f, statements_of, arrays_of};
ghost use Rattle.theory.specs.Lists.{concat_map, up_to};
ghost use Rattle.theory.specs.Listing.{refusal_text, decimal, hexadecimal, line_of, mask_digits};
ghost use Rattle.statements.specs.Clauses.Ready.{Ready};
ghost use Rattle.listing.specs.Clauses.Capacity.{HasRoom};
ghost use Rattle.listing.specs.Clauses.Room.{Small, Room, word_in, areas_text, areas_line};

use crate::text::Text;
use flow::StmtId;
use flow::bytes::{u8_at, u16_at};
use statements::fields;

// The areas that an accepted call has written.
#[derive(Clone, Copy)]
pub struct Areas<'a> {
    pub masks: &'a [u8],
    pub live_in: &'a [u64],
    pub live_out: &'a [u64],
}

// A refusal's number and place.
#[tactic(auto, using(crate::proofs::Fields::fields, crate::proofs::Lengths::decimal_fits), unfolding(theory::specs::Listing::refusal_text))]
pub fn refusal(text: &mut Text, refusal: flow::Refusal)
    requires { HasRoom text.old 44 }
    ensures { text.new.buffer.items ≡ text.old.buffer.items ++ refusal_text refusal }
{
    let number = refusal.number();
    let place = refusal.place();
    text.field(b"R", b' ');
    text.decimal(number, b' ');
    text.decimal(place, b'\n');
}

#[tactic(auto, using(crate::proofs::Fields::fields))]
fn first(text: &mut Text, n: usize, arrays: usize, names: usize)
    requires { HasRoom text.old (length (line_of ((letter_f ∷ []) ∷ decimal n ∷ decimal arrays ∷ decimal names ∷ []))) }
    ensures { text.new.buffer.items ≡ text.old.buffer.items ++ line_of ((letter_f ∷ []) ∷ decimal n ∷ decimal arrays ∷ decimal names ∷ []) }
{
    text.field(b"F", b' ');
    text.decimal(n as u64, b' ');
    text.decimal(arrays as u64, b' ');
    text.decimal(names as u64, b'\n');
}

// Statement i with its line, masks and live sets.
#[tactic(auto, using(crate::proofs::Fields::fields))]
fn line(text: &mut Text, i: StmtId, number: usize, row: &[u8], live_in: u64, live_out: u64)
    requires room { HasRoom text.old (length (line_of (decimal i.0 ∷ decimal number ∷ mask_digits (length row.now) (word_in row.now) ∷ hexadecimal live_in ∷ hexadecimal live_out ∷ []))) }
    requires small { Small row.now }
    ensures { text.new.buffer.items ≡ text.old.buffer.items ++ line_of (decimal i.0 ∷ decimal number ∷ mask_digits (length row.now) (word_in row.now) ∷ hexadecimal live_in ∷ hexadecimal live_out ∷ []) }
{
    text.decimal(i.0 as u64, b' ');
    text.decimal(number as u64, b' ');
    text.masks(row, b' ');
    text.hex(live_in, b' ');
    text.hex(live_out, b'\n');
}

// One line a statement.
fn statements(
    text: &mut Text,
    file: &[u8],
    work: &[u64],
    n: usize,
    arrays: usize,
    areas: &Areas<'_>,
)
    requires held { Room file.now areas.now }
    requires noted { Ready file.now work.now n }
    requires arrays { arrays ≡ arrays_of file.now }
    requires room { HasRoom text.old (length (concat_map (areas_line file.now areas.now) (up_to n))) }
    ensures { text.new.buffer.items ≡ text.old.buffer.items ++ concat_map (areas_line file.now areas.now) (up_to n) }
{
    for i in 0..n {
        let number = records::record_line(fields::record(file, work, n, StmtId(i)));
        let row = &areas.masks[i * arrays..(i + 1) * arrays];
        line(
            text,
            StmtId(i),
            number,
            row,
            areas.live_in[i],
            areas.live_out[i],
        );
    }
}

// The listing of a file that was accepted. The work area serves again, for the places of the records.
pub fn accepted(text: &mut Text, file: &[u8], areas: &Areas<'_>, work: &mut [u64])
    requires held { Room file.now areas.now }
    requires work_room { work_words (statements_of file.now) ≤ length work.old }
    requires room { HasRoom text.old (length (areas_text file.now areas.now)) }
    ensures { text.new.buffer.items ≡ text.old.buffer.items ++ areas_text file.now areas.now }
{
    let n = u16_at(file, 2);
    let arrays = u8_at(file, 4);
    let names = u8_at(file, 5);
    first(text, n, arrays, names);
    records::offsets::note_offsets(file, work, 0, n);
    statements(text, file, work, n, arrays, areas);
}
