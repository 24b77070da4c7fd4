// An answer as numbers, for the doors.
ghost use Rattle.std.specs.Prelude.{◌≡◌};
ghost use Rattle.yarnuskel.specs.Door.{number_of_answer, place_of_answer, found_of_answer};

use flow::Refusal;

// The refusal's number and its place; 0 and 0 where there is none.
pub fn tell_refusal<T: Copy>(answer: Result<T, Refusal>, place: &mut u64) -> u64
    ensures number { result ≡ number_of_answer answer }
    ensures place_after { place.new ≡ place_of_answer answer }
{
    match answer {
        Ok(_) => {
            *place = 0;
            0
        }
        Err(refusal) => {
            *place = refusal.place();
            refusal.number()
        }
    }
}

// 0, place 0 and what was found; or the refusal's number, its place and 0.
pub fn tell(answer: Result<u64, Refusal>, place: &mut u64, found: &mut u64) -> u64
    ensures number { result ≡ number_of_answer answer }
    ensures place_after { place.new ≡ place_of_answer answer }
    ensures found_after { found.new ≡ found_of_answer answer }
{
    let number = tell_refusal(answer, place);
    *found = answer.unwrap_or(0);
    number
}
