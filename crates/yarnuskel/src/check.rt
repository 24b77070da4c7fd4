// The door of the checking reader.
ghost use Rattle.std.specs.Prelude.{◌≡◌};
ghost use Rattle.flow.specs.Format.{verdict, file_checks, verdict_number, verdict_place};

use crate::tell::tell_refusal;

// The refusal's number and place, or 0 and 0 where the file is fit.
#[unsafe(no_mangle)]
pub extern "C" fn yarnuskel_check(file: &[u8], place: &mut u64) -> u64
    ensures value { result ≡ verdict_number (verdict (file_checks file.now)) }
    ensures place_after { place.new ≡ verdict_place (verdict (file_checks file.now)) }
{
    tell_refusal(flow::check::check_file(file), place)
}
