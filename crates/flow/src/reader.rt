// The reader: the file, how far it has read, and what the file says of the parts that were read.
ghost use Rattle.std.specs.Prelude.{◌≡◌, Ok};
ghost use Rattle.flow.specs.Clauses.Parts.{answer_before, answer_through, place_after};

use crate::check::check_part;
use crate::{Part, Refusal};

#[derive(Drop)]
pub struct Reader<'a> {
    pub file: &'a [u8],
    // The place after the last part that is fit.
    pub at: usize,
    // The place after the parts that were read, or the first refusal.
    pub so_far: Result<usize, Refusal>,
}

impl<'a> Reader<'a> {
    // A reader of the file that has read nothing.
    pub fn new(file: &'a [u8]) -> Reader<'a>
        ensures { (result.file ≡ file.entry) × (result.so_far ≡ Ok 0) × (result.at ≡ 0) }
    {
        Reader {
            file,
            at: 0,
            so_far: Ok(0),
        }
    }

    // The next part, which begins where the reader stands. Where a part before it was refused, that refusal is the answer, and the part is not looked at.
    pub fn next(&mut self, part: Part) -> Result<usize, Refusal>
        requires { self.old.so_far ≡ answer_before self.old.file.now part }
        ensures { (result ≡ answer_through self.old.file.now part) × (self.new.file ≡ self.old.file) × (self.new.so_far ≡ result) × (self.new.at ≡ place_after result self.old.at) }
    {
        let at = self.so_far?;
        self.so_far = check_part(self.file, part, at);
        self.at = self.so_far.unwrap_or(self.at);
        self.so_far
    }
}
