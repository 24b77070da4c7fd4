// The text of a listing, as far as it is written.
ghost use Rattle.std.specs.Prelude.{◌≡◌, [], ◌∷◌, ◌++◌, length, take, drop};
ghost use Rattle.flow.specs.Format.{tabulate};
ghost use Rattle.io.specs.Counts.{IsPrefixLen};
ghost use Rattle.io.specs.Digits.{hex_digit_ascii};
ghost use Rattle.theory.specs.Listing as theory;
ghost use Rattle.theory.specs.Listing.{hexadecimal, mask_digits};
ghost use Rattle.listing.specs.Clauses.Room.{Small, word_in};

use crate::TEXT;
use arrayvec::ArrayVec;

#[derive(Drop)]
pub struct Text {
    pub buffer: ArrayVec<u8, TEXT>,
}

impl Text {
    ghost use Rattle.listing.specs.Clauses.Capacity.{HasRoom};

    pub fn new() -> Self
        ensures { result.buffer.items ≡ [] }
    {
        Text {
            buffer: ArrayVec::new(),
        }
    }

    // Copies the text to the start of `out`, and answers how many bytes it has.
    pub fn copy_to(&self, out: &mut [u8; TEXT]) -> usize
        ensures counts { IsPrefixLen result out.new }
        ensures written { take result out.new ≡ self.now.buffer.items }
        ensures kept { drop result out.new ≡ drop result out.old }
    {
        let end = self.buffer.len();
        out[..end].copy_from_slice(&self.buffer);
        end
    }

    fn bytes(&mut self, piece: &[u8])
        requires { HasRoom self.old (length piece.now) }
        ensures { self.new.buffer.items ≡ self.old.buffer.items ++ piece.now }
    {
        self.buffer.try_extend_from_slice(piece).unwrap();
    }

    // A field, and the byte that parts it from the next one or ends the line.
    pub fn field(&mut self, piece: &[u8], after: u8)
        requires { HasRoom self.old (length (piece.now ++ (after ∷ []))) }
        ensures { self.new.buffer.items ≡ self.old.buffer.items ++ (piece.now ++ (after ∷ [])) }
    {
        self.bytes(piece);
        self.buffer.push(after);
    }

    // Apart from `hex`, since each is over a function of its own in `io`.
    #[tactic(auto, using(crate::proofs::Spelled::decimal_spelled))]
    pub fn decimal(&mut self, n: u64, after: u8)
        requires { HasRoom self.old (length (theory.decimal n ++ (after ∷ []))) }
        ensures { self.new.buffer.items ≡ self.old.buffer.items ++ (theory.decimal n ++ (after ∷ [])) }
    {
        let mut digits = [0u8; 20];
        let k = io::decimal(n, &mut digits);
        self.field(&digits[..k], after);
    }

    #[tactic(auto, using(crate::proofs::Spelled::hex_spelled))]
    pub fn hex(&mut self, w: u64, after: u8)
        requires { HasRoom self.old (length (hexadecimal w ++ (after ∷ []))) }
        ensures { self.new.buffer.items ≡ self.old.buffer.items ++ (hexadecimal w ++ (after ∷ [])) }
    {
        let mut digits = [0u8; 16];
        let k = io::hex(w, 16, &mut digits);
        self.field(&digits[..k], after);
    }

    // One digit a mask, array 0 first.
    #[tactic(auto, using(crate::proofs::MaskField::digit_steps))]
    fn digits(&mut self, masks: &[u8])
        requires room { HasRoom self.old (length masks.now) }
        requires small { Small masks.now }
        ensures { self.new.buffer.items ≡ self.old.buffer.items ++ tabulate (length masks.now) (λ a. hex_digit_ascii (word_in masks.now a)) }
    {
        for &mask in masks {
            self.buffer.push(b'0' + mask);
        }
    }

    // The masks of a statement, or a dash where there are no arrays.
    #[tactic(auto, using(crate::proofs::MaskField::mask_field))]
    pub fn masks(&mut self, row: &[u8], after: u8)
        requires room { HasRoom self.old (length (mask_digits (length row.now) (word_in row.now) ++ (after ∷ []))) }
        requires small { Small row.now }
        ensures { self.new.buffer.items ≡ self.old.buffer.items ++ (mask_digits (length row.now) (word_in row.now) ++ (after ∷ [])) }
    {
        if row.is_empty() {
            self.bytes(b"-");
        } else {
            self.digits(row);
        }
        self.buffer.push(after);
    }
}
