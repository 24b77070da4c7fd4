// The second pass over a file that was found fit: where each statement's record begins, and whether the statement does anything to masks.
#![tactic(auto)]

ghost use Rattle.std.specs.Prelude.{◌≡◌, ◌+◌, ◌≤◌, length};
ghost use Rattle.flow.specs.Format.{statements_of};
ghost use Rattle.flow.specs.Clauses.Answers.{FitFile, FitRecord};
ghost use Rattle.words.specs.Clauses.Change.{noted};
ghost use Rattle.records.specs.Clauses.Fields.{acts_at, word_of, noted_of, noted_word};

use crate::{acts, record_end};

// What is noted of a record: its place, which has 32 bits since a file is short, and whether its statement does anything to masks.
#[derive(Clone, Copy)]
pub struct Noted {
    pub place: u32,
    pub acts: bool,
}

// The bit above the place's, in one word with it.
const ACTS: u64 = 4294967296;

impl From<Noted> for u64 {
    ghost from_gives = { λ noted word. word ≡ word_of noted };

    fn from(noted: Noted) -> u64 {
        let place = noted.place as u64;
        if noted.acts { place + ACTS } else { place }
    }
}

impl From<u64> for Noted {
    ghost from_gives = { λ word noted. noted ≡ noted_of word };

    fn from(word: u64) -> Noted {
        Noted {
            place: (word % ACTS) as u32,
            acts: ACTS <= word,
        }
    }
}

// What is noted of the record at p.
fn noted_at(file: &[u8], p: usize) -> Noted
    requires { FitFile file.now × FitRecord file.now p }
    ensures { result ≡ record { place = p; acts = acts_at file.now p } }
{
    Noted {
        place: p as u32,
        acts: acts(file, p),
    }
}

// Notes the words of the first n records from base on.
pub fn note_offsets(file: &[u8], offsets: &mut [u64], base: usize, n: usize)
    requires { FitFile file.now × ((n ≤ statements_of file.now) × (base + n ≤ length offsets.old)) }
    ensures { offsets.new ≡ noted offsets.old base n (noted_word file.now) }
{
    let mut p = 8;
    for i in 0..n {
        offsets[base + i] = noted_at(file, p).into();
        p = record_end(file, p);
    }
}
