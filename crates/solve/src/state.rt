// The state of a number, as its word in the work area says it: the last bit whether it waits, and what stands before that bit whether it is settled. It stays a word: joining and
// taking promise to keep all that stands before the last bit, of which a flag would keep one bit. Here alone such a word is taken apart, and without a test of whether the number waits, which would
// often be mispredicted.
ghost use Rattle.std.specs.Prelude.{◌+◌, ◌-◌, ◌/◌, ◌%◌, ◌≡◌, eqb};
ghost use Rattle.solve.specs.Clauses.Waiting.{joins};

#[derive(Clone, Copy)]
pub struct State(pub u64);

impl State {
    pub fn is_waiting(self) -> bool
        ensures { result ≡ eqb (self.0 % 2) 1 }
    {
        self.0 % 2 == 1
    }

    // Whether it was visited, and its masks have not grown since.
    pub fn is_settled(self) -> bool
        ensures { result ≡ eqb (self.0 / 2) 1 }
    {
        self.0 / 2 == 1
    }

    // It waits, and is settled no more if its masks grew.
    pub fn joined(self, grew: bool) -> State
        ensures { result.0 ≡ joins grew self.0 }
    {
        State(if grew { 1 } else { self.0 + (1 - self.0 % 2) })
    }

    // It waits no more.
    pub fn taken(self) -> State
        ensures { result.0 ≡ self.0 - self.0 % 2 }
    {
        State(self.0 - self.0 % 2)
    }

    // It is settled no more.
    pub fn grown(self) -> State
        ensures { result.0 ≡ self.0 % 2 }
    {
        State(self.0 % 2)
    }

    // It is settled.
    pub fn visited(self) -> State
        ensures { result.0 ≡ self.0 % 2 + 2 }
    {
        State(self.0 % 2 + 2)
    }
}
