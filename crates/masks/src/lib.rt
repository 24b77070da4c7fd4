// The states of an array, masks of them, and the one place where a mask is stepped.
#![tactic(auto)]

ghost use Rattle.std.specs.Prelude.{◌≡◌, ◌+◌, ◌*◌, ◌<◌};
ghost use Rattle.words.specs.Clauses.Row.{bit};
ghost use Rattle.masks.specs.Step.{step_of};
ghost use Rattle.masks.specs.Clauses.Table.{TableOf, RowOf};
ghost use Rattle.masks.specs.Clauses.Sets.{bit_of, Holders, StepBits, Alike};

// What an array may be.
#[derive(Clone, Copy, Debug, PartialEq, Eq)]
pub enum State {
    None,
    Auto,
    Dimmed,
}

impl State {
    // The bit of a mask that stands for it.
    fn bit(self) -> u8
        ensures { result ≡ bit_of self }
    {
        match self {
            State::None => 0,
            State::Auto => 1,
            State::Dimmed => 2,
        }
    }
}

// A mask is a union of states.
pub const NONE: u8 = 1;

pub const AUTO: u8 = 2;

pub const DIMMED: u8 = 4;

// All states; also the largest mask.
pub const ANY_STATE: u8 = NONE | AUTO | DIMMED;

// What a statement or an edge does to one array. CLR and RUN stand here beside the four
// effects of the paper, so that every change of a mask goes through `step`.
#[derive(Clone, Copy, Debug, PartialEq, Eq)]
pub enum Effect {
    None,
    Reference,
    Dim,
    Reset,
    Touched,
}

// Effect by mask: a row each for none, reference, DIM and touched, with what the effect makes of the masks 0 to 7. CLR and RUN have no row.
const STEPS: [[u8; 8]; 4] = [
    [0, 1, 2, 3, 4, 5, 6, 7],
    [0, 2, 2, 2, 4, 6, 6, 6],
    [4, 4, 4, 4, 4, 4, 4, 4],
    [0, 3, 2, 3, 4, 7, 6, 7],
];

// The table with its rule. It is read here and nowhere else.
fn table() -> [[u8; 8]; 4]
    ensures { TableOf result }
{
    STEPS
}

// What the effect makes of each mask. A row is taken whole, at a place that the compiler knows: so the entries are constants to it, and no table is laid out where one is read.
fn row(effect: Effect) -> [u8; 8]
    ensures { RowOf effect result }
{
    let steps = table();
    match effect {
        Effect::None => steps[0],
        Effect::Reference => steps[1],
        Effect::Dim => steps[2],
        Effect::Touched => steps[3],
        Effect::Reset => [NONE; 8],
    }
}

// The one place where a mask is stepped.
pub fn step(effect: Effect, mask: u8) -> u8
    requires { mask < 8 }
    ensures { result ≡ step_of effect mask }
{
    let entries = row(effect);
    entries[mask as usize]
}

// A word of ones if the mask has the state, else 0.
fn spread(mask: u8, state: State) -> u64
    ensures { Alike result (bit mask (bit_of state)) }
{
    if (mask >> state.bit()) % 2 == 1 {
        u64::MAX
    } else {
        0
    }
}

// 64 arrays take the effect together; their masks stand as the sets of the arrays that hold NONE, AUTO and DIMMED. Which of them then hold the state: each
// looks its own mask up, which its three memberships make, one set after the other, so that it is below 8. Here the masks are `mask`, with NONE where the set has the array.
fn holders_by_none(effect: Effect, mask: u8, state: State, none: u64) -> u64
    requires { mask < 7 }
    ensures { StepBits effect (λ j. mask + bit none j) (bit_of state) result }
{
    let with = spread(step(effect, mask + NONE), state);
    let without = spread(step(effect, mask), state);
    words::choose(none, with, without)
}

// And with AUTO.
fn holders_by_auto(effect: Effect, mask: u8, state: State, none: u64, auto: u64) -> u64
    requires { mask < 5 }
    ensures { StepBits effect (λ j. mask + bit none j + 2 * bit auto j) (bit_of state) result }
{
    let with = holders_by_none(effect, mask + AUTO, state, none);
    let without = holders_by_none(effect, mask, state, none);
    words::choose(auto, with, without)
}

// And with DIMMED, which is the whole mask.
fn holders_of(effect: Effect, state: State, none: u64, auto: u64, dimmed: u64) -> u64
    ensures { Holders effect (bit_of state) none auto dimmed result }
{
    let with = holders_by_auto(effect, DIMMED, state, none, auto);
    let without = holders_by_auto(effect, 0, state, none, auto);
    words::choose(dimmed, with, without)
}

// The same, with the effect named in each arm: there the entries are constants, and what is left is so little that it goes into the callers.
pub fn holders(effect: Effect, state: State, none: u64, auto: u64, dimmed: u64) -> u64
    ensures { Holders effect (bit_of state) none auto dimmed result }
{
    match effect {
        Effect::None => holders_of(Effect::None, state, none, auto, dimmed),
        Effect::Reference => holders_of(Effect::Reference, state, none, auto, dimmed),
        Effect::Dim => holders_of(Effect::Dim, state, none, auto, dimmed),
        Effect::Reset => holders_of(Effect::Reset, state, none, auto, dimmed),
        Effect::Touched => holders_of(Effect::Touched, state, none, auto, dimmed),
    }
}
