// Whether the library answers a case as it must, and changes no byte that must stay.

use crate::areas::{Areas, FILLED_BYTE, FILLED_WORD, Room, filled_area, holds, is_all};
use crate::case::{Case, Refused};
use flow::Refusal;

impl Case<'_, '_> {
    pub fn is_answered(&self, room: &mut Room<'_>) -> bool {
        self.states_agree(room) && self.certain_agrees(room) && self.interference_agrees(room)
    }

    fn states_agree(&self, room: &mut Room<'_>) -> bool {
        let lengths = self.lengths;
        let masks = filled_area(room.masks, lengths.masks, FILLED_BYTE);
        let live_in = filled_area(room.live_in, lengths.live_in, FILLED_WORD);
        let live_out = filled_area(room.live_out, lengths.live_out, FILLED_WORD);
        let work = filled_area(room.work, lengths.work, FILLED_WORD);
        let answer = as_stored(dataflow::door::states(self.file, masks, live_in, live_out, work));
        let areas = Areas {
            masks,
            live_in,
            live_out,
            work,
        };
        match (answer, self.states) {
            (Ok(visits), Ok(states)) => visits == states.visits && areas.holds(&states),
            (Err(refused), Err(expected)) => refused == expected && areas.is_untouched(),
            _ => false,
        }
    }

    fn certain_agrees(&self, room: &mut Room<'_>) -> bool {
        let work = filled_area(room.work, self.lengths.work, FILLED_WORD);
        let answer = as_stored(dataflow::names::certain(self.file, work));
        let left = if answer.is_ok() { 0 } else { FILLED_WORD };
        answer == self.certain && is_all(work, left)
    }

    fn interference_agrees(&self, room: &mut Room<'_>) -> bool {
        let rows = filled_area(room.rows, self.rows, FILLED_WORD);
        let work = filled_area(room.work, self.lengths.work, FILLED_WORD);
        let answer = as_stored(dataflow::conflicts::interference(self.file, rows, work));
        match (answer, self.interference) {
            (Ok(most_live), Ok(expected)) => {
                most_live == expected.most_live
                    && holds(rows, expected.rows, FILLED_WORD)
                    && is_all(work, 0)
            }
            (Err(refused), Err(expected)) => {
                refused == expected && is_all(rows, FILLED_WORD) && is_all(work, FILLED_WORD)
            }
            _ => false,
        }
    }
}

// An answer with its refusal as cases store it.
fn as_stored(answer: Result<u64, Refusal>) -> Result<u64, Refused> {
    answer.map_err(Refused::from)
}
