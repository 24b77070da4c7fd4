// The lent areas: filled before a call, and compared after it.

use crate::case::{Elements, States};
use crate::reader::Reader;

// What an area holds before a call, so that a byte that must stay is seen to stay.
pub const FILLED_BYTE: u8 = 0xa5;

pub const FILLED_WORD: u64 = 0xa5a5_a5a5_a5a5_a5a5;

// The first n elements, or as many as there are, filled.
pub fn filled_area<T: Copy>(room: &mut [T], n: usize, value: T) -> &mut [T] {
    let n = n.min(room.len());
    let area = &mut room[..n];
    fill(area, value);
    area
}

fn fill<T: Copy>(area: &mut [T], value: T) {
    for x in area {
        *x = value;
    }
}

pub fn is_all<T: Copy + PartialEq>(area: &[T], value: T) -> bool {
    area.iter().all(|x| *x == value)
}

// An element as a case stores it.
pub trait Stored: Copy + PartialEq {
    fn read(reader: &mut Reader<'_>) -> Self;
}

impl Stored for u8 {
    fn read(reader: &mut Reader<'_>) -> Self {
        reader.read_u8()
    }
}

impl Stored for u64 {
    fn read(reader: &mut Reader<'_>) -> Self {
        reader.read_u64()
    }
}

// Whether the area begins with what must be written, and is as it was filled behind it.
pub fn holds<T: Stored>(area: &[T], written: Elements<'_>, filled: T) -> bool {
    if area.len() < written.count {
        return false;
    }
    let (start, rest) = area.split_at(written.count);
    let mut reader = Reader::new(written.stored);
    for x in start {
        if *x != T::read(&mut reader) {
            return false;
        }
    }
    is_all(rest, filled)
}

// What the areas of every case are taken from.
#[derive(Drop)]
pub struct Room<'a> {
    pub masks: &'a mut [u8],
    pub live_in: &'a mut [u64],
    pub live_out: &'a mut [u64],
    pub rows: &'a mut [u64],
    pub work: &'a mut [u64],
}

// The areas that the call for the states was lent.
#[derive(Clone, Copy)]
pub struct Areas<'a> {
    pub masks: &'a [u8],
    pub live_in: &'a [u64],
    pub live_out: &'a [u64],
    pub work: &'a [u64],
}

impl Areas<'_> {
    // As it must be after a refusal.
    pub fn is_untouched(&self) -> bool {
        is_all(self.masks, FILLED_BYTE)
            && is_all(self.live_in, FILLED_WORD)
            && is_all(self.live_out, FILLED_WORD)
            && is_all(self.work, FILLED_WORD)
    }

    pub fn holds(&self, states: &States<'_>) -> bool {
        holds(self.masks, states.masks, FILLED_BYTE)
            && holds(self.live_in, states.live_in, FILLED_WORD)
            && holds(self.live_out, states.live_out, FILLED_WORD)
            && is_all(self.work, 0)
    }
}
