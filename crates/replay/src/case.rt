// The stored cases: what is asked of the library, and what it must answer.
ghost use Rattle.std.specs.Prelude.{◌≤◌, ◌<◌, ◌^◌, length};

use crate::reader::Reader;

#[derive(Clone, Copy)]
pub struct Case<'a, 'f> {
    pub file: &'f [u8],
    pub lengths: Lengths,
    pub states: Result<States<'a>, Refused>,
    // The word of the certain names.
    pub certain: Result<u64, Refused>,
    // How many rows the call that finds interference is lent.
    pub rows: usize,
    pub interference: Result<Interference<'a>, Refused>,
}

impl<'a, 'f> Case<'a, 'f> {
    // Puts the file of the case together at the start of `file`.
    pub fn read(reader: &mut Reader<'a>, file: &'f mut [u8]) -> Self
        ensures { length reader.new.rest.now ≤ length reader.old.rest.now }
    {
        let size = read_file(reader, file);
        // Of a file too short for a header the bytes behind it say how long the answers are.
        let counts = Counts::of(file);
        Case {
            file: &file[..size],
            lengths: Lengths::read(reader),
            states: match read_refusal(reader) {
                None => Ok(States::read(reader, counts)),
                Some(refused) => Err(refused),
            },
            certain: read_answer(reader),
            rows: read_length(reader),
            interference: Interference::read(reader, counts),
        }
    }
}

// The lengths of the areas that the call for the states is lent.
#[derive(Clone, Copy)]
pub struct Lengths {
    pub masks: usize,
    pub live_in: usize,
    pub live_out: usize,
    pub work: usize,
}

impl Lengths {
    fn read(reader: &mut Reader<'_>) -> Self
        ensures { length reader.new.rest.now ≤ length reader.old.rest.now }
    {
        Lengths {
            masks: read_length(reader),
            live_in: read_length(reader),
            live_out: read_length(reader),
            work: read_length(reader),
        }
    }
}

#[derive(Clone, Copy)]
pub struct States<'a> {
    pub visits: u64,
    pub masks: Elements<'a>,
    pub live_in: Elements<'a>,
    pub live_out: Elements<'a>,
}

impl<'a> States<'a> {
    fn read(reader: &mut Reader<'a>, counts: Counts) -> Self
        ensures { length reader.new.rest.now ≤ length reader.old.rest.now }
    {
        let statements = usize::from(counts.statements);
        States {
            visits: u64::from(reader.read_u32()),
            masks: Elements::read(reader, statements * usize::from(counts.arrays), 1),
            live_in: Elements::read(reader, statements, 8),
            live_out: Elements::read(reader, statements, 8),
        }
    }
}

#[derive(Clone, Copy)]
pub struct Interference<'a> {
    // The most names that are live at once.
    pub most_live: u64,
    pub rows: Elements<'a>,
}

impl<'a> Interference<'a> {
    // The rows stand behind every answer whose number is that of no refusal.
    fn read(reader: &mut Reader<'a>, counts: Counts) -> Result<Self, Refused>
        ensures { length reader.new.rest.now ≤ length reader.old.rest.now }
    {
        let answer = read_answer(reader);
        if let Err(refused) = answer {
            if refused.number != 0 {
                return Err(refused);
            }
        }
        let rows = Elements::read(reader, usize::from(counts.names), 8);
        answer.map(|most_live| Interference { most_live, rows })
    }
}

// How many bytes or words must be written, and those of them that are stored: a byte past the end of what is stored is 0.
#[derive(Clone, Copy)]
pub struct Elements<'a> {
    pub count: usize,
    pub stored: &'a [u8],
}

impl<'a> Elements<'a> {
    fn read(reader: &mut Reader<'a>, count: usize, width: usize) -> Self
        requires { (count < 2 ^ 32) × (width ≤ 8) }
        ensures { length reader.new.rest.now ≤ length reader.old.rest.now }
    {
        Elements {
            count,
            stored: reader.take(count * width),
        }
    }
}

// A refusal's number and place, and what was found, which is nothing.
#[derive(Clone, Copy, PartialEq, Eq)]
pub struct Refused {
    pub number: u64,
    pub place: u64,
    pub found: u64,
}

impl From<flow::Refusal> for Refused {
    fn from(refusal: flow::Refusal) -> Self {
        Refused {
            number: refusal.number(),
            place: refusal.place(),
            found: 0,
        }
    }
}

// What the header of a file says of the size of the answers.
#[derive(Clone, Copy)]
struct Counts {
    statements: u16,
    arrays: u8,
    names: u8,
}

impl Counts {
    fn of(file: &[u8]) -> Self {
        let mut header = Reader::new(file);
        let _mark = header.take(2);
        Counts {
            statements: header.read_u16(),
            arrays: header.read_u8(),
            names: header.read_u8(),
        }
    }
}

// A file is stored in blocks, each behind how often it is repeated, up to a count of 0.
fn read_file(reader: &mut Reader<'_>, file: &mut [u8]) -> usize
    ensures size { result ≤ length file.new }
    ensures rest { length reader.new.rest.now ≤ length reader.old.rest.now }
{
    let mut size = 0;
    // No range: how many blocks there are is known at the end alone.
    while !reader.rest.is_empty() {
        let times = reader.read_u16();
        if times == 0 {
            break;
        }
        let block_size = reader.read_u16();
        let block = reader.take(usize::from(block_size));
        size = repeat(block, times, file, size);
    }
    size
}

// Writes the block that often from `start` on, as far as there is room, and answers where it ends.
// Byte by byte: blocks are short, and a copy of each would be a call for each time that it is repeated.
fn repeat(block: &[u8], times: u16, file: &mut [u8], start: usize) -> usize
    requires { start ≤ length file.old }
    ensures { result ≤ length file.new }
{
    let mut size = start;
    for _ in 0..times {
        for &byte in block {
            if size == file.len() {
                return size;
            }
            file[size] = byte;
            size += 1;
        }
    }
    size
}

fn read_length(reader: &mut Reader<'_>) -> usize
    ensures { length reader.new.rest.now ≤ length reader.old.rest.now }
{
    reader.read_u32() as usize
}

// The number 0 stands for no refusal.
fn read_refusal(reader: &mut Reader<'_>) -> Option<Refused>
    ensures { length reader.new.rest.now ≤ length reader.old.rest.now }
{
    let number = u64::from(reader.read_u8());
    let place = u64::from(reader.read_u32());
    if number == 0 {
        None
    } else {
        Some(Refused {
            number,
            place,
            found: 0,
        })
    }
}

// What was found stands after a refusal too, as a place does after an answer that is none: both are 0 there, or nothing is answered so.
fn read_answer(reader: &mut Reader<'_>) -> Result<u64, Refused>
    ensures { length reader.new.rest.now ≤ length reader.old.rest.now }
{
    let number = u64::from(reader.read_u8());
    let place = u64::from(reader.read_u32());
    let found = reader.read_u64();
    if number == 0 && place == 0 {
        Ok(found)
    } else {
        Err(Refused {
            number,
            place,
            found,
        })
    }
}
