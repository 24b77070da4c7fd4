// The flow file: what it may hold, which file is refused and why, and the fields of a statement's record.
#![tactic(auto)]

ghost use Rattle.std.specs.Prelude.{◌≡◌};
ghost use Rattle.flow.specs.Refusals.{number_of, place_of};

// The limits of a flow file.
pub const MAX_FILE: usize = 262144;

pub const MAX_STATEMENTS: usize = 2048;

pub const MAX_ARRAYS: usize = 64;

pub const MAX_NAMES: usize = 64;

// A continuation with this value means none.
pub const NO_CONTINUATION: usize = 65535;

// Words of the work area for each statement.
pub const WORK_PER_STATEMENT: usize = 64;

// A statement's number, from 0 to n - 1.
#[derive(Clone, Copy, Debug, PartialEq, Eq)]
pub struct StmtId(pub usize);

// A doubled number, from 0 to 2 n - 1: a node of the doubled graph.
#[derive(Clone, Copy, Debug, PartialEq, Eq)]
pub struct NodeId(pub usize);

// The two copies of a statement: base 0 and base n.
#[derive(Clone, Copy, Debug, PartialEq, Eq)]
pub enum Base {
    Zero,
    N,
}

// Why a flow is refused. A record's place is the offset of its mark, or where that mark should begin.
#[derive(Clone, Copy, Debug, PartialEq, Eq)]
pub enum Refusal {
    // The file is over the limit.
    TooLong,
    // A mark is wrong or absent, or a field lies past the end.
    Record(usize),
    // A count of the header is over its limit, or the entry is no statement.
    Header(usize),
    // A kind or a DIM flag is unknown.
    Kind(usize),
    // A successor, a continuation, the statement of a line or the handler is no statement.
    Target(usize),
    // An array number or a name bit is out of range.
    Member(usize),
    // A RETURN has references.
    ReturnReference(usize),
    // References or lines do not rise strictly.
    Order(usize),
    // Bytes follow the end record.
    Trailing(usize),
    // A lent area is too short.
    Areas,
    // A byte of a proposed table is no mask.
    Mask(usize),
}

impl Refusal {
    // Its number in the refusal table.
    pub fn number(self) -> u64
        ensures { result ≡ number_of self }
    {
        match self {
            Refusal::TooLong => 1,
            Refusal::Record(_) => 2,
            Refusal::Header(_) => 3,
            Refusal::Kind(_) => 4,
            Refusal::Target(_) => 5,
            Refusal::Member(_) => 6,
            Refusal::ReturnReference(_) => 7,
            Refusal::Order(_) => 8,
            Refusal::Trailing(_) => 9,
            Refusal::Areas => 10,
            Refusal::Mask(_) => 11,
        }
    }

    // The place that goes with it: 0 where the table says so.
    pub fn place(self) -> u64
        ensures { result ≡ place_of self }
    {
        match self {
            Refusal::TooLong => 0,
            Refusal::Record(p) => p as u64,
            Refusal::Header(p) => p as u64,
            Refusal::Kind(p) => p as u64,
            Refusal::Target(p) => p as u64,
            Refusal::Member(p) => p as u64,
            Refusal::ReturnReference(p) => p as u64,
            Refusal::Order(p) => p as u64,
            Refusal::Trailing(p) => p as u64,
            Refusal::Areas => 0,
            Refusal::Mask(p) => p as u64,
        }
    }
}

// What the header says, where the lines stand, and the handler, of a file that was found fit. It goes beside the file, and not with it in one struct: a struct that holds a reference has a value
// before and after each call, so that contracts would say `file.entry.bytes.now` for `file.now`.
#[derive(Clone, Copy, Debug, PartialEq, Eq)]
pub struct Header {
    pub statements: usize,
    pub arrays: usize,
    pub names: usize,
    pub entry: StmtId,
    // The place of the first FL record, and how many there are.
    pub lines_at: usize,
    pub lines: usize,
    // The statement that the interrupt key calls, if there is one.
    pub handler: Option<StmtId>,
}

// The parts of a file, in file order: the FH record, the FN records, the FL records, the FK record, which may be absent, and the FE record.
#[derive(Clone, Copy, Debug, PartialEq, Eq)]
pub enum Part {
    Header,
    Statements,
    Lines,
    Key,
    End,
}

// An item of a DIM: its array, and whether it has dimensions.
#[derive(Clone, Copy, Debug, PartialEq, Eq)]
pub struct Item {
    pub array: usize,
    pub flag: bool,
}

pub mod areas;
pub mod bytes;
pub mod check;
pub mod kind;
pub mod reader;
