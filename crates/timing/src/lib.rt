// The limits of documents 01 and 02, and the types that every call's answer is made of.
// The definitions that the contracts cite are in specs/.
#![tactic(auto)]

pub const MAX_NODES: u32 = 4096;

pub const MAX_EDGES: usize = 16384;

pub const MAX_PATHS: usize = 1024;

pub const MAX_LISTED_EDGES: usize = 8192;

pub const MAX_DELAY: i32 = 1000000;

pub const MAX_ALLOWED_TIME: u32 = 1000000000;

pub const MAX_COPIES: usize = 16384;

pub const MAX_COPY_EDGES: usize = 65536;

pub const MAX_DECK_BYTES: usize = 65536;

// Of scratch, for each candidate, listed edge and edge of the graph worked on.
pub const WORDS_PER_UNIT: usize = 8;

// A refusal: its number in documents 01 and 02, and the place of the fault. Where the place is a path (22 to 24), `index`
// is a second one: that of an edge within the path, or 0 where the path is empty. Else it is 0. `number` is no enum: the documents, C and
// what is printed know a refusal by its number alone, and 36 names would be a second vocabulary beside these.
#[derive(Clone, Copy)]
pub struct Refusal {
    pub number: u32,
    pub place: usize,
    pub index: usize,
}

// What a test answers: that it passes, or its refusal.
pub type Verdict = Result<(), Refusal>;

// A number that some bytes begin with: its value, and how many bytes it takes.
#[derive(Clone, Copy)]
pub struct Groups {
    pub value: u32,
    pub size: usize,
}

// Why bytes begin with no number: they end inside it, or it is not shortest or too large.
#[derive(Clone, Copy)]
pub enum NoNumber {
    Ended,
    Unfit,
}

// A number that was read at a place, and the place behind it.
#[derive(Clone, Copy)]
pub struct Taken {
    pub value: u32,
    pub next: usize,
}

// What the deck reader finds: n, how many places of each table it filled, and T.
#[derive(Clone, Copy)]
pub struct DeckCounts {
    pub nodes: u32,
    pub edges: usize,
    pub listed: usize,
    pub paths: usize,
    pub marked: usize,
    pub allowed: u32,
}

// How large a true graph is: what a removal, the call that tells its size and the reader of a packed one answer.
#[derive(Clone, Copy)]
pub struct GraphCounts {
    pub copies: usize,
    pub edges: usize,
}

// The three times of a node, and its earliest arrival.
#[derive(Clone, Copy)]
pub struct Times {
    pub arrival: i64,
    pub required: i64,
    pub slack: i64,
    pub earliest: i64,
}

// "Either its three times or the answer none", and with the times the earliest arrival.
#[derive(Clone, Copy)]
pub struct NodeRecord {
    pub node: u32,
    pub times: Option<Times>,
}
