// A suite: one directory on one to eight members with votes. Creation, the five calls, every refusal.
//
// A suite uses a member only through what it promises: it never looks into rows.
#![tactic(auto)]

mod ask;
mod ballot;
mod calls;
mod create;
mod grant;
mod judge;
mod rounds;
mod sound;
pub mod table;
mod unchecked;

ghost use Rattle.std.specs.Prelude.{◌≡◌};
ghost use Rattle.suite.specs.Outcome.{number_of};

use member::{Member, Reading};
pub use rounds::Survey;

// Why a call is refused; the paper's number of each is `Refusal::number`.
#[derive(Clone, Copy, PartialEq, Eq, Debug)]
pub enum Refusal {
    Unsound,
    Members,
    Vote,
    Quorum,
    Name,
    Value,
    NoMember,
    ReadVotes,
    WriteVotes,
    Present,
    Absent,
    Version,
    Full,
    NotUnderstood,
    Short,
    Edition,
    Field,
    Padding,
    Buffer,
}

impl Refusal {
    pub fn number(self) -> u32
        ensures { result ≡ number_of self }
    {
        match self {
            Refusal::Unsound => 1,
            Refusal::Members => 2,
            Refusal::Vote => 3,
            Refusal::Quorum => 4,
            Refusal::Name => 5,
            Refusal::Value => 6,
            Refusal::NoMember => 7,
            Refusal::ReadVotes => 8,
            Refusal::WriteVotes => 9,
            Refusal::Present => 10,
            Refusal::Absent => 11,
            Refusal::Version => 12,
            Refusal::Full => 13,
            Refusal::NotUnderstood => 14,
            Refusal::Short => 15,
            Refusal::Edition => 16,
            Refusal::Field => 17,
            Refusal::Padding => 18,
            Refusal::Buffer => 19,
        }
    }
}

// What a lookup finds, and how many member answers it took.
#[derive(Clone, Copy)]
pub struct Looked {
    pub reading: Reading,
    pub requests: u32,
}

// A neighbour query's answer: the ends of the predecessor and of the successor.
#[derive(Clone, Copy)]
pub struct Near {
    pub below: u32,
    pub above: u32,
    pub requests: u32,
}

// What insert, update and remove answer.
#[derive(Clone, Copy)]
pub struct Done {
    pub version: u32,
    pub requests: u32,
}

// The members in the lowest `count` places with their votes; R votes make a read set, W votes a write set.
#[derive(Clone, Copy)]
pub struct Suite {
    pub members: [Member; 8],
    pub votes: [u32; 8],
    pub read: u32,
    pub write: u32,
    pub count: usize,
}

// A suite without its members: the votes, R, W and how many members there are.
#[derive(Clone, Copy)]
pub struct Frame {
    pub votes: [u32; 8],
    pub read: u32,
    pub write: u32,
    pub count: usize,
}

impl Suite {
    // The most members.
    pub const LARGEST: usize = 8;

    pub const LARGEST_VOTE: u32 = 15;
}
