// One tile of the directory: everything that a member of a suite can be asked, and its changes. Nothing of votes or sets.
//
// An end is a number that LOW, the names and HIGH have in common: LOW is 0, the name n is n + 1, HIGH is Name::HIGH.
#![tactic(auto)]

mod ask;
mod build;
mod change;
mod coalesce;
mod rounds;
mod search;
mod sound;

ghost use Rattle.std.specs.Prelude.{◌≡◌};
ghost use Rattle.member.specs.Tile.{empty_tile, fresh_tile};

pub use search::end_of;
pub use sound::{in_range, is_none};

// A name, user × 16 + process.
#[derive(Clone, Copy)]
pub struct Name(pub u32);

impl Name {
    pub const LARGEST: u32 = 1_048_575;
    // The end above all names.
    pub const HIGH: u32 = 1_048_577;
}

// The version of an entry, from 1, or of a gap, from 0.
#[derive(Clone, Copy)]
pub struct Version(pub u32);

impl Version {
    pub const LARGEST: u32 = 16_777_215;
}

// What an entry keeps for its name; opaque here.
#[derive(Clone, Copy)]
pub struct Value(pub u32);

impl Value {
    pub const LARGEST: u32 = 65_535;
}

// What a member holds at a name: its entry, or else the gap around the name.
#[derive(Clone, Copy)]
pub enum Reading {
    Entry { version: u32, value: u32 },
    Gap { version: u32 },
}

// A gap as seen from a name: its version, and the entry at which it ends.
#[derive(Clone, Copy)]
pub struct Side {
    pub version: u32,
    pub end: u32,
}

// The answer of round one.
#[derive(Clone, Copy)]
pub struct Around {
    pub reading: Reading,
    pub below: Side,
    pub above: Side,
}

// An entry by its end; LOW and HIGH have version 0 and value 0.
#[derive(Clone, Copy)]
pub struct Bound {
    pub end: u32,
    pub version: u32,
    pub value: u32,
}

// The answer of round two: what is offered on either side.
#[derive(Clone, Copy)]
pub struct Offered {
    pub below: Option<Bound>,
    pub above: Option<Bound>,
}

// An entry in its place, with the version of the gap above it.
#[derive(Clone, Copy, PartialEq, Eq)]
pub struct Row {
    pub name: u32,
    pub version: u32,
    pub value: u32,
    pub gap: u32,
}

impl Row {
    // What an unused place holds.
    pub const NONE: Row = Row {
        name: 0,
        version: 0,
        value: 0,
        gap: 0,
    };
}

// A tile: its entries in the lowest `count` places, and the version of the gap above LOW.
#[derive(Clone, Copy)]
pub struct Member {
    low: u32,
    count: usize,
    rows: [Row; 32],
}

impl Member {
    pub const SLOTS: usize = 32;

    // No entry, and one gap of version 0.
    pub fn fresh() -> Member
        ensures { result ≡ fresh_tile }
    {
        Member::empty(0)
    }

    // No entry, and one gap of the version given.
    pub fn empty(gap: u32) -> Member
        ensures { result ≡ empty_tile gap }
    {
        Member {
            low: gap,
            count: 0,
            rows: [Row::NONE; Member::SLOTS],
        }
    }
}
