// How a member changes: an entry written, an entry dropped, a row added above the last. A member is written where it lies; the named
// form of the rules paper takes it by value and gives it back.
ghost use Rattle.std.specs.Prelude.{◌≡◌, ◌≤◌, ◌<◌, length};
ghost use Rattle.member.specs.Tile.{entries};
ghost use Rattle.member.specs.Change.{write_of, drop_of, inserted_at, append_of};

use crate::sound::in_range;
use crate::{Member, Row};

impl Member {
    // Writing an entry: an entry of that name takes the version and value; otherwise it is added, and both halves of the
    // split gap keep that gap's version. A member with no place left for it stays as it was.
    pub fn put(&mut self, name: u32, version: u32, value: u32)
        ensures { self.new ≡ write_of self.old name version value }
    {
        let n = self.used();
        let at = self.seat(name);
        if at < n && self.rows[at].name == name {
            let kept = self.rows[at].gap;
            self.rows[at] = Row {
                name,
                version,
                value,
                gap: kept,
            };
            self.count = n;
            return;
        }
        if n < Member::SLOTS {
            let split = self.gap_below(at);
            self.insert(
                at,
                Row {
                    name,
                    version,
                    value,
                    gap: split,
                },
            );
        }
    }

    // The same of a member by value, given back changed.
    #[inline(always)]
    pub fn write(mut self, name: u32, version: u32, value: u32) -> Member
        ensures { result ≡ write_of self name version value }
    {
        self.put(name, version, value);
        self
    }

    // The row at place `at`, with the entries from there on one place up.
    fn insert(&mut self, at: usize, row: Row)
        requires { (at ≤ length (entries self.old)) × (length (entries self.old) < 32) }
        ensures { self.new ≡ inserted_at self.old at row }
    {
        self.shift(at, at + 1);
        self.rows[at] = row;
    }

    // Without the entry in place `at`: the merged gap keeps the version of the gap below it.
    pub fn drop(mut self, at: usize) -> Member
        ensures { result ≡ drop_of self at }
    {
        if at < self.used() {
            self.shift(at + 1, at);
        }
        self
    }

    // A row added above the last, for whoever reads a member from an image. Where it does not go there, the member as it was.
    #[tactic(auto, unfolding(crate::specs::Change::append_of))]
    pub fn append(mut self, row: Row) -> Member
        ensures { result ≡ append_of self row }
    {
        let top = self.used();
        if top < Member::SLOTS && self.end_below(top) <= row.name && in_range(row) {
            self.insert(top, row);
        }
        self
    }
}
