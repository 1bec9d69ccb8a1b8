// Where a name or an end belongs among a member's entries. Every question and every change goes by this one search.
ghost use Rattle.std.specs.Prelude.{◌≡◌, ◌≤◌, ◌+◌, length, take, drop};
ghost use Rattle.member.specs.Tile.{entries};
ghost use Rattle.member.specs.Search.{end_of, seat_in, next_in, below_end, past_end, gap_below, end_below, end_at};

use crate::coalesce::rows_of;
use crate::{Member, Name};

// The end of a name; a name past the largest, which no sound member holds, counts as HIGH.
pub fn end_of(name: u32) -> u32
    ensures { result ≡ end_of name }
{
    if name <= Name::LARGEST {
        name + 1
    } else {
        Name::HIGH
    }
}

impl Member {
    // How many entries there are; a count past the last place counts as all places.
    pub fn used(&self) -> usize
        ensures { (result ≡ length (entries self.now)) × (result ≤ 32) }
    {
        self.count.min(Member::SLOTS)
    }

    // How many entries stand below the name: the place where it is, or where it would go.
    pub(crate) fn seat(&self, name: u32) -> usize
        ensures { result ≡ seat_in (entries self.now) name }
    {
        self.place(name).min(self.used())
    }

    // The same among all places, whether they are used or not.
    fn place(&self, name: u32) -> usize
        ensures { result ≡ seat_in self.now.rows name }
    {
        let at = self.place_from(0, name);
        if at < 16 {
            at
        } else {
            self.place_from(16, name)
        }
    }

    // The same among the 16 places from `from` on. They are looked at one and all, from the last down, which takes no jump: the jump out
    // of a search that stops where it has found its place is one that a processor cannot foretell, and costs more than the places left.
    fn place_from(&self, from: usize, name: u32) -> usize
        requires { from ≤ 16 }
        ensures { result ≡ from + seat_in (take 16 (drop from self.now.rows)) name }
    {
        let mut at = 16;
        for i in (0..16).rev() {
            if name <= self.rows[from + i].name {
                at = i;
            }
        }
        from + at
    }

    // How many entries stand at or below the name, for one that has `at` entries below it.
    pub(crate) fn next(&self, at: usize, name: u32) -> usize
        requires { at ≡ seat_in (entries self.now) name }
        ensures { result ≡ next_in (entries self.now) name }
    {
        if at < self.used() && self.rows[at].name == name {
            at + 1
        } else {
            at
        }
    }

    // How many entries stand below the end.
    pub(crate) fn below_end(&self, end: u32) -> usize
        ensures { result ≡ below_end (entries self.now) end }
    {
        if end == 0 {
            return 0;
        }
        if Name::HIGH <= end {
            return self.used();
        }
        self.seat(end - 1)
    }

    // How many entries stand at or below the end.
    pub(crate) fn past_end(&self, end: u32) -> usize
        ensures { result ≡ past_end (entries self.now) end }
    {
        let at = self.below_end(end);
        if rows_of(end) == 1 {
            self.next(at, end - 1)
        } else {
            at
        }
    }

    // The version of the gap below the entry in place `at`.
    pub(crate) fn gap_below(&self, at: usize) -> u32
        requires { at ≤ length (entries self.now) }
        ensures { result ≡ gap_below self.now.low (entries self.now) at }
    {
        if at == 0 {
            self.low
        } else {
            self.rows[at - 1].gap
        }
    }

    // The lower end of that gap.
    pub(crate) fn end_below(&self, at: usize) -> u32
        requires { at ≤ length (entries self.now) }
        ensures { result ≡ end_below (entries self.now) at }
    {
        if at == 0 {
            0
        } else {
            end_of(self.rows[at - 1].name)
        }
    }

    // The upper end of that gap.
    pub(crate) fn end_at(&self, at: usize) -> u32
        ensures { result ≡ end_at (entries self.now) at }
    {
        if at < self.used() {
            end_of(self.rows[at].name)
        } else {
            Name::HIGH
        }
    }
}
