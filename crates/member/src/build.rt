// What the image layer needs of a member: its rows one after another, and a member built up of rows, one store after another. And
// the member that a tile's memory holds.
ghost use Rattle.std.specs.Prelude.{◌≡◌, min};
ghost use Rattle.member.specs.Tile.{row_of};
ghost use Rattle.member.specs.Cells.{tile_in};
ghost use Rattle.member.specs.Steps.{with_row, with_low, with_count};

use crate::{Member, Row};

impl Member {
    // The member that a tile's memory holds, whatever stands there: the count of its entries, the version of the gap above LOW, and
    // four numbers for each place, name, version, value and version of the gap above.
    pub fn of(cells: &[u32; 130]) -> Member
        ensures { result ≡ tile_in cells.now }
    {
        let mut rows = [Row::NONE; Member::SLOTS];
        for (i, row) in rows.iter_mut().enumerate() {
            let at = 4 * i + 2;
            *row = Row {
                name: cells[at],
                version: cells[at + 1],
                value: cells[at + 2],
                gap: cells[at + 3],
            };
        }
        Member {
            low: cells[1],
            count: cells[0] as usize,
            rows,
        }
    }

    // The entry in place i, counted from the lowest; past the last, what an unused place holds.
    pub fn entry(&self, i: usize) -> Row
        ensures { result ≡ row_of self.now i }
    {
        if i < self.used() {
            self.rows[i]
        } else {
            Row::NONE
        }
    }

    // The version of the gap above LOW.
    pub fn set_lowest(&mut self, gap: u32)
        ensures { self.new ≡ with_low self.old gap }
    {
        self.low = gap;
    }

    // The row in place i, counted or not; past the last place nothing.
    pub fn set_entry(&mut self, i: usize, row: Row)
        ensures { self.new ≡ with_row self.old i row }
    {
        if i < Member::SLOTS {
            self.rows[i] = row;
        }
    }

    // How many places hold entries; a number past the last place stands for all places.
    pub fn set_size(&mut self, n: usize)
        ensures { self.new ≡ with_count self.old (min n 32) }
    {
        self.count = n.min(Member::SLOTS);
    }
}
