// What the layers above ask of one member at a time.
ghost use Rattle.std.specs.Prelude.{◌≡◌};
ghost use Rattle.member.specs.Tile.{entries, reading_of};
ghost use Rattle.member.specs.Search.{seat_in};
ghost use Rattle.member.specs.Change.{fits_write};

use crate::{Member, Reading};

impl Member {
    // The reading at a name: its entry (version, value), or else the version of the gap around the name.
    pub fn reading(&self, name: u32) -> Reading
        ensures { result ≡ reading_of self.now name }
    {
        self.reading_at(self.seat(name), name)
    }

    // The same for a name that has `at` entries below it.
    pub(crate) fn reading_at(&self, at: usize, name: u32) -> Reading
        requires { at ≡ seat_in (entries self.now) name }
        ensures { result ≡ reading_of self.now name }
    {
        if at < self.used() {
            let row = self.rows[at];
            if row.name == name {
                return Reading::Entry {
                    version: row.version,
                    value: row.value,
                };
            }
        }
        Reading::Gap {
            version: self.gap_below(at),
        }
    }

    // Would a write of this name leave at most 32 entries?
    pub fn fits_write(&self, name: u32) -> bool
        ensures { result ≡ fits_write self.now name }
    {
        let n = self.used();
        if n < Member::SLOTS {
            return true;
        }
        let at = self.seat(name);
        at < n && self.rows[at].name == name
    }

    // The version of the lowest gap, the one above LOW.
    pub fn lowest_gap(&self) -> u32
        ensures { result ≡ self.now.low }
    {
        self.low
    }
}
