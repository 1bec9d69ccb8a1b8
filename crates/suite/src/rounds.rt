// What a read set's answers come to: the newest reading at a name, and the two rounds of a neighbour query.
ghost use Rattle.std.specs.Prelude.{◌≡◌, ◌<◌, ◌^◌, length};
ghost use Rattle.suite.specs.Suite.{tiles};
ghost use Rattle.suite.specs.Calls.{version_of, newest, reading_answers, rounds};
ghost use Rattle.suite.specs.Rows.{survey_of};

use crate::Suite;
use crate::table::{best_row, row_reading};
use member::{Bound, Reading, Side};

// What the two rounds find: the newest reading at the name, the versions of the gaps next to it, its neighbours.
#[derive(Clone, Copy)]
pub struct Survey {
    pub reading: Reading,
    pub lower: u32,
    pub upper: u32,
    pub below: Bound,
    pub above: Bound,
}

fn version_of(reading: Reading) -> u32
    ensures { result ≡ version_of reading }
{
    match reading {
        Reading::Entry { version, value: _ } => version,
        Reading::Gap { version } => version,
    }
}

impl Suite {
    // The reading with the highest version; on a tie the lowest-numbered member's.
    pub(crate) fn newest(&self, set: u32, name: u32) -> Reading
        ensures { result ≡ newest (reading_answers self.now set name) }
    {
        let n = self.size();
        let mut best = None;
        let mut left = set;
        for member in &self.members[..n] {
            if left % 2 == 1 {
                let here = member.reading(name);
                if best.is_none_or(|got| version_of(got) < version_of(here)) {
                    best = Some(here);
                }
            }
            left /= 2;
        }
        best.unwrap_or(Reading::Gap { version: 0 })
    }

    // Round one, then round two for what it found.
    pub(crate) fn survey(&self, set: u32, name: u32) -> Survey
        requires { set < 2 ^ length (tiles self.now) }
        ensures { result ≡ survey_of (rounds self.now set name) }
    {
        let one = self.ask_around(set, name);
        let r = best_row(&one, set, 1, 1);
        let b = best_row(&one, set, 3, 3);
        let a = best_row(&one, set, 5, 5);
        let below = Side {
            version: b[3],
            end: b[4],
        };
        let above = Side {
            version: a[5],
            end: a[6],
        };
        let two = self.ask_offers(set, name, below, above);
        let p = best_row(&two, set, 0, 2);
        let s = best_row(&two, set, 4, 6);
        Survey {
            reading: row_reading(r),
            lower: b[3],
            upper: a[5],
            below: Bound {
                end: p[1],
                version: p[2],
                value: p[3],
            },
            above: Bound {
                end: s[5],
                version: s[6],
                value: s[7],
            },
        }
    }
}
