// The answers of a round stand in one table, a row for each member: eight numbers. The row of
//   round one:   the reading (present, version, value), then version and lower end of the gap below, version and upper end of the gap above;
//   round two:   rank, end, version, value of the entry offered below, then of the one offered above; the rank is the greater
//                the nearer the entry is to the name, and 0 where none is offered or its end is past HIGH;
// with zeros in the places left, and in the rows of members that were not asked.
ghost use Rattle.std.specs.Prelude.{◌≡◌, ◌<◌};
ghost use Rattle.suite.specs.Best.{best};
ghost use Rattle.suite.specs.Sets.{chosen};
ghost use Rattle.suite.specs.Calls.{bound_or, rank_above};
ghost use Rattle.suite.specs.Rows.{no_row, reading_row, around_row, offers_row, rank_within, row_reading, beats_at};

use member::{Around, Bound, Name, Reading};

fn reading_row(reading: Reading) -> [u32; 8]
    ensures { result ≡ reading_row reading }
{
    match reading {
        Reading::Entry { version, value } => [1, version, value, 0, 0, 0, 0, 0],
        Reading::Gap { version } => [0, version, 0, 0, 0, 0, 0, 0],
    }
}

// The reading that a row begins with.
pub fn row_reading(row: [u32; 8]) -> Reading
    ensures { result ≡ row_reading row }
{
    if row[0] == 1 {
        Reading::Entry {
            version: row[1],
            value: row[2],
        }
    } else {
        Reading::Gap { version: row[1] }
    }
}

#[tactic(auto, unfolding(crate::specs::Rows::around_row))]
pub fn around_row(around: Around) -> [u32; 8]
    ensures { result ≡ around_row around }
{
    let reading = around.reading;
    let below = around.below;
    let above = around.above;
    let row = reading_row(reading);
    [
        row[0],
        row[1],
        row[2],
        below.version,
        below.end,
        above.version,
        above.end,
        0,
    ]
}

// What is offered, or zeros with which nothing is ranked.
fn offered(offer: Option<Bound>) -> Bound
    ensures { result ≡ bound_or offer }
{
    offer.unwrap_or(Bound {
        end: 0,
        version: 0,
        value: 0,
    })
}

fn rank_below(offer: Option<Bound>) -> u32
    ensures { result ≡ rank_within offer }
{
    match offer {
        Some(b) if b.end <= Name::HIGH => b.end + 1,
        _ => 0,
    }
}

fn rank_above(offer: Option<Bound>) -> u32
    ensures { result ≡ rank_above offer }
{
    match offer {
        Some(b) => (Name::HIGH + 1).saturating_sub(b.end),
        None => 0,
    }
}

#[tactic(auto, unfolding(crate::specs::Rows::offers_row))]
pub fn offers_row(below: Option<Bound>, above: Option<Bound>) -> [u32; 8]
    ensures { result ≡ offers_row below above }
{
    let b = offered(below);
    let a = offered(above);
    [
        rank_below(below),
        b.end,
        b.version,
        b.value,
        rank_above(above),
        a.end,
        a.version,
        a.value,
    ]
}

// Is b better than a: greater in the column, or equal there and greater in the column `then`?
fn beats(b: &[u32; 8], a: &[u32; 8], column: usize, then: usize) -> bool
    requires { (column < 8) × (then < 8) }
    ensures { result ≡ beats_at column then b.now a.now }
{
    a[column] < b[column] || (a[column] == b[column] && a[then] < b[then])
}

// The best of the rows that the set names, the lowest-numbered member's where none is better, and zeros where it names none.
// It is inlined: the columns are known at each call.
#[inline(always)]
pub(crate) fn best_row(table: &[[u32; 8]; 8], set: u32, column: usize, then: usize) -> [u32; 8]
    requires { (column < 8) × (then < 8) }
    ensures { result ≡ best (beats_at column then) no_row (chosen table.now set) }
{
    let mut best: Option<&[u32; 8]> = None;
    let mut left = set;
    for row in table {
        if left == 0 {
            break;
        }
        if left % 2 == 1 {
            if best.is_none_or(|held| beats(row, held, column, then)) {
                best = Some(row);
            }
        }
        left /= 2;
    }
    best.copied().unwrap_or([0; 8])
}
