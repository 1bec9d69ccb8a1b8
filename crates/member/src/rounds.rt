// The answers to the two rounds of a neighbour query.
ghost use Rattle.std.specs.Prelude.{◌≡◌};
ghost use Rattle.member.specs.Rounds.{around_of, below_of, above_of, offered, bound_of, bare_offer, offer_below_of, offer_above_of};
ghost use Rattle.member.specs.Search.{seat_in};
ghost use Rattle.member.specs.Tile.{entries};

use crate::search::end_of;
use crate::{Around, Bound, Member, Name, Offered, Row, Side};

// Is this entry k itself, or does it lie beyond k, on the name's side, with a version above v?
fn is_offered(row: Row, k: u32, beyond: bool, v: u32) -> bool
    ensures { result ≡ offered k v beyond row }
{
    end_of(row.name) == k || (beyond && v < row.version)
}

// The entry as an answer gives it.
fn bound_of(row: Row) -> Bound
    ensures { result ≡ bound_of row }
{
    Bound {
        end: end_of(row.name),
        version: row.version,
        value: row.value,
    }
}

// LOW or HIGH is offered where it is k.
fn offer_end(end: u32, k: u32) -> Option<Bound>
    ensures { result ≡ bare_offer end k }
{
    if k == end {
        Some(Bound {
            end,
            version: 0,
            value: 0,
        })
    } else {
        None
    }
}

impl Member {
    // Round one at a name: the reading there, and the gaps next below and next above.
    pub fn around(&self, name: u32) -> Around
        ensures { result ≡ around_of self.now name }
    {
        let at = self.seat(name);
        let after = self.next(at, name);
        Around {
            reading: self.reading_at(at, name),
            below: Side {
                version: self.gap_below(at),
                end: self.end_below(at),
            },
            above: Side {
                version: self.gap_below(after),
                end: self.end_at(after),
            },
        }
    }

    // Of round one the gap next below the name alone: its version and its lower end.
    pub fn below(&self, name: u32) -> Side
        ensures { result ≡ below_of self.now name }
    {
        self.around(name).below
    }

    // The gap next above the name: its version and its upper end.
    pub fn above(&self, name: u32) -> Side
        ensures { result ≡ above_of self.now name }
    {
        self.around(name).above
    }

    // Round two, for the gaps that round one found next below and next above the name.
    pub fn offers(&self, name: u32, below: Side, above: Side) -> Offered
        ensures { result ≡ record {
          below = offer_below_of self.now name below.end below.version;
          above = offer_above_of self.now name above.end above.version;
        } }
    {
        let at = self.seat(name);
        Offered {
            below: self.offer_below_at(at, name, below.end, below.version),
            above: self.offer_above_at(at, name, above.end, above.version),
        }
    }

    // Of round two the entry below the name alone, for the end k and the version v of a gap.
    pub fn offer_below(&self, name: u32, k: u32, v: u32) -> Option<Bound>
        ensures { result ≡ offer_below_of self.now name k v }
    {
        self.offer_below_at(self.seat(name), name, k, v)
    }

    // The entry above the name alone.
    pub fn offer_above(&self, name: u32, k: u32, v: u32) -> Option<Bound>
        ensures { result ≡ offer_above_of self.now name k v }
    {
        self.offer_above_at(self.seat(name), name, k, v)
    }

    // Round two below: the greatest entry from k up to but not the name that is k itself or has a version above v, for a name that
    // has `at` entries below it.
    fn offer_below_at(&self, at: usize, name: u32, k: u32, v: u32) -> Option<Bound>
        requires { at ≡ seat_in (entries self.now) name }
        ensures { result ≡ offer_below_of self.now name k v }
    {
        for i in (0..at).rev() {
            let row = self.rows[i];
            if is_offered(row, k, k < end_of(row.name), v) {
                return Some(bound_of(row));
            }
        }
        offer_end(0, k)
    }

    // Round two above: the least entry from k down to but not the name that is k itself or has a version above v.
    fn offer_above_at(&self, at: usize, name: u32, k: u32, v: u32) -> Option<Bound>
        requires { at ≡ seat_in (entries self.now) name }
        ensures { result ≡ offer_above_of self.now name k v }
    {
        let from = self.next(at, name);
        let n = self.used();
        for row in &self.rows[from..n] {
            if is_offered(*row, k, end_of(row.name) < k, v) {
                return Some(bound_of(*row));
            }
        }
        offer_end(Name::HIGH, k)
    }
}
