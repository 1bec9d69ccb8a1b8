// Coalescing p..s, as the rules paper has it: p and s are written, every entry strictly between is dropped, and the one gap between
// them gets its version. The rows below p and past s stay, and the rows of p and s go between them.
#![tactic(auto, using(crate::specs::CoalesceLaws::coalesce_same))]

ghost use Rattle.std.specs.Prelude.{◌≡◌, ◌≤◌, ◌<◌, ◌+◌, ◌-◌, length};
ghost use Rattle.member.specs.Tile.{entries};
ghost use Rattle.member.specs.Change.{coalesce_of, fits_coalesce};
ghost use Rattle.member.specs.Steps.{own, end_put, moved_at};

use crate::{Bound, Member, Name, Row};

// How many rows an end has: one for a name, none for LOW and HIGH.
pub(crate) fn rows_of(end: u32) -> usize
    ensures { (result ≡ own end) × (result ≤ 1) }
{
    if 0 < end && end < Name::HIGH { 1 } else { 0 }
}

impl Member {
    // The entries from place `at` on moved to begin at place `to`; the places that fall free hold zero. What is below `to` stays as
    // it is: the caller puts its rows there.
    pub(crate) fn shift(&mut self, at: usize, to: usize)
        requires { (at ≤ length (entries self.old)) × (to + (length (entries self.old) - at) ≤ 32) }
        ensures { self.new ≡ moved_at self.old at to }
    {
        let n = self.used();
        let end = to + (n - at);
        self.rows.copy_within(at..n, to);
        if end < n {
            self.rows[end..n].fill(Row::NONE);
        }
        self.count = end;
    }

    // The row of an end put in its place, with the version of the gap above it. LOW and HIGH have none, and the gap above LOW is
    // the lowest.
    fn put_end(&mut self, at: usize, b: Bound, gap: u32)
        requires { at + own b.end ≤ 32 }
        ensures { self.new ≡ end_put self.old at b gap }
    {
        if b.end == 0 {
            self.low = gap;
        } else if b.end < Name::HIGH {
            self.rows[at] = Row {
                name: b.end - 1,
                version: b.version,
                value: b.value,
                gap,
            };
        }
    }

    // Would coalescing p..s leave at most 32 entries? Those below p and above s stay, and p and s are there: at most two more than
    // before.
    pub fn fits_coalesce(&self, p: u32, s: u32) -> bool
        ensures { result ≡ fits_coalesce self.now p s }
    {
        if s <= p {
            return true;
        }
        let n = self.used();
        if n + 2 <= Member::SLOTS {
            return true;
        }
        let from = self.below_end(p);
        let to = self.past_end(s);
        let mid = from + rows_of(p);
        let end = mid + rows_of(s);
        end + (n - to) <= Member::SLOTS
    }

    // Coalescing p..s with the version given. A member that would hold over 32 entries stays as it was, and so does one asked with
    // ends that are not in order.
    pub fn join(&mut self, p: Bound, s: Bound, gap: u32)
        ensures { self.new ≡ coalesce_of self.old p s gap }
    {
        if p.end < s.end {
            self.join_in_order(p, s, gap);
        }
    }

    // For ends in order: the entries past s moved to their place, and the rows of p and s put in front of them. Where over 32 would be
    // left, nothing.
    fn join_in_order(&mut self, p: Bound, s: Bound, gap: u32)
        requires { p.end < s.end }
        ensures { self.new ≡ coalesce_of self.old p s gap }
    {
        let n = self.used();
        let from = self.below_end(p.end);
        let to = self.past_end(s.end);
        let mid = from + rows_of(p.end);
        let end = mid + rows_of(s.end);
        if end + (n - to) <= Member::SLOTS {
            let above = self.gap_below(to);
            self.shift(to, end);
            self.put_end(from, p, gap);
            self.put_end(mid, s, above);
        }
    }

    // The same of a member by value, given back changed.
    #[inline(always)]
    pub fn coalesce(mut self, p: Bound, s: Bound, gap: u32) -> Member
        ensures { result ≡ coalesce_of self p s gap }
    {
        self.join(p, s, gap);
        self
    }
}
