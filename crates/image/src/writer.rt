// The fields of an image, put one after another. What a function requires of `at` keeps the sums of places from wrapping, and what
// it requires of the bytes is room for its fields and eight bytes more: a field is put with what follows it in eight bytes.
ghost use Rattle.std.specs.Prelude.{◌≡◌, ◌++◌, ◌+◌, ◌*◌, ◌≤◌, length, drop};
ghost use mathlib.Core.List.{map, flat_map};
ghost use Rattle.member.specs.Tile.{entries};
ghost use Rattle.image.specs.Layout.{name_width, row_pieces, member_pieces, vote_pieces, suite_pieces, widths};
ghost use Rattle.image.specs.Writer.{Appended};

use crate::EDITION;
use member::{Member, Row};
use suite::Suite;

// Name, version, value, version of the gap above. They go into two words, the second from the last byte of the version on: the
// bits before it are known, so that the word is stored without a load, which would wait for the word before.
fn put_row(out: &mut [u8], at: usize, row: Row)
    requires { (at ≤ 30000) × (at + 148 ≤ 8 * length out.old) }
    ensures { Appended out.old at (row_pieces name_width row) out.new }
{
    let version = u64::from(row.version % 16777216);
    let value = u64::from(row.value % 65536);
    let gap = u64::from(row.gap % 16777216);
    let high = u64::from(row.name % 1048576) * 16777216 + version;
    let rest = (version % 256 * 65536 + value) * 16777216 + gap;
    fields::append(out, at, 44, high);
    fields::append_after(out, at + 36, version / 256, 48, rest);
}

// The entries, ascending. Answers where the next field goes, as the others below.
fn put_rows(out: &mut [u8], at: usize, member: &Member) -> usize
    requires { (at ≤ 22000) × (at + 2752 ≤ 8 * length out.old) }
    ensures { (result ≡ at + widths (flat_map (row_pieces name_width) (entries member.now)))
        × ((result ≤ at + 2688) × Appended out.old at (flat_map (row_pieces name_width) (entries member.now)) out.new) }
{
    let mut next = at;
    for i in 0..member.used() {
        put_row(out, next, member.entry(i));
        next += 84;
    }
    next
}

// Entry count, lowest gap version, and the entries.
fn put_member(out: &mut [u8], at: usize, member: &Member) -> usize
    requires { (at ≤ 21000) × (at + 2782 ≤ 8 * length out.old) }
    ensures { (result ≡ at + widths (member_pieces name_width member.now))
        × ((result ≤ at + 2718) × Appended out.old at (member_pieces name_width member.now) out.new) }
{
    let low = at + 6;
    fields::append(out, at, 6, member.used() as u64);
    fields::append(out, low, 24, u64::from(member.lowest_gap()));
    put_rows(out, low + 24, member)
}

fn put_members(out: &mut [u8], at: usize, members: &[Member]) -> usize
    requires { (at ≤ 53) × ((length members.now ≤ 8) × (at + 21808 ≤ 8 * length out.old)) }
    ensures { (result ≡ at + widths (flat_map (member_pieces name_width) members.now))
        × ((result ≤ at + 21744) × Appended out.old at (flat_map (member_pieces name_width) members.now) out.new) }
{
    let mut next = at;
    for member in members {
        next = put_member(out, next, member);
    }
    next
}

fn put_votes(out: &mut [u8], at: usize, votes: &[u32]) -> usize
    requires { (at ≤ 21) × ((length votes.now ≤ 8) × (at + 96 ≤ 8 * length out.old)) }
    ensures { (result ≡ at + widths (flat_map vote_pieces votes.now))
        × ((result ≤ at + 32) × Appended out.old at (flat_map vote_pieces votes.now) out.new) }
{
    let mut next = at;
    for vote in votes {
        fields::append(out, next, 4, u64::from(*vote));
        next += 4;
    }
    next
}

// All fields, from the first bit on. Answers how many bits they have.
pub(crate) fn put_suite(out: &mut [u8], suite: &Suite) -> usize
    requires { 21861 ≤ 8 * length out.old }
    ensures { (result ≡ widths (suite_pieces name_width suite.now))
        × ((result ≤ 21797) × Appended out.old 0 (suite_pieces name_width suite.now) out.new) }
{
    let size = suite.size();
    fields::append(out, 0, 4, u64::from(EDITION));
    fields::append(out, 4, 3, suite.count.saturating_sub(1) as u64);
    fields::append(out, 7, 7, u64::from(suite.read));
    fields::append(out, 14, 7, u64::from(suite.write));
    let next = put_votes(out, 21, &suite.votes[..size]);
    put_members(out, next, &suite.members[..size])
}

// Bytes copied to the start of others, one by one: the library's own copy of as many as come asks for `memmove`, which the archive for
// C does without.
pub(crate) fn copy(from: &[u8], to: &mut [u8])
    requires { length from.now ≤ length to.old }
    ensures { to.new ≡ from.now ++ drop (length from.now) to.old }
{
    for (i, byte) in from.iter().enumerate() {
        to[i] = *byte;
    }
}
