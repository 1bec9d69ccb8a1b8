// The fields of an image, read one after another; the first fault decides. What a function requires of `at` keeps the sums of
// places from wrapping.
ghost use Rattle.std.specs.Prelude.{◌≡◌, map, ◌+◌, ◌*◌, ◌^◌, ◌≤◌, ◌<◌, length, drop, replicate, IfOk};
ghost use Rattle.fields.specs.Bits.{bits_of};
ghost use Rattle.member.specs.Tile.{fresh_tile};
ghost use Rattle.image.specs.Layout.{name_width};
ghost use Rattle.image.specs.Reader.{field, each, read_member, read_voted, read_suite, only_padding};
ghost use Rattle.image.specs.Steps.{taken_of, placed_of, passed_of, ends_by};

use crate::EDITION;
use crate::entries::read_rows;
use member::Member;
use suite::{Frame, Refusal, Suite};

// The field of `width` bits at bit `at`.
pub(crate) fn field(bytes: &[u8], at: usize, width: u32) -> Result<u32, Refusal>
    requires { width ≤ 32 }
    ensures taken { taken_of result (at + width) ≡ field bytes.now width at }
    ensures small { IfOk result (λ v. v < 2 ^ width) }
{
    let Some(value) = fields::read(bytes, at, width) else {
        return Err(Refusal::Short);
    };
    Ok(value as u32)
}

// A member, into a member that is fresh. Answers where the next field starts, as the readers of members and of all below.
fn read_member(bytes: &[u8], at: usize, member: &mut Member) -> Result<usize, Refusal>
    requires { (at ≤ 21000) × (member.old ≡ fresh_tile) }
    ensures { (placed_of result member.new ≡ read_member bytes.now name_width at) × ends_by result (at + 2718) }
{
    let count = field(bytes, at, 6)?;
    if 32 < count {
        return Err(Refusal::Field);
    }
    let low = field(bytes, at + 6, 24)?;
    read_rows(bytes, at + 30, low, count as usize, member)
}

// As many votes as there are places, which hold zero.
fn read_votes(bytes: &[u8], at: usize, votes: &mut [u32]) -> Result<(), Refusal>
    requires { (at ≤ 21) × ((length votes.old ≤ 8) × (votes.old ≡ replicate (length votes.old) 0)) }
    ensures { passed_of result votes.new (at + 4 * length votes.old) ≡ each (field bytes.now 4) (length votes.old) at }
{
    let mut next = at;
    for vote in votes.iter_mut() {
        *vote = field(bytes, next, 4)?;
        next += 4;
    }
    Ok(())
}

// As many members as there are members, which are fresh.
fn read_members(bytes: &[u8], at: usize, members: &mut [Member]) -> Result<usize, Refusal>
    requires { (at ≤ 53) × ((length members.old ≤ 8) × (members.old ≡ replicate (length members.old) fresh_tile)) }
    ensures { (placed_of result members.new ≡ each (read_member bytes.now name_width) (length members.old) at)
        × ends_by result (at + 21744) }
{
    let mut next = at;
    for member in members.iter_mut() {
        next = read_member(bytes, next, member)?;
    }
    Ok(next)
}

// The votes and the members. R, W and V are judged after the last vote.
fn read_voted(
    bytes: &[u8],
    count: usize,
    read: u32,
    write: u32,
    suite: &mut Suite,
) -> Result<usize, Refusal>
    requires { (1 ≤ count) × ((count ≤ 8) × (suite.old.members ≡ replicate 8 fresh_tile)) }
    ensures { (placed_of result suite.new ≡ read_voted bytes.now name_width count read write 21) × ends_by result 21797 }
{
    let mut votes = [0; 8];
    read_votes(bytes, 21, &mut votes[..count])?;
    let frame = Frame {
        votes,
        read,
        write,
        count,
    };
    if frame.is_sound() {
        suite.votes = votes;
        suite.read = read;
        suite.write = write;
        suite.count = count;
        return read_members(bytes, 21 + 4 * count, &mut suite.members[..count]);
    }
    Err(Refusal::Field)
}

// All fields, from the first bit on, into a suite whose members are fresh.
pub(crate) fn read_suite(bytes: &[u8], suite: &mut Suite) -> Result<usize, Refusal>
    requires { suite.old.members ≡ replicate 8 fresh_tile }
    ensures { (placed_of result suite.new ≡ read_suite bytes.now name_width 0) × ends_by result 21797 }
{
    let number = field(bytes, 0, 4)?;
    if number != EDITION {
        return Err(Refusal::Edition);
    }
    let less = field(bytes, 4, 3)?;
    let read = field(bytes, 7, 7)?;
    let write = field(bytes, 14, 7)?;
    read_voted(bytes, less as usize + 1, read, write, suite)
}

// Are the bits from `end` on fewer than a byte, and all 0?
pub(crate) fn only_padding(bytes: &[u8], end: usize) -> bool
    requires { (end ≤ 8 * length bytes.now) × (end ≤ 21797) }
    ensures { result ≡ only_padding (drop end (bits_of bytes.now)) }
{
    let last = end.div_ceil(8);
    if bytes.len() != last {
        return false;
    }
    fields::read(bytes, end, (8 * last - end) as u32) == Some(0)
}
