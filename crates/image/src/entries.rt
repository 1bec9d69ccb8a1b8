// The entries of an image, read one after another; the first fault decides. What a function requires of `at` keeps the sums of
// places from wrapping.
ghost use Rattle.std.specs.Prelude.{◌≡◌, ◌+◌, ◌≤◌};
ghost use Rattle.member.specs.Tile.{fresh_tile};
ghost use Rattle.image.specs.Layout.{name_width};
ghost use Rattle.image.specs.Reader.{read_row, read_rows};
ghost use Rattle.image.specs.Steps.{taken_of, placed_of, ends_by};

use crate::NAME;
use crate::reader::field;
use member::{Member, Row};
use suite::Refusal;

// An entry whose name is `lowest` or greater. It is read as two words, the second from the last byte of the version on: fields
// that are read by themselves would test the image's length for each.
fn read_row(bytes: &[u8], at: usize, lowest: u64) -> Result<Row, Refusal>
    requires { at ≤ 30000 }
    ensures { taken_of result (at + 84) ≡ read_row bytes.now name_width lowest at }
{
    let Some(high) = fields::read_word(bytes, at, 44) else {
        return read_last_row(bytes, at, lowest);
    };
    let Some(rest) = fields::read_word(bytes, at + 36, 48) else {
        return read_last_row(bytes, at, lowest);
    };
    let name = high / 16777216;
    let version = high % 16777216;
    if name < lowest || version == 0 {
        return Err(Refusal::Field);
    }
    Ok(Row {
        name: name as u32,
        version: version as u32,
        value: (rest / 16777216 % 65536) as u32,
        gap: (rest % 16777216) as u32,
    })
}

// The same field by field, where the image may end inside the entry or soon after it. It is inlined so that no entry passes through
// memory on its way: a load of a whole entry would wait for the stores of its fields.
#[inline(always)]
fn read_last_row(bytes: &[u8], at: usize, lowest: u64) -> Result<Row, Refusal>
    requires { at ≤ 30000 }
    ensures { taken_of result (at + 84) ≡ read_row bytes.now name_width lowest at }
{
    let name = field(bytes, at, NAME)?;
    if u64::from(name) < lowest {
        return Err(Refusal::Field);
    }
    let version = field(bytes, at + 20, 24)?;
    if version == 0 {
        return Err(Refusal::Field);
    }
    Ok(Row {
        name,
        version,
        value: field(bytes, at + 44, 16)?,
        gap: field(bytes, at + 60, 24)?,
    })
}

// The entries of a member, ascending, into a member that is fresh. Answers where the next field starts.
pub(crate) fn read_rows(
    bytes: &[u8],
    at: usize,
    low: u32,
    count: usize,
    member: &mut Member,
) -> Result<usize, Refusal>
    requires { (at ≤ 22000) × ((count ≤ 32) × (member.old ≡ fresh_tile)) }
    ensures { (placed_of result member.new ≡ read_rows bytes.now name_width count low at) × ends_by result (at + 2688) }
{
    member.set_lowest(low);
    let mut next = at;
    let mut lowest: u64 = 0;
    for i in 0..count {
        let row = read_row(bytes, next, lowest)?;
        member.set_entry(i, row);
        lowest = u64::from(row.name) + 1;
        next += 84;
    }
    member.set_size(count);
    Ok(next)
}
