// Refusals 2 to 13 on both sides of their edges, and the order in which they are given.
use crate::build::{alone, fill, holding_five, three};
use crate::calls::{create, del, each, ins, near};
use crate::say::title;
use member::{Member, Name, Value, Version};
use std::io;
use suite::Suite;

pub(crate) fn creation(rt: &impl Print) -> io::Result<()> {
    title(rt, "creation: members")?;
    create(rt, 1, 1, &[])?;
    create(rt, 8, 1, &[1, 1, 1, 1, 1, 1, 1, 1])?;
    create(rt, 9, 1, &[1, 1, 1, 1, 1, 1, 1, 1, 1])?;
    create(rt, 0, 0, &[16, 16, 16, 16, 16, 16, 16, 16, 16])?;
    title(rt, "creation: votes")?;
    create(rt, 1, 15, &[15])?;
    create(rt, 1, 16, &[16])?;
    create(rt, 0, 0, &[16])?;
    title(rt, "creation: R and W")?;
    create(rt, 0, 4, &[2, 2])?;
    create(rt, 1, 4, &[2, 2])?;
    create(rt, 4, 0, &[2, 2])?;
    create(rt, 4, 1, &[2, 2])?;
    create(rt, 5, 1, &[2, 2])?;
    create(rt, 1, 5, &[2, 2])?;
    create(rt, 2, 2, &[2, 2])?;
    create(rt, 2, 3, &[2, 2])?;
    create(rt, 1, 1, &[0, 0])?;
    create(rt, 120, 120, &[15, 15, 15, 15, 15, 15, 15, 15])?;
    create(rt, 4294967295, 4294967295, &[2, 2])?;
    Ok(())
}

pub(crate) fn names(rt: &impl Print) -> io::Result<()> {
    title(rt, "names 0 and 1048575")?;
    let mut s = create(rt, 1, 1, &[1])?;
    ins(rt, &mut s, 1, 1, 0, Value::LARGEST)?;
    ins(rt, &mut s, 1, 1, Name::LARGEST, 0)?;
    near(rt, &s, 1, 500)?;
    each(rt, s, 1, 1, 0, 1)?;
    each(rt, s, 1, 1, Name::LARGEST, 1)?;
    title(rt, "names 1048576 and 4294967295")?;
    each(rt, s, 1, 1, Name::LARGEST + 1, 1)?;
    each(rt, s, 1, 1, 4294967295, 1)?;
    title(rt, "5 comes before 6 and 7")?;
    each(rt, s, 2, 2, Name::LARGEST + 1, Value::LARGEST + 1)?;
    Ok(())
}

// 5 is present, and 6 is not.
fn with_five(rt: &impl Print) -> io::Result<Suite> {
    let mut s = three(rt)?;
    ins(rt, &mut s, 3, 3, 5, 1)?;
    Ok(s)
}

pub(crate) fn values(rt: &impl Print) -> io::Result<()> {
    title(rt, "values 65535 and 65536")?;
    let s = with_five(rt)?;
    each(rt, s, 3, 3, 5, Value::LARGEST)?;
    each(rt, s, 3, 3, 5, Value::LARGEST + 1)?;
    each(rt, s, 3, 3, 6, Value::LARGEST)?;
    each(rt, s, 3, 3, 6, Value::LARGEST + 1)?;
    title(rt, "6 comes before 7")?;
    each(rt, s, 8, 8, 5, Value::LARGEST + 1)?;
    Ok(())
}

pub(crate) fn sets(rt: &impl Print) -> io::Result<()> {
    title(rt, "a member that doesn't exist; 7 comes before 8")?;
    let s = with_five(rt)?;
    each(rt, s, 7, 7, 5, 2)?;
    each(rt, s, 8, 3, 5, 2)?;
    each(rt, s, 3, 8, 5, 2)?;
    each(rt, s, 1, 8, 5, 2)?;
    each(rt, s, 2147483651, 3, 5, 2)?;
    title(rt, "votes of the read set; 8 comes before 9")?;
    each(rt, s, 4, 3, 5, 2)?;
    each(rt, s, 4, 4, 5, 2)?;
    title(rt, "votes of the write set; 9 comes before 10 and 11")?;
    each(rt, s, 3, 4, 5, 2)?;
    each(rt, s, 3, 4, 6, 2)?;
    title(rt, "10 and 11")?;
    each(rt, s, 6, 6, 5, 2)?;
    each(rt, s, 6, 6, 6, 2)?;
    Ok(())
}

pub(crate) fn eight_members(rt: &impl Print) -> io::Result<()> {
    title(rt, "eight members")?;
    let s = create(rt, 1, 8, &[1, 1, 1, 1, 1, 1, 1, 1])?;
    each(rt, s, 128, 255, 5, 1)?;
    each(rt, s, 128, 127, 5, 1)?;
    each(rt, s, 256, 255, 5, 1)?;
    Ok(())
}

pub(crate) fn new_versions(rt: &impl Print) -> io::Result<()> {
    title(rt, "gaps of version 16777214 and 16777215")?;
    each(
        rt,
        alone(rt, Member::empty(Version::LARGEST - 1))?,
        1,
        1,
        5,
        2,
    )?;
    each(rt, alone(rt, Member::empty(Version::LARGEST))?, 1, 1, 5, 2)?;
    title(rt, "entries of version 16777214 and 16777215")?;
    each(
        rt,
        alone(rt, holding_five(0, Version::LARGEST - 1, 0))?,
        1,
        1,
        5,
        2,
    )?;
    each(
        rt,
        alone(rt, holding_five(0, Version::LARGEST, 0))?,
        1,
        1,
        5,
        2,
    )?;
    title(rt, "the gap below, at 16777214 and 16777215")?;
    each(
        rt,
        alone(rt, holding_five(Version::LARGEST - 1, 1, 0))?,
        1,
        1,
        5,
        2,
    )?;
    each(
        rt,
        alone(rt, holding_five(Version::LARGEST, 1, 0))?,
        1,
        1,
        5,
        2,
    )?;
    title(rt, "the gap above, at 16777214 and 16777215")?;
    each(
        rt,
        alone(rt, holding_five(0, 1, Version::LARGEST - 1))?,
        1,
        1,
        5,
        2,
    )?;
    each(
        rt,
        alone(rt, holding_five(0, 1, Version::LARGEST))?,
        1,
        1,
        5,
        2,
    )?;
    Ok(())
}

pub(crate) fn room(rt: &impl Print) -> io::Result<()> {
    title(rt, "31 entries, then 32")?;
    let mut s = create(rt, 1, 1, &[1])?;
    fill(rt, &mut s, 1, 1, 1, 31)?;
    each(rt, s, 1, 1, 50, 2)?;
    ins(rt, &mut s, 1, 1, 50, 2)?;
    each(rt, s, 1, 1, 51, 2)?;
    each(rt, s, 1, 1, 50, 2)?;
    title(rt, "a freed place is used again")?;
    del(rt, &mut s, 1, 1, 50)?;
    ins(rt, &mut s, 1, 1, 51, 2)?;
    ins(rt, &mut s, 1, 1, 50, 2)?;
    Ok(())
}

pub(crate) fn version_before_room(rt: &impl Print) -> io::Result<()> {
    title(
        rt,
        "12 comes before 13: member 0 is full, member 1 has a gap of version 16777214, then 16777215",
    )?;
    let mut s = create(rt, 1, 2, &[1, 1])?;
    fill(rt, &mut s, 3, 3, 3, 32)?;
    s.members[1] = Member::empty(Version::LARGEST - 1);
    ins(rt, &mut s, 2, 3, 50, 2)?;
    s.members[1] = Member::empty(Version::LARGEST);
    ins(rt, &mut s, 2, 3, 50, 2)?;
    Ok(())
}
