// Refusal 1: clauses of soundness, each broken alone and, beside it, held at its edge. The suites are made by hand.
use crate::build::{alone, emptied, holding_five, swept};
use crate::calls::{create, each, look};
use crate::say::title;
use member::{Member, Name, Version};
use std::io;
use suite::Suite;

// A suite of two members, with other R and W.
fn with_quorum(rt: &impl Print, read: u32, write: u32) -> io::Result<Suite> {
    let mut s = create(rt, 2, 1, &[1, 1])?;
    s.read = read;
    s.write = write;
    Ok(s)
}

pub(crate) fn quorum(rt: &impl Print) -> io::Result<()> {
    title(rt, "R 0, then 1")?;
    each(rt, with_quorum(rt, 0, 2)?, 3, 3, 5, 1)?;
    each(rt, with_quorum(rt, 1, 2)?, 3, 3, 5, 1)?;
    title(rt, "R and W: 3 2, 2 0, 2 3, 1 1, 2 2")?;
    look(rt, &with_quorum(rt, 3, 2)?, 3, 5)?;
    look(rt, &with_quorum(rt, 2, 0)?, 3, 5)?;
    look(rt, &with_quorum(rt, 2, 3)?, 3, 5)?;
    look(rt, &with_quorum(rt, 1, 1)?, 3, 5)?;
    look(rt, &with_quorum(rt, 2, 2)?, 3, 5)?;
    Ok(())
}

// A suite of one member whose place has this vote, with another count of members, vote and member in the places after it.
fn with_places(
    rt: &impl Print,
    vote: u32,
    count: usize,
    next: u32,
    member: Member,
) -> io::Result<Suite> {
    let mut s = create(rt, 15, 1, &[15])?;
    s.votes[0] = vote;
    s.count = count;
    s.votes[1] = next;
    s.members[1] = member;
    Ok(s)
}

pub(crate) fn places(rt: &impl Print) -> io::Result<()> {
    title(rt, "votes 15, then 16")?;
    look(rt, &with_places(rt, 15, 1, 0, Member::fresh())?, 1, 5)?;
    look(rt, &with_places(rt, 16, 1, 0, Member::fresh())?, 1, 5)?;
    title(rt, "members 0, 8, then 9")?;
    look(rt, &with_places(rt, 15, 0, 0, Member::fresh())?, 1, 5)?;
    look(rt, &with_places(rt, 15, 8, 0, Member::fresh())?, 1, 5)?;
    look(rt, &with_places(rt, 15, 9, 0, Member::fresh())?, 1, 5)?;
    title(
        rt,
        "an unused place with a vote, a gap's version, an entry; then a vote and an entry in use",
    )?;
    look(rt, &with_places(rt, 15, 1, 1, emptied())?, 1, 5)?;
    look(rt, &with_places(rt, 15, 1, 0, Member::empty(1))?, 1, 5)?;
    look(rt, &with_places(rt, 15, 1, 0, holding_five(0, 1, 0))?, 1, 5)?;
    look(rt, &with_places(rt, 14, 2, 1, holding_five(0, 1, 0))?, 3, 5)?;
    Ok(())
}

pub(crate) fn members(rt: &impl Print) -> io::Result<()> {
    title(rt, "an entry of version 0, 1, 16777215, 16777216")?;
    look(rt, &alone(rt, Member::fresh().write(5, 0, 1))?, 1, 5)?;
    look(rt, &alone(rt, Member::fresh().write(5, 1, 1))?, 1, 5)?;
    look(
        rt,
        &alone(rt, Member::fresh().write(5, Version::LARGEST, 1))?,
        1,
        5,
    )?;
    look(
        rt,
        &alone(rt, Member::fresh().write(5, Version::LARGEST + 1, 1))?,
        1,
        5,
    )?;
    title(rt, "a gap of version 16777215, 16777216")?;
    look(rt, &alone(rt, swept(Version::LARGEST))?, 1, 5)?;
    look(rt, &alone(rt, swept(Version::LARGEST + 1))?, 1, 5)?;
    title(rt, "an entry of name 1048575, 1048576")?;
    look(
        rt,
        &alone(rt, Member::fresh().write(Name::LARGEST, 1, 1))?,
        1,
        5,
    )?;
    look(
        rt,
        &alone(rt, Member::fresh().write(Name::LARGEST + 1, 1, 1))?,
        1,
        5,
    )?;
    Ok(())
}
