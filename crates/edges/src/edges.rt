// 'Both sides of each edge'.
use crate::build::{alone, fill, holding_five, three};
use crate::calls::{create, del, each, ins, look, upd};
use crate::say::title;
use member::Version;
use std::io;
use suite::Suite;

pub(crate) fn votes_and_quorums(rt: &impl Print) -> io::Result<()> {
    title(rt, "votes, R and W")?;
    create(rt, 2, 3, &[2, 1, 1])?;
    create(rt, 1, 3, &[2, 1, 1])?;
    let mut s = create(rt, 1, 1, &[1, 0, 0])?;
    title(rt, "members with no votes are read and written too")?;
    ins(rt, &mut s, 1, 1, 5, 1)?;
    upd(rt, &mut s, 7, 7, 5, 2)?;
    look(rt, &s, 1, 5)?;
    look(rt, &s, 7, 5)?;
    look(rt, &s, 6, 5)?;
    Ok(())
}

pub(crate) fn set_zero(rt: &impl Print) -> io::Result<()> {
    title(rt, "set 0")?;
    let s = create(rt, 1, 1, &[1])?;
    each(rt, s, 0, 0, 5, 1)?;
    each(rt, s, 0, 1, 5, 1)?;
    each(rt, s, 1, 0, 5, 1)?;
    Ok(())
}

pub(crate) fn largest_version(rt: &impl Print) -> io::Result<()> {
    title(rt, "an entry of version 16777214")?;
    let mut s = alone(rt, holding_five(0, Version::LARGEST - 1, 0))?;
    upd(rt, &mut s, 1, 1, 5, 2)?;
    title(rt, "an entry of version 16777215")?;
    upd(rt, &mut s, 1, 1, 5, 3)?;
    look(rt, &s, 1, 5)?;
    Ok(())
}

pub(crate) fn leftover_in_a_full_member(rt: &impl Print) -> io::Result<()> {
    title(rt, "member 0 is full and holds the leftover of 16")?;
    let mut s = create(rt, 2, 1, &[1, 1])?;
    fill(rt, &mut s, 3, 3, 3, 32)?;
    del(rt, &mut s, 3, 2, 16)?;
    look(rt, &s, 3, 16)?;
    ins(rt, &mut s, 3, 1, 50, 1)?;
    ins(rt, &mut s, 3, 1, 16, 2)?;
    look(rt, &s, 3, 16)?;
    title(rt, "the place that member 1 freed is used again")?;
    ins(rt, &mut s, 3, 2, 50, 1)?;
    ins(rt, &mut s, 3, 2, 51, 1)?;
    look(rt, &s, 3, 50)?;
    look(rt, &s, 3, 51)?;
    Ok(())
}

// Member 0 holds the others, and of 160, 150 and 170 those whose set names it.
fn around_160(rt: &impl Print, own: u32, below: u32, above: u32, others: u32) -> io::Result<Suite> {
    let mut s = three(rt)?;
    ins(rt, &mut s, 7, own, 160, 1)?;
    ins(rt, &mut s, 7, below, 150, 2)?;
    ins(rt, &mut s, 7, above, 170, 3)?;
    fill(rt, &mut s, 7, 3, 5, others)?;
    Ok(s)
}

// The removal of 160 in members 0 and 1 of a copy, and how much room it leaves in member 0.
fn remove_160(rt: &impl Print, mut s: Suite) -> io::Result<()> {
    del(rt, &mut s, 7, 3, 160)?;
    look(rt, &s, 7, 160)?;
    ins(rt, &mut s, 7, 3, 200, 1)?;
    ins(rt, &mut s, 7, 3, 201, 1)?;
    Ok(())
}

pub(crate) fn removal_from_a_full_member(rt: &impl Print) -> io::Result<()> {
    title(rt, "both neighbours must be added")?;
    let mut s = around_160(rt, 7, 6, 6, 31)?;
    remove_160(rt, s)?;
    title(rt, "the other members have room")?;
    del(rt, &mut s, 7, 6, 160)?;
    title(rt, "the successor must be added")?;
    remove_160(rt, around_160(rt, 7, 7, 6, 30)?)?;
    title(rt, "the predecessor must be added")?;
    remove_160(rt, around_160(rt, 7, 6, 7, 30)?)?;
    title(rt, "neither must be added")?;
    remove_160(rt, around_160(rt, 7, 7, 7, 29)?)?;
    title(
        rt,
        "both neighbours must be added and none dropped, with 31 entries, then 30",
    )?;
    remove_160(rt, around_160(rt, 6, 6, 6, 31)?)?;
    remove_160(rt, around_160(rt, 6, 6, 6, 30)?)?;
    Ok(())
}
