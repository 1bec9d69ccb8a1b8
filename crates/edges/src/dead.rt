// 'Ways to bring back the dead': in each script the wrong way would give another answer.
use crate::build::{listing, three};
use crate::calls::{create, del, first_member, ins, look, near, upd};
use crate::say::title;
use std::io;
use suite::Suite;

// Members 1 and 2 are two of three and have two votes of four. If they could remove 20, member 0, which is a read set, would
// bring it back.
pub(crate) fn counting_members(rt: &impl Print) -> io::Result<()> {
    title(rt, "votes count, not members")?;
    let mut s = create(rt, 2, 3, &[2, 1, 1])?;
    ins(rt, &mut s, 1, 7, 20, 7)?;
    del(rt, &mut s, 1, 6, 20)?;
    look(rt, &s, 1, 20)?;
    look(rt, &s, 2, 20)?;
    del(rt, &mut s, 1, 3, 20)?;
    look(rt, &s, 1, 20)?;
    look(rt, &s, 6, 20)?;
    Ok(())
}

// Member 0 alone would name 20 as a neighbour, and the removal of 10 would then write 20 to the others.
pub(crate) fn one_members_neighbour(rt: &impl Print) -> io::Result<()> {
    title(rt, "after the listing's removal member 0 still holds 20")?;
    let mut s = listing(rt)?;
    first_member(rt, &s, 20)?;
    near(rt, &s, 3, 15)?;
    near(rt, &s, 5, 15)?;
    near(rt, &s, 6, 15)?;
    near(rt, &s, 7, 15)?;
    near(rt, &s, 3, 25)?;
    near(rt, &s, 5, 25)?;
    near(rt, &s, 3, 20)?;
    near(rt, &s, 5, 20)?;
    del(rt, &mut s, 3, 6, 10)?;
    look(rt, &s, 6, 20)?;
    look(rt, &s, 3, 20)?;
    look(rt, &s, 5, 20)?;
    near(rt, &s, 3, 20)?;
    Ok(())
}

// A second insert at version 2 would be level with the gap that member 0 or 2 has, and be lost where that answers first.
pub(crate) fn version_from_entries_alone(rt: &impl Print) -> io::Result<()> {
    title(
        rt,
        "the version of the gap counts, not only those of entries",
    )?;
    let mut s = listing(rt)?;
    ins(rt, &mut s, 3, 3, 20, 8)?;
    look(rt, &s, 3, 20)?;
    look(rt, &s, 5, 20)?;
    look(rt, &s, 6, 20)?;
    title(rt, "the same with the gap in a lower-numbered member")?;
    let mut s = three(rt)?;
    ins(rt, &mut s, 7, 7, 20, 7)?;
    del(rt, &mut s, 7, 3, 20)?;
    ins(rt, &mut s, 7, 6, 20, 8)?;
    look(rt, &s, 3, 20)?;
    del(rt, &mut s, 7, 6, 20)?;
    look(rt, &s, 3, 20)?;
    look(rt, &s, 5, 20)?;
    Ok(())
}

// Member 0 does not hold 10. If the insert of 20 raised the gap around 10 there, it would be level with the entry of member 2.
pub(crate) fn version_of_a_split_gap(rt: &impl Print) -> io::Result<()> {
    title(rt, "both halves of a split gap keep its version")?;
    let mut s = three(rt)?;
    ins(rt, &mut s, 6, 6, 10, 3)?;
    ins(rt, &mut s, 3, 3, 20, 7)?;
    look(rt, &s, 5, 10)?;
    look(rt, &s, 3, 5)?;
    look(rt, &s, 3, 15)?;
    look(rt, &s, 3, 25)?;
    Ok(())
}

// All members hold 10, 15 and 20; then 15 is gone from members 0 and 2.
fn without_15(rt: &impl Print) -> io::Result<Suite> {
    let mut s = three(rt)?;
    ins(rt, &mut s, 7, 7, 10, 1)?;
    ins(rt, &mut s, 7, 7, 15, 5)?;
    ins(rt, &mut s, 7, 7, 20, 1)?;
    del(rt, &mut s, 7, 5, 15)?;
    Ok(s)
}

// Member 0 wins round one by the gap that 15 left, and its 10 is stale. If that were written, members 0 and 2 would bring
// back the old value.
pub(crate) fn stale_predecessor(rt: &impl Print) -> io::Result<()> {
    title(rt, "the predecessor's newest version is written")?;
    let mut s = without_15(rt)?;
    upd(rt, &mut s, 7, 6, 10, 2)?;
    first_member(rt, &s, 10)?;
    del(rt, &mut s, 3, 5, 20)?;
    first_member(rt, &s, 10)?;
    look(rt, &s, 5, 10)?;
    look(rt, &s, 3, 10)?;
    Ok(())
}

// The mirror image.
pub(crate) fn stale_successor(rt: &impl Print) -> io::Result<()> {
    title(rt, "the successor's newest version is written")?;
    let mut s = without_15(rt)?;
    upd(rt, &mut s, 7, 6, 20, 2)?;
    first_member(rt, &s, 20)?;
    del(rt, &mut s, 3, 5, 10)?;
    first_member(rt, &s, 20)?;
    look(rt, &s, 5, 20)?;
    look(rt, &s, 3, 20)?;
    Ok(())
}
