// The calls, each printed with what came of it.
use crate::say::{end_line, show, show_end, show_reading, show_refusal};
use std::io;
use suite::{Done, Refusal, Suite};

fn show_all(rt: &impl Print, numbers: &[u32]) -> io::Result<()> {
    for number in numbers {
        show(rt, *number)?;
    }
    Ok(())
}

// The suite that creation makes; where it is refused, a suite of no members.
pub(crate) fn create(rt: &impl Print, read: u32, write: u32, votes: &[u32]) -> io::Result<Suite> {
    print!(rt; "suite {read} {write}")?;
    show_all(rt, votes)?;
    let made = Suite::create(read, write, votes);
    match made {
        Ok(_) => print!(rt; " -> suite ok")?,
        Err(refusal) => show_refusal(rt, refusal)?,
    }
    end_line(rt)?;
    Ok(made.unwrap_or(Suite::blank()))
}

pub(crate) fn look(rt: &impl Print, s: &Suite, set: u32, name: u32) -> io::Result<()> {
    print!(rt; "look {set} {name}")?;
    match s.lookup(set, name) {
        Ok(looked) => {
            show_reading(rt, looked.reading)?;
            show(rt, looked.requests)?;
        }
        Err(refusal) => show_refusal(rt, refusal)?,
    }
    end_line(rt)
}

pub(crate) fn near(rt: &impl Print, s: &Suite, set: u32, name: u32) -> io::Result<()> {
    print!(rt; "near {set} {name}")?;
    match s.neighbours(set, name) {
        Ok(near) => {
            print!(rt; " ->")?;
            show_end(rt, near.below)?;
            show_end(rt, near.above)?;
            show(rt, near.requests)?;
        }
        Err(refusal) => show_refusal(rt, refusal)?,
    }
    end_line(rt)
}

// The answer of a change.
fn show_change(rt: &impl Print, answer: Result<Done, Refusal>) -> io::Result<()> {
    match answer {
        Ok(Done { version, requests }) => print!(rt; " -> ok {version} {requests}")?,
        Err(refusal) => show_refusal(rt, refusal)?,
    }
    end_line(rt)
}

pub(crate) fn ins(
    rt: &impl Print,
    s: &mut Suite,
    read: u32,
    write: u32,
    name: u32,
    value: u32,
) -> io::Result<()> {
    print!(rt; "ins {read} {write} {name} {value}")?;
    show_change(rt, s.insert(read, write, name, value))
}

pub(crate) fn upd(
    rt: &impl Print,
    s: &mut Suite,
    read: u32,
    write: u32,
    name: u32,
    value: u32,
) -> io::Result<()> {
    print!(rt; "upd {read} {write} {name} {value}")?;
    show_change(rt, s.update(read, write, name, value))
}

pub(crate) fn del(
    rt: &impl Print,
    s: &mut Suite,
    read: u32,
    write: u32,
    name: u32,
) -> io::Result<()> {
    print!(rt; "del {read} {write} {name}")?;
    show_change(rt, s.remove(read, write, name))
}

// All five calls on the same suite: each change is made in a copy of it.
pub(crate) fn each(
    rt: &impl Print,
    s: Suite,
    read: u32,
    write: u32,
    name: u32,
    value: u32,
) -> io::Result<()> {
    look(rt, &s, read, name)?;
    near(rt, &s, read, name)?;
    let mut inserted = s;
    ins(rt, &mut inserted, read, write, name, value)?;
    let mut updated = s;
    upd(rt, &mut updated, read, write, name, value)?;
    let mut removed = s;
    del(rt, &mut removed, read, write, name)
}

// What member 0 alone holds at the name.
pub(crate) fn first_member(rt: &impl Print, s: &Suite, name: u32) -> io::Result<()> {
    print!(rt; "member 0 {name}")?;
    show_reading(rt, s.members[0].reading(name))?;
    end_line(rt)
}
