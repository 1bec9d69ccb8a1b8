// The suites that the examples start from.
use crate::calls::{create, del, ins};
use member::{Bound, Member, Name, Row};
use std::io;
use suite::Suite;

// Three members with one vote each, two of which make either set.
pub(crate) fn three(rt: &impl Print) -> io::Result<Suite> {
    create(rt, 2, 2, &[1, 1, 1])
}

// A suite of this member only, made by hand.
pub(crate) fn alone(rt: &impl Print, m: Member) -> io::Result<Suite> {
    let mut s = create(rt, 1, 1, &[1])?;
    s.members[0] = m;
    Ok(s)
}

// A member that holds 5, with the versions of the gap below, of the entry and of the gap above.
pub(crate) fn holding_five(below: u32, version: u32, above: u32) -> Member {
    Member::empty(below).append(Row {
        name: 5,
        version,
        value: 1,
        gap: above,
    })
}

// A member whose one entry was dropped: its place holds zero again.
pub(crate) fn emptied() -> Member {
    holding_five(0, 1, 0).drop(0)
}

// A member whose one entry fell when LOW..HIGH was coalesced, with the version that its gap got.
pub(crate) fn swept(gap: u32) -> Member {
    let low = Bound {
        end: 0,
        version: 0,
        value: 0,
    };
    let high = Bound {
        end: Name::HIGH,
        ..low
    };
    holding_five(0, 1, 0).coalesce(low, high, gap)
}

// The names from `many` down to 1, the even ones to one write set and the odd ones to the other.
pub(crate) fn fill(
    rt: &impl Print,
    s: &mut Suite,
    read: u32,
    even: u32,
    odd: u32,
    many: u32,
) -> io::Result<()> {
    println!(rt; "fill {read} {even} {odd} {many}")?;
    for name in (1..=many).rev() {
        let set = if name % 2 == 0 { even } else { odd };
        let _ = s.insert(read, set, name, 7);
    }
    Ok(())
}

// The listing up to its removal.
pub(crate) fn listing(rt: &impl Print) -> io::Result<Suite> {
    let mut s = three(rt)?;
    ins(rt, &mut s, 3, 3, 20, 7)?;
    ins(rt, &mut s, 6, 6, 10, 3)?;
    ins(rt, &mut s, 5, 5, 30, 9)?;
    del(rt, &mut s, 5, 6, 20)?;
    Ok(s)
}
