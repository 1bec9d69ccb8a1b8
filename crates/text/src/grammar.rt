// The commands and their arguments, one after another.
ghost use Rattle.std.specs.Prelude.{◌≡◌, ◌+◌, ◌≤◌, length, take, MatchOption};
ghost use Rattle.text.specs.Line.{reading, changing, removing, creating, voting, command_in};
ghost use Rattle.text.specs.Scan.{words_from, change_in, Worded, Wordless};

use crate::{Command, Creation, Members, scan};

// Where the command's word ends, at a space.
pub(crate) fn word_end(line: &[u8]) -> Option<usize>
    ensures { MatchOption result (Wordless line.now) (λ end. Worded line.now end) }
{
    if Command::LONGEST < line.len() {
        return None;
    }
    let end = scan::letters(line);
    if *line.get(end)? != b' ' {
        return None;
    }
    Some(end)
}

// The command whose word is the first `end` bytes, with its arguments behind the space there.
pub(crate) fn command_in(line: &[u8], end: usize) -> Option<Command>
    requires { end ≤ length line.now }
    ensures { result ≡ command_in (take end line.now) (words_from line.now (end + 1)) }
{
    let word = &line[..end];
    let at = end + 1;
    if word == b"look".as_slice() {
        let (read, name) = reading(line, at)?;
        return Some(Command::Look { read, name });
    }
    if word == b"near".as_slice() {
        let (read, name) = reading(line, at)?;
        return Some(Command::Near { read, name });
    }
    change_in(word, line, at)
}

// The command of a word that is none of these: each of them changes something.
fn change_in(word: &[u8], line: &[u8], at: usize) -> Option<Command>
    ensures { result ≡ change_in word.now (words_from line.now at) }
{
    if word == b"ins".as_slice() {
        let (read, write, name, value) = changing(line, at)?;
        return Some(Command::Insert {
            read,
            write,
            name,
            value,
        });
    }
    if word == b"upd".as_slice() {
        let (read, write, name, value) = changing(line, at)?;
        return Some(Command::Update {
            read,
            write,
            name,
            value,
        });
    }
    if word == b"del".as_slice() {
        let (read, write, name) = removing(line, at)?;
        return Some(Command::Remove { read, write, name });
    }
    if word == b"suite".as_slice() {
        let Creation { read, write, .. } = creating(line, at)?;
        return Some(Command::Suite { read, write });
    }
    None
}

// The arguments `S K` of `look` and of `near`. Each of the two has a copy of its own, since a call would cost more.
#[inline(always)]
fn reading(line: &[u8], at: usize) -> Option<(Members, u32)>
    ensures { result ≡ reading (λ s k. (s, k)) (words_from line.now at) }
{
    let read = scan::set_at(line, at)?;
    let name = scan::last_number_at(line, read.end + 1)?;
    Some((read.it, name))
}

// The arguments `S T K V` of `ins` and of `upd`, with a copy for each.
#[inline(always)]
fn changing(line: &[u8], at: usize) -> Option<(Members, Members, u32, u32)>
    ensures { result ≡ changing (λ s t k v. (s, t, k, v)) (words_from line.now at) }
{
    let read = scan::set_at(line, at)?;
    let write = scan::set_at(line, read.end + 1)?;
    let name = scan::number_at(line, write.end + 1)?;
    let value = scan::last_number_at(line, name.end + 1)?;
    Some((read.it, write.it, name.it, value))
}

// The arguments `S T K` of `del`.
fn removing(line: &[u8], at: usize) -> Option<(Members, Members, u32)>
    ensures { result ≡ removing (λ s t k. (s, t, k)) (words_from line.now at) }
{
    let read = scan::set_at(line, at)?;
    let write = scan::set_at(line, read.end + 1)?;
    let name = scan::last_number_at(line, write.end + 1)?;
    Some((read.it, write.it, name))
}

// The arguments `R W votes..` of `suite`.
pub(crate) fn creating(line: &[u8], at: usize) -> Option<Creation>
    ensures { result ≡ creating (words_from line.now at) }
{
    let read = scan::number_at(line, at)?;
    let write = scan::number_at(line, read.end + 1)?;
    voting(line, write.end + 1, read.it, write.it)
}

// The votes, to the end of the line.
fn voting(line: &[u8], at: usize, read: u32, write: u32) -> Option<Creation>
    ensures { result ≡ voting read write (words_from line.now at) }
{
    let mut votes = [0; Creation::VOTES];
    let mut count = 0;
    let mut next = at;
    while next <= line.len() {
        let vote = scan::number_at(line, next)?;
        if count < Creation::VOTES {
            votes[count] = vote.it;
        }
        count += 1;
        next = vote.end + 1;
    }
    Some(Creation {
        read,
        write,
        votes,
        count,
    })
}
