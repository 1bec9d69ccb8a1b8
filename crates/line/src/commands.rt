// What a line asks of a suite that was accepted.
ghost use Rattle.std.specs.Prelude.{◌≡◌};
ghost use Rattle.suite.specs.Suite.{ballots};
ghost use Rattle.line.specs.Standing.{set_of};
ghost use Rattle.line.specs.Lent.{reply_in, carried_out};

use crate::reply;
use suite::{Refusal, Suite};
use text::{Command, Members, Reply};

// The set that a line gives.
fn set_of(suite: &Suite, members: Members) -> u32
    ensures { result ≡ set_of (ballots suite.now) members }
{
    match members {
        Members::Everyone => suite.frame().everyone(),
        Members::Only(set) => set,
    }
}

// The reply to a command, with what it leaves.
pub(crate) fn carry_out(suite: &mut Suite, command: Option<Command>) -> Reply
    ensures { reply_in result suite.new ≡ carried_out suite.old command }
{
    match command {
        Some(Command::Look { read, name }) => {
            reply::looked(suite.lookup_unchecked(set_of(suite, read), name))
        }
        Some(Command::Near { read, name }) => {
            reply::near(suite.neighbours_unchecked(set_of(suite, read), name))
        }
        Some(
            Command::Insert {
                read,
                write,
                name,
                value,
            },
        ) => {
            let (from, to) = (set_of(suite, read), set_of(suite, write));
            reply::put(suite.insert_unchecked(from, to, name, value))
        }
        Some(
            Command::Update {
                read,
                write,
                name,
                value,
            },
        ) => {
            let (from, to) = (set_of(suite, read), set_of(suite, write));
            reply::put(suite.update_unchecked(from, to, name, value))
        }
        Some(Command::Remove { read, write, name }) => {
            let (from, to) = (set_of(suite, read), set_of(suite, write));
            reply::removed(suite.remove_unchecked(from, to, name))
        }
        Some(Command::Suite { .. }) | None => reply::no(Refusal::NotUnderstood),
    }
}
