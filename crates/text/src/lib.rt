// One command line in, and one answer line out, as bytes. Nothing here knows what a suite is.
#![tactic(auto)]

mod grammar;
mod scan;
mod write;

ghost use Rattle.std.specs.Prelude.{◌≡◌, length};
ghost use Rattle.text.specs.Line.{command_of, ballots_of};
ghost use Rattle.text.specs.Answer.{text_of, place_after, printed};

// A set of members as a line gives it: `-` is everyone.
#[derive(Clone, Copy)]
pub enum Members {
    Everyone,
    Only(u32),
}

#[derive(Clone, Copy)]
pub enum Command {
    Suite {
        read: u32,
        write: u32,
    },
    Look {
        read: Members,
        name: u32,
    },
    Near {
        read: Members,
        name: u32,
    },
    Insert {
        read: Members,
        write: Members,
        name: u32,
        value: u32,
    },
    Update {
        read: Members,
        write: Members,
        name: u32,
        value: u32,
    },
    Remove {
        read: Members,
        write: Members,
        name: u32,
    },
}

impl Command {
    // The most bytes of a line, its newline not counted.
    pub const LONGEST: usize = 80;
}

// What a `suite` line asks for: R, W, its first eight votes, zeros after them, and how many votes there were.
#[derive(Clone, Copy)]
pub struct Creation {
    pub read: u32,
    pub write: u32,
    pub votes: [u32; Creation::VOTES],
    pub count: usize,
}

impl Creation {
    // How many votes are kept: a suite has no more members.
    pub const VOTES: usize = 8;
}

// The command that a line gives, if it gives one.
pub fn parse(line: &[u8]) -> Option<Command>
    ensures { result ≡ command_of line.now }
{
    let end = grammar::word_end(line)?;
    grammar::command_in(line, end)
}

// What a `suite` line asks for. The room for votes is only made where it is asked for.
pub fn ballots(line: &[u8]) -> Option<Creation>
    ensures { result ≡ ballots_of line.now }
{
    let end = grammar::word_end(line)?;
    if &line[..end] == b"suite".as_slice() {
        grammar::creating(line, end + 1)
    } else {
        None
    }
}

// What a line is answered.
#[derive(Clone, Copy)]
pub enum Reply {
    SuiteOk,
    Ok {
        version: u32,
    },
    Removed {
        version: u32,
        requests: u32,
    },
    At {
        version: u32,
        value: u32,
    },
    Absent {
        version: u32,
    },
    // Each end is 0 for LOW, n + 1 for the name n, 1,048,577 for HIGH.
    Near {
        below: u32,
        above: u32,
        requests: u32,
    },
    Refused {
        number: u32,
    },
}

impl Reply {
    // The most bytes of an answer, its newline counted.
    pub const LONGEST: usize = 33;
    // The end HIGH.
    pub const HIGH: u32 = 1_048_577;
}

// Writes the answer's line at `at` and answers where it ends. Where it does not fit nothing is written, and `at` comes back.
pub fn print(reply: Reply, out: &mut [u8], at: usize) -> usize
    ensures value { result ≡ place_after (length out.old) at (text_of reply) }
    ensures out_after { out.new ≡ printed out.old at (text_of reply) }
{
    let size = write::size(reply);
    if out.len() < size {
        return at;
    }
    if out.len() - size < at {
        return at;
    }
    let end = at + size;
    write::line(out, end, reply);
    end
}
